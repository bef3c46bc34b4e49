//! Finds which of given concepts or groups have a number of matching pairs that lies in a
//! cardinality, by reading the rows of each.
ghost use Rattle.std.specs.Prelude.{◌≡◌, ◌<◌, ◌&&◌, All, List, cond, count_by, not, true, IfOk, filter, length};
ghost use Rattle.std.specs.Prelude.{slice_get};
ghost use Rattle.std.specs.List.{sum_by};
ghost use Rattle.constraint_tree.specs.Passing.{lies_in as lies_in_of};
ghost use Rattle.postings.specs.Columns.{AreSources, AreTypes};
ghost use Rattle.postings.specs.Entries.{Entry};
ghost use Rattle.postings.specs.Groups.{groups_in};
ghost use Rattle.postings.specs.Indexed.{types_of};
ghost use Rattle.pair_sets.specs.inside.Among.{pairs_among as pairs_among_of, pairs_of_concept as pairs_of_concept_of};
ghost use Rattle.pair_sets.specs.inside.Among.{rows_of_group_number};
ghost use Rattle.pair_sets.specs.inside.Hits.{has_source_in, is_type_in, value_of};
ghost use Rattle.candidates.specs.Extents.{group_row_count};
ghost use Rattle.candidates.specs.Numbers.{is_one_of};
ghost use Rattle.candidates.specs.RowCounts.{row_count_of};
ghost use Rattle.reading.specs.Counted.{CountsWithin, HandsOut};
ghost use Rattle.pair_sets.specs.Tested.{IsTestBelow, passes_of};

use crate::passing::passes;
use crate::tested::Tested;
use crate::types::is_typed;
use constraint_tree::Cardinality;
use idset::ConceptSet;
use postings::{FlaggedNumber, RowCells};
use reading::{Answer, Counter, Reader};
use std::alloc::AllocError;

// Returns whether the number `pairs` lies in the cardinality `count`.
fn lies_in(count: Cardinality, pairs: u64) -> bool
    ensures { result ≡ lies_in_of count pairs }
{
    let enough = count.min <= pairs;
    match count.max {
        Some(most) => enough && pairs <= most,
        None => enough,
    }
}

// Counts the distinct matching pairs of `rows`, which are the rows of one group if `grouped`, or
// else of one source. These are the matching rows that are the first with their pair there. A row
// matches if its type is in `types` and its value passes `tested`.
fn pairs_among<S: ConceptSet>(
    reader: Reader<'_>,
    rows: &[u32],
    grouped: bool,
    types: &Answer<S>,
    tested: &Tested<S>,
) -> u64
    requires rows { All (λ n. n < length reader.indexes.now.rows) rows.now }
    requires types { S.bound_of types.now ≡ length reader.indexes.now.concepts }
    requires tested { IsTestBelow S.bound_of (length reader.indexes.now.concepts) tested.now }
    ensures { result ≡ pairs_among_of reader.entry.indexes.now grouped
        (is_one_of reader.entry.indexes.now.concepts (S.items_of types.now))
        (passes_of S.items_of reader.entry.indexes.now.concepts tested.now) rows.now }
{
    let mut pairs = 0u64;
    for n in rows {
        let row = reader.cells(*n);
        if counts(reader, row, grouped, types, tested) {
            pairs += 1;
        }
    }
    pairs
}

// Returns whether `row` is the first with its pair (in its group if `grouped`, else in its source),
// its type is in `types`, and its value passes `tested`.
fn counts<S: ConceptSet>(
    reader: Reader<'_>,
    row: RowCells,
    grouped: bool,
    types: &Answer<S>,
    tested: &Tested<S>,
) -> bool
    requires types { S.bound_of types.now ≡ length reader.indexes.now.concepts }
    requires tested { IsTestBelow S.bound_of (length reader.indexes.now.concepts) tested.now }
    ensures { result ≡ (cond grouped row.is_first_in_group row.is_first
        && (is_type_in reader.entry.indexes.now (S.items_of types.now) row.type_place
        && passes_of S.items_of reader.entry.indexes.now.concepts tested.now
        (value_of reader.entry.indexes.now row.value))) }
{
    let first = if grouped {
        row.is_first_in_group
    } else {
        row.is_first
    };
    first && is_typed(reader, types, row.type_place) && passes(reader, tested, row.value)
}

// Counts the distinct pairs, read backwards, of the rows of one value, given by their columns of
// sources and types (`cells`). These are the matching rows that are the first with their pair in
// their source. A row matches if its type is in `types` and its source passes `tested`.
fn back_pairs_among<S: ConceptSet>(
    reader: Reader<'_>,
    sources: &[FlaggedNumber],
    cells: &[u32],
    types: &Answer<S>,
    tested: &Tested<S>,
) -> u64
    requires long { length sources.now ≡ length cells.now }
    requires types { S.bound_of types.now ≡ length reader.indexes.now.concepts }
    requires tested { IsTestBelow S.bound_of (length reader.indexes.now.concepts) tested.now }
    ensures { (entries : List Entry) → AreSources reader.entry.indexes.now.concepts entries
        sources.now → AreTypes (types_of reader.entry.indexes.now.rows) entries cells.now
        → result ≡ count_by (λ entry. entry.is_first
        && has_source_in (is_one_of reader.entry.indexes.now.concepts (S.items_of types.now))
        (passes_of S.items_of reader.entry.indexes.now.concepts tested.now) entry.row) entries }
{
    // tells the prover that the concepts rise, so that none has two numbers
    reader.concept_count();
    let mut pairs = 0u64;
    for place in 0..sources.len() {
        let source = sources[place];
        if counts_back(reader, source, cells[place], types, tested) {
            pairs += 1;
        }
    }
    pairs
}

// Returns whether a row is the first with its pair in its source, its type is in `types`, and its
// source passes `tested`.
fn counts_back<S: ConceptSet>(
    reader: Reader<'_>,
    source: FlaggedNumber,
    type_place: u32,
    types: &Answer<S>,
    tested: &Tested<S>,
) -> bool
    requires types { S.bound_of types.now ≡ length reader.indexes.now.concepts }
    requires tested { IsTestBelow S.bound_of (length reader.indexes.now.concepts) tested.now }
    ensures { result ≡ (source.is_first && (is_type_in reader.entry.indexes.now
        (S.items_of types.now) type_place && passes_of S.items_of reader.entry.indexes.now.concepts
        tested.now (value_of reader.entry.indexes.now source.number))) }
{
    let first = source.is_first();
    first && is_typed(reader, types, type_place) && passes(reader, tested, source.number())
}

// Counts the distinct matching pairs of `concept`; if `back`, those read backwards. Counts a visit
// for each of its rows. A pair matches if its type is in `types`, and its value (backwards: its
// source) passes `tested`.
fn pairs_of_concept<S: ConceptSet>(
    reader: Reader<'_>,
    back: bool,
    concept: u32,
    types: &Answer<S>,
    tested: &Tested<S>,
    visits: &mut Counter,
) -> u64
    requires concept { concept < length reader.indexes.now.concepts }
    requires types { S.bound_of types.now ≡ length reader.indexes.now.concepts }
    requires tested { IsTestBelow S.bound_of (length reader.indexes.now.concepts) tested.now }
    ensures counted { HandsOut (row_count_of reader.entry.indexes.now (not back) concept) visits.old
        visits.new }
    ensures pairs { result ≡ pairs_of_concept_of reader.entry.indexes.now back
        (is_one_of reader.entry.indexes.now.concepts (S.items_of types.now))
        (passes_of S.items_of reader.entry.indexes.now.concepts tested.now) concept }
{
    if back {
        let columns = reader.value_columns(concept, visits);
        back_pairs_among(reader, columns.sources, columns.types, types, tested)
    } else {
        let rows = reader.rows_of(concept, visits);
        pairs_among(reader, rows, false, types, tested)
    }
}

/// Returns those of `concepts` whose number of distinct matching pairs (if `back`, read backwards)
/// lies in `count`. A pair matches if its type is in `types`, and its value (backwards: its source)
/// passes `tested`.
pub fn concepts_among<S: ConceptSet>(
    reader: Reader<'_>,
    back: bool,
    count: Cardinality,
    concepts: &[u32],
    types: &Answer<S>,
    tested: &Tested<S>,
    visits: &mut Counter,
) -> Result<Vec<u32>, AllocError>
    requires concepts { All (λ number. number < length reader.indexes.now.concepts) concepts.now }
    requires types { S.bound_of types.now ≡ length reader.indexes.now.concepts }
    requires tested { IsTestBelow S.bound_of (length reader.indexes.now.concepts) tested.now }
    ensures within { IfOk result (λ kept. All
        (λ number. number < length reader.entry.indexes.now.concepts) kept.items) }
    ensures kept { IfOk result (λ kept. kept.items
        ≡ filter (λ number. lies_in_of count (pairs_of_concept_of reader.entry.indexes.now back
        (is_one_of reader.entry.indexes.now.concepts (S.items_of types.now))
        (passes_of S.items_of reader.entry.indexes.now.concepts tested.now) number)) concepts.now) }
    ensures counted { CountsWithin (sum_by (row_count_of reader.entry.indexes.now (not back))
        concepts.now) visits.old visits.new }
{
    let mut kept = Vec::new(reader.alloc);
    for concept in concepts {
        let pairs = pairs_of_concept(reader, back, *concept, types, tested, visits);
        if lies_in(count, pairs) {
            kept.push(*concept)?;
        }
    }
    Ok(kept)
}

/// Returns those of `groups` whose number of distinct matching pairs lies in `count`. A pair
/// matches if its type is in `types` and its value passes `tested`.
pub fn groups_among<S: ConceptSet>(
    reader: Reader<'_>,
    count: Cardinality,
    groups: &[u32],
    types: &Answer<S>,
    tested: &Tested<S>,
    visits: &mut Counter,
) -> Result<Vec<u32>, AllocError>
    requires groups { All (λ number. number < length (groups_in reader.indexes.now)) groups.now }
    requires types { S.bound_of types.now ≡ length reader.indexes.now.concepts }
    requires tested { IsTestBelow S.bound_of (length reader.indexes.now.concepts) tested.now }
    ensures within { IfOk result (λ kept. All
        (λ number. number < length (groups_in reader.entry.indexes.now)) kept.items) }
    ensures kept { IfOk result (λ kept. kept.items ≡ filter (λ number. lies_in_of count
        (pairs_among_of reader.entry.indexes.now true (is_one_of reader.entry.indexes.now.concepts
        (S.items_of types.now)) (passes_of S.items_of reader.entry.indexes.now.concepts tested.now)
        (rows_of_group_number reader.entry.indexes.now
        (slice_get (groups_in reader.entry.indexes.now) number)))) groups.now) }
    ensures counted { CountsWithin (sum_by (group_row_count reader.entry.indexes.now) groups.now)
        visits.old visits.new }
{
    let mut kept = Vec::new(reader.alloc);
    for group in groups {
        let rows = reader.unit_rows(*group, visits);
        let pairs = pairs_among(reader, rows, true, types, tested);
        if lies_in(count, pairs) {
            kept.push(*group)?;
        }
    }
    Ok(kept)
}
