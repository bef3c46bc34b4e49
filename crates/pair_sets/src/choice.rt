//! Chooses the access path of a leaf: which rows it reads.
//!
//! Finding the path reads items, which are counted. It reads them only if the bound of the leaf
//! allows for them and for the rows that are read afterwards.
ghost use Rattle.std.specs.Prelude.{ℕ, true, ◌≡◌, ◌≤◌, ◌+◌, ◌<◌, All, Bool, IfOk, IfSome, Some, filter, length};
ghost use Rattle.std.specs.List.{sum_by};
ghost use Rattle.postings.specs.Indexed.{types_of};
ghost use Rattle.postings.specs.Stats.{type_row_count};
ghost use Rattle.reading.specs.Counted.{CountsWithin, HandsOut, full, full_sum};
ghost use Rattle.candidates.specs.Numbers.{is_one_of};
ghost use Rattle.candidates.specs.RowCounts.{row_count_of};
ghost use Rattle.candidates.specs.Within.{stats_told};
ghost use Rattle.pair_sets.specs.Room.{AreTold, leaf_items, type_items, types_read, value_items};
ghost use Rattle.pair_sets.specs.Tested.{IsTestBelow, passes_of};
ghost use Rattle.pair_sets.specs.inside.AccessPaths.{AreAllThatPass, AreLookedUp, IsValuesPath, IsPathFor, LeavesRoom};
ghost use Rattle.pair_sets.specs.inside.AccessPaths.{items_by_value, looked_up, rest_besides, rest_items, values_rest};

use crate::access_paths::{AccessPath, LeafReads, PassingValues, values_are_read_before};
use crate::tested::{Tested, count_of_test};
use crate::types::{is_typed, types_in, types_to_read};
use candidates::{CandidateStats, Candidates, are_read_before, look_ups, rows_of_value, stats_for};
use idset::ConceptSet;
use reading::{Answer, Counter, Reader};
use set_algebra::Choice;
use std::alloc::AllocError;

// Looking up one value takes about as long as reading this many adjacent rows.
const VALUE: u64 = 4;

// If the values are at least as many as all rows, divided by this, reading all rows is as fast as
// reading the rows of the values.
const SHARE: u64 = 2;

/// Chooses which rows the leaf `reads` reads, given its types and its test. Counts what it reads to
/// find out, and leaves room in the bound for the rows of the path.
pub fn leaf_path<S: ConceptSet>(
    reader: Reader<'_>,
    reads: LeafReads,
    types: &Answer<S>,
    tested: Tested<S>,
    candidates: &Candidates<'_, S>,
    visits: &mut Counter,
) -> Result<AccessPath<S>, AllocError>
    requires types { S.bound_of types.now ≡ length reader.indexes.now.concepts }
    requires tested { IsTestBelow S.bound_of (length reader.indexes.now.concepts) tested }
    requires told { AreTold S.items_of reader.indexes.now reads.back tested reads.value_rows }
    requires room { full (leaf_items S.items_of reader.indexes.now reads.back reads.choice
        (S.items_of types.now) tested) ≤ reads.bound }
    ensures path { IfOk result (IsPathFor S.items_of S.bound_of reader.entry.indexes.now
        (is_one_of reader.entry.indexes.now.concepts (S.items_of types.now)) tested) }
    ensures rest { IfOk result (λ path. LeavesRoom
        (rest_items reader.entry.indexes.now reads.back (stats_told reads.back candidates.now) path)
        reads.bound visits.old visits.new) }
    ensures counted { CountsWithin reads.bound visits.old visits.new }
{
    let stats = stats_for(candidates, reads.back);
    match reads.choice {
        Choice::ByValue if are_most(reader, reads, types, &tested) => {
            by_type(reader, reads, types, tested, stats, visits)
        }
        Choice::ByValue => by_value(reader, reads, tested, stats, visits),
        Choice::ByType => by_type(reader, reads, types, tested, stats, visits),
        Choice::Scan => by_scan(reader, reads, tested, stats, visits),
    }
}

// Returns whether so many values pass that reading the rows of all types is faster than reading
// those of each value, and the bound allows for that.
fn are_most<S: ConceptSet>(
    reader: Reader<'_>,
    reads: LeafReads,
    types: &Answer<S>,
    tested: &Tested<S>,
) -> bool
    ensures { result ≡ true → full (length reader.entry.indexes.now.rows
        + types_read reader.entry.indexes.now (S.items_of types.now)) ≤ reads.bound }
{
    let rows = u64::from(reader.row_count());
    let whole = rows.saturating_add(types_to_read(reader, types));
    u64::from(count_of_test(tested)) >= rows / SHARE && whole <= reads.bound
}

// Chooses to read by value, or by the candidates if that is faster. Scans instead if the test is
// not `Within` a set.
fn by_value<S: ConceptSet>(
    reader: Reader<'_>,
    reads: LeafReads,
    tested: Tested<S>,
    candidates: Option<CandidateStats>,
    visits: &mut Counter,
) -> Result<AccessPath<S>, AllocError>
    requires tested { IsTestBelow S.bound_of (length reader.indexes.now.concepts) tested }
    requires room { full (value_items S.items_of reader.indexes.now reads.back tested)
        ≤ reads.bound }
    ensures path { IfOk result (λ path. (one : ℕ → Bool)
        → IsPathFor S.items_of S.bound_of reader.entry.indexes.now one tested path) }
    ensures rest { IfOk result (λ path. LeavesRoom
        (rest_items reader.entry.indexes.now reads.back candidates path) reads.bound visits.old
        visits.new) }
    ensures counted { CountsWithin reads.bound visits.old visits.new }
{
    let all = values_that_pass(reader, reads.back, &tested, visits)?;
    match all {
        None => Ok(AccessPath::Scan(tested)),
        Some(values) => {
            if are_read_before(candidates, values.rows) {
                return Ok(AccessPath::ByCandidates(tested));
            }
            Ok(AccessPath::ByValue(values.numbers))
        }
    }
}

// Chooses to read by type, or by the candidates or by a few values if that is faster.
fn by_type<S: ConceptSet>(
    reader: Reader<'_>,
    reads: LeafReads,
    types: &Answer<S>,
    tested: Tested<S>,
    candidates: Option<CandidateStats>,
    visits: &mut Counter,
) -> Result<AccessPath<S>, AllocError>
    requires types { S.bound_of types.now ≡ length reader.indexes.now.concepts }
    requires tested { IsTestBelow S.bound_of (length reader.indexes.now.concepts) tested }
    requires told { AreTold S.items_of reader.indexes.now reads.back tested reads.value_rows }
    requires room { full (type_items reader.indexes.now (S.items_of types.now)) ≤ reads.bound }
    ensures path { IfOk result (IsPathFor S.items_of S.bound_of reader.entry.indexes.now
        (is_one_of reader.entry.indexes.now.concepts (S.items_of types.now)) tested) }
    ensures rest { IfOk result (λ path. LeavesRoom
        (rest_items reader.entry.indexes.now reads.back candidates path) reads.bound visits.old
        visits.new) }
    ensures counted { CountsWithin reads.bound visits.old visits.new }
{
    // these calls tell the prover that the types and their rows can be counted in 64 bits
    reader.type_count();
    reader.row_count();
    let left = reads.bound.saturating_sub(types_to_read(reader, types));
    let ids = types_in(reader, types, visits)?;
    let rows = rows_of_types(reader, ids.as_slice());
    if are_read_before(candidates, rows) {
        return Ok(AccessPath::ByCandidates(tested));
    }
    let few = few_values(reader, reads, &tested, rows, left, visits)?;
    match few {
        None => Ok(AccessPath::ByType(ids, tested)),
        Some(values) => Ok(AccessPath::ByValue(values.numbers)),
    }
}

// Chooses to scan all rows, or to read by the candidates or by a few values if that is faster.
fn by_scan<S: ConceptSet>(
    reader: Reader<'_>,
    reads: LeafReads,
    tested: Tested<S>,
    candidates: Option<CandidateStats>,
    visits: &mut Counter,
) -> Result<AccessPath<S>, AllocError>
    requires tested { IsTestBelow S.bound_of (length reader.indexes.now.concepts) tested }
    requires told { AreTold S.items_of reader.indexes.now reads.back tested reads.value_rows }
    requires room { full (length reader.indexes.now.rows) ≤ reads.bound }
    ensures path { IfOk result (λ path. (one : ℕ → Bool)
        → IsPathFor S.items_of S.bound_of reader.entry.indexes.now one tested path) }
    ensures rest { IfOk result (λ path. LeavesRoom
        (rest_items reader.entry.indexes.now reads.back candidates path) reads.bound visits.old
        visits.new) }
    ensures counted { CountsWithin reads.bound visits.old visits.new }
{
    let rows = u64::from(reader.row_count());
    if are_read_before(candidates, rows) {
        return Ok(AccessPath::ByCandidates(tested));
    }
    let few = few_values(reader, reads, &tested, rows, reads.bound, visits)?;
    match few {
        None => Ok(AccessPath::Scan(tested)),
        Some(values) => Ok(AccessPath::ByValue(values.numbers)),
    }
}

// Returns the values that pass if reading their rows is faster than reading `rows` other rows.
// `left` is how many items may still be read, and allows for the other rows. If a limit of the
// values' rows is known (`reads.value_rows`), it decides, so no value is looked up in vain.
// Otherwise only as many values are looked up as `left` allows besides the other rows.
fn few_values<S: ConceptSet>(
    reader: Reader<'_>,
    reads: LeafReads,
    tested: &Tested<S>,
    rows: u64,
    left: u64,
    visits: &mut Counter,
) -> Result<Option<PassingValues>, AllocError>
    requires tested { IsTestBelow S.bound_of (length reader.indexes.now.concepts) tested.now }
    requires told { AreTold S.items_of reader.indexes.now reads.back tested.now reads.value_rows }
    requires room { rows ≤ left }
    ensures pass { IfOk result (λ few. IfSome few
        (λ values. AreAllThatPass reader.entry.indexes.now.concepts
        (passes_of S.items_of reader.entry.indexes.now.concepts tested.now) values.numbers.items)) }
    ensures rest { IfOk result (λ few. LeavesRoom
        (rest_besides reader.entry.indexes.now reads.back rows few) left visits.old visits.new) }
    ensures counted { CountsWithin left visits.old visits.new }
{
    match reads.value_rows {
        Some(own) => values_told(reader, reads.back, tested, own, rows, visits),
        None => {
            let most = left.saturating_sub(rows);
            values_looked_up(reader, reads.back, tested, rows, most, visits)
        }
    }
}

// Returns the values that pass if reading them and their rows, at most `own`, is faster than
// reading `rows` other rows.
fn values_told<S: ConceptSet>(
    reader: Reader<'_>,
    back: bool,
    tested: &Tested<S>,
    own: u64,
    rows: u64,
    visits: &mut Counter,
) -> Result<Option<PassingValues>, AllocError>
    requires tested { IsTestBelow S.bound_of (length reader.indexes.now.concepts) tested.now }
    requires told { AreTold S.items_of reader.indexes.now back tested.now (Some own) }
    ensures pass { IfOk result (λ few. IfSome few
        (λ values. AreAllThatPass reader.entry.indexes.now.concepts
        (passes_of S.items_of reader.entry.indexes.now.concepts tested.now) values.numbers.items)) }
    ensures rest { IfOk result (λ few. LeavesRoom
        (rest_besides reader.entry.indexes.now back rows few) rows visits.old visits.new) }
    ensures counted { CountsWithin rows visits.old visits.new }
{
    if !values_are_read_before(back, u64::from(count_of_test(tested)), own, rows) {
        return Ok(None);
    }
    values_that_pass(reader, back, tested, visits)
}

// Returns the values that pass if they are few and reading their rows is faster than reading `rows`
// other rows. Looks up at most `most` values, which was in vain if the other rows turn out to be
// faster.
fn values_looked_up<S: ConceptSet>(
    reader: Reader<'_>,
    back: bool,
    tested: &Tested<S>,
    rows: u64,
    most: u64,
    visits: &mut Counter,
) -> Result<Option<PassingValues>, AllocError>
    requires { IsTestBelow S.bound_of (length reader.indexes.now.concepts) tested.now }
    ensures pass { IfOk result (λ few. IfSome few
        (λ values. AreAllThatPass reader.entry.indexes.now.concepts
        (passes_of S.items_of reader.entry.indexes.now.concepts tested.now) values.numbers.items)) }
    ensures rest { IfOk result (λ few. LeavesRoom
        (rest_besides reader.entry.indexes.now back rows few) (rows + most) visits.old visits.new) }
    ensures counted { CountsWithin most visits.old visits.new }
{
    let count = u64::from(count_of_test(tested));
    if count > rows / VALUE || count > most {
        return Ok(None);
    }
    let found = values_that_pass(reader, back, tested, visits)?;
    match found {
        Some(values) if values_are_read_before(back, count, values.rows, rows) => Ok(Some(values)),
        _ => Ok(None),
    }
}

// Returns the values that pass and the count of their rows, if the test is `Within` a set, whose
// items are counted. Returns `None` for any other test.
fn values_that_pass<S: ConceptSet>(
    reader: Reader<'_>,
    back: bool,
    tested: &Tested<S>,
    visits: &mut Counter,
) -> Result<Option<PassingValues>, AllocError>
    requires { IsTestBelow S.bound_of (length reader.indexes.now.concepts) tested.now }
    ensures pass { IfOk result (λ some. IfSome some
        (λ values. AreAllThatPass reader.entry.indexes.now.concepts
        (passes_of S.items_of reader.entry.indexes.now.concepts tested.now) values.numbers.items)) }
    ensures found { IfOk result (AreLookedUp S.items_of reader.entry.indexes.now back tested.now) }
    ensures counted { HandsOut (looked_up S.items_of tested.now) visits.old visits.new }
{
    match tested {
        Tested::Within(set) => {
            let numbers = set.items(reader.alloc, visits)?;
            let rows = rows_of_values(reader, back, numbers.as_slice());
            Ok(Some(PassingValues { numbers, rows }))
        }
        Tested::Outside(_) | Tested::Number(_, _) => Ok(None),
    }
}

/// Which rows are read to find the values of sources.
#[derive(Drop)]
pub enum ValuesPath {
    /// Reads the rows of the sources, given by number.
    BySource(Vec<u32>),
    /// Reads the rows of the types, given by identifier.
    ByType(Vec<u64>),
}

/// Chooses whether the values that `sources` have in rows with a type in `types` are found by the
/// rows of the sources or of the types. Counts what it reads to find out: together with the rows
/// that are then read, at most the number of sources and of all rows.
pub fn values_path<S: ConceptSet>(
    reader: Reader<'_>,
    sources: &Answer<S>,
    types: &Answer<S>,
    visits: &mut Counter,
) -> Result<ValuesPath, AllocError>
    requires sources { S.bound_of sources.now ≡ length reader.indexes.now.concepts }
    requires types { S.bound_of types.now ≡ length reader.indexes.now.concepts }
    ensures path { IfOk result (IsValuesPath (types_of reader.entry.indexes.now.rows)
        (S.items_of sources.now)
        (is_one_of reader.entry.indexes.now.concepts (S.items_of types.now))) }
    ensures rest { IfOk result (λ path. LeavesRoom (values_rest reader.entry.indexes.now path)
        (length (S.items_of sources.now) + length reader.entry.indexes.now.rows) visits.old
        visits.new) }
    ensures counted { CountsWithin (length (S.items_of sources.now)
        + length reader.entry.indexes.now.rows) visits.old visits.new }
{
    let count = u64::from(sources.count());
    let typed = types_to_read(reader, types);
    if count <= typed || have_few_rows(reader, count, types) {
        let (own, _) = with_rows(reader, sources, visits)?;
        return Ok(ValuesPath::BySource(own));
    }
    let ids = types_in(reader, types, visits)?;
    let rows = rows_of_types(reader, ids.as_slice());
    if count > rows / VALUE || typed.saturating_add(rows) > u64::from(reader.row_count()) {
        return Ok(ValuesPath::ByType(ids));
    }
    let (own, items) = with_rows(reader, sources, visits)?;
    if look_ups(items) < rows {
        Ok(ValuesPath::BySource(own))
    } else {
        Ok(ValuesPath::ByType(ids))
    }
}

// Returns whether `sources` sources have fewer rows than the types in `types`, if each has as many
// as a concept has on average. Returns false if there are more types of rows than sources, because
// each type is tested.
fn have_few_rows<S: ConceptSet>(reader: Reader<'_>, sources: u64, types: &Answer<S>) -> bool
    requires { S.bound_of types.now ≡ length reader.indexes.now.concepts }
{
    if u64::from(reader.type_count()) > sources {
        return false;
    }
    let rows = rows_typed(reader, types);
    let own = u64::from(reader.row_count()) / u64::from(reader.concept_count()).max(1);
    look_ups(sources.saturating_mul(own + 2)) < rows
}

/// Returns how many rows have a type in `types`; `u64::MAX` if there are more. It reads none of
/// them, but tests each type of rows against `types`.
pub fn rows_typed<S: ConceptSet>(reader: Reader<'_>, types: &Answer<S>) -> u64
    requires { S.bound_of types.now ≡ length reader.indexes.now.concepts }
    ensures { result ≡ full_sum (type_row_count reader.entry.indexes.now)
        (filter (is_one_of reader.entry.indexes.now.concepts (S.items_of types.now))
        (types_of reader.entry.indexes.now.rows)) }
{
    let mut rows = 0u64;
    for place in 0..reader.type_count() {
        if is_typed(reader, types, place) {
            rows = rows.saturating_add(reader.type_row_count(reader.type_at(place).number()));
        }
    }
    rows
}

// Lists the set `concepts`, and counts its items. Also returns how many items are read by these
// sources in all: the concepts, and the rows with one of them as source.
fn with_rows<S: ConceptSet>(
    reader: Reader<'_>,
    concepts: &Answer<S>,
    visits: &mut Counter,
) -> Result<(Vec<u32>, u64), AllocError>
    requires { S.bound_of concepts.now ≡ length reader.indexes.now.concepts }
    ensures items { IfOk result (λ made. made.0.items ≡ S.items_of concepts.now) }
    ensures reads { IfOk result (λ made. made.1
        ≡ full (items_by_value reader.entry.indexes.now true (S.items_of concepts.now))) }
    ensures few { sum_by (row_count_of reader.entry.indexes.now true) (S.items_of concepts.now)
        ≤ length reader.entry.indexes.now.rows }
    ensures counted { HandsOut (length (S.items_of concepts.now)) visits.old visits.new }
{
    // tells the prover that the concepts rise, so that no source has two numbers
    reader.concept_count();
    let own = concepts.items(reader.alloc, visits)?;
    let rows = rows_of_values(reader, true, own.as_slice());
    let items = rows.saturating_add(own.len() as u64);
    Ok((own, items))
}

/// Returns how many rows have one of the types `ids`, saturated at `u64::MAX`.
pub fn rows_of_types(reader: Reader<'_>, ids: &[u64]) -> u64
    ensures { result ≡ full_sum (type_row_count reader.entry.indexes.now) ids.now }
{
    let mut rows = 0u64;
    for id in ids {
        rows = rows.saturating_add(reader.type_row_count(*id));
    }
    rows
}

// Returns how many rows have one of `concepts` as their value or, if `back`, as their source,
// saturated at `u64::MAX`.
fn rows_of_values(reader: Reader<'_>, back: bool, concepts: &[u32]) -> u64
    requires { All (λ number. number < length reader.indexes.now.concepts) concepts.now }
    ensures { result ≡ full_sum (row_count_of reader.entry.indexes.now back) concepts.now }
{
    let mut rows = 0u64;
    for concept in concepts {
        rows = rows.saturating_add(rows_of_value(reader, back, *concept));
    }
    rows
}
