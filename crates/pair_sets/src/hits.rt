//! Lists the concepts or groups for which rows count as matching pairs. A list has a number once
//! for each distinct matching pair, so how often it has a number is that concept's or group's
//! number of pairs.
ghost use Rattle.std.specs.Prelude.{ℕ, ◌≡◌, ◌<◌, ◌+◌, ◌&&◌, ◌++◌, All, Bool, List, IfOk, OnOk, count_by, false, filter};
ghost use Rattle.std.specs.Prelude.{length, nat_lt, slice_get, true};
ghost use Rattle.release_model.specs.Release.{concept_value};
ghost use Rattle.constraint_tree.specs.Passing.{is_within};
ghost use Rattle.number_lists.specs.Rising.{IsRisingBelow};
ghost use Rattle.postings.specs.Columns.{AreGroups, AreSources};
ghost use Rattle.postings.specs.Entries.{Entry, entries_of};
ghost use Rattle.postings.specs.Groups.{groups_in};
ghost use Rattle.postings.specs.Indexed.{Indexed, types_of};
ghost use Rattle.pair_sets.specs.inside.Among.{at_entry};
ghost use Rattle.number_lists.specs.Members.{times};
ghost use Rattle.pair_sets.specs.inside.Hits.{AreHits, has_pair_in, is_type_in, picked, value_of};
ghost use Rattle.pair_sets.specs.inside.Hits.{AreOwners, owner_count, counts_for_owner};
ghost use Rattle.pair_sets.specs.inside.Hits.{counts_for_concept, counts_for_group, counts_for_value};
ghost use Rattle.pair_sets.specs.inside.Hits.{entries_with_sources, entries_with_types, entries_with_values};
ghost use Rattle.std.specs.List.{sum_by};
ghost use Rattle.postings.specs.Stats.{type_row_count};
ghost use Rattle.candidates.specs.Numbers.{is_one_of};
ghost use Rattle.candidates.specs.RowCounts.{row_count_of};
ghost use Rattle.reading.specs.Counted.{CountsWithin};
ghost use Rattle.pair_sets.specs.Tested.{IsTestBelow, passes_of};

use crate::choice::rows_of_types;
use crate::passing::{none_passes, passes};
use crate::tested::{Tested, asks_for_number};
use crate::types::is_typed;
use idset::ConceptSet;
use postings::{FlaggedNumber, RowCells};
use reading::{Answer, Counter, Reader};
use std::alloc::AllocError;

// For what a row counts: its source or its group.
#[derive(Clone, Copy)]
enum Owner {
    Source,
    Group,
}

/// Lists, by reading the rows of the types `ids`, the concepts for which rows count. A row counts
/// for its source if it is the first with its pair there, and its value passes `tested`. If `back`,
/// a row counts for its value, if that is a concept and the row's source passes.
pub fn hits_by_type<S: ConceptSet>(
    reader: Reader<'_>,
    back: bool,
    ids: &[u64],
    tested: &Tested<S>,
    visits: &mut Counter,
) -> Result<Vec<u32>, AllocError>
    requires { IsTestBelow S.bound_of (length reader.indexes.now.concepts) tested.now }
    ensures counted { CountsWithin (sum_by (type_row_count reader.entry.indexes.now) ids.now)
        visits.old visits.new }
    ensures within { IfOk result (λ hits. All
        (λ number. number < length reader.entry.indexes.now.concepts) hits.items) }
    ensures hits { IfOk result (λ hits. (one : ℕ → Bool) → ids.now ≡ filter one
        (types_of reader.entry.indexes.now.rows)
        → AreHits (length reader.entry.indexes.now.concepts)
        (counts_for_concept back reader.entry.indexes.now.concepts one
        (passes_of S.items_of reader.entry.indexes.now.concepts tested.now))
        (entries_of reader.entry.indexes.now.rows) hits.items) }
{
    if back {
        values_by_type(reader, ids, tested, visits)
    } else {
        owners_by_type(reader, Owner::Source, ids, tested, visits)
    }
}

/// Lists, by reading the rows of `values`, the concepts for which rows count. A row counts for its
/// source if it is the first with its pair there, its type is in `types`, and its value in
/// `values`. If `back`, `values` has sources, and a row counts for its value, if that is a concept.
/// `values` must rise.
pub fn hits_by_value<S: ConceptSet>(
    reader: Reader<'_>,
    back: bool,
    types: &Answer<S>,
    values: &[u32],
    visits: &mut Counter,
) -> Result<Vec<u32>, AllocError>
    requires types { S.bound_of types.now ≡ length reader.indexes.now.concepts }
    requires values { IsRisingBelow (length reader.indexes.now.concepts) values.now }
    ensures counted { CountsWithin (sum_by (row_count_of reader.entry.indexes.now back) values.now)
        visits.old visits.new }
    ensures within { IfOk result (λ hits. All
        (λ number. number < length reader.entry.indexes.now.concepts) hits.items) }
    ensures hits { IfOk result (λ hits. AreHits (length reader.entry.indexes.now.concepts)
        (counts_for_concept back reader.entry.indexes.now.concepts (is_one_of
        reader.entry.indexes.now.concepts (S.items_of types.now))
        (is_within (is_one_of reader.entry.indexes.now.concepts values.now)))
        (entries_of reader.entry.indexes.now.rows) hits.items) }
{
    // tells the prover that the concepts rise, so that none has two numbers
    reader.concept_count();
    if back {
        values_by_source(reader, values, types, visits)
    } else {
        owners_by_value(reader, Owner::Source, values, types, visits)
    }
}

// Lists, by reading the rows of the types `ids`, the number of the owner of each row that is the
// first with its pair in its owner and has a value that passes `tested`.
fn owners_by_type<S: ConceptSet>(
    reader: Reader<'_>,
    owner: Owner,
    ids: &[u64],
    tested: &Tested<S>,
    visits: &mut Counter,
) -> Result<Vec<u32>, AllocError>
    requires { IsTestBelow S.bound_of (length reader.indexes.now.concepts) tested.now }
    ensures counted { CountsWithin (sum_by (type_row_count reader.entry.indexes.now) ids.now)
        visits.old visits.new }
    ensures within { IfOk result (λ hits. All
        (λ number. number < owner_count owner reader.entry.indexes.now) hits.items) }
    ensures hits { IfOk result (λ hits. AreHits (owner_count owner reader.entry.indexes.now)
        (counts_for_owner owner reader.entry.indexes.now
        (λ row. passes_of S.items_of reader.entry.indexes.now.concepts tested.now row.value))
        (entries_with_types reader.entry.indexes.now.rows ids.now) hits.items) }
{
    // tells the prover that the concepts rise, so that no owner has two numbers
    reader.concept_count();
    let rows = rows_of_types(reader, ids);
    if none_passes(reader, tested, rows) {
        return Ok(Vec::new(reader.alloc));
    }
    let mut hits = Vec::with_capacity(reader.alloc, rows as usize)?;
    for id in ids {
        let columns = reader.type_columns(*id, visits);
        let owners = owners_in(owner, columns.sources, columns.groups);
        push_passing(reader, &mut hits, owners, columns.values, tested)?;
    }
    Ok(hits)
}

// Lists, by reading the rows of `values`, the number of the owner of each row that is the first
// with its pair in its owner and has a type in `types`.
fn owners_by_value<S: ConceptSet>(
    reader: Reader<'_>,
    owner: Owner,
    values: &[u32],
    types: &Answer<S>,
    visits: &mut Counter,
) -> Result<Vec<u32>, AllocError>
    requires types { S.bound_of types.now ≡ length reader.indexes.now.concepts }
    requires values { All (λ number. number < length reader.indexes.now.concepts) values.now }
    ensures counted { CountsWithin (sum_by (row_count_of reader.entry.indexes.now false) values.now)
        visits.old visits.new }
    ensures within { IfOk result (λ hits. All
        (λ number. number < owner_count owner reader.entry.indexes.now) hits.items) }
    ensures hits { IfOk result (λ hits. AreHits (owner_count owner reader.entry.indexes.now)
        (counts_for_owner owner reader.entry.indexes.now
        (λ row. is_one_of reader.entry.indexes.now.concepts (S.items_of types.now) row.type_id))
        (entries_with_values reader.entry.indexes.now values.now) hits.items) }
{
    // tells the prover that the concepts rise, so that no owner has two numbers
    reader.concept_count();
    let mut hits = Vec::new(reader.alloc);
    for value in values {
        let columns = reader.value_columns(*value, visits);
        let owners = owners_in(owner, columns.sources, columns.groups);
        push_typed(reader, &mut hits, owners, columns.types, types)?;
    }
    Ok(hits)
}

// Returns the column of the owners: `sources` or `groups`.
fn owners_in<'a>(
    owner: Owner,
    sources: &'a [FlaggedNumber],
    groups: &'a [FlaggedNumber],
) -> &'a [FlaggedNumber]
    ensures { (indexed : Indexed) (entries : List Entry)
        → AreSources indexed.concepts entries sources.now
        → AreGroups (groups_in indexed) entries groups.now
        → AreOwners owner indexed entries result.now }
{
    match owner {
        Owner::Source => sources,
        Owner::Group => groups,
    }
}

// Lists, by reading the rows of the types `ids` backwards, the value of each row that is the first
// with its pair in its source, has a concept as its value, and has a source that passes `tested`.
fn values_by_type<S: ConceptSet>(
    reader: Reader<'_>,
    ids: &[u64],
    tested: &Tested<S>,
    visits: &mut Counter,
) -> Result<Vec<u32>, AllocError>
    requires { IsTestBelow S.bound_of (length reader.indexes.now.concepts) tested.now }
    ensures counted { CountsWithin (sum_by (type_row_count reader.entry.indexes.now) ids.now)
        visits.old visits.new }
    ensures within { IfOk result (λ hits. All
        (λ number. number < length reader.entry.indexes.now.concepts) hits.items) }
    ensures hits { IfOk result (λ hits. AreHits (length reader.entry.indexes.now.concepts)
        (counts_for_value reader.entry.indexes.now.concepts
        (λ row. passes_of S.items_of reader.entry.indexes.now.concepts tested.now
        (concept_value row.source))) (entries_with_types reader.entry.indexes.now.rows ids.now)
        hits.items) }
{
    // tells the prover that the concepts rise
    reader.concept_count();
    // the source of a row is a concept, so it fulfils no comparison with a number
    if asks_for_number(tested) {
        return Ok(Vec::new(reader.alloc));
    }
    let mut hits = Vec::with_capacity(reader.alloc, rows_of_types(reader, ids) as usize)?;
    for id in ids {
        let columns = reader.type_columns(*id, visits);
        push_cells(reader, &mut hits, columns.sources, columns.values, tested)?;
    }
    Ok(hits)
}

// Lists, by reading the rows of `sources`, the value of each row that is the first with its pair in
// its source, has a concept as its value, and has a type in `types`.
fn values_by_source<S: ConceptSet>(
    reader: Reader<'_>,
    sources: &[u32],
    types: &Answer<S>,
    visits: &mut Counter,
) -> Result<Vec<u32>, AllocError>
    requires types { S.bound_of types.now ≡ length reader.indexes.now.concepts }
    requires sources { All (λ number. number < length reader.indexes.now.concepts) sources.now }
    ensures counted { CountsWithin (sum_by (row_count_of reader.entry.indexes.now true) sources.now)
        visits.old visits.new }
    ensures within { IfOk result (λ hits. All
        (λ number. number < length reader.entry.indexes.now.concepts) hits.items) }
    ensures hits { IfOk result (λ hits. AreHits (length reader.entry.indexes.now.concepts)
        (counts_for_value reader.entry.indexes.now.concepts
        (λ row. is_one_of reader.entry.indexes.now.concepts (S.items_of types.now) row.type_id))
        (entries_with_sources reader.entry.indexes.now sources.now) hits.items) }
{
    let mut hits = Vec::new(reader.alloc);
    for source in sources {
        let rows = reader.rows_of(*source, visits);
        push_values(reader, &mut hits, rows, types)?;
    }
    Ok(hits)
}

/// Lists, by reading the rows of the types `ids`, the group of each row that is the first with its
/// pair in its group and has a value that passes `tested`.
pub fn group_hits_by_type<S: ConceptSet>(
    reader: Reader<'_>,
    ids: &[u64],
    tested: &Tested<S>,
    visits: &mut Counter,
) -> Result<Vec<u32>, AllocError>
    requires { IsTestBelow S.bound_of (length reader.indexes.now.concepts) tested.now }
    ensures counted { CountsWithin (sum_by (type_row_count reader.entry.indexes.now) ids.now)
        visits.old visits.new }
    ensures within { IfOk result (λ hits. All
        (λ number. number < length (groups_in reader.entry.indexes.now)) hits.items) }
    ensures hits { IfOk result (λ hits. (one : ℕ → Bool) → ids.now ≡ filter one
        (types_of reader.entry.indexes.now.rows) → AreHits (length (groups_in
        reader.entry.indexes.now)) (counts_for_group (groups_in reader.entry.indexes.now)
        (has_pair_in one (passes_of S.items_of reader.entry.indexes.now.concepts tested.now)))
        (entries_of reader.entry.indexes.now.rows) hits.items) }
{
    owners_by_type(reader, Owner::Group, ids, tested, visits)
}

/// Lists, by reading the rows of `values`, the group of each row that is the first with its pair in
/// its group and has a type in `types`. `values` must rise.
pub fn group_hits_by_value<S: ConceptSet>(
    reader: Reader<'_>,
    types: &Answer<S>,
    values: &[u32],
    visits: &mut Counter,
) -> Result<Vec<u32>, AllocError>
    requires types { S.bound_of types.now ≡ length reader.indexes.now.concepts }
    requires values { IsRisingBelow (length reader.indexes.now.concepts) values.now }
    ensures counted { CountsWithin (sum_by (row_count_of reader.entry.indexes.now false) values.now)
        visits.old visits.new }
    ensures within { IfOk result (λ hits. All
        (λ number. number < length (groups_in reader.entry.indexes.now)) hits.items) }
    ensures hits { IfOk result (λ hits. AreHits (length (groups_in reader.entry.indexes.now))
        (counts_for_group (groups_in reader.entry.indexes.now)
        (has_pair_in (is_one_of reader.entry.indexes.now.concepts (S.items_of types.now))
        (is_within (is_one_of reader.entry.indexes.now.concepts values.now))))
        (entries_of reader.entry.indexes.now.rows) hits.items) }
{
    // tells the prover that the concepts rise, so that none has two numbers
    reader.concept_count();
    owners_by_value(reader, Owner::Group, values, types, visits)
}

// Adds to `hits` the number of each of `marks` whose flag says that its row is the first with its
// pair, if the row's value passes `tested`. `cells` has the numbers of the rows' values.
fn push_passing<S: ConceptSet>(
    reader: Reader<'_>,
    hits: &mut Vec<u32>,
    marks: &[FlaggedNumber],
    cells: &[u32],
    tested: &Tested<S>,
) -> Result<(), AllocError>
    requires long { length marks.now ≡ length cells.now }
    requires tested { IsTestBelow S.bound_of (length reader.indexes.now.concepts) tested.now }
    ensures { OnOk result (hits.new.items ≡ hits.old.items ++ picked
        (λ mark cell. mark.is_first && passes_of S.items_of reader.entry.indexes.now.concepts
        tested.now (value_of reader.entry.indexes.now cell)) (λ mark cell. mark.number) marks.now
        cells.now) }
{
    for place in 0..marks.len() {
        let mark = marks[place];
        if has_passing(reader, mark, cells[place], tested) {
            hits.push(mark.number())?;
        }
    }
    Ok(())
}

// Returns whether a row is the first with its pair, by its mark, and its value passes `tested`.
fn has_passing<S: ConceptSet>(
    reader: Reader<'_>,
    mark: FlaggedNumber,
    value: u32,
    tested: &Tested<S>,
) -> bool
    requires { IsTestBelow S.bound_of (length reader.indexes.now.concepts) tested.now }
    ensures { result ≡ (mark.is_first && passes_of S.items_of reader.entry.indexes.now.concepts
        tested.now (value_of reader.entry.indexes.now value)) }
{
    mark.is_first() && passes(reader, tested, value)
}

// Adds to `hits` the number of each of `marks` whose flag says that its row is the first with its
// pair, if the row's type is in `types`. `cells` has the places of the rows' types.
fn push_typed<S: ConceptSet>(
    reader: Reader<'_>,
    hits: &mut Vec<u32>,
    marks: &[FlaggedNumber],
    cells: &[u32],
    types: &Answer<S>,
) -> Result<(), AllocError>
    requires long { length marks.now ≡ length cells.now }
    requires types { S.bound_of types.now ≡ length reader.indexes.now.concepts }
    ensures { OnOk result (hits.new.items ≡ hits.old.items
        ++ picked (λ mark cell. mark.is_first
        && is_type_in reader.entry.indexes.now (S.items_of types.now) cell)
        (λ mark cell. mark.number) marks.now cells.now) }
{
    for place in 0..marks.len() {
        let mark = marks[place];
        if has_type(reader, mark, cells[place], types) {
            hits.push(mark.number())?;
        }
    }
    Ok(())
}

// Returns whether a row is the first with its pair, by its mark, and its type is in `types`.
fn has_type<S: ConceptSet>(
    reader: Reader<'_>,
    mark: FlaggedNumber,
    type_place: u32,
    types: &Answer<S>,
) -> bool
    requires { S.bound_of types.now ≡ length reader.indexes.now.concepts }
    ensures { result ≡ (mark.is_first && is_type_in reader.entry.indexes.now (S.items_of types.now)
        type_place) }
{
    mark.is_first() && is_typed(reader, types, type_place)
}

// Adds to `hits` the number of the value of each row that is the first with its pair, if the value
// is a concept and the row's source passes `tested`. `marks` has the rows' sources, `cells` the
// numbers of their values.
fn push_cells<S: ConceptSet>(
    reader: Reader<'_>,
    hits: &mut Vec<u32>,
    marks: &[FlaggedNumber],
    cells: &[u32],
    tested: &Tested<S>,
) -> Result<(), AllocError>
    requires long { length marks.now ≡ length cells.now }
    requires tested { IsTestBelow S.bound_of (length reader.indexes.now.concepts) tested.now }
    ensures { OnOk result (hits.new.items ≡ hits.old.items ++ picked
        (λ mark cell. nat_lt cell (length reader.entry.indexes.now.concepts)
        && (mark.is_first && passes_of S.items_of reader.entry.indexes.now.concepts tested.now
        (value_of reader.entry.indexes.now mark.number))) (λ mark cell. cell) marks.now cells.now) }
{
    for place in 0..marks.len() {
        let mark = marks[place];
        let cell = cells[place];
        if has_passing_source(reader, mark, cell, tested) {
            hits.push(cell)?;
        }
    }
    Ok(())
}

// Returns whether a row is the first with its pair, by its mark, its value is a concept, and its
// source passes `tested`.
fn has_passing_source<S: ConceptSet>(
    reader: Reader<'_>,
    mark: FlaggedNumber,
    value: u32,
    tested: &Tested<S>,
) -> bool
    requires { IsTestBelow S.bound_of (length reader.indexes.now.concepts) tested.now }
    ensures { result ≡ (nat_lt value (length reader.entry.indexes.now.concepts)
        && (mark.is_first && passes_of S.items_of reader.entry.indexes.now.concepts tested.now
        (value_of reader.entry.indexes.now mark.number))) }
{
    is_concept(reader, value) && has_passing(reader, mark, mark.number(), tested)
}

// Returns whether the value with the number `value` is a concept.
fn is_concept(reader: Reader<'_>, value: u32) -> bool
    ensures { result ≡ nat_lt value (length reader.entry.indexes.now.concepts) }
{
    value < reader.concept_count()
}

// Adds to `hits` the number of the value of each of `rows` that is the first with its pair, if the
// value is a concept and the row's type is in `types`.
fn push_values<S: ConceptSet>(
    reader: Reader<'_>,
    hits: &mut Vec<u32>,
    rows: &[u32],
    types: &Answer<S>,
) -> Result<(), AllocError>
    requires rows { All (λ n. n < length reader.indexes.now.rows) rows.now }
    requires types { S.bound_of types.now ≡ length reader.indexes.now.concepts }
    ensures within { OnOk result (All
        (λ number. number < length reader.entry.indexes.now.concepts) hits.old.items
        → All (λ number. number < length reader.entry.indexes.now.concepts) hits.new.items) }
    ensures times { OnOk result ((number : ℕ) → number < length reader.entry.indexes.now.concepts
        → times number hits.new.items ≡ times number hits.old.items + count_by
        (λ n. at_entry (counts_for_value reader.entry.indexes.now.concepts
        (λ row. is_one_of reader.entry.indexes.now.concepts (S.items_of types.now) row.type_id)
        number) (slice_get (entries_of reader.entry.indexes.now.rows) n)) rows.now) }
{
    // tells the prover that the concepts rise, so that none has two numbers
    reader.concept_count();
    for n in rows {
        let row = reader.cells(*n);
        if counts(reader, row, types) {
            hits.push(row.value)?;
        }
    }
    Ok(())
}

// Returns whether `row` is the first with its pair in its source, its type is in `types`, and its
// value is a concept.
fn counts<S: ConceptSet>(reader: Reader<'_>, row: RowCells, types: &Answer<S>) -> bool
    requires { S.bound_of types.now ≡ length reader.indexes.now.concepts }
    ensures { result ≡ (nat_lt row.value (length reader.entry.indexes.now.concepts)
        && (row.is_first && is_type_in reader.entry.indexes.now (S.items_of types.now)
        row.type_place)) }
{
    is_concept(reader, row.value) && row.is_first && is_typed(reader, types, row.type_place)
}
