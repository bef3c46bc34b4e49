//! Numbers the groups of the attribute rows, and finds which rows are the first with their pair.
ghost use Rattle.std.specs.Prelude.{◌≡◌, ◌+◌, ◌≤◌, ◌<◌, ◌^◌, ◌++◌, ◌∷◌, [], List, All, IfOk, OnOk};
ghost use Rattle.std.specs.Prelude.{length, map, nat_lt, slice_index_or};
ghost use Rattle.number_lists.specs.Rising.{IsRising};
ghost use Rattle.idset.specs.Sets.{place_of};
ghost use Rattle.postings.specs.inside.Coded.{AreRowMarks, IsBySource, group_codes, group_marks, numbers_of_groups};
ghost use Rattle.postings.specs.inside.Coded.{pair_code, place_in_source, source_marks};
ghost use Rattle.postings.specs.inside.PairKeys.{IsShort, ungrouped_keys};
ghost use Rattle.postings.specs.Places.{places_by};

use crate::first_keys::FirstKeys;
use crate::flagged_number::FlaggedNumber;
use crate::pair_keys::{grouped_key, pair_key};
use held_release::CodedRow;
use key_interner::Seed;
use number_lists::keep_rising;
use std::alloc::{AllocError, Global};

/// For each attribute row its source and its group, and for each source its first group.
#[derive(Drop)]
pub struct RowMarks {
    /// The number of the source of each row, and whether the row is the first with its pair in its
    /// source.
    pub sources: Vec<FlaggedNumber>,
    /// The number of the group of each row, and whether the row is the first with its pair in its
    /// group.
    pub groups: Vec<FlaggedNumber>,
    /// For each source how many groups all sources before it have, which is the number of its first
    /// group. One more entry at the end counts all groups.
    pub starts: Vec<u32>,
}

// Working memory, used again for each source: tables from which the groups of one source are
// numbered.
#[derive(Drop)]
struct Tables {
    // the relationship group numbers of the source, rising and each once, without 0
    numbers: Vec<u32>,
    // the pairs of the rows that were visited: alone (`pair_key`), or with their group numbers
    // (`grouped_key`)
    seen: FirstKeys,
    // the pairs of the visited rows whose group number is 0
    ungrouped: FirstKeys,
}

/// Marks each of `rows`, which are ordered by source, with its source and its group. There are
/// `count` sources. Pairs are hashed with `seed`.
pub fn row_marks(
    alloc: Global,
    rows: &[CodedRow],
    count: u32,
    seed: Seed,
) -> Result<RowMarks, AllocError>
    requires few { length rows.now < 2 ^ 31 }
    requires few_sources { count < 2 ^ 31 }
    requires sorted { IsBySource count rows.now }
    ensures { IfOk result (AreRowMarks count rows.now) }
{
    let mut tables = Tables {
        numbers: Vec::new(alloc),
        seen: FirstKeys::new(alloc, seed),
        ungrouped: FirstKeys::new(alloc, seed),
    };
    let marks = marks_in(alloc, rows, count, &mut tables);
    drop(tables);
    marks
}

// Marks all rows source by source, with `tables` as working memory.
fn marks_in(
    alloc: Global,
    rows: &[CodedRow],
    count: u32,
    tables: &mut Tables,
) -> Result<RowMarks, AllocError>
    requires few { length rows.now < 2 ^ 31 }
    requires few_sources { count < 2 ^ 31 }
    requires sorted { IsBySource count rows.now }
    ensures { IfOk result (AreRowMarks count rows.now) }
{
    let mut marks = RowMarks {
        sources: Vec::with_capacity(alloc, rows.len())?,
        groups: Vec::with_capacity(alloc, rows.len())?,
        starts: Vec::with_capacity(alloc, count as usize + 1)?,
    };
    let mut ahead = 0u32;
    marks.starts.push(ahead)?;
    let mut left = rows;
    for source in 0..count {
        let (own, others) = split_source(left, source);
        left = others;
        push_sources(alloc, own, &mut tables.seen, &mut marks.sources)?;
        ahead += push_groups(alloc, own, ahead, tables, &mut marks.groups)?;
        marks.starts.push(ahead)?;
    }
    Ok(marks)
}

// Splits `rows` into the rows of `source` at the front, and the others, which have greater sources.
fn split_source(rows: &[CodedRow], source: u32) -> (&[CodedRow], &[CodedRow])
    ensures { (own others : List CodedRow) → rows.now ≡ own ++ others
        → All (λ (row : CodedRow). row.source ≡ source) own
        → All (λ (row : CodedRow). source < row.source) others
        → (result.0.now ≡ own) × (result.1.now ≡ others) }
{
    let mut end = 0;
    while end < rows.len() && rows[end].source == source {
        end += 1;
    }
    rows.split_at(end)
}

// Adds to `sources` one mark for each of `rows`, which are the rows of one source: the source, and
// whether the row is the first with its pair. `seen` is working memory.
fn push_sources(
    alloc: Global,
    rows: &[CodedRow],
    seen: &mut FirstKeys,
    sources: &mut Vec<FlaggedNumber>,
) -> Result<(), AllocError>
    requires { All (λ (row : CodedRow). row.source < 2 ^ 31) rows.now }
    ensures { OnOk result (sources.new.items ≡ sources.old.items ++ source_marks rows.now) }
{
    seen.clear(alloc);
    for row in rows {
        let (_, is_first) = seen.intern(pair_key(row))?;
        sources.push(FlaggedNumber::new(row.source, is_first))?;
    }
    Ok(())
}

// Adds to `groups` one mark for each of `rows`, which are the rows of one source: its group, and
// whether the row is the first with its pair in the group. Groups are numbered from `ahead`, the
// count of groups of the sources before it. Returns how many groups the source has.
fn push_groups(
    alloc: Global,
    rows: &[CodedRow],
    ahead: u32,
    tables: &mut Tables,
    groups: &mut Vec<FlaggedNumber>,
) -> Result<u32, AllocError>
    requires { ahead + length rows.now < 2 ^ 31 }
    ensures groups { OnOk result (groups.new.items ≡ groups.old.items
        ++ group_marks ahead rows.now) }
    ensures count { IfOk result (λ count. count ≡ length (group_codes rows.now)) }
    ensures few { IfOk result (λ count. count ≤ length rows.now) }
{
    put_group_numbers(rows, &mut tables.numbers)?;
    tables.seen.clear(alloc);
    tables.ungrouped.clear(alloc);
    for row in rows {
        let (_, is_first) = tables.seen.intern(grouped_key(row))?;
        let place = group_place(tables.numbers.as_slice(), &mut tables.ungrouped, row)?;
        groups.push(FlaggedNumber::new(ahead + place as u32, is_first))?;
    }
    Ok((tables.numbers.len() + tables.ungrouped.len()) as u32)
}

// Returns the place of a row's group among the groups of its source. `numbers` has the group
// numbers of the source, and `ungrouped` the pairs of the earlier rows whose group number is 0. If
// the row's own group number is 0, its pair is added to `ungrouped`, and the group's place comes
// after all group numbers.
fn group_place(
    numbers: &[u32],
    ungrouped: &mut FirstKeys,
    row: &CodedRow,
) -> Result<usize, AllocError>
    requires rising { IsRising numbers.now }
    requires few { length ungrouped.old < 2 ^ 32 }
    ensures place { IfOk result (λ place. (before following : List CodedRow)
        → All (λ (row : CodedRow). IsShort (pair_code row)) before
        → numbers.now ≡ numbers_of_groups (before ++ row.now ∷ following)
        → ungrouped.old ≡ ungrouped_keys before
        → place ≡ place_in_source (before ++ row.now ∷ following) row.now) }
    ensures ungrouped { OnOk result ((before : List CodedRow)
        → ungrouped.old ≡ ungrouped_keys before
        → ungrouped.new ≡ ungrouped_keys (before ++ row.now ∷ [])) }
{
    if row.group != 0 {
        return Ok(place_of(numbers, row.group));
    }
    let (place, _) = ungrouped.intern(pair_key(row))?;
    Ok(numbers.len() + place)
}

// Replaces the content of `numbers` by the group numbers of `rows` without 0, rising and each once.
fn put_group_numbers(rows: &[CodedRow], numbers: &mut Vec<u32>) -> Result<(), AllocError>
    ensures numbers { OnOk result (numbers.new.items ≡ numbers_of_groups rows.now) }
    ensures rising { OnOk result (IsRising numbers.new.items) }
{
    numbers.clear();
    for row in rows {
        if row.group != 0 {
            numbers.push(row.group)?;
        }
    }
    keep_rising(numbers);
    Ok(())
}

// Returns how many of the rising `numbers` are below `number`: its place, if it is among them.
fn place_of(numbers: &[u32], number: u32) -> usize
    requires { IsRising numbers.now }
    ensures { result ≡ place_of numbers.now number }
{
    numbers.partition_point(
        |other: &u32| -> bool
            ensures { result ≡ nat_lt other.now number }
        { *other < number },
    )
}
