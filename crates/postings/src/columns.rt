//! The rows of each type and of each value, with columns of the cells that a query tests.
ghost use Rattle.std.specs.Prelude.{◌≡◌, ◌<◌, IfOk, length};
ghost use Rattle.std.specs.List.{concat};
ghost use Rattle.postings.specs.inside.Cells.{AreColumns, AreOfOneLength, AreRowLists, cells_of};

use crate::flagged_number::FlaggedNumber;
use crate::groups::RowMarks;
use crate::lists::{column, places_by_key};
use number_lists::KeyedLists;
use std::alloc::{AllocError, Global};

/// Columns of the rows of one type. Place `i` of each column belongs to the `i`-th of these rows.
#[derive(Clone, Copy, Debug)]
pub struct TypeColumns<'a> {
    /// The numbers of the sources, and whether each row is the first with its pair in its concept.
    pub sources: &'a [FlaggedNumber],
    /// The numbers of the values (`Indexes::value`).
    pub values: &'a [u32],
    /// The numbers of the groups, and whether each row is the first with its pair in its group.
    pub groups: &'a [FlaggedNumber],
}

/// Columns of the rows that have one concept as their value. Place `i` of each column belongs to
/// the `i`-th of these rows.
#[derive(Clone, Copy, Debug)]
pub struct ValueColumns<'a> {
    /// The numbers of the sources, and whether each row is the first with its pair in its concept.
    pub sources: &'a [FlaggedNumber],
    /// The places of the types in `Indexes::types`.
    pub types: &'a [u32],
    /// The numbers of the groups, and whether each row is the first with its pair in its group.
    pub groups: &'a [FlaggedNumber],
}

/// Columns of the rows of one key, which is a type or a value.
#[derive(Clone, Copy)]
pub struct KeyColumns<'a> {
    pub sources: &'a [FlaggedNumber],
    /// If the key is a type, the numbers of the values; if it is a value, the places of the types.
    pub others: &'a [u32],
    pub groups: &'a [FlaggedNumber],
}

/// The rows of each key, which is a type or a value. Each column has the cells of all keys, in the
/// order of the lists of `rows` joined.
#[derive(Drop)]
pub struct RowsByKey {
    pub rows: KeyedLists,
    pub sources: Vec<FlaggedNumber>,
    /// If the key is a type, the numbers of the values; if it is a value, the places of the types.
    pub others: Vec<u32>,
    pub groups: Vec<FlaggedNumber>,
}

/// Lists the rows of each key below `count`, with their columns. For each row, `keys` has its key,
/// `others` the cell of the column `others`, and `marks` its source and group. A row whose key is
/// not below `count` is in no list.
pub fn row_lists(
    alloc: Global,
    count: u32,
    keys: &[u32],
    others: &[u32],
    marks: &RowMarks,
) -> Result<RowsByKey, AllocError>
    requires { AreOfOneLength keys.now others.now marks.now }
    ensures { IfOk result (AreRowLists count keys.now others.now marks.now) }
{
    let rows = places_by_key(alloc, count, keys)?;
    let sources = column(alloc, marks.sources.as_slice(), rows.flat())?;
    let others = column(alloc, others, rows.flat())?;
    let groups = column(alloc, marks.groups.as_slice(), rows.flat())?;
    Ok(RowsByKey {
        rows,
        sources,
        others,
        groups,
    })
}

impl RowsByKey {
    /// Returns the columns of the rows of `key`, which must be below the number of keys.
    pub fn columns(&self, key: u32) -> KeyColumns<'_>
        requires key { key < length self.now.rows }
        requires long { AreColumns self.now }
        ensures sources { result.sources.now ≡ cells_of self.now.rows self.now.sources.items key }
        ensures others { result.others.now ≡ cells_of self.now.rows self.now.others.items key }
        ensures groups { result.groups.now ≡ cells_of self.now.rows self.now.groups.items key }
    {
        KeyColumns {
            sources: cells(&self.rows, self.sources.as_slice(), key),
            others: cells(&self.rows, self.others.as_slice(), key),
            groups: cells(&self.rows, self.groups.as_slice(), key),
        }
    }
}

// Returns the part of `column` that has the cells of the rows of `key`.
fn cells<'a, T>(rows: &KeyedLists, column: &'a [T], key: u32) -> &'a [T]
    requires key { key < length rows.now }
    requires long { length column.now ≡ length (concat rows.now) }
    ensures { result.now ≡ cells_of rows.now column.now key }
{
    let (from, to) = rows.span(key);
    &column[from..to]
}
