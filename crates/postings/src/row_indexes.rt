//! The attribute rows of a release and their lists by type, value, source and group.
ghost use Rattle.std.specs.Prelude.{ℕ, ◌≡◌, ◌+◌, ◌-◌, ◌≤◌, ◌<◌, ◌^◌, All, IfOk, Some, length, map, slice_get, slice_index, vec_len};
ghost use Rattle.postings.specs.inside.Cells.{AreOfOneLength, AreRowLists};
ghost use Rattle.std.specs.List.{concat};
ghost use Rattle.held_release.specs.AttributesBySource.{attributes_by_source};
ghost use Rattle.postings.specs.inside.Coded.{AreRowMarks, IsBySource};
ghost use Rattle.postings.specs.Columns.{Flagged};
ghost use Rattle.postings.specs.inside.KeptRows.{AreNumbersOf, HaveOneNumber, IsKept, mark_at, row_kept, rows_between};
ghost use Rattle.postings.specs.Places.{places_by};
ghost use Rattle.postings.specs.inside.RowIndexes.{AreRowIndexes};

use crate::columns::{RowsByKey, row_lists};
use crate::flagged_number::FlaggedNumber;
use crate::groups::{RowMarks, row_marks};
use crate::lists::{places_among, places_by_key};
use crate::type_table::{TypeTable, type_table};
use held_release::{CodedRow, Snapshot, Values};
use idset::every_number;
use key_interner::Seed;
use number_lists::KeyedLists;
use std::alloc::{AllocError, Global};

/// The attribute rows of a release, and the rows of each source, type, value and group. To save
/// memory, a row's source, value and group are stored only in the columns by type; `places` has the
/// row's place in these columns.
#[derive(Drop)]
pub struct RowIndexes {
    pub types: TypeTable,
    pub values: Values,
    /// For each row, the place of its type in `types`.
    pub type_places: Vec<u32>,
    /// For each row, its place in the columns of `by_type`, which list the rows of all types, one
    /// type after the other.
    pub places: Vec<u32>,
    /// The numbers of all rows, in rising order. The rows of one source are a slice of this list.
    pub row_numbers: Vec<u32>,
    /// The rows of each type. Their column `others` has the numbers of the values.
    pub by_type: RowsByKey,
    /// The rows of each concept as a value. Their column `others` has the places of the types.
    pub by_value: RowsByKey,
    pub groups: GroupLists,
}

/// The groups of all concepts, by group.
#[derive(Drop)]
pub struct GroupLists {
    /// For each group its relationship group number, or 0 if its rows have none.
    pub numbers: Vec<u32>,
    /// For each concept its first group. One more entry at the end counts all groups.
    pub starts: Vec<u32>,
    /// The rows of each group.
    pub rows: KeyedLists,
}

impl RowIndexes {
    /// Returns the row with the number `n`, gathered from the columns.
    #[inline]
    pub fn row(&self, n: u32) -> CodedRow
        requires { IsKept self.now n }
        ensures { result ≡ row_kept self.now n }
    {
        let place = self.places[n as usize] as usize;
        let unit = self.by_type.groups[place].number();
        CodedRow {
            source: self.by_type.sources[place].number(),
            type_place: self.type_places[n as usize],
            group: self.groups.numbers[unit as usize],
            value: self.by_type.others[place],
        }
    }

    /// Returns two flags of the row with the number `n`: whether it is the first with its pair in
    /// its concept, and whether it is the first with its pair in its group.
    #[inline]
    pub fn firsts(&self, n: u32) -> (bool, bool)
        requires { IsKept self.now n }
        ensures source { result.0 ≡ (mark_at self.now.by_type.sources.items
            (slice_index self.now.places.items n)).is_first }
        ensures group { result.1 ≡ (mark_at self.now.by_type.groups.items
            (slice_index self.now.places.items n)).is_first }
    {
        let place = self.places[n as usize] as usize;
        let source = self.by_type.sources[place].is_first();
        let unit = self.by_type.groups[place].is_first();
        (source, unit)
    }

    /// Lists the numbers of the rows of the source `concept`. Both rows and groups are ordered by
    /// source. So these rows are consecutive, and they start where the rows of the concept's first
    /// group start in the joined lists of groups. There the rows of earlier sources come first.
    pub fn of_source(&self, concept: u32) -> &[u32]
        requires starts { concept + 1 < vec_len self.now.groups.starts }
        requires rise { slice_index self.now.groups.starts.items concept
            ≤ slice_index self.now.groups.starts.items (concept + 1) }
        requires end { slice_index self.now.groups.starts.items (concept + 1)
            ≤ length self.now.groups.rows }
        requires long { vec_len self.now.row_numbers ≡ length (concat self.now.groups.rows) }
        ensures { result.now ≡ rows_between self.now concept }
    {
        let first = self.groups.starts[concept as usize];
        let next = self.groups.starts[concept as usize + 1];
        if first == next {
            return &[];
        }
        let (from, _) = self.groups.rows.span(first);
        let (_, to) = self.groups.rows.span(next - 1);
        &self.row_numbers[from..to]
    }
}

/// Builds the indexes of the attribute rows of the release in `snapshot`.
pub fn row_indexes(alloc: Global, snapshot: &Snapshot) -> Result<RowIndexes, AllocError>
    ensures { IfOk result (AreRowIndexes snapshot.now.release.concepts
        (attributes_by_source snapshot.now.release)) }
{
    let coded = snapshot.coded_rows();
    let rows = coded.rows.as_slice();
    let count = snapshot.concept_count();
    let seed = snapshot.seed();
    let marks = row_marks(alloc, rows, count, seed)?;
    let row_numbers = every_number(alloc, rows.len() as u32)?;
    let groups = group_lists(alloc, &marks, rows)?;
    let keys = row_keys(alloc, rows)?;
    let types = type_table(alloc, coded.types.as_slice(), seed)?;
    let lists = lists_by_keys(alloc, types.ids.len() as u32, count, &keys, &marks)?;
    let values = coded.values.copy(alloc)?;
    Ok(RowIndexes {
        types,
        values,
        type_places: keys.type_places,
        places: lists.places,
        row_numbers,
        by_type: lists.by_type,
        by_value: lists.by_value,
        groups,
    })
}

// For each row the place of its type and the number of its value.
#[derive(Drop)]
struct TypesAndValues {
    type_places: Vec<u32>,
    values: Vec<u32>,
}

// The rows by type and by value, and for each row its place in the columns by type.
#[derive(Drop)]
struct ListsByKeys {
    places: Vec<u32>,
    by_type: RowsByKey,
    by_value: RowsByKey,
}

// Copies the place of the type and the number of the value of each row into columns.
fn row_keys(alloc: Global, rows: &[CodedRow]) -> Result<TypesAndValues, AllocError>
    ensures types { IfOk result (λ keys. keys.type_places.items
        ≡ map (λ (row : CodedRow). row.type_place) rows.now) }
    ensures values { IfOk result (λ keys. keys.values.items
        ≡ map (λ (row : CodedRow). row.value) rows.now) }
{
    let type_places = type_places_of(alloc, rows)?;
    let values = values_of(alloc, rows)?;
    Ok(TypesAndValues {
        type_places,
        values,
    })
}

// Lists the rows of each of the `types` types, and the rows of each of the `concepts` concepts as a
// value. `keys` has the type and the value of each row, `marks` its source and its group.
fn lists_by_keys(
    alloc: Global,
    types: u32,
    concepts: u32,
    keys: &TypesAndValues,
    marks: &RowMarks,
) -> Result<ListsByKeys, AllocError>
    requires long { AreOfOneLength keys.now.type_places.items keys.now.values.items marks.now }
    requires types { All (λ place. place < types) keys.now.type_places.items }
    ensures by_type { IfOk result (λ lists. AreRowLists types keys.now.type_places.items
        keys.now.values.items marks.now lists.by_type) }
    ensures by_value { IfOk result (λ lists. AreRowLists concepts keys.now.values.items
        keys.now.type_places.items marks.now lists.by_value) }
    ensures len { IfOk result (λ lists. vec_len lists.places ≡ vec_len keys.now.type_places) }
    ensures found { IfOk result (λ lists. (n : ℕ) → n < vec_len keys.now.type_places
        → slice_get (concat lists.by_type.rows) (slice_index lists.places.items n) ≡ Some n) }
{
    let type_places = keys.type_places.as_slice();
    let values = keys.values.as_slice();
    let by_type = row_lists(alloc, types, type_places, values, marks)?;
    let places = places_among(alloc, type_places.len(), by_type.rows.flat())?;
    let by_value = row_lists(alloc, concepts, values, type_places, marks)?;
    Ok(ListsByKeys {
        places,
        by_type,
        by_value,
    })
}

// Copies the place of the type of each row.
fn type_places_of(alloc: Global, rows: &[CodedRow]) -> Result<Vec<u32>, AllocError>
    ensures { IfOk result (λ keys. keys.items ≡ map (λ (row : CodedRow). row.type_place) rows.now) }
{
    rows.iter().map(|row| row.type_place).collect(alloc)
}

// Copies the number of the value of each row.
fn values_of(alloc: Global, rows: &[CodedRow]) -> Result<Vec<u32>, AllocError>
    ensures { IfOk result (λ keys. keys.items ≡ map (λ (row : CodedRow). row.value) rows.now) }
{
    rows.iter().map(|row| row.value).collect(alloc)
}

// Builds the lists by group. `marks` has the group of each row of `rows`, and the first group of
// each concept.
fn group_lists(alloc: Global, marks: &RowMarks, rows: &[CodedRow]) -> Result<GroupLists, AllocError>
    requires few { length rows.now < 2 ^ 32 }
    requires some { 0 < vec_len marks.now.starts }
    requires long { vec_len marks.now.groups ≡ length rows.now }
    requires within { All (λ (mark : Flagged). mark.number
        < slice_index marks.now.starts.items (vec_len marks.now.starts - 1))
        marks.now.groups.items }
    requires one { HaveOneNumber marks.now.groups.items rows.now }
    ensures len { IfOk result (λ lists. vec_len lists.numbers
        ≡ slice_index marks.now.starts.items (vec_len marks.now.starts - 1)) }
    ensures numbers { IfOk result (λ lists. AreNumbersOf marks.now.groups.items rows.now
        lists.numbers.items) }
    ensures starts { IfOk result (λ lists. lists.starts.items ≡ marks.now.starts.items) }
    ensures rows { IfOk result (λ lists.
        lists.rows ≡ places_by (slice_index marks.now.starts.items (vec_len marks.now.starts - 1))
        (map (λ (mark : Flagged). mark.number) marks.now.groups.items)) }
{
    let count = marks.starts[marks.starts.len() - 1];
    let numbers = numbers_by_group(alloc, count, marks.groups.as_slice(), rows)?;
    let units = numbers_of(alloc, marks.groups.as_slice())?;
    let rows = places_by_key(alloc, count, units.as_slice())?;
    let starts = Vec::from_slice(alloc, marks.starts.as_slice())?;
    Ok(GroupLists {
        numbers,
        starts,
        rows,
    })
}

// Returns the relationship group number of each of the `count` groups. `marks` has the group of
// each row; all rows of a group have the same group number.
fn numbers_by_group(
    alloc: Global,
    count: u32,
    marks: &[FlaggedNumber],
    rows: &[CodedRow],
) -> Result<Vec<u32>, AllocError>
    requires long { length marks.now ≡ length rows.now }
    requires within { All (λ (mark : Flagged). mark.number < count) marks.now }
    requires one { HaveOneNumber marks.now rows.now }
    ensures len { IfOk result (λ numbers. vec_len numbers ≡ count) }
    ensures numbers { IfOk result (λ numbers. AreNumbersOf marks.now rows.now numbers.items) }
{
    let mut numbers = vec![in alloc; 0u32; count as usize]?;
    for (place, row) in rows.iter().enumerate() {
        numbers[marks[place].number() as usize] = row.group;
    }
    Ok(numbers)
}

// Copies the number of each mark, without its flag.
fn numbers_of(alloc: Global, marks: &[FlaggedNumber]) -> Result<Vec<u32>, AllocError>
    ensures { IfOk result (λ numbers. numbers.items
        ≡ map (λ (mark : Flagged). mark.number) marks.now) }
{
    marks.iter().map(|mark| mark.number()).collect(alloc)
}
