//! The indexes of a release, and the calls that look something up in them.
ghost use Rattle.std.specs.Prelude.{◌≡◌, ◌<◌, ◌+◌, ◌^◌, IfOk, IfSome, Some, length, map, nat_eq, position, slice_get, slice_index};
ghost use Rattle.std.specs.List.Sorted.{IsSorted, IsStrictlyIncreasing};
ghost use Rattle.std.specs.Ordering.{int_cmp};
ghost use Rattle.release_model.specs.Release.{Release};
ghost use Rattle.rf2_rows.specs.Rows.{value_lent};
ghost use Rattle.held_release.specs.AttributesBySource.{attribute_of, attributes_by_source, with_source};
ghost use Rattle.number_lists.specs.KeyedLists.{list_of};
ghost use Rattle.held_release.specs.Numbering.{concept_number};
ghost use Rattle.postings.specs.Entries.{entries_of};
ghost use Rattle.postings.specs.Groups.{group_of, groups_before, groups_in, rows_of_group};
ghost use Rattle.postings.specs.inside.RowIndexes.{AreRowIndexes};
ghost use Rattle.postings.specs.Indexed.{HasListsFor, IsIndexOf, concept_of_type, reference_sets_of, rows_by_source, rows_by_type, rows_by_value, types_of, value_at, values_of, with_members};
ghost use Rattle.postings.specs.RowColumns.{AreRowCells, AreTypeColumns, AreValueColumns};
ghost use Rattle.postings.specs.Stats.{stats_in, stats_of};

use crate::columns::{TypeColumns, ValueColumns};
use crate::lengths::Lengths;
use crate::row_indexes::{RowIndexes, row_indexes};
use crate::stats::Stats;
use ancestor_index::{AncestorIndex, linked_lists};
use held_release::{AttributeRow, Snapshot};
use number_lists::KeyedLists;
use rf2_rows::{Decimal, Value};
use sctid::SctId;
use std::alloc::{AllocError, Global};
use std::marker::Model;
use std::ops::Range;

/// What a query tests of one attribute row, as numbers.
#[derive(Clone, Copy, Debug)]
pub struct RowCells {
    /// The place of the row's type in `Indexes::types`.
    pub type_place: u32,
    /// The number of the row's value: see `Indexes::value`.
    pub value: u32,
    /// Whether no earlier row of the same source has the same type and value.
    pub is_first: bool,
    /// Whether no earlier row of the same group has the same type and value.
    pub is_first_in_group: bool,
}

/// The indexes of a release: its hierarchy, its attribute rows by type, value, source and group,
/// and its reference sets. A look-up allocates nothing.
///
/// Everything goes by numbers from 0. A concept's number is its index in the rising list of
/// concepts in force. Attribute rows are numbered by source, and the rows of one source in the
/// order of the files and their lines. Groups are numbered concept by concept: first the concept's
/// groups with a relationship group number, by rising number, then one for each distinct pair of
/// its rows without a number, in the order of the first row of each pair.
#[derive(Drop)]
pub struct Indexes {
    concepts: Vec<SctId>,
    hierarchy: AncestorIndex,
    rows: RowIndexes,
    members: KeyedLists,
    // the concepts that have members, in rising order
    reference_sets: Vec<u32>,
    // at the place of each type, the number of the concept that it is, or `None`
    type_concepts: Vec<Option<u32>>,
}

impl Model for Indexes {
    ghost use Rattle.postings.specs.Indexed.{Indexed};

    ghost Value = { Indexed };

    ghost use Rattle.postings.specs.inside.IndexInside.{AreIndexed, indexed_in};

    ghost view = { indexed_in };

    ghost invariant = { AreIndexed };
}

impl Indexes {
    /// Builds the indexes of the release in `snapshot`. Fails only if memory runs out.
    pub fn build(alloc: Global, snapshot: &Snapshot) -> Result<Indexes, AllocError>
        ensures { IfOk result (λ indexes. IsIndexOf indexes snapshot.now.release) }
    {
        // The hierarchy needs the most working memory, so it is built before anything else is held.
        let hierarchy = AncestorIndex::build(alloc, snapshot)?;
        let members = linked_lists(alloc, snapshot.concept_count(), snapshot.member_rows())?;
        let reference_sets = with_members(alloc, &members)?;
        let concepts = identifiers(alloc, snapshot)?;
        let (rows, type_concepts) = typed_rows(alloc, snapshot, concepts.as_slice())?;
        Ok(Indexes {
            concepts,
            hierarchy,
            rows,
            members,
            reference_sets,
            type_concepts,
        })
    }

    /// Returns the lists of ancestors, descendants, parents and children of each concept.
    pub fn hierarchy(&self) -> &AncestorIndex
        ensures { result.now ≡ self.now.hierarchy }
    {
        &self.hierarchy
    }

    /// Returns a view of the indexes whose calls return numbers, never lists.
    pub fn lengths(&self) -> Lengths<'_>
        ensures { result.indexes.now ≡ self.now }
    {
        // shows the prover that the hierarchy and `members` have a list for each concept
        let _ = &self.hierarchy;
        Lengths { indexes: self }
    }

    /// Returns the six counts of the release. The call only reads stored lengths.
    pub fn stats(&self) -> Stats
        ensures counts { result ≡ stats_in self.now }
        ensures release { (release : Release) → IsIndexOf self.now release
            → result ≡ stats_of release }
        ensures lists { HasListsFor (length self.now.concepts) self.now.hierarchy }
        ensures members { length self.now.members ≡ length self.now.concepts }
    {
        Stats {
            n: self.concept_count() as u64,
            a: self.row_count() as u64,
            g: self.group_count() as u64,
            r: self.hierarchy.ancestor_count() as u64,
            l: self.hierarchy.link_count() as u64,
            m: self.members.flat().len() as u64,
        }
    }

    /// Returns how many concepts are in force.
    pub fn concept_count(&self) -> u32
        ensures count { result ≡ length self.now.concepts }
        ensures few { length self.now.concepts < 2 ^ 31 }
        ensures rising { IsStrictlyIncreasing self.now.concepts }
    {
        self.concepts.len() as u32
    }

    /// Returns the number of the concept with the identifier `id`, or `None` if no concept in force
    /// has it.
    pub fn index_of(&self, id: u64) -> Option<u32>
        ensures { result ≡ concept_number self.now.concepts id }
    {
        number_of(id, self.concepts.as_slice())
    }

    /// Lists the components of the reference set with the concept number `concept`, in rising order
    /// and each once; the list is empty if the concept is no reference set (Release File
    /// Specification, "Simple reference set").
    pub fn members(&self, concept: u32) -> &[u32]
        requires { concept < length self.now.concepts }
        ensures { result.now ≡ list_of self.now.members concept }
    {
        self.members.of(concept)
    }

    /// Lists the concepts that have members as a reference set, by number in rising order (Release
    /// File Specification, "Simple reference set").
    pub fn reference_sets(&self) -> &[u32]
        ensures { result.now ≡ reference_sets_of self.now }
    {
        self.reference_sets.as_slice()
    }

    /// Returns how many attribute rows are in force.
    pub fn row_count(&self) -> u32
        ensures count { result ≡ length self.now.rows }
        ensures few { length self.now.rows < 2 ^ 31 }
    {
        self.rows.type_places.len() as u32
    }

    /// Returns the attribute row with the number `n`, which must be below `row_count`.
    pub fn row(&self, n: u32) -> AttributeRow<'_>
        requires { n < length self.now.rows }
        ensures row { slice_get self.now.rows n
            ≡ Some (with_source self.now.concepts (attribute_of result)) }
        ensures source { result.source < length self.now.concepts }
    {
        let row = self.rows.row(n);
        AttributeRow {
            source: row.source,
            type_id: self.rows.types.ids[row.type_place as usize],
            group: row.group,
            value: self.value(row.value),
        }
    }

    /// Returns what a query tests of the row with the number `n`, which must be below `row_count`.
    pub fn cells(&self, n: u32) -> RowCells
        requires { n < length self.now.rows }
        ensures { IfSome (slice_get (entries_of self.now.rows) n) (AreRowCells self.now result) }
    {
        let row = self.rows.row(n);
        let (is_first, is_first_in_group) = self.rows.firsts(n);
        RowCells {
            type_place: row.type_place,
            value: row.value,
            is_first,
            is_first_in_group,
        }
    }

    /// Lists the numbers of the rows of the type with the identifier `id`, in rising order. `id`
    /// need not be the type of any row; then the list is empty.
    pub fn by_type(&self, id: u64) -> &[u32]
        ensures { result.now ≡ rows_by_type self.now id }
    {
        match self.rows.types.numbers.place_of(id as u128) {
            Some(type_place) => self.rows.by_type.rows.of(type_place as u32),
            None => &[],
        }
    }

    /// Returns the sources, the values and the groups of the rows of the type `id`, in the order of
    /// `by_type`. The columns are empty if no row has the type.
    pub fn type_columns(&self, id: u64) -> TypeColumns<'_>
        ensures { AreTypeColumns self.now id result }
    {
        match self.rows.types.numbers.place_of(id as u128) {
            Some(type_place) => {
                let columns = self.rows.by_type.columns(type_place as u32);
                TypeColumns {
                    sources: columns.sources,
                    values: columns.others,
                    groups: columns.groups,
                }
            }
            None => TypeColumns {
                sources: &[],
                values: &[],
                groups: &[],
            },
        }
    }

    /// Lists the numbers of the rows whose value is the concept with the number `concept`, in
    /// rising order.
    pub fn by_value(&self, concept: u32) -> &[u32]
        requires { concept < length self.now.concepts }
        ensures { result.now ≡ rows_by_value self.now concept }
    {
        self.rows.by_value.rows.of(concept)
    }

    /// Returns the sources, the types and the groups of the rows whose value is the concept with
    /// the number `concept`, in the order of `by_value`.
    pub fn value_columns(&self, concept: u32) -> ValueColumns<'_>
        requires { concept < length self.now.concepts }
        ensures { AreValueColumns self.now concept result }
    {
        let columns = self.rows.by_value.columns(concept);
        ValueColumns {
            sources: columns.sources,
            types: columns.others,
            groups: columns.groups,
        }
    }

    /// Lists the numbers of the rows whose source is the concept with the number `concept`, in
    /// rising order.
    pub fn rows_of(&self, concept: u32) -> &[u32]
        requires { concept < length self.now.concepts }
        ensures { result.now ≡ rows_by_source self.now concept }
    {
        self.rows.of_source(concept)
    }

    /// Returns the place of the type with the identifier `id` in `types`, or `None` if no row has
    /// this type.
    pub fn type_place(&self, id: u64) -> Option<u32>
        ensures { result ≡ position (nat_eq id) (types_of self.now.rows) }
    {
        match self.rows.types.numbers.place_of(id as u128) {
            Some(type_place) => Some(type_place as u32),
            None => None,
        }
    }

    /// Lists the types of all rows, each once, in the order of the first row of each.
    pub fn types(&self) -> &[SctId]
        ensures { result.now ≡ types_of self.now.rows }
    {
        self.rows.types.ids.as_slice()
    }

    /// Returns the number of the concept that is the type at `place` in `types`. Returns `None` if
    /// there is no such place, or if no concept in force has the type's identifier.
    pub fn type_concept(&self, place: u32) -> Option<u32>
        ensures { result ≡ concept_of_type self.now (slice_get (types_of self.now.rows) place) }
    {
        match self.type_concepts.as_slice().get(place as usize) {
            Some(concept) => *concept,
            None => None,
        }
    }

    /// Lists the decimals among the values of the rows, in units of 10^-18, in rising order and
    /// each once. The value number of a decimal is its place here plus the number of concepts.
    pub fn decimals(&self) -> &[i128]
        ensures decimals { result.now ≡ self.now.decimals }
        ensures rising { IsSorted int_cmp self.now.decimals }
        ensures few { length self.now.concepts + length self.now.decimals < 2 ^ 32 }
    {
        self.rows.values.decimals.as_slice()
    }

    /// Returns the value with the value number `number`. Concepts come first: a number below the
    /// number of concepts is that of a concept. Then follow the decimals in the order of
    /// `decimals`, and then all other texts.
    pub fn value(&self, number: u32) -> Value<'_>
        requires { number < length (values_of self.now) }
        ensures { value_lent result ≡ value_at (values_of self.now) number }
    {
        self.rows.values.value_at(self.concepts.as_slice(), number)
    }

    /// Returns how many groups all concepts have together.
    pub fn group_count(&self) -> u32
        ensures count { result ≡ length (groups_in self.now) }
        ensures few { length (groups_in self.now) < 2 ^ 31 }
    {
        self.rows.groups.numbers.len() as u32
    }

    /// Returns the numbers of the groups of the concept with the number `concept`, which are
    /// consecutive (Release File Specification, "Relationship file", relationshipGroup).
    pub fn units_of(&self, concept: u32) -> Range<u32>
        requires { concept < length self.now.concepts }
        ensures start { result.start ≡ length (groups_before self.now concept) }
        ensures end { result.end ≡ length (groups_before self.now (concept + 1)) }
    {
        let starts = &self.rows.groups.starts;
        starts[concept as usize]..starts[concept as usize + 1]
    }

    /// Lists the numbers of the rows of the group with the number `unit`, in rising order. `unit`
    /// must be below `group_count`.
    pub fn unit_rows(&self, unit: u32) -> &[u32]
        requires { unit < length (groups_in self.now) }
        ensures { IfSome (slice_get (groups_in self.now) unit)
            (λ group. result.now ≡ rows_of_group self.now group) }
    {
        self.rows.groups.rows.of(unit)
    }

    /// Returns the number of the concept that has the group with the number `unit`, which must be
    /// below `group_count`.
    pub fn unit_concept(&self, unit: u32) -> u32
        requires { unit < length (groups_in self.now) }
        ensures within { result < length self.now.concepts }
        ensures concept { IfSome (slice_get (groups_in self.now) unit)
            (λ group. slice_index self.now.concepts result ≡ group.concept) }
    {
        let first = self.rows.groups.rows.of(unit)[0];
        let at = self.rows.places[first as usize];
        self.rows.by_type.sources[at as usize].number()
    }

    /// Returns the number of the group of the row with the number `n`, which must be below
    /// `row_count`.
    pub fn unit_of(&self, n: u32) -> u32
        requires { n < length self.now.rows }
        ensures { IfSome (slice_get self.now.rows n) (λ row. slice_get (groups_in self.now) result
            ≡ Some (group_of row)) }
    {
        let place = self.rows.places[n as usize];
        self.rows.by_type.groups[place as usize].number()
    }
}

// Lists the concepts whose list in `members` is not empty, in rising order.
fn with_members(alloc: Global, members: &KeyedLists) -> Result<Vec<u32>, AllocError>
    requires { length members.now < 2 ^ 32 }
    ensures { IfOk result (λ concepts. concepts.items ≡ with_members members.now) }
{
    let mut concepts = Vec::new(alloc);
    for concept in 0..members.len() {
        if members.of(concept).is_empty() {
            continue;
        }
        concepts.push(concept)?;
    }
    Ok(concepts)
}

// Lists the identifiers of the concepts in force, in rising order.
fn identifiers(alloc: Global, snapshot: &Snapshot) -> Result<Vec<SctId>, AllocError>
    ensures { IfOk result (λ concepts. concepts.items ≡ snapshot.now.release.concepts) }
{
    let mut concepts = Vec::with_capacity(alloc, snapshot.concept_count() as usize)?;
    for concept in 0..snapshot.concept_count() {
        concepts.push(snapshot.id_at(concept))?;
    }
    Ok(concepts)
}

// Indexes the attribute rows. Also returns, for each type at its place, the number of the concept
// that it is, or `None`. `concepts` has the identifiers of the concepts in force.
fn typed_rows(
    alloc: Global,
    snapshot: &Snapshot,
    concepts: &[SctId],
) -> Result<(RowIndexes, Vec<Option<u32>>), AllocError>
    requires rising { IsStrictlyIncreasing concepts.now }
    requires few { length concepts.now < 2 ^ 31 }
    ensures rows { IfOk result (λ made. AreRowIndexes snapshot.now.release.concepts
        (attributes_by_source snapshot.now.release) made.0) }
    ensures types { IfOk result (λ made. made.1.items
        ≡ map (concept_number concepts.now) made.0.types.ids.items) }
{
    let rows = row_indexes(alloc, snapshot)?;
    let type_concepts = numbers_of(alloc, rows.types.ids.as_slice(), concepts)?;
    Ok((rows, type_concepts))
}

// Maps each identifier of `ids` to the number of the concept that has it, or to `None`. `concepts`
// has the identifiers of the concepts in force.
fn numbers_of(
    alloc: Global,
    ids: &[SctId],
    concepts: &[SctId],
) -> Result<Vec<Option<u32>>, AllocError>
    requires rising { IsStrictlyIncreasing concepts.now }
    requires few { length concepts.now < 2 ^ 31 }
    ensures { IfOk result (λ numbers. numbers.items ≡ map (concept_number concepts.now) ids.now) }
{
    let mut numbers = Vec::with_capacity(alloc, ids.len())?;
    for id in ids {
        numbers.push(number_of(id.number(), concepts))?;
    }
    Ok(numbers)
}

// Returns the number of the concept with the identifier `id`, or `None` if it is not in `concepts`,
// the identifiers of the concepts in force.
fn number_of(id: u64, concepts: &[SctId]) -> Option<u32>
    requires rising { IsStrictlyIncreasing concepts.now }
    requires few { length concepts.now < 2 ^ 31 }
    ensures { result ≡ concept_number concepts.now id }
{
    let place = concepts.binary_search_by_key(
        &id,
        |concept: &SctId| -> u64
            ensures { result ≡ concept.now }
        { concept.number() },
    );
    match place {
        Ok(number) => Some(number as u32),
        Err(_) => None,
    }
}
