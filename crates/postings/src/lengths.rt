//! A view of the indexes that gives numbers, never lists.
ghost use Rattle.std.specs.Prelude.{◌≡◌, ◌<◌, ◌^◌, length, pos, slice_index_or};
ghost use Rattle.std.specs.Ordering.{int_cmp};
ghost use Rattle.std.specs.List.Sorted.{IsStrictlyIncreasing};
ghost use Rattle.number_lists.specs.KeyedLists.{list_of};
ghost use Rattle.held_release.specs.Numbering.{concept_number};
ghost use Rattle.postings.specs.Groups.{groups_in};
ghost use Rattle.postings.specs.Indexed.{HasListsFor, reference_sets_of, rows_by_source};
ghost use Rattle.postings.specs.Indexed.{rows_by_type, rows_by_value};
ghost use Rattle.postings.specs.Stats.{stats_in};
ghost use Rattle.std.proofs.Props.{props};

use crate::index::Indexes;
use crate::stats::Stats;
use rf2_rows::Decimal;
use std::cmp::Ordering;

/// A view of the indexes for calls that return numbers: the length of a list, a count, or the
/// number of a concept. No call returns a list or an item of one. Sizes, bounds and estimates of
/// plans are computed from these numbers.
#[derive(Clone, Copy)]
pub struct Lengths<'a> {
    pub(crate) indexes: &'a Indexes,
    // for the prover: the hierarchy and `members` have a list for each concept
    pub ghost lists: { HasListsFor (length indexes.now.concepts)
        indexes.now.hierarchy } by { Prim.hlevel props },
    pub ghost members: { length indexes.now.members ≡ length indexes.now.concepts },
}

impl<'a> Lengths<'a> {
    /// Returns the six counts of the release.
    pub fn stats(self) -> Stats
        ensures { result ≡ stats_in self.entry.indexes.now }
    {
        self.indexes.stats()
    }

    /// Returns how many concepts are in force.
    pub fn concept_count(self) -> u32
        ensures count { result ≡ length self.entry.indexes.now.concepts }
        ensures few { length self.entry.indexes.now.concepts < 2 ^ 31 }
        ensures rising { IsStrictlyIncreasing self.entry.indexes.now.concepts }
    {
        self.indexes.concept_count()
    }

    /// Returns the number of the concept with the identifier `id`, or `None` if no concept in force
    /// has it.
    pub fn index_of(self, id: u64) -> Option<u32>
        ensures { result ≡ concept_number self.entry.indexes.now.concepts id }
    {
        self.indexes.index_of(id)
    }

    /// Returns how many attribute rows are in force.
    pub fn row_count(self) -> u32
        ensures count { result ≡ length self.entry.indexes.now.rows }
        ensures few { length self.entry.indexes.now.rows < 2 ^ 31 }
    {
        self.indexes.row_count()
    }

    /// Returns how many groups all concepts have together.
    pub fn group_count(self) -> u32
        ensures count { result ≡ length (groups_in self.entry.indexes.now) }
        ensures few { length (groups_in self.entry.indexes.now) < 2 ^ 31 }
    {
        self.indexes.group_count()
    }

    /// Returns how many rows have the concept with the number `concept` as their source.
    pub fn source_row_count(self, concept: u32) -> u64
        requires { concept < length self.indexes.now.concepts }
        ensures { result ≡ length (rows_by_source self.entry.indexes.now concept) }
    {
        self.indexes.rows_of(concept).len() as u64
    }

    /// Returns how many rows have the concept with the number `concept` as their value.
    pub fn value_row_count(self, concept: u32) -> u64
        requires { concept < length self.indexes.now.concepts }
        ensures { result ≡ length (rows_by_value self.entry.indexes.now concept) }
    {
        self.indexes.by_value(concept).len() as u64
    }

    /// Returns how many rows have the type with the identifier `id`, which need not be the type of
    /// any row.
    pub fn type_row_count(self, id: u64) -> u64
        ensures { result ≡ length (rows_by_type self.entry.indexes.now id) }
    {
        self.indexes.by_type(id).len() as u64
    }

    /// Returns how many distinct decimals the values of the rows have.
    pub fn decimal_count(self) -> u32
        ensures { result ≡ length self.entry.indexes.now.decimals }
    {
        self.indexes.decimals().len() as u32
    }

    /// Compares the decimal at `place` in `Indexes::decimals` with `number`.
    pub fn compare_decimal(self, place: u32, number: Decimal) -> Ordering
        requires { place < length self.indexes.now.decimals }
        ensures { result ≡ int_cmp (slice_index_or self.entry.indexes.now.decimals place (pos 0))
            number.0 }
    {
        self.indexes.decimals()[place as usize].cmp(&number.0)
    }

    /// Returns how many components the reference set with the concept number `concept` has.
    pub fn member_count(self, concept: u32) -> u64
        requires { concept < length self.indexes.now.concepts }
        ensures count { result ≡ length (list_of self.entry.indexes.now.members concept) }
        ensures few { result < 2 ^ 63 }
    {
        self.indexes.members(concept).len() as u64
    }

    /// How many concepts are the reference set of some member row.
    pub fn reference_set_count(self) -> u64
        ensures count { result ≡ length (reference_sets_of self.entry.indexes.now) }
        ensures few { result < 2 ^ 63 }
    {
        self.indexes.reference_sets().len() as u64
    }

    /// Returns how many ancestors the concept with the number `concept` has.
    pub fn ancestor_count_of(self, concept: u32) -> u64
        requires { concept < length self.indexes.now.concepts }
        ensures count { result ≡ length (list_of self.entry.indexes.now.hierarchy.ancestors
            concept) }
        ensures few { result < 2 ^ 63 }
    {
        self.indexes.hierarchy().ancestors(concept).len() as u64
    }

    /// Returns how many descendants the concept with the number `concept` has.
    pub fn descendant_count_of(self, concept: u32) -> u64
        requires { concept < length self.indexes.now.concepts }
        ensures count { result ≡ length (list_of self.entry.indexes.now.hierarchy.descendants
            concept) }
        ensures few { result < 2 ^ 63 }
    {
        self.indexes.hierarchy().descendants(concept).len() as u64
    }

    /// Returns how many parents the concept with the number `concept` has.
    pub fn parent_count_of(self, concept: u32) -> u64
        requires { concept < length self.indexes.now.concepts }
        ensures count { result ≡ length (list_of self.entry.indexes.now.hierarchy.parents concept) }
        ensures few { result < 2 ^ 63 }
    {
        self.indexes.hierarchy().parents(concept).len() as u64
    }

    /// Returns how many children the concept with the number `concept` has.
    pub fn child_count_of(self, concept: u32) -> u64
        requires { concept < length self.indexes.now.concepts }
        ensures count { result ≡ length (list_of self.entry.indexes.now.hierarchy.children
            concept) }
        ensures few { result < 2 ^ 63 }
    {
        self.indexes.hierarchy().children(concept).len() as u64
    }
}
