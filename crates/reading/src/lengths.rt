//! Lengths of lists, look-ups by number and tests of membership. These calls count nothing, since
//! they hand out no item of a list.
ghost use Rattle.std.specs.Prelude.{◌≡◌, ◌<◌, ◌+◌, ◌^◌, IfSome, length, nat_eq, pos, position, slice_get, slice_index};
ghost use Rattle.std.specs.Prelude.{slice_index_or};
ghost use Rattle.std.specs.List.{concat};
ghost use Rattle.std.specs.Ordering.{int_cmp};
ghost use Rattle.std.specs.List.Sorted.{IsStrictlyIncreasing};
ghost use Rattle.number_lists.specs.KeyedLists.{list_of};
ghost use Rattle.number_lists.specs.Members.{has};
ghost use Rattle.held_release.specs.AttributesBySource.{attributes_by_source};
ghost use Rattle.held_release.specs.Numbering.{concept_number};
ghost use Rattle.postings.specs.Entries.{entries_of};
ghost use Rattle.postings.specs.Groups.{groups_before, groups_in, rows_of_group};
ghost use Rattle.postings.specs.Indexed.{concept_of_type, reference_sets_of, rows_by_source};
ghost use Rattle.postings.specs.Indexed.{rows_by_type, rows_by_value, types_of};
ghost use Rattle.postings.specs.RowColumns.{AreRowCells};

use crate::reader::Reader;
use idset::has_number;
use numerals::Decimal;
use postings::{Lengths, RowCells};
use sctid::SctId;
use std::cmp::Ordering;
use std::ops::Range;

impl<'a> Reader<'a> {
    /// Returns a view of the indexes whose calls return numbers, never lists.
    pub fn lengths(self) -> Lengths<'a>
        ensures { result.indexes.now ≡ self.entry.indexes.now }
    {
        self.indexes.lengths()
    }

    /// Returns how many concepts are in force. The number of each concept is below this count.
    pub fn concept_count(self) -> u32
        ensures count { result ≡ length self.entry.snapshot.now.release.concepts }
        ensures few { length self.entry.snapshot.now.release.concepts < 2 ^ 31 }
        ensures rising { IsStrictlyIncreasing self.entry.snapshot.now.release.concepts }
        ensures numbers { result ≡ length self.entry.indexes.now.concepts }
        ensures numbers_few { length self.entry.indexes.now.concepts < 2 ^ 31 }
        ensures numbers_rise { IsStrictlyIncreasing self.entry.indexes.now.concepts }
    {
        self.indexes.concept_count();
        self.snapshot.concept_count()
    }

    /// Returns the number of the concept with the identifier `id`, or `None` if no concept in force
    /// has it.
    pub fn index_of(self, id: u64) -> Option<u32>
        ensures release { result ≡ concept_number self.entry.snapshot.now.release.concepts id }
        ensures indexed { result ≡ concept_number self.entry.indexes.now.concepts id }
    {
        self.snapshot.index_of(id)
    }

    /// Returns the identifier of the concept with the number `concept`.
    pub fn id_at(self, concept: u32) -> SctId
        requires { concept < length self.snapshot.now.release.concepts }
        ensures { result ≡ slice_index self.entry.snapshot.now.release.concepts concept }
    {
        self.snapshot.id_at(concept)
    }

    /// Returns how many pairs of a concept and one of its ancestors there are.
    pub fn ancestor_count(self) -> usize
        ensures { result ≡ length (concat self.entry.indexes.now.hierarchy.ancestors) }
    {
        self.indexes.hierarchy().ancestor_count()
    }

    /// Returns how many pairs of a concept and one of its parents there are.
    pub fn link_count(self) -> usize
        ensures { result ≡ length (concat self.entry.indexes.now.hierarchy.parents) }
    {
        self.indexes.hierarchy().link_count()
    }

    /// Returns how many attribute rows are in force.
    pub fn row_count(self) -> u32
        ensures count { result ≡ length self.entry.indexes.now.rows }
        ensures few { length self.entry.indexes.now.rows < 2 ^ 31 }
    {
        self.lengths().row_count()
    }

    /// Returns how many attribute rows are in force: the snapshot has as many as the indexes.
    pub fn attribute_count(self) -> u32
        ensures count { result ≡ length self.entry.snapshot.now.release.attributes }
        ensures few { length self.entry.snapshot.now.release.attributes < 2 ^ 31 }
        ensures by_source { length (attributes_by_source self.entry.snapshot.now.release)
            ≡ length self.entry.snapshot.now.release.attributes }
    {
        self.snapshot.attribute_count()
    }

    /// Returns what a query tests of the row with the number `n`.
    pub fn cells(self, n: u32) -> RowCells
        requires { n < length self.indexes.now.rows }
        ensures { IfSome (slice_get (entries_of self.entry.indexes.now.rows) n)
            (AreRowCells self.entry.indexes.now result) }
    {
        self.indexes.cells(n)
    }

    /// Returns how many distinct types the attribute rows have.
    pub fn type_count(self) -> u32
        ensures count { result ≡ length (types_of self.entry.indexes.now.rows) }
        ensures few { length (types_of self.entry.indexes.now.rows) < 2 ^ 31 }
    {
        // tells the prover that there are fewer rows than 2^31, and so fewer types
        self.row_count();
        self.indexes.types().len() as u32
    }

    /// Returns the type at `place` in the list of distinct types (`Indexes::types`).
    pub fn type_at(self, place: u32) -> SctId
        requires { place < length (types_of self.indexes.now.rows) }
        ensures { result ≡ slice_index (types_of self.entry.indexes.now.rows) place }
    {
        self.indexes.types()[place as usize]
    }

    /// Returns how many distinct decimals the values of the rows have. The value number of the
    /// first decimal is the number of concepts.
    pub fn decimal_count(self) -> u32
        ensures { result ≡ length self.entry.indexes.now.decimals }
    {
        self.lengths().decimal_count()
    }

    /// Compares the decimal at `place` in the rising list of distinct decimals
    /// (`Indexes::decimals`) with `number`.
    pub fn compare_decimal(self, place: u32, number: Decimal) -> Ordering
        requires { place < length self.indexes.now.decimals }
        ensures { result ≡ int_cmp (slice_index_or self.entry.indexes.now.decimals place (pos 0))
            number.0 }
    {
        self.lengths().compare_decimal(place, number)
    }

    /// Returns the place of the type with the identifier `id` in the list of distinct types, or
    /// `None` if no row has this type.
    pub fn type_place(self, id: u64) -> Option<u32>
        ensures { result ≡ position (nat_eq id) (types_of self.entry.indexes.now.rows) }
    {
        self.indexes.type_place(id)
    }

    /// Returns the number of the concept that is the type at `place` in the list of distinct types.
    /// Returns `None` if there is no such place, or if no concept in force has the type's
    /// identifier.
    pub fn type_concept(self, place: u32) -> Option<u32>
        ensures { result ≡ concept_of_type self.entry.indexes.now
            (slice_get (types_of self.entry.indexes.now.rows) place) }
    {
        self.indexes.type_concept(place)
    }

    /// Returns how many groups all concepts have together.
    pub fn group_count(self) -> u32
        ensures count { result ≡ length (groups_in self.entry.indexes.now) }
        ensures few { length (groups_in self.entry.indexes.now) < 2 ^ 31 }
    {
        self.lengths().group_count()
    }

    /// Returns the numbers of the groups of the concept with the number `concept`, which are
    /// consecutive.
    pub fn units_of(self, concept: u32) -> Range<u32>
        requires { concept < length self.indexes.now.concepts }
        ensures start { result.start ≡ length (groups_before self.entry.indexes.now concept) }
        ensures end { result.end ≡ length (groups_before self.entry.indexes.now (concept + 1)) }
    {
        self.indexes.units_of(concept)
    }

    /// Returns the number of the concept that has the group with the number `unit`.
    pub fn unit_concept(self, unit: u32) -> u32
        requires { unit < length (groups_in self.indexes.now) }
        ensures within { result < length self.entry.indexes.now.concepts }
        ensures concept { IfSome (slice_get (groups_in self.entry.indexes.now) unit)
            (λ group. slice_index self.entry.indexes.now.concepts result ≡ group.concept) }
    {
        self.indexes.unit_concept(unit)
    }

    /// Returns how many rows have the concept with the number `concept` as their source.
    pub fn source_row_count(self, concept: u32) -> u64
        requires { concept < length self.indexes.now.concepts }
        ensures { result ≡ length (rows_by_source self.entry.indexes.now concept) }
    {
        self.lengths().source_row_count(concept)
    }

    /// Returns how many rows have the concept with the number `concept` as their value.
    pub fn value_row_count(self, concept: u32) -> u64
        requires { concept < length self.indexes.now.concepts }
        ensures { result ≡ length (rows_by_value self.entry.indexes.now concept) }
    {
        self.lengths().value_row_count(concept)
    }

    /// Returns how many rows have the type with the identifier `id`, which need not be the type of
    /// any row.
    pub fn type_row_count(self, id: u64) -> u64
        ensures { result ≡ length (rows_by_type self.entry.indexes.now id) }
    {
        self.lengths().type_row_count(id)
    }

    /// Returns how many rows the group with the number `unit` has.
    pub fn row_count_of_group(self, unit: u32) -> u64
        requires { unit < length (groups_in self.indexes.now) }
        ensures { IfSome (slice_get (groups_in self.entry.indexes.now) unit)
            (λ group. result ≡ length (rows_of_group self.entry.indexes.now group)) }
    {
        self.indexes.unit_rows(unit).len() as u64
    }

    /// Returns whether the concept with the number `concept` is a component of the reference set
    /// with the concept number `refset`.
    pub fn is_member(self, refset: u32, concept: u32) -> bool
        requires { refset < length self.indexes.now.concepts }
        ensures { result ≡ has (list_of self.entry.indexes.now.members refset) concept }
    {
        // tells the prover that the number of each concept fits in 32 bits
        self.concept_count();
        has_number(self.indexes.members(refset), concept)
    }

    /// Returns whether `ancestor` is an ancestor of `concept`, both by number.
    pub fn is_ancestor(self, ancestor: u32, concept: u32) -> bool
        requires { concept < length self.indexes.now.hierarchy.ancestors }
        ensures { result ≡ has (list_of self.entry.indexes.now.hierarchy.ancestors concept)
            ancestor }
    {
        // tells the prover that the number of each concept fits in 32 bits
        self.concept_count();
        has_number(self.indexes.hierarchy().ancestors(concept), ancestor)
    }

    /// Returns whether `descendant` is a descendant of `concept`, both by number.
    pub fn is_descendant(self, descendant: u32, concept: u32) -> bool
        requires { concept < length self.indexes.now.hierarchy.descendants }
        ensures { result ≡ has (list_of self.entry.indexes.now.hierarchy.descendants concept)
            descendant }
    {
        // tells the prover that the number of each concept fits in 32 bits
        self.concept_count();
        has_number(self.indexes.hierarchy().descendants(concept), descendant)
    }

    /// Returns how many components the reference set with the concept number `concept` has.
    pub fn member_count(self, concept: u32) -> u64
        requires { concept < length self.indexes.now.concepts }
        ensures { result ≡ length (list_of self.entry.indexes.now.members concept) }
    {
        self.lengths().member_count(concept)
    }

    /// How many concepts are the reference set of some member row.
    pub fn reference_set_count(self) -> u64
        ensures { result ≡ length (reference_sets_of self.entry.indexes.now) }
    {
        self.lengths().reference_set_count()
    }

    /// Returns how many ancestors the concept with the number `concept` has.
    pub fn ancestor_count_of(self, concept: u32) -> u64
        requires { concept < length self.indexes.now.concepts }
        ensures { result ≡ length (list_of self.entry.indexes.now.hierarchy.ancestors concept) }
    {
        self.lengths().ancestor_count_of(concept)
    }

    /// Returns how many descendants the concept with the number `concept` has.
    pub fn descendant_count_of(self, concept: u32) -> u64
        requires { concept < length self.indexes.now.concepts }
        ensures { result ≡ length (list_of self.entry.indexes.now.hierarchy.descendants concept) }
    {
        self.lengths().descendant_count_of(concept)
    }

    /// Returns how many parents the concept with the number `concept` has.
    pub fn parent_count_of(self, concept: u32) -> u64
        requires { concept < length self.indexes.now.concepts }
        ensures { result ≡ length (list_of self.entry.indexes.now.hierarchy.parents concept) }
    {
        self.lengths().parent_count_of(concept)
    }

    /// Returns how many children the concept with the number `concept` has.
    pub fn child_count_of(self, concept: u32) -> u64
        requires { concept < length self.indexes.now.concepts }
        ensures { result ≡ length (list_of self.entry.indexes.now.hierarchy.children concept) }
    {
        self.lengths().child_count_of(concept)
    }
}
