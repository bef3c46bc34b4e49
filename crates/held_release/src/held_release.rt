//! A loaded release, and the functions that read it.
ghost use Rattle.std.specs.Prelude.{◌≡◌, ◌<◌, ◌^◌, ℕ, List, None, Some, true, map, length, slice_index};
ghost use Rattle.std.specs.List.{slice_get};
ghost use Rattle.std.specs.List.Sorted.{IsStrictlyIncreasing};
ghost use Rattle.held_release.specs.AttributesBySource.{attribute_of, attributes_by_source, with_source};
ghost use Rattle.held_release.specs.CodedRows.{AreCodedRows};
ghost use Rattle.held_release.specs.ValuesInForce.{AreValuesInForce, is_value_among};
ghost use Rattle.held_release.specs.Line.{concept_line};
ghost use Rattle.held_release.specs.Name.{name_of, text_lent};
ghost use Rattle.hierarchy.specs.Hierarchy.{IsWithin};
ghost use Rattle.number_lists.specs.Members.{has};
ghost use Rattle.held_release.specs.Numbering.{concept_number, row_of_numbers};
ghost use Rattle.rf2_rows.specs.Rows.{value_lent};
ghost use Rattle.hierarchy.specs.ParentsFirst.{IsParentsFirst};

use crate::coded_rows::CodedRows;
use crate::concepts::Concepts;
use crate::lines::ConceptLines;
use crate::report::Report;
use key_interner::Seed;
use rf2_rows::Value;
use sctid::SctId;
use std::marker::Model;

/// An attribute row in force (Release File Specification, "Relationship file" and "Relationship
/// concrete values file").
#[derive(Clone, Copy, Debug, PartialEq, Eq)]
pub struct AttributeRow<'a> {
    /// The number of the concept that has the attribute.
    pub source: u32,
    /// The type.
    pub type_id: SctId,
    /// The number of the group, 0 for none.
    pub group: u32,
    /// The value. If it is a text, this is borrowed from the snapshot.
    pub value: Value<'a>,
}

/// A loaded release: its concepts and rows in force. The number of a concept is its index, from 0,
/// in the rising list of the identifiers. Contracts name this type as the release, the inactive
/// concepts, the preferred language, and the counts of files and of rows that were passed over.
#[derive(Drop)]
pub struct Snapshot {
    // the concepts in force
    pub(crate) concepts: Concepts,
    // the identifiers of the concepts whose chosen row is inactive, in rising order
    pub(crate) inactive: Vec<SctId>,
    // the child and the parent of each is-a row, by number, in the order of the rows in the files
    pub(crate) isa: Vec<(u32, u32)>,
    // the numbers of all concepts, each after those of its parents
    pub(crate) order: Vec<u32>,
    // the attribute rows as numbers, sorted by source
    pub(crate) attributes: CodedRows,
    // the reference set and the component of each member row, by number, in the order of the rows
    // in the files
    pub(crate) members: Vec<(u32, u32)>,
    // the output line of each concept, and the name rows in the order of the files
    pub(crate) lines: ConceptLines,
    // the code of the preferred language
    pub(crate) language: String,
    // how many files are Snapshot files of some kind by their names
    pub(crate) files: u64,
    // how many rows are in none of the release's lists
    pub(crate) passed: u64,
    // the seed for hashes of what the rows contain
    pub(crate) seed: Seed,
}

impl Model for Snapshot {
    ghost use Rattle.held_release.specs.Contents.{Contents};

    ghost Value = { Contents };

    ghost use Rattle.held_release.specs.inside.SnapshotInside.{contents_in, IsNumbered};

    ghost view = { contents_in };

    ghost invariant = { IsNumbered };
}

impl Snapshot {
    /// Returns the seed for hashes of what the files contain, as the source of the files gave it.
    pub fn seed(&self) -> Seed {
        self.seed
    }

    /// Returns the number of concepts in force: fewer than 2^31.
    pub fn concept_count(&self) -> u32
        ensures count { result ≡ length self.now.release.concepts }
        ensures few { length self.now.release.concepts < 2 ^ 31 }
        ensures rising { IsStrictlyIncreasing self.now.release.concepts }
    {
        self.concepts.len()
    }

    /// Returns the number of the concept with the identifier `id`, or `None` if it is not in force.
    pub fn index_of(&self, id: u64) -> Option<u32>
        ensures { result ≡ concept_number self.now.release.concepts id }
    {
        self.concepts.index_of(id)
    }

    /// Whether `id` is the identifier of a concept whose chosen row is inactive (Release File
    /// Specification, "Concept file", active).
    pub fn is_inactive(&self, id: u64) -> bool
        ensures { result ≡ has self.now.inactive id }
    {
        is_among(id, self.inactive.as_slice())
    }

    /// Returns the identifier of the concept with the number `concept`, which must be below
    /// `concept_count`.
    pub fn id_at(&self, concept: u32) -> SctId
        requires { concept < length self.now.release.concepts }
        ensures { result ≡ slice_index self.now.release.concepts concept }
    {
        self.concepts.id_at(concept)
    }

    /// Returns the name of the concept with the number `concept`, which must be below
    /// `concept_count`: the term of its fully specified name, or `None` if it has none. Of several,
    /// one in the preferred language comes before the others, and then one with a lesser
    /// description identifier before one with a greater (Release File Specification, "Description
    /// file").
    #[tactic(auto, using(crate::proofs::LineLemmas::line_among, crate::proofs::NameInLineLemmas::same_name))]
    pub fn name(&self, concept: u32) -> Option<&str>
        requires { concept < length self.now.release.concepts }
        ensures { text_lent result ≡ name_of self.now.release self.now.language
            (slice_index self.now.release.concepts concept) }
    {
        self.lines.name(concept, self.concepts.id_at(concept))
    }

    /// Returns the output line of the concept with the number `concept`, which must be below
    /// `concept_count`: its identifier, then a space and its name between bars if it has one, and
    /// LF.
    #[tactic(auto, using(crate::proofs::LineLemmas::line_among))]
    pub fn line(&self, concept: u32) -> &[u8]
        requires { concept < length self.now.release.concepts }
        ensures { result.now ≡ concept_line (name_of self.now.release self.now.language)
            (slice_index self.now.release.concepts concept) }
    {
        self.lines.line(concept)
    }

    /// Returns the child and the parent of each is-a row in force, as numbers of concepts, in the
    /// order of the files and their lines: fewer than 2^31 rows.
    pub fn isa_rows(&self) -> &[(u32, u32)]
        ensures rows { map (row_of_numbers self.now.release.concepts) result.now
            ≡ self.now.release.isa }
        ensures within { IsWithin (length self.now.release.concepts) result.now }
        ensures few { length result.now < 2 ^ 31 }
    {
        self.isa.as_slice()
    }

    /// Returns the numbers of all concepts in a topological order: each once, and each after all
    /// its parents.
    #[tactic(auto, using(crate::proofs::NumberingLemmas::same_numbers))]
    pub fn parents_first(&self) -> &[u32]
        ensures { (rows : List (ℕ × ℕ)) → map (row_of_numbers self.now.release.concepts) rows
            ≡ self.now.release.isa → IsWithin (length self.now.release.concepts) rows
            → IsParentsFirst (length self.now.release.concepts) rows result.now }
    {
        self.order.as_slice()
    }

    /// Returns the reference set and the component of each member row in force, as numbers of
    /// concepts, in the order of the files and their lines: fewer than 2^31 rows (Release File
    /// Specification, "Simple reference set").
    pub fn member_rows(&self) -> &[(u32, u32)]
        ensures rows { map (row_of_numbers self.now.release.concepts) result.now
            ≡ self.now.release.members }
        ensures within { IsWithin (length self.now.release.concepts) result.now }
        ensures few { length result.now < 2 ^ 31 }
    {
        self.members.as_slice()
    }

    /// Returns the number of attribute rows in force: fewer than 2^31. Its contract also states
    /// that the list of the rows by source has as many rows, and that each value that is a concept
    /// is in force.
    #[tactic(auto, using(crate::proofs::SortedLemmas::rows_counted))]
    pub fn attribute_count(&self) -> u32
        ensures count { result ≡ length self.now.release.attributes }
        ensures few { length self.now.release.attributes < 2 ^ 31 }
        ensures by_source { length (attributes_by_source self.now.release)
            ≡ length self.now.release.attributes }
        ensures values { AreValuesInForce self.now.release }
    {
        self.attributes.rows.len() as u32
    }

    /// Returns the attribute row in force with the number `n`, which must be below
    /// `attribute_count`. The rows are numbered by source: first those of the first concept, and
    /// those of one concept in the order of the files and their lines. A value that is a concept is
    /// in force.
    pub fn attribute_row(&self, n: u32) -> AttributeRow<'_>
        requires { n < length self.now.release.attributes }
        ensures row { slice_get (attributes_by_source self.now.release) n
            ≡ Some (with_source self.now.release.concepts (attribute_of result)) }
        ensures source { result.source < length self.now.release.concepts }
        ensures value { is_value_among self.now.release.concepts (value_lent result.value) ≡ true }
    {
        let row = self.attributes.rows[n as usize];
        AttributeRow {
            source: row.source,
            type_id: self.attributes.types[row.type_place as usize],
            group: row.group,
            value: self
                .attributes
                .values
                .value_at(self.concepts.ids(), row.value),
        }
    }

    /// Returns the attribute rows in force as numbers, in the order of their numbers.
    pub fn coded_rows(&self) -> &CodedRows
        ensures { AreCodedRows self.now.release.concepts (attributes_by_source self.now.release)
            result.now }
    {
        &self.attributes
    }

    /// Returns the counts of the files that the release was loaded from, of the rows in force, and
    /// of the rows that were passed over.
    pub fn report(&self) -> Report
        ensures files { result.files ≡ self.now.files }
        ensures concepts { result.concepts ≡ length self.now.release.concepts }
        ensures isa { result.isa ≡ length self.now.release.isa }
        ensures attributes { result.attributes ≡ length self.now.release.attributes }
        ensures members { result.members ≡ length self.now.release.members }
        ensures names { result.names ≡ length self.now.release.names }
        ensures passed { result.passed ≡ self.now.passed }
    {
        Report {
            files: self.files,
            concepts: u64::from(self.concepts.len()),
            isa: self.isa.len() as u64,
            attributes: self.attributes.rows.len() as u64,
            members: self.members.len() as u64,
            names: self.lines.name_count() as u64,
            passed: self.passed,
        }
    }
}

// Whether the rising list `concepts` has the identifier `id`.
fn is_among(id: u64, concepts: &[SctId]) -> bool
    requires { IsStrictlyIncreasing concepts.now }
    ensures { result ≡ has concepts.now id }
{
    let place = concepts.binary_search_by_key(
        &id,
        |concept: &SctId| -> u64
            ensures { result ≡ concept.now }
        { concept.number() },
    );
    place.is_ok()
}
