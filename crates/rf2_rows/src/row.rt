//! The typed rows: one field for each column, in the order of the header.
ghost use Rattle.std.specs.Prelude.{◌≡◌};
ghost use Rattle.rf2_rows.specs.Versions.{time_in};

use crate::value::Value;
use sctid::SctId;
use uuid::Uuid;

/// A row of the Concept file (Release File Specification, "Concept file").
#[derive(Clone, Copy, Debug, PartialEq, Eq)]
pub struct ConceptRow {
    /// The concept.
    pub id: SctId,
    /// The date from which the row counts, as a number YYYYMMDD, or `None` if it is unpublished.
    pub effective_time: Option<u32>,
    /// Whether the concept is active.
    pub active: bool,
    /// The module that the row belongs to.
    pub module_id: SctId,
    /// Whether the concept is defined sufficiently.
    pub definition_status_id: SctId,
}

/// A row of the Description file (Release File Specification, "Description file"). Its texts are
/// borrowed from the line.
#[derive(Clone, Copy, Debug, PartialEq, Eq)]
pub struct DescriptionRow<'a> {
    /// The description.
    pub id: SctId,
    /// The date from which the row counts, as a number YYYYMMDD, or `None` if it is unpublished.
    pub effective_time: Option<u32>,
    /// Whether the description is active.
    pub active: bool,
    /// The module that the row belongs to.
    pub module_id: SctId,
    /// The concept that is described.
    pub concept_id: SctId,
    /// The code of the term's language, for example `en`.
    pub language_code: &'a str,
    /// Whether the term is a fully specified name, a synonym or a definition.
    pub type_id: SctId,
    /// The text of the description.
    pub term: &'a str,
    /// Which letters of the term may change their case.
    pub case_significance_id: SctId,
}

/// A row of the Relationship file (Release File Specification, "Relationship file").
#[derive(Clone, Copy, Debug, PartialEq, Eq)]
pub struct RelationshipRow {
    /// The relationship.
    pub id: SctId,
    /// The date from which the row counts, as a number YYYYMMDD, or `None` if it is unpublished.
    pub effective_time: Option<u32>,
    /// Whether the relationship is active.
    pub active: bool,
    /// The module that the row belongs to.
    pub module_id: SctId,
    /// The concept that has the attribute, or the child of an is-a row.
    pub source_id: SctId,
    /// The concept that is the value, or the parent of an is-a row.
    pub destination_id: SctId,
    /// The group of the relationship, 0 for none: at most 999,999,999.
    pub relationship_group: u32,
    /// The attribute, or |Is a|.
    pub type_id: SctId,
    /// Whether the row is inferred, stated or other.
    pub characteristic_type_id: SctId,
    /// Always |Some| today.
    pub modifier_id: SctId,
}

/// A row of the Relationship concrete values file (Release File Specification, "Relationship
/// concrete values file"). If its value is a text, it is borrowed from the line.
#[derive(Clone, Copy, Debug, PartialEq, Eq)]
pub struct ConcreteRow<'a> {
    /// The relationship.
    pub id: SctId,
    /// The date from which the row counts, as a number YYYYMMDD, or `None` if it is unpublished.
    pub effective_time: Option<u32>,
    /// Whether the relationship is active.
    pub active: bool,
    /// The module that the row belongs to.
    pub module_id: SctId,
    /// The concept that has the attribute.
    pub source_id: SctId,
    /// The value: a number or another text, and never a concept.
    pub value: Value<'a>,
    /// The group of the relationship, 0 for none: at most 999,999,999.
    pub relationship_group: u32,
    /// The attribute.
    pub type_id: SctId,
    /// Whether the row is inferred, stated or other.
    pub characteristic_type_id: SctId,
    /// Always |Some| today.
    pub modifier_id: SctId,
}

/// A row of a simple reference set file (Release File Specification, "Simple reference set").
#[derive(Clone, Copy, Debug, PartialEq, Eq)]
pub struct MemberRow {
    /// The member.
    pub id: Uuid,
    /// The date from which the row counts, as a number YYYYMMDD, or `None` if it is unpublished.
    pub effective_time: Option<u32>,
    /// Whether the member is active.
    pub active: bool,
    /// The module that the row belongs to.
    pub module_id: SctId,
    /// The reference set.
    pub refset_id: SctId,
    /// The component that belongs to the reference set.
    pub referenced_component_id: SctId,
}

/// The row that a line of a file stands for.
#[derive(Clone, Copy, Debug, PartialEq, Eq)]
pub enum Row<'a> {
    /// A row of a Concept file.
    Concept(ConceptRow),
    /// A row of a Description file.
    Description(DescriptionRow<'a>),
    /// A row of a Relationship file.
    Relationship(RelationshipRow),
    /// A row of a Relationship concrete values file.
    Concrete(ConcreteRow<'a>),
    /// A row of a simple reference set file.
    Member(MemberRow),
}

impl Row<'_> {
    /// Returns the effective time of the row, `None` if it is unpublished.
    pub fn effective_time(&self) -> Option<u32>
        ensures { result ≡ time_in self.now }
    {
        match self {
            Row::Concept(row) => row.effective_time,
            Row::Description(row) => row.effective_time,
            Row::Relationship(row) => row.effective_time,
            Row::Concrete(row) => row.effective_time,
            Row::Member(row) => row.effective_time,
        }
    }
}
