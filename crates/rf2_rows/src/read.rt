//! Reading a line as a row.
ghost use Rattle.std.specs.Prelude.{◌≡◌, None, Some, IfOk, IfErr, length};
ghost use Rattle.rf2_rows.specs.Rows.{IsReading, IsReadingLent, fields_fault, row_fault, concept_of};
ghost use Rattle.rf2_rows.specs.Rows.{description_of, description_text, relationship_of, member_of, IsRow};
ghost use Rattle.rf2_rows.specs.inside.SharedColumns.{description_end_fault, description_from};

use crate::concrete::read_concrete;
use crate::fault::{RowCause, RowFault};
use crate::fields::{component, fault, hyphenated, identifier, text};
use crate::kind::FileKind;
use crate::recent_concepts::RecentConcepts;
use crate::row::{ConceptRow, DescriptionRow, MemberRow, RelationshipRow, Row};
use crate::shared::{VersionColumns, read_relationship_end, read_version_columns};
use crate::tabs::Fields;
use sctid::{Part, SctId};

/// Reads `line`, without its line end, as a row of `kind`. Returns the row, whose texts are
/// borrowed from `line`, or the first fault: a wrong number of fields, and then the columns from
/// left to right. Takes no memory.
pub fn read_row<'a>(kind: FileKind, line: &'a [u8]) -> Result<Row<'a>, RowFault>
    ensures row { IfOk result (λ row. IsRow kind line.now row) }
    ensures accepted { IfOk result (λ _. row_fault kind line.now ≡ None) }
    ensures fault { IfErr result (λ fault. row_fault kind line.now ≡ Some fault) }
{
    RowReader::new().read_row(kind, line)
}

/// A reader for many lines. Its method `read_row` returns what the function `read_row` returns, and
/// is faster: columns such as the module repeat a few identifiers, and the reader does not parse
/// again an identifier that a column had just before.
#[derive(Drop)]
pub struct RowReader {
    recent: RecentConcepts,
}

impl RowReader {
    /// Creates a reader that has read no line yet. Takes no memory.
    pub fn new() -> RowReader {
        RowReader {
            recent: RecentConcepts::new(),
        }
    }

    /// Reads `line` as a row of `kind`. Returns what the function `read_row` returns. Takes no
    /// memory.
    #[tactic(auto, unfolding(crate::specs::Rows::row_fault, crate::specs::Rows::concept_row, crate::specs::Rows::description_row, crate::specs::Rows::relationship_row, crate::specs::Rows::concrete_row, crate::specs::Rows::member_row))]
    pub fn read_row<'a>(&mut self, kind: FileKind, line: &'a [u8]) -> Result<Row<'a>, RowFault>
        ensures row { IfOk result (λ row. IsRow kind line.now row) }
        ensures accepted { IfOk result (λ _. row_fault kind line.now ≡ None) }
        ensures fault { IfErr result (λ fault. row_fault kind line.now ≡ Some fault) }
    {
        let mut fields = Fields::new();
        let Some(()) = fields.cut(line) else {
            return Err(fault(RowCause::Fields, 0));
        };
        let fields = &fields;
        let recent = &mut self.recent;
        match kind {
            FileKind::Concept => {
                let row = read_concept(recent, fields)?;
                Ok(Row::Concept(row))
            }
            FileKind::Description => match read_description(recent, fields) {
                Ok(row) => Ok(Row::Description(row)),
                Err(fault) => Err(fault),
            },
            FileKind::Relationship => {
                let row = read_relationship(recent, fields)?;
                Ok(Row::Relationship(row))
            }
            FileKind::Concrete => match read_concrete(recent, fields) {
                Ok(row) => Ok(Row::Concrete(row)),
                Err(fault) => Err(fault),
            },
            FileKind::Member => {
                let row = read_member(recent, fields)?;
                Ok(Row::Member(row))
            }
        }
    }
}

// Reads the fields of a line as a row of the Concept file. Returns the row or the first fault.
#[tactic(auto, using(crate::proofs::RowLemmas::concept_fault))]
fn read_concept(recent: &mut RecentConcepts, fields: &Fields<'_>) -> Result<ConceptRow, RowFault>
    ensures { IsReading (fields_fault FileKind.Concept fields.now) (concept_of fields.now) result }
{
    if fields.len() != 5 {
        return Err(fault(RowCause::Fields, 0));
    }
    let id = identifier(fields.at(0), Part::Concept, 1)?;
    let version = read_version_columns(&mut recent.module_id, fields)?;
    let definition_status_id = recent.definition_status_id.read(fields.at(4), 5)?;
    Ok(ConceptRow {
        id,
        effective_time: version.effective_time,
        active: version.active,
        module_id: version.module_id,
        definition_status_id,
    })
}

// Reads the fields of a line as a row of the Description file. Returns the row or the first fault.
#[tactic(auto, using(crate::proofs::RowLemmas::description_fault))]
fn read_description<'a>(
    recent: &mut RecentConcepts,
    fields: &Fields<'a>,
) -> Result<DescriptionRow<'a>, RowFault>
    ensures { IsReadingLent description_text (fields_fault FileKind.Description fields.now)
        (description_of fields.now) result }
{
    if fields.len() != 9 {
        return Err(fault(RowCause::Fields, 0));
    }
    let id = identifier(fields.at(0), Part::Description, 1)?;
    let version = read_version_columns(&mut recent.module_id, fields)?;
    read_description_end(recent, id, version, fields)
}

// Reads the columns of a description row after the module, and makes the row. `id` and `version`
// are the columns before, already read.
fn read_description_end<'a>(
    recent: &mut RecentConcepts,
    id: SctId,
    version: VersionColumns,
    fields: &Fields<'a>,
) -> Result<DescriptionRow<'a>, RowFault>
    requires { length fields.now ≡ 9 }
    ensures { IsReadingLent description_text (description_end_fault fields.now)
        (description_from id version fields.now) result }
{
    let concept_id = identifier(fields.at(4), Part::Concept, 5)?;
    let language_code = text(fields.at(5), 6)?;
    let type_id = recent.description_type_id.read(fields.at(6), 7)?;
    let term = text(fields.at(7), 8)?;
    let case_significance_id = recent.case_significance_id.read(fields.at(8), 9)?;
    Ok(DescriptionRow {
        id,
        effective_time: version.effective_time,
        active: version.active,
        module_id: version.module_id,
        concept_id,
        language_code,
        type_id,
        term,
        case_significance_id,
    })
}

// Reads the fields of a line as a row of the Relationship file. Returns the row or the first fault.
#[tactic(auto, using(crate::proofs::RowLemmas::relationship_fault))]
fn read_relationship(
    recent: &mut RecentConcepts,
    fields: &Fields<'_>,
) -> Result<RelationshipRow, RowFault>
    ensures { IsReading (fields_fault FileKind.Relationship fields.now)
        (relationship_of fields.now) result }
{
    if fields.len() != 10 {
        return Err(fault(RowCause::Fields, 0));
    }
    let id = identifier(fields.at(0), Part::Relationship, 1)?;
    let version = read_version_columns(&mut recent.module_id, fields)?;
    let source_id = identifier(fields.at(4), Part::Concept, 5)?;
    let destination_id = identifier(fields.at(5), Part::Concept, 6)?;
    let end = read_relationship_end(recent, fields)?;
    Ok(RelationshipRow {
        id,
        effective_time: version.effective_time,
        active: version.active,
        module_id: version.module_id,
        source_id,
        destination_id,
        relationship_group: end.relationship_group,
        type_id: end.type_id,
        characteristic_type_id: end.characteristic_type_id,
        modifier_id: end.modifier_id,
    })
}

// Reads the fields of a line as a row of a simple reference set file. Returns the row or the first
// fault.
#[tactic(auto, using(crate::proofs::RowLemmas::member_fault))]
fn read_member(recent: &mut RecentConcepts, fields: &Fields<'_>) -> Result<MemberRow, RowFault>
    ensures { IsReading (fields_fault FileKind.Member fields.now) (member_of fields.now) result }
{
    if fields.len() != 6 {
        return Err(fault(RowCause::Fields, 0));
    }
    let id = hyphenated(fields.at(0), 1)?;
    let version = read_version_columns(&mut recent.module_id, fields)?;
    let refset_id = identifier(fields.at(4), Part::Concept, 5)?;
    let referenced_component_id = component(fields.at(5), 6)?;
    Ok(MemberRow {
        id,
        effective_time: version.effective_time,
        active: version.active,
        module_id: version.module_id,
        refset_id,
        referenced_component_id,
    })
}
