//! Reading the rows of concrete values.
ghost use Rattle.rf2_rows.specs.Columns.{cause_of, value_format};
ghost use Rattle.rf2_rows.specs.Rows.{IsReadingLent, column_fault, concrete_of, concrete_text, fields_fault, value_lent};
ghost use Rattle.rf2_rows.specs.Values.{value_of};

use crate::fault::{RowCause, RowFault};
use crate::fields::{fault, identifier, text};
use crate::kind::FileKind;
use crate::recent_concepts::RecentConcepts;
use crate::row::ConcreteRow;
use crate::shared::{read_relationship_end, read_version_columns};
use crate::tabs::Fields;
use crate::value::Value;
use numerals::decimal;
use sctid::Part;

/// Reads the fields of a line as a row of the Relationship concrete values file. Returns the row or
/// the first fault.
#[tactic(auto, using(crate::proofs::RowLemmas::concrete_fault))]
pub fn read_concrete<'a>(
    recent: &mut RecentConcepts,
    fields: &Fields<'a>,
) -> Result<ConcreteRow<'a>, RowFault>
    ensures { IsReadingLent concrete_text (fields_fault FileKind.Concrete fields.now)
        (concrete_of fields.now) result }
{
    if fields.len() != 10 {
        return Err(fault(RowCause::Fields, 0));
    }
    let id = identifier(fields.at(0), Part::Relationship, 1)?;
    let version = read_version_columns(&mut recent.module_id, fields)?;
    let source_id = identifier(fields.at(4), Part::Concept, 5)?;
    let value = match concrete_value(fields.at(5), 6) {
        Ok(value) => value,
        Err(fault) => return Err(fault),
    };
    let end = read_relationship_end(recent, fields)?;
    Ok(ConcreteRow {
        id,
        effective_time: version.effective_time,
        active: version.active,
        module_id: version.module_id,
        source_id,
        value,
        relationship_group: end.relationship_group,
        type_id: end.type_id,
        characteristic_type_id: end.characteristic_type_id,
        modifier_id: end.modifier_id,
    })
}

// Reads a concrete value: a number after `#`, or any other text in UTF-8.
#[tactic(auto, unfolding(crate::specs::Columns::cause_of))]
fn concrete_value<'a>(field: &'a [u8], column: u8) -> Result<Value<'a>, RowFault>
    ensures { IsReadingLent value_lent (column_fault column (cause_of value_format field.now))
        (value_of field.now) result }
{
    match field {
        [b'#', number @ ..] => match decimal(number) {
            Some(found) => Ok(Value::Decimal(found)),
            None => Err(fault(RowCause::Value, column)),
        },
        _ => match text(field, column) {
            Ok(_) => Ok(Value::Other(field)),
            Err(fault) => Err(fault),
        },
    }
}
