//! Reading a field of a line in the format of its column. Each function takes the text of the
//! field, and the number of the column, from 1, for the fault.
ghost use Rattle.std.specs.Prelude.{◌≡◌};
ghost use Rattle.rf2_rows.specs.Columns.{cause_of, id_format, component_format, uuid_format, time_format, active_format, group_format, text_format};
ghost use Rattle.numerals.specs.Numbers.{number_of};
ghost use Rattle.rf2_rows.specs.Rows.{IsReading, IsReadingLent, column_fault, time_of, active_of, uuid_of};

use crate::fault::{RowCause, RowFault};
use numerals::{digits, eight_digits};
use sctid::{IdFault, Part, SctId};
use uuid::Uuid;

/// Reads the identifier of a component of the kind `part`.
#[inline(always)]
#[tactic(auto, unfolding(crate::specs::Columns::cause_of), using(crate::proofs::Identifiers::number_read))]
pub fn identifier(text: &[u8], part: Part, column: u8) -> Result<SctId, RowFault>
    ensures { IsReading (column_fault column (cause_of (id_format part) text.now))
        (number_of text.now) result }
{
    match SctId::parse(text) {
        Ok(id) if id.part() == part => Ok(id),
        Ok(_) => Err(fault(RowCause::Id(IdFault::Partition), column)),
        Err(cause) => Err(fault(RowCause::Id(cause), column)),
    }
}

/// Reads the identifier of a component of any kind.
#[tactic(auto, unfolding(crate::specs::Columns::cause_of), using(crate::proofs::Identifiers::number_read))]
pub fn component(text: &[u8], column: u8) -> Result<SctId, RowFault>
    ensures { IsReading (column_fault column (cause_of component_format text.now))
        (number_of text.now) result }
{
    match SctId::parse(text) {
        Ok(id) => Ok(id),
        Err(cause) => Err(fault(RowCause::Id(cause), column)),
    }
}

/// Reads a UUID of 36 characters, written with hyphens. The test of the length excludes the other
/// forms of a UUID, which have other lengths.
#[tactic(auto, unfolding(crate::specs::Columns::cause_of), using(crate::proofs::Texts::not_hyphenated))]
pub fn hyphenated(text: &[u8], column: u8) -> Result<Uuid, RowFault>
    ensures { IsReading (column_fault column (cause_of uuid_format text.now)) (uuid_of text.now)
        result }
{
    if text.len() != 36 {
        return Err(fault(RowCause::Uuid, column));
    }
    match Uuid::try_parse_ascii(text) {
        Ok(id) => Ok(id),
        Err(_) => Err(fault(RowCause::Uuid, column)),
    }
}

/// Reads an effective time: eight digits, or an empty text (`None`) if the row is unpublished.
#[inline(always)]
#[tactic(auto, unfolding(crate::specs::Columns::cause_of))]
pub fn time(text: &[u8], column: u8) -> Result<Option<u32>, RowFault>
    ensures { IsReading (column_fault column (cause_of time_format text.now)) (time_of text.now)
        result }
{
    if text.is_empty() {
        return Ok(None);
    }
    let Some(block) = text.as_array::<8>() else {
        return Err(fault(RowCause::Time, column));
    };
    match eight_digits(block) {
        Some(number) => Ok(Some(number as u32)),
        None => Err(fault(RowCause::Time, column)),
    }
}

/// Reads whether a component is active: `1` or `0`.
#[tactic(auto, unfolding(crate::specs::Columns::cause_of))]
pub fn flag(text: &[u8], column: u8) -> Result<bool, RowFault>
    ensures { IsReading (column_fault column (cause_of active_format text.now)) (active_of text.now)
        result }
{
    match text {
        [b'0'] => Ok(false),
        [b'1'] => Ok(true),
        _ => Err(fault(RowCause::Active, column)),
    }
}

/// Reads the number of a relationship group, of 1 to 9 digits.
#[tactic(auto, unfolding(crate::specs::Columns::cause_of))]
pub fn group(text: &[u8], column: u8) -> Result<u32, RowFault>
    ensures { IsReading (column_fault column (cause_of group_format text.now)) (number_of text.now)
        result }
{
    match digits(text, 1, 9) {
        Some(number) => Ok(number as u32),
        None => Err(fault(RowCause::Group, column)),
    }
}

/// Checks that a text is UTF-8 and returns it.
#[tactic(auto, unfolding(crate::specs::Columns::cause_of), using(crate::proofs::Texts::utf8_tests))]
pub fn text(text: &[u8], column: u8) -> Result<&str, RowFault>
    ensures { IsReadingLent (λ found. found.now)
        (column_fault column (cause_of text_format text.now)) text.now result }
{
    match str::from_utf8(text) {
        Ok(found) => Ok(found),
        Err(_) => Err(fault(RowCause::Utf8, column)),
    }
}

/// Makes the fault of `column` with `cause`.
pub fn fault(cause: RowCause, column: u8) -> RowFault
    ensures { result ≡ record { cause = cause; column = column } }
{
    RowFault { cause, column }
}
