//! Why a line is not accepted as a row.
ghost use Rattle.std.specs.Prelude.{◌≡◌};

use sctid::IdFault;
use thiserror::Error;

/// Why the text of a column, or a line as a whole, is not accepted.
#[derive(Clone, Copy, Debug, PartialEq, Eq, Error)]
pub enum RowCause {
    /// The line has more or fewer fields than the header has columns.
    #[error("the line has not as many fields as the header")]
    Fields,
    /// The text is no identifier of the kind that the column needs: of a concept, a description or
    /// a relationship. A valid identifier of another kind has the fault `IdFault::Partition`.
    #[error("no identifier of this column: {0}")]
    Id(IdFault),
    /// The text is neither empty nor eight digits.
    #[error("an effective time has eight digits or none")]
    Time,
    /// The text is neither `0` nor `1`.
    #[error("active is 0 or 1")]
    Active,
    /// The text is not 1 to 9 digits.
    #[error("a relationship group has 1 to 9 digits")]
    Group,
    /// The text begins with `#`, but no number follows. A number is an optional sign, 1 to 18
    /// digits, and optionally a point and 1 to 18 digits.
    #[error("a value that begins with # has 1 to 18 digits before and behind its point")]
    Value,
    /// The text is not UTF-8.
    #[error("the text is not UTF-8")]
    Utf8,
    /// The text is no UUID of 36 characters, written with hyphens.
    #[error("a member is identified by a UUID of 36 characters")]
    Uuid,
}

/// The first fault of a line: its cause, and its column.
#[derive(Clone, Copy, Debug, PartialEq, Eq, Error)]
#[error("column {column}: {cause}")]
pub struct RowFault {
    /// Why the line is refused.
    pub cause: RowCause,
    /// The number of the column from 1, or 0 if the number of fields is wrong.
    pub column: u8,
}

impl RowCause {
    ghost use Rattle.rf2_rows.specs.Columns.{cause_number};

    /// Returns the number of the cause, from 1, in the order of `RowCause`.
    pub fn number(self) -> u8
        ensures { result ≡ cause_number self }
    {
        match self {
            RowCause::Fields => 1,
            RowCause::Id(_) => 2,
            RowCause::Time => 3,
            RowCause::Active => 4,
            RowCause::Group => 5,
            RowCause::Value => 6,
            RowCause::Utf8 => 7,
            RowCause::Uuid => 8,
        }
    }
}
