//! The files and rows of an RF2 release (SNOMED CT Release File Specification): the kind of a file
//! by its name, the header of each kind, the typed row that a line stands for, and whether two
//! lines are one row.
#![tactic(auto)]

mod concrete;
mod fault;
mod fields;
mod kind;
mod laws;
mod read;
mod recent;
mod recent_concepts;
mod row;
mod shared;
mod tabs;
mod value;
mod versions;

pub use crate::fault::{RowCause, RowFault};
pub use crate::kind::{FileKind, file_kind, header};
pub use crate::laws::same_row_is_an_equivalence;
pub use crate::read::{RowReader, read_row};
pub use crate::row::{ConceptRow, ConcreteRow, DescriptionRow, MemberRow, RelationshipRow, Row};
pub use crate::value::Value;
pub use crate::versions::same_row;
pub use numerals::Decimal;
