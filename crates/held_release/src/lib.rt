//! A loaded release in memory: its concepts in force, numbered from 0, and the rows in force, in
//! which concepts go by their numbers.
#![tactic(auto)]

mod attribute_types;
mod coded_rows;
mod concepts;
mod finishing;
mod held_release;
mod kept_names;
mod laws;
mod lines;
mod naming;
mod numbered_attributes;
mod numbering;
mod report;
mod texts;
mod values;

pub use crate::coded_rows::{CodedRow, CodedRows};
pub use crate::finishing::finish;
pub use crate::held_release::{AttributeRow, Snapshot};
pub use crate::laws::{cyclic_concept_is_the_least, naming_row_comes_first};
pub use crate::report::Report;
pub use crate::texts::Texts;
pub use crate::values::Values;
