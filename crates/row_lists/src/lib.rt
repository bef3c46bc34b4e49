//! The lists that a load makes of the rows of a release. A row goes into a list by what the row
//! itself says, before it is known which concepts are in force. Also has the faults for which a
//! load refuses files.
#![tactic(auto)]

mod attributes;
mod concrete_values;
mod fault;
mod names;
mod read;
mod row_lists;
mod spans;

pub use crate::attributes::{Attributes, KeptRow, KeptValue};
pub use crate::concrete_values::{ConcreteValues, LentConcrete};
pub use crate::fault::LoadFault;
pub use crate::names::{KnownConcepts, Names, ReadName};
pub use crate::read::{MOST_ROWS, ReadRows};
pub use crate::row_lists::RowLists;
pub use crate::spans::{Span, push_bytes, push_text};
