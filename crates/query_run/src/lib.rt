//! Reads the query lines of an input, and writes the answer to each.
#![tactic(auto)]

mod answering;
mod running;

pub use crate::answering::AnswerLine;
pub use crate::running::{RunFault, run};
