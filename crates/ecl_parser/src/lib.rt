//! The parser of expression constraints (Expression Constraint Language 2.2, brief syntax).
//!
//! `parse` returns the one tree of a text, or its first refusal. The crate `constraint_tree`
//! defines the grammar and the refusals that the contract of `parse` names. The contract of
//! `read_again` says that the printed text of a constraint is read as that constraint.
#![tactic(auto)]

mod brackets;
mod counts;
mod laws;
mod parser;
mod text;
mod tokens;

pub use crate::laws::{one_reading, worked_queries_hold};
pub use crate::text::{parse, read_again};
