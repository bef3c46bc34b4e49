//! Expression constraints as trees, and the concepts that they denote over a release (Expression
//! Constraint Language 2.2).
#![tactic(auto)]

mod depth;
mod laws;
mod operator;
mod print;
mod tree;

pub use crate::laws::{
    constraints_are_not_deep, constraints_denote_concepts_in_force, print_is_read,
    walks_tell_chains, wrong_readings_differ,
};
pub use crate::operator::{Cardinality, Compare, Operator};
pub use crate::print::print_decimal;
pub use crate::tree::{Attribute, AttributeSet, Constraint, Refinement, Test};
