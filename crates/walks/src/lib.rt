//! Finds the concepts that a hierarchy operator leads to, and the components of reference sets.
//!
//! Each call returns a set of concept numbers, restricted to candidates. It chooses the way that
//! reads the fewest items, and counts each item that it reads. The concepts that an operator leads
//! to are read from a list of each concept, or found by one pass over the is-a rows.
#![tactic(auto)]

mod family;
mod reached;
mod reference_sets;
mod related;
mod walk_paths;
mod walks;

pub use crate::reference_sets::members_within;
pub use crate::related::{enough_for, related_among, walk_within};
pub use crate::walk_paths::are_enough;
