//! Finds the concepts and the groups whose number of matching pairs lies in a cardinality.
//!
//! A pair is a type and a value of an attribute row. The calls return sets of concept numbers or
//! group numbers, restricted to candidates. They read the rows of the values, of the types or of
//! the candidates, whichever are fewest, and count each item that they read.
#![tactic(auto)]

mod access_paths;
mod among;
mod by_rows;
mod choice;
mod counts;
mod difference;
mod hits;
mod leaves;
mod passing;
mod tested;
mod types;
mod units;

pub use crate::access_paths::LeafRequest;
pub use crate::leaves::{
    groups_with_pairs_within, sources_within, values_along, with_pairs_within,
};
pub use crate::tested::{Tested, count_of_test};
pub use crate::units::{groups_of, with_groups};
