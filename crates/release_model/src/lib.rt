//! What a release is to the engine, whatever files it was read from: its lists of rows in force, the
//! pairs of its attributes, and the groups of a concept. The crates above state by these
//! definitions what they do.
#![tactic(auto)]

mod laws;

pub use crate::laws::{distinct_keeps_each_once, same_pairs_are_told};
