//! Cuts texts into parts at a separator byte.
#![tactic(auto)]

mod split;

pub use crate::split::cut;
