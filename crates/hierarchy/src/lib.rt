//! The is-a hierarchy over concept numbers: an order with parents first, and the search for cycles.
#![tactic(auto)]

mod components;
mod cycle;
mod laws;
mod order;

pub use crate::cycle::least_cyclic;
pub use crate::laws::reaches_tells_chains;
pub use crate::order::parents_first;
