//! Computes the set of concepts that a plan means.
//!
//! `execute` returns it as a set of concept numbers, in any form of set that the caller names. It
//! goes down the plan, with one function for each kind of node. Each function works on the sets
//! that the node's parts have found and on the lists of the indexes.
#![tactic(auto)]

mod counting;
mod dotted_plans;
mod estimates;
mod found;
mod group_plans;
mod joined_plans;
mod nodes;
mod plans;
mod second_part;
mod walk_plans;

pub use crate::plans::execute;
pub use reading::Visits;
