//! Computes how much a plan finds at most, and how many items it visits at least and at most, with
//! the choices that its leaves have.
//!
//! The functions compute this for a whole plan, for one node before the execution, and for one node
//! whose children have been executed.
#![tactic(auto)]

mod costs;
mod counts;
mod floors;
mod laws;
mod leaf;
mod leaf_choices;
mod limits;
mod node_parts;
mod physical;
mod summary;

pub use crate::counts::{
    NodeCost, concepts, cost_of_and, cost_of_groups, cost_of_members, cost_of_minus, cost_of_or,
    cost_of_values, cost_of_walk, counts_of_leaf, groups, list_length, member_count,
    value_row_count,
};
pub use crate::floors::{group_plan_floor, plan_floor};
pub use crate::laws::{finds_within_size, floor_within_bound};
pub use crate::leaf::Leaf;
pub use crate::limits::{group_plan_size, leaf_limits, members_limits, plan_size, walk_limits};
pub use crate::node_parts::{LeafParts, WalkParts};
pub use crate::physical::{PhysicalPlan, bound, floor};
pub use crate::summary::SizeSummary;
pub use set_algebra::{Choice, NodeLimits};
