//! Chooses which attribute rows answer each leaf of a plan, so that the leaf's bound is least.
#![tactic(auto)]

mod asking;
mod bound_list;
mod choosing;
mod laws;
mod physical;

pub use crate::laws::worked_bounds_hold;
pub use crate::physical::{choose, choose_with, own_bounds};
pub use plan_bounds::{
    Choice, NodeLimits, PhysicalPlan, bound, finds_within_size, floor, floor_within_bound,
    group_plan_floor, group_plan_size, leaf_limits, members_limits, plan_floor, plan_size,
    walk_limits,
};
