//! Plans, the form in which a query is executed, and the sets that they mean over a release. For
//! each node, `Choice` says which rows answer it, and `NodeLimits` how many items it reads.
#![tactic(auto)]

mod choice;
pub mod copy;
mod depth;
mod equal;
mod laws;
mod lowering;
mod node_limits;
mod plan;
pub mod views;

pub use crate::choice::Choice;
pub use crate::laws::{
    places_are_found_and_put, places_keep_the_meaning, plans_are_as_deep_as_trees,
    plans_mean_concepts_in_force, worked_plans_hold, worked_queries_have_plans, wrong_plans_differ,
};
pub use crate::lowering::lower;
pub use crate::node_limits::NodeLimits;
pub use crate::plan::{ConceptPlan, UnitPlan, ValueTest};
