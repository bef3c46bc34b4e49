//! Rewrites plans without a change of meaning: `apply` applies one of eighteen rules at one place,
//! and `simplify` tries four of the rules at each node.
#![tactic(auto)]

mod applying;
mod braces;
mod changing;
mod connective;
mod counts;
mod fault;
mod group_lists;
mod group_pairs;
mod group_parts;
mod group_shortening;
mod laws;
mod lists;
mod made;
mod pairs;
mod parts;
mod ranges;
mod root;
mod rule;
mod shortening;
mod simplifying;
mod walks;

pub use crate::applying::{apply, apply_all};
pub use crate::fault::ApplyFault;
pub use crate::laws::{
    rules_apply_at_places, rules_keep_the_meaning, simplified_plans_are_no_deeper,
};
pub use crate::rule::{Rule, Step};
pub use crate::simplifying::simplify;
