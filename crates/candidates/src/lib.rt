//! The candidates: the concepts or groups that a node must test, with their statistics.
//!
//! The statistics tell which way of executing a node reads fewer items. No answer depends on them.
#![tactic(auto)]

mod candidates;
mod estimate;
mod rows;

pub use crate::candidates::{
    CandidateStats, Candidates, ListStats, group_stats_of, group_stats_to_take, none_left,
    restricted, stats_for, stats_of, stats_to_take,
};
pub use crate::estimate::RowEstimate;
pub use crate::rows::{are_read_before, look_ups, rows_of_value};
