//! Loads a release: reads its Snapshot files, chooses the row of each component with the latest
//! effective time, and keeps in memory what is in force.
#![tactic(auto)]

mod laws;
mod load;

pub use crate::laws::rows_are_listed_or_passed;
pub use crate::load::LoadSnapshot;
pub use held_release::{
    AttributeRow, CodedRow, CodedRows, Report, Snapshot, Texts, Values,
    cyclic_concept_is_the_least, naming_row_comes_first,
};
pub use release_rows::{
    Limits, first_fault_is_the_first, latest_rows_are_chosen, list_names, rising_keeps_the_members,
};
pub use row_lists::LoadFault;
