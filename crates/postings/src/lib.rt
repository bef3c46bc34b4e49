//! Indexes of the attribute rows and the reference sets of a release.
//!
//! `Indexes` lists the attribute rows of each type, of each concept as a value, of each source, and
//! of each relationship group, and the components of each reference set. For the lists of rows by
//! type and by value it also has columns with what a query tests of each row, in the order of the
//! lists. `Lengths` gives only numbers, for example the length of a list.
#![tactic(auto)]

mod columns;
mod first_keys;
mod flagged_number;
mod groups;
mod index;
mod laws;
mod lengths;
mod lists;
mod pair_keys;
mod row_indexes;
mod stats;
mod type_table;

pub use crate::columns::{TypeColumns, ValueColumns};
pub use crate::flagged_number::FlaggedNumber;
pub use crate::index::{Indexes, RowCells};
pub use crate::laws::{first_rows_tell_the_pairs, groups_are_counted};
pub use crate::lengths::Lengths;
pub use crate::stats::Stats;
