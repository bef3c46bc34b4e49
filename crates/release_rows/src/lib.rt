//! Reads the rows of a release from its Snapshot files. If several rows have one identifier, the
//! row with the latest effective time is chosen. Reports the first fault of the files, if they have
//! one.
#![tactic(auto)]

mod choosing;
mod comparing;
mod file_names;
mod keys;
mod laws;
mod limits;
mod pieces;
mod places;
mod repeated;
mod rising_keys;
mod rows;
mod versions;

pub use crate::choosing::{TOO_MANY_ROWS, read_rows};
pub use crate::file_names::list_names;
pub use crate::laws::{first_fault_is_the_first, latest_rows_are_chosen, rising_keeps_the_members};
pub use crate::limits::Limits;
pub use crate::pieces::PiecePlaces;
pub use crate::places::{MemoryPlaces, Met, PlaceSource, PlaceTaker};
