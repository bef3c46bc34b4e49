//! The hierarchy of a release as complete lists.
//!
//! `AncestorIndex` has for each concept, by its number, all its ancestors and descendants, its
//! parents and its children, in rising order and once each. `linked_lists` makes lists of this form
//! from any rows between concepts.
#![tactic(auto)]

mod closure;
mod grown;
mod index;
mod laws;
mod linked;
mod rising;
mod wide;

pub use crate::index::AncestorIndex;
pub use crate::laws::lists_are_complete;
pub use crate::linked::linked_lists;
