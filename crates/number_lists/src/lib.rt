//! Lists of numbers: `KeyedLists`, which has a list for each key, all in one vector, and
//! `keep_rising`, which sorts. Definitions and lemmas on lists of any kind, which other crates use,
//! are here as well.
#![tactic(auto)]

mod fault;
mod keyed_lists;
mod rising;

pub use crate::fault::PushFault;
pub use crate::keyed_lists::KeyedLists;
pub use crate::rising::keep_rising;
