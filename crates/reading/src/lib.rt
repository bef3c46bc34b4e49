//! The only way in which the crates that execute plans read data.
//!
//! A `Reader` holds the lists of a release and of its indexes, and an `Answer` holds what a part of
//! a plan has found. Both keep their data private, and a `Counter` counts each item that they hand
//! out. A counter cannot be copied, and only `Reader::open` creates one, so the crates above count
//! everything that they read. Lengths, look-ups by number and tests of membership count nothing.
#![tactic(auto)]

mod answer;
mod counter;
mod counting;
mod lengths;
mod lists;
mod reader;

pub use crate::answer::Answer;
pub use crate::counter::{Counter, Visits};
pub use crate::reader::Reader;
