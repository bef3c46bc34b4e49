//! The lines of `session`: which request each makes.
#![tactic(auto)]

mod request;

pub use crate::request::{Page, SessionRequest, read_request};
