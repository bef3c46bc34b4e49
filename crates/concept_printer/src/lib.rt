//! The text that describes one concept for `describe`: its parents and children, its attribute rows
//! group by group, and the reference sets that it is in; or that the concept is inactive or
//! unknown. `specs/` defines the bytes.
#![tactic(auto)]

mod attributes;
mod concept;
mod describing;
mod members;
mod named_concept;

pub use crate::describing::description;
