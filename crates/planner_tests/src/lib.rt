//! Tests of plans over the sample release: which choices their leaves get, and how many items they
//! visit.
//!
//! The tests have a crate of their own, because a crate is proved a second time with its tests.
#![tactic(auto)]

#[cfg(test)]
mod bound_tests;
#[cfg(test)]
mod choice_tests;
