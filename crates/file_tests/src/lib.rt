//! Tests of reading release files: identifiers, rows of each kind, and lines.
//!
//! The tests have a crate of their own, because a crate is proved a second time with its tests.
#![tactic(auto)]

#[cfg(test)]
mod identifier_tests;
#[cfg(test)]
mod line_tests;
#[cfg(test)]
mod row_fault_tests;
#[cfg(test)]
mod row_tests;
#[cfg(test)]
mod version_tests;
