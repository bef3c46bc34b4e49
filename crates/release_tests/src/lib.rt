//! Tests of a loaded release: what is loaded and what is refused, the hierarchy, the indexes, sets,
//! what plans find, and what is printed.
//!
//! The tests have a crate of their own, because a crate is proved a second time with its tests.
#![tactic(auto)]

#[cfg(test)]
mod execute_tests;
#[cfg(test)]
mod hierarchy_tests;
#[cfg(test)]
mod keyed_list_tests;
#[cfg(test)]
mod load_tests;
#[cfg(test)]
mod many_rows_tests;
#[cfg(test)]
mod posting_tests;
#[cfg(test)]
mod printer_tests;
#[cfg(test)]
mod reader_tests;
#[cfg(test)]
mod sample_tests;
#[cfg(test)]
mod set_tests;
#[cfg(test)]
mod source_tests;
