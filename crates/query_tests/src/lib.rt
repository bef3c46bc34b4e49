//! Tests of what the program does: reading its words, answering queries, refusing releases, and
//! using its streams.
//!
//! The tests have a crate of their own, because a crate is proved a second time with its tests.
#![tactic(auto)]

#[cfg(test)]
mod describe_tests;
#[cfg(test)]
mod folder_tests;
#[cfg(test)]
mod limit_tests;
#[cfg(test)]
mod piece_tests;
#[cfg(test)]
mod plan_tests;
#[cfg(test)]
mod run_tests;
#[cfg(test)]
mod serve_tests;
#[cfg(test)]
mod source_tests;
#[cfg(test)]
mod stream_tests;
#[cfg(test)]
mod test_folders;
#[cfg(test)]
mod test_release;
#[cfg(test)]
mod test_serve;
#[cfg(test)]
mod test_streams;
#[cfg(test)]
mod tests;
