//! Tests of the language: tokens, trees, the parser and plans.
//!
//! The tests have a crate of their own, because a crate is proved a second time with its tests.
#![tactic(auto)]

#[cfg(test)]
mod lexer_tests;
#[cfg(test)]
mod parser_tests;
#[cfg(test)]
mod plan_tests;
#[cfg(test)]
mod tree_tests;
#[cfg(test)]
mod trees;
