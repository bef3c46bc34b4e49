//! Tests of rewriting: which plans the rules make, and when a rule does not apply.
//!
//! The tests have a crate of their own, because a crate is proved a second time with its tests.
#![tactic(auto)]

#[cfg(test)]
mod plans;
#[cfg(test)]
mod rule_tests;
#[cfg(test)]
mod simplify_tests;
