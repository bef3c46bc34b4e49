//! A function that makes plans for the tests.
use ecl_parser::parse;
use set_algebra::{ConceptPlan, lower};
use std::alloc::{AllocError, Global};

// Returns the plan of a text. It returns `AllocError` also for a text that is refused, because a
// small error type makes proofs cheaper.
pub(crate) fn plan_of(alloc: Global, text: &[u8]) -> Result<ConceptPlan, AllocError> {
    match parse(alloc, text) {
        Ok(constraint) => lower(alloc, &constraint),
        Err(_) => Err(AllocError),
    }
}
