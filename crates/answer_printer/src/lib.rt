//! The texts that the program writes: the answer to a query, the plan of a query, the report on a
//! release, and the lines that refuse a query, a release or its files.
//!
//! Each printer appends to a vector. If memory is refused, it returns `AllocError`, and the vector
//! is unchanged. `write_answer` puts the answer to a query into an output buffer instead, line by
//! line. `specs/` defines the bytes that are appended.
#![tactic(auto)]

mod answer;
mod form;
mod laws;
mod load_refusal;
mod numbers;
mod plan;
mod plan_words;
mod query_refusal;
mod report;
mod told_name;

pub use crate::answer::{print_answer, print_answer_in, write_answer};
pub use crate::form::AnswerForm;
pub use crate::laws::worked_texts_hold;
pub use crate::load_refusal::print_load_fault;
pub use crate::plan::print_plan;
pub use crate::query_refusal::{print_bound, print_fault};
pub use crate::report::print_report;
