//! The program and its engine. It answers queries over a SNOMED CT release, one per line of its
//! input, writes the plan of each query, describes concepts, answers the requests of other
//! programs, or reports the row counts of a release.
#![tactic(auto)]

mod answering;
mod describing;
mod engine;
mod explaining;
mod finding;
mod laws;
mod plans;
mod program;
mod running;
mod serving;
mod session;
mod writing;

pub use crate::engine::Engine;
pub use crate::laws::{
    executed_plans_are_not_deep, limited_promise_is_kept, one_answer, promise_is_kept,
};
pub use crate::program::start;
pub use crate::running::{run, run_explain};
pub use crate::serving::serve;
pub use answer_printer::AnswerForm;
pub use command_line::{Mode, QueryOptions, Request, WordFault, read_words};
pub use executor::Visits;
pub use planner::Choice;
pub use query_run::RunFault;
pub use query_service::{Status, refuse_words, run_in};
pub use rewrites::{Rule, Step};
pub use streams::{AnswerOutput, FolderSource, IoFault, QueryInput, StreamInput, StreamOutput};
