//! Serves a request to the program over files and streams, with any engine that answers queries.
#![tactic(auto)]

mod lines;
mod query_engine;
mod service;

pub use crate::lines::run_in;
pub use crate::query_engine::QueryEngine;
pub use crate::service::{Status, refuse_words, serve};
