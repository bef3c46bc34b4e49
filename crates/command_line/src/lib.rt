//! Reads the words of a command line as a request to the program.
#![tactic(auto)]

mod words;

pub use crate::words::{Mode, QueryOptions, Request, WordFault, read_words};
