//! The faults of streams and of answers, and how often an interrupted call is tried.

/// A reader or a writer has failed.
#[derive(Clone, Copy, Debug, PartialEq, Eq)]
pub struct IoFault;

/// Why an answer was not written in full.
#[derive(Clone, Copy, Debug, PartialEq, Eq)]
pub enum AnswerFault {
    /// Memory was refused. Nothing of the answer was written.
    Memory,
    /// The output failed. The first bytes of the answer may have been written.
    Write,
}

/// How often a read or a write is tried in all, if each try is interrupted.
pub const TRIES: u32 = 1_000;
