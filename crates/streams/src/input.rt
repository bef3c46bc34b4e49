//! The input from which the program reads queries.
ghost use Rattle.std.specs.Prelude.{◌≡◌, ℕ, ◌+◌, ◌-◌, ◌^◌, ◌≤◌, ◌||◌, Bool, false, IfOk, List, Option, is_err, length, min};
ghost use Rattle.std.specs.Io.KnownBytes.{ReadConsumes};

use crate::fault::{IoFault, TRIES};
use std::io::{ErrorKind, Read};

/// An input from which the program reads queries.
pub trait QueryInput {
    /// The bytes still to be read, up to the end of the input; `None` if the input does not tell
    /// them.
    ghost remaining: { Self → Option (List ℕ) };

    /// The number of reads, at most `u64::MAX`.
    ghost read_count: { Self → ℕ };

    /// Whether a read has failed.
    ghost has_failed: { Self → Bool };

    /// Reads the next bytes into the front of `buffer`. Returns how many: 0 only at the end of the
    /// input, or if `buffer` is empty. A read that fails consumes no byte.
    fn read(&mut self, buffer: &mut [u8]) -> Result<usize, IoFault>
        ensures within { IfOk result (λ count. count ≤ length buffer.new) }
        ensures bytes { ReadConsumes (remaining self.old) (remaining self.new) result buffer.new }
        ensures counted { read_count self.new ≡ min (read_count self.old + 1) (2 ^ 64 - 1) }
        ensures failure { has_failed self.new ≡ (has_failed self.old || is_err result) };

    /// Returns the number of calls of `read`, at most `u64::MAX`.
    fn reads(&self) -> u64
        ensures { result ≡ read_count self.now };

    /// Whether a read has failed.
    fn failed(&self) -> bool
        ensures { result ≡ has_failed self.now };
}

/// A `QueryInput` that reads from a stream of the standard library.
#[derive(Debug, Drop)]
pub struct StreamInput<R> {
    stream: R,
    reads: u64,
    failed: bool,
}

impl<R: Read> StreamInput<R> {
    /// Creates an input that reads from `stream`. Its count of reads is 0.
    pub fn new(stream: R) -> StreamInput<R>
        ensures stream { result.stream ≡ stream }
        ensures reads { result.reads ≡ 0 }
        ensures failed { result.failed ≡ false }
    {
        StreamInput {
            stream,
            reads: 0,
            failed: false,
        }
    }
}

impl<R: Read> QueryInput for StreamInput<R> {
    ghost remaining = { λ input. R.remaining input.stream };

    ghost read_count = { λ input. input.reads };

    ghost has_failed = { λ input. input.failed };

    /// Reads from the stream. Tries an interrupted read again, up to 1,000 times in all; all tries
    /// count as one read.
    fn read(&mut self, buffer: &mut [u8]) -> Result<usize, IoFault> {
        self.reads = self.reads.saturating_add(1);
        for _ in 0..TRIES {
            match self.stream.read(buffer) {
                Ok(count) => return Ok(count),
                Err(fault) => {
                    if fault.kind() != ErrorKind::Interrupted {
                        break;
                    }
                }
            }
        }
        self.failed = true;
        Err(IoFault)
    }

    fn reads(&self) -> u64 {
        self.reads
    }

    fn failed(&self) -> bool {
        self.failed
    }
}
