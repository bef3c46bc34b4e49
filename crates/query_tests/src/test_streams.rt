//! Streams for tests, which transfer few bytes at once and fail as a test asks.
ghost use Rattle.std.specs.Prelude.{◌≡◌, None, false};

use query_tool::{AnswerOutput, IoFault, QueryInput};
use std::alloc::Global;

/// More bytes than any input or output in the tests has.
pub const ROOM: usize = 1_000;

/// An input whose reads give at most `most` bytes each, and fail once it has given `until_failure`
/// bytes.
#[derive(Drop)]
pub struct PieceInput<'a> {
    bytes: &'a [u8],
    most: usize,
    until_failure: usize,
    reads: u64,
    pub failed: bool,
}

impl<'a> PieceInput<'a> {
    pub fn new(bytes: &'a [u8], most: usize, until_failure: usize) -> PieceInput<'a>
        ensures { result.failed ≡ false }
    {
        PieceInput {
            bytes,
            most,
            until_failure,
            reads: 0,
            failed: false,
        }
    }
}

impl<'a> QueryInput for PieceInput<'a> {
    ghost remaining = { λ _. None };

    ghost read_count = { λ input. input.reads };

    ghost has_failed = { λ input. input.failed };

    fn read(&mut self, buffer: &mut [u8]) -> Result<usize, IoFault> {
        self.reads = self.reads.saturating_add(1);
        if self.until_failure == 0 {
            self.failed = true;
            return Err(IoFault);
        }
        let count = buffer
            .len()
            .min(self.bytes.len())
            .min(self.most)
            .min(self.until_failure);
        buffer[..count].copy_from_slice(&self.bytes[..count]);
        self.bytes = &self.bytes[count..];
        self.until_failure -= count;
        Ok(count)
    }

    fn reads(&self) -> u64 {
        self.reads
    }

    fn failed(&self) -> bool {
        self.failed
    }
}

/// An output whose writes take at most `most` bytes each, and fail once it has taken
/// `until_failure` bytes.
#[derive(Drop)]
pub struct PieceOutput {
    pub bytes: Vec<u8>,
    most: usize,
    until_failure: usize,
    pub failed: bool,
}

impl PieceOutput {
    pub fn new(alloc: Global, most: usize, until_failure: usize) -> PieceOutput
        ensures { result.failed ≡ false }
    {
        PieceOutput {
            bytes: Vec::new(alloc),
            most,
            until_failure,
            failed: false,
        }
    }
}

impl AnswerOutput for PieceOutput {
    ghost written = { λ _. None };

    ghost has_failed = { λ output. output.failed };

    fn write(&mut self, bytes: &[u8]) -> Result<usize, IoFault> {
        let count = bytes.len().min(self.most).min(self.until_failure);
        if (count == 0 && !bytes.is_empty())
            || self.bytes.extend_from_slice(&bytes[..count]).is_err()
        {
            self.failed = true;
            return Err(IoFault);
        }
        self.until_failure -= count;
        Ok(count)
    }

    fn failed(&self) -> bool {
        self.failed
    }
}
