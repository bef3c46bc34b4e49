//! The output to which the program writes answers.
ghost use Rattle.std.specs.Prelude.{◌≡◌, ℕ, ◌<◌, ◌≤◌, ◌||◌, Bool, false, IfOk, List, OnErr, OnOk, Option, is_err, length, take};
ghost use Rattle.std.specs.Io.KnownBytes.{Appends, WriteAppends};

use crate::fault::{IoFault, TRIES};
use std::io::{ErrorKind, Write};

/// An output to which the program writes answers.
pub trait AnswerOutput {
    /// The bytes that were written; `None` if the output does not tell them.
    ghost written: { Self → Option (List ℕ) };

    /// Whether a write has failed.
    ghost has_failed: { Self → Bool };

    /// Writes the first bytes of `bytes`, perhaps not all. Returns how many: at least one, unless
    /// `bytes` is empty. A write that fails writes nothing.
    fn write(&mut self, bytes: &[u8]) -> Result<usize, IoFault>
        ensures within { IfOk result (λ count. count ≤ length bytes.now) }
        ensures some { IfOk result (λ count. 0 < length bytes.now → 0 < count) }
        ensures bytes { WriteAppends (written self.old) (written self.new) result bytes.now }
        ensures failure { has_failed self.new ≡ (has_failed self.old || is_err result) };

    /// Whether a write has failed.
    fn failed(&self) -> bool
        ensures { result ≡ has_failed self.now };
}

/// An `AnswerOutput` that writes to a stream of the standard library. It never flushes the stream,
/// so a stream that buffers, such as a `BufWriter`, must be flushed by the caller.
#[derive(Debug, Drop)]
pub struct StreamOutput<W> {
    stream: W,
    failed: bool,
}

impl<W: Write> StreamOutput<W> {
    /// Creates an output that writes to `stream`. No write has failed yet.
    pub fn new(stream: W) -> StreamOutput<W>
        ensures stream { result.stream ≡ stream }
        ensures failed { result.failed ≡ false }
    {
        StreamOutput {
            stream,
            failed: false,
        }
    }
}

impl<W: Write> AnswerOutput for StreamOutput<W> {
    ghost written = { λ output. W.contents output.stream };

    ghost has_failed = { λ output. output.failed };

    /// Writes to the stream. Tries an interrupted write again, up to 1,000 times in all. If the
    /// stream accepts no byte although there are some, the write fails.
    fn write(&mut self, bytes: &[u8]) -> Result<usize, IoFault> {
        for _ in 0..TRIES {
            match self.stream.write(bytes) {
                Ok(count) => {
                    if count > 0 || bytes.is_empty() {
                        return Ok(count);
                    }
                    break;
                }
                Err(fault) => {
                    if fault.kind() != ErrorKind::Interrupted {
                        break;
                    }
                }
            }
        }
        self.failed = true;
        Err(IoFault)
    }

    fn failed(&self) -> bool {
        self.failed
    }
}

/// Writes all of `bytes` to `output`, in as many calls of `write` as that needs. If the output
/// fails, only the first bytes were written, and not all.
pub fn write_all<W: AnswerOutput>(bytes: &[u8], output: &mut W) -> Result<(), IoFault>
    requires { W.has_failed output.old ≡ false }
    ensures ok { OnOk result (Appends (W.written output.old) (W.written output.new) bytes.now) }
    ensures err { OnErr result ((place : ℕ) × (place < length bytes.now)
        × Appends (W.written output.old) (W.written output.new) (take place bytes.now)) }
    ensures failure { W.has_failed output.new ≡ is_err result }
{
    let mut at = 0;
    while at < bytes.len() {
        match output.write(&bytes[at..]) {
            Ok(count) => at += count,
            Err(fault) => return Err(fault),
        }
    }
    Ok(())
}
