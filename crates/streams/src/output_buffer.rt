//! The buffer before an output, so that the program writes few long pieces.
ghost use Rattle.std.specs.Prelude.{◌≡◌, ◌+◌, ◌≤◌, ◌++◌, ◌∷◌, [], false, IfOk, OnErr, OnOk, is_err, length, vec_capacity, vec_len};
ghost use Rattle.std.specs.Io.KnownBytes.{Appends};
ghost use Rattle.streams.specs.Waiting.{Puts, WritesFront};

use crate::fault::IoFault;
use crate::output::{AnswerOutput, write_all};
use std::alloc::{AllocError, Global};
use std::marker::Model;

// The capacity of a buffer in bytes.
const PIECE_LENGTH: usize = 65_536;

/// A buffer of bytes that are still to be written, at most 65,536. It allocates all its memory when
/// it is created. Contracts name this type as the list of these bytes.
#[derive(Drop)]
pub struct OutputBuffer {
    bytes: Vec<u8>,
}

impl Model for OutputBuffer {
    ghost use Rattle.std.specs.Prelude.{ℕ, List};

    ghost Value = { List ℕ };

    ghost view = { λ output_buffer. output_buffer.bytes.items };
}

impl OutputBuffer {
    /// Creates an empty buffer. Fails with `AllocError` if memory is refused.
    pub fn new(alloc: Global) -> Result<OutputBuffer, AllocError>
        ensures { IfOk result (λ output_buffer. output_buffer ≡ []) }
    {
        let bytes = Vec::with_capacity(alloc, PIECE_LENGTH)?;
        Ok(OutputBuffer { bytes })
    }

    /// Appends `bytes` to the buffer. If there is no room, first writes the bytes in the buffer to
    /// `output`; then, if `bytes` alone would fill a buffer, writes them too. If the output fails,
    /// only the first of the bytes in the buffer and of `bytes` were written, and not all, and the
    /// buffer is empty.
    pub fn put<W: AnswerOutput>(&mut self, bytes: &[u8], output: &mut W) -> Result<(), IoFault>
        requires { W.has_failed output.old ≡ false }
        ensures ok { OnOk result (Puts (W.written output.old) (W.written output.new) self.old
            bytes.now self.new) }
        ensures err { OnErr result (WritesFront (W.written output.old) (W.written output.new)
            (self.old ++ bytes.now)) }
        ensures failure { W.has_failed output.new ≡ is_err result }
        ensures empty { OnErr result (self.new ≡ []) }
    {
        if bytes.len() > self.bytes.capacity() - self.bytes.len() {
            return self.put_after_written(bytes, output);
        }
        append(&mut self.bytes, bytes);
        Ok(())
    }

    /// Appends `bytes` and then LF to the buffer, and fails, as `put` does.
    pub fn put_line<W: AnswerOutput>(&mut self, bytes: &[u8], output: &mut W) -> Result<(), IoFault>
        requires { W.has_failed output.old ≡ false }
        ensures ok { OnOk result (Puts (W.written output.old) (W.written output.new) self.old
            (bytes.now ++ 10 ∷ []) self.new) }
        ensures err { OnErr result (WritesFront (W.written output.old) (W.written output.new)
            (self.old ++ (bytes.now ++ 10 ∷ []))) }
        ensures failure { W.has_failed output.new ≡ is_err result }
        ensures empty { OnErr result (self.new ≡ []) }
    {
        if bytes.len() < self.bytes.capacity() - self.bytes.len() {
            append_line(&mut self.bytes, bytes);
            return Ok(());
        }
        match self.put(bytes, output) {
            Ok(()) => self.put(b"\n", output),
            Err(fault) => Err(fault),
        }
    }

    // Appends `bytes`, for which the buffer has no room: first writes the bytes in the buffer to
    // `output`. Writes `bytes` directly if they would fill a whole buffer.
    fn put_after_written<W: AnswerOutput>(
        &mut self,
        bytes: &[u8],
        output: &mut W,
    ) -> Result<(), IoFault>
        requires { W.has_failed output.old ≡ false }
        ensures ok { OnOk result (Puts (W.written output.old) (W.written output.new) self.old
            bytes.now self.new) }
        ensures err { OnErr result (WritesFront (W.written output.old) (W.written output.new)
            (self.old ++ bytes.now)) }
        ensures failure { W.has_failed output.new ≡ is_err result }
        ensures empty { OnErr result (self.new ≡ []) }
    {
        match self.flush(output) {
            Ok(()) => {}
            Err(fault) => return Err(fault),
        }
        if bytes.len() >= self.bytes.capacity() {
            return write_all(bytes, output);
        }
        append(&mut self.bytes, bytes);
        Ok(())
    }

    /// Writes the bytes in the buffer to `output`. If the output fails, only the first of them were
    /// written, and not all. In either case the buffer is empty afterwards.
    pub fn flush<W: AnswerOutput>(&mut self, output: &mut W) -> Result<(), IoFault>
        requires { W.has_failed output.old ≡ false }
        ensures ok { OnOk result (Appends (W.written output.old) (W.written output.new) self.old) }
        ensures err { OnErr result (WritesFront (W.written output.old) (W.written output.new)
            self.old) }
        ensures failure { W.has_failed output.new ≡ is_err result }
        ensures empty { self.new ≡ [] }
    {
        let ended = write_all(self.bytes.as_slice(), output);
        self.bytes.clear();
        ended
    }
}

// Appends `bytes` to `waiting`. The buffer has room for them, so nothing is allocated.
fn append(waiting: &mut Vec<u8>, bytes: &[u8])
    requires { vec_len waiting.old + length bytes.now ≤ vec_capacity waiting.old }
    ensures items { waiting.new.items ≡ waiting.old.items ++ bytes.now }
    ensures len { vec_len waiting.new ≡ vec_len waiting.old + length bytes.now }
    ensures capacity { vec_capacity waiting.old ≤ vec_capacity waiting.new }
{
    let Ok(()) = waiting.extend_from_slice(bytes) else {
        unreachable!()
    };
}

// Appends `bytes` and LF to `waiting`. The buffer has room for them, so nothing is allocated.
fn append_line(waiting: &mut Vec<u8>, bytes: &[u8])
    requires { vec_len waiting.old + length bytes.now + 1 ≤ vec_capacity waiting.old }
    ensures { waiting.new.items ≡ waiting.old.items ++ (bytes.now ++ 10 ∷ []) }
{
    append(waiting, bytes);
    append(waiting, b"\n");
}
