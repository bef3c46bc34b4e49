//! Writing the answer to a line of `describe`.
ghost use Rattle.std.specs.Prelude.{◌≡◌, ℕ, false, IfErr, List, OnOk};
ghost use Rattle.query_service.specs.SessionAnswer.{IsDescription};
ghost use Rattle.streams.specs.Waiting.{LeavesAnswer, Puts, is_write};

use crate::engine::Engine;
use crate::writing::put_text;
use std::alloc::{AllocError, Global};
use streams::{AnswerFault, AnswerOutput, OutputBuffer};

/// Puts the description of the concept that `line` names into `buffer`, which writes to `output`.
pub fn write_description<W: AnswerOutput>(
    alloc: Global,
    engine: &Engine,
    line: &[u8],
    buffer: &mut OutputBuffer,
    output: &mut W,
) -> Result<(), AnswerFault>
    requires { W.has_failed output.old ≡ false }
    ensures ok { OnOk result ((text : List ℕ) × IsDescription engine.now line.now text
        × Puts (W.written output.old) (W.written output.new) buffer.old text buffer.new) }
    ensures fault { IfErr result (λ fault. LeavesAnswer (IsDescription engine.now line.now) fault
        (W.written output.old) (W.written output.new) buffer.old buffer.new) }
    ensures not_failed { OnOk result (W.has_failed output.new ≡ false) }
    ensures failed { IfErr result (λ fault. W.has_failed output.new ≡ is_write fault) }
{
    match engine.description(alloc, line) {
        Ok(text) => put_text(text.as_slice(), buffer, output),
        Err(AllocError) => Err(AnswerFault::Memory),
    }
}
