//! Writing the explanation of a query line.
ghost use Rattle.std.specs.Prelude.{◌≡◌, ℕ, false, IfErr, List, OnOk};
ghost use Rattle.query_service.specs.Explanation.{IsExplanation};
ghost use Rattle.streams.specs.Waiting.{LeavesAnswer, Puts, is_write};

use crate::engine::Engine;
use crate::writing::put_text;
use std::alloc::{AllocError, Global};
use streams::{AnswerFault, AnswerOutput, OutputBuffer};

/// Puts the explanation of a query line into `buffer`, which writes to `output`.
pub fn write_explanation<W: AnswerOutput>(
    alloc: Global,
    engine: &Engine,
    line: &[u8],
    buffer: &mut OutputBuffer,
    output: &mut W,
) -> Result<(), AnswerFault>
    requires { W.has_failed output.old ≡ false }
    ensures ok { OnOk result ((text : List ℕ) × IsExplanation engine.now line.now text
        × Puts (W.written output.old) (W.written output.new) buffer.old text buffer.new) }
    ensures fault { IfErr result (λ fault. LeavesAnswer (IsExplanation engine.now line.now) fault
        (W.written output.old) (W.written output.new) buffer.old buffer.new) }
    ensures not_failed { OnOk result (W.has_failed output.new ≡ false) }
    ensures failed { IfErr result (λ fault. W.has_failed output.new ≡ is_write fault) }
{
    let mut text = Vec::new(alloc);
    match engine.explain(alloc, line, &mut text) {
        Ok(()) => put_text(text.as_slice(), buffer, output),
        Err(AllocError) => Err(AnswerFault::Memory),
    }
}
