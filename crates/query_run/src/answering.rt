//! The trait of a value that answers query lines.
ghost use Rattle.std.specs.Prelude.{◌≡◌, ℕ, false, IfErr, List, OnOk};
ghost use Rattle.streams.specs.Waiting.{LeavesAnswer, Puts, is_write};
ghost use Rattle.query_run.specs.KeptLine.{kept_of};

use std::alloc::Global;
use streams::{AnswerFault, AnswerOutput, OutputBuffer};

/// Answers query lines, one by one. `run` is generic over it.
pub trait AnswerLine {
    /// The relation between a query line and the texts that answer it.
    ghost answers: { Self → List ℕ → List ℕ → Type 0 };

    /// Puts a text that answers `line` into `output_buffer`, which writes to `output` whenever it
    /// is full. If memory is refused, `output_buffer` and `output` are unchanged. If the output
    /// fails, it has received a proper prefix of the bytes that waited and the answer.
    fn answer_line<W: AnswerOutput>(
        &self,
        alloc: Global,
        line: &[u8],
        output_buffer: &mut OutputBuffer,
        output: &mut W,
    ) -> Result<(), AnswerFault>
        requires { W.has_failed output.old ≡ false }
        ensures ok { OnOk result ((text : List ℕ) × answers self.now line.now text
            × Puts (W.written output.old) (W.written output.new) output_buffer.old text
            output_buffer.new) }
        ensures fault { IfErr result (λ fault. LeavesAnswer (answers self.now line.now) fault
            (W.written output.old) (W.written output.new) output_buffer.old output_buffer.new) }
        ensures not_failed { OnOk result (W.has_failed output.new ≡ false) }
        ensures failed { IfErr result (λ fault. W.has_failed output.new ≡ is_write fault) };

    /// Lines with the same first 65,536 bytes have the same answers, so `run` keeps no more of a
    /// line.
    ghost same_front: { (answerer : Self) (one other text : List ℕ) → kept_of one ≡ kept_of other
        → answers answerer one text → answers answerer other text };
}
