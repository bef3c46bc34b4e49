//! Answering the lines of an input in one mode of the program.
ghost use Rattle.std.specs.Prelude.{◌≡◌, ◌+◌, ◌^◌, ◌≤◌, false, IfErr, IfOk, IfSome, OnOk, length};
ghost use Rattle.std.specs.Io.KnownBytes.{IsAtEnd};
ghost use Rattle.query_run.specs.Fault.{CountsTurns, EndsAt, HaveFailed};
ghost use Rattle.query_run.specs.Lines.{AreWritten, query_lines};
ghost use Rattle.query_service.specs.FrontLaw.{same_front_in};
ghost use Rattle.query_service.specs.ModeAnswer.{answers_in};

use crate::query_engine::QueryEngine;
use command_line::Mode;
use query_run::{AnswerLine, RunFault, run};
use std::alloc::Global;
use streams::{AnswerFault, AnswerOutput, OutputBuffer, QueryInput};

// Answers lines as `mode` demands, with `engine`.
#[derive(Drop)]
struct LinesIn<'a, Q: QueryEngine> {
    engine: &'a Q,
    mode: Mode,
}

impl<'a, Q: QueryEngine> AnswerLine for LinesIn<'a, Q> {
    ghost answers = { λ lines. answers_in lines.mode (Q.contents lines.engine.now) };

    ghost same_front = { λ lines. same_front_in lines.mode (Q.contents lines.engine.now) };

    fn answer_line<W: AnswerOutput>(
        &self,
        alloc: Global,
        line: &[u8],
        buffer: &mut OutputBuffer,
        output: &mut W,
    ) -> Result<(), AnswerFault> {
        self.engine.write_in(alloc, self.mode, line, buffer, output)
    }
}

/// Answers each line of `input`, in order, as `mode` demands: a query, an explanation, a
/// description or a session's request. Returns how many lines were answered. It reads, writes and
/// fails as `run` of the crate `query_run` does.
pub fn run_in<Q: QueryEngine, R: QueryInput, W: AnswerOutput>(
    alloc: Global,
    engine: &Q,
    mode: Mode,
    input: &mut R,
    output: &mut W,
) -> Result<u64, RunFault>
    requires input { R.has_failed input.old ≡ false }
    requires output { W.has_failed output.old ≡ false }
    ensures end { OnOk result (IsAtEnd (R.remaining input.new)) }
    ensures count { IfOk result (λ count. IfSome (R.remaining input.old)
        (λ bytes. count ≡ length (query_lines bytes))) }
    ensures answers { OnOk result (IfSome (R.remaining input.old)
        (λ bytes. AreWritten (answers_in mode (Q.contents engine.now)) (query_lines bytes)
        (W.written output.old) (W.written output.new))) }
    ensures not_failed { OnOk result ((R.has_failed input.new ≡ false)
        × (W.has_failed output.new ≡ false)) }
    ensures fault { IfErr result (λ fault. EndsAt fault (answers_in mode (Q.contents engine.now))
        (R.remaining input.old) (R.remaining input.new) (W.written output.old)
        (W.written output.new)) }
    ensures failed { IfErr result (λ fault. HaveFailed fault (R.has_failed input.new)
        (W.has_failed output.new)) }
    ensures turns { IfErr result (λ fault. CountsTurns fault (R.read_count input.old)
        (R.read_count input.new)) }
    ensures reads { R.read_count input.new ≤ R.read_count input.old + 2 ^ 40 }
{
    run(alloc, &LinesIn { engine, mode }, input, output)
}
