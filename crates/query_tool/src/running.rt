//! Answering or explaining the query lines of an input.
ghost use Rattle.std.specs.Prelude.{◌≡◌, ◌+◌, ◌^◌, ◌≤◌, false, IfErr, IfOk, IfSome, OnOk, length};
ghost use Rattle.std.specs.Io.KnownBytes.{IsAtEnd};
ghost use Rattle.query_run.specs.Fault.{CountsTurns, EndsAt, HaveFailed};
ghost use Rattle.query_run.specs.Lines.{AreWritten, query_lines};
ghost use Rattle.query_service.specs.Answer.{IsAnswer};
ghost use Rattle.query_service.specs.Explanation.{IsExplanation};

use crate::engine::Engine;
use command_line::Mode;
use query_run::RunFault;
use query_service::run_in;
use std::alloc::Global;
use streams::{AnswerOutput, QueryInput};

/// Answers each query line of `input`, in order, as `Engine::answer` does, and writes the answers
/// to `output`. Returns how many lines were answered, or the fault that ended the run before the
/// input did.
pub fn run<R: QueryInput, W: AnswerOutput>(
    alloc: Global,
    engine: &Engine,
    input: &mut R,
    output: &mut W,
) -> Result<u64, RunFault>
    requires input { R.has_failed input.old ≡ false }
    requires output { W.has_failed output.old ≡ false }
    ensures end { OnOk result (IsAtEnd (R.remaining input.new)) }
    ensures count { IfOk result (λ count. IfSome (R.remaining input.old)
        (λ bytes. count ≡ length (query_lines bytes))) }
    ensures answers { OnOk result (IfSome (R.remaining input.old)
        (λ bytes. AreWritten (IsAnswer engine.now) (query_lines bytes) (W.written output.old)
        (W.written output.new))) }
    ensures not_failed { OnOk result ((R.has_failed input.new ≡ false)
        × (W.has_failed output.new ≡ false)) }
    ensures fault { IfErr result (λ fault. EndsAt fault (IsAnswer engine.now)
        (R.remaining input.old) (R.remaining input.new) (W.written output.old)
        (W.written output.new)) }
    ensures failed { IfErr result (λ fault. HaveFailed fault (R.has_failed input.new)
        (W.has_failed output.new)) }
    ensures turns { IfErr result (λ fault. CountsTurns fault (R.read_count input.old)
        (R.read_count input.new)) }
    ensures reads { R.read_count input.new ≤ R.read_count input.old + 2 ^ 40 }
{
    run_in(alloc, engine, Mode::Query, input, output)
}

/// Writes to `output`, for each query line of `input`, in order, the explanation that
/// `Engine::explain` appends. It reads, writes and fails as `run` does.
pub fn run_explain<R: QueryInput, W: AnswerOutput>(
    alloc: Global,
    engine: &Engine,
    input: &mut R,
    output: &mut W,
) -> Result<u64, RunFault>
    requires input { R.has_failed input.old ≡ false }
    requires output { W.has_failed output.old ≡ false }
    ensures end { OnOk result (IsAtEnd (R.remaining input.new)) }
    ensures count { IfOk result (λ count. IfSome (R.remaining input.old)
        (λ bytes. count ≡ length (query_lines bytes))) }
    ensures answers { OnOk result (IfSome (R.remaining input.old)
        (λ bytes. AreWritten (IsExplanation engine.now) (query_lines bytes) (W.written output.old)
        (W.written output.new))) }
    ensures not_failed { OnOk result ((R.has_failed input.new ≡ false)
        × (W.has_failed output.new ≡ false)) }
    ensures fault { IfErr result (λ fault. EndsAt fault (IsExplanation engine.now)
        (R.remaining input.old) (R.remaining input.new) (W.written output.old)
        (W.written output.new)) }
    ensures failed { IfErr result (λ fault. HaveFailed fault (R.has_failed input.new)
        (W.has_failed output.new)) }
    ensures turns { IfErr result (λ fault. CountsTurns fault (R.read_count input.old)
        (R.read_count input.new)) }
    ensures reads { R.read_count input.new ≤ R.read_count input.old + 2 ^ 40 }
{
    run_in(alloc, engine, Mode::Explain, input, output)
}
