//! Tests of runs over streams that transfer few bytes at once, and over streams that fail.
ghost use Rattle.std.specs.Prelude.{◌≡◌, false};

use crate::test_release::sample;
use crate::test_streams::{PieceInput, PieceOutput, ROOM};
use query_tool::{
    AnswerOutput, Engine, QueryInput, RunFault, StreamInput, StreamOutput, run, run_explain,
};
use snapshot::{Limits, LoadFault};
use std::alloc::{AllocError, Global};
use std::process::Abort;
use std::test::Fail;

const ANSWER: &[u8] =
    b"OK 3\n101009 |Beta (finding)|\n102002 |Gamma (finding)|\n103007 |Delta (finding)|\n";

const ANSWER_AND_REFUSAL: &[u8] =
    b"OK 3\n101009 |Beta (finding)|\n102002 |Gamma (finding)|\n103007 |Delta (finding)|\nERR syntax\n";

const LONG_AND_ANSWER: &[u8] =
    b"ERR long\nOK 3\n101009 |Beta (finding)|\n102002 |Gamma (finding)|\n103007 |Delta (finding)|\n";

// The plan of the query `<100005`.
const PLAN: &[u8] = b"PLAN 4\ndescendants 4\n one 100005 0\n";

// The query on two lines, the answers to both lines, and the plans of both lines.
const TWICE: &[u8] = b"<100005\n<100005\n";

const ANSWERS: &[u8] =
    b"OK 3\n101009 |Beta (finding)|\n102002 |Gamma (finding)|\n103007 |Delta (finding)|\n\
OK 3\n101009 |Beta (finding)|\n102002 |Gamma (finding)|\n103007 |Delta (finding)|\n";

const PLANS: &[u8] =
    b"PLAN 4\ndescendants 4\n one 100005 0\nPLAN 4\ndescendants 4\n one 100005 0\n";

// An input: its bytes, how many a read gives at most, and how many it gives before it fails.
type Given<'a> = (&'a [u8], usize, usize);

// An output: how many bytes a write takes at most, and how many it takes before it fails.
type Taken = (usize, usize);

// The result of a run, and the bytes that it writes.
type Ended<'a> = (Result<u64, RunFault>, &'a [u8]);

// Whether a run of an engine ends with `ended`. Then the engine is dropped. A function that owns an
// engine and has several exits is slow to prove.
fn is_run_and_drop(
    alloc: Global,
    engine: Engine,
    given: Given<'_>,
    taken: Taken,
    ended: Ended<'_>,
) -> bool {
    let is_run = is_run(alloc, &engine, Task::Answer, given, taken, ended);
    drop(engine);
    is_run
}

// Checks how a run over the sample release ends.
fn check_run(
    rt: &impl Abort,
    alloc: Global,
    given: Given<'_>,
    taken: Taken,
    ended: Ended<'_>,
) -> Result<(), LoadFault> {
    match Engine::load(alloc, &sample(), "en", Limits::standard()) {
        Ok(engine) => {
            assert!(rt; is_run_and_drop(alloc, engine, given, taken, ended));
            Ok(())
        }
        Err(fault) => Err(fault),
    }
}

// Checks runs over streams that transfer few bytes at once, and over streams that transfer many.
fn check_runs(
    rt: &impl Abort,
    alloc: Global,
    bytes: &[u8],
    ended: Ended<'_>,
) -> Result<(), LoadFault> {
    for most in [1, 3, ROOM] {
        check_run(rt, alloc, (bytes, most, ROOM), (most, ROOM), ended)?;
    }
    Ok(())
}

// An empty line is a query line, although it is no constraint. The last line needs no line feed.
fn check_lines(rt: &impl Abort, alloc: Global) -> Result<(), LoadFault> {
    check_runs(rt, alloc, b"", (Ok(0), b""))?;
    check_runs(rt, alloc, b"<100005\n\n", (Ok(2), ANSWER_AND_REFUSAL))?;
    check_runs(rt, alloc, b"<100005\n", (Ok(1), ANSWER))?;
    check_runs(rt, alloc, b"<100005", (Ok(1), ANSWER))
}

#[test]
fn answers_each_line(rt: HostRuntime) -> Result<(), Fail> {
    check_lines(&rt, rt.alloc())?;
    Ok(())
}

// Returns a line of `blanks` blanks and then the query.
fn after_blanks(alloc: Global, blanks: usize) -> Result<Vec<u8>, AllocError> {
    let mut bytes = Vec::new(alloc);
    for _ in 0..blanks {
        bytes.push(b' ')?;
    }
    bytes.extend_from_slice(b"<100005\n<100005")?;
    Ok(bytes)
}

// Checks a run over a line that is too long and a line that is not.
fn check_long(rt: &impl Abort, alloc: Global, bytes: &[u8]) -> Result<(), LoadFault> {
    for most in [1_000, 70_000] {
        let given = (bytes, most, usize::MAX);
        check_run(rt, alloc, given, (ROOM, ROOM), (Ok(2), LONG_AND_ANSWER))?;
    }
    Ok(())
}

fn check_long_line(rt: &impl Abort, alloc: Global, blanks: usize) -> Result<(), LoadFault> {
    match after_blanks(alloc, blanks) {
        Ok(bytes) => check_long(rt, alloc, bytes.as_slice()),
        Err(AllocError) => Err(LoadFault::Memory),
    }
}

fn check_long_lines(rt: &impl Abort, alloc: Global) -> Result<(), LoadFault> {
    check_long_line(rt, alloc, 65_529)?;
    check_long_line(rt, alloc, 65_530)?;
    check_long_line(rt, alloc, 200_000)
}

// A line that is too long is refused for its length alone, however long it is, and in whatever
// pieces it is read.
#[test]
fn refuses_lines_longer_than_are_kept(rt: HostRuntime) -> Result<(), Fail> {
    check_long_lines(&rt, rt.alloc())?;
    Ok(())
}

// What a run does: answer its lines, or explain them.
#[derive(Clone, Copy)]
enum Task {
    Answer,
    Explain,
}

// A range of numbers of bytes (the second number is excluded), and the result of a run over two
// lines if a stream fails after any number of bytes in the range.
type Stretch = (usize, usize, Result<u64, RunFault>);

// Ranges of the number of bytes that the output takes. An answer has 79 bytes, and a plan 35.
const BY_ANSWERS: [Stretch; 3] = [
    (0, 79, Err(RunFault::Write(0))),
    (79, 158, Err(RunFault::Write(1))),
    (158, 160, Ok(2)),
];

const BY_PLANS: [Stretch; 3] = [
    (0, 35, Err(RunFault::Write(0))),
    (35, 70, Err(RunFault::Write(1))),
    (70, 72, Ok(2)),
];

// Ranges of the number of bytes that the input gives. A line has 8 bytes.
const BY_INPUT: [Stretch; 3] = [
    (0, 8, Err(RunFault::Read(0))),
    (8, 16, Err(RunFault::Read(1))),
    (16, 17, Err(RunFault::Read(2))),
];

// Whether a run of an engine over an input and an output ends with `ended`, and only the stream
// that the result names has failed.
fn is_run(
    alloc: Global,
    engine: &Engine,
    task: Task,
    given: Given<'_>,
    taken: Taken,
    ended: Ended<'_>,
) -> bool {
    let mut input = PieceInput::new(given.0, given.1, given.2);
    let mut output = PieceOutput::new(alloc, taken.0, taken.1);
    let answer = match task {
        Task::Answer => run(alloc, engine, &mut input, &mut output),
        Task::Explain => run_explain(alloc, engine, &mut input, &mut output),
    };
    answer == ended.0
        && output.bytes.as_slice() == ended.1
        && input.failed() == matches!(ended.0, Err(RunFault::Read(_)))
        && output.failed() == matches!(ended.0, Err(RunFault::Write(_)))
}

// Whether all runs whose output fails within a range have the range's result, and have written the
// prefix of `texts` that the output takes.
fn end_by_output(
    alloc: Global,
    engine: &Engine,
    task: Task,
    texts: &[u8],
    stretch: &Stretch,
    most: usize,
) -> bool {
    for until_failure in stretch.0..stretch.1 {
        let front = texts.get(..until_failure).unwrap_or(texts);
        let given = (TWICE, ROOM, ROOM);
        if !is_run(
            alloc,
            engine,
            task,
            given,
            (most, until_failure),
            (stretch.2, front),
        ) {
            return false;
        }
    }
    true
}

// Whether all runs whose input fails within a range have the range's result, and have written
// `texts`.
fn end_by_input(
    alloc: Global,
    engine: &Engine,
    task: Task,
    texts: &[u8],
    stretch: &Stretch,
    most: usize,
) -> bool {
    for until_failure in stretch.0..stretch.1 {
        let given = (TWICE, most, until_failure);
        if !is_run(alloc, engine, task, given, (ROOM, ROOM), (stretch.2, texts)) {
            return false;
        }
    }
    true
}

// Checks all ranges of the output.
fn check_output(
    rt: &impl Abort,
    alloc: Global,
    engine: &Engine,
    task: Task,
    texts: &[u8],
    stretches: &[Stretch],
) {
    for stretch in stretches {
        assert!(rt; end_by_output(alloc, engine, task, texts, stretch, 1));
        assert!(rt; end_by_output(alloc, engine, task, texts, stretch, ROOM));
    }
}

// Checks all ranges of the input. In each range, a run writes one text more than in the range
// before.
fn check_input(rt: &impl Abort, alloc: Global, engine: &Engine, task: Task, fronts: &[&[u8]]) {
    for (stretch, texts) in BY_INPUT.iter().zip(fronts) {
        assert!(rt; end_by_input(alloc, engine, task, texts, stretch, 1));
        assert!(rt; end_by_input(alloc, engine, task, texts, stretch, ROOM));
    }
}

fn check_ends(rt: &impl Abort, alloc: Global, engine: &Engine) {
    check_output(rt, alloc, engine, Task::Answer, ANSWERS, &BY_ANSWERS);
    check_output(rt, alloc, engine, Task::Explain, PLANS, &BY_PLANS);
    check_input(rt, alloc, engine, Task::Answer, &[b"", ANSWER, ANSWERS]);
    check_input(rt, alloc, engine, Task::Explain, &[b"", PLAN, PLANS]);
}

fn check_ends_and_drop(rt: &impl Abort, alloc: Global, engine: Engine) {
    check_ends(rt, alloc, &engine);
    drop(engine);
}

fn check_sample_ends(rt: &impl Abort, alloc: Global) -> Result<(), LoadFault> {
    match Engine::load(alloc, &sample(), "en", Limits::standard()) {
        Ok(engine) => {
            check_ends_and_drop(rt, alloc, engine);
            Ok(())
        }
        Err(fault) => Err(fault),
    }
}

// Lets a stream fail after each number of bytes, in one run after another.
#[test]
fn stops_where_a_stream_fails(rt: HostRuntime) -> Result<(), Fail> {
    check_sample_ends(&rt, rt.alloc())?;
    Ok(())
}

// Returns the result of a run over the sample release.
fn run_sample<R: QueryInput, W: AnswerOutput>(
    alloc: Global,
    input: &mut R,
    output: &mut W,
) -> Result<Result<u64, RunFault>, LoadFault>
    requires input { R.has_failed input.old ≡ false }
    requires output { W.has_failed output.old ≡ false }
{
    match Engine::load(alloc, &sample(), "en", Limits::standard()) {
        Ok(engine) => Ok(run_and_drop(alloc, engine, input, output)),
        Err(fault) => Err(fault),
    }
}

fn run_and_drop<R: QueryInput, W: AnswerOutput>(
    alloc: Global,
    engine: Engine,
    input: &mut R,
    output: &mut W,
) -> Result<u64, RunFault>
    requires input { R.has_failed input.old ≡ false }
    requires output { W.has_failed output.old ≡ false }
{
    let answer = run(alloc, &engine, input, output);
    drop(engine);
    answer
}

#[test]
fn runs_over_streams(rt: HostRuntime) -> Result<(), Fail> {
    let bytes = b"<100005\n".as_slice();
    let mut input = StreamInput::new(bytes);
    let mut written = Vec::new(rt.alloc());
    let mut output = StreamOutput::new(&mut written);
    let answer = run_sample(rt.alloc(), &mut input, &mut output)?;
    // one read gave the line, and one found the end
    assert!(rt; answer == Ok(1) && input.reads() == 2);
    assert!(rt; !input.failed() && !output.failed());
    assert!(rt; written.as_slice() == ANSWER);
    Ok(())
}

#[test]
fn numbers_its_faults(rt: HostRuntime) {
    assert!(rt; RunFault::Read(0).number() == 1 && RunFault::Write(0).number() == 2);
    assert!(rt; RunFault::Memory(0).number() == 3 && RunFault::Turns(0).number() == 4);
}
