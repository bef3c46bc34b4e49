//! Tests of output buffers: bytes of any length that are put into one, and answers that are longer
//! than a buffer.
ghost use Rattle.std.specs.Prelude.{◌≡◌, false};

use crate::test_release::sample_with;
use crate::test_streams::{PieceInput, PieceOutput, ROOM};
use query_tool::{Engine, RunFault, run};
use snapshot::{Limits, LoadFault};
use std::alloc::{AllocError, Global};
use std::process::Abort;
use std::test::Fail;
use streams::{IoFault, OutputBuffer};

// The greatest number of bytes that wait in a buffer.
const PIECE: usize = 65_536;

// The length of each part that is put into the buffer. Short parts wait, and long parts are written
// directly.
const LENGTHS: [usize; 9] = [1, 65_535, 1, 65_536, 0, 70_000, 65_000, 536, 3];

// Returns `count` bytes, of which no two neighbours are equal.
fn bytes_of(alloc: Global, count: usize) -> Result<Vec<u8>, AllocError> {
    let mut bytes = Vec::new(alloc);
    for at in 0..count {
        bytes.push((at % 251) as u8)?;
    }
    Ok(bytes)
}

// Returns the sum of the lengths.
fn byte_count() -> usize {
    let mut count = 0usize;
    for length in LENGTHS {
        count = count.saturating_add(length);
    }
    count
}

// Puts the bytes into a buffer in parts of these lengths, and then writes the bytes that wait.
fn put_all(
    buffer: &mut OutputBuffer,
    bytes: &[u8],
    output: &mut PieceOutput,
) -> Result<(), IoFault> {
    let mut rest = bytes;
    for length in LENGTHS {
        let (part, following) = rest.split_at(length.min(rest.len()));
        if output.failed {
            return Err(IoFault);
        }
        buffer.put(part, output)?;
        rest = following;
    }
    if output.failed {
        return Err(IoFault);
    }
    buffer.flush(output)
}

// Whether the output gets all bytes in order; or only the first `until_failure` bytes, if it fails
// after them.
fn goes_out(
    alloc: Global,
    bytes: &[u8],
    most: usize,
    until_failure: usize,
) -> Result<bool, AllocError> {
    let mut buffer = OutputBuffer::new(alloc)?;
    let mut output = PieceOutput::new(alloc, most, until_failure);
    let ended = put_all(&mut buffer, bytes, &mut output);
    let front = bytes.get(..until_failure).unwrap_or(bytes);
    Ok(ended.is_ok() == (front.len() == bytes.len()) && output.bytes.as_slice() == front)
}

fn check_pieces(rt: &impl Abort, alloc: Global) -> Result<(), AllocError> {
    let bytes = bytes_of(alloc, byte_count())?;
    for most in [1_000, 65_536, 100_000] {
        for until_failure in [
            0, 1, 65_536, 65_537, 131_073, 200_000, 266_611, 266_612, 300_000,
        ] {
            assert!(rt;
                goes_out(alloc, bytes.as_slice(), most, until_failure)?,
                "{most} {until_failure}"
            );
        }
    }
    Ok(())
}

// Puts parts that are shorter and longer than a buffer, and parts that fill it exactly.
#[test]
fn puts_bytes_of_any_length(rt: HostRuntime) -> Result<(), Fail> {
    check_pieces(&rt, rt.alloc())?;
    Ok(())
}

// Whether waiting bytes are not written before more come, even if they fill the buffer.
fn waits_until_full(alloc: Global) -> Result<bool, AllocError> {
    let bytes = bytes_of(alloc, PIECE)?;
    let (front, last) = bytes
        .as_slice()
        .split_at(PIECE.min(bytes.len()).saturating_sub(1));
    let mut buffer = OutputBuffer::new(alloc)?;
    let mut output = PieceOutput::new(alloc, ROOM, usize::MAX);
    for part in [front, last] {
        if output.failed || buffer.put(part, &mut output).is_err() {
            return Ok(false);
        }
    }
    Ok(output.bytes.is_empty())
}

#[test]
fn keeps_what_there_is_room_for(rt: HostRuntime) -> Result<(), Fail> {
    assert!(rt; waits_until_full(rt.alloc())?);
    Ok(())
}

// The index of the description file among the files of the sample release.
const DESCRIPTIONS: usize = 2;

const HEADER: &[u8] =
    b"id\teffectiveTime\tactive\tmoduleId\tconceptId\tlanguageCode\ttypeId\tterm\tcaseSignificanceId\r\n";

// Concepts with long names: the text before the name in its row, the text before it in its line,
// and the length of the name. The first line waits in the buffer, the second is longer than the
// buffer, and the third is as long as the buffer.
const NAMES: [(&[u8], &[u8], usize); 3] = [
    (
        b"102018\t20240101\t1\t900000000000207008\t101009\ten\t900000000000003001\t",
        b"101009 |",
        40_000,
    ),
    (
        b"103011\t20240101\t1\t900000000000207008\t102002\ten\t900000000000003001\t",
        b"102002 |",
        70_000,
    ),
    (
        b"104017\t20240101\t1\t900000000000207008\t103007\ten\t900000000000003001\t",
        b"103007 |",
        65_526,
    ),
];

// Appends a long name.
fn push_name(count: usize, text: &mut Vec<u8>) -> Result<(), AllocError> {
    for at in 0..count {
        text.push(b'a' + (at % 23) as u8)?;
    }
    Ok(())
}

// Returns the description rows with the long names.
fn name_rows(alloc: Global) -> Result<Vec<u8>, AllocError> {
    let mut text = Vec::from_slice(alloc, HEADER)?;
    for (before, _, count) in &NAMES {
        text.extend_from_slice(before)?;
        push_name(*count, &mut text)?;
        text.extend_from_slice(b"\t900000000000448009\r\n")?;
    }
    Ok(text)
}

// Returns the answer with the three concepts that have long names.
fn long_answer(alloc: Global) -> Result<Vec<u8>, AllocError> {
    let mut text = Vec::from_slice(alloc, b"OK 3\n")?;
    for (_, before, count) in &NAMES {
        text.extend_from_slice(before)?;
        push_name(*count, &mut text)?;
        text.extend_from_slice(b"|\n")?;
    }
    Ok(text)
}

// Whether a run over two equal queries writes the answer twice; or only the first `until_failure`
// bytes, if the output fails after them.
fn is_long_run(
    alloc: Global,
    engine: &Engine,
    answers: &[u8],
    most: usize,
    until_failure: usize,
) -> bool {
    let mut input = PieceInput::new(b"<100005\n<100005\n", ROOM, ROOM);
    let mut output = PieceOutput::new(alloc, most, until_failure);
    let ended = run(alloc, engine, &mut input, &mut output);
    let front = answers.get(..until_failure).unwrap_or(answers);
    let wanted = if front.len() == answers.len() {
        Ok(2)
    } else {
        Err(RunFault::Write(u64::from(front.len() >= answers.len() / 2)))
    };
    ended == wanted && output.bytes.as_slice() == front
}

// Checks runs whose output fails within the first answer, between the answers, within the second
// answer, and after it.
fn check_long_runs(rt: &impl Abort, alloc: Global, engine: &Engine, answers: &[u8]) {
    for most in [1_000, 100_000] {
        for until_failure in [
            0, 4, 40_015, 40_016, 110_024, 110_025, 175_560, 175_561, 215_576, 351_121, 351_122,
        ] {
            assert!(rt;
                is_long_run(alloc, engine, answers, most, until_failure),
                "{most} {until_failure}"
            );
        }
    }
}

// Checks the answers of an engine with the long names, and drops the engine.
fn check_long_and_drop(rt: &impl Abort, alloc: Global, engine: Engine, answers: &[u8]) {
    check_long_runs(rt, alloc, &engine, answers);
    drop(engine);
}

fn check_long_names(
    rt: &impl Abort,
    alloc: Global,
    rows: &[u8],
    answers: &[u8],
) -> Result<(), LoadFault> {
    let files = sample_with(alloc, DESCRIPTIONS, rows)?;
    match Engine::load(alloc, files.as_slice(), "en", Limits::standard()) {
        Ok(engine) => Ok(check_long_and_drop(rt, alloc, engine, answers)),
        Err(fault) => Err(fault),
    }
}

fn check_long_answers(rt: &impl Abort, alloc: Global) -> Result<(), LoadFault> {
    let rows = name_rows(alloc)?;
    let mut answers = long_answer(alloc)?;
    let again = long_answer(alloc)?;
    answers.extend_from_slice(again.as_slice())?;
    check_long_names(rt, alloc, rows.as_slice(), answers.as_slice())
}

// Checks answers with lines that wait in the buffer, that are written directly, and that fill the
// buffer exactly.
#[test]
fn writes_long_answers_in_pieces(rt: HostRuntime) -> Result<(), Fail> {
    check_long_answers(&rt, rt.alloc())?;
    Ok(())
}
