//! Tests of cutting bytes into lines, both in memory and read from a source in pieces.
ghost use Rattle.std.specs.Prelude.{◌≤◌};

use release_files::{FileSource, Line, Lines, MemoryFiles, NamedBytes, PieceLines, SourceFault};
use std::alloc::{AllocError, Global};
use std::process::Abort;

fn is_same(found: Option<Line<'_>>, expected: Line<'_>) -> bool {
    match found {
        Some(line) => {
            line.number == expected.number
                && line.end == expected.end
                && line.bytes == expected.bytes
        }
        None => false,
    }
}

// Checks that the next lines are `expected`, each with its number, its end and its text.
fn check_next(rt: &impl Abort, lines: &mut Lines<'_>, expected: &[(u64, u64, &[u8])]) {
    for &(number, end, bytes) in expected {
        let line = Line { number, end, bytes };
        assert!(rt; is_same(lines.next(), line), "line {number}");
    }
}

// Checks that the lines of `bytes` are `expected`, and that no line follows.
fn assert_lines(rt: &impl Abort, bytes: &[u8], expected: &[(u64, u64, &[u8])]) {
    let mut lines = Lines::new(bytes);
    check_next(rt, &mut lines, expected);
    assert!(rt; lines.next().is_none() && lines.next().is_none());
}

#[test]
fn cuts_at_each_end_of_line(rt: HostRuntime) {
    assert_lines(
        &rt,
        b"a\r\nb\nc",
        &[(1, 3, b"a"), (2, 5, b"b"), (3, 6, b"c")],
    );
    assert_lines(&rt, b"a\r\n", &[(1, 3, b"a")]);
    assert_lines(&rt, b"a\r", &[(1, 2, b"a")]);
}

#[test]
fn counts_empty_lines(rt: HostRuntime) {
    assert_lines(&rt, b"\n\r\na\n", &[(1, 1, b""), (2, 3, b""), (3, 5, b"a")]);
}

#[test]
fn drops_one_carriage_return(rt: HostRuntime) {
    assert_lines(&rt, b"\r\r\na\rb\n", &[(1, 3, b"\r"), (2, 7, b"a\rb")]);
    assert_lines(&rt, b"\r", &[(1, 1, b"")]);
}

#[test]
fn drops_one_mark(rt: HostRuntime) {
    assert_lines(&rt, b"\xef\xbb\xbfa\n", &[(1, 5, b"a")]);
    assert_lines(
        &rt,
        b"\xef\xbb\xbf\xef\xbb\xbfa",
        &[(1, 7, b"\xef\xbb\xbfa")],
    );
    assert_lines(&rt, b"\xef\xbba", &[(1, 3, b"\xef\xbba")]);
}

#[test]
fn finds_no_line_in_nothing(rt: HostRuntime) {
    assert_lines(&rt, b"", &[]);
    assert_lines(&rt, b"\xef\xbb\xbf", &[]);
}

const NAME: &str = "Terminology/lines.txt";

// A text with a byte order mark, each kind of line end, empty lines, a mark that is none, and a
// last line without an end.
const TEXT: &[u8] = b"\xef\xbb\xbfa\tb\r\n\r\n\nlong\rer\r\r\n\xef\xbb\xbfc\nd";

// Returns three files, two of which have the same name.
fn files() -> [NamedBytes<'static>; 3] {
    [
        NamedBytes {
            name: "Terminology/empty.txt",
            bytes: b"",
        },
        NamedBytes {
            name: NAME,
            bytes: TEXT,
        },
        NamedBytes {
            name: NAME,
            bytes: b"another",
        },
    ]
}

// Returns `AllocError` if memory was refused. Fails the test at any other fault.
fn but_for_memory(rt: &impl Abort, checked: Result<(), SourceFault>) -> Result<(), AllocError> {
    assert!(rt; checked != Err(SourceFault::Device), "no call fails");
    match checked {
        Ok(()) => Ok(()),
        Err(_) => Err(AllocError),
    }
}

fn has_line<S: FileSource>(
    lines: &mut PieceLines,
    source: &mut S,
    expected: Line<'_>,
) -> Result<bool, SourceFault> {
    Ok(is_same(lines.next_line(source)?, expected))
}

fn has_no_line<S: FileSource>(lines: &mut PieceLines, source: &mut S) -> Result<bool, SourceFault> {
    Ok(lines.next_line(source)?.is_none())
}

fn check_line<S: FileSource>(
    rt: &impl Abort,
    lines: &mut PieceLines,
    source: &mut S,
    expected: Line<'_>,
) -> Result<(), SourceFault> {
    let is_there = has_line(lines, source, expected)?;
    assert!(rt; is_there, "line {}", expected.number);
    Ok(())
}

// Checks that the open file has the lines of `bytes`, and then no more.
fn check_lines<S: FileSource>(
    rt: &impl Abort,
    lines: &mut PieceLines,
    source: &mut S,
    bytes: &[u8],
) -> Result<(), SourceFault> {
    for line in Lines::new(bytes) {
        check_line(rt, lines, source, line)?;
    }
    check_end(rt, lines, source)
}

fn check_end<S: FileSource>(
    rt: &impl Abort,
    lines: &mut PieceLines,
    source: &mut S,
) -> Result<(), SourceFault> {
    let is_end = has_no_line(lines, source)?;
    assert!(rt; is_end, "one line too many");
    Ok(())
}

fn check_whole<S: FileSource>(
    rt: &impl Abort,
    lines: &mut PieceLines,
    source: &mut S,
    bytes: &[u8],
) -> Result<(), SourceFault> {
    let checked = check_lines(rt, lines, source, bytes);
    assert!(rt; has_no_line(lines, source) == Ok(true));
    checked
}

// Opens a file of a source, and checks that it has the lines of `bytes`. No line may follow the
// last line or a fault.
fn check_file<S: FileSource>(
    rt: &impl Abort,
    alloc: Global,
    source: &mut S,
    name: &str,
    bytes: &[u8],
) -> Result<(), SourceFault> {
    source.open(name)?;
    let mut lines = PieceLines::new(alloc);
    check_whole(rt, &mut lines, source, bytes)
}

// Checks the lines of a file in memory that is read in pieces of `piece` bytes.
fn check_pieces(
    rt: &impl Abort,
    alloc: Global,
    files: &[NamedBytes<'_>],
    piece: usize,
    bytes: &[u8],
) -> Result<(), AllocError>
    requires { 1 ≤ piece }
{
    let mut source = MemoryFiles::new(alloc, files, piece, 0);
    but_for_memory(rt, check_file(rt, alloc, &mut source, NAME, bytes))?;
    assert!(rt; source.failures() == 0);
    Ok(())
}

#[test]
fn reads_lines_in_pieces(rt: HostRuntime) -> Result<(), AllocError> {
    for piece in [1, 2, 3, 7, 4_096] {
        check_pieces(&rt, rt.alloc(), &files(), piece, TEXT)?;
    }
    Ok(())
}

fn front(limit: usize) -> &'static [u8] {
    &TEXT[..limit.min(TEXT.len())]
}

// Checks that a file read up to a limit has the lines of its first bytes.
fn check_front<S: FileSource>(
    rt: &impl Abort,
    alloc: Global,
    source: &mut S,
    limit: usize,
) -> Result<(), SourceFault> {
    source.open(NAME)?;
    let mut lines = PieceLines::within(alloc, limit as u64);
    check_lines(rt, &mut lines, source, front(limit))
}

// Checks the lines of the first `limit` bytes of a file in memory. No call of the source fails.
fn check_limit(rt: &impl Abort, alloc: Global, limit: usize) -> Result<(), AllocError> {
    let files = files();
    let mut source = MemoryFiles::new(alloc, &files, 4_096, 0);
    but_for_memory(rt, check_front(rt, alloc, &mut source, limit))
}

#[test]
fn reads_no_more_than_the_limit(rt: HostRuntime) -> Result<(), AllocError> {
    for limit in 0..TEXT.len() + 2 {
        check_limit(&rt, rt.alloc(), limit)?;
    }
    Ok(())
}

// Returns a text with a line of `count` bytes and a line of one byte.
fn long_text(alloc: Global, count: usize) -> Result<Vec<u8>, AllocError> {
    let mut text = Vec::new(alloc);
    text.resize(count, b'x')?;
    text.extend_from_slice(b"\r\ny")?;
    Ok(text)
}

#[test]
fn reads_a_line_longer_than_a_piece(rt: HostRuntime) -> Result<(), AllocError> {
    let alloc = rt.alloc();
    let text = long_text(alloc, 200_000)?;
    check_long(&rt, alloc, text.as_slice())
}

// A line of 16 MiB is read, if there is memory for it.
#[test]
fn reads_a_line_of_many_pieces(rt: HostRuntime) -> Result<(), AllocError> {
    let alloc = rt.alloc();
    let text = long_text(alloc, 16_777_216)?;
    check_long(&rt, alloc, text.as_slice())
}

fn check_long(rt: &impl Abort, alloc: Global, bytes: &[u8]) -> Result<(), AllocError> {
    let files = [NamedBytes { name: NAME, bytes }];
    check_pieces(rt, alloc, &files, 4_096, bytes)?;
    check_pieces(rt, alloc, &files, 1_000_000, bytes)
}

// Checks that the source counts one failure if one of its calls fails, and that no line follows.
// Returns whether no call failed.
fn check_counted(
    rt: &impl Abort,
    alloc: Global,
    source: &mut MemoryFiles<'_>,
) -> Result<bool, AllocError> {
    let checked = check_file(rt, alloc, source, NAME, TEXT);
    if checked == Err(SourceFault::Memory) {
        return Err(AllocError);
    }
    let is_whole = checked.is_ok();
    assert!(rt; source.failures() == if is_whole { 0 } else { 1 });
    Ok(is_whole)
}

fn check_failure(rt: &impl Abort, alloc: Global, fail_at: u64) -> Result<bool, AllocError> {
    let files = files();
    let mut source = MemoryFiles::new(alloc, &files, 7, fail_at);
    check_counted(rt, alloc, &mut source)
}

#[test]
fn answers_each_failure(rt: HostRuntime) -> Result<(), AllocError> {
    let mut failed = 0u64;
    for fail_at in 1..100 {
        if check_failure(&rt, rt.alloc(), fail_at)? {
            break;
        }
        failed = fail_at;
    }
    // one call opens the file, four read its 27 bytes, and two find its end
    assert_eq!(&rt; failed, 7);
    Ok(())
}

fn are_names_of(names: &[String], files: &[NamedBytes<'_>]) -> bool {
    names.len() == 3
        && names
            .iter()
            .zip(files)
            .all(|(name, file)| name.as_str() == file.name)
}

// Checks the names of the files.
fn check_names(rt: &impl Abort, source: &mut MemoryFiles<'_>) -> Result<(), SourceFault> {
    let names = source.list()?;
    assert!(rt; are_names_of(&names, &files()));
    Ok(())
}

#[test]
fn lists_names(rt: HostRuntime) -> Result<(), AllocError> {
    let files = files();
    let mut source = MemoryFiles::new(rt.alloc(), &files, 1, 0);
    but_for_memory(&rt, check_names(&rt, &mut source))?;
    assert!(&rt; source.failures() == 0);
    Ok(())
}

fn fails_at_another_name(source: &mut MemoryFiles<'_>) -> bool {
    source.open(NAME) == Ok(())
        && source.open("lines.txt") == Err(SourceFault::Device)
        && source.failures() == 1
        && source.read(&mut [0; 4]) == Ok(0)
}

#[test]
fn fails_at_a_name_that_no_file_has(rt: HostRuntime) {
    let files = files();
    let mut source = MemoryFiles::new(rt.alloc(), &files, 1, 0);
    assert!(&rt; fails_at_another_name(&mut source));
    assert!(&rt; SourceFault::Device.number() == 1 && SourceFault::Memory.number() == 2);
}

fn fails_once(source: &mut MemoryFiles<'_>) -> bool {
    source.open(NAME) == Ok(())
        && source.list().is_err()
        && source.failures() == 1
        && source.open(NAME) == Ok(())
}

#[test]
fn fails_the_call_of_a_number(rt: HostRuntime) {
    let files = files();
    let mut source = MemoryFiles::new(rt.alloc(), &files, 1, 2);
    assert!(&rt; fails_once(&mut source));
}
