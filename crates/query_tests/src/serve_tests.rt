//! Tests of serving: the words of the command line, reports, and releases that are refused.
use crate::test_release::{sample, sample_and, sample_with};
use crate::test_streams::{PieceInput, PieceOutput, ROOM};
use query_tool::{
    Mode, QueryInput, QueryOptions, Request, Status, WordFault, read_words, refuse_words, serve,
};
use release_files::{MemoryFiles, NamedBytes};
use std::alloc::{AllocError, Global};
use std::process::Abort;
use std::test::Fail;

// How many bytes a read of the source returns.
const PIECE: usize = 4_096;

const QUERY: &[u8] = b"<100005\n";

const ANSWER: &[u8] =
    b"OK 3\n101009 |Beta (finding)|\n102002 |Gamma (finding)|\n103007 |Delta (finding)|\n";

const PLAN: &[u8] = b"PLAN 4\ndescendants 4\n one 100005 0\n";

const REPORT: &[u8] =
    b"FILES 5\nCONCEPTS 10\nISA 10\nATTRIBUTES 9\nMEMBERS 2\nNAMES 10\nPASSED 6\n";

const DANISH: &[u8] =
    b"OK 3\n101009 |Beta (finding)|\n102002 |Gamma (finding)|\n103007 |Delta (fund)|\n";

// The report if the files repeat a row.
const LONGER_REPORT: &[u8] =
    b"FILES 5\nCONCEPTS 10\nISA 10\nATTRIBUTES 9\nMEMBERS 2\nNAMES 10\nPASSED 7\n";

// The report without the files of relationships and of concrete values.
const SHORT_REPORT: &[u8] =
    b"FILES 3\nCONCEPTS 10\nISA 0\nATTRIBUTES 0\nMEMBERS 2\nNAMES 10\nPASSED 3\n";

// How serving ends if the source has no file.
const NO_CONCEPT_FILE: Ended<'static> = (Status::ReleaseRefused, b"", b"REFUSED no-concept-file\n");

// The lines for files that can't be listed, and for a first file that can't be read.
const LISTING: &[u8] = b"REFUSED device\n";

const FIRST_FILE: &[u8] = b"REFUSED device der2_Refset_SimpleSnapshot_INT_20240101.txt\n";

// Names of a concept file and of a relationship file. They come after the names of the sample's
// files.
const CONCEPTS: &str = "xsct2_Concept_Snapshot_XX.txt";

const RELATIONSHIPS: &str = "xsct2_Relationship_Snapshot_XX.txt";

// The command `check` with ten folders.
const TEN_FOLDERS: [&str; 12] = [
    "hosecrag", "check", "1", "2", "3", "4", "5", "6", "7", "8", "9", "10",
];

// The command `explain` with ten folders.
const TEN_EXPLAINED: [&str; 12] = [
    "hosecrag", "explain", "1", "2", "3", "4", "5", "6", "7", "8", "9", "10",
];

// Words, and the mode, the folders and the language of the request that they make.
type Requested<'a> = (&'a [&'a str], Mode, &'a [&'a str], &'a str);

const REQUESTS: [Requested<'static>; 12] = [
    (&["hosecrag"], Mode::Sample, &[], "en"),
    (&["hosecrag", "query", "F"], Mode::Query, &["F"], "en"),
    (
        &["hosecrag", "query", "F", "G", "--lang", "da"],
        Mode::Query,
        &["F", "G"],
        "da",
    ),
    (
        &["hosecrag", "query", "--lang=da", "G", "F"],
        Mode::Query,
        &["G", "F"],
        "da",
    ),
    (
        &["hosecrag", "query", "F", "--lang", "da", "F"],
        Mode::Query,
        &["F", "F"],
        "da",
    ),
    (
        &["hosecrag", "query", "", "--lang", ""],
        Mode::Query,
        &[""],
        "",
    ),
    (
        &[
            "hosecrag",
            "query",
            "--limit",
            "004",
            "F",
            "--no-names",
            "--first",
            "2",
        ],
        Mode::QueryWith(QueryOptions {
            limit: 4,
            first: Some(2),
            names: false,
        }),
        &["F"],
        "en",
    ),
    (
        &["hosecrag", "query", "F", "--limit", "18446744073709551615"],
        Mode::QueryWith(QueryOptions {
            limit: u64::MAX,
            first: None,
            names: true,
        }),
        &["F"],
        "en",
    ),
    (
        &["hosecrag", "explain", "F", "G"],
        Mode::Explain,
        &["F", "G"],
        "en",
    ),
    (
        &["hosecrag", "describe", "F", "--lang", "da"],
        Mode::Describe,
        &["F"],
        "da",
    ),
    (
        &["hosecrag", "session", "F", "G"],
        Mode::Session,
        &["F", "G"],
        "en",
    ),
    (
        &["hosecrag", "check", "F", "G"],
        Mode::Check,
        &["F", "G"],
        "en",
    ),
];

// Whether the words are read as the request.
fn is_request(alloc: Global, row: Requested<'_>) -> bool {
    let (words, mode, folders, lang) = row;
    match read_words(alloc, words) {
        Ok(request) => {
            request.mode == mode
                && are_texts(request.folders.as_slice(), folders)
                && request.lang.as_str() == lang
        }
        Err(_) => false,
    }
}

#[test]
fn reads_words(rt: HostRuntime) {
    for row in REQUESTS {
        assert!(rt; is_request(rt.alloc(), row));
    }
    let nine = (&TEN_FOLDERS[..11], Mode::Check, &TEN_FOLDERS[2..11], "en");
    assert!(rt; is_request(rt.alloc(), nine));
}

fn are_texts(texts: &[String], wanted: &[&str]) -> bool {
    texts.len() == wanted.len()
        && texts
            .iter()
            .zip(wanted)
            .all(|(text, other)| text.as_str() == *other)
}

// Words that are not a request.
const NO_REQUESTS: [&[&str]; 10] = [
    &["hosecrag", "query"],
    &["hosecrag", "explain"],
    &["hosecrag", "describe"],
    &["hosecrag", "session", "F", "--first", "1"],
    &["hosecrag", "explain", "F", "--lang", "da"],
    &["hosecrag", "query", "F", "--lang"],
    &["hosecrag", "query", "--lang", "da"],
    &["hosecrag", "check"],
    &["hosecrag", "check", "F", "--lang", "da"],
    &["hosecrag", "--"],
];

// Words that ask for help, or for the version.
const HELPED: [&[&str]; 6] = [
    &["hosecrag", "--help"],
    &["hosecrag", "query", "-h"],
    &["hosecrag", "explain", "-h"],
    &["hosecrag", "check", "-h"],
    &["hosecrag", "--version"],
    &["hosecrag", "-V"],
];

#[test]
fn refuses_words(rt: HostRuntime) {
    for words in NO_REQUESTS {
        assert!(rt; matches!(read_words(rt.alloc(), words), Err(WordFault::Usage(_))));
    }
    for words in HELPED {
        assert!(rt; matches!(read_words(rt.alloc(), words), Err(WordFault::Help(_))));
    }
}

// Words, and what the text that they get has to name.
type Named<'a> = (&'a [&'a str], &'a [&'a str]);

const HELP: [Named<'static>; 5] = [
    (
        &["hosecrag", "--help"],
        &["query", "explain", "check", "--help", "--version"],
    ),
    (
        &["hosecrag", "query", "-h"],
        &[
            "FOLDER",
            "--lang",
            "CODE",
            "--limit",
            "VISITS",
            "--first",
            "--no-names",
            "--help",
        ],
    ),
    (&["hosecrag", "explain", "-h"], &["FOLDER", "--help"]),
    (&["hosecrag", "check", "-h"], &["FOLDER", "--help"]),
    (&["hosecrag", "--version"], &["hosecrag 0.1.0"]),
];

// Whether the help text for the words names all that it has to name.
fn is_helped(alloc: Global, row: Named<'_>) -> bool {
    match read_words(alloc, row.0) {
        Err(WordFault::Help(text)) => has_all(text.as_str(), row.1),
        _ => false,
    }
}

// The help for the program or for a command names each command, or each option of the command and
// its value.
#[test]
fn help_names_what_there_is(rt: HostRuntime) {
    for row in HELP {
        assert!(rt; is_helped(rt.alloc(), row));
    }
}

const WRONG: [Named<'static>; 16] = [
    (&["hosecrag", "qery"], &["qery"]),
    (&["hosecrag", "query", "F", "--land", "da"], &["--land"]),
    (&["hosecrag", "check", "F", "--lang", "da"], &["--lang"]),
    (&["hosecrag", "query", "F", "--lang"], &["--lang", "CODE"]),
    (&["hosecrag", "explain"], &["FOLDER"]),
    (
        &["hosecrag", "query", "F", "--limit"],
        &["--limit", "VISITS"],
    ),
    (&["hosecrag", "query", "F", "--limit", "-1"], &["--limit"]),
    (
        &["hosecrag", "query", "F", "--limit", "1e6"],
        &["--limit", "1e6"],
    ),
    (
        &["hosecrag", "query", "F", "--limit", "+5"],
        &["--limit", "+5"],
    ),
    (
        &["hosecrag", "query", "F", "--first", "111111111111111111111"],
        &["--first"],
    ),
    (
        &["hosecrag", "query", "F", "--first", "18446744073709551616"],
        &["--first"],
    ),
    (
        &["hosecrag", "query", "F", "--first", "1", "--first", "2"],
        &["--first"],
    ),
    (
        &["hosecrag", "query", "F", "--no-names", "--no-names"],
        &["--no-names"],
    ),
    (&["hosecrag", "explain", "F", "--first", "1"], &["--first"]),
    (&["hosecrag", "check", "F", "--limit", "1"], &["--limit"]),
    (&["hosecrag", "--"], &["query", "explain", "check"]),
];

// Whether the text for wrong words names the wrong word, or what is missing.
fn is_named(alloc: Global, row: Named<'_>) -> bool {
    match read_words(alloc, row.0) {
        Err(WordFault::Usage(text)) => has_all(text.as_str(), row.1),
        _ => false,
    }
}

// The text for wrong words names the wrong word, or what is missing.
#[test]
fn wrong_words_are_named(rt: HostRuntime) {
    for row in WRONG {
        assert!(rt; is_named(rt.alloc(), row));
    }
}

// Whether a text contains each of `names`.
fn has_all(text: &str, names: &[&str]) -> bool {
    names.iter().all(|name| text.contains(*name))
}

#[test]
fn refuses_ten_folders(rt: HostRuntime) {
    for words in [TEN_FOLDERS, TEN_EXPLAINED] {
        match read_words(rt.alloc(), &words) {
            Err(WordFault::Usage(text)) => assert!(rt; text.as_str() == "at most 9 folders\n"),
            _other => assert!(rt; false, "ten folders"),
        }
    }
}

// How serving ends: the status, and the bytes written to the output and to the errors.
type Ended<'a> = (Status, &'a [u8], &'a [u8]);

// Whether serving a request ends with `ended`, if the output takes `room` bytes before it fails;
// and whether `check` reads no input.
fn is_served(
    alloc: Global,
    request: &Request,
    source: &mut MemoryFiles<'_>,
    lines: &[u8],
    room: usize,
    ended: Ended<'_>,
) -> bool {
    let mut input = PieceInput::new(lines, ROOM, usize::MAX);
    let mut output = PieceOutput::new(alloc, ROOM, room);
    let mut errors = PieceOutput::new(alloc, ROOM, ROOM);
    let status = serve(alloc, request, source, &mut input, &mut output, &mut errors);
    status == ended.0
        && output.bytes.as_slice() == ended.1
        && errors.bytes.as_slice() == ended.2
        && (request.mode != Mode::Check || input.reads() == 0)
}

// Returns a request without folders.
fn asked(alloc: Global, mode: Mode, lang: &str) -> Result<Request, AllocError> {
    Ok(Request {
        mode,
        folders: Vec::new(alloc),
        lang: String::from_str(alloc, lang)?,
    })
}

// Checks how serving files ends, if call number `fail_at` of the source fails; with 0 none fails.
fn check_served(
    rt: &impl Abort,
    alloc: Global,
    asked: Result<Request, AllocError>,
    files: &[NamedBytes<'_>],
    fail_at: u64,
    room: usize,
    ended: Ended<'_>,
) -> Result<(), AllocError> {
    match asked {
        Ok(request) => {
            let mut source = MemoryFiles::new(alloc, files, PIECE, fail_at);
            assert!(rt; is_served(alloc, &request, &mut source, QUERY, room, ended));
            Ok(())
        }
        Err(AllocError) => Err(AllocError),
    }
}

// Checks how answering over files ends, if names in `lang` are preferred.
fn check_query(
    rt: &impl Abort,
    alloc: Global,
    lang: &str,
    files: &[NamedBytes<'_>],
    ended: Ended<'_>,
) -> Result<(), AllocError> {
    let asked = asked(alloc, Mode::Query, lang);
    check_served(rt, alloc, asked, files, 0, ROOM, ended)
}

// Checks how reporting on files ends, if the output takes `room` bytes before it fails.
fn check_report(
    rt: &impl Abort,
    alloc: Global,
    files: &[NamedBytes<'_>],
    room: usize,
    ended: Ended<'_>,
) -> Result<(), AllocError> {
    let asked = asked(alloc, Mode::Check, "en");
    check_served(rt, alloc, asked, files, 0, room, ended)
}

// Checks how explaining a query over files ends.
fn check_explained(
    rt: &impl Abort,
    alloc: Global,
    files: &[NamedBytes<'_>],
    ended: Ended<'_>,
) -> Result<(), AllocError> {
    let asked = asked(alloc, Mode::Explain, "en");
    check_served(rt, alloc, asked, files, 0, ROOM, ended)
}

#[test]
fn serves_releases(rt: HostRuntime) -> Result<(), Fail> {
    let alloc = rt.alloc();
    let own = asked(alloc, Mode::Sample, "en");
    check_served(&rt, alloc, own, &[], 0, ROOM, (Status::Done, ANSWER, b""))?;
    check_query(&rt, alloc, "en", &sample(), (Status::Done, ANSWER, b""))?;
    check_query(&rt, alloc, "da", &sample(), (Status::Done, DANISH, b""))?;
    check_explained(&rt, alloc, &sample(), (Status::Done, PLAN, b""))?;
    check_explained(&rt, alloc, &[], NO_CONCEPT_FILE)?;
    Ok(())
}

#[test]
fn reports_releases(rt: HostRuntime) -> Result<(), Fail> {
    let alloc = rt.alloc();
    check_report(&rt, alloc, &sample(), ROOM, (Status::Done, REPORT, b""))?;
    check_report(
        &rt,
        alloc,
        &sample()[..3],
        ROOM,
        (Status::Done, SHORT_REPORT, b""),
    )?;
    let cut = (
        Status::DeviceFault,
        b"FILES 5\nCO".as_slice(),
        b"FAULT write\n".as_slice(),
    );
    check_report(&rt, alloc, &sample(), 10, cut)?;
    check_report(&rt, alloc, &[], ROOM, NO_CONCEPT_FILE)?;
    Ok(())
}

// How many bytes are cut from the end of the sample's concept file, and how reporting on it ends
// then.
const CUTS: [(usize, Ended<'static>); 4] = [
    (
        usize::MAX,
        (
            Status::ReleaseRefused,
            b"",
            b"REFUSED header sct2_Concept_Snapshot_INT_20240101.txt\n",
        ),
    ),
    // cut are the last LF, and the CR before it
    (1, (Status::Done, REPORT, b"")),
    (2, (Status::Done, REPORT, b"")),
    (
        3,
        (
            Status::ReleaseRefused,
            b"",
            b"REFUSED row sct2_Concept_Snapshot_INT_20240101.txt 12 5 id-part\n",
        ),
    ),
];

// Checks how reporting on the sample ends, if the file at index `place` has other bytes.
fn check_changed(
    rt: &impl Abort,
    alloc: Global,
    place: usize,
    bytes: &[u8],
    ended: Ended<'_>,
) -> Result<(), AllocError> {
    match sample_with(alloc, place, bytes) {
        Ok(files) => check_report(rt, alloc, files.as_slice(), ROOM, ended),
        Err(AllocError) => Err(AllocError),
    }
}

fn check_cuts(
    rt: &impl Abort,
    alloc: Global,
    whole: &[u8],
    cuts: &[(usize, Ended<'_>)],
) -> Result<(), AllocError> {
    for (count, ended) in cuts {
        let left = whole.len().saturating_sub(*count);
        check_changed(rt, alloc, 1, &whole[..left], *ended)?;
    }
    Ok(())
}

// Checks the report on the sample if the file of relationships repeats its first row at the end.
fn check_repeated(rt: &impl Abort, alloc: Global, whole: &[u8]) -> Result<(), AllocError> {
    let ended = (Status::Done, LONGER_REPORT, b"".as_slice());
    match with_repeated_row(alloc, whole) {
        Ok(repeated) => check_changed(rt, alloc, 4, repeated.as_slice(), ended),
        Err(AllocError) => Err(AllocError),
    }
}

// Returns the sample's relationships with the first row repeated at the end.
fn with_repeated_row(alloc: Global, whole: &[u8]) -> Result<Vec<u8>, AllocError> {
    let mut bytes = Vec::from_slice(alloc, whole)?;
    bytes.extend_from_slice(REPEATED)?;
    Ok(bytes)
}

const REPEATED: &[u8] =
    b"100022\t20240101\t1\t900000000000207008\t100005\t138875005\t0\t116680003\t\
900000000000011006\t900000000000451002\r\n";

// Checks reports on a file that is cut, and on a file with a repeated row, which counts once.
#[test]
fn reports_cut_and_repeated_rows(rt: HostRuntime) -> Result<(), Fail> {
    let [_, concepts, _, _, relationships] = sample();
    check_cuts(&rt, rt.alloc(), concepts.bytes, &CUTS)?;
    check_repeated(&rt, rt.alloc(), relationships.bytes)?;
    Ok(())
}

// Appends a text `count` times.
fn push_times(lines: &mut Vec<u8>, text: &[u8], count: usize) -> Result<(), AllocError> {
    for _ in 0..count {
        lines.extend_from_slice(text)?;
    }
    Ok(())
}

// Appends lines that an attacker would send: braces and brackets as deep as allowed and deeper, a
// line with several reasons to be refused, a long line that is not UTF-8, and numbers that are too
// long.
fn push_hostile_lines(lines: &mut Vec<u8>) -> Result<(), AllocError> {
    lines.extend_from_slice(b"*:")?;
    push_times(lines, b"{ ", 64)?;
    lines.extend_from_slice(b"\n*:")?;
    push_times(lines, b"{ ", 65)?;
    lines.push(b'\n')?;
    push_times(lines, b"(", 65)?;
    lines.extend_from_slice(b"?\n?\xff\n")?;
    push_times(lines, b"\xff", 65_536)?;
    lines.extend_from_slice(
        b"\n*:105000=#1234567890123456789\n*:105000=#0.0000000000000000001\n*:105000=#-02\n",
    )
}

const REFUSALS: &[u8] = b"ERR syntax\nERR depth\nERR token 65\nERR utf8\nERR long\n\
ERR limit 9\nERR limit 9\nERR token 9\n";

// Checks that each of the lines is refused.
fn check_hostile(rt: &impl Abort, alloc: Global, lines: &[u8]) -> Result<(), AllocError> {
    match asked(alloc, Mode::Query, "en") {
        Ok(request) => {
            let files = sample();
            let mut source = MemoryFiles::new(alloc, &files, PIECE, 0);
            let ended = (Status::Done, REFUSALS, b"".as_slice());
            assert!(rt; is_served(alloc, &request, &mut source, lines, ROOM, ended));
            Ok(())
        }
        Err(AllocError) => Err(AllocError),
    }
}

#[test]
fn refuses_hostile_lines(rt: HostRuntime) -> Result<(), Fail> {
    let mut lines = Vec::new(rt.alloc());
    push_hostile_lines(&mut lines)?;
    check_hostile(&rt, rt.alloc(), lines.as_slice())?;
    Ok(())
}

// Checks that the sample release with one more file is refused, and the line that says why.
fn check_refused(
    rt: &impl Abort,
    alloc: Global,
    name: &str,
    bytes: &[u8],
    line: &[u8],
) -> Result<(), AllocError> {
    match sample_and(alloc, name, bytes) {
        Ok(files) => check_query(
            rt,
            alloc,
            "en",
            files.as_slice(),
            (Status::ReleaseRefused, b"", line),
        ),
        Err(AllocError) => Err(AllocError),
    }
}

// The name and the bytes of the additional file, and the line that refuses the release.
const REFUSED: [(&str, &[u8], &[u8]); 7] = [
    (
        CONCEPTS,
        b"id\teffectiveTime\tactive\tmoduleId\tdefinitionStatusId\r\n100006\t20240101\t1\t900000000000207008\t900000000000074008\r\n",
        b"REFUSED row xsct2_Concept_Snapshot_XX.txt 2 1 id-check\n",
    ),
    (
        CONCEPTS,
        b"id\teffectiveTime\tactive\tmoduleId\tdefinitionStatusId\r\n100005\t20240101\t0\t900000000000207008\t900000000000074008\r\n",
        b"REFUSED conflict xsct2_Concept_Snapshot_XX.txt 2\n",
    ),
    (
        CONCEPTS,
        b"id\teffectiveTime\tactive\tmoduleId\r\n",
        b"REFUSED header xsct2_Concept_Snapshot_XX.txt\n",
    ),
    (
        CONCEPTS,
        b"id\teffectiveTime\tactive\tmoduleId\tdefinitionStatusId\r\n109006\t20240101\t",
        b"REFUSED row xsct2_Concept_Snapshot_XX.txt 2 0 fields\n",
    ),
    (
        RELATIONSHIPS,
        b"id\teffectiveTime\tactive\tmoduleId\tsourceId\tdestinationId\trelationshipGroup\ttypeId\tcharacteristicTypeId\tmodifierId\r\n122026\t20240101\t1\t900000000000207008\t100005\t103007\t0\t116680003\t900000000000011006\t900000000000451002\r\n",
        b"REFUSED cycle 100005\n",
    ),
    (
        RELATIONSHIPS,
        b"id\teffectiveTime\tactive\tmoduleId\tsourceId\tdestinationId\trelationshipGroup\ttypeId\tcharacteristicTypeId\tmodifierId\r\n122026\t20240101\t1\t900000000000207008\t100005\t100005\t0\t116680003\t900000000000011006\t900000000000451002\r\n",
        b"REFUSED cycle 100005\n",
    ),
    // the root as its own parent: its descendants are in no cycle, so the line names the root
    (
        RELATIONSHIPS,
        b"id\teffectiveTime\tactive\tmoduleId\tsourceId\tdestinationId\trelationshipGroup\ttypeId\tcharacteristicTypeId\tmodifierId\r\n122026\t20240101\t1\t900000000000207008\t138875005\t138875005\t0\t116680003\t900000000000011006\t900000000000451002\r\n",
        b"REFUSED cycle 138875005\n",
    ),
];

fn check_all_refused(
    rt: &impl Abort,
    alloc: Global,
    files: &[(&str, &[u8], &[u8])],
) -> Result<(), AllocError> {
    for (name, bytes, line) in files {
        check_refused(rt, alloc, name, bytes, line)?;
    }
    Ok(())
}

#[test]
fn refuses_releases(rt: HostRuntime) -> Result<(), Fail> {
    check_all_refused(&rt, rt.alloc(), &REFUSED)?;
    check_query(&rt, rt.alloc(), "en", &[], NO_CONCEPT_FILE)?;
    Ok(())
}

#[test]
fn ends_with_its_status(rt: HostRuntime) {
    assert!(rt; Status::Done.code() == 0 && Status::DeviceFault.code() == 1);
    assert!(rt; Status::WordsFault.code() == 2 && Status::ReleaseRefused.code() == 3);
    assert!(rt; Status::MemoryRefused.code() == 4);
}

// Whether words that are not a request end with `ended`, if the output takes `until_failure` bytes
// before it fails.
fn is_refused(alloc: Global, fault: &WordFault, until_failure: usize, ended: Ended<'_>) -> bool {
    let mut output = PieceOutput::new(alloc, ROOM, until_failure);
    let mut errors = PieceOutput::new(alloc, ROOM, ROOM);
    let status = refuse_words(fault, &mut output, &mut errors);
    status == ended.0 && output.bytes.as_slice() == ended.1 && errors.bytes.as_slice() == ended.2
}

// Checks that help and version go to the output, and that a failure of the output is reported on
// the errors.
#[test]
fn writes_what_is_called_for(rt: HostRuntime) -> Result<(), Fail> {
    let alloc = rt.alloc();
    let help = WordFault::Help(String::from_str(alloc, "how it is used\n")?);
    let whole = (Status::Done, b"how it is used\n".as_slice(), b"".as_slice());
    let cut = (
        Status::DeviceFault,
        b"how".as_slice(),
        b"FAULT write\n".as_slice(),
    );
    assert!(rt; is_refused(alloc, &help, ROOM, whole) && is_refused(alloc, &help, 3, cut));
    Ok(())
}

// Checks that wrong words are reported on the errors.
#[test]
fn tells_of_wrong_words(rt: HostRuntime) -> Result<(), Fail> {
    let alloc = rt.alloc();
    let usage = WordFault::Usage(String::from_str(alloc, "no command\n")?);
    let told = (
        Status::WordsFault,
        b"".as_slice(),
        b"no command\n".as_slice(),
    );
    assert!(rt; is_refused(alloc, &usage, ROOM, told));
    let memory = (
        Status::MemoryRefused,
        b"".as_slice(),
        b"FAULT memory\n".as_slice(),
    );
    assert!(rt; is_refused(alloc, &WordFault::Memory, ROOM, memory));
    Ok(())
}

// Checks that serving the sample ends with a device fault and the line `line`, if call number
// `fail_at` of the source fails.
fn check_failed(
    rt: &impl Abort,
    alloc: Global,
    mode: Mode,
    fail_at: u64,
    line: &[u8],
) -> Result<(), AllocError> {
    let asked = asked(alloc, mode, "en");
    let ended = (Status::DeviceFault, b"".as_slice(), line);
    check_served(rt, alloc, asked, &sample(), fail_at, ROOM, ended)
}

// The first call of the source lists the files, the second opens the first file, and the later
// calls read it.
fn check_devices(rt: &impl Abort, alloc: Global) -> Result<(), AllocError> {
    check_failed(rt, alloc, Mode::Query, 1, LISTING)?;
    check_failed(rt, alloc, Mode::Check, 1, LISTING)?;
    check_failed(rt, alloc, Mode::Explain, 1, LISTING)?;
    check_failed(rt, alloc, Mode::Query, 2, FIRST_FILE)?;
    check_failed(rt, alloc, Mode::Query, 3, FIRST_FILE)?;
    check_failed(rt, alloc, Mode::Check, 2, FIRST_FILE)
}

#[test]
fn tells_of_a_device(rt: HostRuntime) -> Result<(), Fail> {
    check_devices(&rt, rt.alloc())?;
    Ok(())
}
