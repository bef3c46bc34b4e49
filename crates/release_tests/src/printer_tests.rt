//! Tests of complete printed texts.
ghost use Rattle.std.specs.Prelude.{◌≡◌, ◌≢◌};
ghost use Rattle.number_lists.specs.Rising.{IsRisingBelow};

use answer_printer::{print_answer, print_fault, print_load_fault, print_report};
use ecl_lexer::{Feature, QueryFault};
use idset::{ConceptSet, MixedSet, SortedSet, WordSet};
use release_files::NamedBytes;
use rf2_rows::{RowCause, RowFault};
use sctid::{IdFault, SctId};
use snapshot::{Limits, LoadFault, LoadSnapshot, Report, Snapshot};
use std::alloc::{AllocError, Global};
use std::process::Abort;
use std::test::Fail;

// The bytes of each vector before a text is appended to it.
const BEFORE: &[u8] = b"before\n";

// Four concepts in no order. Sorted as texts, their identifiers have another order than sorted as
// numbers.
const CONCEPTS: &[u8] = b"id\teffectiveTime\tactive\tmoduleId\tdefinitionStatusId\r\n\
1000004\t20240101\t1\t900000000000207008\t900000000000074008\r\n\
138875005\t20240101\t1\t900000000000207008\t900000000000074008\r\n\
101009\t20240101\t1\t900000000000207008\t900000000000074008\r\n\
100005\t20240101\t1\t900000000000207008\t900000000000074008\r\n";

// The names of three of the concepts, one of which is empty.
const DESCRIPTIONS: &[u8] =
    b"id\teffectiveTime\tactive\tmoduleId\tconceptId\tlanguageCode\ttypeId\tterm\tcaseSignificanceId\r\n\
101013\t20240101\t1\t900000000000207008\t100005\ten\t900000000000003001\tAlpha (finding)\t900000000000448009\r\n\
102018\t20240101\t1\t900000000000207008\t1000004\ten\t900000000000003001\t\t900000000000448009\r\n\
103011\t20240101\t1\t900000000000207008\t138875005\ten\t900000000000003001\tR\xc3\xb6\xc3\xb6t (test)\t900000000000448009\r\n";

// The answers with the first and the last concept, and with all concepts.
const ENDS: &[u8] =
    b"before\nOK 2\n100005 |Alpha (finding)|\n138875005 |R\xc3\xb6\xc3\xb6t (test)|\n";

const ALL: &[u8] =
    b"before\nOK 4\n100005 |Alpha (finding)|\n101009\n1000004 ||\n138875005 |R\xc3\xb6\xc3\xb6t (test)|\n";

// Returns the two files. It has no contract, so that proofs do not know their bytes.
fn files() -> [NamedBytes<'static>; 2] {
    [
        NamedBytes {
            name: "sct2_Concept_Snapshot_INT_20240101.txt",
            bytes: CONCEPTS,
        },
        NamedBytes {
            name: "sct2_Description_Snapshot-en_INT_20240101.txt",
            bytes: DESCRIPTIONS,
        },
    ]
}

// Loads the release of the two files.
fn loaded(rt: &impl Abort, alloc: Global) -> Result<Snapshot, AllocError> {
    match Snapshot::load(alloc, &files(), "en", Limits::standard()) {
        Ok(snapshot) => Ok(snapshot),
        Err(fault) => {
            assert!(rt; fault == LoadFault::Memory, "the release loads");
            Err(AllocError)
        }
    }
}

// Returns a vector with `BEFORE` to which the answer with `concepts` was appended.
fn answered<S: ConceptSet>(
    rt: &impl Abort,
    alloc: Global,
    snapshot: &Snapshot,
    concepts: &[u32],
) -> Result<Vec<u8>, AllocError>
    requires { IsRisingBelow 4 concepts.now }
{
    assert!(rt; snapshot.concept_count() == 4);
    let set = S::from_items(alloc, concepts, 4)?;
    let mut output = Vec::from_slice(alloc, BEFORE)?;
    print_answer(alloc, snapshot, &set, &mut output)?;
    Ok(output)
}

// Checks the answer with `concepts`.
fn check_answer<S: ConceptSet>(
    rt: &impl Abort,
    alloc: Global,
    snapshot: &Snapshot,
    concepts: &[u32],
    answer: &[u8],
) -> Result<(), AllocError>
    requires { IsRisingBelow 4 concepts.now }
{
    let output = answered::<S>(rt, alloc, snapshot, concepts)?;
    assert!(rt; output.as_slice() == answer);
    Ok(())
}

// Checks the answers of sets of concepts, in one form of set.
fn check_answers_of<S: ConceptSet>(
    rt: &impl Abort,
    alloc: Global,
    snapshot: &Snapshot,
) -> Result<(), AllocError> {
    check_answer::<S>(rt, alloc, snapshot, &[], b"before\nOK 0\n")?;
    check_answer::<S>(rt, alloc, snapshot, &[1], b"before\nOK 1\n101009\n")?;
    check_answer::<S>(rt, alloc, snapshot, &[0, 3], ENDS)?;
    check_answer::<S>(rt, alloc, snapshot, &[0, 1, 2, 3], ALL)
}

fn check_answers<S: ConceptSet>(rt: &impl Abort, alloc: Global) -> Result<(), AllocError> {
    match loaded(rt, alloc) {
        Ok(snapshot) => check_answers_and_drop::<S>(rt, alloc, snapshot),
        Err(AllocError) => Err(AllocError),
    }
}

fn check_answers_and_drop<S: ConceptSet>(
    rt: &impl Abort,
    alloc: Global,
    snapshot: Snapshot,
) -> Result<(), AllocError> {
    let done = check_answers_of::<S>(rt, alloc, &snapshot);
    drop(snapshot);
    done
}

#[test]
fn answers_of_sorted_sets(rt: HostRuntime) -> Result<(), Fail> {
    check_answers::<SortedSet>(&rt, rt.alloc())?;
    Ok(())
}

#[test]
fn answers_of_word_sets(rt: HostRuntime) -> Result<(), Fail> {
    check_answers::<WordSet>(&rt, rt.alloc())?;
    Ok(())
}

#[test]
fn answers_of_mixed_sets(rt: HostRuntime) -> Result<(), Fail> {
    check_answers::<MixedSet>(&rt, rt.alloc())?;
    Ok(())
}

// Returns the line that refuses a text.
fn refused(alloc: Global, fault: QueryFault) -> Result<Vec<u8>, AllocError>
    requires { fault ≢ QueryFault.Memory }
{
    let mut output = Vec::from_slice(alloc, BEFORE)?;
    print_fault(alloc, fault, &mut output)?;
    Ok(output)
}

// Checks the line that refuses a text.
fn check_refused(
    rt: &impl Abort,
    alloc: Global,
    fault: QueryFault,
    line: &[u8],
) -> Result<(), AllocError>
    requires { fault ≢ QueryFault.Memory }
{
    let output = refused(alloc, fault)?;
    assert!(rt; output.as_slice().strip_prefix(BEFORE) == Some(line));
    Ok(())
}

#[test]
fn refuses_texts(rt: HostRuntime) -> Result<(), Fail> {
    let alloc = rt.alloc();
    check_refused(&rt, alloc, QueryFault::Long, b"ERR long\n")?;
    check_refused(&rt, alloc, QueryFault::Utf8, b"ERR utf8\n")?;
    check_refused(&rt, alloc, QueryFault::Token(0), b"ERR token 0\n")?;
    check_refused(&rt, alloc, QueryFault::Token(12), b"ERR token 12\n")?;
    check_refused(&rt, alloc, QueryFault::Limit(65534), b"ERR limit 65534\n")?;
    check_refused(&rt, alloc, QueryFault::Depth, b"ERR depth\n")?;
    check_refused(&rt, alloc, QueryFault::Syntax, b"ERR syntax\n")?;
    Ok(())
}

#[test]
fn refuses_forms_that_are_not_read(rt: HostRuntime) -> Result<(), Fail> {
    let forms = [
        (Feature::Filter, b"ERR unsupported 12 filter\n".as_slice()),
        (Feature::History, b"ERR unsupported 12 history\n"),
        (Feature::Fields, b"ERR unsupported 12 fields\n"),
        (Feature::Identifier, b"ERR unsupported 12 identifier\n"),
        (Feature::Boolean, b"ERR unsupported 12 boolean\n"),
        (Feature::String, b"ERR unsupported 12 string\n"),
    ];
    check_forms(&rt, rt.alloc(), &forms)?;
    Ok(())
}

fn check_forms(
    rt: &impl Abort,
    alloc: Global,
    forms: &[(Feature, &[u8])],
) -> Result<(), AllocError> {
    for (feature, line) in forms {
        check_refused(rt, alloc, QueryFault::Unsupported(12, *feature), line)?;
    }
    Ok(())
}

// Returns the line that refuses a release of two files.
fn load_refused(alloc: Global, fault: &LoadFault) -> Result<Vec<u8>, AllocError> {
    let names = ["b", "c"];
    let mut output = Vec::from_slice(alloc, BEFORE)?;
    print_load_fault(alloc, *fault, &names, &mut output)?;
    Ok(output)
}

// Checks the line that refuses a release.
fn check_load_refused(
    rt: &impl Abort,
    alloc: Global,
    fault: &LoadFault,
    line: &[u8],
) -> Result<(), AllocError> {
    let output = load_refused(alloc, fault)?;
    assert!(rt; output.as_slice().strip_prefix(BEFORE) == Some(line));
    Ok(())
}

#[test]
fn refuses_releases(rt: HostRuntime) -> Result<(), Fail> {
    let alloc = rt.alloc();
    let none = LoadFault::NoConceptFile;
    check_load_refused(&rt, alloc, &none, b"REFUSED no-concept-file\n")?;
    let header = LoadFault::Header { file: 0 };
    check_load_refused(&rt, alloc, &header, b"REFUSED header b\n")?;
    let conflict = LoadFault::Conflict { file: 1, line: 13 };
    check_load_refused(&rt, alloc, &conflict, b"REFUSED conflict c 13\n")?;
    let unread = LoadFault::Device { file: Some(1) };
    check_load_refused(&rt, alloc, &unread, b"REFUSED device c\n")?;
    let unlisted = LoadFault::Device { file: None };
    check_load_refused(&rt, alloc, &unlisted, b"REFUSED device\n")?;
    let many = LoadFault::TooMany { file: 1, line: 12 };
    check_load_refused(&rt, alloc, &many, b"REFUSED too-many c 12\n")?;
    match SctId::parse(b"100005") {
        Ok(concept) => {
            let cycle = LoadFault::Cycle(concept);
            check_load_refused(&rt, alloc, &cycle, b"REFUSED cycle 100005\n")?;
        }
        Err(_) => assert!(rt; false, "an identifier"),
    }
    check_load_refused(&rt, alloc, &LoadFault::Memory, b"REFUSED memory\n")?;
    Ok(())
}

#[test]
fn tells_causes_of_rows(rt: HostRuntime) -> Result<(), Fail> {
    let causes = [
        (
            RowCause::Fields,
            0,
            b"REFUSED row c 2 0 fields\n".as_slice(),
        ),
        (
            RowCause::Id(IdFault::Length),
            1,
            b"REFUSED row c 2 1 id-length\n",
        ),
        (
            RowCause::Id(IdFault::Digit),
            1,
            b"REFUSED row c 2 1 id-digit\n",
        ),
        (
            RowCause::Id(IdFault::LeadingZero),
            1,
            b"REFUSED row c 2 1 id-zero\n",
        ),
        (
            RowCause::Id(IdFault::Partition),
            1,
            b"REFUSED row c 2 1 id-part\n",
        ),
        (
            RowCause::Id(IdFault::Check),
            1,
            b"REFUSED row c 2 1 id-check\n",
        ),
        (RowCause::Time, 2, b"REFUSED row c 2 2 time\n"),
        (RowCause::Active, 3, b"REFUSED row c 2 3 active\n"),
        (RowCause::Group, 7, b"REFUSED row c 2 7 group\n"),
        (RowCause::Value, 6, b"REFUSED row c 2 6 value\n"),
        (RowCause::Utf8, 8, b"REFUSED row c 2 8 utf8\n"),
        (RowCause::Uuid, 1, b"REFUSED row c 2 1 uuid\n"),
    ];
    check_causes(&rt, rt.alloc(), &causes)?;
    Ok(())
}

fn check_causes(
    rt: &impl Abort,
    alloc: Global,
    causes: &[(RowCause, u8, &[u8])],
) -> Result<(), AllocError> {
    for (cause, column, line) in causes {
        let fault = LoadFault::Row {
            file: 1,
            line: 2,
            fault: RowFault {
                cause: *cause,
                column: *column,
            },
        };
        check_load_refused(rt, alloc, &fault, line)?;
    }
    Ok(())
}

// The fault for a first file that can't be read.
const UNREAD: LoadFault = LoadFault::Device { file: Some(0) };

// Returns the line for a file that can't be read.
fn device_refused(alloc: Global, name: &str) -> Result<Vec<u8>, AllocError> {
    let mut output = Vec::from_slice(alloc, BEFORE)?;
    print_load_fault(alloc, UNREAD, &[name], &mut output)?;
    Ok(output)
}

// Checks the line for a file that can't be read.
fn check_device_refused(
    rt: &impl Abort,
    alloc: Global,
    name: &str,
    line: &[u8],
) -> Result<(), AllocError> {
    let output = device_refused(alloc, name)?;
    assert!(rt; output.as_slice().strip_prefix(BEFORE) == Some(line));
    Ok(())
}

#[test]
fn refuses_files(rt: HostRuntime) -> Result<(), Fail> {
    let alloc = rt.alloc();
    check_device_refused(&rt, alloc, "a/c.txt", b"REFUSED device a/c.txt\n")?;
    let controls = b"REFUSED device \\x00a\\x0ab\\x0d\\x1b[2J\\x1f ~\\x7f\xc3\xa4\n";
    check_device_refused(&rt, alloc, "\0a\nb\r\x1b[2J\x1f ~\x7f\u{e4}", controls)?;
    Ok(())
}

// Returns the printed report.
fn reported(alloc: Global, report: &Report) -> Result<Vec<u8>, AllocError> {
    let mut output = Vec::from_slice(alloc, BEFORE)?;
    print_report(alloc, report, &mut output)?;
    Ok(output)
}

#[test]
fn prints_reports(rt: HostRuntime) -> Result<(), Fail> {
    let report = Report {
        files: 5,
        concepts: 10,
        isa: 0,
        attributes: 1234567890,
        members: 2,
        names: 18446744073709551615,
        passed: 6,
    };
    let output = reported(rt.alloc(), &report)?;
    let text =
        b"before\nFILES 5\nCONCEPTS 10\nISA 0\nATTRIBUTES 1234567890\nMEMBERS 2\nNAMES 18446744073709551615\nPASSED 6\n".as_slice();
    assert!(rt; output.as_slice() == text);
    Ok(())
}
