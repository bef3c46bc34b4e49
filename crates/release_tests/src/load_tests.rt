//! Tests of loading the sample release with one change, and releases that are made for a test.
use arrayvec::ArrayVec;
use bstr::ByteSlice;
use release_files::NamedBytes;
use rf2_rows::{FileKind, RowCause, RowFault, file_kind};
use sample_release::sample_files;
use sctid::{IdFault, Part, SctId};
use snapshot::{Limits, LoadFault, LoadSnapshot, Report, Snapshot};
use std::alloc::{AllocError, Global};
use std::process::Abort;
use std::test::Fail;

/// The index of the file of members among the sample's files.
pub const MEMBERS: usize = 0;

// The indexes of the other files.
const CONCEPTS: usize = 1;

const DESCRIPTIONS: usize = 2;

const CONCRETE_VALUES: usize = 3;

/// The index of the file of relationships among the sample's files.
pub const RELATIONSHIPS: usize = 4;

/// The name of the sample's concept file.
pub const NAME: &str = "sct2_Concept_Snapshot_INT_20240101.txt";

const HEADER: &[u8] = b"id\teffectiveTime\tactive\tmoduleId\tdefinitionStatusId\r\n";

const CONCEPT_REST: &[u8] = b"\t20240101\t1\t900000000000207008\t900000000000074008\r\n";

/// The name of the sample's relationship file.
pub const RELATIONSHIP_NAME: &str = "sct2_Relationship_Snapshot_INT_20240101.txt";

const RELATIONSHIP_HEADER: &[u8] =
    b"id\teffectiveTime\tactive\tmoduleId\tsourceId\tdestinationId\trelationshipGroup\ttypeId\tcharacteristicTypeId\tmodifierId\r\n";

const ISA_REST: &[u8] = b"\t0\t116680003\t900000000000011006\t900000000000451002\r\n";

/// Returns the files of the sample release. It has no contract, so that proofs do not know their
/// bytes.
pub fn sample() -> [NamedBytes<'static>; 5] {
    sample_files()
}

/// Returns `bytes` with the first occurrence of `from` replaced.
pub fn replaced(
    alloc: Global,
    bytes: &[u8],
    from: &[u8],
    to: &[u8],
) -> Result<Vec<u8>, AllocError> {
    let mut changed = Vec::new(alloc);
    match bytes.split_once_str(from) {
        Some((before, after)) => {
            changed.extend_from_slice(before)?;
            changed.extend_from_slice(to)?;
            changed.extend_from_slice(after)?;
        }
        None => changed.extend_from_slice(bytes)?,
    }
    Ok(changed)
}

/// Returns the sample's files, where the file at an index has other bytes.
pub fn sample_with(
    alloc: Global,
    place: usize,
    changed: &[u8],
) -> Result<Vec<NamedBytes<'_>>, AllocError> {
    let mut files = Vec::new(alloc);
    for (at, named) in sample().iter().enumerate() {
        let bytes = if at == place { changed } else { named.bytes };
        files.push(NamedBytes {
            name: named.name,
            bytes,
        })?;
    }
    Ok(files)
}

// Returns the fault of a load, or `None` if the files load.
fn fault_of(alloc: Global, files: &[NamedBytes<'_>], limits: Limits) -> Option<LoadFault> {
    Snapshot::load(alloc, files, "en", limits).err()
}

// Returns the fault of loading the sample with the first occurrence of `from` in one file replaced.
fn fault_with(
    alloc: Global,
    place: usize,
    from: &[u8],
    to: &[u8],
) -> Result<Option<LoadFault>, AllocError> {
    let sample = sample();
    let Some(named) = sample.get(place) else {
        return Ok(None);
    };
    let changed = replaced(alloc, named.bytes, from, to)?;
    let files = sample_with(alloc, place, changed.as_slice())?;
    Ok(fault_of(alloc, files.as_slice(), Limits::standard()))
}

fn id(rt: &impl Abort, text: &[u8]) -> SctId {
    match SctId::parse(text) {
        Ok(id) => id,
        Err(_) => panic!(rt; "an identifier"),
    }
}

// Checks which texts are identifiers, and which names are those of files.
#[test]
fn reads_identifiers_and_names(rt: HostRuntime) {
    let texts = [
        (b"100005".as_slice(), Ok(Part::Concept)),
        (b"10000", Err(IdFault::Length)),
        (b"10000a", Err(IdFault::Digit)),
        (b"010005", Err(IdFault::LeadingZero)),
        (b"100035", Err(IdFault::Partition)),
        (b"100105", Err(IdFault::Partition)),
        (b"100006", Err(IdFault::Check)),
    ];
    for (text, want) in texts {
        let part = match SctId::parse(text) {
            Ok(id) => Ok(id.part()),
            Err(fault) => Err(fault),
        };
        assert!(rt; part == want, "{text:?}");
    }
    let mut digits = ArrayVec::new();
    id(&rt, b"138875005").write_to(&mut digits);
    assert!(rt; digits.as_slice() == b"138875005".as_slice());
    let kind = file_kind("a/sct2_Concept_XYSnapshot_XY_20240101.txt");
    assert!(rt; kind == Some(FileKind::Concept));
    assert!(rt; file_kind("sct2_Concept_Delta_INT_20240101.txt").is_none());
}

#[test]
fn refuses_changed_loads(rt: HostRuntime) -> Result<(), Fail> {
    let row = |file, line, cause, column| {
        Some(LoadFault::Row {
            file,
            line,
            fault: RowFault { cause, column },
        })
    };
    let changed = [
        (
            CONCEPTS,
            b"138875005\t".as_slice(),
            b"100006\t".as_slice(),
            row(1, 2, RowCause::Id(IdFault::Check), 1),
        ),
        (
            CONCEPTS,
            b"109006\t20240101\t0\t900000000000207008\t900000000000074008\r\n",
            b"109006\t20240101\t0\t900000000000207008\t900000000000074008\r\n100005\t20240101\t0\t900000000000207008\t900000000000074008\r\n",
            Some(LoadFault::Conflict { file: 1, line: 13 }),
        ),
        (
            CONCEPTS,
            b"\tmoduleId\tdefinitionStatusId",
            b"\tmoduleId",
            Some(LoadFault::Header { file: 1 }),
        ),
        (
            CONCEPTS,
            b"109006\t20240101\t0\t900000000000207008\t900000000000074008\r\n",
            b"109006\t20240101\t",
            row(1, 12, RowCause::Fields, 0),
        ),
        (
            RELATIONSHIPS,
            b"121022\t",
            b"122026\t20240101\t1\t900000000000207008\t100005\t103007\t0\t116680003\t900000000000011006\t900000000000451002\r\n121022\t",
            Some(LoadFault::Cycle(id(&rt, b"100005"))),
        ),
        (
            RELATIONSHIPS,
            b"121022\t",
            b"122026\t20240101\t1\t900000000000207008\t138875005\t138875005\t0\t116680003\t900000000000011006\t900000000000451002\r\n121022\t",
            Some(LoadFault::Cycle(id(&rt, b"138875005"))),
        ),
        (
            DESCRIPTIONS,
            b"\tBeta (finding)\t",
            b"\tBeta \xFF\t",
            row(2, 4, RowCause::Utf8, 8),
        ),
        (
            DESCRIPTIONS,
            b"101013\t20240101\t1\t",
            b"100014\t20240101\t0\t",
            Some(LoadFault::Conflict { file: 2, line: 3 }),
        ),
        (
            DESCRIPTIONS,
            b"\tterm\t",
            b"\tTerm\t",
            Some(LoadFault::Header { file: 2 }),
        ),
        (
            MEMBERS,
            b"00000000-0000-4000-8000-000000000001",
            b"g0000000-0000-4000-8000-000000000001",
            row(0, 2, RowCause::Uuid, 1),
        ),
        (
            MEMBERS,
            b"00000000-0000-4000-8000-000000000002",
            b"00000000-0000-4000-8000-000000000001",
            Some(LoadFault::Conflict { file: 0, line: 3 }),
        ),
        (
            MEMBERS,
            b"\treferencedComponentId",
            b"\treferencedComponentId\tvalueId",
            Some(LoadFault::Header { file: 0 }),
        ),
        (
            CONCRETE_VALUES,
            b"\t#2.5\t",
            b"\t#1.\t",
            row(3, 2, RowCause::Value, 6),
        ),
        (
            CONCRETE_VALUES,
            b"117026\t20240101\t1\t",
            b"114022\t20240101\t0\t",
            Some(LoadFault::Conflict { file: 3, line: 3 }),
        ),
        (CONCEPTS, b"", b"", None),
        // a member may be a component of another partition, and a concrete value may have the
        // identifier of a relationship
        (MEMBERS, b"\t109006\r\n", b"\t100014\r\n", None),
        (CONCRETE_VALUES, b"114022\t", b"100022\t", None),
        // an |Is a| among the concrete values is no is-a row, so it can't make a cycle
        (CONCRETE_VALUES, b"\t105000\t", b"\t116680003\t", None),
    ];
    assert_faults(&rt, rt.alloc(), &changed)
}

// A change of the sample: the index of the file, the bytes that are replaced, the bytes in their
// place, and the fault of the load.
type Change<'a> = (usize, &'a [u8], &'a [u8], Option<LoadFault>);

fn assert_faults(rt: &impl Abort, alloc: Global, changes: &[Change<'_>]) -> Result<(), Fail> {
    for (place, from, to, want) in changes {
        let fault = fault_with(alloc, *place, from, to)?;
        assert!(rt; fault == *want, "{fault:?} in place of {want:?}");
    }
    Ok(())
}

#[test]
fn keeps_to_limits_and_names(rt: HostRuntime) {
    let mut limits = Limits::standard();
    limits.concepts = 10;
    let many = fault_of(rt.alloc(), &sample(), limits);
    assert!(rt; many == Some(LoadFault::TooMany { file: 1, line: 12 }));
    limits.concepts = 11;
    assert!(rt; fault_of(rt.alloc(), &sample(), limits).is_none());
    limits.descriptions = 10;
    let many = fault_of(rt.alloc(), &sample(), limits);
    assert!(rt; many == Some(LoadFault::TooMany { file: 2, line: 12 }));
    limits.descriptions = 11;
    assert!(rt; fault_of(rt.alloc(), &sample(), limits).is_none());
    limits.concrete = 1;
    let many = fault_of(rt.alloc(), &sample(), limits);
    assert!(rt; many == Some(LoadFault::TooMany { file: 3, line: 3 }));
    limits.concrete = 2;
    limits.members = 2;
    let many = fault_of(rt.alloc(), &sample(), limits);
    assert!(rt; many == Some(LoadFault::TooMany { file: 0, line: 4 }));
    limits.members = 3;
    assert!(rt; fault_of(rt.alloc(), &sample(), limits).is_none());
    let files = sample();
    let none = fault_of(rt.alloc(), &files[2..], Limits::standard());
    assert!(rt; none == Some(LoadFault::NoConceptFile));
}

// The part of the loaded sample that a test checks.
#[derive(Clone, Copy)]
enum Look<'a> {
    Numbers,
    Concepts,
    Hierarchy,
    Lines(&'a [&'a str]),
}

// Loads the sample with names in `language` preferred, and calls a check on it. It does little
// else, because a function that owns a snapshot is slow to prove.
fn look_at_sample(
    rt: &impl Abort,
    alloc: Global,
    language: &str,
    look: Look<'_>,
) -> Result<(), LoadFault> {
    let snapshot = Snapshot::load(alloc, &sample(), language, Limits::standard())?;
    match look {
        Look::Numbers => assert_numbers(rt, &snapshot),
        Look::Concepts => assert_concepts(rt, &snapshot),
        Look::Hierarchy => assert_hierarchy(rt, &snapshot),
        Look::Lines(lines) => assert_lines(rt, &snapshot, lines),
    }
    Ok(())
}

#[test]
fn numbers_concepts(rt: HostRuntime) -> Result<(), LoadFault> {
    look_at_sample(&rt, rt.alloc(), "en", Look::Numbers)
}

fn assert_numbers(rt: &impl Abort, snapshot: &Snapshot) {
    assert!(rt; snapshot.concept_count() == 10);
    assert!(rt; snapshot.index_of(103007) == Some(3) && snapshot.index_of(109006).is_none());
    assert!(rt; snapshot.id_at(9).number() == 138875005);
    assert!(rt; snapshot.member_rows() == [(8, 1), (8, 3)].as_slice());
}

// The concepts in force of the sample and their names. The definitions have the same table.
const CONCEPTS_IN_FORCE: [(u64, Option<&str>); 10] = [
    (100005, Some("Alpha (finding)")),
    (101009, Some("Beta (finding)")),
    (102002, Some("Gamma (finding)")),
    (103007, Some("Delta (finding)")),
    (104001, Some("Type T (attribute)")),
    (105000, Some("Type U (attribute)")),
    (106004, Some("Value X (value)")),
    (107008, Some("Value Y (value)")),
    (108003, None),
    (138875005, Some("Root (test)")),
];

#[test]
fn holds_the_sample_concepts(rt: HostRuntime) -> Result<(), LoadFault> {
    look_at_sample(&rt, rt.alloc(), "en", Look::Concepts)
}

fn assert_concepts(rt: &impl Abort, snapshot: &Snapshot) {
    assert!(rt; snapshot.concept_count() == 10);
    for (number, (id, name)) in (0u32..).zip(&CONCEPTS_IN_FORCE) {
        assert!(rt; number < snapshot.concept_count());
        assert_eq!(rt; snapshot.index_of(*id), Some(number));
        assert!(rt; snapshot.name(number) == *name, "name of {id}");
    }
}

// The is-a rows of the sample (child and parent), in the order of the file.
const IS_A_IN_FORCE: [(u64, u64); 10] = [
    (100005, 138875005),
    (106004, 138875005),
    (104001, 138875005),
    (105000, 138875005),
    (108003, 138875005),
    (101009, 100005),
    (102002, 100005),
    (103007, 101009),
    (103007, 102002),
    (107008, 106004),
];

#[test]
fn holds_the_sample_hierarchy(rt: HostRuntime) -> Result<(), LoadFault> {
    look_at_sample(&rt, rt.alloc(), "en", Look::Hierarchy)
}

fn assert_hierarchy(rt: &impl Abort, snapshot: &Snapshot) {
    assert!(rt; snapshot.isa_rows().len() == 10);
    for (row, (child, parent)) in snapshot.isa_rows().iter().zip(&IS_A_IN_FORCE) {
        assert!(rt; Some(row.0) == snapshot.index_of(*child), "{child}");
        assert!(rt; Some(row.1) == snapshot.index_of(*parent), "{parent}");
    }
}

// Checks the line of each concept: the identifier, the name between bars if there is one, and LF.
// If another language is preferred, a concept that has a name in it shows that name.
#[test]
fn keeps_lines(rt: HostRuntime) -> Result<(), LoadFault> {
    let lines = [
        "100005 |Alpha (finding)|\n",
        "101009 |Beta (finding)|\n",
        "102002 |Gamma (finding)|\n",
        "103007 |Delta (finding)|\n",
        "104001 |Type T (attribute)|\n",
        "105000 |Type U (attribute)|\n",
        "106004 |Value X (value)|\n",
        "107008 |Value Y (value)|\n",
        "108003\n",
        "138875005 |Root (test)|\n",
    ];
    look_at_sample(&rt, rt.alloc(), "en", Look::Lines(&lines))?;
    let mut danish = lines;
    danish[3] = "103007 |Delta (fund)|\n";
    look_at_sample(&rt, rt.alloc(), "da", Look::Lines(&danish))
}

fn assert_lines(rt: &impl Abort, snapshot: &Snapshot, lines: &[&str]) {
    assert!(rt; snapshot.concept_count() as usize == lines.len());
    for (number, line) in (0u32..).zip(lines) {
        assert!(rt; number < snapshot.concept_count());
        assert!(rt; snapshot.line(number) == line.as_bytes(), "{line}");
    }
}

/// Returns `count` identifiers with the given partition. Their numbers before the partition begin
/// at 10,000.
pub fn identifiers(
    rt: &impl Abort,
    alloc: Global,
    partition: &[u8],
    count: u64,
) -> Result<Vec<SctId>, AllocError> {
    let mut found = Vec::new(alloc);
    for item in 10_000..10_000u64.saturating_add(count) {
        let mut text = Vec::new(alloc);
        let mut digits = itoa::Buffer::new();
        text.extend_from_slice(digits.format(item).as_bytes())?;
        text.extend_from_slice(partition)?;
        for check in b'0'..=b'9' {
            text.push(check)?;
            if let Ok(id) = SctId::parse(text.as_slice()) {
                found.push(id)?;
            }
            let _ = text.pop();
        }
    }
    assert!(rt; found.len() as u64 == count);
    Ok(found)
}

/// Appends the digits of an identifier.
pub fn push_number(bytes: &mut Vec<u8>, id: SctId) -> Result<(), AllocError> {
    let mut digits = itoa::Buffer::new();
    bytes.extend_from_slice(digits.format(id.number()).as_bytes())
}

/// Returns a concept file with a row for each of `ids`.
pub fn concept_file(alloc: Global, ids: &[SctId]) -> Result<Vec<u8>, AllocError> {
    let mut bytes = Vec::from_slice(alloc, HEADER)?;
    for id in ids {
        push_number(&mut bytes, *id)?;
        bytes.extend_from_slice(CONCEPT_REST)?;
    }
    Ok(bytes)
}

/// Returns a relationship file with the identifiers `ids`, in which each concept is a child of the
/// concept before it.
pub fn chain_file(alloc: Global, ids: &[SctId], concepts: &[SctId]) -> Result<Vec<u8>, AllocError> {
    let mut bytes = Vec::from_slice(alloc, RELATIONSHIP_HEADER)?;
    push_chain(&mut bytes, ids, concepts)?;
    Ok(bytes)
}

// Appends is-a rows in which each concept is a child of the concept before it.
fn push_chain(bytes: &mut Vec<u8>, ids: &[SctId], concepts: &[SctId]) -> Result<(), AllocError> {
    for (id, ends) in ids.iter().zip(concepts.windows(2)) {
        if let [parent, child] = ends {
            push_row(bytes, *id, *child, *parent)?;
        }
    }
    Ok(())
}

/// Returns the concept file and the relationship file of a chain of `count` concepts.
pub fn chain_of(
    rt: &impl Abort,
    alloc: Global,
    count: u64,
) -> Result<(Vec<u8>, Vec<u8>), AllocError> {
    let concepts = identifiers(rt, alloc, b"00", count)?;
    let ids = identifiers(rt, alloc, b"02", count)?;
    let concept_bytes = concept_file(alloc, concepts.as_slice())?;
    let rows = chain_file(alloc, ids.as_slice(), concepts.as_slice())?;
    Ok((concept_bytes, rows))
}

/// Returns the two files of a release that has concepts and relationships.
pub fn files_of<'a>(concepts: &'a [u8], rows: &'a [u8]) -> [NamedBytes<'a>; 2] {
    [
        NamedBytes {
            name: NAME,
            bytes: concepts,
        },
        NamedBytes {
            name: RELATIONSHIP_NAME,
            bytes: rows,
        },
    ]
}

fn push_row(bytes: &mut Vec<u8>, id: SctId, child: SctId, parent: SctId) -> Result<(), AllocError> {
    push_number(bytes, id)?;
    bytes.extend_from_slice(b"\t20240101\t1\t900000000000207008\t")?;
    push_number(bytes, child)?;
    bytes.push(b'\t')?;
    push_number(bytes, parent)?;
    bytes.extend_from_slice(ISA_REST)
}

// Returns a relationship file and a concept file. The relationship file is first in the list,
// before the concepts that its rows name.
fn two_files<'a>(rows: &'a [u8], concepts: &'a [u8]) -> [NamedBytes<'a>; 2] {
    [
        NamedBytes {
            name: RELATIONSHIP_NAME,
            bytes: rows,
        },
        NamedBytes {
            name: NAME,
            bytes: concepts,
        },
    ]
}

// Returns how many concepts and how many is-a rows in force a release has.
fn counts_of(alloc: Global, files: &[NamedBytes<'_>]) -> Result<(u32, usize), LoadFault> {
    let snapshot = Snapshot::load(alloc, files, "en", Limits::standard())?;
    Ok((snapshot.concept_count(), snapshot.isa_rows().len()))
}

// Appends the is-a row that makes the first concept a child of the last, which closes a cycle.
fn join_ends(rows: &mut Vec<u8>, ids: &[SctId], concepts: &[SctId]) -> Result<(), AllocError> {
    if let (Some(first), Some(last), Some(id)) = (concepts.first(), concepts.last(), ids.last()) {
        push_row(rows, *id, *first, *last)?;
    }
    Ok(())
}

// A chain of 100,000 concepts loads, and is refused if it is closed to a cycle. No search recurses
// along the chain.
#[test]
fn loads_a_long_chain(rt: HostRuntime) -> Result<(), Fail> {
    let alloc = rt.alloc();
    let concepts = identifiers(&rt, alloc, b"00", 100_000)?;
    let ids = identifiers(&rt, alloc, b"02", 100_000)?;
    let concept_bytes = concept_file(alloc, concepts.as_slice())?;
    let mut rows = chain_file(alloc, ids.as_slice(), concepts.as_slice())?;
    let counts = counts_of(alloc, &two_files(rows.as_slice(), concept_bytes.as_slice()))?;
    assert!(rt; counts == (100_000, 99_999));
    join_ends(&mut rows, ids.as_slice(), concepts.as_slice())?;
    let files = two_files(rows.as_slice(), concept_bytes.as_slice());
    let fault = fault_of(alloc, &files, Limits::standard());
    let least = concepts.first().map(|first| LoadFault::Cycle(*first));
    assert!(rt; fault == least, "{fault:?}");
    Ok(())
}

// The rows of two concept files form one list of concepts, in which equal rows count once.
#[test]
fn joins_files_of_a_kind(rt: HostRuntime) -> Result<(), Fail> {
    let alloc = rt.alloc();
    let one = concept_file(alloc, &[id(&rt, b"1000004")])?;
    let other = concept_file(alloc, &[id(&rt, b"100005")])?;
    let both = numbers_in(
        alloc,
        one.as_slice(),
        "xsct2_Concept_Snapshot_XX.txt",
        other.as_slice(),
    );
    assert!(rt; both == (2, Some(0), Some(1)));
    let twice = numbers_in(alloc, one.as_slice(), NAME, one.as_slice());
    assert!(rt; twice == (1, None, Some(0)));
    Ok(())
}

// Loads a release of two concept files. Returns how many concepts it has, and the numbers of 100005
// and of 1000004.
fn numbers_in(
    alloc: Global,
    one: &[u8],
    other_name: &str,
    other: &[u8],
) -> (u32, Option<u32>, Option<u32>) {
    let files = [
        NamedBytes {
            name: NAME,
            bytes: one,
        },
        NamedBytes {
            name: other_name,
            bytes: other,
        },
    ];
    match Snapshot::load(alloc, &files, "en", Limits::standard()) {
        Ok(snapshot) => numbers_of(snapshot),
        Err(_) => (0, None, None),
    }
}

fn numbers_of(snapshot: Snapshot) -> (u32, Option<u32>, Option<u32>) {
    let numbers = (
        snapshot.concept_count(),
        snapshot.index_of(100005),
        snapshot.index_of(1000004),
    );
    drop(snapshot);
    numbers
}

// Equal rows count once, in whatever order they come. Each further one is counted as passed over.
#[test]
fn takes_equal_rows_once_in_any_order(rt: HostRuntime) -> Result<(), Fail> {
    let alloc = rt.alloc();
    let [a, b, c, d] = [
        id(&rt, b"100005"),
        id(&rt, b"101009"),
        id(&rt, b"102002"),
        id(&rt, b"103007"),
    ];
    let lists = [
        ([a, b, c, d, d], (4, 1)),
        ([a, b, c, d, b], (4, 1)),
        ([d, c, b, a, d], (4, 1)),
        ([b, d, a, c, c], (4, 1)),
        ([b, d, d, b, a], (3, 2)),
        ([b, b, b, b, b], (1, 4)),
    ];
    for (concepts, want) in &lists {
        let bytes = concept_file(alloc, concepts)?;
        assert!(rt; concept_counts(alloc, bytes.as_slice()) == Some(*want));
    }
    Ok(())
}

// Returns how many concepts of a concept file are in force, and how many of its rows are passed
// over.
fn concept_counts(alloc: Global, bytes: &[u8]) -> Option<(u64, u64)> {
    let files = [NamedBytes { name: NAME, bytes }];
    match Snapshot::load(alloc, &files, "en", Limits::standard()) {
        Ok(snapshot) => {
            let report = report_and_drop(snapshot);
            Some((report.concepts, report.passed))
        }
        Err(_) => None,
    }
}

fn report_and_drop(snapshot: Snapshot) -> Report {
    let report = snapshot.report();
    drop(snapshot);
    report
}

// Of the rows of one concept, the one with the latest effective time counts. A row without a time
// is the latest. Rows with the same time have to be equal.
#[test]
fn takes_the_latest_row_of_a_concept(rt: HostRuntime) -> Result<(), Fail> {
    let alloc = rt.alloc();
    let cases = [
        (
            b"20240101\t1".as_slice(),
            b"20240201\t0".as_slice(),
            Some((0, 2)),
        ),
        (b"20240201\t0", b"20240101\t1", Some((0, 2))),
        (b"20240101\t1", b"20231201\t0", Some((1, 1))),
        (b"20240101\t1", b"\t0", Some((0, 2))),
        (b"\t0", b"20240101\t1", Some((0, 2))),
        (b"\t1", b"00000000\t0", Some((1, 1))),
        (b"20240101\t1", b"20240101\t1", Some((1, 1))),
        (b"20240101\t1", b"20240101\t0", None),
        (b"\t1", b"\t0", None),
    ];
    for (one, other, want) in cases {
        let mut bytes = Vec::new(alloc);
        bytes.extend_from_slice(HEADER)?;
        for middle in [one, other] {
            bytes.extend_from_slice(b"100005\t")?;
            bytes.extend_from_slice(middle)?;
            bytes.extend_from_slice(b"\t900000000000207008\t900000000000074008\r\n")?;
        }
        assert!(rt;
            concept_counts(alloc, bytes.as_slice()) == want,
            "{one:?} {other:?}"
        );
    }
    Ok(())
}

// Loads the sample with one more concept row in a file of its own, as an extension has it. Checks
// how many concepts, is-a rows, attribute rows, members and names are in force, and how many rows
// are passed over.
#[test]
fn reads_an_extension(rt: HostRuntime) -> Result<(), Fail> {
    let cases = [
        (b"100005\t20240101\t1".as_slice(), [10, 10, 9, 2, 10, 7]),
        (b"100005\t20231201\t0", [10, 10, 9, 2, 10, 7]),
        (b"100005\t20240201\t0", [9, 7, 9, 2, 9, 12]),
        (b"100005\t\t0", [9, 7, 9, 2, 9, 12]),
        (b"109006\t20240201\t1", [11, 10, 10, 3, 10, 4]),
    ];
    for (row, want) in cases {
        assert!(rt;
            report_with(rt.alloc(), row, true)? == Some(want),
            "{row:?}"
        );
        assert!(rt;
            report_with(rt.alloc(), row, false)? == Some(want),
            "{row:?}"
        );
    }
    Ok(())
}

// Returns the counts of the sample with one more concept row, in a file before or after the others.
fn report_with(alloc: Global, row: &[u8], first: bool) -> Result<Option<[u64; 6]>, AllocError> {
    let mut bytes = Vec::new(alloc);
    bytes.extend_from_slice(HEADER)?;
    bytes.extend_from_slice(row)?;
    bytes.extend_from_slice(b"\t900000000000207008\t900000000000074008\r\n")?;
    let extension = NamedBytes {
        name: "2/sct2_Concept_Snapshot_XX.txt",
        bytes: bytes.as_slice(),
    };
    let mut files = Vec::new(alloc);
    if first {
        files.push(extension)?;
    }
    for named in &sample() {
        files.push(*named)?;
    }
    if !first {
        files.push(extension)?;
    }
    Ok(report_of(alloc, files.as_slice()))
}

// Returns the counts of a release, or `None` if its files are refused.
fn report_of(alloc: Global, files: &[NamedBytes<'_>]) -> Option<[u64; 6]> {
    match Snapshot::load(alloc, files, "en", Limits::standard()) {
        Ok(snapshot) => {
            let report = report_and_drop(snapshot);
            Some([
                report.concepts,
                report.isa,
                report.attributes,
                report.members,
                report.names,
                report.passed,
            ])
        }
        Err(_) => None,
    }
}
