//! Tests with lines that are not rows: the first fault of each.
use rf2_rows::{FileKind, RowCause, RowFault, read_row};
use sctid::IdFault;
use std::process::Abort;

fn fault_of(kind: FileKind, line: &[u8]) -> Option<RowFault> {
    match read_row(kind, line) {
        Ok(_) => None,
        Err(fault) => Some(fault),
    }
}

// Checks that each line is refused with the given cause and column.
fn assert_faults(rt: &impl Abort, kind: FileKind, lines: &[(&[u8], RowCause, u8)]) {
    for &(line, cause, column) in lines {
        let fault = RowFault { cause, column };
        assert!(rt; fault_of(kind, line) == Some(fault), "{line:?}");
    }
}

#[test]
fn refuses_concepts(rt: HostRuntime) {
    assert_faults(
        &rt,
        FileKind::Concept,
        &[
            (b"", RowCause::Fields, 0),
            (b"100005\t\t1\t100005", RowCause::Fields, 0),
            (b"100005\t\t1\t100005\t100005\t", RowCause::Fields, 0),
            (b"\t\t\t\t\t\t\t\t\t\t\t", RowCause::Fields, 0),
            (b"1\t\t1\t100005\t100005", RowCause::Id(IdFault::Length), 1),
            (
                b"100022\t\t1\t100005\t100005",
                RowCause::Id(IdFault::Partition),
                1,
            ),
            (b"100005\t2024010\t1\t100005\t100005", RowCause::Time, 2),
            (b"100005\t2024010a\t1\t100005\t100005", RowCause::Time, 2),
            (b"100005\t202401011\t1\t100005\t100005", RowCause::Time, 2),
            (b"100005\t\t\t100005\t100005", RowCause::Active, 3),
            (b"100005\t\t2\t100005\t100005", RowCause::Active, 3),
            (
                b"100005\t\t1\t100006\t100005",
                RowCause::Id(IdFault::Check),
                4,
            ),
            (
                b"100005\t\t1\t100005\t10000x",
                RowCause::Id(IdFault::Digit),
                5,
            ),
            (b"1\t1\t2\t1\t1", RowCause::Id(IdFault::Length), 1),
            (b"100005\t1\t2\t1\t1", RowCause::Time, 2),
        ],
    );
}

#[test]
fn refuses_descriptions(rt: HostRuntime) {
    assert_faults(
        &rt,
        FileKind::Description,
        &[
            (
                b"100014\t\t1\t100005\t100005\ten\t100005\tterm",
                RowCause::Fields,
                0,
            ),
            (
                b"100014\t\t1\t100005\t100005\ten\t100005\tterm\t100005\t",
                RowCause::Fields,
                0,
            ),
            (
                b"100005\t\t1\t100005\t100005\ten\t100005\tterm\t100005",
                RowCause::Id(IdFault::Partition),
                1,
            ),
            (
                b"100014\t2024\t1\t100005\t100005\ten\t100005\tterm\t100005",
                RowCause::Time,
                2,
            ),
            (
                b"100014\t\tt\t100005\t100005\ten\t100005\tterm\t100005",
                RowCause::Active,
                3,
            ),
            (
                b"100014\t\t1\t100014\t100005\ten\t100005\tterm\t100005",
                RowCause::Id(IdFault::Partition),
                4,
            ),
            (
                b"100014\t\t1\t100005\t100014\ten\t100005\tterm\t100005",
                RowCause::Id(IdFault::Partition),
                5,
            ),
            (
                b"100014\t\t1\t100005\t100005\te\xff\t100005\tterm\t100005",
                RowCause::Utf8,
                6,
            ),
            (
                b"100014\t\t1\t100005\t100005\ten\t\tterm\t100005",
                RowCause::Id(IdFault::Length),
                7,
            ),
            (
                b"100014\t\t1\t100005\t100005\ten\t100005\tM\xe9ni\xe8re\t100005",
                RowCause::Utf8,
                8,
            ),
            (
                b"100014\t\t1\t100005\t100005\ten\t100005\tM\xc3\t1",
                RowCause::Utf8,
                8,
            ),
            (
                b"100014\t\t1\t100005\t100005\ten\t100005\tterm\t100014",
                RowCause::Id(IdFault::Partition),
                9,
            ),
        ],
    );
}

#[test]
fn refuses_relationships(rt: HostRuntime) {
    assert_faults(
        &rt,
        FileKind::Relationship,
        &[
            (
                b"100022\t\t1\t100005\t100005\t100005\t0\t100005\t100005",
                RowCause::Fields,
                0,
            ),
            (
                b"100005\t\t1\t100005\t100005\t100005\t0\t100005\t100005\t100005",
                RowCause::Id(IdFault::Partition),
                1,
            ),
            (
                b"100022\t \t1\t100005\t100005\t100005\t0\t100005\t100005\t100005",
                RowCause::Time,
                2,
            ),
            (
                b"100022\t\t01\t100005\t100005\t100005\t0\t100005\t100005\t100005",
                RowCause::Active,
                3,
            ),
            (
                b"100022\t\t1\t100022\t100005\t100005\t0\t100005\t100005\t100005",
                RowCause::Id(IdFault::Partition),
                4,
            ),
            (
                b"100022\t\t1\t100005\t000000\t100005\t0\t100005\t100005\t100005",
                RowCause::Id(IdFault::LeadingZero),
                5,
            ),
            (
                b"100022\t\t1\t100005\t100005\t\t0\t100005\t100005\t100005",
                RowCause::Id(IdFault::Length),
                6,
            ),
            (
                b"100022\t\t1\t100005\t100005\t100005\t\t100005\t100005\t100005",
                RowCause::Group,
                7,
            ),
            (
                b"100022\t\t1\t100005\t100005\t100005\t1000000000\t100005\t100005\t100005",
                RowCause::Group,
                7,
            ),
            (
                b"100022\t\t1\t100005\t100005\t100005\t-1\t100005\t100005\t100005",
                RowCause::Group,
                7,
            ),
            (
                b"100022\t\t1\t100005\t100005\t100005\t0\t1\t100005\t100005",
                RowCause::Id(IdFault::Length),
                8,
            ),
            (
                b"100022\t\t1\t100005\t100005\t100005\t0\t100005\t1\t100005",
                RowCause::Id(IdFault::Length),
                9,
            ),
            (
                b"100022\t\t1\t100005\t100005\t100005\t0\t100005\t100005\t100005\r",
                RowCause::Id(IdFault::Digit),
                10,
            ),
        ],
    );
}

#[test]
fn refuses_concrete_values(rt: HostRuntime) {
    assert_faults(
        &rt,
        FileKind::Concrete,
        &[
            (
                b"100022\t\t1\t100005\t100005\t#1\t0\t100005\t100005",
                RowCause::Fields,
                0,
            ),
            (
                b"100005\t\t1\t100005\t100005\t#1\t0\t100005\t100005\t100005",
                RowCause::Id(IdFault::Partition),
                1,
            ),
            (
                b"100022\t2024\t1\t100005\t100005\t#1\t0\t100005\t100005\t100005",
                RowCause::Time,
                2,
            ),
            (
                b"100022\t\t\t100005\t100005\t#1\t0\t100005\t100005\t100005",
                RowCause::Active,
                3,
            ),
            (
                b"100022\t\t1\t100022\t100005\t#1\t0\t100005\t100005\t100005",
                RowCause::Id(IdFault::Partition),
                4,
            ),
            (
                b"100022\t\t1\t100005\t1\t#1\t0\t100005\t100005\t100005",
                RowCause::Id(IdFault::Length),
                5,
            ),
            (
                b"100022\t\t1\t100005\t100005\t\xff\t0\t100005\t100005\t100005",
                RowCause::Utf8,
                6,
            ),
            (
                b"100022\t\t1\t100005\t100005\t#1\t-1\t100005\t100005\t100005",
                RowCause::Group,
                7,
            ),
            (
                b"100022\t\t1\t100005\t100005\t#1\t0\t1\t100005\t100005",
                RowCause::Id(IdFault::Length),
                8,
            ),
            (
                b"100022\t\t1\t100005\t100005\t#1\t0\t100005\t1\t100005",
                RowCause::Id(IdFault::Length),
                9,
            ),
            (
                b"100022\t\t1\t100005\t100005\t#1\t0\t100005\t100005\t1",
                RowCause::Id(IdFault::Length),
                10,
            ),
        ],
    );
}

fn assert_no_number(rt: &impl Abort, lines: &[&[u8]]) {
    for line in lines {
        assert_faults(rt, FileKind::Concrete, &[(line, RowCause::Value, 6)]);
    }
}

#[test]
fn refuses_numbers(rt: HostRuntime) {
    assert_no_number(
        &rt,
        &[
            b"100022\t\t1\t100005\t100005\t#\t0\t100005\t100005\t100005",
            b"100022\t\t1\t100005\t100005\t#1.\t0\t100005\t100005\t100005",
            b"100022\t\t1\t100005\t100005\t#.5\t0\t100005\t100005\t100005",
            b"100022\t\t1\t100005\t100005\t#1.2.3\t0\t100005\t100005\t100005",
            b"100022\t\t1\t100005\t100005\t#1,5\t0\t100005\t100005\t100005",
            b"100022\t\t1\t100005\t100005\t#-\t0\t100005\t100005\t100005",
            b"100022\t\t1\t100005\t100005\t#+-1\t0\t100005\t100005\t100005",
            b"100022\t\t1\t100005\t100005\t# 1\t0\t100005\t100005\t100005",
            b"100022\t\t1\t100005\t100005\t##1\t0\t100005\t100005\t100005",
            b"100022\t\t1\t100005\t100005\t#true\t0\t100005\t100005\t100005",
            b"100022\t\t1\t100005\t100005\t#\xff\t0\t100005\t100005\t100005",
            b"100022\t\t1\t100005\t100005\t#1234567890123456789\t0\t100005\t100005\t100005",
            b"100022\t\t1\t100005\t100005\t#0.1234567890123456789\t0\t100005\t100005\t100005",
        ],
    );
}

#[test]
fn refuses_members(rt: HostRuntime) {
    assert_faults(
        &rt,
        FileKind::Member,
        &[
            (
                b"80000a05-c6db-5a02-9b8a-0b1c2d3e4f50\t\t1\t100005\t100005",
                RowCause::Fields,
                0,
            ),
            (
                b"g0000a05-c6db-5a02-9b8a-0b1c2d3e4f50\t\t1\t100005\t100005\t100005",
                RowCause::Uuid,
                1,
            ),
            (b"\t\t1\t100005\t100005\t100005", RowCause::Uuid, 1),
            (
                b"80000a05c6db5a029b8a0b1c2d3e4f50\t\t1\t100005\t100005\t100005",
                RowCause::Uuid,
                1,
            ),
            (
                b"{80000a05-c6db-5a02-9b8a-0b1c2d3e4f50}\t\t1\t100005\t100005\t100005",
                RowCause::Uuid,
                1,
            ),
            (
                b"urn:uuid:80000a05-c6db-5a02-9b8a-0b1c2d3e4f50\t\t1\t100005\t100005\t100005",
                RowCause::Uuid,
                1,
            ),
            (
                b"80000a05-c6db-5a02-9b8a-0b1c2d3e4f50\t2024\t1\t100005\t100005\t100005",
                RowCause::Time,
                2,
            ),
            (
                b"80000a05-c6db-5a02-9b8a-0b1c2d3e4f50\t\t2\t100005\t100005\t100005",
                RowCause::Active,
                3,
            ),
            (
                b"80000a05-c6db-5a02-9b8a-0b1c2d3e4f50\t\t1\t100014\t100005\t100005",
                RowCause::Id(IdFault::Partition),
                4,
            ),
            (
                b"80000a05-c6db-5a02-9b8a-0b1c2d3e4f50\t\t1\t100005\t100022\t100005",
                RowCause::Id(IdFault::Partition),
                5,
            ),
            (
                b"80000a05-c6db-5a02-9b8a-0b1c2d3e4f50\t\t1\t100005\t100005\t100006",
                RowCause::Id(IdFault::Check),
                6,
            ),
        ],
    );
}

fn assert_numbered(rt: &impl Abort, causes: &[(RowCause, u8)]) {
    for (cause, number) in causes {
        assert!(rt; cause.number() == *number, "{cause}");
    }
}

#[test]
fn numbers_the_causes(rt: HostRuntime) {
    assert_numbered(
        &rt,
        &[
            (RowCause::Fields, 1),
            (RowCause::Id(IdFault::Check), 2),
            (RowCause::Time, 3),
            (RowCause::Active, 4),
            (RowCause::Group, 5),
            (RowCause::Value, 6),
            (RowCause::Utf8, 7),
            (RowCause::Uuid, 8),
        ],
    );
}
