//! Tests of `same_row`, which compares two lines as rows, and of the effective time of a row.
use rf2_rows::{FileKind, RowFault, read_row, same_row};
use std::process::Abort;

// Whether both lines are rows of the kind, and `same_row` returns `same` for them.
fn are_told(kind: FileKind, one: &[u8], other: &[u8], same: bool) -> bool {
    match (read_row(kind, one), read_row(kind, other)) {
        (Ok(_), Ok(_)) => {
            same_row(kind, one, other) == same
                && same_row(kind, other, one) == same
                && same_row(kind, one, one)
        }
        _ => false,
    }
}

fn assert_same_rows(rt: &impl Abort, same: bool, pairs: &[(FileKind, &[u8], &[u8])]) {
    for &(kind, one, other) in pairs {
        assert!(rt; are_told(kind, one, other, same), "{one:?} and {other:?}");
    }
}

#[test]
fn tells_a_row_in_other_texts(rt: HostRuntime) {
    assert_same_rows(
        &rt,
        true,
        &[
            (
                FileKind::Relationship,
                b"100022\t20240101\t1\t100005\t101009\t102002\t0\t103007\t104001\t105000",
                b"100022\t20240101\t1\t100005\t101009\t102002\t00\t103007\t104001\t105000",
            ),
            (
                FileKind::Relationship,
                b"100022\t20240101\t1\t100005\t101009\t102002\t7\t103007\t104001\t105000",
                b"100022\t20240101\t1\t100005\t101009\t102002\t000000007\t103007\t104001\t105000",
            ),
            (
                FileKind::Concrete,
                b"100022\t20240101\t1\t100005\t101009\t#1\t0\t103007\t104001\t105000",
                b"100022\t20240101\t1\t100005\t101009\t#1.0\t0\t103007\t104001\t105000",
            ),
            (
                FileKind::Concrete,
                b"100022\t20240101\t1\t100005\t101009\t#0\t0\t103007\t104001\t105000",
                b"100022\t20240101\t1\t100005\t101009\t#-0.000\t0\t103007\t104001\t105000",
            ),
            (
                FileKind::Concrete,
                b"100022\t20240101\t1\t100005\t101009\t#2.5\t1\t103007\t104001\t105000",
                b"100022\t20240101\t1\t100005\t101009\t#+02.50\t01\t103007\t104001\t105000",
            ),
            (
                FileKind::Member,
                b"80000a05-c6db-5a02-9b8a-0b1c2d3e4f50\t20240101\t1\t100005\t101009\t100014",
                b"80000A05-C6DB-5A02-9B8A-0B1C2D3E4F50\t20240101\t1\t100005\t101009\t100014",
            ),
            (
                FileKind::Member,
                b"80000a05-c6db-5a02-9b8a-0b1c2d3e4f50\t\t1\t100005\t101009\t100014",
                b"80000a05-C6db-5a02-9b8A-0b1c2d3e4F50\t\t1\t100005\t101009\t100014",
            ),
            (
                FileKind::Concept,
                b"100005\t20240101\t1\t101009\t102002",
                b"100005\t20240101\t1\t101009\t102002",
            ),
            (
                FileKind::Description,
                b"100014\t\t0\t100005\t101009\ten\t102002\tBlood\t103007",
                b"100014\t\t0\t100005\t101009\ten\t102002\tBlood\t103007",
            ),
        ],
    );
}

#[test]
fn tells_rows_that_differ(rt: HostRuntime) {
    assert_same_rows(
        &rt,
        false,
        &[
            (
                FileKind::Description,
                b"100014\t20240101\t1\t100005\t101009\ten\t102002\tBlood\t103007",
                b"100014\t20240101\t1\t100005\t101009\ten\t102002\tblood\t103007",
            ),
            (
                FileKind::Description,
                b"100014\t20240101\t1\t100005\t101009\ten\t102002\tBlood\t103007",
                b"100014\t20240101\t1\t100005\t101009\tfr\t102002\tBlood\t103007",
            ),
            (
                FileKind::Concept,
                b"100005\t20240101\t1\t101009\t102002",
                b"100005\t20240101\t1\t103007\t102002",
            ),
            (
                FileKind::Concept,
                b"100005\t\t1\t101009\t102002",
                b"100005\t00000000\t1\t101009\t102002",
            ),
            (
                FileKind::Concept,
                b"100005\t20240101\t1\t101009\t102002",
                b"100005\t20240102\t1\t101009\t102002",
            ),
            (
                FileKind::Concept,
                b"100005\t20240101\t1\t101009\t102002",
                b"100005\t20240101\t0\t101009\t102002",
            ),
            (
                FileKind::Concrete,
                b"100022\t20240101\t1\t100005\t101009\t#1\t0\t103007\t104001\t105000",
                b"100022\t20240101\t1\t100005\t101009\t1\t0\t103007\t104001\t105000",
            ),
            (
                FileKind::Concrete,
                b"100022\t20240101\t1\t100005\t101009\t1\t0\t103007\t104001\t105000",
                b"100022\t20240101\t1\t100005\t101009\t1.0\t0\t103007\t104001\t105000",
            ),
            (
                FileKind::Concrete,
                b"100022\t20240101\t1\t100005\t101009\t#1\t0\t103007\t104001\t105000",
                b"100022\t20240101\t1\t100005\t101009\t#-1\t0\t103007\t104001\t105000",
            ),
            // for each kind a pair that differs in its last column
            (
                FileKind::Concept,
                b"100005\t20240101\t1\t101009\t102002",
                b"100005\t20240101\t1\t101009\t103007",
            ),
            (
                FileKind::Description,
                b"100014\t20240101\t1\t100005\t101009\ten\t102002\tBlood\t103007",
                b"100014\t20240101\t1\t100005\t101009\ten\t102002\tBlood\t104001",
            ),
            (
                FileKind::Relationship,
                b"100022\t20240101\t1\t100005\t101009\t102002\t0\t103007\t104001\t105000",
                b"100022\t20240101\t1\t100005\t101009\t102002\t0\t103007\t104001\t100005",
            ),
            (
                FileKind::Concrete,
                b"100022\t20240101\t1\t100005\t101009\t#1\t0\t103007\t104001\t105000",
                b"100022\t20240101\t1\t100005\t101009\t#1\t0\t103007\t104001\t100005",
            ),
            (
                FileKind::Member,
                b"80000a05-c6db-5a02-9b8a-0b1c2d3e4f50\t20240101\t1\t100005\t101009\t100014",
                b"80000a05-c6db-5a02-9b8a-0b1c2d3e4f50\t20240101\t1\t100005\t101009\t100005",
            ),
        ],
    );
}

fn time_of(kind: FileKind, line: &[u8]) -> Result<Option<u32>, RowFault> {
    match read_row(kind, line) {
        Ok(row) => Ok(row.effective_time()),
        Err(fault) => Err(fault),
    }
}

fn assert_times(rt: &impl Abort, lines: &[(FileKind, &[u8], Option<u32>)]) {
    for &(kind, line, time) in lines {
        assert!(rt; time_of(kind, line) == Ok(time), "{line:?}");
    }
}

#[test]
fn gives_the_time_of_a_row(rt: HostRuntime) {
    assert_times(
        &rt,
        &[
            (
                FileKind::Concept,
                b"100005\t20240101\t1\t101009\t102002",
                Some(20240101),
            ),
            (FileKind::Concept, b"100005\t\t1\t101009\t102002", None),
            (
                FileKind::Description,
                b"100014\t20240102\t1\t100005\t101009\ten\t102002\tBlood\t103007",
                Some(20240102),
            ),
            (
                FileKind::Relationship,
                b"100022\t20240103\t1\t100005\t101009\t102002\t0\t103007\t104001\t105000",
                Some(20240103),
            ),
            (
                FileKind::Concrete,
                b"100022\t20240104\t1\t100005\t101009\t#1\t0\t103007\t104001\t105000",
                Some(20240104),
            ),
            (
                FileKind::Member,
                b"80000a05-c6db-5a02-9b8a-0b1c2d3e4f50\t00000000\t1\t100005\t101009\t100014",
                Some(0),
            ),
        ],
    );
}
