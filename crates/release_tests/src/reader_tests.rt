//! Tests of the attribute rows and the row counts of the sample release.
ghost use Rattle.std.specs.Prelude.{◌<◌, length};

use crate::load_tests::sample;
use rf2_rows::Value;
use snapshot::{Limits, LoadSnapshot, Report, Snapshot};
use std::process::Abort;
use std::test::Fail;

// Source, group number, type and value of each attribute row, in the order of the rows. The sources
// are B, C and D, the types T and U, and the values X, Y, 2.5 and 3.
const ROWS: [(u32, u32, u64, i128); 9] = [
    (1, 1, 104001, 106004),
    (1, 1, 105000, 107008),
    (2, 0, 105000, 2_500_000_000_000_000_000),
    (2, 1, 104001, 106004),
    (2, 2, 105000, 107008),
    (3, 1, 105000, 3_000_000_000_000_000_000),
    (3, 0, 104001, 107008),
    (3, 0, 105000, 107008),
    (3, 2, 105000, 107008),
];

// Returns the number that a value is, in units of 10^-18, or the identifier if it is a concept.
fn integer_in(value: &Value<'_>) -> i128 {
    match value {
        Value::Concept(concept) => i128::from(concept.number()),
        Value::Decimal(decimal) => decimal.0,
        Value::Other(_) => -1,
    }
}

// Checks an attribute row.
fn assert_row(rt: &impl Abort, snapshot: &Snapshot, number: u32, want: &(u32, u32, u64, i128))
    requires { number < length snapshot.now.release.attributes }
{
    let row = snapshot.attribute_row(number);
    assert!(rt; row.source == want.0, "source of {number}");
    assert!(rt; row.group == want.1, "group of {number}");
    assert!(rt; row.type_id.number() == want.2, "type of {number}");
    assert!(rt; integer_in(&row.value) == want.3, "value of {number}");
}

fn assert_rows(rt: &impl Abort, snapshot: &Snapshot) {
    assert_eq!(rt; snapshot.attribute_count(), 9);
    for (number, want) in (0u32..).zip(&ROWS) {
        assert!(rt; number < snapshot.attribute_count());
        assert_row(rt, snapshot, number, want);
    }
}

fn assert_report(rt: &impl Abort, report: &Report) {
    assert_eq!(rt; report.files, 5);
    assert_eq!(rt; report.concepts, 10);
    assert_eq!(rt; report.isa, 10);
    assert_eq!(rt; report.attributes, 9);
    assert_eq!(rt; report.members, 2);
    assert_eq!(rt; report.names, 10);
    assert_eq!(rt; report.passed, 6);
}

// The checks borrow the snapshot, because a function that owns one is slow to prove.
#[test]
fn reads_rows_and_report_of_the_sample(rt: HostRuntime) -> Result<(), Fail> {
    let snapshot = Snapshot::load(rt.alloc(), &sample(), "en", Limits::standard())?;
    assert_rows(&rt, &snapshot);
    assert_report(&rt, &snapshot.report());
    Ok(())
}
