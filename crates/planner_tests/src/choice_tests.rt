//! Tests of the choices of plans over the sample release, if the caller asks for choices.
use crate::bound_tests::{plan_of, sample_indexes};
use planner::{Choice, bound, choose_with};
use postings::Indexes;
use std::alloc::{AllocError, Global};
use std::process::Abort;
use std::test::Fail;

// A query, the choices that the caller asks for, the choices that the leaves get, and the bound of
// the plan with these.
struct Row {
    line: &'static [u8],
    asked: &'static [Choice],
    choices: &'static [Choice],
    bound: u64,
}

const ROWS: [Row; 6] = [
    Row {
        line: b"<100005:104001=106004",
        asked: &[Choice::Scan, Choice::ByType],
        choices: &[Choice::Scan],
        bound: 47,
    },
    // the leaf does not offer `ByValue`, so it takes the choice that it has if none is asked for
    Row {
        line: b"*:105000>#2",
        asked: &[Choice::ByValue],
        choices: &[Choice::ByType],
        bound: 39,
    },
    Row {
        line: b"<100005:104001!=106004",
        asked: &[Choice::ByValue],
        choices: &[Choice::ByType],
        bound: 20,
    },
    // the list is too short for the second leaf
    Row {
        line: b"<100005:{104001=<<106004,105000=*}",
        asked: &[Choice::ByValue],
        choices: &[Choice::ByValue, Choice::ByType],
        bound: 76,
    },
    Row {
        line: b"<100005:{104001=<<106004,105000=*}",
        asked: &[Choice::Scan, Choice::ByValue],
        choices: &[Choice::Scan, Choice::ByValue],
        bound: 104,
    },
    Row {
        line: b"<100005:{104001=<<106004,105000=*}",
        asked: &[],
        choices: &[Choice::ByType, Choice::ByType],
        bound: 50,
    },
];

fn assert_row(
    rt: &impl Abort,
    alloc: Global,
    indexes: &Indexes,
    row: &Row,
) -> Result<(), AllocError> {
    let plan = plan_of(alloc, row.line)?;
    let physical = choose_with(alloc, plan, row.asked, indexes)?;
    assert!(rt; physical.choices() == row.choices);
    assert_eq!(rt; bound(&physical, indexes), row.bound);
    Ok(())
}

#[test]
fn takes_what_is_asked_for(rt: HostRuntime) -> Result<(), Fail> {
    let indexes = sample_indexes(rt.alloc())?;
    for row in &ROWS {
        assert_row(&rt, rt.alloc(), &indexes, row)?;
    }
    Ok(())
}
