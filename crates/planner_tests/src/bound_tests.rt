//! Tests of the choices and the bounds of plans over the sample release, if the caller asks for no
//! choices.
use ecl_parser::parse;
use planner::{Choice, PhysicalPlan, bound, choose, floor, own_bounds};
use postings::Indexes;
use release_files::NamedBytes;
use sample_release::sample_files;
use set_algebra::{ConceptPlan, lower};
use snapshot::{Limits, LoadFault, LoadSnapshot, Snapshot};
use std::alloc::{AllocError, Global};
use std::process::Abort;
use std::test::Fail;

// A query, the choices of its leaves, the own bounds of its nodes (a node before its children), the
// sum of these, and the floor of the plan.
struct Row {
    line: &'static [u8],
    choices: &'static [Choice],
    own: &'static [u64],
    bound: u64,
    floor: u64,
}

const ROWS: [Row; 5] = [
    Row {
        line: b"<100005:104001=106004",
        choices: &[Choice::ByValue],
        own: &[10, 4, 0, 3, 0, 0],
        bound: 17,
        floor: 5,
    },
    Row {
        line: b"*:105000>#2",
        choices: &[Choice::ByType],
        own: &[32, 0, 7, 0],
        bound: 39,
        floor: 6,
    },
    Row {
        line: b"<100005:{104001=<<106004,105000=*}",
        choices: &[Choice::ByType, Choice::ByType],
        own: &[12, 4, 0, 3, 18, 4, 0, 2, 0, 7, 0, 0],
        bound: 50,
        floor: 13,
    },
    Row {
        line: b"100005",
        choices: &[],
        own: &[0],
        bound: 0,
        floor: 0,
    },
    // 3 concepts below A and 1 below X, 2 components of Q, and 9 rows
    Row {
        line: b"((<100005 OR <106004) MINUS ^108003).104001",
        choices: &[],
        own: &[13, 6, 8, 4, 0, 2, 0, 3, 0, 0],
        bound: 36,
        floor: 6,
    },
];

/// Returns the indexes of the sample release.
pub fn sample_indexes(alloc: Global) -> Result<Indexes, LoadFault> {
    let files: [NamedBytes<'static>; 5] = sample_files();
    let snapshot = Snapshot::load(alloc, &files, "en", Limits::standard())?;
    Ok(Indexes::build(alloc, &snapshot)?)
}

/// Returns the plan of a query.
pub fn plan_of(alloc: Global, line: &[u8]) -> Result<ConceptPlan, AllocError> {
    match parse(alloc, line) {
        Ok(constraint) => lower(alloc, &constraint),
        // the text is no constraint, or memory to read it was refused
        Err(_) => Err(AllocError),
    }
}

fn assert_bounds(
    rt: &impl Abort,
    alloc: Global,
    physical: &PhysicalPlan,
    indexes: &Indexes,
    row: &Row,
) -> Result<(), AllocError> {
    assert!(rt; physical.choices() == row.choices);
    assert_eq!(rt; bound(physical, indexes), row.bound);
    assert_eq!(rt; floor(physical, indexes), row.floor);
    assert!(rt; own_bounds(alloc, physical, indexes)?.as_slice() == row.own);
    Ok(())
}

fn assert_row(
    rt: &impl Abort,
    alloc: Global,
    indexes: &Indexes,
    row: &Row,
) -> Result<(), AllocError> {
    let plan = plan_of(alloc, row.line)?;
    let same = plan.copy(alloc)?;
    let physical = choose(alloc, plan, indexes)?;
    assert!(rt; *physical.plan() == same);
    assert_bounds(rt, alloc, &physical, indexes, row)
}

#[test]
fn bounds_plans(rt: HostRuntime) -> Result<(), Fail> {
    let indexes = sample_indexes(rt.alloc())?;
    for row in &ROWS {
        assert_row(&rt, rt.alloc(), &indexes, row)?;
    }
    Ok(())
}
