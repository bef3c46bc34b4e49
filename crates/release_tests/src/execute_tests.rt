//! Tests of plans that are executed over the sample release and over a chain, with each form of set
//! and each choice of leaves.
ghost use Rattle.postings.specs.Indexed.{IsIndexOf};

use crate::load_tests::{chain_of, files_of, sample};
use constraint_tree::Constraint;
use ecl_parser::parse;
use executor::{Visits, execute};
use idset::{ConceptSet, MixedSet, SortedSet, WordSet};
use planner::{Choice, PhysicalPlan, bound, choose_with, floor};
use postings::Indexes;
use release_files::NamedBytes;
use set_algebra::{ConceptPlan, lower};
use snapshot::{Limits, LoadFault, LoadSnapshot, Snapshot};
use std::alloc::{AllocError, Global};
use std::process::Abort;
use std::test::Fail;

// A query line; the numbers of the concepts in its answer; and, if they are worked out, the numbers
// of visits if the leaves are answered by value, by type and by a scan. A leaf that can't be
// answered by value is then answered by type. The concepts have the numbers A 0, B 1, C 2, D 3, T
// 4, U 5, X 6, Y 7, Q 8 and Root 9.
//
// The visits are added up by hand from the lists. For `<100005:104001=106004` by value, they are:
// one value and its two rows, 3; the two concepts found, which are read again, 2; A and the three
// concepts below it, 4; and the two concepts of the answer, which are read again, 2.
type Row<'a> = (&'a [u8], &'a [u32], &'a [u64]);

const ROWS: [Row<'static>; 45] = [
    (b"*", &[0, 1, 2, 3, 4, 5, 6, 7, 8, 9], &[]),
    (b"103007", &[3], &[]),
    (b"999999", &[], &[]),
    (b"<100005", &[1, 2, 3], &[]),
    (b"<<*", &[0, 1, 2, 3, 4, 5, 6, 7, 8, 9], &[]),
    (b"!!>(<100005)", &[1, 2], &[15, 15, 15]),
    (b"!!<(<<100005)", &[3], &[]),
    (b"!!>(100005 OR 103007)", &[0], &[]),
    (b">103007", &[0, 1, 2, 9], &[]),
    (b">!103007", &[1, 2], &[]),
    (b"<!138875005", &[0, 4, 5, 6, 8], &[]),
    (b">>!107008", &[6, 7], &[]),
    (b"<<(101009 AND 102002)", &[], &[]),
    (b"<<101009 AND <<102002", &[3], &[]),
    (b"<<(101009 OR 107008)", &[1, 3, 7], &[]),
    (b">(101009 OR 107008)", &[0, 6, 9], &[9, 9, 9]),
    (b"<!(100005 OR 101009)", &[1, 2, 3], &[]),
    (b"* MINUS (<<100005 OR <<106004)", &[4, 5, 8, 9], &[]),
    (b"<100005 MINUS 101009", &[2, 3], &[]),
    (b"^108003", &[1, 3], &[3, 3, 3]),
    (b"<^108003", &[3], &[]),
    (b"^*", &[1, 3], &[]),
    (b"<100005:104001=106004", &[1, 2], &[11, 12, 17]),
    (b"<(<100005.104001)", &[7], &[]),
    (b"<100005.104001", &[6, 7], &[]),
    (b"<100005:{104001=<<106004,105000=*}", &[1], &[31, 26, 35]),
    (b"<100005:[2..*]{104001=* OR 105000=*}", &[2, 3], &[]),
    (b"<<106004:[3..3] R 105000=<100005", &[7], &[]),
    (b"*:105000>#2", &[2, 3], &[11, 11, 13]),
    (b"<100005:104001=<<106004,105000=*", &[1, 2, 3], &[]),
    (b"<100005:[2..*]105000=*", &[], &[]),
    (b"<100005:[1..1]{105000=*}", &[1, 2], &[]),
    (b"<100005:{[0..0]105000=*}", &[2, 3], &[]),
    (b"<<100005:[0..0]105000=*", &[0], &[]),
    (b"<<100005:[0..0]{105000=*}", &[0], &[]),
    (b"100005,100005", &[0], &[2, 2, 2]),
    (
        b"((<100005 OR <106004) MINUS ^108003).104001",
        &[6],
        &[26, 26, 26],
    ),
    (b"<100005 . 104001 . 105000", &[], &[]),
    (b"<100005:104001!=106004", &[3], &[]),
    (b"<100005:105000!=#3", &[2], &[]),
    (b"<100005:105000=#3", &[3], &[]),
    (b"*:105000=#2.50", &[2], &[]),
    (b"*:105000<#+2.6", &[2], &[]),
    (b"*:R 105000=103007", &[7], &[]),
    (b"107008,(*:R 104001=103007)", &[7], &[]),
];

// The number of concepts in the chain.
const CHAIN: u32 = 300;

// The choices that the tests ask for, for the first two leaves of a plan.
const ASKED: [[Choice; 2]; 3] = [
    [Choice::ByValue, Choice::ByValue],
    [Choice::ByType, Choice::ByType],
    [Choice::Scan, Choice::Scan],
];

// Whether executing a plan finds exactly the concept numbers `want`, with visits between its floor
// and its bound, and with `exactly` visits if that is given.
fn is_found<S: ConceptSet>(
    alloc: Global,
    snapshot: &Snapshot,
    indexes: &Indexes,
    physical: &PhysicalPlan,
    want: &[u32],
    exactly: Option<u64>,
) -> Result<bool, AllocError>
    requires { IsIndexOf indexes.now snapshot.now.release }
{
    let mut visits = Visits { count: 0 };
    let found: S = execute(alloc, physical, snapshot, indexes, &mut visits)?;
    let least = floor(physical, indexes);
    let most = bound(physical, indexes);
    let counted = least <= visits.count
        && visits.count <= most
        && exactly.is_none_or(|items| visits.count == items);
    Ok(counted && found.items(alloc)?.as_slice() == want)
}

// Whether executing a plan finds exactly the concept numbers `want`, with each form of set.
fn is_executed(
    alloc: Global,
    snapshot: &Snapshot,
    indexes: &Indexes,
    physical: &PhysicalPlan,
    want: &[u32],
    exactly: Option<u64>,
) -> Result<bool, AllocError>
    requires { IsIndexOf indexes.now snapshot.now.release }
{
    Ok(
        is_found::<SortedSet>(alloc, snapshot, indexes, physical, want, exactly)?
            && is_found::<WordSet>(alloc, snapshot, indexes, physical, want, exactly)?
            && is_found::<MixedSet>(alloc, snapshot, indexes, physical, want, exactly)?,
    )
}

// Whether executing a plan with the asked choices finds exactly the concept numbers `want`, with
// each form of set. Here and below, a function hands on and drops a value that owns much, because a
// function that owns such a value and has several exits is slow to prove.
fn is_chosen_and_drop(
    alloc: Global,
    snapshot: &Snapshot,
    indexes: &Indexes,
    plan: ConceptPlan,
    asked: &[Choice],
    want: &[u32],
    exactly: Option<u64>,
) -> Result<bool, AllocError>
    requires { IsIndexOf indexes.now snapshot.now.release }
{
    match choose_with(alloc, plan, asked, indexes) {
        Ok(physical) => {
            let is_executed = is_executed(alloc, snapshot, indexes, &physical, want, exactly);
            drop(physical);
            is_executed
        }
        Err(AllocError) => Err(AllocError),
    }
}

// Whether executing a plan finds the concepts of a row, whatever the choices of its leaves are.
fn is_found_in_each_way(
    alloc: Global,
    snapshot: &Snapshot,
    indexes: &Indexes,
    plan: &ConceptPlan,
    row: Row<'_>,
) -> Result<bool, AllocError>
    requires { IsIndexOf indexes.now snapshot.now.release }
{
    let (_, want, counts) = row;
    for (way, asked) in ASKED.iter().enumerate() {
        let same = plan.copy(alloc)?;
        let exactly = counts.get(way).copied();
        if !is_chosen_and_drop(alloc, snapshot, indexes, same, asked, want, exactly)? {
            return Ok(false);
        }
    }
    Ok(true)
}

fn is_found_and_drop(
    alloc: Global,
    snapshot: &Snapshot,
    indexes: &Indexes,
    plan: ConceptPlan,
    row: Row<'_>,
) -> Result<bool, AllocError>
    requires { IsIndexOf indexes.now snapshot.now.release }
{
    let is_found = is_found_in_each_way(alloc, snapshot, indexes, &plan, row);
    drop(plan);
    is_found
}

// Whether executing the plan of a constraint finds what a row says.
fn is_answered(
    alloc: Global,
    snapshot: &Snapshot,
    indexes: &Indexes,
    constraint: &Constraint,
    row: Row<'_>,
) -> Result<bool, AllocError>
    requires { IsIndexOf indexes.now snapshot.now.release }
{
    match lower(alloc, constraint) {
        Ok(plan) => is_found_and_drop(alloc, snapshot, indexes, plan, row),
        Err(AllocError) => Err(AllocError),
    }
}

fn assert_answered(
    rt: &impl Abort,
    alloc: Global,
    snapshot: &Snapshot,
    indexes: &Indexes,
    constraint: Constraint,
    row: Row<'_>,
) -> Result<(), AllocError>
    requires { IsIndexOf indexes.now snapshot.now.release }
{
    let holds = is_answered(alloc, snapshot, indexes, &constraint, row);
    drop(constraint);
    assert!(rt; holds?);
    Ok(())
}

fn assert_executed(
    rt: &impl Abort,
    alloc: Global,
    snapshot: &Snapshot,
    indexes: &Indexes,
    row: Row<'_>,
) -> Result<(), AllocError>
    requires { IsIndexOf indexes.now snapshot.now.release }
{
    match parse(alloc, row.0) {
        Ok(constraint) => assert_answered(rt, alloc, snapshot, indexes, constraint, row),
        // the text is no constraint, or memory to read it was refused
        Err(_) => Err(AllocError),
    }
}

// Checks queries over a release and its indexes.
fn assert_rows_by(
    rt: &impl Abort,
    alloc: Global,
    snapshot: &Snapshot,
    indexes: &Indexes,
    rows: &[Row<'_>],
) -> Result<(), AllocError>
    requires { IsIndexOf indexes.now snapshot.now.release }
{
    for row in rows {
        assert_executed(rt, alloc, snapshot, indexes, *row)?;
    }
    Ok(())
}

// Checks queries over a loaded release.
fn assert_rows(
    rt: &impl Abort,
    alloc: Global,
    snapshot: &Snapshot,
    rows: &[Row<'_>],
) -> Result<(), AllocError> {
    match Indexes::build(alloc, snapshot) {
        Ok(indexes) => assert_rows_and_drop(rt, alloc, snapshot, indexes, rows),
        Err(AllocError) => Err(AllocError),
    }
}

fn assert_rows_and_drop(
    rt: &impl Abort,
    alloc: Global,
    snapshot: &Snapshot,
    indexes: Indexes,
    rows: &[Row<'_>],
) -> Result<(), AllocError>
    requires { IsIndexOf indexes snapshot.now.release }
{
    let done = assert_rows_by(rt, alloc, snapshot, &indexes, rows);
    drop(indexes);
    done
}

// Checks queries over the release of files.
fn assert_all_executed(
    rt: &impl Abort,
    alloc: Global,
    files: &[NamedBytes<'_>],
    rows: &[Row<'_>],
) -> Result<(), AllocError> {
    match Snapshot::load(alloc, files, "en", Limits::standard()) {
        Ok(snapshot) => assert_snapshot_and_drop(rt, alloc, snapshot, rows),
        Err(fault) => memory_alone(rt, fault),
    }
}

fn assert_snapshot_and_drop(
    rt: &impl Abort,
    alloc: Global,
    snapshot: Snapshot,
    rows: &[Row<'_>],
) -> Result<(), AllocError> {
    let done = assert_rows(rt, alloc, &snapshot, rows);
    drop(snapshot);
    done
}

// Returns `AllocError` if a load was refused because memory was refused. Fails the test at any
// other fault, because the release should load.
fn memory_alone(rt: &impl Abort, fault: LoadFault) -> Result<(), AllocError> {
    assert!(rt; fault == LoadFault::Memory, "the release loads");
    Err(AllocError)
}

#[test]
fn executes_in_each_form_of_set(rt: HostRuntime) -> Result<(), Fail> {
    assert_all_executed(&rt, rt.alloc(), &sample(), &ROWS)?;
    Ok(())
}

fn assert_chain(rt: &impl Abort, alloc: Global) -> Result<(), AllocError> {
    let (concepts, rows) = chain_of(rt, alloc, u64::from(CHAIN))?;
    let files = files_of(concepts.as_slice(), rows.as_slice());
    let numbers: Vec<u32> = (0..CHAIN).collect(alloc)?;
    let all = numbers.as_slice();
    let (first, following) = all.split_at(1);
    let (before, last) = all.split_at(all.len().saturating_sub(1));
    let wants: [Row<'_>; 8] = [
        (b"<*", following, &[]),
        (b"<<*", all, &[]),
        (b">*", before, &[]),
        (b">>*", all, &[]),
        (b"<!*", following, &[]),
        (b">!*", before, &[]),
        (b"!!>*", first, &[]),
        (b"!!<*", last, &[]),
    ];
    assert_all_executed(rt, alloc, &files, &wants)
}

// The lists of a long chain are long too: they are kept as words, and are joined before the short
// lists.
#[test]
fn executes_over_a_chain(rt: HostRuntime) -> Result<(), Fail> {
    assert_chain(&rt, rt.alloc())?;
    Ok(())
}
