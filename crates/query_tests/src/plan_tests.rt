//! Tests of the plans of queries over the sample release, and of answers that are found by other
//! plans.
use crate::test_release::sample;
use crate::test_streams::{PieceInput, PieceOutput, ROOM};
use query_tool::{Choice, Engine, Rule, Step, run_explain};
use snapshot::{Limits, LoadFault};
use std::alloc::{AllocError, Global};
use std::process::Abort;
use std::test::Fail;

// A query line, and the text of its plan.
type Row = (&'static [u8], &'static [u8]);

const BY_VALUE: &[u8] = b"PLAN 17\nand 10\n descendants 4\n  one 100005 0\n\
\x20pairs out 1..* within by value 3\n  one 104001 0\n  one 106004 0\n";

const BY_TYPE: &[u8] =
    b"PLAN 39\nand 32\n all 0\n pairs out 1..* > 2000000000000000000 by type 7\n  one 105000 0\n";

const IN_BRACES: &[u8] = b"PLAN 50\nand 12\n descendants 4\n  one 100005 0\n units 1..* 3\n\
\x20 unit-and 18\n   unit-pairs 1..* within by type 4\n    one 104001 0\n    descendants-self 2\n     one 106004 0\n\
\x20  unit-pairs 1..* within by type 7\n    one 105000 0\n    all 0\n";

const TWICE_THE_SAME: &[u8] = b"PLAN 0\none 100005 0\n";

// The lines of a run that writes plans.
const LINES: &[u8] =
    b"<100005:104001=106004\n*:105000>#2\n<100005:{104001=<<106004,105000=*}\n\n100005,100005";

const TEXTS: &[u8] = b"PLAN 17\nand 10\n descendants 4\n  one 100005 0\n\
\x20pairs out 1..* within by value 3\n  one 104001 0\n  one 106004 0\n\
PLAN 39\nand 32\n all 0\n pairs out 1..* > 2000000000000000000 by type 7\n  one 105000 0\n\
PLAN 50\nand 12\n descendants 4\n  one 100005 0\n units 1..* 3\n\
\x20 unit-and 18\n   unit-pairs 1..* within by type 4\n    one 104001 0\n    descendants-self 2\n     one 106004 0\n\
\x20  unit-pairs 1..* within by type 7\n    one 105000 0\n    all 0\n\
ERR syntax\nPLAN 0\none 100005 0\n";

const PLANS: [Row; 5] = [
    (b"<100005:104001=106004", BY_VALUE),
    (b"<100005:{104001=106004}", BY_VALUE),
    (b"*:105000>#2", BY_TYPE),
    (b"<100005:{104001=<<106004,105000=*}", IN_BRACES),
    (b"100005,100005", TWICE_THE_SAME),
];

// Plans with the other kinds of nodes. The sample has 10 concepts, 9 attribute rows, 8 groups, and
// 15 pairs of a concept and an ancestor.
const OTHER_PLANS: [Row; 8] = [
    (
        b"((<100005 OR <106004) MINUS ^108003).104001",
        b"PLAN 36\nvalues 13\n minus 6\n  or 8\n   descendants 4\n    one 100005 0\n   descendants 2\n    one 106004 0\n\
\x20 members 3\n   one 108003 0\n one 104001 0\n",
    ),
    // because no pair need match, all 10 concepts are visited, besides one type and its 6 rows
    (
        b"*:[0..1]R 105000!=<100005",
        b"PLAN 61\nand 40\n all 0\n pairs in 0..1 outside by type 17\n  one 105000 0\n  descendants 4\n   one 100005 0\n",
    ),
    (
        b"<100005:105000>=#-0.5",
        b"PLAN 29\nand 18\n descendants 4\n  one 100005 0\n pairs out 1..* >= -500000000000000000 by type 7\n  one 105000 0\n",
    ),
    // the leaves are scanned: by type they would visit 10 types and 9 rows, by a scan they visit 8
    // groups and 9 rows
    (
        b"*:{*>#2 OR *=*}",
        b"PLAN 110\nand 36\n all 0\n units 1..* 8\n  unit-or 32\n   unit-pairs 1..* > 2000000000000000000 by scan 17\n    all 0\n\
\x20  unit-pairs 1..* within by scan 17\n    all 0\n    all 0\n",
    ),
    (
        b"!!>(<100005)",
        b"PLAN 22\ntop 18\n descendants 4\n  one 100005 0\n",
    ),
    (
        b"*:{[0..*]104001=*}",
        b"PLAN 44\nand 36\n all 0\n units 1..* 8\n  every-unit 0\n",
    ),
    (
        b"*:{[2..1]104001=*}",
        b"PLAN 20\nand 20\n all 0\n units 1..* 0\n  no-units 0\n",
    ),
    (b"*:[2..1]104001=*", b"PLAN 20\nand 20\n all 0\n empty 0\n"),
];

// Lines that are no constraint.
const REFUSED: [&[u8]; 7] = [
    b"",
    b"007",
    b"100005 |Alpha",
    b"1234567890123456789",
    b"\xff",
    b"*{{C active=1}}",
    b"100005 AND 101009 OR 102002",
];

// Queries with attributes.
const ATTRIBUTES: [&[u8]; 15] = [
    b"<100005:{104001=<<106004,105000=*}",
    b"<100005:104001=<<106004,105000=*",
    b"<100005:[2..*]105000=*",
    b"<100005:[2..*]{104001=* OR 105000=*}",
    b"<100005:[1..1]{105000=*}",
    b"<100005:{[0..0]105000=*}",
    b"<<100005:[0..0]105000=*",
    b"<<100005:[0..0]{105000=*}",
    b"<<106004:[3..3] R 105000=<100005",
    b"<100005:104001!=106004",
    b"<100005:105000!=#3",
    b"<100005:105000=#3",
    b"*:105000>#2",
    b"*:105000=#2.50",
    b"*:105000<#+2.6",
];

// Makes the step of a rule at the second child.
fn at_second(rule: Rule) -> Step<'static> {
    Step { rule, place: &[1] }
}

// Returns the explanation of a line by an engine, appended to some bytes.
fn explained_by(alloc: Global, engine: &Engine, line: &[u8]) -> Result<Vec<u8>, AllocError> {
    let mut output = Vec::from_slice(alloc, b"before\n")?;
    engine.explain(alloc, line, &mut output)?;
    Ok(output)
}

// Returns the answer of an engine to a line, appended to some bytes.
fn answered_by(alloc: Global, engine: &Engine, line: &[u8]) -> Result<Vec<u8>, AllocError> {
    let mut output = Vec::from_slice(alloc, b"before\n")?;
    engine.answer(alloc, line, &mut output)?;
    Ok(output)
}

// Returns the answer of an engine to a line by another plan, appended to some bytes.
fn answered_with(
    alloc: Global,
    engine: &Engine,
    line: &[u8],
    steps: &[Step<'_>],
    choices: &[Choice],
) -> Result<Vec<u8>, AllocError> {
    let mut output = Vec::from_slice(alloc, b"before\n")?;
    engine.answer_with(alloc, line, steps, choices, &mut output)?;
    Ok(output)
}

// Checks the plans of lines.
fn look_at_plans(
    rt: &impl Abort,
    alloc: Global,
    engine: &Engine,
    rows: &[Row],
) -> Result<(), AllocError> {
    for (line, text) in rows {
        let output = explained_by(alloc, engine, line)?;
        assert!(rt; output.as_slice().strip_prefix(b"before\n".as_slice()) == Some(*text));
    }
    Ok(())
}

// Checks that the explanation of a refused line is its refusal.
fn look_at_refusals(
    rt: &impl Abort,
    alloc: Global,
    engine: &Engine,
    lines: &[&[u8]],
) -> Result<(), AllocError> {
    for line in lines {
        let output = explained_by(alloc, engine, line)?;
        assert!(rt; output.as_slice() == answered_by(alloc, engine, line)?.as_slice());
    }
    Ok(())
}

// Checks that lines have the same answer, whether their leaves are answered by value, by type or by
// a scan.
fn look_at_choices(
    rt: &impl Abort,
    alloc: Global,
    engine: &Engine,
    lines: &[&[u8]],
) -> Result<(), AllocError> {
    for line in lines {
        let answer = answered_by(alloc, engine, line)?;
        for choice in [Choice::ByValue, Choice::ByType, Choice::Scan] {
            let output = answered_with(alloc, engine, line, &[], &[choice; 4])?;
            assert!(rt; output.as_slice() == answer.as_slice());
        }
    }
    Ok(())
}

// Checks the answer by a rewritten plan where scans answer all leaves. Of the steps, only the first
// applies.
fn look_at_steps(rt: &impl Abort, alloc: Global, engine: &Engine) -> Result<(), AllocError> {
    let steps = [
        at_second(Rule::BraceGuard),
        at_second(Rule::BraceOr),
        at_second(Rule::RangeTurn),
    ];
    let line = b"<100005:{104001=<<106004,105000=*}";
    let output = answered_with(alloc, engine, line, &steps, &[Choice::Scan; 3])?;
    assert!(rt; output.as_slice() == b"before\nOK 1\n101009 |Beta (finding)|\n".as_slice());
    Ok(())
}

fn look(rt: &impl Abort, alloc: Global, engine: &Engine) -> Result<(), AllocError> {
    look_at_plans(rt, alloc, engine, &PLANS)?;
    look_at_plans(rt, alloc, engine, &OTHER_PLANS)?;
    look_at_refusals(rt, alloc, engine, &REFUSED)?;
    look_at_choices(rt, alloc, engine, &ATTRIBUTES)?;
    look_at_steps(rt, alloc, engine)
}

// Checks an engine and drops it. A function that owns an engine and has several exits is slow to
// prove.
fn look_and_drop(rt: &impl Abort, alloc: Global, engine: Engine) -> Result<(), AllocError> {
    let looked = look(rt, alloc, &engine);
    drop(engine);
    looked
}

fn look_at_sample(rt: &impl Abort, alloc: Global) -> Result<(), LoadFault> {
    match Engine::load(alloc, &sample(), "en", Limits::standard()) {
        Ok(engine) => Ok(look_and_drop(rt, alloc, engine)?),
        Err(fault) => Err(fault),
    }
}

#[test]
fn tells_plans_and_answers_by_others(rt: HostRuntime) -> Result<(), Fail> {
    look_at_sample(&rt, rt.alloc())?;
    Ok(())
}

// Whether a run writes the plans, if its streams transfer at most `most` bytes at once.
fn is_run(alloc: Global, engine: &Engine, most: usize) -> bool {
    let mut input = PieceInput::new(LINES, most, ROOM);
    let mut output = PieceOutput::new(alloc, most, ROOM);
    let answer = run_explain(alloc, engine, &mut input, &mut output);
    answer == Ok(5) && output.bytes.as_slice() == TEXTS
}

fn is_run_and_drop(alloc: Global, engine: Engine, most: usize) -> bool {
    let is_run = is_run(alloc, &engine, most);
    drop(engine);
    is_run
}

// Whether a run over the sample release writes the plans, if its streams transfer at most `most`
// bytes at once.
fn is_written(alloc: Global, most: usize) -> bool {
    match Engine::load(alloc, &sample(), "en", Limits::standard()) {
        Ok(engine) => is_run_and_drop(alloc, engine, most),
        Err(_) => false,
    }
}

#[test]
fn writes_the_plans_of_each_line(rt: HostRuntime) {
    for most in [1, 3, ROOM] {
        assert!(rt; is_written(rt.alloc(), most), "{most}");
    }
}
