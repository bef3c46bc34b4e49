//! Tests of the answers to queries over small releases.
use crate::test_release::sample;
use query_tool::Engine;
use release_files::NamedBytes;
use snapshot::{Limits, LoadFault};
use std::alloc::{AllocError, Global};
use std::process::Abort;
use std::test::Fail;

// The lines of the sample's concepts in an answer.
const A: &[u8] = b"100005 |Alpha (finding)|\n";

const B: &[u8] = b"101009 |Beta (finding)|\n";

const C: &[u8] = b"102002 |Gamma (finding)|\n";

const D: &[u8] = b"103007 |Delta (finding)|\n";

const T: &[u8] = b"104001 |Type T (attribute)|\n";

const U: &[u8] = b"105000 |Type U (attribute)|\n";

const X: &[u8] = b"106004 |Value X (value)|\n";

const Y: &[u8] = b"107008 |Value Y (value)|\n";

const Q: &[u8] = b"108003\n";

const ROOT: &[u8] = b"138875005 |Root (test)|\n";

// The answer to a query for all concepts.
const EVERYTHING: &[u8] = b"OK 10\n\
100005 |Alpha (finding)|\n101009 |Beta (finding)|\n102002 |Gamma (finding)|\n103007 |Delta (finding)|\n\
104001 |Type T (attribute)|\n105000 |Type U (attribute)|\n106004 |Value X (value)|\n107008 |Value Y (value)|\n\
108003\n138875005 |Root (test)|\n";

// A language, a query line, and its answer if names in this language are preferred.
const NAMES: [(&str, &[u8], &[u8]); 5] = [
    ("da", b"103007", b"OK 1\n103007 |Delta (fund)|\n"),
    ("da", b"100005", b"OK 1\n100005 |Alpha (finding)|\n"),
    ("en", b"103007", b"OK 1\n103007 |Delta (finding)|\n"),
    ("en", b"108003", b"OK 1\n108003\n"),
    // no name is in the language that is asked for: the description with the least identifier
    // counts, whatever its language
    ("fr", b"103007", b"OK 1\n103007 |Delta (finding)|\n"),
];

// A query line, and the lines of the concepts in its answer.
type Row = (&'static [u8], &'static [&'static [u8]]);

// Queries for one concept or all concepts, alone or after a hierarchy operator.
const HIERARCHY: [Row; 24] = [
    (b"*", &[A, B, C, D, T, U, X, Y, Q, ROOT]),
    (b"100005", &[A]),
    (b"<100005", &[B, C, D]),
    (b"<<100005", &[A, B, C, D]),
    (b" < \t100005 \r", &[B, C, D]),
    (b"<<107008", &[Y]),
    (b"<103007", &[]),
    (b"< *", &[A, B, C, D, T, U, X, Y, Q]),
    (b"<< *", &[A, B, C, D, T, U, X, Y, Q, ROOT]),
    (b"109006", &[]),
    (b"<<109006", &[]),
    (b"999999", &[]),
    (b"123456789012345678", &[]),
    (b">103007", &[A, B, C, ROOT]),
    (b">>103007", &[A, B, C, D, ROOT]),
    (b">!103007", &[B, C]),
    (b"<!138875005", &[A, T, U, X, Q]),
    (b"<<!100005", &[A, B, C]),
    (b">>!107008", &[X, Y]),
    (b"> 138875005", &[]),
    (b">!*", &[A, B, C, X, ROOT]),
    (b"!!>103007", &[D]),
    (b"!!>*", &[ROOT]),
    (b"!!<*", &[D, T, U, Y, Q]),
];

// Queries with set operators, brackets, reference sets, terms and comments.
const SETS: [Row; 22] = [
    (b"!!>(<100005)", &[B, C]),
    (b"!!<(<<100005)", &[D]),
    (b"!!>(100005 OR 103007)", &[A]),
    (b"!!<(100005 OR 103007)", &[D]),
    (b"<<(101009 AND 102002)", &[]),
    (b"<<101009 AND <<102002", &[D]),
    (b"< 100005 |Alpha| /* c */ and 101009", &[B]),
    (b"<<101009,<<102002 , *", &[D]),
    (b"<(101009 OR 102002)", &[D]),
    (b">(101009 OR 107008)", &[A, X, ROOT]),
    (b"<!(100005 OR 101009)", &[B, C, D]),
    (b"101009 OR 107008 OR 100005", &[A, B, Y]),
    (b"<100005 MINUS 101009", &[C, D]),
    (b"101009 MINUS <100005", &[]),
    (b"* MINUS (<<100005 OR <<106004)", &[T, U, Q, ROOT]),
    (b"(<100005 AND <<101009) OR 104001", &[B, D, T]),
    (b"^108003", &[B, D]),
    (b"<^108003", &[D]),
    (b"^*", &[B, D]),
    (b"^(108003 AND 100005)", &[]),
    (b"<<^108003 MINUS ^108003", &[]),
    (b">^108003 AND < 138875005", &[A, B, C]),
];

// Queries with refinements and dotted attributes.
const ATTRIBUTES: [Row; 29] = [
    (b"<100005:104001=106004", &[B, C]),
    (b"<(<100005.104001)", &[Y]),
    (b"<100005:{104001=<<106004,105000=*}", &[B]),
    (b"<100005:104001=<<106004,105000=*", &[B, C, D]),
    (b"<100005:[2..*]105000=*", &[]),
    (b"<100005:[2..*]{104001=* OR 105000=*}", &[C, D]),
    (b"<100005:[1..1]{105000=*}", &[B, C]),
    (b"<100005:[2..*]{105000=*}", &[D]),
    (b"<100005:{[0..0]105000=*}", &[C, D]),
    (b"<<100005:[0..0]105000=*", &[A]),
    (b"<<100005:[0..0]{105000=*}", &[A]),
    (b"<<106004:[3..3] R 105000=<100005", &[Y]),
    (b"<100005.104001", &[X, Y]),
    (b"<100005 . 104001 . 105000", &[]),
    (b"<100005:104001!=106004", &[D]),
    (b"<100005:105000!=#3", &[C]),
    (b"<100005:105000=#3", &[D]),
    (b"<<100005:104001=*", &[B, C, D]),
    (b"<<100005:105000=*", &[B, C, D]),
    (b"*:105000>#2", &[C, D]),
    (b"*:105000=#2.50", &[C]),
    (b"*:105000<#+2.6", &[C]),
    (b"*:105000<=#2.5", &[C]),
    (b"*:105000<#2.5", &[]),
    (b"*:105000>=#2.6", &[D]),
    (b"<100005:105000=#3 OR 104001=106004", &[B, C, D]),
    (b"<100005:105000=#3 OR 105000=#2", &[D]),
    (b"<100005:[3..1]105000=*", &[]),
    (b"<100005:[0..*]105000=*", &[B, C, D]),
];

// Lines that are no constraint, and their refusals. An offset is the number of bytes before the
// refused token.
const REFUSALS: [(&[u8], &[u8]); 33] = [
    (b"", b"ERR syntax\n"),
    (b"99", b"ERR syntax\n"),
    (b"0", b"ERR syntax\n"),
    (b"<", b"ERR syntax\n"),
    (b"**", b"ERR syntax\n"),
    (b"<<<100005", b"ERR syntax\n"),
    (b"< <100005", b"ERR syntax\n"),
    (b"< 100005 100005", b"ERR syntax\n"),
    (b"100005 AND 101009 OR 102002", b"ERR syntax\n"),
    (b"100005 MINUS 100005 MINUS 100005", b"ERR syntax\n"),
    (b"*:105000=*,105000=* OR 105000=*", b"ERR syntax\n"),
    (b"*:{R 105000=*}", b"ERR syntax\n"),
    (b"*:105000=#2.", b"ERR syntax\n"),
    (b"007", b"ERR token 0\n"),
    (b"100005x", b"ERR token 6\n"),
    (b"100005 |Alpha", b"ERR token 7\n"),
    (b"100005 XOR 101009", b"ERR token 7\n"),
    (b"100005 AND(101009)", b"ERR token 7\n"),
    (b"1234567890123456789", b"ERR limit 0\n"),
    (b"<< 1234567890123456789", b"ERR limit 3\n"),
    (b"\xff", b"ERR utf8\n"),
    // of two refusals the one with the lower offset counts, however many tokens come before it
    (b"007 x", b"ERR token 0\n"),
    (b"x 1234567890123456789", b"ERR token 0\n"),
    (b"1234567890123456789 x", b"ERR limit 0\n"),
    (b"* * * * x 007", b"ERR token 8\n"),
    (b"* \xc3\xa9", b"ERR token 2\n"),
    // a text that is not UTF-8 has no tokens
    (b"x \xff", b"ERR utf8\n"),
    (b"*{{C active=1}}", b"ERR unsupported 1 filter\n"),
    (b"*{{+HISTORY}}", b"ERR unsupported 1 history\n"),
    (b"^[a]108003", b"ERR unsupported 0 fields\n"),
    (b"LOINC#1-8", b"ERR unsupported 0 identifier\n"),
    (b"*:105000=\"x\"", b"ERR unsupported 9 string\n"),
    (b"*:105000=true", b"ERR unsupported 9 boolean\n"),
];

// A concept file whose rows are not in the order of their identifiers.
const TWO_CONCEPTS: &[u8] = b"id\teffectiveTime\tactive\tmoduleId\tdefinitionStatusId\r\n\
1000004\t20240101\t1\t900000000000207008\t900000000000074008\r\n\
100005\t20240101\t1\t900000000000207008\t900000000000074008\r\n";

// Returns the answer of an engine to a line, appended to some bytes.
fn answered_by(alloc: Global, engine: &Engine, line: &[u8]) -> Result<Vec<u8>, AllocError> {
    let mut output = Vec::from_slice(alloc, b"before\n")?;
    engine.answer(alloc, line, &mut output)?;
    Ok(output)
}

// Returns the answer of an engine to a line, and drops the engine. A function that owns an engine
// and has several exits is slow to prove.
fn answered_and_drop(alloc: Global, engine: Engine, line: &[u8]) -> Result<Vec<u8>, AllocError> {
    let answered = answered_by(alloc, &engine, line);
    drop(engine);
    answered
}

// Returns the answer to a line over a release, if names in a language are preferred.
fn answered(
    rt: &impl Abort,
    alloc: Global,
    files: &[NamedBytes<'_>],
    language: &str,
    line: &[u8],
) -> Result<Vec<u8>, AllocError> {
    match Engine::load(alloc, files, language, Limits::standard()) {
        Ok(engine) => answered_and_drop(alloc, engine, line),
        Err(fault) => {
            assert!(rt; fault == LoadFault::Memory, "the release loads");
            Err(AllocError)
        }
    }
}

// Returns the answer with the concepts that have these lines.
fn answer_of(alloc: Global, lines: &[&[u8]]) -> Result<Vec<u8>, AllocError> {
    let mut digits = itoa::Buffer::new();
    let mut answer = Vec::from_slice(alloc, b"before\nOK ")?;
    answer.extend_from_slice(digits.format(lines.len() as u64).as_bytes())?;
    answer.push(b'\n')?;
    for line in lines {
        answer.extend_from_slice(line)?;
    }
    Ok(answer)
}

// Whether `bytes` are the answer with the concepts that have these lines.
fn is_answer(alloc: Global, bytes: &[u8], lines: &[&[u8]]) -> Result<bool, AllocError> {
    let answer = answer_of(alloc, lines)?;
    Ok(bytes == answer.as_slice())
}

fn assert_answers(rt: &impl Abort, alloc: Global, rows: &[Row]) -> Result<(), AllocError> {
    for (line, lines) in rows {
        let output = answered(rt, alloc, &sample(), "en", line)?;
        assert!(rt; is_answer(alloc, output.as_slice(), lines)?);
    }
    Ok(())
}

#[test]
fn answers_queries_of_the_hierarchy(rt: HostRuntime) -> Result<(), Fail> {
    assert_answers(&rt, rt.alloc(), &HIERARCHY)?;
    Ok(())
}

#[test]
fn answers_queries_of_sets(rt: HostRuntime) -> Result<(), Fail> {
    assert_answers(&rt, rt.alloc(), &SETS)?;
    Ok(())
}

#[test]
fn answers_queries_of_attributes(rt: HostRuntime) -> Result<(), Fail> {
    assert_answers(&rt, rt.alloc(), &ATTRIBUTES)?;
    Ok(())
}

// Checks the answer to a line over the sample release, if names in a language are preferred.
fn check_answer(
    rt: &impl Abort,
    alloc: Global,
    language: &str,
    line: &[u8],
    answer: &[u8],
) -> Result<(), AllocError> {
    let output = answered(rt, alloc, &sample(), language, line)?;
    assert!(rt; output.as_slice().strip_prefix(b"before\n".as_slice()) == Some(answer));
    Ok(())
}

fn assert_refusals(
    rt: &impl Abort,
    alloc: Global,
    rows: &[(&[u8], &[u8])],
) -> Result<(), AllocError> {
    for (line, answer) in rows {
        check_answer(rt, alloc, "en", line, answer)?;
    }
    Ok(())
}

#[test]
fn refuses_other_lines(rt: HostRuntime) -> Result<(), Fail> {
    assert_refusals(&rt, rt.alloc(), &REFUSALS)?;
    Ok(())
}

// Checks the answer to a line of `count` spaces.
fn check_spaces(
    rt: &impl Abort,
    alloc: Global,
    count: usize,
    answer: &[u8],
) -> Result<(), AllocError> {
    let line = vec![in alloc; b' '; count]?;
    check_answer(rt, alloc, "en", line.as_slice(), answer)
}

#[test]
fn refuses_long_lines(rt: HostRuntime) -> Result<(), Fail> {
    check_spaces(&rt, rt.alloc(), 65_535, b"ERR syntax\n")?;
    check_spaces(&rt, rt.alloc(), 65_536, b"ERR long\n")?;
    Ok(())
}

// Returns a query for all concepts within `count` pairs of brackets.
fn in_brackets(alloc: Global, count: usize) -> Result<Vec<u8>, AllocError> {
    let mut line = vec![in alloc; b'('; count]?;
    line.push(b'*')?;
    for _ in 0..count {
        line.push(b')')?;
    }
    Ok(line)
}

fn check_brackets(
    rt: &impl Abort,
    alloc: Global,
    count: usize,
    answer: &[u8],
) -> Result<(), AllocError> {
    let line = in_brackets(alloc, count)?;
    check_answer(rt, alloc, "en", line.as_slice(), answer)
}

// Checks a query with as many brackets as may be open at once, and one with one more.
#[test]
fn refuses_deep_brackets(rt: HostRuntime) -> Result<(), Fail> {
    check_brackets(&rt, rt.alloc(), 64, EVERYTHING)?;
    check_brackets(&rt, rt.alloc(), 65, b"ERR depth\n")?;
    Ok(())
}

#[test]
fn answers_in_rising_order(rt: HostRuntime) -> Result<(), Fail> {
    let files = [NamedBytes {
        name: "sct2_Concept_Snapshot_INT_20240101.txt",
        bytes: TWO_CONCEPTS,
    }];
    let output = answered(&rt, rt.alloc(), &files, "en", b"*")?;
    assert!(rt; output.as_slice() == b"before\nOK 2\n100005\n1000004\n".as_slice());
    Ok(())
}

fn check_names(
    rt: &impl Abort,
    alloc: Global,
    rows: &[(&str, &[u8], &[u8])],
) -> Result<(), AllocError> {
    for (language, line, answer) in rows {
        check_answer(rt, alloc, language, line, answer)?;
    }
    Ok(())
}

// A concept is shown with a name in the preferred language, or, if it has none, with another name.
#[test]
fn names_concepts_in_a_language(rt: HostRuntime) -> Result<(), Fail> {
    check_names(&rt, rt.alloc(), &NAMES)?;
    Ok(())
}
