//! Tests of the options of `query`: a limit on visits, only the first lines, only identifiers.
use crate::test_release::sample;
use crate::test_serve::is_answered;
use query_tool::{AnswerForm, Engine, Mode, QueryOptions, Visits};
use snapshot::Limits;
use std::alloc::{AllocError, Global};
use std::test::Fail;

// Query lines. The plan of the first has a bound of 4: Alpha and its list of three concepts below
// it. The bound of the second is 17, as its worked plan shows. The bound of the third is 0. The
// last line is no constraint.
const LINES: &[u8] = b"<100005\n<100005:104001=106004\n*\n100005 XOR 101009\n";

// The answers under a limit of 4, which is the bound of the first line's plan.
const WITHIN_FOUR: &[u8] =
    b"OK 3\n101009 |Beta (finding)|\n102002 |Gamma (finding)|\n103007 |Delta (finding)|\n\
ERR bound 17\n\
OK 10\n100005 |Alpha (finding)|\n101009 |Beta (finding)|\n102002 |Gamma (finding)|\n103007 |Delta (finding)|\n\
104001 |Type T (attribute)|\n105000 |Type U (attribute)|\n106004 |Value X (value)|\n107008 |Value Y (value)|\n\
108003\n138875005 |Root (test)|\n\
ERR token 7\n";

// The answers under a limit of 3, with at most one concept each.
const WITHIN_THREE: &[u8] =
    b"ERR bound 4\nERR bound 17\nOK 10\n100005 |Alpha (finding)|\nERR token 7\n";

// The answers with at most two concepts each.
const FIRST_TWO: &[u8] = b"OK 3\n101009 |Beta (finding)|\n102002 |Gamma (finding)|\n\
OK 2\n101009 |Beta (finding)|\n102002 |Gamma (finding)|\n\
OK 10\n100005 |Alpha (finding)|\n101009 |Beta (finding)|\nERR token 7\n";

// The answers without any concept.
const COUNTS: &[u8] = b"OK 3\nOK 2\nOK 10\nERR token 7\n";

// The answers with identifiers and no names.
const IDENTIFIERS: &[u8] = b"OK 3\n101009\n102002\n103007\nOK 2\n101009\n102002\n\
OK 10\n100005\n101009\n102002\n103007\n104001\n105000\n106004\n107008\n108003\n138875005\nERR token 7\n";

// The answers with all three options: a limit of 16, at most one concept each, and no names.
const ALL_THREE: &[u8] = b"OK 3\n101009\nERR bound 17\nOK 10\n100005\nERR token 7\n";

#[test]
fn answers_with_options(rt: HostRuntime) -> Result<(), Fail> {
    let alloc = rt.alloc();
    let cases = [
        (options(4, None, true), WITHIN_FOUR),
        (options(3, Some(1), true), WITHIN_THREE),
        (options(u64::MAX, Some(2), true), FIRST_TWO),
        (options(u64::MAX, Some(0), true), COUNTS),
        (options(u64::MAX, None, false), IDENTIFIERS),
        (options(16, Some(1), false), ALL_THREE),
    ];
    for (options, wanted) in cases {
        assert!(rt; is_answered(alloc, Mode::QueryWith(options), LINES, wanted)?);
    }
    Ok(())
}

fn options(limit: u64, first: Option<u64>, names: bool) -> QueryOptions {
    QueryOptions {
        limit,
        first,
        names,
    }
}

// The engine counts no visit if the bound is above the limit. For `<100005` it counts four, which
// is both the floor and the bound of the plan.
#[test]
fn counts_visits_under_a_limit(rt: HostRuntime) -> Result<(), Fail> {
    let alloc = rt.alloc();
    match Engine::load(alloc, &sample(), "en", Limits::standard()) {
        Ok(engine) => assert!(rt; counts_visits(alloc, &engine)?),
        Err(_) => assert!(rt; false, "the sample loads"),
    }
    Ok(())
}

fn counts_visits(alloc: Global, engine: &Engine) -> Result<bool, AllocError> {
    let mut visits = Visits { count: 10 };
    let mut output = Vec::new(alloc);
    let form = AnswerForm::whole();
    engine.answer_within(alloc, b"<100005", 3, form, &mut visits, &mut output)?;
    let refused = visits.count;
    engine.answer_within(alloc, b"<100005", 4, form, &mut visits, &mut output)?;
    Ok(
        refused == 10
            && visits.count == 14
            && output.starts_with(b"ERR bound 4\nOK 3\n101009 |Beta (finding)|\n"),
    )
}
