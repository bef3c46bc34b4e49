//! Tests of the answers to lines of `describe`, and of the answers to requests of `session`.
use crate::test_release::sample;
use crate::test_serve::is_answered;
use query_tool::{Engine, Mode};
use snapshot::Limits;
use std::alloc::{AllocError, Global};
use std::test::Fail;

// Lines that name the three findings with attributes.
const FINDINGS: &[u8] = b"101009\n102002 |Gamma (finding)|\n103007\n";

const TOLD_OF_FINDINGS: &[u8] = b"CONCEPT 101009 |Beta (finding)|\n\
PARENTS 1\n100005 |Alpha (finding)|\n\
CHILDREN 1\n103007 |Delta (finding)|\n\
ATTRIBUTES 2\n\
1 104001 |Type T (attribute)| 106004 |Value X (value)|\n\
1 105000 |Type U (attribute)| 107008 |Value Y (value)|\n\
MEMBER-OF 1\n108003\n\
CONCEPT 102002 |Gamma (finding)|\n\
PARENTS 1\n100005 |Alpha (finding)|\n\
CHILDREN 1\n103007 |Delta (finding)|\n\
ATTRIBUTES 3\n\
0 105000 |Type U (attribute)| #2.5\n\
1 104001 |Type T (attribute)| 106004 |Value X (value)|\n\
2 105000 |Type U (attribute)| 107008 |Value Y (value)|\n\
MEMBER-OF 0\n\
CONCEPT 103007 |Delta (finding)|\n\
PARENTS 2\n101009 |Beta (finding)|\n102002 |Gamma (finding)|\n\
CHILDREN 0\n\
ATTRIBUTES 4\n\
0 104001 |Type T (attribute)| 107008 |Value Y (value)|\n\
0 105000 |Type U (attribute)| 107008 |Value Y (value)|\n\
1 105000 |Type U (attribute)| #3\n\
2 105000 |Type U (attribute)| 107008 |Value Y (value)|\n\
MEMBER-OF 1\n108003\n";

// Lines that name the seven other concepts. Of the attribute rows of Alpha, one is stated, one is
// inactive, and one leads to an inactive concept.
const OTHERS: &[u8] = b"138875005\n100005\n104001\n105000\n106004\n107008\n108003\n";

const TOLD_OF_OTHERS: &[u8] = b"CONCEPT 138875005 |Root (test)|\n\
PARENTS 0\n\
CHILDREN 5\n100005 |Alpha (finding)|\n104001 |Type T (attribute)|\n105000 |Type U (attribute)|\n\
106004 |Value X (value)|\n108003\n\
ATTRIBUTES 0\nMEMBER-OF 0\n\
CONCEPT 100005 |Alpha (finding)|\n\
PARENTS 1\n138875005 |Root (test)|\n\
CHILDREN 2\n101009 |Beta (finding)|\n102002 |Gamma (finding)|\n\
ATTRIBUTES 0\nMEMBER-OF 0\n\
CONCEPT 104001 |Type T (attribute)|\n\
PARENTS 1\n138875005 |Root (test)|\n\
CHILDREN 0\nATTRIBUTES 0\nMEMBER-OF 0\n\
CONCEPT 105000 |Type U (attribute)|\n\
PARENTS 1\n138875005 |Root (test)|\n\
CHILDREN 0\nATTRIBUTES 0\nMEMBER-OF 0\n\
CONCEPT 106004 |Value X (value)|\n\
PARENTS 1\n138875005 |Root (test)|\n\
CHILDREN 1\n107008 |Value Y (value)|\n\
ATTRIBUTES 0\nMEMBER-OF 0\n\
CONCEPT 107008 |Value Y (value)|\n\
PARENTS 1\n106004 |Value X (value)|\n\
CHILDREN 0\nATTRIBUTES 0\nMEMBER-OF 0\n\
CONCEPT 108003\n\
PARENTS 1\n138875005 |Root (test)|\n\
CHILDREN 0\nATTRIBUTES 0\nMEMBER-OF 0\n";

// Lines that name no concept in force. The first has an inactive concept with blanks and a term
// around it, the second an unknown concept. The others have one fault each: no identifier, a
// letter, a leading zero, the identifier of a description, a wrong check digit, a term without an
// end, and bytes that are not UTF-8.
const NOT_IN_FORCE: &[u8] = b" \t109006 |Gone|\t\r\n404684003\n\n10100x\n010009\n101013\n101008\n\
101009|Beta\n101009\xff\n";

const TOLD_OF_THESE: &[u8] =
    b"INACTIVE 109006\nUNKNOWN 404684003\nERR id length\nERR id digit\nERR id zero\n\
ERR id part\nERR id check\nERR id digit\nERR utf8\n";

// Requests. First pages of an answer: the first two concepts, the second alone, all from the third
// on, none after the end. Then identifiers without names, a bound above the limit, a plan, and a
// concept.
const REQUESTS: &[u8] =
    b"list 0 2 - <100005\nlist 1 1 - <100005\nlist 2 - - <100005\nlist 3 5 - <100005\n\
ids 0 - 4 <100005\nlist 00 - 3 <100005\nexplain <100005\ndescribe 109006\n";

const ANSWERS: &[u8] = b"OK 3\n101009 |Beta (finding)|\n102002 |Gamma (finding)|\n\
OK 3\n102002 |Gamma (finding)|\n\
OK 3\n103007 |Delta (finding)|\n\
OK 3\n\
OK 3\n101009\n102002\n103007\n\
ERR bound 4\n\
PLAN 4\ndescendants 4\n one 100005 0\n\
INACTIVE 109006\n";

// Lines that are refused. The refusal of a constraint has its offset from the constraint's first
// byte. The other lines are no requests: no verb, an unknown verb, a verb alone, no text, a sign, a
// letter, a number of more than 64 bits, two spaces in place of one, `-` as an offset.
const NO_REQUESTS: &[u8] = b"ids 0 1 - 100005 XOR 101009\nexplain \xff\ndescribe 101008\n\
\ncount 0\nexplain\ndescribe \nlist 0 1 -\nlist 0 1 - \nlist 0 -1 - *\nlist 0 1 x *\n\
list 18446744073709551616 1 - *\nlist  0 1 - *\nids - 1 - *\nLIST 0 1 - *\n";

const REFUSALS: &[u8] = b"ERR token 7\nERR utf8\nERR id check\n\
ERR request\nERR request\nERR request\nERR request\nERR request\nERR request\nERR request\nERR request\n\
ERR request\nERR request\nERR request\nERR request\n";

#[test]
fn tells_of_concepts(rt: HostRuntime) -> Result<(), Fail> {
    let alloc = rt.alloc();
    assert!(rt; is_answered(alloc, Mode::Describe, FINDINGS, TOLD_OF_FINDINGS)?);
    assert!(rt; is_answered(alloc, Mode::Describe, OTHERS, TOLD_OF_OTHERS)?);
    assert!(rt; is_answered(alloc, Mode::Describe, NOT_IN_FORCE, TOLD_OF_THESE)?);
    Ok(())
}

#[test]
fn answers_requests(rt: HostRuntime) -> Result<(), Fail> {
    let alloc = rt.alloc();
    assert!(rt; is_answered(alloc, Mode::Session, REQUESTS, ANSWERS)?);
    assert!(rt; is_answered(alloc, Mode::Session, NO_REQUESTS, REFUSALS)?);
    Ok(())
}

// `describe` and `session` refuse a line of 65,536 bytes as too long, and answer one of 65,535
// bytes.
#[test]
fn refuses_long_lines(rt: HostRuntime) -> Result<(), Fail> {
    let alloc = rt.alloc();
    match Engine::load(alloc, &sample(), "en", Limits::standard()) {
        Ok(engine) => assert!(rt; tells_long_lines(alloc, &engine)?),
        Err(_) => assert!(rt; false, "the sample loads"),
    }
    Ok(())
}

fn tells_long_lines(alloc: Global, engine: &Engine) -> Result<bool, AllocError> {
    let mut line: Vec<u8> = vec![in alloc; b' '; 65_535]?;
    let mut output = Vec::new(alloc);
    engine.describe(alloc, line.as_slice(), &mut output)?;
    engine.request(alloc, line.as_slice(), &mut output)?;
    line.push(b' ')?;
    engine.describe(alloc, line.as_slice(), &mut output)?;
    engine.request(alloc, line.as_slice(), &mut output)?;
    Ok(output.as_slice() == b"ERR id length\nERR request\nERR long\nERR long\n".as_slice())
}
