//! Tests of the parser: texts with their trees, and texts that are refused.
use crate::trees::{boxed, either, members, pair_of, reversed, walk};
use constraint_tree::{
    Attribute, AttributeSet, Cardinality, Compare, Constraint, Operator, Refinement, Test,
};
use ecl_lexer::{Feature, QueryFault};
use ecl_parser::{parse, read_again};
use numerals::Decimal;
use std::alloc::{AllocError, Global};
use std::process::Abort;

// Whether the parser reads `text` as `tree`.
fn is_answered(alloc: Global, text: &[u8], tree: &Constraint) -> bool {
    match parse(alloc, text) {
        Ok(found) => found == *tree,
        Err(_) => false,
    }
}

fn check(rt: &impl Abort, alloc: Global, text: &[u8], tree: &Constraint) {
    assert!(rt; is_answered(alloc, text, tree), "{text:?}");
}

// Checks that the parser reads `text` as the tree, once the tree is made.
fn check_built(
    rt: &impl Abort,
    alloc: Global,
    text: &[u8],
    built: Result<Constraint, AllocError>,
) -> Result<(), AllocError> {
    check(rt, alloc, text, &built?);
    Ok(())
}

fn refusal(alloc: Global, text: &[u8]) -> Option<QueryFault> {
    parse(alloc, text).err()
}

// Checks that a text is refused with `fault`.
fn check_refused(rt: &impl Abort, alloc: Global, text: &[u8], fault: QueryFault) {
    let found = refusal(alloc, text);
    assert!(rt; found == Some(fault), "{found:?}");
}

fn check_all_refused(rt: &impl Abort, alloc: Global, rows: &[(&[u8], QueryFault)]) {
    for (text, fault) in rows {
        check_refused(rt, alloc, text, *fault);
    }
}

fn check_no_syntax(rt: &impl Abort, alloc: Global, texts: &[&[u8]]) {
    for text in texts {
        check_refused(rt, alloc, text, QueryFault::Syntax);
    }
}

#[test]
fn refuses_what_the_grammar_lacks(rt: HostRuntime) {
    check_no_syntax(
        &rt,
        rt.alloc(),
        &[
            b"100005 AND 101009 OR 102002",
            b"",
            b"100005 MINUS 100005 MINUS 100005",
            b"99",
            b"*:105000=*,105000=* OR 105000=*",
            b"*:{R 105000=*}",
            b"*:105000=#2.",
            b"( <100005 ) and R105000 = *",
            b"105000<!=#3",
            b"*:105000<*",
            b"*:{105000=*",
            b"*)",
            b"<",
        ],
    );
    // the empty text takes no memory, so its only refusal is its syntax
    assert!(rt; refusal(rt.alloc(), b"") == Some(QueryFault::Syntax));
}

#[test]
fn refuses_tokens_first(rt: HostRuntime) {
    check_all_refused(
        &rt,
        rt.alloc(),
        &[
            (
                b"*{{C active=1}}",
                QueryFault::Unsupported(1, Feature::Filter),
            ),
            (
                b"*{{+HISTORY}}",
                QueryFault::Unsupported(1, Feature::History),
            ),
            (b"^[a]108003", QueryFault::Unsupported(0, Feature::Fields)),
            (
                b"LOINC#1-8",
                QueryFault::Unsupported(0, Feature::Identifier),
            ),
            (
                b"*:105000=\"x\"",
                QueryFault::Unsupported(9, Feature::String),
            ),
            (
                b"*:105000=true",
                QueryFault::Unsupported(9, Feature::Boolean),
            ),
            (b"100005 XOR 101009", QueryFault::Token(7)),
            (b"100005 AND(101009)", QueryFault::Token(7)),
            (b"100005 |Alpha", QueryFault::Token(7)),
            (b"007", QueryFault::Token(0)),
            (b"1234567890123456789", QueryFault::Limit(0)),
            (b"*:105000=#1234567890123456789", QueryFault::Limit(9)),
            (b"*:105000=#-02", QueryFault::Token(9)),
            (b"\xFF", QueryFault::Utf8),
            (b"?\xFF", QueryFault::Utf8),
        ],
    );
}

// Returns a text of `count` times the byte `open`, then `inside`, then `count` times the byte
// `close`.
fn nested(
    alloc: Global,
    count: usize,
    open: u8,
    inside: &[u8],
    close: u8,
) -> Result<Vec<u8>, AllocError> {
    let mut text = Vec::new(alloc);
    for _ in 0..count {
        text.push(open)?;
    }
    text.extend_from_slice(inside)?;
    for _ in 0..count {
        text.push(close)?;
    }
    Ok(text)
}

// Checks that nested brackets are refused. A row has the number of brackets, the opening bracket,
// the text inside, the closing bracket, and the fault.
fn check_nested(
    rt: &impl Abort,
    alloc: Global,
    rows: &[(usize, u8, &[u8], u8, QueryFault)],
) -> Result<(), AllocError> {
    for &(count, open, inside, close, fault) in rows {
        let text = nested(alloc, count, open, inside, close)?;
        check_refused(rt, alloc, &text, fault);
    }
    Ok(())
}

fn check_most_brackets(rt: &impl Abort, alloc: Global) -> Result<(), AllocError> {
    let text = nested(alloc, 64, b'(', b"*", b')')?;
    check(rt, alloc, &text, &Constraint::Any);
    Ok(())
}

#[test]
fn allows_so_many_brackets(rt: HostRuntime) -> Result<(), AllocError> {
    check_most_brackets(&rt, rt.alloc())?;
    check_nested(
        &rt,
        rt.alloc(),
        &[
            (65, b'(', b"*", b')', QueryFault::Depth),
            (65, b'(', b"?", b')', QueryFault::Token(65)),
            (32_767, b' ', b" ", b' ', QueryFault::Syntax),
            (32_768, b' ', b"", b' ', QueryFault::Long),
        ],
    )
}

// Returns a text of `count` stars, joined by commas.
fn joined_stars(alloc: Global, count: usize) -> Result<Vec<u8>, AllocError> {
    let mut text = Vec::new(alloc);
    text.push(b'*')?;
    for _ in 1..count {
        text.extend_from_slice(b",*")?;
    }
    Ok(text)
}

// Returns how many constraints a text joins by AND.
fn part_count(alloc: Global, text: &[u8]) -> Option<usize> {
    match parse(alloc, text) {
        Ok(Constraint::And(parts)) => Some(parts.len()),
        _ => None,
    }
}

// The longest text has 65,535 tokens of one byte each. The parser reads it, if there is memory for
// the tokens.
#[test]
fn answers_the_longest_text(rt: HostRuntime) -> Result<(), AllocError> {
    let text = joined_stars(rt.alloc(), 32_768)?;
    assert!(rt; part_count(rt.alloc(), &text) == Some(32_768));
    Ok(())
}

fn below_and_another(alloc: Global) -> Result<Constraint, AllocError> {
    let below = walk(alloc, Operator::Descendants, Constraint::Concept(100005))?;
    Ok(Constraint::And(pair_of(alloc, below, Constraint::Concept(101009))?))
}

fn below_members(alloc: Global) -> Result<Constraint, AllocError> {
    let members = members(alloc, either(alloc, 101009, 102002)?)?;
    walk(alloc, Operator::DescendantsOrSelf, members)
}

fn dotted(alloc: Global) -> Result<Constraint, AllocError> {
    let names = pair_of(
        alloc,
        Constraint::Concept(104001),
        Constraint::Concept(105000),
    )?;
    Ok(Constraint::Dotted(boxed(alloc, Constraint::Any)?, names))
}

fn all_but_one(alloc: Global) -> Result<Constraint, AllocError> {
    let first = boxed(alloc, Constraint::Any)?;
    let second = boxed(alloc, Constraint::Concept(101009))?;
    Ok(Constraint::Minus(first, second))
}

#[test]
fn reads_trees(rt: HostRuntime) -> Result<(), AllocError> {
    let alloc = rt.alloc();
    check(&rt, alloc, b"*", &Constraint::Any);
    let alpha = walk(alloc, Operator::Descendants, Constraint::Concept(100005));
    check_built(&rt, alloc, b" <(100005 |Alpha|)\r", alpha)?;
    check_built(
        &rt,
        alloc,
        b"< 100005 |Alpha| /* c */ and 101009",
        below_and_another(alloc),
    )?;
    check_built(&rt, alloc, b"<<^(101009 OR 102002)", below_members(alloc))?;
    check_built(&rt, alloc, b"* . 104001 . 105000", dotted(alloc))?;
    check_built(&rt, alloc, b"* MINUS 101009", all_but_one(alloc))
}

fn grouped(alloc: Global) -> Result<Constraint, AllocError> {
    let attribute = Attribute {
        count: Cardinality {
            min: 0,
            max: Some(3),
        },
        reverse: false,
        name: Constraint::Concept(105000),
        test: Test::Number(Compare::LessOrEqual, Decimal(2_500_000_000_000_000_000)),
    };
    let group = Refinement::Group(
        Cardinality { min: 2, max: None },
        AttributeSet::One(attribute),
    );
    let refinement = Box::new(alloc, group)?;
    Ok(Constraint::Refined(boxed(alloc, Constraint::Any)?, refinement))
}

#[test]
fn reads_refinements(rt: HostRuntime) -> Result<(), AllocError> {
    let alloc = rt.alloc();
    check_built(&rt, alloc, b"(<100005): r 105000 = (*)", reversed(alloc))?;
    check_built(
        &rt,
        alloc,
        b"*: [2..*] {( [0 .. 3] (105000) <= #+2.50 )}",
        grouped(alloc),
    )
}

// Checks that each text is a constraint.
fn check_read(rt: &impl Abort, alloc: Global, texts: &[&[u8]]) {
    for text in texts {
        let fault = refusal(alloc, text);
        assert!(rt; fault.is_none(), "{fault:?}");
    }
}

// Reads constraints of the forms that the examples of the published specification have.
#[test]
fn reads_published_shapes(rt: HostRuntime) {
    check_read(
        &rt,
        rt.alloc(),
        &[
            b"404684003 |Clinical finding|",
            b"< 404684003 |Clinical finding|",
            b"<< 73211009 |Diabetes mellitus|",
            b"<! 404684003 |Clinical finding|",
            b"<<! 404684003 |Clinical finding|",
            b"> 40541001 |Acute pulmonary edema|",
            b">> 40541001 |Acute pulmonary edema|",
            b">! 40541001 |Acute pulmonary edema|",
            b">>! 40541001 |Acute pulmonary edema|",
            b"!!> (< 386617003 |Digestive system finding| MINUS << 53619000 |Disorder of digestive system|)",
            b"!!< (< 386617003)",
            b"^ 700043003 |Example problem list concepts reference set|",
            b"^ (< 450970008 |Simple type reference set|)",
            b"< 19829001 |Disorder of lung| : 116676008 |Associated morphology| = 79654002 |Edema|",
            b"< 404684003 : 363698007 |Finding site| = << 39057004 , 116676008 = << 415582006 |Stenosis|",
            b"* : 246075003 |Causative agent| = 387517004 |Paracetamol|",
            b"< 404684003: {363698007 = << 39057004, 116676008 = << 415582006}, {363698007 = << 53085002}",
            b"< 27658006 : 411116001 = << 385268001, {127489000 = << 372687004, 1142135004 >= #500, 732945000 = 258684004}",
            b"< 373873005 : [1..3] 127489000 |Has active ingredient| = < 105590001 |Substance|",
            b"< 404684003 : [1..1] {[1..1] 363698007 = < 91723000}",
            b"< 373873005 : [0..0] {[2..*] 127489000 = < 105590001}",
            b"< 91723000 : R 363698007 |Finding site| = < 125605004",
            b"< 125605004 |Fracture of bone| . 363698007 |Finding site|",
            b"(< 125605004 . 363698007) . 272741003",
            b"< 19829001 AND < 301867009",
            b"< 19829001, < 301867009, ^ 700043003",
            b"(< 19829001 OR < 301867009) MINUS ^ 700043003",
            b"< 404684003 : (363698007 = << 39057004 OR 116676008 != << 415582006), 42752001 = *",
            b"< 404684003 : 116676008 = (<< 56208002 : 42752001 = << 22298006)",
            b"(< 404684003 : 116676008 = *) : 47429007 = (< 404684003 : 116676008 = <<55641003)",
        ],
    );
}

// Whether the parser reads the printed text of a constraint as the same constraint.
fn is_read_again(alloc: Global, text: &[u8]) -> Result<bool, QueryFault> {
    let constraint = parse(alloc, text)?;
    Ok(read_again(alloc, &constraint)? == constraint)
}

fn check_read_again(rt: &impl Abort, alloc: Global, texts: &[&[u8]]) {
    for text in texts {
        assert!(rt; is_read_again(alloc, text) == Ok(true), "{text:?}");
    }
}

#[test]
fn reads_what_is_printed(rt: HostRuntime) {
    check_read_again(
        &rt,
        rt.alloc(),
        &[
            b"*",
            b"<<^(101009 OR 102002)",
            b"<!(<< 100005) MINUS !!> (!!< 100005)",
            b"(< 100005 . 104001) . (105000 : 104001 != ^ 101009)",
            b"< 100005 : [2..*] {( [0 .. 3] (105000) <= #+2.50 , 104001 = 106004)}",
            b"* : (104001 = 106004 or 105000 > #-0.5) , [1..1] r 105000 = (101009 and 102002 , *)",
        ],
    );
}
