//! Tests of the tokens of texts, and of refusals. The expected ones come from the description of
//! the language.
use ecl_lexer::{Feature, QueryFault, Token, TokenKind, lex};
use std::alloc::{AllocError, Global};
use std::process::Abort;

// Each spelling of a token, and its kind.
const SPELLINGS: &[(&[u8], TokenKind)] = &[
    (b"<", TokenKind::DescendantOf),
    (b"<<", TokenKind::DescendantOrSelfOf),
    (b"<!", TokenKind::ChildOf),
    (b"<<!", TokenKind::ChildOrSelfOf),
    (b">", TokenKind::AncestorOf),
    (b">>", TokenKind::AncestorOrSelfOf),
    (b">!", TokenKind::ParentOf),
    (b">>!", TokenKind::ParentOrSelfOf),
    (b"!!>", TokenKind::Top),
    (b"!!<", TokenKind::Bottom),
    (b"^", TokenKind::MemberOf),
    (b"*", TokenKind::Wildcard),
    (b"(", TokenKind::RoundOpen),
    (b")", TokenKind::RoundClose),
    (b"{", TokenKind::BraceOpen),
    (b"}", TokenKind::BraceClose),
    (b"[", TokenKind::BracketOpen),
    (b"]", TokenKind::BracketClose),
    (b":", TokenKind::Colon),
    (b".", TokenKind::Dot),
    (b"..", TokenKind::Dots),
    (b"=", TokenKind::Equal),
    (b"!=", TokenKind::NotEqual),
    (b"<=", TokenKind::LessOrEqual),
    (b">=", TokenKind::GreaterOrEqual),
    (b",", TokenKind::And),
    (b"R", TokenKind::Reverse),
    (b"r", TokenKind::Reverse),
    (b"0", TokenKind::Digits),
    (b"123456789012345678", TokenKind::Digits),
    (b"#0", TokenKind::Number),
    (b"#+2.6", TokenKind::Number),
    (b"#-2.50", TokenKind::Number),
    (b"#0.001", TokenKind::Number),
    (b"#123456789012345678.123456789012345678", TokenKind::Number),
    (b"||", TokenKind::Term),
    (b"|Alpha (finding)|", TokenKind::Term),
    (b"|\xc3\xa6 /* {{ \" 007|", TokenKind::Term),
    (b"100005", TokenKind::Digits),
    (b"100035", TokenKind::Digits),
];

// Each word, followed by a blank, with its kind and its end.
const WORDS: &[(&[u8], TokenKind, usize)] = &[
    (b"AND ", TokenKind::And, 3),
    (b"and\t", TokenKind::And, 3),
    (b"aNd\r", TokenKind::And, 3),
    (b"OR\n", TokenKind::Or, 2),
    (b"Or/**/", TokenKind::Or, 2),
    (b"MINUS /* c */", TokenKind::Minus, 5),
    (b"minus/* * / **/", TokenKind::Minus, 5),
    (b"r/**/", TokenKind::Reverse, 1),
];

// Texts with their tokens, each by kind, start and end.
const TOKENS: &[(&[u8], &[(TokenKind, usize, usize)])] = &[
    (b"", &[]),
    (b" \t\r\n/**//* c */ ", &[]),
    (
        b"<<100005",
        &[
            (TokenKind::DescendantOrSelfOf, 0, 2),
            (TokenKind::Digits, 2, 8),
        ],
    ),
    (
        b"< 100005 |Alpha| /* c */ and 101009",
        &[
            (TokenKind::DescendantOf, 0, 1),
            (TokenKind::Digits, 2, 8),
            (TokenKind::Term, 9, 16),
            (TokenKind::And, 25, 28),
            (TokenKind::Digits, 29, 35),
        ],
    ),
    (
        b"*:105000=#2.",
        &[
            (TokenKind::Wildcard, 0, 1),
            (TokenKind::Colon, 1, 2),
            (TokenKind::Digits, 2, 8),
            (TokenKind::Equal, 8, 9),
            (TokenKind::Number, 9, 11),
            (TokenKind::Dot, 11, 12),
        ],
    ),
    (
        b"#1..5",
        &[
            (TokenKind::Number, 0, 2),
            (TokenKind::Dots, 2, 4),
            (TokenKind::Digits, 4, 5),
        ],
    ),
    (
        b"{R105000=*}",
        &[
            (TokenKind::BraceOpen, 0, 1),
            (TokenKind::Reverse, 1, 2),
            (TokenKind::Digits, 2, 8),
            (TokenKind::Equal, 8, 9),
            (TokenKind::Wildcard, 9, 10),
            (TokenKind::BraceClose, 10, 11),
        ],
    ),
    (
        b"105000<!=#3",
        &[
            (TokenKind::Digits, 0, 6),
            (TokenKind::ChildOf, 6, 8),
            (TokenKind::Equal, 8, 9),
            (TokenKind::Number, 9, 11),
        ],
    ),
    (
        b"<<=",
        &[
            (TokenKind::DescendantOrSelfOf, 0, 2),
            (TokenKind::Equal, 2, 3),
        ],
    ),
    (
        b"<<<!",
        &[
            (TokenKind::DescendantOrSelfOf, 0, 2),
            (TokenKind::ChildOf, 2, 4),
        ],
    ),
    (
        b"{ {",
        &[(TokenKind::BraceOpen, 0, 1), (TokenKind::BraceOpen, 2, 3)],
    ),
    (
        b"^/**/[",
        &[(TokenKind::MemberOf, 0, 1), (TokenKind::BracketOpen, 5, 6)],
    ),
    (
        b"100005AND 101009",
        &[
            (TokenKind::Digits, 0, 6),
            (TokenKind::And, 6, 9),
            (TokenKind::Digits, 10, 16),
        ],
    ),
    (
        b"[0..*]",
        &[
            (TokenKind::BracketOpen, 0, 1),
            (TokenKind::Digits, 1, 2),
            (TokenKind::Dots, 2, 4),
            (TokenKind::Wildcard, 4, 5),
            (TokenKind::BracketClose, 5, 6),
        ],
    ),
    (
        b"R1R1",
        &[
            (TokenKind::Reverse, 0, 1),
            (TokenKind::Digits, 1, 2),
            (TokenKind::Reverse, 2, 3),
            (TokenKind::Digits, 3, 4),
        ],
    ),
];

// Texts with their refusals.
const REFUSALS: &[(&[u8], QueryFault)] = &[
    (
        b"*{{C active=1}}",
        QueryFault::Unsupported(1, Feature::Filter),
    ),
    (
        b"*{{+HISTORY}}",
        QueryFault::Unsupported(1, Feature::History),
    ),
    (
        b"*{{ \t\r\n+HISTORY}}",
        QueryFault::Unsupported(1, Feature::History),
    ),
    (b"{{/**/+", QueryFault::Unsupported(0, Feature::Filter)),
    (b"{{{", QueryFault::Unsupported(0, Feature::Filter)),
    (b"^[a]108003", QueryFault::Unsupported(0, Feature::Fields)),
    (
        b"* ^ \t\r\n[a]108003",
        QueryFault::Unsupported(2, Feature::Fields),
    ),
    (
        b"LOINC#1-8",
        QueryFault::Unsupported(0, Feature::Identifier),
    ),
    (
        b"100005a#1",
        QueryFault::Unsupported(6, Feature::Identifier),
    ),
    (
        b"R105000#1",
        QueryFault::Unsupported(0, Feature::Identifier),
    ),
    (b"R1R1-x#1", QueryFault::Unsupported(0, Feature::Identifier)),
    (b"AND#", QueryFault::Unsupported(0, Feature::Identifier)),
    (b"true#", QueryFault::Unsupported(0, Feature::Identifier)),
    (
        b"*:105000=\"x\"",
        QueryFault::Unsupported(9, Feature::String),
    ),
    (
        b"*:105000=true",
        QueryFault::Unsupported(9, Feature::Boolean),
    ),
    (b"FALSE", QueryFault::Unsupported(0, Feature::Boolean)),
    (b"true1", QueryFault::Unsupported(0, Feature::Boolean)),
    (b"trueX", QueryFault::Token(0)),
    (b"100005 XOR 101009", QueryFault::Token(7)),
    (b"100005 AND(101009)", QueryFault::Token(7)),
    (b"100005 AND/* x", QueryFault::Token(7)),
    (b"100005 AND", QueryFault::Token(7)),
    (b"100005 |Alpha", QueryFault::Token(7)),
    (b"100005 /* c", QueryFault::Token(7)),
    (b"100005 / *", QueryFault::Token(7)),
    (b"/*/", QueryFault::Token(0)),
    (b"/**/*/", QueryFault::Token(5)),
    (b"007", QueryFault::Token(0)),
    (b"00", QueryFault::Token(0)),
    (b"*:105000=#-02", QueryFault::Token(9)),
    (b"#02.1", QueryFault::Token(0)),
    (b"#", QueryFault::Token(0)),
    (b"#.5", QueryFault::Token(0)),
    (b"* # 1", QueryFault::Token(2)),
    (b"#+-1", QueryFault::Token(0)),
    (b"RR", QueryFault::Token(0)),
    (b"Rx", QueryFault::Token(0)),
    (b"!!=", QueryFault::Token(0)),
    (b"!", QueryFault::Token(0)),
    (b"1+2", QueryFault::Token(1)),
    (b"* \xc3\xa6", QueryFault::Token(2)),
    (b"1234567890123456789", QueryFault::Limit(0)),
    (b"0123456789012345678", QueryFault::Token(0)),
    (b"*:105000=#1234567890123456789", QueryFault::Limit(9)),
    (b"*:105000=#0.0000000000000000001", QueryFault::Limit(9)),
    (b"#02.0000000000000000001", QueryFault::Token(0)),
    (b"1234567890123456789 {{", QueryFault::Limit(0)),
    (b"? {{", QueryFault::Token(0)),
    (b"{{ ?", QueryFault::Unsupported(0, Feature::Filter)),
    (b"\xff", QueryFault::Utf8),
    (b"?\xff", QueryFault::Utf8),
    (b"|\xff|", QueryFault::Utf8),
];

// Returns the token of a text that has exactly one.
fn only_token(alloc: Global, text: &[u8]) -> Option<Token<'_>> {
    match lex(alloc, text) {
        Ok(tokens) => sole(&tokens),
        Err(_) => None,
    }
}

fn sole<'a>(tokens: &[Token<'a>]) -> Option<Token<'a>> {
    match tokens {
        [token] => Some(*token),
        _ => None,
    }
}

// Checks the kind and the end of the only token of a text. Blanks may follow the token.
fn assert_token(rt: &impl Abort, alloc: Global, text: &[u8], kind: TokenKind, end: usize) {
    assert!(rt; end <= text.len());
    let token = Token {
        kind,
        span: (0, end),
        text: &text[..end],
    };
    assert!(rt; only_token(alloc, text) == Some(token), "{text:?}");
}

fn assert_spellings(rt: &impl Abort, alloc: Global, spellings: &[(&[u8], TokenKind)]) {
    for (text, kind) in spellings {
        assert_token(rt, alloc, text, *kind, text.len());
    }
}

fn assert_words(rt: &impl Abort, alloc: Global, words: &[(&[u8], TokenKind, usize)]) {
    for (text, kind, end) in words {
        assert_token(rt, alloc, text, *kind, *end);
    }
}

#[test]
fn spellings(rt: HostRuntime) {
    assert_spellings(&rt, rt.alloc(), SPELLINGS);
    assert_words(&rt, rt.alloc(), WORDS);
}

fn stand_at(tokens: &[Token<'_>], places: &[(TokenKind, usize, usize)]) -> bool {
    tokens.len() == places.len()
        && tokens.iter().zip(places).all(|(token, place)| (token.kind, token.span.0, token.span.1)
            == *place)
}

fn has_tokens(alloc: Global, text: &[u8], places: &[(TokenKind, usize, usize)]) -> bool {
    match lex(alloc, text) {
        Ok(tokens) => stand_at(&tokens, places),
        Err(_) => false,
    }
}

fn assert_tokens(rt: &impl Abort, alloc: Global, rows: &[(&[u8], &[(TokenKind, usize, usize)])]) {
    for (text, places) in rows {
        assert!(rt; has_tokens(alloc, text, places), "{text:?}");
    }
}

#[test]
fn tokens(rt: HostRuntime) {
    assert_tokens(&rt, rt.alloc(), TOKENS);
}

// Returns how many tokens a text has, or the text's refusal.
fn count(alloc: Global, text: &[u8]) -> Result<usize, QueryFault> {
    match lex(alloc, text) {
        Ok(tokens) => Ok(tokens.len()),
        Err(fault) => Err(fault),
    }
}

fn assert_refused(rt: &impl Abort, alloc: Global, rows: &[(&[u8], QueryFault)]) {
    for (text, fault) in rows {
        assert!(rt; count(alloc, text) == Err(*fault), "{text:?}");
    }
}

#[test]
fn refusals(rt: HostRuntime) {
    assert_refused(&rt, rt.alloc(), REFUSALS);
}

// Returns the text `front`, then `bytes` repeated `times` times, then `back`.
fn repeated(
    alloc: Global,
    front: &[u8],
    bytes: &[u8],
    times: usize,
    back: &[u8],
) -> Result<Vec<u8>, AllocError> {
    let mut text = Vec::from_slice(alloc, front)?;
    for _ in 0..times {
        text.extend_from_slice(bytes)?;
    }
    text.extend_from_slice(back)?;
    Ok(text)
}

// Whether the text, once it is made, has this number of tokens, or this refusal.
fn is_counted(
    alloc: Global,
    (front, bytes, times, back): (&[u8], &[u8], usize, &[u8]),
    want: Result<usize, QueryFault>,
) -> bool {
    match repeated(alloc, front, bytes, times, back) {
        Ok(text) => count(alloc, &text) == want,
        Err(AllocError) => false,
    }
}

fn assert_counted(
    rt: &impl Abort,
    alloc: Global,
    rows: &[(&[u8], &[u8], usize, &[u8], Result<usize, QueryFault>)],
) {
    for &(front, bytes, times, back, want) in rows {
        assert!(rt;
            is_counted(alloc, (front, bytes, times, back), want),
            "{bytes:?} {times} times"
        );
    }
}

#[test]
fn long_texts(rt: HostRuntime) {
    assert_counted(
        &rt,
        rt.alloc(),
        &[
            (b"", b" ", 65_535, b"", Ok(0)),
            (b"", b" ", 65_536, b"", Err(QueryFault::Long)),
            (b"", b"\xff", 65_536, b"", Err(QueryFault::Long)),
            (b"", b"(", 65_535, b"", Ok(65_535)),
            (b"", b"R1", 32_767, b"", Ok(65_534)),
            (b"", b"(", 65, b"?", Err(QueryFault::Token(65))),
            (b"*:", b"{ ", 65, b"", Ok(67)),
            (
                b"*",
                b"/**/",
                16_000,
                b"{{+",
                Err(QueryFault::Unsupported(64_001, Feature::History)),
            ),
        ],
    );
}

// Whether the text of a fault is `words`.
fn is_told(alloc: Global, fault: QueryFault, words: &str) -> bool {
    match format!(in alloc; "{fault}") {
        Ok(text) => text.as_str() == words,
        Err(AllocError) => false,
    }
}

#[test]
fn words_of_faults(rt: HostRuntime) {
    let fault = QueryFault::Unsupported(12, Feature::History);
    assert!(rt;
        is_told(
            rt.alloc(),
            fault,
            "at byte 12 a form begins that is not read: history"
        )
    );
    assert!(rt;
        fault.number() == 3
            && Feature::Identifier.name() == "identifier"
            && QueryFault::Memory.number() == 6
    );
}
