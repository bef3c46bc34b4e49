//! Finds the lexeme at the beginning of a text.
ghost use Rattle.std.specs.Prelude.{◌≡◌, ◌+◌, ◌<◌, ◌≤◌, Some, true, length, option_map, IfSome};
ghost use Rattle.ecl_lexer.specs.Reading.{comment_at, close_place as place_of_close, comment_inside as inside_of_comment, digits_at, found, fraction_at, number_at, lexeme_at, plain_at, sign_at, sign_length as length_of_sign, term_at, word_at, begins_blank as begins_with_blank, follows_word as may_follow};
ghost use Rattle.ecl_lexer.specs.Lexemes.{word_kind as kind_of_word};

use crate::runs::{digit_count, is_space, letter_count, term_count};
use crate::symbols::symbol;
use crate::token::TokenKind;
use bstr::ByteSlice;

/// A lexeme of a text: a blank or a token.
#[derive(Clone, Copy)]
pub struct Lexeme {
    /// The kind of the token, or `None` for a blank.
    pub kind: Option<TokenKind>,
    /// The number of bytes of the lexeme.
    pub length: usize,
    /// Whether each run of digits in the lexeme has at most 18 digits.
    pub is_within_limit: bool,
}

// The most digits that one run of digits in a token may have.
const MOST_DIGITS: usize = 18;

impl Lexeme {
    ghost use Rattle.std.specs.Prelude.{None};

    /// Returns a lexeme that is a token of the kind `kind` and has `length` bytes.
    pub fn token(kind: TokenKind, length: usize) -> Lexeme
        ensures { result ≡ record { kind = Some kind; length = length; is_within_limit = true } }
    {
        Lexeme {
            kind: Some(kind),
            length,
            is_within_limit: true,
        }
    }

    /// Returns a lexeme that is a blank of `length` bytes.
    pub fn blank(length: usize) -> Lexeme
        ensures { result ≡ record { kind = None; length = length; is_within_limit = true } }
    {
        Lexeme {
            kind: None,
            length,
            is_within_limit: true,
        }
    }
}

/// Returns the longest lexeme that begins `text`, or `None` if no lexeme does. A lexeme with a run
/// of more than 18 digits is returned with `is_within_limit` false.
pub fn first_lexeme(text: &[u8]) -> Option<Lexeme>
    ensures { result ≡ option_map found (lexeme_at text.now) }
{
    let Some((first, following)) = text.split_first() else {
        return None;
    };
    if first.is_ascii_digit() {
        return digits(text);
    }
    if first.is_ascii_alphabetic() {
        return word(text);
    }
    if *first == b'#' {
        return number(following);
    }
    if *first == b'|' {
        return term(following);
    }
    if *first == b'/' {
        return comment(text);
    }
    if is_space(*first) {
        return Some(Lexeme::blank(1));
    }
    symbol(text)
}

// Returns the token of the digits that begin `text`. Returns `None` if there are none, or if there
// are several and the first is 0.
fn digits(text: &[u8]) -> Option<Lexeme>
    ensures { result ≡ option_map found (digits_at text.now) }
{
    match plain_digits(text) {
        Some(length) => Some(Lexeme {
            kind: Some(TokenKind::Digits),
            length,
            is_within_limit: length <= MOST_DIGITS,
        }),
        None => None,
    }
}

// Counts the digits that begin `text`. Returns `None` if there are none, or if there are several
// and the first is 0.
fn plain_digits(text: &[u8]) -> Option<usize>
    ensures digits { result ≡ option_map length (plain_at text.now) }
    ensures within { IfSome result (λ count. count ≤ length text.now) }
{
    let count = digit_count(text);
    if count == 0 || count > 1 && text[0] == b'0' {
        None
    } else {
        Some(count)
    }
}

// Returns the token of the word that begins `text`. Returns `None` if the letters spell no word of
// the language, or if what follows them may not follow the word. A word takes all letters at the
// front, so `ANDY` is not `AND`.
fn word(text: &[u8]) -> Option<Lexeme>
    ensures { result ≡ option_map found (word_at text.now) }
{
    let length = letter_count(text);
    let (letters, rest) = text.split_at(length);
    match word_kind(letters) {
        Some(kind) if follows_word(kind, rest) => Some(Lexeme::token(kind, length)),
        _ => None,
    }
}

// Returns the kind of token that `letters` spell, in either case, or `None` if they spell none.
fn word_kind(letters: &[u8]) -> Option<TokenKind>
    ensures { result ≡ kind_of_word letters.now }
{
    if letters.eq_ignore_ascii_case(b"and") {
        Some(TokenKind::And)
    } else if letters.eq_ignore_ascii_case(b"or") {
        Some(TokenKind::Or)
    } else if letters.eq_ignore_ascii_case(b"minus") {
        Some(TokenKind::Minus)
    } else if letters.eq_ignore_ascii_case(b"r") {
        Some(TokenKind::Reverse)
    } else {
        None
    }
}

// Whether `rest` may follow a word of the kind `kind`. A blank must follow each word but `R`.
fn follows_word(kind: TokenKind, rest: &[u8]) -> bool
    ensures { result ≡ may_follow kind rest.now }
{
    match kind {
        TokenKind::Reverse => true,
        _ => begins_blank(rest),
    }
}

// Whether `text` begins with a blank: white space or a closed comment.
fn begins_blank(text: &[u8]) -> bool
    ensures { result ≡ begins_with_blank text.now }
{
    match text.first() {
        Some(first) => is_space(*first) || comment_inside(text).is_some(),
        None => false,
    }
}

// Returns the blank of the closed comment that begins `text`, or `None` if none does.
fn comment(text: &[u8]) -> Option<Lexeme>
    ensures { result ≡ option_map found (comment_at text.now) }
{
    match comment_inside(text) {
        Some(inside) => Some(Lexeme::blank(inside + 4)),
        None => None,
    }
}

// Counts the bytes between `/*` at the front of `text` and the first `*/` after it. Returns `None`
// if no closed comment begins `text`.
fn comment_inside(text: &[u8]) -> Option<usize>
    ensures inside { result ≡ inside_of_comment text.now }
    ensures within { IfSome result (λ inside. inside + 4 ≤ length text.now) }
{
    if text.starts_with(b"/*") {
        close_place(&text[2..])
    } else {
        None
    }
}

// Counts the bytes of `text` before its first `*/`. Returns `None` if it has none.
fn close_place(text: &[u8]) -> Option<usize>
    ensures place { result ≡ place_of_close text.now }
    ensures within { IfSome result (λ place. place + 2 ≤ length text.now) }
{
    text.find(b"*/")
}

// Returns the token of a number. `text` is what follows its `#`. Returns `None` if no number
// follows.
fn number(text: &[u8]) -> Option<Lexeme>
    ensures { result ≡ option_map found (number_at text.now) }
{
    let sign = sign_length(text);
    let following = &text[sign..];
    let Some(whole) = plain_digits(following) else {
        return None;
    };
    let fraction = fraction_count(&following[whole..]);
    let point = if fraction > 0 { 1 } else { 0 };
    Some(Lexeme {
        kind: Some(TokenKind::Number),
        length: 1 + sign + whole + point + fraction,
        is_within_limit: whole <= MOST_DIGITS && fraction <= MOST_DIGITS,
    })
}

// Returns 1 if `text` begins with `+` or `-`, or else 0.
fn sign_length(text: &[u8]) -> usize
    ensures sign { result ≡ length_of_sign (sign_at text.now) }
    ensures within { result ≤ length text.now }
{
    match text.first() {
        Some(first) if *first == b'+' || *first == b'-' => 1,
        _ => 0,
    }
}

// Counts the digits after the `.` that begins `text`. Returns 0 if `text` begins with no `.`.
fn fraction_count(text: &[u8]) -> usize
    ensures count { result ≡ length (fraction_at text.now) }
    ensures within { result ≤ length text.now }
    ensures point { 0 < result → result < length text.now }
{
    match text.split_first() {
        Some((first, following)) if *first == b'.' => digit_count(following),
        _ => 0,
    }
}

// Returns the token of a term. `text` is what follows its first `|`. Returns `None` if no second
// `|` closes it.
fn term(text: &[u8]) -> Option<Lexeme>
    ensures { result ≡ option_map found (term_at text.now) }
{
    let inside = term_count(text);
    if inside < text.len() {
        Some(Lexeme::token(TokenKind::Term, inside + 2))
    } else {
        None
    }
}
