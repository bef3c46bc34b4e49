//! Reading the request in a line of `session`.
ghost use Rattle.std.specs.Prelude.{◌≡◌, true};
ghost use Rattle.std.specs.Char.{is_ascii_digit};
ghost use Rattle.std.specs.List.{list_all};
ghost use Rattle.session_line.specs.SessionRequest.{asked, asked_in, cut_of, cut_read, first_read, number_in};
ghost use Rattle.session_line.specs.SessionRequest.{number_or_none as number_or_none_in, page_in, page_read};
ghost use Rattle.session_line.specs.SessionRequest.{asks_concept, asks_plan, page_asked, read_first, text_asked};

use bstr::ByteSlice;
use std::str::from_utf8;

/// A part of an answer, as a line of `session` asks for it.
#[derive(Clone, Copy, Debug, PartialEq, Eq)]
pub struct Page {
    /// How many concepts of the answer are skipped.
    pub offset: u64,
    /// How many concepts are listed at most after the skipped ones; `None` lists all.
    pub count: Option<u64>,
    /// How many items the plan may visit at most; `None` sets no limit.
    pub limit: Option<u64>,
    /// Whether the concepts are listed with their names.
    pub names: bool,
}

/// The request that a line of `session` makes. It borrows texts from the line.
#[derive(Clone, Copy, Debug, PartialEq, Eq)]
pub enum SessionRequest<'a> {
    /// A page of the answer to a constraint, with the constraint's text.
    Page(Page, &'a [u8]),
    /// The plan of a constraint, with the constraint's text.
    Plan(&'a [u8]),
    /// What the release says of a concept, with the text that names the concept.
    Concept(&'a [u8]),
    /// No request: the verb is unknown, a number is malformed, or the text is missing.
    Nothing,
}

/// Reads the request in a line of `session`. `list OFFSET COUNT LIMIT ECL` asks for a page with
/// names, `ids OFFSET COUNT LIMIT ECL` for one without, `explain ECL` for a plan, `describe ID` for
/// a concept. One space separates two words. OFFSET, COUNT and LIMIT are decimal numbers of 64
/// bits; COUNT and LIMIT may be `-`, which sets no limit. The text at the end may have spaces and
/// must not be empty. It returns `Nothing` for any other line. It does not check the constraint or
/// the identifier.
pub fn read_request(line: &[u8]) -> SessionRequest<'_>
    ensures { asked_in result ≡ asked line.now }
{
    let Some((verb, text)) = cut_word(line) else {
        return SessionRequest::Nothing;
    };
    if verb == b"list".as_slice() {
        return page_request(read_page(true, text));
    }
    if verb == b"ids".as_slice() {
        return page_request(read_page(false, text));
    }
    if text.is_empty() {
        return SessionRequest::Nothing;
    }
    if verb == b"explain".as_slice() {
        return SessionRequest::Plan(text);
    }
    if verb == b"describe".as_slice() {
        return SessionRequest::Concept(text);
    }
    SessionRequest::Nothing
}

// Makes the request for a page, if `read_page` found one and the text after it is not empty.
fn page_request(page: Option<(Page, &[u8])>) -> SessionRequest<'_>
    ensures { asked_in result ≡ page_asked (page_read page.entry) }
{
    match page {
        Some((page, text)) if !text.is_empty() => SessionRequest::Page(page, text),
        _ => SessionRequest::Nothing,
    }
}

// Reads offset, count and limit from the beginning of `text`. Returns the page and the text after
// it, or `None` if a number is malformed or missing.
fn read_page(names: bool, text: &[u8]) -> Option<(Page, &[u8])>
    ensures { page_read result ≡ page_in names text.now }
{
    let (offset, text) = number_before(text)?;
    let (count, text) = number_or_none_before(text)?;
    let (limit, text) = number_or_none_before(text)?;
    let page = Page {
        offset,
        count,
        limit,
        names,
    };
    Some((page, text))
}

// Reads the number before the first space of `text`. Returns it with the text after the space.
fn number_before(text: &[u8]) -> Option<(u64, &[u8])>
    ensures { read_first result ≡ first_read number_in text.now }
{
    let (word, rest) = cut_word(text)?;
    let number = number(word)?;
    Some((number, rest))
}

// Reads a number or `-` before the first space of `text`. Returns it, `None` for `-`, with the text
// after the space.
fn number_or_none_before(text: &[u8]) -> Option<(Option<u64>, &[u8])>
    ensures { read_first result ≡ first_read number_or_none_in text.now }
{
    let (word, rest) = cut_word(text)?;
    let number = number_or_none(word)?;
    Some((number, rest))
}

// Reads a number, or `-` as `Some(None)`. Returns `None` for any other text.
fn number_or_none(text: &[u8]) -> Option<Option<u64>>
    ensures { result ≡ number_or_none_in text.now }
{
    if text == b"-".as_slice() {
        return Some(None);
    }
    let number = number(text)?;
    Some(Some(number))
}

// Reads a text of decimal digits as a number of 64 bits.
#[tactic(auto, using(crate::proofs::RequestLemmas::numbers))]
fn number(text: &[u8]) -> Option<u64>
    ensures { result ≡ number_in text.now }
{
    if !is_all_digits(text) {
        return None;
    }
    match from_utf8(text) {
        Ok(digits) => digits_number(digits),
        Err(_) => None,
    }
}

// Reads a text that is known to have digits alone. Returns `None` if it is empty or the number does
// not fit in 64 bits.
#[tactic(auto, using(crate::proofs::RequestLemmas::numbers))]
fn digits_number(digits: &str) -> Option<u64>
    requires { list_all is_ascii_digit digits.now ≡ true }
    ensures { result ≡ number_in digits.now }
{
    match digits.parse::<u64>() {
        Ok(number) => Some(number),
        Err(_) => None,
    }
}

// Returns whether each byte of a text is a decimal digit.
fn is_all_digits(text: &[u8]) -> bool
    ensures { result ≡ list_all is_ascii_digit text.now }
{
    text.iter().all(|byte| byte.is_ascii_digit())
}

// Cuts a text at its first space. Returns the bytes before the space and those after it, or `None`
// if there is no space.
#[tactic(auto, using(crate::proofs::RequestLemmas::cuts))]
fn cut_word(text: &[u8]) -> Option<(&[u8], &[u8])>
    ensures { cut_read result ≡ cut_of text.now }
{
    match text.find_byte(b' ') {
        Some(at) => Some((&text[..at], &text[at + 1..])),
        None => None,
    }
}
