//! Finds the forms of the language that this engine does not support.
ghost use Rattle.std.specs.Prelude.{◌≡◌, ◌∷◌, Some, None, if◌then◌else◌};
ghost use Rattle.std.specs.List.{prefix_len};
ghost use Rattle.ecl_lexer.specs.Bytes.{after_run, begins_with as begins_with_byte, is_code_byte, is_space as is_space_byte};
ghost use Rattle.ecl_lexer.specs.Refusals.{boolean_form, braces_form, fields_form, unsupported as unsupported_form};

use crate::fault::Feature;
use crate::runs::{letter_count, space_count};

/// Returns the unsupported form that begins `text`, or `None` if none does. `code_count` is the
/// number of letters, digits and `-` at the front of `text`. The caller counts each run of these
/// bytes once, so that a text with one long run is not read again for each lexeme.
pub fn unsupported(text: &[u8], code_count: usize) -> Option<Feature>
    requires { code_count ≡ prefix_len is_code_byte text.now }
    ensures { result ≡ unsupported_form text.now }
{
    let Some((first, following)) = text.split_first() else {
        return None;
    };
    if *first == b'{' && begins_with(following, b'{') {
        return Some(braces(&following[1..]));
    }
    if *first == b'^' {
        return fields(following);
    }
    if *first == b'"' {
        return Some(Feature::String);
    }
    if !first.is_ascii_alphabetic() {
        return None;
    }
    let (_, rest) = text.split_at(code_count);
    if begins_with(rest, b'#') {
        return Some(Feature::Identifier);
    }
    boolean(text)
}

// Returns the form that begins with `{{`: a history supplement or a filter. `following` is the text
// after `{{`.
fn braces(following: &[u8]) -> Feature
    ensures { result ≡ braces_form following.now }
{
    if begins_with(&following[space_count(following)..], b'+') {
        Feature::History
    } else {
        Feature::Filter
    }
}

// Returns `Fields` if `following`, the text after `^`, begins with `[` after optional white space,
// or else `None`.
fn fields(following: &[u8]) -> Option<Feature>
    ensures { result ≡ fields_form following.now }
{
    if begins_with(&following[space_count(following)..], b'[') {
        Some(Feature::Fields)
    } else {
        None
    }
}

// Returns `Boolean` if the letters at the front of `text` spell `true` or `false`, in either case,
// or else `None`.
fn boolean(text: &[u8]) -> Option<Feature>
    ensures { result ≡ boolean_form text.now }
{
    let letters = &text[..letter_count(text)];
    if letters.eq_ignore_ascii_case(b"true") || letters.eq_ignore_ascii_case(b"false") {
        Some(Feature::Boolean)
    } else {
        None
    }
}

// Whether the first byte of `text` is `byte`.
fn begins_with(text: &[u8], byte: u8) -> bool
    ensures { result ≡ begins_with_byte byte text.now }
{
    match text.first() {
        Some(first) => *first == byte,
        None => false,
    }
}
