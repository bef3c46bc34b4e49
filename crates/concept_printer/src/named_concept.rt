//! The identifier in a line of `describe`.
ghost use Rattle.std.specs.Prelude.{◌≡◌, None, Some, IfErr, IfOk, option_map};
ghost use Rattle.std.specs.Str.{is_utf8};
ghost use Rattle.sctid.specs.declared.Part.TheVariants.{Concept};
ghost use Rattle.rf2_rows.specs.Columns.{fault_for};
ghost use Rattle.concept_printer.specs.NamedConcept.{before_bar, before_blanks, after_blanks, ends_in_bar};
ghost use Rattle.concept_printer.specs.NamedConcept.{identifier_cause, identifier_in, is_blank, line_fault};
ghost use Rattle.concept_printer.specs.NamedConcept.{named_concept as named_by, without_term};
ghost use Rattle.numerals.specs.Numbers.{number_of};

use sctid::{IdFault, Part, SctId};
use std::str::from_utf8;
use text_parts::cut;

// The greatest length of a line in bytes.
const MOST_BYTES: usize = 65_535;

const BAR: u8 = b'|';

/// Why a line names no concept. If several causes apply, the fault is the first in this order.
#[derive(Clone, Copy, Debug, PartialEq, Eq)]
pub enum LineFault {
    /// The line has more than 65,535 bytes.
    Long,
    /// The line is not UTF-8.
    Utf8,
    /// The text before the term is no identifier, or one of another kind than a concept.
    Id(IdFault),
}

/// Returns the identifier that a line of `describe` has, with or without a term after it, as in
/// `104001 |Type T (attribute)|`. If there is none, it returns the fault. The concept need not be
/// in the release.
pub fn named_concept(line: &[u8]) -> Result<u64, LineFault>
    ensures is_readable { IfOk result (λ id. line_fault line.now ≡ None) }
    ensures named { IfOk result (λ id. id ≡ named_by line.now) }
    ensures fault { IfErr result (λ fault. line_fault line.now ≡ Some fault) }
{
    if line.len() > MOST_BYTES {
        return Err(LineFault::Long);
    }
    if !is_text(line) {
        return Err(LineFault::Utf8);
    }
    match concept_id(identifier(line)) {
        Ok(id) => Ok(id),
        Err(fault) => Err(LineFault::Id(fault)),
    }
}

// Returns whether `bytes` are UTF-8.
#[tactic(auto, using(rf2_rows::proofs::Texts::utf8_tests))]
fn is_text(bytes: &[u8]) -> bool
    ensures { result ≡ is_utf8 bytes.now }
{
    from_utf8(bytes).is_ok()
}

// Reads a text as the identifier of a concept, and checks its form and its check digit.
fn concept_id(text: &[u8]) -> Result<u64, IdFault>
    ensures is_readable { IfOk result (λ id. fault_for Concept text.now ≡ None) }
    ensures id { IfOk result (λ id. id ≡ number_of text.now) }
    ensures fault { IfErr result (λ fault. fault_for Concept text.now ≡ Some fault) }
{
    match SctId::parse(text) {
        Ok(id) if id.part() == Part::Concept => Ok(id.number()),
        Ok(_) => Err(IdFault::Partition),
        Err(fault) => Err(fault),
    }
}

// Returns the part of `line` that should be an identifier: without blanks around it, and without a
// term between bars at the end.
fn identifier(line: &[u8]) -> &[u8]
    ensures { result.now ≡ identifier_in line.now }
{
    let text = without_blanks_after(without_blanks_before(line));
    if !has_bar_at_end(text) {
        return text;
    }
    let (id, _) = cut(text, BAR);
    without_blanks_after(id)
}

// Returns whether the last byte of a text is a bar (`|`).
fn has_bar_at_end(text: &[u8]) -> bool
    ensures { result ≡ ends_in_bar text.now }
{
    match text {
        [.., last] => *last == BAR,
        _ => false,
    }
}

// Returns a text without the blanks at its beginning.
fn without_blanks_before(text: &[u8]) -> &[u8]
    ensures { result.now ≡ after_blanks text.now }
{
    let mut left = text;
    while let [first, rest @ ..] = left {
        if !is_blank_byte(*first) {
            return left;
        }
        left = rest;
    }
    left
}

// Returns a text without the blanks at its end.
fn without_blanks_after(text: &[u8]) -> &[u8]
    ensures { result.now ≡ before_blanks text.now }
{
    let mut left = text;
    while let [rest @ .., last] = left {
        if !is_blank_byte(*last) {
            return left;
        }
        left = rest;
    }
    left
}

// Returns whether a byte is a space, a tab or a carriage return.
fn is_blank_byte(byte: u8) -> bool
    ensures { result ≡ is_blank byte }
{
    matches!(byte, b' ' | b'\t' | b'\r')
}

/// Returns the word for the cause why an identifier is refused.
pub fn cause_word(fault: IdFault) -> &'static [u8]
    ensures { result.now ≡ identifier_cause fault }
{
    match fault {
        IdFault::Length => b"length",
        IdFault::Digit => b"digit",
        IdFault::LeadingZero => b"zero",
        IdFault::Partition => b"part",
        IdFault::Check => b"check",
    }
}
