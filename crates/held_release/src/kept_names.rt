//! Name rows that are stored as spans of a buffer. The buffer begins with the output lines of the
//! concepts, which have most of the terms.
ghost use Rattle.std.specs.Prelude.{◌≡◌, ◌≤◌, ◌<◌, ◌+◌, ◌-◌, ◌^◌, [], true, All, IfOk, IfSome, OnOk, length, map, slice_index_or, string_bytes};
ghost use Rattle.held_release.specs.inside.NamesInLines.{AreNoted, IsKept, name_kept};
ghost use Rattle.row_lists.specs.LentRows.{name_read};
ghost use Rattle.row_lists.specs.Spans.{AreSpansOf, Extends, StandsAt, no_span, text_at};

use row_lists::{Names, ReadName, Span, push_text};
use sctid::SctId;
use std::alloc::{AllocError, Global};

// The longest term in bytes. Within the limits of a load no file has a longer one.
const MOST_BYTES: usize = u32::MAX as usize;

/// A name row as it is stored: the description's identifier, the concept that it names, the index
/// of its term in the buffer, the length of the term, and the index of its language code in the
/// list of spans.
#[derive(Clone, Copy)]
pub struct KeptName {
    id: SctId,
    concept: SctId,
    start: usize,
    bytes: u32,
    language: u32,
}

/// Stores the rows of `names` with their texts in `texts`. For a row whose term is already there,
/// `spans` has its span; every other term is appended. A language code is appended, and its span
/// added to `languages`, only if it differs from that of the row before. Fails if memory is refused
/// or a term is too long.
pub fn keep_names(
    alloc: Global,
    names: &Names,
    spans: &[Option<Span>],
    texts: &mut String,
    languages: &mut Vec<Span>,
) -> Result<Vec<KeptName>, AllocError>
    requires few { length names.now < 2 ^ 32 }
    requires noted { AreNoted names.now (string_bytes texts.old) spans.now }
    requires none { languages.old.items ≡ [] }
    ensures grown { OnOk result (Extends (string_bytes texts.old) (string_bytes texts.new)) }
    ensures names { IfOk result (λ kept. map
        (name_kept (string_bytes texts.new) languages.new.items) kept.items ≡ names.now) }
{
    let mut kept = Vec::with_capacity(alloc, names.len())?;
    for place in 0..names.len() {
        kept.push(keep_name(&names.row(place), spans[place], texts, languages)?)?;
    }
    Ok(kept)
}

// Stores one name row. `span` is the span of its term in `texts`, if the term is already there.
fn keep_name(
    name: &ReadName<'_>,
    span: Option<Span>,
    texts: &mut String,
    languages: &mut Vec<Span>,
) -> Result<KeptName, AllocError>
    requires span { IfSome span (StandsAt (string_bytes texts.old) name.now.term.now) }
    requires languages { AreSpansOf (string_bytes texts.old) languages.old.items }
    requires few { length languages.old.items + 1 < 2 ^ 32 }
    ensures grown { OnOk result (Extends (string_bytes texts.old) (string_bytes texts.new)) }
    ensures more { OnOk result (Extends languages.old.items languages.new.items) }
    ensures few { OnOk result (length languages.new.items ≤ length languages.old.items + 1) }
    ensures languages { OnOk result (AreSpansOf (string_bytes texts.new) languages.new.items) }
    ensures kept { IfOk result (λ kept. IsKept (string_bytes texts.new) languages.new.items kept) }
    ensures name { IfOk result (λ kept. name_kept (string_bytes texts.new) languages.new.items kept
        ≡ name_read name.now) }
{
    let language = keep_language(name.language, texts, languages)?;
    let term = keep_term(name.term, span, texts)?;
    let bytes = short_len(term)?;
    Ok(KeptName {
        id: name.id,
        concept: name.concept,
        start: term.start(),
        bytes,
        language,
    })
}

// Returns the length of `span` in 32 bits. Fails if it is too long.
fn short_len(span: Span) -> Result<u32, AllocError>
    requires { span.start ≤ span.end }
    ensures { IfOk result (λ bytes. span.start + bytes ≡ span.end) }
{
    let bytes = span.len();
    if bytes > MOST_BYTES {
        return Err(AllocError);
    }
    Ok(bytes as u32)
}

// Returns the span of `term` in `texts`: `span` if there is one; otherwise it appends the term.
fn keep_term(term: &str, span: Option<Span>, texts: &mut String) -> Result<Span, AllocError>
    requires { IfSome span (StandsAt (string_bytes texts.old) term.now) }
    ensures grown { OnOk result (Extends (string_bytes texts.old) (string_bytes texts.new)) }
    ensures span { IfOk result (StandsAt (string_bytes texts.new) term.now) }
{
    match span {
        Some(span) => Ok(span),
        None => push_text(texts, term),
    }
}

// Returns the index in `languages` of the span of a language code: of the last span if it has this
// code; otherwise it appends the code to `texts` and its span to `languages`.
fn keep_language(
    language: &str,
    texts: &mut String,
    languages: &mut Vec<Span>,
) -> Result<u32, AllocError>
    requires languages { AreSpansOf (string_bytes texts.old) languages.old.items }
    requires few { length languages.old.items + 1 < 2 ^ 32 }
    ensures grown { OnOk result (Extends (string_bytes texts.old) (string_bytes texts.new)) }
    ensures more { OnOk result (Extends languages.old.items languages.new.items) }
    ensures few { OnOk result (length languages.new.items ≤ length languages.old.items + 1) }
    ensures languages { OnOk result (AreSpansOf (string_bytes texts.new) languages.new.items) }
    ensures within { IfOk result (λ number. number < length languages.new.items) }
    ensures language { IfOk result (λ number. text_at (string_bytes texts.new)
        (slice_index_or languages.new.items number no_span) ≡ language.now) }
{
    if is_last(language.as_bytes(), texts.as_bytes(), languages.as_slice()) {
        return Ok((languages.len() - 1) as u32);
    }
    let span = push_text(texts, language)?;
    languages.push(span)?;
    Ok((languages.len() - 1) as u32)
}

// Whether the last of `spans` has the text `text` in `texts`. False if there is no span.
fn is_last(text: &[u8], texts: &[u8], spans: &[Span]) -> bool
    requires { AreSpansOf texts.now spans.now }
    ensures some { result ≡ true → 0 < length spans.now }
    ensures last { result ≡ true
        → text_at texts.now (slice_index_or spans.now (length spans.now - 1) no_span) ≡ text.now }
{
    if spans.is_empty() {
        return false;
    }
    spans[spans.len() - 1].bytes_in(texts) == text
}
