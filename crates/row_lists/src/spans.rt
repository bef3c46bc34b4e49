//! Spans: the positions of texts that are joined in one buffer.
ghost use Rattle.std.specs.Prelude.{◌≡◌, ◌≤◌, ◌+◌, ◌++◌, IfOk, OnErr, OnOk, string_bytes};
ghost use Rattle.row_lists.specs.Spans.{IsSpanOf, IsTextSpanOf, StandsAt, text_at};

use std::alloc::AllocError;

/// The position of a text in a buffer.
#[derive(Clone, Copy)]
pub struct Span {
    /// The index of the text's first byte.
    pub start: usize,
    /// The index after the text's last byte.
    pub end: usize,
}

impl Span {
    /// Returns the index of the text's first byte.
    pub fn start(self) -> usize
        ensures { result ≡ self.start }
    {
        self.start
    }

    /// Returns the length of the text in bytes.
    pub fn len(self) -> usize
        requires { self.start ≤ self.end }
        ensures { self.start + result ≡ self.end }
    {
        self.end - self.start
    }

    /// Returns the bytes of the text. `texts` is the buffer.
    pub fn bytes_in<'a>(self, texts: &'a [u8]) -> &'a [u8]
        requires { IsSpanOf texts.now self }
        ensures { result.now ≡ text_at texts.now self }
    {
        &texts[self.start..self.end]
    }

    /// Returns the text. `texts` is the buffer.
    pub fn text_in<'a>(self, texts: &'a str) -> &'a str
        requires { IsTextSpanOf texts.now self }
        ensures { result.now ≡ text_at texts.now self }
    {
        &texts[self.start..self.end]
    }
}

/// Appends `text` to the buffer `texts`. Returns its span there.
#[tactic(auto, using(crate::proofs::SpanLemmas::ends_of_text))]
pub fn push_text(texts: &mut String, text: &str) -> Result<Span, AllocError>
    ensures grown { OnOk result (string_bytes texts.new ≡ string_bytes texts.old ++ text.now) }
    ensures same { OnErr result (string_bytes texts.new ≡ string_bytes texts.old) }
    ensures span { IfOk result (StandsAt (string_bytes texts.new) text.now) }
    ensures text { IfOk result (IsTextSpanOf (string_bytes texts.new)) }
{
    let start = texts.len();
    texts.push_str(text)?;
    let end = texts.len();
    Ok(Span { start, end })
}

/// Appends the bytes `text` to the buffer `texts`. Returns their span there.
pub fn push_bytes(texts: &mut Vec<u8>, text: &[u8]) -> Result<Span, AllocError>
    ensures grown { OnOk result (texts.new.items ≡ texts.old.items ++ text.now) }
    ensures same { OnErr result (texts.new.items ≡ texts.old.items) }
    ensures span { IfOk result (StandsAt texts.new.items text.now) }
{
    let start = texts.len();
    texts.extend_from_slice(text)?;
    let end = texts.len();
    Ok(Span { start, end })
}
