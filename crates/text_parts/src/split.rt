//! Cutting a text at its first separator.
ghost use Rattle.std.specs.Prelude.{◌≡◌, ◌∷◌};
ghost use Rattle.text_parts.specs.Parts.{parts_at, parts_left};

use bstr::ByteSlice;

/// Cuts `text` at the first byte that is `separator`. Returns the part before it, and the text
/// after it or `None` if `text` has no separator.
#[tactic(auto, using(crate::proofs::Parts::cuts))]
pub fn cut(text: &[u8], separator: u8) -> (&[u8], Option<&[u8]>)
    ensures { parts_at separator text.now ≡ result.0.now ∷ parts_left separator result.1 }
{
    match text.find_byte(separator) {
        Some(at) => (&text[..at], Some(&text[at + 1..])),
        None => (text, None),
    }
}
