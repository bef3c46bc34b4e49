//! A list of texts in one vector of bytes.
ghost use Rattle.std.specs.Prelude.{ℕ, ◌≡◌, ◌↔◌, ◌≤◌, ◌<◌, ◌+◌, ◌++◌, ◌∷◌, [], List, All, Contains};
ghost use Rattle.std.specs.Prelude.{IfOk, Some, length, map, slice_get, slice_index_or};
ghost use Rattle.std.specs.List.Sorted.{IsStrictlySortedBy};
ghost use Rattle.held_release.specs.RowValues.{text_cmp, texts_of};
ghost use Rattle.held_release.specs.inside.NumberedInside.{IsWithinNumbered, row_numbered};

use crate::numbered_attributes::{NumberedRow, ValueNumber};
use row_lists::{ConcreteValues, LentConcrete};
use std::alloc::{AllocError, Global};
use std::marker::Model;

/// A list of texts, stored one after the other in one vector of bytes.
#[derive(Drop)]
pub struct Texts {
    // where each text starts in `bytes`, and then where the last one ends
    starts: Vec<usize>,
    bytes: Vec<u8>,
}

impl Model for Texts {
    ghost use Rattle.std.specs.Prelude.{List, ℕ};

    ghost Value = { List (List ℕ) };

    ghost use Rattle.held_release.specs.inside.TextsInside.{AreStarted, texts_in};

    ghost view = { texts_in };

    ghost invariant = { AreStarted };
}

impl Texts {
    // Copies `texts` into a list.
    fn new(alloc: Global, texts: &[&[u8]]) -> Result<Texts, AllocError>
        ensures { IfOk result (λ own. own ≡ map (λ text. text.now) texts.now) }
    {
        let mut own = Texts::none(alloc, texts.len())?;
        for text in texts {
            own = own.push(text)?;
        }
        Ok(own)
    }

    // Creates an empty list, with memory reserved for the starts of `count` texts.
    fn none(alloc: Global, count: usize) -> Result<Texts, AllocError>
        ensures { IfOk result (λ texts. texts ≡ []) }
    {
        let mut starts = Vec::with_capacity(alloc, count.saturating_add(1))?;
        starts.push(0)?;
        let bytes = Vec::new(alloc);
        Ok(Texts { starts, bytes })
    }

    // Returns the list with `text` added at its end.
    fn push(self, text: &[u8]) -> Result<Texts, AllocError>
        ensures { IfOk result (λ texts. texts ≡ self ++ text.now ∷ []) }
    {
        let Texts {
            mut starts,
            mut bytes,
        } = self;
        bytes.extend_from_slice(text)?;
        let end = bytes.len();
        starts.push(end)?;
        Ok(Texts { starts, bytes })
    }

    /// Copies the list.
    pub(crate) fn copy(&self, alloc: Global) -> Result<Texts, AllocError>
        ensures { IfOk result (λ copy. copy ≡ self.now) }
    {
        let starts = Vec::from_slice(alloc, self.starts.as_slice())?;
        let bytes = Vec::from_slice(alloc, self.bytes.as_slice())?;
        Ok(Texts { starts, bytes })
    }

    /// Returns how many texts there are.
    pub(crate) fn len(&self) -> usize
        ensures { result ≡ length self.now }
    {
        self.starts.len() - 1
    }

    /// Returns the text at `place`, which must be below the number of texts.
    pub(crate) fn of(&self, place: usize) -> &[u8]
        requires { place < length self.now }
        ensures { result.now ≡ slice_index_or self.now place [] }
    {
        let from = self.starts[place];
        let to = self.starts[place + 1];
        &self.bytes[from..to]
    }

    /// Returns the place of `text`, found by binary search. The list must rise strictly by bytes
    /// and contain `text`.
    pub(crate) fn place_of(&self, text: &[u8]) -> usize
        requires rising { IsStrictlySortedBy text_cmp self.now }
        requires there { Contains self.now text.now }
        ensures { slice_get self.now result ≡ Some text.now }
    {
        let mut from = 0;
        let mut to = self.len();
        while from < to {
            let middle = from + (to - from) / 2;
            if self.of(middle).cmp(text).is_lt() {
                from = middle + 1;
            } else {
                to = middle;
            }
        }
        from
    }
}

/// Lists the values of `rows` that are neither concepts nor decimals. The texts rise by their
/// bytes, and each is there once. An index in a row is one of `concrete`.
pub fn texts_among(
    alloc: Global,
    rows: &[NumberedRow],
    concrete: &ConcreteValues,
) -> Result<Texts, AllocError>
    requires { All (λ (row : NumberedRow). IsWithinNumbered concrete.now row.value) rows.now }
    ensures rising { IfOk result (λ texts. IsStrictlySortedBy text_cmp texts) }
    ensures members { IfOk result (λ texts. (text : List ℕ)
        → Contains texts text ↔ Contains
        (texts_of (map (row_numbered concrete.now) rows.now)) text) }
    ensures few { IfOk result (λ texts. length texts
        ≤ length (texts_of (map (row_numbered concrete.now) rows.now))) }
{
    let mut texts = lent_texts(alloc, rows, concrete)?;
    texts.sort_unstable();
    texts.dedup();
    let texts = Texts::new(alloc, texts.as_slice())?;
    Ok(texts)
}

// Lists, row by row, the values that are neither concepts nor decimals. The texts are borrowed from
// `concrete`.
fn lent_texts<'a>(
    alloc: Global,
    rows: &[NumberedRow],
    concrete: &'a ConcreteValues,
) -> Result<Vec<&'a [u8]>, AllocError>
    requires { All (λ (row : NumberedRow). IsWithinNumbered concrete.now row.value) rows.now }
    ensures { IfOk result (λ texts. map (λ text. text.now) texts.items
        ≡ texts_of (map (row_numbered concrete.now) rows.now)) }
{
    let mut texts = Vec::new(alloc);
    for row in rows {
        let ValueNumber::Concrete(place) = row.value else {
            continue;
        };
        if let LentConcrete::Other(text) = concrete.value(place) {
            texts.push(text)?;
        }
    }
    Ok(texts)
}
