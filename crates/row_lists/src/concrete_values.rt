//! The list of those values of attributes that are not concepts, with their texts in one buffer.
ghost use Rattle.std.specs.Prelude.{◌≡◌, ◌≤◌, ◌<◌, ◌+◌, [], IfOk, length, slice_index_or};
ghost use Rattle.row_lists.specs.ConcreteValues.{a_number, a_text, concrete_lent, no_text};
ghost use Rattle.row_lists.specs.inside.ConcreteInside.{IsPlaced, concrete_in};
ghost use Rattle.row_lists.specs.Spans.{Extends};

use crate::spans::{Span, push_bytes};
use rf2_rows::Decimal;
use std::alloc::{AllocError, Global};
use std::marker::Model;

/// A stored value that is not a concept: a number, or the span of another text in the buffer.
#[derive(Clone, Copy)]
enum KeptConcrete {
    Decimal(Decimal),
    Other(Span),
}

/// A value that is not a concept, as callers see it. A text is borrowed.
#[derive(Clone, Copy)]
pub enum LentConcrete<'a> {
    Decimal(Decimal),
    Other(&'a [u8]),
}

/// A list of values that are not concepts. It is kept apart from the attribute rows, since few of
/// them have such a value and the others need no room for it. Contracts name this type as the list
/// of the values.
#[derive(Drop)]
pub struct ConcreteValues {
    values: Vec<KeptConcrete>,
    // the texts of those values that are not numbers, joined
    texts: Vec<u8>,
}

impl Model for ConcreteValues {
    ghost use Rattle.std.specs.Prelude.{List};
    ghost use Rattle.row_lists.specs.ConcreteValues.{Concrete};

    ghost Value = { List Concrete };

    ghost use Rattle.row_lists.specs.inside.ConcreteInside.{AreConcretePlaced, concrete_in_all};

    ghost view = { concrete_in_all };

    ghost invariant = { AreConcretePlaced };
}

impl ConcreteValues {
    pub fn new(alloc: Global) -> ConcreteValues
        ensures { result ≡ [] }
    {
        ConcreteValues {
            values: Vec::new(alloc),
            texts: Vec::new(alloc),
        }
    }

    /// Appends a number. Returns its index in the list.
    pub fn push_decimal(&mut self, decimal: Decimal) -> Result<usize, AllocError>
        ensures grown { Extends self.old self.new }
        ensures count { length self.new ≤ length self.old + 1 }
        ensures within { IfOk result (λ place. place < length self.new) }
        ensures value { IfOk result (λ place. slice_index_or self.new place no_text
            ≡ a_number decimal.0) }
    {
        let place = self.values.len();
        self.values.push(KeptConcrete::Decimal(decimal))?;
        Ok(place)
    }

    /// Appends a text that is not a number. Returns its index in the list.
    pub fn push_text(&mut self, text: &[u8]) -> Result<usize, AllocError>
        ensures grown { Extends self.old self.new }
        ensures count { length self.new ≤ length self.old + 1 }
        ensures within { IfOk result (λ place. place < length self.new) }
        ensures value { IfOk result (λ place. slice_index_or self.new place no_text
            ≡ a_text text.now) }
    {
        let place = self.values.len();
        let span = push_bytes(&mut self.texts, text)?;
        self.values.push(KeptConcrete::Other(span))?;
        Ok(place)
    }

    /// Returns the value at index `place`.
    pub fn value(&self, place: usize) -> LentConcrete<'_>
        requires { place < length self.now }
        ensures { concrete_lent result ≡ slice_index_or self.now place no_text }
    {
        lend_concrete(self.texts.as_slice(), self.values[place])
    }
}

// Returns the value that the stored form `value` means; a text is borrowed from `texts`.
fn lend_concrete(texts: &[u8], value: KeptConcrete) -> LentConcrete<'_>
    requires { IsPlaced texts.now value }
    ensures { concrete_lent result ≡ concrete_in texts.now value }
{
    match value {
        KeptConcrete::Decimal(decimal) => LentConcrete::Decimal(decimal),
        KeptConcrete::Other(text) => LentConcrete::Other(text.bytes_in(texts)),
    }
}
