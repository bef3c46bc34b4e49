//! Numbers for the values of attribute rows.
ghost use Rattle.std.specs.Prelude.{ℤ, ◌≡◌, ◌↔◌, ◌≤◌, ◌+◌, ◌++◌, ◌<◌, ◌^◌, All, Contains, IfOk};
ghost use Rattle.std.specs.Prelude.{OnOk, Some, length, map, slice_get};
ghost use Rattle.std.specs.List.Sorted.{IsStrictlySortedBy};
ghost use Rattle.std.specs.Ordering.{int_cmp};
ghost use Rattle.release_model.specs.Release.{Attribute, number_value, text_value};
ghost use Rattle.rf2_rows.specs.Rows.{value_lent};
ghost use Rattle.held_release.specs.AttributesBySource.{IsNumberBelow, value_by_identifier};
ghost use Rattle.held_release.specs.CodedRows.{value_at, values_in};
ghost use Rattle.held_release.specs.RowValues.{AreTables, AreTablesOf, IsInTables};
ghost use Rattle.held_release.specs.RowValues.{decimals_at, decimals_of};
ghost use Rattle.held_release.specs.inside.NumberedInside.{IsNumbered, IsWithinNumbered};
ghost use Rattle.held_release.specs.inside.NumberedInside.{attributes_numbered, row_numbered};
ghost use Rattle.held_release.specs.inside.NumberedInside.{value_numbered};
ghost use Rattle.row_lists.specs.ConcreteValues.{concrete_lent, concrete_value};

use crate::concepts::Concepts;
use crate::numbered_attributes::{NumberedRow, ValueNumber};
use crate::texts::{Texts, texts_among};
use rf2_rows::{Decimal, Value};
use row_lists::{ConcreteValues, LentConcrete};
use sctid::SctId;
use std::alloc::{AllocError, Global};

/// The decimals and the other texts among the values of attribute rows, rising and each once.
/// Values are numbered in this order: all concepts, then the decimals, then the texts. A value is
/// found by binary search, not by a hash, so that no file can choose values that make the search
/// slow.
#[derive(Drop)]
pub struct Values {
    /// The decimals, in units of 10^-18.
    pub decimals: Vec<i128>,
    /// The values that are neither concepts nor decimals, rising by their bytes.
    pub texts: Texts,
}

/// Collects the values of `rows` that are not concepts. An index in a row is one of `concrete`.
pub fn row_values(
    alloc: Global,
    concepts: &Concepts,
    rows: &[NumberedRow],
    concrete: &ConcreteValues,
) -> Result<Values, AllocError>
    requires few { length rows.now < 2 ^ 31 }
    requires numbered { All (IsNumbered (length concepts.now) concrete.now) rows.now }
    ensures all { IfOk result (λ values. All
        (λ (row : Attribute). Contains (values_in concepts.now values) row.value)
        (attributes_numbered concepts.now concrete.now rows.now)) }
    ensures tables { IfOk result (λ values.
        AreTablesOf (attributes_numbered concepts.now concrete.now rows.now)
        values.decimals.items values.texts) }
    ensures few { IfOk result (λ values. length (values_in concepts.now values) < 2 ^ 32) }
{
    let decimals = decimals_among(alloc, rows, concrete)?;
    let texts = texts_among(alloc, rows, concrete)?;
    // there are fewer values than 2^32, so each has a number
    prove!(rows.len() as u32 <= u32::MAX - concepts.len());
    Ok(Values { decimals, texts })
}

// Lists the decimals among the values of `rows`, rising and each once.
fn decimals_among(
    alloc: Global,
    rows: &[NumberedRow],
    concrete: &ConcreteValues,
) -> Result<Vec<i128>, AllocError>
    requires { All (λ (row : NumberedRow). IsWithinNumbered concrete.now row.value) rows.now }
    ensures rising { IfOk result (λ decimals. IsStrictlySortedBy int_cmp decimals.items) }
    ensures members { IfOk result (λ decimals. (decimal : ℤ)
        → Contains decimals.items decimal ↔ Contains
        (decimals_of (map (row_numbered concrete.now) rows.now)) decimal) }
    ensures few { IfOk result (λ decimals. length decimals.items
        ≤ length (decimals_of (map (row_numbered concrete.now) rows.now))) }
{
    let mut decimals = Vec::new(alloc);
    for row in rows {
        add_decimal(&mut decimals, row.value, concrete)?;
    }
    decimals.sort_unstable();
    decimals.dedup();
    Ok(decimals)
}

// Adds the value that `number` means to `decimals` if it is a decimal.
fn add_decimal(
    decimals: &mut Vec<i128>,
    number: ValueNumber,
    concrete: &ConcreteValues,
) -> Result<(), AllocError>
    requires { IsWithinNumbered concrete.now number }
    ensures { OnOk result (decimals.new.items ≡ decimals.old.items
        ++ decimals_at (value_numbered concrete.now number)) }
{
    let ValueNumber::Concrete(place) = number else {
        return Ok(());
    };
    match concrete.value(place) {
        LentConcrete::Decimal(decimal) => Ok(decimals.push(decimal.0)?),
        LentConcrete::Other(_) => Ok(()),
    }
}

impl Values {
    /// Returns the number of the value that `value` means, which must be a concept or in the
    /// tables. A concept has its own number.
    pub(crate) fn number(
        &self,
        concepts: &Concepts,
        concrete: &ConcreteValues,
        value: ValueNumber,
    ) -> u32
        requires within { IsWithinNumbered concrete.now value }
        requires there { Contains (values_in concepts.now self.now)
            (value_by_identifier concepts.now (value_numbered concrete.now value)) }
        requires below { IsNumberBelow (length concepts.now) (value_numbered concrete.now value) }
        requires rising { AreTables self.now.decimals.items self.now.texts }
        requires few { length (values_in concepts.now self.now) < 2 ^ 32 }
        ensures { slice_get (values_in concepts.now self.now) result
            ≡ Some (value_by_identifier concepts.now (value_numbered concrete.now value)) }
    {
        match value {
            ValueNumber::Concept(number) => number,
            ValueNumber::Concrete(place) => {
                concepts.len() + self.place_of(concrete.value(place)) as u32
            }
        }
    }

    // Returns the place of `value` in the list of the decimals and then the texts, which must have
    // it.
    fn place_of(&self, value: LentConcrete<'_>) -> usize
        requires there { IsInTables self.now.decimals.items self.now.texts (concrete_lent value) }
        requires rising { AreTables self.now.decimals.items self.now.texts }
        requires few { length self.now.decimals.items + length self.now.texts < 2 ^ 32 }
        ensures { slice_get (map number_value self.now.decimals.items
            ++ map text_value self.now.texts) result
            ≡ Some (concrete_value (concrete_lent value.entry)) }
    {
        match value {
            LentConcrete::Decimal(decimal) => place_of(self.decimals.as_slice(), &decimal.0),
            LentConcrete::Other(text) => self.decimals.len() + self.texts.place_of(text),
        }
    }

    /// Copies the tables.
    pub fn copy(&self, alloc: Global) -> Result<Values, AllocError>
        ensures decimals { IfOk result (λ copy. copy.decimals.items ≡ self.now.decimals.items) }
        ensures texts { IfOk result (λ copy. copy.texts ≡ self.now.texts) }
    {
        let decimals = Vec::from_slice(alloc, self.decimals.as_slice())?;
        let texts = self.texts.copy(alloc)?;
        Ok(Values { decimals, texts })
    }

    /// Returns the value with the value number `number`: a concept of `concepts`, or a value of the
    /// tables.
    pub fn value_at(&self, concepts: &[SctId], number: u32) -> Value<'_>
        requires { number < length (values_in concepts.now self.now) }
        ensures { value_lent result ≡ value_at (values_in concepts.now self.now) number }
    {
        let number = number as usize;
        if number < concepts.len() {
            return Value::Concept(concepts[number]);
        }
        self.value(number - concepts.len())
    }

    // Returns the value at `place` in the list of the decimals and then the texts. The number of
    // this value is `place` plus the number of concepts.
    fn value(&self, place: usize) -> Value<'_>
        requires { place < length self.now.decimals.items + length self.now.texts }
        ensures { value_lent result ≡ value_at
            (map number_value self.now.decimals.items ++ map text_value self.now.texts) place }
    {
        let decimals = self.decimals.as_slice();
        if place < decimals.len() {
            return Value::Decimal(Decimal(decimals[place]));
        }
        Value::Other(self.texts.of(place - decimals.len()))
    }
}

// Returns the place of `decimal` in the rising list `decimals`, which must contain it.
fn place_of(decimals: &[i128], decimal: &i128) -> usize
    requires rising { IsStrictlySortedBy int_cmp decimals.now }
    requires there { Contains decimals.now decimal.now }
    ensures { slice_get decimals.now result ≡ Some decimal.now }
{
    match decimals.binary_search(decimal) {
        Ok(place) => place,
        Err(place) => place,
    }
}
