//! The list of attribute rows, with the values that are not concepts kept apart.
ghost use Rattle.std.specs.Prelude.{◌≡◌, ◌++◌, ◌∷◌, [], All, IfOk, OnOk, length, map};
ghost use Rattle.rf2_rows.specs.Rows.{value_lent};
ghost use Rattle.row_lists.specs.ChosenLists.{in_list, items_chosen};
ghost use Rattle.row_lists.specs.KeptRows.{IsKeptIn, IsValueIn, attribute_kept, value_kept};
ghost use Rattle.row_lists.specs.Spans.{Extends};

use crate::concrete_values::ConcreteValues;
use crate::row_lists::{Listing, chosen_items};
use rf2_rows::Value;
use sctid::SctId;
use std::alloc::{AllocError, Global};
use std::marker::Model;

/// The value of an attribute row that is kept.
#[derive(Clone, Copy)]
pub enum KeptValue {
    /// The identifier of a concept.
    Concept(SctId),
    /// The index of a value that is not a concept, in a list of such values.
    Concrete(usize),
}

/// An attribute row that is kept: what a load needs of it.
#[derive(Clone, Copy)]
pub struct KeptRow {
    /// The identifier of the concept that has the attribute.
    pub source: SctId,
    /// The identifier of the type.
    pub type_id: SctId,
    /// The relationship group number, 0 for none.
    pub group: u32,
    /// The value.
    pub value: KeptValue,
}

/// Attribute rows in the order in which they were read. Contracts name this type as the list of the
/// rows.
#[derive(Drop)]
pub struct Attributes {
    rows: Vec<KeptRow>,
    // the values that are not concepts
    concrete: ConcreteValues,
}

impl Model for Attributes {
    ghost use Rattle.std.specs.Prelude.{List};
    ghost use Rattle.release_model.specs.Release.{Attribute};

    ghost Value = { List Attribute };

    ghost use Rattle.row_lists.specs.inside.AttributesInside.{AreAttributesPlaced, attributes_in};

    ghost view = { attributes_in };

    ghost invariant = { AreAttributesPlaced };
}

impl Attributes {
    pub(crate) fn new(alloc: Global) -> Attributes
        ensures { result ≡ [] }
    {
        Attributes {
            rows: Vec::new(alloc),
            concrete: ConcreteValues::new(alloc),
        }
    }

    /// Returns the number of rows.
    pub fn len(&self) -> usize
        ensures { result ≡ length self.now }
    {
        self.rows.len()
    }

    /// Returns the rows, and the values that are not concepts, to which the rows have indexes.
    pub fn into_rows(self) -> (Vec<KeptRow>, ConcreteValues)
        ensures rows { map (attribute_kept result.1) result.0.items ≡ self }
        ensures within { All (IsKeptIn result.1) result.0.items }
    {
        let Attributes { rows, concrete } = self;
        (rows, concrete)
    }

    /// Appends a row with these four columns. Copies a value that is a text.
    pub(crate) fn push(
        &mut self,
        source: SctId,
        type_id: SctId,
        group: u32,
        value: &Value<'_>,
    ) -> Result<(), AllocError>
        ensures { OnOk result (self.new ≡ self.old ++ record {
          source = source;
          type_id = type_id;
          group = group;
          value = value_lent value.now;
        } ∷ []) }
    {
        let kept = keep_value(&mut self.concrete, value)?;
        self.rows.push(KeptRow {
            source,
            type_id,
            group,
            value: kept,
        })?;
        Ok(())
    }

    /// Keeps only the attribute rows whose row in the files is chosen. For each row of the files,
    /// `marks` says which list it is in, and `choices` whether it is chosen.
    pub(crate) fn choose(
        &mut self,
        alloc: Global,
        marks: &[Listing],
        choices: &[bool],
    ) -> Result<(), AllocError>
        ensures { OnOk result (self.new ≡ items_chosen (in_list Listing.Attribute marks.now)
            choices.now self.old) }
    {
        self.rows = chosen_items(
            alloc,
            self.rows.as_slice(),
            marks,
            Listing::Attribute,
            choices,
        )?;
        Ok(())
    }
}

// Stores `value`: appends it to `concrete` if it is not a concept. Returns the stored form.
fn keep_value(concrete: &mut ConcreteValues, value: &Value<'_>) -> Result<KeptValue, AllocError>
    ensures grown { Extends concrete.old concrete.new }
    ensures value { IfOk result (λ kept. value_kept concrete.new kept ≡ value_lent value.now) }
    ensures within { IfOk result (λ kept. IsValueIn concrete.new kept) }
{
    match value {
        Value::Concept(concept) => Ok(KeptValue::Concept(*concept)),
        Value::Decimal(decimal) => {
            let place = concrete.push_decimal(*decimal)?;
            Ok(KeptValue::Concrete(place))
        }
        Value::Other(text) => {
            let place = concrete.push_text(text)?;
            Ok(KeptValue::Concrete(place))
        }
    }
}
