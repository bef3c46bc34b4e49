//! Attribute rows with the numbers of concepts in place of identifiers, in the order in which they
//! were read.
ghost use Rattle.std.specs.Prelude.{◌≡◌, IfOk};
ghost use Rattle.std.specs.List.{filter_map};
ghost use Rattle.held_release.specs.inside.NumberedInside.{numbered_of, value_number};

use crate::concepts::Concepts;
use row_lists::{KeptRow, KeptValue};
use sctid::SctId;
use std::alloc::{AllocError, Global};

/// The value of an attribute row as a number.
#[derive(Clone, Copy)]
pub enum ValueNumber {
    /// The number of a concept.
    Concept(u32),
    /// The index of a value that is not a concept, in a list of such values.
    Concrete(usize),
}

/// An attribute row in force: the number of its source, its relationship group number, the
/// identifier of its type, and its value as a number.
#[derive(Clone, Copy)]
pub struct NumberedRow {
    pub source: u32,
    pub group: u32,
    pub type_id: SctId,
    pub value: ValueNumber,
}

/// Keeps those of `rows` that are in force, and replaces identifiers of concepts by numbers. A row
/// is in force if its source is one of `concepts`, and its value is one of them or no concept.
pub fn number_attributes(
    alloc: Global,
    concepts: &Concepts,
    rows: &[KeptRow],
) -> Result<Vec<NumberedRow>, AllocError>
    ensures { IfOk result (λ numbered. numbered.items
        ≡ filter_map (numbered_of concepts.now) rows.now) }
{
    let mut numbered = Vec::with_capacity(alloc, rows.len())?;
    for row in rows {
        if let Some(row) = number_attribute(concepts, row) {
            numbered.push(row)?;
        }
    }
    Ok(numbered)
}

// Replaces the identifiers of concepts in `row` by numbers. Returns `None` if it is not in force.
fn number_attribute(concepts: &Concepts, row: &KeptRow) -> Option<NumberedRow>
    ensures { result ≡ numbered_of concepts.now row.now }
{
    let source = concepts.index_of(row.source.number())?;
    let value = number_value(concepts, row.value)?;
    Some(NumberedRow {
        source,
        group: row.group,
        type_id: row.type_id,
        value,
    })
}

// Replaces a concept by its number. Returns `None` if it is not in force.
fn number_value(concepts: &Concepts, value: KeptValue) -> Option<ValueNumber>
    ensures { result ≡ value_number concepts.now value }
{
    match value {
        KeptValue::Concept(concept) => {
            let number = concepts.index_of(concept.number())?;
            Some(ValueNumber::Concept(number))
        }
        KeptValue::Concrete(place) => Some(ValueNumber::Concrete(place)),
    }
}
