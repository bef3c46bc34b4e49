//! The attribute rows of a concept, sorted by group number.
ghost use Rattle.std.specs.Prelude.{◌≡◌, ◌<◌, ◌%◌, ◌^◌, ◌++◌, All, codes, IfOk, length, map, OnOk};
ghost use Rattle.std.specs.List.{flat_map};
ghost use Rattle.number_lists.specs.Rising.{IsRisingBelow};
ghost use Rattle.number_lists.specs.RisingOrder.{rising as rising_of};
ghost use Rattle.rf2_rows.specs.Rows.{value_lent};
ghost use Rattle.concept_printer.specs.ConceptText.{attribute_line, by_group, concept_words, headed, name_in_force};
ghost use Rattle.concept_printer.specs.ConceptText.{value_words};
ghost use Rattle.concept_printer.specs.inside.GroupKeys.{group_key, row_numbered, row_with_key};

use crate::concept::{append_head, append_number, append_words};
use constraint_tree::print_decimal;
use held_release::Snapshot;
use rf2_rows::Value;
use sctid::SctId;
use std::alloc::{AllocError, Global};

// The number of keys of one group. The key of a row is its group number times this, plus the row's
// number. So rows sorted by key are sorted by group, and within a group by number.
const KEYS_OF_GROUP: u64 = 1 << 32;

/// Appends a line with the count of `rows`, and a line for each row, sorted by group number and
/// within a group by row number. `rows` holds the numbers of attribute rows in the order of their
/// sources, and rises. If memory is refused, a part of the text may be appended.
pub fn append_attributes(
    alloc: Global,
    snapshot: &Snapshot,
    rows: &[u32],
    text: &mut Vec<u8>,
) -> Result<(), AllocError>
    requires { IsRisingBelow (length snapshot.now.release.attributes) rows.now }
    ensures { OnOk result (text.new.items ≡ text.old.items
        ++ headed (codes "ATTRIBUTES") (attribute_line (name_in_force snapshot.now))
        (by_group (map (row_numbered snapshot.now.release) rows.now))) }
{
    let keys = keys_by_group(alloc, snapshot, rows)?;
    append_head(b"ATTRIBUTES", keys.len(), text)?;
    append_rows(snapshot, keys.as_slice(), text)
}

// Returns the sort keys of `rows`, whose numbers rise, in rising order. The rows with these keys
// are sorted by group.
fn keys_by_group(alloc: Global, snapshot: &Snapshot, rows: &[u32]) -> Result<Vec<u64>, AllocError>
    requires { IsRisingBelow (length snapshot.now.release.attributes) rows.now }
    ensures order { IfOk result (λ keys. map (row_with_key snapshot.now.release) keys.items
        ≡ by_group (map (row_numbered snapshot.now.release) rows.now)) }
    ensures found { IfOk result (λ keys.
        All (λ key. key % 2 ^ 32 < length snapshot.now.release.attributes) keys.items) }
{
    // Called for its contract, which tells the prover that the numbers of rows have at most 31
    // bits.
    snapshot.attribute_count();
    let keys = group_keys(alloc, snapshot, rows)?;
    Ok(rising(keys))
}

// Returns the sort keys of `rows`, in the order of `rows`.
fn group_keys(alloc: Global, snapshot: &Snapshot, rows: &[u32]) -> Result<Vec<u64>, AllocError>
    requires { All (λ row. row < length snapshot.now.release.attributes) rows.now }
    ensures { IfOk result (λ keys. keys.items ≡ map (group_key snapshot.now.release) rows.now) }
{
    let mut keys = Vec::with_capacity(alloc, rows.len())?;
    for row in rows {
        keys.push(key_of_row(snapshot, *row))?;
    }
    Ok(keys)
}

// Returns the sort key of a row: the group number in the upper 32 bits, the row's number in the
// lower.
#[tactic(auto, using(crate::proofs::GroupLemmas::row_read))]
fn key_of_row(snapshot: &Snapshot, row: u32) -> u64
    requires { row < length snapshot.now.release.attributes }
    ensures { result ≡ group_key snapshot.now.release row }
{
    let group = snapshot.attribute_row(row).group;
    u64::from(group) * KEYS_OF_GROUP + u64::from(row)
}

// Sorts `keys` in rising order and drops repeated keys.
fn rising(mut keys: Vec<u64>) -> Vec<u64>
    ensures { result.items ≡ rising_of keys.items }
{
    keys.sort_unstable();
    keys.dedup();
    keys
}

// Appends the lines of the attribute rows whose sort keys are `keys`, in their order.
fn append_rows(snapshot: &Snapshot, keys: &[u64], text: &mut Vec<u8>) -> Result<(), AllocError>
    requires { All (λ key. key % 2 ^ 32 < length snapshot.now.release.attributes) keys.now }
    ensures { OnOk result (text.new.items ≡ text.old.items
        ++ flat_map (attribute_line (name_in_force snapshot.now))
        (map (row_with_key snapshot.now.release) keys.now)) }
{
    for key in keys {
        append_attribute(snapshot, (*key % KEYS_OF_GROUP) as u32, text)?;
    }
    Ok(())
}

// Appends the line of the attribute row with the number `row`: its group, type and value.
fn append_attribute(snapshot: &Snapshot, row: u32, text: &mut Vec<u8>) -> Result<(), AllocError>
    requires { row < length snapshot.now.release.attributes }
    ensures { OnOk result (text.new.items ≡ text.old.items
        ++ attribute_line (name_in_force snapshot.now) (row_numbered snapshot.now.release row)) }
{
    let row = snapshot.attribute_row(row);
    append_number(u64::from(row.group), text)?;
    text.push(b' ')?;
    append_concept(snapshot, row.type_id, text)?;
    text.push(b' ')?;
    append_value(snapshot, &row.value, text)?;
    text.push(b'\n')?;
    Ok(())
}

// Appends the identifier `id`, and its name if it is that of a concept in force that has one.
fn append_concept(snapshot: &Snapshot, id: SctId, text: &mut Vec<u8>) -> Result<(), AllocError>
    ensures { OnOk result (text.new.items ≡ text.old.items
        ++ concept_words (name_in_force snapshot.now) id) }
{
    match snapshot.index_of(id.number()) {
        Some(concept) => append_words(snapshot, concept, text),
        None => append_number(id.number(), text),
    }
}

// Appends the value of a row: a concept with its name, a number as a constraint would write it, or
// the text of its file.
fn append_value(
    snapshot: &Snapshot,
    value: &Value<'_>,
    text: &mut Vec<u8>,
) -> Result<(), AllocError>
    ensures { OnOk result (text.new.items ≡ text.old.items
        ++ value_words (name_in_force snapshot.now) (value_lent value.now)) }
{
    match value {
        Value::Concept(concept) => append_concept(snapshot, *concept, text),
        Value::Decimal(decimal) => print_decimal(*decimal, text),
        Value::Other(other) => text.extend_from_slice(other),
    }
}
