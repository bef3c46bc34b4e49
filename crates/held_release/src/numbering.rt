//! Replaces the identifiers in pairs of concepts by numbers.
ghost use Rattle.std.specs.Prelude.{◌≡◌, IfOk};
ghost use Rattle.std.specs.List.{filter_map};
ghost use Rattle.held_release.specs.Numbering.{numbered_row};

use crate::concepts::Concepts;
use sctid::SctId;
use std::alloc::{AllocError, Global};

/// Returns, in order, the pairs of `rows` whose two concepts are in force, as numbers. A pair is a
/// child and its parent, or a reference set and its component.
pub fn number_rows(
    alloc: Global,
    concepts: &Concepts,
    rows: &[(SctId, SctId)],
) -> Result<Vec<(u32, u32)>, AllocError>
    ensures { IfOk result (λ numbered. numbered.items
        ≡ filter_map (numbered_row concepts.now) rows.now) }
{
    rows.iter()
        .filter_map(|row| number_row(concepts, row))
        .collect(alloc)
}

// Returns the numbers of the two concepts of `row`, if both are in force.
fn number_row(concepts: &Concepts, row: &(SctId, SctId)) -> Option<(u32, u32)>
    ensures { result ≡ numbered_row concepts.now row.now }
{
    let child = concepts.index_of(row.0.number())?;
    let parent = concepts.index_of(row.1.number())?;
    Some((child, parent))
}
