//! For each concept, the list of the concepts to which rows lead from it.
ghost use Rattle.std.specs.Prelude.{◌≡◌, ◌<◌, ◌^◌, IfOk, length};
ghost use Rattle.hierarchy.specs.Hierarchy.{IsWithin};
ghost use Rattle.ancestor_index.specs.HierarchyLists.{is_child, lists_where};

use crate::rising::rising_lists;
use number_lists::KeyedLists;
use std::alloc::{AllocError, Global};

/// Returns for each concept below `count` the concepts to which `rows` lead from it, in rising
/// order and once each. A row is the concept that it leads from and the one that it leads to, both
/// below `count`. There are fewer than 2^32 rows.
pub fn linked_lists(
    alloc: Global,
    count: u32,
    rows: &[(u32, u32)],
) -> Result<KeyedLists, AllocError>
    requires within { IsWithin count rows.now }
    requires few { length rows.now < 2 ^ 32 }
    ensures { IfOk result (λ lists. lists ≡ lists_where count (is_child rows.now)) }
{
    let by_row = KeyedLists::from_pairs(alloc, count, rows)?;
    rising_lists(alloc, &by_row, count)
}
