//! Sorting each list of a `KeyedLists`, without repeats.
ghost use Rattle.std.specs.Prelude.{◌≡◌, ◌<◌, ◌^◌, IfOk, length, map};
ghost use Rattle.number_lists.specs.Rising.{listed_numbers};
ghost use Rattle.number_lists.specs.KeyedLists.{AreItemsBelow};

use crate::grown::push_list;
use number_lists::{KeyedLists, keep_rising};
use std::alloc::{AllocError, Global};

/// Returns `lists` with each list brought into rising order, without repeats. All items are below
/// `bound`.
pub fn rising_lists(alloc: Global, lists: &KeyedLists, bound: u32) -> Result<KeyedLists, AllocError>
    requires items { AreItemsBelow bound lists.now }
    requires few { length lists.now < 2 ^ 32 }
    ensures { IfOk result (λ rising. rising ≡ map (listed_numbers bound) lists.now) }
{
    let mut rising = KeyedLists::with_capacity(alloc, lists.len() as usize, lists.item_count())?;
    let mut list = Vec::new(alloc);
    for key in 0..lists.len() {
        list.clear();
        list.extend_from_slice(lists.of(key))?;
        keep_rising(&mut list);
        push_list(&mut rising, list.as_slice())?;
    }
    Ok(rising)
}
