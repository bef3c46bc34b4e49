//! Adding a list to a `KeyedLists`, with want of memory as the only fault.
ghost use Rattle.std.specs.Prelude.{◌≡◌, ◌++◌, ◌∷◌, [], OnOk};

use number_lists::{KeyedLists, PushFault};
use std::alloc::AllocError;

/// Adds `list` to `lists` as the last one. Fails with `AllocError` if memory is refused or if all
/// lists together would have 2^32 items or more. A hierarchy of that size would take 16 GiB and
/// more in each direction.
pub fn push_list(lists: &mut KeyedLists, list: &[u32]) -> Result<(), AllocError>
    ensures { OnOk result (lists.new ≡ lists.old ++ list.now ∷ []) }
{
    match lists.push(list) {
        Ok(()) => Ok(()),
        Err(PushFault::TooManyItems | PushFault::Memory) => Err(AllocError),
    }
}
