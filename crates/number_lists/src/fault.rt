//! Why `KeyedLists::push` fails.

use std::alloc::{AllocError, AllocFailed};

/// Why `KeyedLists::push` did not add a list.
#[derive(Clone, Copy, Debug, PartialEq, Eq)]
pub enum PushFault {
    /// All lists together would have 2^32 items or more.
    TooManyItems,
    /// The allocator refused memory.
    Memory,
}

impl From<AllocError> for PushFault {
    ghost use Rattle.std.specs.Prelude.{◌≡◌};
    ghost use Rattle.number_lists.specs.declared.fault.PushFault.TheVariants.{Memory};

    ghost from_gives = { λ _ fault. fault ≡ Memory };

    fn from(_refused: AllocError) -> PushFault {
        PushFault::Memory
    }
}

impl<T: Drop> From<AllocFailed<T>> for PushFault {
    ghost use Rattle.std.specs.Prelude.{◌≡◌};
    ghost use Rattle.number_lists.specs.declared.fault.PushFault.TheVariants.{Memory};

    ghost from_gives = { λ _ fault. fault ≡ Memory };

    fn from(_refused: AllocFailed<T>) -> PushFault {
        PushFault::Memory
    }
}
