//! Takes one set from another.
ghost use Rattle.std.specs.Prelude.{◌≡◌, IfOk};
ghost use Rattle.idset.specs.Sets.{other_items};

use idset::ConceptSet;
use std::alloc::{AllocError, Global};

/// Returns the numbers that are in `first` and not in `second`.
pub fn without<S: ConceptSet>(alloc: Global, first: &S, second: &S) -> Result<S, AllocError>
    requires bound { S.bound_of first.now ≡ S.bound_of second.now }
    ensures items { IfOk result (λ found. S.items_of found ≡ other_items (S.items_of first.now)
        (S.items_of second.now)) }
    ensures bound { IfOk result (λ found. S.bound_of found ≡ S.bound_of first.now) }
{
    first.minus(alloc, second)
}
