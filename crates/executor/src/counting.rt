//! Computes the limits of a leaf from what its types and its test have found.
ghost use Rattle.std.specs.Prelude.{◌≡◌, ◌≤◌};
ghost use Rattle.set_algebra.specs.Physical.{physical_of, physical_test_of};
ghost use Rattle.plan_bounds.specs.Alternatives.{leaf_bound};
ghost use Rattle.plan_bounds.specs.Bounds.{capped, leaf_bound_at};
ghost use Rattle.plan_bounds.specs.Counts.{leaf_of};
ghost use Rattle.plan_bounds.specs.Floors.{leaf_floor};
ghost use Rattle.plan_bounds.specs.Sizes.{size, test_size};

use plan_bounds::{LeafParts, NodeLimits, leaf_limits};
use postings::Lengths;

/// Returns the floor and the bound of a leaf itself, without its parts, among `all` concepts or
/// groups. `found` has how many concepts the leaf's types, and the set of its test, have found.
pub fn leaf_limits_within(
    lengths: Lengths<'_>,
    all: u64,
    back: bool,
    leaf: LeafParts<'_>,
    found: (u32, u32),
) -> NodeLimits
    requires types { found.0 ≤ size lengths.indexes.now (physical_of leaf.types.now) }
    requires test { found.1 ≤ test_size lengths.indexes.now (physical_test_of leaf.test.now) }
    ensures within { result.bound ≤ leaf_bound_at lengths.entry.indexes.now all back
        leaf.entry.count (physical_of leaf.entry.types.now) (physical_test_of leaf.entry.test.now)
        leaf.entry.choice }
    ensures floor { result.floor ≡ leaf_floor lengths.entry.indexes.now back
        (physical_of leaf.entry.types.now) (physical_test_of leaf.entry.test.now)
        leaf.entry.choice }
    ensures ordered { result.floor ≤ result.bound }
    ensures bound { result.bound ≡ capped
        (leaf_bound (leaf_of lengths.entry.indexes.now all back leaf.entry.count
        (physical_of leaf.entry.types.now) (physical_test_of leaf.entry.test.now) found.0 found.1)
        leaf.entry.choice) }
{
    let sizes = (found.0 as u64, found.1 as u64);
    leaf_limits(lengths, all, back, leaf, sizes)
}
