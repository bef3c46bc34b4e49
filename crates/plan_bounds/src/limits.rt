//! Computes how many items one node of a plan visits, at least and at most, when its children have
//! been executed. The visits of the children are not counted.
ghost use Rattle.std.specs.Prelude.{◌≡◌, ◌≤◌, if◌then◌else◌};
ghost use Rattle.set_algebra.specs.Physical.{physical_groups_of, physical_of, physical_test_of};
ghost use Rattle.plan_bounds.specs.Alternatives.{leaf_bound};
ghost use Rattle.plan_bounds.specs.Bounds.{capped, members_bound, walk_bound};
ghost use Rattle.plan_bounds.specs.Counts.{is_extreme, leaf_of, list_length, member_count, one_of};
ghost use Rattle.plan_bounds.specs.Floors.{leaf_floor as leaf_floor_of, of_one};
ghost use Rattle.plan_bounds.specs.Sizes.{group_size, size as size_of};

use crate::costs::{cost, group_cost};
use crate::counts::{cost_of_members, cost_of_walk, counts_of_leaf};
use crate::floors::{leaf_floor, members_floor, walk_floor};
use crate::node_parts::LeafParts;
use constraint_tree::Operator;
use postings::Lengths;
use set_algebra::{ConceptPlan, NodeLimits, UnitPlan};

/// Returns the limits of a `Walk` node whose `operand` has found `size` concepts.
pub fn walk_limits(
    lengths: Lengths<'_>,
    operator: Operator,
    operand: &ConceptPlan,
    size: u64,
) -> NodeLimits
    ensures floor { result.floor ≡ (if is_extreme operator then 0 else of_one
        lengths.entry.indexes.now (one_of (physical_of operand.now))
        (list_length lengths.entry.indexes.now operator)) }
    ensures bound { result.bound ≡ capped (walk_bound lengths.entry.indexes.now operator
        (one_of (physical_of operand.now)) size) }
    ensures ordered { result.floor ≤ result.bound }
{
    NodeLimits {
        floor: walk_floor(lengths, operator, operand),
        bound: cost_of_walk(lengths, operator, operand, size).bound,
    }
}

/// Returns the limits of a `Members` node whose `operand` has found `size` reference sets.
pub fn members_limits(lengths: Lengths<'_>, operand: &ConceptPlan, size: u64) -> NodeLimits
    ensures floor { result.floor ≡ of_one lengths.entry.indexes.now
        (one_of (physical_of operand.now)) (member_count lengths.entry.indexes.now) }
    ensures bound { result.bound ≡ capped
        (members_bound lengths.entry.indexes.now (one_of (physical_of operand.now)) size) }
    ensures ordered { result.floor ≤ result.bound }
{
    NodeLimits {
        floor: members_floor(lengths, operand),
        bound: cost_of_members(lengths, operand, size).bound,
    }
}

/// Returns the limits of `leaf` over `all` concepts or groups. `sizes` has how many types its plan
/// of types has found, and how many values the plan of its test.
pub fn leaf_limits(
    lengths: Lengths<'_>,
    all: u64,
    back: bool,
    leaf: LeafParts<'_>,
    sizes: (u64, u64),
) -> NodeLimits
    ensures floor { result.floor ≡ leaf_floor_of lengths.entry.indexes.now back
        (physical_of leaf.entry.types.now) (physical_test_of leaf.entry.test.now)
        leaf.entry.choice }
    ensures bound { result.bound ≡ capped
        (leaf_bound (leaf_of lengths.entry.indexes.now all back leaf.entry.count
        (physical_of leaf.entry.types.now) (physical_test_of leaf.entry.test.now) sizes.0 sizes.1)
        leaf.entry.choice) }
    ensures ordered { result.floor ≤ result.bound }
{
    let counts = counts_of_leaf(lengths, all, back, leaf.count, leaf.types, leaf.test, sizes);
    NodeLimits {
        floor: leaf_floor(lengths, back, leaf.types, leaf.test, leaf.choice),
        bound: counts.cost(leaf.choice).bound,
    }
}

/// Returns how many concepts `plan` finds at most. It allocates nothing.
pub fn plan_size(plan: &ConceptPlan, lengths: Lengths<'_>) -> u64
    ensures { result ≡ size_of lengths.entry.indexes.now (physical_of plan.now) }
{
    cost(plan, lengths).size
}

/// Returns how many groups the plan of groups `units` finds at most. It allocates nothing.
pub fn group_plan_size(units: &UnitPlan, lengths: Lengths<'_>) -> u64
    ensures { result ≡ group_size lengths.entry.indexes.now (physical_groups_of units.now) }
{
    group_cost(units, lengths).size
}
