//! Computes the size and the bound of a plan, node by node from those of the children.
ghost use Rattle.std.specs.Prelude.{◌≡◌, ◌+◌};
ghost use Rattle.set_algebra.specs.Physical.{physical_of, physical_test_of, physical_groups_list_of, physical_groups_of};
ghost use Rattle.set_algebra.specs.Physical.{physical_values, physicals_of};
ghost use Rattle.plan_bounds.specs.Alternatives.{leaf_size};
ghost use Rattle.plan_bounds.specs.Bounds.{bound as bound_of, capped, leaf_bound_at, own_number};
ghost use Rattle.plan_bounds.specs.Nodes.{group_sum, groups_sum, plans_sum, test_sum};
ghost use Rattle.plan_bounds.specs.Sizes.{group_size, group_sizes, leaf_at, size as size_of, sizes, test_size};
ghost use Rattle.plan_bounds.specs.SizeSummaries.{IsSummaryOf};

use crate::counts::{
    NodeCost, concepts, cost_of_and, cost_of_groups, cost_of_members, cost_of_minus, cost_of_or,
    cost_of_values, cost_of_walk, counts_of_leaf, groups,
};
use crate::summary::SizeSummary;
use constraint_tree::Cardinality;
use postings::Lengths;
use set_algebra::{Choice, ConceptPlan, UnitPlan, ValueTest};

/// How much a plan finds at most and how many items it visits at most, with the choices that its
/// leaves have.
#[derive(Clone, Copy)]
pub struct PlanCost {
    /// How many concepts or groups the plan finds at most. It is never capped.
    pub size: u64,
    /// The sum of the bounds of its nodes, or `u64::MAX` if it is larger.
    pub bound: u64,
}

// The costs of the parts of one node: the summary of their sizes, and the sum of their bounds.
#[derive(Clone, Copy)]
struct PartsCost {
    summary: SizeSummary,
    bound: u64,
}

/// Returns the cost of `plan`. It allocates nothing.
#[cycle(cost)]
#[tactic(auto, using(crate::proofs::Rules::costing))]
pub fn cost(plan: &ConceptPlan, lengths: Lengths<'_>) -> PlanCost
    ensures size { result.size ≡ size_of lengths.entry.indexes.now (physical_of plan.now) }
    ensures bound { result.bound ≡ capped
        (bound_of lengths.entry.indexes.now (physical_of plan.now)) }
{
    let all = concepts(lengths);
    match plan {
        ConceptPlan::Empty => without_parts(0),
        ConceptPlan::All => without_parts(all),
        ConceptPlan::One(_) => without_parts(1),
        ConceptPlan::Walk(operator, operand) => {
            let inner = cost(operand, lengths);
            let own = cost_of_walk(lengths, *operator, operand, inner.size);
            with_parts(own, inner.bound)
        }
        ConceptPlan::Members(operand) => {
            let inner = cost(operand, lengths);
            let own = cost_of_members(lengths, operand, inner.size);
            with_parts(own, inner.bound)
        }
        ConceptPlan::And(parts) => {
            let inner = parts_cost(parts, all, lengths);
            with_parts(cost_of_and(&inner.summary), inner.bound)
        }
        ConceptPlan::Or(parts) => {
            let inner = parts_cost(parts, all, lengths);
            let own = cost_of_or(all, &inner.summary, parts.len() as u64);
            with_parts(own, inner.bound)
        }
        ConceptPlan::Minus(first, second) => {
            let left = cost(first, lengths);
            let right = cost(second, lengths);
            with_two(cost_of_minus(left.size, right.size), left, right)
        }
        ConceptPlan::Values(start, names) => values_cost(start, names, lengths),
        ConceptPlan::Pairs {
            back,
            count,
            types,
            test,
            choice,
        } => pairs_cost(all, *back, *count, types, test, *choice, lengths),
        ConceptPlan::Units { count, units } => {
            let inner = group_cost(units, lengths);
            let own = cost_of_groups(*count, all, inner.size);
            with_parts(own, inner.bound)
        }
    }
}

// Returns the cost of a `Values` node with the plan `start` and the types `names`.
#[cycle(cost)]
fn values_cost(start: &ConceptPlan, names: &[ConceptPlan], lengths: Lengths<'_>) -> PlanCost
    ensures size { result.size ≡ size_of lengths.entry.indexes.now
        (physical_values (physical_of start.now) (physicals_of names.now)) }
    ensures bound { result.bound ≡ capped
        (bound_of lengths.entry.indexes.now
        (physical_values (physical_of start.now) (physicals_of names.now))) }
{
    let from = cost(start, lengths);
    let types = parts_cost(names, 0, lengths);
    let own = cost_of_values(lengths, names.len() as u64, from.size);
    with_parts(own, from.bound.saturating_add(types.bound))
}

// Returns the cost of a leaf, with those of its types and its test. `all` is the number of
// concepts, or of groups, in the release.
#[cycle(cost)]
fn pairs_cost(
    all: u64,
    back: bool,
    count: Cardinality,
    types: &ConceptPlan,
    test: &ValueTest,
    choice: Choice,
    lengths: Lengths<'_>,
) -> PlanCost
    ensures size { result.size ≡ leaf_size
        (leaf_at lengths.entry.indexes.now all back count (physical_of types.now)
        (physical_test_of test.now)) choice }
    ensures bound { result.bound ≡ capped (leaf_bound_at lengths.entry.indexes.now all back count
        (physical_of types.now) (physical_test_of test.now) choice
        + (bound_of lengths.entry.indexes.now (physical_of types.now)
        + test_sum (own_number lengths.entry.indexes.now) (physical_test_of test.now))) }
{
    let of_types = cost(types, lengths);
    let of_test = test_cost(test, lengths);
    let sizes = (of_types.size, of_test.size);
    let leaf = counts_of_leaf(lengths, all, back, count, types, test, sizes);
    with_two(leaf.cost(choice), of_types, of_test)
}

/// Returns the cost of the plan of groups `plan`. It allocates nothing.
#[cycle(cost)]
#[tactic(auto, using(crate::proofs::Rules::costing))]
pub fn group_cost(plan: &UnitPlan, lengths: Lengths<'_>) -> PlanCost
    ensures size { result.size ≡ group_size lengths.entry.indexes.now
        (physical_groups_of plan.now) }
    ensures bound { result.bound ≡ capped (group_sum (own_number lengths.entry.indexes.now)
        (physical_groups_of plan.now)) }
{
    let all = groups(lengths);
    match plan {
        UnitPlan::Nothing => without_parts(0),
        UnitPlan::Every => without_parts(all),
        UnitPlan::And(parts) => {
            let inner = group_parts_cost(parts, all, lengths);
            with_parts(cost_of_and(&inner.summary), inner.bound)
        }
        UnitPlan::Or(parts) => {
            let inner = group_parts_cost(parts, all, lengths);
            let own = cost_of_or(all, &inner.summary, parts.len() as u64);
            with_parts(own, inner.bound)
        }
        UnitPlan::Minus(first, second) => {
            let left = group_cost(first, lengths);
            let right = group_cost(second, lengths);
            with_two(cost_of_minus(left.size, right.size), left, right)
        }
        UnitPlan::Pairs {
            count,
            types,
            test,
            choice,
        } => pairs_cost(all, false, *count, types, test, *choice, lengths),
    }
}

// Returns the cost of the plan of `test`, or 0 if the test has no plan.
#[cycle(cost)]
fn test_cost(test: &ValueTest, lengths: Lengths<'_>) -> PlanCost
    ensures size { result.size ≡ test_size lengths.entry.indexes.now (physical_test_of test.now) }
    ensures bound { result.bound ≡ capped (test_sum (own_number lengths.entry.indexes.now)
        (physical_test_of test.now)) }
{
    match test {
        ValueTest::Within(operand) | ValueTest::Outside(operand) => cost(operand, lengths),
        ValueTest::Number(_, _) => without_parts(0),
    }
}

// Returns the costs of the plans `parts`. If there are no parts, `all` stands for their least size.
#[cycle(cost)]
fn parts_cost(parts: &[ConceptPlan], all: u64, lengths: Lengths<'_>) -> PartsCost
    ensures summary { IsSummaryOf all (sizes lengths.entry.indexes.now (physicals_of parts.now))
        result.summary }
    ensures bound { result.bound ≡ capped
        (plans_sum (own_number lengths.entry.indexes.now) (physicals_of parts.now)) }
{
    let mut summary = SizeSummary::none(all);
    let mut bound = 0u64;
    for place in 0..parts.len() {
        let part = cost(&parts[place], lengths);
        summary = summary.with(place as u64, part.size);
        bound = bound.saturating_add(part.bound);
    }
    PartsCost { summary, bound }
}

// Returns the costs of the plans of groups `parts`. If there are no parts, `all` stands for their
// least size.
#[cycle(cost)]
fn group_parts_cost(parts: &[UnitPlan], all: u64, lengths: Lengths<'_>) -> PartsCost
    ensures summary { IsSummaryOf all (group_sizes lengths.entry.indexes.now
        (physical_groups_list_of parts.now)) result.summary }
    ensures bound { result.bound ≡ capped (groups_sum (own_number lengths.entry.indexes.now)
        (physical_groups_list_of parts.now)) }
{
    let mut summary = SizeSummary::none(all);
    let mut bound = 0u64;
    for place in 0..parts.len() {
        let part = group_cost(&parts[place], lengths);
        summary = summary.with(place as u64, part.size);
        bound = bound.saturating_add(part.bound);
    }
    PartsCost { summary, bound }
}

// Returns the cost of a node that reads nothing and finds `size` concepts or groups.
fn without_parts(size: u64) -> PlanCost
    ensures size { result.size ≡ size }
    ensures bound { result.bound ≡ 0 }
{
    PlanCost { size, bound: 0 }
}

// Returns the cost of a plan from `own`, the cost of its root alone, and `inner`, the sum of the
// bounds of its children.
fn with_parts(own: NodeCost, inner: u64) -> PlanCost
    ensures size { result.size ≡ own.size }
    ensures bound { result.bound ≡ capped (own.bound + inner) }
{
    PlanCost {
        size: own.size,
        bound: own.bound.saturating_add(inner),
    }
}

// Returns the cost of a plan from `own`, the cost of its root alone, and the costs of its two
// children.
fn with_two(own: NodeCost, first: PlanCost, second: PlanCost) -> PlanCost
    ensures size { result.size ≡ own.size }
    ensures bound { result.bound ≡ capped (own.bound + (first.bound + second.bound)) }
{
    with_parts(own, first.bound.saturating_add(second.bound))
}
