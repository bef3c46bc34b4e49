//! Lists the bound of each node of a plan, a node before its children. The bound of a node does not
//! contain the bounds of its children.
ghost use Rattle.std.specs.Prelude.{◌≡◌, ◌<◌, ◌++◌, ◌∷◌, [], IfOk, OnOk, length};
ghost use Rattle.std.specs.List.{slice_set};
ghost use Rattle.set_algebra.specs.Physical.{physical_and, physical_members, physical_minus, physical_of, physical_or};
ghost use Rattle.set_algebra.specs.Physical.{physical_test_of};
ghost use Rattle.set_algebra.specs.Physical.{physical_groups, physical_groups_and, physical_groups_list_of};
ghost use Rattle.set_algebra.specs.Physical.{physical_groups_minus};
ghost use Rattle.set_algebra.specs.Physical.{physical_groups_of, physical_groups_or, physical_values, physical_walk};
ghost use Rattle.set_algebra.specs.Physical.{physicals_of};
ghost use Rattle.plan_bounds.specs.Bounds.{own_bounds, own_list};
ghost use Rattle.plan_bounds.specs.Nodes.{group_list, groups_list, plans_list, test_list};
ghost use Rattle.plan_bounds.specs.Sizes.{group_size, group_sizes, size as size_of, sizes, test_size};
ghost use Rattle.planner.specs.inside.ListedNodes.{IsGroupNode, IsLeafNode, IsNode};
ghost use Rattle.plan_bounds.specs.SizeSummaries.{IsSummaryOf};

use constraint_tree::{Cardinality, Operator};
use plan_bounds::{
    NodeCost, SizeSummary, concepts, cost_of_and, cost_of_groups, cost_of_members, cost_of_minus,
    cost_of_or, cost_of_values, cost_of_walk, counts_of_leaf, groups,
};
use postings::Lengths;
use set_algebra::{Choice, ConceptPlan, UnitPlan, ValueTest};
use std::alloc::AllocError;

/// Appends to `bounds` the bound of each node of `plan`, a node before its children. Returns how
/// many concepts `plan` finds at most, or `AllocError` if memory runs out.
#[cycle(list)]
pub fn list(
    plan: &ConceptPlan,
    lengths: Lengths<'_>,
    bounds: &mut Vec<u64>,
) -> Result<u64, AllocError>
    ensures bounds { OnOk result (bounds.new.items ≡ bounds.old.items
        ++ own_bounds lengths.entry.indexes.now (physical_of plan.now)) }
    ensures size { IfOk result (λ size. size
        ≡ size_of lengths.entry.indexes.now (physical_of plan.now)) }
{
    let at = open(bounds)?;
    let node = list_after(plan, lengths, bounds)?;
    Ok(closed(bounds, at, node))
}

// Appends the bounds of the nodes below the root of `plan`. Returns the size and the bound of the
// root.
#[cycle(list)]
#[tactic(auto, using(crate::proofs::Rules::listing))]
fn list_after(
    plan: &ConceptPlan,
    lengths: Lengths<'_>,
    bounds: &mut Vec<u64>,
) -> Result<NodeCost, AllocError>
    ensures { IfOk result (λ node. IsNode lengths.entry.indexes.now (physical_of plan.now)
        bounds.old.items bounds.new.items node) }
{
    match plan {
        ConceptPlan::Empty => Ok(without_parts(0)),
        ConceptPlan::All => Ok(without_parts(concepts(lengths))),
        ConceptPlan::One(_) => Ok(without_parts(1)),
        ConceptPlan::Walk(operator, operand) => { list_walk(*operator, operand, lengths, bounds) }
        ConceptPlan::Members(operand) => list_members(operand, lengths, bounds),
        ConceptPlan::And(parts) => list_and(parts, lengths, bounds),
        ConceptPlan::Or(parts) => list_or(parts, lengths, bounds),
        ConceptPlan::Minus(first, second) => list_minus(first, second, lengths, bounds),
        ConceptPlan::Values(start, names) => list_values(start, names, lengths, bounds),
        ConceptPlan::Pairs {
            back,
            count,
            types,
            test,
            choice,
        } => {
            let all = concepts(lengths);
            list_pairs(all, *back, *count, types, test, *choice, lengths, bounds)
        }
        ConceptPlan::Units { count, units } => { list_of_groups(*count, units, lengths, bounds) }
    }
}

// Appends the bounds of the operand of a `Walk` node. Returns the cost of the node.
#[cycle(list)]
fn list_walk(
    operator: Operator,
    operand: &ConceptPlan,
    lengths: Lengths<'_>,
    bounds: &mut Vec<u64>,
) -> Result<NodeCost, AllocError>
    ensures { IfOk result (λ node. IsNode lengths.entry.indexes.now
        (physical_walk operator (physical_of operand.now)) bounds.old.items bounds.new.items node) }
{
    let inner = list(operand, lengths, bounds)?;
    let own = cost_of_walk(lengths, operator, operand, inner);
    Ok(own)
}

// Appends the bounds of the operand of a `Members` node. Returns the cost of the node.
#[cycle(list)]
fn list_members(
    operand: &ConceptPlan,
    lengths: Lengths<'_>,
    bounds: &mut Vec<u64>,
) -> Result<NodeCost, AllocError>
    ensures { IfOk result (λ node. IsNode lengths.entry.indexes.now
        (physical_members (physical_of operand.now)) bounds.old.items bounds.new.items node) }
{
    let inner = list(operand, lengths, bounds)?;
    let own = cost_of_members(lengths, operand, inner);
    Ok(own)
}

// Appends the bounds of the parts of an `And` node of concepts. Returns the cost of the node.
#[cycle(list)]
fn list_and(
    parts: &[ConceptPlan],
    lengths: Lengths<'_>,
    bounds: &mut Vec<u64>,
) -> Result<NodeCost, AllocError>
    ensures { IfOk result (λ node. IsNode lengths.entry.indexes.now
        (physical_and (physicals_of parts.now)) bounds.old.items bounds.new.items node) }
{
    let inner = list_parts(parts, concepts(lengths), lengths, bounds)?;
    Ok(cost_of_and(&inner))
}

// Appends the bounds of the parts of an `Or` node of concepts. Returns the cost of the node.
#[cycle(list)]
fn list_or(
    parts: &[ConceptPlan],
    lengths: Lengths<'_>,
    bounds: &mut Vec<u64>,
) -> Result<NodeCost, AllocError>
    ensures { IfOk result (λ node. IsNode lengths.entry.indexes.now
        (physical_or (physicals_of parts.now)) bounds.old.items bounds.new.items node) }
{
    let all = concepts(lengths);
    let inner = list_parts(parts, all, lengths, bounds)?;
    let own = cost_of_or(all, &inner, parts.len() as u64);
    Ok(own)
}

// Appends the bounds of both parts of a `Minus` node of concepts. Returns the cost of the node.
#[cycle(list)]
fn list_minus(
    first: &ConceptPlan,
    second: &ConceptPlan,
    lengths: Lengths<'_>,
    bounds: &mut Vec<u64>,
) -> Result<NodeCost, AllocError>
    ensures { IfOk result (λ node. IsNode lengths.entry.indexes.now
        (physical_minus (physical_of first.now) (physical_of second.now)) bounds.old.items
        bounds.new.items node) }
{
    let left = list(first, lengths, bounds)?;
    let right = list(second, lengths, bounds)?;
    Ok(cost_of_minus(left, right))
}

// Appends the bounds of the start and the types of a `Values` node. Returns the cost of the node.
#[cycle(list)]
fn list_values(
    start: &ConceptPlan,
    names: &[ConceptPlan],
    lengths: Lengths<'_>,
    bounds: &mut Vec<u64>,
) -> Result<NodeCost, AllocError>
    ensures { IfOk result (λ node. IsNode lengths.entry.indexes.now
        (physical_values (physical_of start.now) (physicals_of names.now)) bounds.old.items
        bounds.new.items node) }
{
    let from = list(start, lengths, bounds)?;
    let types = list_parts(names, 0, lengths, bounds)?;
    let own = cost_of_values(lengths, names.len() as u64, from);
    Ok(own)
}

// Appends the bounds of the types and the test of a leaf, of concepts or of groups. `all` is the
// number of concepts, or of groups, in the release. Returns the cost of the leaf.
#[cycle(list)]
fn list_pairs(
    all: u64,
    back: bool,
    count: Cardinality,
    types: &ConceptPlan,
    test: &ValueTest,
    choice: Choice,
    lengths: Lengths<'_>,
    bounds: &mut Vec<u64>,
) -> Result<NodeCost, AllocError>
    ensures { IfOk result (λ node. IsLeafNode lengths.entry.indexes.now all back count
        (physical_of types.now) (physical_test_of test.now) choice bounds.old.items bounds.new.items
        node) }
{
    let of_types = list(types, lengths, bounds)?;
    let of_test = list_test(test, lengths, bounds)?;
    let sizes = (of_types, of_test);
    let leaf = counts_of_leaf(lengths, all, back, count, types, test, sizes);
    Ok(leaf.cost(choice))
}

// Appends the bounds of the plan of groups of a `Units` node. Returns the cost of the node.
#[cycle(list)]
fn list_of_groups(
    count: Cardinality,
    units: &UnitPlan,
    lengths: Lengths<'_>,
    bounds: &mut Vec<u64>,
) -> Result<NodeCost, AllocError>
    ensures { IfOk result (λ node. IsNode lengths.entry.indexes.now
        (physical_groups count (physical_groups_of units.now))
        bounds.old.items bounds.new.items node) }
{
    let inner = list_groups(units, lengths, bounds)?;
    let own = cost_of_groups(count, concepts(lengths), inner);
    Ok(own)
}

// Appends the bound of each node of the plan of groups `plan`, a node before its children. Returns
// how many groups it finds at most.
#[cycle(list)]
fn list_groups(
    plan: &UnitPlan,
    lengths: Lengths<'_>,
    bounds: &mut Vec<u64>,
) -> Result<u64, AllocError>
    ensures bounds { OnOk result (bounds.new.items ≡ bounds.old.items
        ++ group_list (own_list lengths.entry.indexes.now)
        (physical_groups_of plan.now)) }
    ensures size { IfOk result (λ size. size
        ≡ group_size lengths.entry.indexes.now (physical_groups_of plan.now)) }
{
    let at = open(bounds)?;
    let node = list_groups_after(plan, lengths, bounds)?;
    Ok(closed(bounds, at, node))
}

// Appends the bounds of the nodes below the root of the plan of groups `plan`. Returns the size and
// the bound of the root.
#[cycle(list)]
#[tactic(auto, using(crate::proofs::Rules::listing))]
fn list_groups_after(
    plan: &UnitPlan,
    lengths: Lengths<'_>,
    bounds: &mut Vec<u64>,
) -> Result<NodeCost, AllocError>
    ensures { IfOk result (λ node. IsGroupNode lengths.entry.indexes.now
        (physical_groups_of plan.now) bounds.old.items bounds.new.items node) }
{
    match plan {
        UnitPlan::Nothing => Ok(without_parts(0)),
        UnitPlan::Every => Ok(without_parts(groups(lengths))),
        UnitPlan::And(parts) => list_groups_and(parts, lengths, bounds),
        UnitPlan::Or(parts) => list_groups_or(parts, lengths, bounds),
        UnitPlan::Minus(first, second) => { list_groups_minus(first, second, lengths, bounds) }
        UnitPlan::Pairs {
            count,
            types,
            test,
            choice,
        } => {
            let all = groups(lengths);
            list_pairs(all, false, *count, types, test, *choice, lengths, bounds)
        }
    }
}

// Appends the bounds of the parts of an `And` node of groups. Returns the cost of the node.
#[cycle(list)]
fn list_groups_and(
    parts: &[UnitPlan],
    lengths: Lengths<'_>,
    bounds: &mut Vec<u64>,
) -> Result<NodeCost, AllocError>
    ensures { IfOk result (λ node. IsGroupNode lengths.entry.indexes.now (physical_groups_and
        (physical_groups_list_of parts.now)) bounds.old.items bounds.new.items node) }
{
    let inner = list_group_parts(parts, groups(lengths), lengths, bounds)?;
    Ok(cost_of_and(&inner))
}

// Appends the bounds of the parts of an `Or` node of groups. Returns the cost of the node.
#[cycle(list)]
fn list_groups_or(
    parts: &[UnitPlan],
    lengths: Lengths<'_>,
    bounds: &mut Vec<u64>,
) -> Result<NodeCost, AllocError>
    ensures { IfOk result (λ node. IsGroupNode lengths.entry.indexes.now (physical_groups_or
        (physical_groups_list_of parts.now)) bounds.old.items bounds.new.items node) }
{
    let all = groups(lengths);
    let inner = list_group_parts(parts, all, lengths, bounds)?;
    let own = cost_of_or(all, &inner, parts.len() as u64);
    Ok(own)
}

// Appends the bounds of both parts of a `Minus` node of groups. Returns the cost of the node.
#[cycle(list)]
fn list_groups_minus(
    first: &UnitPlan,
    second: &UnitPlan,
    lengths: Lengths<'_>,
    bounds: &mut Vec<u64>,
) -> Result<NodeCost, AllocError>
    ensures { IfOk result (λ node. IsGroupNode lengths.entry.indexes.now
        (physical_groups_minus (physical_groups_of first.now) (physical_groups_of second.now))
        bounds.old.items bounds.new.items node) }
{
    let left = list_groups(first, lengths, bounds)?;
    let right = list_groups(second, lengths, bounds)?;
    Ok(cost_of_minus(left, right))
}

// Appends the bounds of the plan of `test`. Returns how many concepts that plan finds at most, or 0
// if the test has no plan.
#[cycle(list)]
fn list_test(
    test: &ValueTest,
    lengths: Lengths<'_>,
    bounds: &mut Vec<u64>,
) -> Result<u64, AllocError>
    ensures bounds { OnOk result (bounds.new.items ≡ bounds.old.items
        ++ test_list (own_list lengths.entry.indexes.now)
        (physical_test_of test.now)) }
    ensures size { IfOk result (λ size. size
        ≡ test_size lengths.entry.indexes.now (physical_test_of test.now)) }
{
    match test {
        ValueTest::Within(operand) | ValueTest::Outside(operand) => {
            list(operand, lengths, bounds)
        }
        ValueTest::Number(_, _) => Ok(0),
    }
}

// Appends the bounds of the plans `parts`, plan by plan. Returns the summary of their sizes; if
// there are no parts, `all` stands for their least size.
#[cycle(list)]
fn list_parts(
    parts: &[ConceptPlan],
    all: u64,
    lengths: Lengths<'_>,
    bounds: &mut Vec<u64>,
) -> Result<SizeSummary, AllocError>
    ensures bounds { OnOk result (bounds.new.items ≡ bounds.old.items
        ++ plans_list (own_list lengths.entry.indexes.now)
        (physicals_of parts.now)) }
    ensures summary { IfOk result (λ summary. IsSummaryOf all
        (sizes lengths.entry.indexes.now (physicals_of parts.now)) summary) }
{
    let mut summary = SizeSummary::none(all);
    for place in 0..parts.len() {
        let part = list(&parts[place], lengths, bounds)?;
        summary = summary.with(place as u64, part);
    }
    Ok(summary)
}

// Appends the bounds of the plans of groups `parts`, plan by plan. Returns the summary of their
// sizes; if there are no parts, `all` stands for their least size.
#[cycle(list)]
fn list_group_parts(
    parts: &[UnitPlan],
    all: u64,
    lengths: Lengths<'_>,
    bounds: &mut Vec<u64>,
) -> Result<SizeSummary, AllocError>
    ensures bounds { OnOk result (bounds.new.items ≡ bounds.old.items ++ groups_list
        (own_list lengths.entry.indexes.now) (physical_groups_list_of parts.now)) }
    ensures summary { IfOk result (λ summary. IsSummaryOf all (group_sizes lengths.entry.indexes.now
        (physical_groups_list_of parts.now)) summary) }
{
    let mut summary = SizeSummary::none(all);
    for place in 0..parts.len() {
        let part = list_groups(&parts[place], lengths, bounds)?;
        summary = summary.with(place as u64, part);
    }
    Ok(summary)
}

// Appends a 0 that `closed` later replaces by the bound of a node, so that it stands before those
// of its children. Returns the index of the 0.
fn open(bounds: &mut Vec<u64>) -> Result<usize, AllocError>
    ensures bounds { OnOk result (bounds.new.items ≡ bounds.old.items ++ 0 ∷ []) }
    ensures at { IfOk result (λ at. at ≡ length bounds.old.items) }
{
    let at = bounds.len();
    bounds.push(0)?;
    Ok(at)
}

// Writes the bound of `node` at the index `at`, which `open` returned, after the bounds of its
// children were appended. Returns the size of the node.
fn closed(bounds: &mut Vec<u64>, at: usize, node: NodeCost) -> u64
    requires { at < length bounds.old.items }
    ensures bounds { bounds.new.items ≡ slice_set bounds.old.items at node.bound }
    ensures size { result ≡ node.size }
{
    bounds[at] = node.bound;
    node.size
}

// Returns the cost of a node without children that reads nothing and finds `size` concepts or
// groups.
fn without_parts(size: u64) -> NodeCost
    ensures size { result.size ≡ size }
    ensures bound { result.bound ≡ 0 }
{
    NodeCost { size, bound: 0 }
}
