//! Gives each leaf of a plan the choice with the least bound.
ghost use Rattle.std.specs.Prelude.{◌≡◌};
ghost use Rattle.set_algebra.specs.Physical.{physical_of, physical_test_of, physical_groups_list_of, physical_groups_of};
ghost use Rattle.set_algebra.specs.Physical.{physicals_of};
ghost use Rattle.set_algebra.specs.Plan.{plan_of, plans_of, test_plan_of, group_plan_of, group_plans_of};
ghost use Rattle.plan_bounds.specs.Alternatives.{leaf_size, least_choice};
ghost use Rattle.plan_bounds.specs.Leaves.{plan_count};
ghost use Rattle.plan_bounds.specs.Sizes.{group_size, group_sizes, leaf_at, size as size_of, sizes, test_size};
ghost use Rattle.plan_bounds.specs.Sizes.{values_size};
ghost use Rattle.plan_bounds.specs.SizeSummaries.{IsSummaryOf};
ghost use Rattle.planner.specs.Chosen.{all_chosen, chosen, group_chosen, groups_chosen, test_chosen};

use constraint_tree::Cardinality;
use plan_bounds::{
    SizeSummary, concepts, cost_of_groups, cost_of_members, cost_of_values, cost_of_walk,
    counts_of_leaf, groups,
};
use postings::Lengths;
use set_algebra::{Choice, ConceptPlan, UnitPlan, ValueTest};

/// Gives each leaf of `plan` the choice with the least bound, after the leaves below it have
/// theirs. Returns how many concepts the plan then finds at most. It visits each node once and
/// allocates nothing. `lengths` has the lengths of the lists of the indexes.
#[cycle(assign)]
#[tactic(auto, using(crate::proofs::Rules::choosing))]
pub fn assign_choices(plan: &mut ConceptPlan, lengths: Lengths<'_>) -> u64
    ensures plan { physical_of plan.new ≡ chosen lengths.entry.indexes.now (plan_of plan.old) }
    ensures size { result ≡ size_of lengths.entry.indexes.now
        (chosen lengths.entry.indexes.now (plan_of plan.old)) }
{
    match plan {
        ConceptPlan::Empty => 0,
        ConceptPlan::All => concepts(lengths),
        ConceptPlan::One(_) => 1,
        ConceptPlan::Walk(operator, operand) => {
            let found = assign_choices(operand, lengths);
            cost_of_walk(lengths, *operator, operand, found).size
        }
        ConceptPlan::Members(operand) => {
            let found = assign_choices(operand, lengths);
            cost_of_members(lengths, operand, found).size
        }
        ConceptPlan::And(parts) => assign_parts(parts, concepts(lengths), lengths).least,
        ConceptPlan::Or(parts) => {
            let all = concepts(lengths);
            all.min(assign_parts(parts, all, lengths).sum)
        }
        ConceptPlan::Minus(first, second) => {
            let size = assign_choices(first, lengths);
            assign_choices(second, lengths);
            size
        }
        ConceptPlan::Values(start, names) => assign_values(start, names, lengths),
        ConceptPlan::Pairs {
            back,
            count,
            types,
            test,
            choice,
        } => {
            let all = concepts(lengths);
            assign_leaf(all, *back, *count, types, test, choice, lengths)
        }
        ConceptPlan::Units { count, units } => {
            let found = assign_groups(units, lengths);
            cost_of_groups(*count, concepts(lengths), found).size
        }
    }
}

// Gives the leaves of a `Values` node the choices of least bound. Returns how many values the node
// then finds at most.
#[cycle(assign)]
fn assign_values(start: &mut ConceptPlan, names: &mut Vec<ConceptPlan>, lengths: Lengths<'_>) -> u64
    ensures start { physical_of start.new ≡ chosen lengths.entry.indexes.now (plan_of start.old) }
    ensures names { physicals_of names.new.items
        ≡ all_chosen lengths.entry.indexes.now (plans_of names.old.items) }
    ensures size { result ≡ values_size lengths.entry.indexes.now
        (plan_count (all_chosen lengths.entry.indexes.now (plans_of names.old.items)))
        (size_of lengths.entry.indexes.now (chosen lengths.entry.indexes.now (plan_of start.old))) }
{
    let from = assign_choices(start, lengths);
    assign_parts(names, 0, lengths);
    cost_of_values(lengths, names.len() as u64, from).size
}

// Gives the leaves of the plan of groups `plan` the choices of least bound. Returns how many groups
// the plan then finds at most.
#[cycle(assign)]
#[tactic(auto, using(crate::proofs::Rules::choosing))]
fn assign_groups(plan: &mut UnitPlan, lengths: Lengths<'_>) -> u64
    ensures plan { physical_groups_of plan.new
        ≡ group_chosen lengths.entry.indexes.now (group_plan_of plan.old) }
    ensures size { result ≡ group_size lengths.entry.indexes.now
        (group_chosen lengths.entry.indexes.now (group_plan_of plan.old)) }
{
    match plan {
        UnitPlan::Nothing => 0,
        UnitPlan::Every => groups(lengths),
        UnitPlan::And(parts) => assign_group_parts(parts, groups(lengths), lengths).least,
        UnitPlan::Or(parts) => {
            let all = groups(lengths);
            all.min(assign_group_parts(parts, all, lengths).sum)
        }
        UnitPlan::Minus(first, second) => {
            let size = assign_groups(first, lengths);
            assign_groups(second, lengths);
            size
        }
        UnitPlan::Pairs {
            count,
            types,
            test,
            choice,
        } => {
            let all = groups(lengths);
            assign_leaf(all, false, *count, types, test, choice, lengths)
        }
    }
}

// Gives the leaves of `types` and `test` their choices, and then sets `choice`, that of the leaf
// itself. Returns how many of `all` concepts or groups the leaf then finds at most.
#[cycle(assign)]
fn assign_leaf(
    all: u64,
    back: bool,
    count: Cardinality,
    types: &mut ConceptPlan,
    test: &mut ValueTest,
    choice: &mut Choice,
    lengths: Lengths<'_>,
) -> u64
    ensures types { physical_of types.new ≡ chosen lengths.entry.indexes.now (plan_of types.old) }
    ensures test { physical_test_of test.new
        ≡ test_chosen lengths.entry.indexes.now (test_plan_of test.old) }
    ensures choice { choice.new ≡ least_choice
        (leaf_at lengths.entry.indexes.now all back count (physical_of types.new)
        (physical_test_of test.new)) }
    ensures size { result ≡ leaf_size (leaf_at lengths.entry.indexes.now all back count
        (physical_of types.new) (physical_test_of test.new)) choice.new }
{
    let of_types = assign_choices(types, lengths);
    let of_test = assign_test(test, lengths);
    let sizes = (of_types, of_test);
    let leaf = counts_of_leaf(lengths, all, back, count, types, test, sizes);
    let least = leaf.least();
    *choice = least;
    leaf.size(least)
}

// Gives the leaves of the plan of `test` the choices of least bound. Returns how many concepts that
// plan then finds at most, or 0 if the test has no plan.
#[cycle(assign)]
fn assign_test(test: &mut ValueTest, lengths: Lengths<'_>) -> u64
    ensures test { physical_test_of test.new
        ≡ test_chosen lengths.entry.indexes.now (test_plan_of test.old) }
    ensures size { result ≡ test_size lengths.entry.indexes.now
        (test_chosen lengths.entry.indexes.now (test_plan_of test.old)) }
{
    match test {
        ValueTest::Within(operand) => assign_choices(operand, lengths),
        ValueTest::Outside(operand) => assign_choices(operand, lengths),
        ValueTest::Number(_, _) => 0,
    }
}

// Gives the leaves of the plans `parts` the choices of least bound. Returns the summary of the
// sizes of these plans; if there are no parts, `all` stands for their least size.
#[cycle(assign)]
fn assign_parts(parts: &mut Vec<ConceptPlan>, all: u64, lengths: Lengths<'_>) -> SizeSummary
    ensures parts { physicals_of parts.new.items
        ≡ all_chosen lengths.entry.indexes.now (plans_of parts.old.items) }
    ensures summary { IsSummaryOf all (sizes lengths.entry.indexes.now
        (all_chosen lengths.entry.indexes.now (plans_of parts.old.items))) result }
{
    let mut summary = SizeSummary::none(all);
    for place in 0..parts.len() {
        let size = assign_choices(&mut parts[place], lengths);
        summary = summary.with(place as u64, size);
    }
    summary
}

// Gives the leaves of the plans of groups `parts` the choices of least bound. Returns the summary
// of the sizes of these plans; if there are no parts, `all` stands for their least size.
#[cycle(assign)]
fn assign_group_parts(parts: &mut Vec<UnitPlan>, all: u64, lengths: Lengths<'_>) -> SizeSummary
    ensures parts { physical_groups_list_of parts.new.items
        ≡ groups_chosen lengths.entry.indexes.now (group_plans_of parts.old.items) }
    ensures summary { IsSummaryOf all (group_sizes lengths.entry.indexes.now
        (groups_chosen lengths.entry.indexes.now (group_plans_of parts.old.items))) result }
{
    let mut summary = SizeSummary::none(all);
    for place in 0..parts.len() {
        let size = assign_groups(&mut parts[place], lengths);
        summary = summary.with(place as u64, size);
    }
    summary
}
