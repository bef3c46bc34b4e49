//! Computes the floor of a plan, node by node.
ghost use Rattle.std.specs.Prelude.{◌≡◌, ◌+◌, if◌then◌else◌};
ghost use Rattle.set_algebra.specs.Physical.{physical_of, physical_test_of, physical_groups_list_of, physical_groups_of};
ghost use Rattle.set_algebra.specs.Physical.{physicals_of};
ghost use Rattle.held_release.specs.Numbering.{concept_number};
ghost use Rattle.plan_bounds.specs.Bounds.{capped};
ghost use Rattle.plan_bounds.specs.Counts.{is_extreme as is_extreme_of, list_length as list_length_of};
ghost use Rattle.plan_bounds.specs.Counts.{member_count as member_count_of, one_of};
ghost use Rattle.plan_bounds.specs.Floors.{floor as floor_of, floor_number, if_in_force, leaf_floor as leaf_floor_of};
ghost use Rattle.plan_bounds.specs.Floors.{of_one, within_floor};
ghost use Rattle.plan_bounds.specs.Nodes.{group_sum, groups_sum, plans_sum, test_sum};

use crate::counts::{is_extreme, list_length, member_count, one, value_row_count};
use constraint_tree::Operator;
use postings::Lengths;
use set_algebra::{Choice, ConceptPlan, UnitPlan, ValueTest};

/// Returns how many items `plan` visits at least if no node is skipped: the sum of the floors of
/// its nodes, or `u64::MAX` if it is larger. It allocates nothing.
#[cycle(floor)]
#[tactic(auto, using(crate::proofs::Rules::costing))]
pub fn plan_floor(plan: &ConceptPlan, lengths: Lengths<'_>) -> u64
    ensures { result ≡ capped (floor_of lengths.entry.indexes.now (physical_of plan.now)) }
{
    match plan {
        ConceptPlan::Empty | ConceptPlan::All | ConceptPlan::One(_) => 0,
        ConceptPlan::Walk(operator, operand) => {
            let own = walk_floor(lengths, *operator, operand);
            together(own, plan_floor(operand, lengths))
        }
        ConceptPlan::Members(operand) => {
            let own = members_floor(lengths, operand);
            together(own, plan_floor(operand, lengths))
        }
        ConceptPlan::And(parts) | ConceptPlan::Or(parts) => parts_floor(parts, lengths),
        ConceptPlan::Minus(first, second) => {
            together(plan_floor(first, lengths), plan_floor(second, lengths))
        }
        ConceptPlan::Values(start, names) => {
            together(plan_floor(start, lengths), parts_floor(names, lengths))
        }
        ConceptPlan::Pairs {
            back,
            types,
            test,
            choice,
            ..
        } => pairs_floor(*back, types, test, *choice, lengths),
        ConceptPlan::Units { units, .. } => group_plan_floor(units, lengths),
    }
}

/// Returns how many items the plan of groups `plan` visits at least if no node is skipped: the sum
/// of the floors of its nodes, or `u64::MAX` if it is larger. It allocates nothing.
#[cycle(floor)]
#[tactic(auto, using(crate::proofs::Rules::costing))]
pub fn group_plan_floor(plan: &UnitPlan, lengths: Lengths<'_>) -> u64
    ensures { result ≡ capped (group_sum (floor_number lengths.entry.indexes.now)
        (physical_groups_of plan.now)) }
{
    match plan {
        UnitPlan::Nothing | UnitPlan::Every => 0,
        UnitPlan::And(parts) | UnitPlan::Or(parts) => group_parts_floor(parts, lengths),
        UnitPlan::Minus(first, second) => {
            together(
                group_plan_floor(first, lengths),
                group_plan_floor(second, lengths),
            )
        }
        UnitPlan::Pairs {
            types,
            test,
            choice,
            ..
        } => pairs_floor(false, types, test, *choice, lengths),
    }
}

// Returns the floor of a leaf, of concepts or of groups, together with those of its types and its
// test.
#[cycle(floor)]
fn pairs_floor(
    back: bool,
    types: &ConceptPlan,
    test: &ValueTest,
    choice: Choice,
    lengths: Lengths<'_>,
) -> u64
    ensures { result ≡ capped (leaf_floor_of lengths.entry.indexes.now back (physical_of types.now)
        (physical_test_of test.now) choice
        + (floor_of lengths.entry.indexes.now (physical_of types.now)
        + test_sum (floor_number lengths.entry.indexes.now) (physical_test_of test.now))) }
{
    let inner = together(plan_floor(types, lengths), test_floor(test, lengths));
    together(leaf_floor(lengths, back, types, test, choice), inner)
}

// Returns the floor of the plan of `test`, or 0 if the test has no plan.
#[cycle(floor)]
fn test_floor(test: &ValueTest, lengths: Lengths<'_>) -> u64
    ensures { result ≡ capped (test_sum (floor_number lengths.entry.indexes.now)
        (physical_test_of test.now)) }
{
    match test {
        ValueTest::Within(operand) | ValueTest::Outside(operand) => plan_floor(operand, lengths),
        ValueTest::Number(_, _) => 0,
    }
}

// Returns the sum of the floors of the plans `parts`.
#[cycle(floor)]
fn parts_floor(parts: &[ConceptPlan], lengths: Lengths<'_>) -> u64
    ensures { result ≡ capped (plans_sum (floor_number lengths.entry.indexes.now)
        (physicals_of parts.now)) }
{
    let mut floor = 0u64;
    for part in parts {
        floor = floor.saturating_add(plan_floor(part, lengths));
    }
    floor
}

// Returns the sum of the floors of the plans of groups `parts`.
#[cycle(floor)]
fn group_parts_floor(parts: &[UnitPlan], lengths: Lengths<'_>) -> u64
    ensures { result ≡ capped (groups_sum (floor_number lengths.entry.indexes.now)
        (physical_groups_list_of parts.now)) }
{
    let mut floor = 0u64;
    for part in parts {
        floor = floor.saturating_add(group_plan_floor(part, lengths));
    }
    floor
}

// Adds two floors; the sum is at most `u64::MAX`.
fn together(one: u64, other: u64) -> u64
    ensures { result ≡ capped (one + other) }
{
    one.saturating_add(other)
}

/// Returns the floor of a `Walk` node without its operand's. If `operand` names one concept in
/// force, it is the length of the list that `operator` reads for it. For any other operand, and for
/// `!!>` and `!!<`, it is 0.
pub fn walk_floor(lengths: Lengths<'_>, operator: Operator, operand: &ConceptPlan) -> u64
    ensures { result ≡ (if is_extreme_of operator then 0 else of_one lengths.entry.indexes.now
        (one_of (physical_of operand.now)) (list_length_of lengths.entry.indexes.now operator)) }
{
    if is_extreme(operator) {
        return 0;
    }
    match one(operand) {
        Some(id) => in_force(lengths, id, list_length(lengths, operator, id)),
        None => 0,
    }
}

/// Returns the floor of a `Members` node without its operand's: how many members the reference set
/// has, if `operand` names one in force, or else 0.
pub fn members_floor(lengths: Lengths<'_>, operand: &ConceptPlan) -> u64
    ensures { result ≡ of_one lengths.entry.indexes.now (one_of (physical_of operand.now))
        (member_count_of lengths.entry.indexes.now) }
{
    match one(operand) {
        Some(id) => in_force(lengths, id, member_count(lengths, id)),
        None => 0,
    }
}

/// Returns the floor of a leaf without those of its types and its test. By `Scan` it is the number
/// of all rows. By `ByValue` it is the number of rows with the test's value, and by `ByType` with
/// the leaf's type, if that plan names one concept in force, or else 0.
pub fn leaf_floor(
    lengths: Lengths<'_>,
    back: bool,
    types: &ConceptPlan,
    test: &ValueTest,
    choice: Choice,
) -> u64
    ensures { result ≡ leaf_floor_of lengths.entry.indexes.now back (physical_of types.now)
        (physical_test_of test.now)
        choice }
{
    match choice {
        Choice::ByValue => value_floor(lengths, back, test),
        Choice::ByType => match one(types) {
            Some(id) => in_force(lengths, id, lengths.type_row_count(id)),
            None => 0,
        },
        Choice::Scan => lengths.row_count() as u64,
    }
}

// Returns how many rows have the value that `test` allows (with `back`, the source), if the plan of
// a `Within` test names one concept in force, or else 0.
fn value_floor(lengths: Lengths<'_>, back: bool, test: &ValueTest) -> u64
    ensures { result ≡ within_floor lengths.entry.indexes.now back (physical_test_of test.now) }
{
    match test {
        ValueTest::Within(values) => match one(values) {
            Some(id) => in_force(lengths, id, value_row_count(lengths, back, id)),
            None => 0,
        },
        ValueTest::Outside(_) | ValueTest::Number(_, _) => 0,
    }
}

// Returns `count` if the concept with identifier `id` is in force, or else 0.
fn in_force(lengths: Lengths<'_>, id: u64, count: u64) -> u64
    ensures { result ≡ if_in_force (concept_number lengths.entry.indexes.now.concepts id) count }
{
    match lengths.index_of(id) {
        Some(_) => count,
        None => 0,
    }
}
