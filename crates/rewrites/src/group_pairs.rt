//! Rules for `Pairs` of groups: TypesOr, TestOr, RangeSplit, RangeTurn and RangeAll.
ghost use Rattle.std.specs.Prelude.{◌≡◌, IfOk, option_map};
ghost use Rattle.set_algebra.specs.Plan.{plan_of, plans_of, test_plan_of, group_plan_of, group_plans_of};
ghost use Rattle.set_algebra.specs.Plan.{pairs_group_plan, minus_group_plan, every_group, nothing_group, within_plan};
ghost use Rattle.rewrites.specs.Counts.{trivial_cardinality};
ghost use Rattle.rewrites.specs.inside.Gives.{GivesGroup};
ghost use Rattle.rewrites.specs.PlanLists.{groups_of_each};
ghost use Rattle.rewrites.specs.Rules.{rewritten_group, both_groups};
ghost use Rattle.rewrites.specs.declared.rule.Rule.TheVariants.{TypesOr, TestOr, RangeSplit, RangeTurn, RangeAll};

use crate::connective::{Connective, given_group_parts};
use crate::counts::{asks_nothing, asks_some, asks_too_much, complement, split};
use crate::fault::RuleFault;
use crate::made::{
    both_group_plans, given_groups, group_in_box, group_pairs, minus_group_plan, with_last_groups,
};
use constraint_tree::Cardinality;
use set_algebra::copy::boxed;
use set_algebra::views::{group_pairs_of, or_of, within_of};
use set_algebra::{Choice, ConceptPlan, UnitPlan, ValueTest};
use std::alloc::{AllocError, Global};

// Applies TypesOr at the root of the plan of groups `plan`: `Pairs` with the count `[1..*]` and the
// types `Or(t..)` become the `Or` of `Pairs` with each t. Returns `NotApplicable` for any other
// plan.
#[tactic(auto, using(set_algebra::proofs::PlanLemmas::plans_of_items))]
pub(crate) fn types_or(alloc: Global, plan: &UnitPlan) -> Result<UnitPlan, RuleFault>
    ensures { GivesGroup (rewritten_group TypesOr (group_plan_of plan.now)) result }
{
    if let Ok((count, types, test)) = group_pairs_of(plan)
        && let Ok(parts) = or_of(types)
        && asks_some(count)
    {
        return given_group_parts(Connective::Or, each_type(alloc, count, parts, test));
    }
    Err(RuleFault::NotApplicable)
}

// Makes for each plan in `parts` the `Pairs` of groups with it as types, and with `count` and
// `test`.
fn each_type(
    alloc: Global,
    count: Cardinality,
    parts: &[ConceptPlan],
    test: &ValueTest,
) -> Result<Vec<UnitPlan>, AllocError>
    ensures { IfOk result (λ made. group_plans_of made.items
        ≡ groups_of_each (λ part. pairs_group_plan count part (test_plan_of test.now))
        (plans_of parts.now)) }
{
    let mut made = Vec::new(alloc);
    for part in parts {
        made = with_last_groups(made, group_pairs(alloc, count, part, test))?;
    }
    Ok(made)
}

// Applies TestOr at the root of the plan of groups `plan`: `Pairs` with the count `[1..*]` and the
// test `Within(Or(v..))` become the `Or` of `Pairs` with each `Within(v)`. Returns `NotApplicable`
// for any other plan.
#[tactic(auto, using(set_algebra::proofs::PlanLemmas::plans_of_items))]
pub(crate) fn test_or(alloc: Global, plan: &UnitPlan) -> Result<UnitPlan, RuleFault>
    ensures { GivesGroup (rewritten_group TestOr (group_plan_of plan.now)) result }
{
    if let Ok((count, types, test)) = group_pairs_of(plan)
        && let Ok(operand) = within_of(test)
        && let Ok(parts) = or_of(operand)
        && asks_some(count)
    {
        return given_group_parts(Connective::Or, each_value(alloc, count, types, parts));
    }
    Err(RuleFault::NotApplicable)
}

// Makes for each plan in `parts` the `Pairs` of groups with the test `Within` of it, and with
// `count` and `types`.
fn each_value(
    alloc: Global,
    count: Cardinality,
    types: &ConceptPlan,
    parts: &[ConceptPlan],
) -> Result<Vec<UnitPlan>, AllocError>
    ensures { IfOk result (λ made. group_plans_of made.items
        ≡ groups_of_each (λ part. pairs_group_plan count (plan_of types.now) (within_plan part))
        (plans_of parts.now)) }
{
    let mut made = Vec::new(alloc);
    for part in parts {
        made = with_last_groups(made, pairs_within(alloc, count, types, part))?;
    }
    Ok(made)
}

// Makes the `Pairs` of groups with `count`, `types` and the test `Within` of `operand`.
fn pairs_within(
    alloc: Global,
    count: Cardinality,
    types: &ConceptPlan,
    operand: &ConceptPlan,
) -> Result<UnitPlan, AllocError>
    ensures { IfOk result (λ new. group_plan_of new ≡ pairs_group_plan count (plan_of types.now)
        (within_plan (plan_of operand.now))) }
{
    Ok(UnitPlan::Pairs {
        count,
        types: boxed(alloc, types)?,
        test: ValueTest::Within(boxed(alloc, operand)?),
        choice: Choice::ByType,
    })
}

// Applies RangeSplit at the root of the plan of groups `plan`: `Pairs` with `[m..k]`, m at least 1,
// become the `And` of two copies with `[m..*]` and `[0..k]`. Returns `NotApplicable` for any other
// plan.
pub(crate) fn range_split(alloc: Global, plan: &UnitPlan) -> Result<UnitPlan, RuleFault>
    ensures { GivesGroup (rewritten_group RangeSplit (group_plan_of plan.now)) result }
{
    if let Ok((count, types, test)) = group_pairs_of(plan)
        && let Some((least, most)) = split(count)
    {
        return given_groups(with_counts(alloc, least, most, types, test));
    }
    Err(RuleFault::NotApplicable)
}

// Makes the `And` of two `Pairs` of groups with `types` and `test`, one with the count `one` and
// one with the count `other`.
fn with_counts(
    alloc: Global,
    one: Cardinality,
    other: Cardinality,
    types: &ConceptPlan,
    test: &ValueTest,
) -> Result<UnitPlan, AllocError>
    ensures { IfOk result (λ new. group_plan_of new
        ≡ both_groups (pairs_group_plan one (plan_of types.now) (test_plan_of test.now))
        (pairs_group_plan other (plan_of types.now) (test_plan_of test.now))) }
{
    let one = group_pairs(alloc, one, types, test);
    let other = group_pairs(alloc, other, types, test);
    both_group_plans(alloc, one, other)
}

// Applies RangeTurn at the root of the plan of groups `plan`: `Pairs` with `[0..k]`, k below
// `u64::MAX`, become the `Minus` of `Every` and of a copy with `[k+1..*]`. Returns `NotApplicable`
// for any other plan.
pub(crate) fn range_turn(alloc: Global, plan: &UnitPlan) -> Result<UnitPlan, RuleFault>
    ensures { GivesGroup (rewritten_group RangeTurn (group_plan_of plan.now)) result }
{
    if let Ok((count, types, test)) = group_pairs_of(plan)
        && let Some(above) = complement(count)
    {
        return given_groups(every_but_with(alloc, above, types, test));
    }
    Err(RuleFault::NotApplicable)
}

// Makes the `Minus` of `Every` and of `Pairs` of groups with `count`, `types` and `test`.
fn every_but_with(
    alloc: Global,
    count: Cardinality,
    types: &ConceptPlan,
    test: &ValueTest,
) -> Result<UnitPlan, AllocError>
    ensures { IfOk result (λ new. group_plan_of new
        ≡ minus_group_plan every_group
        (pairs_group_plan count (plan_of types.now) (test_plan_of test.now))) }
{
    let every = group_in_box(alloc, Ok(UnitPlan::Every));
    let more = group_in_box(alloc, group_pairs(alloc, count, types, test));
    minus_group_plan(every, more)
}

// Applies RangeAll at the root of the plan of groups `plan`: `Pairs` with `[0..*]` become `Every`,
// and with `[m..k]`, m above k, `Nothing`. Returns `NotApplicable` for any other plan.
pub(crate) fn range_all(plan: &UnitPlan) -> Result<UnitPlan, RuleFault>
    ensures { GivesGroup (rewritten_group RangeAll (group_plan_of plan.now)) result }
{
    trivial_cardinality(plan).ok_or(RuleFault::NotApplicable)
}

// Returns the plan that RangeAll makes of the plan of groups `plan`, or `None` if it makes none.
// The function allocates nothing.
pub(crate) fn trivial_cardinality(plan: &UnitPlan) -> Option<UnitPlan>
    ensures { option_map group_plan_of result ≡ rewritten_group RangeAll (group_plan_of plan.now) }
{
    match plan {
        UnitPlan::Pairs { count, .. } => trivial_count(*count),
        _ => None,
    }
}

// Returns `Every` if `count` is [0..*], `Nothing` if its minimum is above its maximum, or else
// `None`.
fn trivial_count(count: Cardinality) -> Option<UnitPlan>
    ensures { option_map group_plan_of result ≡ trivial_cardinality every_group nothing_group
        count }
{
    if asks_nothing(count) {
        return Some(UnitPlan::Every);
    }
    if asks_too_much(count) {
        return Some(UnitPlan::Nothing);
    }
    None
}
