//! Rules for `And`, `Or` and `Minus` of groups: Turn, Join, Pair, Spread, Same, Only, MinusAnd and
//! MinusOr.
ghost use Rattle.std.specs.Prelude.{◌≡◌, IfOk};
ghost use Rattle.set_algebra.specs.Plan.{group_plan_of, group_plans_of, group_plan_then, and_group_plan, or_group_plan, minus_group_plan};
ghost use Rattle.rewrites.specs.inside.Connected.{connected_groups};
ghost use Rattle.rewrites.specs.inside.Gives.{GivesGroup};
ghost use Rattle.rewrites.specs.Rules.{rewritten_group};
ghost use Rattle.rewrites.specs.declared.rule.Rule.TheVariants.{Turn, Join, Pair, Spread, Same, Only, MinusAnd, MinusOr};

use crate::connective::{
    Connective, connected_group_plans, given_group_parts, group_parts_of, group_plan_parts_under,
};
use crate::fault::RuleFault;
use crate::group_lists::{and_first, each_with, joined, with_first};
use crate::group_shortening::begins_twice;
use crate::made::{given_groups, group_in_box, minus_group_plan};
use set_algebra::UnitPlan;
use set_algebra::copy::{boxed_group, each_group};
use set_algebra::views::{
    first_group_of, group_and_of, group_minus_of, group_or_of, only_group_of,
};
use std::alloc::{AllocError, Global};

// Applies Turn at the root of the plan of groups `plan`: `And(x1, x..)` of two or more parts
// becomes `And(x.., x1)`; `Or` alike. Returns `NotApplicable` for any other plan.
#[tactic(auto, using(crate::proofs::PartLemmas::group_turning))]
pub(crate) fn turn(alloc: Global, plan: &UnitPlan) -> Result<UnitPlan, RuleFault>
    ensures { GivesGroup (rewritten_group Turn (group_plan_of plan.now)) result }
{
    if let Ok((connective, parts)) = group_parts_of(plan)
        && parts.len() >= 2
    {
        let (first, rest) = parts.split_at(1);
        return given_group_parts(connective, joined(alloc, rest, first));
    }
    Err(RuleFault::NotApplicable)
}

// Applies Join at the root of the plan of groups `plan`: `And(And(y..), x..)` becomes `And(y..,
// x..)`; `Or` alike. Returns `NotApplicable` for any other plan.
#[tactic(auto, using(crate::proofs::PartLemmas::groups_joined_up))]
pub(crate) fn join(alloc: Global, plan: &UnitPlan) -> Result<UnitPlan, RuleFault>
    ensures { GivesGroup (rewritten_group Join (group_plan_of plan.now)) result }
{
    if let Ok((connective, parts)) = group_parts_of(plan)
        && let Ok((first, rest)) = first_group_of(parts)
        && let Ok(parts) = group_plan_parts_under(connective, first)
    {
        return given_group_parts(connective, joined(alloc, parts, rest));
    }
    Err(RuleFault::NotApplicable)
}

// Applies Pair at the root of the plan of groups `plan`: `And(x1, x2, x..)` of three or more parts
// becomes `And(And(x1, x2), x..)`; `Or` alike. Returns `NotApplicable` for any other plan.
#[tactic(auto, using(crate::proofs::PartLemmas::group_pairing))]
pub(crate) fn pair(alloc: Global, plan: &UnitPlan) -> Result<UnitPlan, RuleFault>
    ensures { GivesGroup (rewritten_group Pair (group_plan_of plan.now)) result }
{
    if let Ok((connective, parts)) = group_parts_of(plan)
        && parts.len() >= 3
    {
        let (two, rest) = parts.split_at(2);
        return given_group_parts(connective, paired(alloc, connective, two, rest));
    }
    Err(RuleFault::NotApplicable)
}

// Makes a list: first the plan of groups with the connective `connective` and copies of the parts
// `two`, then copies of `rest`.
fn paired(
    alloc: Global,
    connective: Connective,
    two: &[UnitPlan],
    rest: &[UnitPlan],
) -> Result<Vec<UnitPlan>, AllocError>
    ensures { IfOk result (λ all. group_plans_of all.items
        ≡ group_plan_then (connected_groups connective (group_plans_of two.now))
        (group_plans_of rest.now)) }
{
    let pair = connected_group_plans(connective, each_group(alloc, two)?);
    with_first(alloc, pair, rest)
}

// Applies Spread at the root of the plan of groups `plan`: `And(Or(y..), x..)` becomes the `Or` of
// `And(y, x..)` for each y. Returns `NotApplicable` for any other plan.
#[tactic(auto, using(set_algebra::proofs::PlanLemmas::plans_of_items))]
pub(crate) fn spread(alloc: Global, plan: &UnitPlan) -> Result<UnitPlan, RuleFault>
    ensures { GivesGroup (rewritten_group Spread (group_plan_of plan.now)) result }
{
    if let Ok(parts) = group_and_of(plan)
        && let Ok((first, rest)) = first_group_of(parts)
        && let Ok(parts) = group_or_of(first)
    {
        return given_group_parts(Connective::Or, each_with(alloc, parts, rest));
    }
    Err(RuleFault::NotApplicable)
}

// Applies Same at the root of the plan of groups `plan`: `And(x, x, y..)` becomes `And(x, y..)`;
// `Or` alike; `Minus(x, x)` becomes `Nothing`. Returns `NotApplicable` for any other plan.
#[tactic(auto, using(crate::proofs::PartLemmas::group_dropping))]
pub(crate) fn same(alloc: Global, plan: &UnitPlan) -> Result<UnitPlan, RuleFault>
    ensures { GivesGroup (rewritten_group Same (group_plan_of plan.now)) result }
{
    if let UnitPlan::Minus(first, second) = plan
        && **first == **second
    {
        return Ok(UnitPlan::Nothing);
    }
    if let Ok((connective, parts)) = group_parts_of(plan)
        && begins_twice(parts)
    {
        let (_first, rest) = parts.split_at(1);
        return given_group_parts(connective, each_group(alloc, rest));
    }
    Err(RuleFault::NotApplicable)
}

// Applies Only at the root of the plan of groups `plan`: `And(x)` or `Or(x)` becomes x. Returns
// `NotApplicable` for any other plan.
pub(crate) fn only(alloc: Global, plan: &UnitPlan) -> Result<UnitPlan, RuleFault>
    ensures { GivesGroup (rewritten_group Only (group_plan_of plan.now)) result }
{
    if let Ok((_connective, parts)) = group_parts_of(plan)
        && let Ok(only) = only_group_of(parts)
    {
        return given_groups(only.copy(alloc));
    }
    Err(RuleFault::NotApplicable)
}

// Applies MinusAnd at the root of the plan of groups `plan`: `And(Minus(a, b), x..)` becomes
// `Minus(And(a, x..), b)`. Returns `NotApplicable` for any other plan.
#[tactic(auto, using(set_algebra::proofs::PlanLemmas::plans_of_items))]
pub(crate) fn minus_and(alloc: Global, plan: &UnitPlan) -> Result<UnitPlan, RuleFault>
    ensures { GivesGroup (rewritten_group MinusAnd (group_plan_of plan.now)) result }
{
    if let Ok(parts) = group_and_of(plan)
        && let Ok((first, rest)) = first_group_of(parts)
        && let Ok((from, without)) = group_minus_of(first)
    {
        return given_groups(minus_from_and(alloc, from, rest, without));
    }
    Err(RuleFault::NotApplicable)
}

// Makes the `Minus` whose first operand is the `And` of `from` and `rest`, and whose second is
// `without`.
fn minus_from_and(
    alloc: Global,
    from: &UnitPlan,
    rest: &[UnitPlan],
    without: &UnitPlan,
) -> Result<UnitPlan, AllocError>
    ensures { IfOk result (λ new. group_plan_of new
        ≡ minus_group_plan (and_group_plan
        (group_plan_then (group_plan_of from.now) (group_plans_of rest.now)))
        (group_plan_of without.now)) }
{
    let kept = group_in_box(alloc, and_first(alloc, from, rest));
    minus_group_plan(kept, boxed_group(alloc, without))
}

// Applies MinusOr at the root of the plan of groups `plan`: `Minus(a, Or(b, x..))` becomes
// `Minus(Minus(a, b), Or(x..))`. Returns `NotApplicable` for any other plan.
#[tactic(auto, using(set_algebra::proofs::PlanLemmas::plans_of_items))]
pub(crate) fn minus_or(alloc: Global, plan: &UnitPlan) -> Result<UnitPlan, RuleFault>
    ensures { GivesGroup (rewritten_group MinusOr (group_plan_of plan.now)) result }
{
    if let Ok((from, without)) = group_minus_of(plan)
        && let Ok(parts) = group_or_of(without)
        && let Ok((first, rest)) = first_group_of(parts)
    {
        return given_groups(minus_each(alloc, from, first, rest));
    }
    Err(RuleFault::NotApplicable)
}

// Makes `Minus(Minus(from, first), Or(rest))` of copies.
#[tactic(auto, using(set_algebra::proofs::PlanLemmas::plans_of_items))]
fn minus_each(
    alloc: Global,
    from: &UnitPlan,
    first: &UnitPlan,
    rest: &[UnitPlan],
) -> Result<UnitPlan, AllocError>
    ensures { IfOk result (λ new. group_plan_of new
        ≡ minus_group_plan (minus_group_plan (group_plan_of from.now) (group_plan_of first.now))
        (or_group_plan (group_plans_of rest.now))) }
{
    let kept = minus_group_plan(boxed_group(alloc, from), boxed_group(alloc, first));
    minus_group_plan(
        group_in_box(alloc, kept),
        group_in_box(alloc, or_of_copies(alloc, rest)),
    )
}

// Makes the `Or` of copies of the plans of groups `parts`.
#[tactic(auto, using(set_algebra::proofs::PlanLemmas::plans_of_items))]
fn or_of_copies(alloc: Global, parts: &[UnitPlan]) -> Result<UnitPlan, AllocError>
    ensures { IfOk result (λ new. group_plan_of new ≡ or_group_plan (group_plans_of parts.now)) }
{
    Ok(UnitPlan::Or(each_group(alloc, parts)?))
}
