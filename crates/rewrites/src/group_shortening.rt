//! Applies RangeAll, Same and Only to a node of a plan of groups. The functions change the node
//! itself and allocate nothing.
ghost use Rattle.std.specs.Prelude.{◌≡◌, None, MatchResult};
ghost use Rattle.set_algebra.specs.Plan.{group_plan_of, group_plans_of, no_group_plans, group_plan_then, and_group_plan, or_group_plan};
ghost use Rattle.set_algebra.specs.inside.Views.{only_group_part};
ghost use Rattle.rewrites.specs.Simplified.{group_begins_twice, tried_group, shortened_group};
ghost use Rattle.rewrites.specs.declared.rule.Rule.TheVariants.{RangeAll, Same, Only};

use crate::group_pairs::trivial_cardinality;
use set_algebra::UnitPlan;
use set_algebra::views::first_group_of;
use std::mem;

// Tries RangeAll, Same and Only, in this order, at the root of `plan`, and changes `plan`.
#[tactic(auto, unfolding(crate::specs::Simplified::shortened_group))]
pub(crate) fn shorten_group(plan: &mut UnitPlan)
    ensures { group_plan_of plan.new ≡ shortened_group (group_plan_of plan.old) }
{
    let node = mem::replace(plan, UnitPlan::Nothing);
    *plan = without_only(without_same(without_range(node)));
}

// Applies RangeAll at the root of `plan`. Returns `plan` if the rule does not apply.
fn without_range(plan: UnitPlan) -> UnitPlan
    ensures { group_plan_of result ≡ tried_group RangeAll (group_plan_of plan) }
{
    match trivial_cardinality(&plan) {
        Some(new) => new,
        None => plan,
    }
}

// Applies Same at the root of `plan`. Returns `plan` if the rule does not apply.
#[tactic(auto, using(set_algebra::proofs::PlanLemmas::plans_of_items))]
fn without_same(plan: UnitPlan) -> UnitPlan
    ensures { group_plan_of result ≡ tried_group Same (group_plan_of plan) }
{
    match plan {
        UnitPlan::And(parts) => UnitPlan::And(fewer(parts)),
        UnitPlan::Or(parts) => UnitPlan::Or(fewer(parts)),
        UnitPlan::Minus(first, second) => {
            if *first == *second {
                UnitPlan::Nothing
            } else {
                UnitPlan::Minus(first, second)
            }
        }
        other => other,
    }
}

// Drops the first part if the first two parts are equal.
fn fewer(parts: Vec<UnitPlan>) -> Vec<UnitPlan>
    ensures and { and_group_plan (group_plans_of result.items)
        ≡ tried_group Same (and_group_plan (group_plans_of parts.items)) }
    ensures or { or_group_plan (group_plans_of result.items)
        ≡ tried_group Same (or_group_plan (group_plans_of parts.items)) }
{
    let mut parts = parts;
    if begins_twice(&parts) {
        drop(parts.remove(0));
    }
    parts
}

// Whether the first two parts are equal.
pub(crate) fn begins_twice(parts: &[UnitPlan]) -> bool
    ensures { result ≡ group_begins_twice (group_plans_of parts.now) }
{
    let Ok((first, others)) = first_group_of(parts) else {
        return false;
    };
    let Ok((second, _rest)) = first_group_of(others) else {
        return false;
    };
    *first == *second
}

// Applies Only at the root of `plan`. Returns `plan` if the rule does not apply.
#[tactic(auto, using(set_algebra::proofs::PlanLemmas::plans_of_items))]
fn without_only(plan: UnitPlan) -> UnitPlan
    ensures { group_plan_of result ≡ tried_group Only (group_plan_of plan) }
{
    match plan {
        UnitPlan::And(parts) => match take_only(parts) {
            Ok(only) => only,
            Err(parts) => UnitPlan::And(parts),
        },
        UnitPlan::Or(parts) => match take_only(parts) {
            Ok(only) => only,
            Err(parts) => UnitPlan::Or(parts),
        },
        other => other,
    }
}

// Returns the only part, or the list `parts` as it is if it has not exactly one part.
fn take_only(parts: Vec<UnitPlan>) -> Result<UnitPlan, Vec<UnitPlan>>
    ensures { MatchResult result (λ only. group_plans_of parts.items
        ≡ group_plan_then (group_plan_of only) no_group_plans)
        (λ same. (group_plans_of same.items ≡ group_plans_of parts.items)
        × (only_group_part (group_plans_of parts.items) ≡ None)) }
{
    let mut parts = parts;
    if parts.len() != 1 {
        return Err(parts);
    }
    Ok(parts.remove(0))
}
