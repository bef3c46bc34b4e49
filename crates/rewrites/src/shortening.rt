//! Applies RangeAll, BraceOne, Same and Only to a node of a plan of concepts. The functions change
//! the node itself and allocate nothing.
ghost use Rattle.std.specs.Prelude.{◌≡◌, true, None, MatchResult};
ghost use Rattle.set_algebra.specs.Plan.{plan_of, plans_of, no_plans, plan_then, and_plan, or_plan};
ghost use Rattle.set_algebra.specs.inside.Views.{only_part};
ghost use Rattle.rewrites.specs.Simplified.{begins_twice, tried, shortened};
ghost use Rattle.rewrites.specs.declared.rule.Rule.TheVariants.{RangeAll, BraceOne, Same, Only};

use crate::counts::{asks_none, asks_some};
use crate::ranges::trivial_cardinality;
use set_algebra::views::first_of;
use set_algebra::{ConceptPlan, UnitPlan};
use std::mem;

// Tries RangeAll, BraceOne, Same and Only, in this order, at the root of `plan`, and changes
// `plan`.
#[tactic(auto, unfolding(crate::specs::Simplified::shortened))]
pub(crate) fn shorten(plan: &mut ConceptPlan)
    ensures { plan_of plan.new ≡ shortened (plan_of plan.old) }
{
    if is_short(plan) {
        return;
    }
    let node = mem::replace(plan, ConceptPlan::Empty);
    *plan = without_only(without_same(without_braces(without_range(node))));
}

// Whether no rule of the four applies to the variant of the root of `plan`. Then `shorten` need not
// move the node out and back.
#[tactic(auto, unfolding(crate::specs::Simplified::shortened))]
fn is_short(plan: &ConceptPlan) -> bool
    ensures { result ≡ true → shortened (plan_of plan.now) ≡ plan_of plan.now }
{
    match plan {
        ConceptPlan::Empty | ConceptPlan::All | ConceptPlan::One(_) => true,
        ConceptPlan::Walk(_, _) => true,
        ConceptPlan::Members(_) => true,
        ConceptPlan::Values(_, _) => true,
        _ => false,
    }
}

// Applies RangeAll at the root of `plan`. Returns `plan` if the rule does not apply.
fn without_range(plan: ConceptPlan) -> ConceptPlan
    ensures { plan_of result ≡ tried RangeAll (plan_of plan) }
{
    match trivial_cardinality(&plan) {
        Some(new) => new,
        None => plan,
    }
}

// Applies BraceOne at the root of `plan`. Returns `plan` if the rule does not apply. It moves the
// parts of the node and copies none, so it allocates nothing.
fn without_braces(plan: ConceptPlan) -> ConceptPlan
    ensures { plan_of result ≡ tried BraceOne (plan_of plan) }
{
    match plan {
        ConceptPlan::Units { count, mut units } => {
            if !asks_some(count) && !asks_none(count) {
                return ConceptPlan::Units { count, units };
            }
            match mem::replace(&mut *units, UnitPlan::Nothing) {
                UnitPlan::Pairs {
                    count: some,
                    types,
                    test,
                    choice,
                } => {
                    if asks_some(some) {
                        return ConceptPlan::Pairs {
                            back: false,
                            count,
                            types,
                            test,
                            choice,
                        };
                    }
                    *units = UnitPlan::Pairs {
                        count: some,
                        types,
                        test,
                        choice,
                    };
                    ConceptPlan::Units { count, units }
                }
                other => {
                    *units = other;
                    ConceptPlan::Units { count, units }
                }
            }
        }
        other => other,
    }
}

// Applies Same at the root of `plan`. Returns `plan` if the rule does not apply.
#[tactic(auto, using(set_algebra::proofs::PlanLemmas::plans_of_items))]
fn without_same(plan: ConceptPlan) -> ConceptPlan
    ensures { plan_of result ≡ tried Same (plan_of plan) }
{
    match plan {
        ConceptPlan::And(parts) => ConceptPlan::And(fewer(parts)),
        ConceptPlan::Or(parts) => ConceptPlan::Or(fewer(parts)),
        ConceptPlan::Minus(first, second) => {
            if *first == *second {
                ConceptPlan::Empty
            } else {
                ConceptPlan::Minus(first, second)
            }
        }
        other => other,
    }
}

// Drops the first part if the first two parts are equal.
fn fewer(parts: Vec<ConceptPlan>) -> Vec<ConceptPlan>
    ensures and { and_plan (plans_of result.items) ≡ tried Same (and_plan (plans_of parts.items)) }
    ensures or { or_plan (plans_of result.items) ≡ tried Same (or_plan (plans_of parts.items)) }
{
    let mut parts = parts;
    if begins_twice(&parts) {
        drop(parts.remove(0));
    }
    parts
}

// Whether the first two parts are equal.
pub(crate) fn begins_twice(parts: &[ConceptPlan]) -> bool
    ensures { result ≡ begins_twice (plans_of parts.now) }
{
    let Ok((first, others)) = first_of(parts) else {
        return false;
    };
    let Ok((second, _rest)) = first_of(others) else {
        return false;
    };
    *first == *second
}

// Applies Only at the root of `plan`. Returns `plan` if the rule does not apply.
#[tactic(auto, using(set_algebra::proofs::PlanLemmas::plans_of_items))]
fn without_only(plan: ConceptPlan) -> ConceptPlan
    ensures { plan_of result ≡ tried Only (plan_of plan) }
{
    match plan {
        ConceptPlan::And(parts) => match take_only(parts) {
            Ok(only) => only,
            Err(parts) => ConceptPlan::And(parts),
        },
        ConceptPlan::Or(parts) => match take_only(parts) {
            Ok(only) => only,
            Err(parts) => ConceptPlan::Or(parts),
        },
        other => other,
    }
}

// Returns the only part, or the list `parts` as it is if it has not exactly one part.
fn take_only(parts: Vec<ConceptPlan>) -> Result<ConceptPlan, Vec<ConceptPlan>>
    ensures { MatchResult result (λ only. plans_of parts.items ≡ plan_then (plan_of only) no_plans)
        (λ same. (plans_of same.items ≡ plans_of parts.items)
        × (only_part (plans_of parts.items) ≡ None)) }
{
    let mut parts = parts;
    if parts.len() != 1 {
        return Err(parts);
    }
    Ok(parts.remove(0))
}
