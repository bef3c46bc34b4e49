//! Rules for `Units`, the plans of braces: BraceOr, BraceOne and BraceGuard.
ghost use Rattle.std.specs.Prelude.{◌≡◌, false, IfOk};
ghost use Rattle.set_algebra.specs.Lowering.{both_plan};
ghost use Rattle.set_algebra.specs.Plan.{plan_of, plans_of, test_plan_of, group_plan_of, group_plans_of, pairs_plan, groups_plan};
ghost use Rattle.rewrites.specs.Counts.{at_least};
ghost use Rattle.rewrites.specs.inside.Gives.{Gives};
ghost use Rattle.rewrites.specs.PlanLists.{plans_of_each};
ghost use Rattle.rewrites.specs.Rules.{rewritten};
ghost use Rattle.rewrites.specs.declared.rule.Rule.TheVariants.{BraceOr, BraceOne, BraceGuard};

use crate::connective::{Connective, given_parts};
use crate::counts::{asks_none, asks_some, at_least};
use crate::fault::RuleFault;
use crate::made::{both, given, pairs, units, with_last};
use constraint_tree::Cardinality;
use set_algebra::views::{first_group_of, group_and_of, group_or_of, group_pairs_of, units_of};
use set_algebra::{ConceptPlan, UnitPlan, ValueTest};
use std::alloc::{AllocError, Global};

// Applies BraceOr at the root of `plan`: `Units` of `Or(u..)` with `[1..*]` become the `Or`, and
// with `[0..0]` the `And`, of `Units` of each u with the same count. Returns `NotApplicable` for
// any other plan.
#[tactic(auto, using(set_algebra::proofs::PlanLemmas::plans_of_items))]
pub(crate) fn brace_or(alloc: Global, plan: &ConceptPlan) -> Result<ConceptPlan, RuleFault>
    ensures { Gives (rewritten BraceOr (plan_of plan.now)) result }
{
    if let Ok((count, groups)) = units_of(plan)
        && let Ok(parts) = group_or_of(groups)
    {
        if asks_some(count) {
            return given_parts(Connective::Or, each_groups(alloc, count, parts));
        }
        if asks_none(count) {
            return given_parts(Connective::And, each_groups(alloc, count, parts));
        }
    }
    Err(RuleFault::NotApplicable)
}

// Makes for each plan of groups in `parts` a `Units` with the count `count`.
fn each_groups(
    alloc: Global,
    count: Cardinality,
    parts: &[UnitPlan],
) -> Result<Vec<ConceptPlan>, AllocError>
    ensures { IfOk result (λ made. plans_of made.items
        ≡ plans_of_each (groups_plan count) (group_plans_of parts.now)) }
{
    let mut made = Vec::new(alloc);
    for part in parts {
        made = with_last(made, units(alloc, count, part))?;
    }
    Ok(made)
}

// Applies BraceOne at the root of `plan`: `Units` with `[1..*]` or `[0..0]` of `Pairs` with
// `[1..*]` become forward `Pairs` with the count of the `Units`. Returns `NotApplicable` for any
// other plan.
pub(crate) fn brace_one(alloc: Global, plan: &ConceptPlan) -> Result<ConceptPlan, RuleFault>
    ensures { Gives (rewritten BraceOne (plan_of plan.now)) result }
{
    if let Ok((count, groups)) = units_of(plan)
        && let Ok((some, types, test)) = group_pairs_of(groups)
        && (asks_some(count) || asks_none(count))
        && asks_some(some)
    {
        return given(pairs(alloc, false, count, types, test));
    }
    Err(RuleFault::NotApplicable)
}

// Applies BraceGuard at the root of `plan`: `Units` of `And(Pairs, u..)`, both counts with a
// minimum of at least 1, become the `And` of forward `Pairs` with `[1..*]` and of the `Units`.
// Returns `NotApplicable` for any other plan.
pub(crate) fn brace_guard(alloc: Global, plan: &ConceptPlan) -> Result<ConceptPlan, RuleFault>
    ensures { Gives (rewritten BraceGuard (plan_of plan.now)) result }
{
    if let Ok((count, groups)) = units_of(plan)
        && let Ok(parts) = group_and_of(groups)
        && let Ok((first, _rest)) = first_group_of(parts)
        && let Ok((some, types, test)) = group_pairs_of(first)
        && count.min >= 1
        && some.min >= 1
    {
        return given(guarded(alloc, count, groups, types, test));
    }
    Err(RuleFault::NotApplicable)
}

// Makes the `And` of forward `Pairs` with `[1..*]`, `types` and `test`, and of `Units` with `count`
// and `groups`.
fn guarded(
    alloc: Global,
    count: Cardinality,
    groups: &UnitPlan,
    types: &ConceptPlan,
    test: &ValueTest,
) -> Result<ConceptPlan, AllocError>
    ensures { IfOk result (λ new. plan_of new
        ≡ both_plan (pairs_plan false (at_least 1) (plan_of types.now) (test_plan_of test.now))
        (groups_plan count (group_plan_of groups.now))) }
{
    let guard = pairs(alloc, false, at_least(1), types, test);
    let groups = units(alloc, count, groups);
    both(alloc, guard, groups)
}
