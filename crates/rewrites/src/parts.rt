//! Rules for `And`, `Or` and `Minus` of concepts: Turn, Join, Pair, Spread, Same, Only, MinusAnd
//! and MinusOr.
ghost use Rattle.std.specs.Prelude.{◌≡◌, IfOk};
ghost use Rattle.set_algebra.specs.Plan.{plan_of, plans_of, plan_then, and_plan, or_plan, minus_plan};
ghost use Rattle.rewrites.specs.inside.Connected.{connected};
ghost use Rattle.rewrites.specs.inside.Gives.{Gives};
ghost use Rattle.rewrites.specs.Rules.{rewritten};
ghost use Rattle.rewrites.specs.declared.rule.Rule.TheVariants.{Turn, Join, Pair, Spread, Same, Only, MinusAnd, MinusOr};

use crate::connective::{Connective, connected, given_parts, parts_of, parts_under};
use crate::fault::RuleFault;
use crate::lists::{and_first, each_with, joined, with_first};
use crate::made::{given, in_box, minus};
use crate::shortening::begins_twice;
use set_algebra::ConceptPlan;
use set_algebra::copy::{boxed, each};
use set_algebra::views::{and_of, first_of, minus_of, only_of, or_of};
use std::alloc::{AllocError, Global};

// Applies Turn at the root of `plan`: `And(x1, x..)` of two or more parts becomes `And(x.., x1)`;
// `Or` alike. Returns `NotApplicable` for any other plan.
#[tactic(auto, using(crate::proofs::PartLemmas::turning))]
pub(crate) fn turn(alloc: Global, plan: &ConceptPlan) -> Result<ConceptPlan, RuleFault>
    ensures { Gives (rewritten Turn (plan_of plan.now)) result }
{
    if let Ok((connective, parts)) = parts_of(plan)
        && parts.len() >= 2
    {
        let (first, rest) = parts.split_at(1);
        return given_parts(connective, joined(alloc, rest, first));
    }
    Err(RuleFault::NotApplicable)
}

// Applies Join at the root of `plan`: `And(And(y..), x..)` becomes `And(y.., x..)`; `Or` alike.
// Returns `NotApplicable` for any other plan.
#[tactic(auto, using(crate::proofs::PartLemmas::joined))]
pub(crate) fn join(alloc: Global, plan: &ConceptPlan) -> Result<ConceptPlan, RuleFault>
    ensures { Gives (rewritten Join (plan_of plan.now)) result }
{
    if let Ok((connective, parts)) = parts_of(plan)
        && let Ok((first, rest)) = first_of(parts)
        && let Ok(parts) = parts_under(connective, first)
    {
        return given_parts(connective, joined(alloc, parts, rest));
    }
    Err(RuleFault::NotApplicable)
}

// Applies Pair at the root of `plan`: `And(x1, x2, x..)` of three or more parts becomes
// `And(And(x1, x2), x..)`; `Or` alike. Returns `NotApplicable` for any other plan.
#[tactic(auto, using(crate::proofs::PartLemmas::pairing))]
pub(crate) fn pair(alloc: Global, plan: &ConceptPlan) -> Result<ConceptPlan, RuleFault>
    ensures { Gives (rewritten Pair (plan_of plan.now)) result }
{
    if let Ok((connective, parts)) = parts_of(plan)
        && parts.len() >= 3
    {
        let (two, rest) = parts.split_at(2);
        return given_parts(connective, paired(alloc, connective, two, rest));
    }
    Err(RuleFault::NotApplicable)
}

// Makes a list: first the plan with the connective `connective` and copies of the parts `two`, then
// copies of `rest`.
fn paired(
    alloc: Global,
    connective: Connective,
    two: &[ConceptPlan],
    rest: &[ConceptPlan],
) -> Result<Vec<ConceptPlan>, AllocError>
    ensures { IfOk result (λ all. plans_of all.items
        ≡ plan_then (connected connective (plans_of two.now)) (plans_of rest.now)) }
{
    let pair = connected(connective, each(alloc, two)?);
    with_first(alloc, pair, rest)
}

// Applies Spread at the root of `plan`: `And(Or(y..), x..)` becomes the `Or` of `And(y, x..)` for
// each y. Returns `NotApplicable` for any other plan.
#[tactic(auto, using(set_algebra::proofs::PlanLemmas::plans_of_items))]
pub(crate) fn spread(alloc: Global, plan: &ConceptPlan) -> Result<ConceptPlan, RuleFault>
    ensures { Gives (rewritten Spread (plan_of plan.now)) result }
{
    if let Ok(parts) = and_of(plan)
        && let Ok((first, rest)) = first_of(parts)
        && let Ok(parts) = or_of(first)
    {
        return given_parts(Connective::Or, each_with(alloc, parts, rest));
    }
    Err(RuleFault::NotApplicable)
}

// Applies Same at the root of `plan`: `And(x, x, y..)` becomes `And(x, y..)`; `Or` alike; `Minus(x,
// x)` becomes `Empty`. Returns `NotApplicable` for any other plan.
#[tactic(auto, using(crate::proofs::PartLemmas::dropping))]
pub(crate) fn same(alloc: Global, plan: &ConceptPlan) -> Result<ConceptPlan, RuleFault>
    ensures { Gives (rewritten Same (plan_of plan.now)) result }
{
    if let ConceptPlan::Minus(first, second) = plan
        && **first == **second
    {
        return Ok(ConceptPlan::Empty);
    }
    if let Ok((connective, parts)) = parts_of(plan)
        && begins_twice(parts)
    {
        let (_first, rest) = parts.split_at(1);
        return given_parts(connective, each(alloc, rest));
    }
    Err(RuleFault::NotApplicable)
}

// Applies Only at the root of `plan`: `And(x)` or `Or(x)` becomes x. Returns `NotApplicable` for
// any other plan.
pub(crate) fn only(alloc: Global, plan: &ConceptPlan) -> Result<ConceptPlan, RuleFault>
    ensures { Gives (rewritten Only (plan_of plan.now)) result }
{
    if let Ok((_connective, parts)) = parts_of(plan)
        && let Ok(only) = only_of(parts)
    {
        return given(only.copy(alloc));
    }
    Err(RuleFault::NotApplicable)
}

// Applies MinusAnd at the root of `plan`: `And(Minus(a, b), x..)` becomes `Minus(And(a, x..), b)`.
// Returns `NotApplicable` for any other plan.
#[tactic(auto, using(set_algebra::proofs::PlanLemmas::plans_of_items))]
pub(crate) fn minus_and(alloc: Global, plan: &ConceptPlan) -> Result<ConceptPlan, RuleFault>
    ensures { Gives (rewritten MinusAnd (plan_of plan.now)) result }
{
    if let Ok(parts) = and_of(plan)
        && let Ok((first, rest)) = first_of(parts)
        && let Ok((from, without)) = minus_of(first)
    {
        return given(minus_from_and(alloc, from, rest, without));
    }
    Err(RuleFault::NotApplicable)
}

// Makes the `Minus` whose first operand is the `And` of `from` and `rest`, and whose second is
// `without`.
fn minus_from_and(
    alloc: Global,
    from: &ConceptPlan,
    rest: &[ConceptPlan],
    without: &ConceptPlan,
) -> Result<ConceptPlan, AllocError>
    ensures { IfOk result (λ new. plan_of new
        ≡ minus_plan (and_plan (plan_then (plan_of from.now) (plans_of rest.now)))
        (plan_of without.now)) }
{
    let kept = in_box(alloc, and_first(alloc, from, rest));
    minus(kept, boxed(alloc, without))
}

// Applies MinusOr at the root of `plan`: `Minus(a, Or(b, x..))` becomes `Minus(Minus(a, b),
// Or(x..))`. Returns `NotApplicable` for any other plan.
#[tactic(auto, using(set_algebra::proofs::PlanLemmas::plans_of_items))]
pub(crate) fn minus_or(alloc: Global, plan: &ConceptPlan) -> Result<ConceptPlan, RuleFault>
    ensures { Gives (rewritten MinusOr (plan_of plan.now)) result }
{
    if let Ok((from, without)) = minus_of(plan)
        && let Ok(parts) = or_of(without)
        && let Ok((first, rest)) = first_of(parts)
    {
        return given(minus_each(alloc, from, first, rest));
    }
    Err(RuleFault::NotApplicable)
}

// Makes `Minus(Minus(from, first), Or(rest))` of copies.
#[tactic(auto, using(set_algebra::proofs::PlanLemmas::plans_of_items))]
fn minus_each(
    alloc: Global,
    from: &ConceptPlan,
    first: &ConceptPlan,
    rest: &[ConceptPlan],
) -> Result<ConceptPlan, AllocError>
    ensures { IfOk result (λ new. plan_of new
        ≡ minus_plan (minus_plan (plan_of from.now) (plan_of first.now))
        (or_plan (plans_of rest.now))) }
{
    let kept = minus(boxed(alloc, from), boxed(alloc, first));
    minus(
        in_box(alloc, kept),
        in_box(alloc, or_of_copies(alloc, rest)),
    )
}

// Makes the `Or` of copies of the plans `parts`.
#[tactic(auto, using(set_algebra::proofs::PlanLemmas::plans_of_items))]
fn or_of_copies(alloc: Global, parts: &[ConceptPlan]) -> Result<ConceptPlan, AllocError>
    ensures { IfOk result (λ new. plan_of new ≡ or_plan (plans_of parts.now)) }
{
    Ok(ConceptPlan::Or(each(alloc, parts)?))
}
