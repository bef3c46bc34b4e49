//! Rules for the types and the test of `Pairs` of concepts: TypesOr and TestOr.
ghost use Rattle.std.specs.Prelude.{◌≡◌, IfOk};
ghost use Rattle.set_algebra.specs.Plan.{plan_of, plans_of, test_plan_of, pairs_plan, within_plan};
ghost use Rattle.rewrites.specs.inside.Gives.{Gives};
ghost use Rattle.rewrites.specs.PlanLists.{plans_each};
ghost use Rattle.rewrites.specs.Rules.{rewritten};
ghost use Rattle.rewrites.specs.declared.rule.Rule.TheVariants.{TypesOr, TestOr};

use crate::connective::{Connective, given_parts};
use crate::counts::asks_some;
use crate::fault::RuleFault;
use crate::made::{pairs, with_last};
use constraint_tree::Cardinality;
use set_algebra::copy::boxed;
use set_algebra::views::{or_of, pairs_of, within_of};
use set_algebra::{Choice, ConceptPlan, ValueTest};
use std::alloc::{AllocError, Global};

// Applies TypesOr at the root of `plan`: `Pairs` with the count `[1..*]` and the types `Or(t..)`
// become the `Or` of `Pairs` with each t. Returns `NotApplicable` for any other plan.
#[tactic(auto, using(set_algebra::proofs::PlanLemmas::plans_of_items))]
pub(crate) fn types_or(alloc: Global, plan: &ConceptPlan) -> Result<ConceptPlan, RuleFault>
    ensures { Gives (rewritten TypesOr (plan_of plan.now)) result }
{
    if let Ok((back, count, types, test)) = pairs_of(plan)
        && let Ok(parts) = or_of(types)
        && asks_some(count)
    {
        return given_parts(Connective::Or, each_type(alloc, back, count, parts, test));
    }
    Err(RuleFault::NotApplicable)
}

// Makes for each plan in `parts` the `Pairs` with it as types, and with `back`, `count` and `test`.
fn each_type(
    alloc: Global,
    back: bool,
    count: Cardinality,
    parts: &[ConceptPlan],
    test: &ValueTest,
) -> Result<Vec<ConceptPlan>, AllocError>
    ensures { IfOk result (λ made. plans_of made.items
        ≡ plans_each (λ part. pairs_plan back count part (test_plan_of test.now))
        (plans_of parts.now)) }
{
    let mut made = Vec::new(alloc);
    for part in parts {
        made = with_last(made, pairs(alloc, back, count, part, test))?;
    }
    Ok(made)
}

// Applies TestOr at the root of `plan`: `Pairs` with the count `[1..*]` and the test
// `Within(Or(v..))` become the `Or` of `Pairs` with each `Within(v)`. Returns `NotApplicable` for
// any other plan.
#[tactic(auto, using(set_algebra::proofs::PlanLemmas::plans_of_items))]
pub(crate) fn test_or(alloc: Global, plan: &ConceptPlan) -> Result<ConceptPlan, RuleFault>
    ensures { Gives (rewritten TestOr (plan_of plan.now)) result }
{
    if let Ok((back, count, types, test)) = pairs_of(plan)
        && let Ok(operand) = within_of(test)
        && let Ok(parts) = or_of(operand)
        && asks_some(count)
    {
        return given_parts(Connective::Or, each_value(alloc, back, count, types, parts));
    }
    Err(RuleFault::NotApplicable)
}

// Makes for each plan in `parts` the `Pairs` with the test `Within` of it, and with `back`, `count`
// and `types`.
fn each_value(
    alloc: Global,
    back: bool,
    count: Cardinality,
    types: &ConceptPlan,
    parts: &[ConceptPlan],
) -> Result<Vec<ConceptPlan>, AllocError>
    ensures { IfOk result (λ made. plans_of made.items
        ≡ plans_each (λ part. pairs_plan back count (plan_of types.now) (within_plan part))
        (plans_of parts.now)) }
{
    let mut made = Vec::new(alloc);
    for part in parts {
        made = with_last(made, pairs_within(alloc, back, count, types, part))?;
    }
    Ok(made)
}

// Makes `Pairs` with `back`, `count`, `types` and the test `Within` of `operand`.
fn pairs_within(
    alloc: Global,
    back: bool,
    count: Cardinality,
    types: &ConceptPlan,
    operand: &ConceptPlan,
) -> Result<ConceptPlan, AllocError>
    ensures { IfOk result (λ new. plan_of new ≡ pairs_plan back count (plan_of types.now)
        (within_plan (plan_of operand.now))) }
{
    Ok(ConceptPlan::Pairs {
        back,
        count,
        types: boxed(alloc, types)?,
        test: ValueTest::Within(boxed(alloc, operand)?),
        choice: Choice::ByType,
    })
}
