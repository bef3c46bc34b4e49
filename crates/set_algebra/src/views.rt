//! Access to the parts of a plan, a test or a list of plans, if it has the form asked for.
//!
//! `specs/inside/Views.antt` defines the parts of each form, so that a contract can also say that a
//! plan has another form.
ghost use Rattle.std.specs.Prelude.{◌≡◌, None, MatchResult};
ghost use Rattle.set_algebra.specs.Plan.{plan_of, plans_of, group_plan_of, group_plans_of, test_plan_of, no_plans, plan_then, and_plan, or_plan, minus_plan, walk_plan, pairs_plan, groups_plan, no_group_plans, group_plan_then, and_group_plan, or_group_plan, minus_group_plan, pairs_group_plan, within_plan};
ghost use Rattle.set_algebra.specs.inside.Views.{and_parts, or_parts, minus_parts, walk_parts, pairs_parts, groups_parts, group_and_parts, group_or_parts, group_minus_parts, group_pairs_parts, within_part, only_part, only_group_part};

use crate::plan::{ConceptPlan, UnitPlan, ValueTest};
use constraint_tree::{Cardinality, Operator};

/// The error of each function here: the plan, the test or the list has another form than the one
/// asked for.
#[derive(Clone, Copy, Debug, PartialEq, Eq)]
pub struct OtherForm;

/// Returns the parts of `plan` if it is an `And`.
#[tactic(auto, using(crate::proofs::PlanLemmas::plans_of_items))]
pub fn and_of(plan: &ConceptPlan) -> Result<&[ConceptPlan], OtherForm>
    ensures { MatchResult result (λ parts. plan_of plan.now ≡ and_plan (plans_of parts.now))
        (λ _. and_parts (plan_of plan.now) ≡ None) }
{
    match plan {
        ConceptPlan::And(parts) => Ok(parts),
        _ => Err(OtherForm),
    }
}

/// Returns the parts of `plan` if it is an `Or`.
#[tactic(auto, using(crate::proofs::PlanLemmas::plans_of_items))]
pub fn or_of(plan: &ConceptPlan) -> Result<&[ConceptPlan], OtherForm>
    ensures { MatchResult result (λ parts. plan_of plan.now ≡ or_plan (plans_of parts.now))
        (λ _. or_parts (plan_of plan.now) ≡ None) }
{
    match plan {
        ConceptPlan::Or(parts) => Ok(parts),
        _ => Err(OtherForm),
    }
}

/// Returns the two operands of `plan` if it is a `Minus`.
pub fn minus_of(plan: &ConceptPlan) -> Result<(&ConceptPlan, &ConceptPlan), OtherForm>
    ensures { MatchResult result (λ both. plan_of plan.now
        ≡ minus_plan (plan_of both.0.now) (plan_of both.1.now))
        (λ _. minus_parts (plan_of plan.now) ≡ None) }
{
    match plan {
        ConceptPlan::Minus(first, second) => Ok((first, second)),
        _ => Err(OtherForm),
    }
}

/// Returns the operator and the operand of `plan` if it is a `Walk`.
pub fn walk_of(plan: &ConceptPlan) -> Result<(Operator, &ConceptPlan), OtherForm>
    ensures { MatchResult result (λ walk. plan_of plan.now ≡ walk_plan walk.0 (plan_of walk.1.now))
        (λ _. walk_parts (plan_of plan.now) ≡ None) }
{
    match plan {
        ConceptPlan::Walk(operator, operand) => Ok((*operator, operand)),
        _ => Err(OtherForm),
    }
}

/// Returns `back`, `count`, `types` and `test` of `plan` if it is `Pairs`.
pub fn pairs_of(
    plan: &ConceptPlan,
) -> Result<(bool, Cardinality, &ConceptPlan, &ValueTest), OtherForm>
    ensures { MatchResult result (λ pairs. plan_of plan.now
        ≡ pairs_plan pairs.0 pairs.1 (plan_of pairs.2.now) (test_plan_of pairs.3.now))
        (λ _. pairs_parts (plan_of plan.now) ≡ None) }
{
    match plan {
        ConceptPlan::Pairs {
            back,
            count,
            types,
            test,
            ..
        } => Ok((*back, *count, types, test)),
        _ => Err(OtherForm),
    }
}

/// Returns `count` and the plan of groups of `plan` if it is `Units`.
pub fn units_of(plan: &ConceptPlan) -> Result<(Cardinality, &UnitPlan), OtherForm>
    ensures { MatchResult result (λ units. plan_of plan.now
        ≡ groups_plan units.0 (group_plan_of units.1.now))
        (λ _. groups_parts (plan_of plan.now) ≡ None) }
{
    match plan {
        ConceptPlan::Units { count, units } => Ok((*count, units)),
        _ => Err(OtherForm),
    }
}

/// Returns the parts of the plan of groups `plan` if it is an `And`.
#[tactic(auto, using(crate::proofs::PlanLemmas::plans_of_items))]
pub fn group_and_of(plan: &UnitPlan) -> Result<&[UnitPlan], OtherForm>
    ensures { MatchResult result (λ parts. group_plan_of plan.now
        ≡ and_group_plan (group_plans_of parts.now)) (λ _. group_and_parts (group_plan_of plan.now)
        ≡ None) }
{
    match plan {
        UnitPlan::And(parts) => Ok(parts),
        _ => Err(OtherForm),
    }
}

/// Returns the parts of the plan of groups `plan` if it is an `Or`.
#[tactic(auto, using(crate::proofs::PlanLemmas::plans_of_items))]
pub fn group_or_of(plan: &UnitPlan) -> Result<&[UnitPlan], OtherForm>
    ensures { MatchResult result (λ parts. group_plan_of plan.now
        ≡ or_group_plan (group_plans_of parts.now)) (λ _. group_or_parts (group_plan_of plan.now)
        ≡ None) }
{
    match plan {
        UnitPlan::Or(parts) => Ok(parts),
        _ => Err(OtherForm),
    }
}

/// Returns the two operands of the plan of groups `plan` if it is a `Minus`.
pub fn group_minus_of(plan: &UnitPlan) -> Result<(&UnitPlan, &UnitPlan), OtherForm>
    ensures { MatchResult result (λ both. group_plan_of plan.now
        ≡ minus_group_plan (group_plan_of both.0.now) (group_plan_of both.1.now))
        (λ _. group_minus_parts (group_plan_of plan.now) ≡ None) }
{
    match plan {
        UnitPlan::Minus(first, second) => Ok((first, second)),
        _ => Err(OtherForm),
    }
}

/// Returns `count`, `types` and `test` of the plan of groups `plan` if it is `Pairs`.
pub fn group_pairs_of(plan: &UnitPlan) -> Result<(Cardinality, &ConceptPlan, &ValueTest), OtherForm>
    ensures { MatchResult result (λ pairs. group_plan_of plan.now
        ≡ pairs_group_plan pairs.0 (plan_of pairs.1.now) (test_plan_of pairs.2.now))
        (λ _. group_pairs_parts (group_plan_of plan.now) ≡ None) }
{
    match plan {
        UnitPlan::Pairs {
            count,
            types,
            test,
            ..
        } => Ok((*count, types, test)),
        _ => Err(OtherForm),
    }
}

/// Returns the plan of `test` if it is a `Within`.
pub fn within_of(test: &ValueTest) -> Result<&ConceptPlan, OtherForm>
    ensures { MatchResult result (λ operand. test_plan_of test.now
        ≡ within_plan (plan_of operand.now)) (λ _. within_part (test_plan_of test.now) ≡ None) }
{
    match test {
        ValueTest::Within(operand) => Ok(operand),
        _ => Err(OtherForm),
    }
}

/// Returns the first plan of `parts` and the others, or `OtherForm` if `parts` is empty.
pub fn first_of(parts: &[ConceptPlan]) -> Result<(&ConceptPlan, &[ConceptPlan]), OtherForm>
    ensures { MatchResult result (λ list. plans_of parts.now
        ≡ plan_then (plan_of list.0.now) (plans_of list.1.now))
        (λ _. plans_of parts.now ≡ no_plans) }
{
    match parts.split_first() {
        Some((first, rest)) => Ok((first, rest)),
        None => Err(OtherForm),
    }
}

/// Returns the first plan of groups of `parts` and the others, or `OtherForm` if `parts` is empty.
pub fn first_group_of(parts: &[UnitPlan]) -> Result<(&UnitPlan, &[UnitPlan]), OtherForm>
    ensures { MatchResult result (λ list. group_plans_of parts.now
        ≡ group_plan_then (group_plan_of list.0.now) (group_plans_of list.1.now))
        (λ _. group_plans_of parts.now ≡ no_group_plans) }
{
    match parts.split_first() {
        Some((first, rest)) => Ok((first, rest)),
        None => Err(OtherForm),
    }
}

/// Returns the only plan of `parts`, or `OtherForm` if `parts` has not exactly one.
pub fn only_of(parts: &[ConceptPlan]) -> Result<&ConceptPlan, OtherForm>
    ensures { MatchResult result (λ only. plans_of parts.now
        ≡ plan_then (plan_of only.now) no_plans) (λ _. only_part (plans_of parts.now) ≡ None) }
{
    let (only, rest) = first_of(parts)?;
    match rest.split_first() {
        None => Ok(only),
        Some((_second, _others)) => Err(OtherForm),
    }
}

/// Returns the only plan of groups of `parts`, or `OtherForm` if `parts` has not exactly one.
pub fn only_group_of(parts: &[UnitPlan]) -> Result<&UnitPlan, OtherForm>
    ensures { MatchResult result (λ only. group_plans_of parts.now
        ≡ group_plan_then (group_plan_of only.now) no_group_plans)
        (λ _. only_group_part (group_plans_of parts.now) ≡ None) }
{
    let (only, rest) = first_group_of(parts)?;
    match rest.split_first() {
        None => Ok(only),
        Some((_second, _others)) => Err(OtherForm),
    }
}
