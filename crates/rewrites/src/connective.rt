//! The connective of a plan, `And` or `Or`, for the rules that treat both alike.
ghost use Rattle.std.specs.Prelude.{◌≡◌, false, Some, None, MatchResult, IfOk};
ghost use Rattle.set_algebra.specs.Plan.{Plans, PlansOfGroups, plan_of, plans_of, group_plan_of, group_plans_of};
ghost use Rattle.rewrites.specs.inside.Connected.{connected, is_connected, parts_under, connected_groups, is_connected_group, group_parts_under};
ghost use Rattle.rewrites.specs.inside.Gives.{Gives, GivesGroup};

use crate::fault::RuleFault;
use set_algebra::views::{OtherForm, and_of, group_and_of, group_or_of, or_of};
use set_algebra::{ConceptPlan, UnitPlan};
use std::alloc::AllocError;

// The connective of a plan with a list of parts.
#[derive(Clone, Copy)]
pub(crate) enum Connective {
    And,
    Or,
}

// Returns the connective and the parts of `plan` if it is an `And` or an `Or`.
#[tactic(auto, using(set_algebra::proofs::PlanLemmas::plans_of_items))]
pub(crate) fn parts_of(plan: &ConceptPlan) -> Result<(Connective, &[ConceptPlan]), OtherForm>
    ensures { MatchResult result (λ found. plan_of plan.now
        ≡ connected found.0 (plans_of found.1.now)) (λ _. is_connected (plan_of plan.now) ≡ false) }
{
    match plan {
        ConceptPlan::And(parts) => Ok((Connective::And, parts)),
        ConceptPlan::Or(parts) => Ok((Connective::Or, parts)),
        _ => Err(OtherForm),
    }
}

// Returns the parts of `plan` if it has the connective `connective`.
pub(crate) fn parts_under(
    connective: Connective,
    plan: &ConceptPlan,
) -> Result<&[ConceptPlan], OtherForm>
    ensures { MatchResult result (λ parts. plan_of plan.now
        ≡ connected connective (plans_of parts.now)) (λ _. parts_under connective (plan_of plan.now)
        ≡ None) }
{
    match connective {
        Connective::And => and_of(plan),
        Connective::Or => or_of(plan),
    }
}

// Makes the plan of concepts with the connective `connective` and the parts `parts`.
#[tactic(auto, using(set_algebra::proofs::PlanLemmas::plans_of_items))]
pub(crate) fn connected(connective: Connective, parts: Vec<ConceptPlan>) -> ConceptPlan
    ensures { plan_of result ≡ connected connective (plans_of parts.items) }
{
    match connective {
        Connective::And => ConceptPlan::And(parts),
        Connective::Or => ConceptPlan::Or(parts),
    }
}

// Makes the result of a rule: the plan of concepts with the connective `connective` and the parts
// `made`, or `Memory` if memory ran out while they were made.
pub(crate) fn given_parts(
    connective: Connective,
    made: Result<Vec<ConceptPlan>, AllocError>,
) -> Result<ConceptPlan, RuleFault>
    ensures { (plans : Plans) → IfOk made (λ parts. plans_of parts.items ≡ plans)
        → Gives (Some (connected connective plans)) result }
{
    match made {
        Ok(parts) => Ok(connected(connective, parts)),
        Err(AllocError) => Err(RuleFault::Memory),
    }
}

// Returns the connective and the parts of the plan of groups `plan` if it is an `And` or an `Or`.
#[tactic(auto, using(set_algebra::proofs::PlanLemmas::plans_of_items))]
pub(crate) fn group_parts_of(plan: &UnitPlan) -> Result<(Connective, &[UnitPlan]), OtherForm>
    ensures { MatchResult result (λ found. group_plan_of plan.now
        ≡ connected_groups found.0 (group_plans_of found.1.now))
        (λ _. is_connected_group (group_plan_of plan.now) ≡ false) }
{
    match plan {
        UnitPlan::And(parts) => Ok((Connective::And, parts)),
        UnitPlan::Or(parts) => Ok((Connective::Or, parts)),
        _ => Err(OtherForm),
    }
}

// Returns the parts of the plan of groups `plan` if it has the connective `connective`.
pub(crate) fn group_plan_parts_under(
    connective: Connective,
    plan: &UnitPlan,
) -> Result<&[UnitPlan], OtherForm>
    ensures { MatchResult result (λ parts. group_plan_of plan.now
        ≡ connected_groups connective (group_plans_of parts.now))
        (λ _. group_parts_under connective (group_plan_of plan.now) ≡ None) }
{
    match connective {
        Connective::And => group_and_of(plan),
        Connective::Or => group_or_of(plan),
    }
}

// Makes the plan of groups with the connective `connective` and the parts `parts`.
#[tactic(auto, using(set_algebra::proofs::PlanLemmas::plans_of_items))]
pub(crate) fn connected_group_plans(connective: Connective, parts: Vec<UnitPlan>) -> UnitPlan
    ensures { group_plan_of result ≡ connected_groups connective (group_plans_of parts.items) }
{
    match connective {
        Connective::And => UnitPlan::And(parts),
        Connective::Or => UnitPlan::Or(parts),
    }
}

// Makes the result of a rule: the plan of groups with the connective `connective` and the parts
// `made`, or `Memory` if memory ran out while they were made.
pub(crate) fn given_group_parts(
    connective: Connective,
    made: Result<Vec<UnitPlan>, AllocError>,
) -> Result<UnitPlan, RuleFault>
    ensures { (plans : PlansOfGroups) → IfOk made (λ parts. group_plans_of parts.items ≡ plans)
        → GivesGroup (Some (connected_groups connective plans)) result }
{
    match made {
        Ok(parts) => Ok(connected_group_plans(connective, parts)),
        Err(AllocError) => Err(RuleFault::Memory),
    }
}
