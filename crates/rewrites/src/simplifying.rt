//! Applies four of the rules at each node of a plan.
ghost use Rattle.std.specs.Prelude.{◌≡◌};
ghost use Rattle.set_algebra.specs.Plan.{plan_of, plans_of, group_plan_of, group_plans_of, test_plan_of};
ghost use Rattle.rewrites.specs.RulesAtPlaces.{AlwaysMeanTheSame};
ghost use Rattle.rewrites.specs.Simplified.{shortened, shortened_group, simplified, all_simplified, group_simplified, all_groups_simplified, test_simplified};

use crate::group_shortening::shorten_group;
use crate::shortening::shorten;
use set_algebra::{ConceptPlan, UnitPlan, ValueTest};

/// Tries RangeAll, BraceOne, Same and Only at each node of `plan`, in this order and each once, and
/// at the children of a node before the node (`specs/Simplified.antt`). The result means the same
/// over every release. The function allocates nothing.
pub fn simplify(plan: ConceptPlan) -> ConceptPlan
    ensures plan { plan_of result ≡ simplified (plan_of plan) }
    ensures meaning { AlwaysMeanTheSame (plan_of plan) (plan_of result) }
{
    let mut plan = plan;
    simplify_plan(&mut plan);
    plan
}

// Simplifies the plan of concepts `plan` itself: first its children, then its root.
#[cycle(simplify)]
fn simplify_plan(plan: &mut ConceptPlan)
    ensures { plan_of plan.new ≡ simplified (plan_of plan.old) }
{
    simplify_children(plan);
    shorten(plan);
}

// Simplifies the children of the root of `plan`. The root is left to `shorten`.
#[cycle(simplify)]
#[tactic(auto, using(set_algebra::proofs::PlanLemmas::plans_of_items))]
fn simplify_children(plan: &mut ConceptPlan)
    ensures { shortened (plan_of plan.new) ≡ simplified (plan_of plan.old) }
{
    match plan {
        ConceptPlan::Walk(_, operand) => simplify_plan(operand),
        ConceptPlan::Members(operand) => simplify_plan(operand),
        ConceptPlan::And(parts) => simplify_parts(parts),
        ConceptPlan::Or(parts) => simplify_parts(parts),
        ConceptPlan::Minus(first, second) => {
            simplify_plan(first);
            simplify_plan(second);
        }
        ConceptPlan::Values(start, names) => {
            simplify_plan(start);
            simplify_parts(names);
        }
        ConceptPlan::Pairs { types, test, .. } => {
            simplify_plan(types);
            simplify_test(test);
        }
        ConceptPlan::Units { units, .. } => simplify_group(units),
        ConceptPlan::Empty | ConceptPlan::All | ConceptPlan::One(_) => {}
    }
}

// Simplifies each plan in `parts`.
#[cycle(simplify)]
fn simplify_parts(parts: &mut Vec<ConceptPlan>)
    ensures { plans_of parts.new.items ≡ all_simplified (plans_of parts.old.items) }
{
    for i in 0..parts.len() {
        simplify_plan(&mut parts[i]);
    }
}

// Simplifies the plan of `test`, if it has one.
#[cycle(simplify)]
fn simplify_test(test: &mut ValueTest)
    ensures { test_plan_of test.new ≡ test_simplified (test_plan_of test.old) }
{
    match test {
        ValueTest::Within(operand) => simplify_plan(operand),
        ValueTest::Outside(operand) => simplify_plan(operand),
        ValueTest::Number(_, _) => {}
    }
}

// Simplifies the plan of groups `plan` itself: first its children, then its root.
#[cycle(simplify)]
fn simplify_group(plan: &mut UnitPlan)
    ensures { group_plan_of plan.new ≡ group_simplified (group_plan_of plan.old) }
{
    simplify_group_children(plan);
    shorten_group(plan);
}

// Simplifies the children of the root of `plan`. The root is left to `shorten_group`.
#[cycle(simplify)]
#[tactic(auto, using(set_algebra::proofs::PlanLemmas::plans_of_items))]
fn simplify_group_children(plan: &mut UnitPlan)
    ensures { shortened_group (group_plan_of plan.new) ≡ group_simplified (group_plan_of plan.old) }
{
    match plan {
        UnitPlan::And(parts) => simplify_group_parts(parts),
        UnitPlan::Or(parts) => simplify_group_parts(parts),
        UnitPlan::Minus(first, second) => {
            simplify_group(first);
            simplify_group(second);
        }
        UnitPlan::Pairs { types, test, .. } => {
            simplify_plan(types);
            simplify_test(test);
        }
        UnitPlan::Nothing | UnitPlan::Every => {}
    }
}

// Simplifies each plan of groups in `parts`.
#[cycle(simplify)]
fn simplify_group_parts(parts: &mut Vec<UnitPlan>)
    ensures { group_plans_of parts.new.items
        ≡ all_groups_simplified (group_plans_of parts.old.items) }
{
    for i in 0..parts.len() {
        simplify_group(&mut parts[i]);
    }
}
