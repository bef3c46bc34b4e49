//! Applies a rule at a place of a plan, and changes the plan itself.
ghost use Rattle.std.specs.Prelude.{suc, ◌≡◌, ◌≤◌, ◌∷◌, Bool, IfOk, option_map};
ghost use Rattle.set_algebra.specs.Plan.{Plan, plan_of, plans_of, group_plan_of, group_plans_of, test_plan_of, and_plan};
ghost use Rattle.set_algebra.specs.Plan.{or_plan, values_plan, pairs_plan, and_group_plan, or_group_plan, pairs_group_plan};
ghost use Rattle.set_algebra.specs.Places.{concept_node, group_node};
ghost use Rattle.constraint_tree.specs.declared.operator.Cardinality.{Cardinality};
ghost use Rattle.rewrites.specs.Counts.{only_if};
ghost use Rattle.rewrites.specs.Rules.{rewritten, rewritten_group};
ghost use Rattle.rewrites.specs.RulesAtPlaces.{rewritten_at};

use crate::fault::RuleFault;
use crate::root::{group_rewritten, rewritten};
use crate::rule::Rule;
use set_algebra::{ConceptPlan, UnitPlan, ValueTest};
use std::alloc::{AllocError, Global};

// Replaces the node of `plan` at `place` by the node that `rule` makes of it. Returns false if it
// makes none. Then, and if memory runs out, the contract does not say what `plan` is.
#[cycle(change)]
pub(crate) fn change(
    alloc: Global,
    plan: &mut ConceptPlan,
    rule: Rule,
    place: &[u32],
) -> Result<bool, AllocError>
    ensures { IfOk result (λ fits. only_if fits (concept_node (plan_of plan.new))
        ≡ rewritten_at rule place.now (concept_node (plan_of plan.old))) }
{
    match place.split_first() {
        None => change_here(alloc, plan, rule),
        Some((0, rest)) => change_first(alloc, plan, rule, rest),
        Some((number, rest)) => change_later(alloc, plan, rule, *number, rest),
    }
}

// Applies `rule` at place `rest` within the first child of the plan of concepts `plan`.
#[cycle(change)]
fn change_first(
    alloc: Global,
    plan: &mut ConceptPlan,
    rule: Rule,
    rest: &[u32],
) -> Result<bool, AllocError>
    ensures { IfOk result (λ fits. only_if fits (concept_node (plan_of plan.new))
        ≡ rewritten_at rule (0 ∷ rest.now) (concept_node (plan_of plan.old))) }
{
    match plan {
        ConceptPlan::Walk(_, operand) => change(alloc, operand, rule, rest),
        ConceptPlan::Members(operand) => change(alloc, operand, rule, rest),
        ConceptPlan::And(parts) => change_part(alloc, parts, rule, 0, rest),
        ConceptPlan::Or(parts) => change_part(alloc, parts, rule, 0, rest),
        ConceptPlan::Minus(first, _) => change(alloc, first, rule, rest),
        ConceptPlan::Values(start, _) => change(alloc, start, rule, rest),
        ConceptPlan::Pairs { types, .. } => change(alloc, types, rule, rest),
        ConceptPlan::Units { units, .. } => change_group(alloc, units, rule, rest),
        _ => Ok(false),
    }
}

// Applies `rule` at place `rest` within child `number` (at least 1) of the plan of concepts `plan`.
#[cycle(change)]
fn change_later(
    alloc: Global,
    plan: &mut ConceptPlan,
    rule: Rule,
    number: u32,
    rest: &[u32],
) -> Result<bool, AllocError>
    requires { 1 ≤ number }
    ensures { IfOk result (λ fits. only_if fits (concept_node (plan_of plan.new))
        ≡ rewritten_at rule (number ∷ rest.now) (concept_node (plan_of plan.old))) }
{
    match plan {
        ConceptPlan::Values(_start, names) => change_part(alloc, names, rule, number - 1, rest),
        ConceptPlan::Pairs { test, .. } => change_test(alloc, test, rule, number - 1, rest),
        ConceptPlan::Minus(_, second) if number == 1 => change(alloc, second, rule, rest),
        ConceptPlan::And(parts) => change_part(alloc, parts, rule, number, rest),
        ConceptPlan::Or(parts) => change_part(alloc, parts, rule, number, rest),
        _ => Ok(false),
    }
}

// Applies `rule` at the root of the plan of concepts `plan`.
fn change_here(alloc: Global, plan: &mut ConceptPlan, rule: Rule) -> Result<bool, AllocError>
    ensures { IfOk result (λ fits. only_if fits (concept_node (plan_of plan.new))
        ≡ option_map concept_node (rewritten rule (plan_of plan.old))) }
{
    match rewritten(alloc, rule, plan) {
        Ok(new) => {
            *plan = new;
            Ok(true)
        }
        Err(RuleFault::NotApplicable) => Ok(false),
        Err(RuleFault::Memory) => Err(AllocError),
    }
}

// Applies `rule` at `place` within element `number` of `parts`: the parts of an `And` or an `Or`,
// or the names of `Values`. Returns false if there is no such element.
#[cycle(change)]
fn change_part(
    alloc: Global,
    parts: &mut Vec<ConceptPlan>,
    rule: Rule,
    number: u32,
    place: &[u32],
) -> Result<bool, AllocError>
    ensures and { IfOk result (λ fits. only_if fits
        (concept_node (and_plan (plans_of parts.new.items)))
        ≡ rewritten_at rule (number ∷ place.now)
        (concept_node (and_plan (plans_of parts.old.items)))) }
    ensures or { IfOk result (λ fits. only_if fits
        (concept_node (or_plan (plans_of parts.new.items)))
        ≡ rewritten_at rule (number ∷ place.now)
        (concept_node (or_plan (plans_of parts.old.items)))) }
    ensures values { IfOk result (λ fits. (start : Plan)
        → only_if fits (concept_node (values_plan start (plans_of parts.new.items)))
        ≡ rewritten_at rule (suc number ∷ place.now)
        (concept_node (values_plan start (plans_of parts.old.items)))) }
{
    let number = number as usize;
    if number >= parts.len() {
        return Ok(false);
    }
    change(alloc, &mut parts[number], rule, place)
}

// Applies `rule` at `place` within the plan of `test`. This plan is the only child of the test,
// with the number 0; a comparison with a number has none.
#[cycle(change)]
fn change_test(
    alloc: Global,
    test: &mut ValueTest,
    rule: Rule,
    number: u32,
    place: &[u32],
) -> Result<bool, AllocError>
    ensures pairs { IfOk result (λ fits. (back : Bool) (count : Cardinality) (types : Plan)
        → only_if fits (concept_node (pairs_plan back count types (test_plan_of test.new)))
        ≡ rewritten_at rule (suc number ∷ place.now)
        (concept_node (pairs_plan back count types (test_plan_of test.old)))) }
    ensures unit { IfOk result (λ fits. (count : Cardinality) (types : Plan)
        → only_if fits (group_node (pairs_group_plan count types (test_plan_of test.new)))
        ≡ rewritten_at rule (suc number ∷ place.now)
        (group_node (pairs_group_plan count types (test_plan_of test.old)))) }
{
    if number != 0 {
        return Ok(false);
    }
    match test {
        ValueTest::Within(operand) => change(alloc, operand, rule, place),
        ValueTest::Outside(operand) => change(alloc, operand, rule, place),
        ValueTest::Number(_, _) => Ok(false),
    }
}

// Replaces the node of the plan of groups `plan` at `place` by the node that `rule` makes of it.
// Returns false if it makes none. Then, and if memory runs out, the contract does not say what
// `plan` is.
#[cycle(change)]
fn change_group(
    alloc: Global,
    plan: &mut UnitPlan,
    rule: Rule,
    place: &[u32],
) -> Result<bool, AllocError>
    ensures { IfOk result (λ fits. only_if fits (group_node (group_plan_of plan.new))
        ≡ rewritten_at rule place.now (group_node (group_plan_of plan.old))) }
{
    match place.split_first() {
        None => change_group_here(alloc, plan, rule),
        Some((0, rest)) => change_group_first(alloc, plan, rule, rest),
        Some((number, rest)) => change_group_later(alloc, plan, rule, *number, rest),
    }
}

// Applies `rule` at place `rest` within the first child of the plan of groups `plan`.
#[cycle(change)]
fn change_group_first(
    alloc: Global,
    plan: &mut UnitPlan,
    rule: Rule,
    rest: &[u32],
) -> Result<bool, AllocError>
    ensures { IfOk result (λ fits. only_if fits (group_node (group_plan_of plan.new))
        ≡ rewritten_at rule (0 ∷ rest.now) (group_node (group_plan_of plan.old))) }
{
    match plan {
        UnitPlan::And(parts) => change_group_part(alloc, parts, rule, 0, rest),
        UnitPlan::Or(parts) => change_group_part(alloc, parts, rule, 0, rest),
        UnitPlan::Minus(first, _) => change_group(alloc, first, rule, rest),
        UnitPlan::Pairs { types, .. } => change(alloc, types, rule, rest),
        _ => Ok(false),
    }
}

// Applies `rule` at place `rest` within child `number` (at least 1) of the plan of groups `plan`.
#[cycle(change)]
fn change_group_later(
    alloc: Global,
    plan: &mut UnitPlan,
    rule: Rule,
    number: u32,
    rest: &[u32],
) -> Result<bool, AllocError>
    requires { 1 ≤ number }
    ensures { IfOk result (λ fits. only_if fits (group_node (group_plan_of plan.new))
        ≡ rewritten_at rule (number ∷ rest.now) (group_node (group_plan_of plan.old))) }
{
    match plan {
        UnitPlan::And(parts) => change_group_part(alloc, parts, rule, number, rest),
        UnitPlan::Or(parts) => change_group_part(alloc, parts, rule, number, rest),
        UnitPlan::Minus(_, second) if number == 1 => change_group(alloc, second, rule, rest),
        UnitPlan::Pairs { test, .. } => change_test(alloc, test, rule, number - 1, rest),
        _ => Ok(false),
    }
}

// Applies `rule` at the root of the plan of groups `plan`.
fn change_group_here(alloc: Global, plan: &mut UnitPlan, rule: Rule) -> Result<bool, AllocError>
    ensures { IfOk result (λ fits. only_if fits (group_node (group_plan_of plan.new))
        ≡ option_map group_node (rewritten_group rule (group_plan_of plan.old))) }
{
    match group_rewritten(alloc, rule, plan) {
        Ok(new) => {
            *plan = new;
            Ok(true)
        }
        Err(RuleFault::NotApplicable) => Ok(false),
        Err(RuleFault::Memory) => Err(AllocError),
    }
}

// Applies `rule` at `place` within element `number` of `parts`, the parts of an `And` or an `Or` of
// groups. Returns false if there is no such element.
#[cycle(change)]
fn change_group_part(
    alloc: Global,
    parts: &mut Vec<UnitPlan>,
    rule: Rule,
    number: u32,
    place: &[u32],
) -> Result<bool, AllocError>
    ensures and { IfOk result (λ fits. only_if fits
        (group_node (and_group_plan (group_plans_of parts.new.items)))
        ≡ rewritten_at rule (number ∷ place.now)
        (group_node (and_group_plan (group_plans_of parts.old.items)))) }
    ensures or { IfOk result (λ fits. only_if fits
        (group_node (or_group_plan (group_plans_of parts.new.items)))
        ≡ rewritten_at rule (number ∷ place.now)
        (group_node (or_group_plan (group_plans_of parts.old.items)))) }
{
    let number = number as usize;
    if number >= parts.len() {
        return Ok(false);
    }
    change_group(alloc, &mut parts[number], rule, place)
}
