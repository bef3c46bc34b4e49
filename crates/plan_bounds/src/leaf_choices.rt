//! Lists the choices of the leaves of a plan.
ghost use Rattle.std.specs.Prelude.{◌≡◌, ◌++◌, ◌∷◌, OnOk};
ghost use Rattle.set_algebra.specs.Physical.{physical_of, physical_test_of, physical_groups_list_of, physical_groups_of};
ghost use Rattle.set_algebra.specs.Physical.{physicals_of};
ghost use Rattle.plan_bounds.specs.Leaves.{choices_in, choices_in_each, choices_in_each_groups, choices_in_test};
ghost use Rattle.plan_bounds.specs.Leaves.{choices_in_groups};

use set_algebra::{Choice, ConceptPlan, UnitPlan, ValueTest};
use std::alloc::AllocError;

/// Appends to `choices` the choice of each leaf of `plan`, a leaf before those below it. Returns
/// `AllocError` if memory runs out.
#[cycle(choices)]
#[tactic(auto, using(crate::proofs::Rules::costing))]
pub fn add_choices(plan: &ConceptPlan, choices: &mut Vec<Choice>) -> Result<(), AllocError>
    ensures { OnOk result (choices.new.items ≡ choices.old.items
        ++ choices_in (physical_of plan.now)) }
{
    match plan {
        ConceptPlan::Empty | ConceptPlan::All | ConceptPlan::One(_) => Ok(()),
        ConceptPlan::Walk(_, operand) | ConceptPlan::Members(operand) => {
            add_choices(operand, choices)
        }
        ConceptPlan::And(parts) | ConceptPlan::Or(parts) => add_each(parts, choices),
        ConceptPlan::Minus(first, second) => {
            add_choices(first, choices)?;
            add_choices(second, choices)
        }
        ConceptPlan::Values(start, names) => {
            add_choices(start, choices)?;
            add_each(names, choices)
        }
        ConceptPlan::Pairs {
            types,
            test,
            choice,
            ..
        } => add_leaf(types, test, *choice, choices),
        ConceptPlan::Units { units, .. } => add_groups(units, choices),
    }
}

// Appends to `choices` the choice of each leaf of the plan of groups `plan`, a leaf before those
// below it.
#[cycle(choices)]
#[tactic(auto, using(crate::proofs::Rules::costing))]
fn add_groups(plan: &UnitPlan, choices: &mut Vec<Choice>) -> Result<(), AllocError>
    ensures { OnOk result (choices.new.items ≡ choices.old.items
        ++ choices_in_groups (physical_groups_of plan.now)) }
{
    match plan {
        UnitPlan::Nothing | UnitPlan::Every => Ok(()),
        UnitPlan::And(parts) | UnitPlan::Or(parts) => add_each_groups(parts, choices),
        UnitPlan::Minus(first, second) => {
            add_groups(first, choices)?;
            add_groups(second, choices)
        }
        UnitPlan::Pairs {
            types,
            test,
            choice,
            ..
        } => add_leaf(types, test, *choice, choices),
    }
}

// Appends `choice`, that of a leaf, and then the choices of the leaves of its types and of its
// test.
#[cycle(choices)]
fn add_leaf(
    types: &ConceptPlan,
    test: &ValueTest,
    choice: Choice,
    choices: &mut Vec<Choice>,
) -> Result<(), AllocError>
    ensures { OnOk result (choices.new.items ≡ choices.old.items ++ choice ∷
        (choices_in (physical_of types.now) ++ choices_in_test (physical_test_of test.now))) }
{
    choices.push(choice)?;
    add_choices(types, choices)?;
    match test {
        ValueTest::Within(operand) | ValueTest::Outside(operand) => add_choices(operand, choices),
        ValueTest::Number(_, _) => Ok(()),
    }
}

// Appends the choices of the leaves of the plans `parts`, plan by plan.
#[cycle(choices)]
fn add_each(parts: &[ConceptPlan], choices: &mut Vec<Choice>) -> Result<(), AllocError>
    ensures { OnOk result (choices.new.items ≡ choices.old.items
        ++ choices_in_each (physicals_of parts.now)) }
{
    for part in parts {
        add_choices(part, choices)?;
    }
    Ok(())
}

// Appends the choices of the leaves of the plans of groups `parts`, plan by plan.
#[cycle(choices)]
fn add_each_groups(parts: &[UnitPlan], choices: &mut Vec<Choice>) -> Result<(), AllocError>
    ensures { OnOk result (choices.new.items ≡ choices.old.items ++ choices_in_each_groups
        (physical_groups_list_of parts.now)) }
{
    for part in parts {
        add_groups(part, choices)?;
    }
    Ok(())
}
