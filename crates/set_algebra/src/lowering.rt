//! Makes plans of constraints.
ghost use Rattle.std.specs.Prelude.{ℕ, ◌≡◌, IfOk};
ghost use Rattle.release_model.specs.Release.{Release};
ghost use Rattle.constraint_tree.specs.Denotation.{denotes};
ghost use Rattle.constraint_tree.specs.Tree.{tree_of, trees_of, refinement_tree_of, refinement_trees_of, set_tree_of, set_trees_of, attribute_tree_of, test_tree_of};
ghost use Rattle.set_algebra.specs.Lowering.{lowered, lowered_trees, lowered_refinement, lowered_refinements, lowered_attribute, lowered_set, lowered_sets, lowered_in_group, lowered_test};
ghost use Rattle.set_algebra.specs.Meaning.{means};
ghost use Rattle.set_algebra.specs.Plan.{plan_of, plans_of, group_plan_of, group_plans_of, test_plan_of};

use crate::choice::Choice;
use crate::plan::{ConceptPlan, UnitPlan, ValueTest};
use constraint_tree::{Attribute, AttributeSet, Constraint, Refinement, Test};
use std::alloc::{AllocError, Global};

/// Returns the plan of a constraint (Expression Constraint Language, "Simple Expression
/// Constraints" to "Refinements"). Over every release the plan means exactly the concepts that the
/// constraint denotes. It follows the tree: `A : r` becomes `And` of A and r, an attribute `Pairs`,
/// braces `Units`, and a dotted constraint `Values`; lists stay lists. Returns `AllocError` if
/// memory runs out.
pub fn lower(alloc: Global, constraint: &Constraint) -> Result<ConceptPlan, AllocError>
    ensures plan { IfOk result (λ plan. plan_of plan ≡ lowered (tree_of constraint.now)) }
    ensures meaning { IfOk result (λ plan. (release : Release) (concept : ℕ)
        → means release (plan_of plan) concept ≡ denotes release (tree_of constraint.now) concept) }
{
    let plan = concepts(alloc, constraint)?;
    Ok(plan)
}

// Returns the plan of `constraint`, without the statement about its meaning.
#[cycle(lower)]
#[tactic(auto, using(constraint_tree::proofs::TreeLemmas::trees_of_items, crate::proofs::PlanLemmas::plans_of_items))]
fn concepts(alloc: Global, constraint: &Constraint) -> Result<ConceptPlan, AllocError>
    ensures { IfOk result (λ plan. plan_of plan ≡ lowered (tree_of constraint.now)) }
{
    match constraint {
        Constraint::Concept(number) => Ok(ConceptPlan::One(*number)),
        Constraint::Any => Ok(ConceptPlan::All),
        Constraint::Walk(operator, operand) => {
            Ok(ConceptPlan::Walk(*operator, boxed(alloc, operand)?))
        }
        Constraint::MemberOf(operand) => Ok(ConceptPlan::Members(boxed(alloc, operand)?)),
        Constraint::And(parts) => Ok(ConceptPlan::And(each(alloc, parts)?)),
        Constraint::Or(parts) => Ok(ConceptPlan::Or(each(alloc, parts)?)),
        Constraint::Minus(first, second) => {
            let first = boxed(alloc, first)?;
            Ok(ConceptPlan::Minus(first, boxed(alloc, second)?))
        }
        Constraint::Dotted(start, names) => {
            let start = boxed(alloc, start)?;
            Ok(ConceptPlan::Values(start, each(alloc, names)?))
        }
        Constraint::Refined(focus, refinement) => {
            let focus = concepts(alloc, focus)?;
            let satisfied = satisfying(alloc, refinement)?;
            Ok(ConceptPlan::And(vec![in alloc; focus, satisfied]?))
        }
    }
}

// Returns the plan of `constraint` in a box.
#[cycle(lower)]
fn boxed(alloc: Global, constraint: &Constraint) -> Result<Box<ConceptPlan>, AllocError>
    ensures { IfOk result (λ plan. plan_of plan.value ≡ lowered (tree_of constraint.now)) }
{
    let plan = concepts(alloc, constraint)?;
    Ok(Box::new(alloc, plan)?)
}

// Returns the plans of the constraints `parts`, in the same order.
#[cycle(lower)]
fn each(alloc: Global, parts: &[Constraint]) -> Result<Vec<ConceptPlan>, AllocError>
    ensures { IfOk result (λ plans. plans_of plans.items ≡ lowered_trees (trees_of parts.now)) }
{
    let mut plans = Vec::new(alloc);
    for part in parts {
        let plan = concepts(alloc, part)?;
        plans.push(plan)?;
    }
    Ok(plans)
}

// Returns the plan of the concepts that satisfy `refinement`.
#[cycle(lower)]
#[tactic(auto, using(constraint_tree::proofs::TreeLemmas::trees_of_items, crate::proofs::PlanLemmas::plans_of_items))]
fn satisfying(alloc: Global, refinement: &Refinement) -> Result<ConceptPlan, AllocError>
    ensures { IfOk result (λ plan. plan_of plan
        ≡ lowered_refinement (refinement_tree_of refinement.now)) }
{
    match refinement {
        Refinement::One(attribute) => Ok(ConceptPlan::Pairs {
            back: attribute.reverse,
            count: attribute.count,
            types: boxed(alloc, &attribute.name)?,
            test: value_test(alloc, &attribute.test)?,
            choice: Choice::ByType,
        }),
        Refinement::Group(count, set) => Ok(ConceptPlan::Units {
            count: *count,
            units: Box::new(alloc, groups(alloc, set)?)?,
        }),
        Refinement::And(parts) => Ok(ConceptPlan::And(each_satisfying(alloc, parts)?)),
        Refinement::Or(parts) => Ok(ConceptPlan::Or(each_satisfying(alloc, parts)?)),
    }
}

// Returns the plans of the concepts that satisfy each of the refinements `parts`, in the same
// order.
#[cycle(lower)]
fn each_satisfying(alloc: Global, parts: &[Refinement]) -> Result<Vec<ConceptPlan>, AllocError>
    ensures { IfOk result (λ plans. plans_of plans.items
        ≡ lowered_refinements (refinement_trees_of parts.now)) }
{
    let mut plans = Vec::new(alloc);
    for part in parts {
        let plan = satisfying(alloc, part)?;
        plans.push(plan)?;
    }
    Ok(plans)
}

// Returns the plan of the groups that satisfy the attribute set `set`.
#[cycle(lower)]
#[tactic(auto, using(constraint_tree::proofs::TreeLemmas::trees_of_items, crate::proofs::PlanLemmas::plans_of_items))]
fn groups(alloc: Global, set: &AttributeSet) -> Result<UnitPlan, AllocError>
    ensures { IfOk result (λ plan. group_plan_of plan ≡ lowered_set (set_tree_of set.now)) }
{
    match set {
        AttributeSet::One(attribute) => Ok(UnitPlan::Pairs {
            count: attribute.count,
            types: boxed(alloc, &attribute.name)?,
            test: value_test(alloc, &attribute.test)?,
            choice: Choice::ByType,
        }),
        AttributeSet::And(parts) => Ok(UnitPlan::And(each_groups(alloc, parts)?)),
        AttributeSet::Or(parts) => Ok(UnitPlan::Or(each_groups(alloc, parts)?)),
    }
}

// Returns the plans of the groups that satisfy each of the attribute sets `parts`, in the same
// order.
#[cycle(lower)]
fn each_groups(alloc: Global, parts: &[AttributeSet]) -> Result<Vec<UnitPlan>, AllocError>
    ensures { IfOk result (λ plans. group_plans_of plans.items
        ≡ lowered_sets (set_trees_of parts.now)) }
{
    let mut plans = Vec::new(alloc);
    for part in parts {
        let plan = groups(alloc, part)?;
        plans.push(plan)?;
    }
    Ok(plans)
}

// Returns the test of a plan that passes the same values as `test`.
#[cycle(lower)]
fn value_test(alloc: Global, test: &Test) -> Result<ValueTest, AllocError>
    ensures { IfOk result (λ plan. test_plan_of plan ≡ lowered_test (test_tree_of test.now)) }
{
    match test {
        Test::Within(operand) => Ok(ValueTest::Within(boxed(alloc, operand)?)),
        Test::Outside(operand) => Ok(ValueTest::Outside(boxed(alloc, operand)?)),
        Test::Number(compare, number) => Ok(ValueTest::Number(*compare, *number)),
    }
}
