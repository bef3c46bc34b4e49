//! Copies plans and their parts.
ghost use Rattle.std.specs.Prelude.{◌≡◌, IfOk};
ghost use Rattle.set_algebra.specs.Plan.{plan_of, plans_of, group_plan_of, group_plans_of, test_plan_of};

use crate::plan::{ConceptPlan, UnitPlan, ValueTest};
use std::alloc::{AllocError, Global};

impl ConceptPlan {
    /// Returns a deep copy of the plan, or `AllocError` if memory runs out.
    #[cycle(copy)]
    #[tactic(auto, using(crate::proofs::PlanLemmas::plans_of_items))]
    pub fn copy(&self, alloc: Global) -> Result<ConceptPlan, AllocError>
        ensures { IfOk result (λ copy. plan_of copy ≡ plan_of self.now) }
    {
        match self {
            ConceptPlan::Empty => Ok(ConceptPlan::Empty),
            ConceptPlan::All => Ok(ConceptPlan::All),
            ConceptPlan::One(number) => Ok(ConceptPlan::One(*number)),
            ConceptPlan::Walk(operator, operand) => {
                Ok(ConceptPlan::Walk(*operator, boxed(alloc, operand)?))
            }
            ConceptPlan::Members(operand) => Ok(ConceptPlan::Members(boxed(alloc, operand)?)),
            ConceptPlan::And(parts) => Ok(ConceptPlan::And(each(alloc, parts)?)),
            ConceptPlan::Or(parts) => Ok(ConceptPlan::Or(each(alloc, parts)?)),
            ConceptPlan::Minus(first, second) => {
                let first = boxed(alloc, first)?;
                Ok(ConceptPlan::Minus(first, boxed(alloc, second)?))
            }
            ConceptPlan::Values(start, names) => {
                let start = boxed(alloc, start)?;
                Ok(ConceptPlan::Values(start, each(alloc, names)?))
            }
            ConceptPlan::Pairs {
                back,
                count,
                types,
                test,
                choice,
            } => Ok(ConceptPlan::Pairs {
                back: *back,
                count: *count,
                types: boxed(alloc, types)?,
                test: test.copy(alloc)?,
                choice: *choice,
            }),
            ConceptPlan::Units { count, units } => Ok(ConceptPlan::Units {
                count: *count,
                units: boxed_group(alloc, units)?,
            }),
        }
    }
}

impl UnitPlan {
    /// Returns a deep copy of the plan of groups, or `AllocError` if memory runs out.
    #[cycle(copy)]
    #[tactic(auto, using(crate::proofs::PlanLemmas::plans_of_items))]
    pub fn copy(&self, alloc: Global) -> Result<UnitPlan, AllocError>
        ensures { IfOk result (λ copy. group_plan_of copy ≡ group_plan_of self.now) }
    {
        Ok(match self {
            UnitPlan::Nothing => UnitPlan::Nothing,
            UnitPlan::Every => UnitPlan::Every,
            UnitPlan::And(parts) => UnitPlan::And(each_group(alloc, parts)?),
            UnitPlan::Or(parts) => UnitPlan::Or(each_group(alloc, parts)?),
            UnitPlan::Minus(first, second) => {
                UnitPlan::Minus(boxed_group(alloc, first)?, boxed_group(alloc, second)?)
            }
            UnitPlan::Pairs {
                count,
                types,
                test,
                choice,
            } => UnitPlan::Pairs {
                count: *count,
                types: boxed(alloc, types)?,
                test: test.copy(alloc)?,
                choice: *choice,
            },
        })
    }
}

impl ValueTest {
    /// Returns a deep copy of the test, or `AllocError` if memory runs out.
    #[cycle(copy)]
    pub fn copy(&self, alloc: Global) -> Result<ValueTest, AllocError>
        ensures { IfOk result (λ copy. test_plan_of copy ≡ test_plan_of self.now) }
    {
        Ok(match self {
            ValueTest::Within(operand) => ValueTest::Within(boxed(alloc, operand)?),
            ValueTest::Outside(operand) => ValueTest::Outside(boxed(alloc, operand)?),
            ValueTest::Number(compare, number) => ValueTest::Number(*compare, *number),
        })
    }
}

/// Returns a box with a copy of `plan`, or `AllocError` if memory runs out.
#[cycle(copy)]
pub fn boxed(alloc: Global, plan: &ConceptPlan) -> Result<Box<ConceptPlan>, AllocError>
    ensures { IfOk result (λ copy. plan_of copy.value ≡ plan_of plan.now) }
{
    let copy = plan.copy(alloc)?;
    Ok(Box::new(alloc, copy)?)
}

/// Returns a box with a copy of the plan of groups `plan`, or `AllocError` if memory runs out.
#[cycle(copy)]
pub fn boxed_group(alloc: Global, plan: &UnitPlan) -> Result<Box<UnitPlan>, AllocError>
    ensures { IfOk result (λ copy. group_plan_of copy.value ≡ group_plan_of plan.now) }
{
    let copy = plan.copy(alloc)?;
    Ok(Box::new(alloc, copy)?)
}

/// Returns copies of `plans` in the same order, or `AllocError` if memory runs out.
#[cycle(copy)]
pub fn each(alloc: Global, plans: &[ConceptPlan]) -> Result<Vec<ConceptPlan>, AllocError>
    ensures { IfOk result (λ copies. plans_of copies.items ≡ plans_of plans.now) }
{
    let mut copies = Vec::new(alloc);
    for plan in plans {
        let copy = plan.copy(alloc)?;
        copies.push(copy)?;
    }
    Ok(copies)
}

/// Returns copies of the plans of groups `plans` in the same order, or `AllocError` if memory runs
/// out.
#[cycle(copy)]
pub fn each_group(alloc: Global, plans: &[UnitPlan]) -> Result<Vec<UnitPlan>, AllocError>
    ensures { IfOk result (λ copies. group_plans_of copies.items ≡ group_plans_of plans.now) }
{
    let mut copies = Vec::new(alloc);
    for plan in plans {
        let copy = plan.copy(alloc)?;
        copies.push(copy)?;
    }
    Ok(copies)
}
