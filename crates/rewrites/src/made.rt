//! Makes nodes from copies of other nodes. A parameter of type `Result` is what an earlier step
//! made: if it is an error, the function returns that error.
ghost use Rattle.std.specs.Prelude.{◌≡◌, Some, Ok, IfOk, [], ◌∷◌, ◌++◌};
ghost use Rattle.set_algebra.specs.Lowering.{both_plan};
ghost use Rattle.set_algebra.specs.Plan.{Plan, PlanOfGroups, plan_of, group_plan_of, test_plan_of, walk_plan};
ghost use Rattle.set_algebra.specs.Plan.{members_plan, pairs_plan, groups_plan, pairs_group_plan, minus_plan, minus_group_plan};
ghost use Rattle.set_algebra.specs.declared.plan.ConceptPlan.{ConceptPlan};
ghost use Rattle.set_algebra.specs.declared.plan.UnitPlan.{UnitPlan};
ghost use Rattle.rewrites.specs.inside.Gives.{Gives, GivesGroup};
ghost use Rattle.rewrites.specs.Rules.{both_groups};

use crate::fault::RuleFault;
use constraint_tree::{Cardinality, Operator};
use set_algebra::copy::{boxed, boxed_group};
use set_algebra::{Choice, ConceptPlan, UnitPlan, ValueTest};
use std::alloc::{AllocError, Global};

// Makes the result of a rule from the plan of concepts `made`; a lack of memory becomes
// `RuleFault::Memory`.
pub(crate) fn given(made: Result<ConceptPlan, AllocError>) -> Result<ConceptPlan, RuleFault>
    ensures { (plan : Plan) → IfOk made (λ new. plan_of new ≡ plan) → Gives (Some plan) result }
{
    match made {
        Ok(new) => Ok(new),
        Err(AllocError) => Err(RuleFault::Memory),
    }
}

// Makes the result of a rule from the plan of groups `made`; a lack of memory becomes
// `RuleFault::Memory`.
pub(crate) fn given_groups(made: Result<UnitPlan, AllocError>) -> Result<UnitPlan, RuleFault>
    ensures { (plan : PlanOfGroups) → IfOk made (λ new. group_plan_of new ≡ plan)
        → GivesGroup (Some plan) result }
{
    match made {
        Ok(new) => Ok(new),
        Err(AllocError) => Err(RuleFault::Memory),
    }
}

// Appends the plan of concepts `made` to `plans`.
pub(crate) fn with_last(
    plans: Vec<ConceptPlan>,
    made: Result<ConceptPlan, AllocError>,
) -> Result<Vec<ConceptPlan>, AllocError>
    ensures { IfOk result (λ all. (last : ConceptPlan) × (made ≡ Ok last)
        × (all.items ≡ plans.items ++ last ∷ [])) }
{
    let last = made?;
    let mut plans = plans;
    plans.push(last)?;
    Ok(plans)
}

// Appends the plan of groups `made` to `plans`.
pub(crate) fn with_last_groups(
    plans: Vec<UnitPlan>,
    made: Result<UnitPlan, AllocError>,
) -> Result<Vec<UnitPlan>, AllocError>
    ensures { IfOk result (λ all. (last : UnitPlan) × (made ≡ Ok last)
        × (all.items ≡ plans.items ++ last ∷ [])) }
{
    let last = made?;
    let mut plans = plans;
    plans.push(last)?;
    Ok(plans)
}

// Puts the plan of concepts `made` into a box.
pub(crate) fn in_box(
    alloc: Global,
    made: Result<ConceptPlan, AllocError>,
) -> Result<Box<ConceptPlan>, AllocError>
    ensures { (plan : Plan) → IfOk made (λ new. plan_of new ≡ plan)
        → IfOk result (λ own. plan_of own.value ≡ plan) }
{
    Ok(Box::new(alloc, made?)?)
}

// Puts the plan of groups `made` into a box.
pub(crate) fn group_in_box(
    alloc: Global,
    made: Result<UnitPlan, AllocError>,
) -> Result<Box<UnitPlan>, AllocError>
    ensures { (plan : PlanOfGroups) → IfOk made (λ new. group_plan_of new ≡ plan)
        → IfOk result (λ own. group_plan_of own.value ≡ plan) }
{
    Ok(Box::new(alloc, made?)?)
}

// Makes a `Walk` with `operator` and a copy of `operand`.
pub(crate) fn walk(
    alloc: Global,
    operator: Operator,
    operand: &ConceptPlan,
) -> Result<ConceptPlan, AllocError>
    ensures { IfOk result (λ new. plan_of new ≡ walk_plan operator (plan_of operand.now)) }
{
    Ok(ConceptPlan::Walk(operator, boxed(alloc, operand)?))
}

// Makes a `Members` with a copy of `operand`.
pub(crate) fn members(alloc: Global, operand: &ConceptPlan) -> Result<ConceptPlan, AllocError>
    ensures { IfOk result (λ new. plan_of new ≡ members_plan (plan_of operand.now)) }
{
    Ok(ConceptPlan::Members(boxed(alloc, operand)?))
}

// Makes `Pairs` of concepts from copies of the parts. The choice is `ByType`, as that of each new
// leaf.
pub(crate) fn pairs(
    alloc: Global,
    back: bool,
    count: Cardinality,
    types: &ConceptPlan,
    test: &ValueTest,
) -> Result<ConceptPlan, AllocError>
    ensures { IfOk result (λ new. plan_of new ≡ pairs_plan back count (plan_of types.now)
        (test_plan_of test.now)) }
{
    Ok(ConceptPlan::Pairs {
        back,
        count,
        types: boxed(alloc, types)?,
        test: test.copy(alloc)?,
        choice: Choice::ByType,
    })
}

// Makes `Units` with `count` and a copy of the plan of groups `units`.
pub(crate) fn units(
    alloc: Global,
    count: Cardinality,
    units: &UnitPlan,
) -> Result<ConceptPlan, AllocError>
    ensures { IfOk result (λ new. plan_of new ≡ groups_plan count (group_plan_of units.now)) }
{
    Ok(ConceptPlan::Units {
        count,
        units: boxed_group(alloc, units)?,
    })
}

// Makes `Pairs` of groups from copies of the parts. The choice is `ByType`, as that of each new
// leaf.
pub(crate) fn group_pairs(
    alloc: Global,
    count: Cardinality,
    types: &ConceptPlan,
    test: &ValueTest,
) -> Result<UnitPlan, AllocError>
    ensures { IfOk result (λ new. group_plan_of new ≡ pairs_group_plan count (plan_of types.now)
        (test_plan_of test.now)) }
{
    Ok(UnitPlan::Pairs {
        count,
        types: boxed(alloc, types)?,
        test: test.copy(alloc)?,
        choice: Choice::ByType,
    })
}

// Makes the `And` of the plans of concepts `one` and `other`.
#[tactic(auto, using(set_algebra::proofs::PlanLemmas::plans_of_items))]
pub(crate) fn both(
    alloc: Global,
    one: Result<ConceptPlan, AllocError>,
    other: Result<ConceptPlan, AllocError>,
) -> Result<ConceptPlan, AllocError>
    ensures { (first second : Plan) → IfOk one (λ new. plan_of new ≡ first)
        → IfOk other (λ new. plan_of new ≡ second)
        → IfOk result (λ new. plan_of new ≡ both_plan first second) }
{
    Ok(ConceptPlan::And(vec![in alloc; one?, other?]?))
}

// Makes the `And` of the plans of groups `one` and `other`.
#[tactic(auto, using(set_algebra::proofs::PlanLemmas::plans_of_items))]
pub(crate) fn both_group_plans(
    alloc: Global,
    one: Result<UnitPlan, AllocError>,
    other: Result<UnitPlan, AllocError>,
) -> Result<UnitPlan, AllocError>
    ensures { (first second : PlanOfGroups) → IfOk one (λ new. group_plan_of new ≡ first)
        → IfOk other (λ new. group_plan_of new ≡ second)
        → IfOk result (λ new. group_plan_of new ≡ both_groups first second) }
{
    Ok(UnitPlan::And(vec![in alloc; one?, other?]?))
}

// Makes the `Minus` of the plans of concepts `first` and `second`.
pub(crate) fn minus(
    first: Result<Box<ConceptPlan>, AllocError>,
    second: Result<Box<ConceptPlan>, AllocError>,
) -> Result<ConceptPlan, AllocError>
    ensures { (from without : Plan) → IfOk first (λ own. plan_of own.value ≡ from)
        → IfOk second (λ own. plan_of own.value ≡ without)
        → IfOk result (λ new. plan_of new ≡ minus_plan from without) }
{
    Ok(ConceptPlan::Minus(first?, second?))
}

// Makes the `Minus` of the plans of groups `first` and `second`.
pub(crate) fn minus_group_plan(
    first: Result<Box<UnitPlan>, AllocError>,
    second: Result<Box<UnitPlan>, AllocError>,
) -> Result<UnitPlan, AllocError>
    ensures { (from without : PlanOfGroups) → IfOk first (λ own. group_plan_of own.value ≡ from)
        → IfOk second (λ own. group_plan_of own.value ≡ without)
        → IfOk result (λ new. group_plan_of new ≡ minus_group_plan from without) }
{
    Ok(UnitPlan::Minus(first?, second?))
}
