//! The plans with which constraints are answered and explained.
ghost use Rattle.std.specs.Prelude.{ℕ, ◌≡◌, IfOk};
ghost use Rattle.release_model.specs.Release.{Release};
ghost use Rattle.constraint_tree.specs.Denotation.{denotes};
ghost use Rattle.constraint_tree.specs.Tree.{tree_of};
ghost use Rattle.set_algebra.specs.Lowering.{lowered};
ghost use Rattle.set_algebra.specs.Meaning.{means};
ghost use Rattle.set_algebra.specs.Physical.{physical_of};
ghost use Rattle.set_algebra.specs.Plan.{plan_of};
ghost use Rattle.rewrites.specs.Steps.{all_applied};
ghost use Rattle.planner.specs.Asked.{choices_with};
ghost use Rattle.planner.specs.Chosen.{chosen, least_choices};
ghost use Rattle.plan_bounds.specs.Offered.{AreLeast};
ghost use Rattle.query_service.specs.Explanation.{executed_plan};

use constraint_tree::Constraint;
use planner::{Choice, PhysicalPlan, choose, choose_with};
use postings::Indexes;
use rewrites::{Step, apply_all, simplify};
use set_algebra::lower;
use std::alloc::{AllocError, Global};

/// Returns the plan with which a constraint is answered and explained: the constraint's own plan,
/// simplified, where each leaf has the choice with the least bound. The plan means what the
/// constraint denotes. If memory is refused, it returns `AllocError`.
pub fn least_plan(
    alloc: Global,
    constraint: &Constraint,
    indexes: &Indexes,
) -> Result<PhysicalPlan, AllocError>
    ensures plan { IfOk result (λ physical. plan_of physical.plan
        ≡ executed_plan (tree_of constraint.now)) }
    ensures chosen { IfOk result (λ physical. physical_of physical.plan
        ≡ chosen indexes.now (executed_plan (tree_of constraint.now))) }
    ensures choices { IfOk result (λ physical. physical.choices
        ≡ least_choices indexes.now (plan_of physical.plan)) }
    ensures least { IfOk result (λ physical. AreLeast indexes.now (physical_of physical.plan)) }
    ensures meaning { IfOk result (λ physical. (release : Release) (concept : ℕ)
        → means release (plan_of physical.plan) concept ≡ denotes release (tree_of constraint.now)
        concept) }
{
    let own = lower(alloc, constraint)?;
    let physical = choose(alloc, simplify(own), indexes)?;
    Ok(physical)
}

/// Returns the plan of a constraint after `steps` of rewriting, with `choices`. A step that does
/// not apply is skipped. `choices` has a choice for each leaf, in the order of
/// `PhysicalPlan::choices`. A leaf that does not offer its choice, or has none, takes the one with
/// the least bound. Whatever steps and choices are given, the plan means what the constraint
/// denotes. If memory is refused, it returns `AllocError`.
pub fn asked_plan(
    alloc: Global,
    constraint: &Constraint,
    steps: &[Step<'_>],
    choices: &[Choice],
    indexes: &Indexes,
) -> Result<PhysicalPlan, AllocError>
    ensures plan { IfOk result (λ physical. plan_of physical.plan
        ≡ (all_applied steps.now (lowered (tree_of constraint.now)) 0).0) }
    ensures choices { IfOk result (λ physical. physical.choices
        ≡ choices_with indexes.now choices.now (plan_of physical.plan)) }
    ensures meaning { IfOk result (λ physical. (release : Release) (concept : ℕ)
        → means release (plan_of physical.plan) concept ≡ denotes release (tree_of constraint.now)
        concept) }
{
    let own = lower(alloc, constraint)?;
    let (plan, _used) = apply_all(alloc, own, steps)?;
    let physical = choose_with(alloc, plan, choices, indexes)?;
    Ok(physical)
}
