//! Applies rules at places of a plan, one after another.
ghost use Rattle.std.specs.Prelude.{◌≡◌, ◌≤◌, ◌<◌, is_some, unwrap_or, IfOk, IfErr};
ghost use Rattle.set_algebra.specs.Depth.{plan_depth};
ghost use Rattle.set_algebra.specs.Plan.{plan_of};
ghost use Rattle.rewrites.specs.RulesAtPlaces.{Makes, MakesNothing, MakesTooDeep, AlwaysMeanTheSame};
ghost use Rattle.rewrites.specs.Steps.{applied, all_applied};
ghost use Rattle.rewrites.specs.declared.fault.ApplyFault.TheVariants.{NotApplicable, TooDeep};

use crate::changing::change;
use crate::fault::ApplyFault;
use crate::rule::{Rule, Step};
use set_algebra::ConceptPlan;
use std::alloc::{AllocError, Global};

/// The depth that the plan after a rule may have at most.
const DEEPEST: u64 = 1024;

/// Applies `rule` at `place` of `plan`: replaces the node there by the node that the rule makes of
/// it (`specs/Rules.antt`, `specs/RulesAtPlaces.antt`). The new plan means the same over every
/// release, and is at most 1,024 deep.
///
/// `place` is the list of child numbers from the root, from 0. On a fault the given plan is
/// returned with it: NotApplicable if `place` names no node or the rule makes nothing of the node
/// there, TooDeep if the new plan would be deeper than 1,024, and Memory if memory runs out.
pub fn apply(
    alloc: Global,
    plan: ConceptPlan,
    rule: Rule,
    place: &[u32],
) -> Result<ConceptPlan, (ConceptPlan, ApplyFault)>
    ensures taken { IfOk result (λ new. Makes rule place.now (plan_of plan) (plan_of new)) }
    ensures shallow { IfOk result (λ new. plan_depth (plan_of new) ≤ 1024) }
    ensures meaning { IfOk result (λ new. AlwaysMeanTheSame (plan_of plan) (plan_of new)) }
    ensures given { IfErr result (λ refused. refused.0 ≡ plan) }
    ensures not_applicable { IfErr result (λ refused. refused.1 ≡ NotApplicable
        → MakesNothing rule place.now (plan_of plan)) }
    ensures too_deep { IfErr result (λ refused. refused.1 ≡ TooDeep
        → MakesTooDeep rule place.now (plan_of plan)) }
{
    match new_plan(alloc, &plan, rule, place) {
        Ok(new) => Ok(new),
        Err(fault) => Err((plan, fault)),
    }
}

// Applies `rule` at `place` to a copy of `plan`, so that `plan` stays unchanged on a fault.
fn new_plan(
    alloc: Global,
    plan: &ConceptPlan,
    rule: Rule,
    place: &[u32],
) -> Result<ConceptPlan, ApplyFault>
    ensures taken { IfOk result (λ new. Makes rule place.now (plan_of plan.now) (plan_of new)) }
    ensures shallow { IfOk result (λ new. plan_depth (plan_of new) ≤ 1024) }
    ensures not_applicable { IfErr result (λ fault. fault ≡ NotApplicable
        → MakesNothing rule place.now (plan_of plan.now)) }
    ensures too_deep { IfErr result (λ fault. fault ≡ TooDeep
        → MakesTooDeep rule place.now (plan_of plan.now)) }
{
    let copy = plan.copy(alloc)?;
    changed(alloc, copy, rule, place)
}

// Applies `rule` at `place` to `plan` itself, which is lost on a fault.
fn changed(
    alloc: Global,
    plan: ConceptPlan,
    rule: Rule,
    place: &[u32],
) -> Result<ConceptPlan, ApplyFault>
    ensures taken { IfOk result (λ new. Makes rule place.now (plan_of plan) (plan_of new)) }
    ensures shallow { IfOk result (λ new. plan_depth (plan_of new) ≤ 1024) }
    ensures not_applicable { IfErr result (λ fault. fault ≡ NotApplicable
        → MakesNothing rule place.now (plan_of plan)) }
    ensures too_deep { IfErr result (λ fault. fault ≡ TooDeep
        → MakesTooDeep rule place.now (plan_of plan)) }
{
    let mut new = plan;
    match change(alloc, &mut new, rule, place) {
        Ok(true) => if_shallow(new),
        Ok(false) => Err(ApplyFault::NotApplicable),
        Err(AllocError) => Err(ApplyFault::Memory),
    }
}

// Returns `plan` if it is at most 1,024 deep, or else TooDeep.
fn if_shallow(plan: ConceptPlan) -> Result<ConceptPlan, ApplyFault>
    ensures same { IfOk result (λ same. same ≡ plan) }
    ensures shallow { IfOk result (λ same. plan_depth (plan_of plan) ≤ 1024) }
    ensures deep { IfErr result (λ fault. (fault ≡ TooDeep) × (1024 < plan_depth (plan_of plan))) }
{
    if plan.depth() > DEEPEST {
        return Err(ApplyFault::TooDeep);
    }
    Ok(plan)
}

/// Applies `steps` in their order. It skips each step for which `apply` returns NotApplicable or
/// TooDeep. Returns the last plan and the number of steps that were applied. Returns `AllocError`
/// if memory runs out; then the plan is lost.
pub fn apply_all(
    alloc: Global,
    plan: ConceptPlan,
    steps: &[Step],
) -> Result<(ConceptPlan, u64), AllocError>
    ensures steps { IfOk result (λ done. all_applied steps.now (plan_of plan) 0
        ≡ (plan_of done.0, done.1)) }
    ensures meaning { IfOk result (λ done. AlwaysMeanTheSame (plan_of plan) (plan_of done.0)) }
{
    let mut plan = plan;
    let mut used = 0u64;
    for step in steps {
        let (next, fits) = after(alloc, plan, step)?;
        plan = next;
        used += u64::from(fits);
    }
    Ok((plan, used))
}

// Applies one step. Returns the plan after it, and whether the step was applied; if it was not, the
// plan is the given one.
fn after(alloc: Global, plan: ConceptPlan, step: &Step) -> Result<(ConceptPlan, bool), AllocError>
    ensures plan { IfOk result (λ next. plan_of next.0 ≡ unwrap_or (applied step.now (plan_of plan))
        (plan_of plan)) }
    ensures used { IfOk result (λ next. next.1 ≡ is_some (applied step.now (plan_of plan))) }
    ensures meaning { IfOk result (λ next. AlwaysMeanTheSame (plan_of plan) (plan_of next.0)) }
{
    match apply(alloc, plan, step.rule, step.place) {
        Ok(new) => Ok((new, true)),
        Err((same, ApplyFault::NotApplicable)) => Ok((same, false)),
        Err((same, ApplyFault::TooDeep)) => Ok((same, false)),
        Err((_, ApplyFault::Memory)) => Err(AllocError),
    }
}
