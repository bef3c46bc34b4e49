//! Makes lists of plans of concepts from copies of plans.
ghost use Rattle.std.specs.Prelude.{◌≡◌, IfOk};
ghost use Rattle.set_algebra.specs.Plan.{Plans, plan_of, plans_of, plan_then, and_plan};
ghost use Rattle.rewrites.specs.PlanLists.{plans_joined, plans_each};

use crate::made::with_last;
use set_algebra::ConceptPlan;
use set_algebra::copy::each;
use std::alloc::{AllocError, Global};

// Returns copies of `parts`, followed by copies of `others`.
#[tactic(auto, using(crate::proofs::ListLemmas::plans_of_joined))]
pub(crate) fn joined(
    alloc: Global,
    parts: &[ConceptPlan],
    others: &[ConceptPlan],
) -> Result<Vec<ConceptPlan>, AllocError>
    ensures { IfOk result (λ both. plans_of both.items
        ≡ plans_joined (plans_of parts.now) (plans_of others.now)) }
{
    with_copies(alloc, each(alloc, parts), others)
}

// Appends copies of `others` to the list `parts`, or returns the error that `parts` is.
#[tactic(auto, using(crate::proofs::ListLemmas::plans_of_joined))]
fn with_copies(
    alloc: Global,
    parts: Result<Vec<ConceptPlan>, AllocError>,
    others: &[ConceptPlan],
) -> Result<Vec<ConceptPlan>, AllocError>
    ensures { (plans : Plans) → IfOk parts (λ made. plans_of made.items ≡ plans)
        → IfOk result (λ both. plans_of both.items ≡ plans_joined plans (plans_of others.now)) }
{
    let mut parts = parts?;
    let mut others = each(alloc, others)?;
    parts.append(&mut others)?;
    Ok(parts)
}

// Returns a list of `first`, followed by copies of `rest`.
#[tactic(auto, using(crate::proofs::ListLemmas::plans_of_joined))]
pub(crate) fn with_first(
    alloc: Global,
    first: ConceptPlan,
    rest: &[ConceptPlan],
) -> Result<Vec<ConceptPlan>, AllocError>
    ensures { IfOk result (λ all. plans_of all.items
        ≡ plan_then (plan_of first) (plans_of rest.now)) }
{
    let first = vec![in alloc; first]?;
    with_copies(alloc, Ok(first), rest)
}

// Makes the `And` of copies of the plan `first` and of the plans `rest`.
#[tactic(auto, using(set_algebra::proofs::PlanLemmas::plans_of_items))]
pub(crate) fn and_first(
    alloc: Global,
    first: &ConceptPlan,
    rest: &[ConceptPlan],
) -> Result<ConceptPlan, AllocError>
    ensures { IfOk result (λ new. plan_of new
        ≡ and_plan (plan_then (plan_of first.now) (plans_of rest.now))) }
{
    let first = first.copy(alloc)?;
    Ok(ConceptPlan::And(with_first(alloc, first, rest)?))
}

// Makes for each plan in `parts` the `And` of copies of it and of the plans `rest`.
pub(crate) fn each_with(
    alloc: Global,
    parts: &[ConceptPlan],
    rest: &[ConceptPlan],
) -> Result<Vec<ConceptPlan>, AllocError>
    ensures { IfOk result (λ made. plans_of made.items
        ≡ plans_each (λ part. and_plan (plan_then part (plans_of rest.now))) (plans_of parts.now)) }
{
    let mut made = Vec::new(alloc);
    for part in parts {
        made = with_last(made, and_first(alloc, part, rest))?;
    }
    Ok(made)
}
