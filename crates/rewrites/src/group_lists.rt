//! Makes lists of plans of groups from copies of plans.
ghost use Rattle.std.specs.Prelude.{◌≡◌, IfOk};
ghost use Rattle.set_algebra.specs.Plan.{PlansOfGroups, group_plan_of, group_plans_of, group_plan_then, and_group_plan};
ghost use Rattle.rewrites.specs.PlanLists.{groups_joined, groups_each};

use crate::made::with_last_groups;
use set_algebra::UnitPlan;
use set_algebra::copy::each_group;
use std::alloc::{AllocError, Global};

// Returns copies of `parts`, followed by copies of `others`.
#[tactic(auto, using(crate::proofs::ListLemmas::group_plans_of_joined))]
pub(crate) fn joined(
    alloc: Global,
    parts: &[UnitPlan],
    others: &[UnitPlan],
) -> Result<Vec<UnitPlan>, AllocError>
    ensures { IfOk result (λ both. group_plans_of both.items
        ≡ groups_joined (group_plans_of parts.now) (group_plans_of others.now)) }
{
    with_copies(alloc, each_group(alloc, parts), others)
}

// Appends copies of `others` to the list `parts`, or returns the error that `parts` is.
#[tactic(auto, using(crate::proofs::ListLemmas::group_plans_of_joined))]
fn with_copies(
    alloc: Global,
    parts: Result<Vec<UnitPlan>, AllocError>,
    others: &[UnitPlan],
) -> Result<Vec<UnitPlan>, AllocError>
    ensures { (plans : PlansOfGroups) → IfOk parts (λ made. group_plans_of made.items ≡ plans)
        → IfOk result (λ both. group_plans_of both.items
        ≡ groups_joined plans (group_plans_of others.now)) }
{
    let mut parts = parts?;
    let mut others = each_group(alloc, others)?;
    parts.append(&mut others)?;
    Ok(parts)
}

// Returns a list of `first`, followed by copies of `rest`.
#[tactic(auto, using(crate::proofs::ListLemmas::group_plans_of_joined))]
pub(crate) fn with_first(
    alloc: Global,
    first: UnitPlan,
    rest: &[UnitPlan],
) -> Result<Vec<UnitPlan>, AllocError>
    ensures { IfOk result (λ all. group_plans_of all.items
        ≡ group_plan_then (group_plan_of first) (group_plans_of rest.now)) }
{
    let first = vec![in alloc; first]?;
    with_copies(alloc, Ok(first), rest)
}

// Makes the `And` of copies of the plan of groups `first` and of the plans `rest`.
#[tactic(auto, using(set_algebra::proofs::PlanLemmas::plans_of_items))]
pub(crate) fn and_first(
    alloc: Global,
    first: &UnitPlan,
    rest: &[UnitPlan],
) -> Result<UnitPlan, AllocError>
    ensures { IfOk result (λ new. group_plan_of new
        ≡ and_group_plan (group_plan_then (group_plan_of first.now) (group_plans_of rest.now))) }
{
    let first = first.copy(alloc)?;
    Ok(UnitPlan::And(with_first(alloc, first, rest)?))
}

// Makes for each plan of groups in `parts` the `And` of copies of it and of the plans `rest`.
pub(crate) fn each_with(
    alloc: Global,
    parts: &[UnitPlan],
    rest: &[UnitPlan],
) -> Result<Vec<UnitPlan>, AllocError>
    ensures { IfOk result (λ made. group_plans_of made.items
        ≡ groups_each (λ part. and_group_plan (group_plan_then part (group_plans_of rest.now)))
        (group_plans_of parts.now)) }
{
    let mut made = Vec::new(alloc);
    for part in parts {
        made = with_last_groups(made, and_first(alloc, part, rest))?;
    }
    Ok(made)
}
