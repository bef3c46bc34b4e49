//! Rules for `Walk` and `Members`: WalkOr and WalkTwice.
ghost use Rattle.std.specs.Prelude.{◌≡◌, IfOk};
ghost use Rattle.set_algebra.specs.Plan.{plan_of, plans_of, walk_plan, members_plan};
ghost use Rattle.rewrites.specs.inside.Gives.{Gives};
ghost use Rattle.rewrites.specs.PlanLists.{plans_each};
ghost use Rattle.rewrites.specs.Rules.{rewritten, goes_through, walk_of_walk};
ghost use Rattle.rewrites.specs.declared.rule.Rule.TheVariants.{WalkOr, WalkTwice};

use crate::connective::{Connective, given_parts};
use crate::fault::RuleFault;
use crate::made::{given, members, walk, with_last};
use constraint_tree::Operator;
use set_algebra::ConceptPlan;
use set_algebra::views::{or_of, walk_of};
use std::alloc::{AllocError, Global};

// Applies WalkOr at the root of `plan`: `Walk(w, Or(y..))` becomes the `Or` of `Walk(w, y)` for
// each y, if w is neither `!!>` nor `!!<`; `Members(Or(y..))` becomes the `Or` of `Members(y)`.
// Returns `NotApplicable` for any other plan.
#[tactic(auto, using(set_algebra::proofs::PlanLemmas::plans_of_items))]
pub(crate) fn walk_or(alloc: Global, plan: &ConceptPlan) -> Result<ConceptPlan, RuleFault>
    ensures { Gives (rewritten WalkOr (plan_of plan.now)) result }
{
    match plan {
        ConceptPlan::Walk(operator, operand) => {
            if let Ok(parts) = or_of(operand)
                && goes_through(*operator)
            {
                return given_parts(Connective::Or, each_walk(alloc, *operator, parts));
            }
            Err(RuleFault::NotApplicable)
        }
        ConceptPlan::Members(operand) => {
            if let Ok(parts) = or_of(operand) {
                return given_parts(Connective::Or, each_members(alloc, parts));
            }
            Err(RuleFault::NotApplicable)
        }
        _ => Err(RuleFault::NotApplicable),
    }
}

// Whether a `Walk` with `operator` over an `Or` may be moved into the `Or`. Only `!!>` and `!!<`
// may not: they compare the members of the whole set with each other.
fn goes_through(operator: Operator) -> bool
    ensures { result ≡ goes_through operator }
{
    match operator {
        Operator::Top | Operator::Bottom => false,
        _ => true,
    }
}

// Makes for each plan in `parts` a `Walk` with `operator` and this plan.
fn each_walk(
    alloc: Global,
    operator: Operator,
    parts: &[ConceptPlan],
) -> Result<Vec<ConceptPlan>, AllocError>
    ensures { IfOk result (λ made. plans_of made.items
        ≡ plans_each (walk_plan operator) (plans_of parts.now)) }
{
    let mut made = Vec::new(alloc);
    for part in parts {
        made = with_last(made, walk(alloc, operator, part))?;
    }
    Ok(made)
}

// Makes for each plan in `parts` a `Members` of this plan.
fn each_members(alloc: Global, parts: &[ConceptPlan]) -> Result<Vec<ConceptPlan>, AllocError>
    ensures { IfOk result (λ made. plans_of made.items
        ≡ plans_each members_plan (plans_of parts.now)) }
{
    let mut made = Vec::new(alloc);
    for part in parts {
        made = with_last(made, members(alloc, part))?;
    }
    Ok(made)
}

// Applies WalkTwice at the root of `plan`: `Walk(w, Walk(v, a))` becomes one `Walk` of a, if one
// operator stands for w and v together. Returns `NotApplicable` for any other plan.
pub(crate) fn walk_twice(alloc: Global, plan: &ConceptPlan) -> Result<ConceptPlan, RuleFault>
    ensures { Gives (rewritten WalkTwice (plan_of plan.now)) result }
{
    if let Ok((outer, inside)) = walk_of(plan)
        && let Ok((inner, operand)) = walk_of(inside)
        && let Some(operator) = walk_of_walk(outer, inner)
    {
        return given(walk(alloc, operator, operand));
    }
    Err(RuleFault::NotApplicable)
}

// Returns the one operator that finds the same as `outer` of `inner`, or `None` if there is none.
fn walk_of_walk(outer: Operator, inner: Operator) -> Option<Operator>
    ensures { result ≡ walk_of_walk outer inner }
{
    match (outer, inner) {
        (Operator::DescendantsOrSelf, Operator::DescendantsOrSelf) => Some(
            Operator::DescendantsOrSelf,
        ),
        (Operator::DescendantsOrSelf, Operator::Descendants) => Some(Operator::Descendants),
        (Operator::Descendants, Operator::DescendantsOrSelf) => Some(Operator::Descendants),
        (Operator::AncestorsOrSelf, Operator::AncestorsOrSelf) => Some(Operator::AncestorsOrSelf),
        (Operator::AncestorsOrSelf, Operator::Ancestors) => Some(Operator::Ancestors),
        (Operator::Ancestors, Operator::AncestorsOrSelf) => Some(Operator::Ancestors),
        _ => None,
    }
}
