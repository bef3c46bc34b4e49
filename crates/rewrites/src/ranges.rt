//! Rules for the counts of `Pairs` and `Units` of concepts: RangeSplit, RangeTurn and RangeAll.
ghost use Rattle.std.specs.Prelude.{◌≡◌, option_map, IfOk};
ghost use Rattle.set_algebra.specs.Lowering.{both_plan};
ghost use Rattle.set_algebra.specs.Plan.{plan_of, all_plan, empty_plan, minus_plan};
ghost use Rattle.rewrites.specs.Counts.{trivial_cardinality};
ghost use Rattle.rewrites.specs.inside.Counted.{count_of, with_count};
ghost use Rattle.rewrites.specs.inside.Gives.{Gives};
ghost use Rattle.rewrites.specs.Rules.{rewritten};
ghost use Rattle.rewrites.specs.declared.rule.Rule.TheVariants.{RangeSplit, RangeTurn, RangeAll};

use crate::counts::{asks_nothing, asks_too_much, complement, split};
use crate::fault::RuleFault;
use crate::made::{both, given, in_box, minus, pairs, units};
use constraint_tree::Cardinality;
use set_algebra::ConceptPlan;
use std::alloc::{AllocError, Global};

// Applies RangeSplit at the root of `plan`: `Pairs` or `Units` with `[m..k]`, m at least 1, become
// the `And` of two copies with `[m..*]` and `[0..k]`. Returns `NotApplicable` for any other plan.
pub(crate) fn range_split(alloc: Global, plan: &ConceptPlan) -> Result<ConceptPlan, RuleFault>
    ensures { Gives (rewritten RangeSplit (plan_of plan.now)) result }
{
    if let Some(count) = count_of(plan)
        && let Some((least, most)) = split(count)
    {
        return given(with_counts(alloc, plan, least, most));
    }
    Err(RuleFault::NotApplicable)
}

// Makes the `And` of two copies of `plan`, one with the count `one` and one with the count `other`.
fn with_counts(
    alloc: Global,
    plan: &ConceptPlan,
    one: Cardinality,
    other: Cardinality,
) -> Result<ConceptPlan, AllocError>
    ensures { IfOk result (λ new. plan_of new ≡ both_plan (with_count one (plan_of plan.now))
        (with_count other (plan_of plan.now))) }
{
    let one = with_count(alloc, plan, one);
    let other = with_count(alloc, plan, other);
    both(alloc, one, other)
}

// Applies RangeTurn at the root of `plan`: `Pairs` or `Units` with `[0..k]`, k below `u64::MAX`,
// become the `Minus` of `All` and of a copy with `[k+1..*]`. Returns `NotApplicable` for any other
// plan.
pub(crate) fn range_turn(alloc: Global, plan: &ConceptPlan) -> Result<ConceptPlan, RuleFault>
    ensures { Gives (rewritten RangeTurn (plan_of plan.now)) result }
{
    if let Some(count) = count_of(plan)
        && let Some(above) = complement(count)
    {
        return given(all_but_with(alloc, plan, above));
    }
    Err(RuleFault::NotApplicable)
}

// Makes the `Minus` of `All` and of a copy of `plan` with the count `count`.
fn all_but_with(
    alloc: Global,
    plan: &ConceptPlan,
    count: Cardinality,
) -> Result<ConceptPlan, AllocError>
    ensures { IfOk result (λ new. plan_of new
        ≡ minus_plan all_plan (with_count count (plan_of plan.now))) }
{
    let all = in_box(alloc, Ok(ConceptPlan::All));
    let more = in_box(alloc, with_count(alloc, plan, count));
    minus(all, more)
}

// Returns the count of `plan` if it is `Pairs` or `Units`, or else `None`.
fn count_of(plan: &ConceptPlan) -> Option<Cardinality>
    ensures { result ≡ count_of (plan_of plan.now) }
{
    match plan {
        ConceptPlan::Pairs { count, .. } => Some(*count),
        ConceptPlan::Units { count, .. } => Some(*count),
        _ => None,
    }
}

// Copies `plan`. If it is `Pairs` or `Units`, the copy has the count `count`.
fn with_count(
    alloc: Global,
    plan: &ConceptPlan,
    count: Cardinality,
) -> Result<ConceptPlan, AllocError>
    ensures { IfOk result (λ new. plan_of new ≡ with_count count (plan_of plan.now)) }
{
    match plan {
        ConceptPlan::Pairs {
            back,
            types,
            test,
            ..
        } => pairs(alloc, *back, count, types, test),
        ConceptPlan::Units { units: groups, .. } => units(alloc, count, groups),
        _ => plan.copy(alloc),
    }
}

// Applies RangeAll at the root of `plan`: `Pairs` or `Units` with `[0..*]` become `All`, and with
// `[m..k]`, m above k, `Empty`. Returns `NotApplicable` for any other plan.
pub(crate) fn range_all(plan: &ConceptPlan) -> Result<ConceptPlan, RuleFault>
    ensures { Gives (rewritten RangeAll (plan_of plan.now)) result }
{
    trivial_cardinality(plan).ok_or(RuleFault::NotApplicable)
}

// Returns the plan that RangeAll makes of `plan`, or `None` if it makes none. The function
// allocates nothing.
pub(crate) fn trivial_cardinality(plan: &ConceptPlan) -> Option<ConceptPlan>
    ensures { option_map plan_of result ≡ rewritten RangeAll (plan_of plan.now) }
{
    match plan {
        ConceptPlan::Pairs { count, .. } => trivial_count(*count),
        ConceptPlan::Units { count, .. } => trivial_count(*count),
        _ => None,
    }
}

// Returns `All` if `count` is [0..*], `Empty` if its minimum is above its maximum, or else `None`.
fn trivial_count(count: Cardinality) -> Option<ConceptPlan>
    ensures { option_map plan_of result ≡ trivial_cardinality all_plan empty_plan count }
{
    if asks_nothing(count) {
        return Some(ConceptPlan::All);
    }
    if asks_too_much(count) {
        return Some(ConceptPlan::Empty);
    }
    None
}
