//! Applies a rule at the root of a plan.
ghost use Rattle.set_algebra.specs.Plan.{plan_of, group_plan_of};
ghost use Rattle.rewrites.specs.inside.Gives.{Gives, GivesGroup};
ghost use Rattle.rewrites.specs.Rules.{rewritten, rewritten_group};

use crate::fault::RuleFault;
use crate::rule::Rule;
use crate::{braces, group_pairs, group_parts, pairs, parts, ranges, walks};
use set_algebra::{ConceptPlan, UnitPlan};
use std::alloc::Global;

// Returns the plan that `rule` makes of the plan of concepts `plan`. The new plan consists of
// copies. Returns `NotApplicable` if the rule makes none, and `Memory` if memory runs out.
pub(crate) fn rewritten(
    alloc: Global,
    rule: Rule,
    plan: &ConceptPlan,
) -> Result<ConceptPlan, RuleFault>
    ensures { Gives (rewritten rule (plan_of plan.now)) result }
{
    match rule {
        Rule::Turn => parts::turn(alloc, plan),
        Rule::Join => parts::join(alloc, plan),
        Rule::Pair => parts::pair(alloc, plan),
        Rule::Spread => parts::spread(alloc, plan),
        Rule::Same => parts::same(alloc, plan),
        Rule::Only => parts::only(alloc, plan),
        Rule::MinusAnd => parts::minus_and(alloc, plan),
        Rule::MinusOr => parts::minus_or(alloc, plan),
        Rule::WalkOr => walks::walk_or(alloc, plan),
        Rule::WalkTwice => walks::walk_twice(alloc, plan),
        Rule::TypesOr => pairs::types_or(alloc, plan),
        Rule::TestOr => pairs::test_or(alloc, plan),
        Rule::RangeSplit => ranges::range_split(alloc, plan),
        Rule::RangeTurn => ranges::range_turn(alloc, plan),
        Rule::RangeAll => ranges::range_all(plan),
        Rule::BraceOr => braces::brace_or(alloc, plan),
        Rule::BraceOne => braces::brace_one(alloc, plan),
        Rule::BraceGuard => braces::brace_guard(alloc, plan),
    }
}

// Returns the plan that `rule` makes of the plan of groups `plan`. The new plan consists of
// copies. Returns `NotApplicable` if the rule makes none, and `Memory` if memory runs out.
pub(crate) fn group_rewritten(
    alloc: Global,
    rule: Rule,
    plan: &UnitPlan,
) -> Result<UnitPlan, RuleFault>
    ensures { GivesGroup (rewritten_group rule (group_plan_of plan.now)) result }
{
    match rule {
        Rule::Turn => group_parts::turn(alloc, plan),
        Rule::Join => group_parts::join(alloc, plan),
        Rule::Pair => group_parts::pair(alloc, plan),
        Rule::Spread => group_parts::spread(alloc, plan),
        Rule::Same => group_parts::same(alloc, plan),
        Rule::Only => group_parts::only(alloc, plan),
        Rule::MinusAnd => group_parts::minus_and(alloc, plan),
        Rule::MinusOr => group_parts::minus_or(alloc, plan),
        Rule::TypesOr => group_pairs::types_or(alloc, plan),
        Rule::TestOr => group_pairs::test_or(alloc, plan),
        Rule::RangeSplit => group_pairs::range_split(alloc, plan),
        Rule::RangeTurn => group_pairs::range_turn(alloc, plan),
        Rule::RangeAll => group_pairs::range_all(plan),
        Rule::WalkOr | Rule::WalkTwice | Rule::BraceOr | Rule::BraceOne | Rule::BraceGuard => Err(
            RuleFault::NotApplicable,
        ),
    }
}
