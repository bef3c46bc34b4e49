//! The depth of a plan.
ghost use Rattle.std.specs.Prelude.{◌≡◌, ◌-◌, ◌^◌, min};
ghost use Rattle.set_algebra.specs.Depth.{plan_depth, plans_depth, group_depth, groups_depth, test_depth};
ghost use Rattle.set_algebra.specs.Plan.{plan_of, plans_of, group_plan_of, group_plans_of, test_plan_of};

use crate::plan::{ConceptPlan, UnitPlan, ValueTest};

impl ConceptPlan {
    /// Returns the number of nodes on the longest path from the root. Each plan of concepts or of
    /// groups is a node, but a test is not: `All` has depth 1. A depth above `u64::MAX` is returned
    /// as `u64::MAX`. The function allocates nothing.
    #[cycle(depth)]
    #[tactic(auto, using(crate::proofs::PlanLemmas::plans_of_items))]
    pub fn depth(&self) -> u64
        ensures { result ≡ min (plan_depth (plan_of self.now)) (2 ^ 64 - 1) }
    {
        match self {
            ConceptPlan::Empty | ConceptPlan::All | ConceptPlan::One(_) => 1,
            ConceptPlan::Walk(_, operand) | ConceptPlan::Members(operand) => {
                operand.depth().saturating_add(1)
            }
            ConceptPlan::And(parts) | ConceptPlan::Or(parts) => deepest(parts).saturating_add(1),
            ConceptPlan::Minus(first, second) => {
                first.depth().max(second.depth()).saturating_add(1)
            }
            ConceptPlan::Values(start, names) => {
                start.depth().max(deepest(names)).saturating_add(1)
            }
            ConceptPlan::Pairs { types, test, .. } => {
                types.depth().max(test.depth()).saturating_add(1)
            }
            ConceptPlan::Units { units, .. } => units.depth().saturating_add(1),
        }
    }
}

impl UnitPlan {
    /// Returns the number of nodes on the longest path from the root. Each plan of concepts or of
    /// groups is a node, but a test is not: `Every` has depth 1. A depth above `u64::MAX` is
    /// returned as `u64::MAX`. The function allocates nothing.
    #[cycle(depth)]
    #[tactic(auto, using(crate::proofs::PlanLemmas::plans_of_items))]
    pub fn depth(&self) -> u64
        ensures { result ≡ min (group_depth (group_plan_of self.now)) (2 ^ 64 - 1) }
    {
        match self {
            UnitPlan::Nothing | UnitPlan::Every => 1,
            UnitPlan::And(parts) | UnitPlan::Or(parts) => deepest_group(parts).saturating_add(1),
            UnitPlan::Minus(first, second) => first.depth().max(second.depth()).saturating_add(1),
            UnitPlan::Pairs { types, test, .. } => {
                types.depth().max(test.depth()).saturating_add(1)
            }
        }
    }
}

impl ValueTest {
    // Returns the depth of the test's plan, or 0 for a comparison with a number. A test is no node.
    #[cycle(depth)]
    fn depth(&self) -> u64
        ensures { result ≡ min (test_depth (test_plan_of self.now)) (2 ^ 64 - 1) }
    {
        match self {
            ValueTest::Within(operand) | ValueTest::Outside(operand) => operand.depth(),
            ValueTest::Number(_, _) => 0,
        }
    }
}

// Returns the depth of the deepest plan in `parts`, or 0 if `parts` is empty.
#[cycle(depth)]
fn deepest(parts: &[ConceptPlan]) -> u64
    ensures { result ≡ min (plans_depth (plans_of parts.now)) (2 ^ 64 - 1) }
{
    let mut deepest = 0u64;
    for part in parts {
        deepest = deepest.max(part.depth());
    }
    deepest
}

// Returns the depth of the deepest plan of groups in `parts`, or 0 if `parts` is empty.
#[cycle(depth)]
fn deepest_group(parts: &[UnitPlan]) -> u64
    ensures { result ≡ min (groups_depth (group_plans_of parts.now)) (2 ^ 64 - 1) }
{
    let mut deepest = 0u64;
    for part in parts {
        deepest = deepest.max(part.depth());
    }
    deepest
}
