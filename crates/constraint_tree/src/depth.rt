//! The depth of a tree.
ghost use Rattle.std.specs.Prelude.{◌≡◌, ◌-◌, ◌^◌, min};
ghost use Rattle.constraint_tree.specs.Depth.{depth_of, trees_depth, refinement_depth, refinements_depth, set_depth, sets_depth, attribute_depth, test_depth};
ghost use Rattle.constraint_tree.specs.Tree.{tree_of, trees_of, refinement_tree_of, refinement_trees_of, set_tree_of, set_trees_of, attribute_tree_of, test_tree_of};

use crate::tree::{Attribute, AttributeSet, Constraint, Refinement, Test};

impl Constraint {
    /// Returns the number of nodes on the longest path from the root. Constraints, refinements and
    /// attribute sets are nodes: `*` has depth 1, `<<100005` has depth 2. A depth above `u64::MAX`
    /// is returned as `u64::MAX`. The function allocates nothing.
    #[cycle(depth)]
    #[tactic(auto, using(crate::proofs::TreeLemmas::trees_of_items))]
    pub fn depth(&self) -> u64
        ensures { result ≡ min (depth_of (tree_of self.now)) (2 ^ 64 - 1) }
    {
        match self {
            Constraint::Concept(_) | Constraint::Any => 1,
            Constraint::Walk(_, operand) | Constraint::MemberOf(operand) => {
                operand.depth().saturating_add(1)
            }
            Constraint::And(parts) | Constraint::Or(parts) => {
                deepest_constraint(parts).saturating_add(1)
            }
            Constraint::Minus(first, second) => first.depth().max(second.depth()).saturating_add(1),
            Constraint::Dotted(start, names) => start
                .depth()
                .max(deepest_constraint(names))
                .saturating_add(1),
            Constraint::Refined(focus, refinement) => focus
                .depth()
                .max(refinement.depth())
                .saturating_add(1),
        }
    }
}

impl Refinement {
    // Returns the depth of the refinement, as `Constraint::depth` counts it.
    #[cycle(depth)]
    #[tactic(auto, using(crate::proofs::TreeLemmas::trees_of_items))]
    fn depth(&self) -> u64
        ensures { result ≡ min (refinement_depth (refinement_tree_of self.now)) (2 ^ 64 - 1) }
    {
        match self {
            Refinement::One(attribute) => attribute.depth().saturating_add(1),
            Refinement::Group(_, set) => set.depth().saturating_add(1),
            Refinement::And(parts) | Refinement::Or(parts) => {
                deepest_refinement(parts).saturating_add(1)
            }
        }
    }
}

impl AttributeSet {
    // Returns the depth of the attribute set, as `Constraint::depth` counts it.
    #[cycle(depth)]
    #[tactic(auto, using(crate::proofs::TreeLemmas::trees_of_items))]
    fn depth(&self) -> u64
        ensures { result ≡ min (set_depth (set_tree_of self.now)) (2 ^ 64 - 1) }
    {
        match self {
            AttributeSet::One(attribute) => attribute.depth().saturating_add(1),
            AttributeSet::And(parts) | AttributeSet::Or(parts) => {
                deepest_set(parts).saturating_add(1)
            }
        }
    }
}

impl Attribute {
    // Returns the depth of the attribute. An attribute is no node: it is as deep as the deeper of
    // its name and its test.
    #[cycle(depth)]
    fn depth(&self) -> u64
        ensures { result ≡ min (attribute_depth (attribute_tree_of self.now)) (2 ^ 64 - 1) }
    {
        self.name.depth().max(self.test.depth())
    }
}

impl Test {
    // Returns the depth of the test's constraint, or 0 for a number. A test is no node.
    #[cycle(depth)]
    fn depth(&self) -> u64
        ensures { result ≡ min (test_depth (test_tree_of self.now)) (2 ^ 64 - 1) }
    {
        match self {
            Test::Within(operand) | Test::Outside(operand) => operand.depth(),
            Test::Number(_, _) => 0,
        }
    }
}

// Returns the depth of the deepest constraint in `parts`, or 0 if `parts` is empty.
#[cycle(depth)]
fn deepest_constraint(parts: &[Constraint]) -> u64
    ensures { result ≡ min (trees_depth (trees_of parts.now)) (2 ^ 64 - 1) }
{
    let mut deepest = 0u64;
    for part in parts {
        deepest = deepest.max(part.depth());
    }
    deepest
}

// Returns the depth of the deepest refinement in `parts`, or 0 if `parts` is empty.
#[cycle(depth)]
fn deepest_refinement(parts: &[Refinement]) -> u64
    ensures { result ≡ min (refinements_depth (refinement_trees_of parts.now)) (2 ^ 64 - 1) }
{
    let mut deepest = 0u64;
    for part in parts {
        deepest = deepest.max(part.depth());
    }
    deepest
}

// Returns the depth of the deepest attribute set in `parts`, or 0 if `parts` is empty.
#[cycle(depth)]
fn deepest_set(parts: &[AttributeSet]) -> u64
    ensures { result ≡ min (sets_depth (set_trees_of parts.now)) (2 ^ 64 - 1) }
{
    let mut deepest = 0u64;
    for part in parts {
        deepest = deepest.max(part.depth());
    }
    deepest
}
