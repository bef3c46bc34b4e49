//! Nodes of a plan, with references to their parts.

use constraint_tree::{Cardinality, Operator};
use set_algebra::{Choice, ConceptPlan, ValueTest};

/// A leaf: a node that counts the distinct pairs of a concept or of a group that match (Expression
/// Constraint Language, "Refinements").
#[derive(Clone, Copy)]
pub struct LeafParts<'a> {
    /// How many pairs must match ("Cardinality").
    pub count: Cardinality,
    /// The plan of the types.
    pub types: &'a ConceptPlan,
    /// The test of the values.
    pub test: &'a ValueTest,
    /// Which attribute rows answer the leaf.
    pub choice: Choice,
}

/// A walk: a node that applies a hierarchy operator to the concepts of its operand.
#[derive(Clone, Copy)]
pub struct WalkParts<'a> {
    /// The hierarchy operator.
    pub operator: Operator,
    /// The plan of the set to which the operator is applied.
    pub operand: &'a ConceptPlan,
}
