//! The tree of a constraint.
use crate::operator::{Cardinality, Compare, Operator};
use numerals::Decimal;

/// A constraint, which denotes a set of concepts in force (Expression Constraint Language, "Brief
/// Syntax", expressionConstraint).
#[cycle(tree)]
#[derive(Drop, Debug, PartialEq)]
pub enum Constraint {
    /// The concept with this identifier (SCTID).
    Concept(u64),
    /// `*`: each concept in force.
    Any,
    /// The concepts that the hierarchy operator finds for the operand's set, as the descendants of
    /// its members.
    Walk(Operator, Box<Constraint>),
    /// `^`: the concepts that are members of a reference set in the operand.
    MemberOf(Box<Constraint>),
    /// The concepts in all parts.
    And(Vec<Constraint>),
    /// The concepts in at least one part.
    Or(Vec<Constraint>),
    /// The concepts in the first part and not in the second.
    Minus(Box<Constraint>, Box<Constraint>),
    /// `A . b . c`: the values of the attributes b of A, then the values of the attributes c of
    /// those values.
    Dotted(Box<Constraint>, Vec<Constraint>),
    /// `A : r`: the members of A that satisfy r.
    Refined(Box<Constraint>, Box<Refinement>),
}

/// A condition that a concept must satisfy (Expression Constraint Language, "Refinements",
/// eclRefinement).
#[cycle(tree)]
#[derive(Drop, Debug, PartialEq)]
pub enum Refinement {
    /// The concept satisfies the attribute with all its pairs, in whatever group they are.
    One(Attribute),
    /// `{ .. }`: the number of the concept's groups that satisfy the attribute set lies in the
    /// cardinality.
    Group(Cardinality, AttributeSet),
    /// All parts hold.
    And(Vec<Refinement>),
    /// At least one part holds.
    Or(Vec<Refinement>),
}

/// A condition that a group of a concept must satisfy (Expression Constraint Language,
/// "Refinements", eclAttributeSet).
#[cycle(tree)]
#[derive(Drop, Debug, PartialEq)]
pub enum AttributeSet {
    /// The group satisfies the attribute with its own pairs.
    One(Attribute),
    /// All parts hold.
    And(Vec<AttributeSet>),
    /// At least one part holds.
    Or(Vec<AttributeSet>),
}

/// A condition on pairs: the number of pairs with a type in `name` and a value that passes `test`
/// lies in `count` (Expression Constraint Language, "Refinements", eclAttribute).
#[cycle(tree)]
#[derive(Drop, Debug, PartialEq)]
pub struct Attribute {
    /// How many pairs must match. A text without a cardinality has `[1..*]`.
    pub count: Cardinality,
    /// `R`: the rows are read backwards, from value to source. Never inside braces.
    pub reverse: bool,
    /// The constraint that denotes the types of matching pairs.
    pub name: Constraint,
    /// The test that the value of a matching pair passes.
    pub test: Test,
}

/// A test of the value of a pair.
#[cycle(tree)]
#[derive(Drop, Debug, PartialEq)]
pub enum Test {
    /// `=`: the value is a concept that the constraint denotes.
    Within(Box<Constraint>),
    /// `!=`: the value is a concept that the constraint does not denote.
    Outside(Box<Constraint>),
    /// The value is a number, and the comparison of it with this number holds.
    Number(Compare, Decimal),
}
