//! The operators, comparisons and cardinalities of a constraint.

/// A hierarchy operator of ECL (Expression Constraint Language, "Simple Expression Constraints").
#[derive(Clone, Copy, Debug, PartialEq, Eq)]
pub enum Operator {
    /// `<`
    Descendants,
    /// `<<`
    DescendantsOrSelf,
    /// `<!`
    Children,
    /// `<<!`
    ChildrenOrSelf,
    /// `>`
    Ancestors,
    /// `>>`
    AncestorsOrSelf,
    /// `>!`
    Parents,
    /// `>>!`
    ParentsOrSelf,
    /// `!!>`
    Top,
    /// `!!<`
    Bottom,
}

/// A comparison of an attribute's value with a number (Expression Constraint Language,
/// "Refinements", concrete values).
#[derive(Clone, Copy, Debug, PartialEq, Eq)]
pub enum Compare {
    /// `=`
    Equal,
    /// `!=`
    NotEqual,
    /// `<`
    Less,
    /// `<=`
    LessOrEqual,
    /// `>`
    Greater,
    /// `>=`
    GreaterOrEqual,
}

/// How many pairs or groups a concept, or how many pairs a group, must have (Expression Constraint
/// Language, "Cardinality"). If `min` is above `max`, no count is allowed.
#[derive(Clone, Copy, Debug, PartialEq, Eq)]
pub struct Cardinality {
    /// The least count.
    pub min: u64,
    /// The greatest count, or `None` for `*`.
    pub max: Option<u64>,
}
