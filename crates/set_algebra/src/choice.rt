//! The choice of the attribute rows that answer a leaf of a plan.

/// Which attribute rows the executor reads to answer a leaf of a plan. A leaf is a node that counts
/// pairs, of concepts or of groups (Expression Constraint Language, "Refinements").
#[derive(Clone, Copy, Debug, PartialEq, Eq)]
pub enum Choice {
    /// The rows whose value is in the set of the leaf's `Within` test. If the leaf is read
    /// backwards, the rows whose source is in it.
    ByValue,
    /// The rows whose type is one of the leaf's types.
    ByType,
    /// All attribute rows.
    Scan,
}
