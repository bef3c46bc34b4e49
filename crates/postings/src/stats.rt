//! Counts of what a release holds.

/// Counts of what a release holds, from which bounds on the work of a query are computed. `r`, `l`
/// and `m` count each distinct pair once.
#[derive(Clone, Copy, Debug, PartialEq, Eq)]
pub struct Stats {
    /// How many concepts are in force.
    pub n: u64,
    /// How many attribute rows are in force.
    pub a: u64,
    /// How many groups all concepts have (Release File Specification, "Relationship file",
    /// relationshipGroup).
    pub g: u64,
    /// How many pairs of a concept and one of its ancestors there are.
    pub r: u64,
    /// How many pairs of a concept and one of its parents there are.
    pub l: u64,
    /// How many pairs of a reference set and one of its components there are.
    pub m: u64,
}
