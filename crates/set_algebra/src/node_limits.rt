//! The limits of how many items a node of a plan reads.

/// How many items a node visits. The items that the plans below it visit are not counted.
#[derive(Clone, Copy, Debug)]
pub struct NodeLimits {
    /// The fewest items that the node visits.
    pub floor: u64,
    /// The most items that the node visits; `u64::MAX` if the number is larger.
    pub bound: u64,
}
