//! Decimal numbers.

/// A decimal number with at most 18 digits before the point and 18 after it, stored as a whole
/// number of units of 10^-18 (Release File Specification, "Relationship concrete values file").
#[derive(Clone, Copy, Debug, PartialEq, Eq, PartialOrd, Ord)]
pub struct Decimal(
    /// The number in units of 10^-18.
    pub i128,
);
