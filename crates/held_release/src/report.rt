//! The counts of a loaded release.

/// Counts of a loaded release: the files it was loaded from, the rows in force of each kind, and
/// the rows that were passed over.
#[derive(Clone, Copy, Debug, PartialEq, Eq)]
pub struct Report {
    /// How many files are Snapshot files of some kind by their names.
    pub files: u64,
    /// How many concepts are in force.
    pub concepts: u64,
    /// How many is-a rows are in force.
    pub isa: u64,
    /// How many attribute rows are in force.
    pub attributes: u64,
    /// How many member rows are in force.
    pub members: u64,
    /// How many name rows are in force.
    pub names: u64,
    /// How many rows of all kinds were passed over, that is, are counted in no other field.
    pub passed: u64,
}
