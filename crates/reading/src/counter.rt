//! The counter of visits.
ghost use Rattle.std.specs.Prelude.{◌<◌, ◌^◌};

/// How many items were read: from the lists of the indexes and of the snapshot, and from what parts
/// of plans have found. The count saturates at `u64::MAX`.
#[derive(Clone, Copy, Debug)]
pub struct Visits {
    /// How many items were read.
    pub count: u64,
}

/// Counts items as they are handed out. A counter cannot be copied, and only `Reader::open` creates
/// one.
#[derive(Drop)]
pub struct Counter {
    pub(crate) count: u64,
    // for the prover: the count is a number of 64 bits
    pub ghost fits: { count < 2 ^ 64 },
}
