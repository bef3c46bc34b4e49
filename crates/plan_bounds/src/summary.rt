//! Summarizes the sizes of the parts of a node, part by part.
ghost use Rattle.std.specs.Prelude.{◌≡◌};
ghost use Rattle.plan_bounds.specs.SizeSummaries.{no_summary, summary_with};

/// The sum of the sizes of a node's parts, and the least of them.
#[derive(Clone, Copy, Debug)]
pub struct SizeSummary {
    /// The sum of the sizes, or `u64::MAX` if it is larger.
    pub sum: u64,
    /// The least of the sizes, or a number that the caller gives if there are no parts.
    pub least: u64,
}

impl SizeSummary {
    /// Returns the summary of no parts, with `other` in place of a least size.
    pub fn none(other: u64) -> SizeSummary
        ensures { result ≡ no_summary other }
    {
        SizeSummary {
            sum: 0,
            least: other,
        }
    }

    /// Returns the summary with one more part of size `size`. `place` is the number of parts before
    /// it.
    pub fn with(&self, place: u64, size: u64) -> SizeSummary
        ensures { result ≡ summary_with place self.now size }
    {
        let sum = self.sum.saturating_add(size);
        let least = if place == 0 {
            size
        } else {
            self.least.min(size)
        };
        SizeSummary { sum, least }
    }
}
