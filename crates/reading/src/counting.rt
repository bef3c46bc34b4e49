//! The calls of `Counter`.
ghost use Rattle.std.specs.Prelude.{◌≡◌, ◌≤◌, ◌+◌, max};
ghost use Rattle.reading.specs.Counted.{full};

use crate::answer::Answer;
use crate::counter::{Counter, Visits};
use idset::ConceptSet;

impl Counter {
    // Creates a counter that goes on from `visits`.
    pub(crate) fn from(visits: Visits) -> Counter
        ensures { result.count ≡ visits.count }
    {
        Counter {
            count: visits.count,
        }
    }

    /// Returns how many items were counted.
    pub fn count(&self) -> u64
        ensures { result ≡ self.now.count }
    {
        self.count
    }

    /// Returns the count as a value that can be copied.
    pub fn visits(&self) -> Visits
        ensures { result.count ≡ self.now.count }
    {
        Visits { count: self.count }
    }

    /// Returns the set of `answer`. This ends the counter, so nothing more can be read.
    pub fn close<S: ConceptSet>(self, answer: Answer<S>) -> S
        ensures { result ≡ answer }
    {
        let Counter { count: _ } = self;
        answer.into_set()
    }

    /// Adds `items` to the count, which saturates at `u64::MAX`.
    pub fn add(&mut self, items: u64)
        ensures count { self.new.count ≡ full (self.old.count + items) }
        ensures grows { self.old.count ≤ self.new.count }
    {
        *self = Counter {
            count: self.count.saturating_add(items),
        };
    }

    /// Raises the count to `since + floor`, if it is lower. `since` is the count before a node was
    /// executed, and `floor` is how many items the node must count at least. The sum saturates at
    /// `u64::MAX`.
    pub fn fill(&mut self, since: u64, floor: u64)
        ensures count { self.new.count ≡ max self.old.count (full (since + floor)) }
        ensures grows { self.old.count ≤ self.new.count }
    {
        *self = Counter {
            count: self.count.max(since.saturating_add(floor)),
        };
    }
}
