//! The set that a part of a plan has found, behind calls that count what is read.
ghost use Rattle.std.specs.Prelude.{◌≡◌, ◌<◌, ◌+◌, All, IfOk, length, OnErr, OnOk};
ghost use Rattle.std.specs.List.{range_with_len};
ghost use Rattle.idset.specs.Sets.{all_items, common_items, other_items};
ghost use Rattle.number_lists.specs.Members.{has};
ghost use Rattle.number_lists.specs.Rising.{IsRisingBelow, listed_numbers, numbers_where};
ghost use Rattle.idset.specs.Words.{AreWordsBelow, is_set};
ghost use Rattle.reading.specs.Counted.{HandsOut};

use crate::counter::Counter;
use idset::ConceptSet;
use std::alloc::{AllocError, Global};
use std::marker::Model;

/// The set that a part of a plan has found. The set itself is private, and every call that hands
/// out items counts them. Contracts see an answer as its set.
///
/// A call that returns `AllocError` ran out of memory; it has counted the items that it would have
/// read.
#[derive(Drop)]
pub struct Answer<S> {
    set: S,
}

impl<S> Model for Answer<S> {
    ghost Value = { S };

    ghost view = { λ answer. answer.set };
}

impl<S: ConceptSet> Answer<S> {
    /// Wraps a set that was found.
    pub fn of(set: S) -> Answer<S>
        ensures { result ≡ set }
    {
        Answer { set }
    }

    /// Creates the answer with the numbers in `items`, which must rise and be below `bound`.
    pub fn from_items(alloc: Global, items: &[u32], bound: u32) -> Result<Answer<S>, AllocError>
        requires { IsRisingBelow bound items.now }
        ensures items { IfOk result (λ found. S.items_of found ≡ items.now) }
        ensures bound { IfOk result (λ found. S.bound_of found ≡ bound) }
    {
        let set = S::from_items(alloc, items, bound)?;
        Ok(Answer { set })
    }

    /// Creates the answer with the numbers in `numbers`, which must be below `bound` and may come
    /// in any order and repeatedly.
    pub fn from_numbers(alloc: Global, numbers: &[u32], bound: u32) -> Result<Answer<S>, AllocError>
        requires { All (λ number. number < bound) numbers.now }
        ensures items { IfOk result (λ found. S.items_of found ≡ listed_numbers bound numbers.now) }
        ensures bound { IfOk result (λ found. S.bound_of found ≡ bound) }
    {
        let set = S::from_numbers(alloc, numbers, bound)?;
        Ok(Answer { set })
    }

    /// Creates the answer with the numbers whose bits are set in the bitmap `words`: 64 bits a
    /// word, the lowest bit first. No bit at or above `bound` may be set.
    pub fn from_words(alloc: Global, words: &[u64], bound: u32) -> Result<Answer<S>, AllocError>
        requires { AreWordsBelow bound words.now }
        ensures items { IfOk result (λ found. S.items_of found
            ≡ numbers_where bound (is_set words.now)) }
        ensures bound { IfOk result (λ found. S.bound_of found ≡ bound) }
    {
        let set = S::from_words(alloc, words, bound)?;
        Ok(Answer { set })
    }

    /// Adds the numbers in `items`, which must rise and be below the bound. Without memory the set
    /// stays as it was.
    pub fn add_all(&mut self, alloc: Global, items: &[u32]) -> Result<(), AllocError>
        requires { IsRisingBelow (S.bound_of self.old) items.now }
        ensures items { OnOk result (S.items_of self.new
            ≡ all_items (S.bound_of self.old) (S.items_of self.old) items.now) }
        ensures err { OnErr result (S.items_of self.new ≡ S.items_of self.old) }
        ensures bound { S.bound_of self.new ≡ S.bound_of self.old }
    {
        self.set.add_all(alloc, items)
    }

    /// Creates the answer with all numbers below `bound`.
    pub fn every(alloc: Global, bound: u32) -> Result<Answer<S>, AllocError>
        ensures items { IfOk result (λ found. S.items_of found ≡ range_with_len 0 bound) }
        ensures bound { IfOk result (λ found. S.bound_of found ≡ bound) }
    {
        let set = S::every(alloc, bound)?;
        Ok(Answer { set })
    }

    /// Returns the set of the answer, and ends the answer.
    pub(crate) fn into_set(self) -> S
        ensures { result ≡ self }
    {
        self.set
    }

    /// Copies the items into a list, in rising order. Counts each item.
    pub fn items(&self, alloc: Global, visits: &mut Counter) -> Result<Vec<u32>, AllocError>
        ensures items { IfOk result (λ items. items.items ≡ S.items_of self.now) }
        ensures counted { HandsOut (length (S.items_of self.now)) visits.old visits.new }
    {
        visits.add(u64::from(self.set.count()));
        self.set.items(alloc)
    }

    // Counts the items of both answers, for a caller that reads both.
    fn count_with(&self, other: &Answer<S>, visits: &mut Counter)
        ensures { HandsOut (length (S.items_of self.now) + length (S.items_of other.now)) visits.old
            visits.new }
    {
        visits.add(u64::from(self.set.count()) + u64::from(other.set.count()));
    }

    /// Returns the items that are in this answer, in `other`, or in both. Counts the items of both.
    pub fn or(
        &self,
        alloc: Global,
        other: &Answer<S>,
        visits: &mut Counter,
    ) -> Result<Answer<S>, AllocError>
        requires { S.bound_of self.now ≡ S.bound_of other.now }
        ensures items { IfOk result (λ found. S.items_of found
            ≡ all_items (S.bound_of self.now) (S.items_of self.now) (S.items_of other.now)) }
        ensures bound { IfOk result (λ found. S.bound_of found ≡ S.bound_of self.now) }
        ensures counted { HandsOut (length (S.items_of self.now) + length (S.items_of other.now))
            visits.old visits.new }
    {
        self.count_with(other, visits);
        let set = self.set.or(alloc, &other.set)?;
        Ok(Answer { set })
    }

    /// Returns the items of this answer that are not in `other`. Counts the items of both.
    pub fn minus(
        &self,
        alloc: Global,
        other: &Answer<S>,
        visits: &mut Counter,
    ) -> Result<Answer<S>, AllocError>
        requires { S.bound_of self.now ≡ S.bound_of other.now }
        ensures items { IfOk result
            (λ found. S.items_of found ≡ other_items (S.items_of self.now) (S.items_of other.now)) }
        ensures bound { IfOk result (λ found. S.bound_of found ≡ S.bound_of self.now) }
        ensures counted { HandsOut (length (S.items_of self.now) + length (S.items_of other.now))
            visits.old visits.new }
    {
        self.count_with(other, visits);
        let set = self.set.minus(alloc, &other.set)?;
        Ok(Answer { set })
    }

    /// Returns the items of this answer that are in `other`. Counts nothing, since the sets are
    /// only tested for membership.
    pub fn and(&self, alloc: Global, other: &Answer<S>) -> Result<Answer<S>, AllocError>
        requires { S.bound_of self.now ≡ S.bound_of other.now }
        ensures items { IfOk result (λ found. S.items_of found
            ≡ common_items (S.items_of self.now) (S.items_of other.now)) }
        ensures bound { IfOk result (λ found. S.bound_of found ≡ S.bound_of self.now) }
    {
        let set = self.set.and(alloc, &other.set)?;
        Ok(Answer { set })
    }

    /// Returns an answer with an equal set, in the form that is fastest to test for membership.
    /// Worthwhile before many tests.
    pub fn for_asking(self, alloc: Global) -> Result<Answer<S>, AllocError>
        ensures items { IfOk result (λ found. S.items_of found ≡ S.items_of self) }
        ensures bound { IfOk result (λ found. S.bound_of found ≡ S.bound_of self) }
    {
        let set = self.set.for_asking(alloc)?;
        Ok(Answer { set })
    }

    /// Returns the bound: every item is below it.
    pub fn bound(&self) -> u32
        ensures { result ≡ S.bound_of self.now }
    {
        self.set.bound()
    }

    /// Returns whether `number` is among the items. A number at or above the bound is not. Counts
    /// nothing.
    pub fn has(&self, number: u32) -> bool
        ensures { result ≡ has (S.items_of self.now) number }
    {
        self.set.has(number)
    }

    /// Returns how many items there are. Counts nothing.
    pub fn count(&self) -> u32
        ensures { result ≡ length (S.items_of self.now) }
    {
        self.set.count()
    }
}
