//! The operations that every form of set has.
ghost use Rattle.std.specs.Prelude.{◌≡◌, ◌<◌, ◌^◌, ℕ, List, All, drop, IfOk, length, OnErr, OnOk, take};
ghost use Rattle.std.specs.List.{range_with_len};
ghost use Rattle.idset.specs.Sets.{all_items, common_items, missing_numbers, other_items};
ghost use Rattle.number_lists.specs.Members.{has};
ghost use Rattle.number_lists.specs.Rising.{IsRisingBelow, listed_numbers, numbers_where};
ghost use Rattle.idset.specs.Words.{AreWordsBelow, is_set};

use std::alloc::{AllocError, Global};

/// A set of numbers below a bound. Contracts see it as the list of its items, which rises strictly.
///
/// A call that answers `AllocError` was refused memory. It changes nothing.
pub trait ConceptSet: Drop {
    /// The items, in rising order.
    ghost items_of: { Self → List ℕ };

    /// The bound: every item is below it.
    ghost bound_of: { Self → ℕ };

    /// Makes the set of `items`, a strictly rising list of numbers below `bound`.
    fn from_items(alloc: Global, items: &[u32], bound: u32) -> Result<Self, AllocError>
        requires { IsRisingBelow bound items.now }
        ensures items { IfOk result (λ set. items_of set ≡ items.now) }
        ensures bound { IfOk result (λ set. bound_of set ≡ bound) };

    /// Makes the set of `numbers`, which are below `bound`, in any order, and may repeat: for the
    /// numbers that a scan of rows finds.
    fn from_numbers(alloc: Global, numbers: &[u32], bound: u32) -> Result<Self, AllocError>
        requires { All (λ number. number < bound) numbers.now }
        ensures items { IfOk result (λ set. items_of set ≡ listed_numbers bound numbers.now) }
        ensures bound { IfOk result (λ set. bound_of set ≡ bound) };

    /// Makes the set of the numbers whose bit is set in `words`, a bitmap in words of 64 bits, the
    /// lowest bit first. It has as many words as `bound` takes, and no bit from `bound` on is set.
    /// An index keeps its long lists so, and a `WordSet` copies the words as they are.
    fn from_words(alloc: Global, words: &[u64], bound: u32) -> Result<Self, AllocError>
        requires { AreWordsBelow bound words.now }
        ensures items { IfOk result (λ set. items_of set ≡ numbers_where bound (is_set words.now)) }
        ensures bound { IfOk result (λ set. bound_of set ≡ bound) };

    /// Makes the set of all numbers below `bound`.
    fn every(alloc: Global, bound: u32) -> Result<Self, AllocError>
        ensures items { IfOk result (λ set. items_of set ≡ range_with_len 0 bound) }
        ensures bound { IfOk result (λ set. bound_of set ≡ bound) };

    /// Intersects: makes the set of the items that are in both sets. Both have the same bound.
    fn and(&self, alloc: Global, other: &Self) -> Result<Self, AllocError>
        requires { bound_of self.now ≡ bound_of other.now }
        ensures items { IfOk result
            (λ set. items_of set ≡ common_items (items_of self.now) (items_of other.now)) }
        ensures bound { IfOk result (λ set. bound_of set ≡ bound_of self.now) };

    /// Unites: makes the set of the items that are in one of the sets, or in both. Both have the
    /// same bound.
    fn or(&self, alloc: Global, other: &Self) -> Result<Self, AllocError>
        requires { bound_of self.now ≡ bound_of other.now }
        ensures items { IfOk result (λ set. items_of set
            ≡ all_items (bound_of self.now) (items_of self.now) (items_of other.now)) }
        ensures bound { IfOk result (λ set. bound_of set ≡ bound_of self.now) };

    /// Subtracts: makes the set of the items that are in this set and not in `other`. Both have the
    /// same bound.
    fn minus(&self, alloc: Global, other: &Self) -> Result<Self, AllocError>
        requires { bound_of self.now ≡ bound_of other.now }
        ensures items { IfOk result
            (λ set. items_of set ≡ other_items (items_of self.now) (items_of other.now)) }
        ensures bound { IfOk result (λ set. bound_of set ≡ bound_of self.now) };

    /// Complements: makes the set of the numbers below the bound that are not in this set.
    fn others(&self, alloc: Global) -> Result<Self, AllocError>
        ensures items { IfOk result
            (λ set. items_of set ≡ missing_numbers (bound_of self.now) (items_of self.now)) }
        ensures bound { IfOk result (λ set. bound_of set ≡ bound_of self.now) };

    /// Adds `items`, a strictly rising list of numbers below the bound. Callers unite many lists of
    /// an index with it, one after another. If memory is refused, the set stays as it is.
    fn add_all(&mut self, alloc: Global, items: &[u32]) -> Result<(), AllocError>
        requires { IsRisingBelow (bound_of self.old) items.now }
        ensures items { OnOk result
            (items_of self.new ≡ all_items (bound_of self.old) (items_of self.old) items.now) }
        ensures err { OnErr result (items_of self.new ≡ items_of self.old) }
        ensures bound { bound_of self.new ≡ bound_of self.old };

    /// Copies the items, in rising order, into a new list.
    fn items(&self, alloc: Global) -> Result<Vec<u32>, AllocError>
        ensures { IfOk result (λ items. items.items ≡ items_of self.now) };

    /// Copies a page of the items into a new list: in rising order, without the first `skipped`,
    /// and at most `most` of them.
    fn some_items(&self, alloc: Global, skipped: u64, most: u64) -> Result<Vec<u32>, AllocError>
        ensures { IfOk result (λ items. items.items
            ≡ take most (drop skipped (items_of self.now))) };

    /// Turns the set into the form that answers `has` fastest, before many numbers are tested.
    fn for_asking(self, alloc: Global) -> Result<Self, AllocError>
        ensures items { IfOk result (λ set. items_of set ≡ items_of self) }
        ensures bound { IfOk result (λ set. bound_of set ≡ bound_of self) };

    /// Copies the set.
    fn copy(&self, alloc: Global) -> Result<Self, AllocError>
        ensures items { IfOk result (λ set. items_of set ≡ items_of self.now) }
        ensures bound { IfOk result (λ set. bound_of set ≡ bound_of self.now) };

    /// Returns the bound.
    fn bound(&self) -> u32
        ensures { result ≡ bound_of self.now };

    /// Tells whether a number is in the set; one that is not below the bound is not.
    fn has(&self, number: u32) -> bool
        ensures { result ≡ has (items_of self.now) number };

    /// Counts the items, which are at most as many as the bound.
    fn count(&self) -> u32
        ensures { result ≡ length (items_of self.now) };

    /// The items of a set rise strictly and are below its bound.
    ghost rising: { (set : Self) → IsRisingBelow (bound_of set) (items_of set) };
}
