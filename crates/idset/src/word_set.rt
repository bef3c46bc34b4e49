//! The set as a bitmap.
ghost use Rattle.std.specs.Prelude.{◌≡◌, ◌<◌, ◌^◌};
ghost use Rattle.number_lists.specs.Rising.{IsRisingBelow, numbers_where};
ghost use Rattle.idset.specs.Sets.{other_items};
ghost use Rattle.idset.specs.Words.{AreWordsBelow, is_set};

use crate::bitmap::{
    bitmap_of, count_marked, full_bitmap, is_marked, mark_all, numbers_of, some_numbers, unmark_all,
};
use crate::concept_set::ConceptSet;
use crate::kernels::{and_words, minus_words, or_words};
use std::alloc::{AllocError, Global};

/// A set as a bitmap in words of 64 bits: it takes a bit for each number below the bound, however
/// many items it has.
#[derive(Drop)]
pub struct WordSet {
    words: Vec<u64>,
    bound: u32,
    ghost held: { AreWordsBelow bound words.items },
    ghost small: { bound < 2 ^ 32 },
    ghost rising: { IsRisingBelow bound (numbers_where bound (is_set words.items)) },
}

impl ConceptSet for WordSet {
    ghost items_of = { λ set. numbers_where set.bound (is_set set.words.items) };

    ghost bound_of = { λ set. set.bound };

    ghost rising = { λ set. set.rising };

    #[tactic(auto, using(crate::proofs::Rising::rules_of_rising))]
    fn from_items(alloc: Global, items: &[u32], bound: u32) -> Result<WordSet, AllocError> {
        let words = bitmap_of(alloc, items, bound)?;
        Ok(WordSet { words, bound })
    }

    #[tactic(auto, using(crate::proofs::Rising::rules_of_rising))]
    fn from_numbers(alloc: Global, numbers: &[u32], bound: u32) -> Result<WordSet, AllocError> {
        let words = bitmap_of(alloc, numbers, bound)?;
        Ok(WordSet { words, bound })
    }

    #[tactic(auto, using(crate::proofs::Rising::rules_of_rising))]
    fn from_words(alloc: Global, words: &[u64], bound: u32) -> Result<WordSet, AllocError> {
        let words = Vec::from_slice(alloc, words)?;
        Ok(WordSet { words, bound })
    }

    #[tactic(auto, using(crate::proofs::Rising::rules_of_rising))]
    fn every(alloc: Global, bound: u32) -> Result<WordSet, AllocError> {
        let words = full_bitmap(alloc, bound)?;
        Ok(WordSet { words, bound })
    }

    fn and(&self, alloc: Global, other: &WordSet) -> Result<WordSet, AllocError> {
        let bound = self.bound;
        let words = and_words(alloc, &self.words, &other.words)?;
        Ok(WordSet { words, bound })
    }

    fn or(&self, alloc: Global, other: &WordSet) -> Result<WordSet, AllocError> {
        let bound = self.bound;
        let words = or_words(alloc, &self.words, &other.words)?;
        Ok(WordSet { words, bound })
    }

    fn minus(&self, alloc: Global, other: &WordSet) -> Result<WordSet, AllocError> {
        let bound = self.bound;
        let words = minus_words(alloc, &self.words, &other.words)?;
        Ok(WordSet { words, bound })
    }

    fn others(&self, alloc: Global) -> Result<WordSet, AllocError> {
        let every = WordSet::every(alloc, self.bound)?;
        every.minus(alloc, self)
    }

    fn add_all(&mut self, _alloc: Global, items: &[u32]) -> Result<(), AllocError> {
        mark_all(&mut self.words, items);
        Ok(())
    }

    fn items(&self, alloc: Global) -> Result<Vec<u32>, AllocError> {
        numbers_of(alloc, &self.words, self.bound)
    }

    fn some_items(&self, alloc: Global, skipped: u64, most: u64) -> Result<Vec<u32>, AllocError> {
        some_numbers(alloc, &self.words, self.bound, skipped, most)
    }

    fn for_asking(self, _alloc: Global) -> Result<WordSet, AllocError> {
        Ok(self)
    }

    #[tactic(auto, using(crate::proofs::Rising::rules_of_rising))]
    fn copy(&self, alloc: Global) -> Result<WordSet, AllocError> {
        let bound = self.bound;
        let words = Vec::from_slice(alloc, &self.words)?;
        Ok(WordSet { words, bound })
    }

    fn bound(&self) -> u32 {
        self.bound
    }

    fn has(&self, number: u32) -> bool {
        is_marked(&self.words, number)
    }

    fn count(&self) -> u32 {
        count_marked(&self.words, self.bound)
    }
}

impl WordSet {
    /// Returns the words of the bitmap, in the form that `from_words` takes: the lowest bit of the
    /// first word stands for the number 0.
    pub fn words(&self) -> &[u64]
        ensures below { AreWordsBelow (⟦<WordSet as ConceptSet>⟧.bound_of self.now) result.now }
        ensures items { ⟦<WordSet as ConceptSet>⟧.items_of self.now
            ≡ numbers_where (⟦<WordSet as ConceptSet>⟧.bound_of self.now) (is_set result.now) }
    {
        &self.words
    }

    /// Removes `items`, a strictly rising list of numbers below the bound, from the set.
    pub fn remove_all(&mut self, items: &[u32])
        requires { IsRisingBelow (⟦<WordSet as ConceptSet>⟧.bound_of self.old) items.now }
        ensures items { ⟦<WordSet as ConceptSet>⟧.items_of self.new
            ≡ other_items (⟦<WordSet as ConceptSet>⟧.items_of self.old) items.now }
        ensures bound { ⟦<WordSet as ConceptSet>⟧.bound_of self.new
            ≡ ⟦<WordSet as ConceptSet>⟧.bound_of self.old }
    {
        unmark_all(&mut self.words, items);
    }
}
