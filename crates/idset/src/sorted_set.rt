//! The set as the rising list of its items.
ghost use Rattle.std.specs.Prelude.{◌≡◌, ◌<◌, ◌^◌};
ghost use Rattle.number_lists.specs.Rising.{IsRisingBelow};

use crate::bitmap::numbers_of;
use crate::concept_set::ConceptSet;
use crate::lists::{
    common_of, every_number, has_number, missing_from, others_of, part_of, sorted_of, union_of,
};
use std::alloc::{AllocError, Global};

/// A set as the rising list of its items: four bytes an item, whatever the bound.
#[derive(Drop)]
pub struct SortedSet {
    items: Vec<u32>,
    bound: u32,
    ghost rising: { IsRisingBelow bound items.items },
    ghost small: { bound < 2 ^ 32 },
}

impl ConceptSet for SortedSet {
    ghost items_of = { λ set. set.items.items };

    ghost bound_of = { λ set. set.bound };

    ghost rising = { λ set. set.rising };

    fn from_items(alloc: Global, items: &[u32], bound: u32) -> Result<SortedSet, AllocError> {
        let items = Vec::from_slice(alloc, items)?;
        Ok(SortedSet { items, bound })
    }

    #[tactic(auto, using(crate::proofs::Rising::rules_of_rising))]
    fn and(&self, alloc: Global, other: &SortedSet) -> Result<SortedSet, AllocError> {
        let bound = self.bound;
        if self.items.len() <= other.items.len() {
            let items = common_of(alloc, &self.items, &other.items)?;
            Ok(SortedSet { items, bound })
        } else {
            let items = common_of(alloc, &other.items, &self.items)?;
            Ok(SortedSet { items, bound })
        }
    }

    #[tactic(auto, using(crate::proofs::Rising::rules_of_rising))]
    fn or(&self, alloc: Global, other: &SortedSet) -> Result<SortedSet, AllocError> {
        let bound = self.bound;
        let items = union_of(alloc, &self.items, &other.items, bound)?;
        Ok(SortedSet { items, bound })
    }

    #[tactic(auto, using(crate::proofs::Rising::rules_of_rising))]
    fn minus(&self, alloc: Global, other: &SortedSet) -> Result<SortedSet, AllocError> {
        let bound = self.bound;
        let items = others_of(alloc, &self.items, &other.items)?;
        Ok(SortedSet { items, bound })
    }

    #[tactic(auto, using(crate::proofs::Rising::rules_of_rising))]
    fn others(&self, alloc: Global) -> Result<SortedSet, AllocError> {
        let bound = self.bound;
        let items = missing_from(alloc, &self.items, bound)?;
        Ok(SortedSet { items, bound })
    }

    #[tactic(auto, using(crate::proofs::Rising::rules_of_rising))]
    fn add_all(&mut self, alloc: Global, items: &[u32]) -> Result<(), AllocError> {
        let bound = self.bound;
        let items = union_of(alloc, &self.items, items, bound)?;
        *self = SortedSet { items, bound };
        Ok(())
    }

    #[tactic(auto, using(crate::proofs::Rising::rules_of_rising))]
    fn every(alloc: Global, bound: u32) -> Result<SortedSet, AllocError> {
        let items = every_number(alloc, bound)?;
        Ok(SortedSet { items, bound })
    }

    #[tactic(auto, using(crate::proofs::Rising::rules_of_rising))]
    fn from_numbers(alloc: Global, numbers: &[u32], bound: u32) -> Result<SortedSet, AllocError> {
        let items = sorted_of(alloc, numbers, bound)?;
        Ok(SortedSet { items, bound })
    }

    #[tactic(auto, using(crate::proofs::Rising::rules_of_rising))]
    fn from_words(alloc: Global, words: &[u64], bound: u32) -> Result<SortedSet, AllocError> {
        let items = numbers_of(alloc, words, bound)?;
        Ok(SortedSet { items, bound })
    }

    fn copy(&self, alloc: Global) -> Result<SortedSet, AllocError> {
        let bound = self.bound;
        let items = Vec::from_slice(alloc, &self.items)?;
        Ok(SortedSet { items, bound })
    }

    fn items(&self, alloc: Global) -> Result<Vec<u32>, AllocError> {
        Vec::from_slice(alloc, &self.items)
    }

    fn some_items(&self, alloc: Global, skipped: u64, most: u64) -> Result<Vec<u32>, AllocError> {
        Vec::from_slice(alloc, part_of(&self.items, skipped, most))
    }

    fn for_asking(self, _alloc: Global) -> Result<SortedSet, AllocError> {
        Ok(self)
    }

    fn bound(&self) -> u32 {
        self.bound
    }

    #[tactic(auto, using(crate::proofs::Rising::rules_of_rising))]
    fn has(&self, number: u32) -> bool {
        has_number(&self.items, number)
    }

    #[tactic(auto, using(number_lists::proofs::RisingLemmas::count_fits))]
    fn count(&self) -> u32 {
        self.items.len() as u32
    }
}

impl SortedSet {
    /// Makes the set of `items`, a strictly rising list of numbers below `bound`, without a copy.
    pub fn from_list(items: Vec<u32>, bound: u32) -> SortedSet
        requires { IsRisingBelow bound items.items }
        ensures items { ⟦<SortedSet as ConceptSet>⟧.items_of result ≡ items.items }
        ensures bound { ⟦<SortedSet as ConceptSet>⟧.bound_of result ≡ bound }
    {
        SortedSet { items, bound }
    }

    /// Returns the items, in rising order.
    pub fn list(&self) -> &[u32]
        ensures { result.now ≡ ⟦<SortedSet as ConceptSet>⟧.items_of self.now }
    {
        &self.items
    }
}
