//! Bitmaps of the long lists, those of more than a 32nd of all concepts, in words of 64 bits. A set
//! is made from the words without reading the list.
ghost use Rattle.std.specs.Prelude.{ℕ, ◌≡◌, ◌↔◌, ◌<◌, ◌++◌, ◌∷◌, ◌^◌, [], List, All, IfOk, IfSome, IsSome, IsTrue, OnOk, length};
ghost use Rattle.number_lists.specs.Members.{has};
ghost use Rattle.idset.specs.Words.{MarkedBelow};
ghost use Rattle.number_lists.specs.KeyedLists.{AreItemsBelow, list_of};
ghost use Rattle.ancestor_index.specs.Wide.{AreWide, IsKept, IsWide};

use idset::{bitmap_of, word_count};
use number_lists::KeyedLists;
use std::alloc::{AllocError, Global};

/// The bitmaps of the lists of more than a 32nd of all concepts.
#[derive(Drop)]
pub struct WideLists {
    // the words of the bitmaps, one after another
    words: Vec<u64>,
    // for each concept where its bitmap ends in `words`, or 0 if its list is short
    ends: Vec<usize>,
}

/// Makes the bitmaps of the long lists among `lists`. `count` is the number of concepts, and all
/// items are below it.
pub fn wide_lists(alloc: Global, lists: &KeyedLists, count: u32) -> Result<WideLists, AllocError>
    requires items { AreItemsBelow count lists.now }
    requires few { length lists.now < 2 ^ 32 }
    ensures { IfOk result (λ wide. AreWide count lists.now wide.ends.items wide.words.items) }
{
    let mut wide = WideLists::with_capacity(alloc, lists.len() as usize)?;
    for concept in 0..lists.len() {
        wide.push(alloc, lists.of(concept), count)?;
    }
    Ok(wide)
}

// Adds the bitmap of `list` to `words` if the list is long, and returns where it ends. Returns 0
// for a short list.
fn put_words(
    alloc: Global,
    list: &[u32],
    count: u32,
    words: &mut Vec<u64>,
) -> Result<usize, AllocError>
    requires { All (λ item. item < count) list.now }
    ensures grown { (added : List ℕ) × (words.new.items ≡ words.old.items ++ added) }
    ensures kept { IfOk result (λ end. IsKept count list.now words.new.items end) }
{
    if !is_wide(list, count) {
        return Ok(0);
    }
    let bitmap = bitmap_of(alloc, list, count)?;
    words.extend_from_slice(bitmap.as_slice())?;
    Ok(words.len())
}

// Whether `list` is long: it has more than a 32nd of all numbers below `count`.
fn is_wide(list: &[u32], count: u32) -> bool
    ensures { IsTrue result ↔ IsWide count list.now }
{
    list.len() > (count / 32) as usize
}

impl WideLists {
    /// Makes a `WideLists` without a list, with memory reserved for the ends of `lists` lists.
    pub fn with_capacity(alloc: Global, lists: usize) -> Result<WideLists, AllocError>
        ensures { IfOk result (λ wide. (count : ℕ)
            → AreWide count [] wide.ends.items wide.words.items) }
    {
        let ends = Vec::with_capacity(alloc, lists)?;
        Ok(WideLists {
            words: Vec::new(alloc),
            ends,
        })
    }

    /// Adds `list` as the list of the next concept, and keeps its bitmap if it is long. All numbers
    /// of `list` are below `count`, the number of concepts.
    pub fn push(&mut self, alloc: Global, list: &[u32], count: u32) -> Result<(), AllocError>
        requires { All (λ item. item < count) list.now }
        ensures { OnOk result ((lists : List (List ℕ))
            → AreWide count lists self.old.ends.items self.old.words.items
            → AreWide count (lists ++ list.now ∷ []) self.new.ends.items self.new.words.items) }
    {
        let end = put_words(alloc, list, count, &mut self.words)?;
        self.ends.push(end)?;
        Ok(())
    }

    /// Returns the bitmap of the list of `concept`, or `None` if the list is short. `count` is the
    /// number of concepts, as it was for `push`.
    pub fn of(&self, concept: u32, count: u32) -> Option<&[u64]>
        requires { (lists : List (List ℕ))
            × AreWide count lists self.now.ends.items self.now.words.items
            × (concept < length lists) }
        ensures some { IfSome result (λ words. (lists : List (List ℕ))
            → AreWide count lists self.now.ends.items self.now.words.items
            → MarkedBelow count words.now (has (list_of lists concept))) }
        ensures wide { (lists : List (List ℕ))
            → AreWide count lists self.now.ends.items self.now.words.items
            → (IsSome result ↔ IsWide count (list_of lists concept)) }
    {
        words_before(self.words.as_slice(), self.ends[concept as usize], count)
    }
}

// Returns the bitmap that ends at `end` in `words`, or `None` if `end` is 0.
fn words_before(words: &[u64], end: usize, count: u32) -> Option<&[u64]>
    requires { (list : List ℕ) × IsKept count list words.now end }
    ensures some { IfSome result (λ found. (list : List ℕ) → IsKept count list words.now end
        → MarkedBelow count found.now (has list)) }
    ensures wide { (list : List ℕ) → IsKept count list words.now end
        → (IsSome result ↔ IsWide count list) }
{
    if end == 0 {
        return None;
    }
    Some(&words[end - word_count(count)..end])
}
