//! The concepts in force, and the lookup of a concept's number by its identifier.
ghost use Rattle.std.specs.Prelude.{ℕ, ◌≡◌, ◌≤◌, ◌<◌, ◌+◌, ◌^◌, true, false, IfOk, IfSome, length, slice_index};
ghost use Rattle.std.specs.List.Sorted.{IsStrictlyIncreasing};
ghost use Rattle.held_release.specs.inside.Blocks.{AreBlockWords, IsBlockStart, IsCountedBlock, block_of, start_in};
ghost use Rattle.held_release.specs.Numbering.{concept_number};

use row_lists::KnownConcepts;
use sctid::SctId;
use std::alloc::{AllocError, Global};
use std::marker::Model;

// How many successive identifiers make a block. The last three digits of a concept's identifier in
// the short form follow from those before them, so a block has one such concept at most.
const BLOCK_IDS: u64 = 1000;

// How many blocks a word counts.
const WORD_BLOCKS: u64 = 64;

// How many words there are at most. Identifiers of extensions have at least 11 digits and so are
// after the last block.
const MOST_WORDS: usize = 65_536;

/// Which of 64 successive blocks of identifiers have a concept, and how many concepts are before
/// them.
#[derive(Clone, Copy)]
struct BlockWord {
    // a bit for each block, the first block's the lowest: 1 if the block has a concept
    bits: u64,
    // how many concepts are in the blocks before the first of these
    before: u32,
}

/// The concepts in force: fewer than 2^31. The number of a concept is its index, from 0, in the
/// rising list of the identifiers. Contracts name this type as that list.
#[derive(Drop)]
pub struct Concepts {
    // the identifiers in rising order
    ids: Vec<SctId>,
    // the words of the first blocks, none of which has two concepts
    words: Vec<BlockWord>,
    // how many identifiers are in these blocks
    counted: usize,
}

impl Model for Concepts {
    ghost use Rattle.std.specs.Prelude.{ℕ, List};

    ghost Value = { List ℕ };

    ghost use Rattle.held_release.specs.inside.ConceptsInside.{AreInBlocks, ids_in};

    ghost view = { ids_in };

    ghost invariant = { AreInBlocks };
}

impl Concepts {
    /// Creates the list of the concepts with the identifiers `ids`, which must rise strictly, and
    /// the words for the lookup.
    pub fn new(alloc: Global, ids: Vec<SctId>) -> Result<Concepts, AllocError>
        requires rising { IsStrictlyIncreasing ids.items }
        requires few { length ids.items < 2 ^ 31 }
        ensures { IfOk result (λ concepts. concepts ≡ ids.items) }
    {
        let (words, counted) = block_words(alloc, ids.as_slice())?;
        Ok(Concepts {
            ids,
            words,
            counted,
        })
    }

    /// Returns the number of concepts.
    pub fn len(&self) -> u32
        ensures count { result ≡ length self.now }
        ensures few { length self.now < 2 ^ 31 }
        ensures rising { IsStrictlyIncreasing self.now }
    {
        self.ids.len() as u32
    }

    /// Returns the identifier of the concept with the number `number`.
    pub fn id_at(&self, number: u32) -> SctId
        requires { number < length self.now }
        ensures { result ≡ slice_index self.now number }
    {
        self.ids[number as usize]
    }

    /// Returns the identifiers of all concepts, in rising order.
    pub fn ids(&self) -> &[SctId]
        ensures { result.now ≡ self.now }
    {
        self.ids.as_slice()
    }

    /// Returns the number of the concept with the identifier `id`, or `None` if it is not in force.
    pub fn index_of(&self, id: u64) -> Option<u32>
        ensures { result ≡ concept_number self.now id }
    {
        let ids = self.ids.as_slice();
        let block = block_of(id);
        match self.words.as_slice().get((block / WORD_BLOCKS) as usize) {
            Some(word) => {
                let from = word.start_of(block % WORD_BLOCKS);
                number_between(ids, from, ids.len().min(from + 1), id)
            }
            None => number_between(ids, self.counted, ids.len(), id),
        }
    }
}

impl KnownConcepts for Concepts {
    ghost use Rattle.number_lists.specs.Members.{has};

    ghost knows = { has };

    fn has(&self, id: u64) -> bool {
        self.index_of(id).is_some()
    }
}

// Returns the block of the identifier `id`.
#[inline]
#[tactic(auto, unfolding(crate::specs::inside::Blocks::block_of))]
fn block_of(id: u64) -> u64
    ensures { result ≡ block_of id }
{
    id / BLOCK_IDS
}

impl BlockWord {
    // Returns how many concepts are in the blocks before the one with the bit `bit`.
    #[inline]
    fn start_of(self, bit: u64) -> usize
        requires { bit < 64 }
        ensures { result ≡ start_in self bit }
    {
        self.before as usize + (self.bits % (1 << bit)).count_ones() as usize
    }
}

// Returns the words of the first blocks of the rising `ids`, and how many identifiers are in these
// blocks. The words end with the identifiers, with the greatest number of words, or before a word
// that has a block with two identifiers.
fn block_words(alloc: Global, ids: &[SctId]) -> Result<(Vec<BlockWord>, usize), AllocError>
    requires rising { IsStrictlyIncreasing ids.now }
    requires few { length ids.now < 2 ^ 31 }
    ensures { IfOk result (λ made. AreBlockWords ids.now made.0.items made.1) }
{
    let mut words = Vec::new(alloc);
    let mut counted = 0;
    while words.len() < MOST_WORDS && counted < ids.len() {
        let Some((word, next)) = block_word(ids, counted, words.len() as u64 * WORD_BLOCKS) else {
            return Ok((words, counted));
        };
        words.push(word)?;
        counted = next;
    }
    Ok((words, counted))
}

// Returns the word of the 64 blocks from the block `first` on, and how many identifiers are in the
// blocks up to its last. `start` identifiers are in the blocks before `first`. Returns `None` if
// one of its blocks has two identifiers.
fn block_word(ids: &[SctId], start: usize, first: u64) -> Option<(BlockWord, usize)>
    requires rising { IsStrictlyIncreasing ids.now }
    requires few { length ids.now < 2 ^ 31 }
    requires start { IsBlockStart ids.now first start }
    requires first { first < 2 ^ 63 }
    ensures word { IfSome result (λ made. (bit : ℕ) → bit < 64
        → IsCountedBlock ids.now (first + bit) (start_in made.0 bit)) }
    ensures next { IfSome result (λ made. IsBlockStart ids.now (first + 64) made.1) }
{
    let mut bits = 0u64;
    let mut place = start;
    while is_before(ids, place, first + WORD_BLOCKS) {
        let block = block_of(ids[place].number());
        place += 1;
        if is_before(ids, place, block + 1) {
            return None;
        }
        bits += 1 << (block - first);
    }
    let before = start as u32;
    Some((BlockWord { bits, before }, place))
}

// Whether there is an identifier at the index `place` of `ids`, and it is in a block before `block`.
#[inline]
fn is_before(ids: &[SctId], place: usize, block: u64) -> bool
    ensures before { result ≡ true → (place < length ids.now)
        × (block_of (slice_index ids.now place) < block) }
    ensures later { result ≡ false → place < length ids.now
        → block ≤ block_of (slice_index ids.now place) }
{
    place < ids.len() && block_of(ids[place].number()) < block
}

// Finds the number of the concept with the identifier `id` by binary search. The identifiers before
// the index `from` are less than `id`, and those from `to` on are greater.
fn number_between(ids: &[SctId], from: usize, to: usize, id: u64) -> Option<u32>
    requires rising { IsStrictlyIncreasing ids.now }
    requires few { length ids.now < 2 ^ 31 }
    requires within { (from ≤ to) × (to ≤ length ids.now) }
    requires above { (place : ℕ) → place < from → slice_index ids.now place < id }
    requires below { (place : ℕ) → to ≤ place → place < length ids.now
        → id < slice_index ids.now place }
    ensures { result ≡ concept_number ids.now id }
{
    let mut low = from;
    let mut high = to;
    while low < high {
        let middle = low + (high - low) / 2;
        let found = ids[middle].number();
        if found == id {
            return Some(middle as u32);
        }
        if found < id {
            low = middle + 1;
        } else {
            high = middle;
        }
    }
    None
}
