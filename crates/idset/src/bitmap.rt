//! Bitmaps: words of 64 bits with a bit for each number. The lowest bit of the first word stands
//! for the number 0. Makes bitmaps from lists of numbers, and lists from bitmaps.
ghost use Rattle.std.specs.Prelude.{◌≡◌, ◌<◌, ◌≤◌, ◌^◌, ◌+◌, ◌-◌, ◌*◌, ◌++◌, ◌||◌, ◌&&◌, ◌==◌, ◌∷◌, [], ℕ, All, cond, drop, filter, IfOk, length, nat_lt, not, OnOk, take};
ghost use Rattle.std.specs.Bool.{beq};
ghost use Rattle.number_lists.specs.Members.{has};
ghost use Rattle.number_lists.specs.Rising.{numbers_where};
ghost use Rattle.idset.specs.Words.{AreWordsBelow, is_set, MarkedBelow, numbers_in, words_for};

use crate::kernels::{count_up_to, count_words};
use std::alloc::{AllocError, Global};

/// Returns how many words a bitmap of the numbers below `bound` has.
pub fn word_count(bound: u32) -> usize
    ensures { result ≡ words_for bound }
{
    (bound as usize + 63) / 64
}

/// Whether the bit of `number` is set in `words`. A number after the last bit has no bit set.
#[inline]
pub fn is_marked(words: &[u64], number: u32) -> bool
    ensures { result ≡ is_set words.now number }
{
    let place = (number / 64) as usize;
    place < words.len() && (words[place] >> (number % 64)) & 1 == 1
}

/// Sets the bit of `number` in `words`, which must have a bit for it.
#[inline]
pub fn mark(words: &mut [u64], number: u32)
    requires { number < 64 * length words.old }
    ensures { (other : ℕ) → is_set words.new other ≡ (is_set words.old other || (number == other)) }
{
    let place = (number / 64) as usize;
    words[place] |= 1u64 << (number % 64);
}

/// Sets the bits of `numbers` in `words`, which must have a bit for each. The numbers come in any
/// order.
pub fn mark_all(words: &mut [u64], numbers: &[u32])
    requires { All (λ number. number < 64 * length words.old) numbers.now }
    ensures { (number : ℕ) → is_set words.new number
        ≡ (is_set words.old number || has numbers.now number) }
{
    for number in numbers {
        mark(words, *number);
    }
}

/// Clears the bits of `numbers` in `words`, which must have a bit for each. The numbers come in any
/// order.
pub fn unmark_all(words: &mut [u64], numbers: &[u32])
    requires { All (λ number. number < 64 * length words.old) numbers.now }
    ensures { (number : ℕ) → is_set words.new number
        ≡ (is_set words.old number && not (has numbers.now number)) }
{
    for number in numbers {
        let place = (*number / 64) as usize;
        words[place] &= !(1u64 << (*number % 64));
    }
}

/// Returns those of `numbers` whose bit in `words` is set, or, if `wanted` is false, those whose
/// bit is not set. Keeps their order.
pub fn marked_among(
    alloc: Global,
    numbers: &[u32],
    words: &[u64],
    wanted: bool,
) -> Result<Vec<u32>, AllocError>
    ensures { IfOk result (λ kept. kept.items
        ≡ filter (λ number. beq (is_set words.now number) wanted) numbers.now) }
{
    let mut kept = Vec::with_capacity(alloc, numbers.len())?;
    for number in numbers {
        let passes = is_marked(words, *number) == wanted;
        push_if(&mut kept, passes, *number)?;
    }
    Ok(kept)
}

/// Makes the bitmap of `numbers`, which are all below `bound`: their bits are set, and no others.
pub fn bitmap_of(alloc: Global, numbers: &[u32], bound: u32) -> Result<Vec<u64>, AllocError>
    requires { All (λ number. number < bound) numbers.now }
    ensures { IfOk result (λ words. MarkedBelow bound words.items (has numbers.now)) }
{
    let mut words = vec![in alloc; 0u64; word_count(bound)]?;
    mark_all(&mut words, numbers);
    Ok(words)
}

/// Makes the bitmap of all numbers below `bound`.
pub fn full_bitmap(alloc: Global, bound: u32) -> Result<Vec<u64>, AllocError>
    ensures { IfOk result (λ words. MarkedBelow bound words.items (λ number. nat_lt number bound)) }
{
    let mut words = vec![in alloc; u64::MAX; word_count(bound)]?;
    if bound % 64 != 0 {
        words[(bound / 64) as usize] = (1 << (bound % 64)) - 1;
    }
    Ok(words)
}

/// Counts the bits that are set in `words`, a bitmap of numbers below `bound`.
pub fn count_marked(words: &[u64], bound: u32) -> u32
    requires { AreWordsBelow bound words.now }
    ensures { result ≡ length (numbers_where bound (is_set words.now)) }
{
    count_words(words) as u32
}

/// Makes the rising list of the numbers whose bit is set in `words`, a bitmap of numbers below
/// `bound`.
pub fn numbers_of(alloc: Global, words: &[u64], bound: u32) -> Result<Vec<u32>, AllocError>
    requires { AreWordsBelow bound words.now }
    ensures { IfOk result (λ numbers. numbers.items ≡ numbers_where bound (is_set words.now)) }
{
    let mut numbers = Vec::with_capacity(alloc, count_marked(words, bound) as usize)?;
    for place in 0..words.len() {
        push_bits(&mut numbers, words[place], 64 * place as u32)?;
    }
    Ok(numbers)
}

/// Makes a page of the rising list of the numbers whose bit is set in `words`, a bitmap of numbers
/// below `bound`: without the first `skipped`, and at most `most` of them. It reads no word after
/// those of these numbers.
pub fn some_numbers(
    alloc: Global,
    words: &[u64],
    bound: u32,
    skipped: u64,
    most: u64,
) -> Result<Vec<u32>, AllocError>
    requires { AreWordsBelow bound words.now }
    ensures { IfOk result (λ numbers. numbers.items
        ≡ take most (drop skipped (numbers_where bound (is_set words.now)))) }
{
    let room = count_up_to(words, skipped.saturating_add(most)).saturating_sub(skipped);
    let mut numbers = Vec::with_capacity(alloc, room as usize)?;
    let mut left = skipped;
    for place in 0..words.len() {
        if numbers.len() as u64 >= most {
            return Ok(numbers);
        }
        left = push_some_bits(&mut numbers, words[place], 64 * place as u32, left, most)?;
    }
    Ok(numbers)
}

// Pushes to `numbers` those whose bit is set in `word`, without the first `skipped` of them, until
// `numbers` has `most`. The lowest bit of `word` stands for the number `first`. Returns how many
// are left to skip in later words. If it skips all numbers of `word`, it counts the bits and does
// not list them.
#[inline]
fn push_some_bits(
    numbers: &mut Vec<u32>,
    word: u64,
    first: u32,
    skipped: u64,
    most: u64,
) -> Result<u64, AllocError>
    requires fits { first + 64 ≤ 2 ^ 32 }
    requires most { length numbers.old.items ≤ most }
    ensures items { OnOk result (numbers.new.items
        ≡ take most (numbers.old.items ++ drop skipped (numbers_in first word))) }
    ensures left { IfOk result (λ left. left ≡ skipped - length (numbers_in first word)) }
{
    let count = u64::from(word.count_ones());
    if count <= skipped {
        return Ok(skipped - count);
    }
    push_bits_up_to(numbers, without_lowest(word, skipped), first, most)?;
    Ok(0)
}

// Returns `word` with the lowest `count` of its set bits cleared.
#[inline]
fn without_lowest(word: u64, count: u64) -> u64
    ensures { (first : ℕ) → numbers_in first result ≡ drop count (numbers_in first word) }
{
    let mut left = word;
    for _ in 0..count {
        if left == 0 {
            return 0;
        }
        left &= left - 1;
    }
    left
}

// Pushes to `numbers` those whose bit is set in `word`, the lowest first, until `numbers` has
// `most`. The lowest bit of `word` stands for the number `first`.
#[inline]
fn push_bits_up_to(
    numbers: &mut Vec<u32>,
    word: u64,
    first: u32,
    most: u64,
) -> Result<(), AllocError>
    requires fits { first + 64 ≤ 2 ^ 32 }
    requires most { length numbers.old.items ≤ most }
    ensures { OnOk result (numbers.new.items
        ≡ take most (numbers.old.items ++ numbers_in first word)) }
{
    let mut left = word;
    while left != 0 && (numbers.len() as u64) < most {
        numbers.push(first + left.trailing_zeros())?;
        left &= left - 1;
    }
    Ok(())
}

// Pushes to `numbers` those whose bit is set in `word`, the lowest first. The lowest bit of `word`
// stands for the number `first`.
#[inline]
fn push_bits(numbers: &mut Vec<u32>, word: u64, first: u32) -> Result<(), AllocError>
    requires { first + 64 ≤ 2 ^ 32 }
    ensures { OnOk result (numbers.new.items ≡ numbers.old.items ++ numbers_in first word) }
{
    let mut left = word;
    while left != 0 {
        numbers.push(first + left.trailing_zeros())?;
        left &= left - 1;
    }
    Ok(())
}

/// Pushes `item` to `items` if `test` is true.
#[inline]
pub fn push_if(items: &mut Vec<u32>, test: bool, item: u32) -> Result<(), AllocError>
    ensures { OnOk result (items.new.items ≡ items.old.items ++ cond test (item ∷ []) []) }
{
    if test {
        items.push(item)?;
    }
    Ok(())
}
