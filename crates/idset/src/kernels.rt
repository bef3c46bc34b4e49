//! Operations on bitmaps, with SIMD vectors of several words of 64 bits.
ghost use Rattle.std.specs.Prelude.{◌≡◌, ◌≤◌, ◌^◌, ◌/◌, ◌*◌, ℕ, List, IfOk, length, drop, min, take, sum_by, bit_and, bit_or, count_ones};
ghost use Rattle.std.specs.Simd.Lanes.{zip2};
ghost use Rattle.idset.specs.Words.{bit_minus};

use std::alloc::{AllocError, Global};
use std::simd::prelude::*;

// How many words a vector for combining two bitmaps holds.
const LANES: usize = 4;

// How many words a vector for counting bits holds. It is wider than `LANES`, because its sum is
// taken only once.
const COUNTED: usize = 16;

/// An operation that makes one word of two.
trait WordOperation {
    /// The word that the operation makes of the words `one` and `other`.
    ghost of: { ℕ → ℕ → ℕ };

    /// Applies the operation to two words.
    fn word(one: u64, other: u64) -> u64
        ensures { result ≡ of one other };

    /// Applies the operation to two vectors, word by word.
    fn lanes(one: u64x4, other: u64x4) -> u64x4
        ensures { result ≡ zip2 of one other };
}

struct And;

impl WordOperation for And {
    ghost of = { bit_and };

    #[inline]
    fn word(one: u64, other: u64) -> u64 {
        one & other
    }

    #[inline]
    fn lanes(one: u64x4, other: u64x4) -> u64x4 {
        one & other
    }
}

struct Or;

impl WordOperation for Or {
    ghost of = { bit_or };

    #[inline]
    fn word(one: u64, other: u64) -> u64 {
        one | other
    }

    #[inline]
    fn lanes(one: u64x4, other: u64x4) -> u64x4 {
        one | other
    }
}

struct Minus;

impl WordOperation for Minus {
    ghost of = { bit_minus };

    #[inline]
    fn word(one: u64, other: u64) -> u64 {
        one & (one ^ other)
    }

    #[inline]
    fn lanes(one: u64x4, other: u64x4) -> u64x4 {
        one & (one ^ other)
    }
}

/// Intersects two bitmaps with equally many words: makes the bitmap of the bits that are set in
/// both.
pub fn and_words(alloc: Global, words: &[u64], others: &[u64]) -> Result<Vec<u64>, AllocError>
    requires { length others.now ≡ length words.now }
    ensures { IfOk result (λ made. made.items ≡ zip2 bit_and words.now others.now) }
{
    let made = combined::<And>(alloc, words, others)?;
    Ok(made)
}

/// Unites two bitmaps with equally many words: makes the bitmap of the bits that are set in one of
/// them, or in both.
pub fn or_words(alloc: Global, words: &[u64], others: &[u64]) -> Result<Vec<u64>, AllocError>
    requires { length others.now ≡ length words.now }
    ensures { IfOk result (λ made. made.items ≡ zip2 bit_or words.now others.now) }
{
    let made = combined::<Or>(alloc, words, others)?;
    Ok(made)
}

/// Subtracts two bitmaps with equally many words: makes the bitmap of the bits that are set in
/// `words` and not in `others`.
pub fn minus_words(alloc: Global, words: &[u64], others: &[u64]) -> Result<Vec<u64>, AllocError>
    requires { length others.now ≡ length words.now }
    ensures { IfOk result (λ made. made.items ≡ zip2 bit_minus words.now others.now) }
{
    let made = combined::<Minus>(alloc, words, others)?;
    Ok(made)
}

// Applies the operation `O` to each word of `words` and the word at the same place of `others`,
// into a new vector.
#[inline]
fn combined<O: WordOperation>(
    alloc: Global,
    words: &[u64],
    others: &[u64],
) -> Result<Vec<u64>, AllocError>
    requires { length others.now ≡ length words.now }
    ensures { IfOk result (λ made. made.items ≡ zip2 O.of words.now others.now) }
{
    let mut made = vec![in alloc; 0u64; words.len()]?;
    combine::<O>(words, others, &mut made);
    Ok(made)
}

// Applies the operation `O` to each word of `words` and the word at the same place of `others`,
// into `out`. All three have equally many words.
#[inline]
fn combine<O: WordOperation>(words: &[u64], others: &[u64], out: &mut [u64])
    requires others { length others.now ≡ length words.now }
    requires out { length out.old ≡ length words.now }
    ensures { out.new ≡ zip2 O.of words.now others.now }
{
    let place = combine_vectors::<O>(words, others, out);
    combine_rest::<O>(words, others, out, place);
}

// Combines all whole vectors; returns the number of words done.
#[inline]
fn combine_vectors<O: WordOperation>(words: &[u64], others: &[u64], out: &mut [u64]) -> usize
    requires others { length others.now ≡ length words.now }
    requires out { length out.old ≡ length words.now }
    ensures within { result ≤ length words.now }
    ensures done { take result out.new ≡ zip2 O.of (take result words.now)
        (take result others.now) }
{
    let mut place = 0;
    while words.len() - place >= LANES {
        let one = u64x4::from_slice(&words[place..]);
        let other = u64x4::from_slice(&others[place..]);
        O::lanes(one, other).copy_to_slice(&mut out[place..]);
        place += LANES;
    }
    place
}

// Combines the words from `from` on, one by one.
#[inline]
fn combine_rest<O: WordOperation>(words: &[u64], others: &[u64], out: &mut [u64], from: usize)
    requires others { length others.now ≡ length words.now }
    requires out { length out.old ≡ length words.now }
    requires within { from ≤ length words.now }
    requires done { take from out.old ≡ zip2 O.of (take from words.now) (take from others.now) }
    ensures { out.new ≡ zip2 O.of words.now others.now }
{
    for place in from..words.len() {
        out[place] = O::word(words[place], others[place]);
    }
}

/// Counts the bits that are set in `words`, a bitmap of at most 2^26 words.
pub fn count_words(words: &[u64]) -> u64
    requires { length words.now ≤ 2 ^ 26 }
    ensures { result ≡ sum_by count_ones words.now }
{
    let whole = words.len() / COUNTED * COUNTED;
    count_vectors(words) + count_rest(words, whole)
}

// Counts the bits that are set in all whole vectors.
#[inline]
fn count_vectors(words: &[u64]) -> u64
    requires { length words.now ≤ 2 ^ 26 }
    ensures { result ≡ sum_by count_ones (take (length words.now / 16 * 16) words.now) }
{
    let mut count = 0;
    for block in 0..words.len() / COUNTED {
        count += count_vector(u64x16::from_slice(&words[block * COUNTED..]));
    }
    count
}

// Counts the bits that are set in one vector.
#[inline]
fn count_vector(words: u64x16) -> u64
    requires { length words ≡ 16 }
    ensures { result ≡ sum_by count_ones words }
{
    words.count_ones().reduce_sum()
}

// Counts the bits that are set in the words from `from` on.
#[inline]
fn count_rest(words: &[u64], from: usize) -> u64
    requires short { length words.now ≤ 2 ^ 26 }
    requires within { from ≤ length words.now }
    ensures { result ≡ sum_by count_ones (drop from words.now) }
{
    let mut count = 0;
    for place in from..words.len() {
        count += u64::from(words[place].count_ones());
    }
    count
}

/// Counts the bits that are set in `words`, a bitmap of at most 2^26 words, but returns `most` if
/// there are more. It does not read further once it has counted `most`.
pub fn count_up_to(words: &[u64], most: u64) -> u64
    requires { length words.now ≤ 2 ^ 26 }
    ensures { result ≡ min most (sum_by count_ones words.now) }
{
    let mut count = 0;
    for word in words {
        if count >= most {
            return most;
        }
        count += u64::from(word.count_ones());
    }
    count.min(most)
}
