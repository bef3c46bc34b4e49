//! Finds the keys that occur in a list more than once, in little memory.
ghost use Rattle.std.specs.Prelude.{◌≡◌, ◌==◌, ◌≤◌, ◌+◌, ◌-◌, ◌↔◌, ℕ, Contains, IfOk, count_by, filter, length, nat_lt, not};
ghost use Rattle.std.specs.Bool.{OnTrue};
ghost use Rattle.std.specs.List.Sorted.{IsStrictlyIncreasing};
ghost use Rattle.number_lists.specs.Members.{has};
ghost use Rattle.release_rows.specs.inside.Repeated.{equal_neighbours};

use crate::keys::RELATIONSHIPS;
use crate::rising_keys::RisingKeys;
use std::alloc::{AllocError, Global};

// A key is late if it is not above all keys before it. If more than one key in this many is late,
// all keys are sorted.
const KEYS_FOR_ONE_AFTER: usize = 4;

/// Returns the keys that occur at least twice in `keys`, each once and in rising order. Allocates
/// nothing if `keys` rise, since then no key occurs twice, and little if most keys are above all
/// before them.
pub fn repeated_keys(alloc: Global, keys: &[u64]) -> Result<Vec<u64>, AllocError>
    ensures rising { IfOk result (λ repeated. IsStrictlyIncreasing repeated.items) }
    ensures members { IfOk result (λ repeated. (key : ℕ)
        → Contains repeated.items key ↔ (2 ≤ count_by (λ other. other == key) keys.now)) }
    ensures few { IfOk result (λ repeated. length repeated.items ≤ length keys.now) }
{
    if rises(keys) {
        return Ok(Vec::new(alloc));
    }
    let mut repeated = again_keys(alloc, keys)?;
    // an unstable sort needs no buffer
    repeated.sort_unstable();
    repeated.dedup();
    Ok(repeated)
}

// Returns the keys that occur at least twice in `keys`, in any order, each one or more times. If
// many keys are late, sorts the keys of relationships apart from the others, so that it never
// copies all keys at once.
fn again_keys(alloc: Global, keys: &[u64]) -> Result<Vec<u64>, AllocError>
    ensures members { IfOk result (λ again. (key : ℕ)
        → (1 ≤ count_by (λ other. other == key) again.items) ↔
        (2 ≤ count_by (λ other. other == key) keys.now)) }
    ensures few { IfOk result (λ again. length again.items ≤ length keys.now) }
{
    if few_are_after(keys) {
        let doubtful = doubtful_keys(alloc, keys)?;
        let again = sorted_neighbours(alloc, doubtful)?;
        return Ok(again);
    }
    let below = keys_below(alloc, keys, RELATIONSHIPS)?;
    let mut again = sorted_neighbours(alloc, below)?;
    let others = keys_from(alloc, keys, RELATIONSHIPS)?;
    let others = sorted_neighbours(alloc, others)?;
    again.extend_from_slice(others.as_slice())?;
    Ok(again)
}

// Returns each key of `keys` one time less than it occurs there.
fn sorted_neighbours(alloc: Global, mut keys: Vec<u64>) -> Result<Vec<u64>, AllocError>
    ensures times { IfOk result (λ again. (key : ℕ) → count_by (λ other. other == key) again.items
        ≡ count_by (λ other. other == key) keys.items - 1) }
    ensures few { IfOk result (λ again. length again.items ≤ length keys.items) }
{
    keys.sort_unstable();
    let again = equal_neighbours(alloc, keys.as_slice())?;
    Ok(again)
}

// Returns the keys of `keys` below `bound`, in their order.
fn keys_below(alloc: Global, keys: &[u64], bound: u64) -> Result<Vec<u64>, AllocError>
    ensures { IfOk result (λ below. below.items ≡ filter (λ key. nat_lt key bound) keys.now) }
{
    let mut below = Vec::new(alloc);
    for key in keys {
        if *key < bound {
            below.push(*key)?;
        }
    }
    Ok(below)
}

// Returns the keys of `keys` at or above `bound`, in their order.
fn keys_from(alloc: Global, keys: &[u64], bound: u64) -> Result<Vec<u64>, AllocError>
    ensures { IfOk result (λ others. others.items
        ≡ filter (λ key. not (nat_lt key bound)) keys.now) }
{
    let mut others = Vec::new(alloc);
    for key in keys {
        if bound <= *key {
            others.push(*key)?;
        }
    }
    Ok(others)
}

// Whether each key is below the next one.
fn rises(keys: &[u64]) -> bool
    ensures { OnTrue result (IsStrictlyIncreasing keys.now) }
{
    keys.is_sorted_by(|one, other| *one < *other)
}

// Returns all keys of `keys` that equal a late one. A key occurs twice among these exactly if it
// occurs twice in `keys`.
fn doubtful_keys(alloc: Global, keys: &[u64]) -> Result<Vec<u64>, AllocError>
    ensures twice { IfOk result (λ doubtful. (key : ℕ)
        → (2 ≤ count_by (λ other. other == key) doubtful.items) ↔
        (2 ≤ count_by (λ other. other == key) keys.now)) }
    ensures few { IfOk result (λ doubtful. length doubtful.items ≤ length keys.now) }
{
    let mut following = keys_after(alloc, keys)?;
    following.sort_unstable();
    following.dedup();
    let doubtful = keys_among(alloc, keys, RisingKeys::new(following))?;
    Ok(doubtful)
}

// Whether at most one key in `KEYS_FOR_ONE_AFTER` is late.
fn few_are_after(keys: &[u64]) -> bool {
    let mut left = keys.len() / KEYS_FOR_ONE_AFTER;
    let mut highest = 0;
    for key in keys {
        if highest < *key {
            highest = *key;
        } else if left == 0 {
            return false;
        } else {
            left -= 1;
        }
    }
    true
}

// Returns the late keys: those not above all keys before them. Of equal keys all but the first are
// late, since no key is above itself.
fn keys_after(alloc: Global, keys: &[u64]) -> Result<Vec<u64>, AllocError>
    ensures { IfOk result (λ following. (key : ℕ) → count_by (λ other. other == key) keys.now
        ≤ 1 + count_by (λ other. other == key) following.items) }
{
    let mut following = Vec::new(alloc);
    let mut highest = 0;
    for key in keys {
        if *key <= highest {
            following.push(*key)?;
        } else {
            highest = *key;
        }
    }
    Ok(following)
}

// Returns the keys of `keys` that are in `others`, in their order.
fn keys_among(alloc: Global, keys: &[u64], mut others: RisingKeys) -> Result<Vec<u64>, AllocError>
    ensures { IfOk result (λ among. among.items ≡ filter (has others) keys.now) }
{
    let mut among = Vec::new(alloc);
    for key in keys {
        if others.has(*key) {
            among.push(*key)?;
        }
    }
    Ok(among)
}

// Returns each key of `sorted` that equals the key before it.
#[tactic(auto, using(crate::proofs::NeighbourLemmas::neighbours_by_one))]
fn equal_neighbours(alloc: Global, sorted: &[u64]) -> Result<Vec<u64>, AllocError>
    ensures { IfOk result (λ repeated. repeated.items ≡ equal_neighbours sorted.now) }
{
    let mut repeated = Vec::new(alloc);
    for place in 1..sorted.len() {
        if sorted[place - 1] == sorted[place] {
            repeated.push(sorted[place])?;
        }
    }
    Ok(repeated)
}
