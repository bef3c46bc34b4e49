//! A list of distinct keys in the order in which they first occurred. It is cleared and filled once
//! for each source, and most sources have few keys.
ghost use Rattle.std.specs.Prelude.{◌≡◌, ◌<◌, ◌^◌, IfOk, OnOk, [], length, nat_eq, not};
ghost use Rattle.std.specs.List.{list_any, position_or_len};
ghost use Rattle.key_interner.specs.KeyInterner.{keys_after};

use key_interner::{KeyInterner, Seed};
use std::alloc::{AllocError, Global};
use std::marker::Model;

// Up to this many keys are compared one by one, which is faster than hashing.
const FEW: usize = 16;

/// Distinct keys in the order in which they first occurred. Contracts see the list of them. The
/// first `FEW` keys keep their memory when the keys are cleared.
#[derive(Drop)]
pub struct FirstKeys {
    // the first keys, at most `FEW`
    few: Vec<u128>,
    // the keys after the first `FEW`, hashed
    others: KeyInterner,
    // the seed with which `others` is hashed
    seed: Seed,
}

impl Model for FirstKeys {
    ghost use Rattle.std.specs.Prelude.{List, ℕ};

    ghost Value = { List ℕ };

    ghost use Rattle.postings.specs.inside.FirstKeysInside.{ComeFirst, keys_in};

    ghost view = { keys_in };

    ghost invariant = { ComeFirst };
}

impl FirstKeys {
    /// Creates an empty list, which hashes its keys with `seed`.
    pub fn new(alloc: Global, seed: Seed) -> FirstKeys
        ensures { result ≡ [] }
    {
        FirstKeys {
            few: Vec::new(alloc),
            others: KeyInterner::new(alloc, seed),
            seed,
        }
    }

    /// Removes all keys.
    pub fn clear(&mut self, alloc: Global)
        ensures { self.new ≡ [] }
    {
        // `others` has a key only if `few` is full
        if self.few.len() >= FEW {
            self.others = KeyInterner::new(alloc, self.seed);
        }
        self.few.clear();
    }

    /// Returns how many keys there are.
    pub fn len(&self) -> usize
        ensures { result ≡ length self.now }
    {
        prove!(self.others.len() <= usize::MAX / 2);
        self.few.len() + self.others.len()
    }

    /// Returns the place of `key` in the list, and whether the key is new. A new key is added at
    /// the end.
    pub fn intern(&mut self, key: u128) -> Result<(usize, bool), AllocError>
        ensures place { IfOk result (λ met. met.0 ≡ position_or_len (nat_eq key) self.old) }
        ensures new { IfOk result (λ met. met.1 ≡ not (list_any (nat_eq key) self.old)) }
        ensures keys { OnOk result (self.new ≡ keys_after self.old key) }
    {
        let few = self.few.len();
        let place = place_among(self.few.as_slice(), key);
        if place < few {
            return Ok((place, false));
        }
        if few < FEW {
            self.few.push(key)?;
            return Ok((few, true));
        }
        prove!(self.others.len() <= usize::MAX / 2);
        let (place, is_new) = self.others.intern(key)?;
        Ok((few + place, is_new))
    }
}

// Returns the place of `key` in `keys`, or the length of `keys` if it is not there.
fn place_among(keys: &[u128], key: u128) -> usize
    ensures { result ≡ position_or_len (nat_eq key) keys.now }
{
    for place in 0..keys.len() {
        if keys[place] == key {
            return place;
        }
    }
    keys.len()
}
