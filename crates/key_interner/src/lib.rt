//! Gives each distinct key a place, from 0 on, in the order in which the keys first come.
//!
//! The engine uses this to number the identifiers, types and other keys that files choose. It finds
//! a key by a hash with a seed. Whoever knows the seed can choose keys that take time quadratic in
//! their number.
#![tactic(auto)]

mod seed;

ghost use Rattle.std.specs.Prelude.{◌≡◌, ◌<◌, ◌^◌, IfOk, IfSome, OnErr, OnOk, [], is_some, length, nat_eq, not, position};
ghost use Rattle.std.specs.List.{list_any, position_or_len};
ghost use Rattle.key_interner.specs.KeyInterner.{keys_after};

pub use crate::seed::Seed;
use indexmap::IndexSet;
use std::alloc::{AllocError, Global};
use std::hash::RandomState;
use std::marker::Model;

/// Distinct keys in the order in which they first came. Contracts see the list of the keys.
#[derive(Drop)]
pub struct KeyInterner {
    // `None` only if the library could not make a hash state from the seed, which its contract does
    // not exclude; `intern` then refuses each key as if memory were refused
    keys: Option<IndexSet<u128, RandomState>>,
}

impl Model for KeyInterner {
    ghost use Rattle.std.specs.Prelude.{List, ℕ};

    ghost Value = { List ℕ };

    ghost use Rattle.key_interner.specs.inside.KeyInternerInside.{keys_in};

    ghost view = { keys_in };
}

impl KeyInterner {
    /// Creates an interner without keys, which will hash keys with `seed`. Takes no memory.
    pub fn new(alloc: Global, seed: Seed) -> KeyInterner
        ensures { result ≡ [] }
    {
        match RandomState::new(&seed) {
            Ok(state) => KeyInterner {
                keys: Some(IndexSet::with_hasher(alloc, state)),
            },
            Err(_) => KeyInterner { keys: None },
        }
    }

    /// Returns how many keys there are.
    pub fn len(&self) -> usize
        ensures count { result ≡ length self.now }
        ensures few { length self.now < 2 ^ 63 }
    {
        match &self.keys {
            Some(keys) => keys.len(),
            None => 0,
        }
    }

    /// Returns the place of `key`, from 0, or `None` if `intern` never took it.
    pub fn place_of(&self, key: u128) -> Option<usize>
        ensures index { result ≡ position (nat_eq key) self.now }
        ensures found { is_some result ≡ list_any (nat_eq key) self.now }
        ensures within { IfSome result (λ place. place < length self.now) }
    {
        match &self.keys {
            Some(keys) => keys.get_index_of(&key),
            None => None,
        }
    }

    /// Returns the place of `key`, and whether `key` is new. Adds a new key at the end. If memory
    /// is refused, the keys stay as they are.
    pub fn intern(&mut self, key: u128) -> Result<(usize, bool), AllocError>
        ensures place { IfOk result (λ met. met.0 ≡ position_or_len (nat_eq key) self.old) }
        ensures new { IfOk result (λ met. met.1 ≡ not (list_any (nat_eq key) self.old)) }
        ensures keys { OnOk result (self.new ≡ keys_after self.old key) }
        ensures err { OnErr result (self.new ≡ self.old) }
    {
        let Some(keys) = &mut self.keys else {
            return Err(AllocError);
        };
        match keys.insert_full(key) {
            Ok(met) => Ok(met),
            Err(_) => Err(AllocError),
        }
    }
}
