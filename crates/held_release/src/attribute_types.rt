//! Indexes of the types of attribute rows, so that a stored row needs only 32 bits for its type.
ghost use Rattle.std.specs.Prelude.{◌≡◌, ◌-◌, ◌<◌, ◌^◌, IfOk, OnOk, Some, length, slice_get};
ghost use Rattle.std.specs.Bool.{OnTrue};
ghost use Rattle.key_interner.specs.KeyInterner.{keys_after};

use key_interner::KeyInterner;
use sctid::SctId;
use std::alloc::{AllocError, Global};

// How many guesses `near` holds: one for each remainder that `place_near` computes of an
// identifier. A release has about a hundred types.
const NEAR_TYPES: usize = 1024;

/// The types of attribute rows, each once, in the order in which they first occur.
#[derive(Drop)]
pub struct Types {
    /// Maps the identifier of a type to its index in `ids`.
    pub numbers: KeyInterner,
    /// The identifiers of the types, by index.
    pub ids: Vec<SctId>,
}

impl Types {
    /// Returns the index of the type `id`, and adds the type if it is new. `near` is a cache that
    /// `near_types` creates and the caller passes to each call: the call first tries the index that
    /// was last found for an identifier with the same remainder, so that most calls compute no
    /// hash.
    pub fn place_near(&mut self, id: SctId, near: &mut [u32]) -> Result<u32, AllocError>
        requires few { length self.old.numbers < 2 ^ 32 - 1 }
        requires ids { self.old.ids.items ≡ self.old.numbers }
        ensures place { IfOk result (λ place. slice_get self.new.numbers place ≡ Some id) }
        ensures numbers { OnOk result (self.new.numbers ≡ keys_after self.old.numbers id) }
        ensures ids { OnOk result (self.new.ids.items ≡ self.new.numbers) }
    {
        let digits = (id.number() / 1000 % NEAR_TYPES as u64) as usize;
        let guess = near.get(digits).copied().unwrap_or(0);
        if is_at(self.ids.as_slice(), guess, id) {
            return Ok(guess);
        }
        let place = self.place_of(id)?;
        if let Some(slot) = near.get_mut(digits) {
            *slot = place;
        }
        Ok(place)
    }

    // Returns the index of the type `id` by its hash, and adds the type if it is new.
    fn place_of(&mut self, id: SctId) -> Result<u32, AllocError>
        requires few { length self.old.numbers < 2 ^ 32 - 1 }
        requires ids { self.old.ids.items ≡ self.old.numbers }
        ensures place { IfOk result (λ place. slice_get self.new.numbers place ≡ Some id) }
        ensures numbers { OnOk result (self.new.numbers ≡ keys_after self.old.numbers id) }
        ensures ids { OnOk result (self.new.ids.items ≡ self.new.numbers) }
    {
        let (place, is_new) = self.numbers.intern(id.number() as u128)?;
        if is_new {
            self.ids.push(id)?;
        }
        Ok(place as u32)
    }
}

/// Creates the cache for `place_near`: guesses of indexes, all 0 at first.
pub fn near_types(alloc: Global) -> Result<Vec<u32>, AllocError> {
    let places = vec![in alloc; 0u32; NEAR_TYPES]?;
    Ok(places)
}

// Whether the type `id` is at the index `place` of `ids`.
fn is_at(ids: &[SctId], place: u32, id: SctId) -> bool
    ensures { OnTrue result (slice_get ids.now place ≡ Some id) }
{
    match ids.get(place as usize) {
        Some(found) => *found == id,
        None => false,
    }
}
