//! The types of the attribute rows, and the look-up of a type's place.
ghost use Rattle.std.specs.Prelude.{◌≡◌, ◌<◌, ◌^◌, IfOk, length, nat_eq};
ghost use Rattle.std.specs.List.{IsDistinct};

use key_interner::{KeyInterner, Seed};
use sctid::SctId;
use std::alloc::{AllocError, Global};

/// The types of the attribute rows, each once, in the order of the first row of each.
#[derive(Drop)]
pub struct TypeTable {
    /// Finds the place of a type in `ids`.
    pub numbers: KeyInterner,
    /// The identifiers of the types, by place.
    pub ids: Vec<SctId>,
}

/// Makes the table of the types `ids`, each of which is there once. They are hashed with `seed`.
pub fn type_table(alloc: Global, ids: &[SctId], seed: Seed) -> Result<TypeTable, AllocError>
    requires few { length ids.now < 2 ^ 32 }
    requires once { IsDistinct nat_eq ids.now }
    ensures numbers { IfOk result (λ types. types.numbers ≡ ids.now) }
    ensures ids { IfOk result (λ types. types.ids.items ≡ ids.now) }
{
    let mut numbers = KeyInterner::new(alloc, seed);
    for id in ids {
        numbers.intern(id.number() as u128)?;
    }
    let ids = Vec::from_slice(alloc, ids)?;
    Ok(TypeTable { numbers, ids })
}
