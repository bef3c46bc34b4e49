//! Keys of rows. Two rows of one kind have one key exactly if they have one identifier, so a key
//! stands for a component.
ghost use Rattle.std.specs.Prelude.{◌≡◌, ◌<◌, ◌^◌, IfOk, IfSome, IsNone, OnOk, length};
ghost use Rattle.rf2_rows.specs.RowTexts.{text_in};
ghost use Rattle.release_rows.specs.inside.Keys.{IsMet, IsShort, key_in, keyed_after, no_keys, uuids_following};

use key_interner::{KeyInterner, Seed};
use rf2_rows::Row;
use sctid::SctId;
use std::alloc::{AllocError, Global};
use std::marker::Model;

// The smallest key of each kind of component; the key is this number plus the SCTID. SCTIDs are
// below 10^18, so that the ranges of the kinds do not overlap.
const CONCEPTS: u64 = 9_223_372_036_854_775_808;

const DESCRIPTIONS: u64 = 10_223_372_036_854_775_808;

const CONCRETE_VALUES: u64 = 11_223_372_036_854_775_808;

/// The smallest key of a relationship. About half of all rows are relationships, so `repeated_keys`
/// sorts their keys apart from the others and needs less memory at once.
pub const RELATIONSHIPS: u64 = 12_223_372_036_854_775_808;

/// The keys of the rows in the order in which they were read. Two rows of one kind have one key
/// exactly if they have one identifier. In the usual order of files and rows the keys rise. The key
/// of a member is the index of its UUID in the order of first occurrence.
#[derive(Drop)]
pub struct RowKeys {
    // gives each distinct UUID of a member row the next index from 0
    uuids: KeyInterner,
    keys: Vec<u64>,
}

impl Model for RowKeys {
    ghost use Rattle.release_rows.specs.inside.Keys.{Keyed};

    ghost Value = { Keyed };

    ghost view = { λ keys. record { uuids = keys.uuids; keys = keys.keys.items } };
}

impl RowKeys {
    /// Creates a list without keys. UUIDs will be hashed with `seed`.
    pub fn new(alloc: Global, seed: Seed) -> RowKeys
        ensures { result ≡ no_keys }
    {
        RowKeys {
            uuids: KeyInterner::new(alloc, seed),
            keys: Vec::new(alloc),
        }
    }

    /// Returns the keys of all rows that were added, in the order of `add`.
    pub fn keys(&self) -> &[u64]
        ensures keys { result.now ≡ self.now.keys }
        ensures few { length self.now.uuids < 2 ^ 63 }
    {
        // the contract of `len` says that there are few UUIDs
        let _ = self.uuids.len();
        self.keys.as_slice()
    }

    /// Appends the key of `row`. Fails if memory is refused.
    pub fn add(&mut self, row: &Row<'_>) -> Result<(), AllocError>
        ensures key { OnOk result (self.new ≡ keyed_after self.old (text_in row.now)) }
        ensures short { OnOk result (IsShort (text_in row.now)) }
    {
        let key = self.intern(row)?;
        self.keys.push(key)?;
        Ok(())
    }

    // Returns the key of `row`. The UUID of a member gets a new index if it has none yet.
    fn intern(&mut self, row: &Row<'_>) -> Result<u64, AllocError>
        ensures key { IfOk result (λ key. key ≡ key_in self.old.uuids (text_in row.now)) }
        ensures uuids { OnOk result (self.new.uuids
            ≡ uuids_following self.old.uuids (text_in row.now)) }
        ensures keys { self.new.keys ≡ self.old.keys }
        ensures short { OnOk result (IsShort (text_in row.now)) }
    {
        match row {
            Row::Concept(row) => Ok(CONCEPTS + row.id.number()),
            Row::Description(row) => Ok(DESCRIPTIONS + row.id.number()),
            Row::Relationship(row) => Ok(RELATIONSHIPS + row.id.number()),
            Row::Concrete(row) => Ok(CONCRETE_VALUES + row.id.number()),
            Row::Member(row) => {
                let (place, _) = self.uuids.intern(row.id.as_u128())?;
                Ok(place as u64)
            }
        }
    }

    /// Returns the key of `row` without adding it: `None` for a member whose UUID no added row has.
    pub fn key_of(&self, row: &Row<'_>) -> Option<u64>
        ensures key { IfSome result (λ key. key ≡ key_in self.now.uuids (text_in row.now)) }
        ensures met { IsNone result → ¬ IsMet self.now.uuids (text_in row.now) }
    {
        match row {
            Row::Concept(row) => Some(CONCEPTS + row.id.number()),
            Row::Description(row) => Some(DESCRIPTIONS + row.id.number()),
            Row::Relationship(row) => Some(RELATIONSHIPS + row.id.number()),
            Row::Concrete(row) => Some(CONCRETE_VALUES + row.id.number()),
            Row::Member(row) => match self.uuids.place_of(row.id.as_u128()) {
                Some(place) => Some(place as u64),
                None => None,
            },
        }
    }
}
