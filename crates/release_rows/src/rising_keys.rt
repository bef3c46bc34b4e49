//! Looking up one key after another in a short rising list.
ghost use Rattle.std.specs.Prelude.{◌≡◌, false, true};
ghost use Rattle.std.specs.List.Sorted.{IsStrictlyIncreasing};
ghost use Rattle.number_lists.specs.Members.{has};

use std::marker::Model;

/// Keys in rising order. Contracts name this type as the list of its keys.
#[derive(Drop)]
pub struct RisingKeys {
    keys: Vec<u64>,
    // Where the last search ended: after the key that it found, or where the missing key would
    // stand. Most searches are for a missing key that would stand at the same index, so this is
    // tried first.
    near: usize,
}

impl Model for RisingKeys {
    ghost use Rattle.std.specs.Prelude.{ℕ, List};
    ghost use Rattle.std.specs.List.Sorted.{IsStrictlyIncreasing};

    ghost Value = { List ℕ };

    ghost view = { λ rising. rising.keys.items };

    ghost invariant = { λ rising. IsStrictlyIncreasing rising.keys.items };
}

impl RisingKeys {
    /// Makes a searchable list of `keys`, which must rise strictly.
    pub fn new(keys: Vec<u64>) -> RisingKeys
        requires { IsStrictlyIncreasing keys.items }
        ensures { result ≡ keys.items }
    {
        RisingKeys { keys, near: 0 }
    }

    /// Whether `key` is in the list. Remembers where the search ended, to speed up the next one.
    pub fn has(&mut self, key: u64) -> bool
        ensures has { result ≡ has self.old key }
        ensures same { self.new ≡ self.old }
    {
        if is_between(self.keys.as_slice(), self.near, key) {
            return false;
        }
        match self.keys.binary_search(&key) {
            Ok(place) => {
                self.near = place + 1;
                true
            }
            Err(place) => {
                self.near = place;
                false
            }
        }
    }

    /// Borrows the keys.
    pub fn as_slice(&self) -> &[u64]
        ensures { result.now ≡ self.now }
    {
        self.keys.as_slice()
    }

    /// Returns the vector of keys that `new` was given.
    pub fn into_keys(self) -> Vec<u64>
        ensures { result.items ≡ self }
    {
        self.keys
    }
}

// Whether `key` is missing because it lies between the keys at `place - 1` and `place`.
fn is_between(rising: &[u64], place: usize, key: u64) -> bool
    requires { IsStrictlyIncreasing rising.now }
    ensures { result ≡ true → has rising.now key ≡ false }
{
    place <= rising.len()
        && (place == 0 || rising[place - 1] < key)
        && (place == rising.len() || key < rising[place])
}
