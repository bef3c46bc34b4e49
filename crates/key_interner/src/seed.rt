//! The seed of the hashes.
use std::io;
use std::random::RandomSource;

/// The 128 bits with which a hash of keys begins. They change no answer, only the time that it
/// takes: whoever knows the seed can choose keys that all collide in the hash table. A caller that
/// does not trust the keys draws a seed.
#[derive(Clone, Copy)]
pub struct Seed {
    /// The 128 bits.
    pub bits: u128,
}

impl Seed {
    /// A seed that everyone knows, only for keys that the caller trusts.
    pub const FIXED: Seed = Seed { bits: 0 };

    /// Draws a seed from the random numbers of `source`. Fails if `source` fails.
    pub fn draw<R: RandomSource>(source: &R) -> io::Result<Seed> {
        let mut bytes = [0; 16];
        source.fill_bytes(&mut bytes)?;
        Ok(Seed {
            bits: u128::from_le_bytes(bytes),
        })
    }
}

/// Fills `buffer` with the bytes of the seed, the lowest first, and repeats them as often as
/// needed. The library takes the seed of a hash from a source of random numbers, so the seed acts
/// as one.
impl RandomSource for Seed {
    fn fill_bytes(&self, buffer: &mut [u8]) -> io::Result<()> {
        let bytes = self.bits.to_le_bytes();
        for place in 0..buffer.len() {
            buffer[place] = bytes[place % bytes.len()];
        }
        Ok(())
    }
}
