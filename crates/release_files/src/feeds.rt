//! Searches for the line feed that ends a line, 64 bytes at a time.
ghost use Rattle.std.specs.Prelude.{◌≡◌, ◌+◌, ◌≤◌, drop, length, take};
ghost use Rattle.release_files.specs.inside.Feeds.{IsFirstFeed, feed_bits};

use crate::lines::LINE_FEED;
use bstr::ByteSlice;
use std::simd::prelude::*;

const BLOCK: usize = 64;

/// Returns the index of the first line feed in `bytes`, if there is one. Looks at blocks of 64
/// bytes, since a line mostly has only two or three.
#[inline]
pub fn first_feed(bytes: &[u8]) -> Option<usize>
    ensures { IsFirstFeed bytes.now result }
{
    let mut place = 0;
    while bytes.len() - place >= BLOCK {
        let feeds = feeds_at(bytes, place);
        if feeds != 0 {
            return Some(place + feeds.trailing_zeros() as usize);
        }
        place += BLOCK;
    }
    let rest = &bytes[place..];
    match rest.find_byte(LINE_FEED) {
        Some(at) => Some(place + at),
        None => None,
    }
}

// Returns a bitmap of the line feeds among the 64 bytes from index `place` on. The first byte has
// the lowest bit.
#[inline]
fn feeds_at(bytes: &[u8], place: usize) -> u64
    requires { place + 64 ≤ length bytes.now }
    ensures { result ≡ feed_bits (take 64 (drop place bytes.now)) }
{
    feeds(u8x64::from_slice(&bytes[place..]))
}

// Returns a bitmap of the line feeds in a block of 64 bytes.
#[inline]
fn feeds(block: u8x64) -> u64
    ensures { result ≡ feed_bits block }
{
    block.simd_eq(u8x64::splat(LINE_FEED)).to_bitmask()
}
