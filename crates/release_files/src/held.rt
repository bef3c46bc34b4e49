//! The buffer of a file that is read in pieces: bytes that were read and not yet cut into lines.
ghost use Rattle.std.specs.Prelude.{◌≡◌, ◌+◌, ◌-◌, ◌^◌, ◌<◌, ◌≤◌, ◌⊎◌, IfOk, MatchOption, MatchResult, OnOk, [], length, drop, slice_range, take, vec_len};
ghost use Rattle.std.specs.Io.KnownBytes.{Consumes, IsAtEnd};
ghost use Rattle.release_files.specs.Held.{BeginsWithPart, GrowsBy, IsEndedPart, KeepsBytes, ReadsOn, TakesWithin, reachable};
ghost use Rattle.release_files.specs.Lines.{HasNoFeed};
ghost use Rattle.release_files.specs.Source.{FailsAtOpened, IsReading};

use crate::feeds::first_feed;
use crate::source::{FileSource, SourceFault};
use std::alloc::{AllocError, Global};
use std::marker::Model;

// The number of bytes that are read at once.
const PIECE_LENGTH: usize = 65_536;

/// A buffer for a file that is read in pieces. Contracts name this type as three things: the bytes
/// that were taken last (the current line), the bytes after them that were read, and how many more
/// bytes may be read.
#[derive(Debug, Drop)]
pub struct Held {
    buffer: Vec<u8>,
    from: usize,
    start: usize,
    filled: usize,
    left: u64,
}

impl Model for Held {
    ghost use Rattle.std.specs.Prelude.{◌≤◌, slice_range, vec_len};
    ghost use Rattle.release_files.specs.Held.{HeldBytes};

    ghost Value = { HeldBytes };

    ghost view = { λ held. record {
      taken = slice_range held.buffer.items held.from held.start;
      bytes = slice_range held.buffer.items held.start held.filled;
      left = held.left;
    } };

    ghost invariant = { λ held. (held.from ≤ held.start) × (held.start ≤ held.filled)
        × (held.filled ≤ vec_len held.buffer) };
}

impl Held {
    /// Creates an empty buffer that may read `left` bytes. Allocates nothing.
    pub fn new(alloc: Global, left: u64) -> Held
        ensures bytes { result.bytes ≡ [] }
        ensures left { result.left ≡ left }
    {
        Held {
            buffer: Vec::new(alloc),
            from: 0,
            start: 0,
            filled: 0,
            left,
        }
    }

    /// Returns the bytes that the last call of `take` took.
    pub fn taken(&self) -> &[u8]
        ensures { result.now ≡ self.now.taken }
    {
        let (from, start) = (self.from, self.start);
        let all = self.buffer.as_slice();
        &all[from..start]
    }

    /// Returns the bytes that were read and not yet taken.
    pub fn bytes(&self) -> &[u8]
        ensures { result.now ≡ self.now.bytes }
    {
        let (start, filled) = (self.start, self.filled);
        let all = self.buffer.as_slice();
        &all[start..filled]
    }

    /// Takes the next `count` bytes of `bytes`, which `taken` then returns. `bytes` must have as
    /// many.
    pub fn take(&mut self, count: usize)
        requires { count ≤ length self.old.bytes }
        ensures taken { self.new.taken ≡ take count self.old.bytes }
        ensures bytes { self.new.bytes ≡ drop count self.old.bytes }
        ensures left { self.new.left ≡ self.old.left }
    {
        self.from = self.start;
        self.start += count;
    }

    /// Appends the next piece of the source's open file to `bytes`. Returns how many bytes it has:
    /// 0 only at the end of the file, or if no more may be read.
    pub fn read_piece<S: FileSource>(&mut self, source: &mut S) -> Result<usize, SourceFault>
        ensures piece { IfOk result (λ count. GrowsBy (reachable self.old.left (S.rest source.old))
            (reachable self.new.left (S.rest source.new)) self.old.bytes self.new.bytes count) }
        ensures counted { IfOk result (λ count. self.new.left + count ≡ self.old.left) }
        ensures room { length self.new.bytes < 2 ^ 64 }
        ensures bounded { OnOk result (TakesWithin (S.rest source.old) (S.rest source.new)
            self.old.left self.new.left) }
        ensures files { S.files source.new ≡ S.files source.old }
        ensures failures { FailsAtOpened result (S.history source.old) (S.history source.new) }
        ensures history { ReadsOn (S.history source.old) (S.history source.new) self.old.left
            self.new.left }
    {
        let length = self.filled - self.start;
        move_to_front(self.buffer.as_mut_slice(), self.start, self.filled);
        self.from = 0;
        self.start = 0;
        self.filled = length;
        if grow(&mut self.buffer, length + PIECE_LENGTH).is_err() {
            return Err(SourceFault::Memory);
        }
        let room = self.left.min(PIECE_LENGTH as u64) as usize;
        let count = read_after(source, self.buffer.as_mut_slice(), length, room)?;
        self.filled += count;
        self.left -= count as u64;
        Ok(count)
    }

    /// Reads on until `bytes` has at least `count` bytes, or the file has ended, or no more may be
    /// read.
    pub fn read_at_least<S: FileSource>(
        &mut self,
        count: usize,
        source: &mut S,
    ) -> Result<(), SourceFault>
        ensures kept { OnOk result (KeepsBytes (reachable self.old.left (S.rest source.old))
            (reachable self.new.left (S.rest source.new)) self.old.bytes self.new.bytes) }
        ensures enough { OnOk result ((count ≤ length self.new.bytes)
            ⊎ IsAtEnd (reachable self.new.left (S.rest source.new))) }
        ensures bounded { OnOk result (TakesWithin (S.rest source.old) (S.rest source.new)
            self.old.left self.new.left) }
        ensures files { S.files source.new ≡ S.files source.old }
        ensures failures { FailsAtOpened result (S.history source.old) (S.history source.new) }
        ensures history { ReadsOn (S.history source.old) (S.history source.new) self.old.left
            self.new.left }
    {
        while self.bytes().len() < count {
            if self.read_piece(source)? == 0 {
                break;
            }
        }
        Ok(())
    }

    /// Reads on until `bytes` has the whole first line: until a line feed, or the end of what may
    /// be read of the file. Returns the length of that line with its line feed; 0 if there is no
    /// line.
    pub fn find_part<S: FileSource>(&mut self, source: &mut S) -> Result<usize, SourceFault>
        ensures within { IfOk result (λ count. count ≤ length self.new.bytes) }
        ensures kept { OnOk result (KeepsBytes (reachable self.old.left (S.rest source.old))
            (reachable self.new.left (S.rest source.new)) self.old.bytes self.new.bytes) }
        ensures part { IfOk result (λ count. BeginsWithPart
            (reachable self.new.left (S.rest source.new)) self.new.bytes count) }
        ensures bounded { OnOk result (TakesWithin (S.rest source.old) (S.rest source.new)
            self.old.left self.new.left) }
        ensures files { S.files source.new ≡ S.files source.old }
        ensures failures { FailsAtOpened result (S.history source.old) (S.history source.new) }
        ensures history { ReadsOn (S.history source.old) (S.history source.new) self.old.left
            self.new.left }
    {
        let mut searched = 0;
        loop {
            if let Some(count) = ended_length(self.bytes(), searched) {
                return Ok(count);
            }
            searched = self.bytes().len();
            if self.read_piece(source)? == 0 {
                return Ok(searched);
            }
        }
    }
}

// Copies the bytes from `start` to `end` to the front of `buffer`.
fn move_to_front(buffer: &mut [u8], start: usize, end: usize)
    requires ordered { start ≤ end }
    requires within { end ≤ length buffer.old }
    ensures { take (end - start) buffer.new ≡ slice_range buffer.old start end }
{
    if start > 0 {
        buffer.copy_within(start..end, 0);
    }
}

// Extends `buffer` with zeros to `count` bytes, if it is shorter.
fn grow(buffer: &mut Vec<u8>, count: usize) -> Result<(), AllocError>
    ensures kept { take (vec_len buffer.old) buffer.new.items ≡ buffer.old.items }
    ensures longer { vec_len buffer.old ≤ vec_len buffer.new }
    ensures enough { OnOk result (count ≤ vec_len buffer.new) }
{
    if buffer.len() < count {
        buffer.resize(count, 0)?;
    }
    Ok(())
}

// Reads a piece of at most `room` bytes of the source's open file into `buffer`, from index `at`
// on. Returns how many bytes were read.
fn read_after<S: FileSource>(
    source: &mut S,
    buffer: &mut [u8],
    at: usize,
    room: usize,
) -> Result<usize, SourceFault>
    requires { at + room ≤ length buffer.old }
    ensures kept { take at buffer.new ≡ take at buffer.old }
    ensures within { IfOk result (λ count. at + count ≤ length buffer.new) }
    ensures few { IfOk result (λ count. count ≤ room) }
    ensures piece { IfOk result (λ count. Consumes (S.rest source.old) (S.rest source.new)
        (slice_range buffer.new at (at + count))) }
    ensures end { IfOk result (λ count. count ≡ 0 → 0 < room → IsAtEnd (S.rest source.new)) }
    ensures files { S.files source.new ≡ S.files source.old }
    ensures failures { FailsAtOpened result (S.history source.old) (S.history source.new) }
    ensures history { IsReading result (S.history source.old) (S.history source.new) }
{
    source.read(&mut buffer[at..at + room])
}

// Returns the length of the first line of `bytes` with its line feed, or `None` if `bytes` has no
// line feed. The first `searched` bytes have none, so the search begins after them.
fn ended_length(bytes: &[u8], searched: usize) -> Option<usize>
    requires within { searched ≤ length bytes.now }
    requires clear { HasNoFeed (take searched bytes.now) }
    ensures { MatchOption result (HasNoFeed bytes.now) (λ count.
        (0 < count) × (count ≤ length bytes.now) × IsEndedPart (take count bytes.now)) }
{
    let rest = &bytes[searched..];
    match first_feed(rest) {
        Some(at) => Some(searched + at + 1),
        None => None,
    }
}
