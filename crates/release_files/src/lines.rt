//! Cuts the bytes of a file in memory into lines.
ghost use Rattle.std.specs.Prelude.{◌≡◌, ℕ, List, ◌<◌, ◌≤◌, ◌∷◌, ◌++◌, length};
ghost use Rattle.std.specs.Io.BufRead.{strip_last};
ghost use Rattle.release_files.specs.Lines.{parts, part_text, PartsAreLines};

use bstr::ByteSlice;
use std::marker::Model;

/// A line of a file. Besides CR LF, LF alone and a last line without an end are accepted.
#[derive(Clone, Copy, Debug)]
pub struct Line<'a> {
    /// The number of the line in its file, from 1. Empty lines count.
    pub number: u64,
    /// The offset after the line: the number of bytes of the file up to there, including the end of
    /// the line and a leading byte order mark.
    pub end: u64,
    /// The bytes of the line without its LF, and without one CR before the LF.
    pub bytes: &'a [u8],
}

/// Iterates over the lines of a file in memory, after a leading byte order mark. Bytes after the
/// last LF are one more line; if there are none, even no CR, there is no such line. Contracts name
/// this type as the list of the lines still to come.
#[derive(Debug, Drop)]
pub struct Lines<'a> {
    rest: &'a [u8],
    number: u64,
    end: u64,
}

impl<'a> Model for Lines<'a> {
    ghost use Rattle.std.specs.Prelude.{◌+◌, ◌^◌, ◌<◌, ◌≤◌, List, length};
    ghost use Rattle.release_files.specs.Lines.{LineText, numbered, parts};

    ghost Value = { List LineText };

    ghost view = { λ lines. numbered lines.number lines.end (parts lines.rest.now) };

    ghost invariant = { λ lines. (lines.number ≤ lines.end)
        × (lines.end + length lines.rest.now < 2 ^ 64) };
}

// The byte order mark in UTF-8, and the bytes that end a line.
pub(crate) const BYTE_ORDER_MARK: &[u8] = b"\xef\xbb\xbf";

pub(crate) const LINE_FEED: u8 = b'\n';

const CARRIAGE_RETURN: u8 = b'\r';

impl<'a> Lines<'a> {
    ghost use Rattle.release_files.specs.Lines.{lines_of};

    /// Starts at the first line of the file with the contents `bytes`. Allocates nothing.
    #[tactic(auto, unfolding(crate::specs::Lines::lines_of))]
    pub fn new(bytes: &'a [u8]) -> Lines<'a>
        ensures lines { result ≡ lines_of bytes.now }
        ensures few { length result ≤ length bytes.now }
    {
        match bytes.strip_prefix(BYTE_ORDER_MARK) {
            Some(rest) => Lines {
                rest,
                number: 0,
                end: 3,
            },
            None => Lines {
                rest: bytes,
                number: 0,
                end: 0,
            },
        }
    }
}

/// Law for `Lines`: there is only one way to cut bytes into parts that each have one line feed, at
/// the end, except that the last part may lack it. `Lines` cuts in this way.
pub fn parts_are_lines()
    ensures { (bytes : List ℕ) → PartsAreLines bytes }
{}

impl<'a> Iterator for Lines<'a> {
    ghost use Rattle.std.specs.Iterator.{YieldsFirstBy, item_count};
    ghost use Rattle.release_files.specs.Lines.{line_text};

    type Item = Line<'a>;

    ghost next_gives = { YieldsFirstBy line_text (λ left. left) };

    ghost remaining = { item_count (λ left. left) };

    /// Returns the next line, or `None` after the last one. Allocates nothing.
    fn next(&mut self) -> Option<Line<'a>> {
        if self.rest.is_empty() {
            return None;
        }
        let (part, rest) = first_part(self.rest);
        self.rest = rest;
        self.number += 1;
        self.end += part.len() as u64;
        Some(Line {
            number: self.number,
            end: self.end,
            bytes: part_text(part),
        })
    }
}

// Cuts `bytes` after the first line feed. Returns the first line with its line feed, and the bytes
// after it. Without a line feed all bytes are one line.
fn first_part(bytes: &[u8]) -> (&[u8], &[u8])
    requires { 0 < length bytes.now }
    ensures parts { parts bytes.now ≡ result.0.now ∷ parts result.1.now }
    ensures joined { bytes.now ≡ result.0.now ++ result.1.now }
    ensures some { 0 < length result.0.now }
{
    match bytes.find_byte(LINE_FEED) {
        Some(at) => bytes.split_at(at + 1),
        None => (bytes, &[]),
    }
}

// Returns a line without its end: drops its line feed, and then one carriage return.
pub(crate) fn part_text(part: &[u8]) -> &[u8]
    ensures { result.now ≡ part_text part.now }
{
    without_last(without_last(part, LINE_FEED), CARRIAGE_RETURN)
}

// Returns `bytes` without the last one if that is `byte`, and otherwise all of them.
fn without_last(bytes: &[u8], byte: u8) -> &[u8]
    ensures { result.now ≡ strip_last byte bytes.now }
{
    match bytes.split_last() {
        Some((last, front)) if *last == byte => front,
        _ => bytes,
    }
}
