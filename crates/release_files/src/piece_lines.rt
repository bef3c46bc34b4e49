//! The lines of a file that a source reads in pieces.
ghost use Rattle.std.specs.Prelude.{◌≡◌, ◌⊎◌, ◌+◌, ◌^◌, ◌<◌, ◌≤◌, if◌then◌else◌, IfOk, List, MatchResult, None, Ok, OnOk, Some, false, drop, length, option_map, take, ℕ};
ghost use Rattle.std.specs.Borrow.{sem};
ghost use Rattle.std.specs.Io.BufRead.{Rests};
ghost use Rattle.release_files.specs.Held.{BeginsWithPart, ReadsOn, TakesWithin, reachable};
ghost use Rattle.release_files.specs.Lines.{line_text, lines_of, mark_length};
ghost use Rattle.release_files.specs.PieceLines.{GivesNext, HasEnded, KeepsLines, counted, current_line, lines_to_come};
ghost use Rattle.release_files.specs.Source.{FailsAtOpened};
ghost use Rattle.release_files.specs.contracts.piece_lines.PieceLines.{the_row};

use crate::held::Held;
use crate::lines::{BYTE_ORDER_MARK, Line, part_text};
use crate::source::{FileSource, SourceFault};
use std::alloc::Global;

// How far a file has been read.
#[derive(Clone, Copy, Debug, PartialEq, Eq)]
enum Stage {
    // The next bytes may begin with a byte order mark.
    Fresh,
    // A line may come.
    Begun,
    // No line comes any more.
    Ended,
}

/// Iterates over the lines of a file that a source reads in pieces. The lines are those that
/// `Lines` would give. Holds the current line and at most one more piece of 64 KiB.
#[derive(Debug, Drop)]
pub struct PieceLines {
    held: Held,
    stage: Stage,
    number: u64,
    end: u64,
}

impl PieceLines {
    /// Starts at the first line of a file of which nothing was read. Allocates nothing.
    pub fn new(alloc: Global) -> PieceLines
        ensures lines { (bytes : List ℕ) → length bytes < 2 ^ 64
            → lines_to_come result bytes ≡ lines_of bytes }
        ensures left { result.held.left + 1 ≡ 2 ^ 64 }
    {
        PieceLines::within(alloc, u64::MAX)
    }

    /// Starts at the first line of a file of which nothing was read. Treats the file as if it ended
    /// after `limit` bytes, and reads no further. Allocates nothing.
    #[tactic(auto, unfolding(crate::specs::Lines::lines_of))]
    pub fn within(alloc: Global, limit: u64) -> PieceLines
        ensures lines { (bytes : List ℕ) → length bytes < 2 ^ 64
            → lines_to_come result bytes ≡ lines_of bytes }
        ensures left { result.held.left ≡ limit }
    {
        PieceLines {
            held: Held::new(alloc, limit),
            stage: Stage::Fresh,
            number: 0,
            end: 0,
        }
    }

    /// Returns the next line of the open file of `source`, or `None` after the last one. The
    /// numbers of lines and their offsets stop at `u64::MAX`.
    ///
    /// Fails if the source fails, or with `Memory` if there is no memory for a line. After a
    /// failure, as after the last line, each call returns `None`.
    pub fn next_line<S: FileSource>(
        &mut self,
        source: &mut S,
    ) -> Result<Option<Line<'_>>, SourceFault>
        ensures* lines { sem 𝓛 (Rests the_row self.entry (λ new. MatchResult result
            (λ line. GivesNext (option_map line_text line) self.old new
            (reachable self.old.held.left (S.rest source.old)) (reachable new.held.left
            (S.rest source.new)) × TakesWithin (S.rest source.old) (S.rest source.new)
            self.old.held.left new.held.left) (λ _. HasEnded new)
            × ReadsOn (S.history source.old) (S.history source.new) self.old.held.left
            new.held.left)) }
        ensures ended { HasEnded self.old → result ≡ Ok None }
        ensures files { S.files source.new ≡ S.files source.old }
        ensures failures { FailsAtOpened result (S.history source.old) (S.history source.new) }
    {
        match self.advance(source) {
            Ok(true) => Ok(Some(self.line())),
            Ok(false) => Ok(None),
            Err(fault) => Err(fault),
        }
    }

    // Moves to the next line, which `line` then returns. Returns whether there was one.
    fn advance<S: FileSource>(&mut self, source: &mut S) -> Result<bool, SourceFault>
        ensures ended { HasEnded self.old → result ≡ Ok false }
        ensures lines { MatchResult result (λ more. GivesNext (if more then Some
            (current_line self.new) else None) self.old self.new
            (reachable self.old.held.left (S.rest source.old))
            (reachable self.new.held.left (S.rest source.new))) (λ _. HasEnded self.new) }
        ensures bounded { OnOk result (TakesWithin (S.rest source.old) (S.rest source.new)
            self.old.held.left self.new.held.left) }
        ensures files { S.files source.new ≡ S.files source.old }
        ensures failures { FailsAtOpened result (S.history source.old) (S.history source.new) }
        ensures history { ReadsOn (S.history source.old) (S.history source.new) self.old.held.left
            self.new.held.left }
    {
        let found = self.find_line(source);
        match found {
            Ok(count) => {
                if count > 0 {
                    self.take_line(count);
                    return Ok(true);
                }
                self.stage = Stage::Ended;
                Ok(false)
            }
            Err(fault) => {
                self.stage = Stage::Ended;
                Err(fault)
            }
        }
    }

    // Reads on until the buffer has the whole next line. Returns the length of the line with its
    // end; 0 if there is no line.
    fn find_line<S: FileSource>(&mut self, source: &mut S) -> Result<usize, SourceFault>
        ensures ended { HasEnded self.old → result ≡ Ok 0 }
        ensures within { IfOk result (λ count. count ≤ length self.new.held.bytes) }
        ensures kept { OnOk result (KeepsLines self.old self.new
            (reachable self.old.held.left (S.rest source.old))
            (reachable self.new.held.left (S.rest source.new))) }
        ensures part { IfOk result (λ count. ((count ≡ 0) × (self.new.stage ≡ Stage.Ended))
            ⊎ ((self.new.stage ≡ Stage.Begun)
            × BeginsWithPart (reachable self.new.held.left (S.rest source.new)) self.new.held.bytes
            count)) }
        ensures bounded { OnOk result (TakesWithin (S.rest source.old) (S.rest source.new)
            self.old.held.left self.new.held.left) }
        ensures files { S.files source.new ≡ S.files source.old }
        ensures failures { FailsAtOpened result (S.history source.old) (S.history source.new) }
        ensures history { ReadsOn (S.history source.old) (S.history source.new) self.old.held.left
            self.new.held.left }
    {
        if self.stage == Stage::Ended {
            return Ok(0);
        }
        if self.stage == Stage::Fresh {
            self.begin(source)?;
        }
        self.held.find_part(source)
    }

    // Skips a byte order mark before the first line.
    fn begin<S: FileSource>(&mut self, source: &mut S) -> Result<(), SourceFault>
        requires { self.old.stage ≡ Stage.Fresh }
        ensures begun { OnOk result (self.new.stage ≡ Stage.Begun) }
        ensures kept { OnOk result (KeepsLines self.old self.new
            (reachable self.old.held.left (S.rest source.old))
            (reachable self.new.held.left (S.rest source.new))) }
        ensures bounded { OnOk result (TakesWithin (S.rest source.old) (S.rest source.new)
            self.old.held.left self.new.held.left) }
        ensures files { S.files source.new ≡ S.files source.old }
        ensures failures { FailsAtOpened result (S.history source.old) (S.history source.new) }
        ensures history { ReadsOn (S.history source.old) (S.history source.new) self.old.held.left
            self.new.held.left }
    {
        self.held.read_at_least(BYTE_ORDER_MARK.len(), source)?;
        let mark = mark_length(self.held.bytes());
        self.held.take(mark);
        self.number = 0;
        self.end = mark as u64;
        self.stage = Stage::Begun;
        Ok(())
    }

    // Takes the next line, which has `count` bytes with its end, out of the buffer, and counts it.
    fn take_line(&mut self, count: usize)
        requires { count ≤ length self.old.held.bytes }
        ensures taken { self.new.held.taken ≡ take count self.old.held.bytes }
        ensures bytes { self.new.held.bytes ≡ drop count self.old.held.bytes }
        ensures number { self.new.number ≡ counted self.old.number 1 }
        ensures end { self.new.end ≡ counted self.old.end count }
        ensures stage { self.new.stage ≡ self.old.stage }
        ensures left { self.new.held.left ≡ self.old.held.left }
    {
        self.held.take(count);
        self.number = self.number.saturating_add(1);
        self.end = self.end.saturating_add(count as u64);
    }

    // Returns the line that was taken last.
    fn line(&self) -> Line<'_>
        ensures { line_text result ≡ current_line self.now }
    {
        Line {
            number: self.number,
            end: self.end,
            bytes: part_text(self.held.taken()),
        }
    }
}

// Returns the length of the byte order mark at the front of `bytes`, or 0 if they have none.
fn mark_length(bytes: &[u8]) -> usize
    ensures value { result ≡ mark_length bytes.now }
    ensures within { result ≤ length bytes.now }
{
    match bytes.strip_prefix(BYTE_ORDER_MARK) {
        Some(rest) => bytes.len() - rest.len(),
        None => 0,
    }
}
