//! The loop that answers the query lines of an input, one after the other.
ghost use Rattle.std.specs.Prelude.{◌≡◌, ℕ, ◌+◌, ◌^◌, ◌<◌, ◌≤◌, ◌∷◌, ◌++◌, false, IfErr, IfOk, IfSome, List, MatchOption, OnOk, [], length, vec_len};
ghost use Rattle.std.specs.Io.KnownBytes.{Appends, IsAtEnd};
ghost use Rattle.streams.specs.Waiting.{LeavesAnswer, is_write};
ghost use Rattle.query_run.specs.Fault.{CountsTurns, EndsAt, HaveFailed, IsAnswerFault, LeavesWritten, run_fault_number, run_fault_of};
ghost use Rattle.query_run.specs.KeptLine.{IsCutTo, kept_of};
ghost use Rattle.query_run.specs.Lines.{AreWritten, HasNoFeed, line_feed, query_lines};

use crate::answering::AnswerLine;
use bstr::ByteSlice;
use std::alloc::{AllocError, Global};
use streams::{AnswerFault, AnswerOutput, OutputBuffer, QueryInput};

/// Why a run ended before its input did. The number says how many answers were written completely.
/// After `Write`, the output may also have received a proper prefix of the next answer; after other
/// faults it has received nothing of it.
#[derive(Clone, Copy, Debug, PartialEq, Eq)]
pub enum RunFault {
    /// The input failed.
    Read(u64),
    /// The output failed.
    Write(u64),
    /// Memory was refused.
    Memory(u64),
    /// The input has not ended after 2^40 reads.
    Turns(u64),
}

impl RunFault {
    /// Returns the number of the fault, from 1 to 4.
    pub fn number(self) -> u8
        ensures { result ≡ run_fault_number self }
    {
        match self {
            RunFault::Read(_) => 1,
            RunFault::Write(_) => 2,
            RunFault::Memory(_) => 3,
            RunFault::Turns(_) => 4,
        }
    }

    // Returns the fault of a run whose next answer fails with `fault`, after `answered` complete
    // answers.
    fn of(fault: AnswerFault, answered: u64) -> RunFault
        ensures { result ≡ run_fault_of fault answered }
    {
        match fault {
            AnswerFault::Memory => RunFault::Memory(answered),
            AnswerFault::Write => RunFault::Write(answered),
        }
    }
}

// How many times an input is read at most.
const TURNS: u64 = 1 << 40;

// How many bytes one read returns at most.
const PIECE_LENGTH: usize = 65_536;

// How many bytes of an unended line are kept: one more than a line may have, so that the answerer
// sees that the line is too long.
const KEPT_LENGTH: usize = 65_536;

const LINE_FEED: u8 = b'\n';

/// Answers each query line of `input`, in order, with `answerer`. A query line is the text before a
/// line feed, or the text after the last one unless it is empty. Returns how many lines were
/// answered. All answers to the lines that have ended are written before more input is read.
///
/// A fault says how many answers were written completely: `Read` if the input fails, `Write` if the
/// output fails, `Memory` if memory is refused, and `Turns` if the input has not ended after 2^40
/// reads. The input is never read more often.
pub fn run<A: AnswerLine, R: QueryInput, W: AnswerOutput>(
    alloc: Global,
    answerer: &A,
    input: &mut R,
    output: &mut W,
) -> Result<u64, RunFault>
    requires input { R.has_failed input.old ≡ false }
    requires output { W.has_failed output.old ≡ false }
    ensures end { OnOk result (IsAtEnd (R.remaining input.new)) }
    ensures count { IfOk result (λ count. IfSome (R.remaining input.old)
        (λ bytes. count ≡ length (query_lines bytes))) }
    ensures answers { OnOk result (IfSome (R.remaining input.old)
        (λ bytes. AreWritten (A.answers answerer.now) (query_lines bytes) (W.written output.old)
        (W.written output.new))) }
    ensures not_failed { OnOk result ((R.has_failed input.new ≡ false)
        × (W.has_failed output.new ≡ false)) }
    ensures fault { IfErr result (λ fault. EndsAt fault (A.answers answerer.now)
        (R.remaining input.old) (R.remaining input.new) (W.written output.old)
        (W.written output.new)) }
    ensures failed { IfErr result (λ fault. HaveFailed fault (R.has_failed input.new)
        (W.has_failed output.new)) }
    ensures turns { IfErr result (λ fault. CountsTurns fault (R.read_count input.old)
        (R.read_count input.new)) }
    ensures reads { R.read_count input.new ≤ R.read_count input.old + 2 ^ 40 }
{
    let mut buffer = match zeros(alloc, PIECE_LENGTH) {
        Ok(buffer) => buffer,
        Err(_) => return Err(RunFault::Memory(0)),
    };
    let piece = buffer.as_mut_slice();
    let mut progress = match Progress::new(alloc) {
        Ok(progress) => progress,
        Err(_) => return Err(RunFault::Memory(0)),
    };
    for _turn in 0..TURNS {
        let count = match input.read(piece) {
            Ok(count) => count,
            Err(_) => return Err(RunFault::Read(progress.answered)),
        };
        if count == 0 {
            return progress.finish(alloc, answerer, output);
        }
        match progress.take_piece(alloc, answerer, &piece[..count], output) {
            Ok(()) => {}
            Err(fault) => return Err(fault),
        }
    }
    Err(RunFault::Turns(progress.answered))
}

// Returns `count` bytes of 0. It is a function of its own, so that proofs about `run` need to know
// only the number of bytes.
fn zeros(alloc: Global, count: usize) -> Result<Vec<u8>, AllocError>
    ensures { IfOk result (λ bytes. vec_len bytes ≡ count) }
{
    vec![in alloc; 0u8; count]
}

// The state of a run between two reads. `pending`: the first bytes of a line that has not ended.
// `waiting`: the buffer in which an answer waits to be written. `answered`: how many answers were
// written.
#[derive(Drop)]
struct Progress {
    pending: Vec<u8>,
    waiting: OutputBuffer,
    answered: u64,
}

impl Progress {
    // Returns the state of a run before its first read.
    fn new(alloc: Global) -> Result<Progress, AllocError>
        ensures pending { IfOk result (λ progress. progress.pending.items ≡ []) }
        ensures waiting { IfOk result (λ progress. progress.waiting ≡ []) }
        ensures answered { IfOk result (λ progress. progress.answered ≡ 0) }
    {
        let waiting = OutputBuffer::new(alloc)?;
        Ok(Progress {
            pending: Vec::new(alloc),
            waiting,
            answered: 0,
        })
    }

    // Answers the lines that end in one piece of the input (here `piece`), and keeps the
    // beginning of the line after them. `pending` holds the first 65,536 bytes of the current line,
    // so the contract speaks of every line that begins with these bytes.
    fn take_piece<A: AnswerLine, W: AnswerOutput>(
        &mut self,
        alloc: Global,
        answerer: &A,
        piece: &[u8],
        output: &mut W,
    ) -> Result<(), RunFault>
        requires room { self.old.answered + length piece.now < 2 ^ 64 }
        requires waiting { self.old.waiting ≡ [] }
        requires not_failed { W.has_failed output.old ≡ false }
        ensures ok { OnOk result ((unended : List ℕ) → HasNoFeed unended
            → self.old.pending.items ≡ kept_of unended → (lines : List (List ℕ))
            × IsCutTo (unended ++ piece.now) lines self.new.pending.items
            × (self.new.answered ≡ self.old.answered + length lines)
            × AreWritten (A.answers answerer.now) lines (W.written output.old)
            (W.written output.new)) }
        ensures few { OnOk result (self.new.answered ≤ self.old.answered
            + length piece.now) }
        ensures waiting { OnOk result (self.new.waiting ≡ []) }
        ensures not_failed { OnOk result (W.has_failed output.new ≡ false) }
        ensures fault { IfErr result (λ fault. (unended : List ℕ) → HasNoFeed unended
            → self.old.pending.items ≡ kept_of unended → (count : ℕ) × IsAnswerFault fault
            (self.old.answered + count) (W.has_failed output.new)
            × LeavesWritten (A.answers answerer.now) (query_lines (unended ++ piece.now))
            count fault (W.written output.old) (W.written output.new)) }
    {
        let mut rest = piece;
        while let Some((line, later)) = first_line(rest) {
            match self.answer_line(alloc, answerer, line, output) {
                Ok(()) => rest = later,
                Err(fault) => return Err(fault),
            }
        }
        match self.keep(rest) {
            Ok(()) => Ok(()),
            Err(_) => Err(RunFault::Memory(self.answered)),
        }
    }

    // Adds `bytes` to the pending line, of which it keeps the first `KEPT_LENGTH` bytes.
    fn keep(&mut self, bytes: &[u8]) -> Result<(), AllocError>
        ensures pending { OnOk result (self.new.pending.items
            ≡ kept_of (self.old.pending.items ++ bytes.now)) }
        ensures waiting { self.new.waiting ≡ self.old.waiting }
        ensures answered { self.new.answered ≡ self.old.answered }
    {
        self.pending.extend_from_slice(bytes)?;
        self.pending.truncate(KEPT_LENGTH);
        Ok(())
    }

    // Answers the line that consists of the pending bytes and `line`, and counts the answer.
    fn answer_line<A: AnswerLine, W: AnswerOutput>(
        &mut self,
        alloc: Global,
        answerer: &A,
        line: &[u8],
        output: &mut W,
    ) -> Result<(), RunFault>
        requires room { self.old.answered + 1 < 2 ^ 64 }
        requires waiting { self.old.waiting ≡ [] }
        requires not_failed { W.has_failed output.old ≡ false }
        ensures pending { OnOk result (self.new.pending.items ≡ []) }
        ensures waiting { OnOk result (self.new.waiting ≡ []) }
        ensures answered { OnOk result (self.new.answered ≡ self.old.answered + 1) }
        ensures not_failed { OnOk result (W.has_failed output.new ≡ false) }
        ensures answer { OnOk result (AreWritten (A.answers answerer.now)
            ((self.old.pending.items ++ line.now) ∷ []) (W.written output.old)
            (W.written output.new)) }
        ensures fault { IfErr result (λ fault. IsAnswerFault fault self.old.answered
            (W.has_failed output.new)
            × LeavesWritten (A.answers answerer.now) ((self.old.pending.items ++ line.now) ∷ []) 0
            fault (W.written output.old) (W.written output.new)) }
    {
        match self.write_answer(alloc, answerer, line, output) {
            Ok(()) => {
                self.answered += 1;
                Ok(())
            }
            Err(fault) => Err(RunFault::of(fault, self.answered)),
        }
    }

    // Writes the complete answer to the line that consists of the pending bytes and `line`, and
    // clears the pending bytes.
    fn write_answer<A: AnswerLine, W: AnswerOutput>(
        &mut self,
        alloc: Global,
        answerer: &A,
        line: &[u8],
        output: &mut W,
    ) -> Result<(), AnswerFault>
        requires waiting { self.old.waiting ≡ [] }
        requires not_failed { W.has_failed output.old ≡ false }
        ensures pending { OnOk result (self.new.pending.items ≡ []) }
        ensures waiting { OnOk result (self.new.waiting ≡ []) }
        ensures answered { self.new.answered ≡ self.old.answered }
        ensures answer { OnOk result ((text : List ℕ)
            × A.answers answerer.now (self.old.pending.items ++ line.now) text
            × Appends (W.written output.old) (W.written output.new) text) }
        ensures fault { IfErr result (λ fault. LeavesAnswer
            (A.answers answerer.now (self.old.pending.items ++ line.now)) fault
            (W.written output.old) (W.written output.new) [] self.new.waiting) }
        ensures not_failed { OnOk result (W.has_failed output.new ≡ false) }
        ensures failed { IfErr result (λ fault. W.has_failed output.new ≡ is_write fault) }
    {
        if self.pending.extend_from_slice(line).is_err() {
            return Err(AnswerFault::Memory);
        }
        match answerer.answer_line(alloc, self.pending.as_slice(), &mut self.waiting, output) {
            Ok(()) => {}
            Err(fault) => return Err(fault),
        }
        self.pending.clear();
        match self.waiting.flush(output) {
            Ok(()) => Ok(()),
            Err(_) => Err(AnswerFault::Write),
        }
    }

    // Answers the pending bytes as the last line, which no line feed ended, unless they are empty.
    // Returns the number of all answers.
    fn finish<A: AnswerLine, W: AnswerOutput>(
        &mut self,
        alloc: Global,
        answerer: &A,
        output: &mut W,
    ) -> Result<u64, RunFault>
        requires unended { HasNoFeed self.old.pending.items }
        requires room { self.old.answered + 1 < 2 ^ 64 }
        requires waiting { self.old.waiting ≡ [] }
        requires not_failed { W.has_failed output.old ≡ false }
        ensures count { IfOk result (λ count. count ≡ self.old.answered
            + length (query_lines self.old.pending.items)) }
        ensures not_failed { OnOk result (W.has_failed output.new ≡ false) }
        ensures answer { OnOk result (AreWritten (A.answers answerer.now)
            (query_lines self.old.pending.items) (W.written output.old) (W.written output.new)) }
        ensures fault { IfErr result (λ fault. IsAnswerFault fault self.old.answered
            (W.has_failed output.new)
            × LeavesWritten (A.answers answerer.now) (query_lines self.old.pending.items) 0 fault
            (W.written output.old) (W.written output.new)) }
    {
        if self.pending.is_empty() {
            return Ok(self.answered);
        }
        match self.answer_line(alloc, answerer, &[], output) {
            Ok(()) => Ok(self.answered),
            Err(fault) => Err(fault),
        }
    }
}

// Returns the bytes before the first line feed and the bytes after it, or `None` if there is no
// line feed.
fn first_line(bytes: &[u8]) -> Option<(&[u8], &[u8])>
    ensures { MatchOption result (HasNoFeed bytes.now) (λ found.
        (bytes.now ≡ found.0.now ++ line_feed ∷ found.1.now) × HasNoFeed found.0.now) }
{
    match bytes.find_byte(LINE_FEED) {
        Some(at) => Some((&bytes[..at], &bytes[at + 1..])),
        None => None,
    }
}
