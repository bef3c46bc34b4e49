//! Writing the text for the result of a query line into an output buffer.
ghost use Rattle.std.specs.Prelude.{◌≡◌, ◌≢◌, ⊤, IfErr, OnOk, false, length};
ghost use Rattle.ecl_lexer.specs.declared.fault.QueryFault.{QueryFault};
ghost use Rattle.answer_printer.specs.AnswerText.{bound_refusal, refusal_text};
ghost use Rattle.streams.specs.Waiting.{LeavesAnswer, Puts, is_write};
ghost use Rattle.query_tool.specs.inside.LineFound.{MatchFound, found_text};

use crate::finding::LineFound;
use answer_printer::{AnswerForm, print_bound, print_fault, write_answer};
use ecl_lexer::QueryFault;
use idset::ConceptSet;
use snapshot::Snapshot;
use std::alloc::{AllocError, Global};
use streams::{AnswerFault, AnswerOutput, OutputBuffer};

/// Puts the text for the result `found` of a query line into `buffer`, and drops `found`. The
/// buffer writes to `output`.
pub fn write_and_drop<S: ConceptSet, W: AnswerOutput>(
    alloc: Global,
    snapshot: &Snapshot,
    found: LineFound<S>,
    form: AnswerForm,
    buffer: &mut OutputBuffer,
    output: &mut W,
) -> Result<(), AnswerFault>
    requires told { MatchFound found (λ fault. fault ≢ QueryFault.Memory) (λ _. ⊤)
        (λ set. S.bound_of set ≡ length snapshot.now.release.concepts) }
    requires not_failed { W.has_failed output.old ≡ false }
    ensures ok { OnOk result (Puts (W.written output.old) (W.written output.new) buffer.old
        (found_text (λ set. S.items_of set) form snapshot.now found) buffer.new) }
    ensures fault { IfErr result (λ fault. LeavesAnswer
        (λ text. text ≡ found_text (λ set. S.items_of set) form snapshot.now found)
        fault (W.written output.old) (W.written output.new) buffer.old buffer.new) }
    ensures not_failed { OnOk result (W.has_failed output.new ≡ false) }
    ensures failed { IfErr result (λ fault. W.has_failed output.new ≡ is_write fault) }
{
    let written = write_found(alloc, snapshot, &found, form, buffer, output);
    drop(found);
    written
}

// Puts the text for the result `found` of a query line into `buffer`: the refusal, the bound that
// is above the limit, or the answer in the form `form`. A refusal is short, so its text is built
// first; an answer is put line by line.
fn write_found<S: ConceptSet, W: AnswerOutput>(
    alloc: Global,
    snapshot: &Snapshot,
    found: &LineFound<S>,
    form: AnswerForm,
    buffer: &mut OutputBuffer,
    output: &mut W,
) -> Result<(), AnswerFault>
    requires told { MatchFound found.now (λ fault. fault ≢ QueryFault.Memory) (λ _. ⊤)
        (λ set. S.bound_of set ≡ length snapshot.now.release.concepts) }
    requires not_failed { W.has_failed output.old ≡ false }
    ensures ok { OnOk result (Puts (W.written output.old) (W.written output.new) buffer.old
        (found_text (λ set. S.items_of set) form snapshot.now found.now) buffer.new) }
    ensures fault { IfErr result (λ fault. LeavesAnswer
        (λ text. text ≡ found_text (λ set. S.items_of set) form snapshot.now found.now)
        fault (W.written output.old) (W.written output.new) buffer.old buffer.new) }
    ensures not_failed { OnOk result (W.has_failed output.new ≡ false) }
    ensures failed { IfErr result (λ fault. W.has_failed output.new ≡ is_write fault) }
{
    match found {
        LineFound::Refused(fault) => write_refusal(alloc, *fault, buffer, output),
        LineFound::Above(most) => write_bound(alloc, *most, buffer, output),
        LineFound::Concepts(set) => write_answer(alloc, snapshot, set, form, buffer, output),
    }
}

// Puts the line that refuses a text into `buffer`.
fn write_refusal<W: AnswerOutput>(
    alloc: Global,
    fault: QueryFault,
    buffer: &mut OutputBuffer,
    output: &mut W,
) -> Result<(), AnswerFault>
    requires told { fault ≢ QueryFault.Memory }
    requires not_failed { W.has_failed output.old ≡ false }
    ensures ok { OnOk result (Puts (W.written output.old) (W.written output.new) buffer.old
        (refusal_text fault) buffer.new) }
    ensures fault { IfErr result (λ other. LeavesAnswer (λ text. text ≡ refusal_text fault) other
        (W.written output.old) (W.written output.new) buffer.old buffer.new) }
    ensures not_failed { OnOk result (W.has_failed output.new ≡ false) }
    ensures failed { IfErr result (λ other. W.has_failed output.new ≡ is_write other) }
{
    let mut line = Vec::new(alloc);
    match print_fault(alloc, fault, &mut line) {
        Ok(()) => put_text(line.as_slice(), buffer, output),
        Err(AllocError) => Err(AnswerFault::Memory),
    }
}

// Puts the line that refuses a constraint, because its plan's bound `most` is above the limit, into
// `buffer`.
fn write_bound<W: AnswerOutput>(
    alloc: Global,
    most: u64,
    buffer: &mut OutputBuffer,
    output: &mut W,
) -> Result<(), AnswerFault>
    requires { W.has_failed output.old ≡ false }
    ensures ok { OnOk result (Puts (W.written output.old) (W.written output.new) buffer.old
        (bound_refusal most) buffer.new) }
    ensures fault { IfErr result (λ other. LeavesAnswer (λ text. text ≡ bound_refusal most) other
        (W.written output.old) (W.written output.new) buffer.old buffer.new) }
    ensures not_failed { OnOk result (W.has_failed output.new ≡ false) }
    ensures failed { IfErr result (λ other. W.has_failed output.new ≡ is_write other) }
{
    let mut line = Vec::new(alloc);
    match print_bound(alloc, most, &mut line) {
        Ok(()) => put_text(line.as_slice(), buffer, output),
        Err(AllocError) => Err(AnswerFault::Memory),
    }
}

/// Puts `text` into `buffer`, which writes to `output` whenever it is full.
pub fn put_text<W: AnswerOutput>(
    text: &[u8],
    buffer: &mut OutputBuffer,
    output: &mut W,
) -> Result<(), AnswerFault>
    requires { W.has_failed output.old ≡ false }
    ensures ok { OnOk result (Puts (W.written output.old) (W.written output.new) buffer.old text.now
        buffer.new) }
    ensures fault { IfErr result (λ fault. LeavesAnswer (λ other. other ≡ text.now) fault
        (W.written output.old) (W.written output.new) buffer.old buffer.new) }
    ensures not_failed { OnOk result (W.has_failed output.new ≡ false) }
    ensures failed { IfErr result (λ fault. W.has_failed output.new ≡ is_write fault) }
{
    match buffer.put(text, output) {
        Ok(()) => Ok(()),
        Err(_) => Err(AnswerFault::Write),
    }
}
