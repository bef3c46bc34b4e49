//! The answer to a query.
ghost use Rattle.std.specs.Prelude.{◌≡◌, ◌<◌, ◌++◌, All, false, IfErr, IfOk, is_err, length, map, OnErr, OnOk, slice_index};
ghost use Rattle.std.specs.List.{flat_map};
ghost use Rattle.streams.specs.Waiting.{LeavesAnswer, Puts, WritesFront, is_write};
ghost use Rattle.held_release.specs.Line.{concept_line};
ghost use Rattle.held_release.specs.Name.{name_of};
ghost use Rattle.answer_printer.specs.AnswerText.{answer_head, answer_in, answer_text, number_line};
ghost use Rattle.answer_printer.specs.AnswerText.{shown_names, shown_of};
ghost use Rattle.answer_printer.specs.inside.Prefix.{IsPrefixOf};

use crate::form::AnswerForm;
use crate::numbers::append_number;
use held_release::Snapshot;
use idset::ConceptSet;
use std::alloc::{AllocError, Global};
use streams::{AnswerFault, AnswerOutput, IoFault, OutputBuffer};

// The greatest length of the first line: `OK `, 10 digits and LF.
const HEAD_ROOM: usize = 14;

// The greatest length of a line without a name: 18 digits and LF.
const BARE_LINE_ROOM: usize = 19;

/// Appends the whole answer to a query that found the concepts `set`. The first line is `OK` and
/// the number of concepts. Then each concept has a line, in rising order of the identifiers: its
/// identifier, and its name between bars if it has one (Expression Constraint Language, "Concept
/// references"). Every line ends in LF. `set` holds the concepts by their numbers in `snapshot`. If
/// memory is refused, it returns `AllocError`, and `output` is unchanged.
pub fn print_answer<S: ConceptSet>(
    alloc: Global,
    snapshot: &Snapshot,
    set: &S,
    output: &mut Vec<u8>,
) -> Result<(), AllocError>
    requires { S.bound_of set.now ≡ length snapshot.now.release.concepts }
    ensures ok { OnOk result (output.new.items ≡ output.old.items
        ++ answer_text (name_of snapshot.now.release snapshot.now.language)
        (map (slice_index snapshot.now.release.concepts) (S.items_of set.now))) }
    ensures err { OnErr result (output.new.items ≡ output.old.items) }
{
    print_answer_in(alloc, snapshot, set, AnswerForm::whole(), output)
}

/// Appends the answer for the concepts `set`, as `print_answer` does, but only the lines that
/// `form` asks for. The count on the first line is that of all concepts in `set`. If memory is
/// refused, it returns `AllocError`, and `output` is unchanged.
pub fn print_answer_in<S: ConceptSet>(
    alloc: Global,
    snapshot: &Snapshot,
    set: &S,
    form: AnswerForm,
    output: &mut Vec<u8>,
) -> Result<(), AllocError>
    requires { S.bound_of set.now ≡ length snapshot.now.release.concepts }
    ensures ok { OnOk result (output.new.items ≡ output.old.items
        ++ answer_in form (name_of snapshot.now.release snapshot.now.language)
        (map (slice_index snapshot.now.release.concepts) (S.items_of set.now))) }
    ensures err { OnErr result (output.new.items ≡ output.old.items) }
{
    let shown = form.shown(alloc, set)?;
    let start = output.len();
    let appended = append_answer(snapshot, set, shown.as_slice(), form, output);
    if appended.is_err() {
        output.truncate(start);
    }
    appended
}

// Appends the answer for `set`, whose lines are those of the numbers `shown`. If memory is refused,
// a part of it may be appended. `reserve` takes all room at once, so that no byte is copied again
// when `output` grows.
fn append_answer<S: ConceptSet>(
    snapshot: &Snapshot,
    set: &S,
    shown: &[u32],
    form: AnswerForm,
    output: &mut Vec<u8>,
) -> Result<(), AllocError>
    requires set { S.bound_of set.now ≡ length snapshot.now.release.concepts }
    requires shown { shown.now ≡ shown_of form.offset form.first (S.items_of set.now) }
    ensures ok { OnOk result (output.new.items ≡ output.old.items
        ++ answer_in form (name_of snapshot.now.release snapshot.now.language)
        (map (slice_index snapshot.now.release.concepts) (S.items_of set.now))) }
    ensures begun { IsPrefixOf output.old.items output.new.items }
{
    output.reserve(room_of(snapshot, shown, form.names))?;
    append_head(set.count() as usize, output)?;
    append_lines(snapshot, shown, form.names, output)
}

// Appends the first line of an answer with `count` concepts. If memory is refused, a part of the
// line may be appended.
fn append_head(count: usize, output: &mut Vec<u8>) -> Result<(), AllocError>
    ensures ok { OnOk result (output.new.items ≡ output.old.items ++ answer_head count) }
    ensures begun { IsPrefixOf output.old.items output.new.items }
{
    output.extend_from_slice(b"OK ")?;
    append_number(count as u64, output)?;
    output.push(b'\n')?;
    Ok(())
}

// Returns an upper bound, close to the true value, on the length of an answer with the lines of
// `concepts`; `usize::MAX` if the bound would be greater.
fn room_of(snapshot: &Snapshot, concepts: &[u32], names: bool) -> usize
    requires { All (λ concept. concept < length snapshot.now.release.concepts) concepts.now }
{
    if !names {
        return HEAD_ROOM.saturating_add(concepts.len().saturating_mul(BARE_LINE_ROOM));
    }
    let mut room = HEAD_ROOM;
    for concept in concepts {
        room = room.saturating_add(snapshot.line(*concept).len());
    }
    room
}

// Appends a line for each of `concepts`, with names if `names` is true. If memory is refused, a
// part of the lines may be appended.
fn append_lines(
    snapshot: &Snapshot,
    concepts: &[u32],
    names: bool,
    output: &mut Vec<u8>,
) -> Result<(), AllocError>
    requires { All (λ concept. concept < length snapshot.now.release.concepts) concepts.now }
    ensures ok { OnOk result (output.new.items ≡ output.old.items
        ++ flat_map (concept_line (shown_names names
        (name_of snapshot.now.release snapshot.now.language)))
        (map (slice_index snapshot.now.release.concepts) concepts.now)) }
    ensures begun { IsPrefixOf output.old.items output.new.items }
{
    for concept in concepts {
        append_line(snapshot, *concept, names, output)?;
    }
    Ok(())
}

// Appends the line of `concept`, with its name if `names` is true. If memory is refused, a part of
// the line may be appended.
fn append_line(
    snapshot: &Snapshot,
    concept: u32,
    names: bool,
    output: &mut Vec<u8>,
) -> Result<(), AllocError>
    requires { concept < length snapshot.now.release.concepts }
    ensures ok { OnOk result (output.new.items ≡ output.old.items
        ++ concept_line (shown_names names (name_of snapshot.now.release snapshot.now.language))
        (slice_index snapshot.now.release.concepts concept)) }
    ensures begun { IsPrefixOf output.old.items output.new.items }
{
    if names {
        return output.extend_from_slice(snapshot.line(concept));
    }
    append_number(snapshot.id_at(concept).number(), output)?;
    output.push(b'\n')?;
    Ok(())
}

/// Puts the text that `print_answer_in` appends into `buffer`, line by line; the buffer writes to
/// `output` whenever it is full. All memory is taken before the first byte is put: if it is
/// refused, `buffer` and `output` are unchanged. If `output` fails, it has received a proper prefix
/// of the bytes that waited in `buffer` followed by the answer.
pub fn write_answer<S: ConceptSet, W: AnswerOutput>(
    alloc: Global,
    snapshot: &Snapshot,
    set: &S,
    form: AnswerForm,
    buffer: &mut OutputBuffer,
    output: &mut W,
) -> Result<(), AnswerFault>
    requires set { S.bound_of set.now ≡ length snapshot.now.release.concepts }
    requires not_failed { W.has_failed output.old ≡ false }
    ensures ok { OnOk result (Puts (W.written output.old) (W.written output.new) buffer.old
        (answer_in form (name_of snapshot.now.release snapshot.now.language)
        (map (slice_index snapshot.now.release.concepts) (S.items_of set.now))) buffer.new) }
    ensures fault { IfErr result (λ fault. LeavesAnswer
        (λ text. text ≡ answer_in form (name_of snapshot.now.release snapshot.now.language)
        (map (slice_index snapshot.now.release.concepts) (S.items_of set.now)))
        fault (W.written output.old) (W.written output.new) buffer.old buffer.new) }
    ensures not_failed { OnOk result (W.has_failed output.new ≡ false) }
    ensures failed { IfErr result (λ fault. W.has_failed output.new ≡ is_write fault) }
{
    let shown = match form.shown(alloc, set) {
        Ok(shown) => shown,
        Err(AllocError) => return Err(AnswerFault::Memory),
    };
    let head = match head_line(alloc, set.count() as usize) {
        Ok(head) => head,
        Err(AllocError) => return Err(AnswerFault::Memory),
    };
    match put_answer(
        snapshot,
        head.as_slice(),
        shown.as_slice(),
        form.names,
        buffer,
        output,
    ) {
        Ok(()) => Ok(()),
        Err(_) => Err(AnswerFault::Write),
    }
}

// Returns the first line of an answer with `count` concepts.
fn head_line(alloc: Global, count: usize) -> Result<Vec<u8>, AllocError>
    ensures { IfOk result (λ line. line.items ≡ answer_head count) }
{
    let mut line = Vec::new(alloc);
    append_head(count, &mut line)?;
    Ok(line)
}

// Puts the first line `head` and the lines of `concepts` into `buffer`, which writes to `output`.
fn put_answer<W: AnswerOutput>(
    snapshot: &Snapshot,
    head: &[u8],
    concepts: &[u32],
    names: bool,
    buffer: &mut OutputBuffer,
    output: &mut W,
) -> Result<(), IoFault>
    requires concepts { All (λ concept. concept < length snapshot.now.release.concepts)
        concepts.now }
    requires not_failed { W.has_failed output.old ≡ false }
    ensures ok { OnOk result (Puts (W.written output.old) (W.written output.new) buffer.old
        (head.now ++ flat_map (concept_line
        (shown_names names (name_of snapshot.now.release snapshot.now.language)))
        (map (slice_index snapshot.now.release.concepts) concepts.now)) buffer.new) }
    ensures err { OnErr result (WritesFront (W.written output.old) (W.written output.new)
        (buffer.old ++ (head.now ++ flat_map
        (concept_line (shown_names names (name_of snapshot.now.release snapshot.now.language)))
        (map (slice_index snapshot.now.release.concepts) concepts.now)))) }
    ensures failure { W.has_failed output.new ≡ is_err result }
{
    match buffer.put(head, output) {
        Ok(()) => put_lines(snapshot, concepts, names, buffer, output),
        Err(fault) => Err(fault),
    }
}

// Puts a line for each of `concepts` into `buffer`, with names if `names` is true.
fn put_lines<W: AnswerOutput>(
    snapshot: &Snapshot,
    concepts: &[u32],
    names: bool,
    buffer: &mut OutputBuffer,
    output: &mut W,
) -> Result<(), IoFault>
    requires concepts { All (λ concept. concept < length snapshot.now.release.concepts)
        concepts.now }
    requires not_failed { W.has_failed output.old ≡ false }
    ensures ok { OnOk result (Puts (W.written output.old) (W.written output.new) buffer.old
        (flat_map (concept_line (shown_names names
        (name_of snapshot.now.release snapshot.now.language)))
        (map (slice_index snapshot.now.release.concepts) concepts.now)) buffer.new) }
    ensures err { OnErr result (WritesFront (W.written output.old) (W.written output.new)
        (buffer.old ++ flat_map (concept_line
        (shown_names names (name_of snapshot.now.release snapshot.now.language)))
        (map (slice_index snapshot.now.release.concepts) concepts.now))) }
    ensures failure { W.has_failed output.new ≡ is_err result }
{
    for concept in concepts {
        match put_line(snapshot, *concept, names, buffer, output) {
            Ok(()) => {}
            Err(fault) => return Err(fault),
        }
    }
    Ok(())
}

// Puts the line of `concept` into `buffer`. With `names`, this is the line that the snapshot keeps;
// without, the identifier alone.
fn put_line<W: AnswerOutput>(
    snapshot: &Snapshot,
    concept: u32,
    names: bool,
    buffer: &mut OutputBuffer,
    output: &mut W,
) -> Result<(), IoFault>
    requires concept { concept < length snapshot.now.release.concepts }
    requires not_failed { W.has_failed output.old ≡ false }
    ensures ok { OnOk result (Puts (W.written output.old) (W.written output.new) buffer.old
        (concept_line (shown_names names (name_of snapshot.now.release snapshot.now.language))
        (slice_index snapshot.now.release.concepts concept)) buffer.new) }
    ensures err { OnErr result (WritesFront (W.written output.old) (W.written output.new)
        (buffer.old ++ concept_line (shown_names names
        (name_of snapshot.now.release snapshot.now.language))
        (slice_index snapshot.now.release.concepts concept))) }
    ensures failure { W.has_failed output.new ≡ is_err result }
{
    if names {
        return buffer.put(snapshot.line(concept), output);
    }
    put_number_line(snapshot.id_at(concept).number(), buffer, output)
}

// Puts `number` in decimal and LF into `buffer`.
fn put_number_line<W: AnswerOutput>(
    number: u64,
    buffer: &mut OutputBuffer,
    output: &mut W,
) -> Result<(), IoFault>
    requires { W.has_failed output.old ≡ false }
    ensures ok { OnOk result (Puts (W.written output.old) (W.written output.new) buffer.old
        (number_line number) buffer.new) }
    ensures err { OnErr result (WritesFront (W.written output.old) (W.written output.new)
        (buffer.old ++ number_line number)) }
    ensures failure { W.has_failed output.new ≡ is_err result }
{
    let mut digits = itoa::Buffer::new();
    buffer.put_line(digits.format(number).as_bytes(), output)
}
