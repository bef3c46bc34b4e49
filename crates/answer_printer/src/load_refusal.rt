//! The line on standard error that says why a release was refused, or why its files can't be read.
ghost use Rattle.std.specs.Prelude.{◌≡◌, ◌++◌, ◌∷◌, [], codes, decimal, OnErr, OnOk, IfOk, slice_index_or};
ghost use Rattle.answer_printer.specs.LoadRefusal.{cause_word as word_of_cause, id_word as word_of_id, load_refusal, refused_line};
ghost use Rattle.answer_printer.specs.ToldName.{told_name};
ghost use Rattle.text_parts.specs.Parts.{texts_of};

use crate::told_name::push_name;
use rf2_rows::{RowCause, RowFault};
use row_lists::LoadFault;
use sctid::IdFault;
use std::alloc::{AllocError, Global};

/// Appends the line that says why a release was refused: `REFUSED`, the kind of `fault`, and then
/// the fault's file, line, column and cause or its concept, as far as the fault has them. A fault
/// names a file by its index in `names`, the list of the files that were to be loaded. The file's
/// name is printed with each ASCII control character as `\x` and two hexadecimal digits. Lines and
/// columns count from 1; column 0 means that the row has a wrong number of fields. If memory is
/// refused, it returns `AllocError`, and `output` is unchanged.
pub fn print_load_fault(
    alloc: Global,
    fault: LoadFault,
    names: &[&str],
    output: &mut Vec<u8>,
) -> Result<(), AllocError>
    ensures ok { OnOk result (output.new.items ≡ output.old.items
        ++ load_refusal (texts_of names.now) fault) }
    ensures err { OnErr result (output.new.items ≡ output.old.items) }
{
    let line = refusal_line(alloc, fault, names)?;
    output.extend_from_slice(line.as_slice())
}

// Returns the line of `fault`. It is built in a vector of its own, so that a refused allocation
// leaves no part of it in the output.
fn refusal_line(alloc: Global, fault: LoadFault, names: &[&str]) -> Result<Vec<u8>, AllocError>
    ensures { IfOk result (λ line. line.items ≡ load_refusal (texts_of names.now) fault) }
{
    match fault {
        LoadFault::NoConceptFile => plain_line(alloc, b"no-concept-file"),
        LoadFault::Header { file } => file_line(alloc, b"header", name_at(names, file)),
        LoadFault::Row { file, line, fault } => row_line(alloc, name_at(names, file), line, fault),
        LoadFault::Conflict { file, line } => {
            place_line(alloc, b"conflict", name_at(names, file), line)
        }
        LoadFault::TooMany { file, line } => place_line(
            alloc,
            b"too-many",
            name_at(names, file),
            line,
        ),
        LoadFault::Cycle(concept) => cycle_line(alloc, concept.number()),
        LoadFault::Device { file } => device_line(alloc, names, file),
        LoadFault::Memory => plain_line(alloc, b"memory"),
    }
}

// Returns the line for a file that can't be read; without `file`, the line for folders whose files
// can't be listed.
fn device_line(alloc: Global, names: &[&str], file: Option<usize>) -> Result<Vec<u8>, AllocError>
    ensures { IfOk result (λ line. line.items
        ≡ load_refusal (texts_of names.now) (LoadFault.Device file)) }
{
    match file {
        Some(file) => file_line(alloc, b"device", name_at(names, file)),
        None => plain_line(alloc, b"device"),
    }
}

// Returns the line of a fault that has no more than a kind.
fn plain_line(alloc: Global, kind: &[u8]) -> Result<Vec<u8>, AllocError>
    ensures { IfOk result (λ line. line.items ≡ refused_line (kind.now ∷ [])) }
{
    let mut line = begun(alloc, kind)?;
    line.push(b'\n')?;
    Ok(line)
}

// Returns the line of a fault in a file, with the file's name.
fn file_line(alloc: Global, kind: &[u8], name: &str) -> Result<Vec<u8>, AllocError>
    ensures { IfOk result (λ line. line.items ≡ refused_line (kind.now ∷ told_name name.now ∷ [])) }
{
    let mut line = begun(alloc, kind)?;
    push_name(&mut line, name)?;
    line.push(b'\n')?;
    Ok(line)
}

// Returns the line of a fault in line `number` of a file.
fn place_line(alloc: Global, kind: &[u8], name: &str, number: u64) -> Result<Vec<u8>, AllocError>
    ensures { IfOk result (λ line. line.items
        ≡ refused_line (kind.now ∷ told_name name.now ∷ decimal number ∷ [])) }
{
    let mut line = begun(alloc, kind)?;
    push_name(&mut line, name)?;
    push_number(&mut line, number)?;
    line.push(b'\n')?;
    Ok(line)
}

// Returns the line of a fault in a row: file, line, column and cause.
fn row_line(alloc: Global, name: &str, number: u64, fault: RowFault) -> Result<Vec<u8>, AllocError>
    ensures { IfOk result (λ line. line.items
        ≡ refused_line (codes "row" ∷ told_name name.now ∷ decimal number ∷ decimal fault.column
        ∷ word_of_cause fault.cause ∷ [])) }
{
    let mut line = begun(alloc, b"row")?;
    push_name(&mut line, name)?;
    push_number(&mut line, number)?;
    push_number(&mut line, u64::from(fault.column))?;
    push_word(&mut line, cause_word(fault.cause))?;
    line.push(b'\n')?;
    Ok(line)
}

// Returns the line for an is-a cycle through the concept with the identifier `concept`.
fn cycle_line(alloc: Global, concept: u64) -> Result<Vec<u8>, AllocError>
    ensures { IfOk result (λ line. line.items
        ≡ refused_line (codes "cycle" ∷ decimal concept ∷ [])) }
{
    let mut line = begun(alloc, b"cycle")?;
    push_number(&mut line, concept)?;
    line.push(b'\n')?;
    Ok(line)
}

// Returns the name of the file at index `file`, or an empty name if `names` is too short.
fn name_at<'a>(names: &[&'a str], file: usize) -> &'a str
    ensures { result.now ≡ slice_index_or (texts_of names.now) file [] }
{
    match names.get(file) {
        Some(name) => name,
        None => "",
    }
}

// Returns the beginning of a line: `REFUSED`, a space and the kind of the fault.
fn begun(alloc: Global, kind: &[u8]) -> Result<Vec<u8>, AllocError>
    ensures { IfOk result (λ line. line.items ≡ codes "REFUSED" ++ 32 ∷ kind.now) }
{
    let mut line = Vec::from_slice(alloc, b"REFUSED")?;
    push_word(&mut line, kind)?;
    Ok(line)
}

// Appends a space and `word`.
fn push_word(line: &mut Vec<u8>, word: &[u8]) -> Result<(), AllocError>
    ensures { OnOk result (line.new.items ≡ line.old.items ++ 32 ∷ word.now) }
{
    line.push(b' ')?;
    line.extend_from_slice(word)
}

// Appends a space and `number` in decimal.
fn push_number(line: &mut Vec<u8>, number: u64) -> Result<(), AllocError>
    ensures { OnOk result (line.new.items ≡ line.old.items ++ 32 ∷ decimal number) }
{
    let mut digits = itoa::Buffer::new();
    push_word(line, digits.format(number).as_bytes())
}

// Returns the word for the cause why a row is refused.
fn cause_word(cause: RowCause) -> &'static [u8]
    ensures { result.now ≡ word_of_cause cause }
{
    match cause {
        RowCause::Fields => b"fields",
        RowCause::Id(fault) => id_word(fault),
        RowCause::Time => b"time",
        RowCause::Active => b"active",
        RowCause::Group => b"group",
        RowCause::Value => b"value",
        RowCause::Utf8 => b"utf8",
        RowCause::Uuid => b"uuid",
    }
}

// Returns the word for the cause why an identifier is refused.
fn id_word(fault: IdFault) -> &'static [u8]
    ensures { result.now ≡ word_of_id fault }
{
    match fault {
        IdFault::Length => b"id-length",
        IdFault::Digit => b"id-digit",
        IdFault::LeadingZero => b"id-zero",
        IdFault::Partition => b"id-part",
        IdFault::Check => b"id-check",
    }
}
