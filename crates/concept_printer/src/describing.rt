//! The answer to a line of `describe`.
ghost use Rattle.std.specs.Prelude.{◌≡◌, ◌++◌, codes, IfOk, OnOk};
ghost use Rattle.postings.specs.Indexed.{IsIndexOf};
ghost use Rattle.concept_printer.specs.ConceptText.{description_text, fault_line, identifier_line, told_of};

use crate::concept::{append_concept, append_number};
use crate::named_concept::{LineFault, cause_word, named_concept};
use held_release::Snapshot;
use postings::Indexes;
use std::alloc::{AllocError, Global};

/// Returns the answer to a line of `describe`, which names a concept by its identifier. For a
/// concept in force, the text lists its parents and children, its attribute rows group by group,
/// and the reference sets that it is in. Otherwise it says that the concept is inactive or unknown,
/// or why `line` names no concept. Every line ends in LF. `indexes` must be those of the release in
/// `snapshot`. If memory is refused, it returns `AllocError`.
pub fn description(
    alloc: Global,
    snapshot: &Snapshot,
    indexes: &Indexes,
    line: &[u8],
) -> Result<Vec<u8>, AllocError>
    requires { IsIndexOf indexes.now snapshot.now.release }
    ensures { IfOk result (λ text. text.items ≡ description_text snapshot.now line.now) }
{
    let mut text = Vec::new(alloc);
    match named_concept(line) {
        Ok(id) => append_told(alloc, snapshot, indexes, id, &mut text)?,
        Err(fault) => append_fault(fault, &mut text)?,
    }
    Ok(text)
}

// Appends what the release says of the concept with the identifier `id`.
fn append_told(
    alloc: Global,
    snapshot: &Snapshot,
    indexes: &Indexes,
    id: u64,
    text: &mut Vec<u8>,
) -> Result<(), AllocError>
    requires { IsIndexOf indexes.now snapshot.now.release }
    ensures { OnOk result (text.new.items ≡ text.old.items ++ told_of snapshot.now id) }
{
    match snapshot.index_of(id) {
        Some(concept) => append_concept(alloc, snapshot, indexes, concept, text),
        None if snapshot.is_inactive(id) => append_identifier(b"INACTIVE", id, text),
        None => append_identifier(b"UNKNOWN", id, text),
    }
}

// Appends a line with `word` and the identifier `id`.
fn append_identifier(word: &[u8], id: u64, text: &mut Vec<u8>) -> Result<(), AllocError>
    ensures { OnOk result (text.new.items ≡ text.old.items ++ identifier_line word.now id) }
{
    text.extend_from_slice(word)?;
    text.push(b' ')?;
    append_number(id, text)?;
    text.push(b'\n')?;
    Ok(())
}

// Appends the line that says why a line of `describe` names no concept.
fn append_fault(fault: LineFault, text: &mut Vec<u8>) -> Result<(), AllocError>
    ensures { OnOk result (text.new.items ≡ text.old.items ++ fault_line fault) }
{
    match fault {
        LineFault::Long => text.extend_from_slice(b"ERR long\n"),
        LineFault::Utf8 => text.extend_from_slice(b"ERR utf8\n"),
        LineFault::Id(fault) => {
            text.extend_from_slice(b"ERR id ")?;
            text.extend_from_slice(cause_word(fault))?;
            text.push(b'\n')?;
            Ok(())
        }
    }
}
