//! The report on a loaded release.
ghost use Rattle.std.specs.Prelude.{◌≡◌, ◌++◌, IfOk, OnErr, OnOk};
ghost use Rattle.answer_printer.specs.AnswerText.{number_line};
ghost use Rattle.answer_printer.specs.ReportText.{report_text};

use crate::numbers::append_number;
use held_release::Report;
use std::alloc::{AllocError, Global};

/// Appends the row counts of a release. Each line has a word and a number: `FILES` counts the files
/// whose name has a known kind; `CONCEPTS`, `ISA`, `ATTRIBUTES`, `MEMBERS` and `NAMES` count the
/// rows in force of the five lists; `PASSED` counts the rows in none of these lists. If memory is
/// refused, it returns `AllocError`, and `output` is unchanged.
pub fn print_report(alloc: Global, report: &Report, output: &mut Vec<u8>) -> Result<(), AllocError>
    ensures ok { OnOk result (output.new.items ≡ output.old.items ++ report_text report.now) }
    ensures err { OnErr result (output.new.items ≡ output.old.items) }
{
    let text = report_bytes(alloc, report)?;
    output.extend_from_slice(text.as_slice())
}

// Returns the text of `report`. It is built in a vector of its own, so that a refused allocation
// leaves no part of it in the output.
fn report_bytes(alloc: Global, report: &Report) -> Result<Vec<u8>, AllocError>
    ensures { IfOk result (λ text. text.items ≡ report_text report.now) }
{
    let mut text = Vec::new(alloc);
    push_count(b"FILES ", report.files, &mut text)?;
    push_count(b"CONCEPTS ", report.concepts, &mut text)?;
    push_count(b"ISA ", report.isa, &mut text)?;
    push_count(b"ATTRIBUTES ", report.attributes, &mut text)?;
    push_count(b"MEMBERS ", report.members, &mut text)?;
    push_count(b"NAMES ", report.names, &mut text)?;
    push_count(b"PASSED ", report.passed, &mut text)?;
    Ok(text)
}

// Appends `word`, the number `count`, and LF.
fn push_count(word: &[u8], count: u64, text: &mut Vec<u8>) -> Result<(), AllocError>
    ensures { OnOk result (text.new.items ≡ text.old.items ++ (word.now ++ number_line count)) }
{
    text.extend_from_slice(word)?;
    append_number(count, text)?;
    text.push(b'\n')?;
    Ok(())
}
