//! The lines that refuse a query.
ghost use Rattle.std.specs.Prelude.{◌≡◌, ◌≢◌, ◌++◌, ◌∷◌, decimal, IfOk, OnErr, OnOk};
ghost use Rattle.ecl_lexer.specs.Refusals.{feature_name};
ghost use Rattle.answer_printer.specs.AnswerText.{bound_refusal, number_line, refusal_text};

use crate::numbers::append_number;
use ecl_lexer::{Feature, QueryFault};
use std::alloc::{AllocError, Global};

/// Appends the line that refuses a query's text: `ERR`, the kind of `fault`, its offset in bytes
/// from 0, the unsupported form of the language, as far as the fault has them, and LF.
/// `QueryFault::Memory` has no line and must not be passed. If memory is refused, it returns
/// `AllocError`, and `output` is unchanged.
pub fn print_fault(alloc: Global, fault: QueryFault, output: &mut Vec<u8>) -> Result<(), AllocError>
    requires { fault ≢ QueryFault.Memory }
    ensures ok { OnOk result (output.new.items ≡ output.old.items ++ refusal_text fault) }
    ensures err { OnErr result (output.new.items ≡ output.old.items) }
{
    let line = fault_line(alloc, fault)?;
    output.extend_from_slice(line.as_slice())
}

/// Appends the line that refuses a constraint because its plan may visit more items than the
/// caller's limit: `ERR bound`, the plan's bound, and LF. If memory is refused, it returns
/// `AllocError`, and `output` is unchanged.
pub fn print_bound(alloc: Global, bound: u64, output: &mut Vec<u8>) -> Result<(), AllocError>
    ensures ok { OnOk result (output.new.items ≡ output.old.items ++ bound_refusal bound) }
    ensures err { OnErr result (output.new.items ≡ output.old.items) }
{
    let text = numbered_line(alloc, b"ERR bound ", bound)?;
    output.extend_from_slice(text.as_slice())
}

// Returns the line that refuses a text. It is built in a vector of its own, so that a refused
// allocation leaves no part of it in the output.
fn fault_line(alloc: Global, fault: QueryFault) -> Result<Vec<u8>, AllocError>
    requires { fault ≢ QueryFault.Memory }
    ensures { IfOk result (λ line. line.items ≡ refusal_text fault) }
{
    match fault {
        QueryFault::Long => Vec::from_slice(alloc, b"ERR long\n"),
        QueryFault::Utf8 => Vec::from_slice(alloc, b"ERR utf8\n"),
        QueryFault::Token(offset) => numbered_line(alloc, b"ERR token ", offset as u64),
        QueryFault::Unsupported(offset, feature) => form_line(alloc, offset, feature),
        QueryFault::Limit(offset) => numbered_line(alloc, b"ERR limit ", offset as u64),
        QueryFault::Depth => Vec::from_slice(alloc, b"ERR depth\n"),
        QueryFault::Syntax => Vec::from_slice(alloc, b"ERR syntax\n"),
        QueryFault::Memory => unreachable!(),
    }
}

// Returns the line that consists of `words`, `number` and LF.
fn numbered_line(alloc: Global, words: &[u8], number: u64) -> Result<Vec<u8>, AllocError>
    ensures { IfOk result (λ line. line.items ≡ words.now ++ number_line number) }
{
    let mut line = Vec::from_slice(alloc, words)?;
    append_number(number, &mut line)?;
    line.push(b'\n')?;
    Ok(line)
}

// Returns the line that refuses a text with an unsupported form of the language at byte `offset`.
fn form_line(alloc: Global, offset: usize, feature: Feature) -> Result<Vec<u8>, AllocError>
    ensures { IfOk result (λ line. line.items
        ≡ refusal_text (QueryFault.Unsupported offset feature)) }
{
    let mut line = Vec::from_slice(alloc, b"ERR unsupported ")?;
    append_number(offset as u64, &mut line)?;
    line.push(b' ')?;
    line.extend_from_slice(feature.name().as_bytes())?;
    line.push(b'\n')?;
    Ok(line)
}
