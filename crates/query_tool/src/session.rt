//! Writing the answer to a line of `session`.
ghost use Rattle.std.specs.Prelude.{◌≡◌, ℕ, codes, false, IfErr, List, OnOk};
ghost use Rattle.query_service.specs.LimitedAnswer.{IsAnswerWithin};
ghost use Rattle.query_service.specs.SessionAnswer.{AnswersAsked, IsSessionAnswer, page_form, page_limit};
ghost use Rattle.session_line.specs.SessionRequest.{asked_in};
ghost use Rattle.streams.specs.Waiting.{LeavesAnswer, Puts, is_write};

use crate::describing::write_description;
use crate::engine::Engine;
use crate::explaining::write_explanation;
use crate::writing::put_text;
use answer_printer::AnswerForm;
use session_line::{Page, SessionRequest, read_request};
use std::alloc::Global;
use streams::{AnswerFault, AnswerOutput, OutputBuffer};

/// The greatest length of a line in bytes.
pub const MOST_BYTES: usize = 65_535;

/// Puts the answer to a line of `session` into `buffer`, which writes to `output`.
pub fn write_request<W: AnswerOutput>(
    alloc: Global,
    engine: &Engine,
    line: &[u8],
    buffer: &mut OutputBuffer,
    output: &mut W,
) -> Result<(), AnswerFault>
    requires { W.has_failed output.old ≡ false }
    ensures ok { OnOk result ((text : List ℕ) × IsSessionAnswer engine.now line.now text
        × Puts (W.written output.old) (W.written output.new) buffer.old text buffer.new) }
    ensures fault { IfErr result (λ fault. LeavesAnswer (IsSessionAnswer engine.now line.now) fault
        (W.written output.old) (W.written output.new) buffer.old buffer.new) }
    ensures not_failed { OnOk result (W.has_failed output.new ≡ false) }
    ensures failed { IfErr result (λ fault. W.has_failed output.new ≡ is_write fault) }
{
    if line.len() > MOST_BYTES {
        return put_text(b"ERR long\n", buffer, output);
    }
    write_asked(alloc, engine, read_request(line), buffer, output)
}

// Puts the answer to a request into `buffer`, which writes to `output`.
fn write_asked<W: AnswerOutput>(
    alloc: Global,
    engine: &Engine,
    request: SessionRequest<'_>,
    buffer: &mut OutputBuffer,
    output: &mut W,
) -> Result<(), AnswerFault>
    requires { W.has_failed output.old ≡ false }
    ensures ok { OnOk result ((text : List ℕ)
        × AnswersAsked engine.now (asked_in request.entry) text
        × Puts (W.written output.old) (W.written output.new) buffer.old text buffer.new) }
    ensures fault { IfErr result (λ fault. LeavesAnswer
        (AnswersAsked engine.now (asked_in request.entry)) fault (W.written output.old)
        (W.written output.new) buffer.old buffer.new) }
    ensures not_failed { OnOk result (W.has_failed output.new ≡ false) }
    ensures failed { IfErr result (λ fault. W.has_failed output.new ≡ is_write fault) }
{
    match request {
        SessionRequest::Page(page, constraint) => {
            write_page(alloc, engine, page, constraint, buffer, output)
        }
        SessionRequest::Plan(constraint) => {
            write_explanation(alloc, engine, constraint, buffer, output)
        }
        SessionRequest::Concept(id) => write_description(alloc, engine, id, buffer, output),
        SessionRequest::Nothing => put_text(b"ERR request\n", buffer, output),
    }
}

// Puts a page of the answer to a constraint's text into `buffer`, which writes to `output`.
fn write_page<W: AnswerOutput>(
    alloc: Global,
    engine: &Engine,
    page: Page,
    constraint: &[u8],
    buffer: &mut OutputBuffer,
    output: &mut W,
) -> Result<(), AnswerFault>
    requires { W.has_failed output.old ≡ false }
    ensures ok { OnOk result ((text : List ℕ)
        × IsAnswerWithin (page_limit page) (page_form page) engine.now constraint.now text
        × Puts (W.written output.old) (W.written output.new) buffer.old text buffer.new) }
    ensures fault { IfErr result (λ fault. LeavesAnswer
        (IsAnswerWithin (page_limit page) (page_form page) engine.now constraint.now) fault
        (W.written output.old) (W.written output.new) buffer.old buffer.new) }
    ensures not_failed { OnOk result (W.has_failed output.new ≡ false) }
    ensures failed { IfErr result (λ fault. W.has_failed output.new ≡ is_write fault) }
{
    engine.write_within(
        alloc,
        constraint,
        limit_of(page),
        form_of(page),
        buffer,
        output,
    )
}

/// Returns the form of answer that a page asks for.
pub fn form_of(page: Page) -> AnswerForm
    ensures { result ≡ page_form page }
{
    AnswerForm {
        offset: page.offset,
        first: page.count,
        names: page.names,
    }
}

/// Returns the limit on the visits of a page's plan, or `u64::MAX` if the page sets none.
pub fn limit_of(page: Page) -> u64
    ensures { result ≡ page_limit page }
{
    page.limit.unwrap_or(u64::MAX)
}
