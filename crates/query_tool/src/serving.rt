//! The service of the program, with `Engine` as its engine.
ghost use Rattle.std.specs.Prelude.{◌≡◌, false, string_bytes};
ghost use Rattle.query_service.specs.ModeAnswer.{form_of};
ghost use Rattle.query_service.specs.Report.{report_of};
ghost use Rattle.query_service.specs.Serve.{EndsWith, IsTask, Task};
ghost use Rattle.query_service.specs.Streams.{streams};

use crate::describing::write_description;
use crate::engine::Engine;
use crate::explaining::write_explanation;
use crate::session::write_request;
use crate::writing::put_text;
use answer_printer::AnswerForm;
use command_line::{Mode, QueryOptions, Request};
use query_service::{QueryEngine, Status};
use release_files::{FileSource, NamedBytes};
use snapshot::{Limits, LoadFault, LoadSnapshot, Report, Snapshot};
use std::alloc::Global;
use streams::{AnswerFault, AnswerOutput, OutputBuffer, QueryInput};

impl QueryEngine for Engine {
    ghost contents = { λ engine. engine };

    fn load(
        alloc: Global,
        files: &[NamedBytes<'_>],
        lang: &str,
        limits: Limits,
    ) -> Result<Engine, LoadFault> {
        Engine::load(alloc, files, lang, limits)
    }

    fn load_from<S: FileSource>(
        alloc: Global,
        source: &mut S,
        names: &mut Vec<String>,
        lang: &str,
        limits: Limits,
    ) -> Result<Engine, LoadFault> {
        Engine::load_from(alloc, source, names, lang, limits)
    }

    fn report_from<S: FileSource>(
        alloc: Global,
        source: &mut S,
        names: &mut Vec<String>,
        lang: &str,
        limits: Limits,
    ) -> Result<Report, LoadFault> {
        match Snapshot::load_from(alloc, source, names, lang, limits) {
            Ok(snapshot) => Ok(report_and_drop(snapshot)),
            Err(fault) => Err(fault),
        }
    }

    fn write_in<W: AnswerOutput>(
        &self,
        alloc: Global,
        mode: Mode,
        line: &[u8],
        buffer: &mut OutputBuffer,
        output: &mut W,
    ) -> Result<(), AnswerFault> {
        match mode {
            Mode::Sample | Mode::Query => self.write_answer(alloc, line, buffer, output),
            Mode::QueryWith(options) => {
                let form = form_of(options);
                self.write_within(alloc, line, options.limit, form, buffer, output)
            }
            Mode::Explain => write_explanation(alloc, self, line, buffer, output),
            Mode::Describe => write_description(alloc, self, line, buffer, output),
            Mode::Session => write_request(alloc, self, line, buffer, output),
            Mode::Check => put_text(b"", buffer, output),
        }
    }
}

// Returns the form of answers that the options of `query` ask for.
fn form_of(options: QueryOptions) -> AnswerForm
    ensures { result ≡ form_of options }
{
    AnswerForm {
        offset: 0,
        first: options.first,
        names: options.names,
    }
}

// Returns the row counts of a release, and drops the release.
fn report_and_drop(snapshot: Snapshot) -> Report
    ensures { result ≡ report_of snapshot }
{
    let report = snapshot.report();
    drop(snapshot);
    report
}

/// Serves `request`, and returns how it ended. It loads the built-in release or the files of
/// `source`, then does what the mode says. `Sample` and `Query` answer the query lines of `input`,
/// and `QueryWith` does so under its options. `Explain` writes each line's plan. `Describe` writes
/// what the release says of the concept that each line names. `Session` answers the request in each
/// line. `Check` writes the row counts of the release, and reads no input. Nothing is written to
/// `output` before the release is loaded. A refusal or a fault is reported by one line on `errors`;
/// if `errors` fails too, that changes nothing.
pub fn serve<S: FileSource, R: QueryInput, W: AnswerOutput, E: AnswerOutput>(
    alloc: Global,
    request: &Request,
    source: &mut S,
    input: &mut R,
    output: &mut W,
    errors: &mut E,
) -> Status
    requires input { R.has_failed input.old ≡ false }
    requires output { W.has_failed output.old ≡ false }
    requires errors { E.AnswerOutput.has_failed errors.old ≡ false }
    ensures served { (task : Task) × IsTask (S.files source.old) (S.history source.old)
        (S.history source.new) (string_bytes request.now.lang) request.now.mode task
        × EndsWith R.QueryInput W.AnswerOutput E.AnswerOutput task result
        (streams input.old output.old errors.old) (streams input.new output.new errors.new) }
    ensures untouched { request.now.mode ≡ Mode.Sample → source.new ≡ source.old }
{
    query_service::serve::<Engine, S, R, W, E>(alloc, request, source, input, output, errors)
}
