//! Serving a request: load a release, answer the input, report faults.
ghost use Rattle.std.specs.Prelude.{◌≡◌, ◌≢◌, false, Err, IfErr, IfOk, Ok, map, string_bytes};
ghost use Rattle.text_parts.specs.Parts.{texts_of};
ghost use Rattle.held_release.specs.Contents.{Contents, IsFaultOf};
ghost use Rattle.release_rows.specs.Limits.{standard_limits};
ghost use Rattle.snapshot.specs.Loading.{IsLoadedFrom};
ghost use Rattle.sample_release.specs.SampleContents.{sample_contents};
ghost use Rattle.answer_printer.specs.LoadRefusal.{load_refusal};
ghost use Rattle.answer_printer.specs.ReportText.{report_text};
ghost use Rattle.query_service.specs.Report.{report_of};
ghost use Rattle.query_service.specs.Serve.{EndsWith, IsTask, ServesWith, Task, TellsLoadFault};
ghost use Rattle.query_service.specs.Serve.{fault_text, memory_text, refusal_status_of, sample_task};
ghost use Rattle.query_service.specs.Serve.{status_code, status_of};
ghost use Rattle.query_service.specs.Streams.{IsTold, outputs, streams};
ghost use Rattle.query_service.specs.WordRefusal.{TellsWordFault};

use crate::lines::run_in;
use crate::query_engine::QueryEngine;
use answer_printer::{print_load_fault, print_report};
use command_line::{Mode, Request, WordFault};
use query_run::RunFault;
use release_files::FileSource;
use sample_release::sample_files;
use snapshot::{Limits, LoadFault, Report};
use std::alloc::{AllocError, Global};
use streams::{AnswerOutput, QueryInput, write_all};

/// How the program ended.
#[derive(Clone, Copy, Debug, PartialEq, Eq)]
pub enum Status {
    /// All was done.
    Done,
    /// A folder, a file or a stream failed, or the input did not end.
    DeviceFault,
    /// The words of the command line are no command.
    WordsFault,
    /// The files are not a release.
    ReleaseRefused,
    /// Memory was refused.
    MemoryRefused,
}

impl Status {
    /// Returns the exit status of the program, from 0 to 4 in the order above.
    pub fn code(self) -> u8
        ensures { result ≡ status_code self }
    {
        match self {
            Status::Done => 0,
            Status::DeviceFault => 1,
            Status::WordsFault => 2,
            Status::ReleaseRefused => 3,
            Status::MemoryRefused => 4,
        }
    }
}

/// Serves `request` with an engine of type `Q`, and returns how it ended. It loads the built-in
/// release or the files of `source`, then does what the mode says. `Sample` and `Query` answer the
/// query lines of `input`, and `QueryWith` does so under its options. `Explain` writes each line's
/// plan. `Describe` writes what the release says of the concept that each line names. `Session`
/// answers the request in each line. `Check` writes the row counts of the release, and reads no
/// input. Nothing is written to `output` before the release is loaded. A refusal or a fault is
/// reported by one line on `errors`; if `errors` fails too, that changes nothing.
pub fn serve<Q: QueryEngine, S: FileSource, R: QueryInput, W: AnswerOutput, E: AnswerOutput>(
    alloc: Global,
    request: &Request,
    source: &mut S,
    input: &mut R,
    output: &mut W,
    errors: &mut E,
) -> Status
    requires input { R.has_failed input.old ≡ false }
    requires output { W.has_failed output.old ≡ false }
    requires errors { E.AnswerOutput.has_failed errors.old ≡ false }
    ensures served { (task : Task) × IsTask (S.files source.old) (S.history source.old)
        (S.history source.new) (string_bytes request.now.lang) request.now.mode task
        × EndsWith R.QueryInput W.AnswerOutput E.AnswerOutput task result
        (streams input.old output.old errors.old) (streams input.new output.new errors.new) }
    ensures untouched { request.now.mode ≡ Mode.Sample → source.new ≡ source.old }
{
    let lang = request.lang.as_str();
    match request.mode {
        Mode::Sample => answer_sample::<Q, R, W, E>(alloc, input, output, errors),
        Mode::Check => report_source::<Q, S, R, W, E>(alloc, lang, source, input, output, errors),
        _ => answer_source::<Q, S, R, W, E>(
            alloc,
            request.mode,
            lang,
            source,
            input,
            output,
            errors,
        ),
    }
}

// Answers the query lines of `input` over the built-in release.
fn answer_sample<Q: QueryEngine, R: QueryInput, W: AnswerOutput, E: AnswerOutput>(
    alloc: Global,
    input: &mut R,
    output: &mut W,
    errors: &mut E,
) -> Status
    requires input { R.has_failed input.old ≡ false }
    requires output { W.has_failed output.old ≡ false }
    requires errors { E.AnswerOutput.has_failed errors.old ≡ false }
    ensures { EndsWith R.QueryInput W.AnswerOutput E.AnswerOutput sample_task result
        (streams input.old output.old errors.old) (streams input.new output.new errors.new) }
{
    match sample_engine::<Q>(alloc) {
        Ok(engine) => answer_lines(alloc, Mode::Sample, engine, input, output, errors),
        Err(fault) => refuse(alloc, fault, &[], errors),
    }
}

// Loads the built-in release into an engine.
fn sample_engine<Q: QueryEngine>(alloc: Global) -> Result<Q, LoadFault>
    ensures ok { IfOk result (λ engine. Q.contents engine ≡ sample_contents) }
    ensures err { IfErr result (λ fault. IsFaultOf fault (Ok sample_contents)) }
{
    Q::load(alloc, &sample_files(), "en", Limits::standard())
}

// Answers the lines of `input` over the release in the files of `source`.
fn answer_source<Q: QueryEngine, S: FileSource, R: QueryInput, W: AnswerOutput, E: AnswerOutput>(
    alloc: Global,
    mode: Mode,
    lang: &str,
    source: &mut S,
    input: &mut R,
    output: &mut W,
    errors: &mut E,
) -> Status
    requires files { mode ≢ Mode.Sample }
    requires lines { mode ≢ Mode.Check }
    requires input { R.has_failed input.old ≡ false }
    requires output { W.has_failed output.old ≡ false }
    requires errors { E.AnswerOutput.has_failed errors.old ≡ false }
    ensures { (task : Task) × IsTask (S.files source.old) (S.history source.old)
        (S.history source.new) lang.now mode task
        × EndsWith R.QueryInput W.AnswerOutput E.AnswerOutput task result
        (streams input.old output.old errors.old) (streams input.new output.new errors.new) }
{
    let mut names = Vec::new(alloc);
    match Q::load_from(alloc, source, &mut names, lang, Limits::standard()) {
        Ok(engine) => answer_lines(alloc, mode, engine, input, output, errors),
        Err(fault) => refuse(alloc, fault, names.as_slice(), errors),
    }
}

// Answers the lines of `input` with `engine`, and drops the engine.
fn answer_lines<Q: QueryEngine, R: QueryInput, W: AnswerOutput, E: AnswerOutput>(
    alloc: Global,
    mode: Mode,
    engine: Q,
    input: &mut R,
    output: &mut W,
    errors: &mut E,
) -> Status
    requires lines { mode ≢ Mode.Check }
    requires input { R.has_failed input.old ≡ false }
    requires output { W.has_failed output.old ≡ false }
    requires errors { E.AnswerOutput.has_failed errors.old ≡ false }
    ensures { ServesWith R.QueryInput W.AnswerOutput E.AnswerOutput mode (Q.contents engine) result
        (streams input.old output.old errors.old) (streams input.new output.new errors.new) }
{
    let status = serve_lines(alloc, mode, &engine, input, output, errors);
    drop(engine);
    status
}

// Answers the lines of `input` with `engine`.
fn serve_lines<Q: QueryEngine, R: QueryInput, W: AnswerOutput, E: AnswerOutput>(
    alloc: Global,
    mode: Mode,
    engine: &Q,
    input: &mut R,
    output: &mut W,
    errors: &mut E,
) -> Status
    requires lines { mode ≢ Mode.Check }
    requires input { R.has_failed input.old ≡ false }
    requires output { W.has_failed output.old ≡ false }
    requires errors { E.AnswerOutput.has_failed errors.old ≡ false }
    ensures { ServesWith R.QueryInput W.AnswerOutput E.AnswerOutput mode (Q.contents engine.now)
        result (streams input.old output.old errors.old) (streams input.new output.new errors.new) }
{
    match run_in(alloc, engine, mode, input, output) {
        Ok(_) => Status::Done,
        Err(fault) => tell_fault(fault, errors),
    }
}

// Writes the row counts of the release in the files of `source`.
fn report_source<Q: QueryEngine, S: FileSource, R: QueryInput, W: AnswerOutput, E: AnswerOutput>(
    alloc: Global,
    lang: &str,
    source: &mut S,
    input: &mut R,
    output: &mut W,
    errors: &mut E,
) -> Status
    requires input { R.has_failed input.old ≡ false }
    requires output { W.has_failed output.old ≡ false }
    requires errors { E.AnswerOutput.has_failed errors.old ≡ false }
    ensures { (task : Task) × IsTask (S.files source.old) (S.history source.old)
        (S.history source.new) lang.now Mode.Check task
        × EndsWith R.QueryInput W.AnswerOutput E.AnswerOutput task result
        (streams input.old output.old errors.old) (streams input.new output.new errors.new) }
{
    let mut names = Vec::new(alloc);
    match report::<Q, S>(alloc, lang, source, &mut names) {
        Ok(text) => match write_all(text.as_slice(), output) {
            Ok(()) => Status::Done,
            Err(_) => tell_fault(RunFault::Write(0), errors),
        },
        Err(fault) => refuse(alloc, fault, names.as_slice(), errors),
    }
}

// Loads the files of `source` and returns the text of the report. `names` gets the names of the
// files.
fn report<Q: QueryEngine, S: FileSource>(
    alloc: Global,
    lang: &str,
    source: &mut S,
    names: &mut Vec<String>,
) -> Result<Vec<u8>, LoadFault>
    ensures ok { IfOk result (λ text. (contents : Contents)
        × (text.items ≡ report_text (report_of contents))
        × IsLoadedFrom (S.files source.old) (S.history source.old) (S.history source.new)
        standard_limits lang.now (map string_bytes names.new.items) (Ok contents)) }
    ensures err { IfErr result (λ fault. IsLoadedFrom (S.files source.old) (S.history source.old)
        (S.history source.new) standard_limits lang.now (map string_bytes names.new.items)
        (Err fault)) }
{
    match Q::report_from(alloc, source, names, lang, Limits::standard()) {
        Ok(report) => Ok(printed(alloc, &report)?),
        Err(fault) => Err(fault),
    }
}

// Returns the text of `report`.
fn printed(alloc: Global, report: &Report) -> Result<Vec<u8>, AllocError>
    ensures { IfOk result (λ text. text.items ≡ report_text report.now) }
{
    let mut text = Vec::new(alloc);
    print_report(alloc, report, &mut text)?;
    Ok(text)
}

// Reports on `errors` why the files are not a release, or could not be read, and returns the
// status. If memory for the line is refused, it reports that instead.
fn refuse<E: AnswerOutput>(
    alloc: Global,
    fault: LoadFault,
    names: &[String],
    errors: &mut E,
) -> Status
    requires { E.AnswerOutput.has_failed errors.old ≡ false }
    ensures { TellsLoadFault E.AnswerOutput (map string_bytes names.now) fault result errors.old
        errors.new }
{
    match refusal(alloc, fault, names) {
        Ok(line) => {
            tell(line.as_slice(), errors);
            refusal_status(&fault)
        }
        Err(_) => tell_memory(errors),
    }
}

// Returns the line that says why the files are not a release, or could not be read.
fn refusal(alloc: Global, fault: LoadFault, names: &[String]) -> Result<Vec<u8>, AllocError>
    ensures { IfOk result (λ line. line.items ≡ load_refusal (map string_bytes names.now) fault) }
{
    let texts = lent_texts(alloc, names)?;
    let mut line = Vec::new(alloc);
    print_load_fault(alloc, fault, texts.as_slice(), &mut line)?;
    Ok(line)
}

// Returns borrowed texts in place of owned ones.
fn lent_texts<'a>(alloc: Global, texts: &'a [String]) -> Result<Vec<&'a str>, AllocError>
    ensures { IfOk result (λ lent. texts_of lent.items ≡ map string_bytes texts.now) }
{
    let mut lent = Vec::new(alloc);
    for text in texts {
        lent.push(text.as_str())?;
    }
    Ok(lent)
}

/// Writes to `output` the help or the version that the words ask for, or reports on `errors` why
/// the words are no request. If `output` fails, it reports that on `errors`.
pub fn refuse_words<W: AnswerOutput, E: AnswerOutput>(
    fault: &WordFault,
    output: &mut W,
    errors: &mut E,
) -> Status
    requires output { W.AnswerOutput.has_failed output.old ≡ false }
    requires errors { E.AnswerOutput.has_failed errors.old ≡ false }
    ensures { TellsWordFault W.AnswerOutput E.AnswerOutput fault.now result
        (outputs output.old errors.old) (outputs output.new errors.new) }
{
    match fault {
        WordFault::Help(text) => match write_all(text.as_bytes(), output) {
            Ok(()) => Status::Done,
            Err(_) => tell_fault(RunFault::Write(0), errors),
        },
        WordFault::Usage(text) => {
            tell(text.as_bytes(), errors);
            Status::WordsFault
        }
        WordFault::Memory => tell_fault(RunFault::Memory(0), errors),
    }
}

// Reports the fault of a run by its line on `errors`, and returns its status.
fn tell_fault<E: AnswerOutput>(fault: RunFault, errors: &mut E) -> Status
    requires { E.AnswerOutput.has_failed errors.old ≡ false }
    ensures status { result ≡ status_of fault }
    ensures told { IsTold E.AnswerOutput errors.old errors.new (fault_text fault) }
{
    tell(fault_line(fault), errors);
    fault_status(fault)
}

// Reports on `errors` that memory was refused before a release was loaded, and returns the status.
fn tell_memory<E: AnswerOutput>(errors: &mut E) -> Status
    requires { E.AnswerOutput.has_failed errors.old ≡ false }
    ensures status { result ≡ Status.MemoryRefused }
    ensures told { IsTold E.AnswerOutput errors.old errors.new memory_text }
{
    tell(b"REFUSED memory\n", errors);
    Status::MemoryRefused
}

// Writes a line to `errors`, as far as the stream takes it. A failure is ignored, because no stream
// is left on which to report it.
fn tell<E: AnswerOutput>(line: &[u8], errors: &mut E)
    requires { E.AnswerOutput.has_failed errors.old ≡ false }
    ensures { IsTold E.AnswerOutput errors.old errors.new line.now }
{
    let _ = write_all(line, errors);
}

// Returns the status for the fault of a load.
fn refusal_status(fault: &LoadFault) -> Status
    ensures { result ≡ refusal_status_of fault.now }
{
    match fault {
        LoadFault::Memory => Status::MemoryRefused,
        LoadFault::Device { .. } => Status::DeviceFault,
        _ => Status::ReleaseRefused,
    }
}

// Returns the line that reports the fault of a run.
fn fault_line(fault: RunFault) -> &'static [u8]
    ensures { result.now ≡ fault_text fault }
{
    match fault {
        RunFault::Read(_) => b"FAULT read\n",
        RunFault::Write(_) => b"FAULT write\n",
        RunFault::Memory(_) => b"FAULT memory\n",
        RunFault::Turns(_) => b"FAULT turns\n",
    }
}

// Returns the status for the fault of a run.
fn fault_status(fault: RunFault) -> Status
    ensures { result ≡ status_of fault }
{
    match fault {
        RunFault::Memory(_) => Status::MemoryRefused,
        _ => Status::DeviceFault,
    }
}
