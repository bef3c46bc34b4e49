//! The trait of an engine that the service needs.
ghost use Rattle.std.specs.Prelude.{◌≡◌, ℕ, false, IfErr, IfOk, List, Ok, OnOk, Result, map, string_bytes};
ghost use Rattle.release_files.specs.Source.{file_text};
ghost use Rattle.held_release.specs.Contents.{Contents, IsFaultOf};
ghost use Rattle.snapshot.specs.Load.{load_of};
ghost use Rattle.snapshot.specs.Loading.{IsLoadedFrom, told_of};
ghost use Rattle.streams.specs.Waiting.{LeavesAnswer, Puts, is_write};
ghost use Rattle.query_service.specs.ModeAnswer.{answers_in};
ghost use Rattle.query_service.specs.Report.{report_of};

use command_line::Mode;
use release_files::{FileSource, NamedBytes};
use snapshot::{Limits, LoadFault, Report};
use std::alloc::Global;
use streams::{AnswerFault, AnswerOutput, OutputBuffer};

/// A loaded release that answers lines. Answering changes nothing in it.
pub trait QueryEngine: Drop {
    /// The contents of the loaded release.
    ghost contents: { Self → Contents };

    /// Loads a release from the Snapshot files `files` in memory, and prefers names in the language
    /// `lang`. Returns the fault that `Snapshot::load` returns, or `Memory`. Only for files that
    /// the caller trusts, since the seed of the hashes is fixed.
    fn load(
        alloc: Global,
        files: &[NamedBytes<'_>],
        lang: &str,
        limits: Limits,
    ) -> Result<Self, LoadFault>
        ensures ok { IfOk result (λ engine. load_of limits lang.now (map file_text files.now)
            ≡ Ok (contents engine)) }
        ensures err { IfErr result (λ fault. IsFaultOf fault
            (load_of limits lang.now (map file_text files.now))) };

    /// Loads a release from the files that `source` lists, in the byte order of their names, as
    /// `Snapshot::load_from` does, and prefers names in the language `lang`. `names` gets the names
    /// of the listed files, also if the load fails after the listing.
    fn load_from<S: FileSource>(
        alloc: Global,
        source: &mut S,
        names: &mut Vec<String>,
        lang: &str,
        limits: Limits,
    ) -> Result<Self, LoadFault>
        ensures { IsLoadedFrom (S.files source.old) (S.history source.old) (S.history source.new)
            limits lang.now (map string_bytes names.new.items) (told_of contents result) };

    /// Loads a release as `load_from` does, but returns only its row counts, so that no engine need
    /// be built.
    fn report_from<S: FileSource>(
        alloc: Global,
        source: &mut S,
        names: &mut Vec<String>,
        lang: &str,
        limits: Limits,
    ) -> Result<Report, LoadFault>
        ensures { (loaded : Result Contents LoadFault) × (result ≡ told_of report_of loaded)
            × IsLoadedFrom (S.files source.old) (S.history source.old) (S.history source.new) limits
            lang.now (map string_bytes names.new.items) loaded };

    /// Puts the answer to `line` in `mode` into `buffer`, which writes to `output` whenever it is
    /// full. If memory is refused, `buffer` and `output` are unchanged. If `output` fails, it has
    /// received a proper prefix of the bytes that waited and the answer.
    fn write_in<W: AnswerOutput>(
        &self,
        alloc: Global,
        mode: Mode,
        line: &[u8],
        buffer: &mut OutputBuffer,
        output: &mut W,
    ) -> Result<(), AnswerFault>
        requires { W.has_failed output.old ≡ false }
        ensures ok { OnOk result ((text : List ℕ)
            × answers_in mode (contents self.now) line.now text
            × Puts (W.written output.old) (W.written output.new) buffer.old text buffer.new) }
        ensures fault { IfErr result (λ fault. LeavesAnswer
            (answers_in mode (contents self.now) line.now) fault (W.written output.old)
            (W.written output.new) buffer.old buffer.new) }
        ensures not_failed { OnOk result (W.has_failed output.new ≡ false) }
        ensures failed { IfErr result (λ fault. W.has_failed output.new ≡ is_write fault) };
}
