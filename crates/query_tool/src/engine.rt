//! The engine: a loaded release with its indexes.
ghost use Rattle.std.specs.Prelude.{ℕ, ◌≡◌, ◌+◌, ◌<◌, ◌≤◌, ◌⊎◌, ◌++◌, List, Err, IfErr, IfOk, IfSome, Ok, OnErr, OnOk};
ghost use Rattle.std.specs.Prelude.{false, length, map, max, string_bytes};
ghost use Rattle.std.specs.Cmp.Lexicographic.{slice_cmp};
ghost use Rattle.std.specs.List.Sorted.{IsSorted, IsStrictlyIncreasing};
ghost use Rattle.std.specs.Ordering.{nat_cmp};
ghost use Rattle.constraint_tree.specs.Denotation.{denotation};
ghost use Rattle.constraint_tree.specs.Tree.{Tree};
ghost use Rattle.held_release.specs.Contents.{IsFaultOf};
ghost use Rattle.snapshot.specs.Load.{load_of};
ghost use Rattle.snapshot.specs.Loading.{IsLoadedFrom};
ghost use Rattle.release_rows.specs.Files.{name_concepts};
ghost use Rattle.release_rows.specs.Pieces.{IsUnlisted, has_kind_at};
ghost use Rattle.release_rows.specs.DeviceFaults.{FailsAtRead, FileIs};
ghost use Rattle.release_files.specs.Source.{file_text};
ghost use Rattle.query_service.specs.Answer.{IsAnswer};
ghost use Rattle.query_service.specs.Explanation.{IsExplanation};
ghost use Rattle.query_service.specs.LimitedAnswer.{IsAnswerCounted, IsAnswerWithin};
ghost use Rattle.query_service.specs.SessionAnswer.{AnswersAsked, IsSessionAnswer, page_form, page_limit};
ghost use Rattle.concept_printer.specs.ConceptText.{description_text};
ghost use Rattle.session_line.specs.SessionRequest.{asked_in};
ghost use Rattle.streams.specs.Waiting.{LeavesAnswer, Puts, is_write};
ghost use Rattle.query_tool.specs.Promise.{AnswersUnder};

use crate::answering::{answer_over_with, explain_over, print_and_drop};
use crate::finding::{LineFound, found_within};
use crate::session::{MOST_BYTES, form_of, limit_of};
use crate::writing::write_and_drop;
use answer_printer::AnswerForm;
use concept_printer::description;
use executor::Visits;
use idset::MixedSet;
use planner::Choice;
use postings::Indexes;
use release_files::{FileSource, NamedBytes};
use rewrites::Step;
use session_line::{Page, SessionRequest, read_request};
use snapshot::{Limits, LoadFault, LoadSnapshot, Snapshot};
use std::alloc::{AllocError, Global};
use std::marker::Model;
use streams::{AnswerFault, AnswerOutput, OutputBuffer};

/// A loaded release that answers queries. Answering changes nothing in it. In contracts, an engine
/// stands for the contents of its release.
#[derive(Drop)]
pub struct Engine {
    snapshot: Snapshot,
    indexes: Indexes,
}

impl Model for Engine {
    ghost use Rattle.held_release.specs.Contents.{Contents};

    ghost Value = { Contents };

    ghost use Rattle.query_tool.specs.inside.EngineInside.{contents_in, IsReady};

    ghost view = { contents_in };

    ghost invariant = { IsReady };
}

impl Engine {
    /// Loads a release from the Snapshot files `files` in memory, and prefers names in the language
    /// `lang`. Returns the fault that `Snapshot::load` returns, or `Memory`. Only for files that
    /// the caller trusts, since the seed of the hashes is fixed.
    pub fn load(
        alloc: Global,
        files: &[NamedBytes<'_>],
        lang: &str,
        limits: Limits,
    ) -> Result<Engine, LoadFault>
        ensures ok { IfOk result (λ engine. load_of limits lang.now (map file_text files.now)
            ≡ Ok engine) }
        ensures err { IfErr result (λ fault. IsFaultOf fault
            (load_of limits lang.now (map file_text files.now))) }
        ensures named { IfErr result (FileIs (λ file. file < length files.now)) }
    {
        match Snapshot::load(alloc, files, lang, limits) {
            Ok(snapshot) => with_indexes(alloc, snapshot),
            Err(fault) => Err(fault),
        }
    }

    /// Loads a release from the files that `source` lists, in the byte order of their names, as
    /// `Snapshot::load_from` does, and prefers names in the language `lang`. `names` gets the names
    /// of the listed files, also if the load fails after the listing.
    #[tactic(auto, using(snapshot::proofs::LoadingLemmas::loads_on))]
    pub fn load_from<S: FileSource>(
        alloc: Global,
        source: &mut S,
        names: &mut Vec<String>,
        lang: &str,
        limits: Limits,
    ) -> Result<Engine, LoadFault>
        ensures loads { IsLoadedFrom (S.files source.old) (S.history source.old)
            (S.history source.new) limits lang.now (map string_bytes names.new.items) result }
        ensures kind { IfErr result (λ fault. FailsAtRead
            (has_kind_at (map string_bytes names.new.items)) fault) }
        ensures files { S.files source.new ≡ S.files source.old }
        ensures rising { IsSorted (slice_cmp nat_cmp) (map string_bytes names.new.items) }
        ensures unnamed { name_concepts string_bytes names.new.items ≡ false
            → (result ≡ Err LoadFault.NoConceptFile)
            ⊎ IsUnlisted result (map string_bytes names.new.items) (S.history source.new) }
        ensures found { result ≡ Err LoadFault.NoConceptFile
            → name_concepts string_bytes names.new.items ≡ false }
        ensures named { IfErr result (FileIs (λ file. file < length names.new.items)) }
    {
        match Snapshot::load_from(alloc, source, names, lang, limits) {
            Ok(snapshot) => with_indexes(alloc, snapshot),
            Err(fault) => Err(fault),
        }
    }

    /// Appends the answer to a query line. If the line is a constraint, the answer is `OK` and the
    /// number of concepts that it denotes, then a line for each concept in rising order: its
    /// identifier, and its name between bars if it has one. Otherwise the answer is `ERR` and the
    /// first refusal that `ecl_parser::parse` gives, with its offset in bytes if it has one. If
    /// memory is refused, it returns `AllocError`, and `output` is unchanged.
    pub fn answer(&self, alloc: Global, line: &[u8], output: &mut Vec<u8>) -> Result<(), AllocError>
        ensures ok { OnOk result ((text : List ℕ) × IsAnswer self.now line.now text
            × (output.new.items ≡ output.old.items ++ text)) }
        ensures err { OnErr result (output.new.items ≡ output.old.items) }
        ensures rising { (tree : Tree) → IsStrictlyIncreasing (denotation self.now.release tree) }
    {
        self.answer_within(
            alloc,
            line,
            u64::MAX,
            AnswerForm::whole(),
            &mut Visits { count: 0 },
            output,
        )
    }

    /// Appends the answer to a query line under a limit on visits, with the lines that `form` asks
    /// for. Before it reads anything, it compares the bound of the plan (which `explain` prints
    /// after `PLAN`) with `limit`. If the bound is greater, the answer is the line `ERR bound` with
    /// the bound. Otherwise it executes the plan, and adds the items that it visits, at most
    /// `limit`, to `visits`. The limit `u64::MAX` refuses nothing. A line that is no constraint has
    /// the same refusal as in `answer`, under any limit. If memory is refused, it returns
    /// `AllocError`, and `output` is unchanged.
    pub fn answer_within(
        &self,
        alloc: Global,
        line: &[u8],
        limit: u64,
        form: AnswerForm,
        visits: &mut Visits,
        output: &mut Vec<u8>,
    ) -> Result<(), AllocError>
        ensures ok { OnOk result ((text : List ℕ)
            × IsAnswerCounted limit form self.now line.now visits.old.count visits.new.count text
            × (output.new.items ≡ output.old.items ++ text)) }
        ensures promised { OnOk result ((text : List ℕ)
            × AnswersUnder limit form self.now line.now text
            × (output.new.items ≡ output.old.items ++ text)) }
        ensures err { OnErr result (output.new.items ≡ output.old.items) }
        ensures limit { visits.new.count ≤ visits.old.count + limit }
        ensures rising { (tree : Tree) → IsStrictlyIncreasing (denotation self.now.release tree) }
    {
        let found: LineFound<MixedSet> = found_within(
            alloc,
            &self.snapshot,
            &self.indexes,
            line,
            limit,
            visits,
        )?;
        print_and_drop(alloc, &self.snapshot, found, form, output)
    }

    // Puts the answer that `answer` appends into `buffer`, which writes to `output`. Once the
    // concepts are found, no line of the answer needs more memory.
    pub(crate) fn write_answer<W: AnswerOutput>(
        &self,
        alloc: Global,
        line: &[u8],
        buffer: &mut OutputBuffer,
        output: &mut W,
    ) -> Result<(), AnswerFault>
        requires { W.has_failed output.old ≡ false }
        ensures ok { OnOk result ((text : List ℕ) × IsAnswer self.now line.now text
            × Puts (W.written output.old) (W.written output.new) buffer.old text buffer.new) }
        ensures fault { IfErr result (λ fault. LeavesAnswer (IsAnswer self.now line.now) fault
            (W.written output.old) (W.written output.new) buffer.old buffer.new) }
        ensures not_failed { OnOk result (W.has_failed output.new ≡ false) }
        ensures failed { IfErr result (λ fault. W.has_failed output.new ≡ is_write fault) }
    {
        self.write_within(alloc, line, u64::MAX, AnswerForm::whole(), buffer, output)
    }

    // Puts the answer to a line under a limit, in a form, into `buffer`, which writes to `output`.
    // It finds all concepts before it puts the first byte.
    pub(crate) fn write_within<W: AnswerOutput>(
        &self,
        alloc: Global,
        line: &[u8],
        limit: u64,
        form: AnswerForm,
        buffer: &mut OutputBuffer,
        output: &mut W,
    ) -> Result<(), AnswerFault>
        requires { W.has_failed output.old ≡ false }
        ensures ok { OnOk result ((text : List ℕ) × IsAnswerWithin limit form self.now line.now text
            × Puts (W.written output.old) (W.written output.new) buffer.old text buffer.new) }
        ensures fault { IfErr result (λ fault. LeavesAnswer
            (IsAnswerWithin limit form self.now line.now) fault (W.written output.old)
            (W.written output.new) buffer.old buffer.new) }
        ensures not_failed { OnOk result (W.has_failed output.new ≡ false) }
        ensures failed { IfErr result (λ fault. W.has_failed output.new ≡ is_write fault) }
    {
        let mut visits = Visits { count: 0 };
        match found_within::<MixedSet>(
            alloc,
            &self.snapshot,
            &self.indexes,
            line,
            limit,
            &mut visits,
        ) {
            Ok(found) => write_and_drop(alloc, &self.snapshot, found, form, buffer, output),
            Err(AllocError) => Err(AnswerFault::Memory),
        }
    }

    /// Appends the same answer as `answer`, but executes a plan of the caller's choice: the
    /// constraint's own plan after `steps` of rewriting. A step that does not apply is skipped.
    /// `choices` has a choice for each leaf, in the order of `PhysicalPlan::choices`. A leaf that
    /// does not offer its choice, or has none, takes the one with the least bound. If memory is
    /// refused, it returns `AllocError`, and `output` is unchanged.
    pub fn answer_with(
        &self,
        alloc: Global,
        line: &[u8],
        steps: &[Step<'_>],
        choices: &[Choice],
        output: &mut Vec<u8>,
    ) -> Result<(), AllocError>
        ensures ok { OnOk result ((text : List ℕ) × IsAnswer self.now line.now text
            × (output.new.items ≡ output.old.items ++ text)) }
        ensures err { OnErr result (output.new.items ≡ output.old.items) }
    {
        answer_over_with(
            alloc,
            &self.snapshot,
            &self.indexes,
            line,
            steps,
            choices,
            output,
        )
    }

    /// Appends the explanation of a query line: `PLAN` and how many items the plan visits at most,
    /// then a line for each node of the plan. A line that is no constraint has the same refusal as
    /// in `answer`. If memory is refused, it returns `AllocError`, and `output` is unchanged.
    pub fn explain(
        &self,
        alloc: Global,
        line: &[u8],
        output: &mut Vec<u8>,
    ) -> Result<(), AllocError>
        ensures ok { OnOk result ((text : List ℕ) × IsExplanation self.now line.now text
            × (output.new.items ≡ output.old.items ++ text)) }
        ensures err { OnErr result (output.new.items ≡ output.old.items) }
    {
        explain_over(alloc, &self.snapshot, &self.indexes, line, output)
    }

    /// Appends what the release says of the concept that a line names by its identifier, with or
    /// without a term. For a concept in force, the text lists its parents and children, its
    /// attribute rows group by group, and the reference sets that it is in (Release File
    /// Specification, "Concept file", "Relationship file" and "Simple reference set"). Otherwise it
    /// says that the concept is inactive or unknown, or why the line names no concept. If memory is
    /// refused, it returns `AllocError`, and `output` is unchanged.
    pub fn describe(
        &self,
        alloc: Global,
        line: &[u8],
        output: &mut Vec<u8>,
    ) -> Result<(), AllocError>
        ensures ok { OnOk result (output.new.items ≡ output.old.items ++ description_text self.now
            line.now) }
        ensures err { OnErr result (output.new.items ≡ output.old.items) }
    {
        let text = self.description(alloc, line)?;
        output.extend_from_slice(text.as_slice())
    }

    // Returns the text that `describe` appends.
    pub(crate) fn description(&self, alloc: Global, line: &[u8]) -> Result<Vec<u8>, AllocError>
        ensures { IfOk result (λ text. text.items ≡ description_text self.now line.now) }
    {
        let text = description(alloc, &self.snapshot, &self.indexes, line)?;
        Ok(text)
    }

    /// Appends the answer to a request of a session. `list OFFSET COUNT LIMIT ECL` is answered
    /// under LIMIT, as by `answer_within`: the count of all concepts, then the lines of at most
    /// COUNT concepts after the first OFFSET. `ids` is like `list`, but without names. `explain
    /// ECL` is answered as by `explain`, and `describe ID` as by `describe`. A line of more than
    /// 65,535 bytes is answered by `ERR long`, and any other line that is no request by `ERR
    /// request`. If memory is refused, it returns `AllocError`, and `output` is unchanged.
    pub fn request(
        &self,
        alloc: Global,
        line: &[u8],
        output: &mut Vec<u8>,
    ) -> Result<(), AllocError>
        ensures ok { OnOk result ((text : List ℕ) × IsSessionAnswer self.now line.now text
            × (output.new.items ≡ output.old.items ++ text)) }
        ensures err { OnErr result (output.new.items ≡ output.old.items) }
    {
        if line.len() > MOST_BYTES {
            return output.extend_from_slice(b"ERR long\n");
        }
        self.answer_asked(alloc, read_request(line), output)
    }

    // Appends the answer to a request.
    fn answer_asked(
        &self,
        alloc: Global,
        request: SessionRequest<'_>,
        output: &mut Vec<u8>,
    ) -> Result<(), AllocError>
        ensures ok { OnOk result ((text : List ℕ)
            × AnswersAsked self.now (asked_in request.entry) text
            × (output.new.items ≡ output.old.items ++ text)) }
        ensures err { OnErr result (output.new.items ≡ output.old.items) }
    {
        match request {
            SessionRequest::Page(page, constraint) => {
                self.answer_page(alloc, page, constraint, output)
            }
            SessionRequest::Plan(constraint) => self.explain(alloc, constraint, output),
            SessionRequest::Concept(id) => self.describe(alloc, id, output),
            SessionRequest::Nothing => output.extend_from_slice(b"ERR request\n"),
        }
    }

    // Appends a page of the answer to a constraint's text.
    fn answer_page(
        &self,
        alloc: Global,
        page: Page,
        constraint: &[u8],
        output: &mut Vec<u8>,
    ) -> Result<(), AllocError>
        ensures ok { OnOk result ((text : List ℕ)
            × IsAnswerWithin (page_limit page) (page_form page) self.now constraint.now text
            × (output.new.items ≡ output.old.items ++ text)) }
        ensures err { OnErr result (output.new.items ≡ output.old.items) }
    {
        self.answer_within(
            alloc,
            constraint,
            limit_of(page),
            form_of(page),
            &mut Visits { count: 0 },
            output,
        )
    }
}

// Makes an engine of a loaded release, and builds its indexes.
fn with_indexes(alloc: Global, snapshot: Snapshot) -> Result<Engine, LoadFault>
    ensures same { IfOk result (λ engine. engine ≡ snapshot) }
    ensures memory { IfErr result (λ fault. fault ≡ LoadFault.Memory) }
{
    // Called for its contract, which tells the prover that the identifiers of the concepts rise.
    let _ = snapshot.concept_count();
    match Indexes::build(alloc, &snapshot) {
        Ok(indexes) => Ok(Engine { snapshot, indexes }),
        Err(AllocError) => Err(LoadFault::Memory),
    }
}
