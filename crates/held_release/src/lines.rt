//! The output lines of the concepts, joined in one buffer, and the name rows. The term of the row
//! that names a concept is stored once, in the concept's line.
ghost use Rattle.std.specs.Prelude.{◌≡◌, ◌≤◌, ◌<◌, ◌+◌, ◌^◌, ◌++◌, ℕ, [], List, Option, None, Some, All, IfOk, IfSome, OnOk, length, map, option_and_then, option_map, slice_index, slice_range, string_bytes};
ghost use Rattle.std.specs.List.{slice_get};
ghost use Rattle.release_model.specs.Release.{Name};
ghost use Rattle.held_release.specs.inside.FirstRows.{AreFirstPlaces};
ghost use Rattle.held_release.specs.Finished.{names_among};
ghost use Rattle.held_release.specs.inside.NamesInLines.{AreNoted};
ghost use Rattle.number_lists.specs.KeyedLists.{list_of};
ghost use Rattle.number_lists.specs.inside.KeyedListsInside.{AreStarts};
ghost use Rattle.held_release.specs.Line.{concept_line};
ghost use Rattle.held_release.specs.inside.LinesInside.{lines_between};
ghost use Rattle.held_release.specs.Name.{name_among, text_lent};
ghost use Rattle.row_lists.specs.Spans.{StandsAt};

use crate::concepts::Concepts;
use crate::kept_names::{KeptName, keep_names};
use crate::naming::first_places;
use row_lists::{Names, Span, push_text};
use sctid::SctId;
use std::alloc::{AllocError, Global};
use std::marker::Model;

// About how many bytes a line has; `lines_by_place` reserves this much for each concept.
const BYTES_OF_LINE: usize = 72;

/// The output line of each concept, in the order of their numbers, and the name rows. Contracts
/// name this type as these two lists.
#[derive(Drop)]
pub struct ConceptLines {
    // the index in `texts` of each line's first byte, and the index after the last line
    starts: Vec<usize>,
    // all lines, joined, and then the texts of name rows that are in no line
    texts: String,
    // the name rows, which are kept only for the contracts and their count
    names: Vec<KeptName>,
    // the spans of the language codes of name rows in `texts`
    languages: Vec<Span>,
}

impl Model for ConceptLines {
    ghost use Rattle.held_release.specs.inside.Lined.{Lined};

    ghost Value = { Lined };

    ghost use Rattle.held_release.specs.inside.LinesInside.{AreStarted, lined_in};

    ghost view = { lined_in };

    ghost invariant = { AreStarted };
}

impl ConceptLines {
    /// Returns the number of name rows.
    pub fn name_count(&self) -> usize
        ensures { result ≡ length self.now.names }
    {
        self.names.len()
    }

    /// Returns the line of the concept with the number `number`.
    pub fn line(&self, number: u32) -> &[u8]
        requires { number < length self.now.lines }
        ensures { result.now ≡ list_of self.now.lines number }
    {
        line_between(
            self.texts.as_bytes(),
            self.starts.as_slice(),
            number as usize,
        )
    }

    /// Returns the name in the line `number`, or `None` if it has none. `concept` must be the
    /// identifier of the concept with this line: the name is found by the length of its digits.
    pub fn name(&self, number: u32, concept: SctId) -> Option<&str>
        requires number { number < length self.now.lines }
        requires line { (name : Option (List ℕ))
            × (list_of self.now.lines number ≡ concept_line (λ _. name) concept) }
        ensures { list_of self.now.lines number ≡ concept_line (λ _. text_lent result) concept }
    {
        let from = self.starts[number as usize];
        let to = self.starts[number as usize + 1];
        name_between(self.texts.as_str(), from, to, concept)
    }
}

/// Makes the lines of `concepts`, and keeps the rows of `names` that name one of them. `language`
/// is the preferred language of names. Fails if memory is refused.
pub fn lines_among(
    alloc: Global,
    concepts: &Concepts,
    mut names: Names,
    language: &str,
) -> Result<ConceptLines, AllocError>
    requires { length names < 2 ^ 32 }
    ensures names { IfOk result (λ lines. lines.names ≡ names_among concepts.now names) }
    ensures lines { IfOk result (λ lines. lines.lines
        ≡ map (concept_line (name_among language.now lines.names)) concepts.now) }
{
    names.retain_among(concepts);
    let places = first_places(alloc, &names, concepts, language)?;
    lines_by_place(alloc, concepts.ids(), &names, places.as_slice())
}

// Makes the line of each concept. For each concept, `places` has the index in `names` of the row
// that names it, if there is one.
fn lines_by_place(
    alloc: Global,
    concepts: &[SctId],
    names: &Names,
    places: &[Option<u32>],
) -> Result<ConceptLines, AllocError>
    requires few { length names.now < 2 ^ 32 }
    requires each { length places.now ≡ length concepts.now }
    requires within { All (λ place. IfSome place (λ at. at < length names.now)) places.now }
    ensures names { IfOk result (λ lines. lines.names ≡ names.now) }
    ensures lines { IfOk result (λ lines. (language : List ℕ)
        → AreFirstPlaces language concepts.now names.now names.now places.now
        → lines.lines ≡ map (concept_line (name_among language names.now)) concepts.now) }
{
    let mut texts = String::with_capacity(alloc, concepts.len().saturating_mul(BYTES_OF_LINE))?;
    let mut spans = vec![in alloc; None; names.len()]?;
    let starts = write_lines(alloc, concepts, names, places, &mut texts, &mut spans)?;
    let mut languages = Vec::new(alloc);
    let kept = keep_names(alloc, names, spans.as_slice(), &mut texts, &mut languages)?;
    texts.shrink_to_fit();
    Ok(ConceptLines {
        starts,
        texts,
        names: kept,
        languages,
    })
}

// Appends the line of each concept to `texts`. For each row of `names` that names a concept, sets
// its entry of `spans` to the span of its term in that line. Returns the index at which each line
// starts, and the index after the last line.
#[tactic(auto, using(std::proofs::lemmas::List::take_all))]
fn write_lines(
    alloc: Global,
    concepts: &[SctId],
    names: &Names,
    places: &[Option<u32>],
    texts: &mut String,
    spans: &mut Vec<Option<Span>>,
) -> Result<Vec<usize>, AllocError>
    requires each { length places.now ≡ length concepts.now }
    requires within { All (λ place. IfSome place (λ at. at < length names.now)) places.now }
    requires none { string_bytes texts.old ≡ [] }
    requires noted { AreNoted names.now (string_bytes texts.old) spans.old.items }
    ensures starts { IfOk result (λ starts. AreStarts starts.items (string_bytes texts.new)) }
    ensures lines { IfOk result (λ starts. (language : List ℕ) → AreFirstPlaces language
        concepts.now names.now names.now places.now
        → lines_between starts.items (string_bytes texts.new)
        ≡ map (concept_line (name_among language names.now)) concepts.now) }
    ensures noted { OnOk result (AreNoted names.now (string_bytes texts.new) spans.new.items) }
{
    let mut starts = Vec::with_capacity(alloc, concepts.len().saturating_add(1))?;
    starts.push(0)?;
    for number in 0..concepts.len() {
        write_line(concepts[number], names, places[number], texts, spans)?;
        starts.push(texts.len())?;
    }
    Ok(starts)
}

// Appends the line of `concept` to `texts`. If the row of `names` at `place` names it, sets that
// entry of `spans` to the span of the term in the line.
fn write_line(
    concept: SctId,
    names: &Names,
    place: Option<u32>,
    texts: &mut String,
    spans: &mut Vec<Option<Span>>,
) -> Result<(), AllocError>
    requires within { IfSome place (λ at. at < length names.now) }
    requires noted { AreNoted names.now (string_bytes texts.old) spans.old.items }
    ensures line { OnOk result (string_bytes texts.new ≡ string_bytes texts.old
        ++ concept_line (λ _. option_map (λ (row : Name). row.term)
        (option_and_then (slice_get names.now) place)) concept) }
    ensures noted { OnOk result (AreNoted names.now (string_bytes texts.new) spans.new.items) }
{
    match place {
        Some(place) => {
            let span = push_named(concept, names.row(place as usize).term, texts)?;
            spans[place as usize] = Some(span);
            Ok(())
        }
        None => push_bare(concept, texts),
    }
}

// Appends the line of `concept` with the name `name` to `texts`. Returns the span of the name.
fn push_named(concept: SctId, name: &str, texts: &mut String) -> Result<Span, AllocError>
    ensures line { OnOk result (string_bytes texts.new ≡ string_bytes texts.old
        ++ concept_line (λ _. Some name.now) concept) }
    ensures span { IfOk result (StandsAt (string_bytes texts.new) name.now) }
{
    let mut digits = itoa::Buffer::new();
    texts.push_str(digits.format(concept.number()))?;
    texts.push_str(" |")?;
    let span = push_text(texts, name)?;
    texts.push_str("|\n")?;
    Ok(span)
}

// Appends the line of `concept`, which has no name, to `texts`.
fn push_bare(concept: SctId, texts: &mut String) -> Result<(), AllocError>
    ensures { OnOk result (string_bytes texts.new ≡ string_bytes texts.old
        ++ concept_line (λ _. None) concept) }
{
    let mut digits = itoa::Buffer::new();
    texts.push_str(digits.format(concept.number()))?;
    texts.push_str("\n")
}

// Returns the line `number` in `texts`: the bytes between its start and the start of the next one.
fn line_between<'a>(texts: &'a [u8], starts: &[usize], number: usize) -> &'a [u8]
    requires next { number + 1 < length starts.now }
    requires rise { slice_index starts.now number ≤ slice_index starts.now (number + 1) }
    requires end { slice_index starts.now (number + 1) ≤ length texts.now }
    ensures { result.now ≡ slice_range texts.now (slice_index starts.now number)
        (slice_index starts.now (number + 1)) }
{
    let from = starts[number];
    let to = starts[number + 1];
    &texts[from..to]
}

// Returns the name in the line of `concept`, which is in `texts` from the index `from` to `to`;
// `None` if the line has no name.
fn name_between(texts: &str, from: usize, to: usize, concept: SctId) -> Option<&str>
    requires rise { from ≤ to }
    requires end { to ≤ length texts.now }
    requires line { (name : Option (List ℕ))
        × (slice_range texts.now from to ≡ concept_line (λ _. name) concept) }
    ensures { slice_range texts.now from to ≡ concept_line (λ _. text_lent result) concept }
{
    let mut digits = itoa::Buffer::new();
    let bare = digits.format(concept.number()).len() + 1;
    if to - from == bare {
        return None;
    }
    // before the name stand the identifier, a space and a bar, and after it a bar and LF
    Some(&texts[from + bare + 1..to - 2])
}
