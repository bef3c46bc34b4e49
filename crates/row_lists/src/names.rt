//! The list of name rows, with their texts in one buffer.
ghost use Rattle.std.specs.Prelude.{◌≡◌, ◌<◌, ◌++◌, ◌∷◌, [], OnOk, filter, length, slice_index_or};
ghost use Rattle.release_model.specs.Release.{Name};
ghost use Rattle.row_lists.specs.ChosenLists.{in_list, items_chosen};
ghost use Rattle.row_lists.specs.LentRows.{name_read};
ghost use Rattle.row_lists.specs.inside.NamesInside.{IsPlaced, name_in};

use crate::row_lists::{Listing, chosen_items};
use crate::spans::{Span, push_text};
use sctid::SctId;
use std::alloc::{AllocError, Global};
use std::marker::Model;

/// A name row as it is stored: the description's identifier, the concept that it names, and the
/// spans of its language code and its term in the buffer.
#[derive(Clone, Copy)]
struct NameRow {
    id: SctId,
    concept: SctId,
    language: Span,
    term: Span,
}

/// A name row as callers see it. The texts are borrowed.
#[derive(Clone, Copy)]
pub struct ReadName<'a> {
    pub id: SctId,
    pub concept: SctId,
    pub language: &'a str,
    pub term: &'a str,
}

/// A set of concepts that can be asked by identifier.
pub trait KnownConcepts {
    ghost use Rattle.std.specs.Prelude.{◌≡◌, ℕ, Bool};

    /// Whether the concept with the identifier is in the set.
    ghost knows: { Self → ℕ → Bool };

    /// Whether the concept with the identifier `id` is in the set.
    fn has(&self, id: u64) -> bool
        ensures { result ≡ knows self.now id };
}

/// Name rows, which are active fully specified names, in the order in which they were read.
/// Contracts name this type as the list of the rows.
#[derive(Drop)]
pub struct Names {
    rows: Vec<NameRow>,
    // the language code and the term of each row, joined without separators
    texts: String,
}

impl Model for Names {
    ghost use Rattle.std.specs.Prelude.{List};
    ghost use Rattle.release_model.specs.Release.{Name};

    ghost Value = { List Name };

    ghost use Rattle.row_lists.specs.inside.NamesInside.{ArePlaced, names_in};

    ghost view = { names_in };

    ghost invariant = { ArePlaced };
}

impl Names {
    pub(crate) fn new(alloc: Global) -> Names
        ensures { result ≡ [] }
    {
        Names {
            rows: Vec::new(alloc),
            texts: String::new(alloc),
        }
    }

    /// Returns the number of rows.
    pub fn len(&self) -> usize
        ensures { result ≡ length self.now }
    {
        self.rows.len()
    }

    /// Appends a row. `id` is the description's identifier. Copies the texts.
    pub(crate) fn push(
        &mut self,
        id: SctId,
        concept: SctId,
        language: &str,
        term: &str,
    ) -> Result<(), AllocError>
        ensures { OnOk result (self.new ≡ self.old ++ record {
          id = id;
          concept = concept;
          language = language.now;
          term = term.now;
        } ∷ []) }
    {
        let language = push_text(&mut self.texts, language)?;
        let term = push_text(&mut self.texts, term)?;
        self.rows.push(NameRow {
            id,
            concept,
            language,
            term,
        })?;
        Ok(())
    }

    /// Keeps only the name rows whose row in the files is chosen. For each row of the files,
    /// `marks` says which list it is in, and `choices` whether it is chosen.
    #[tactic(auto, using(crate::proofs::NameLemmas::rows_chosen))]
    pub(crate) fn choose(
        &mut self,
        alloc: Global,
        marks: &[Listing],
        choices: &[bool],
    ) -> Result<(), AllocError>
        ensures { OnOk result (self.new ≡ items_chosen (in_list Listing.Name marks.now) choices.now
            self.old) }
    {
        self.rows = chosen_items(alloc, self.rows.as_slice(), marks, Listing::Name, choices)?;
        Ok(())
    }

    /// Returns the row at index `place`.
    #[tactic(auto, using(crate::proofs::NameLemmas::rows_read))]
    pub fn row(&self, place: usize) -> ReadName<'_>
        requires { place < length self.now }
        ensures { (default : Name) → name_read result ≡ slice_index_or self.now place default }
    {
        let row = self.rows[place];
        ReadName {
            id: row.id,
            concept: row.concept,
            language: language_of(self.texts.as_str(), &row),
            term: term_of(self.texts.as_str(), &row),
        }
    }

    /// Keeps only the rows that name a concept of `concepts`. The texts of the removed rows stay in
    /// the buffer.
    pub fn retain_among<C: KnownConcepts>(&mut self, concepts: &C)
        ensures { self.new ≡ filter (λ (name : Name). C.knows concepts.now name.concept) self.old }
    {
        self.rows.retain(|row| is_row_among(concepts, row));
    }
}

// Returns the language code of `row`.
fn language_of<'a>(texts: &'a str, row: &NameRow) -> &'a str
    requires { IsPlaced texts.now row.now }
    ensures { result.now ≡ (name_in texts.now row.now).language }
{
    row.language.text_in(texts)
}

// Returns the term of `row`.
fn term_of<'a>(texts: &'a str, row: &NameRow) -> &'a str
    requires { IsPlaced texts.now row.now }
    ensures { result.now ≡ (name_in texts.now row.now).term }
{
    row.term.text_in(texts)
}

// Whether the concept that `row` names is in `concepts`.
fn is_row_among<C: KnownConcepts>(concepts: &C, row: &NameRow) -> bool
    ensures { result ≡ C.knows concepts.now row.now.concept }
{
    concepts.has(row.concept.number())
}
