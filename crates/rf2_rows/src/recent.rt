//! A cache of the concepts that a column had last. Columns such as module, type and modifier repeat
//! a few concepts, row after row.
ghost use Rattle.std.specs.Prelude.{◌≡◌, ◌+◌, ◌≤◌, true, None, IfSome, drop, length, take};
ghost use Rattle.rf2_rows.specs.Columns.{cause_of, id_format};
ghost use Rattle.numerals.specs.Numbers.{number_of};
ghost use Rattle.rf2_rows.specs.Rows.{IsReading, column_fault};
ghost use Rattle.sctid.specs.declared.Part.TheVariants.{Concept};

use crate::fault::RowFault;
use crate::fields::identifier;
use arrayvec::ArrayVec;
use sctid::{Part, SctId};
use std::marker::Model;
use std::mem::swap;

// How many digits the identifiers of SNOMED CT's own metadata have.
const METADATA_DIGITS: usize = 18;

/// The last two concepts that were parsed in a column, each with its text. A field that has one of
/// these texts is not parsed again. Many columns alternate between two concepts, for example the
/// type of a description.
#[derive(Drop)]
pub struct Recent {
    last: ReadConcept,
    other: ReadConcept,
}

impl Recent {
    /// Creates an empty cache for a column.
    pub fn new() -> Recent {
        Recent {
            last: ReadConcept::none(),
            other: ReadConcept::none(),
        }
    }

    /// Reads `text` as the identifier of a concept. Returns what `identifier` returns for a
    /// concept.
    #[inline(always)]
    pub fn read(&mut self, text: &[u8], column: u8) -> Result<SctId, RowFault>
        ensures { IsReading (column_fault column (cause_of (id_format Concept) text.now))
            (number_of text.now) result }
    {
        // the older of the two is the more frequent one in most columns
        if let Some(concept) = self.other.concept_of(text) {
            return Ok(concept);
        }
        if let Some(concept) = self.last.concept_of(text) {
            return Ok(concept);
        }
        self.read_anew(text, column)
    }

    // Parses an identifier and keeps it with its text, in place of the older of the two kept ones.
    fn read_anew(&mut self, text: &[u8], column: u8) -> Result<SctId, RowFault>
        ensures { IsReading (column_fault column (cause_of (id_format Concept) text.now))
            (number_of text.now) result }
    {
        let concept = identifier(text, Part::Concept, column)?;
        let mut kept = ArrayVec::new();
        if kept.try_extend_from_slice(text).is_ok() {
            swap(&mut self.last, &mut self.other);
            self.last = ReadConcept {
                text: kept,
                concept: Some(concept),
            };
        }
        Ok(concept)
    }
}

/// A parsed concept and its text, or none. Contracts see the concept.
#[derive(Drop)]
struct ReadConcept {
    text: ArrayVec<u8, METADATA_DIGITS>,
    concept: Option<SctId>,
}

impl Model for ReadConcept {
    ghost use Rattle.std.specs.Prelude.{ℕ, Option};
    ghost use Rattle.rf2_rows.specs.inside.RecentInside.{IsOfText};

    ghost Value = { Option ℕ };

    ghost view = { λ read. read.concept };

    ghost invariant = { IsOfText };
}

impl ReadConcept {
    // Makes an empty `ReadConcept`.
    fn none() -> ReadConcept
        ensures { result ≡ None }
    {
        ReadConcept {
            text: ArrayVec::new(),
            concept: None,
        }
    }

    // Returns the kept concept, if `text` is its text.
    #[inline(always)]
    fn concept_of(&self, text: &[u8]) -> Option<SctId>
        ensures { IfSome result (λ concept. (cause_of (id_format Concept) text.now ≡ None)
            × (concept ≡ number_of text.now)) }
    {
        match self.concept {
            Some(concept) if is_same(self.text.as_slice(), text) => Some(concept),
            _ => None,
        }
    }
}

// Whether two texts are the same. Most have `METADATA_DIGITS` bytes, and those are compared word by
// word, which is faster.
#[inline(always)]
fn is_same(one: &[u8], other: &[u8]) -> bool
    ensures { result ≡ true → one.now ≡ other.now }
{
    if one.len() == METADATA_DIGITS && other.len() == METADATA_DIGITS {
        return is_same_identifier(one, other);
    }
    one == other
}

// Whether two texts of `METADATA_DIGITS` bytes are the same. The last word begins within the one
// before it, so that it ends with the text.
#[inline(always)]
fn is_same_identifier(one: &[u8], other: &[u8]) -> bool
    requires one { length one.now ≡ 18 }
    requires other { length other.now ≡ 18 }
    ensures { result ≡ true → one.now ≡ other.now }
{
    let first = is_same_word(one, other, 0);
    let second = is_same_word(one, other, 8);
    let last = is_same_word(one, other, 10);
    first & second & last
}

// Whether two texts have the same eight bytes from index `place` on.
#[inline(always)]
fn is_same_word(one: &[u8], other: &[u8], place: usize) -> bool
    requires one { place + 8 ≤ length one.now }
    requires other { place + 8 ≤ length other.now }
    ensures { result ≡ true → take 8 (drop place one.now) ≡ take 8 (drop place other.now) }
{
    match (
        one[place..].first_chunk::<8>(),
        other[place..].first_chunk::<8>(),
    ) {
        (Some(one), Some(other)) => u64::from_le_bytes(*one) == u64::from_le_bytes(*other),
        _ => false,
    }
}
