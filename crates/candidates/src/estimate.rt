//! Counts the attribute rows of values while these are found.
ghost use Rattle.std.specs.Prelude.{◌≡◌, ◌+◌, IfOk, IfSome, None, Some};
ghost use Rattle.std.specs.List.{sum_by};
ghost use Rattle.reading.specs.Counted.{full};
ghost use Rattle.candidates.specs.RowCounts.{row_count_of};
ghost use Rattle.candidates.specs.RowEstimates.{Adds};

use crate::candidates::{Candidates, stats_for};
use crate::rows::{are_read_before, rows_of_value};
use idset::ConceptSet;
use reading::{Answer, Reader};
use set_algebra::Choice;
use std::alloc::{AllocError, Global};
use std::marker::Model;

// Looking up the row count of a value pays if it may save reading this many adjacent rows.
const VALUE: u64 = 4;

// A set by which more rows than this are tested is converted to the form with the fastest test.
const TESTED: u64 = 512;

/// Counts the attribute rows that have a found concept as their value (or, read backwards, as their
/// source), while the concepts are found. A node uses the count to decide whether it reads these
/// rows, or other rows which it tests. The count may be too high. No answer depends on it.
#[derive(Drop)]
pub struct RowEstimate<'a> {
    // the reader that counts the rows; `None` if they are not counted
    reader: Option<Reader<'a>>,
    // whether attributes are read backwards, so that rows are counted by source
    back: bool,
    // the length of the longest list whose rows are added up
    most: u64,
    // the rows that were added; `None` if the count is not known
    rows: Option<u64>,
    // how many other rows will be tested by the set that is found; 0 if they will not be read
    tested: u64,
}

impl<'a> Model for RowEstimate<'a> {
    ghost use Rattle.candidates.specs.RowEstimates.{Estimate};

    ghost Value = { Estimate };

    ghost use Rattle.candidates.specs.inside.RowEstimateInside.{estimate_in};

    ghost view = { estimate_in };
}

impl<'a> RowEstimate<'a> {
    /// Creates an estimate that counts no rows.
    pub fn unasked() -> RowEstimate<'a>
        ensures { result.rows ≡ None }
    {
        RowEstimate {
            reader: None,
            back: false,
            most: 0,
            rows: None,
            tested: 0,
        }
    }

    /// Creates an estimate that counts the rows of what will be found, by source if `back`. Reading
    /// those rows is the alternative to reading `others` rows and testing each by what was found.
    /// The `others` will not be read if `choice` is `ByValue`, or if the candidates have so few
    /// rows that those are read.
    pub fn of<S>(
        reader: Reader<'a>,
        choice: Choice,
        back: bool,
        others: u64,
        candidates: &Candidates<'_, S>,
    ) -> RowEstimate<'a>
        ensures indexed { result.indexed ≡ Some reader.entry.indexes.now }
        ensures back { result.back ≡ back }
        ensures none { result.rows ≡ Some 0 }
    {
        let asks_others = choice != Choice::ByValue
            && !are_read_before(stats_for(candidates, back), others);
        RowEstimate {
            reader: Some(reader),
            back,
            most: others / VALUE,
            rows: Some(0),
            tested: if asks_others { others } else { 0 },
        }
    }

    /// Returns how many rows what was found has at most, or `None` if that is not known.
    pub fn rows(&self) -> Option<u64>
        ensures { result ≡ self.now.rows }
    {
        self.rows
    }

    /// Makes the count unknown, because the caller does not add the rows of what it finds.
    pub fn forget(&mut self)
        ensures { self.new ≡ record self.old { rows = None } }
    {
        self.rows = None;
    }

    /// Returns `found`, converted to the form with the fastest test if many rows will be tested by
    /// it.
    pub fn prepared<S: ConceptSet>(
        &self,
        reader: Reader<'_>,
        found: Answer<S>,
    ) -> Result<Answer<S>, AllocError>
        ensures items { IfOk result (λ set. S.items_of set ≡ S.items_of found) }
        ensures bound { IfOk result (λ set. S.bound_of set ≡ S.bound_of found) }
    {
        if self.tested > TESTED {
            found.for_asking(reader.alloc)
        } else {
            Ok(found)
        }
    }

    /// Returns whether the rows of a list of `items` concepts should be added: the count is known,
    /// and the list is so short that adding them pays.
    pub fn asks_for(&self, items: u64) -> bool {
        self.rows.is_some() && items <= self.most
    }

    /// Copies `list`, which holds concepts, and adds the rows of its items to the count. This reads
    /// the list only once.
    pub fn read(&mut self, alloc: Global, list: &[u32]) -> Result<Vec<u32>, AllocError>
        ensures items { IfOk result (λ own. own.items ≡ list.now) }
        ensures adds { IfOk result (λ own. Adds list.now self.old self.new) }
    {
        let own = Vec::from_slice(alloc, list)?;
        self.add(own.as_slice());
        Ok(own)
    }

    /// Adds the rows of `concepts` to the count. If one of them is not a number of a concept, the
    /// count becomes unknown.
    pub fn add(&mut self, concepts: &[u32])
        ensures { Adds concepts.now self.old self.new }
    {
        self.rows = match (self.reader, self.rows) {
            (Some(reader), Some(before)) => rows_after(reader, self.back, before, concepts),
            _ => None,
        };
    }
}

// Returns `before` plus the rows of `concepts`, saturated. Returns `None` if one of them is not a
// number of a concept.
fn rows_after(reader: Reader<'_>, back: bool, before: u64, concepts: &[u32]) -> Option<u64>
    ensures { IfSome result (λ all. full
        (before + sum_by (row_count_of reader.entry.indexes.now back) concepts.now) ≡ all) }
{
    let mut rows = before;
    for concept in concepts {
        if *concept >= reader.concept_count() {
            return None;
        }
        rows = rows.saturating_add(rows_of_value(reader, back, *concept));
    }
    Some(rows)
}
