//! The versions of components that have several rows. A version is a component at one effective
//! time. This module finds conflicts between rows of one version, and chooses the row with the
//! latest effective time of each component.
ghost use Rattle.std.specs.Prelude.{◌≡◌, ◌<◌, ◌≤◌, ◌+◌, ◌/◌, ◌^◌, ◌&&◌, ◌++◌, ◌∷◌, [], ℕ, List, All, IfOk, OnOk, OnErr, MatchOption, None, true, false, not, length, map, nat_eq, nat_lt, slice_index, slice_index_or};
ghost use Rattle.std.specs.Option.{ForSome};
ghost use Rattle.std.specs.List.{list_any};
ghost use Rattle.std.specs.List.Sorted.{IsStrictlyIncreasing};
ghost use Rattle.rf2_rows.specs.Rows.{row_fault};
ghost use Rattle.rf2_rows.specs.Versions.{same_row as same_row_of};
ghost use Rattle.number_lists.specs.Members.{has};
ghost use Rattle.release_rows.specs.inside.KeyedRows.{KeyedRow, choices, conflicts, AreOfItsKind, Covers};
ghost use Rattle.release_rows.specs.inside.VersionTable.{IsCodeOf, Version, is_older, is_outdated, time_code, without};

use crate::rising_keys::RisingKeys;
use key_interner::{KeyInterner, Seed};
use rf2_rows::{FileKind, same_row};
use row_lists::{Span, push_bytes};
use std::alloc::{AllocError, Global};
use std::marker::Model;

// Stands in a code for a missing effective time. It is above all times of eight digits, because a
// row without a time counts as the latest.
const NO_TIME: u32 = 100_000_000;

// How many codes each key has. This is more than there are times, so that different versions have
// different codes.
const CODES: u64 = 1 << 32;

/// A row to compare: the key of its component, its effective time, the kind of its file, and the
/// bytes of its line.
#[derive(Clone, Copy)]
pub struct NotedRow<'a> {
    pub key: u64,
    pub time: Option<u32>,
    pub kind: FileKind,
    pub text: &'a [u8],
}

// A version: its code (`code_of`), the index of its first row among all rows, the kind of that row,
// and the span of its line in the buffer `lines`.
#[derive(Clone, Copy)]
struct VersionRow {
    code: u64,
    place: usize,
    kind: FileKind,
    line: Span,
}

// Versions in the order of their first rows. Contracts name this type as a list of versions.
#[derive(Drop)]
struct VersionRows {
    rows: Vec<VersionRow>,
    // the lines of the versions' first rows, joined without separators
    lines: Vec<u8>,
}

impl Model for VersionRows {
    ghost use Rattle.std.specs.Prelude.{List};
    ghost use Rattle.release_rows.specs.inside.VersionTable.{Version};

    ghost Value = { List Version };

    ghost use Rattle.release_rows.specs.inside.VersionsInside.{AreLines, versions_in};

    ghost view = { versions_in };

    ghost invariant = { AreLines };
}

impl VersionRows {
    fn new(alloc: Global) -> VersionRows
        ensures { result ≡ [] }
    {
        VersionRows {
            rows: Vec::new(alloc),
            lines: Vec::new(alloc),
        }
    }

    // Returns the number of versions.
    fn len(&self) -> usize
        ensures { result ≡ length self.now }
    {
        self.rows.len()
    }

    // Appends the version `code`, whose first row has the index `place`, is of `kind`, and has the
    // line `text`. Copies `text`.
    fn push(
        &mut self,
        code: u64,
        place: usize,
        kind: FileKind,
        text: &[u8],
    ) -> Result<(), AllocError>
        requires { row_fault kind text.now ≡ None }
        ensures ok { OnOk result (self.new ≡ self.old ++ record {
          code = code;
          place = place;
          kind = kind;
          text = text.now;
        } ∷ []) }
        ensures err { OnErr result (self.new ≡ self.old) }
    {
        let line = push_bytes(&mut self.lines, text)?;
        self.rows.push(VersionRow {
            code,
            place,
            kind,
            line,
        })?;
        Ok(())
    }

    // Returns the code of the version at index `number`, and the index of its first row among all
    // rows.
    fn code_and_place(&self, number: usize) -> (u64, usize)
        requires { number < length self.now }
        ensures code { (default : Version)
            → result.0 ≡ (slice_index_or self.now number default).code }
        ensures place { (default : Version)
            → result.1 ≡ (slice_index_or self.now number default).place }
    {
        let row = self.rows[number];
        (row.code, row.place)
    }

    // Whether a row of `kind` with the line `text` equals the first row of the version at index
    // `number` in each column. False if that row is of another kind.
    fn agrees(&self, number: usize, kind: FileKind, text: &[u8]) -> bool
        requires number { number < length self.now }
        requires accepted { row_fault kind text.now ≡ None }
        ensures { (default : Version) → (slice_index_or self.now number default).kind ≡ kind
            → result ≡ same_row_of kind (slice_index_or self.now number default).text text.now }
    {
        let row = self.rows[number];
        row.kind == kind && same_row(kind, row.line.bytes_in(self.lines.as_slice()), text)
    }
}

/// A table of the rows of a release. It is given one row after another, and compares the rows of
/// components that have several. Once memory has been refused, contracts say nothing about the rows
/// that the table has been given.
#[derive(Drop)]
pub struct Versions {
    // the keys that occur more than once, that is, the keys of components with several rows
    repeated: RisingKeys,
    // maps the code of a version to the index of the version in `versions`
    seen: KeyInterner,
    // the versions of these components, in the order of their first rows
    versions: VersionRows,
    // for each row that was given, whether it is the first row of its version
    chosen: Vec<bool>,
}

impl Model for Versions {
    ghost use Rattle.release_rows.specs.inside.VersionTable.{VersionTable};

    ghost Value = { VersionTable };

    ghost use Rattle.release_rows.specs.inside.VersionsInside.{AreKeptIn, taken_in};

    ghost view = { taken_in };

    ghost invariant = { AreKeptIn };
}

impl Versions {
    ghost use Rattle.release_rows.specs.inside.VersionTable.{HasTaken};
    ghost use Rattle.release_rows.specs.inside.VersionsInside.{noted};

    /// Creates a table without rows. `repeated` holds the keys of the components with several rows,
    /// in rising order. Codes will be hashed with `seed`.
    pub fn new(alloc: Global, repeated: Vec<u64>, seed: Seed) -> Versions
        requires rising { IsStrictlyIncreasing repeated.items }
        requires few { length repeated.items < 2 ^ 32 }
        ensures repeated { result.repeated ≡ repeated.items }
        ensures taken { HasTaken result [] }
    {
        Versions {
            repeated: RisingKeys::new(repeated),
            seen: KeyInterner::new(alloc, seed),
            versions: VersionRows::new(alloc),
            chosen: Vec::new(alloc),
        }
    }

    /// Whether `key` is the key of a component with several rows. Changes only where the next
    /// search in the list of keys begins.
    pub fn is_repeated(&mut self, key: u64) -> bool
        ensures repeated { result ≡ has self.old.repeated key }
        ensures same { self.new ≡ self.old }
    {
        self.repeated.has(key)
    }

    /// Counts a row whose component has no other row, so that it is chosen. Does not need its text.
    pub fn skip(&mut self) -> Result<(), AllocError>
        ensures repeated { self.new.repeated ≡ self.old.repeated }
        ensures taken { OnOk result ((rows : List KeyedRow) (row : KeyedRow)
            → has self.old.repeated row.key ≡ false → HasTaken self.old rows
            → HasTaken self.new (rows ++ row ∷ [])) }
    {
        self.chosen.push(true)?;
        Ok(())
    }

    /// Adds `row`. Returns `false` if `row` differs from an earlier row of the same component and
    /// effective time. A row whose component has no other row is chosen without a comparison.
    pub fn take(&mut self, row: &NotedRow<'_>) -> Result<bool, AllocError>
        requires accepted { row_fault row.now.kind row.now.text.now ≡ None }
        requires time { ForSome row.now.time (λ time. time < 10 ^ 8) }
        ensures repeated { self.new.repeated ≡ self.old.repeated }
        ensures conflict { IfOk result (λ fits. (rows : List KeyedRow) → HasTaken self.old rows
            → AreOfItsKind rows (noted row.now)
            → fits ≡ not (has self.old.repeated row.now.key
            && list_any (λ earlier. conflicts earlier (noted row.now)) rows)) }
        ensures taken { IfOk result (λ fits. (rows : List KeyedRow) → HasTaken self.old rows
            → AreOfItsKind rows (noted row.now) → fits ≡ true
            → HasTaken self.new (rows ++ noted row.now ∷ [])) }
    {
        match code_of(self.repeated.as_slice(), row.key, row.time) {
            Some(code) => {
                let fits = self.take_version(code, row)?;
                Ok(fits)
            }
            None => {
                self.chosen.push(true)?;
                Ok(true)
            }
        }
    }

    // Adds `row`, whose version has the code `code`: compares it with the first row of the version,
    // or, if there is none, makes it the first. Returns `false` if the two differ.
    fn take_version(&mut self, code: u64, row: &NotedRow<'_>) -> Result<bool, AllocError>
        requires accepted { row_fault row.now.kind row.now.text.now ≡ None }
        requires code { IsCodeOf self.old.repeated (noted row.now) code }
        ensures repeated { self.new.repeated ≡ self.old.repeated }
        ensures conflict { IfOk result (λ fits. (rows : List KeyedRow) → HasTaken self.old rows
            → AreOfItsKind rows (noted row.now)
            → fits ≡ not (list_any (λ earlier. conflicts earlier (noted row.now)) rows)) }
        ensures taken { IfOk result (λ fits. (rows : List KeyedRow) → HasTaken self.old rows
            → AreOfItsKind rows (noted row.now) → fits ≡ true
            → HasTaken self.new (rows ++ noted row.now ∷ [])) }
    {
        match self.seen.place_of(code as u128) {
            Some(number) => {
                if !self.versions.agrees(number, row.kind, row.text) {
                    return Ok(false);
                }
                self.chosen.push(false)?;
                Ok(true)
            }
            None => {
                self.add_version(code, row)?;
                Ok(true)
            }
        }
    }

    // Adds `row` as the first row of the version `code`.
    fn add_version(&mut self, code: u64, row: &NotedRow<'_>) -> Result<(), AllocError>
        requires accepted { row_fault row.now.kind row.now.text.now ≡ None }
        requires code { IsCodeOf self.old.repeated (noted row.now) code }
        requires new { list_any (nat_eq code) self.old.codes ≡ false }
        ensures repeated { self.new.repeated ≡ self.old.repeated }
        ensures taken { OnOk result ((rows : List KeyedRow) → HasTaken self.old rows
            → HasTaken self.new (rows ++ noted row.now ∷ [])) }
    {
        let place = self.chosen.len();
        self.chosen.push(true)?;
        self.versions.push(code, place, row.kind, row.text)?;
        let _ = self.seen.intern(code as u128)?;
        Ok(())
    }

    /// Returns for each row that was given whether it is chosen: it has the latest effective time
    /// of its component, and is the first among equal rows.
    pub fn chosen(self) -> Vec<bool>
        ensures { (rows : List KeyedRow) → HasTaken self rows
            → Covers self.repeated (map (λ (row : KeyedRow). row.key) rows)
            → result.items ≡ choices rows [] rows }
    {
        let Versions {
            repeated,
            versions,
            mut chosen,
            ..
        } = self;
        let mut latest = repeated.into_keys();
        find_latest(&mut latest, &versions);
        leave_latest(&mut chosen, latest.as_slice(), &versions);
        chosen
    }
}

// Returns the code of the version of `key` and `time`: the index of `key` in `repeated`, times
// 2^32, plus the time. So of two versions of one component the later has the greater code. `None`
// if `key` is not in `repeated`.
fn code_of(repeated: &[u64], key: u64, time: Option<u32>) -> Option<u64>
    requires rising { IsStrictlyIncreasing repeated.now }
    requires few { length repeated.now < 2 ^ 32 }
    requires time { ForSome time (λ time. time < 10 ^ 8) }
    ensures { (row : KeyedRow) → row.key ≡ key → row.time ≡ time
        → MatchOption result (has repeated.now key ≡ false) (IsCodeOf repeated.now row) }
{
    match repeated.binary_search(&key) {
        Ok(place) => Some(place as u64 * CODES + u64::from(time.unwrap_or(NO_TIME))),
        Err(_) => None,
    }
}

// Returns the index of the version's key in the list of repeated keys.
fn key_place(code: u64) -> usize
    ensures { result ≡ code / 2 ^ 32 }
{
    (code / CODES) as usize
}

// Overwrites `latest`: at the index of each key it puts the greatest code of the key's versions.
// The entries that `latest` had before do not matter.
fn find_latest(latest: &mut Vec<u64>, versions: &VersionRows)
    requires { All (λ (version : Version). version.code / 2 ^ 32 < length latest.old.items)
        versions.now }
    ensures len { length latest.new.items ≡ length latest.old.items }
    ensures latest { (code : ℕ) → code / 2 ^ 32 < length latest.old.items
        → nat_lt code (slice_index latest.new.items (code / 2 ^ 32))
        ≡ is_outdated versions.now code }
{
    latest.as_mut_slice().fill(0);
    for number in 0..versions.len() {
        let (code, _) = versions.code_and_place(number);
        let place = key_place(code);
        if latest[place] < code {
            latest[place] = code;
        }
    }
}

// Sets `chosen` to false for the first row of each version that is not the latest of its component.
// `latest` has the greatest code of each key.
fn leave_latest(chosen: &mut Vec<bool>, latest: &[u64], versions: &VersionRows)
    requires keys { All (λ (version : Version). version.code / 2 ^ 32 < length latest.now)
        versions.now }
    requires places { All (λ (version : Version). version.place < length chosen.old.items)
        versions.now }
    requires latest { (code : ℕ) → code / 2 ^ 32 < length latest.now
        → nat_lt code (slice_index latest.now (code / 2 ^ 32)) ≡ is_outdated versions.now code }
    ensures { chosen.new.items ≡ without (is_older versions.now) 0 chosen.old.items }
{
    for number in 0..versions.len() {
        let (code, place) = versions.code_and_place(number);
        if code < latest[key_place(code)] {
            chosen[place] = false;
        }
    }
}
