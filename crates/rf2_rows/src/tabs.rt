//! Cutting a line at its tabs, 64 bytes at a time.
ghost use Rattle.std.specs.Prelude.{◌≡◌, ◌+◌, ◌<◌, ◌≤◌, [], length, slice_index_or, IsNone, IfSome};
ghost use Rattle.rf2_rows.specs.Rows.{fields_of};
ghost use Rattle.rf2_rows.specs.inside.Starts.{AreStarts, IsCutUpTo, fields_at};
ghost use Rattle.rf2_rows.specs.inside.Tabs.{tab_bits, tabs_in};

use std::marker::Model;
use std::simd::prelude::*;

/// The fields of a line: the line, and where each field starts. The widest kind of file has 10
/// columns. Contracts see the list of the texts of the fields.
#[derive(Drop)]
pub struct Fields<'a> {
    line: &'a [u8],
    // where each field starts, and then one after the end of the last field
    starts: [usize; 11],
    // how many fields there are
    count: usize,
}

impl<'a> Model for Fields<'a> {
    ghost use Rattle.std.specs.Prelude.{ℕ, List};

    ghost Value = { List (List ℕ) };

    ghost use Rattle.rf2_rows.specs.inside.FieldsInside.{AreWithin, texts_in};

    ghost view = { texts_in };

    ghost invariant = { AreWithin };
}

impl<'a> Fields<'a> {
    /// Makes a place for the fields of a line, with no field in it. Takes no memory.
    #[inline]
    pub fn new() -> Fields<'a>
        ensures { result ≡ [] }
    {
        Fields {
            line: &[],
            starts: [0; 11],
            count: 0,
        }
    }

    /// Cuts `line` at its tabs and keeps its fields in place of the ones before. Returns `None` if
    /// there are more than 10. A caller that has a place for the fields saves the copy that
    /// `cut_fields` makes. Takes no memory.
    pub fn cut(&mut self, line: &'a [u8]) -> Option<()>
        ensures more { IsNone result → 10 < length (fields_of line.now) }
        ensures fields { IfSome result (λ _. self.new ≡ fields_of line.now) }
    {
        self.line = line;
        self.count = 0;
        self.count = find_starts(&mut self.starts, line)?;
        Some(())
    }

    /// Returns the number of fields.
    #[inline]
    #[tactic(auto, using(crate::proofs::Starts::fields_kept))]
    pub fn len(&self) -> usize
        ensures { result ≡ length self.now }
    {
        self.count
    }

    /// Returns the text of the field at `index`, from 0.
    #[inline]
    #[tactic(auto, using(crate::proofs::Starts::fields_kept))]
    pub fn at(&self, index: usize) -> &'a [u8]
        requires { index < length self.now }
        ensures { result.now ≡ slice_index_or self.now index [] }
    {
        let line = self.line;
        let start = self.starts[index];
        let end = self.starts[index + 1] - 1;
        &line[start..end]
    }
}

/// Cuts a line at its tabs into fields. Returns `None` if there are more than 10. Takes no memory.
pub fn cut_fields(line: &[u8]) -> Option<Fields<'_>>
    ensures more { IsNone result → 10 < length (fields_of line.now) }
    ensures fields { IfSome result (λ fields. fields ≡ fields_of line.now) }
{
    let mut fields = Fields::new();
    fields.cut(line)?;
    Some(fields)
}

// Puts into `starts` where each field of `line` starts, and then one after the end of the last
// field. Returns the number of fields, or `None` if there are more than 10.
#[tactic(auto, using(crate::proofs::Starts::line_ends))]
fn find_starts(starts: &mut [usize; 11], line: &[u8]) -> Option<usize>
    ensures more { IsNone result → 10 < length (fields_of line.now) }
    ensures few { IfSome result (λ count. count ≤ 10) }
    ensures within { IfSome result (λ count. AreStarts line.now starts.new count) }
    ensures fields { IfSome result
        (λ count. fields_at line.now starts.new count ≡ fields_of line.now) }
{
    starts[0] = 0;
    let mut count = 0;
    let mut looked = 0;
    while looked < line.len() {
        let marks = tabs_from(line, looked);
        count = push_starts(starts, count, line, looked, marks)?;
        looked += 64;
    }
    if count == 10 {
        return None;
    }
    starts[count + 1] = line.len() + 1;
    Some(count + 1)
}

// Goes on to cut `line`, whose first `count` fields end before byte `from`: puts into `starts`
// where the fields start that follow a tab among the 64 bytes from `from` on. `marks` has a bit for
// each of these bytes, the lowest first, set for a tab. Returns how many fields end before the end
// of these bytes, or `None` if `starts` has no room for them.
#[inline]
#[tactic(auto, using(crate::proofs::Starts::tabs_end))]
fn push_starts(
    starts: &mut [usize; 11],
    count: usize,
    line: &[u8],
    from: usize,
    marks: u64,
) -> Option<usize>
    requires cut { IsCutUpTo line.now starts.old count from }
    requires in_line { from < length line.now }
    requires marked { marks ≡ tabs_in line.now from (from + 64) }
    ensures more { IsNone result → 10 < length (fields_of line.now) }
    ensures cut { IfSome result (λ next. IsCutUpTo line.now starts.new next (from + 64)) }
{
    let mut count = count;
    // loses its lowest bit with each field
    let mut left = marks;
    while left != 0 {
        if count == 10 {
            return None;
        }
        count += 1;
        starts[count] = from + left.trailing_zeros() as usize + 1;
        left &= left - 1;
    }
    Some(count)
}

// Returns a bit for each of the 64 bytes of `line` from `from` on, the lowest first, set for a tab.
// The bits of bytes after the end of the line are 0.
#[inline]
#[tactic(auto, using(crate::proofs::TabBits::shifts))]
fn tabs_from(line: &[u8], from: usize) -> u64
    requires { from < length line.now }
    ensures { result ≡ tabs_in line.now from (from + 64) }
{
    let length = line.len();
    if length - from >= 64 {
        tabs(u8x64::from_slice(&line[from..]))
    } else if length >= 64 {
        // the last 64 bytes of the line; the shift drops the tabs before `from`
        tabs(u8x64::from_slice(&line[length - 64..])) >> (from + 64 - length)
    } else {
        tabs_of_short(line) >> from
    }
}

// Returns a bit for each of the bytes of a line of fewer than 64, the lowest first, set for a tab.
#[tactic(auto, using(crate::proofs::TabBits::padded_block))]
fn tabs_of_short(line: &[u8]) -> u64
    requires { length line.now < 64 }
    ensures { result ≡ tab_bits line.now }
{
    let mut block = [0; 64];
    block[..line.len()].copy_from_slice(line);
    tabs(u8x64::from_array(block))
}

// Returns a bit for each of 64 bytes, the lowest first, set for a tab.
#[inline]
fn tabs(block: u8x64) -> u64
    ensures { result ≡ tab_bits block }
{
    block.simd_eq(u8x64::splat(b'\t')).to_bitmask()
}
