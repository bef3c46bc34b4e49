//! Cycles among is-a rows. A search without a proof suggests which concepts to test, and the tests
//! here are proved. So a wrong suggestion costs time, but gives no wrong answer.
ghost use Rattle.std.specs.Prelude.{◌≡◌, ◌<◌, ◌^◌, ◌↔◌, ◌⊎◌, ℕ, false, true, List, All, Contains, IfOk, IfSome, IfNone, IsTrue, length, vec_len};
ghost use Rattle.std.specs.Bool.{OnFalse, OnTrue};
ghost use Rattle.hierarchy.specs.Hierarchy.{IsWithin, Reaches};
ghost use Rattle.hierarchy.specs.inside.Search.{IsMarked, IsFollowed, MarksReached, NoneFalls, rank_in, unmarked_count};

use crate::components::{component_ranks, rows_from};
use std::alloc::{AllocError, Global};

/// Returns the least concept below `count` that reaches itself by `rows`, or `None` if there is
/// none. Each row is a child and its parent, both below `count`, and there are fewer than 2^32
/// rows.
pub fn least_cyclic(
    alloc: Global,
    rows: &[(u32, u32)],
    count: u32,
) -> Result<Option<u32>, AllocError>
    requires within { IsWithin count rows.now }
    requires few { length rows.now < 2 ^ 32 }
    ensures none { IfOk result (λ found. IfNone found ((c : ℕ) → c < count
        → ¬ Reaches rows.now c c)) }
    ensures found { IfOk result (λ found. IfSome found (λ c. (c < count) × Reaches rows.now c c)) }
    ensures least { IfOk result (λ found. IfSome found (λ c. (d : ℕ) → d < c
        → ¬ Reaches rows.now d d)) }
{
    let ranks = component_ranks(alloc, rows, count)?;
    let suspects = suspects(alloc, rows, ranks.as_slice(), count)?;
    for concept in 0..count {
        if suspects[concept as usize] {
            if reaches_itself(alloc, rows, concept, count)? {
                return Ok(Some(concept));
            }
        }
    }
    Ok(None)
}

// Returns for each concept below `count` whether it may reach itself. If no row leads to a lower
// rank, a concept whose rows all lead to higher ranks does not. Otherwise all concepts with a row
// may.
#[tactic(auto, using(crate::proofs::SearchLemmas::level_row))]
fn suspects(
    alloc: Global,
    rows: &[(u32, u32)],
    ranks: &[u32],
    count: u32,
) -> Result<Vec<bool>, AllocError>
    requires { IsWithin count rows.now }
    ensures len { IfOk result (λ suspects. vec_len suspects ≡ count) }
    ensures others { IfOk result (λ suspects. (c : ℕ) → c < count → ¬ IsMarked suspects.items c
        → ¬ Reaches rows.now c c) }
{
    let all_rise = none_falls(rows, ranks);
    let mut suspects = vec![in alloc; false; count as usize]?;
    for row in rows {
        if !all_rise || rank_of(ranks, row.0) == rank_of(ranks, row.1) {
            suspects[row.0 as usize] = true;
        }
    }
    Ok(suspects)
}

// Whether no row leads to a lower rank.
fn none_falls(rows: &[(u32, u32)], ranks: &[u32]) -> bool
    ensures { OnTrue result (NoneFalls ranks.now rows.now) }
{
    rows.iter()
        .all(|row| rank_of(ranks, row.0) <= rank_of(ranks, row.1))
}

// Returns the rank of a concept, or 0 if it has none.
fn rank_of(ranks: &[u32], concept: u32) -> u32
    ensures { result ≡ rank_in ranks.now concept }
{
    ranks.get(concept as usize).copied().unwrap_or(0)
}

// Whether `concept` reaches itself by `rows`. It follows the rows first in the order in which a
// search upwards meets them, which is fast, and then in their own order until nothing new is found,
// so that it misses none even if that search were wrong.
fn reaches_itself(
    alloc: Global,
    rows: &[(u32, u32)],
    concept: u32,
    count: u32,
) -> Result<bool, AllocError>
    requires within { IsWithin count rows.now }
    requires few { length rows.now < 2 ^ 32 }
    requires below { concept < count }
    ensures { IfOk result (λ reaches. IsTrue reaches ↔ Reaches rows.now concept concept) }
{
    let order = rows_from(alloc, rows, concept, count)?;
    let mut reached = vec![in alloc; false; count as usize]?;
    let reaches = is_reached_at_last(reached.as_mut_slice(), rows, order.as_slice(), concept);
    Ok(reaches)
}

// Whether `concept` reaches itself by `rows`. Follows first the rows at the places in `order`.
// Marks in `reached`, where no concept is marked at first, the concepts that it reaches.
fn is_reached_at_last(
    reached: &mut [bool],
    rows: &[(u32, u32)],
    order: &[u32],
    concept: u32,
) -> bool
    requires within { IsWithin (length reached.old) rows.now }
    requires below { concept < length reached.old }
    requires none { (c : ℕ) → ¬ IsMarked reached.old c }
    ensures { IsTrue result ↔ Reaches rows.now concept concept }
{
    climb_in(reached, rows, order, concept);
    if reached[concept as usize] {
        return true;
    }
    climb_to_end(reached, rows, concept);
    reached[concept as usize]
}

// Follows the rows at the places in `order`: marks in `reached` the concepts to which they lead
// from `start` or from a marked concept.
fn climb_in(reached: &mut [bool], rows: &[(u32, u32)], order: &[u32], start: u32)
    requires { IsWithin (length reached.old) rows.now }
    ensures { MarksReached rows.now start reached.old → MarksReached rows.now start reached.new }
{
    for place in order {
        climb_at(reached, rows, *place, start);
    }
}

// Follows the row at `place` in `rows`, if there is one.
fn climb_at(reached: &mut [bool], rows: &[(u32, u32)], place: u32, start: u32)
    requires { IsWithin (length reached.old) rows.now }
    ensures { MarksReached rows.now start reached.old → MarksReached rows.now start reached.new }
{
    let place = place as usize;
    if place < rows.len() {
        climb(reached, rows[place], start);
    }
}

// Follows all rows again and again, until nothing new is reached.
fn climb_to_end(reached: &mut [bool], rows: &[(u32, u32)], start: u32)
    requires { IsWithin (length reached.old) rows.now }
    ensures reached { MarksReached rows.now start reached.old
        → MarksReached rows.now start reached.new }
    ensures followed { All (IsFollowed start reached.new) rows.now }
{
    while climb_all(reached, rows, start) {}
}

// Follows all rows once; returns whether something new was reached.
fn climb_all(reached: &mut [bool], rows: &[(u32, u32)], start: u32) -> bool
    requires { IsWithin (length reached.old) rows.now }
    ensures reached { MarksReached rows.now start reached.old
        → MarksReached rows.now start reached.new }
    ensures fewer { OnTrue result (unmarked_count reached.new < unmarked_count reached.old) }
    ensures followed { OnFalse result (All (IsFollowed start reached.new) rows.now) }
{
    let mut found = false;
    for row in rows {
        if climb(reached, *row, start) {
            found = true;
        }
    }
    found
}

// Follows `row`: marks its parent in `reached` if its child is `start` or marked. Returns whether
// the parent is newly marked.
#[tactic(auto, using(crate::proofs::SearchLemmas::marks_reached_set))]
fn climb(reached: &mut [bool], row: (u32, u32), start: u32) -> bool
    requires child { row.0 < length reached.old }
    requires parent { row.1 < length reached.old }
    ensures reached { (rows : List (ℕ × ℕ)) → Contains rows row
        → MarksReached rows start reached.old → MarksReached rows start reached.new }
    ensures fewer { OnTrue result (unmarked_count reached.new < unmarked_count reached.old) }
    ensures same { OnFalse result (reached.new ≡ reached.old) }
    ensures followed { IsFollowed start reached.new row }
{
    let (child, parent) = row;
    if reached[parent as usize] || !is_reached(reached, child, start) {
        return false;
    }
    reached[parent as usize] = true;
    true
}

// Whether `concept` is `start` or marked in `reached`.
fn is_reached(reached: &[bool], concept: u32, start: u32) -> bool
    requires { concept < length reached.now }
    ensures { IsTrue result ↔ ((concept ≡ start) ⊎ IsMarked reached.now concept) }
{
    concept == start || reached[concept as usize]
}
