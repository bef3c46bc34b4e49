//! The strongly connected components of the is-a rows, for the search for cycles: two depth-first
//! searches over flat lists (Kosaraju and Sharir), with no recursion. No contract says that the
//! ranks found here are right; the module `cycle` tests them.
ghost use Rattle.std.specs.Prelude.{◌≡◌, ◌<◌, ◌^◌, IfOk, length};
ghost use Rattle.hierarchy.specs.Hierarchy.{IsWithin};

use number_lists::KeyedLists;
use std::alloc::{AllocError, Global};

/// Returns a rank for each concept below `count`. `rows` are is-a rows, each a child and its
/// parent. Concepts that reach one another get one rank; otherwise a child gets a lower rank than
/// its parent.
pub fn component_ranks(
    alloc: Global,
    rows: &[(u32, u32)],
    count: u32,
) -> Result<Vec<u32>, AllocError>
    requires within { IsWithin count rows.now }
    requires few { length rows.now < 2 ^ 32 }
{
    let up = KeyedLists::from_pairs(alloc, count, rows)?;
    let finished = finish_order(alloc, &up, rows.len())?;
    let down = up.transposed(alloc, count)?;
    drop(up);
    let ranks = ranks_after(alloc, finished.as_slice(), &down, count)?;
    Ok(ranks)
}

// Does the second search and returns the ranks. `finished` lists the concepts in the order in which
// the search upwards finished them, and `down` has the children of each concept.
fn ranks_after(
    alloc: Global,
    finished: &[u32],
    down: &KeyedLists,
    count: u32,
) -> Result<Vec<u32>, AllocError>
    requires { length down.now < 2 ^ 32 }
{
    let mut stack = Vec::new(alloc);
    let mut ranks = vec![in alloc; u32::MAX; count as usize]?;
    for (rank, root) in finished.iter().rev().enumerate() {
        let rank = u32::try_from(rank).unwrap_or(u32::MAX);
        flood(&mut ranks, &mut stack, down, *root, rank)?;
    }
    Ok(ranks)
}

/// Returns the places in `rows` of the rows that a search upwards from `concept` meets, in the
/// order in which it meets them. All concepts are below `count`.
pub fn rows_from(
    alloc: Global,
    rows: &[(u32, u32)],
    concept: u32,
    count: u32,
) -> Result<Vec<u32>, AllocError>
    requires within { IsWithin count rows.now }
    requires few { length rows.now < 2 ^ 32 }
{
    let up = places_by_child(alloc, rows, count)?;
    let mut seen = vec![in alloc; false; count as usize]?;
    let mut order = Vec::new(alloc);
    let mut stack = vec![in alloc; concept]?;
    for _ in 0..rows.len().saturating_add(1) {
        let Some(child) = stack.pop() else { break };
        for place in list_at(&up, child) {
            order.push(*place)?;
            let parent = parent_at(rows, *place);
            if mark(seen.as_mut_slice(), parent) {
                stack.push(parent)?;
            }
        }
    }
    Ok(order)
}

// Returns for each concept below `count` the places in `rows` of the rows of which it is the child.
fn places_by_child(alloc: Global, rows: &[(u32, u32)], count: u32) -> Result<KeyedLists, AllocError>
    requires within { IsWithin count rows.now }
    requires few { length rows.now < 2 ^ 32 }
    ensures { IfOk result (λ places. length places ≡ count) }
{
    let mut pairs = Vec::with_capacity(alloc, rows.len())?;
    for (place, row) in rows.iter().enumerate() {
        pairs.push((row.0, place as u32))?;
    }
    KeyedLists::from_pairs(alloc, count, pairs.as_slice())
}

// Returns the list of `concept`, or an empty list if `lists` has none for it.
fn list_at(lists: &KeyedLists, concept: u32) -> &[u32]
    requires { length lists.now < 2 ^ 32 }
{
    if concept < lists.len() {
        lists.of(concept)
    } else {
        &[]
    }
}

// Returns the parent of the row at `place`, or 0 if there is no such row.
fn parent_at(rows: &[(u32, u32)], place: u32) -> u32 {
    match rows.get(place as usize) {
        Some(row) => row.1,
        None => 0,
    }
}

// Marks `concept` in `seen`. Returns whether `seen` has it and it was not marked before.
fn mark(seen: &mut [bool], concept: u32) -> bool {
    match seen.get_mut(concept as usize) {
        Some(slot) => {
            let is_new = !*slot;
            *slot = true;
            is_new
        }
        None => false,
    }
}

// Does the first search: returns the concepts in the order in which a depth-first search upwards
// finishes them. `up` has the parents of each concept, and `rows` is the number of rows.
fn finish_order(alloc: Global, up: &KeyedLists, rows: usize) -> Result<Vec<u32>, AllocError>
    requires { length up.now < 2 ^ 32 }
{
    let count = up.len();
    let steps = rows.saturating_add(count as usize);
    let mut seen = vec![in alloc; false; count as usize]?;
    let mut finished = Vec::with_capacity(alloc, count as usize)?;
    let mut stack = Vec::new(alloc);
    for root in 0..count {
        if mark(seen.as_mut_slice(), root) {
            stack.push((root, 0usize))?;
            finish(&mut finished, &mut stack, &mut seen, up, steps)?;
        }
    }
    Ok(finished)
}

// Continues a depth-first search until its stack is empty, and adds the concepts that it finishes
// to `finished`. The stack holds concepts, each with how many of its rows the search has followed.
// The search takes at most `steps` steps, which is the number of rows and concepts together.
fn finish(
    finished: &mut Vec<u32>,
    stack: &mut Vec<(u32, usize)>,
    seen: &mut Vec<bool>,
    up: &KeyedLists,
    steps: usize,
) -> Result<(), AllocError>
    requires { length up.now < 2 ^ 32 }
{
    for _ in 0..steps {
        let Some((concept, done)) = stack.pop() else {
            break
        };
        match list_at(up, concept).get(done) {
            Some(parent) => {
                stack.push((concept, done.saturating_add(1)))?;
                if mark(seen.as_mut_slice(), *parent) {
                    stack.push((*parent, 0))?;
                }
            }
            None => finished.push(concept)?,
        }
    }
    Ok(())
}

// Gives `rank` to the concept `root` and to all concepts that reach it, unless they have a rank.
// `down` has the children of each concept, and `stack` is empty.
fn flood(
    ranks: &mut Vec<u32>,
    stack: &mut Vec<u32>,
    down: &KeyedLists,
    root: u32,
    rank: u32,
) -> Result<(), AllocError>
    requires { length down.now < 2 ^ 32 }
{
    if set_rank(ranks.as_mut_slice(), root, rank) {
        stack.push(root)?;
    }
    let steps = ranks.len();
    for _ in 0..steps {
        let Some(parent) = stack.pop() else { break };
        for child in list_at(down, parent) {
            if set_rank(ranks.as_mut_slice(), *child, rank) {
                stack.push(*child)?;
            }
        }
    }
    Ok(())
}

// Gives `rank` to `concept` if it has no rank, which is `u32::MAX`. Returns whether it did.
fn set_rank(ranks: &mut [u32], concept: u32, rank: u32) -> bool {
    match ranks.get_mut(concept as usize) {
        Some(slot) if *slot == u32::MAX => {
            *slot = rank;
            true
        }
        _ => false,
    }
}
