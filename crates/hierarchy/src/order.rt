//! An order of concepts in which parents come before their children (Kahn's algorithm). If there is
//! none, some concept reaches itself.
ghost use Rattle.std.specs.Prelude.{◌≡◌, ◌≤◌, ◌<◌, ◌+◌, ◌^◌, ◌==◌, ◌++◌, ℕ, List, All, IfOk, IfSome, IfNone, OnOk, count_by, length, map, slice_index};
ghost use Rattle.hierarchy.specs.Hierarchy.{IsWithin, Reaches};
ghost use Rattle.hierarchy.specs.ParentsFirst.{IsParentsFirst};
ghost use Rattle.hierarchy.specs.inside.Released.{AreRoots, IsReleased};

use number_lists::KeyedLists;
use std::alloc::{AllocError, Global};

/// Returns the concepts below `count` in an order in which each parent stands before its children.
/// Each of `rows` is a child and its parent, both below `count`, and there are fewer than 2^32
/// rows. Returns `None` if some concept reaches itself. Takes time linear in `count` and the rows.
#[tactic(auto, using(crate::proofs::WayLemmas::parents_below, crate::proofs::Rules::order_by))]
pub fn parents_first(
    alloc: Global,
    rows: &[(u32, u32)],
    count: u32,
) -> Result<Option<Vec<u32>>, AllocError>
    requires within { IsWithin count rows.now }
    requires few { length rows.now < 2 ^ 32 }
    ensures order { IfOk result (λ found. IfSome found
        (λ order. IsParentsFirst count rows.now order.items)) }
    ensures cycle { IfOk result (λ found. IfNone found ((concept : ℕ) × (concept < count)
        × Reaches rows.now concept concept)) }
{
    let parents = KeyedLists::from_pairs(alloc, count, rows)?;
    let children = parents.transposed(alloc, count)?;
    // for each concept, how many of its rows lead to a parent whose children are not yet released
    let mut waiting = lengths(alloc, &parents)?;
    let mut order = roots(alloc, waiting.as_slice())?;
    let mut done = 0usize;
    while done < order.len() {
        let parent = order[done];
        release(children.of(parent), &mut waiting, &mut order)?;
        done += 1;
    }
    match first_waiting(waiting.as_slice()) {
        Some(_) => Ok(None),
        None => Ok(Some(order)),
    }
}

// Returns the length of each list.
fn lengths(alloc: Global, lists: &KeyedLists) -> Result<Vec<usize>, AllocError>
    requires { length lists.now < 2 ^ 32 }
    ensures { IfOk result (λ lengths. lengths.items ≡ map length lists.now) }
{
    let mut lengths = Vec::with_capacity(alloc, lists.len() as usize)?;
    for key in 0..lists.len() {
        lengths.push(lists.of(key).len())?;
    }
    Ok(lengths)
}

// Returns, in rising order, the concepts that wait for no parent: their entry of `waiting` is 0.
fn roots(alloc: Global, waiting: &[usize]) -> Result<Vec<u32>, AllocError>
    requires { length waiting.now < 2 ^ 32 }
    ensures { IfOk result (λ roots. AreRoots (length waiting.now) waiting.now roots.items) }
{
    let mut roots = Vec::with_capacity(alloc, waiting.len())?;
    for (concept, left) in waiting.iter().enumerate() {
        if *left == 0 {
            roots.push(concept as u32)?;
        }
    }
    Ok(roots)
}

// Returns the first concept that waits for a parent, if there is one: its entry of `waiting` is not
// 0.
fn first_waiting(waiting: &[usize]) -> Option<usize>
    ensures some { IfSome result (λ concept. (concept < length waiting.now)
        × (0 < slice_index waiting.now concept)) }
    ensures none { IfNone result ((concept : ℕ) → concept < length waiting.now
        → slice_index waiting.now concept ≡ 0) }
{
    waiting.iter().position(|left| *left > 0)
}

// Releases the children of a concept: lowers by one the entry of each in `waiting`, which counts
// its rows to parents, and adds the child to `order` if the entry is then 0. A concept with two
// rows to this parent stands twice in `children`.
#[tactic(auto, using(crate::proofs::ReleaseLemmas::release_none, crate::proofs::ReleaseLemmas::still_waits, crate::proofs::Rules::order_by))]
fn release(
    children: &[u32],
    waiting: &mut Vec<usize>,
    order: &mut Vec<u32>,
) -> Result<(), AllocError>
    requires within { All (λ child. child < length waiting.old.items) children.now }
    requires waits { (concept : ℕ) → count_by (λ child. child == concept) children.now
        ≤ slice_index waiting.old.items concept }
    ensures { OnOk result ((added : List ℕ) × (order.new.items ≡ order.old.items ++ added)
        × IsReleased children.now waiting.old.items waiting.new.items added) }
{
    for child in children {
        let child = *child;
        let left = waiting[child as usize] - 1;
        waiting[child as usize] = left;
        if left == 0 {
            order.push(child)?;
        }
    }
    Ok(())
}
