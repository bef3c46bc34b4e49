//! Finds the numbers whose count in a list lies in a cardinality.
ghost use Rattle.std.specs.Prelude.{ℕ, ◌≡◌, ◌-◌, ◌<◌, All, IfOk, nat_le};
ghost use Rattle.constraint_tree.specs.Passing.{lies_in};
ghost use Rattle.number_lists.specs.Rising.{numbers_where};
ghost use Rattle.number_lists.specs.Members.{times};

use crate::difference::without;
use constraint_tree::Cardinality;
use idset::{ConceptSet, bitmap_of, is_marked, mark};
use reading::Answer;
use std::alloc::{AllocError, Global};

/// Finds the numbers below `bound` whose count in `numbers` lies in the cardinality `count`
/// (Expression Constraint Language, "Cardinality").
pub fn as_often<S: ConceptSet>(
    alloc: Global,
    numbers: &[u32],
    bound: u32,
    count: Cardinality,
) -> Result<Answer<S>, AllocError>
    requires { All (λ number. number < bound) numbers.now }
    ensures items { IfOk result (λ found. S.items_of found ≡ numbers_where bound
        (λ number. lies_in count (times number numbers.now))) }
    ensures bound { IfOk result (λ found. S.bound_of found ≡ bound) }
{
    let enough: S = at_least(alloc, numbers, bound, count.min)?;
    match count.max {
        Some(most) if most < numbers.len() as u64 => {
            let more: S = at_least(alloc, numbers, bound, most + 1)?;
            let left = without(alloc, &enough, &more)?;
            Ok(Answer::of(left))
        }
        _ => Ok(Answer::of(enough)),
    }
}

// Finds the numbers below `bound` that are in `numbers` at least `least` times.
fn at_least<S: ConceptSet>(
    alloc: Global,
    numbers: &[u32],
    bound: u32,
    least: u64,
) -> Result<S, AllocError>
    requires { All (λ number. number < bound) numbers.now }
    ensures items { IfOk result (λ found. S.items_of found ≡ numbers_where bound
        (λ number. nat_le least (times number numbers.now))) }
    ensures bound { IfOk result (λ found. S.bound_of found ≡ bound) }
{
    match least {
        0 => S::every(alloc, bound),
        1 => S::from_numbers(alloc, numbers, bound),
        _ => {
            let left = repeated(alloc, numbers, bound, least - 1)?;
            S::from_numbers(alloc, left.as_slice(), bound)
        }
    }
}

// Removes the first `less` occurrences of each number from a copy of `numbers`.
fn repeated(alloc: Global, numbers: &[u32], bound: u32, less: u64) -> Result<Vec<u32>, AllocError>
    requires within { All (λ number. number < bound) numbers.now }
    requires some { 0 < less }
    ensures within { IfOk result (λ left. All (λ number. number < bound) left.items) }
    ensures times { IfOk result (λ left. (number : ℕ)
        → times number left.items ≡ times number numbers.now - less) }
{
    let mut left = repeats(alloc, numbers, bound)?;
    let mut done = 1;
    while done < less && !left.is_empty() {
        left = repeats(alloc, left.as_slice(), bound)?;
        done += 1;
    }
    Ok(left)
}

// Removes the first occurrence of each number from a copy of `numbers`.
fn repeats(alloc: Global, numbers: &[u32], bound: u32) -> Result<Vec<u32>, AllocError>
    requires { All (λ number. number < bound) numbers.now }
    ensures within { IfOk result (λ left. All (λ number. number < bound) left.items) }
    ensures times { IfOk result (λ left. (number : ℕ)
        → times number left.items ≡ times number numbers.now - 1) }
{
    let mut seen = bitmap_of(alloc, &[], bound)?;
    let mut left = Vec::new(alloc);
    for number in numbers {
        if is_marked(&seen, *number) {
            left.push(*number)?;
        } else {
            mark(&mut seen, *number);
        }
    }
    Ok(left)
}
