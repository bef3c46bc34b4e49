//! Tests of operations on each form of set, and comparisons of the forms for many bounds.
ghost use Rattle.std.specs.Prelude.{◌≡◌, ◌<◌, ◌++◌, ◌∷◌, [], cond, IfOk, OnOk};
ghost use Rattle.number_lists.specs.Rising.{IsRisingBelow};

use idset::{ConceptSet, MixedSet, SortedSet, WordSet};
use std::alloc::{AllocError, Global};
use std::test::Fail;

// Whether a set has exactly the wanted items, in its list and in its count.
fn is_of<S: ConceptSet>(alloc: Global, set: &S, wanted: &[u32]) -> Result<bool, AllocError> {
    let items = set.items(alloc)?;
    Ok(items.as_slice() == wanted && set.count() as usize == wanted.len())
}

// Whether a set, once it is made, has exactly the wanted items.
fn holds<S: ConceptSet>(
    alloc: Global,
    made: Result<S, AllocError>,
    wanted: &[u32],
) -> Result<bool, AllocError> {
    match made {
        Ok(set) => is_of(alloc, &set, wanted),
        Err(AllocError) => Err(AllocError),
    }
}

// Returns a copy of a set in the form that answers `has` fastest.
fn asked<S: ConceptSet>(alloc: Global, set: &S) -> Result<S, AllocError> {
    let own = set.copy(alloc)?;
    own.for_asking(alloc)
}

// Whether the operations on x = {0, 2, 5} and y = {2, 5, 9} below 10 give the right sets.
fn operations_hold<S: ConceptSet>(alloc: Global, x: &S, y: &S) -> Result<bool, AllocError>
    requires { S.bound_of x.now ≡ S.bound_of y.now }
{
    Ok(
        holds(alloc, x.and(alloc, y), &[2, 5])?
            && holds(alloc, x.or(alloc, y), &[0, 2, 5, 9])?
            && holds(alloc, x.minus(alloc, y), &[0])?
            && holds(alloc, y.minus(alloc, x), &[9])?
            && holds(alloc, x.others(alloc), &[1, 3, 4, 6, 7, 8, 9])?
            && holds(alloc, x.copy(alloc), &[0, 2, 5])?
            && holds(alloc, asked(alloc, x), &[0, 2, 5])?,
    )
}

// Whether count, bound and `has` of x = {0, 2, 5} are right.
fn tells<S: ConceptSet>(x: &S) -> bool {
    x.count() == 3
        && x.bound() == 10
        && x.has(2)
        && !x.has(3)
        && !x.has(10)
        && !x.has(4_000_000_000)
}

// Whether the set x is right if it is made of the words of another set.
fn made_of_words<S: ConceptSet>(alloc: Global) -> Result<bool, AllocError> {
    let marks = WordSet::from_items(alloc, &[0, 2, 5], 10)?;
    holds::<S>(
        alloc,
        S::from_words(alloc, marks.words(), marks.bound()),
        &[0, 2, 5],
    )
}

// Whether the set x is right if it is made of numbers in any order, and of words; and whether the
// set of all numbers is right.
fn made_alike<S: ConceptSet>(alloc: Global) -> Result<bool, AllocError> {
    Ok(
        holds::<S>(
            alloc,
            S::from_numbers(alloc, &[5, 0, 2, 0, 5], 10),
            &[0, 2, 5],
        )? && made_of_words::<S>(alloc)?
            && holds::<S>(alloc, S::every(alloc, 10), &[0, 1, 2, 3, 4, 5, 6, 7, 8, 9])?,
    )
}

// Whether adding a list to a set in place gives the right set.
fn grows<S: ConceptSet>(alloc: Global, set: &mut S) -> Result<bool, AllocError>
    requires { S.bound_of set.old ≡ 10 }
{
    set.add_all(alloc, &[2, 5, 9])?;
    is_of(alloc, set, &[0, 2, 5, 9])
}

// Whether sets with items at the ends of words, and the empty set, are right.
fn ends_hold<S: ConceptSet>(alloc: Global) -> Result<bool, AllocError> {
    let ends = [0, 63, 64, 127, 128, 129];
    Ok(
        holds::<S>(alloc, S::from_items(alloc, &ends, 130), &ends)?
            && holds::<S>(alloc, S::from_items(alloc, &[], 0), &[])?
            && holds::<S>(alloc, S::every(alloc, 0), &[])?,
    )
}

// Whether a page of a set has the wanted items: it skips `skipped` items, and has at most `most`.
fn shows<S: ConceptSet>(
    alloc: Global,
    set: &S,
    skipped: u64,
    most: u64,
    wanted: &[u32],
) -> Result<bool, AllocError> {
    let items = set.some_items(alloc, skipped, most)?;
    Ok(items.as_slice() == wanted)
}

// Whether pages of the set {0, 63, 64, 127, 128, 129} are right.
fn pages_of<S: ConceptSet>(alloc: Global, set: &S) -> Result<bool, AllocError> {
    Ok(
        shows(alloc, set, 0, 0, &[])?
            && shows(alloc, set, 0, 1, &[0])?
            && shows(alloc, set, 0, 7, &[0, 63, 64, 127, 128, 129])?
            && shows(alloc, set, 1, 0, &[])?
            && shows(alloc, set, 1, 1, &[63])?
            && shows(alloc, set, 1, 6, &[63, 64, 127, 128, 129])?
            && shows(alloc, set, 2, 3, &[64, 127, 128])?
            && shows(alloc, set, 5, 1, &[129])?
            && shows(alloc, set, 6, 1, &[])?
            && shows(alloc, set, 7, u64::MAX, &[])?,
    )
}

// Whether pages are right for a set with many items for its bound, and for a set with few.
fn pages_hold<S: ConceptSet>(alloc: Global) -> Result<bool, AllocError> {
    let ends = [0, 63, 64, 127, 128, 129];
    let many = S::from_items(alloc, &ends, 130)?;
    let few = S::from_items(alloc, &ends, 10_000)?;
    Ok(pages_of(alloc, &many)? && pages_of(alloc, &few)?)
}

fn row_holds<S: ConceptSet>(alloc: Global) -> Result<bool, AllocError> {
    let mut x = S::from_items(alloc, &[0, 2, 5], 10)?;
    let y = S::from_items(alloc, &[2, 5, 9], 10)?;
    Ok(
        tells(&x)
            && operations_hold(alloc, &x, &y)?
            && made_alike::<S>(alloc)?
            && ends_hold::<S>(alloc)?
            && pages_hold::<S>(alloc)?
            && grows(alloc, &mut x)?,
    )
}

#[test]
fn row_of_sorted_sets(rt: HostRuntime) -> Result<(), Fail> {
    assert!(rt; row_holds::<SortedSet>(rt.alloc())?);
    Ok(())
}

#[test]
fn row_of_word_sets(rt: HostRuntime) -> Result<(), Fail> {
    assert!(rt; row_holds::<WordSet>(rt.alloc())?);
    Ok(())
}

#[test]
fn row_of_mixed_sets(rt: HostRuntime) -> Result<(), Fail> {
    assert!(rt; row_holds::<MixedSet>(rt.alloc())?);
    Ok(())
}

// Appends `item` if `test` is true.
fn push_if(items: &mut Vec<u32>, test: bool, item: u32) -> Result<(), AllocError>
    ensures { OnOk result (items.new.items ≡ items.old.items ++ cond test (item ∷ []) []) }
{
    if test {
        items.push(item)?;
    }
    Ok(())
}

// Returns the multiples of a number below a bound.
fn multiples(alloc: Global, of: u32, bound: u32) -> Result<Vec<u32>, AllocError>
    requires { 0 < of }
    ensures { IfOk result (λ multiples. IsRisingBelow bound multiples.items) }
{
    let mut multiples = Vec::new(alloc);
    for number in 0..bound {
        push_if(&mut multiples, number % of == 0, number)?;
    }
    Ok(multiples)
}

// Appends the items of a set, once it is made.
fn push_items<S: ConceptSet>(
    alloc: Global,
    made: Result<S, AllocError>,
    items: &mut Vec<u32>,
) -> Result<(), AllocError> {
    let set = made?;
    items.extend_from_slice(&set.items(alloc)?)
}

// Appends the items that each operation results in, one operation after another.
fn push_answers<S: ConceptSet>(
    alloc: Global,
    x: &S,
    y: &S,
    answers: &mut Vec<u32>,
) -> Result<(), AllocError>
    requires { S.bound_of x.now ≡ S.bound_of y.now }
{
    push_items(alloc, x.and(alloc, y), answers)?;
    push_items(alloc, x.or(alloc, y), answers)?;
    push_items(alloc, x.minus(alloc, y), answers)?;
    push_items(alloc, y.minus(alloc, x), answers)?;
    push_items(alloc, x.others(alloc), answers)?;
    push_items(alloc, x.copy(alloc), answers)?;
    answers.push(y.count())?;
    Ok(())
}

// Returns the items that each operation results in, one operation after another.
fn answers<S: ConceptSet>(
    alloc: Global,
    xs: &[u32],
    ys: &[u32],
    bound: u32,
) -> Result<Vec<u32>, AllocError>
    requires xs { IsRisingBelow bound xs.now }
    requires ys { IsRisingBelow bound ys.now }
{
    let x = S::from_items(alloc, xs, bound)?;
    let y = S::from_items(alloc, ys, bound)?;
    let mut answers = Vec::new(alloc);
    push_answers(alloc, &x, &y, &mut answers)?;
    Ok(answers)
}

// Whether all forms of set give the same results below a bound.
fn forms_agree(alloc: Global, bound: u32) -> Result<bool, AllocError> {
    let xs = multiples(alloc, 2, bound)?;
    let ys = multiples(alloc, 3, bound)?;
    let sorted = answers::<SortedSet>(alloc, &xs, &ys, bound)?;
    let words = answers::<WordSet>(alloc, &xs, &ys, bound)?;
    let mixed = answers::<MixedSet>(alloc, &xs, &ys, bound)?;
    Ok(sorted.as_slice() == words.as_slice() && sorted.as_slice() == mixed.as_slice())
}

// Returns the first bound below `end` for which the forms do not agree, or `end`.
fn agree_until(alloc: Global, end: u32) -> Result<u32, AllocError> {
    for bound in 0..end {
        if !forms_agree(alloc, bound)? {
            return Ok(bound);
        }
    }
    Ok(end)
}

#[test]
fn forms_agree_below_each_bound(rt: HostRuntime) -> Result<(), Fail> {
    assert_eq!(rt; agree_until(rt.alloc(), 601)?, 601);
    Ok(())
}
