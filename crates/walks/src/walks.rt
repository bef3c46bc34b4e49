//! Finds the concepts that a step leads to from a set, without regard to candidates.
ghost use Rattle.std.specs.Prelude.{ℕ, ◌≡◌, ◌≤◌, ◌<◌, ◌+◌, ◌-◌, ◌&&◌, ◌++◌, ◌∷◌, [], false, not, true, List, All, IfOk};
ghost use Rattle.std.specs.Prelude.{IfSome, IsSome, MatchOption, None, OnOk, Some, filter, length, nat_le};
ghost use Rattle.std.specs.Bool.{OnTrue};
ghost use Rattle.std.specs.List.{concat, list_any};
ghost use Rattle.idset.specs.Sets.{all_items};
ghost use Rattle.number_lists.specs.Members.{has};
ghost use Rattle.number_lists.specs.KeyedLists.{list_of};
ghost use Rattle.walks.specs.inside.Joined.{AreJoined, is_whole as is_whole_of, with_length};
ghost use Rattle.walks.specs.Related.{apart as apart_of, IsOf, IsOver, joined};
ghost use Rattle.reading.specs.Counted.{CountsWithin, full};
ghost use Rattle.candidates.specs.RowEstimates.{Adds};
ghost use Rattle.walks.specs.Families.{all_items_of, items_in, lists_of};
ghost use Rattle.walks.specs.Reads.{items_at_most};
ghost use Rattle.walks.specs.inside.Counts.{HasRoom, LeavesPass, Spends, pass_items};
ghost use Rattle.walks.specs.inside.Steps.{stepped};

use crate::family::{Family, Reach, Step};
use crate::reached::reached;
use candidates::RowEstimate;
use idset::{ConceptSet, WordSet};
use reading::{Answer, Counter, Reader};
use std::alloc::{AllocError, Global};

// Lists with at least this many items are joined first. The lists of the concepts that they contain
// need not be read then.
const LONG: u64 = 64;

// Following one is-a row in a pass over the hierarchy takes about as long as reading this many
// items of lists.
const PASS: u64 = 8;

/// Finds the concepts that `step` leads to from `operand`. `concepts` has the items of `operand`,
/// so that they are read only once. If `estimate` asks for rows, `operand` has one concept, and the
/// step is not `Apart`, adds the rows of what is found; otherwise the estimate becomes unknown. For
/// `direct_first` see `WalkPath`.
pub fn walk<S: ConceptSet>(
    reader: Reader<'_>,
    step: Step,
    operand: &Answer<S>,
    concepts: &[u32],
    direct_first: Option<u64>,
    visits: &mut Counter,
    estimate: &mut RowEstimate<'_>,
) -> Result<Answer<S>, AllocError>
    requires over { IsOf reader.snapshot.now.release (S.bound_of operand.now)
        reader.indexes.now.hierarchy }
    requires whole { step.reach ≡ Reach.Apart → is_whole_of step.family ≡ true }
    requires concepts { concepts.now ≡ S.items_of operand.now }
    requires room { IfSome direct_first (HasRoom reader.indexes.now.hierarchy step.family
        (S.bound_of operand.now) (S.items_of operand.now)) }
    ensures counted { CountsWithin (items_at_most reader.entry.indexes.now.hierarchy step.family
        (S.items_of operand.now)) visits.old visits.new }
    ensures items { IfOk result (λ found. S.items_of found
        ≡ stepped (lists_of reader.entry.indexes.now.hierarchy step.family) (S.bound_of operand.now)
        step.reach (S.items_of operand.now)) }
    ensures bound { IfOk result (λ found. S.bound_of found ≡ S.bound_of operand.now) }
    ensures adds { IfOk result (λ found. Adds (S.items_of found) estimate.old estimate.new) }
{
    let family = step.family;
    match step.reach {
        Reach::Listed => listed(reader, family, operand, concepts, visits, estimate),
        Reach::ListedOrSelf => listed_or_self(reader, family, operand, concepts, visits, estimate),
        Reach::Apart => {
            estimate.forget();
            apart(reader, family, operand, concepts, direct_first, visits)
        }
    }
}

// Finds the concepts in the list of a concept of `operand`.
fn listed<S: ConceptSet>(
    reader: Reader<'_>,
    family: Family,
    operand: &Answer<S>,
    concepts: &[u32],
    visits: &mut Counter,
    estimate: &mut RowEstimate<'_>,
) -> Result<Answer<S>, AllocError>
    requires over { IsOf reader.snapshot.now.release (S.bound_of operand.now)
        reader.indexes.now.hierarchy }
    requires concepts { concepts.now ≡ S.items_of operand.now }
    ensures counted { CountsWithin (items_at_most reader.entry.indexes.now.hierarchy family
        (S.items_of operand.now)) visits.old visits.new }
    ensures items { IfOk result (λ found. S.items_of found ≡ joined (S.bound_of operand.now)
        (lists_of reader.entry.indexes.now.hierarchy family) (S.items_of operand.now)) }
    ensures bound { IfOk result (λ found. S.bound_of found ≡ S.bound_of operand.now) }
    ensures adds { IfOk result (λ found. Adds (S.items_of found) estimate.old estimate.new) }
{
    match concepts {
        [] => {
            estimate.forget();
            Answer::from_items(reader.alloc, &[], operand.bound())
        }
        [concept] => list_of_one(reader, family, *concept, operand.bound(), visits, estimate),
        concepts => {
            estimate.forget();
            union(reader, family, concepts, operand, visits)
        }
    }
}

// Finds the concepts of `operand`, and the concepts in their lists.
fn listed_or_self<S: ConceptSet>(
    reader: Reader<'_>,
    family: Family,
    operand: &Answer<S>,
    concepts: &[u32],
    visits: &mut Counter,
    estimate: &mut RowEstimate<'_>,
) -> Result<Answer<S>, AllocError>
    requires over { IsOf reader.snapshot.now.release (S.bound_of operand.now)
        reader.indexes.now.hierarchy }
    requires concepts { concepts.now ≡ S.items_of operand.now }
    ensures counted { CountsWithin (items_at_most reader.entry.indexes.now.hierarchy family
        (S.items_of operand.now)) visits.old visits.new }
    ensures items { IfOk result (λ found. S.items_of found
        ≡ all_items (S.bound_of operand.now) (S.items_of operand.now)
        (joined (S.bound_of operand.now) (lists_of reader.entry.indexes.now.hierarchy family)
        (S.items_of operand.now))) }
    ensures bound { IfOk result (λ found. S.bound_of found ≡ S.bound_of operand.now) }
    ensures adds { IfOk result (λ found. Adds (S.items_of found) estimate.old estimate.new) }
{
    let mut found: Answer<S> = listed(reader, family, operand, concepts, visits, estimate)?;
    estimate.add(concepts);
    found.add_all(reader.alloc, concepts)?;
    Ok(found)
}

// Finds the concepts in the list of `concept`. If `estimate` asks for rows, copies the list and
// adds the rows of its items. Otherwise takes the list's bitmap, if the index has one.
fn list_of_one<S: ConceptSet>(
    reader: Reader<'_>,
    family: Family,
    concept: u32,
    count: u32,
    visits: &mut Counter,
    estimate: &mut RowEstimate<'_>,
) -> Result<Answer<S>, AllocError>
    requires over { IsOver count reader.indexes.now.hierarchy }
    requires below { concept < count }
    ensures counted { CountsWithin (length
        (list_of (lists_of reader.entry.indexes.now.hierarchy family) concept)) visits.old
        visits.new }
    ensures items { IfOk result (λ found. S.items_of found
        ≡ joined count (lists_of reader.entry.indexes.now.hierarchy family) (concept ∷ [])) }
    ensures bound { IfOk result (λ found. S.bound_of found ≡ count) }
    ensures adds { IfOk result (λ found. Adds (S.items_of found) estimate.old estimate.new) }
{
    if estimate.asks_for(family.length(reader, concept)) {
        let list = family.list(reader, concept, visits);
        let own = estimate.read(reader.alloc, list)?;
        return Answer::from_items(reader.alloc, own.as_slice(), count);
    }
    estimate.forget();
    match family.words(reader, concept, visits) {
        Some(words) => Answer::from_words(reader.alloc, words, count),
        None => {
            let list = family.list(reader, concept, visits);
            Answer::from_items(reader.alloc, list, count)
        }
    }
}

// Finds the concepts in the lists of several concepts.
fn union<S: ConceptSet>(
    reader: Reader<'_>,
    family: Family,
    concepts: &[u32],
    operand: &Answer<S>,
    visits: &mut Counter,
) -> Result<Answer<S>, AllocError>
    requires over { IsOf reader.snapshot.now.release (S.bound_of operand.now)
        reader.indexes.now.hierarchy }
    requires concepts { concepts.now ≡ S.items_of operand.now }
    ensures counted { CountsWithin (all_items_of reader.entry.indexes.now.hierarchy family)
        visits.old visits.new }
    ensures items { IfOk result (λ found. S.items_of found ≡ joined (S.bound_of operand.now)
        (lists_of reader.entry.indexes.now.hierarchy family) (S.items_of operand.now)) }
    ensures bound { IfOk result (λ found. S.bound_of found ≡ S.bound_of operand.now) }
{
    let found = all_listed(reader, family, concepts, operand, visits)?;
    Answer::from_words(reader.alloc, found.words(), operand.bound())
}

// Finds the concepts in the lists of several concepts, as a bitmap. If the lists have too many
// items, a pass over the is-a rows replaces reading them, because it reads less.
fn all_listed<S: ConceptSet>(
    reader: Reader<'_>,
    family: Family,
    concepts: &[u32],
    operand: &Answer<S>,
    visits: &mut Counter,
) -> Result<WordSet, AllocError>
    requires over { IsOf reader.snapshot.now.release (S.bound_of operand.now)
        reader.indexes.now.hierarchy }
    requires concepts { concepts.now ≡ S.items_of operand.now }
    ensures counted { CountsWithin (all_items_of reader.entry.indexes.now.hierarchy family)
        visits.old visits.new }
    ensures joined { IfOk result (λ found. AreJoined
        (lists_of reader.entry.indexes.now.hierarchy family) (S.items_of operand.now)
        (⟦<WordSet as ConceptSet>⟧.items_of found)) }
    ensures bound { IfOk result (λ found. ⟦<WordSet as ConceptSet>⟧.bound_of found
        ≡ S.bound_of operand.now) }
{
    let count = operand.bound();
    let mut left = limit_of_lists(reader, family, count);
    if has_more_items(reader, family, concepts, count, left) {
        return reached(reader, family, operand, concepts, visits);
    }
    let mut found = WordSet::from_items(reader.alloc, &[], count)?;
    let long = add_lists(
        reader, family, concepts, true, &mut left, visits, &mut found,
    )?;
    if !long {
        return reached(reader, family, operand, concepts, visits);
    }
    let short = add_lists(
        reader, family, concepts, false, &mut left, visits, &mut found,
    )?;
    if !short {
        return reached(reader, family, operand, concepts, visits);
    }
    Ok(found)
}

/// Returns how many items one pass over the is-a rows reads: all `count` concepts in their order,
/// and each is-a link.
pub fn items_of_pass(reader: Reader<'_>, count: u32) -> u64
    ensures { result ≡ full (pass_items reader.entry.indexes.now.hierarchy count) }
{
    (reader.link_count() as u64).saturating_add(u64::from(count))
}

/// Returns how many items of lists are read at most before a pass over the is-a rows replaces them.
/// Together with the items of the pass, this is at most the length of all lists. Returns `None` if
/// a pass reads as much as all lists, or more.
pub fn most_items(reader: Reader<'_>, count: u32) -> Option<u64>
    ensures { IfSome result (λ most. most + pass_items reader.entry.indexes.now.hierarchy count
        ≤ length (concat reader.entry.indexes.now.hierarchy.ancestors)) }
{
    let links = reader.link_count() as u64;
    let pairs = reader.ancestor_count() as u64;
    let pass = items_of_pass(reader, count);
    if pass < pairs {
        Some(links.saturating_mul(PASS).min(pairs - pass))
    } else {
        None
    }
}

// Returns how many items of lists may be read before a pass over the is-a rows replaces them.
// Returns `None`, which means no limit, for parents and children, and if a pass reads as much as
// all lists, or more.
fn limit_of_lists(reader: Reader<'_>, family: Family, count: u32) -> Option<u64>
    ensures { IfSome result (LeavesPass reader.entry.indexes.now.hierarchy family count) }
{
    if !family.is_whole() {
        return None;
    }
    most_items(reader, count)
}

// Returns whether the lists of `concepts` have more items than `left` allows. Lists of descendants
// are not measured, because most often one of them contains the others: for them, the limit is
// tested while they are read.
fn has_more_items(
    reader: Reader<'_>,
    family: Family,
    concepts: &[u32],
    count: u32,
    left: Option<u64>,
) -> bool
    requires over { IsOver count reader.indexes.now.hierarchy }
    requires below { All (λ concept. concept < count) concepts.now }
    ensures { OnTrue result (IsSome left) }
{
    match left {
        Some(most) if matches!(family, Family::Ancestors) => {
            items_of_lists(reader, family, concepts, count, most) > most
        }
        _ => false,
    }
}

/// Returns how many items the lists of `concepts` have, if that is at most `most`. If it is more,
/// returns some number above `most`.
pub fn items_of_lists(
    reader: Reader<'_>,
    family: Family,
    concepts: &[u32],
    count: u32,
    most: u64,
) -> u64
    requires over { IsOver count reader.indexes.now.hierarchy }
    requires below { All (λ concept. concept < count) concepts.now }
    ensures few { result ≤ items_in (lists_of reader.entry.indexes.now.hierarchy family)
        concepts.now }
    ensures all { result ≤ most
        → full (items_in (lists_of reader.entry.indexes.now.hierarchy family) concepts.now)
        ≤ result }
{
    let mut items = 0u64;
    for concept in concepts {
        items = items.saturating_add(family.length(reader, *concept));
        if items > most {
            return items;
        }
    }
    items
}

// Adds the long lists of `concepts` to `found`, or the short lists if `long` is false. Skips a list
// that `found` already contains. Returns false, and stops, if `left` does not allow a list to be
// read.
fn add_lists<S: ConceptSet>(
    reader: Reader<'_>,
    family: Family,
    concepts: &[u32],
    long: bool,
    left: &mut Option<u64>,
    visits: &mut Counter,
    found: &mut S,
) -> Result<bool, AllocError>
    requires over { IsOver (S.bound_of found.old) reader.indexes.now.hierarchy }
    requires below { All (λ concept. concept < S.bound_of found.old) concepts.now }
    ensures joined { IfOk result (λ all. all ≡ true → (before : List ℕ)
        → AreJoined (lists_of reader.entry.indexes.now.hierarchy family) before
        (S.items_of found.old) → AreJoined (lists_of reader.entry.indexes.now.hierarchy family)
        (before ++ with_length (lists_of reader.entry.indexes.now.hierarchy family) long
        concepts.now) (S.items_of found.new)) }
    ensures limited { IfOk result (λ all. all ≡ false → IsSome left.old) }
    ensures bound { S.bound_of found.new ≡ S.bound_of found.old }
    ensures counted { CountsWithin (items_in (lists_of reader.entry.indexes.now.hierarchy family)
        (with_length (lists_of reader.entry.indexes.now.hierarchy family) long concepts.now))
        visits.old visits.new }
    ensures spends { Spends left.old left.new visits.old visits.new }
{
    for concept in concepts {
        let items = family.length(reader, *concept);
        if is_long(items) == long {
            if !has_list(family, *concept, found) {
                if !may_be_read(items, left) {
                    return Ok(false);
                }
                add_list(reader, family, *concept, visits, found)?;
            }
        }
    }
    Ok(true)
}

// Returns whether `found` must contain the list of `concept`: it does in a family of ancestors or
// descendants if it contains `concept`, since it is a union of lists of that family.
fn has_list<S: ConceptSet>(family: Family, concept: u32, found: &S) -> bool
    ensures { result ≡ (is_whole_of family && has (S.items_of found.now) concept) }
{
    family.is_whole() && found.has(concept)
}

// Returns whether `left` allows a list of `items` items to be read, and if so takes them off
// `left`.
fn may_be_read(items: u64, left: &mut Option<u64>) -> bool
    ensures limited { result ≡ false → IsSome left.old }
    ensures taken { result ≡ true → MatchOption left.old (left.new ≡ None)
        (λ before. (items ≤ before) × (left.new ≡ Some (before - items))) }
    ensures kept { result ≡ false → left.new ≡ left.old }
{
    let Some(most) = *left else {
        return true;
    };
    if items > most {
        return false;
    }
    *left = Some(most - items);
    true
}

// Adds the list of `concept` to `found`, as a bitmap if the index has one.
fn add_list<S: ConceptSet>(
    reader: Reader<'_>,
    family: Family,
    concept: u32,
    visits: &mut Counter,
    found: &mut S,
) -> Result<(), AllocError>
    requires over { IsOver (S.bound_of found.old) reader.indexes.now.hierarchy }
    requires below { concept < S.bound_of found.old }
    ensures joined { OnOk result ((before : List ℕ) → AreJoined (lists_of
        reader.entry.indexes.now.hierarchy family) before (S.items_of found.old)
        → AreJoined (lists_of reader.entry.indexes.now.hierarchy family) (before ++ concept ∷ [])
        (S.items_of found.new)) }
    ensures bound { S.bound_of found.new ≡ S.bound_of found.old }
    ensures counted { CountsWithin (length
        (list_of (lists_of reader.entry.indexes.now.hierarchy family) concept)) visits.old
        visits.new }
{
    match family.words(reader, concept, visits) {
        Some(words) => {
            let wide = S::from_words(reader.alloc, words, found.bound())?;
            let both = found.or(reader.alloc, &wide)?;
            *found = both;
            Ok(())
        }
        None => found.add_all(reader.alloc, family.list(reader, concept, visits)),
    }
}

// Returns whether a list of `items` items is joined before the short ones.
fn is_long(items: u64) -> bool
    ensures { result ≡ nat_le 64 items }
{
    items >= LONG
}

// Finds the concepts of `operand` whose own list contains no concept of `operand`.
fn apart<S: ConceptSet>(
    reader: Reader<'_>,
    family: Family,
    operand: &Answer<S>,
    concepts: &[u32],
    direct_first: Option<u64>,
    visits: &mut Counter,
) -> Result<Answer<S>, AllocError>
    requires over { IsOf reader.snapshot.now.release (S.bound_of operand.now)
        reader.indexes.now.hierarchy }
    requires whole { is_whole_of family ≡ true }
    requires concepts { concepts.now ≡ S.items_of operand.now }
    requires room { IfSome direct_first (HasRoom reader.indexes.now.hierarchy family
        (S.bound_of operand.now) (S.items_of operand.now)) }
    ensures counted { CountsWithin (items_at_most reader.entry.indexes.now.hierarchy family
        (S.items_of operand.now)) visits.old visits.new }
    ensures items { IfOk result (λ found. S.items_of found
        ≡ apart_of (lists_of reader.entry.indexes.now.hierarchy family) (S.items_of operand.now)) }
    ensures bound { IfOk result (λ found. S.bound_of found ≡ S.bound_of operand.now) }
{
    if let [concept] = concepts {
        return one_apart(reader, family, *concept, operand.bound());
    }
    let kept = kept_apart(reader, family, concepts, operand, direct_first, visits)?;
    Answer::from_items(reader.alloc, kept.as_slice(), operand.bound())
}

// Finds `concept`, the only one of a set, unless it is in its own list. Counts nothing.
fn one_apart<S: ConceptSet>(
    reader: Reader<'_>,
    family: Family,
    concept: u32,
    count: u32,
) -> Result<Answer<S>, AllocError>
    requires over { IsOver count reader.indexes.now.hierarchy }
    requires below { concept < count }
    requires whole { is_whole_of family ≡ true }
    ensures items { IfOk result (λ found. S.items_of found
        ≡ apart_of (lists_of reader.entry.indexes.now.hierarchy family) (concept ∷ [])) }
    ensures bound { IfOk result (λ found. S.bound_of found ≡ count) }
{
    if family.has_itself(reader, concept) {
        Answer::from_items(reader.alloc, &[], count)
    } else {
        Answer::from_items(reader.alloc, &[concept], count)
    }
}

// Returns those of `concepts` whose list contains no concept of `set`; `concepts` has the items of
// `set`. With `direct_first`, tests the lists of parents or children first. Most often one of them
// is in the set, and then the whole list, which lies far off in memory, need not be read.
fn kept_apart<S: ConceptSet>(
    reader: Reader<'_>,
    family: Family,
    concepts: &[u32],
    set: &Answer<S>,
    direct_first: Option<u64>,
    visits: &mut Counter,
) -> Result<Vec<u32>, AllocError>
    requires over { IsOf reader.snapshot.now.release (S.bound_of set.now)
        reader.indexes.now.hierarchy }
    requires whole { is_whole_of family ≡ true }
    requires concepts { concepts.now ≡ S.items_of set.now }
    requires below { All (λ concept. concept < S.bound_of set.now) concepts.now }
    requires room { IfSome direct_first (HasRoom reader.indexes.now.hierarchy family
        (S.bound_of set.now) concepts.now) }
    ensures counted { CountsWithin (items_at_most reader.entry.indexes.now.hierarchy family
        concepts.now) visits.old visits.new }
    ensures kept { IfOk result (λ kept. kept.items
        ≡ filter (λ concept. not (list_any (has (S.items_of set.now))
        (list_of (lists_of reader.entry.indexes.now.hierarchy family) concept))) concepts.now) }
{
    let Some(room) = direct_first else {
        return kept_by_lists(reader, family, concepts, set, visits);
    };
    let left = kept_by_lists(reader, family.direct(), concepts, set, visits)?;
    kept_in_room(reader, family, left.as_slice(), set, concepts, room, visits)
}

// Returns those of `concepts` whose list contains no concept of `set`. If the lists have more than
// `room` items, a pass over the is-a rows replaces reading them. It starts from `own`, which has
// the items of `set`.
fn kept_in_room<S: ConceptSet>(
    reader: Reader<'_>,
    family: Family,
    concepts: &[u32],
    set: &Answer<S>,
    own: &[u32],
    room: u64,
    visits: &mut Counter,
) -> Result<Vec<u32>, AllocError>
    requires over { IsOf reader.snapshot.now.release (S.bound_of set.now)
        reader.indexes.now.hierarchy }
    requires whole { is_whole_of family ≡ true }
    requires own { own.now ≡ S.items_of set.now }
    requires below { All (λ concept. concept < S.bound_of set.now) concepts.now }
    requires pass { room < items_in (lists_of reader.indexes.now.hierarchy family) concepts.now
        → pass_items reader.indexes.now.hierarchy (S.bound_of set.now) ≤ room }
    ensures counted { CountsWithin room visits.old visits.new }
    ensures kept { IfOk result (λ kept. kept.items
        ≡ filter (λ concept. not (list_any (has (S.items_of set.now))
        (list_of (lists_of reader.entry.indexes.now.hierarchy family) concept))) concepts.now) }
{
    if items_of_lists(reader, family, concepts, set.bound(), room) > room {
        let found = reached(reader, family.opposite(), set, own, visits)?;
        return kept_outside(reader.alloc, concepts, &found);
    }
    kept_by_lists(reader, family, concepts, set, visits)
}

// Returns those of `concepts` whose list contains no concept of `set`, and counts the items of each
// list.
fn kept_by_lists<S: ConceptSet>(
    reader: Reader<'_>,
    family: Family,
    concepts: &[u32],
    set: &Answer<S>,
    visits: &mut Counter,
) -> Result<Vec<u32>, AllocError>
    requires over { IsOver (S.bound_of set.now) reader.indexes.now.hierarchy }
    requires below { All (λ concept. concept < S.bound_of set.now) concepts.now }
    ensures counted { CountsWithin (items_in (lists_of reader.entry.indexes.now.hierarchy family)
        concepts.now) visits.old visits.new }
    ensures kept { IfOk result (λ kept. kept.items
        ≡ filter (λ concept. not (list_any (has (S.items_of set.now))
        (list_of (lists_of reader.entry.indexes.now.hierarchy family) concept))) concepts.now) }
{
    let mut kept = Vec::new(reader.alloc);
    for concept in concepts {
        if !meets(family.list(reader, *concept, visits), set) {
            kept.push(*concept)?;
        }
    }
    Ok(kept)
}

// Returns those of `concepts` that are not in `set`.
fn kept_outside<S: ConceptSet>(
    alloc: Global,
    concepts: &[u32],
    set: &S,
) -> Result<Vec<u32>, AllocError>
    ensures { IfOk result (λ kept. kept.items
        ≡ filter (λ concept. not (has (S.items_of set.now) concept)) concepts.now) }
{
    let mut kept = Vec::new(alloc);
    for concept in concepts {
        if !set.has(*concept) {
            kept.push(*concept)?;
        }
    }
    Ok(kept)
}

/// Returns whether `set` has one of the concepts in `list`.
pub fn meets<S: ConceptSet>(list: &[u32], set: &Answer<S>) -> bool
    ensures { result ≡ list_any (has (S.items_of set.now)) list.now }
{
    list.iter().any(|concept| set.has(*concept))
}
