//! Finds the ancestors or descendants of a set by one pass over the is-a rows.
ghost use Rattle.std.specs.Prelude.{◌≡◌, ◌<◌, ◌&&◌, not, true, All, IfOk};
ghost use Rattle.std.specs.List.{list_all};
ghost use Rattle.number_lists.specs.Members.{has};
ghost use Rattle.walks.specs.inside.Counts.{pass_items};
ghost use Rattle.walks.specs.inside.Joined.{AreJoined, is_whole as is_whole_of, direct_of, turn_of};
ghost use Rattle.walks.specs.Related.{IsOf, IsOver};
ghost use Rattle.walks.specs.Families.{lists_of};
ghost use Rattle.reading.specs.Counted.{CountsWithin};

use crate::family::Family;
use idset::{ConceptSet, WordSet};
use number_lists::KeyedLists;
use reading::{Answer, Counter, Reader};
use std::alloc::{AllocError, Global};

/// Finds all concepts in the lists of the concepts of `set`, in a family of ancestors or
/// descendants. `concepts` has the items of `set`.
///
/// The pass first finds what is one is-a row away from a concept of the set. If all of that is in
/// the set, the pass ends: nothing else can be found. Otherwise it visits each concept before the
/// concepts that are one is-a row further. If the visited concept was found and is not in the set,
/// the concepts one row further are found. All rows that lead to a concept have been followed when
/// it is visited, so each concept's rows are read once. The order of the concepts and all is-a
/// links are counted.
pub fn reached<S: ConceptSet>(
    reader: Reader<'_>,
    family: Family,
    set: &Answer<S>,
    concepts: &[u32],
    visits: &mut Counter,
) -> Result<WordSet, AllocError>
    requires over { IsOf reader.snapshot.now.release (S.bound_of set.now)
        reader.indexes.now.hierarchy }
    requires whole { is_whole_of family ≡ true }
    requires concepts { concepts.now ≡ S.items_of set.now }
    ensures joined { IfOk result (λ found. AreJoined
        (lists_of reader.entry.indexes.now.hierarchy family) (S.items_of set.now)
        (⟦<WordSet as ConceptSet>⟧.items_of found)) }
    ensures bound { IfOk result (λ found. ⟦<WordSet as ConceptSet>⟧.bound_of found
        ≡ S.bound_of set.now) }
    ensures counted { CountsWithin (pass_items reader.entry.indexes.now.hierarchy
        (S.bound_of set.now)) visits.old visits.new }
{
    // This call tells the prover that the concepts rise.
    reader.concept_count();
    let direct = family.direct_lists(reader, visits);
    let order = reader.parents_first(visits);
    let mut found = direct_of_all(reader, family, direct, concepts, set.bound())?;
    let closed = contains_all(reader.alloc, set, &found)?;
    if closed {
        return Ok(found);
    }
    for turn in 0..order.len() {
        let concept = order[family.place_of_turn(turn, order.len())];
        if is_in_difference(&found, set, concept) {
            found.add_all(reader.alloc, direct.of(concept))?;
        }
    }
    Ok(found)
}

// Returns whether all items of `found` are in `set`.
fn contains_all<S: ConceptSet>(
    alloc: Global,
    set: &Answer<S>,
    found: &WordSet,
) -> Result<bool, AllocError>
    ensures { IfOk result (λ all. all ≡ list_all (has (S.items_of set.now))
        (⟦<WordSet as ConceptSet>⟧.items_of found.now)) }
{
    let items = found.items(alloc)?;
    Ok(items.iter().all(|item| set.has(*item)))
}

// Finds the concepts that are one is-a row away from one of `concepts`. It takes these by rising
// number, so that it reads memory in order. Only the proof needs `_family`.
fn direct_of_all(
    reader: Reader<'_>,
    _family: Family,
    direct: &KeyedLists,
    concepts: &[u32],
    count: u32,
) -> Result<WordSet, AllocError>
    requires over { IsOver count reader.indexes.now.hierarchy }
    requires direct { direct.now ≡ lists_of reader.indexes.now.hierarchy (direct_of _family) }
    requires below { All (λ concept. concept < count) concepts.now }
    ensures joined { IfOk result (λ found. AreJoined
        (lists_of reader.entry.indexes.now.hierarchy (direct_of _family)) concepts.now
        (⟦<WordSet as ConceptSet>⟧.items_of found)) }
    ensures bound { IfOk result (λ found. ⟦<WordSet as ConceptSet>⟧.bound_of found ≡ count) }
{
    let mut found = WordSet::from_items(reader.alloc, &[], count)?;
    for concept in concepts {
        found.add_all(reader.alloc, direct.of(*concept))?;
    }
    Ok(found)
}

// Returns whether `number` is in `one` and not in `other`.
fn is_in_difference<S: ConceptSet, T: ConceptSet>(one: &S, other: &Answer<T>, number: u32) -> bool
    ensures { result ≡ (has (S.items_of one.now) number
        && not (has (T.items_of other.now) number)) }
{
    one.has(number) && !other.has(number)
}
