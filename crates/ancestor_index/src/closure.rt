//! Finding the ancestors of each concept: its parents and their ancestors.
ghost use Rattle.std.specs.Prelude.{ℕ, ◌≡◌, ◌<◌, ◌^◌, ◌||◌, ◌++◌, Bool, List, All, IfOk, IfSome, OnOk, length, map, nat_eq, slice_index, vec_len};
ghost use Rattle.std.specs.List.{IsDistinct};
ghost use Rattle.hierarchy.specs.Hierarchy.{reaches};
ghost use Rattle.number_lists.specs.Rising.{IsRisingBelow, listed_numbers, numbers_where};
ghost use Rattle.number_lists.specs.Members.{has};
ghost use Rattle.idset.specs.Words.{AreWordsBelow, MarkedBelow, is_set};
ghost use Rattle.number_lists.specs.KeyedLists.{AreItemsBelow, list_of};
ghost use Rattle.ancestor_index.specs.HierarchyLists.{lists_where};
ghost use Rattle.ancestor_index.specs.inside.Gathered.{AreGathered, AreRisingBelow, gathered_by, has_joined};
ghost use Rattle.ancestor_index.specs.inside.Parents.{AreParentsBy};
ghost use Rattle.ancestor_index.specs.Wide.{AreWide};

use crate::grown::push_list;
use crate::wide::WideLists;
use idset::{ConceptSet, WordSet, put_union, put_with};
use number_lists::{KeyedLists, keep_rising};
use std::alloc::{AllocError, Global};
use std::mem::swap;

// How many lists are merged one after another at most. Each merge copies all that was merged
// before, so more lists would take long: they are gathered and sorted instead.
const FEW: usize = 8;

// Three buffers for merging one list after another. All merges use them, so that a merge has no
// buffer of its own.
#[derive(Drop)]
struct Room {
    list: Vec<u32>,
    // one concept and its list
    own: Vec<u32>,
    // receives the merged list; then it is swapped with `list`
    spare: Vec<u32>,
}

/// Returns the list of ancestors of each concept, and lists that served to find them: their memory
/// can serve for others. `parents` has the list of parents of each concept, and `order` has all
/// concepts, parents before their children.
pub fn ancestor_lists(
    alloc: Global,
    parents: &KeyedLists,
    order: &[u32],
) -> Result<(KeyedLists, KeyedLists), AllocError>
    requires few { length order.now < 2 ^ 32 }
    requires parents { (rows : List (ℕ × ℕ)) × AreParentsBy rows parents.now order.now }
    ensures { IfOk result (λ made. (rows : List (ℕ × ℕ)) → AreParentsBy rows parents.now order.now
        → made.0 ≡ lists_where (length order.now) (reaches rows)) }
{
    let places = places_in(alloc, order)?;
    let by_place = ancestors_in_order(alloc, parents, order, places.as_slice())?;
    let lists = reordered(alloc, &by_place, places.as_slice())?;
    Ok((lists, by_place))
}

// Returns for each concept its place in `order`.
fn places_in(alloc: Global, order: &[u32]) -> Result<Vec<u32>, AllocError>
    requires few { length order.now < 2 ^ 32 }
    requires once { IsDistinct nat_eq order.now }
    requires below { All (λ concept. concept < length order.now) order.now }
    ensures len { IfOk result (λ places. vec_len places ≡ length order.now) }
    ensures places { IfOk result (λ places. (place : ℕ) → place < length order.now
        → slice_index places.items (slice_index order.now place) ≡ place) }
{
    let mut places = vec![in alloc; 0u32; order.len()]?;
    for (place, concept) in order.iter().enumerate() {
        places[*concept as usize] = place as u32;
    }
    Ok(places)
}

// Returns the lists of ancestors of the concepts, in the order of `order`. When the list of a
// concept is made, those of its parents are there already. `places` has the place of each concept
// in `order`.
fn ancestors_in_order(
    alloc: Global,
    parents: &KeyedLists,
    order: &[u32],
    places: &[u32],
) -> Result<KeyedLists, AllocError>
    requires few { length order.now < 2 ^ 32 }
    requires parents { (rows : List (ℕ × ℕ)) × AreParentsBy rows parents.now order.now }
    requires len { length places.now ≡ length order.now }
    requires places { (place : ℕ) → place < length order.now
        → slice_index places.now (slice_index order.now place) ≡ place }
    ensures { IfOk result (λ lists. (rows : List (ℕ × ℕ)) → AreParentsBy rows parents.now order.now
        → lists ≡ map (λ concept. numbers_where (length order.now) (reaches rows concept))
        order.now) }
{
    let count = order.len() as u32;
    let mut lists = KeyedLists::with_capacity(alloc, order.len(), order.len())?;
    let mut wide = WideLists::with_capacity(alloc, order.len())?;
    let mut room = Room {
        list: Vec::new(alloc),
        own: Vec::new(alloc),
        spare: Vec::new(alloc),
    };
    for concept in order {
        join(
            alloc,
            &mut room,
            parents.of(*concept),
            places,
            &lists,
            &wide,
            count,
        )?;
        wide.push(alloc, room.list.as_slice(), count)?;
        push_list(&mut lists, room.list.as_slice())?;
    }
    Ok(lists)
}

// Leaves in `room.list` the union of `concepts` and their lists of ancestors, in rising order and
// once each. The list of a concept is the one in `lists` at its entry of `places`, and `wide` has
// the bitmaps of the long lists. All numbers are below `count`.
fn join(
    alloc: Global,
    room: &mut Room,
    concepts: &[u32],
    places: &[u32],
    lists: &KeyedLists,
    wide: &WideLists,
    count: u32,
) -> Result<(), AllocError>
    requires count { length places.now ≡ count }
    requires concepts { All (λ concept. (concept < count) × (concept < length places.now)
        × (slice_index places.now concept < length lists.now)) concepts.now }
    requires items { AreItemsBelow count lists.now }
    requires rising { AreRisingBelow count lists.now }
    requires wide { AreWide count lists.now wide.now.ends.items wide.now.words.items }
    ensures { OnOk result (room.new.list.items
        ≡ listed_numbers count (gathered_by places.now lists.now concepts.now)) }
{
    if concepts.len() <= FEW && !has_long(concepts, places, lists, count) {
        return join_few(room, concepts, places, lists, count);
    }
    join_many(alloc, &mut room.list, concepts, places, lists, wide, count)
}

// Whether the list of one of `concepts` has more than a 32nd of all numbers below `count`. The list
// of a concept is the one in `lists` at its entry of `places`.
fn has_long(concepts: &[u32], places: &[u32], lists: &KeyedLists, count: u32) -> bool
    requires { All (λ concept. (concept < count) × (concept < length places.now)
        × (slice_index places.now concept < length lists.now)) concepts.now }
{
    let most = (count / 32) as usize;
    for concept in concepts {
        if lists.of(places[*concept as usize]).len() > most {
            return true;
        }
    }
    false
}

// Does what `join` does, for at most `FEW` lists. Each list rises, so they are merged without
// sorting.
fn join_few(
    room: &mut Room,
    concepts: &[u32],
    places: &[u32],
    lists: &KeyedLists,
    count: u32,
) -> Result<(), AllocError>
    requires concepts { All (λ concept. (concept < count) × (concept < length places.now)
        × (slice_index places.now concept < length lists.now)) concepts.now }
    requires rising { AreRisingBelow count lists.now }
    ensures { OnOk result (room.new.list.items
        ≡ listed_numbers count (gathered_by places.now lists.now concepts.now)) }
{
    room.list.clear();
    for concept in concepts {
        let own = lists.of(places[*concept as usize]);
        put_with(own, *concept, &mut room.own)?;
        put_union(room.list.as_slice(), room.own.as_slice(), &mut room.spare)?;
        swap(&mut room.list, &mut room.spare);
    }
    Ok(())
}

// Does what `join` does, for any number of lists, and leaves the union in `list`. Sorts the items
// of the short lists, and unites the bitmaps of the long ones.
fn join_many(
    alloc: Global,
    list: &mut Vec<u32>,
    concepts: &[u32],
    places: &[u32],
    lists: &KeyedLists,
    wide: &WideLists,
    count: u32,
) -> Result<(), AllocError>
    requires concepts { All (λ concept. (concept < count) × (concept < length places.now)
        × (slice_index places.now concept < length lists.now)) concepts.now }
    requires items { AreItemsBelow count lists.now }
    requires wide { AreWide count lists.now wide.now.ends.items wide.now.words.items }
    ensures { OnOk result (list.new.items
        ≡ listed_numbers count (gathered_by places.now lists.now concepts.now)) }
{
    let joined: Option<WordSet> = gather(alloc, list, concepts, places, lists, wide, count)?;
    keep_rising(list);
    add_joined(alloc, list, joined)
}

// Gathers `concepts` and their lists. The long lists go into the set that it returns, because it
// takes their bitmaps word by word and not item by item. `concepts` and the short lists go into
// `list`, in any order; what `list` had before is dropped.
fn gather<S: ConceptSet>(
    alloc: Global,
    list: &mut Vec<u32>,
    concepts: &[u32],
    places: &[u32],
    lists: &KeyedLists,
    wide: &WideLists,
    count: u32,
) -> Result<Option<S>, AllocError>
    requires concepts { All (λ concept. (concept < count) × (concept < length places.now)
        × (slice_index places.now concept < length lists.now)) concepts.now }
    requires items { AreItemsBelow count lists.now }
    requires wide { AreWide count lists.now wide.now.ends.items wide.now.words.items }
    ensures gathered { IfOk result (λ joined. AreGathered S.items_of count
        (gathered_by places.now lists.now concepts.now) list.new.items joined) }
    ensures below { OnOk result (All (λ item. item < count) list.new.items) }
    ensures bound { IfOk result (λ joined. IfSome joined (λ set. S.bound_of set ≡ count)) }
{
    list.clear();
    let mut joined: Option<S> = None;
    for concept in concepts {
        list.push(*concept)?;
        let place = places[*concept as usize];
        let words = wide.of(place, count);
        joined = add_list(alloc, list, joined, lists.of(place), words, count)?;
    }
    Ok(joined)
}

// Adds the list `own` to the set `joined` if the list has a bitmap, `words`, and otherwise to the
// end of `list`. Returns the set.
fn add_list<S: ConceptSet>(
    alloc: Global,
    list: &mut Vec<u32>,
    joined: Option<S>,
    own: &[u32],
    words: Option<&[u64]>,
    count: u32,
) -> Result<Option<S>, AllocError>
    requires words { IfSome words (λ words. MarkedBelow count words.now (has own.now)) }
    requires own { All (λ item. item < count) own.now }
    requires list { All (λ item. item < count) list.old.items }
    requires bound { IfSome joined (λ set. S.bound_of set ≡ count) }
    ensures gathered { IfOk result (λ now. (all : List ℕ)
        → AreGathered S.items_of count all list.old.items joined
        → AreGathered S.items_of count (all ++ own.now) list.new.items now) }
    ensures below { OnOk result (All (λ item. item < count) list.new.items) }
    ensures bound { IfOk result (λ now. IfSome now (λ set. S.bound_of set ≡ count)) }
{
    match words {
        Some(words) => {
            let set = with_words(alloc, joined, words, count)?;
            Ok(Some(set))
        }
        None => {
            list.extend_from_slice(own)?;
            Ok(joined)
        }
    }
}

// Returns the set `joined` with the numbers of the bitmap `words` added. Returns the set of these
// numbers alone if `joined` is `None`.
fn with_words<S: ConceptSet>(
    alloc: Global,
    joined: Option<S>,
    words: &[u64],
    count: u32,
) -> Result<S, AllocError>
    requires words { AreWordsBelow count words.now }
    requires bound { IfSome joined (λ set. S.bound_of set ≡ count) }
    ensures items { IfOk result (λ set. (number : ℕ) → number < count
        → has (S.items_of set) number
        ≡ (has_joined S.items_of joined number || is_set words.now number)) }
    ensures bound { IfOk result (λ set. S.bound_of set ≡ count) }
{
    let set = S::from_words(alloc, words, count)?;
    match joined {
        Some(others) => others.or(alloc, &set),
        None => Ok(set),
    }
}

// Adds the items of the set `joined`, if there is one, to `list`, which rises and still rises then.
fn add_joined<S: ConceptSet>(
    alloc: Global,
    list: &mut Vec<u32>,
    joined: Option<S>,
) -> Result<(), AllocError>
    requires { IfSome joined (λ set. IsRisingBelow (S.bound_of set) list.old.items) }
    ensures { OnOk result ((count : ℕ) (test : ℕ → Bool) → IfSome joined
        (λ set. S.bound_of set ≡ count) → list.old.items ≡ numbers_where count test
        → list.new.items ≡ numbers_where count
        (λ number. test number || has_joined S.items_of joined number)) }
{
    if let Some(mut set) = joined {
        set.add_all(alloc, list.as_slice())?;
        *list = set.items(alloc)?;
    }
    Ok(())
}

// Returns for each of `places`, in order, the list of `lists` at this place.
fn reordered(alloc: Global, lists: &KeyedLists, places: &[u32]) -> Result<KeyedLists, AllocError>
    requires { All (λ place. place < length lists.now) places.now }
    ensures { IfOk result (λ found. found ≡ map (λ place. list_of lists.now place) places.now) }
{
    let mut found = KeyedLists::with_capacity(alloc, places.len(), lists.item_count())?;
    for place in places {
        push_list(&mut found, lists.of(*place))?;
    }
    Ok(found)
}
