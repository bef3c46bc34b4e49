//! Finds the components of reference sets.
ghost use Rattle.std.specs.Prelude.{◌≡◌, ◌≤◌, ◌<◌, ◌+◌, All, IfOk, filter, length};
ghost use Rattle.std.specs.List.{flat_map};
ghost use Rattle.number_lists.specs.KeyedLists.{list_of};
ghost use Rattle.number_lists.specs.Members.{has};
ghost use Rattle.walks.specs.Components.{components_of};
ghost use Rattle.walks.specs.inside.Components.{HaveComponentsOf, is_in_one_of};
ghost use Rattle.walks.specs.Families.{items_in};
ghost use Rattle.reading.specs.Counted.{CountsWithin, HandsOut, IsFound, full};
ghost use Rattle.candidates.specs.Within.{AreConcepts, may_be};

use candidates::{Candidates, restricted};
use idset::ConceptSet;
use reading::{Answer, Counter, Reader};
use std::alloc::{AllocError, Global};

// To look up a candidate in a list takes about as long as to copy this many components.
const LOOK_UP: u64 = 32;

/// Finds the candidates among the components of the reference sets in `from`: the concepts that a
/// member row with one of these sets leads to (Expression Constraint Language, "Simple Expression
/// Constraints", memberOf). If the candidates are few and the lists of components are long, the
/// candidates are looked up in the lists. Visits are counted: the reference sets, and at most as
/// many items as they have components.
pub fn members_within<S: ConceptSet>(
    reader: Reader<'_>,
    from: &Answer<S>,
    candidates: &Candidates<'_, S>,
    visits: &mut Counter,
) -> Result<Answer<S>, AllocError>
    requires bound { S.bound_of from.now ≡ length reader.snapshot.now.release.concepts }
    requires candidates { AreConcepts S.ConceptSet reader.snapshot.now.release reader.indexes.now
        candidates.now }
    ensures counted { CountsWithin (length (S.items_of from.now)
        + items_in reader.entry.indexes.now.members (S.items_of from.now)) visits.old visits.new }
    ensures found { IfOk result
        (IsFound S.ConceptSet (length reader.entry.snapshot.now.release.concepts)
        (filter (may_be S.items_of candidates.now)
        (components_of reader.entry.snapshot.now.release (S.items_of from.now)))
        (length (S.items_of from.now)) visits.old visits.new) }
{
    let numbers = refsets_in(reader, from, visits)?;
    let refsets = numbers.as_slice();
    let components = component_count(reader, refsets);
    if let Candidates::Within(wanted, stats) = candidates {
        if look_ups(stats.items, refsets) < components {
            let found = members_among(reader, refsets, *wanted, visits)?;
            return Ok(found);
        }
    }
    let all: Answer<S> = members(reader, refsets, visits)?;
    let found = restricted(reader, all, candidates)?;
    Ok(found)
}

// Lists the concepts in `from`; or, if the release has fewer reference sets than `from` has concepts,
// its reference sets in `from`, since no other concept has components. Counts each concept in `from`.
fn refsets_in<S: ConceptSet>(
    reader: Reader<'_>,
    from: &Answer<S>,
    visits: &mut Counter,
) -> Result<Vec<u32>, AllocError>
    requires { S.bound_of from.now ≡ length reader.snapshot.now.release.concepts }
    ensures refsets { IfOk result (λ refsets. HaveComponentsOf reader.entry.snapshot.now.release
        (S.items_of from.now) refsets.items) }
    ensures counted { HandsOut (length (S.items_of from.now)) visits.old visits.new }
{
    let known = reader.reference_set_count();
    let listed = u64::from(from.count());
    if known < listed {
        let refsets = reader.reference_sets(visits);
        visits.add(listed - known);
        return refsets_among(reader.alloc, refsets, from);
    }
    from.items(reader.alloc, visits)
}

// Keeps the reference sets that are in `from`.
fn refsets_among<S: ConceptSet>(
    alloc: Global,
    refsets: &[u32],
    from: &Answer<S>,
) -> Result<Vec<u32>, AllocError>
    ensures { IfOk result (λ kept. kept.items ≡ filter (has (S.items_of from.now)) refsets.now) }
{
    let mut kept = Vec::new(alloc);
    for refset in refsets {
        if from.has(*refset) {
            kept.push(*refset)?;
        }
    }
    Ok(kept)
}

// Returns about how many components can be copied in the time that it takes to look up `candidates`
// candidates in the lists of `refsets`.
fn look_ups(candidates: u64, refsets: &[u32]) -> u64
    ensures { 0 < length refsets.now → candidates ≤ result }
{
    candidates
        .saturating_mul(refsets.len() as u64)
        .saturating_mul(LOOK_UP)
}

// Finds the concepts in `wanted` that are components of one of `refsets`. Each is looked up in the
// lists of these.
fn members_among<S: ConceptSet>(
    reader: Reader<'_>,
    refsets: &[u32],
    wanted: &Answer<S>,
    visits: &mut Counter,
) -> Result<Answer<S>, AllocError>
    requires below { All (λ refset. refset < length reader.indexes.now.concepts) refsets.now }
    requires wanted { S.bound_of wanted.now ≡ length reader.snapshot.now.release.concepts }
    ensures counted { HandsOut (length (S.items_of wanted.now)) visits.old visits.new }
    ensures items { IfOk result (λ found. S.items_of found ≡ filter (has (S.items_of wanted.now))
        (components_of reader.entry.snapshot.now.release refsets.now)) }
    ensures bound { IfOk result (λ found. S.bound_of found
        ≡ length reader.entry.snapshot.now.release.concepts) }
{
    let own = wanted.items(reader.alloc, visits)?;
    let kept = components_among(reader, refsets, own.as_slice())?;
    Answer::from_items(reader.alloc, kept.as_slice(), reader.concept_count())
}

// Keeps the concepts that are components of one of `refsets`.
fn components_among(
    reader: Reader<'_>,
    refsets: &[u32],
    concepts: &[u32],
) -> Result<Vec<u32>, AllocError>
    requires below { All (λ refset. refset < length reader.indexes.now.concepts) refsets.now }
    ensures { IfOk result (λ kept. kept.items
        ≡ filter (is_in_one_of reader.entry.indexes.now.members refsets.now) concepts.now) }
{
    let mut kept = Vec::new(reader.alloc);
    for concept in concepts {
        if is_component(reader, refsets, *concept) {
            kept.push(*concept)?;
        }
    }
    Ok(kept)
}

// Whether a concept is a component of one of `refsets`.
fn is_component(reader: Reader<'_>, refsets: &[u32], concept: u32) -> bool
    requires below { All (λ refset. refset < length reader.indexes.now.concepts) refsets.now }
    ensures { result ≡ is_in_one_of reader.entry.indexes.now.members refsets.now concept }
{
    let mut found = false;
    for refset in refsets {
        found = found || reader.is_member(*refset, concept);
    }
    found
}

// Finds the concepts that a member row with one of `refsets` leads to.
fn members<S: ConceptSet>(
    reader: Reader<'_>,
    refsets: &[u32],
    visits: &mut Counter,
) -> Result<Answer<S>, AllocError>
    requires below { All (λ refset. refset < length reader.indexes.now.concepts) refsets.now }
    ensures counted { CountsWithin (items_in reader.entry.indexes.now.members refsets.now)
        visits.old visits.new }
    ensures items { IfOk result (λ found. S.items_of found
        ≡ components_of reader.entry.snapshot.now.release refsets.now) }
    ensures bound { IfOk result (λ found. S.bound_of found
        ≡ length reader.entry.snapshot.now.release.concepts) }
{
    let found = components(reader, refsets, visits)?;
    Answer::from_numbers(reader.alloc, found.as_slice(), reader.concept_count())
}

// Returns how many components `refsets` have, added up.
fn component_count(reader: Reader<'_>, refsets: &[u32]) -> u64
    requires { All (λ refset. refset < length reader.indexes.now.concepts) refsets.now }
    ensures { result ≡ full (items_in reader.entry.indexes.now.members refsets.now) }
{
    let mut components = 0u64;
    for refset in refsets {
        components = components.saturating_add(reader.member_count(*refset));
    }
    components
}

// Lists the components of `refsets`, one set after the other.
fn components(
    reader: Reader<'_>,
    refsets: &[u32],
    visits: &mut Counter,
) -> Result<Vec<u32>, AllocError>
    requires { All (λ refset. refset < length reader.indexes.now.concepts) refsets.now }
    ensures items { IfOk result (λ found. found.items
        ≡ flat_map (list_of reader.entry.indexes.now.members) refsets.now) }
    ensures counted { CountsWithin (items_in reader.entry.indexes.now.members refsets.now)
        visits.old visits.new }
{
    let mut found = Vec::new(reader.alloc);
    for refset in refsets {
        found.extend_from_slice(reader.members(*refset, visits))?;
    }
    Ok(found)
}
