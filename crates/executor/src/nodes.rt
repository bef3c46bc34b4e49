//! Executes the nodes without parts.
ghost use Rattle.std.specs.Prelude.{◌≡◌, ◌==◌, ◌&&◌, [], IfOk, filter, length};
ghost use Rattle.std.specs.List.{range_with_len};
ghost use Rattle.constraint_tree.specs.Walks.{has_concept};
ghost use Rattle.postings.specs.Groups.{all_groups};
ghost use Rattle.candidates.specs.Numbers.{numbers_in};
ghost use Rattle.candidates.specs.Within.{AreBelow, may_be};

use candidates::{Candidates, restricted};
use idset::ConceptSet;
use reading::{Answer, Reader};
use std::alloc::AllocError;

/// Returns the empty set of concepts.
pub fn no_concept<S: ConceptSet>(reader: Reader<'_>) -> Result<Answer<S>, AllocError>
    ensures items { IfOk result (λ found. S.items_of found ≡ []) }
    ensures bound { IfOk result (λ found. S.bound_of found
        ≡ length reader.entry.snapshot.now.release.concepts) }
{
    Answer::from_items(reader.alloc, &[], reader.concept_count())
}

/// Returns all candidates, which are concepts.
pub fn every_candidate<S: ConceptSet>(
    reader: Reader<'_>,
    candidates: &Candidates<'_, S>,
) -> Result<Answer<S>, AllocError>
    requires { AreBelow S.bound_of (length reader.snapshot.now.release.concepts) candidates.now }
    ensures items { IfOk result (λ found. S.items_of found
        ≡ filter (may_be S.items_of candidates.now)
        (range_with_len 0 (length reader.entry.snapshot.now.release.concepts))) }
    ensures bound { IfOk result (λ found. S.bound_of found
        ≡ length reader.entry.snapshot.now.release.concepts) }
{
    let every = Answer::every(reader.alloc, reader.concept_count())?;
    restricted(reader, every, candidates)
}

/// Returns the empty set of groups.
pub fn no_group<S: ConceptSet>(reader: Reader<'_>) -> Result<Answer<S>, AllocError>
    ensures items { IfOk result (λ found. S.items_of found ≡ []) }
    ensures bound { IfOk result (λ found. S.bound_of found
        ≡ length (all_groups reader.entry.snapshot.now.release)) }
{
    Answer::from_items(reader.alloc, &[], group_count(reader))
}

/// Returns all candidates, which are groups.
pub fn every_candidate_group<S: ConceptSet>(
    reader: Reader<'_>,
    candidates: &Candidates<'_, S>,
) -> Result<Answer<S>, AllocError>
    requires candidates { AreBelow S.bound_of (length (all_groups reader.snapshot.now.release))
        candidates.now }
    ensures items { IfOk result (λ found. S.items_of found
        ≡ filter (may_be S.items_of candidates.now)
        (range_with_len 0 (length (all_groups reader.entry.snapshot.now.release)))) }
    ensures bound { IfOk result (λ found. S.bound_of found
        ≡ length (all_groups reader.entry.snapshot.now.release)) }
{
    let every = Answer::every(reader.alloc, group_count(reader))?;
    restricted(reader, every, candidates)
}

/// Returns how many groups all concepts have together.
pub fn group_count(reader: Reader<'_>) -> u32
    ensures { result ≡ length (all_groups reader.entry.snapshot.now.release) }
{
    // tells the prover that the concepts rise, so that each has its groups once
    reader.concept_count();
    reader.group_count()
}

/// Returns the set of the concept in force with the identifier `id`, or the empty set if there is
/// none, or if it is not a candidate.
pub fn one_candidate<S: ConceptSet>(
    reader: Reader<'_>,
    id: u64,
    candidates: &Candidates<'_, S>,
) -> Result<Answer<S>, AllocError>
    requires { AreBelow S.bound_of (length reader.snapshot.now.release.concepts) candidates.now }
    ensures items { IfOk result (λ found. S.items_of found
        ≡ filter (may_be S.items_of candidates.now)
        (numbers_in reader.entry.snapshot.now.release
        (λ concept. has_concept reader.entry.snapshot.now.release concept && (concept == id)))) }
    ensures bound { IfOk result (λ found. S.bound_of found
        ≡ length reader.entry.snapshot.now.release.concepts) }
{
    let one = one_concept(reader, id)?;
    restricted(reader, one, candidates)
}

// Returns the set of the concept in force with the identifier `id`, or the empty set if there is
// none.
fn one_concept<S: ConceptSet>(reader: Reader<'_>, id: u64) -> Result<Answer<S>, AllocError>
    ensures items { IfOk result (λ found. S.items_of found
        ≡ numbers_in reader.entry.snapshot.now.release
        (λ concept. has_concept reader.entry.snapshot.now.release concept && (concept == id))) }
    ensures bound { IfOk result (λ found. S.bound_of found
        ≡ length reader.entry.snapshot.now.release.concepts) }
{
    let count = reader.concept_count();
    match reader.index_of(id) {
        Some(concept) => Answer::from_items(reader.alloc, &[concept], count),
        None => Answer::from_items(reader.alloc, &[], count),
    }
}
