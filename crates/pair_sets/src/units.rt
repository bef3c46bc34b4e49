//! Finds the concepts whose number of groups lies in a cardinality, and the groups of concepts.
ghost use Rattle.std.specs.Prelude.{ℕ, ◌≡◌, ◌≤◌, ◌<◌, ◌+◌, ◌-◌, ◌++◌, true, All, IfOk, OnOk, length, map, slice_get};
ghost use Rattle.std.specs.Prelude.{slice_index};
ghost use Rattle.postings.specs.Groups.{all_groups, groups_before, groups_in};
ghost use Rattle.postings.specs.Indexed.{IsIndexOf};
ghost use Rattle.candidates.specs.Extents.{group_count_of};
ghost use Rattle.candidates.specs.Groups.{concept_in};
ghost use Rattle.pair_sets.specs.Owned.{HaveGroupsOf, groups_owned};
ghost use Rattle.constraint_tree.specs.Passing.{lies_in};
ghost use Rattle.number_lists.specs.Members.{has};
ghost use Rattle.number_lists.specs.Rising.{numbers_where};
ghost use Rattle.std.specs.List.{range_with_len, sum_by};
ghost use Rattle.reading.specs.Counted.{HandsOut};

use crate::counts::as_often;
use constraint_tree::Cardinality;
use idset::ConceptSet;
use reading::{Answer, Counter, Reader};
use std::alloc::AllocError;

/// Finds the concepts whose number of groups among `groups` lies in `count` (Release File
/// Specification, "Relationship file", relationshipGroup; Expression Constraint Language,
/// "Cardinality"). Counts each of `groups`.
pub fn with_groups<S: ConceptSet>(
    reader: Reader<'_>,
    count: Cardinality,
    groups: &Answer<S>,
    visits: &mut Counter,
) -> Result<Answer<S>, AllocError>
    requires bound { S.bound_of groups.now ≡ length (all_groups reader.snapshot.now.release) }
    ensures items { IfOk result (λ found. S.items_of found
        ≡ numbers_where (length reader.entry.snapshot.now.release.concepts)
        (λ number. lies_in count (groups_owned reader.entry.snapshot.now.release
        (S.items_of groups.now) number))) }
    ensures bound { IfOk result (λ found. S.bound_of found
        ≡ length reader.entry.snapshot.now.release.concepts) }
    ensures counted { HandsOut (length (S.items_of groups.now)) visits.old visits.new }
{
    // tells the prover that the concepts rise, so that each has its groups once
    let concept_count = reader.concept_count();
    let numbers = groups.items(reader.alloc, visits)?;
    let concepts = concepts_of(reader, numbers.as_slice())?;
    as_often(reader.alloc, concepts.as_slice(), concept_count, count)
}

// Lists the concept of each of `groups`, in their order; a concept comes once for each of its
// groups.
fn concepts_of(reader: Reader<'_>, groups: &[u32]) -> Result<Vec<u32>, AllocError>
    requires { All (λ group. group < length (groups_in reader.indexes.now)) groups.now }
    ensures within { IfOk result (λ found. All
        (λ concept. concept < length reader.entry.indexes.now.concepts) found.items) }
    ensures concepts { IfOk result (λ found. map (slice_index reader.entry.indexes.now.concepts)
        found.items ≡ map (λ group. concept_in
        (slice_get (groups_in reader.entry.indexes.now) group)) groups.now) }
{
    let mut found = Vec::new(reader.alloc);
    for group in groups {
        found.push(reader.unit_concept(*group))?;
    }
    Ok(found)
}

/// Finds all groups of `concepts`. Counts each of `concepts`.
pub fn groups_of<S: ConceptSet>(
    reader: Reader<'_>,
    concepts: &Answer<S>,
    visits: &mut Counter,
) -> Result<Answer<S>, AllocError>
    requires bound { S.bound_of concepts.now ≡ length reader.snapshot.now.release.concepts }
    ensures groups { IfOk result (λ groups. HaveGroupsOf reader.entry.snapshot.now.release
        (S.items_of concepts.now) (S.items_of groups)) }
    ensures few { IfOk result (λ groups. length (S.items_of groups)
        ≤ sum_by (group_count_of reader.entry.indexes.now) (S.items_of concepts.now)) }
    ensures bound { IfOk result (λ groups. S.bound_of groups
        ≡ length (all_groups reader.entry.snapshot.now.release)) }
    ensures counted { HandsOut (length (S.items_of concepts.now)) visits.old visits.new }
{
    // tells the prover that the concepts rise, so that each has its groups once
    reader.concept_count();
    let own = concepts.items(reader.alloc, visits)?;
    let numbers = numbers_of_groups(reader, own.as_slice())?;
    Answer::from_numbers(reader.alloc, numbers.as_slice(), reader.group_count())
}

// Lists the numbers of the groups of `concepts`.
fn numbers_of_groups(reader: Reader<'_>, concepts: &[u32]) -> Result<Vec<u32>, AllocError>
    requires { All (λ concept. concept < length reader.indexes.now.concepts) concepts.now }
    ensures within { IfOk result (λ found. All
        (λ group. group < length (groups_in reader.entry.indexes.now)) found.items) }
    ensures few { IfOk result (λ found. length found.items
        ≡ sum_by (group_count_of reader.entry.indexes.now) concepts.now) }
    ensures all { IfOk result (λ found. (concept group : ℕ) → has concepts.now concept ≡ true
        → length (groups_before reader.entry.indexes.now concept) ≤ group
        → group < length (groups_before reader.entry.indexes.now (concept + 1))
        → has found.items group ≡ true) }
{
    let mut found = Vec::new(reader.alloc);
    for concept in concepts {
        let units = reader.units_of(*concept);
        push_range(&mut found, units.start, units.end)?;
    }
    Ok(found)
}

// Adds the numbers from `start` up to, but without, `end`.
fn push_range(found: &mut Vec<u32>, start: u32, end: u32) -> Result<(), AllocError>
    ensures { OnOk result (found.new.items ≡ found.old.items
        ++ range_with_len start (end - start)) }
{
    for number in start..end {
        found.push(number)?;
    }
    Ok(())
}
