//! What a `Minus` node does between its two parts: it finds statistics of what the first part has
//! found, because that set is the candidates of the second part.
ghost use Rattle.std.specs.Prelude.{◌≡◌, ◌≤◌, All, IfOk, length, true};
ghost use Rattle.postings.specs.Groups.{all_groups};
ghost use Rattle.set_algebra.specs.Physical.{physical_minus, physical_groups_minus, physical_of, physical_groups_of};
ghost use Rattle.plan_bounds.specs.Bounds.{group_own_bound, own_bound};
ghost use Rattle.plan_bounds.specs.Sizes.{group_size, size as size_of};
ghost use Rattle.executor.specs.inside.Executed.{CountsWithRoom};
ghost use Rattle.candidates.specs.Extents.{IsStatsOf, IsGroupStatsOf};
ghost use Rattle.candidates.specs.Within.{AreConcepts, AreGroups, may_be};

use candidates::{CandidateStats, Candidates, group_stats_to_take, stats_to_take};
use idset::ConceptSet;
use plan_bounds::{group_plan_size, plan_size};
use reading::{Answer, Counter, Reader};
use set_algebra::{ConceptPlan, UnitPlan};
use std::alloc::AllocError;

/// Returns the statistics of `left`, which the first part of a `Minus` node of concepts has found
/// among `candidates`.
pub fn second_part<S: ConceptSet>(
    reader: Reader<'_>,
    first: &ConceptPlan,
    second: &ConceptPlan,
    left: &Answer<S>,
    candidates: &Candidates<'_, S>,
    visits: &mut Counter,
) -> Result<CandidateStats, AllocError>
    requires bound { S.bound_of left.now ≡ length reader.snapshot.now.release.concepts }
    requires candidates { AreConcepts S.ConceptSet reader.snapshot.now.release reader.indexes.now
        candidates.now }
    requires among { All (λ number. may_be S.items_of candidates.now number ≡ true)
        (S.items_of left.now) }
    requires size { length (S.items_of left.now)
        ≤ size_of reader.indexes.now (physical_of first.now) }
    ensures stats { IfOk result (λ stats. IsStatsOf reader.entry.indexes.now (S.items_of left.now)
        stats) }
    ensures counted { CountsWithRoom (length (S.items_of left.now))
        (size_of reader.entry.indexes.now (physical_of second.now))
        (own_bound reader.entry.indexes.now
        (physical_minus (physical_of first.now) (physical_of second.now))) visits.old visits.new }
{
    let lengths = reader.lengths();
    let sizes = (plan_size(first, lengths), plan_size(second, lengths));
    let stats = stats_to_take(reader, candidates, left, sizes, visits)?;
    Ok(stats)
}

/// Returns the statistics of `left`, which the first part of a `Minus` node of groups has found
/// among `candidates`.
pub fn second_group_part<S: ConceptSet>(
    reader: Reader<'_>,
    first: &UnitPlan,
    second: &UnitPlan,
    left: &Answer<S>,
    candidates: &Candidates<'_, S>,
    visits: &mut Counter,
) -> Result<CandidateStats, AllocError>
    requires bound { S.bound_of left.now ≡ length (all_groups reader.snapshot.now.release) }
    requires candidates { AreGroups S.ConceptSet reader.snapshot.now.release reader.indexes.now
        candidates.now }
    requires among { All (λ number. may_be S.items_of candidates.now number ≡ true)
        (S.items_of left.now) }
    requires size { length (S.items_of left.now)
        ≤ group_size reader.indexes.now (physical_groups_of first.now) }
    ensures stats { IfOk result (λ stats. IsGroupStatsOf reader.entry.indexes.now
        (S.items_of left.now) stats) }
    ensures counted { CountsWithRoom (length (S.items_of left.now)) (group_size
        reader.entry.indexes.now (physical_groups_of second.now))
        (group_own_bound reader.entry.indexes.now
        (physical_groups_minus (physical_groups_of first.now) (physical_groups_of second.now)))
        visits.old visits.new }
{
    let lengths = reader.lengths();
    let sizes = (
        group_plan_size(first, lengths),
        group_plan_size(second, lengths),
    );
    let stats = group_stats_to_take(reader, candidates, left, sizes, visits)?;
    Ok(stats)
}
