//! Executes a node whose parts have been executed. No function here goes down a plan, and each
//! counts only what it reads itself.
ghost use Rattle.std.specs.Prelude.{◌≡◌, ◌≤◌, IfOk, filter, length};
ghost use Rattle.postings.specs.Groups.{all_groups};
ghost use Rattle.set_algebra.specs.Physical.{logical, physical_members, physical_of, physical_walk};
ghost use Rattle.plan_bounds.specs.Bounds.{own_bound};
ghost use Rattle.plan_bounds.specs.Floors.{own_floor};
ghost use Rattle.plan_bounds.specs.Sizes.{size as size_of};
ghost use Rattle.walks.specs.Components.{components_of};
ghost use Rattle.walks.specs.Related.{related_to};
ghost use Rattle.executor.specs.inside.WithGroups.{having_groups};
ghost use Rattle.set_algebra.specs.Meaning.{means};
ghost use Rattle.reading.specs.Counted.{CountsWithin, IsFound};
ghost use Rattle.candidates.specs.Numbers.{numbers_in};
ghost use Rattle.candidates.specs.RowEstimates.{Adds};
ghost use Rattle.candidates.specs.Within.{AreConcepts, may_be};

use candidates::{Candidates, RowEstimate, restricted};
use constraint_tree::Cardinality;
use idset::ConceptSet;
use pair_sets::with_groups;
use plan_bounds::{WalkParts, members_limits, walk_limits};
use reading::{Answer, Counter, Reader};
use set_algebra::ConceptPlan;
use std::alloc::AllocError;
use walks::{members_within, walk_within};

/// Returns the candidates that the operator of `walk` leads to from `from`, which the operand has
/// found. Counts at least the node's floor. If `estimate` asks for rows, adds the rows of what is
/// found, or makes the estimate unknown.
pub fn walk_found<S: ConceptSet>(
    reader: Reader<'_>,
    walk: WalkParts<'_>,
    from: &Answer<S>,
    candidates: &Candidates<'_, S>,
    visits: &mut Counter,
    estimate: &mut RowEstimate<'_>,
) -> Result<Answer<S>, AllocError>
    requires candidates { AreConcepts S.ConceptSet reader.snapshot.now.release reader.indexes.now
        candidates.now }
    requires bound { S.bound_of from.now ≡ length reader.snapshot.now.release.concepts }
    requires from { S.items_of from.now ≡ numbers_in reader.snapshot.now.release
        (means reader.snapshot.now.release (logical (physical_of walk.operand.now))) }
    requires size { length (S.items_of from.now)
        ≤ size_of reader.indexes.now (physical_of walk.operand.now) }
    ensures counted { CountsWithin (own_bound reader.entry.indexes.now
        (physical_walk walk.entry.operator (physical_of walk.entry.operand.now))) visits.old
        visits.new }
    ensures found { IfOk result
        (IsFound S.ConceptSet (length reader.entry.snapshot.now.release.concepts)
        (filter (may_be S.items_of candidates.now) (related_to reader.entry.indexes.now.hierarchy
        (S.bound_of from.now) walk.entry.operator (S.items_of from.now)))
        (own_floor reader.entry.indexes.now
        (physical_walk walk.entry.operator (physical_of walk.entry.operand.now))) visits.old
        visits.new) }
    ensures adds { IfOk result (λ found. Adds (S.items_of found) estimate.old estimate.new) }
{
    // tells the prover that the concepts rise
    reader.concept_count();
    let since = visits.count();
    let limits = walk_limits(
        reader.lengths(),
        walk.operator,
        walk.operand,
        u64::from(from.count()),
    );
    let found = walk_within(reader, walk.operator, from, candidates, visits, estimate)?;
    visits.fill(since, limits.floor);
    Ok(found)
}

/// Returns the candidates that are components of the reference sets in `from`, which `operand` has
/// found. Counts at least the node's floor.
pub fn members_found<S: ConceptSet>(
    reader: Reader<'_>,
    operand: &ConceptPlan,
    from: &Answer<S>,
    candidates: &Candidates<'_, S>,
    visits: &mut Counter,
) -> Result<Answer<S>, AllocError>
    requires candidates { AreConcepts S.ConceptSet reader.snapshot.now.release reader.indexes.now
        candidates.now }
    requires bound { S.bound_of from.now ≡ length reader.snapshot.now.release.concepts }
    requires from { S.items_of from.now ≡ numbers_in reader.snapshot.now.release
        (means reader.snapshot.now.release (logical (physical_of operand.now))) }
    requires size { length (S.items_of from.now)
        ≤ size_of reader.indexes.now (physical_of operand.now) }
    ensures counted { CountsWithin (own_bound reader.entry.indexes.now
        (physical_members (physical_of operand.now))) visits.old visits.new }
    ensures found { IfOk result
        (IsFound S.ConceptSet (length reader.entry.snapshot.now.release.concepts)
        (filter (may_be S.items_of candidates.now)
        (components_of reader.entry.snapshot.now.release (S.items_of from.now)))
        (own_floor reader.entry.indexes.now (physical_members (physical_of operand.now))) visits.old
        visits.new) }
{
    // tells the prover that the concepts rise
    reader.concept_count();
    let since = visits.count();
    let limits = members_limits(reader.lengths(), operand, u64::from(from.count()));
    let found = members_within(reader, from, candidates, visits)?;
    visits.fill(since, limits.floor);
    Ok(found)
}

/// Returns the candidates whose number of groups among `groups`, which a plan of groups has found,
/// lies in `count`. Counts each of `groups`.
pub fn found_by_groups<S: ConceptSet>(
    reader: Reader<'_>,
    count: Cardinality,
    groups: &Answer<S>,
    candidates: &Candidates<'_, S>,
    visits: &mut Counter,
) -> Result<Answer<S>, AllocError>
    requires candidates { AreConcepts S.ConceptSet reader.snapshot.now.release reader.indexes.now
        candidates.now }
    requires bound { S.bound_of groups.now ≡ length (all_groups reader.snapshot.now.release) }
    ensures counted { CountsWithin (length (S.items_of groups.now)) visits.old visits.new }
    ensures found { IfOk result
        (IsFound S.ConceptSet (length reader.entry.snapshot.now.release.concepts)
        (filter (may_be S.items_of candidates.now)
        (having_groups reader.entry.snapshot.now.release count (S.items_of groups.now)))
        (length (S.items_of groups.now)) visits.old visits.new) }
{
    let some = with_groups(reader, count, groups, visits)?;
    let found = restricted(reader, some, candidates)?;
    Ok(found)
}
