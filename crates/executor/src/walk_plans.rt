//! Executes the walks of a plan: its hierarchy operators.
ghost use Rattle.std.specs.Prelude.{◌≡◌, ◌≤◌, ◌/◌, IfOk, None, length};
ghost use Rattle.number_lists.specs.Members.{has};
ghost use Rattle.set_algebra.specs.Meaning.{means};
ghost use Rattle.set_algebra.specs.Physical.{logical, physical_of, physical_walk};
ghost use Rattle.plan_bounds.specs.Counts.{lists_length, one_of};
ghost use Rattle.plan_bounds.specs.Floors.{floor_number};
ghost use Rattle.plan_bounds.specs.Nodes.{node_sum};
ghost use Rattle.walks.specs.Reads.{asked_items};
ghost use Rattle.reading.specs.Counted.{IsFound, full};
ghost use Rattle.candidates.specs.RowEstimates.{Adds};
ghost use Rattle.candidates.specs.Within.{AreConcepts, numbers_within};
ghost use Rattle.executor.specs.inside.Executed.{AnswersPlan, CountsPlan};

use crate::estimates::rows_without;
use crate::found::walk_found;
use crate::plans::execute_within;
use candidates::{Candidates, RowEstimate, stats_of};
use idset::ConceptSet;
use plan_bounds::WalkParts;
use reading::{Answer, Counter, Reader};
use std::alloc::AllocError;
use walks::{are_enough, enough_for, related_among};

/// Executes a `Walk` node: returns the candidates that the operator leads to from the concepts that
/// the operand means. If the candidates are few, it executes the operand only for the concepts from
/// which the operator leads to a candidate. If `estimate` asks for rows, the node adds the rows of
/// what it finds, or makes the estimate unknown.
#[cycle(execute)]
pub fn walk_from<S: ConceptSet>(
    reader: Reader<'_>,
    walk: WalkParts<'_>,
    candidates: &Candidates<'_, S>,
    visits: &mut Counter,
    estimate: &mut RowEstimate<'_>,
) -> Result<Answer<S>, AllocError>
    requires candidates { AreConcepts S.ConceptSet reader.snapshot.now.release reader.indexes.now
        candidates.now }
    ensures counted { CountsPlan reader.entry.indexes.now (physical_walk walk.entry.operator
        (physical_of walk.entry.operand.now)) visits.old visits.new }
    ensures found { IfOk result (AnswersPlan S.ConceptSet reader.entry.snapshot.now.release
        reader.entry.indexes.now candidates.now
        (physical_walk walk.entry.operator (physical_of walk.entry.operand.now)) visits.old
        visits.new) }
    ensures adds { IfOk result (λ found. Adds (S.items_of found) estimate.old estimate.new) }
{
    let count = reader.concept_count();
    if let Candidates::Within(wanted, _) = candidates {
        let rows = rows_without(walk.operand, reader.lengths());
        if are_enough(reader, walk.operator, count, rows, candidates) {
            estimate.forget();
            let found = walk_to_few(reader, walk, *wanted, rows, visits)?;
            return Ok(found);
        }
    }
    let all = Candidates::All;
    let from: Answer<S> = execute_within(reader, walk.operand, &all, visits)?;
    let found = walk_found(reader, walk, &from, candidates, visits, estimate)?;
    Ok(found)
}

// Executes a walk for few candidates, `wanted`. Whether the operator leads to a candidate depends
// only on the concepts in a list of the candidate. So the operand is executed with those as its
// candidates, and then each candidate is tested by its list. `rows` is how many rows the operand
// reads if it does not use its candidates.
#[cycle(execute)]
fn walk_to_few<S: ConceptSet>(
    reader: Reader<'_>,
    walk: WalkParts<'_>,
    wanted: &Answer<S>,
    rows: u64,
    visits: &mut Counter,
) -> Result<Answer<S>, AllocError>
    requires bound { S.bound_of wanted.now ≡ length reader.snapshot.now.release.concepts }
    requires several { one_of (physical_of walk.operand.now) ≡ None }
    requires room { full (asked_items reader.indexes.now.hierarchy walk.operator
        (S.items_of wanted.now)) ≤ lists_length reader.indexes.now walk.operator / 3 }
    ensures counted { CountsPlan reader.entry.indexes.now (physical_walk walk.entry.operator
        (physical_of walk.entry.operand.now)) visits.old visits.new }
    ensures found { IfOk result
        (IsFound S.ConceptSet (length reader.entry.snapshot.now.release.concepts)
        (numbers_within reader.entry.snapshot.now.release (has (S.items_of wanted.now))
        (means reader.entry.snapshot.now.release (logical (physical_walk walk.entry.operator
        (physical_of walk.entry.operand.now)))))
        (node_sum (floor_number reader.entry.indexes.now)
        (physical_walk walk.entry.operator (physical_of walk.entry.operand.now))) visits.old
        visits.new) }
{
    let enough: Answer<S> = enough_for(reader, walk.operator, wanted, visits)?;
    let stats = stats_of(reader, &enough, rows, visits)?;
    let theirs = Candidates::Within(&enough, stats);
    let from: Answer<S> = execute_within(reader, walk.operand, &theirs, visits)?;
    let found = related_among(reader, walk.operator, &from, wanted, visits)?;
    Ok(found)
}
