//! Executes parts of a plan that are joined by AND or by OR.
ghost use Rattle.std.specs.Prelude.{IfOk, length};
ghost use Rattle.set_algebra.specs.Physical.{physical_and, physical_or, physicals_of};
ghost use Rattle.candidates.specs.RowEstimates.{Adds};
ghost use Rattle.candidates.specs.Within.{AreConcepts};
ghost use Rattle.executor.specs.inside.Executed.{AnswersPlan, CountsPlan};
ghost use Rattle.executor.specs.inside.PartOrder.{IsOrderOf};

use crate::estimates::{concept_order, place_at, rows_at};
use crate::nodes::{every_candidate, no_concept};
use crate::plans::{execute_estimated, execute_within};
use candidates::{Candidates, RowEstimate, stats_of};
use idset::ConceptSet;
use reading::{Answer, Counter, Reader};
use set_algebra::ConceptPlan;
use std::alloc::AllocError;

/// Executes an `And` node: returns the candidates that all parts mean; without parts, each
/// candidate. It runs the parts by rising estimate.
#[cycle(execute)]
pub fn execute_and<S: ConceptSet>(
    reader: Reader<'_>,
    parts: &[ConceptPlan],
    candidates: &Candidates<'_, S>,
    visits: &mut Counter,
) -> Result<Answer<S>, AllocError>
    requires candidates { AreConcepts S.ConceptSet reader.snapshot.now.release reader.indexes.now
        candidates.now }
    ensures counted { CountsPlan reader.entry.indexes.now (physical_and (physicals_of parts.now))
        visits.old visits.new }
    ensures found { IfOk result (AnswersPlan S.ConceptSet reader.entry.snapshot.now.release
        reader.entry.indexes.now candidates.now (physical_and (physicals_of parts.now)) visits.old
        visits.new) }
{
    let order = concept_order(reader.alloc, parts, reader.lengths())?;
    let found = execute_in_order(reader, parts, &order, candidates, visits)?;
    Ok(found)
}

// Executes the parts of an `And` node in the given order: the first for the candidates, and each of
// the others for what is left. It reads what each part has found once more, to measure it.
#[cycle(execute)]
fn execute_in_order<S: ConceptSet>(
    reader: Reader<'_>,
    parts: &[ConceptPlan],
    order: &[(u64, usize)],
    candidates: &Candidates<'_, S>,
    visits: &mut Counter,
) -> Result<Answer<S>, AllocError>
    requires order { IsOrderOf (length parts.now) order.now }
    requires candidates { AreConcepts S.ConceptSet reader.snapshot.now.release reader.indexes.now
        candidates.now }
    ensures counted { CountsPlan reader.entry.indexes.now (physical_and (physicals_of parts.now))
        visits.old visits.new }
    ensures found { IfOk result (AnswersPlan S.ConceptSet reader.entry.snapshot.now.release
        reader.entry.indexes.now candidates.now (physical_and (physicals_of parts.now)) visits.old
        visits.new) }
{
    if order.is_empty() {
        let every = every_candidate(reader, candidates)?;
        return Ok(every);
    }
    let lengths = reader.lengths();
    let first = place_at(order, 0, parts.len());
    let mut found: Answer<S> = execute_within(reader, &parts[first], candidates, visits)?;
    let rows = rows_at(parts, order, 1, lengths);
    let mut stats = stats_of(reader, &found, rows, visits)?;
    for turn in 1..order.len() {
        let place = place_at(order, turn, parts.len());
        let part = &parts[place];
        let still = Candidates::Within(&found, stats);
        let next: Answer<S> = execute_within(reader, part, &still, visits)?;
        let rows = rows_at(parts, order, turn + 1, lengths);
        stats = stats_of(reader, &next, rows, visits)?;
        found = next;
    }
    Ok(found)
}

/// Executes an `Or` node: returns the candidates that at least one part means; without parts, none.
/// With what each part has found, it reads again what was found so far.
#[cycle(execute)]
pub fn execute_or<S: ConceptSet>(
    reader: Reader<'_>,
    parts: &[ConceptPlan],
    candidates: &Candidates<'_, S>,
    visits: &mut Counter,
    estimate: &mut RowEstimate<'_>,
) -> Result<Answer<S>, AllocError>
    requires candidates { AreConcepts S.ConceptSet reader.snapshot.now.release reader.indexes.now
        candidates.now }
    ensures counted { CountsPlan reader.entry.indexes.now (physical_or (physicals_of parts.now))
        visits.old visits.new }
    ensures found { IfOk result (AnswersPlan S.ConceptSet reader.entry.snapshot.now.release
        reader.entry.indexes.now candidates.now (physical_or (physicals_of parts.now)) visits.old
        visits.new) }
    ensures adds { IfOk result (λ found. Adds (S.items_of found) estimate.old estimate.new) }
{
    // the concepts rise, and the sources of all attribute rows are in force
    reader.concept_count();
    reader.attribute_count();
    let mut found: Answer<S> = no_concept(reader)?;
    for part in parts {
        let next: Answer<S> = execute_estimated(reader, part, candidates, visits, estimate)?;
        found = found.or(reader.alloc, &next, visits)?;
    }
    Ok(found)
}
