//! Executes the dotted attributes of a plan.
ghost use Rattle.std.specs.Prelude.{◌≡◌, ◌+◌, ◌*◌, IfOk, length};
ghost use Rattle.set_algebra.specs.Meaning.{leads, means};
ghost use Rattle.set_algebra.specs.Physical.{logical, logicals, physical_of, physical_values, physicals_of};
ghost use Rattle.set_algebra.specs.Plan.{Plan};
ghost use Rattle.plan_bounds.specs.Bounds.{own_number, values_bound};
ghost use Rattle.plan_bounds.specs.Floors.{floor_number};
ghost use Rattle.plan_bounds.specs.Leaves.{plan_count};
ghost use Rattle.plan_bounds.specs.Nodes.{node_sum, plans_sum};
ghost use Rattle.candidates.specs.Numbers.{is_one_of, numbers_in};
ghost use Rattle.pair_sets.specs.Sources.{is_source};
ghost use Rattle.executor.specs.inside.Named.{HasNamed};
ghost use Rattle.candidates.specs.Within.{AreConcepts};
ghost use Rattle.reading.specs.Counted.{CountsWithin, IsFound};
ghost use Rattle.executor.specs.inside.Executed.{AnswersAll, AnswersPlan, CountsPlan};
ghost use Rattle.executor.specs.inside.Along.{AnswersAlong, CountsAlong};

use crate::estimates::rows_without;
use crate::plans::execute_within;
use candidates::{Candidates, restricted, stats_of};
use idset::ConceptSet;
use pair_sets::{sources_within, values_along};
use plan_bounds::{plan_floor, plan_size};
use reading::{Answer, Counter, Reader};
use set_algebra::ConceptPlan;
use std::alloc::AllocError;

// If the start of dotted attributes may find this many times as many concepts as there are rows of
// the first attribute, it is faster to find the sources of these rows first.
const WIDE: u64 = 32;

/// Executes a `Values` node: returns the candidates among the concepts that its dotted attributes
/// lead to. It executes the first name before the start.
#[cycle(execute)]
pub fn execute_dotted<S: ConceptSet>(
    reader: Reader<'_>,
    start: &ConceptPlan,
    names: &[ConceptPlan],
    candidates: &Candidates<'_, S>,
    visits: &mut Counter,
) -> Result<Answer<S>, AllocError>
    requires candidates { AreConcepts S.ConceptSet reader.snapshot.now.release reader.indexes.now
        candidates.now }
    ensures counted { CountsPlan reader.entry.indexes.now (physical_values (physical_of start.now)
        (physicals_of names.now)) visits.old visits.new }
    ensures found { IfOk result (AnswersPlan S.ConceptSet reader.entry.snapshot.now.release
        reader.entry.indexes.now candidates.now
        (physical_values (physical_of start.now) (physicals_of names.now)) visits.old visits.new) }
{
    match names.split_first() {
        None => {
            let found = execute_within(reader, start, candidates, visits)?;
            Ok(found)
        }
        Some((first, others)) => {
            // the concepts rise, and the sources of all attribute rows are in force
            reader.concept_count();
            reader.attribute_count();
            let all = Candidates::All;
            let named: Answer<S> = execute_within(reader, first, &all, visits)?;
            let along: Answer<S> = execute_start(reader, start, &named, visits)?;
            let driven = execute_attributes(reader, along, others, (first, named), visits)?;
            let found = restricted(reader, driven, candidates)?;
            Ok(found)
        }
    }
}

// Executes the start of dotted attributes, and returns the values of its attributes with a type in
// `named`, which their first name has found. If these types have few rows compared with what the
// start may find, it executes the start only for the sources of these rows.
#[cycle(execute)]
fn execute_start<S: ConceptSet>(
    reader: Reader<'_>,
    start: &ConceptPlan,
    named: &Answer<S>,
    visits: &mut Counter,
) -> Result<Answer<S>, AllocError>
    requires named { S.bound_of named.now ≡ length reader.snapshot.now.release.concepts }
    ensures counted { CountsAlong reader.entry.indexes.now (physical_of start.now) visits.old
        visits.new }
    ensures found { IfOk result (AnswersAlong S.ConceptSet reader.entry.snapshot.now.release
        reader.entry.indexes.now (physical_of start.now) (S.items_of named.now) visits.old
        visits.new) }
{
    let room = plan_size(start, reader.lengths()) / WIDE;
    let few: Option<Answer<S>> = sources_within(reader, named, room, visits)?;
    match few {
        None => {
            let all = Candidates::All;
            let from: Answer<S> = execute_within(reader, start, &all, visits)?;
            let found = values_along(reader, from, named, visits)?;
            Ok(found)
        }
        Some(sources) => {
            let found = execute_from_few(reader, start, named, &sources, visits)?;
            Ok(found)
        }
    }
}

// Executes the start of dotted attributes only for `sources`, which are all concepts that have an
// attribute with a type in `named` whose value is a concept. Returns the values of what it finds.
#[cycle(execute)]
fn execute_from_few<S: ConceptSet>(
    reader: Reader<'_>,
    start: &ConceptPlan,
    named: &Answer<S>,
    sources: &Answer<S>,
    visits: &mut Counter,
) -> Result<Answer<S>, AllocError>
    requires named { S.bound_of named.now ≡ length reader.snapshot.now.release.concepts }
    requires bound { S.bound_of sources.now ≡ length reader.snapshot.now.release.concepts }
    requires sources { S.items_of sources.now ≡ numbers_in reader.snapshot.now.release
        (is_source reader.snapshot.now.release
        (is_one_of reader.indexes.now.concepts (S.items_of named.now))) }
    ensures counted { CountsWithin (node_sum (own_number reader.entry.indexes.now)
        (physical_of start.now) + (2 * length (S.items_of sources.now)
        + length reader.entry.indexes.now.rows)) visits.old visits.new }
    ensures found { IfOk result (AnswersAlong S.ConceptSet reader.entry.snapshot.now.release
        reader.entry.indexes.now (physical_of start.now) (S.items_of named.now) visits.old
        visits.new) }
{
    let rows = rows_without(start, reader.lengths());
    let stats = stats_of(reader, sources, rows, visits)?;
    let theirs = Candidates::Within(sources, stats);
    let from: Answer<S> = execute_within(reader, start, &theirs, visits)?;
    let found = values_along(reader, from, named, visits)?;
    Ok(found)
}

// Returns the concepts to which dotted attributes lead from a set: the values of its attributes
// with the first name, the values of theirs with the second, and so on (Expression Constraint
// Language, "Refinements", dotted attributes). `known` is the name before the first, and the
// concepts that it means.
#[cycle(execute)]
fn execute_attributes<S: ConceptSet>(
    reader: Reader<'_>,
    from: Answer<S>,
    names: &[ConceptPlan],
    known: (&ConceptPlan, Answer<S>),
    visits: &mut Counter,
) -> Result<Answer<S>, AllocError>
    requires bound { S.bound_of from ≡ length reader.snapshot.now.release.concepts }
    requires known { HasNamed reader.snapshot.now.release (logical (physical_of known.0.now))
        (S.items_of known.1) (S.bound_of known.1) }
    ensures counted { CountsWithin (values_bound reader.entry.indexes.now
        (plan_count (physicals_of names.now)) (length (S.items_of from))
        + plans_sum (own_number reader.entry.indexes.now) (physicals_of names.now)) visits.old
        visits.new }
    ensures found { IfOk result (λ found. (plan : Plan) → S.items_of from
        ≡ numbers_in reader.entry.snapshot.now.release (means reader.entry.snapshot.now.release
        plan) → IsFound S.ConceptSet (length reader.entry.snapshot.now.release.concepts)
        (numbers_in reader.entry.snapshot.now.release (leads reader.entry.snapshot.now.release
        (means reader.entry.snapshot.now.release plan) (logicals (physicals_of names.now))))
        (plans_sum (floor_number reader.entry.indexes.now) (physicals_of names.now)) visits.old
        visits.new found) }
{
    // the concepts rise, and the sources of all attribute rows are in force
    reader.concept_count();
    reader.attribute_count();
    let mut found = from;
    let mut before = known;
    for name in names {
        let named: Answer<S> = named_by(reader, name, before, visits)?;
        found = values_along(reader, found, &named, visits)?;
        before = (name, named);
    }
    Ok(found)
}

// Returns the concepts that the name of a dotted attribute means. If the name before it is equal,
// what it means is known; then the name is not executed, and its floor is counted.
#[cycle(execute)]
fn named_by<S: ConceptSet>(
    reader: Reader<'_>,
    name: &ConceptPlan,
    known: (&ConceptPlan, Answer<S>),
    visits: &mut Counter,
) -> Result<Answer<S>, AllocError>
    requires known { HasNamed reader.snapshot.now.release (logical (physical_of known.0.now))
        (S.items_of known.1) (S.bound_of known.1) }
    ensures counted { CountsPlan reader.entry.indexes.now (physical_of name.now) visits.old
        visits.new }
    ensures found { IfOk result (AnswersAll S.ConceptSet reader.entry.snapshot.now.release
        reader.entry.indexes.now (physical_of name.now) visits.old visits.new) }
{
    let (before, set) = known;
    if *before == *name {
        visits.add(plan_floor(name, reader.lengths()));
        return Ok(set);
    }
    let all = Candidates::All;
    let found = execute_within(reader, name, &all, visits)?;
    Ok(found)
}
