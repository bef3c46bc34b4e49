//! Executes a plan of concepts, from each node down to its parts.
ghost use Rattle.std.specs.Prelude.{◌≡◌, ◌≤◌, ◌+◌, ◌-◌, ◌^◌, IfOk, length, min};
ghost use Rattle.postings.specs.Indexed.{IsIndexOf};
ghost use Rattle.set_algebra.specs.Meaning.{means};
ghost use Rattle.set_algebra.specs.Physical.{physical_members, physical_minus, physical_of, physical_pairs};
ghost use Rattle.set_algebra.specs.Physical.{physical_test_of, physical_groups};
ghost use Rattle.set_algebra.specs.Physical.{physical_groups_of};
ghost use Rattle.set_algebra.specs.Plan.{plan_of};
ghost use Rattle.plan_bounds.specs.Bounds.{bound as bound_of};
ghost use Rattle.plan_bounds.specs.Floors.{floor as floor_of};
ghost use Rattle.plan_bounds.specs.Sizes.{size as size_of};
ghost use Rattle.candidates.specs.Numbers.{numbers_in};
ghost use Rattle.candidates.specs.RowEstimates.{Adds};
ghost use Rattle.candidates.specs.Within.{AreConcepts};
ghost use Rattle.executor.specs.inside.Named.{AddsNamed};
ghost use Rattle.executor.specs.inside.Executed.{AnswersPlan, AnswersTest, CountsPlan, CountsTest, FindsOperand};
ghost use Rattle.executor.specs.inside.Executed.{set_items};

use crate::counting::leaf_limits_within;
use crate::dotted_plans::execute_dotted;
use crate::estimates::{estimate_of_groups, rows_of_types};
use crate::found::{found_by_groups, members_found};
use crate::group_plans::execute_groups;
use crate::joined_plans::{execute_and, execute_or};
use crate::nodes::{every_candidate, no_concept, one_candidate};
use crate::second_part::second_part;
use crate::walk_plans::walk_from;
use candidates::{Candidates, RowEstimate, group_stats_of, none_left};
use constraint_tree::Cardinality;
use held_release::Snapshot;
use idset::ConceptSet;
use pair_sets::{LeafRequest, Tested, count_of_test, groups_of, with_pairs_within};
use plan_bounds::{LeafParts, PhysicalPlan, WalkParts, group_plan_size, plan_floor};
use postings::Indexes;
use reading::{Answer, Counter, Reader, Visits};
use set_algebra::{ConceptPlan, UnitPlan, ValueTest};
use std::alloc::{AllocError, Global};

/// Returns the concepts that the plan `physical` means over the release in `snapshot`, as a set of
/// their numbers whose bound is the number of concepts. `indexes` must be those of the release. The
/// choices of the plan's leaves do not change the result.
///
/// Adds the items that it reads to `visits`: at most the bound of the plan, even if it fails; and
/// if it succeeds, at least the plan's floor, unless the count saturates at `u64::MAX`. It fails
/// only if memory runs out.
pub fn execute<S: ConceptSet>(
    alloc: Global,
    physical: &PhysicalPlan,
    snapshot: &Snapshot,
    indexes: &Indexes,
    visits: &mut Visits,
) -> Result<S, AllocError>
    requires index { IsIndexOf indexes.now snapshot.now.release }
    ensures items { IfOk result (λ found. S.items_of found ≡ numbers_in snapshot.now.release
        (means snapshot.now.release (plan_of physical.now.plan))) }
    ensures bound { IfOk result (λ found. S.bound_of found ≡ length snapshot.now.release.concepts) }
    ensures grows { visits.old.count ≤ visits.new.count }
    ensures within { visits.new.count ≤ visits.old.count
        + bound_of indexes.now (physical_of physical.now.plan) }
    ensures floor { IfOk result (λ _. min
        (visits.old.count + floor_of indexes.now (physical_of physical.now.plan)) (2 ^ 64 - 1)
        ≤ visits.new.count) }
{
    let plan = physical.plan();
    let (reader, mut counter) = Reader::open(alloc, snapshot, indexes, *visits);
    let found = execute_within(reader, plan, &Candidates::All, &mut counter);
    *visits = counter.visits();
    let answer: Answer<S> = found?;
    Ok(counter.close(answer))
}

/// Returns the candidates that `plan` means. They are at most as many as the plan's size.
#[cycle(execute)]
pub fn execute_within<S: ConceptSet>(
    reader: Reader<'_>,
    plan: &ConceptPlan,
    candidates: &Candidates<'_, S>,
    visits: &mut Counter,
) -> Result<Answer<S>, AllocError>
    requires candidates { AreConcepts S.ConceptSet reader.snapshot.now.release reader.indexes.now
        candidates.now }
    ensures counted { CountsPlan reader.entry.indexes.now (physical_of plan.now) visits.old
        visits.new }
    ensures found { IfOk result (AnswersPlan S.ConceptSet reader.entry.snapshot.now.release
        reader.entry.indexes.now candidates.now (physical_of plan.now) visits.old visits.new) }
    ensures size { IfOk result (λ found. length (S.items_of found)
        ≤ size_of reader.entry.indexes.now (physical_of plan.now)) }
{
    let mut estimate = RowEstimate::unasked();
    let found = execute_estimated(reader, plan, candidates, visits, &mut estimate)?;
    Ok(found)
}

/// Returns the candidates that `plan` means. If `estimate` asks for rows, also adds the rows of
/// what is found, or makes the estimate unknown. If there is no candidate, executes nothing, and
/// counts the floor of the plan.
#[cycle(execute)]
pub fn execute_estimated<S: ConceptSet>(
    reader: Reader<'_>,
    plan: &ConceptPlan,
    candidates: &Candidates<'_, S>,
    visits: &mut Counter,
    estimate: &mut RowEstimate<'_>,
) -> Result<Answer<S>, AllocError>
    requires candidates { AreConcepts S.ConceptSet reader.snapshot.now.release reader.indexes.now
        candidates.now }
    ensures counted { CountsPlan reader.entry.indexes.now (physical_of plan.now) visits.old
        visits.new }
    ensures found { IfOk result (AnswersPlan S.ConceptSet reader.entry.snapshot.now.release
        reader.entry.indexes.now candidates.now (physical_of plan.now) visits.old visits.new) }
    ensures size { IfOk result (λ found. length (S.items_of found)
        ≤ size_of reader.entry.indexes.now (physical_of plan.now)) }
    ensures adds { IfOk result (λ found. Adds (S.items_of found) estimate.old estimate.new) }
{
    // tell the prover that the concepts rise, and that the source of each attribute row is in force
    reader.concept_count();
    reader.attribute_count();
    if none_left(candidates) {
        visits.add(plan_floor(plan, reader.lengths()));
        let found = no_concept(reader)?;
        return Ok(found);
    }
    let made: Answer<S> = execute_node(reader, plan, candidates, visits, estimate)?;
    let found = estimate.prepared(reader, made)?;
    Ok(found)
}

// Executes the root node of `plan`. The caller has made sure that there is a candidate.
#[cycle(execute)]
#[tactic(auto, using(crate::proofs::Rules::node_parts))]
fn execute_node<S: ConceptSet>(
    reader: Reader<'_>,
    plan: &ConceptPlan,
    candidates: &Candidates<'_, S>,
    visits: &mut Counter,
    estimate: &mut RowEstimate<'_>,
) -> Result<Answer<S>, AllocError>
    requires candidates { AreConcepts S.ConceptSet reader.snapshot.now.release reader.indexes.now
        candidates.now }
    ensures counted { CountsPlan reader.entry.indexes.now (physical_of plan.now) visits.old
        visits.new }
    ensures found { IfOk result (AnswersPlan S.ConceptSet reader.entry.snapshot.now.release
        reader.entry.indexes.now candidates.now (physical_of plan.now) visits.old visits.new) }
    ensures adds { IfOk result (λ found. Adds (S.items_of found) estimate.old estimate.new) }
{
    estimate_named(reader, plan, estimate);
    match plan {
        ConceptPlan::Empty => no_concept(reader),
        ConceptPlan::All => every_candidate(reader, candidates),
        ConceptPlan::One(id) => one_candidate(reader, *id, candidates),
        ConceptPlan::Walk(operator, operand) => {
            let walk = WalkParts {
                operator: *operator,
                operand,
            };
            walk_from(reader, walk, candidates, visits, estimate)
        }
        ConceptPlan::Members(operand) => { members_of(reader, operand, candidates, visits) }
        ConceptPlan::And(parts) => { execute_and(reader, parts, candidates, visits) }
        ConceptPlan::Or(parts) => execute_or(reader, parts, candidates, visits, estimate),
        ConceptPlan::Minus(first, second) => execute_minus(
            reader, first, second, candidates, visits,
        ),
        ConceptPlan::Values(start, names) => execute_dotted(
            reader, start, names, candidates, visits,
        ),
        ConceptPlan::Pairs {
            back,
            count,
            types,
            test,
            choice,
        } => {
            let leaf = LeafParts {
                count: *count,
                types,
                test,
                choice: *choice,
            };
            pairs_within(reader, *back, leaf, candidates, visits)
        }
        ConceptPlan::Units { count, units } => execute_units(
            reader, *count, units, candidates, visits,
        ),
    }
}

// Executes a `Members` node: returns the candidates that are components of the reference sets that
// `operand` means.
#[cycle(execute)]
fn members_of<S: ConceptSet>(
    reader: Reader<'_>,
    operand: &ConceptPlan,
    candidates: &Candidates<'_, S>,
    visits: &mut Counter,
) -> Result<Answer<S>, AllocError>
    requires candidates { AreConcepts S.ConceptSet reader.snapshot.now.release reader.indexes.now
        candidates.now }
    ensures counted { CountsPlan reader.entry.indexes.now
        (physical_members (physical_of operand.now)) visits.old visits.new }
    ensures found { IfOk result (AnswersPlan S.ConceptSet reader.entry.snapshot.now.release
        reader.entry.indexes.now candidates.now (physical_members (physical_of operand.now))
        visits.old visits.new) }
{
    let all = Candidates::All;
    let from: Answer<S> = execute_within(reader, operand, &all, visits)?;
    let found = members_found(reader, operand, &from, candidates, visits)?;
    Ok(found)
}

// Executes a `Minus` node: executes the first part for the candidates, then the second for what the
// first found. Returns what the first found and the second did not.
#[cycle(execute)]
fn execute_minus<S: ConceptSet>(
    reader: Reader<'_>,
    first: &ConceptPlan,
    second: &ConceptPlan,
    candidates: &Candidates<'_, S>,
    visits: &mut Counter,
) -> Result<Answer<S>, AllocError>
    requires candidates { AreConcepts S.ConceptSet reader.snapshot.now.release reader.indexes.now
        candidates.now }
    ensures counted { CountsPlan reader.entry.indexes.now (physical_minus (physical_of first.now)
        (physical_of second.now)) visits.old visits.new }
    ensures found { IfOk result (AnswersPlan S.ConceptSet reader.entry.snapshot.now.release
        reader.entry.indexes.now candidates.now
        (physical_minus (physical_of first.now) (physical_of second.now)) visits.old visits.new) }
{
    let left: Answer<S> = execute_within(reader, first, candidates, visits)?;
    let stats = second_part(reader, first, second, &left, candidates, visits)?;
    let still = Candidates::Within(&left, stats);
    let right: Answer<S> = execute_within(reader, second, &still, visits)?;
    let found = left.minus(reader.alloc, &right, visits)?;
    Ok(found)
}

// Executes a `Pairs` leaf: returns the candidates whose number of distinct matching pairs lies in
// the leaf's cardinality. If `back`, the pairs are read backwards.
#[cycle(execute)]
fn pairs_within<S: ConceptSet>(
    reader: Reader<'_>,
    back: bool,
    leaf: LeafParts<'_>,
    candidates: &Candidates<'_, S>,
    visits: &mut Counter,
) -> Result<Answer<S>, AllocError>
    requires candidates { AreConcepts S.ConceptSet reader.snapshot.now.release reader.indexes.now
        candidates.now }
    ensures counted { CountsPlan reader.entry.indexes.now
        (physical_pairs back leaf.entry.count (physical_of leaf.entry.types.now)
        (physical_test_of leaf.entry.test.now) leaf.entry.choice) visits.old visits.new }
    ensures found { IfOk result (AnswersPlan S.ConceptSet reader.entry.snapshot.now.release
        reader.entry.indexes.now candidates.now
        (physical_pairs back leaf.entry.count (physical_of leaf.entry.types.now)
        (physical_test_of leaf.entry.test.now) leaf.entry.choice) visits.old visits.new) }
{
    // tells the prover that the concepts rise
    reader.concept_count();
    let all = Candidates::All;
    let typed: Answer<S> = execute_within(reader, leaf.types, &all, visits)?;
    let lengths = reader.lengths();
    let others = rows_of_types(leaf.types, lengths);
    let mut estimate = RowEstimate::of(reader, leaf.choice, back, others, candidates);
    let tested: Tested<S> = tested_of(reader, &typed, leaf.test, visits, &mut estimate)?;
    let concepts = reader.concept_count() as u64;
    let found = (typed.count(), count_of_test(&tested));
    let request = LeafRequest {
        count: leaf.count,
        choice: leaf.choice,
        limits: leaf_limits_within(lengths, concepts, back, leaf, found),
        value_rows: estimate.rows(),
    };
    let found = with_pairs_within(reader, back, request, &typed, tested, candidates, visits)?;
    Ok(found)
}

// Prepares `estimate` before `plan` is executed. If the plan is one concept, adds that concept's
// rows. A walk or an OR changes the estimate itself when it finds concepts. No other plan adds
// rows, so for it the estimate becomes unknown.
fn estimate_named(reader: Reader<'_>, plan: &ConceptPlan, estimate: &mut RowEstimate<'_>)
    ensures { AddsNamed reader.entry.snapshot.now.release (plan_of plan.now) estimate.old
        estimate.new }
{
    // tells the prover that the concepts rise
    reader.concept_count();
    match plan {
        ConceptPlan::One(id) => {
            if let Some(concept) = reader.index_of(*id) {
                estimate.add(&[concept]);
            }
        }
        ConceptPlan::Walk(_, _) | ConceptPlan::Or(_) => {}
        _ => estimate.forget(),
    }
}

// Executes a `Units` node: returns the candidates whose number of groups among those that `units`
// means lies in `count`. If the candidates have few groups, it executes `units` for these groups
// only.
#[cycle(execute)]
fn execute_units<S: ConceptSet>(
    reader: Reader<'_>,
    count: Cardinality,
    units: &UnitPlan,
    candidates: &Candidates<'_, S>,
    visits: &mut Counter,
) -> Result<Answer<S>, AllocError>
    requires candidates { AreConcepts S.ConceptSet reader.snapshot.now.release reader.indexes.now
        candidates.now }
    ensures counted { CountsPlan reader.entry.indexes.now
        (physical_groups count (physical_groups_of units.now)) visits.old visits.new }
    ensures found { IfOk result (AnswersPlan S.ConceptSet reader.entry.snapshot.now.release
        reader.entry.indexes.now candidates.now
        (physical_groups count (physical_groups_of units.now)) visits.old visits.new) }
{
    // the concepts rise, so that each has its groups once
    reader.concept_count();
    if let Candidates::Within(wanted, stats) = candidates {
        let lengths = reader.lengths();
        let most = group_plan_size(units, lengths);
        if stats.has_few_groups(estimate_of_groups(units, lengths), most) {
            let own: Answer<S> = groups_of(reader, *wanted, visits)?;
            let theirs_stats = group_stats_of(reader, &own, u64::MAX, visits)?;
            let theirs = Candidates::Within(&own, theirs_stats);
            let groups: Answer<S> = execute_groups(reader, units, &theirs, visits)?;
            let found = found_by_groups(reader, count, &groups, candidates, visits)?;
            return Ok(found);
        }
    }
    let all = Candidates::All;
    let groups: Answer<S> = execute_groups(reader, units, &all, visits)?;
    let found = found_by_groups(reader, count, &groups, candidates, visits)?;
    Ok(found)
}

/// Executes the plan of a leaf's test, if it has one, and returns the test with the set that was
/// found. `typed` has the leaf's types; if there are none, no pair matches, and the plan is not
/// executed. If the test is `Within` a set and `estimate` asks for rows, adds the rows of that set,
/// or makes the estimate unknown.
#[cycle(execute)]
pub fn tested_of<S: ConceptSet>(
    reader: Reader<'_>,
    typed: &Answer<S>,
    test: &ValueTest,
    visits: &mut Counter,
    estimate: &mut RowEstimate<'_>,
) -> Result<Tested<S>, AllocError>
    ensures counted { CountsTest reader.entry.indexes.now (physical_test_of test.now) visits.old
        visits.new }
    ensures tested { IfOk result (AnswersTest S.ConceptSet reader.entry.snapshot.now.release
        reader.entry.indexes.now (S.items_of typed.now) (physical_test_of test.now) visits.old
        visits.new) }
    ensures adds { IfOk result (λ tested. Adds (set_items S.items_of tested) estimate.old
        estimate.new) }
{
    // tells the prover that the concepts rise
    reader.concept_count();
    match test {
        ValueTest::Within(operand) => {
            let set: Answer<S> = execute_operand(reader, typed, operand, visits, estimate)?;
            Ok(Tested::Within(set))
        }
        ValueTest::Outside(operand) => {
            estimate.forget();
            let set: Answer<S> = execute_operand(reader, typed, operand, visits, estimate)?;
            Ok(Tested::Outside(set))
        }
        ValueTest::Number(compare, number) => Ok(Tested::Number(*compare, *number)),
    }
}

// Executes the operand of a test for a leaf with the types `typed`. If there are none, it executes
// nothing, counts the floor of the operand, and returns no concept. If `estimate` asks for rows,
// adds the rows of what is found, or makes the estimate unknown.
#[cycle(execute)]
fn execute_operand<S: ConceptSet>(
    reader: Reader<'_>,
    typed: &Answer<S>,
    operand: &ConceptPlan,
    visits: &mut Counter,
    estimate: &mut RowEstimate<'_>,
) -> Result<Answer<S>, AllocError>
    ensures counted { CountsPlan reader.entry.indexes.now (physical_of operand.now) visits.old
        visits.new }
    ensures found { IfOk result (FindsOperand S.ConceptSet reader.entry.snapshot.now.release
        reader.entry.indexes.now (S.items_of typed.now) (physical_of operand.now) visits.old
        visits.new) }
    ensures adds { IfOk result (λ found. Adds (S.items_of found) estimate.old estimate.new) }
{
    let count = typed.count();
    if count == 0 {
        visits.add(plan_floor(operand, reader.lengths()));
        let none = no_concept(reader)?;
        return Ok(none);
    }
    let all = Candidates::All;
    let found: Answer<S> = execute_estimated(reader, operand, &all, visits, estimate)?;
    Ok(found)
}
