//! Executes a plan of groups, from each node to its parts.
ghost use Rattle.std.specs.Prelude.{◌≡◌, ◌≤◌, ◌<◌, ◌+◌, ◌*◌, IfOk, length, min};
ghost use Rattle.postings.specs.Groups.{all_groups};
ghost use Rattle.set_algebra.specs.Physical.{physical_groups_and, physical_groups_minus, physical_groups_or};
ghost use Rattle.set_algebra.specs.Physical.{physical_groups_pairs, physical_of, physical_test_of, physical_groups_of};
ghost use Rattle.set_algebra.specs.Physical.{physical_groups_list_of};
ghost use Rattle.plan_bounds.specs.Bounds.{own_number};
ghost use Rattle.plan_bounds.specs.Nodes.{group_sum};
ghost use Rattle.plan_bounds.specs.Sizes.{group_size};
ghost use Rattle.candidates.specs.Within.{AreGroups};
ghost use Rattle.reading.specs.Counted.{CountsWithin};
ghost use Rattle.executor.specs.inside.Executed.{AnswersGroups, CountsGroups};
ghost use Rattle.executor.specs.inside.PartOrder.{IsOrderOf};

use crate::counting::leaf_limits_within;
use crate::estimates::{group_order, group_rows_at, place_at, rows_of_types};
use crate::nodes::{every_candidate_group, no_group};
use crate::plans::{execute_within, tested_of};
use crate::second_part::second_group_part;
use candidates::{Candidates, RowEstimate, group_stats_of, none_left};
use idset::ConceptSet;
use pair_sets::{LeafRequest, Tested, count_of_test, groups_with_pairs_within};
use plan_bounds::{LeafParts, group_plan_floor};
use reading::{Answer, Counter, Reader};
use set_algebra::UnitPlan;
use std::alloc::AllocError;

/// Returns the candidates among the groups that a plan means, as a set of their numbers whose bound
/// is the number of groups. They are at most as many as its size. Without a candidate it executes
/// nothing, and counts the floor of the plan.
#[cycle(execute)]
pub fn execute_groups<S: ConceptSet>(
    reader: Reader<'_>,
    plan: &UnitPlan,
    candidates: &Candidates<'_, S>,
    visits: &mut Counter,
) -> Result<Answer<S>, AllocError>
    requires candidates { AreGroups S.ConceptSet reader.snapshot.now.release reader.indexes.now
        candidates.now }
    ensures counted { CountsGroups reader.entry.indexes.now (physical_groups_of plan.now) visits.old
        visits.new }
    ensures found { IfOk result (AnswersGroups S.ConceptSet reader.entry.snapshot.now.release
        reader.entry.indexes.now candidates.now (physical_groups_of plan.now) visits.old
        visits.new) }
    ensures size { IfOk result (λ found. length (S.items_of found)
        ≤ group_size reader.entry.indexes.now (physical_groups_of plan.now)) }
{
    // the concepts rise, and the sources of all attribute rows are in force
    reader.concept_count();
    reader.attribute_count();
    if none_left(candidates) {
        visits.add(group_plan_floor(plan, reader.lengths()));
        let found = no_group(reader)?;
        return Ok(found);
    }
    let found = execute_group_node(reader, plan, candidates, visits)?;
    Ok(found)
}

// Executes one node of a plan of groups. The caller has ruled out an empty candidate set.
#[cycle(execute)]
#[tactic(auto, using(crate::proofs::Rules::node_parts))]
fn execute_group_node<S: ConceptSet>(
    reader: Reader<'_>,
    plan: &UnitPlan,
    candidates: &Candidates<'_, S>,
    visits: &mut Counter,
) -> Result<Answer<S>, AllocError>
    requires candidates { AreGroups S.ConceptSet reader.snapshot.now.release reader.indexes.now
        candidates.now }
    ensures counted { CountsGroups reader.entry.indexes.now (physical_groups_of plan.now) visits.old
        visits.new }
    ensures found { IfOk result (AnswersGroups S.ConceptSet reader.entry.snapshot.now.release
        reader.entry.indexes.now candidates.now (physical_groups_of plan.now) visits.old
        visits.new) }
{
    match plan {
        UnitPlan::Nothing => no_group(reader),
        UnitPlan::Every => every_candidate_group(reader, candidates),
        UnitPlan::And(parts) => { execute_group_and(reader, parts, candidates, visits) }
        UnitPlan::Or(parts) => { execute_group_or(reader, parts, candidates, visits) }
        UnitPlan::Minus(first, second) => execute_group_minus(
            reader, first, second, candidates, visits,
        ),
        UnitPlan::Pairs {
            count,
            types,
            test,
            choice,
        } => {
            let leaf = LeafParts {
                count: *count,
                types,
                test,
                choice: *choice,
            };
            groups_with_pairs(reader, leaf, candidates, visits)
        }
    }
}

// Executes a `Minus` node of groups: runs the first part for the candidates, then the second for
// what the first found. Returns what the first found and the second did not.
#[cycle(execute)]
fn execute_group_minus<S: ConceptSet>(
    reader: Reader<'_>,
    first: &UnitPlan,
    second: &UnitPlan,
    candidates: &Candidates<'_, S>,
    visits: &mut Counter,
) -> Result<Answer<S>, AllocError>
    requires candidates { AreGroups S.ConceptSet reader.snapshot.now.release reader.indexes.now
        candidates.now }
    ensures counted { CountsGroups reader.entry.indexes.now
        (physical_groups_minus (physical_groups_of first.now) (physical_groups_of second.now))
        visits.old visits.new }
    ensures found { IfOk result (AnswersGroups S.ConceptSet reader.entry.snapshot.now.release
        reader.entry.indexes.now candidates.now
        (physical_groups_minus (physical_groups_of first.now) (physical_groups_of second.now))
        visits.old visits.new) }
{
    let left: Answer<S> = execute_groups(reader, first, candidates, visits)?;
    let stats = second_group_part(reader, first, second, &left, candidates, visits)?;
    let still = Candidates::Within(&left, stats);
    let right: Answer<S> = execute_groups(reader, second, &still, visits)?;
    let groups = left.minus(reader.alloc, &right, visits)?;
    Ok(groups)
}

// Executes a leaf of groups: returns the candidates whose number of distinct pairs with a type and
// a value of the leaf lies in its cardinality.
#[cycle(execute)]
fn groups_with_pairs<S: ConceptSet>(
    reader: Reader<'_>,
    leaf: LeafParts<'_>,
    candidates: &Candidates<'_, S>,
    visits: &mut Counter,
) -> Result<Answer<S>, AllocError>
    requires candidates { AreGroups S.ConceptSet reader.snapshot.now.release reader.indexes.now
        candidates.now }
    ensures counted { CountsGroups reader.entry.indexes.now
        (physical_groups_pairs leaf.entry.count (physical_of leaf.entry.types.now)
        (physical_test_of leaf.entry.test.now) leaf.entry.choice) visits.old visits.new }
    ensures found { IfOk result (AnswersGroups S.ConceptSet reader.entry.snapshot.now.release
        reader.entry.indexes.now candidates.now
        (physical_groups_pairs leaf.entry.count (physical_of leaf.entry.types.now)
        (physical_test_of leaf.entry.test.now) leaf.entry.choice) visits.old visits.new) }
{
    // the concepts rise
    reader.concept_count();
    let all = Candidates::All;
    let typed: Answer<S> = execute_within(reader, leaf.types, &all, visits)?;
    let lengths = reader.lengths();
    let others = rows_of_types(leaf.types, lengths);
    let mut estimate = RowEstimate::of(reader, leaf.choice, false, others, candidates);
    let tested: Tested<S> = tested_of(reader, &typed, leaf.test, visits, &mut estimate)?;
    let groups = reader.group_count() as u64;
    let found = (typed.count(), count_of_test(&tested));
    let request = LeafRequest {
        count: leaf.count,
        choice: leaf.choice,
        limits: leaf_limits_within(lengths, groups, false, leaf, found),
        value_rows: estimate.rows(),
    };
    let found = groups_with_pairs_within(reader, request, &typed, tested, candidates, visits)?;
    Ok(found)
}

// Executes an `And` node of groups: returns the candidates that all parts mean; without parts, each
// candidate. It runs the parts by rising estimate.
#[cycle(execute)]
fn execute_group_and<S: ConceptSet>(
    reader: Reader<'_>,
    parts: &[UnitPlan],
    candidates: &Candidates<'_, S>,
    visits: &mut Counter,
) -> Result<Answer<S>, AllocError>
    requires candidates { AreGroups S.ConceptSet reader.snapshot.now.release reader.indexes.now
        candidates.now }
    ensures counted { CountsGroups reader.entry.indexes.now
        (physical_groups_and (physical_groups_list_of parts.now)) visits.old visits.new }
    ensures found { IfOk result (AnswersGroups S.ConceptSet reader.entry.snapshot.now.release
        reader.entry.indexes.now candidates.now
        (physical_groups_and (physical_groups_list_of parts.now)) visits.old visits.new) }
{
    let order = group_order(reader.alloc, parts, reader.lengths())?;
    let groups = execute_groups_in_order(reader, parts, &order, candidates, visits)?;
    Ok(groups)
}

// Executes the parts of an `And` node of groups in the given order: the first for the candidates,
// and each of the others for what is left.
#[cycle(execute)]
fn execute_groups_in_order<S: ConceptSet>(
    reader: Reader<'_>,
    parts: &[UnitPlan],
    order: &[(u64, usize)],
    candidates: &Candidates<'_, S>,
    visits: &mut Counter,
) -> Result<Answer<S>, AllocError>
    requires order { IsOrderOf (length parts.now) order.now }
    requires candidates { AreGroups S.ConceptSet reader.snapshot.now.release reader.indexes.now
        candidates.now }
    ensures counted { CountsGroups reader.entry.indexes.now
        (physical_groups_and (physical_groups_list_of parts.now)) visits.old visits.new }
    ensures found { IfOk result (AnswersGroups S.ConceptSet reader.entry.snapshot.now.release
        reader.entry.indexes.now candidates.now
        (physical_groups_and (physical_groups_list_of parts.now)) visits.old visits.new) }
{
    if order.is_empty() {
        let every = every_candidate_group(reader, candidates)?;
        return Ok(every);
    }
    let lengths = reader.lengths();
    let first = place_at(order, 0, parts.len());
    let mut groups: Answer<S> = execute_groups(reader, &parts[first], candidates, visits)?;
    let rows = group_rows_at(parts, order, 1, lengths);
    let mut stats = group_stats_of(reader, &groups, rows, visits)?;
    for turn in 1..order.len() {
        let place = place_at(order, turn, parts.len());
        let part = &parts[place];
        let still = Candidates::Within(&groups, stats);
        let next: Answer<S> = execute_groups(reader, part, &still, visits)?;
        let rows = group_rows_at(parts, order, turn + 1, lengths);
        stats = group_stats_of(reader, &next, rows, visits)?;
        groups = next;
    }
    Ok(groups)
}

// Executes an `Or` node of groups: returns the candidates that at least one part means; without
// parts, none.
#[cycle(execute)]
fn execute_group_or<S: ConceptSet>(
    reader: Reader<'_>,
    parts: &[UnitPlan],
    candidates: &Candidates<'_, S>,
    visits: &mut Counter,
) -> Result<Answer<S>, AllocError>
    requires candidates { AreGroups S.ConceptSet reader.snapshot.now.release reader.indexes.now
        candidates.now }
    ensures counted { CountsGroups reader.entry.indexes.now
        (physical_groups_or (physical_groups_list_of parts.now)) visits.old visits.new }
    ensures found { IfOk result (AnswersGroups S.ConceptSet reader.entry.snapshot.now.release
        reader.entry.indexes.now candidates.now
        (physical_groups_or (physical_groups_list_of parts.now)) visits.old visits.new) }
{
    // the concepts rise, and the sources of all attribute rows are in force
    reader.concept_count();
    reader.attribute_count();
    let mut groups: Answer<S> = no_group(reader)?;
    for part in parts {
        let next: Answer<S> = execute_groups(reader, part, candidates, visits)?;
        groups = groups.or(reader.alloc, &next, visits)?;
    }
    Ok(groups)
}
