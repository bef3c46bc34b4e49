//! Appending the text for a query line: its answer, or its explanation.
ghost use Rattle.std.specs.Prelude.{ℕ, ◌≡◌, ◌≢◌, ◌+◌, ◌-◌, ◌^◌, ◌<◌, ◌≤◌, ◌++◌, ⊤, List, IfOk, MatchOption};
ghost use Rattle.std.specs.Prelude.{OnErr, OnOk, length, map, min, slice_index};
ghost use Rattle.ecl_lexer.specs.declared.fault.QueryFault.{QueryFault};
ghost use Rattle.constraint_tree.specs.Denotation.{denotation, denotes};
ghost use Rattle.constraint_tree.specs.Refusal.{IsConstraint, IsRefusalOf};
ghost use Rattle.constraint_tree.specs.Tree.{Tree, tree_of};
ghost use Rattle.set_algebra.specs.Meaning.{means};
ghost use Rattle.set_algebra.specs.Physical.{physical_of};
ghost use Rattle.set_algebra.specs.Plan.{plan_of};
ghost use Rattle.postings.specs.Indexed.{IsIndexOf};
ghost use Rattle.answer_printer.specs.AnswerText.{refusal_text};
ghost use Rattle.query_service.specs.Answer.{IsAnswer, constraint_answer};
ghost use Rattle.plan_bounds.specs.Bounds.{bound as bound_of};
ghost use Rattle.plan_bounds.specs.Floors.{floor as floor_of};
ghost use Rattle.query_service.specs.Explanation.{Explains, IsExplanation};
ghost use Rattle.query_tool.specs.inside.AskedPlan.{ReadsAsked};
ghost use Rattle.query_tool.specs.inside.LineFound.{MatchFound, found_text};

use crate::finding::LineFound;
use crate::plans::{asked_plan, least_plan};
use answer_printer::{
    AnswerForm, print_answer, print_answer_in, print_bound, print_fault, print_plan,
};
use constraint_tree::Constraint;
use ecl_lexer::QueryFault;
use ecl_parser::parse;
use executor::{Visits, execute};
use idset::{ConceptSet, SortedSet};
use planner::{Choice, PhysicalPlan};
use postings::Indexes;
use rewrites::Step;
use snapshot::Snapshot;
use std::alloc::{AllocError, Global};

/// Appends the text for the result `found` of a query line, and drops `found`.
pub fn print_and_drop<S: ConceptSet>(
    alloc: Global,
    snapshot: &Snapshot,
    found: LineFound<S>,
    form: AnswerForm,
    output: &mut Vec<u8>,
) -> Result<(), AllocError>
    requires { MatchFound found (λ fault. fault ≢ QueryFault.Memory) (λ _. ⊤)
        (λ set. S.bound_of set ≡ length snapshot.now.release.concepts) }
    ensures ok { OnOk result (output.new.items ≡ output.old.items
        ++ found_text (λ set. S.items_of set) form snapshot.now found) }
    ensures err { OnErr result (output.new.items ≡ output.old.items) }
{
    let printed = print_found(alloc, snapshot, &found, form, output);
    drop(found);
    printed
}

// Appends the text for the result `found` of a query line: the refusal, the bound that is above the
// limit, or the answer in the form `form`.
fn print_found<S: ConceptSet>(
    alloc: Global,
    snapshot: &Snapshot,
    found: &LineFound<S>,
    form: AnswerForm,
    output: &mut Vec<u8>,
) -> Result<(), AllocError>
    requires { MatchFound found.now (λ fault. fault ≢ QueryFault.Memory) (λ _. ⊤)
        (λ set. S.bound_of set ≡ length snapshot.now.release.concepts) }
    ensures ok { OnOk result (output.new.items ≡ output.old.items
        ++ found_text (λ set. S.items_of set) form snapshot.now found.now) }
    ensures err { OnErr result (output.new.items ≡ output.old.items) }
{
    match found {
        LineFound::Refused(fault) => print_fault(alloc, *fault, output),
        LineFound::Above(most) => print_bound(alloc, *most, output),
        LineFound::Concepts(set) => print_answer_in(alloc, snapshot, set, form, output),
    }
}

/// Appends the answer to a query line. Its plan is rewritten by `steps`, and its leaves take
/// `choices`, if they offer them.
pub fn answer_over_with(
    alloc: Global,
    snapshot: &Snapshot,
    indexes: &Indexes,
    line: &[u8],
    steps: &[Step<'_>],
    choices: &[Choice],
    output: &mut Vec<u8>,
) -> Result<(), AllocError>
    requires { IsIndexOf indexes.now snapshot.now.release }
    ensures ok { OnOk result ((text : List ℕ) × IsAnswer snapshot.now line.now text
        × (output.new.items ≡ output.old.items ++ text)) }
    ensures err { OnErr result (output.new.items ≡ output.old.items) }
{
    match constraint_of(alloc, line, output)? {
        Some(constraint) => {
            answer_with(alloc, snapshot, indexes, constraint, steps, choices, output)
        }
        None => Ok(()),
    }
}

/// Appends the explanation of a query line.
pub fn explain_over(
    alloc: Global,
    snapshot: &Snapshot,
    indexes: &Indexes,
    line: &[u8],
    output: &mut Vec<u8>,
) -> Result<(), AllocError>
    requires { IsIndexOf indexes.now snapshot.now.release }
    ensures ok { OnOk result ((text : List ℕ) × IsExplanation snapshot.now line.now text
        × (output.new.items ≡ output.old.items ++ text)) }
    ensures err { OnErr result (output.new.items ≡ output.old.items) }
{
    match constraint_of(alloc, line, output)? {
        Some(constraint) => explain_constraint(alloc, snapshot, indexes, constraint, output),
        None => Ok(()),
    }
}

// Reads the constraint in a line. If the line is no constraint, it appends the line's refusal and
// returns `None`.
fn constraint_of(
    alloc: Global,
    line: &[u8],
    output: &mut Vec<u8>,
) -> Result<Option<Constraint>, AllocError>
    ensures ok { IfOk result (λ found. MatchOption found ((fault : QueryFault)
        × IsRefusalOf line.now fault × (output.new.items ≡ output.old.items ++ refusal_text fault))
        (λ constraint. IsConstraint line.now (tree_of constraint)
        × (output.new.items ≡ output.old.items))) }
    ensures err { OnErr result (output.new.items ≡ output.old.items) }
{
    match parse(alloc, line) {
        Ok(constraint) => Ok(Some(constraint)),
        Err(QueryFault::Memory) => Err(AllocError),
        Err(fault) => {
            print_fault(alloc, fault, output)?;
            Ok(None)
        }
    }
}

// Appends the answer to a constraint, executed by its plan after `steps`, with `choices`. The
// constraint is dropped here, where there is one exit, so that a proof need not follow its
// lifetimes to each exit of a caller.
fn answer_with(
    alloc: Global,
    snapshot: &Snapshot,
    indexes: &Indexes,
    constraint: Constraint,
    steps: &[Step<'_>],
    choices: &[Choice],
    output: &mut Vec<u8>,
) -> Result<(), AllocError>
    requires { IsIndexOf indexes.now snapshot.now.release }
    ensures ok { OnOk result (output.new.items ≡ output.old.items ++ constraint_answer snapshot.now
        (tree_of constraint)) }
    ensures err { OnErr result (output.new.items ≡ output.old.items) }
{
    let answered = answer_by_asked_plan(
        alloc,
        snapshot,
        indexes,
        &constraint,
        steps,
        choices,
        output,
    );
    drop(constraint);
    answered
}

// Appends the answer to a constraint, executed by its plan after `steps`, with `choices`.
fn answer_by_asked_plan(
    alloc: Global,
    snapshot: &Snapshot,
    indexes: &Indexes,
    constraint: &Constraint,
    steps: &[Step<'_>],
    choices: &[Choice],
    output: &mut Vec<u8>,
) -> Result<(), AllocError>
    requires { IsIndexOf indexes.now snapshot.now.release }
    ensures ok { OnOk result (output.new.items ≡ output.old.items ++ constraint_answer snapshot.now
        (tree_of constraint.now)) }
    ensures err { OnErr result (output.new.items ≡ output.old.items) }
{
    let mut visits = Visits { count: 0 };
    let found: SortedSet = asked_concepts(
        alloc,
        snapshot,
        indexes,
        constraint,
        steps,
        choices,
        &mut visits,
    )?;
    print_answer(alloc, snapshot, &found, output)
}

// Finds the concepts that a constraint denotes by executing its plan after `steps`, with `choices`.
// Unless memory is refused, the visits are between the floor and the bound of this plan.
fn asked_concepts<S: ConceptSet>(
    alloc: Global,
    snapshot: &Snapshot,
    indexes: &Indexes,
    constraint: &Constraint,
    steps: &[Step<'_>],
    choices: &[Choice],
    visits: &mut Visits,
) -> Result<S, AllocError>
    requires { IsIndexOf indexes.now snapshot.now.release }
    ensures concepts { IfOk result (λ found. map (slice_index snapshot.now.release.concepts)
        (S.items_of found) ≡ denotation snapshot.now.release (tree_of constraint.now)) }
    ensures bound { IfOk result (λ found. S.bound_of found ≡ length snapshot.now.release.concepts) }
    ensures reads { OnOk result (ReadsAsked indexes.now steps.now choices.now
        (tree_of constraint.now) visits.old visits.new) }
{
    let physical = asked_plan(alloc, constraint, steps, choices, indexes)?;
    // Called for its contract, which tells the prover that `choices` are those in the leaves of the
    // plan.
    physical.choices();
    let found: S = found_by(alloc, &physical, snapshot, indexes, visits)?;
    Ok(found)
}

/// Executes a plan and returns the concepts that it means. They are also the concepts that any
/// constraint with the same meaning denotes. The visits are at most the plan's bound and, unless
/// memory is refused, at least its floor.
pub fn found_by<S: ConceptSet>(
    alloc: Global,
    physical: &PhysicalPlan,
    snapshot: &Snapshot,
    indexes: &Indexes,
    visits: &mut Visits,
) -> Result<S, AllocError>
    requires { IsIndexOf indexes.now snapshot.now.release }
    ensures concepts { IfOk result (λ found. (tree : Tree) → ((concept : ℕ)
        → means snapshot.now.release (plan_of physical.now.plan) concept
        ≡ denotes snapshot.now.release tree concept)
        → map (slice_index snapshot.now.release.concepts) (S.items_of found)
        ≡ denotation snapshot.now.release tree) }
    ensures bound { IfOk result (λ found. S.bound_of found ≡ length snapshot.now.release.concepts) }
    ensures within { visits.new.count ≤ visits.old.count
        + bound_of indexes.now (physical_of physical.now.plan) }
    ensures fits { visits.new.count < 2 ^ 64 }
    ensures floor { OnOk result (min (visits.old.count
        + floor_of indexes.now (physical_of physical.now.plan)) (2 ^ 64 - 1) ≤ visits.new.count) }
{
    let executed: Result<S, AllocError> = execute(alloc, physical, snapshot, indexes, visits);
    // Read so that the prover knows that the count fits in 64 bits.
    let _count = visits.count;
    let found = executed?;
    Ok(found)
}

// Appends the explanation of a constraint, and drops the constraint.
fn explain_constraint(
    alloc: Global,
    snapshot: &Snapshot,
    indexes: &Indexes,
    constraint: Constraint,
    output: &mut Vec<u8>,
) -> Result<(), AllocError>
    requires { IsIndexOf indexes.now snapshot.now.release }
    ensures ok { OnOk result ((text : List ℕ) × Explains snapshot.now (tree_of constraint) text
        × (output.new.items ≡ output.old.items ++ text)) }
    ensures err { OnErr result (output.new.items ≡ output.old.items) }
{
    let explained = explain_least_plan(alloc, snapshot, indexes, &constraint, output);
    drop(constraint);
    explained
}

// Appends the text of the plan with which a constraint is answered.
fn explain_least_plan(
    alloc: Global,
    snapshot: &Snapshot,
    indexes: &Indexes,
    constraint: &Constraint,
    output: &mut Vec<u8>,
) -> Result<(), AllocError>
    requires { IsIndexOf indexes.now snapshot.now.release }
    ensures ok { OnOk result ((text : List ℕ) × Explains snapshot.now (tree_of constraint.now) text
        × (output.new.items ≡ output.old.items ++ text)) }
    ensures err { OnErr result (output.new.items ≡ output.old.items) }
{
    let physical = least_plan(alloc, constraint, indexes)?;
    print_plan(alloc, &physical, indexes, output)
}
