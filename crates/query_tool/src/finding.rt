//! The result of a query line under a limit on visits.
ghost use Rattle.std.specs.Prelude.{◌≡◌, ◌+◌, ◌≤◌, ⊤, IfOk, length};
ghost use Rattle.constraint_tree.specs.Refusal.{IsConstraint, IsRefusalOf};
ghost use Rattle.constraint_tree.specs.Tree.{Tree, tree_of};
ghost use Rattle.postings.specs.Indexed.{IsIndexOf};
ghost use Rattle.query_tool.specs.inside.LineFound.{AreFound, IsAbove, MatchFound};

use crate::answering::found_by;
use crate::plans::least_plan;
use constraint_tree::Constraint;
use ecl_lexer::QueryFault;
use ecl_parser::parse;
use executor::Visits;
use idset::ConceptSet;
use planner::bound;
use postings::Indexes;
use snapshot::Snapshot;
use std::alloc::{AllocError, Global};

/// The result of a query line under a limit on the visits of its plan.
#[derive(Drop)]
pub enum LineFound<S> {
    /// The line is no constraint.
    Refused(QueryFault),
    /// The plan of the constraint may visit more items than the limit allows. The number is the
    /// plan's bound.
    Above(u64),
    /// The concepts that the constraint denotes, as a set of their numbers.
    Concepts(S),
}

/// Returns the result of a query line under a limit on visits. It takes the plan that also explains
/// the line. If the bound of this plan is above `limit`, it reads nothing. Otherwise it executes
/// the plan and adds the visits to `visits`. If memory is refused, it returns `AllocError`.
pub fn found_within<S: ConceptSet>(
    alloc: Global,
    snapshot: &Snapshot,
    indexes: &Indexes,
    line: &[u8],
    limit: u64,
    visits: &mut Visits,
) -> Result<LineFound<S>, AllocError>
    requires { IsIndexOf indexes.now snapshot.now.release }
    ensures found { IfOk result (λ found. MatchFound found (λ fault. IsRefusalOf line.now fault
        × (visits.new.count ≡ visits.old.count)) (λ most. (tree : Tree) × IsConstraint line.now tree
        × IsAbove limit snapshot.now indexes.now tree visits.old.count visits.new.count most)
        (λ set. (tree : Tree) × IsConstraint line.now tree
        × AreFound limit snapshot.now indexes.now tree visits.old.count visits.new.count
        (S.items_of set))) }
    ensures bound { IfOk result (λ found. MatchFound found (λ _. ⊤) (λ _. ⊤)
        (λ set. S.bound_of set ≡ length snapshot.now.release.concepts)) }
    ensures limit { visits.new.count ≤ visits.old.count + limit }
{
    match parse(alloc, line) {
        Ok(constraint) => found_and_drop(alloc, snapshot, indexes, constraint, limit, visits),
        Err(QueryFault::Memory) => Err(AllocError),
        Err(fault) => Ok(LineFound::Refused(fault)),
    }
}

// Returns the result of a constraint under a limit, and drops the constraint. It is dropped here,
// where there is one exit, so that a proof need not follow its lifetimes to each exit of a caller.
fn found_and_drop<S: ConceptSet>(
    alloc: Global,
    snapshot: &Snapshot,
    indexes: &Indexes,
    constraint: Constraint,
    limit: u64,
    visits: &mut Visits,
) -> Result<LineFound<S>, AllocError>
    requires { IsIndexOf indexes.now snapshot.now.release }
    ensures found { IfOk result (λ found. MatchFound found (λ _. ⊥) (λ most. IsAbove limit
        snapshot.now indexes.now (tree_of constraint) visits.old.count visits.new.count most)
        (λ set. AreFound limit snapshot.now indexes.now (tree_of constraint) visits.old.count
        visits.new.count (S.items_of set))) }
    ensures bound { IfOk result (λ found. MatchFound found (λ _. ⊤) (λ _. ⊤)
        (λ set. S.bound_of set ≡ length snapshot.now.release.concepts)) }
    ensures limit { visits.new.count ≤ visits.old.count + limit }
{
    let found = constraint_within(alloc, snapshot, indexes, &constraint, limit, visits);
    drop(constraint);
    found
}

// Returns the result of a constraint under a limit.
fn constraint_within<S: ConceptSet>(
    alloc: Global,
    snapshot: &Snapshot,
    indexes: &Indexes,
    constraint: &Constraint,
    limit: u64,
    visits: &mut Visits,
) -> Result<LineFound<S>, AllocError>
    requires { IsIndexOf indexes.now snapshot.now.release }
    ensures found { IfOk result (λ found. MatchFound found (λ _. ⊥) (λ most. IsAbove limit
        snapshot.now indexes.now (tree_of constraint.now) visits.old.count visits.new.count most)
        (λ set. AreFound limit snapshot.now indexes.now (tree_of constraint.now) visits.old.count
        visits.new.count (S.items_of set))) }
    ensures bound { IfOk result (λ found. MatchFound found (λ _. ⊤) (λ _. ⊤)
        (λ set. S.bound_of set ≡ length snapshot.now.release.concepts)) }
    ensures limit { visits.new.count ≤ visits.old.count + limit }
{
    let physical = least_plan(alloc, constraint, indexes)?;
    let most = bound(&physical, indexes);
    if most > limit {
        return Ok(LineFound::Above(most));
    }
    let found: S = found_by(alloc, &physical, snapshot, indexes, visits)?;
    Ok(LineFound::Concepts(found))
}
