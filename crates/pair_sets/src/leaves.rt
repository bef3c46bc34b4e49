//! Finds the concepts and the groups whose number of matching pairs lies in a cardinality: executes
//! one leaf of a plan.
ghost use Rattle.std.specs.Prelude.{ℕ, false, true, ◌≡◌, ◌≤◌, ◌+◌, Bool, IfOk, IfSome, None, filter, length};
ghost use Rattle.std.specs.List.{sum_by};
ghost use Rattle.postings.specs.Stats.{type_row_count};
ghost use Rattle.candidates.specs.RowCounts.{row_count_of};
ghost use Rattle.constraint_tree.specs.Denotation.{is_value};
ghost use Rattle.number_lists.specs.Rising.{IsRisingBelow};
ghost use Rattle.postings.specs.Groups.{all_groups};
ghost use Rattle.postings.specs.Indexed.{types_of};
ghost use Rattle.set_algebra.specs.Meaning.{has_pairs, pairs_of};
ghost use Rattle.candidates.specs.Numbers.{is_one_of, numbers_in};
ghost use Rattle.reading.specs.Counted.{CountsWithin, IsFound, full};
ghost use Rattle.pair_sets.specs.Room.{AreTold, leaf_items, type_items};
ghost use Rattle.pair_sets.specs.Sources.{is_source};
ghost use Rattle.pair_sets.specs.Tested.{IsTestBelow, passes_of};
ghost use Rattle.pair_sets.specs.inside.AccessPaths.{HasTypes, IsValuesPath, IsPathBelow, passes_by, rest_items, values_rest};
ghost use Rattle.candidates.specs.Within.{AreConcepts, AreGroups, stats_told, groups_within, may_be, numbers_within};

use crate::access_paths::{AccessPath, LeafReads, LeafRequest};
use crate::by_rows::{
    groups_with_pairs_among, groups_with_pairs_by_type, groups_with_pairs_by_value,
    with_pairs_among, with_pairs_by_type, with_pairs_by_value,
};
use crate::choice::{ValuesPath, leaf_path, rows_typed, values_path};
use crate::tested::Tested;
use crate::types::{types_in, types_to_read};
use candidates::{Candidates, restricted};
use constraint_tree::Cardinality;
use idset::ConceptSet;
use reading::{Answer, Counter, Reader};
use std::alloc::AllocError;

/// Finds the candidates whose number of distinct matching pairs, their own or those read backwards,
/// lies in the cardinality of the leaf (Expression Constraint Language, "Refinements",
/// "Cardinality" and "Reverse attributes"). A pair matches if `types` has its type and its value
/// passes `tested`.
///
/// Visits are counted within the bound of the leaf, which has room for its choice. If fewer items
/// are read than the floor of the leaf, the floor is counted.
pub fn with_pairs_within<S: ConceptSet>(
    reader: Reader<'_>,
    back: bool,
    leaf: LeafRequest,
    types: &Answer<S>,
    tested: Tested<S>,
    candidates: &Candidates<'_, S>,
    visits: &mut Counter,
) -> Result<Answer<S>, AllocError>
    requires bound { S.bound_of types.now ≡ length reader.indexes.now.concepts }
    requires limits { leaf.limits.floor ≤ leaf.limits.bound }
    requires room { full (leaf_items S.items_of reader.indexes.now back leaf.choice
        (S.items_of types.now) tested) ≤ leaf.limits.bound }
    requires tested { IsTestBelow S.bound_of (length reader.indexes.now.concepts) tested }
    requires told { AreTold S.items_of reader.indexes.now back tested leaf.value_rows }
    requires candidates { AreConcepts S.ConceptSet reader.snapshot.now.release reader.indexes.now
        candidates.now }
    ensures counted { CountsWithin leaf.limits.bound visits.old visits.new }
    ensures found { IfOk result
        (IsFound S.ConceptSet (length reader.entry.snapshot.now.release.concepts)
        (numbers_within reader.entry.snapshot.now.release (may_be S.items_of candidates.now)
        (λ concept. has_pairs leaf.count (is_one_of reader.entry.indexes.now.concepts
        (S.items_of types.now)) (passes_of S.items_of reader.entry.indexes.now.concepts tested)
        (pairs_of reader.entry.snapshot.now.release back concept))) leaf.limits.floor visits.old
        visits.new) }
{
    let reads = LeafReads {
        choice: leaf.choice,
        back,
        bound: leaf.limits.bound,
        value_rows: leaf.value_rows,
    };
    let since = visits.count();
    let path = leaf_path(reader, reads, types, tested, candidates, visits)?;
    let found = with_pairs_by(reader, &path, back, leaf.count, types, candidates, visits)?;
    visits.fill(since, leaf.limits.floor);
    Ok(found)
}

/// Finds the candidates among the groups whose number of distinct matching pairs lies in the
/// cardinality of the leaf (Expression Constraint Language, "Attribute groups" and "Cardinality").
/// A pair matches if `types` has its type and its value passes `tested`.
///
/// Visits are counted within the bound of the leaf, which has room for its choice. If fewer items
/// are read than the floor of the leaf, the floor is counted.
pub fn groups_with_pairs_within<S: ConceptSet>(
    reader: Reader<'_>,
    leaf: LeafRequest,
    types: &Answer<S>,
    tested: Tested<S>,
    candidates: &Candidates<'_, S>,
    visits: &mut Counter,
) -> Result<Answer<S>, AllocError>
    requires bound { S.bound_of types.now ≡ length reader.indexes.now.concepts }
    requires limits { leaf.limits.floor ≤ leaf.limits.bound }
    requires room { full (leaf_items S.items_of reader.indexes.now false leaf.choice
        (S.items_of types.now) tested) ≤ leaf.limits.bound }
    requires tested { IsTestBelow S.bound_of (length reader.indexes.now.concepts) tested }
    requires told { AreTold S.items_of reader.indexes.now false tested leaf.value_rows }
    requires candidates { AreGroups S.ConceptSet reader.snapshot.now.release reader.indexes.now
        candidates.now }
    ensures counted { CountsWithin leaf.limits.bound visits.old visits.new }
    ensures found { IfOk result (IsFound S.ConceptSet (length (all_groups
        reader.entry.snapshot.now.release)) (groups_within reader.entry.snapshot.now.release
        (may_be S.items_of candidates.now) (has_pairs leaf.count
        (is_one_of reader.entry.indexes.now.concepts (S.items_of types.now))
        (passes_of S.items_of reader.entry.indexes.now.concepts tested))) leaf.limits.floor
        visits.old visits.new) }
{
    let reads = LeafReads {
        choice: leaf.choice,
        back: false,
        bound: leaf.limits.bound,
        value_rows: leaf.value_rows,
    };
    let since = visits.count();
    let path = leaf_path(reader, reads, types, tested, candidates, visits)?;
    let found = groups_with_pairs_by(reader, &path, leaf.count, types, candidates, visits)?;
    visits.fill(since, leaf.limits.floor);
    Ok(found)
}

/// Finds the values of the attributes whose source is in `sources` and whose type is in `types`
/// (Expression Constraint Language, "Refinements", dotted attributes). It reads the rows of the
/// sources if there are no more sources than types, or if the sources have fewer rows than the
/// types. Visits are counted: no more than there are sources and rows.
pub fn values_along<S: ConceptSet>(
    reader: Reader<'_>,
    sources: Answer<S>,
    types: &Answer<S>,
    visits: &mut Counter,
) -> Result<Answer<S>, AllocError>
    requires sources { S.bound_of sources ≡ length reader.indexes.now.concepts }
    requires types { S.bound_of types.now ≡ length reader.indexes.now.concepts }
    ensures counted { CountsWithin (length (S.items_of sources)
        + length reader.entry.indexes.now.rows) visits.old visits.new }
    ensures found { IfOk result
        (IsFound S.ConceptSet (length reader.entry.snapshot.now.release.concepts)
        (numbers_in reader.entry.snapshot.now.release (is_value reader.entry.snapshot.now.release
        (is_one_of reader.entry.indexes.now.concepts (S.items_of sources))
        (is_one_of reader.entry.indexes.now.concepts (S.items_of types.now)))) 0 visits.old
        visits.new) }
{
    let path = values_path(reader, &sources, types, visits)?;
    let found = values_by(reader, path, sources, types, visits)?;
    Ok(found)
}

/// Finds the concepts that have an attribute whose type is in `types` and whose value is a concept:
/// the sources from which a dotted attribute leads to a value (Expression Constraint Language,
/// "Refinements", dotted attributes). It reads the types and their rows. If these are more than
/// `room` items, it reads none of them and returns `None`. So at most `room` concepts are found.
pub fn sources_within<S: ConceptSet>(
    reader: Reader<'_>,
    types: &Answer<S>,
    room: u64,
    visits: &mut Counter,
) -> Result<Option<Answer<S>>, AllocError>
    requires { S.bound_of types.now ≡ length reader.indexes.now.concepts }
    ensures counted { CountsWithin room visits.old visits.new }
    ensures none { IfOk result (λ some. some ≡ None → visits.new.count ≡ visits.old.count) }
    ensures found { IfOk result (λ some. IfSome some (IsFound S.ConceptSet
        (length reader.entry.snapshot.now.release.concepts)
        (numbers_in reader.entry.snapshot.now.release (is_source reader.entry.snapshot.now.release
        (is_one_of reader.entry.indexes.now.concepts (S.items_of types.now)))) 0 visits.old
        visits.new)) }
    ensures few { IfOk result (λ some. IfSome some (λ found. length (S.items_of found) ≤ room)) }
{
    // 64 bits hold how many types there are, and their rows. These calls tell the prover.
    reader.type_count();
    reader.row_count();
    let typed = types_to_read(reader, types);
    if typed > room || typed.saturating_add(rows_typed(reader, types)) > room {
        return Ok(None);
    }
    let found = sources_along(reader, types, visits)?;
    Ok(Some(found))
}

// Finds the concepts that have an attribute whose type is in `types` and whose value is a concept.
// There are no more of them than rows with such a type.
fn sources_along<S: ConceptSet>(
    reader: Reader<'_>,
    types: &Answer<S>,
    visits: &mut Counter,
) -> Result<Answer<S>, AllocError>
    requires { S.bound_of types.now ≡ length reader.indexes.now.concepts }
    ensures counted { CountsWithin (type_items reader.entry.indexes.now (S.items_of types.now))
        visits.old visits.new }
    ensures items { IfOk result (λ found. S.items_of found ≡ numbers_in
        reader.entry.snapshot.now.release (is_source reader.entry.snapshot.now.release
        (is_one_of reader.entry.indexes.now.concepts (S.items_of types.now)))) }
    ensures bound { IfOk result (λ found. S.bound_of found
        ≡ length reader.entry.snapshot.now.release.concepts) }
    ensures few { IfOk result (λ found. length (S.items_of found)
        ≤ sum_by (type_row_count reader.entry.indexes.now)
        (filter (is_one_of reader.entry.indexes.now.concepts (S.items_of types.now))
        (types_of reader.entry.indexes.now.rows))) }
{
    // the concepts rise
    let count = reader.concept_count();
    let some = Cardinality { min: 1, max: None };
    let ids = types_in(reader, types, visits)?;
    let none = Answer::from_items(reader.alloc, &[], count)?;
    let any = Tested::Outside(none);
    let found = with_pairs_by_type(reader, false, some, ids.as_slice(), &any, visits)?;
    Ok(found)
}

// Finds the values by the rows of the sources or of the types, as `path` says.
fn values_by<S: ConceptSet>(
    reader: Reader<'_>,
    path: ValuesPath,
    sources: Answer<S>,
    types: &Answer<S>,
    visits: &mut Counter,
) -> Result<Answer<S>, AllocError>
    requires sources { S.bound_of sources ≡ length reader.indexes.now.concepts }
    requires types { S.bound_of types.now ≡ length reader.indexes.now.concepts }
    requires path { IsValuesPath (types_of reader.indexes.now.rows) (S.items_of sources)
        (is_one_of reader.indexes.now.concepts (S.items_of types.now)) path }
    ensures items { IfOk result (λ found. S.items_of found ≡ numbers_in
        reader.entry.snapshot.now.release
        (is_value reader.entry.snapshot.now.release
        (is_one_of reader.entry.indexes.now.concepts (S.items_of sources))
        (is_one_of reader.entry.indexes.now.concepts (S.items_of types.now)))) }
    ensures bound { IfOk result (λ found. S.bound_of found
        ≡ length reader.entry.snapshot.now.release.concepts) }
    ensures counted { CountsWithin (values_rest reader.entry.indexes.now path) visits.old
        visits.new }
{
    match path {
        ValuesPath::BySource(own) => {
            let found = values_by_source(reader, own.as_slice(), types, visits)?;
            Ok(found)
        }
        ValuesPath::ByType(ids) => {
            let found = values_by_type(reader, sources, ids.as_slice(), visits)?;
            Ok(found)
        }
    }
}

// Finds the values by the rows of the types `ids`.
fn values_by_type<S: ConceptSet>(
    reader: Reader<'_>,
    sources: Answer<S>,
    ids: &[u64],
    visits: &mut Counter,
) -> Result<Answer<S>, AllocError>
    requires sources { S.bound_of sources ≡ length reader.indexes.now.concepts }
    ensures counted { CountsWithin (sum_by (type_row_count reader.entry.indexes.now) ids.now)
        visits.old visits.new }
    ensures items { IfOk result (λ found. (one : ℕ → Bool) → ids.now
        ≡ filter one (types_of reader.entry.indexes.now.rows) → S.items_of found
        ≡ numbers_in reader.entry.snapshot.now.release (is_value reader.entry.snapshot.now.release
        (is_one_of reader.entry.indexes.now.concepts (S.items_of sources)) one)) }
    ensures bound { IfOk result (λ found. S.bound_of found
        ≡ length reader.entry.snapshot.now.release.concepts) }
{
    let some = Cardinality { min: 1, max: None };
    let tested = Tested::Within(sources);
    with_pairs_by_type(reader, true, some, ids, &tested, visits)
}

// Finds the values by the rows of `sources`.
fn values_by_source<S: ConceptSet>(
    reader: Reader<'_>,
    sources: &[u32],
    types: &Answer<S>,
    visits: &mut Counter,
) -> Result<Answer<S>, AllocError>
    requires sources { IsRisingBelow (length reader.indexes.now.concepts) sources.now }
    requires types { S.bound_of types.now ≡ length reader.indexes.now.concepts }
    ensures counted { CountsWithin (sum_by (row_count_of reader.entry.indexes.now true) sources.now)
        visits.old visits.new }
    ensures items { IfOk result (λ found. S.items_of found ≡ numbers_in
        reader.entry.snapshot.now.release
        (is_value reader.entry.snapshot.now.release
        (is_one_of reader.entry.indexes.now.concepts sources.now)
        (is_one_of reader.entry.indexes.now.concepts (S.items_of types.now)))) }
    ensures bound { IfOk result (λ found. S.bound_of found
        ≡ length reader.entry.snapshot.now.release.concepts) }
{
    let some = Cardinality { min: 1, max: None };
    with_pairs_by_value(reader, true, some, types, sources, visits)
}

/// Finds the candidates whose number of distinct matching pairs, their own or those read backwards,
/// lies in `count`. A pair matches if `types` has its type and its value passes in the way `path`.
/// Each read is a counted visit.
pub fn with_pairs_by<S: ConceptSet>(
    reader: Reader<'_>,
    path: &AccessPath<S>,
    back: bool,
    count: Cardinality,
    types: &Answer<S>,
    candidates: &Candidates<'_, S>,
    visits: &mut Counter,
) -> Result<Answer<S>, AllocError>
    requires path { IsPathBelow S.bound_of (length reader.indexes.now.concepts) path.now }
    requires ids { HasTypes (types_of reader.indexes.now.rows)
        (is_one_of reader.indexes.now.concepts (S.items_of types.now)) path.now }
    requires types { S.bound_of types.now ≡ length reader.indexes.now.concepts }
    requires candidates { AreConcepts S.ConceptSet reader.snapshot.now.release reader.indexes.now
        candidates.now }
    ensures counted { CountsWithin (rest_items reader.entry.indexes.now back
        (stats_told back candidates.now) path.now) visits.old visits.new }
    ensures items { IfOk result (λ found. S.items_of found ≡ numbers_within
        reader.entry.snapshot.now.release (may_be S.items_of candidates.now)
        (λ concept. has_pairs count (is_one_of reader.entry.indexes.now.concepts
        (S.items_of types.now)) (passes_by S.items_of reader.entry.indexes.now.concepts path.now)
        (pairs_of reader.entry.snapshot.now.release back concept))) }
    ensures bound { IfOk result (λ found. S.bound_of found
        ≡ length reader.entry.snapshot.now.release.concepts) }
{
    match path {
        AccessPath::ByCandidates(tested) => {
            let found = with_pairs_among(reader, back, count, types, tested, candidates, visits)?;
            Ok(found)
        }
        AccessPath::ByValue(values) => {
            let some = with_pairs_by_value(reader, back, count, types, values, visits)?;
            let found = restricted(reader, some, candidates)?;
            Ok(found)
        }
        AccessPath::ByType(ids, tested) => {
            let some = with_pairs_by_type(reader, back, count, ids, tested, visits)?;
            let found = restricted(reader, some, candidates)?;
            Ok(found)
        }
        AccessPath::Scan(tested) => {
            let all = Candidates::All;
            let some: Answer<S> = with_pairs_among(
                reader, back, count, types, tested, &all, visits,
            )?;
            let found = restricted(reader, some, candidates)?;
            Ok(found)
        }
    }
}

/// Finds the candidates among the groups whose number of distinct matching pairs lies in `count`. A
/// pair matches if `types` has its type and its value passes in the way `path`. Each read is a
/// counted visit.
pub fn groups_with_pairs_by<S: ConceptSet>(
    reader: Reader<'_>,
    path: &AccessPath<S>,
    count: Cardinality,
    types: &Answer<S>,
    candidates: &Candidates<'_, S>,
    visits: &mut Counter,
) -> Result<Answer<S>, AllocError>
    requires path { IsPathBelow S.bound_of (length reader.indexes.now.concepts) path.now }
    requires ids { HasTypes (types_of reader.indexes.now.rows)
        (is_one_of reader.indexes.now.concepts (S.items_of types.now)) path.now }
    requires types { S.bound_of types.now ≡ length reader.indexes.now.concepts }
    requires candidates { AreGroups S.ConceptSet reader.snapshot.now.release reader.indexes.now
        candidates.now }
    ensures counted { CountsWithin (rest_items reader.entry.indexes.now false
        (stats_told false candidates.now) path.now) visits.old visits.new }
    ensures items { IfOk result (λ found. S.items_of found ≡ groups_within
        reader.entry.snapshot.now.release (may_be S.items_of candidates.now)
        (has_pairs count (is_one_of reader.entry.indexes.now.concepts (S.items_of types.now))
        (passes_by S.items_of reader.entry.indexes.now.concepts path.now))) }
    ensures bound { IfOk result (λ found. S.bound_of found
        ≡ length (all_groups reader.entry.snapshot.now.release)) }
{
    match path {
        AccessPath::ByCandidates(tested) => {
            let found = groups_with_pairs_among(reader, count, types, tested, candidates, visits)?;
            Ok(found)
        }
        AccessPath::ByValue(values) => {
            let some = groups_with_pairs_by_value(reader, count, types, values, visits)?;
            let found = restricted(reader, some, candidates)?;
            Ok(found)
        }
        AccessPath::ByType(ids, tested) => {
            let some = groups_with_pairs_by_type(reader, count, ids, tested, visits)?;
            let found = restricted(reader, some, candidates)?;
            Ok(found)
        }
        AccessPath::Scan(tested) => {
            let all = Candidates::All;
            let some: Answer<S> = groups_with_pairs_among(
                reader, count, types, tested, &all, visits,
            )?;
            let found = restricted(reader, some, candidates)?;
            Ok(found)
        }
    }
}
