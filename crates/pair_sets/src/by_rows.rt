//! Finds the concepts and the groups whose number of matching pairs lies in a cardinality, by one
//! kind of rows: those of values, those of types, or those of candidates.
ghost use Rattle.std.specs.Prelude.{ℕ, ◌≡◌, ◌<◌, All, Bool, IfOk, false, filter, length, not};
ghost use Rattle.std.specs.List.{sum_by};
ghost use Rattle.constraint_tree.specs.Passing.{is_within};
ghost use Rattle.number_lists.specs.Rising.{IsRisingBelow};
ghost use Rattle.number_lists.specs.Members.{has};
ghost use Rattle.postings.specs.Groups.{all_groups};
ghost use Rattle.postings.specs.Indexed.{types_of};
ghost use Rattle.set_algebra.specs.Meaning.{has_pairs, pairs_of};
ghost use Rattle.postings.specs.Stats.{type_row_count};
ghost use Rattle.reading.specs.Counted.{CountsWithin};
ghost use Rattle.candidates.specs.Extents.{group_row_count};
ghost use Rattle.candidates.specs.Groups.{groups_where};
ghost use Rattle.candidates.specs.RowCounts.{row_count_of};
ghost use Rattle.pair_sets.specs.Room.{candidate_items};
ghost use Rattle.pair_sets.specs.inside.AccessPaths.{AreListedFor, candidates_listed};
ghost use Rattle.candidates.specs.Numbers.{is_one_of, numbers_in};
ghost use Rattle.pair_sets.specs.Tested.{IsTestBelow, passes_of};
ghost use Rattle.candidates.specs.Within.{AreBelow, groups_within, may_be, numbers_within};

use crate::among::{concepts_among, groups_among};
use crate::counts::as_often;
use crate::hits::{group_hits_by_type, group_hits_by_value, hits_by_type, hits_by_value};
use crate::tested::Tested;
use candidates::Candidates;
use constraint_tree::Cardinality;
use idset::{ConceptSet, every_number};
use reading::{Answer, Counter, Reader};
use std::alloc::{AllocError, Global};

/// Finds the concepts whose number of distinct matching pairs lies in `count`, by reading the rows
/// of `values`. A pair matches if its type is in `types`, and its value in `values` or, if `back`,
/// its source. `values` must rise.
pub fn with_pairs_by_value<S: ConceptSet>(
    reader: Reader<'_>,
    back: bool,
    count: Cardinality,
    types: &Answer<S>,
    values: &[u32],
    visits: &mut Counter,
) -> Result<Answer<S>, AllocError>
    requires types { S.bound_of types.now ≡ length reader.indexes.now.concepts }
    requires values { IsRisingBelow (length reader.indexes.now.concepts) values.now }
    ensures counted { CountsWithin (sum_by (row_count_of reader.entry.indexes.now back) values.now)
        visits.old visits.new }
    ensures items { IfOk result (λ found. S.items_of found ≡ numbers_in
        reader.entry.snapshot.now.release (λ concept. has_pairs count (is_one_of
        reader.entry.indexes.now.concepts (S.items_of types.now))
        (is_within (is_one_of reader.entry.indexes.now.concepts values.now))
        (pairs_of reader.entry.snapshot.now.release back concept))) }
    ensures bound { IfOk result (λ found. S.bound_of found
        ≡ length reader.entry.snapshot.now.release.concepts) }
{
    // tells the prover that the source of each attribute row is in force
    reader.attribute_count();
    let hits = hits_by_value(reader, back, types, values, visits)?;
    as_often(reader.alloc, hits.as_slice(), reader.concept_count(), count)
}

/// Finds the concepts whose number of distinct matching pairs lies in `count`, by reading the rows
/// of the types `ids`. A pair matches if its type is among `ids`, and its value passes `tested` or,
/// if `back`, its source does.
pub fn with_pairs_by_type<S: ConceptSet>(
    reader: Reader<'_>,
    back: bool,
    count: Cardinality,
    ids: &[u64],
    tested: &Tested<S>,
    visits: &mut Counter,
) -> Result<Answer<S>, AllocError>
    requires tested { IsTestBelow S.bound_of (length reader.indexes.now.concepts) tested.now }
    ensures counted { CountsWithin (sum_by (type_row_count reader.entry.indexes.now) ids.now)
        visits.old visits.new }
    ensures items { IfOk result (λ found. (one : ℕ → Bool) → ids.now ≡ filter one
        (types_of reader.entry.indexes.now.rows) → S.items_of found ≡ numbers_in
        reader.entry.snapshot.now.release
        (λ concept. has_pairs count one (passes_of S.items_of reader.entry.indexes.now.concepts
        tested.now) (pairs_of reader.entry.snapshot.now.release back concept))) }
    ensures bound { IfOk result (λ found. S.bound_of found
        ≡ length reader.entry.snapshot.now.release.concepts) }
{
    // tells the prover that the source of each attribute row is in force
    reader.attribute_count();
    let hits = hits_by_type(reader, back, ids, tested, visits)?;
    as_often(reader.alloc, hits.as_slice(), reader.concept_count(), count)
}

/// Finds the candidates whose number of distinct matching pairs lies in `count`, by reading the
/// candidates' rows: all rows if every concept is a candidate. A pair matches if its type is in
/// `types`, and its value passes `tested` or, if `back`, its source does.
pub fn with_pairs_among<S: ConceptSet>(
    reader: Reader<'_>,
    back: bool,
    count: Cardinality,
    types: &Answer<S>,
    tested: &Tested<S>,
    candidates: &Candidates<'_, S>,
    visits: &mut Counter,
) -> Result<Answer<S>, AllocError>
    requires types { S.bound_of types.now ≡ length reader.indexes.now.concepts }
    requires tested { IsTestBelow S.bound_of (length reader.indexes.now.concepts) tested.now }
    requires candidates { AreBelow S.bound_of (length reader.snapshot.now.release.concepts)
        candidates.now }
    ensures counted { CountsWithin (candidate_items S.items_of reader.entry.indexes.now
        (row_count_of reader.entry.indexes.now (not back)) candidates.now) visits.old visits.new }
    ensures items { IfOk result (λ found. S.items_of found ≡ numbers_within
        reader.entry.snapshot.now.release (may_be S.items_of candidates.now)
        (λ concept. has_pairs count (is_one_of reader.entry.indexes.now.concepts
        (S.items_of types.now)) (passes_of S.items_of reader.entry.indexes.now.concepts tested.now)
        (pairs_of reader.entry.snapshot.now.release back concept))) }
    ensures bound { IfOk result (λ found. S.bound_of found
        ≡ length reader.entry.snapshot.now.release.concepts) }
{
    // tells the prover that the source of each attribute row is in force
    reader.attribute_count();
    let concept_count = reader.concept_count();
    let asked = numbers_asked(reader.alloc, concept_count, candidates, visits)?;
    let kept = concepts_among(reader, back, count, asked.as_slice(), types, tested, visits)?;
    Answer::from_numbers(reader.alloc, kept.as_slice(), concept_count)
}

/// Finds the groups whose number of distinct matching pairs lies in `count`, by reading the rows of
/// `values`. A pair matches if its type is in `types` and its value in `values`. `values` must
/// rise.
pub fn groups_with_pairs_by_value<S: ConceptSet>(
    reader: Reader<'_>,
    count: Cardinality,
    types: &Answer<S>,
    values: &[u32],
    visits: &mut Counter,
) -> Result<Answer<S>, AllocError>
    requires types { S.bound_of types.now ≡ length reader.indexes.now.concepts }
    requires values { IsRisingBelow (length reader.indexes.now.concepts) values.now }
    ensures counted { CountsWithin (sum_by (row_count_of reader.entry.indexes.now false) values.now)
        visits.old visits.new }
    ensures items { IfOk result (λ found. S.items_of found ≡ groups_where
        reader.entry.snapshot.now.release
        (has_pairs count (is_one_of reader.entry.indexes.now.concepts (S.items_of types.now))
        (is_within (is_one_of reader.entry.indexes.now.concepts values.now)))) }
    ensures bound { IfOk result (λ found. S.bound_of found
        ≡ length (all_groups reader.entry.snapshot.now.release)) }
{
    // tells the prover that the concepts rise
    reader.concept_count();
    let hits = group_hits_by_value(reader, types, values, visits)?;
    as_often(reader.alloc, hits.as_slice(), reader.group_count(), count)
}

/// Finds the groups whose number of distinct matching pairs lies in `count`, by reading the rows of
/// the types `ids`. A pair matches if its type is among `ids` and its value passes `tested`.
pub fn groups_with_pairs_by_type<S: ConceptSet>(
    reader: Reader<'_>,
    count: Cardinality,
    ids: &[u64],
    tested: &Tested<S>,
    visits: &mut Counter,
) -> Result<Answer<S>, AllocError>
    requires tested { IsTestBelow S.bound_of (length reader.indexes.now.concepts) tested.now }
    ensures counted { CountsWithin (sum_by (type_row_count reader.entry.indexes.now) ids.now)
        visits.old visits.new }
    ensures items { IfOk result (λ found. (one : ℕ → Bool) → ids.now
        ≡ filter one (types_of reader.entry.indexes.now.rows) → S.items_of found
        ≡ groups_where reader.entry.snapshot.now.release
        (has_pairs count one (passes_of S.items_of reader.entry.indexes.now.concepts tested.now))) }
    ensures bound { IfOk result (λ found. S.bound_of found
        ≡ length (all_groups reader.entry.snapshot.now.release)) }
{
    // tells the prover that the concepts rise
    reader.concept_count();
    let hits = group_hits_by_type(reader, ids, tested, visits)?;
    as_often(reader.alloc, hits.as_slice(), reader.group_count(), count)
}

/// Finds the candidate groups whose number of distinct matching pairs lies in `count`, by reading
/// the candidates' rows: all rows if every group is a candidate. A pair matches if its type is in
/// `types` and its value passes `tested`.
pub fn groups_with_pairs_among<S: ConceptSet>(
    reader: Reader<'_>,
    count: Cardinality,
    types: &Answer<S>,
    tested: &Tested<S>,
    candidates: &Candidates<'_, S>,
    visits: &mut Counter,
) -> Result<Answer<S>, AllocError>
    requires types { S.bound_of types.now ≡ length reader.indexes.now.concepts }
    requires tested { IsTestBelow S.bound_of (length reader.indexes.now.concepts) tested.now }
    requires candidates { AreBelow S.bound_of (length (all_groups reader.snapshot.now.release))
        candidates.now }
    ensures counted { CountsWithin (candidate_items S.items_of reader.entry.indexes.now
        (group_row_count reader.entry.indexes.now) candidates.now) visits.old visits.new }
    ensures items { IfOk result (λ found. S.items_of found ≡ groups_within
        reader.entry.snapshot.now.release (may_be S.items_of candidates.now)
        (has_pairs count (is_one_of reader.entry.indexes.now.concepts (S.items_of types.now))
        (passes_of S.items_of reader.entry.indexes.now.concepts tested.now))) }
    ensures bound { IfOk result (λ found. S.bound_of found
        ≡ length (all_groups reader.entry.snapshot.now.release)) }
{
    // tells the prover that the concepts rise
    reader.concept_count();
    let group_count = reader.group_count();
    let asked = numbers_asked(reader.alloc, group_count, candidates, visits)?;
    let kept = groups_among(reader, count, asked.as_slice(), types, tested, visits)?;
    Answer::from_numbers(reader.alloc, kept.as_slice(), group_count)
}

// Lists the candidates, all of which are below `bound`, and counts them. If every number is a
// candidate, lists all numbers below `bound`, and counts nothing.
fn numbers_asked<S: ConceptSet>(
    alloc: Global,
    bound: u32,
    candidates: &Candidates<'_, S>,
    visits: &mut Counter,
) -> Result<Vec<u32>, AllocError>
    requires { AreBelow S.bound_of bound candidates.now }
    ensures counted { CountsWithin (candidates_listed S.items_of candidates.now) visits.old
        visits.new }
    ensures rising { IfOk result (λ numbers. IsRisingBelow bound numbers.items) }
    ensures items { IfOk result (λ numbers. AreListedFor S.items_of candidates.now numbers.items) }
    ensures within { IfOk result (λ numbers. All (λ number. number < bound) numbers.items) }
    ensures asked { IfOk result (λ numbers. (number : ℕ) → number < bound
        → has numbers.items number ≡ may_be S.items_of candidates.now number) }
{
    match candidates {
        Candidates::All => {
            let numbers = every_number(alloc, bound)?;
            Ok(numbers)
        }
        Candidates::Within(set, _) => {
            let numbers = set.items(alloc, visits)?;
            Ok(numbers)
        }
    }
}
