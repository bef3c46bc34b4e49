//! Finds the candidates that a hierarchy operator leads to from a set, and counts what it reads.
ghost use Rattle.std.specs.Prelude.{◌≡◌, ◌≤◌, ◌<◌, ◌+◌, ◌∷◌, All, IfOk, filter, length};
ghost use Rattle.std.specs.List.{flat_map, range_with_len};
ghost use Rattle.number_lists.specs.KeyedLists.{list_of};
ghost use Rattle.idset.specs.Sets.{all_items};
ghost use Rattle.number_lists.specs.Members.{has};
ghost use Rattle.number_lists.specs.Rising.{numbers_where};
ghost use Rattle.walks.specs.Asked.{AreEnough, asked_lists};
ghost use Rattle.walks.specs.Related.{apart as apart_of, IsOf, IsOver, joined, related_to};
ghost use Rattle.walks.specs.inside.Joined.{opposite_of};
ghost use Rattle.walks.specs.inside.Steps.{asked_of, has_length, stepped};
ghost use Rattle.walks.specs.Families.{items_in, lists_of};
ghost use Rattle.reading.specs.Counted.{CountsWithin, IsFound};
ghost use Rattle.candidates.specs.Extents.{IsStatsOf};
ghost use Rattle.candidates.specs.RowEstimates.{Adds};
ghost use Rattle.candidates.specs.Within.{AreBelow, AreConcepts, HaveStats, may_be};
ghost use Rattle.walks.specs.Reads.{asked_items, walk_items};

use crate::family::{Family, Reach, Step};
use crate::walk_paths::{are_unlisted, walk_path};
use crate::walks::{meets, walk};
use candidates::{Candidates, RowEstimate, restricted};
use constraint_tree::Operator;
use idset::ConceptSet;
use reading::{Answer, Counter, Reader};
use std::alloc::AllocError;

/// Finds the candidates that `operator` leads to from the concepts in `from` (Expression Constraint
/// Language, "Simple Expression Constraints"), in the way that reads the fewest items.
///
/// Counts the items of `from`, if it reads them, and the items of the lists that it reads. If
/// `from` has one concept, these are at most the items of its list; if it has several, at most all
/// items of the operator's family. If `estimate` asks for rows, adds the rows of what is found if
/// this takes no extra reading, as from one concept; otherwise the estimate becomes unknown.
pub fn walk_within<S: ConceptSet>(
    reader: Reader<'_>,
    operator: Operator,
    from: &Answer<S>,
    candidates: &Candidates<'_, S>,
    visits: &mut Counter,
    estimate: &mut RowEstimate<'_>,
) -> Result<Answer<S>, AllocError>
    requires bound { S.bound_of from.now ≡ length reader.snapshot.now.release.concepts }
    requires candidates { AreConcepts S.ConceptSet reader.snapshot.now.release reader.indexes.now
        candidates.now }
    ensures counted { CountsWithin (length (S.items_of from.now)
        + walk_items reader.entry.indexes.now.hierarchy operator (S.items_of from.now)) visits.old
        visits.new }
    ensures found { IfOk result
        (IsFound S.ConceptSet (length reader.entry.snapshot.now.release.concepts)
        (filter (may_be S.items_of candidates.now)
        (related_to reader.entry.indexes.now.hierarchy (S.bound_of from.now) operator
        (S.items_of from.now))) 0 visits.old visits.new) }
    ensures adds { IfOk result (λ found. Adds (S.items_of found) estimate.old estimate.new) }
{
    if let Candidates::Within(wanted, _) = candidates {
        if are_unlisted(reader, operator, from.count(), from.bound(), candidates) {
            estimate.forget();
            let found = related_among(reader, operator, from, *wanted, visits)?;
            return Ok(found);
        }
    }
    if from.bound() > 1 && from.count() == from.bound() {
        estimate.forget();
        return walk_from_all(reader, operator, from, candidates);
    }
    walk_listed(reader, operator, from, candidates, visits, estimate)
}

// Walks from all concepts. An operator that leads to the concepts themselves as well leads to all.
// Any other leads to the concepts whose own list, by which they are tested, is not empty; `!!>` and
// `!!<` lead to those whose list is empty. Only lengths of lists are asked for.
fn walk_from_all<S: ConceptSet>(
    reader: Reader<'_>,
    operator: Operator,
    from: &Answer<S>,
    candidates: &Candidates<'_, S>,
) -> Result<Answer<S>, AllocError>
    requires over { IsOver (S.bound_of from.now) reader.indexes.now.hierarchy }
    requires candidates { AreBelow S.bound_of (S.bound_of from.now) candidates.now }
    requires all { length (S.items_of from.now) ≡ S.bound_of from.now }
    ensures items { IfOk result (λ found. S.items_of found
        ≡ filter (may_be S.items_of candidates.now)
        (related_to reader.entry.indexes.now.hierarchy (S.bound_of from.now) operator
        (S.items_of from.now))) }
    ensures bound { IfOk result (λ found. S.bound_of found ≡ S.bound_of from.now) }
{
    let step = Step::of(operator);
    if step.is_or_self() {
        return all_below(reader, from.bound(), candidates);
    }
    let kept = with_empty_list(reader, step.asked(), step.is_apart(), from.bound())?;
    let related = Answer::from_items(reader.alloc, kept.as_slice(), from.bound())?;
    let left = restricted(reader, related, candidates)?;
    Ok(left)
}

// Finds the concepts whose list in `family` is empty, or, if `empty` is false, those whose list has
// an item. No list is read.
fn with_empty_list(
    reader: Reader<'_>,
    family: Family,
    empty: bool,
    count: u32,
) -> Result<Vec<u32>, AllocError>
    requires { IsOver count reader.indexes.now.hierarchy }
    ensures { IfOk result (λ kept. kept.items ≡ numbers_where count
        (has_length (lists_of reader.entry.indexes.now.hierarchy family) empty)) }
{
    let mut kept = Vec::new(reader.alloc);
    for concept in 0..count {
        let is_empty = family.length(reader, concept) == 0;
        if is_empty == empty {
            kept.push(concept)?;
        }
    }
    Ok(kept)
}

// Returns the candidates among all numbers below `bound`.
fn all_below<S: ConceptSet>(
    reader: Reader<'_>,
    bound: u32,
    candidates: &Candidates<'_, S>,
) -> Result<Answer<S>, AllocError>
    requires { AreBelow S.bound_of bound candidates.now }
    ensures items { IfOk result (λ found. S.items_of found
        ≡ filter (may_be S.items_of candidates.now) (range_with_len 0 bound)) }
    ensures bound { IfOk result (λ found. S.bound_of found ≡ bound) }
{
    let all = Answer::every(reader.alloc, bound)?;
    restricted(reader, all, candidates)
}

// Finds the candidates that `operator` leads to from `from`, whose items it reads and counts.
fn walk_listed<S: ConceptSet>(
    reader: Reader<'_>,
    operator: Operator,
    from: &Answer<S>,
    candidates: &Candidates<'_, S>,
    visits: &mut Counter,
    estimate: &mut RowEstimate<'_>,
) -> Result<Answer<S>, AllocError>
    requires over { IsOf reader.snapshot.now.release (S.bound_of from.now)
        reader.indexes.now.hierarchy }
    requires candidates { AreBelow S.bound_of (S.bound_of from.now) candidates.now }
    requires listed { HaveStats S.items_of (IsStatsOf reader.indexes.now) candidates.now }
    ensures counted { CountsWithin (length (S.items_of from.now)
        + walk_items reader.entry.indexes.now.hierarchy operator (S.items_of from.now)) visits.old
        visits.new }
    ensures items { IfOk result (λ found. S.items_of found
        ≡ filter (may_be S.items_of candidates.now)
        (related_to reader.entry.indexes.now.hierarchy (S.bound_of from.now) operator
        (S.items_of from.now))) }
    ensures bound { IfOk result (λ found. S.bound_of found ≡ S.bound_of from.now) }
    ensures adds { IfOk result (λ found. Adds (S.items_of found) estimate.old estimate.new) }
{
    let concepts = from.items(reader.alloc, visits)?;
    let found = walk_by(
        reader,
        operator,
        from,
        concepts.as_slice(),
        candidates,
        visits,
        estimate,
    )?;
    Ok(found)
}

// Finds the candidates that `operator` leads to, in the way that reads the fewest items. `concepts`
// has the items of `from`, which the caller has read and counted.
fn walk_by<S: ConceptSet>(
    reader: Reader<'_>,
    operator: Operator,
    from: &Answer<S>,
    concepts: &[u32],
    candidates: &Candidates<'_, S>,
    visits: &mut Counter,
    estimate: &mut RowEstimate<'_>,
) -> Result<Answer<S>, AllocError>
    requires over { IsOf reader.snapshot.now.release (S.bound_of from.now)
        reader.indexes.now.hierarchy }
    requires concepts { concepts.now ≡ S.items_of from.now }
    requires candidates { AreBelow S.bound_of (S.bound_of from.now) candidates.now }
    requires listed { HaveStats S.items_of (IsStatsOf reader.indexes.now) candidates.now }
    ensures counted { CountsWithin (walk_items reader.entry.indexes.now.hierarchy operator
        (S.items_of from.now)) visits.old visits.new }
    ensures items { IfOk result (λ found. S.items_of found
        ≡ filter (may_be S.items_of candidates.now)
        (related_to reader.entry.indexes.now.hierarchy (S.bound_of from.now) operator
        (S.items_of from.now))) }
    ensures bound { IfOk result (λ found. S.bound_of found ≡ S.bound_of from.now) }
    ensures adds { IfOk result (λ found. Adds (S.items_of found) estimate.old estimate.new) }
{
    let path = walk_path(reader, operator, concepts, from.bound(), candidates);
    if path.asks_candidates {
        if let Candidates::Within(wanted, _) = candidates {
            estimate.forget();
            let found = related_among(reader, operator, from, *wanted, visits)?;
            return Ok(found);
        }
    }
    let step = Step::of(operator);
    let related = walk(
        reader,
        step,
        from,
        concepts,
        path.direct_first,
        visits,
        estimate,
    )?;
    let found = restricted(reader, related, candidates)?;
    Ok(found)
}

/// Finds the concepts in `wanted` that `operator` leads to from `operand`, by testing each with its
/// own list. Counts the concepts in `wanted` and the items of these lists.
pub fn related_among<S: ConceptSet>(
    reader: Reader<'_>,
    operator: Operator,
    operand: &Answer<S>,
    wanted: &Answer<S>,
    visits: &mut Counter,
) -> Result<Answer<S>, AllocError>
    requires over { IsOver (S.bound_of operand.now) reader.indexes.now.hierarchy }
    requires wanted { S.bound_of wanted.now ≡ S.bound_of operand.now }
    ensures counted { CountsWithin (asked_items reader.entry.indexes.now.hierarchy operator
        (S.items_of wanted.now)) visits.old visits.new }
    ensures items { IfOk result (λ found. S.items_of found
        ≡ filter (has (S.items_of wanted.now))
        (related_to reader.entry.indexes.now.hierarchy (S.bound_of operand.now) operator
        (S.items_of operand.now))) }
    ensures bound { IfOk result (λ found. S.bound_of found ≡ S.bound_of operand.now) }
{
    let step = Step::of(operator);
    let own = wanted.items(reader.alloc, visits)?;
    let kept = those_related_to(reader, step, operand, own.as_slice(), visits)?;
    Answer::from_items(reader.alloc, kept.as_slice(), operand.bound())
}

/// Finds a set of concepts that is enough to know of an operand to test which concepts in `wanted`
/// the operator leads to: `wanted` itself, and the lists by which its concepts are tested. Counts
/// the concepts in `wanted` and the items of these lists.
pub fn enough_for<S: ConceptSet>(
    reader: Reader<'_>,
    operator: Operator,
    wanted: &Answer<S>,
    visits: &mut Counter,
) -> Result<Answer<S>, AllocError>
    requires over { IsOver (S.bound_of wanted.now) reader.indexes.now.hierarchy }
    ensures counted { CountsWithin (asked_items reader.entry.indexes.now.hierarchy operator
        (S.items_of wanted.now)) visits.old visits.new }
    ensures few { IfOk result (λ enough. length (S.items_of enough)
        ≤ asked_items reader.entry.indexes.now.hierarchy operator (S.items_of wanted.now)) }
    ensures enough { IfOk result (λ enough. AreEnough
        (asked_lists reader.entry.indexes.now.hierarchy operator) (has (S.items_of wanted.now))
        (has (S.items_of enough))) }
    ensures bound { IfOk result (λ enough. S.bound_of enough ≡ S.bound_of wanted.now) }
{
    let family = Step::of(operator).asked();
    let own = wanted.items(reader.alloc, visits)?;
    let numbers = with_lists(reader, family, own.as_slice(), wanted.bound(), visits)?;
    Answer::from_numbers(reader.alloc, numbers.as_slice(), wanted.bound())
}

// Lists each of `concepts`, followed by its list in `family`, and counts the items of these lists.
// Only the proof needs `_count`.
fn with_lists(
    reader: Reader<'_>,
    family: Family,
    concepts: &[u32],
    _count: u32,
    visits: &mut Counter,
) -> Result<Vec<u32>, AllocError>
    requires over { IsOver _count reader.indexes.now.hierarchy }
    requires below { All (λ concept. concept < _count) concepts.now }
    ensures counted { CountsWithin (items_in (lists_of reader.entry.indexes.now.hierarchy family)
        concepts.now) visits.old visits.new }
    ensures items { IfOk result (λ numbers. numbers.items
        ≡ flat_map (λ concept. concept ∷ list_of
        (lists_of reader.entry.indexes.now.hierarchy family) concept) concepts.now) }
{
    let mut numbers = Vec::new(reader.alloc);
    for concept in concepts {
        numbers.push(*concept)?;
        numbers.extend_from_slice(family.list(reader, *concept, visits))?;
    }
    Ok(numbers)
}

// Returns those of `concepts` that `step` finds from `operand`. Counts the lists by which they are
// tested.
fn those_related_to<S: ConceptSet>(
    reader: Reader<'_>,
    step: Step,
    operand: &Answer<S>,
    concepts: &[u32],
    visits: &mut Counter,
) -> Result<Vec<u32>, AllocError>
    requires over { IsOver (S.bound_of operand.now) reader.indexes.now.hierarchy }
    requires below { All (λ concept. concept < S.bound_of operand.now) concepts.now }
    ensures counted { CountsWithin (items_in
        (lists_of reader.entry.indexes.now.hierarchy (asked_of step)) concepts.now) visits.old
        visits.new }
    ensures items { IfOk result (λ kept. kept.items
        ≡ filter (has (stepped (lists_of reader.entry.indexes.now.hierarchy step.family)
        (S.bound_of operand.now) step.reach (S.items_of operand.now))) concepts.now) }
{
    let mut kept = Vec::new(reader.alloc);
    for concept in concepts {
        if is_related_to(reader, step, operand, *concept, visits) {
            kept.push(*concept)?;
        }
    }
    Ok(kept)
}

// Returns whether `step` finds `concept` from `operand`. Counts the list by which it is tested.
fn is_related_to<S: ConceptSet>(
    reader: Reader<'_>,
    step: Step,
    operand: &Answer<S>,
    concept: u32,
    visits: &mut Counter,
) -> bool
    requires over { IsOver (S.bound_of operand.now) reader.indexes.now.hierarchy }
    requires below { concept < S.bound_of operand.now }
    ensures counted { CountsWithin (length
        (list_of (lists_of reader.entry.indexes.now.hierarchy (asked_of step)) concept)) visits.old
        visits.new }
    ensures related { result ≡ has (stepped
        (lists_of reader.entry.indexes.now.hierarchy step.family) (S.bound_of operand.now)
        step.reach (S.items_of operand.now)) concept }
{
    let family = step.family;
    match step.reach {
        Reach::Listed => is_listed(reader, family, operand, concept, visits),
        Reach::ListedOrSelf => is_listed_or_self(reader, family, operand, concept, visits),
        Reach::Apart => is_kept_apart(reader, family, operand, concept, visits),
    }
}

// Returns whether `concept` is in the list of a concept of `operand`: that is, whether its list in
// the opposite family contains a concept of `operand`.
fn is_listed<S: ConceptSet>(
    reader: Reader<'_>,
    family: Family,
    operand: &Answer<S>,
    concept: u32,
    visits: &mut Counter,
) -> bool
    requires over { IsOver (S.bound_of operand.now) reader.indexes.now.hierarchy }
    requires below { concept < S.bound_of operand.now }
    ensures counted { CountsWithin (length
        (list_of (lists_of reader.entry.indexes.now.hierarchy (opposite_of family)) concept))
        visits.old visits.new }
    ensures related { result ≡ has (joined (S.bound_of operand.now)
        (lists_of reader.entry.indexes.now.hierarchy family) (S.items_of operand.now)) concept }
{
    meets(family.opposite().list(reader, concept, visits), operand)
}

// Returns whether `concept` is in `operand`, or in the list of a concept of `operand`.
fn is_listed_or_self<S: ConceptSet>(
    reader: Reader<'_>,
    family: Family,
    operand: &Answer<S>,
    concept: u32,
    visits: &mut Counter,
) -> bool
    requires over { IsOver (S.bound_of operand.now) reader.indexes.now.hierarchy }
    requires below { concept < S.bound_of operand.now }
    ensures counted { CountsWithin (length
        (list_of (lists_of reader.entry.indexes.now.hierarchy (opposite_of family)) concept))
        visits.old visits.new }
    ensures related { result ≡ has (all_items (S.bound_of operand.now) (S.items_of operand.now)
        (joined (S.bound_of operand.now) (lists_of reader.entry.indexes.now.hierarchy family)
        (S.items_of operand.now))) concept }
{
    operand.has(concept) || is_listed(reader, family, operand, concept, visits)
}

// Returns whether `concept` is in `operand` and its own list contains no concept of `operand`.
fn is_kept_apart<S: ConceptSet>(
    reader: Reader<'_>,
    family: Family,
    operand: &Answer<S>,
    concept: u32,
    visits: &mut Counter,
) -> bool
    requires over { IsOver (S.bound_of operand.now) reader.indexes.now.hierarchy }
    requires below { concept < S.bound_of operand.now }
    ensures counted { CountsWithin (length
        (list_of (lists_of reader.entry.indexes.now.hierarchy family) concept)) visits.old
        visits.new }
    ensures related { result ≡ has (apart_of (lists_of reader.entry.indexes.now.hierarchy family)
        (S.items_of operand.now)) concept }
{
    operand.has(concept) && !meets(family.list(reader, concept, visits), operand)
}
