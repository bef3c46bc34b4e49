//! Chooses how to find the concepts that a hierarchy operator leads to.
ghost use Rattle.std.specs.Prelude.{◌≡◌, ◌≤◌, ◌<◌, ◌/◌, false, IfSome, length};
ghost use Rattle.std.specs.Bool.{OnTrue};
ghost use Rattle.number_lists.specs.Rising.{IsRisingBelow};
ghost use Rattle.postings.specs.Indexed.{Indexed};
ghost use Rattle.candidates.specs.Extents.{IsStatsOf};
ghost use Rattle.candidates.specs.Within.{HaveStats};
ghost use Rattle.walks.specs.Families.{all_items_of, family_of, items_in, lists_of};
ghost use Rattle.walks.specs.Related.{IsOver};
ghost use Rattle.walks.specs.Reads.{AreAsked, items_at_most, walk_items};
ghost use Rattle.walks.specs.inside.Counts.{HasRoom};

use crate::family::{Family, Step};
use crate::walks::{items_of_lists, items_of_pass, most_items};
use candidates::Candidates;
use constraint_tree::Operator;
use idset::ConceptSet;
use reading::Reader;

// For more concepts than this, the lengths of their lists are not added up: the total of all lists
// is taken instead.
const MANY: usize = 4096;

// For each candidate, finding the concepts from which an operator leads to it takes about as long
// as reading this many rows.
const ROWS: u64 = 16;

/// A way to find the concepts that an operator leads to. No answer depends on it.
#[derive(Clone, Copy, Debug)]
pub struct WalkPath {
    /// Whether the candidates are tested one by one, each by its own list.
    pub asks_candidates: bool,
    /// For `!!>` and `!!<` only. `Some(room)` tests the lists of parents or children first.
    /// Concepts that are still left are tested by their whole lists if these have at most `room`
    /// items, and by a pass over the is-a rows if they have more.
    pub direct_first: Option<u64>,
    /// About how many items are read, by the lengths of lists. Used to compare ways.
    items: u64,
}

/// Returns whether the candidates should be tested one by one without even listing the concepts
/// from which the operator starts: the candidates are few, and there are many `concepts`. Then the
/// candidates and the lists by which they are tested have at most as many items as all lists of the
/// family.
pub fn are_unlisted<S: ConceptSet>(
    reader: Reader<'_>,
    operator: Operator,
    concepts: u32,
    count: u32,
    candidates: &Candidates<'_, S>,
) -> bool
    requires { HaveStats S.items_of (IsStatsOf reader.indexes.now) candidates.now }
    ensures many { OnTrue result (1 < concepts) }
    ensures room { OnTrue result (AreAsked S.items_of reader.entry.indexes.now.hierarchy operator
        candidates.now (all_items_of reader.entry.indexes.now.hierarchy (family_of operator))) }
{
    let all = items_of_all_lists(reader, Step::of(operator).family);
    match items_asked(operator, count, candidates) {
        Some(items) => concepts as usize > MANY && items <= all,
        None => false,
    }
}

/// Returns whether the candidates are so few that it pays to first find, for all of them, the
/// concepts from which the operator leads to them. It pays if the candidates and the lists by which
/// they are tested are few compared with the `rows` rows that are read otherwise. They may then be
/// read three times.
pub fn are_enough<S: ConceptSet>(
    reader: Reader<'_>,
    operator: Operator,
    count: u32,
    rows: u64,
    candidates: &Candidates<'_, S>,
) -> bool
    requires { HaveStats S.items_of (IsStatsOf reader.indexes.now) candidates.now }
    ensures some { OnTrue result (0 < rows) }
    ensures room { OnTrue result (AreAsked S.items_of reader.entry.indexes.now.hierarchy operator
        candidates.now (all_items_of reader.entry.indexes.now.hierarchy (family_of operator) / 3)) }
{
    let all = items_of_all_lists(reader, Step::of(operator).family);
    let most = all.min(rows / ROWS);
    match items_asked(operator, count, candidates) {
        Some(items) => rows > 0 && items <= most / 3,
        None => false,
    }
}

/// Returns the way to find the concepts that `operator` leads to from `concepts`. The candidates
/// are tested one by one if they are few and their lists have at most as many items as the other
/// way reads. Looks up only the lengths of lists.
pub fn walk_path<S: ConceptSet>(
    reader: Reader<'_>,
    operator: Operator,
    concepts: &[u32],
    count: u32,
    candidates: &Candidates<'_, S>,
) -> WalkPath
    requires over { IsOver count reader.indexes.now.hierarchy }
    requires rising { IsRisingBelow count concepts.now }
    requires listed { HaveStats S.items_of (IsStatsOf reader.indexes.now) candidates.now }
    ensures asked { OnTrue result.asks_candidates
        (AreAsked S.items_of reader.entry.indexes.now.hierarchy operator candidates.now
        (walk_items reader.entry.indexes.now.hierarchy operator concepts.now)) }
    ensures room { IfSome result.direct_first
        (HasRoom reader.entry.indexes.now.hierarchy (family_of operator) count concepts.now) }
{
    let step = Step::of(operator);
    let whole = whole_path(reader, step, concepts, count);
    match items_asked(operator, count, candidates) {
        Some(items) if items <= whole.items => WalkPath {
            asks_candidates: true,
            direct_first: None,
            items,
        },
        _ => whole,
    }
}

// Returns how many items are read to test the candidates one by one, or `None` if they are not few.
fn items_asked<S: ConceptSet>(
    operator: Operator,
    count: u32,
    candidates: &Candidates<'_, S>,
) -> Option<u64>
    ensures { IfSome result (λ items. (indexed : Indexed)
        → HaveStats S.items_of (IsStatsOf indexed) candidates.now
        → AreAsked S.items_of indexed.hierarchy operator candidates.now items) }
{
    match candidates {
        Candidates::Within(_, stats) if stats.are_few_compared_to(count) => {
            let lists = Step::of(operator).asked().items_of(stats.lists);
            Some(stats.items.saturating_add(lists))
        }
        _ => None,
    }
}

// Returns the way to find what `step` leads to from `concepts` if the candidates are not used: by
// the lists of the concepts, or by a pass over the is-a rows.
fn whole_path(reader: Reader<'_>, step: Step, concepts: &[u32], count: u32) -> WalkPath
    requires over { IsOver count reader.indexes.now.hierarchy }
    requires rising { IsRisingBelow count concepts.now }
    ensures within { result.items ≤ items_at_most reader.entry.indexes.now.hierarchy step.family
        concepts.now }
    ensures room { IfSome result.direct_first
        (HasRoom reader.entry.indexes.now.hierarchy step.family count concepts.now) }
    ensures asks { result.asks_candidates ≡ false }
{
    let family = step.family;
    if step.is_apart() {
        return apart_path(reader, family, concepts, count);
    }
    let own = items_or_all(reader, family, concepts, count);
    if concepts.len() > MANY {
        return without_candidates(None, own);
    }
    without_candidates(None, with_pass(reader, family, concepts.len(), own, count))
}

// Returns the way for `!!>` and `!!<`. It tests the lists of parents or children first if the total
// of all lists allows for them and for what is read afterwards: the whole lists of the concepts
// that are left, or a pass over the is-a rows.
fn apart_path(reader: Reader<'_>, family: Family, concepts: &[u32], count: u32) -> WalkPath
    requires over { IsOver count reader.indexes.now.hierarchy }
    requires rising { IsRisingBelow count concepts.now }
    ensures within { result.items ≤ items_at_most reader.entry.indexes.now.hierarchy family
        concepts.now }
    ensures room { IfSome result.direct_first
        (HasRoom reader.entry.indexes.now.hierarchy family count concepts.now) }
    ensures asks { result.asks_candidates ≡ false }
{
    let all = items_of_all_lists(reader, family);
    let own = items_or_all(reader, family, concepts, count);
    let direct = items_or_all(reader, family.direct(), concepts, count);
    let pass = items_of_pass(reader, count);
    let room = all.saturating_sub(direct);
    if concepts.len() > 1 && own.min(pass) < room {
        without_candidates(Some(room), direct.saturating_add(own).min(all))
    } else {
        without_candidates(None, own)
    }
}

// Returns how many items the lists of `concepts` have, or the total of all lists if there are many
// concepts.
fn items_or_all(reader: Reader<'_>, family: Family, concepts: &[u32], count: u32) -> u64
    requires over { IsOver count reader.indexes.now.hierarchy }
    requires rising { IsRisingBelow count concepts.now }
    ensures within { result ≤ items_at_most reader.entry.indexes.now.hierarchy family concepts.now }
    ensures read { items_in (lists_of reader.entry.indexes.now.hierarchy family) concepts.now
        ≤ result }
{
    // also tells the prover that this total fits in 64 bits
    let all = items_of_all_lists(reader, family);
    if concepts.len() > MANY {
        return all;
    }
    items_of_lists(reader, family, concepts, count, u64::MAX)
}

// Returns how many items are read for `concepts` concepts whose lists have `own` items. If a pass
// over the is-a rows replaces the lists, these are the items read before it and those of the pass.
fn with_pass(reader: Reader<'_>, family: Family, concepts: usize, own: u64, count: u32) -> u64
    ensures few { concepts ≤ 1 → result ≡ own }
    ensures within { own ≤ all_items_of reader.entry.indexes.now.hierarchy family
        → result ≤ all_items_of reader.entry.indexes.now.hierarchy family }
{
    if !family.is_whole() || concepts <= 1 {
        return own;
    }
    match most_items(reader, count) {
        Some(most) if own > most => most.saturating_add(items_of_pass(reader, count)),
        _ => own,
    }
}

fn without_candidates(direct_first: Option<u64>, items: u64) -> WalkPath
    ensures items { result.items ≡ items }
    ensures direct { result.direct_first ≡ direct_first }
    ensures asks { result.asks_candidates ≡ false }
{
    WalkPath {
        asks_candidates: false,
        direct_first,
        items,
    }
}

/// Returns how many items all lists of `family` have.
pub fn items_of_all_lists(reader: Reader<'_>, family: Family) -> u64
    ensures { result ≡ all_items_of reader.entry.indexes.now.hierarchy family }
{
    if family.is_whole() {
        reader.ancestor_count() as u64
    } else {
        reader.link_count() as u64
    }
}
