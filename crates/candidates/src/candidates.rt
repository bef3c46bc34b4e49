//! The candidates that a node must test, and their statistics.
ghost use Rattle.std.specs.Prelude.{ℕ, ◌≡◌, ◌≤◌, ◌<◌, ◌+◌, ◌*◌, All, Bool, false, true, filter, IfOk, List, length};
ghost use Rattle.std.specs.Prelude.{min};
ghost use Rattle.postings.specs.Groups.{all_groups, groups_in};
ghost use Rattle.postings.specs.Indexed.{Indexed};
ghost use Rattle.reading.specs.Counted.{CountsWithin, full};
ghost use Rattle.candidates.specs.Extents.{AreListed, IsStatsOf, IsGroupStatsOf, IsReadToTake};
ghost use Rattle.candidates.specs.Within.{AreBelow, AreConcepts, AreGroups, HaveStats, stats_told, may_be};

use idset::ConceptSet;
use reading::{Answer, Counter, Reader};
use std::alloc::AllocError;

// Testing one concept by its own list takes about as long as reading this many concepts.
const QUESTION: u64 = 32;

// Testing this many concepts by their own lists takes no longer than copying one list.
const FEW: u64 = 16;

// The rows of a set with more than `LISTED` concepts are counted only if the concepts are at most
// the other rows to read, divided by this. If they are more, it is faster to read the other rows.
const WIDE: u64 = 64;

// The rows of a set with more than `LISTED` groups are counted only if the groups are at most the
// other rows to read, divided by this. It is smaller than `WIDE`, because for a group only one
// count is looked up, for a concept several.
const WIDE_GROUPS: u64 = 16;

// The items in the hierarchy lists of the candidates are not counted if there are more candidates
// than this.
const LISTED: usize = 256;

/// The candidates of a node, which are concepts or groups, by number.
#[derive(Drop)]
pub enum Candidates<'a, S> {
    /// Every concept or group is a candidate.
    All,
    /// The numbers in a set are the candidates. The statistics describe this set.
    Within(&'a Answer<S>, CandidateStats),
}

/// Upper limits for a set of candidates, which are concepts or groups. They tell which way of
/// executing a node reads fewer items, and how many. No answer depends on them.
#[derive(Clone, Copy, Debug)]
pub struct CandidateStats {
    /// How many candidates there are at most.
    pub items: u64,
    /// How many attribute rows the candidates have at most: as sources if they are concepts, as
    /// members of the groups if they are groups.
    pub rows: u64,
    /// How many attribute rows have a candidate as their value at most.
    pub back_rows: u64,
    /// How many groups the candidates have at most.
    pub groups: u64,
    /// How many items the hierarchy lists of the candidates have at most.
    pub lists: ListStats,
}

/// Upper limits of how many items the hierarchy lists of a set of concepts have together.
#[derive(Clone, Copy, Debug)]
pub struct ListStats {
    /// Items in the lists of ancestors.
    pub ancestors: u64,
    /// Items in the lists of descendants.
    pub descendants: u64,
    /// Items in the lists of parents.
    pub parents: u64,
    /// Items in the lists of children.
    pub children: u64,
}

// Statistics that limit nothing, for lists that were not counted.
const UNLISTED: ListStats = ListStats {
    ancestors: u64::MAX,
    descendants: u64::MAX,
    parents: u64::MAX,
    children: u64::MAX,
};

impl CandidateStats {
    /// Returns these statistics for a node that reads attributes backwards: `rows` then counts the
    /// rows that have a candidate as their value.
    pub fn read_backwards(self) -> CandidateStats
        ensures { result ≡ record self { rows = self.back_rows } }
    {
        CandidateStats {
            rows: self.back_rows,
            ..self
        }
    }

    /// Returns how many items a node reads that goes through the candidates and all their rows.
    pub fn items_and_rows(self) -> u64
        ensures { result ≡ full (self.items + self.rows) }
    {
        self.items.saturating_add(self.rows)
    }

    /// Returns whether testing the candidates one by one is faster than copying a list or reading
    /// `concepts` concepts.
    pub fn are_few_compared_to(self, concepts: u32) -> bool {
        self.items <= FEW || self.items.saturating_mul(QUESTION) < u64::from(concepts)
    }

    /// Returns whether the candidates have fewer than `groups` groups, and looking up and reading
    /// these takes at most `most` visits. If not, it is faster to find `groups` groups without the
    /// candidates.
    pub fn has_few_groups(self, groups: u64, most: u64) -> bool
        ensures { result ≡ true → (found : ℕ) → found ≤ self.groups
            → full ((self.items + self.groups) + found) ≤ most }
    {
        self.groups < groups && self.items_of_groups(self.groups) <= most
    }

    /// Returns how many items are read to look up the groups of the candidates, and then to read
    /// `found` of these groups.
    pub fn items_of_groups(self, found: u64) -> u64
        ensures { result ≡ full ((self.items + self.groups) + found) }
    {
        self.items.saturating_add(self.groups).saturating_add(found)
    }
}

/// Returns whether there is no candidate.
pub fn none_left<S: ConceptSet>(candidates: &Candidates<'_, S>) -> bool
    ensures { result ≡ true → (number : ℕ) → may_be S.items_of candidates.now number ≡ false }
{
    match candidates {
        Candidates::All => false,
        Candidates::Within(set, _) => set.count() == 0,
    }
}

/// Returns the statistics of the candidates, or `None` if all concepts or groups are candidates. If
/// `back`, `rows` counts the rows that have a candidate as their value.
pub fn stats_for<S>(candidates: &Candidates<'_, S>, back: bool) -> Option<CandidateStats>
    ensures { result ≡ stats_told back candidates.now }
{
    match candidates {
        Candidates::All => None,
        Candidates::Within(_, stats) if back => Some(stats.read_backwards()),
        Candidates::Within(_, stats) => Some(*stats),
    }
}

/// Returns the numbers in `found` that are candidates.
pub fn restricted<S: ConceptSet>(
    reader: Reader<'_>,
    found: Answer<S>,
    candidates: &Candidates<'_, S>,
) -> Result<Answer<S>, AllocError>
    requires bound { AreBelow S.bound_of (S.bound_of found) candidates.now }
    ensures items { IfOk result (λ left. S.items_of left ≡ filter (may_be S.items_of candidates.now)
        (S.items_of found)) }
    ensures bound { IfOk result (λ left. S.bound_of left ≡ S.bound_of found) }
{
    match candidates {
        Candidates::All => Ok(found),
        Candidates::Within(set, _) => {
            let left = found.and(reader.alloc, *set)?;
            Ok(left)
        }
    }
}

/// Returns the statistics of the set `concepts`. `rows` is how many rows a node reads that does not
/// use them. The concepts' own rows are counted only if this is cheap: if there are at most
/// `LISTED` concepts, or few compared with `rows`. To count them visits each item of the set once;
/// no list is read.
pub fn stats_of<S: ConceptSet>(
    reader: Reader<'_>,
    concepts: &Answer<S>,
    rows: u64,
    visits: &mut Counter,
) -> Result<CandidateStats, AllocError>
    requires bound { S.bound_of concepts.now ≡ length reader.snapshot.now.release.concepts }
    ensures stats { IfOk result (IsStatsOf reader.entry.indexes.now (S.items_of concepts.now)) }
    ensures counted { CountsWithin (length (S.items_of concepts.now)) visits.old visits.new }
{
    let count = concepts.count();
    if are_many_compared_to(count, rows / WIDE) {
        return Ok(uncounted(count));
    }
    let own = concepts.items(reader.alloc, visits)?;
    Ok(stats_among(reader, own.as_slice()))
}

// Returns whether there are more than `LISTED` candidates, and more than `most`.
fn are_many_compared_to(candidates: u32, most: u64) -> bool {
    candidates as usize > LISTED && u64::from(candidates) > most
}

/// Returns the statistics of the set `groups`. `rows` is how many rows a node reads that does not
/// use them. The groups' own rows are counted only if this is cheap: if there are at most `LISTED`
/// groups, or few compared with `rows`. To count them visits each item of the set once.
pub fn group_stats_of<S: ConceptSet>(
    reader: Reader<'_>,
    groups: &Answer<S>,
    rows: u64,
    visits: &mut Counter,
) -> Result<CandidateStats, AllocError>
    requires bound { S.bound_of groups.now ≡ length (all_groups reader.snapshot.now.release) }
    ensures stats { IfOk result (IsGroupStatsOf reader.entry.indexes.now (S.items_of groups.now)) }
    ensures counted { CountsWithin (length (S.items_of groups.now)) visits.old visits.new }
{
    let count = groups.count();
    if are_many_compared_to(count, rows / WIDE_GROUPS) {
        return Ok(uncounted(count));
    }
    // This call tells the prover that the concepts rise, so that each concept has its groups once.
    reader.concept_count();
    let own = groups.items(reader.alloc, visits)?;
    Ok(group_stats_among(reader, own.as_slice()))
}

/// Returns the statistics of `concepts`, a set of candidates from which MINUS takes another set.
/// `sizes` has the sizes of the two parts of MINUS. If they allow reading the set three times, its
/// rows are counted. If not, the set is not read, and gets the limits of `candidates`.
pub fn stats_to_take<S: ConceptSet>(
    reader: Reader<'_>,
    candidates: &Candidates<'_, S>,
    concepts: &Answer<S>,
    sizes: (u64, u64),
    visits: &mut Counter,
) -> Result<CandidateStats, AllocError>
    requires bound { S.bound_of concepts.now ≡ length reader.snapshot.now.release.concepts }
    requires candidates { AreConcepts S.ConceptSet reader.snapshot.now.release reader.indexes.now
        candidates.now }
    requires among { All (λ number. may_be S.items_of candidates.now number ≡ true)
        (S.items_of concepts.now) }
    ensures stats { IfOk result (IsStatsOf reader.entry.indexes.now (S.items_of concepts.now)) }
    ensures counted { IsReadToTake (length (S.items_of concepts.now)) sizes visits.old visits.new }
{
    if may_be_read_thrice(concepts.count(), sizes) {
        stats_of(reader, concepts, u64::from(reader.row_count()), visits)
    } else {
        Ok(stats_left(candidates, concepts))
    }
}

/// Returns the statistics of `groups`, a set of candidates from which MINUS takes another set.
/// `sizes` has the sizes of the two parts of MINUS. If they allow reading the set three times, its
/// rows are counted. If not, the set is not read, and gets the limits of `candidates`.
pub fn group_stats_to_take<S: ConceptSet>(
    reader: Reader<'_>,
    candidates: &Candidates<'_, S>,
    groups: &Answer<S>,
    sizes: (u64, u64),
    visits: &mut Counter,
) -> Result<CandidateStats, AllocError>
    requires bound { S.bound_of groups.now ≡ length (all_groups reader.snapshot.now.release) }
    requires candidates { AreGroups S.ConceptSet reader.snapshot.now.release reader.indexes.now
        candidates.now }
    requires among { All (λ number. may_be S.items_of candidates.now number ≡ true)
        (S.items_of groups.now) }
    ensures stats { IfOk result (IsGroupStatsOf reader.entry.indexes.now (S.items_of groups.now)) }
    ensures counted { IsReadToTake (length (S.items_of groups.now)) sizes visits.old visits.new }
{
    if may_be_read_thrice(groups.count(), sizes) {
        group_stats_of(reader, groups, u64::from(reader.row_count()), visits)
    } else {
        Ok(stats_left(candidates, groups))
    }
}

// Returns whether three times `items` is at most the sum of `sizes`.
fn may_be_read_thrice(items: u32, sizes: (u64, u64)) -> bool
    ensures { result ≡ true → items * 3 ≤ sizes.0 + sizes.1 }
{
    items as u64 * 3 <= sizes.0.saturating_add(sizes.1)
}

// Returns the statistics of `left`, a set of candidates, without reading it: its count, and the
// limits of `candidates` for all else.
fn stats_left<S: ConceptSet>(candidates: &Candidates<'_, S>, left: &Answer<S>) -> CandidateStats
    requires { All (λ number. may_be S.items_of candidates.now number ≡ true)
        (S.items_of left.now) }
    ensures concepts { (indexed : Indexed) → HaveStats S.items_of (IsStatsOf indexed) candidates.now
        → IsStatsOf indexed (S.items_of left.now) result }
    ensures groups { (indexed : Indexed)
        → HaveStats S.items_of (IsGroupStatsOf indexed) candidates.now
        → IsGroupStatsOf indexed (S.items_of left.now) result }
{
    match candidates {
        Candidates::All => uncounted(left.count()),
        Candidates::Within(_, stats) => CandidateStats {
            items: left.count() as u64,
            ..*stats
        },
    }
}

// Returns the statistics of `items` candidates whose rows and lists are not counted: without
// limits.
fn uncounted(items: u32) -> CandidateStats
    ensures concepts { (indexed : Indexed) (concepts : List ℕ) → length concepts ≡ items
        → IsStatsOf indexed concepts result }
    ensures groups { (indexed : Indexed) (groups : List ℕ) → length groups ≡ items
        → IsGroupStatsOf indexed groups result }
{
    CandidateStats {
        items: u64::from(items),
        rows: u64::MAX,
        back_rows: u64::MAX,
        groups: u64::MAX,
        lists: UNLISTED,
    }
}

// Adds up the rows, groups and list items of `concepts`.
fn stats_among(reader: Reader<'_>, concepts: &[u32]) -> CandidateStats
    requires { All (λ concept. concept < length reader.indexes.now.concepts) concepts.now }
    ensures { IsStatsOf reader.entry.indexes.now concepts.now result }
{
    let mut rows = 0u64;
    let mut back_rows = 0u64;
    let mut groups = 0u64;
    for concept in concepts {
        let units = reader.units_of(*concept);
        rows = rows.saturating_add(reader.source_row_count(*concept));
        back_rows = back_rows.saturating_add(reader.value_row_count(*concept));
        groups = groups.saturating_add(u64::from(units.end.saturating_sub(units.start)));
    }
    CandidateStats {
        items: concepts.len() as u64,
        rows,
        back_rows,
        groups,
        lists: lists_among(reader, concepts),
    }
}

// Adds up the items in the hierarchy lists of `concepts`. Limits nothing if there are more than
// `LISTED` concepts.
fn lists_among(reader: Reader<'_>, concepts: &[u32]) -> ListStats
    requires { All (λ concept. concept < length reader.indexes.now.concepts) concepts.now }
    ensures { AreListed reader.entry.indexes.now.hierarchy concepts.now result }
{
    if concepts.len() > LISTED {
        return UNLISTED;
    }
    let mut lists = ListStats {
        ancestors: 0,
        descendants: 0,
        parents: 0,
        children: 0,
    };
    for concept in concepts {
        let ancestors = reader.ancestor_count_of(*concept);
        lists.ancestors = lists.ancestors.saturating_add(ancestors);
        let descendants = reader.descendant_count_of(*concept);
        lists.descendants = lists.descendants.saturating_add(descendants);
        let parents = reader.parent_count_of(*concept);
        lists.parents = lists.parents.saturating_add(parents);
        let children = reader.child_count_of(*concept);
        lists.children = lists.children.saturating_add(children);
    }
    lists
}

// Adds up the rows of `groups`.
fn group_stats_among(reader: Reader<'_>, groups: &[u32]) -> CandidateStats
    requires { All (λ group. group < length (groups_in reader.indexes.now)) groups.now }
    ensures { IsGroupStatsOf reader.entry.indexes.now groups.now result }
{
    let mut rows = 0u64;
    for group in groups {
        rows = rows.saturating_add(reader.row_count_of_group(*group));
    }
    let items = groups.len() as u64;
    CandidateStats {
        items,
        rows,
        back_rows: u64::MAX,
        groups: items,
        lists: UNLISTED,
    }
}
