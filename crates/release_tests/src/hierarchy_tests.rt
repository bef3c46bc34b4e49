//! Tests of the hierarchy of the sample release, and of releases that are made for a test.
ghost use Rattle.std.specs.Prelude.{◌≡◌};
ghost use Rattle.ancestor_index.specs.HierarchyLists.{hierarchy_of};

use crate::load_tests::{RELATIONSHIPS, chain_of, files_of, replaced, sample, sample_with};
use ancestor_index::AncestorIndex;
use release_files::NamedBytes;
use snapshot::{Limits, LoadFault, LoadSnapshot, Snapshot};
use std::alloc::{AllocError, Global};
use std::process::Abort;
use std::test::Fail;

// The ancestors, the descendants, the parents and the children of a concept, by their numbers.
type Around<'a> = [&'a [u32]; 4];

// For each concept of the sample release, the concepts around it. They have the numbers A 0, B 1, C
// 2, D 3, T 4, U 5, X 6, Y 7, Q 8 and Root 9.
const SAMPLE: [Around<'static>; 10] = [
    [&[9], &[1, 2, 3], &[9], &[1, 2]],
    [&[0, 9], &[3], &[0], &[3]],
    [&[0, 9], &[3], &[0], &[3]],
    [&[0, 1, 2, 9], &[], &[1, 2], &[]],
    [&[9], &[], &[9], &[]],
    [&[9], &[], &[9], &[]],
    [&[9], &[7], &[9], &[7]],
    [&[6, 9], &[], &[6], &[]],
    [&[9], &[], &[9], &[]],
    [&[], &[0, 1, 2, 3, 4, 5, 6, 7, 8], &[], &[0, 4, 5, 6, 8]],
];

// The number of concepts in the chain. Together they have 204,480 ancestors.
const CHAIN: u32 = 640;

// An is-a row that says again that D is a B. It is inserted before the last row.
const D_IS_B: &[u8] =
    b"122026\t20240101\t1\t900000000000207008\t103007\t101009\t0\t116680003\t900000000000011006\t900000000000451002\r\n121022\t";

// Whether the hierarchy lists exactly these concepts around `concept`.
fn is_around(snapshot: &Snapshot, index: &AncestorIndex, concept: u32, want: &Around<'_>) -> bool
    requires { index.now ≡ hierarchy_of snapshot.now.release }
{
    concept < snapshot.concept_count()
        && index.ancestors(concept) == want[0]
        && index.descendants(concept) == want[1]
        && index.parents(concept) == want[2]
        && index.children(concept) == want[3]
}

// Whether the hierarchy keeps the descendants of `concept` as words exactly if `is_wide`, and the
// words have the right bits.
fn has_words(snapshot: &Snapshot, index: &AncestorIndex, concept: u32, is_wide: bool) -> bool
    requires { index.now ≡ hierarchy_of snapshot.now.release }
{
    if concept >= snapshot.concept_count() {
        return false;
    }
    match index.descendant_words(concept) {
        Some(words) => {
            is_wide && are_words_of(words, index.descendants(concept), snapshot.concept_count())
        }
        None => !is_wide,
    }
}

// Whether, among the bits below `count`, exactly the bits of `numbers` are set.
fn are_words_of(words: &[u64], numbers: &[u32], count: u32) -> bool {
    (0..count).all(|number| is_set(words, number) == numbers.contains(&number))
}

// Whether the bit of `number` is set. Each word has 64 bits, and begins with the lowest.
fn is_set(words: &[u64], number: u32) -> bool {
    match words.get((number / 64) as usize) {
        Some(word) => (*word >> (number % 64)) & 1 == 1,
        None => false,
    }
}

// Whether `order` has each number below `count` exactly once, and each parent before its children.
pub fn is_parents_first(order: &[u32], count: u32, rows: &[(u32, u32)]) -> bool {
    order.len() == count as usize
        && (0..count).all(|concept| order.contains(&concept))
        && rows.iter().all(|(child, parent)| {
            let place = order.iter().position(|concept| concept == child);
            let before = order.iter().position(|concept| concept == parent);
            before < place
        })
}

// Checks the lists of each concept in the hierarchy. It keeps lists of more than a 32nd of all
// concepts as words.
fn assert_lists(rt: &impl Abort, snapshot: &Snapshot, index: &AncestorIndex, wants: &[Around<'_>])
    requires { index.now ≡ hierarchy_of snapshot.now.release }
{
    for (number, want) in (0u32..).zip(wants) {
        let is_wide = want[1].len() > wants.len() / 32;
        assert!(rt;
            is_around(snapshot, index, number, want) && has_words(snapshot, index, number, is_wide),
            "{number}"
        );
    }
}

// Builds the hierarchy of a release, and checks it.
fn assert_index(
    rt: &impl Abort,
    alloc: Global,
    snapshot: &Snapshot,
    wants: &[Around<'_>],
) -> Result<(), LoadFault> {
    match AncestorIndex::build(alloc, snapshot) {
        Ok(index) => {
            assert_lists_and_drop(rt, snapshot, index, wants);
            Ok(())
        }
        Err(AllocError) => Err(LoadFault::Memory),
    }
}

fn assert_lists_and_drop(
    rt: &impl Abort,
    snapshot: &Snapshot,
    index: AncestorIndex,
    wants: &[Around<'_>],
)
    requires { index ≡ hierarchy_of snapshot.now.release }
{
    assert_lists(rt, snapshot, &index, wants);
    drop(index);
}

// Checks that a release has `rows` is-a rows and `concepts` concepts, and an order with parents
// first.
fn assert_order(rt: &impl Abort, snapshot: &Snapshot, rows: usize, concepts: usize) {
    assert_eq!(rt; snapshot.isa_rows().len(), rows);
    assert_eq!(rt; snapshot.concept_count() as usize, concepts);
    assert!(rt;
        is_parents_first(
            snapshot.parents_first(),
            snapshot.concept_count(),
            snapshot.isa_rows(),
        )
    );
}

// Checks that files load as a release with `rows` is-a rows, and checks its hierarchy.
fn assert_hierarchy(
    rt: &impl Abort,
    alloc: Global,
    files: &[NamedBytes<'_>],
    rows: usize,
    wants: &[Around<'_>],
) -> Result<(), LoadFault> {
    match Snapshot::load(alloc, files, "en", Limits::standard()) {
        Ok(snapshot) => assert_order_and_index(rt, alloc, snapshot, rows, wants),
        Err(fault) => Err(fault),
    }
}

// Checks a release and its hierarchy, and drops the release. A function that owns a release and has
// several exits is slow to prove.
fn assert_order_and_index(
    rt: &impl Abort,
    alloc: Global,
    snapshot: Snapshot,
    rows: usize,
    wants: &[Around<'_>],
) -> Result<(), LoadFault> {
    assert_order(rt, &snapshot, rows, wants.len());
    let done = assert_index(rt, alloc, &snapshot, wants);
    drop(snapshot);
    done
}

#[test]
fn lists_the_sample_hierarchy(rt: HostRuntime) -> Result<(), LoadFault> {
    assert_hierarchy(&rt, rt.alloc(), &sample(), 10, &SAMPLE)
}

// An is-a row with the same child and parent as another row adds one to the count of rows, and
// changes no list.
#[test]
fn lists_a_repeated_row_once(rt: HostRuntime) -> Result<(), Fail> {
    let rows = sample()[RELATIONSHIPS].bytes;
    let changed = replaced(rt.alloc(), rows, b"121022\t", D_IS_B)?;
    let files = sample_with(rt.alloc(), RELATIONSHIPS, changed.as_slice())?;
    assert_hierarchy(&rt, rt.alloc(), files.as_slice(), 11, &SAMPLE)?;
    Ok(())
}

// In a chain, the ancestors of a concept are all concepts before it, and its descendants all
// concepts after it.
#[test]
fn lists_a_chain(rt: HostRuntime) -> Result<(), Fail> {
    let alloc = rt.alloc();
    let (concepts, rows) = chain_of(&rt, alloc, u64::from(CHAIN))?;
    let files = files_of(concepts.as_slice(), rows.as_slice());
    let numbers: Vec<u32> = (0..CHAIN).collect(alloc)?;
    let wants = arounds_in_a_chain(alloc, numbers.as_slice())?;
    assert_hierarchy(&rt, alloc, &files, 639, wants.as_slice())?;
    Ok(())
}

// Returns the concepts around each of `numbers`, which form a chain.
fn arounds_in_a_chain<'a>(
    alloc: Global,
    numbers: &'a [u32],
) -> Result<Vec<Around<'a>>, AllocError> {
    let mut arounds = Vec::new(alloc);
    for place in 0..numbers.len() {
        let (before, from) = numbers.split_at(place);
        let following = from.get(1..).unwrap_or(&[]);
        let parents = before.get(place.saturating_sub(1)..).unwrap_or(&[]);
        let children = following.get(..1).unwrap_or(&[]);
        arounds.push([before, following, parents, children])?;
    }
    Ok(arounds)
}
