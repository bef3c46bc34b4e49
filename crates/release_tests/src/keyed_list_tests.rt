//! Tests of lists by key, of orders with parents first, and of cycles, over the is-a rows of the
//! sample release and over a cycle of three concepts.
ghost use Rattle.std.specs.Prelude.{◌<◌, ◌^◌, length};
ghost use Rattle.hierarchy.specs.Hierarchy.{IsWithin};
ghost use Rattle.number_lists.specs.KeyedLists.{AreItemsBelow, AreKeysBelow, lists_by, transposed as transposed_of};

use crate::hierarchy_tests::is_parents_first;
use hierarchy::{least_cyclic, parents_first};
use number_lists::{KeyedLists, PushFault};
use std::alloc::{AllocError, Global};
use std::test::Fail;

// Pairs of a key and an item.
const PAIRS: [(u32, u32); 5] = [(2, 1), (0, 2), (2, 0), (0, 2), (3, 1)];

// The is-a rows of the sample release. The concepts have the numbers A 0, B 1, C 2, D 3, T 4, U 5,
// X 6, Y 7, Q 8 and Root 9.
const ROWS: [(u32, u32); 10] = [
    (0, 9),
    (1, 0),
    (2, 0),
    (3, 1),
    (3, 2),
    (4, 9),
    (5, 9),
    (6, 9),
    (7, 6),
    (8, 9),
];

// A cycle of three concepts, with one concept above and one below it.
const RING: [(u32, u32); 5] = [(1, 0), (1, 2), (2, 3), (3, 1), (4, 3)];

// Whether `lists` has exactly the lists `wants`, one for each key.
fn are_lists(lists: &KeyedLists, wants: &[&[u32]]) -> bool
    requires { length lists.now < 2 ^ 32 }
{
    lists.len() as usize == wants.len()
        && (0u32..)
            .zip(wants)
            .all(|(key, want)| key < lists.len() && lists.of(key) == *want)
}

// Whether the pairs give the lists `wants`, and the transposed lists `transposed`.
fn are_listed(
    alloc: Global,
    count: u32,
    pairs: &[(u32, u32)],
    wants: &[&[u32]],
    transposed: &[&[u32]],
) -> Result<bool, AllocError>
    requires keys { AreKeysBelow count pairs.now }
    requires few_pairs { length pairs.now < 2 ^ 32 }
    requires items { AreItemsBelow count (lists_by count pairs.now) }
    requires few { length (lists_by count pairs.now) < 2 ^ 32 }
    requires few_transposed { length (transposed_of count (lists_by count pairs.now)) < 2 ^ 32 }
{
    let lists = KeyedLists::from_pairs(alloc, count, pairs)?;
    let other = lists.transposed(alloc, count)?;
    Ok(are_lists(&lists, wants) && are_lists(&other, transposed))
}

#[test]
fn lists_pairs_by_key(rt: HostRuntime) -> Result<(), Fail> {
    let wants: [&[u32]; 4] = [&[2, 2], &[], &[1, 0], &[1]];
    let transposed: [&[u32]; 4] = [&[2], &[2, 3], &[0, 0], &[]];
    assert!(rt; are_listed(rt.alloc(), 4, &PAIRS, &wants, &transposed)?);
    Ok(())
}

// Returns lists to which three lists were pushed.
fn pushed(alloc: Global) -> Result<KeyedLists, PushFault> {
    let mut lists = KeyedLists::with_capacity(alloc, 3, 3)?;
    lists.push(&[5, 1])?;
    lists.push(&[])?;
    lists.push(&[7])?;
    Ok(lists)
}

// Whether the three pushed lists follow one another in memory.
fn are_pushed(alloc: Global) -> Result<bool, PushFault> {
    let lists = pushed(alloc)?;
    Ok(lists.flat() == [5, 1, 7].as_slice() && lists.item_count() == 3)
}

#[test]
fn pushes_lists(rt: HostRuntime) -> Result<(), Fail> {
    assert!(rt; are_pushed(rt.alloc()) == Ok(true));
    Ok(())
}

// Returns whether `rows` have an order with parents first, and the least concept that is its own
// ancestor.
fn ordered(
    alloc: Global,
    rows: &[(u32, u32)],
    count: u32,
) -> Result<(bool, Option<u32>), AllocError>
    requires within { IsWithin count rows.now }
    requires few { length rows.now < 2 ^ 32 }
{
    let has_order = match parents_first(alloc, rows, count)? {
        Some(order) => is_parents_first(order.as_slice(), count, rows),
        None => false,
    };
    Ok((has_order, least_cyclic(alloc, rows, count)?))
}

#[test]
fn puts_parents_first(rt: HostRuntime) -> Result<(), Fail> {
    assert!(rt; ordered(rt.alloc(), &ROWS, 10)? == (true, None));
    Ok(())
}

#[test]
fn finds_the_least_of_a_ring(rt: HostRuntime) -> Result<(), Fail> {
    assert!(rt; ordered(rt.alloc(), &RING, 5)? == (false, Some(1)));
    Ok(())
}
