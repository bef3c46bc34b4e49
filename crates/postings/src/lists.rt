//! Lists of rows by key, and columns in the order of such lists.
ghost use Rattle.std.specs.Prelude.{ℕ, ◌≡◌, ◌<◌, ◌^◌, All, Contains, IfOk, Some, length, slice_get, slice_index, vec_len};
ghost use Rattle.postings.specs.inside.Cells.{IsColumn};
ghost use Rattle.postings.specs.inside.KeyedPlaces.{keyed_places};
ghost use Rattle.postings.specs.Places.{places_by};

use number_lists::KeyedLists;
use std::alloc::{AllocError, Global};

/// Lists, for each key below `count`, the places in `keys` that have this key, in rising order.
/// Other keys are left out.
pub fn places_by_key(alloc: Global, count: u32, keys: &[u32]) -> Result<KeyedLists, AllocError>
    requires { length keys.now < 2 ^ 32 }
    ensures { IfOk result (λ lists. lists ≡ places_by count keys.now) }
{
    let pairs = key_places(alloc, count, keys)?;
    KeyedLists::from_pairs(alloc, count, pairs.as_slice())
}

// Lists the pairs of a key below `count` and a place in `keys` that has it, by rising place.
fn key_places(alloc: Global, count: u32, keys: &[u32]) -> Result<Vec<(u32, u32)>, AllocError>
    requires { length keys.now < 2 ^ 32 }
    ensures { IfOk result (λ pairs. pairs.items ≡ keyed_places count 0 keys.now) }
{
    let mut pairs = Vec::with_capacity(alloc, keys.len())?;
    for (place, key) in keys.iter().enumerate() {
        if *key < count {
            pairs.push((*key, place as u32))?;
        }
    }
    Ok(pairs)
}

/// Copies the cell at each of `places`, in the order of `places`.
pub fn column<T: Copy>(alloc: Global, cells: &[T], places: &[u32]) -> Result<Vec<T>, AllocError>
    requires { All (λ place. place < length cells.now) places.now }
    ensures { IfOk result (λ column. IsColumn cells.now places.now column.items) }
{
    let mut column = Vec::with_capacity(alloc, places.len())?;
    for place in places {
        column.push(cells[*place as usize])?;
    }
    Ok(column)
}

/// Inverts `numbers`, which has each number below `count`: returns for each number a place at which
/// `numbers` has it.
pub fn places_among(alloc: Global, count: usize, numbers: &[u32]) -> Result<Vec<u32>, AllocError>
    requires few { length numbers.now < 2 ^ 32 }
    requires within { All (λ number. number < count) numbers.now }
    requires all { (number : ℕ) → number < count → Contains numbers.now number }
    ensures len { IfOk result (λ places. vec_len places ≡ count) }
    ensures found { IfOk result (λ places. (number : ℕ) → number < count
        → slice_get numbers.now (slice_index places.items number) ≡ Some number) }
{
    let mut places = vec![in alloc; 0u32; count]?;
    for (place, number) in numbers.iter().enumerate() {
        places[*number as usize] = place as u32;
    }
    Ok(places)
}
