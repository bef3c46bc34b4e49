//! Chooses the name row that names each concept.
ghost use Rattle.std.specs.Prelude.{◌≡◌, ◌<◌, ◌^◌, IfOk, IfSome, length, slice_index_or};
ghost use Rattle.held_release.specs.inside.FirstRows.{AreFirstPlaces, IsFirstOfTwo};
ghost use Rattle.held_release.specs.Name.{comes_before as comes_before_of};
ghost use Rattle.release_model.specs.Release.{Name};

use crate::concepts::Concepts;
use row_lists::Names;
use std::alloc::{AllocError, Global};

/// Returns for each of `concepts` the index in `names` of the row that names it, or `None` if no
/// row does. Of several rows of a concept, one in `language` is taken first, and then the one with
/// the least description identifier.
pub fn first_places(
    alloc: Global,
    names: &Names,
    concepts: &Concepts,
    language: &str,
) -> Result<Vec<Option<u32>>, AllocError>
    requires { length names.now < 2 ^ 32 }
    ensures { IfOk result (λ places. AreFirstPlaces language.now concepts.now names.now names.now
        places.items) }
{
    let mut places = vec![in alloc; None; concepts.len() as usize]?;
    for place in (0..names.len()).rev() {
        if let Some(number) = concepts.index_of(names.row(place).concept.number()) {
            let later = places[number as usize];
            let first = first_of_two(names, language, place as u32, later);
            places[number as usize] = Some(first);
        }
    }
    Ok(places)
}

// Returns the index of the row that comes first: the one at `place`, or the one at `later`, if
// there is one.
fn first_of_two(names: &Names, language: &str, place: u32, later: Option<u32>) -> u32
    requires place { place < length names.now }
    requires later { IfSome later (λ other. other < length names.now) }
    ensures { IsFirstOfTwo language.now names.now place later result }
{
    match later {
        Some(other) if comes_before(names, language, other as usize, place as usize) => { other }
        _ => place,
    }
}

// Whether the row at the index `one` comes before the row at `other`: it alone is in `language`, or
// both or neither are and its description identifier is less.
fn comes_before(names: &Names, language: &str, one: usize, other: usize) -> bool
    requires one { one < length names.now }
    requires other { other < length names.now }
    ensures { (default : Name)
        → result ≡ comes_before_of language.now (slice_index_or names.now one default)
        (slice_index_or names.now other default) }
{
    let one = names.row(one);
    let other = names.row(other);
    let one_is_in = one.language == language;
    let other_is_in = other.language == language;
    if one_is_in == other_is_in {
        one.id < other.id
    } else {
        one_is_in
    }
}
