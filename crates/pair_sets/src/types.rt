//! Finds which types of attribute rows are in a set of concepts.
ghost use Rattle.std.specs.Prelude.{ℕ, ◌≡◌, ◌<◌, All, Bool, IfOk, filter, length, slice_index};
ghost use Rattle.idset.specs.Words.{is_set};
ghost use Rattle.postings.specs.Indexed.{types_of};
ghost use Rattle.pair_sets.specs.inside.Hits.{ArePlacesOf, is_type_in};
ghost use Rattle.candidates.specs.Numbers.{is_one_of};
ghost use Rattle.pair_sets.specs.Room.{types_read};
ghost use Rattle.reading.specs.Counted.{HandsOut};

use idset::{ConceptSet, bitmap_of, is_marked};
use reading::{Answer, Counter, Reader};
use std::alloc::AllocError;

/// Returns the identifiers of the types of rows that are in `set`, each once. Reads and counts the
/// items of `set`, or the types of all rows if these are fewer.
pub fn types_in<S: ConceptSet>(
    reader: Reader<'_>,
    set: &Answer<S>,
    visits: &mut Counter,
) -> Result<Vec<u64>, AllocError>
    requires bound { S.bound_of set.now ≡ length reader.indexes.now.concepts }
    ensures ids { IfOk result (λ ids. ids.items
        ≡ filter (is_one_of reader.entry.indexes.now.concepts (S.items_of set.now))
        (types_of reader.entry.indexes.now.rows)) }
    ensures counted { HandsOut (types_read reader.entry.indexes.now (S.items_of set.now)) visits.old
        visits.new }
{
    let numbers = places_in(reader, set, visits)?;
    let places = bitmap_of(reader.alloc, numbers.as_slice(), reader.type_count())?;
    let ids = marked_ids(reader, &places)?;
    Ok(ids)
}

/// Returns how many items `types_in` reads.
pub fn types_to_read<S: ConceptSet>(reader: Reader<'_>, set: &Answer<S>) -> u64
    ensures { result ≡ types_read reader.entry.indexes.now (S.items_of set.now) }
{
    u64::from(set.count().min(reader.type_count()))
}

// Finds the places of the types that are in `set`. Reads the items of `set` or the types of all
// rows, whichever are fewer.
fn places_in<S: ConceptSet>(
    reader: Reader<'_>,
    set: &Answer<S>,
    visits: &mut Counter,
) -> Result<Vec<u32>, AllocError>
    requires bound { S.bound_of set.now ≡ length reader.indexes.now.concepts }
    ensures places { IfOk result (λ places. ArePlacesOf reader.entry.indexes.now
        (S.items_of set.now) places.items) }
    ensures counted { HandsOut (types_read reader.entry.indexes.now (S.items_of set.now)) visits.old
        visits.new }
{
    if set.count() < reader.type_count() {
        let concepts = set.items(reader.alloc, visits)?;
        places_of_concepts(reader, concepts.as_slice())
    } else {
        places_of_types(reader, set, visits)
    }
}

// Finds the places of those of `concepts` that are types of rows.
fn places_of_concepts(reader: Reader<'_>, concepts: &[u32]) -> Result<Vec<u32>, AllocError>
    requires below { All (λ concept. concept < length reader.indexes.now.concepts) concepts.now }
    ensures { IfOk result (λ places. ArePlacesOf reader.entry.indexes.now concepts.now
        places.items) }
{
    let mut places = Vec::new(reader.alloc);
    for concept in concepts {
        match reader.type_place(reader.id_at(*concept).number()) {
            Some(place) => places.push(place)?,
            None => {}
        }
    }
    Ok(places)
}

// Finds the places of the types that are in `set`, by testing all types of rows.
fn places_of_types<S: ConceptSet>(
    reader: Reader<'_>,
    set: &Answer<S>,
    visits: &mut Counter,
) -> Result<Vec<u32>, AllocError>
    requires { S.bound_of set.now ≡ length reader.indexes.now.concepts }
    ensures places { IfOk result (λ places. ArePlacesOf reader.entry.indexes.now
        (S.items_of set.now) places.items) }
    ensures counted { HandsOut (length (types_of reader.entry.indexes.now.rows)) visits.old
        visits.new }
{
    // tells the prover that the place of each type fits in 32 bits
    reader.type_count();
    let types = reader.types(visits);
    let mut places = Vec::new(reader.alloc);
    for place in 0..types.len() {
        if is_in(reader, types[place].number(), set) {
            places.push(place as u32)?;
        }
    }
    Ok(places)
}

// Lists the identifiers of the types whose places are set in the bitmap `places`, by rising place.
fn marked_ids(reader: Reader<'_>, places: &[u64]) -> Result<Vec<u64>, AllocError>
    ensures { IfOk result (λ ids. (one : ℕ → Bool) → ((place : ℕ) → place
        < length (types_of reader.entry.indexes.now.rows)
        → is_set places.now place
        ≡ one (slice_index (types_of reader.entry.indexes.now.rows) place))
        → ids.items ≡ filter one (types_of reader.entry.indexes.now.rows)) }
{
    let mut ids = Vec::new(reader.alloc);
    for place in 0..reader.type_count() {
        if is_marked(places, place) {
            ids.push(reader.type_at(place).number())?;
        }
    }
    Ok(ids)
}

// Returns whether the concept with the identifier `id` is in `set`.
fn is_in<S: ConceptSet>(reader: Reader<'_>, id: u64, set: &Answer<S>) -> bool
    requires { S.bound_of set.now ≡ length reader.indexes.now.concepts }
    ensures { result ≡ is_one_of reader.entry.indexes.now.concepts (S.items_of set.now) id }
{
    // tells the prover that the concepts rise, so that none has two numbers
    reader.concept_count();
    match reader.index_of(id) {
        Some(concept) => set.has(concept),
        None => false,
    }
}

/// Returns whether the type at `place` in the list of types is in `types`. Tests the set for this
/// one concept, and counts nothing. False if there is no such place.
pub fn is_typed<S: ConceptSet>(reader: Reader<'_>, types: &Answer<S>, place: u32) -> bool
    requires { S.bound_of types.now ≡ length reader.indexes.now.concepts }
    ensures { result ≡ is_type_in reader.entry.indexes.now (S.items_of types.now) place }
{
    // tells the prover that the concepts rise, so that none has two numbers
    reader.concept_count();
    match reader.type_concept(place) {
        Some(concept) => types.has(concept),
        None => false,
    }
}
