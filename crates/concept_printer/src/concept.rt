//! The text that describes a concept in force.
ghost use Rattle.std.specs.Prelude.{◌≡◌, ◌<◌, ◌++◌, ◌∷◌, [], All, codes, decimal, length, map, OnOk, slice_index};
ghost use Rattle.std.specs.List.{flat_map};
ghost use Rattle.held_release.specs.Line.{concept_line};
ghost use Rattle.postings.specs.Indexed.{IsIndexOf};
ghost use Rattle.concept_printer.specs.ConceptText.{attribute_line, attributes_of, children_of, concept_text};
ghost use Rattle.concept_printer.specs.ConceptText.{concept_words, headed, name_in_force, parents_of};
ghost use Rattle.concept_printer.specs.ConceptText.{reference_sets_with as sets_with};

use crate::attributes::append_attributes;
use crate::members::reference_sets_with;
use held_release::Snapshot;
use postings::Indexes;
use std::alloc::{AllocError, Global};

/// Appends what the release says of a concept in force: the concept, its parents and children, its
/// attribute rows, and the reference sets that it is in. `concept` is its number; `indexes` are
/// those of the release. If memory is refused, a part of the text may be appended.
pub fn append_concept(
    alloc: Global,
    snapshot: &Snapshot,
    indexes: &Indexes,
    concept: u32,
    text: &mut Vec<u8>,
) -> Result<(), AllocError>
    requires indexes { IsIndexOf indexes.now snapshot.now.release }
    requires concept { concept < length snapshot.now.release.concepts }
    ensures { OnOk result (text.new.items ≡ text.old.items ++ concept_text snapshot.now
        (slice_index snapshot.now.release.concepts concept)) }
{
    text.extend_from_slice(b"CONCEPT ")?;
    append_line(snapshot, concept, text)?;
    append_parents(snapshot, indexes, concept, text)?;
    append_children(snapshot, indexes, concept, text)?;
    append_rows_of(alloc, snapshot, indexes, concept, text)?;
    append_reference_sets(alloc, snapshot, indexes, concept, text)
}

// Appends the count of parents of `concept` and a line for each.
fn append_parents(
    snapshot: &Snapshot,
    indexes: &Indexes,
    concept: u32,
    text: &mut Vec<u8>,
) -> Result<(), AllocError>
    requires indexes { IsIndexOf indexes.now snapshot.now.release }
    requires concept { concept < length snapshot.now.release.concepts }
    ensures { OnOk result (text.new.items ≡ text.old.items
        ++ headed (codes "PARENTS") (concept_line (name_in_force snapshot.now))
        (parents_of snapshot.now.release (slice_index snapshot.now.release.concepts concept))) }
{
    let hierarchy = indexes.hierarchy();
    append_concepts(snapshot, b"PARENTS", hierarchy.parents(concept), text)
}

// Appends the count of children of `concept` and a line for each.
fn append_children(
    snapshot: &Snapshot,
    indexes: &Indexes,
    concept: u32,
    text: &mut Vec<u8>,
) -> Result<(), AllocError>
    requires indexes { IsIndexOf indexes.now snapshot.now.release }
    requires concept { concept < length snapshot.now.release.concepts }
    ensures { OnOk result (text.new.items ≡ text.old.items
        ++ headed (codes "CHILDREN") (concept_line (name_in_force snapshot.now))
        (children_of snapshot.now.release (slice_index snapshot.now.release.concepts concept))) }
{
    let hierarchy = indexes.hierarchy();
    append_concepts(snapshot, b"CHILDREN", hierarchy.children(concept), text)
}

// Appends the count of attribute rows of `concept` and a line for each.
fn append_rows_of(
    alloc: Global,
    snapshot: &Snapshot,
    indexes: &Indexes,
    concept: u32,
    text: &mut Vec<u8>,
) -> Result<(), AllocError>
    requires indexes { IsIndexOf indexes.now snapshot.now.release }
    requires concept { concept < length snapshot.now.release.concepts }
    ensures { OnOk result (text.new.items ≡ text.old.items
        ++ headed (codes "ATTRIBUTES") (attribute_line (name_in_force snapshot.now))
        (attributes_of snapshot.now.release (slice_index snapshot.now.release.concepts concept))) }
{
    // Both are called for their contracts, which tell the prover that the identifiers of the
    // concepts rise, and that there are as many rows by source as attribute rows.
    snapshot.concept_count();
    snapshot.attribute_count();
    append_attributes(alloc, snapshot, indexes.rows_of(concept), text)
}

// Appends the count of reference sets with `concept` and a line for each.
fn append_reference_sets(
    alloc: Global,
    snapshot: &Snapshot,
    indexes: &Indexes,
    concept: u32,
    text: &mut Vec<u8>,
) -> Result<(), AllocError>
    requires indexes { IsIndexOf indexes.now snapshot.now.release }
    requires concept { concept < length snapshot.now.release.concepts }
    ensures { OnOk result (text.new.items ≡ text.old.items
        ++ headed (codes "MEMBER-OF") (concept_line (name_in_force snapshot.now))
        (sets_with snapshot.now.release (slice_index snapshot.now.release.concepts concept))) }
{
    let sets = reference_sets_with(alloc, indexes, concept)?;
    append_concepts(snapshot, b"MEMBER-OF", sets.as_slice(), text)
}

// Appends a line with `word` and the count of `concepts`, and then a line for each of them.
fn append_concepts(
    snapshot: &Snapshot,
    word: &[u8],
    concepts: &[u32],
    text: &mut Vec<u8>,
) -> Result<(), AllocError>
    requires { All (λ concept. concept < length snapshot.now.release.concepts) concepts.now }
    ensures { OnOk result (text.new.items ≡ text.old.items
        ++ headed word.now (concept_line (name_in_force snapshot.now))
        (map (slice_index snapshot.now.release.concepts) concepts.now)) }
{
    append_head(word, concepts.len(), text)?;
    append_lines(snapshot, concepts, text)
}

// Appends a line for each of `concepts`.
fn append_lines(snapshot: &Snapshot, concepts: &[u32], text: &mut Vec<u8>) -> Result<(), AllocError>
    requires { All (λ concept. concept < length snapshot.now.release.concepts) concepts.now }
    ensures { OnOk result (text.new.items ≡ text.old.items
        ++ flat_map (concept_line (name_in_force snapshot.now))
        (map (slice_index snapshot.now.release.concepts) concepts.now)) }
{
    for concept in concepts {
        append_line(snapshot, *concept, text)?;
    }
    Ok(())
}

// Appends the line of `concept`: its identifier, and its name if it has one.
#[tactic(auto, using(crate::proofs::ConceptLemmas::line_by_number))]
fn append_line(snapshot: &Snapshot, concept: u32, text: &mut Vec<u8>) -> Result<(), AllocError>
    requires { concept < length snapshot.now.release.concepts }
    ensures { OnOk result (text.new.items ≡ text.old.items
        ++ concept_line (name_in_force snapshot.now)
        (slice_index snapshot.now.release.concepts concept)) }
{
    text.extend_from_slice(snapshot.line(concept))
}

/// Appends a line with `word` and `count`.
pub fn append_head(word: &[u8], count: usize, text: &mut Vec<u8>) -> Result<(), AllocError>
    ensures { OnOk result (text.new.items ≡ text.old.items
        ++ (word.now ++ 32 ∷ decimal count ++ 10 ∷ [])) }
{
    text.extend_from_slice(word)?;
    text.push(b' ')?;
    append_number(count as u64, text)?;
    text.push(b'\n')?;
    Ok(())
}

/// Appends the identifier of a concept, and its name between bars if it has one. `concept` is its
/// number.
pub fn append_words(snapshot: &Snapshot, concept: u32, text: &mut Vec<u8>) -> Result<(), AllocError>
    requires { concept < length snapshot.now.release.concepts }
    ensures { OnOk result (text.new.items ≡ text.old.items
        ++ concept_words (name_in_force snapshot.now)
        (slice_index snapshot.now.release.concepts concept)) }
{
    let line = snapshot.line(concept);
    text.extend_from_slice(&line[..line.len() - 1])
}

/// Appends `number` in decimal.
pub fn append_number(number: u64, text: &mut Vec<u8>) -> Result<(), AllocError>
    ensures { OnOk result (text.new.items ≡ text.old.items ++ decimal number) }
{
    let mut digits = itoa::Buffer::new();
    text.extend_from_slice(digits.format(number).as_bytes())
}
