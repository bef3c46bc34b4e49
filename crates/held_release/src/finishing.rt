//! Makes a `Snapshot` of the rows that were read: numbers the concepts in force, and keeps the rows
//! in force.
ghost use Rattle.std.specs.Prelude.{◌≡◌, ◌<◌, ◌^◌, ℕ, None, Ok, IfOk, IfErr, OnOk, map, length, string_bytes};
ghost use Rattle.std.specs.List.{filter_map};
ghost use Rattle.std.specs.List.Sorted.{IsStrictlyIncreasing};
ghost use Rattle.number_lists.specs.RisingOrder.{rising as rising_of};
ghost use Rattle.hierarchy.specs.Hierarchy.{IsWithin, Reaches};
ghost use Rattle.hierarchy.specs.ParentsFirst.{IsParentsFirst};
ghost use Rattle.row_lists.specs.InForce.{rows_among};
ghost use Rattle.row_lists.specs.ListsRead.{AreFew, read_in};
ghost use Rattle.held_release.specs.Contents.{IsFaultOf, first_cyclic};
ghost use Rattle.held_release.specs.Finished.{IsCycle, attributes_among, finished, names_among};
ghost use Rattle.held_release.specs.Line.{concept_line};
ghost use Rattle.held_release.specs.Name.{name_among};
ghost use Rattle.held_release.specs.Numbering.{numbered_row};
ghost use Rattle.held_release.specs.inside.LeastCycle.{IsLeastCycle};
ghost use Rattle.held_release.specs.CodedRows.{AreCodedRows};
ghost use Rattle.held_release.specs.inside.Sorted.{IsSortedBySource, in_file_order, sorted_in};

use crate::coded_rows::{CodedRows, code_rows};
use crate::concepts::Concepts;
use crate::held_release::Snapshot;
use crate::lines::{ConceptLines, lines_among};
use crate::numbered_attributes::number_attributes;
use crate::numbering::number_rows;
use hierarchy::{least_cyclic, parents_first};
use key_interner::Seed;
use row_lists::{Attributes, LoadFault, Names, ReadRows, RowLists};
use sctid::SctId;
use std::alloc::{AllocError, Global};

/// Makes the snapshot of the chosen rows in `read`. Numbers the concepts in force in rising order,
/// and keeps the rows that name only concepts in force. `language` is the preferred language of
/// names, `files` the number of files for the report, and `seed` the seed for hashes, which the
/// snapshot keeps.
///
/// Fails with `Cycle` and the least concept that is its own descendant, if there is one, or with
/// `Memory`.
pub fn finish(
    alloc: Global,
    read: ReadRows,
    language: String,
    files: u64,
    seed: Seed,
) -> Result<Snapshot, LoadFault>
    requires { AreFew read.count (read_in read.lists) }
    ensures ok { IfOk result (λ snapshot. finished (string_bytes language) files read.count
        (read_in read.lists) ≡ Ok snapshot) }
    ensures err { IfErr result (λ fault. IsFaultOf fault
        (finished (string_bytes language) files read.count (read_in read.lists))) }
{
    let ReadRows { lists, count } = read;
    let RowLists {
        concepts,
        inactive_concepts,
        names,
        isa_ends,
        attributes,
        member_ends,
        ..
    } = lists;
    let inactive = rising(inactive_concepts);
    let concepts = Concepts::new(alloc, rising(concepts))?;
    match number_hierarchy(alloc, &concepts, isa_ends.as_slice()) {
        Ok(hierarchy) => {
            drop(isa_ends);
            let NumberedHierarchy { isa, order } = hierarchy;
            let lists = lists_among(
                alloc,
                &concepts,
                names,
                language.as_str(),
                attributes,
                member_ends.as_slice(),
                seed,
            )?;
            let Lists {
                lines,
                attributes,
                members,
            } = lists;
            let listed = u64::from(concepts.len())
                + isa.len() as u64
                + attributes.rows.len() as u64
                + members.len() as u64
                + lines.name_count() as u64;
            Ok(Snapshot {
                concepts,
                inactive,
                isa,
                order,
                attributes,
                members,
                lines,
                language,
                files,
                passed: count.saturating_sub(listed),
                seed,
            })
        }
        Err(fault) => Err(fault),
    }
}

// What is kept of the concepts in force besides the hierarchy.
#[derive(Drop)]
struct Lists {
    lines: ConceptLines,
    attributes: CodedRows,
    members: Vec<(u32, u32)>,
}

// Makes the lines of `concepts`, with names in the preferred language `language`, and keeps the
// attribute rows, sorted by source, and the member rows that are in force.
fn lists_among(
    alloc: Global,
    concepts: &Concepts,
    names: Names,
    language: &str,
    attributes: Attributes,
    member_ends: &[(SctId, SctId)],
    seed: Seed,
) -> Result<Lists, AllocError>
    requires few { length names < 2 ^ 32 }
    requires few_attributes { length attributes < 2 ^ 31 }
    ensures names { IfOk result (λ lists. lists.lines.names ≡ names_among concepts.now names) }
    ensures lines { IfOk result (λ lists. lists.lines.lines
        ≡ map (concept_line (name_among language.now lists.lines.names)) concepts.now) }
    ensures attributes { IfOk result (λ lists. in_file_order
        (sorted_in concepts.now lists.attributes) ≡ attributes_among concepts.now attributes) }
    ensures sorted { IfOk result (λ lists.
        IsSortedBySource concepts.now (sorted_in concepts.now lists.attributes)) }
    ensures coded { IfOk result (λ lists.
        AreCodedRows concepts.now (sorted_in concepts.now lists.attributes).rows lists.attributes) }
    ensures members { IfOk result (λ lists. lists.members.items
        ≡ filter_map (numbered_row concepts.now) member_ends.now) }
{
    let attributes = coded_among(alloc, concepts, attributes, seed)?;
    let members = number_rows(alloc, concepts, member_ends)?;
    let lines = lines_among(alloc, concepts, names, language)?;
    Ok(Lists {
        lines,
        attributes,
        members,
    })
}

// Keeps the attribute rows that are in force, as numbers and sorted by source. Frees `attributes`
// before it sorts, to save memory.
fn coded_among(
    alloc: Global,
    concepts: &Concepts,
    attributes: Attributes,
    seed: Seed,
) -> Result<CodedRows, AllocError>
    requires { length attributes < 2 ^ 31 }
    ensures order { IfOk result (λ coded. in_file_order (sorted_in concepts.now coded)
        ≡ attributes_among concepts.now attributes) }
    ensures sorted { IfOk result (λ coded.
        IsSortedBySource concepts.now (sorted_in concepts.now coded)) }
    ensures coded { IfOk result (λ coded.
        AreCodedRows concepts.now (sorted_in concepts.now coded).rows coded) }
{
    let (kept, concrete) = attributes.into_rows();
    let rows = number_attributes(alloc, concepts, kept.as_slice())?;
    drop(kept);
    let coded = code_rows(alloc, concepts, rows.as_slice(), &concrete, seed)?;
    Ok(coded)
}

// The is-a rows in force, as pairs of concept numbers, and a topological order of the concepts.
#[derive(Drop)]
struct NumberedHierarchy {
    isa: Vec<(u32, u32)>,
    // the numbers of all concepts, each after those of its parents
    order: Vec<u32>,
}

// Keeps the is-a rows `ends` between `concepts` as pairs of numbers, and computes an order in which
// parents come first. Fails with `Cycle` if a concept is its own descendant.
fn number_hierarchy(
    alloc: Global,
    concepts: &Concepts,
    ends: &[(SctId, SctId)],
) -> Result<NumberedHierarchy, LoadFault>
    requires { length ends.now < 2 ^ 31 }
    ensures rows { IfOk result (λ hierarchy. hierarchy.isa.items
        ≡ filter_map (numbered_row concepts.now) ends.now) }
    ensures order { IfOk result (λ hierarchy. IsParentsFirst (length concepts.now)
        hierarchy.isa.items hierarchy.order.items) }
    ensures acyclic { OnOk result (first_cyclic concepts.now (rows_among concepts.now ends.now)
        ≡ None) }
    ensures cycle { IfErr result (λ fault. IsCycle fault
        (first_cyclic concepts.now (rows_among concepts.now ends.now))) }
{
    let isa = number_rows(alloc, concepts, ends)?;
    match parents_first(alloc, isa.as_slice(), concepts.len())? {
        Some(order) => Ok(NumberedHierarchy { isa, order }),
        None => Err(cycle_fault(alloc, concepts, isa.as_slice())),
    }
}

// Returns the fault that names the least concept that is its own descendant by `rows`; there must
// be one. Returns `Memory` if memory is refused.
fn cycle_fault(alloc: Global, concepts: &Concepts, rows: &[(u32, u32)]) -> LoadFault
    requires within { IsWithin (length concepts.now) rows.now }
    requires few { length rows.now < 2 ^ 32 }
    requires cyclic { (concept : ℕ) × (concept < length concepts.now)
        × Reaches rows.now concept concept }
    ensures { IsLeastCycle result concepts.now rows.now }
{
    match least_cyclic(alloc, rows, concepts.len()) {
        Ok(Some(concept)) => LoadFault::Cycle(concepts.id_at(concept)),
        Ok(None) => unreachable!(),
        Err(_) => LoadFault::Memory,
    }
}

// Sorts `concepts`, and keeps each once.
fn rising(mut concepts: Vec<SctId>) -> Vec<SctId>
    ensures rising { result.items ≡ rising_of concepts.items }
    ensures increasing { IsStrictlyIncreasing result.items }
{
    concepts.sort_unstable();
    concepts.dedup();
    concepts
}
