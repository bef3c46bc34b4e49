//! The lists that a load makes of the rows that it reads. A row goes into a list by what the row
//! itself says.
ghost use Rattle.std.specs.Prelude.{◌≡◌, ◌&&◌, ◌==◌, [], IfOk, OnOk};
ghost use Rattle.rf2_rows.specs.RowTexts.{of_concept, of_concrete, of_description, of_member, of_relationship, text_in};
ghost use Rattle.rf2_rows.specs.Rows.{concrete_text, description_text};
ghost use Rattle.row_lists.specs.InForce.{is_name as is_name_row};
ghost use Rattle.row_lists.specs.ReleaseLists.{listed_of, listing_of};
ghost use Rattle.row_lists.specs.ChosenLists.{filled, in_list, items_chosen, listed_after, listed_chosen, same_listing};
ghost use Rattle.row_lists.specs.ListsRead.{listed_in};
ghost use Rattle.row_lists.specs.Metadata.{inferred_relationship};

use crate::attributes::Attributes;
use crate::names::Names;
use rf2_rows::{ConceptRow, ConcreteRow, DescriptionRow, MemberRow, RelationshipRow, Row, Value};
use sctid::SctId;
use std::alloc::{AllocError, Global};

// |Is a|, the type of the relationships that form the hierarchy.
const IS_A: u64 = 116680003;

// |Inferred relationship|, the characteristic type of the relationships in the inferred view. Other
// relationships are ignored.
const INFERRED: u64 = 900000000000011006;

// |Fully specified name|, the type of the descriptions that name concepts.
const FULLY_SPECIFIED_NAME: u64 = 900000000000003001;

/// Which list a row is in; `Nowhere` if it is in none.
#[derive(Clone, Copy, PartialEq, Eq)]
pub enum Listing {
    Nowhere,
    Concept,
    Name,
    IsA,
    Attribute,
    Member,
    Inactive,
}

/// The lists that a load makes of the rows of a release. A row goes into a list by what the row
/// itself says: whether the concepts that it names are active is checked only once all rows are
/// read.
#[derive(Drop)]
pub struct RowLists {
    /// The active concepts.
    pub concepts: Vec<SctId>,
    /// The inactive concepts.
    pub inactive_concepts: Vec<SctId>,
    /// The active fully specified names.
    pub names: Names,
    /// The child and the parent of each active, inferred is-a row.
    pub isa_ends: Vec<(SctId, SctId)>,
    /// The active, inferred attribute rows, from the relationship files and the concrete values
    /// files.
    pub attributes: Attributes,
    /// The reference set and the component of each active member row.
    pub member_ends: Vec<(SctId, SctId)>,
    // for each row that was added, the list that it is in
    marks: Vec<Listing>,
}

impl RowLists {
    /// Creates empty lists.
    pub fn new(alloc: Global) -> RowLists
        ensures { listed_in result ≡ listed_of [] }
    {
        RowLists {
            concepts: Vec::new(alloc),
            inactive_concepts: Vec::new(alloc),
            names: Names::new(alloc),
            isa_ends: Vec::new(alloc),
            attributes: Attributes::new(alloc),
            member_ends: Vec::new(alloc),
            marks: Vec::new(alloc),
        }
    }

    /// Appends what is needed of `row` to the list that it belongs to, if there is one. Fails if
    /// memory is refused.
    pub fn add(&mut self, row: &Row<'_>) -> Result<(), AllocError>
        ensures { OnOk result (listed_in self.new
            ≡ listed_after (listed_in self.old) (text_in row.now)) }
    {
        let listing = match row {
            Row::Concept(row) => self.add_concept(row)?,
            Row::Description(row) => self.add_description(row)?,
            Row::Relationship(row) => self.add_relationship(row)?,
            Row::Concrete(row) => self.add_concrete(row)?,
            Row::Member(row) => self.add_member(row)?,
        };
        self.marks.push(listing)?;
        Ok(())
    }

    // Appends the concept to the active or the inactive concepts. Returns that list.
    fn add_concept(&mut self, row: &ConceptRow) -> Result<Listing, AllocError>
        ensures list { IfOk result (λ listing. listing ≡ listing_of (of_concept row.now)) }
        ensures lists { OnOk result (listed_in self.new
            ≡ filled (listed_in self.old) (of_concept row.now)) }
    {
        if row.active {
            self.concepts.push(row.id)?;
            return Ok(Listing::Concept);
        }
        self.inactive_concepts.push(row.id)?;
        Ok(Listing::Inactive)
    }

    // Appends an active fully specified name to the names. Returns the list of the row.
    fn add_description(&mut self, row: &DescriptionRow<'_>) -> Result<Listing, AllocError>
        ensures list { IfOk result (λ listing. listing
            ≡ listing_of (of_description (description_text row.now))) }
        ensures lists { OnOk result (listed_in self.new
            ≡ filled (listed_in self.old) (of_description (description_text row.now))) }
    {
        if !is_name(row) {
            return Ok(Listing::Nowhere);
        }
        self.names
            .push(row.id, row.concept_id, row.language_code, row.term)?;
        Ok(Listing::Name)
    }

    // Appends an active, inferred row to the is-a rows or the attribute rows. Returns the list of
    // the row.
    fn add_relationship(&mut self, row: &RelationshipRow) -> Result<Listing, AllocError>
        ensures list { IfOk result (λ listing. listing ≡ listing_of (of_relationship row.now)) }
        ensures lists { OnOk result (listed_in self.new
            ≡ filled (listed_in self.old) (of_relationship row.now)) }
    {
        if !is_inferred(row.active, row.characteristic_type_id) {
            return Ok(Listing::Nowhere);
        }
        if row.type_id.number() == IS_A {
            self.isa_ends.push((row.source_id, row.destination_id))?;
            return Ok(Listing::IsA);
        }
        let value = Value::Concept(row.destination_id);
        self.attributes
            .push(row.source_id, row.type_id, row.relationship_group, &value)?;
        Ok(Listing::Attribute)
    }

    // Appends an active, inferred row to the attribute rows. A concrete value of the type |Is a| is
    // ignored. Returns the list of the row.
    fn add_concrete(&mut self, row: &ConcreteRow<'_>) -> Result<Listing, AllocError>
        ensures list { IfOk result (λ listing. listing
            ≡ listing_of (of_concrete (concrete_text row.now))) }
        ensures lists { OnOk result (listed_in self.new
            ≡ filled (listed_in self.old) (of_concrete (concrete_text row.now))) }
    {
        let ConcreteRow { value, .. } = row;
        if !is_inferred(row.active, row.characteristic_type_id) || row.type_id.number() == IS_A {
            return Ok(Listing::Nowhere);
        }
        self.attributes
            .push(row.source_id, row.type_id, row.relationship_group, value)?;
        Ok(Listing::Attribute)
    }

    // Appends an active member row to the members. Returns the list of the row.
    fn add_member(&mut self, row: &MemberRow) -> Result<Listing, AllocError>
        ensures list { IfOk result (λ listing. listing ≡ listing_of (of_member row.now)) }
        ensures lists { OnOk result (listed_in self.new
            ≡ filled (listed_in self.old) (of_member row.now)) }
    {
        if !row.active {
            return Ok(Listing::Nowhere);
        }
        self.member_ends
            .push((row.refset_id, row.referenced_component_id))?;
        Ok(Listing::Member)
    }

    /// Keeps in each list only the items whose row is chosen. `choices` says for each row that was
    /// added whether it is chosen.
    pub fn choose(&mut self, alloc: Global, choices: &[bool]) -> Result<(), AllocError>
        ensures { OnOk result (listed_in self.new
            ≡ listed_chosen (listed_in self.old) choices.now) }
    {
        let marks = self.marks.as_slice();
        self.concepts = chosen_items(
            alloc,
            self.concepts.as_slice(),
            marks,
            Listing::Concept,
            choices,
        )?;
        self.inactive_concepts = chosen_items(
            alloc,
            self.inactive_concepts.as_slice(),
            marks,
            Listing::Inactive,
            choices,
        )?;
        self.isa_ends = chosen_items(
            alloc,
            self.isa_ends.as_slice(),
            marks,
            Listing::IsA,
            choices,
        )?;
        self.member_ends = chosen_items(
            alloc,
            self.member_ends.as_slice(),
            marks,
            Listing::Member,
            choices,
        )?;
        self.names.choose(alloc, marks, choices)?;
        self.attributes.choose(alloc, marks, choices)
    }
}

/// Returns the items of `items` whose rows are chosen. `items` is the list `list`, which has one
/// item for each of its rows. For each row, `marks` says which list it is in, and `choices` whether
/// it is chosen.
pub fn chosen_items<T: Copy>(
    alloc: Global,
    items: &[T],
    marks: &[Listing],
    list: Listing,
    choices: &[bool],
) -> Result<Vec<T>, AllocError>
    ensures { IfOk result (λ chosen. chosen.items
        ≡ items_chosen (in_list list marks.now) choices.now items.now) }
{
    let mut chosen = Vec::new(alloc);
    let mut left = items;
    for (place, mark) in marks.iter().enumerate() {
        if choices.len() <= place {
            return Ok(chosen);
        }
        if !is_listing(*mark, list) {
            continue;
        }
        let Some((item, rest)) = left.split_first() else {
            return Ok(chosen);
        };
        left = rest;
        if !choices[place] {
            continue;
        }
        chosen.push(*item)?;
    }
    Ok(chosen)
}

// Whether `one` and `other` name the same list.
fn is_listing(one: Listing, other: Listing) -> bool
    ensures { result ≡ same_listing one other }
{
    one == other
}

// Whether a relationship row or a concrete value row is active and inferred, by its two columns.
fn is_inferred(active: bool, characteristic_type: SctId) -> bool
    ensures { result ≡ (active && (characteristic_type == inferred_relationship)) }
{
    active && characteristic_type.number() == INFERRED
}

// Whether a description row is an active fully specified name.
fn is_name(row: &DescriptionRow<'_>) -> bool
    ensures { result ≡ is_name_row (description_text row.now) }
{
    row.active && row.type_id.number() == FULLY_SPECIFIED_NAME
}
