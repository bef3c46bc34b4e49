//! Calls that hand out the lists of a release and of its indexes, and count their items.
ghost use Rattle.std.specs.Prelude.{◌≡◌, ◌<◌, ◌↔◌, IfSome, IsSome, MatchOption, length, slice_get};
ghost use Rattle.std.specs.List.{concat};
ghost use Rattle.number_lists.specs.KeyedLists.{list_of};
ghost use Rattle.ancestor_index.specs.Wide.{AreWordsOf, IsWide};
ghost use Rattle.postings.specs.Groups.{groups_in, rows_of_group};
ghost use Rattle.postings.specs.Indexed.{reference_sets_of, rows_by_source, rows_by_type, rows_by_value, types_of};
ghost use Rattle.postings.specs.RowColumns.{AreTypeColumns, AreValueColumns};
ghost use Rattle.reading.specs.Counted.{HandsOut};
ghost use Rattle.reading.specs.Orders.{IsOrderOf};

use crate::counter::Counter;
use crate::reader::Reader;
use number_lists::KeyedLists;
use postings::{TypeColumns, ValueColumns};
use sctid::SctId;

impl<'a> Reader<'a> {
    /// Hands out the ancestors of `concept`, and counts them.
    pub fn ancestors(self, concept: u32, visits: &mut Counter) -> &'a [u32]
        requires { concept < length self.indexes.now.hierarchy.ancestors }
        ensures items { result.now ≡ list_of self.entry.indexes.now.hierarchy.ancestors concept }
        ensures counted { HandsOut (length
            (list_of self.entry.indexes.now.hierarchy.ancestors concept)) visits.old visits.new }
    {
        handed_out(self.indexes.hierarchy().ancestors(concept), visits)
    }

    /// Hands out the descendants of `concept`, and counts them.
    pub fn descendants(self, concept: u32, visits: &mut Counter) -> &'a [u32]
        requires { concept < length self.indexes.now.hierarchy.descendants }
        ensures items { result.now ≡ list_of self.entry.indexes.now.hierarchy.descendants concept }
        ensures counted { HandsOut (length
            (list_of self.entry.indexes.now.hierarchy.descendants concept)) visits.old visits.new }
    {
        handed_out(self.indexes.hierarchy().descendants(concept), visits)
    }

    /// Hands out the descendants of `concept` as a bitmap with one bit for each concept, and counts
    /// the descendants. Returns `None` and counts nothing if the index has no bitmap for this
    /// concept.
    pub fn descendant_words(self, concept: u32, visits: &mut Counter) -> Option<&'a [u64]>
        requires { concept < length self.indexes.now.hierarchy.descendants }
        ensures some { IfSome result (λ words. AreWordsOf
            (length self.entry.indexes.now.hierarchy.descendants)
            (list_of self.entry.indexes.now.hierarchy.descendants concept) words.now) }
        ensures wide { IsSome result ↔ IsWide (length self.entry.indexes.now.hierarchy.descendants)
            (list_of self.entry.indexes.now.hierarchy.descendants concept) }
        ensures counted { MatchOption result (visits.new ≡ visits.old)
            (λ _. HandsOut (length (list_of self.entry.indexes.now.hierarchy.descendants concept))
            visits.old visits.new) }
    {
        let words = self.indexes.hierarchy().descendant_words(concept)?;
        visits.add(self.descendant_count_of(concept));
        Some(words)
    }

    /// Hands out the parents of `concept`, and counts them.
    pub fn parents(self, concept: u32, visits: &mut Counter) -> &'a [u32]
        requires { concept < length self.indexes.now.hierarchy.parents }
        ensures items { result.now ≡ list_of self.entry.indexes.now.hierarchy.parents concept }
        ensures counted { HandsOut (length
            (list_of self.entry.indexes.now.hierarchy.parents concept)) visits.old visits.new }
    {
        handed_out(self.indexes.hierarchy().parents(concept), visits)
    }

    /// Hands out the children of `concept`, and counts them.
    pub fn children(self, concept: u32, visits: &mut Counter) -> &'a [u32]
        requires { concept < length self.indexes.now.hierarchy.children }
        ensures items { result.now ≡ list_of self.entry.indexes.now.hierarchy.children concept }
        ensures counted { HandsOut (length
            (list_of self.entry.indexes.now.hierarchy.children concept)) visits.old visits.new }
    {
        handed_out(self.indexes.hierarchy().children(concept), visits)
    }

    /// Hands out the parents of all concepts, a list for each concept, and counts each is-a link.
    pub fn all_parents(self, visits: &mut Counter) -> &'a KeyedLists
        ensures lists { result.now ≡ self.entry.indexes.now.hierarchy.parents }
        ensures counted { HandsOut (length (concat self.entry.indexes.now.hierarchy.parents))
            visits.old visits.new }
    {
        visits.add(self.link_count() as u64);
        self.indexes.hierarchy().all_parents()
    }

    /// Hands out the children of all concepts, a list for each concept, and counts each is-a link.
    pub fn all_children(self, visits: &mut Counter) -> &'a KeyedLists
        ensures lists { result.now ≡ self.entry.indexes.now.hierarchy.children }
        ensures counted { HandsOut (length (concat self.entry.indexes.now.hierarchy.parents))
            visits.old visits.new }
    {
        visits.add(self.link_count() as u64);
        self.indexes.hierarchy().all_children()
    }

    /// Hands out the numbers of all concepts, parents before their children, and counts each
    /// concept.
    pub fn parents_first(self, visits: &mut Counter) -> &'a [u32]
        ensures order { IsOrderOf self.entry.snapshot.now.release result.now }
        ensures counted { HandsOut (length result.now) visits.old visits.new }
    {
        // tells the prover which is-a rows the order follows
        self.snapshot.isa_rows();
        handed_out(self.snapshot.parents_first(), visits)
    }

    /// Hands out the components of the reference set with the concept number `concept`, and counts
    /// them.
    pub fn members(self, concept: u32, visits: &mut Counter) -> &'a [u32]
        requires { concept < length self.indexes.now.concepts }
        ensures items { result.now ≡ list_of self.entry.indexes.now.members concept }
        ensures counted { HandsOut (length (list_of self.entry.indexes.now.members concept))
            visits.old visits.new }
    {
        handed_out(self.indexes.members(concept), visits)
    }

    /// Hands out the concepts that are the reference set of some member row, in rising order, and
    /// counts them.
    pub fn reference_sets(self, visits: &mut Counter) -> &'a [u32]
        ensures items { result.now ≡ reference_sets_of self.entry.indexes.now }
        ensures counted { HandsOut (length (reference_sets_of self.entry.indexes.now)) visits.old
            visits.new }
    {
        handed_out(self.indexes.reference_sets(), visits)
    }

    /// Hands out the numbers of the rows whose source is `concept`, and counts the rows.
    pub fn rows_of(self, concept: u32, visits: &mut Counter) -> &'a [u32]
        requires { concept < length self.indexes.now.concepts }
        ensures items { result.now ≡ rows_by_source self.entry.indexes.now concept }
        ensures counted { HandsOut (length (rows_by_source self.entry.indexes.now concept))
            visits.old visits.new }
    {
        handed_out(self.indexes.rows_of(concept), visits)
    }

    /// Hands out the numbers of the rows of the group `unit`, and counts the rows.
    pub fn unit_rows(self, unit: u32, visits: &mut Counter) -> &'a [u32]
        requires { unit < length (groups_in self.indexes.now) }
        ensures items { IfSome (slice_get (groups_in self.entry.indexes.now) unit)
            (λ group. result.now ≡ rows_of_group self.entry.indexes.now group) }
        ensures counted { HandsOut (length result.now) visits.old visits.new }
    {
        handed_out(self.indexes.unit_rows(unit), visits)
    }

    /// Hands out the columns of the rows of the type with the identifier `id`, and counts the rows.
    /// `id` need not be the type of any row; then the columns are empty.
    pub fn type_columns(self, id: u64, visits: &mut Counter) -> TypeColumns<'a>
        ensures columns { AreTypeColumns self.entry.indexes.now id result }
        ensures counted { HandsOut (length (rows_by_type self.entry.indexes.now id)) visits.old
            visits.new }
    {
        visits.add(self.type_row_count(id));
        self.indexes.type_columns(id)
    }

    /// Hands out the columns of the rows whose value is `concept`, and counts the rows.
    pub fn value_columns(self, concept: u32, visits: &mut Counter) -> ValueColumns<'a>
        requires { concept < length self.indexes.now.concepts }
        ensures columns { AreValueColumns self.entry.indexes.now concept result }
        ensures counted { HandsOut (length (rows_by_value self.entry.indexes.now concept))
            visits.old visits.new }
    {
        visits.add(self.value_row_count(concept));
        self.indexes.value_columns(concept)
    }

    /// Hands out the distinct types of the rows, in the order of the first row of each, and counts
    /// the types.
    pub fn types(self, visits: &mut Counter) -> &'a [SctId]
        ensures items { result.now ≡ types_of self.entry.indexes.now.rows }
        ensures counted { HandsOut (length (types_of self.entry.indexes.now.rows)) visits.old
            visits.new }
    {
        visits.add(u64::from(self.type_count()));
        self.indexes.types()
    }
}

// Counts the items of `list`, and returns it.
fn handed_out<'a>(list: &'a [u32], visits: &mut Counter) -> &'a [u32]
    ensures items { result.now ≡ list.now }
    ensures counted { HandsOut (length list.now) visits.old visits.new }
{
    visits.add(list.len() as u64);
    list
}
