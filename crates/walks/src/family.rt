//! The four kinds of lists that a hierarchy has for each concept.
ghost use Rattle.std.specs.Prelude.{◌≡◌, ◌↔◌, ◌<◌, IfSome, IsSome, MatchOption, length, true};
ghost use Rattle.std.specs.List.{concat};
ghost use Rattle.number_lists.specs.Members.{has};
ghost use Rattle.idset.specs.Words.{MarkedBelow};
ghost use Rattle.number_lists.specs.KeyedLists.{list_of};
ghost use Rattle.walks.specs.inside.Joined.{opposite_of, is_whole as is_whole_of, direct_of, turn_of};
ghost use Rattle.walks.specs.inside.Counts.{told_of};
ghost use Rattle.walks.specs.inside.Steps.{HasWords, IsStepFor, asked_of, keeps_apart, leads_to_self};
ghost use Rattle.walks.specs.Families.{lists_of};
ghost use Rattle.reading.specs.Counted.{HandsOut};

use candidates::ListStats;
use constraint_tree::Operator;
use number_lists::KeyedLists;
use reading::{Counter, Reader};

/// A family of lists, with one list for each concept.
#[derive(Clone, Copy)]
pub enum Family {
    /// The ancestors of the concept.
    Ancestors,
    /// The descendants of the concept.
    Descendants,
    /// The parents of the concept: those to which its is-a rows lead.
    Parents,
    /// The children of the concept: those whose is-a rows lead to it.
    Children,
}

impl Family {
    /// Returns whether the family is transitive: the list of a concept contains the lists of all
    /// concepts in it. Ancestors and descendants are; comments here call their lists whole.
    pub fn is_whole(self) -> bool
        ensures { result ≡ is_whole_of self }
    {
        match self {
            Family::Ancestors | Family::Descendants => true,
            Family::Parents | Family::Children => false,
        }
    }

    /// Returns the family that goes one is-a row in the same direction: parents or children. Its
    /// lists are contained in those of this family.
    pub fn direct(self) -> Family
        ensures { result ≡ direct_of self }
    {
        match self {
            Family::Ancestors | Family::Parents => Family::Parents,
            Family::Descendants | Family::Children => Family::Children,
        }
    }

    /// Returns the lists of parents or children of all concepts, whichever this family's direction
    /// needs. Counts each is-a link.
    pub fn direct_lists<'a>(self, reader: Reader<'a>, visits: &mut Counter) -> &'a KeyedLists
        ensures lists { result.now ≡ lists_of reader.entry.indexes.now.hierarchy (direct_of self) }
        ensures counted { HandsOut (length (concat reader.entry.indexes.now.hierarchy.parents))
            visits.old visits.new }
    {
        match self {
            Family::Ancestors | Family::Parents => reader.all_parents(visits),
            Family::Descendants | Family::Children => reader.all_children(visits),
        }
    }

    /// Returns the family of the opposite direction: `a` is in the list of `b` exactly if `b` is in
    /// the opposite list of `a`.
    pub fn opposite(self) -> Family
        ensures { result ≡ opposite_of self }
    {
        match self {
            Family::Ancestors => Family::Descendants,
            Family::Descendants => Family::Ancestors,
            Family::Parents => Family::Children,
            Family::Children => Family::Parents,
        }
    }

    /// Returns which place of an order with parents before children a pass visits at step `turn` of
    /// `turns`. In an upward family, a concept is visited before its parents; in a downward family,
    /// before its children.
    pub fn place_of_turn(self, turn: usize, turns: usize) -> usize
        requires { turn < turns }
        ensures { result ≡ turn_of self turns turn }
    {
        match self {
            Family::Ancestors | Family::Parents => turns - 1 - turn,
            Family::Descendants | Family::Children => turn,
        }
    }

    /// Returns the list of `concept`, and counts its items.
    pub fn list<'a>(self, reader: Reader<'a>, concept: u32, visits: &mut Counter) -> &'a [u32]
        requires { concept < length (lists_of reader.indexes.now.hierarchy self) }
        ensures items { result.now ≡ list_of (lists_of reader.entry.indexes.now.hierarchy self)
            concept }
        ensures counted { HandsOut (length
            (list_of (lists_of reader.entry.indexes.now.hierarchy self) concept)) visits.old
            visits.new }
    {
        match self {
            Family::Ancestors => reader.ancestors(concept, visits),
            Family::Descendants => reader.descendants(concept, visits),
            Family::Parents => reader.parents(concept, visits),
            Family::Children => reader.children(concept, visits),
        }
    }

    /// Returns whether the list of `concept` contains `concept` itself. The family must be
    /// ancestors or descendants. Counts nothing.
    pub fn has_itself(self, reader: Reader<'_>, concept: u32) -> bool
        requires below { concept < length (lists_of reader.indexes.now.hierarchy self) }
        requires whole { is_whole_of self ≡ true }
        ensures { result ≡ has (list_of (lists_of reader.entry.indexes.now.hierarchy self) concept)
            concept }
    {
        match self {
            Family::Ancestors => reader.is_ancestor(concept, concept),
            Family::Descendants => reader.is_descendant(concept, concept),
            Family::Parents | Family::Children => false,
        }
    }

    /// Returns the length of the list of `concept`. Counts nothing.
    pub fn length(self, reader: Reader<'_>, concept: u32) -> u64
        requires { concept < length (lists_of reader.indexes.now.hierarchy self) }
        ensures { result ≡ length (list_of (lists_of reader.entry.indexes.now.hierarchy self)
            concept) }
    {
        match self {
            Family::Ancestors => reader.ancestor_count_of(concept),
            Family::Descendants => reader.descendant_count_of(concept),
            Family::Parents => reader.parent_count_of(concept),
            Family::Children => reader.child_count_of(concept),
        }
    }

    /// Returns the list of `concept` as a bitmap, and counts its items. Returns `None` and counts
    /// nothing if the index has no bitmap for it.
    pub fn words<'a>(
        self,
        reader: Reader<'a>,
        concept: u32,
        visits: &mut Counter,
    ) -> Option<&'a [u64]>
        requires { concept < length (lists_of reader.indexes.now.hierarchy self) }
        ensures some { IfSome result (λ words. MarkedBelow
            (length (lists_of reader.entry.indexes.now.hierarchy self)) words.now
            (has (list_of (lists_of reader.entry.indexes.now.hierarchy self) concept))) }
        ensures wide { IsSome result ↔ HasWords reader.entry.indexes.now.hierarchy self concept }
        ensures counted { MatchOption result (visits.new ≡ visits.old)
            (λ _. HandsOut (length (list_of (lists_of reader.entry.indexes.now.hierarchy self)
            concept)) visits.old visits.new) }
    {
        match self {
            Family::Descendants => reader.descendant_words(concept, visits),
            Family::Ancestors | Family::Parents | Family::Children => None,
        }
    }

    /// Returns the limit that `lists` has for the lists of this family.
    pub fn items_of(self, lists: ListStats) -> u64
        ensures { result ≡ told_of self lists }
    {
        match self {
            Family::Ancestors => lists.ancestors,
            Family::Descendants => lists.descendants,
            Family::Parents => lists.parents,
            Family::Children => lists.children,
        }
    }
}

/// Which concepts a step finds from a set of concepts, by their lists.
#[derive(Clone, Copy)]
pub enum Reach {
    /// The concepts in at least one of the lists.
    Listed,
    /// The concepts in at least one of the lists, and the concepts of the set.
    ListedOrSelf,
    /// The concepts of the set whose own list contains no concept of the set (`!!>`, `!!<`).
    Apart,
}

/// What a hierarchy operator means: which lists it follows, and which concepts it finds by them.
#[derive(Clone, Copy)]
pub struct Step {
    /// The family of the lists.
    pub family: Family,
    /// Which concepts are found by these lists.
    pub reach: Reach,
}

impl Step {
    /// Returns the step of a hierarchy operator (Expression Constraint Language, "Simple Expression
    /// Constraints").
    pub fn of(operator: Operator) -> Step
        ensures { IsStepFor operator result }
    {
        let (family, reach) = match operator {
            Operator::Descendants => (Family::Descendants, Reach::Listed),
            Operator::DescendantsOrSelf => (Family::Descendants, Reach::ListedOrSelf),
            Operator::Children => (Family::Children, Reach::Listed),
            Operator::ChildrenOrSelf => (Family::Children, Reach::ListedOrSelf),
            Operator::Ancestors => (Family::Ancestors, Reach::Listed),
            Operator::AncestorsOrSelf => (Family::Ancestors, Reach::ListedOrSelf),
            Operator::Parents => (Family::Parents, Reach::Listed),
            Operator::ParentsOrSelf => (Family::Parents, Reach::ListedOrSelf),
            Operator::Top => (Family::Ancestors, Reach::Apart),
            Operator::Bottom => (Family::Descendants, Reach::Apart),
        };
        Step { family, reach }
    }

    /// Returns the family whose lists tell whether this step finds a concept: the step finds it if
    /// the concept's list in that family contains a concept of the set (for `Apart`: contains
    /// none).
    pub fn asked(self) -> Family
        ensures { result ≡ asked_of self }
    {
        match self.reach {
            Reach::Listed | Reach::ListedOrSelf => self.family.opposite(),
            Reach::Apart => self.family,
        }
    }

    /// Returns whether this step also finds the concepts of the set.
    pub fn is_or_self(self) -> bool
        ensures { result ≡ leads_to_self self.reach }
    {
        match self.reach {
            Reach::ListedOrSelf => true,
            Reach::Listed | Reach::Apart => false,
        }
    }

    /// Returns whether this step finds only concepts of the set.
    pub fn is_apart(self) -> bool
        ensures { result ≡ keeps_apart self.reach }
    {
        matches!(self.reach, Reach::Apart)
    }
}
