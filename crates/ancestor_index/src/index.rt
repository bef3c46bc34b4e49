//! The index of a hierarchy, and its look-ups.
ghost use Rattle.std.specs.Prelude.{◌≡◌, ◌↔◌, ◌<◌, IfOk, IfSome, IsSome, length};
ghost use Rattle.std.specs.List.{concat};
ghost use Rattle.std.specs.List.Sorted.{IsStrictlyIncreasing};
ghost use Rattle.number_lists.specs.KeyedLists.{list_of};
ghost use Rattle.ancestor_index.specs.HierarchyLists.{hierarchy_of};
ghost use Rattle.ancestor_index.specs.Wide.{AreWordsOf, IsWide};

use crate::closure::ancestor_lists;
use crate::linked::linked_lists;
use crate::wide::{WideLists, wide_lists};
use held_release::Snapshot;
use number_lists::KeyedLists;
use std::alloc::{AllocError, Global};
use std::marker::Model;

/// The hierarchy of a release: the ancestors, the descendants, the parents and the children of each
/// concept. Contracts see four lists of lists, each with a list for every concept number.
#[derive(Drop)]
pub struct AncestorIndex {
    ancestors: KeyedLists,
    descendants: KeyedLists,
    parents: KeyedLists,
    children: KeyedLists,
    // the long lists of descendants again, as bitmaps in words of 64 bits
    wide: WideLists,
}

impl Model for AncestorIndex {
    ghost use Rattle.ancestor_index.specs.HierarchyLists.{Hierarchy};

    ghost Value = { Hierarchy };

    ghost use Rattle.ancestor_index.specs.inside.IndexInside.{hierarchy_in, HasWide};

    ghost view = { hierarchy_in };

    ghost invariant = { HasWide };
}

impl AncestorIndex {
    /// Builds the hierarchy of the release in `snapshot`, which numbers its concepts in rising
    /// order. Takes time and memory linear in the number of pairs of a concept and one of its
    /// ancestors. Fails with `AllocError` if memory is refused, or if there are 2^32 such pairs or
    /// more.
    pub fn build(alloc: Global, snapshot: &Snapshot) -> Result<AncestorIndex, AllocError>
        ensures hierarchy { IfOk result (λ index. index ≡ hierarchy_of snapshot.now.release) }
        ensures rising { IsStrictlyIncreasing snapshot.now.release.concepts }
    {
        let count = snapshot.concept_count();
        let rows = snapshot.isa_rows();
        let parents = linked_lists(alloc, count, rows)?;
        let children = parents.transposed(alloc, count)?;
        let (ancestors, spare) = ancestor_lists(alloc, &parents, snapshot.parents_first())?;
        // the descendants take the memory of lists that are no longer needed
        let descendants = ancestors.transposed_rising(alloc, count, spare)?;
        let wide = wide_lists(alloc, &descendants, count)?;
        Ok(AncestorIndex {
            ancestors,
            descendants,
            parents,
            children,
            wide,
        })
    }

    /// Returns how many pairs of a concept and one of its ancestors there are.
    pub fn ancestor_count(&self) -> usize
        ensures { result ≡ length (concat self.now.ancestors) }
    {
        self.ancestors.flat().len()
    }

    /// Returns how many pairs of a concept and one of its parents there are.
    pub fn link_count(&self) -> usize
        ensures { result ≡ length (concat self.now.parents) }
    {
        self.parents.flat().len()
    }

    /// Returns the ancestors of `concept` in rising order: the concepts that it reaches by is-a
    /// rows (Expression Constraint Language, "Simple Expression Constraints", `>`). `concept` is
    /// below the number of concepts.
    pub fn ancestors(&self, concept: u32) -> &[u32]
        requires { concept < length self.now.ancestors }
        ensures { result.now ≡ list_of self.now.ancestors concept }
    {
        self.ancestors.of(concept)
    }

    /// Returns the descendants of `concept` in rising order: the concepts that reach it by is-a
    /// rows (Expression Constraint Language, "Simple Expression Constraints", `<`). `concept` is
    /// below the number of concepts.
    pub fn descendants(&self, concept: u32) -> &[u32]
        requires { concept < length self.now.descendants }
        ensures { result.now ≡ list_of self.now.descendants concept }
    {
        self.descendants.of(concept)
    }

    /// Returns the descendants of `concept` as a bitmap in words of 64 bits, with a bit for each
    /// concept, if they are more than a 32nd of all concepts, and otherwise `None`. `concept` is
    /// below the number of concepts.
    pub fn descendant_words(&self, concept: u32) -> Option<&[u64]>
        requires { concept < length self.now.descendants }
        ensures some { IfSome result (λ words. AreWordsOf (length self.now.descendants)
            (list_of self.now.descendants concept) words.now) }
        ensures wide { IsSome result ↔ IsWide (length self.now.descendants)
            (list_of self.now.descendants concept) }
    {
        self.wide.of(concept, self.descendants.len())
    }

    /// Returns the parents of `concept` in rising order and once each: the concepts to which one of
    /// its is-a rows leads (Expression Constraint Language, "Simple Expression Constraints", `>!`).
    /// `concept` is below the number of concepts.
    pub fn parents(&self, concept: u32) -> &[u32]
        requires { concept < length self.now.parents }
        ensures { result.now ≡ list_of self.now.parents concept }
    {
        self.parents.of(concept)
    }

    /// Returns the children of `concept` in rising order and once each: the concepts from which an
    /// is-a row leads to it (Expression Constraint Language, "Simple Expression Constraints",
    /// `<!`). `concept` is below the number of concepts.
    pub fn children(&self, concept: u32) -> &[u32]
        requires { concept < length self.now.children }
        ensures { result.now ≡ list_of self.now.children concept }
    {
        self.children.of(concept)
    }

    /// Returns the parents of all concepts, a list for each concept number.
    pub fn all_parents(&self) -> &KeyedLists
        ensures { result.now ≡ self.now.parents }
    {
        &self.parents
    }

    /// Returns the children of all concepts, a list for each concept number.
    pub fn all_children(&self) -> &KeyedLists
        ensures { result.now ≡ self.now.children }
    {
        &self.children
    }
}
