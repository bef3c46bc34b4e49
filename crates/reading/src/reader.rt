//! A release that is open for reading.
ghost use Rattle.std.specs.Prelude.{◌≡◌, length};
ghost use Rattle.std.specs.List.Sorted.{IsStrictlyIncreasing};
ghost use Rattle.std.proofs.Props.{props};
ghost use Rattle.held_release.specs.AttributesBySource.{attributes_by_source};
ghost use Rattle.postings.specs.Indexed.{HasListsFor, IsIndexOf};

use crate::counter::{Counter, Visits};
use held_release::Snapshot;
use postings::Indexes;
use std::alloc::Global;

/// A release with its indexes and the allocator. Both the release and the indexes are private: the
/// crates that execute plans get lists only from the calls of a reader, which count the items.
/// `bench/uncounted.py` shows that the program opens one reader, and reads nothing past it.
#[derive(Clone, Copy)]
pub struct Reader<'a> {
    /// The allocator.
    pub alloc: Global,
    pub(crate) snapshot: &'a Snapshot,
    pub(crate) indexes: &'a Indexes,
    // for the prover: the indexes are those of the release, whose concepts rise
    pub ghost index: { IsIndexOf indexes.now snapshot.now.release } by { Prim.hlevel props },
    pub ghost rising: { IsStrictlyIncreasing
        snapshot.now.release.concepts } by { Prim.hlevel props },
    // for the prover: the source of each attribute row is in force
    pub ghost by_source: { length (attributes_by_source snapshot.now.release)
        ≡ length snapshot.now.release.attributes },
    // for the prover: the hierarchy and `members` have a list for each concept
    pub ghost lists: { HasListsFor (length indexes.now.concepts)
        indexes.now.hierarchy } by { Prim.hlevel props },
    pub ghost members: { length indexes.now.members ≡ length indexes.now.concepts },
}

impl<'a> Reader<'a> {
    /// Opens a release and its indexes for reading. Also returns the counter, which goes on from
    /// `visits`.
    pub fn open(
        alloc: Global,
        snapshot: &'a Snapshot,
        indexes: &'a Indexes,
        visits: Visits,
    ) -> (Reader<'a>, Counter)
        requires { IsIndexOf indexes.now snapshot.now.release }
        ensures snapshot { result.0.snapshot.now ≡ snapshot.now }
        ensures indexes { result.0.indexes.now ≡ indexes.now }
        ensures count { result.1.count ≡ visits.count }
    {
        // these calls tell the prover that the concepts rise, and that each has its lists
        snapshot.concept_count();
        snapshot.attribute_count();
        indexes.stats();
        let reader = Reader {
            alloc,
            snapshot,
            indexes,
        };
        (reader, Counter::from(visits))
    }
}
