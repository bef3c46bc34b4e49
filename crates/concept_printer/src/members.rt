//! The reference sets with a given member.
ghost use Rattle.std.specs.Prelude.{◌≡◌, ◌<◌, IfOk, length};
ghost use Rattle.release_model.specs.Release.{Release};
ghost use Rattle.postings.specs.Indexed.{IsIndexOf};
ghost use Rattle.number_lists.specs.KeyedLists.{list_of};
ghost use Rattle.number_lists.specs.Members.{has};
ghost use Rattle.number_lists.specs.Rising.{numbers_where};

use idset::has_number;
use postings::Indexes;
use std::alloc::{AllocError, Global};

/// Returns the numbers of the reference sets that have the concept `component` as a member, in
/// rising order. It tests each reference set that has members (Release File Specification, "Simple
/// reference set"), because no index leads from a component to its reference sets.
pub fn reference_sets_with(
    alloc: Global,
    indexes: &Indexes,
    component: u32,
) -> Result<Vec<u32>, AllocError>
    requires { (release : Release) × IsIndexOf indexes.now release }
    ensures { IfOk result (λ sets. sets.items ≡ numbers_where (length indexes.now.members)
        (λ set. has (list_of indexes.now.members set) component)) }
{
    let mut sets = Vec::new(alloc);
    for set in indexes.reference_sets() {
        if is_member(indexes, *set, component) {
            sets.push(*set)?;
        }
    }
    Ok(sets)
}

// Returns whether `component` is a member of the reference set `set`. Both are concept numbers.
fn is_member(indexes: &Indexes, set: u32, component: u32) -> bool
    requires indexes { (release : Release) × IsIndexOf indexes.now release }
    requires set { set < length indexes.now.members }
    ensures { result ≡ has (list_of indexes.now.members set) component }
{
    // Both are called for their contracts, which tell the prover that each concept has a list of
    // members, and that its number fits in 32 bits.
    indexes.stats();
    indexes.concept_count();
    has_number(indexes.members(set), component)
}
