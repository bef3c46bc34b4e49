//! The law of this crate's definitions: a function that does nothing, with the law as its contract.
ghost use Rattle.hierarchy.specs.Hierarchy.{TellsReaches};

/// The test `reaches`, which can be computed, holds exactly if a chain of is-a rows leads from the
/// one concept to the other.
#[tactic(auto, using(crate::proofs::HierarchyLemmas::tells_reaches))]
pub fn reaches_tells_chains()
    ensures { TellsReaches }
{}
