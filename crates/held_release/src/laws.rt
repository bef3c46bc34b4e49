//! Laws about the definitions of this crate. A law is a function that does nothing; its contract is
//! a theorem.
ghost use Rattle.held_release.specs.Contents.{NamesLeastCyclic};
ghost use Rattle.held_release.specs.Name.{NamesFirstRow};

/// The concept that the fault `Cycle` names is its own descendant by a chain of is-a rows, and has
/// the least identifier of all such concepts. There is no such fault exactly if no concept is its
/// own descendant.
pub fn cyclic_concept_is_the_least()
    ensures { NamesLeastCyclic }
{}

/// Of the name rows of a concept, the row whose term is the concept's name is one before which no
/// other row comes. There is none exactly if the concept has no name row.
#[tactic(auto, using(crate::proofs::NameLawLemmas::names_first_row))]
pub fn naming_row_comes_first()
    ensures { NamesFirstRow }
{}
