//! Laws about the definitions of this crate. A law is a function that does nothing; its contract is
//! a theorem.
ghost use Rattle.release_rows.specs.Chosen.{ChoosesOne, ChoosesTheLatest};
ghost use Rattle.release_rows.specs.Faults.{NamesFirstFault};
ghost use Rattle.number_lists.specs.RisingOrder.{KeepsRising};

/// `first_fault` names the fault of the first place that has one: no earlier place has a fault. It
/// names none exactly if no place has a fault.
pub fn first_fault_is_the_first()
    ensures { NamesFirstFault }
{}

/// Of each component exactly one row is chosen, and no row of the component is later than it.
#[tactic(auto, using(crate::proofs::LatestLemmas::chosen_latest, crate::proofs::LatestLemmas::chosen_once))]
pub fn latest_rows_are_chosen()
    ensures latest { ChoosesTheLatest }
    ensures one { ChoosesOne }
{}

/// `rising` of a list of identifiers has exactly the members of the list, each once, in rising
/// order.
pub fn rising_keeps_the_members()
    ensures { KeepsRising }
{}
