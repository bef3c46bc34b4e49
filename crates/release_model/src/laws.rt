//! Laws about the definitions of this crate: functions that do nothing, each with the law as its
//! contract.
ghost use Rattle.number_lists.specs.Distinct.{KeepsEachNumberOnce};
ghost use Rattle.release_model.specs.Pairs.{KeepsEachPairOnce, TellsSamePair, TellsSameValue};

/// `value_eq` holds exactly for equal values, and `pair_eq` exactly for equal pairs.
#[tactic(auto, using(crate::proofs::PairLemmas::tells_same_value, crate::proofs::PairLemmas::tells_same_pair))]
pub fn same_pairs_are_told()
    ensures value { TellsSameValue }
    ensures pair { TellsSamePair }
{}

/// `distinct` keeps each member of a list once and adds none, for numbers and for pairs.
pub fn distinct_keeps_each_once()
    ensures numbers { KeepsEachNumberOnce }
    ensures pairs { KeepsEachPairOnce }
{}
