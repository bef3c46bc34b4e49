//! Laws about the definitions of this crate: functions that do nothing, each with the law as its
//! contract.
ghost use Rattle.ancestor_index.specs.Complete.{AreComplete, AreRisingLists, AreSingleSteps};

/// The hierarchy of a release is complete. For each concept it lists exactly the concepts that the
/// concept reaches by a chain of is-a rows (ancestors), those that reach it (descendants), and
/// those one row away (parents and children). Each list rises strictly.
pub fn lists_are_complete()
    ensures rising { AreRisingLists }
    ensures reached { AreComplete }
    ensures steps { AreSingleSteps }
{}
