//! Laws about the definitions of this crate: functions that do nothing, each with the law as its
//! contract.
ghost use Rattle.postings.specs.Laws.{AreFirstOfConcept, AreFirstOfGroup, CountsFirstBack, CountsGroups};

/// The distinct pairs of a concept, of a group, or of a value read backwards can be counted by
/// flags: they are as many as the rows that are the first with their pair.
pub fn first_rows_tell_the_pairs()
    ensures concept { AreFirstOfConcept }
    ensures group { AreFirstOfGroup }
    ensures back { CountsFirstBack }
{}

/// For any test of a list of pairs: as many groups of a concept pass among the numbered groups of
/// the indexes (`groups_among`) as in the definition of groups (`groups_of`).
pub fn groups_are_counted()
    ensures { CountsGroups }
{}
