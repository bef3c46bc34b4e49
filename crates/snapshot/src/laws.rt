//! A law about the definitions of this crate. A law is a function that does nothing; its contract
//! is a theorem.
ghost use Rattle.snapshot.specs.Passed.{CountsPassedRows};

/// If no place of the files has a fault, the number of rows that a load counts as passed over is
/// the number of rows in none of the release's lists: the rows that are not chosen, and the chosen
/// rows that no list takes, counted kind by kind.
pub fn rows_are_listed_or_passed()
    ensures { CountsPassedRows }
{}
