//! A law about the definitions of this crate: a function that does nothing, with the law as its
//! contract.
ghost use Rattle.rf2_rows.specs.Versions.{IsEquivalenceOfRows};

/// `same_row` is an equivalence relation on the accepted lines of a kind of file.
pub fn same_row_is_an_equivalence()
    ensures { IsEquivalenceOfRows }
{}
