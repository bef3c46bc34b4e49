//! The test of a leaf for the values of its pairs.
ghost use Rattle.std.specs.Prelude.{ℕ, ◌≡◌, List, false, true};
ghost use Rattle.release_model.specs.Release.{concept_value};
ghost use Rattle.pair_sets.specs.Tested.{found_for, passes_of};

use constraint_tree::Compare;
use idset::ConceptSet;
use numerals::Decimal;
use reading::Answer;

/// Which values pass (Expression Constraint Language, "Refinements").
#[derive(Drop)]
pub enum Tested<S> {
    /// The concepts in the set pass.
    Within(Answer<S>),
    /// The concepts that are not in the set pass.
    Outside(Answer<S>),
    /// The decimals pass for which the comparison with this number holds.
    Number(Compare, Decimal),
}

/// Returns whether the test is a comparison with a number, which no concept passes.
pub fn asks_for_number<S: ConceptSet>(tested: &Tested<S>) -> bool
    ensures { result ≡ true → (concepts : List ℕ) (concept : ℕ)
        → passes_of S.items_of concepts tested.now (concept_value concept) ≡ false }
{
    match tested {
        Tested::Number(_, _) => true,
        Tested::Within(_) | Tested::Outside(_) => false,
    }
}

/// Returns how many concepts the set of the test has; 0 for a comparison with a number.
pub fn count_of_test<S: ConceptSet>(tested: &Tested<S>) -> u32
    ensures { result ≡ found_for S.items_of tested.now }
{
    match tested {
        Tested::Within(set) => set.count(),
        Tested::Outside(set) => set.count(),
        Tested::Number(_, _) => 0,
    }
}
