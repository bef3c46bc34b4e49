//! Tests whether values, given by number, pass the test of a leaf.
ghost use Rattle.std.specs.Prelude.{◌≡◌, All, false, length, true};
ghost use Rattle.std.specs.Ordering.{int_cmp};
ghost use Rattle.release_model.specs.Release.{Attribute};
ghost use Rattle.constraint_tree.specs.Passing.{is_number_that};
ghost use Rattle.pair_sets.specs.inside.Hits.{value_of};
ghost use Rattle.pair_sets.specs.Tested.{IsTestBelow, meets as meets_of, passes_of};

use crate::tested::Tested;
use constraint_tree::Compare;
use idset::ConceptSet;
use numerals::Decimal;
use reading::Reader;
use std::cmp::Ordering;

/// Returns whether the value with the number `value` passes `tested` (Expression Constraint
/// Language, "Refinements"). The set of the test is only tested for membership, so nothing is
/// counted. Any `value` is allowed.
pub fn passes<S: ConceptSet>(reader: Reader<'_>, tested: &Tested<S>, value: u32) -> bool
    requires { IsTestBelow S.bound_of (length reader.indexes.now.concepts) tested.now }
    ensures { result ≡ passes_of S.items_of reader.entry.indexes.now.concepts tested.now
        (value_of reader.entry.indexes.now value) }
{
    // tells the prover that the concepts rise, so that none has two numbers
    let concepts = reader.concept_count();
    match tested {
        Tested::Within(set) => set.has(value),
        Tested::Outside(set) => value < concepts && !set.has(value),
        Tested::Number(compare, number) => is_number(reader, *compare, *number, value),
    }
}

/// Returns true if it is certain that no row has a value that passes `tested`. This is found only
/// for a comparison with a number, if no decimal of any row fulfils it. The decimals are compared
/// only if there are at most `rows` of them.
pub fn none_passes<S: ConceptSet>(reader: Reader<'_>, tested: &Tested<S>, rows: u64) -> bool
    ensures { result ≡ true → All (λ (row : Attribute). passes_of S.items_of
        reader.entry.indexes.now.concepts tested.now row.value ≡ false)
        reader.entry.indexes.now.rows }
{
    match tested {
        Tested::Number(compare, number) => {
            u64::from(reader.decimal_count()) <= rows && none_meets(reader, *compare, *number)
        }
        Tested::Within(_) | Tested::Outside(_) => false,
    }
}

// Returns whether no decimal of any row fulfils the comparison with `number`.
fn none_meets(reader: Reader<'_>, compare: Compare, number: Decimal) -> bool
    ensures { result ≡ true → All (λ decimal. meets_of compare (int_cmp decimal number.0) ≡ false)
        reader.entry.indexes.now.decimals }
{
    for place in 0..reader.decimal_count() {
        if meets(compare, reader.compare_decimal(place, number)) {
            return false;
        }
    }
    true
}

// Returns whether the value with the number `value` is a decimal that fulfils the comparison with
// `number`.
fn is_number(reader: Reader<'_>, compare: Compare, number: Decimal, value: u32) -> bool
    ensures { result ≡ is_number_that compare number.0 (value_of reader.entry.indexes.now value) }
{
    let concepts = reader.concept_count();
    if value < concepts {
        return false;
    }
    // values are numbered: first the concepts, then the decimals
    let place = value - concepts;
    if place >= reader.decimal_count() {
        return false;
    }
    meets(compare, reader.compare_decimal(place, number))
}

// Returns whether a comparison holds for two numbers whose order is `order`.
fn meets(compare: Compare, order: Ordering) -> bool
    ensures { result ≡ meets_of compare order }
{
    match compare {
        Compare::Equal => order.is_eq(),
        Compare::NotEqual => order.is_ne(),
        Compare::Less => order.is_lt(),
        Compare::LessOrEqual => order.is_le(),
        Compare::Greater => order.is_gt(),
        Compare::GreaterOrEqual => order.is_ge(),
    }
}
