//! Puts the choices that a caller asks for into the leaves of a plan.
ghost use Rattle.std.specs.Prelude.{◌≡◌, drop};
ghost use Rattle.set_algebra.specs.Physical.{physical_of, physical_test_of, physical_groups_list_of, physical_groups_of};
ghost use Rattle.set_algebra.specs.Physical.{physicals_of};
ghost use Rattle.plan_bounds.specs.Counts.{is_within};
ghost use Rattle.planner.specs.Asked.{asked_or, first_of};
ghost use Rattle.planner.specs.inside.AskedInPlace.{all_with_asked, group_with_asked, groups_with_asked};
ghost use Rattle.planner.specs.inside.AskedInPlace.{test_with_asked, with_asked};

use set_algebra::{Choice, ConceptPlan, UnitPlan, ValueTest};

/// Gives the leaves of `plan` the choices of `asked`, in order: a leaf before the leaves below it,
/// its types before its test, and siblings from the first to the last. A leaf that does not offer
/// its choice keeps the one that it has, and uses up the entry of `asked` all the same. Returns the
/// choices that no leaf took. It visits each node once and allocates nothing.
#[cycle(put)]
#[tactic(auto, using(crate::proofs::Rules::choosing))]
pub fn put_asked<'a>(plan: &mut ConceptPlan, asked: &'a [Choice]) -> &'a [Choice]
    ensures plan { physical_of plan.new ≡ (with_asked asked.now (physical_of plan.old)).plan }
    ensures rest { result.now ≡ (with_asked asked.now (physical_of plan.old)).rest }
{
    match plan {
        ConceptPlan::Empty => asked,
        ConceptPlan::All => asked,
        ConceptPlan::One(_) => asked,
        ConceptPlan::Walk(_, operand) => put_asked(operand, asked),
        ConceptPlan::Members(operand) => put_asked(operand, asked),
        ConceptPlan::And(parts) => put_in_each(parts, asked),
        ConceptPlan::Or(parts) => put_in_each(parts, asked),
        ConceptPlan::Minus(first, second) => {
            let rest = put_asked(first, asked);
            put_asked(second, rest)
        }
        ConceptPlan::Values(start, names) => {
            let rest = put_asked(start, asked);
            put_in_each(names, rest)
        }
        ConceptPlan::Pairs {
            types,
            test,
            choice,
            ..
        } => put_in_leaf(types, test, choice, asked),
        ConceptPlan::Units { units, .. } => put_in_groups(units, asked),
    }
}

// Gives the leaves of the plan of groups `plan` the choices of `asked`, as `put_asked` does.
// Returns the choices that no leaf took.
#[cycle(put)]
#[tactic(auto, using(crate::proofs::Rules::choosing))]
fn put_in_groups<'a>(plan: &mut UnitPlan, asked: &'a [Choice]) -> &'a [Choice]
    ensures plan { physical_groups_of plan.new
        ≡ (group_with_asked asked.now (physical_groups_of plan.old)).plan }
    ensures rest { result.now ≡ (group_with_asked asked.now (physical_groups_of plan.old)).rest }
{
    match plan {
        UnitPlan::Nothing => asked,
        UnitPlan::Every => asked,
        UnitPlan::And(parts) => put_in_each_groups(parts, asked),
        UnitPlan::Or(parts) => put_in_each_groups(parts, asked),
        UnitPlan::Minus(first, second) => {
            let rest = put_in_groups(first, asked);
            put_in_groups(second, rest)
        }
        UnitPlan::Pairs {
            types,
            test,
            choice,
            ..
        } => put_in_leaf(types, test, choice, asked),
    }
}

// Gives a leaf, whose choice is `choice`, the first choice of `asked` if it offers it. Gives the
// later choices to the leaves of its types, and then to those of its test. Returns the choices that
// no leaf took.
#[cycle(put)]
fn put_in_leaf<'a>(
    types: &mut ConceptPlan,
    test: &mut ValueTest,
    choice: &mut Choice,
    asked: &'a [Choice],
) -> &'a [Choice]
    ensures types { physical_of types.new
        ≡ (with_asked (drop 1 asked.now) (physical_of types.old)).plan }
    ensures test { physical_test_of test.new
        ≡ (test_with_asked (with_asked (drop 1 asked.now) (physical_of types.old)).rest
        (physical_test_of test.old)).plan }
    ensures choice { choice.new ≡ asked_or (is_within (physical_test_of test.old))
        (first_of asked.now) choice.old }
    ensures rest { result.now ≡ (test_with_asked
        (with_asked (drop 1 asked.now) (physical_of types.old)).rest
        (physical_test_of test.old)).rest }
{
    *choice = own_choice(test, asked, *choice);
    let rest = put_asked(types, after_first(asked));
    put_in_test(test, rest)
}

// Gives the leaves of the plan of `test` the choices of `asked`. Returns the choices that no leaf
// took.
#[cycle(put)]
fn put_in_test<'a>(test: &mut ValueTest, asked: &'a [Choice]) -> &'a [Choice]
    ensures test { physical_test_of test.new
        ≡ (test_with_asked asked.now (physical_test_of test.old)).plan }
    ensures rest { result.now ≡ (test_with_asked asked.now (physical_test_of test.old)).rest }
{
    match test {
        ValueTest::Within(operand) => put_asked(operand, asked),
        ValueTest::Outside(operand) => put_asked(operand, asked),
        ValueTest::Number(_, _) => asked,
    }
}

// Gives the leaves of the plans `parts` the choices of `asked`, plan by plan. Returns the choices
// that no leaf took.
#[cycle(put)]
fn put_in_each<'a>(parts: &mut Vec<ConceptPlan>, asked: &'a [Choice]) -> &'a [Choice]
    ensures parts { physicals_of parts.new.items
        ≡ (all_with_asked asked.now (physicals_of parts.old.items)).plan }
    ensures rest { result.now ≡ (all_with_asked asked.now (physicals_of parts.old.items)).rest }
{
    let mut rest = asked;
    for place in 0..parts.len() {
        rest = put_asked(&mut parts[place], rest);
    }
    rest
}

// Gives the leaves of the plans of groups `parts` the choices of `asked`, plan by plan. Returns the
// choices that no leaf took.
#[cycle(put)]
fn put_in_each_groups<'a>(parts: &mut Vec<UnitPlan>, asked: &'a [Choice]) -> &'a [Choice]
    ensures parts { physical_groups_list_of parts.new.items
        ≡ (groups_with_asked asked.now (physical_groups_list_of parts.old.items)).plan }
    ensures rest { result.now ≡ (groups_with_asked asked.now
        (physical_groups_list_of parts.old.items)).rest }
{
    let mut rest = asked;
    for place in 0..parts.len() {
        rest = put_in_groups(&mut parts[place], rest);
    }
    rest
}

// Returns the first choice of `asked` if a leaf with the test `test` offers it, or else `other`.
// Each leaf offers `ByType` and `Scan`; only one with a `Within` test offers `ByValue`.
fn own_choice(test: &ValueTest, asked: &[Choice], other: Choice) -> Choice
    ensures { result ≡ asked_or (is_within (physical_test_of test.now)) (first_of asked.now) other }
{
    match asked.first() {
        Some(Choice::ByValue) => match test {
            ValueTest::Within(_) => Choice::ByValue,
            ValueTest::Outside(_) | ValueTest::Number(_, _) => other,
        },
        Some(choice) => *choice,
        None => other,
    }
}

// Returns `choices` without the first, or the empty list if `choices` is empty.
fn after_first(choices: &[Choice]) -> &[Choice]
    ensures { result.now ≡ drop 1 choices.now }
{
    match choices.split_first() {
        Some((_, rest)) => rest,
        None => choices,
    }
}
