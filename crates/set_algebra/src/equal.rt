//! The operator `==` on plans. Two plans are equal if they have the same nodes in the same order.
//! The choices of leaves are not compared, because they do not change the meaning of a plan.
ghost use Rattle.std.specs.Prelude.{◌≡◌, ◌↔◌, IsTrue};
ghost use Rattle.std.specs.Ordering.{on};
ghost use Rattle.std.specs.Cmp.{on_equiv, partial_equiv_from_equiv, decided};
ghost use Rattle.set_algebra.specs.Equal.{same_plan, same_group, same_test};
ghost use Rattle.set_algebra.specs.Plan.{plan_of, plans_of, group_plan_of, group_plans_of, test_plan_of, walk_plan, minus_plan, values_plan, groups_plan, minus_group_plan, pairs_group_plan, number_plan};
ghost use Rattle.set_algebra.specs.EqualLaws.{decides_plan, decides_group, decides_test};

use crate::plan::{ConceptPlan, UnitPlan, ValueTest};
use constraint_tree::{Cardinality, Compare, Operator};
use numerals::Decimal;

impl PartialEq for ConceptPlan {
    ghost eq = { on plan_of same_plan };

    ghost laws = { partial_equiv_from_equiv (on_equiv plan_of (decided same_plan decides_plan)) };

    fn eq(&self, other: &ConceptPlan) -> bool
        ensures test { result ≡ same_plan (plan_of self.now) (plan_of other.now) }
        ensures data { IsTrue result ↔ (plan_of self.now ≡ plan_of other.now) }
    {
        same(self, other)
    }
}

impl PartialEq for UnitPlan {
    ghost eq = { on group_plan_of same_group };

    ghost laws = { partial_equiv_from_equiv (on_equiv group_plan_of
        (decided same_group decides_group)) };

    fn eq(&self, other: &UnitPlan) -> bool
        ensures test { result ≡ same_group (group_plan_of self.now) (group_plan_of other.now) }
        ensures data { IsTrue result ↔ (group_plan_of self.now ≡ group_plan_of other.now) }
    {
        same_group_plan(self, other)
    }
}

impl PartialEq for ValueTest {
    ghost eq = { on test_plan_of same_test };

    ghost laws = { partial_equiv_from_equiv (on_equiv test_plan_of
        (decided same_test decides_test)) };

    fn eq(&self, other: &ValueTest) -> bool
        ensures test { result ≡ same_test (test_plan_of self.now) (test_plan_of other.now) }
        ensures data { IsTrue result ↔ (test_plan_of self.now ≡ test_plan_of other.now) }
    {
        same_value_test(self, other)
    }
}

// Whether the plans of concepts `one` and `other` are equal.
#[cycle(equal)]
#[tactic(auto, using(crate::proofs::PlanLemmas::plans_of_items))]
fn same(one: &ConceptPlan, other: &ConceptPlan) -> bool
    ensures { IsTrue result ↔ (plan_of one.now ≡ plan_of other.now) }
{
    match (one, other) {
        (ConceptPlan::Empty, ConceptPlan::Empty) | (ConceptPlan::All, ConceptPlan::All) => true,
        (ConceptPlan::One(number), ConceptPlan::One(other)) => number == other,
        (ConceptPlan::Walk(operator, operand), ConceptPlan::Walk(other_operator, other)) => {
            same_walk(operator, operand, other_operator, other)
        }
        (ConceptPlan::Members(operand), ConceptPlan::Members(other)) => same(operand, other),
        (ConceptPlan::And(parts), ConceptPlan::And(others)) => same_each(parts, others),
        (ConceptPlan::Or(parts), ConceptPlan::Or(others)) => same_each(parts, others),
        (ConceptPlan::Minus(first, second), ConceptPlan::Minus(other_first, other_second)) => {
            same_minus(first, second, other_first, other_second)
        }
        (ConceptPlan::Values(start, names), ConceptPlan::Values(other, others)) => {
            same_values(start, names, other, others)
        }
        (
            ConceptPlan::Pairs {
                back,
                count,
                types,
                test,
                ..
            },
            ConceptPlan::Pairs {
                back: other_back,
                count: other_count,
                types: others,
                test: other,
                ..
            },
        ) => *back == *other_back && same_pairs(count, types, test, other_count, others, other),
        (
            ConceptPlan::Units { count, units },
            ConceptPlan::Units {
                count: other_count,
                units: others,
            },
        ) => same_groups(count, units, other_count, others),
        _ => false,
    }
}

// Whether two `Walk` nodes are equal. Each arm of `same` that compares several parts is a function
// of its own, so that `same` only selects the arm.
#[cycle(equal)]
fn same_walk(
    operator: &Operator,
    operand: &ConceptPlan,
    other_operator: &Operator,
    other: &ConceptPlan,
) -> bool
    ensures { IsTrue result ↔ (walk_plan operator.now (plan_of operand.now)
        ≡ walk_plan other_operator.now (plan_of other.now)) }
{
    *operator == *other_operator && same(operand, other)
}

// Whether two `Minus` nodes of concepts are equal.
#[cycle(equal)]
fn same_minus(
    first: &ConceptPlan,
    second: &ConceptPlan,
    other_first: &ConceptPlan,
    other_second: &ConceptPlan,
) -> bool
    ensures { IsTrue result ↔ (minus_plan (plan_of first.now) (plan_of second.now)
        ≡ minus_plan (plan_of other_first.now) (plan_of other_second.now)) }
{
    same(first, other_first) && same(second, other_second)
}

// Whether two `Values` nodes are equal.
#[cycle(equal)]
fn same_values(
    start: &ConceptPlan,
    names: &[ConceptPlan],
    other: &ConceptPlan,
    others: &[ConceptPlan],
) -> bool
    ensures { IsTrue result ↔ (values_plan (plan_of start.now) (plans_of names.now)
        ≡ values_plan (plan_of other.now) (plans_of others.now)) }
{
    same(start, other) && same_each(names, others)
}

// Whether two `Pairs` have the same count, types and test. Both `Pairs` of concepts and `Pairs` of
// groups have these parts, and the latter have no others, so the contract names the plan of groups.
// `same` has compared the direction of `Pairs` of concepts.
#[cycle(equal)]
fn same_pairs(
    count: &Cardinality,
    types: &ConceptPlan,
    test: &ValueTest,
    other_count: &Cardinality,
    others: &ConceptPlan,
    other: &ValueTest,
) -> bool
    ensures { IsTrue result ↔ (pairs_group_plan count.now (plan_of types.now)
        (test_plan_of test.now) ≡ pairs_group_plan other_count.now (plan_of others.now)
        (test_plan_of other.now)) }
{
    *count == *other_count && same(types, others) && same_value_test(test, other)
}

// Whether two `Units` nodes are equal.
#[cycle(equal)]
fn same_groups(
    count: &Cardinality,
    units: &UnitPlan,
    other_count: &Cardinality,
    others: &UnitPlan,
) -> bool
    ensures { IsTrue result ↔ (groups_plan count.now (group_plan_of units.now)
        ≡ groups_plan other_count.now (group_plan_of others.now)) }
{
    *count == *other_count && same_group_plan(units, others)
}

// Whether the plans of groups `one` and `other` are equal.
#[cycle(equal)]
#[tactic(auto, using(crate::proofs::PlanLemmas::plans_of_items))]
fn same_group_plan(one: &UnitPlan, other: &UnitPlan) -> bool
    ensures { IsTrue result ↔ (group_plan_of one.now ≡ group_plan_of other.now) }
{
    match (one, other) {
        (UnitPlan::Nothing, UnitPlan::Nothing) | (UnitPlan::Every, UnitPlan::Every) => true,
        (UnitPlan::And(parts), UnitPlan::And(others)) => same_each_group(parts, others),
        (UnitPlan::Or(parts), UnitPlan::Or(others)) => same_each_group(parts, others),
        (UnitPlan::Minus(first, second), UnitPlan::Minus(other_first, other_second)) => {
            same_group_minus(first, second, other_first, other_second)
        }
        (
            UnitPlan::Pairs {
                count,
                types,
                test,
                ..
            },
            UnitPlan::Pairs {
                count: other_count,
                types: others,
                test: other,
                ..
            },
        ) => same_pairs(count, types, test, other_count, others, other),
        _ => false,
    }
}

// Whether two `Minus` nodes of groups are equal.
#[cycle(equal)]
fn same_group_minus(
    first: &UnitPlan,
    second: &UnitPlan,
    other_first: &UnitPlan,
    other_second: &UnitPlan,
) -> bool
    ensures { IsTrue result ↔ (minus_group_plan (group_plan_of first.now) (group_plan_of second.now)
        ≡ minus_group_plan (group_plan_of other_first.now) (group_plan_of other_second.now)) }
{
    same_group_plan(first, other_first) && same_group_plan(second, other_second)
}

// Whether the tests `one` and `other` are equal.
#[cycle(equal)]
fn same_value_test(one: &ValueTest, other: &ValueTest) -> bool
    ensures { IsTrue result ↔ (test_plan_of one.now ≡ test_plan_of other.now) }
{
    match (one, other) {
        (ValueTest::Within(operand), ValueTest::Within(other))
        | (ValueTest::Outside(operand), ValueTest::Outside(other)) => same(operand, other),
        (ValueTest::Number(compare, number), ValueTest::Number(other_compare, other)) => {
            same_number(compare, number, other_compare, other)
        }
        _ => false,
    }
}

// Whether two comparisons with a number are equal.
fn same_number(
    compare: &Compare,
    number: &Decimal,
    other_compare: &Compare,
    other: &Decimal,
) -> bool
    ensures { IsTrue result ↔ (number_plan compare.now number.now.0
        ≡ number_plan other_compare.now other.now.0) }
{
    *compare == *other_compare && *number == *other
}

// Whether the lists of plans `parts` and `others` are equal.
#[cycle(equal)]
fn same_each(parts: &[ConceptPlan], others: &[ConceptPlan]) -> bool
    ensures { IsTrue result ↔ (plans_of parts.now ≡ plans_of others.now) }
{
    if parts.len() != others.len() {
        return false;
    }
    for (i, part) in parts.iter().enumerate() {
        if !same(part, &others[i]) {
            return false;
        }
    }
    true
}

// Whether the lists of plans of groups `parts` and `others` are equal.
#[cycle(equal)]
fn same_each_group(parts: &[UnitPlan], others: &[UnitPlan]) -> bool
    ensures { IsTrue result ↔ (group_plans_of parts.now ≡ group_plans_of others.now) }
{
    if parts.len() != others.len() {
        return false;
    }
    for (i, part) in parts.iter().enumerate() {
        if !same_group_plan(part, &others[i]) {
            return false;
        }
    }
    true
}
