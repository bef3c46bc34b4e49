//! Tests of the plans of worked queries, of the depth and the copies of plans, and of comparing
//! plans.
use crate::trees::{
    SOME, attribute, boxed as boxed_query, by_value as query_by_value, either, members, pair_of,
    refined, walk,
};
use constraint_tree::{
    Attribute, AttributeSet, Cardinality, Compare, Constraint, Operator, Refinement, Test,
};
use numerals::Decimal;
use set_algebra::{Choice, ConceptPlan, UnitPlan, ValueTest, lower};
use std::alloc::{AllocError, Global};

const THREE: Cardinality = Cardinality {
    min: 3,
    max: Some(3),
};

const TWO: Decimal = Decimal(2_000_000_000_000_000_000);

fn boxed(alloc: Global, plan: ConceptPlan) -> Result<Box<ConceptPlan>, AllocError> {
    Ok(Box::new(alloc, plan)?)
}

fn plans_of(
    alloc: Global,
    first: ConceptPlan,
    second: ConceptPlan,
) -> Result<Vec<ConceptPlan>, AllocError> {
    Ok(vec![in alloc; first, second]?)
}

fn one(alloc: Global, number: u64) -> Result<Box<ConceptPlan>, AllocError> {
    boxed(alloc, ConceptPlan::One(number))
}

fn walked(alloc: Global, operator: Operator, number: u64) -> Result<ConceptPlan, AllocError> {
    Ok(ConceptPlan::Walk(operator, one(alloc, number)?))
}

// Returns the plan of the concepts below 100005 that `plan` means too.
fn below_and(alloc: Global, plan: ConceptPlan) -> Result<ConceptPlan, AllocError> {
    let below = walked(alloc, Operator::Descendants, 100005)?;
    Ok(ConceptPlan::And(plans_of(alloc, below, plan)?))
}

fn lowered(
    alloc: Global,
    query: Result<Constraint, AllocError>,
) -> Result<ConceptPlan, AllocError> {
    lower(alloc, &query?)
}

// Whether two plans are equal, unless memory for one of them was refused.
fn are_equal(
    found: Result<ConceptPlan, AllocError>,
    wanted: Result<ConceptPlan, AllocError>,
) -> Result<bool, AllocError> {
    Ok(found? == wanted?)
}

fn lowers_to(
    alloc: Global,
    query: Result<Constraint, AllocError>,
    wanted: Result<ConceptPlan, AllocError>,
) -> Result<bool, AllocError> {
    are_equal(lowered(alloc, query), wanted)
}

// `<100005:104001=106004`
fn by_value(alloc: Global) -> Result<ConceptPlan, AllocError> {
    let types = one(alloc, 104001)?;
    let pairs = ConceptPlan::Pairs {
        back: false,
        count: SOME,
        types,
        test: ValueTest::Within(one(alloc, 106004)?),
        choice: Choice::ByType,
    };
    below_and(alloc, pairs)
}

fn lowers_by_value(alloc: Global) -> Result<bool, AllocError> {
    lowers_to(alloc, query_by_value(alloc), by_value(alloc))
}

// `*:105000>#2`
fn query_by_type(alloc: Global) -> Result<Constraint, AllocError> {
    let above_two = attribute(SOME, 105000, Test::Number(Compare::Greater, TWO));
    let refinement = Box::new(alloc, Refinement::One(above_two))?;
    Ok(Constraint::Refined(boxed_query(alloc, Constraint::Any)?, refinement))
}

fn by_type(alloc: Global) -> Result<ConceptPlan, AllocError> {
    let pairs = ConceptPlan::Pairs {
        back: false,
        count: SOME,
        types: one(alloc, 105000)?,
        test: ValueTest::Number(Compare::Greater, TWO),
        choice: Choice::ByType,
    };
    Ok(ConceptPlan::And(plans_of(alloc, ConceptPlan::All, pairs)?))
}

fn lowers_by_type(alloc: Global) -> Result<bool, AllocError> {
    lowers_to(alloc, query_by_type(alloc), by_type(alloc))
}

// Returns the group plan of `{type_id=values}`.
fn valued(alloc: Global, type_id: u64, values: ConceptPlan) -> Result<UnitPlan, AllocError> {
    let values = boxed(alloc, values)?;
    Ok(UnitPlan::Pairs {
        count: SOME,
        types: one(alloc, type_id)?,
        test: ValueTest::Within(values),
        choice: Choice::ByType,
    })
}

fn valued_below(alloc: Global) -> Result<UnitPlan, AllocError> {
    let values = walked(alloc, Operator::DescendantsOrSelf, 106004)?;
    valued(alloc, 104001, values)
}

// Returns the group plan of `{104001=<<106004,105000=*}`.
fn groups_in_braces(alloc: Global) -> Result<UnitPlan, AllocError> {
    let first = valued_below(alloc)?;
    let second = valued(alloc, 105000, ConceptPlan::All)?;
    Ok(UnitPlan::And(vec![in alloc; first, second]?))
}

// `<100005:{104001=<<106004,105000=*}`
fn in_braces(alloc: Global) -> Result<ConceptPlan, AllocError> {
    let groups = ConceptPlan::Units {
        count: SOME,
        units: Box::new(alloc, groups_in_braces(alloc)?)?,
    };
    below_and(alloc, groups)
}

fn attribute_within(
    alloc: Global,
    type_id: u64,
    values: Constraint,
) -> Result<AttributeSet, AllocError> {
    let within = Test::Within(boxed_query(alloc, values)?);
    Ok(AttributeSet::One(attribute(SOME, type_id, within)))
}

fn attribute_below(alloc: Global) -> Result<AttributeSet, AllocError> {
    let values = walk(
        alloc,
        Operator::DescendantsOrSelf,
        Constraint::Concept(106004),
    )?;
    attribute_within(alloc, 104001, values)
}

fn sets(
    alloc: Global,
    first: AttributeSet,
    second: AttributeSet,
) -> Result<AttributeSet, AllocError> {
    Ok(AttributeSet::And(vec![in alloc; first, second]?))
}

fn set_in_braces(alloc: Global) -> Result<AttributeSet, AllocError> {
    let first = attribute_below(alloc)?;
    sets(
        alloc,
        first,
        attribute_within(alloc, 105000, Constraint::Any)?,
    )
}

fn query_in_braces(alloc: Global) -> Result<Constraint, AllocError> {
    refined(alloc, Refinement::Group(SOME, set_in_braces(alloc)?))
}

fn lowers_in_braces(alloc: Global) -> Result<bool, AllocError> {
    lowers_to(alloc, query_in_braces(alloc), in_braces(alloc))
}

// `100005,100005`
fn query_twice_the_same(alloc: Global) -> Result<Constraint, AllocError> {
    let parts = pair_of(
        alloc,
        Constraint::Concept(100005),
        Constraint::Concept(100005),
    )?;
    Ok(Constraint::And(parts))
}

fn both(alloc: Global, first: u64, second: u64) -> Result<ConceptPlan, AllocError> {
    let parts = plans_of(alloc, ConceptPlan::One(first), ConceptPlan::One(second))?;
    Ok(ConceptPlan::And(parts))
}

fn lowers_twice_the_same(alloc: Global) -> Result<bool, AllocError> {
    lowers_to(
        alloc,
        query_twice_the_same(alloc),
        both(alloc, 100005, 100005),
    )
}

// `[3..3] R 105000!=^108003`
fn sources(alloc: Global) -> Result<Refinement, AllocError> {
    let members = boxed_query(alloc, members(alloc, Constraint::Concept(108003))?)?;
    Ok(Refinement::One(Attribute {
        count: THREE,
        reverse: true,
        name: Constraint::Concept(105000),
        test: Test::Outside(members),
    }))
}

// `<<106004:[3..3] R 105000!=^108003`
fn query_backwards(alloc: Global) -> Result<Constraint, AllocError> {
    let refinement = Box::new(alloc, sources(alloc)?)?;
    let values = walk(
        alloc,
        Operator::DescendantsOrSelf,
        Constraint::Concept(106004),
    )?;
    Ok(Constraint::Refined(boxed_query(alloc, values)?, refinement))
}

fn pairs_back(alloc: Global) -> Result<ConceptPlan, AllocError> {
    let members = boxed(alloc, ConceptPlan::Members(one(alloc, 108003)?))?;
    Ok(ConceptPlan::Pairs {
        back: true,
        count: THREE,
        types: one(alloc, 105000)?,
        test: ValueTest::Outside(members),
        choice: Choice::ByType,
    })
}

fn backwards(alloc: Global) -> Result<ConceptPlan, AllocError> {
    let values = walked(alloc, Operator::DescendantsOrSelf, 106004)?;
    let pairs = pairs_back(alloc)?;
    Ok(ConceptPlan::And(plans_of(alloc, values, pairs)?))
}

fn lowers_backwards(alloc: Global) -> Result<bool, AllocError> {
    lowers_to(alloc, query_backwards(alloc), backwards(alloc))
}

// `100005 MINUS *`
fn all_taken_away(alloc: Global) -> Result<Constraint, AllocError> {
    let first = boxed_query(alloc, Constraint::Concept(100005))?;
    let all = boxed_query(alloc, Constraint::Any)?;
    Ok(Constraint::Minus(first, all))
}

fn names(alloc: Global) -> Result<Vec<Constraint>, AllocError> {
    let second = either(alloc, 105000, 104001)?;
    pair_of(alloc, Constraint::Concept(104001), second)
}

// `(100005 MINUS *).104001.(105000 OR 104001)`
fn query_along_names(alloc: Global) -> Result<Constraint, AllocError> {
    let start = boxed_query(alloc, all_taken_away(alloc)?)?;
    Ok(Constraint::Dotted(start, names(alloc)?))
}

fn types(alloc: Global) -> Result<Vec<ConceptPlan>, AllocError> {
    let either = plans_of(alloc, ConceptPlan::One(105000), ConceptPlan::One(104001))?;
    plans_of(alloc, ConceptPlan::One(104001), ConceptPlan::Or(either))
}

fn along_names(alloc: Global) -> Result<ConceptPlan, AllocError> {
    let all = boxed(alloc, ConceptPlan::All)?;
    let from = boxed(alloc, ConceptPlan::Minus(one(alloc, 100005)?, all))?;
    Ok(ConceptPlan::Values(from, types(alloc)?))
}

fn lowers_along_names(alloc: Global) -> Result<bool, AllocError> {
    lowers_to(alloc, query_along_names(alloc), along_names(alloc))
}

fn depth_of(plan: Result<ConceptPlan, AllocError>) -> Result<u64, AllocError> {
    Ok(plan?.depth())
}

fn depth_of_groups(groups: Result<UnitPlan, AllocError>) -> Result<u64, AllocError> {
    Ok(groups?.depth())
}

fn depths_hold(alloc: Global) -> Result<bool, AllocError> {
    let depths = [
        depth_of(by_value(alloc))?,
        depth_of_groups(groups_in_braces(alloc))?,
        depth_of(in_braces(alloc))?,
    ];
    let empty = Ok(ConceptPlan::Or(Vec::new(alloc)));
    let leaves = [
        ConceptPlan::All.depth(),
        UnitPlan::Every.depth(),
        depth_of(empty)?,
    ];
    Ok(depths == [3, 4, 6] && leaves == [1, 1, 1])
}

fn copy_is_equal(alloc: Global, plan: &ConceptPlan) -> Result<bool, AllocError> {
    Ok(plan.copy(alloc)? == *plan)
}

fn copy_of_groups_is_equal(alloc: Global, groups: &UnitPlan) -> Result<bool, AllocError> {
    Ok(groups.copy(alloc)? == *groups)
}

fn copies_are_equal(alloc: Global) -> Result<bool, AllocError> {
    let plans = copy_is_equal(alloc, &in_braces(alloc)?)?;
    let groups = copy_of_groups_is_equal(alloc, &groups_in_braces(alloc)?)?;
    Ok(plans && groups)
}

// Whether the plan of this operator and concept equals that of `<100005`.
fn is_below(alloc: Global, operator: Operator, number: u64) -> Result<bool, AllocError> {
    are_equal(
        walked(alloc, Operator::Descendants, 100005),
        walked(alloc, operator, number),
    )
}

// Whether the plan of these two concepts, in this order, equals that of `100005,101009`.
fn are_both(alloc: Global, first: u64, second: u64) -> Result<bool, AllocError> {
    are_equal(both(alloc, 100005, 101009), both(alloc, first, second))
}

fn fewer(alloc: Global) -> Result<ConceptPlan, AllocError> {
    Ok(ConceptPlan::And(vec![in alloc; ConceptPlan::One(100005)]?))
}

fn leaves_differ(alloc: Global) -> bool {
    ConceptPlan::Or(Vec::new(alloc)) != ConceptPlan::Empty
        && UnitPlan::And(Vec::new(alloc)) != UnitPlan::Every
        && ValueTest::Number(Compare::Less, TWO) != ValueTest::Number(Compare::LessOrEqual, TWO)
}

// Checks that plans which differ in one thing are not equal.
fn others_differ(alloc: Global) -> Result<bool, AllocError> {
    let same = [
        is_below(alloc, Operator::Descendants, 100005)?,
        is_below(alloc, Operator::Children, 100005)?,
        is_below(alloc, Operator::Descendants, 101009)?,
        are_both(alloc, 101009, 100005)?,
        are_equal(both(alloc, 100005, 101009), fewer(alloc))?,
    ];
    Ok(same == [true, false, false, false, false] && leaves_differ(alloc))
}

#[test]
fn plan_by_value(rt: HostRuntime) -> Result<(), AllocError> {
    assert!(rt; lowers_by_value(rt.alloc())?);
    Ok(())
}

#[test]
fn plan_by_type(rt: HostRuntime) -> Result<(), AllocError> {
    assert!(rt; lowers_by_type(rt.alloc())?);
    Ok(())
}

#[test]
fn plan_in_braces(rt: HostRuntime) -> Result<(), AllocError> {
    assert!(rt; lowers_in_braces(rt.alloc())?);
    Ok(())
}

#[test]
fn plan_of_twice_the_same(rt: HostRuntime) -> Result<(), AllocError> {
    assert!(rt; lowers_twice_the_same(rt.alloc())?);
    Ok(())
}

#[test]
fn plan_backwards(rt: HostRuntime) -> Result<(), AllocError> {
    assert!(rt; lowers_backwards(rt.alloc())?);
    Ok(())
}

#[test]
fn plan_along_names(rt: HostRuntime) -> Result<(), AllocError> {
    assert!(rt; lowers_along_names(rt.alloc())?);
    Ok(())
}

#[test]
fn depth_of_plans(rt: HostRuntime) -> Result<(), AllocError> {
    assert!(rt; depths_hold(rt.alloc())?);
    Ok(())
}

#[test]
fn copy_of_plans(rt: HostRuntime) -> Result<(), AllocError> {
    assert!(rt; copies_are_equal(rt.alloc())?);
    Ok(())
}

#[test]
fn plans_that_differ(rt: HostRuntime) -> Result<(), AllocError> {
    assert!(rt; others_differ(rt.alloc())?);
    Ok(())
}
