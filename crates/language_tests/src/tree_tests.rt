//! Tests of constraints as trees: their depth and their printed text.
use crate::trees::{
    SOME, attribute, boxed, by_value, either, members, pair_of, refined, reversed, walk,
};
use constraint_tree::{
    Attribute, AttributeSet, Cardinality, Compare, Constraint, Operator, Refinement, Test,
};
use numerals::Decimal;
use std::alloc::{AllocError, Global};
use std::process::Abort;

const NONE: Cardinality = Cardinality {
    min: 0,
    max: Some(0),
};

#[test]
fn depth_of_a_leaf(rt: HostRuntime) {
    let depths = [Constraint::Any.depth(), Constraint::Concept(100005).depth()];
    assert!(rt; depths == [1, 1]);
}

// `<100005 : { 105000 = #2 }`
fn in_braces(alloc: Global) -> Result<Constraint, AllocError> {
    let number = attribute(SOME, 105000, Test::Number(Compare::Equal, Decimal(2)));
    refined(alloc, Refinement::Group(SOME, AttributeSet::One(number)))
}

// `<100005 : [0..0] 105000 != <<106004`
fn without(alloc: Global) -> Result<Constraint, AllocError> {
    let values = walk(
        alloc,
        Operator::DescendantsOrSelf,
        Constraint::Concept(106004),
    )?;
    let outside = Test::Outside(boxed(alloc, values)?);
    refined(alloc, Refinement::One(attribute(NONE, 105000, outside)))
}

fn depth_of(built: Result<Constraint, AllocError>) -> Result<u64, AllocError> {
    Ok(built?.depth())
}

#[test]
fn depth_of_a_refinement(rt: HostRuntime) -> Result<(), AllocError> {
    let alloc = rt.alloc();
    let depths = [
        depth_of(by_value(alloc))?,
        depth_of(in_braces(alloc))?,
        depth_of(without(alloc))?,
    ];
    assert!(rt; depths == [3, 4, 4]);
    Ok(())
}

// `* OR ^108003 OR 100005`
fn deeper(alloc: Global) -> Result<Constraint, AllocError> {
    let members = members(alloc, Constraint::Concept(108003))?;
    let parts = vec![in alloc; Constraint::Any, members, Constraint::Concept(100005)]?;
    Ok(Constraint::Or(parts))
}

#[test]
fn depth_of_lists(rt: HostRuntime) -> Result<(), AllocError> {
    let alloc = rt.alloc();
    let empty = Ok(Constraint::And(Vec::new(alloc)));
    let depths = [depth_of(empty)?, depth_of(deeper(alloc))?];
    assert!(rt; depths == [1, 3]);
    Ok(())
}

// Whether printing `tree` appends `text` to a vector that already has a `|`.
fn is_printed(alloc: Global, tree: &Constraint, text: &[u8]) -> Result<bool, AllocError> {
    let mut output = Vec::from_slice(alloc, b"|")?;
    tree.print(alloc, &mut output)?;
    Ok(output.as_slice() == text)
}

fn is_built(
    alloc: Global,
    built: Result<Constraint, AllocError>,
    text: &[u8],
) -> Result<bool, AllocError> {
    is_printed(alloc, &built?, text)
}

// Checks the printed text of a tree.
fn check_text(rt: &impl Abort, alloc: Global, built: Result<Constraint, AllocError>, text: &[u8]) {
    assert!(rt; is_built(alloc, built, text) == Ok(true), "{text:?}");
}

fn dotted(alloc: Global, start: Constraint, name: u64) -> Result<Constraint, AllocError> {
    let names = vec![in alloc; Constraint::Concept(name)]?;
    Ok(Constraint::Dotted(boxed(alloc, start)?, names))
}

fn number(compare: Compare, value: i128) -> Attribute {
    attribute(SOME, 105000, Test::Number(compare, Decimal(value)))
}

fn dotted_refined(alloc: Global) -> Result<Constraint, AllocError> {
    dotted(alloc, reversed(alloc)?, 104001)
}

fn dotted_twice(alloc: Global) -> Result<Constraint, AllocError> {
    let start = walk(alloc, Operator::Children, Constraint::Concept(100005))?;
    let names = pair_of(
        alloc,
        Constraint::Concept(104001),
        Constraint::Concept(105000),
    )?;
    Ok(Constraint::Dotted(boxed(alloc, start)?, names))
}

fn walked(alloc: Global) -> Result<Constraint, AllocError> {
    let inner = walk(alloc, Operator::ParentsOrSelf, Constraint::Any)?;
    let outer = walk(alloc, Operator::Bottom, inner)?;
    members(alloc, walk(alloc, Operator::Top, members(alloc, outer)?)?)
}

fn twice_members(alloc: Global) -> Result<Constraint, AllocError> {
    let inner = members(alloc, Constraint::Concept(108003))?;
    members(alloc, inner)
}

fn conjoined(alloc: Global) -> Result<Constraint, AllocError> {
    let first = walk(alloc, Operator::Ancestors, Constraint::Concept(100005))?;
    let second = either(alloc, 101009, 102002)?;
    Ok(Constraint::And(vec![in alloc; first, second, Constraint::Any]?))
}

fn excluded(alloc: Global) -> Result<Constraint, AllocError> {
    let first = boxed(alloc, Constraint::Any)?;
    let second = boxed(alloc, dotted(alloc, Constraint::Concept(100005), 104001)?)?;
    Ok(Constraint::Minus(first, second))
}

fn sets(
    alloc: Global,
    first: AttributeSet,
    second: AttributeSet,
) -> Result<Vec<AttributeSet>, AllocError> {
    Ok(vec![in alloc; first, second]?)
}

// `105000>=#2 OR 105000!=#0.25`
fn either_number(alloc: Global) -> Result<AttributeSet, AllocError> {
    let two = number(Compare::GreaterOrEqual, 2_000_000_000_000_000_000);
    let quarter = number(Compare::NotEqual, 250_000_000_000_000_000);
    Ok(AttributeSet::Or(sets(alloc, AttributeSet::One(two), AttributeSet::One(quarter))?))
}

// `{[0..0]105000=#-0.5,(105000>=#2 OR 105000!=#0.25)}` as a set
fn numbers(alloc: Global) -> Result<AttributeSet, AllocError> {
    let half = Test::Number(Compare::Equal, Decimal(-500_000_000_000_000_000));
    let either = either_number(alloc)?;
    Ok(AttributeSet::And(sets(
        alloc,
        AttributeSet::One(attribute(NONE, 105000, half)),
        either,
    )?))
}

// `[2..*]{..}` of the attributes that `numbers` makes
fn group(alloc: Global) -> Result<Refinement, AllocError> {
    let count = Cardinality { min: 2, max: None };
    Ok(Refinement::Group(count, numbers(alloc)?))
}

// `104001!=(101009 OR 106004)`
fn outside(alloc: Global) -> Result<Refinement, AllocError> {
    let values = boxed(alloc, either(alloc, 101009, 106004)?)?;
    Ok(Refinement::One(attribute(SOME, 104001, Test::Outside(values))))
}

fn both(
    alloc: Global,
    first: Refinement,
    second: Refinement,
) -> Result<Vec<Refinement>, AllocError> {
    Ok(vec![in alloc; first, second]?)
}

// `104001!=(101009 OR 106004)` and `105000<#0.000000000000000001`
fn outside_and_less(alloc: Global) -> Result<Refinement, AllocError> {
    let least = Refinement::One(number(Compare::Less, 1));
    Ok(Refinement::And(both(alloc, outside(alloc)?, least)?))
}

fn grouped(alloc: Global) -> Result<Constraint, AllocError> {
    let group = group(alloc)?;
    let parts = both(alloc, group, outside_and_less(alloc)?)?;
    refined(alloc, Refinement::Or(parts))
}

#[test]
fn print_of_constraints(rt: HostRuntime) {
    let alloc = rt.alloc();
    check_text(&rt, alloc, reversed(alloc), b"|<100005:R 105000=*");
    check_text(&rt, alloc, walked(alloc), b"|^(!!>^(!!<(>>!*)))");
    check_text(&rt, alloc, twice_members(alloc), b"|^(^108003)");
    check_text(
        &rt,
        alloc,
        conjoined(alloc),
        b"|>100005,(101009 OR 102002),*",
    );
    check_text(&rt, alloc, excluded(alloc), b"|* MINUS (100005.104001)");
    check_text(&rt, alloc, dotted_twice(alloc), b"|<!100005.104001.105000");
    check_text(
        &rt,
        alloc,
        dotted_refined(alloc),
        b"|(<100005:R 105000=*).104001",
    );
}

#[test]
fn print_of_refinements(rt: HostRuntime) {
    let alloc = rt.alloc();
    check_text(
        &rt,
        alloc,
        grouped(alloc),
        b"|<100005:[2..*]{[0..0]105000=#-0.5,(105000>=#2 OR 105000!=#0.25)} OR (104001!=(101009 OR 106004),105000<#0.000000000000000001)",
    );
}
