//! Functions that make trees for the tests.
use constraint_tree::{Attribute, Cardinality, Constraint, Operator, Refinement, Test};
use std::alloc::{AllocError, Global};

pub(crate) const SOME: Cardinality = Cardinality { min: 1, max: None };

pub(crate) fn boxed(alloc: Global, tree: Constraint) -> Result<Box<Constraint>, AllocError> {
    Ok(Box::new(alloc, tree)?)
}

pub(crate) fn pair_of(
    alloc: Global,
    first: Constraint,
    second: Constraint,
) -> Result<Vec<Constraint>, AllocError> {
    Ok(vec![in alloc; first, second]?)
}

pub(crate) fn walk(
    alloc: Global,
    operator: Operator,
    operand: Constraint,
) -> Result<Constraint, AllocError> {
    Ok(Constraint::Walk(operator, boxed(alloc, operand)?))
}

pub(crate) fn members(alloc: Global, operand: Constraint) -> Result<Constraint, AllocError> {
    Ok(Constraint::MemberOf(boxed(alloc, operand)?))
}

// `first OR second`
pub(crate) fn either(alloc: Global, first: u64, second: u64) -> Result<Constraint, AllocError> {
    let parts = pair_of(
        alloc,
        Constraint::Concept(first),
        Constraint::Concept(second),
    )?;
    Ok(Constraint::Or(parts))
}

pub(crate) fn attribute(count: Cardinality, type_id: u64, test: Test) -> Attribute {
    Attribute {
        count,
        reverse: false,
        name: Constraint::Concept(type_id),
        test,
    }
}

// `<100005`
fn focus(alloc: Global) -> Result<Box<Constraint>, AllocError> {
    boxed(
        alloc,
        walk(alloc, Operator::Descendants, Constraint::Concept(100005))?,
    )
}

// `<100005 : refinement`
pub(crate) fn refined(alloc: Global, refinement: Refinement) -> Result<Constraint, AllocError> {
    let refinement = Box::new(alloc, refinement)?;
    Ok(Constraint::Refined(focus(alloc)?, refinement))
}

// `<100005 : 104001 = 106004`
pub(crate) fn by_value(alloc: Global) -> Result<Constraint, AllocError> {
    let within = Test::Within(boxed(alloc, Constraint::Concept(106004))?);
    refined(alloc, Refinement::One(attribute(SOME, 104001, within)))
}

// `<100005 : R 105000 = *`
pub(crate) fn reversed(alloc: Global) -> Result<Constraint, AllocError> {
    let backwards = Attribute {
        count: SOME,
        reverse: true,
        name: Constraint::Concept(105000),
        test: Test::Within(boxed(alloc, Constraint::Any)?),
    };
    refined(alloc, Refinement::One(backwards))
}
