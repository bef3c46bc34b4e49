//! Estimates how many concepts or groups a plan means.
//!
//! An estimate reads the lengths of a few lists. It decides in which order the parts of a node are
//! executed, so a bad one costs time, and no answer depends on it.
ghost use Rattle.std.specs.Prelude.{◌≡◌, ◌<◌, IfOk, IsSome, length};
ghost use Rattle.set_algebra.specs.Physical.{physical_of};
ghost use Rattle.plan_bounds.specs.Counts.{one_of};
ghost use Rattle.executor.specs.inside.PartOrder.{IsOrderOf, IsPlaceAt};

use constraint_tree::{Cardinality, Compare, Operator};
use numerals::Decimal;
use plan_bounds::{list_length, member_count, value_row_count};
use postings::Lengths;
use set_algebra::{ConceptPlan, UnitPlan, ValueTest};
use std::alloc::{AllocError, Global};

// How deep below a part its own parts are looked at. A deeper part counts as all concepts or
// groups, so that each node of a plan is looked at only a few times.
const DEPTH: u32 = 5;

// Estimated number of rows that have a given value, if that value is not looked up.
const ROWS_OF_VALUE: u64 = 16;

// Estimated number of rows that have a given type, if that type is not looked up, on the high side.
const ROWS_OF_TYPE: u64 = 8_192;

// Estimated number of rows that have a given decimal, on the high side.
const ROWS_OF_DECIMAL: u64 = 64;

// Estimated number of rows that have a given concept as their source, on the high side.
const ROWS_OF_SOURCE: u64 = 8;

// Estimated number of parents of a concept, on the high side.
const PARENTS: u64 = 2;

// Estimated number of children of a concept, on the high side.
const CHILDREN: u64 = 4;

// Estimated number of ancestors of a concept.
const ANCESTORS: u64 = 16;

// Estimated number of descendants of a concept that is not named.
const DESCENDANTS: u64 = 32;

/// Returns the order in which parts of concepts are executed: the place of each part with its
/// estimate, by rising estimate. The estimate adds to what a part finds what is read to prepare it,
/// which is spared if the parts before it find nothing. Parts with equal estimates stay in their
/// order.
pub fn concept_order(
    alloc: Global,
    parts: &[ConceptPlan],
    lengths: Lengths<'_>,
) -> Result<Vec<(u64, usize)>, AllocError>
    ensures { IfOk result (λ order. IsOrderOf (length parts.now) order.items) }
{
    let mut order: Vec<(u64, usize)> = Vec::new(alloc);
    for place in 0..parts.len() {
        let key = concept_key(&parts[place], lengths, DEPTH);
        order.push((key, place))?;
    }
    order.sort_unstable();
    Ok(order)
}

/// Returns the order in which parts of groups are executed: the place of each part with its
/// estimate, by rising estimate, as `concept_order` does for parts of concepts.
pub fn group_order(
    alloc: Global,
    parts: &[UnitPlan],
    lengths: Lengths<'_>,
) -> Result<Vec<(u64, usize)>, AllocError>
    ensures { IfOk result (λ order. IsOrderOf (length parts.now) order.items) }
{
    let mut order: Vec<(u64, usize)> = Vec::new(alloc);
    for place in 0..parts.len() {
        let key = group_key(&parts[place], lengths);
        order.push((key, place))?;
    }
    order.sort_unstable();
    Ok(order)
}

// Returns the key by which a part of concepts is ordered: the estimate of what it finds and of what
// is read to prepare it. The plan of all concepts comes last, because it leaves all candidates.
#[cycle(preparation)]
fn concept_key(plan: &ConceptPlan, lengths: Lengths<'_>, depth: u32) -> u64 {
    match plan {
        ConceptPlan::All => u64::MAX,
        _ => {
            let size = estimate(plan, lengths, depth);
            size.saturating_add(preparation(plan, lengths, depth))
        }
    }
}

// Estimates how many items are read to prepare a part of concepts: for a leaf, what its types and
// its test find. An AND first executes its part of least key, and spares the others if that finds
// nothing; an OR executes each of its parts. At `depth` 0 the parts of a node are not looked at.
#[cycle(preparation)]
fn preparation(plan: &ConceptPlan, lengths: Lengths<'_>, depth: u32) -> u64 {
    match plan {
        ConceptPlan::Pairs {
            back,
            types,
            test,
            ..
        } => leaf_preparation(*back, types, test, lengths),
        ConceptPlan::Units { units, .. } => group_preparation(units, lengths, depth),
        ConceptPlan::And(parts) if depth > 0 => least_key(parts, lengths, depth - 1),
        ConceptPlan::Or(parts) if depth > 0 => sum_of_preparations(parts, lengths, depth - 1),
        _ => 0,
    }
}

// Returns the sum of the preparations of sibling plans of concepts.
#[cycle(preparation)]
fn sum_of_preparations(parts: &[ConceptPlan], lengths: Lengths<'_>, depth: u32) -> u64 {
    let mut sum = 0u64;
    for part in parts {
        let own = preparation(part, lengths, depth);
        sum = sum.saturating_add(own);
    }
    sum
}

// Returns the least key of sibling plans of concepts.
#[cycle(preparation)]
fn least_key(parts: &[ConceptPlan], lengths: Lengths<'_>, depth: u32) -> u64 {
    let mut least = u64::from(lengths.concept_count());
    for part in parts {
        let key = concept_key(part, lengths, depth);
        least = least.min(key);
    }
    least
}

// Returns the key by which a part of groups is ordered, as `concept_key` does for a part of
// concepts.
fn group_key(plan: &UnitPlan, lengths: Lengths<'_>) -> u64 {
    match plan {
        UnitPlan::Every => u64::MAX,
        _ => {
            let size = group_estimate(plan, lengths, DEPTH);
            size.saturating_add(group_preparation(plan, lengths, DEPTH))
        }
    }
}

// Estimates how many items are read to prepare a part of groups: for a leaf, what its types and its
// test find. An AND or an OR executes each of its parts, but an AND that is estimated to find
// nothing spares them. At `depth` 0 the parts of a node are not looked at.
#[cycle(group_preparation)]
fn group_preparation(plan: &UnitPlan, lengths: Lengths<'_>, depth: u32) -> u64 {
    match plan {
        UnitPlan::Pairs { types, test, .. } => leaf_preparation(false, types, test, lengths),
        UnitPlan::And(_) if group_estimate(plan, lengths, depth) == 0 => 0,
        UnitPlan::And(parts) | UnitPlan::Or(parts) if depth > 0 => {
            sum_of_group_preparations(parts, lengths, depth - 1)
        }
        _ => 0,
    }
}

// Returns the sum of the preparations of sibling plans of groups.
#[cycle(group_preparation)]
fn sum_of_group_preparations(parts: &[UnitPlan], lengths: Lengths<'_>, depth: u32) -> u64 {
    let mut sum = 0u64;
    for part in parts {
        let own = group_preparation(part, lengths, depth);
        sum = sum.saturating_add(own);
    }
    sum
}

// Estimates how many items are read to prepare a leaf with these types and this test. A comparison
// with a number counts the rows of the types, because it reads them all however few pass; it counts
// none if no number passes.
fn leaf_preparation(
    back: bool,
    types: &ConceptPlan,
    test: &ValueTest,
    lengths: Lengths<'_>,
) -> u64 {
    let named = listed(types, lengths);
    match test {
        ValueTest::Within(operand) | ValueTest::Outside(operand) => {
            named.saturating_add(listed(operand, lengths))
        }
        ValueTest::Number(_, _) if estimate_of_rows(back, types, test, lengths, DEPTH) == 0 =>
            named,
        ValueTest::Number(_, _) => named.saturating_add(rows_of_types(types, lengths)),
    }
}

// Estimates how many concepts are listed to know what a plan means; to know all concepts, or a
// single one, none is.
fn listed(plan: &ConceptPlan, lengths: Lengths<'_>) -> u64 {
    match plan {
        ConceptPlan::Empty | ConceptPlan::All | ConceptPlan::One(_) => 0,
        _ => estimate(plan, lengths, DEPTH),
    }
}

/// Returns the place of the part that is executed at `turn`; there are `count` parts.
pub fn place_at(order: &[(u64, usize)], turn: usize, count: usize) -> usize
    requires order { IsOrderOf count order.now }
    requires turn { turn < length order.now }
    ensures at { IsPlaceAt count order.now turn result }
    ensures inside { result < count }
{
    order[turn].1
}

/// Estimates how many groups a plan means.
pub fn estimate_of_groups(plan: &UnitPlan, lengths: Lengths<'_>) -> u64 {
    group_estimate(plan, lengths, DEPTH)
}

// Estimates how many concepts a plan means. At `depth` 0 it answers all concepts.
#[cycle(estimate)]
fn estimate(plan: &ConceptPlan, lengths: Lengths<'_>, depth: u32) -> u64 {
    let all = u64::from(lengths.concept_count());
    if depth == 0 {
        return all;
    }
    match plan {
        ConceptPlan::Empty => 0,
        ConceptPlan::All => all,
        ConceptPlan::One(_) => 1,
        ConceptPlan::Walk(operator, operand) => match &**operand {
            ConceptPlan::Or(parts) => sum_of_walks(*operator, parts, lengths, depth - 1),
            _ => {
                let from = estimate(operand, lengths, depth - 1);
                estimate_of_walk(*operator, operand, from, lengths)
            }
        },
        ConceptPlan::Members(operand) => {
            let from = estimate(operand, lengths, depth - 1);
            estimate_of_members(operand, from, lengths)
        }
        ConceptPlan::And(parts) => least_of(parts, lengths, depth - 1),
        ConceptPlan::Or(parts) => sum_of(parts, lengths, depth - 1),
        ConceptPlan::Minus(first, _) => estimate(first, lengths, depth - 1),
        ConceptPlan::Values(start, names) => estimate_of_values(start, names, lengths, depth - 1),
        ConceptPlan::Pairs {
            back,
            count,
            types,
            test,
            ..
        } => {
            let rows = estimate_of_rows(*back, types, test, lengths, depth - 1);
            unless_none_is_asked(*count, all, rows)
        }
        ConceptPlan::Units { count, units } => {
            let groups = group_estimate(units, lengths, depth - 1);
            unless_none_is_asked(*count, all, groups)
        }
    }
}

// Returns the least estimate of sibling plans of concepts.
#[cycle(estimate)]
fn least_of(parts: &[ConceptPlan], lengths: Lengths<'_>, depth: u32) -> u64 {
    let mut least = u64::from(lengths.concept_count());
    for part in parts {
        let size = estimate(part, lengths, depth);
        least = least.min(size);
    }
    least
}

// Returns the sum of the estimates of sibling plans of concepts.
#[cycle(estimate)]
fn sum_of(parts: &[ConceptPlan], lengths: Lengths<'_>, depth: u32) -> u64 {
    let mut sum = 0u64;
    for part in parts {
        let size = estimate(part, lengths, depth);
        sum = sum.saturating_add(size);
    }
    sum
}

// Returns the sum of the estimates of what an operator leads to from each of sibling plans.
#[cycle(estimate)]
fn sum_of_walks(
    operator: Operator,
    parts: &[ConceptPlan],
    lengths: Lengths<'_>,
    depth: u32,
) -> u64 {
    let mut sum = 0u64;
    for part in parts {
        let from = estimate(part, lengths, depth);
        sum = sum.saturating_add(estimate_of_walk(operator, part, from, lengths));
    }
    sum.min(u64::from(lengths.concept_count()))
}

// Estimates how many concepts the dotted attributes `names` lead to from `start`.
#[cycle(estimate)]
fn estimate_of_values(
    start: &ConceptPlan,
    names: &[ConceptPlan],
    lengths: Lengths<'_>,
    depth: u32,
) -> u64 {
    let mut found = estimate(start, lengths, depth);
    for name in names {
        let rows = rows_with_types(name, lengths, depth);
        found = rows.min(found.saturating_mul(ROWS_OF_SOURCE));
    }
    found.min(u64::from(lengths.concept_count()))
}

// Estimates how many rows have one of the types that a plan means: the exact number for one type,
// none if the plan is estimated at no types. Of the types that an operator leads to from one
// concept, each but that concept counts `ROWS_OF_TYPE` rows. Any other plan counts all rows.
#[cycle(estimate)]
fn rows_with_types(types: &ConceptPlan, lengths: Lengths<'_>, depth: u32) -> u64 {
    let all = rows_unless_none(estimate(types, lengths, depth), lengths);
    match types {
        ConceptPlan::One(id) => lengths.type_row_count(*id),
        ConceptPlan::Walk(operator, from) => match &**from {
            ConceptPlan::One(id) => {
                let others = list_length(lengths, *operator, *id);
                let own = lengths.type_row_count(*id);
                all.min(own.saturating_add(others.saturating_mul(ROWS_OF_TYPE)))
            }
            _ => all,
        },
        _ => all,
    }
}

// Estimates how many rows have one of the types and a value that may pass `test`; read backwards, a
// source that may pass.
#[cycle(estimate)]
fn estimate_of_rows(
    back: bool,
    types: &ConceptPlan,
    test: &ValueTest,
    lengths: Lengths<'_>,
    depth: u32,
) -> u64 {
    let by_type = rows_with_types(types, lengths, depth);
    match test {
        ValueTest::Within(operand) => {
            by_type.min(rows_with_values(back, operand, lengths, depth))
        }
        // the source of a row is no number
        ValueTest::Number(_, _) if back => 0,
        ValueTest::Number(compare, number) => {
            by_type.min(rows_that_compare(lengths, *compare, *number))
        }
        // no concept is outside all concepts
        ValueTest::Outside(operand) => match &**operand {
            ConceptPlan::All => 0,
            _ => by_type,
        },
    }
}

// Estimates how many rows have a concept that `values` means as their value, or, if `as_source`, as
// their source.
#[cycle(estimate)]
fn rows_with_values(
    as_source: bool,
    values: &ConceptPlan,
    lengths: Lengths<'_>,
    depth: u32,
) -> u64 {
    match values {
        ConceptPlan::One(id) => value_row_count(lengths, as_source, *id),
        ConceptPlan::Walk(operator, from) => match &**from {
            ConceptPlan::One(id) => {
                let others = list_length(lengths, *operator, *id);
                let own = value_row_count(lengths, as_source, *id);
                own.saturating_add(others.saturating_mul(ROWS_OF_VALUE))
            }
            _ => rows_unless_none(estimate(values, lengths, depth), lengths),
        },
        _ => rows_unless_none(estimate(values, lengths, depth), lengths),
    }
}

// Estimates how many groups a plan means. At `depth` 0 it answers all groups.
#[cycle(estimate)]
fn group_estimate(plan: &UnitPlan, lengths: Lengths<'_>, depth: u32) -> u64 {
    let all = u64::from(lengths.group_count());
    if depth == 0 {
        return all;
    }
    match plan {
        UnitPlan::Nothing => 0,
        UnitPlan::Every => all,
        UnitPlan::And(parts) => least_group_estimate(parts, lengths, depth - 1),
        UnitPlan::Or(parts) => sum_of_group_estimates(parts, lengths, depth - 1),
        UnitPlan::Minus(first, _) => group_estimate(first, lengths, depth - 1),
        UnitPlan::Pairs {
            count,
            types,
            test,
            ..
        } => {
            let rows = estimate_of_rows(false, types, test, lengths, depth - 1);
            unless_none_is_asked(*count, all, rows)
        }
    }
}

// Returns the least estimate of sibling plans of groups.
#[cycle(estimate)]
fn least_group_estimate(parts: &[UnitPlan], lengths: Lengths<'_>, depth: u32) -> u64 {
    let mut least = u64::from(lengths.group_count());
    for part in parts {
        let size = group_estimate(part, lengths, depth);
        least = least.min(size);
    }
    least
}

// Returns the sum of the estimates of sibling plans of groups.
#[cycle(estimate)]
fn sum_of_group_estimates(parts: &[UnitPlan], lengths: Lengths<'_>, depth: u32) -> u64 {
    let mut sum = 0u64;
    for part in parts {
        let size = group_estimate(part, lengths, depth);
        sum = sum.saturating_add(size);
    }
    sum
}

// Returns one more than `all` if the minimum of `count` is 0, because then each concept or group
// without a pair is found, so that such a part comes last; else `some`, or `all` if that is less.
fn unless_none_is_asked(count: Cardinality, all: u64, some: u64) -> u64 {
    if count.min == 0 {
        all.saturating_add(1)
    } else {
        some.min(all)
    }
}

// Returns 0 if `values` is 0, else the number of all rows.
fn rows_unless_none(values: u64, lengths: Lengths<'_>) -> u64 {
    if values == 0 {
        0
    } else {
        u64::from(lengths.row_count())
    }
}

// Estimates how many concepts an operator leads to from an operand that is estimated at `from`
// concepts.
fn estimate_of_walk(
    operator: Operator,
    operand: &ConceptPlan,
    from: u64,
    lengths: Lengths<'_>,
) -> u64 {
    if from == 0 {
        return 0;
    }
    if let ConceptPlan::One(id) = operand {
        return estimate_from_one(operator, *id, lengths);
    }
    let all = u64::from(lengths.concept_count());
    match operator {
        Operator::Top | Operator::Bottom => from,
        Operator::Parents | Operator::ParentsOrSelf => all.min(from.saturating_mul(PARENTS)),
        Operator::Children | Operator::ChildrenOrSelf => all.min(from.saturating_mul(CHILDREN)),
        Operator::Ancestors | Operator::AncestorsOrSelf => all.min(from.saturating_mul(ANCESTORS)),
        Operator::Descendants | Operator::DescendantsOrSelf => {
            all.min(from.saturating_mul(DESCENDANTS))
        }
    }
}

// Estimates how many concepts an operator leads to from one concept, and adds 1 because the concept
// itself is read. It answers 0 if the operator leads to none.
fn estimate_from_one(operator: Operator, id: u64, lengths: Lengths<'_>) -> u64 {
    let list = list_length(lengths, operator, id);
    match operator {
        Operator::Top | Operator::Bottom => 1,
        Operator::DescendantsOrSelf
        | Operator::ChildrenOrSelf
        | Operator::AncestorsOrSelf
        | Operator::ParentsOrSelf => list.saturating_add(1),
        Operator::Descendants | Operator::Children | Operator::Ancestors | Operator::Parents => {
            if list == 0 { 0 } else { list.saturating_add(1) }
        }
    }
}

// Estimates how many components the reference sets have that `operand` means, if it is estimated at
// `from` concepts.
fn estimate_of_members(operand: &ConceptPlan, from: u64, lengths: Lengths<'_>) -> u64 {
    match operand {
        ConceptPlan::One(id) => member_count(lengths, *id),
        _ if from == 0 => 0,
        _ => u64::from(lengths.concept_count()),
    }
}

// Estimates how many rows have a decimal that stands in the relation `compare` to `number`, by how
// many different decimals do: none exactly if no row has such a decimal.
fn rows_that_compare(lengths: Lengths<'_>, compare: Compare, number: Decimal) -> u64 {
    let all = lengths.decimal_count();
    let less = decimals_before(lengths, number, false);
    let up_to = decimals_before(lengths, number, true);
    let decimals = match compare {
        Compare::Equal => up_to.saturating_sub(less),
        Compare::NotEqual => all.saturating_sub(up_to.saturating_sub(less)),
        Compare::Less => less,
        Compare::LessOrEqual => up_to,
        Compare::Greater => all.saturating_sub(up_to),
        Compare::GreaterOrEqual => all.saturating_sub(less),
    };
    u64::from(decimals).saturating_mul(ROWS_OF_DECIMAL)
}

// Returns how many of the different decimals of all rows are less than `number`, or, if `or_equal`,
// equal to it or less, by a binary search.
fn decimals_before(lengths: Lengths<'_>, number: Decimal, or_equal: bool) -> u32 {
    let mut low = 0;
    let mut high = lengths.decimal_count();
    while low < high {
        let middle = low + (high - low) / 2;
        let order = lengths.compare_decimal(middle, number);
        if order.is_lt() || or_equal && order.is_eq() {
            low = middle + 1;
        } else {
            high = middle;
        }
    }
    low
}

/// Estimates how many rows have one of the types that a plan means.
pub fn rows_of_types(types: &ConceptPlan, lengths: Lengths<'_>) -> u64 {
    rows_with_types(types, lengths, DEPTH)
}

/// Estimates how many rows a plan reads if it does not read those of its candidates; 0 if it never
/// reads rows so.
pub fn rows_without(plan: &ConceptPlan, lengths: Lengths<'_>) -> u64
    ensures { IsSome (one_of (physical_of plan.now)) → result ≡ 0 }
{
    match plan {
        ConceptPlan::Empty
        | ConceptPlan::All
        | ConceptPlan::One(_)
        | ConceptPlan::Walk(_, _)
        | ConceptPlan::Members(_) => 0,
        ConceptPlan::Pairs {
            back,
            types,
            test,
            ..
        } => estimate_of_rows(*back, types, test, lengths, DEPTH),
        _ => u64::from(lengths.row_count()),
    }
}

/// Estimates how many rows the part of concepts reads that is executed at `turn`; 0 if no part is.
pub fn rows_at(
    parts: &[ConceptPlan],
    order: &[(u64, usize)],
    turn: usize,
    lengths: Lengths<'_>,
) -> u64 {
    match order.get(turn) {
        Some((_, place)) => match parts.get(*place) {
            Some(part) => rows_without(part, lengths),
            None => 0,
        },
        None => 0,
    }
}

/// Estimates how many rows the part of groups reads that is executed at `turn`; 0 if no part is.
pub fn group_rows_at(
    parts: &[UnitPlan],
    order: &[(u64, usize)],
    turn: usize,
    lengths: Lengths<'_>,
) -> u64 {
    match order.get(turn) {
        Some((_, place)) => match parts.get(*place) {
            Some(part) => group_rows_without(part, lengths),
            None => 0,
        },
        None => 0,
    }
}

/// Estimates how many rows a plan of groups reads if it does not read those of its candidates; 0 if
/// it never reads rows so.
pub fn group_rows_without(plan: &UnitPlan, lengths: Lengths<'_>) -> u64 {
    match plan {
        UnitPlan::Nothing | UnitPlan::Every => 0,
        UnitPlan::Pairs { types, test, .. } => estimate_of_rows(false, types, test, lengths, DEPTH),
        _ => u64::from(lengths.row_count()),
    }
}
