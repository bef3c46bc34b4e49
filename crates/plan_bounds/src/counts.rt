//! Computes from the indexes of a release how much one node of a plan finds and how many items it
//! visits.
ghost use Rattle.std.specs.Prelude.{◌≡◌, ◌==◌, ◌<◌, ◌+◌, ◌*◌, if◌then◌else◌, min, ◌^◌, length};
ghost use Rattle.number_lists.specs.KeyedLists.{list_of};
ghost use Rattle.set_algebra.specs.Physical.{physical_of, physical_test_of};
ghost use Rattle.postings.specs.Groups.{groups_in};
ghost use Rattle.plan_bounds.specs.Alternatives.{found_by, passed_over};
ghost use Rattle.plan_bounds.specs.Bounds.{capped, members_bound, values_bound, walk_bound};
ghost use Rattle.plan_bounds.specs.Counts.{is_extreme as is_extreme_of, leads_to_self as leads_to_self_of, leaf_of};
ghost use Rattle.plan_bounds.specs.Counts.{list_length as list_length_of};
ghost use Rattle.plan_bounds.specs.Counts.{lists_along, lists_length as lists_length_of};
ghost use Rattle.plan_bounds.specs.Counts.{member_count as member_count_of, one_of};
ghost use Rattle.plan_bounds.specs.Counts.{type_rows as type_rows_of, rows_left, value_row_count as value_row_count_of};
ghost use Rattle.plan_bounds.specs.Counts.{value_rows as value_rows_of};
ghost use Rattle.postings.specs.Stats.{type_row_count as type_row_count_of};
ghost use Rattle.plan_bounds.specs.Sizes.{members_size, values_size, walk_size};

use crate::leaf::Leaf;
use crate::summary::SizeSummary;
use constraint_tree::{Cardinality, Operator};
use postings::Lengths;
use set_algebra::{ConceptPlan, ValueTest};

/// How much a node finds at most, and how many items it visits at most. The visits of its children
/// are not counted.
#[derive(Clone, Copy, Debug)]
pub struct NodeCost {
    /// How many concepts or groups the node finds at most. It is never capped.
    pub size: u64,
    /// The bound of the node without its children, or `u64::MAX` if it is larger.
    pub bound: u64,
}

/// Returns the number of concepts in force.
pub fn concepts(lengths: Lengths<'_>) -> u64
    ensures { result ≡ length lengths.entry.indexes.now.concepts }
{
    lengths.concept_count() as u64
}

/// Returns the number of groups of all concepts.
pub fn groups(lengths: Lengths<'_>) -> u64
    ensures { result ≡ length (groups_in lengths.entry.indexes.now) }
{
    lengths.group_count() as u64
}

/// Returns the cost of a `Walk` node with `operator` and `operand`. `size` is how many concepts the
/// operand finds at most. An operand that names one concept needs that concept's list alone.
pub fn cost_of_walk(
    lengths: Lengths<'_>,
    operator: Operator,
    operand: &ConceptPlan,
    size: u64,
) -> NodeCost
    ensures size { result.size ≡ walk_size lengths.entry.indexes.now operator
        (one_of (physical_of operand.now)) size }
    ensures bound { result.bound ≡ capped (walk_bound lengths.entry.indexes.now operator
        (one_of (physical_of operand.now)) size) }
{
    match one(operand) {
        Some(id) => {
            let length = list_length(lengths, operator, id);
            NodeCost {
                size: found_from_one(operator, length),
                bound: length + 1,
            }
        }
        None => NodeCost {
            size: found_from(lengths, operator, size),
            bound: size.saturating_add(lists_length(lengths, operator)),
        },
    }
}

// Returns how many concepts `operator` finds at most for one concept whose list has `length`
// entries.
fn found_from_one(operator: Operator, length: u64) -> u64
    requires { length < 2 ^ 63 }
    ensures { result ≡ (if is_extreme_of operator then 1 else length
        + (if leads_to_self_of operator then 1 else 0)) }
{
    if is_extreme(operator) {
        1
    } else if leads_to_self(operator) {
        length + 1
    } else {
        length
    }
}

// Returns how many concepts `operator` finds at most for a set of `size` concepts.
fn found_from(lengths: Lengths<'_>, operator: Operator, size: u64) -> u64
    ensures { result ≡ (if is_extreme_of operator then size else length
        lengths.entry.indexes.now.concepts) }
{
    if is_extreme(operator) {
        size
    } else {
        concepts(lengths)
    }
}

/// Whether `operator` keeps a part of the concepts of its operand and adds none (`!!>`, `!!<`).
pub fn is_extreme(operator: Operator) -> bool
    ensures { result ≡ is_extreme_of operator }
{
    match operator {
        Operator::Top | Operator::Bottom => true,
        Operator::Descendants
        | Operator::DescendantsOrSelf
        | Operator::Children
        | Operator::ChildrenOrSelf
        | Operator::Ancestors
        | Operator::AncestorsOrSelf
        | Operator::Parents
        | Operator::ParentsOrSelf => false,
    }
}

// Whether `operator` also finds the concepts of its operand themselves (`<<`, `<<!`, `>>`, `>>!`).
fn leads_to_self(operator: Operator) -> bool
    ensures { result ≡ leads_to_self_of operator }
{
    match operator {
        Operator::DescendantsOrSelf
        | Operator::ChildrenOrSelf
        | Operator::AncestorsOrSelf
        | Operator::ParentsOrSelf => true,
        Operator::Descendants
        | Operator::Children
        | Operator::Ancestors
        | Operator::Parents
        | Operator::Top
        | Operator::Bottom => false,
    }
}

/// Returns the length of the list that `operator` reads for the concept with identifier `id`: its
/// descendants for `<`, its children for `<!`, and so on. Returns 0 if the concept is not in force.
pub fn list_length(lengths: Lengths<'_>, operator: Operator, id: u64) -> u64
    ensures length { result ≡ list_length_of lengths.entry.indexes.now operator id }
    ensures small { result < 2 ^ 63 }
{
    match lengths.index_of(id) {
        Some(number) => length_along(lengths, operator, number),
        None => 0,
    }
}

// Returns the length of the list that `operator` reads for the concept with number `number`.
fn length_along(lengths: Lengths<'_>, operator: Operator, number: u32) -> u64
    requires { number < length lengths.indexes.now.concepts }
    ensures length { result ≡ length (list_of
        (lists_along lengths.entry.indexes.now.hierarchy operator) number) }
    ensures small { result < 2 ^ 63 }
{
    match operator {
        Operator::Descendants | Operator::DescendantsOrSelf | Operator::Bottom => {
            lengths.descendant_count_of(number)
        }
        Operator::Children | Operator::ChildrenOrSelf => lengths.child_count_of(number),
        Operator::Ancestors | Operator::AncestorsOrSelf | Operator::Top => {
            lengths.ancestor_count_of(number)
        }
        Operator::Parents | Operator::ParentsOrSelf => lengths.parent_count_of(number),
    }
}

// Returns the total length of the lists that `operator` reads for all concepts.
fn lists_length(lengths: Lengths<'_>, operator: Operator) -> u64
    ensures { result ≡ lists_length_of lengths.entry.indexes.now operator }
{
    match operator {
        Operator::Descendants
        | Operator::DescendantsOrSelf
        | Operator::Ancestors
        | Operator::AncestorsOrSelf
        | Operator::Top
        | Operator::Bottom => lengths.stats().r,
        Operator::Children
        | Operator::ChildrenOrSelf
        | Operator::Parents
        | Operator::ParentsOrSelf => lengths.stats().l,
    }
}

/// Returns the cost of a `Members` node with `operand`. `size` is how many reference sets the
/// operand finds at most.
pub fn cost_of_members(lengths: Lengths<'_>, operand: &ConceptPlan, size: u64) -> NodeCost
    ensures size { result.size ≡ members_size lengths.entry.indexes.now
        (one_of (physical_of operand.now)) }
    ensures bound { result.bound ≡ capped
        (members_bound lengths.entry.indexes.now (one_of (physical_of operand.now)) size) }
{
    match one(operand) {
        Some(id) => {
            let components = member_count(lengths, id);
            NodeCost {
                size: concepts(lengths).min(components),
                bound: components + 1,
            }
        }
        None => {
            let components = lengths.stats().m;
            NodeCost {
                size: concepts(lengths).min(components),
                bound: size.saturating_add(components),
            }
        }
    }
}

/// Returns how many members the reference set with identifier `id` has, or 0 if it is not in force.
pub fn member_count(lengths: Lengths<'_>, id: u64) -> u64
    ensures count { result ≡ member_count_of lengths.entry.indexes.now id }
    ensures small { result < 2 ^ 63 }
{
    match lengths.index_of(id) {
        Some(number) => lengths.member_count(number),
        None => 0,
    }
}

/// Returns the cost of a `Values` node with `types` types in its list. `size` is how many concepts
/// its start finds at most.
pub fn cost_of_values(lengths: Lengths<'_>, types: u64, size: u64) -> NodeCost
    ensures size { result.size ≡ values_size lengths.entry.indexes.now types size }
    ensures bound { result.bound ≡ capped (values_bound lengths.entry.indexes.now types size) }
{
    if types == 0 {
        return NodeCost { size, bound: 0 };
    }
    let rows = lengths.row_count() as u64;
    let found = concepts(lengths).min(rows);
    let later = (types - 1).saturating_mul(found + rows);
    NodeCost {
        size: found,
        bound: size.saturating_add(rows).saturating_add(later),
    }
}

/// Returns the cost of a `Units` node with the cardinality `count`. `all` is the number of
/// concepts; `size` is how many groups the node's plan of groups finds at most.
pub fn cost_of_groups(count: Cardinality, all: u64, size: u64) -> NodeCost
    ensures size { result.size ≡ found_by (count.min == 0) all size }
    ensures bound { result.bound ≡ capped (size + passed_over (count.min == 0) all) }
{
    if count.min == 0 {
        NodeCost {
            size: all,
            bound: size.saturating_add(all),
        }
    } else {
        NodeCost {
            size: all.min(size),
            bound: size,
        }
    }
}

/// Returns the cost of an `And` node whose parts have the sizes `parts`. The factor of the bound is
/// 2 because the node may read what each part found twice.
pub fn cost_of_and(parts: &SizeSummary) -> NodeCost
    ensures size { result.size ≡ parts.now.least }
    ensures bound { result.bound ≡ capped (parts.now.sum * 2) }
{
    NodeCost {
        size: parts.least,
        bound: parts.sum.saturating_mul(2),
    }
}

/// Returns the cost of an `Or` node of `count` parts that have the sizes `parts`, over `all`
/// concepts or groups. The factor of the bound is `count` because after each part the node reads
/// what this part found, and again what the parts before it found.
pub fn cost_of_or(all: u64, parts: &SizeSummary, count: u64) -> NodeCost
    ensures size { result.size ≡ min all parts.now.sum }
    ensures bound { result.bound ≡ capped (parts.now.sum * count) }
{
    NodeCost {
        size: all.min(parts.sum),
        bound: parts.sum.saturating_mul(count),
    }
}

/// Returns the cost of a `Minus` node whose parts find at most `first` and `second` concepts or
/// groups.
pub fn cost_of_minus(first: u64, second: u64) -> NodeCost
    ensures size { result.size ≡ first }
    ensures bound { result.bound ≡ capped (first + second) }
{
    NodeCost {
        size: first,
        bound: first.saturating_add(second),
    }
}

/// Returns the counts of a leaf over `all` concepts or groups. `sizes` has how many types the plan
/// of its types finds at most, and how many values the plan of its test.
pub fn counts_of_leaf(
    lengths: Lengths<'_>,
    all: u64,
    back: bool,
    count: Cardinality,
    types: &ConceptPlan,
    test: &ValueTest,
    sizes: (u64, u64),
) -> Leaf
    ensures { result ≡ leaf_of lengths.entry.indexes.now all back count (physical_of types.now)
        (physical_test_of test.now) sizes.0 sizes.1 }
{
    let is_within = match test {
        ValueTest::Within(_) => true,
        ValueTest::Outside(_) | ValueTest::Number(_, _) => false,
    };
    Leaf {
        all,
        none_pass: count.min == 0,
        rows: lengths.row_count() as u64,
        value_rows: value_rows(lengths, back, test),
        type_rows: type_rows(lengths, types),
        value_size: sizes.1,
        type_size: sizes.0,
        is_within,
    }
}

// Returns how many rows, at most, have a value that passes `test`; with `back`, a source that
// passes it.
fn value_rows(lengths: Lengths<'_>, back: bool, test: &ValueTest) -> u64
    ensures { result ≡ value_rows_of lengths.entry.indexes.now back (physical_test_of test.now) }
{
    match test {
        ValueTest::Within(values) => rows_of_values(lengths, back, values),
        ValueTest::Outside(_) | ValueTest::Number(_, _) => lengths.row_count() as u64,
    }
}

// Returns how many rows, at most, have a value that `values` finds; with `back`, a source that it
// finds.
fn rows_of_values(lengths: Lengths<'_>, back: bool, values: &ConceptPlan) -> u64
    ensures { result ≡ rows_left (value_row_count_of lengths.entry.indexes.now back)
        (length lengths.entry.indexes.now.rows) (physical_of values.now) }
{
    match values {
        ConceptPlan::Empty => 0,
        ConceptPlan::One(id) => value_row_count(lengths, back, *id),
        ConceptPlan::All
        | ConceptPlan::Walk(_, _)
        | ConceptPlan::Members(_)
        | ConceptPlan::And(_)
        | ConceptPlan::Or(_)
        | ConceptPlan::Minus(_, _)
        | ConceptPlan::Values(_, _)
        | ConceptPlan::Pairs { .. }
        | ConceptPlan::Units { .. } => lengths.row_count() as u64,
    }
}

/// Returns how many rows have the concept with identifier `id` as their value; with `back`, as
/// their source.
pub fn value_row_count(lengths: Lengths<'_>, back: bool, id: u64) -> u64
    ensures { result ≡ value_row_count_of lengths.entry.indexes.now back id }
{
    match lengths.index_of(id) {
        Some(number) => {
            if back {
                lengths.source_row_count(number)
            } else {
                lengths.value_row_count(number)
            }
        }
        None => 0,
    }
}

// Returns how many rows, at most, have a type that `types` finds.
fn type_rows(lengths: Lengths<'_>, types: &ConceptPlan) -> u64
    ensures { result ≡ type_rows_of lengths.entry.indexes.now (physical_of types.now) }
{
    match types {
        ConceptPlan::Empty => 0,
        ConceptPlan::One(id) => lengths.type_row_count(*id),
        ConceptPlan::All
        | ConceptPlan::Walk(_, _)
        | ConceptPlan::Members(_)
        | ConceptPlan::And(_)
        | ConceptPlan::Or(_)
        | ConceptPlan::Minus(_, _)
        | ConceptPlan::Values(_, _)
        | ConceptPlan::Pairs { .. }
        | ConceptPlan::Units { .. } => lengths.row_count() as u64,
    }
}

/// Returns the identifier in `plan` if the plan is `One`, or else `None`.
pub fn one(plan: &ConceptPlan) -> Option<u64>
    ensures { result ≡ one_of (physical_of plan.now) }
{
    match plan {
        ConceptPlan::One(id) => Some(*id),
        ConceptPlan::Empty
        | ConceptPlan::All
        | ConceptPlan::Walk(_, _)
        | ConceptPlan::Members(_)
        | ConceptPlan::And(_)
        | ConceptPlan::Or(_)
        | ConceptPlan::Minus(_, _)
        | ConceptPlan::Values(_, _)
        | ConceptPlan::Pairs { .. }
        | ConceptPlan::Units { .. } => None,
    }
}
