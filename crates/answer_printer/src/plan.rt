//! The text of a plan: a line for each node, with the most items that it visits.
ghost use Rattle.std.specs.Prelude.{◌≡◌, ◌++◌, ◌∷◌, IfOk, OnErr, OnOk, codes, drop, length};
ghost use Rattle.set_algebra.specs.Physical.{physical_groups_of, physical_groups_list_of, physical_of, physicals_of};
ghost use Rattle.set_algebra.specs.Physical.{physical_test_of};
ghost use Rattle.answer_printer.specs.AnswerText.{number_line};
ghost use Rattle.answer_printer.specs.inside.PlanLines.{before_bound, below, below_group, first_bound, with_bounds};
ghost use Rattle.answer_printer.specs.PlanText.{bound_line, group_outline, group_words, groups_outline, node_words};
ghost use Rattle.answer_printer.specs.PlanText.{outline, plan_text, plans_outline, test_outline};

use crate::numbers::append_number;
use crate::plan_words::{write_group_node, write_node};
use planner::{PhysicalPlan, bound, own_bounds};
use postings::Indexes;
use set_algebra::{ConceptPlan, UnitPlan, ValueTest};
use std::alloc::{AllocError, Global};

/// Appends the text of a plan over the indexes of a release. The first line is `PLAN` and the bound
/// of the plan: how many items it visits at most. Then each node has a line, before its children,
/// which are indented by one space more. The line says what the node is; for a leaf also which rows
/// answer it (its choice); and how many items the node itself visits at most, without its children.
/// Every line ends in LF. If memory is refused, it returns `AllocError`, and `output` is unchanged.
pub fn print_plan(
    alloc: Global,
    physical: &PhysicalPlan,
    indexes: &Indexes,
    output: &mut Vec<u8>,
) -> Result<(), AllocError>
    ensures ok { OnOk result (output.new.items ≡ output.old.items ++ plan_text indexes.now
        (physical_of physical.now.plan)) }
    ensures err { OnErr result (output.new.items ≡ output.old.items) }
{
    let text = plan_bytes(alloc, physical, indexes)?;
    output.extend_from_slice(text.as_slice())
}

// Returns the text of a plan. It is built in a vector of its own, so that a refused allocation
// leaves no part of it in the output.
fn plan_bytes(
    alloc: Global,
    physical: &PhysicalPlan,
    indexes: &Indexes,
) -> Result<Vec<u8>, AllocError>
    ensures { IfOk result (λ text. text.items
        ≡ plan_text indexes.now (physical_of physical.now.plan)) }
{
    let bounds = own_bounds(alloc, physical, indexes)?;
    let mut text = Vec::from_slice(alloc, b"PLAN ")?;
    write_number(bound(physical, indexes), &mut text)?;
    write_plan(alloc, physical.plan(), &[], bounds.as_slice(), &mut text)?;
    Ok(text)
}

// Appends the lines of a concept plan, each indented by `spaces`. `bounds` lists the nodes' own
// bounds, this plan's first; it returns the bounds that this plan's lines did not use.
#[cycle(write)]
fn write_plan<'a>(
    alloc: Global,
    plan: &ConceptPlan,
    spaces: &[u8],
    bounds: &'a [u64],
    text: &mut Vec<u8>,
) -> Result<&'a [u64], AllocError>
    ensures text { OnOk result (text.new.items ≡ text.old.items ++ with_bounds
        (outline before_bound spaces.now (physical_of plan.now)) bounds.now) }
    ensures bounds { IfOk result (λ left. left.now
        ≡ drop (length (outline before_bound spaces.now (physical_of plan.now))) bounds.now) }
{
    let following = write_line(plan, spaces, bounds, text)?;
    let deeper = one_space_more(alloc, spaces)?;
    let left = write_below(alloc, plan, deeper.as_slice(), following, text)?;
    Ok(left)
}

// Appends the lines of the nodes below a node of a concept plan, each indented by `spaces`.
// `bounds` begins with their own bounds; it returns the bounds that their lines did not use.
#[cycle(write)]
fn write_below<'a>(
    alloc: Global,
    plan: &ConceptPlan,
    spaces: &[u8],
    bounds: &'a [u64],
    text: &mut Vec<u8>,
) -> Result<&'a [u64], AllocError>
    ensures text { OnOk result (text.new.items ≡ text.old.items ++ with_bounds
        (below before_bound spaces.now (physical_of plan.now)) bounds.now) }
    ensures bounds { IfOk result (λ left. left.now
        ≡ drop (length (below before_bound spaces.now (physical_of plan.now))) bounds.now) }
{
    match plan {
        ConceptPlan::Empty | ConceptPlan::All | ConceptPlan::One(_) => Ok(bounds),
        ConceptPlan::Walk(_, operand) | ConceptPlan::Members(operand) => {
            write_plan(alloc, operand, spaces, bounds, text)
        }
        ConceptPlan::And(parts) | ConceptPlan::Or(parts) => {
            write_parts(alloc, parts, spaces, bounds, text)
        }
        ConceptPlan::Minus(first, second) => {
            let left = write_plan(alloc, first, spaces, bounds, text)?;
            write_plan(alloc, second, spaces, left, text)
        }
        ConceptPlan::Values(start, names) => {
            let left = write_plan(alloc, start, spaces, bounds, text)?;
            write_parts(alloc, names, spaces, left, text)
        }
        ConceptPlan::Pairs { types, test, .. } => {
            let left = write_plan(alloc, types, spaces, bounds, text)?;
            write_test(alloc, test, spaces, left, text)
        }
        ConceptPlan::Units { units, .. } => { write_groups(alloc, units, spaces, bounds, text) }
    }
}

// Appends the lines of a group plan, each indented by `spaces`. `bounds` begins with the own bounds
// of its nodes; it returns the bounds that its lines did not use.
#[cycle(write)]
fn write_groups<'a>(
    alloc: Global,
    plan: &UnitPlan,
    spaces: &[u8],
    bounds: &'a [u64],
    text: &mut Vec<u8>,
) -> Result<&'a [u64], AllocError>
    ensures text { OnOk result (text.new.items ≡ text.old.items ++ with_bounds
        (group_outline before_bound spaces.now (physical_groups_of plan.now)) bounds.now) }
    ensures bounds { IfOk result (λ left. left.now
        ≡ drop (length (group_outline before_bound spaces.now (physical_groups_of plan.now)))
        bounds.now) }
{
    let following = write_group_line(plan, spaces, bounds, text)?;
    let deeper = one_space_more(alloc, spaces)?;
    let left = write_below_group(alloc, plan, deeper.as_slice(), following, text)?;
    Ok(left)
}

// Appends the lines of the nodes below a node of a group plan, each indented by `spaces`. `bounds`
// begins with their own bounds; it returns the bounds that their lines did not use.
#[cycle(write)]
fn write_below_group<'a>(
    alloc: Global,
    plan: &UnitPlan,
    spaces: &[u8],
    bounds: &'a [u64],
    text: &mut Vec<u8>,
) -> Result<&'a [u64], AllocError>
    ensures text { OnOk result (text.new.items ≡ text.old.items ++ with_bounds
        (below_group before_bound spaces.now (physical_groups_of plan.now)) bounds.now) }
    ensures bounds { IfOk result (λ left. left.now
        ≡ drop (length (below_group before_bound spaces.now (physical_groups_of plan.now)))
        bounds.now) }
{
    match plan {
        UnitPlan::Nothing | UnitPlan::Every => Ok(bounds),
        UnitPlan::And(parts) | UnitPlan::Or(parts) => {
            write_group_parts(alloc, parts, spaces, bounds, text)
        }
        UnitPlan::Minus(first, second) => {
            let left = write_groups(alloc, first, spaces, bounds, text)?;
            write_groups(alloc, second, spaces, left, text)
        }
        UnitPlan::Pairs { types, test, .. } => {
            let left = write_plan(alloc, types, spaces, bounds, text)?;
            write_test(alloc, test, spaces, left, text)
        }
    }
}

// Appends the lines of the plan inside `test`, if it has one; the test itself is no node and has no
// line. It returns the bounds that these lines did not use.
#[cycle(write)]
fn write_test<'a>(
    alloc: Global,
    test: &ValueTest,
    spaces: &[u8],
    bounds: &'a [u64],
    text: &mut Vec<u8>,
) -> Result<&'a [u64], AllocError>
    ensures text { OnOk result (text.new.items ≡ text.old.items ++ with_bounds
        (test_outline before_bound spaces.now (physical_test_of test.now)) bounds.now) }
    ensures bounds { IfOk result (λ left. left.now
        ≡ drop (length (test_outline before_bound spaces.now (physical_test_of test.now)))
        bounds.now) }
{
    match test {
        ValueTest::Within(operand) | ValueTest::Outside(operand) => {
            write_plan(alloc, operand, spaces, bounds, text)
        }
        ValueTest::Number(_, _) => Ok(bounds),
    }
}

// Appends the lines of several concept plans, each indented by `spaces`. `bounds` begins with the
// own bounds of their nodes; it returns the bounds that their lines did not use.
#[cycle(write)]
fn write_parts<'a>(
    alloc: Global,
    parts: &[ConceptPlan],
    spaces: &[u8],
    bounds: &'a [u64],
    text: &mut Vec<u8>,
) -> Result<&'a [u64], AllocError>
    ensures text { OnOk result (text.new.items ≡ text.old.items ++ with_bounds
        (plans_outline before_bound spaces.now (physicals_of parts.now)) bounds.now) }
    ensures bounds { IfOk result (λ left. left.now
        ≡ drop (length (plans_outline before_bound spaces.now (physicals_of parts.now)))
        bounds.now) }
{
    let mut left = bounds;
    for place in 0..parts.len() {
        left = write_plan(alloc, &parts[place], spaces, left, text)?;
    }
    Ok(left)
}

// Appends the lines of several group plans, each indented by `spaces`. `bounds` begins with the own
// bounds of their nodes; it returns the bounds that their lines did not use.
#[cycle(write)]
fn write_group_parts<'a>(
    alloc: Global,
    parts: &[UnitPlan],
    spaces: &[u8],
    bounds: &'a [u64],
    text: &mut Vec<u8>,
) -> Result<&'a [u64], AllocError>
    ensures text { OnOk result (text.new.items ≡ text.old.items
        ++ with_bounds (groups_outline before_bound spaces.now (physical_groups_list_of parts.now))
        bounds.now) }
    ensures bounds { IfOk result (λ left. left.now
        ≡ drop (length (groups_outline before_bound spaces.now (physical_groups_list_of parts.now)))
        bounds.now) }
{
    let mut left = bounds;
    for place in 0..parts.len() {
        left = write_groups(alloc, &parts[place], spaces, left, text)?;
    }
    Ok(left)
}

// Appends the line of one node of a concept plan, which ends with the first of `bounds`; returns
// the remaining bounds.
fn write_line<'a>(
    plan: &ConceptPlan,
    spaces: &[u8],
    bounds: &'a [u64],
    text: &mut Vec<u8>,
) -> Result<&'a [u64], AllocError>
    ensures text { OnOk result (text.new.items ≡ text.old.items ++ bound_line
        (spaces.now ++ node_words (physical_of plan.now)) (first_bound bounds.now)) }
    ensures following { IfOk result (λ following. following.now ≡ drop 1 bounds.now) }
{
    text.extend_from_slice(spaces)?;
    write_node(plan, text)?;
    let following = write_bound(bounds, text)?;
    Ok(following)
}

// Appends the line of one node of a group plan, which ends with the first of `bounds`; returns the
// remaining bounds.
fn write_group_line<'a>(
    plan: &UnitPlan,
    spaces: &[u8],
    bounds: &'a [u64],
    text: &mut Vec<u8>,
) -> Result<&'a [u64], AllocError>
    ensures text { OnOk result (text.new.items ≡ text.old.items ++ bound_line
        (spaces.now ++ group_words (physical_groups_of plan.now)) (first_bound bounds.now)) }
    ensures following { IfOk result (λ following. following.now ≡ drop 1 bounds.now) }
{
    text.extend_from_slice(spaces)?;
    write_group_node(plan, text)?;
    let following = write_bound(bounds, text)?;
    Ok(following)
}

// Ends a line with a space, the first of `bounds` (0 if there is none), and LF; returns the
// remaining bounds.
fn write_bound<'a>(bounds: &'a [u64], text: &mut Vec<u8>) -> Result<&'a [u64], AllocError>
    ensures text { OnOk result (text.new.items ≡ text.old.items ++
        (codes " " ++ number_line (first_bound bounds.now))) }
    ensures following { IfOk result (λ following. following.now ≡ drop 1 bounds.now) }
{
    text.push(b' ')?;
    match bounds.split_first() {
        Some((most, following)) => {
            write_number(*most, text)?;
            Ok(following)
        }
        None => {
            write_number(0, text)?;
            Ok(bounds)
        }
    }
}

// Appends `number` and LF.
fn write_number(number: u64, text: &mut Vec<u8>) -> Result<(), AllocError>
    ensures { OnOk result (text.new.items ≡ text.old.items ++ number_line number) }
{
    append_number(number, text)?;
    text.push(b'\n')?;
    Ok(())
}

// Returns `spaces` with one space more.
fn one_space_more(alloc: Global, spaces: &[u8]) -> Result<Vec<u8>, AllocError>
    ensures { IfOk result (λ more. more.items ≡ 32 ∷ spaces.now) }
{
    let mut more = Vec::from_slice(alloc, b" ")?;
    more.extend_from_slice(spaces)?;
    Ok(more)
}
