//! The words for the nodes of a plan.
ghost use Rattle.std.specs.Prelude.{◌≡◌, ◌++◌, OnOk};
ghost use Rattle.std.specs.Fmt.{signed_decimal};
ghost use Rattle.constraint_tree.specs.Text.{compare_text, most_text};
ghost use Rattle.set_algebra.specs.Physical.{physical_groups_of, physical_of, physical_test_of};
ghost use Rattle.answer_printer.specs.PlanText.{choice_words, count_words, group_words, leaf_words, node_words, operator_word as word_of_operator, pairs_words, test_words};

use crate::numbers::append_number;
use constraint_tree::{Cardinality, Compare, Operator};
use planner::Choice;
use rf2_rows::Decimal;
use set_algebra::{ConceptPlan, UnitPlan, ValueTest};
use std::alloc::AllocError;

/// Appends the words that describe one node of a concept plan, without its children.
pub fn write_node(plan: &ConceptPlan, text: &mut Vec<u8>) -> Result<(), AllocError>
    ensures { OnOk result (text.new.items ≡ text.old.items ++ node_words (physical_of plan.now)) }
{
    match plan {
        ConceptPlan::Empty => text.extend_from_slice(b"empty"),
        ConceptPlan::All => text.extend_from_slice(b"all"),
        ConceptPlan::One(number) => {
            text.extend_from_slice(b"one ")?;
            append_number(*number, text)
        }
        ConceptPlan::Walk(operator, _) => text.extend_from_slice(operator_word(*operator)),
        ConceptPlan::Members(_) => text.extend_from_slice(b"members"),
        ConceptPlan::And(_) => text.extend_from_slice(b"and"),
        ConceptPlan::Or(_) => text.extend_from_slice(b"or"),
        ConceptPlan::Minus(_, _) => text.extend_from_slice(b"minus"),
        ConceptPlan::Values(_, _) => text.extend_from_slice(b"values"),
        ConceptPlan::Pairs {
            back,
            count,
            test,
            choice,
            ..
        } => {
            text.extend_from_slice(direction(*back))?;
            write_leaf(*count, test, *choice, text)
        }
        ConceptPlan::Units { count, .. } => {
            text.extend_from_slice(b"units ")?;
            write_count(*count, text)
        }
    }
}

/// Appends the words that describe one node of a group plan, without its children.
pub fn write_group_node(plan: &UnitPlan, text: &mut Vec<u8>) -> Result<(), AllocError>
    ensures { OnOk result (text.new.items ≡ text.old.items
        ++ group_words (physical_groups_of plan.now)) }
{
    match plan {
        UnitPlan::Nothing => text.extend_from_slice(b"no-units"),
        UnitPlan::Every => text.extend_from_slice(b"every-unit"),
        UnitPlan::And(_) => text.extend_from_slice(b"unit-and"),
        UnitPlan::Or(_) => text.extend_from_slice(b"unit-or"),
        UnitPlan::Minus(_, _) => text.extend_from_slice(b"unit-minus"),
        UnitPlan::Pairs {
            count,
            test,
            choice,
            ..
        } => {
            text.extend_from_slice(b"unit-pairs ")?;
            write_leaf(*count, test, *choice, text)
        }
    }
}

// Appends the words for a leaf: its cardinality, its test, and its choice (which rows answer it).
fn write_leaf(
    count: Cardinality,
    test: &ValueTest,
    choice: Choice,
    text: &mut Vec<u8>,
) -> Result<(), AllocError>
    ensures { OnOk result (text.new.items ≡ text.old.items
        ++ leaf_words count (physical_test_of test.now) choice) }
{
    write_count(count, text)?;
    text.push(b' ')?;
    write_test(test, text)?;
    text.push(b' ')?;
    text.extend_from_slice(choice_word(choice))
}

// Appends a cardinality, such as `1..*`.
fn write_count(count: Cardinality, text: &mut Vec<u8>) -> Result<(), AllocError>
    ensures { OnOk result (text.new.items ≡ text.old.items ++ count_words count) }
{
    append_number(count.min, text)?;
    text.extend_from_slice(b"..")?;
    match count.max {
        None => text.extend_from_slice(b"*"),
        Some(most) => append_number(most, text),
    }
}

// Appends the words for a test on values: `within` or `outside` a set, or a comparison with a
// number.
fn write_test(test: &ValueTest, text: &mut Vec<u8>) -> Result<(), AllocError>
    ensures { OnOk result (text.new.items ≡ text.old.items
        ++ test_words (physical_test_of test.now)) }
{
    match test {
        ValueTest::Within(_) => text.extend_from_slice(b"within"),
        ValueTest::Outside(_) => text.extend_from_slice(b"outside"),
        ValueTest::Number(compare, number) => {
            text.extend_from_slice(compare_sign(*compare))?;
            text.push(b' ')?;
            write_decimal(*number, text)
        }
    }
}

// Appends a decimal number as an integer: how many units of 10^-18 it has.
fn write_decimal(number: Decimal, text: &mut Vec<u8>) -> Result<(), AllocError>
    ensures { OnOk result (text.new.items ≡ text.old.items ++ signed_decimal number.0) }
{
    let mut digits = itoa::Buffer::new();
    text.extend_from_slice(digits.format(number.0).as_bytes())
}

// Returns the words for the direction in which attribute rows are read: `pairs out` from their
// sources, or `pairs in` backwards, from their values.
fn direction(back: bool) -> &'static [u8]
    ensures { result.now ≡ pairs_words back }
{
    if back { b"pairs in " } else { b"pairs out " }
}

// Returns the word for a hierarchy operator.
fn operator_word(operator: Operator) -> &'static [u8]
    ensures { result.now ≡ word_of_operator operator }
{
    match operator {
        Operator::Descendants => b"descendants",
        Operator::DescendantsOrSelf => b"descendants-self",
        Operator::Children => b"children",
        Operator::ChildrenOrSelf => b"children-self",
        Operator::Ancestors => b"ancestors",
        Operator::AncestorsOrSelf => b"ancestors-self",
        Operator::Parents => b"parents",
        Operator::ParentsOrSelf => b"parents-self",
        Operator::Top => b"top",
        Operator::Bottom => b"bottom",
    }
}

// Returns the sign of a comparison operator.
fn compare_sign(compare: Compare) -> &'static [u8]
    ensures { result.now ≡ compare_text compare }
{
    match compare {
        Compare::Equal => b"=",
        Compare::NotEqual => b"!=",
        Compare::Less => b"<",
        Compare::LessOrEqual => b"<=",
        Compare::Greater => b">",
        Compare::GreaterOrEqual => b">=",
    }
}

// Returns the words for a leaf's choice.
fn choice_word(choice: Choice) -> &'static [u8]
    ensures { result.now ≡ choice_words choice }
{
    match choice {
        Choice::ByValue => b"by value",
        Choice::ByType => b"by type",
        Choice::Scan => b"by scan",
    }
}
