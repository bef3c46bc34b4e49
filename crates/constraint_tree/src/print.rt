//! Prints the text of a tree.
ghost use Rattle.std.specs.Prelude.{◌≡◌, ◌+◌, ◌/◌, ◌%◌, ◌<◌, ◌≤◌, ◌^◌, ◌++◌, [], OnErr, OnOk, decimal, if◌then◌else◌};
ghost use Rattle.constraint_tree.specs.Text.{attribute_text, cardinality_text, closing, compare_text, constraint_text, fraction_digits, fraction_text, is_focus, is_item, is_member_or_focus, is_part, is_sub, joined_items, joined_parts, joined_text, listed_text, most_text, number_text, opening, operator_text, placed_text, range_text, refinement_text, reverse_text, set_text, test_text, unsigned_text};
ghost use Rattle.constraint_tree.specs.Tree.{group_refinement, tree_of, trees_of, refinement_tree_of, refinement_trees_of, set_tree_of, set_trees_of, attribute_tree_of, test_tree_of};

use crate::operator::{Cardinality, Compare, Operator};
use crate::tree::{Attribute, AttributeSet, Constraint, Refinement, Test};
use numerals::Decimal;
use std::alloc::{AllocError, Global};

/// The number 1 in the unit of `Decimal`, 10^-18.
const ONE: u128 = 1_000_000_000_000_000_000;

impl Constraint {
    /// Appends the text of the constraint in the brief syntax (Expression Constraint Language, 5.1)
    /// to `output`. It writes round brackets only if the grammar needs them, and blanks only around
    /// `OR` and `MINUS` and after `R`. Returns `AllocError` and leaves `output` as it was if memory
    /// runs out. An empty list of parts, which no text has, is written as nothing, and a list of
    /// one part as that part.
    pub fn print(&self, alloc: Global, output: &mut Vec<u8>) -> Result<(), AllocError>
        ensures ok { OnOk result (output.new.items ≡ output.old.items
            ++ constraint_text (tree_of self.now)) }
        ensures err { OnErr result (output.new.items ≡ output.old.items) }
    {
        let mut text = Vec::new(alloc);
        self.write(&mut text)?;
        output.extend_from_slice(text.as_slice())
    }

    // Appends the text of the constraint.
    #[cycle(print)]
    #[tactic(auto, using(crate::proofs::TreeLemmas::trees_of_items))]
    fn write(&self, output: &mut Vec<u8>) -> Result<(), AllocError>
        ensures { OnOk result (output.new.items ≡ output.old.items
            ++ constraint_text (tree_of self.now)) }
    {
        match self {
            Constraint::Concept(number) => write_number(*number, output),
            Constraint::Any => output.extend_from_slice(b"*"),
            Constraint::Walk(operator, operand) => {
                output.extend_from_slice(operator_sign(*operator))?;
                operand.write_placed(operand.stands_after_operator(), output)
            }
            Constraint::MemberOf(operand) => {
                output.extend_from_slice(b"^")?;
                operand.write_placed(operand.stands_after_caret(), output)
            }
            Constraint::And(parts) => write_operands(false, b",", parts, output),
            Constraint::Or(parts) => write_operands(false, b" OR ", parts, output),
            Constraint::Minus(first, second) => {
                first.write_operand(output)?;
                output.extend_from_slice(b" MINUS ")?;
                second.write_operand(output)
            }
            Constraint::Dotted(start, names) => {
                start.write_operand(output)?;
                write_operands(true, b".", names, output)
            }
            Constraint::Refined(focus, refinement) => {
                focus.write_operand(output)?;
                output.extend_from_slice(b":")?;
                refinement.write(output)
            }
        }
    }

    // Appends the text of the constraint, in brackets unless it may be an operand without them.
    #[cycle(print)]
    fn write_operand(&self, output: &mut Vec<u8>) -> Result<(), AllocError>
        ensures { let tree = tree_of self.now in OnOk result
            (output.new.items ≡ output.old.items ++ placed_text (is_sub tree)
            (constraint_text tree)) }
    {
        self.write_placed(self.stands_as_operand(), output)
    }

    // Appends the text of the constraint, in brackets unless `stands` is set.
    #[cycle(print)]
    fn write_placed(&self, stands: bool, output: &mut Vec<u8>) -> Result<(), AllocError>
        ensures { OnOk result (output.new.items ≡ output.old.items
            ++ placed_text stands (constraint_text (tree_of self.now))) }
    {
        open(stands, output)?;
        self.write(output)?;
        close(stands, output)
    }

    // Whether the constraint may be an operand without brackets (the rule Sub of the grammar).
    fn stands_as_operand(&self) -> bool
        ensures { result ≡ is_sub (tree_of self.now) }
    {
        match self {
            Constraint::Concept(_) | Constraint::Any => true,
            Constraint::Walk(_, _) | Constraint::MemberOf(_) => true,
            Constraint::And(_) | Constraint::Or(_) | Constraint::Minus(_, _) => false,
            Constraint::Dotted(_, _) | Constraint::Refined(_, _) => false,
        }
    }

    // Whether the constraint may follow a hierarchy operator without brackets.
    fn stands_after_operator(&self) -> bool
        ensures { result ≡ is_member_or_focus (tree_of self.now) }
    {
        match self {
            Constraint::Concept(_) | Constraint::Any | Constraint::MemberOf(_) => true,
            Constraint::And(_) | Constraint::Or(_) | Constraint::Minus(_, _) => false,
            Constraint::Walk(_, _) | Constraint::Dotted(_, _) | Constraint::Refined(_, _) => false,
        }
    }

    // Whether the constraint may follow `^` without brackets (the rule Focus of the grammar).
    fn stands_after_caret(&self) -> bool
        ensures { result ≡ is_focus (tree_of self.now) }
    {
        match self {
            Constraint::Concept(_) | Constraint::Any => true,
            Constraint::Walk(_, _) | Constraint::MemberOf(_) => false,
            Constraint::And(_) | Constraint::Or(_) | Constraint::Minus(_, _) => false,
            Constraint::Dotted(_, _) | Constraint::Refined(_, _) => false,
        }
    }
}

impl Refinement {
    // Appends the text of the refinement.
    #[cycle(print)]
    #[tactic(auto, using(crate::proofs::TreeLemmas::trees_of_items))]
    fn write(&self, output: &mut Vec<u8>) -> Result<(), AllocError>
        ensures { OnOk result (output.new.items ≡ output.old.items
            ++ refinement_text (refinement_tree_of self.now)) }
    {
        match self {
            Refinement::One(attribute) => attribute.write(output),
            Refinement::Group(count, set) => write_group(*count, set, output),
            Refinement::And(parts) => write_items(b",", parts, output),
            Refinement::Or(parts) => write_items(b" OR ", parts, output),
        }
    }

    // Whether the refinement may be a part of `And` or `Or` without brackets.
    fn stands_as_item(&self) -> bool
        ensures { result ≡ is_item (refinement_tree_of self.now) }
    {
        match self {
            Refinement::One(_) | Refinement::Group(_, _) => true,
            Refinement::And(_) | Refinement::Or(_) => false,
        }
    }
}

impl AttributeSet {
    // Appends the text of the attribute set.
    #[cycle(print)]
    #[tactic(auto, using(crate::proofs::TreeLemmas::trees_of_items))]
    fn write(&self, output: &mut Vec<u8>) -> Result<(), AllocError>
        ensures { OnOk result (output.new.items ≡ output.old.items
            ++ set_text (set_tree_of self.now)) }
    {
        match self {
            AttributeSet::One(attribute) => attribute.write(output),
            AttributeSet::And(parts) => write_parts(b",", parts, output),
            AttributeSet::Or(parts) => write_parts(b" OR ", parts, output),
        }
    }

    // Whether the attribute set may be a part of `And` or `Or` without brackets.
    fn stands_as_part(&self) -> bool
        ensures { result ≡ is_part (set_tree_of self.now) }
    {
        match self {
            AttributeSet::One(_) => true,
            AttributeSet::And(_) | AttributeSet::Or(_) => false,
        }
    }
}

impl Attribute {
    // Appends the cardinality, `R`, the name and the test of the attribute.
    #[cycle(print)]
    fn write(&self, output: &mut Vec<u8>) -> Result<(), AllocError>
        ensures { OnOk result (output.new.items ≡ output.old.items
            ++ attribute_text (attribute_tree_of self.now)) }
    {
        write_count(self.count, output)?;
        write_reverse(self.reverse, output)?;
        self.name.write_operand(output)?;
        self.test.write(output)
    }
}

impl Test {
    // Appends the comparison and the value of the test.
    #[cycle(print)]
    fn write(&self, output: &mut Vec<u8>) -> Result<(), AllocError>
        ensures { OnOk result (output.new.items ≡ output.old.items
            ++ test_text (test_tree_of self.now)) }
    {
        match self {
            Test::Within(operand) => {
                output.extend_from_slice(b"=")?;
                operand.write_operand(output)
            }
            Test::Outside(operand) => {
                output.extend_from_slice(b"!=")?;
                operand.write_operand(output)
            }
            Test::Number(compare, decimal) => {
                output.extend_from_slice(compare_sign(*compare))?;
                print_decimal(*decimal, output)
            }
        }
    }
}

// Appends the cardinality `count` and, in braces, the attribute set `set`.
#[cycle(print)]
fn write_group(
    count: Cardinality,
    set: &AttributeSet,
    output: &mut Vec<u8>,
) -> Result<(), AllocError>
    ensures { OnOk result (output.new.items ≡ output.old.items
        ++ refinement_text (group_refinement count (set_tree_of set.now))) }
{
    write_count(count, output)?;
    output.extend_from_slice(b"{")?;
    set.write(output)?;
    output.extend_from_slice(b"}")
}

// Appends `parts` as operands, with `between` between two of them. If `following` is set, `between`
// also stands before the first.
#[cycle(print)]
fn write_operands(
    following: bool,
    between: &[u8],
    parts: &[Constraint],
    output: &mut Vec<u8>,
) -> Result<(), AllocError>
    ensures { OnOk result (output.new.items ≡ output.old.items
        ++ (if following then listed_text between.now (trees_of parts.now) else joined_text
        between.now (trees_of parts.now))) }
{
    let mut has_front = following;
    for part in parts {
        separate(has_front, between, output)?;
        part.write_operand(output)?;
        has_front = true;
    }
    Ok(())
}

// Appends the refinements `parts`, in brackets if they need them, with `between` between two of
// them.
#[cycle(print)]
fn write_items(between: &[u8], parts: &[Refinement], output: &mut Vec<u8>) -> Result<(), AllocError>
    ensures { OnOk result (output.new.items ≡ output.old.items
        ++ joined_items between.now (refinement_trees_of parts.now)) }
{
    let mut has_front = false;
    for part in parts {
        separate(has_front, between, output)?;
        open(part.stands_as_item(), output)?;
        part.write(output)?;
        close(part.stands_as_item(), output)?;
        has_front = true;
    }
    Ok(())
}

// Appends the attribute sets `parts`, in brackets if they need them, with `between` between two.
#[cycle(print)]
fn write_parts(
    between: &[u8],
    parts: &[AttributeSet],
    output: &mut Vec<u8>,
) -> Result<(), AllocError>
    ensures { OnOk result (output.new.items ≡ output.old.items
        ++ joined_parts between.now (set_trees_of parts.now)) }
{
    let mut has_front = false;
    for part in parts {
        separate(has_front, between, output)?;
        open(part.stands_as_part(), output)?;
        part.write(output)?;
        close(part.stands_as_part(), output)?;
        has_front = true;
    }
    Ok(())
}

// Appends `between` if `has_front` is set: if something stands before the next part.
fn separate(has_front: bool, between: &[u8], output: &mut Vec<u8>) -> Result<(), AllocError>
    ensures { OnOk result (output.new.items ≡ output.old.items
        ++ (if has_front then between.now else [])) }
{
    if has_front {
        output.extend_from_slice(between)
    } else {
        Ok(())
    }
}

// Appends `(` unless `stands` is set.
fn open(stands: bool, output: &mut Vec<u8>) -> Result<(), AllocError>
    ensures { OnOk result (output.new.items ≡ output.old.items ++ opening stands) }
{
    if stands {
        Ok(())
    } else {
        output.extend_from_slice(b"(")
    }
}

// Appends `)` unless `stands` is set.
fn close(stands: bool, output: &mut Vec<u8>) -> Result<(), AllocError>
    ensures { OnOk result (output.new.items ≡ output.old.items ++ closing stands) }
{
    if stands {
        Ok(())
    } else {
        output.extend_from_slice(b")")
    }
}

// Appends `R` and a blank if `reverse` is set.
fn write_reverse(reverse: bool, output: &mut Vec<u8>) -> Result<(), AllocError>
    ensures { OnOk result (output.new.items ≡ output.old.items ++ reverse_text reverse) }
{
    if reverse {
        output.extend_from_slice(b"R ")
    } else {
        Ok(())
    }
}

// Appends the cardinality `count`, or nothing if it is the default, `[1..*]`.
fn write_count(count: Cardinality, output: &mut Vec<u8>) -> Result<(), AllocError>
    ensures { OnOk result (output.new.items ≡ output.old.items ++ cardinality_text count) }
{
    match count.max {
        None if count.min == 1 => Ok(()),
        most => write_range(count.min, most, output),
    }
}

// Appends `[least..most]`, with `*` if there is no maximum.
fn write_range(least: u64, most: Option<u64>, output: &mut Vec<u8>) -> Result<(), AllocError>
    ensures { OnOk result (output.new.items ≡ output.old.items ++ range_text least most) }
{
    output.extend_from_slice(b"[")?;
    write_number(least, output)?;
    output.extend_from_slice(b"..")?;
    write_most(most, output)?;
    output.extend_from_slice(b"]")
}

// Appends the maximum of a cardinality, or `*` if there is none.
fn write_most(most: Option<u64>, output: &mut Vec<u8>) -> Result<(), AllocError>
    ensures { OnOk result (output.new.items ≡ output.old.items ++ most_text most) }
{
    match most {
        None => output.extend_from_slice(b"*"),
        Some(number) => write_number(number, output),
    }
}

// Appends `number` in decimal digits.
fn write_number(number: u64, output: &mut Vec<u8>) -> Result<(), AllocError>
    ensures { OnOk result (output.new.items ≡ output.old.items ++ decimal number) }
{
    let mut digits = itoa::Buffer::new();
    output.extend_from_slice(digits.format(number).as_bytes())
}

/// Appends `value` to `output` as a constraint writes it: `#`, `-` if it is negative, and the
/// digits without trailing zeros (Expression Constraint Language 2.2, "5.1 Brief syntax",
/// numericValue). Returns `AllocError` if memory runs out; `output` may then hold a part of the
/// text.
pub fn print_decimal(value: Decimal, output: &mut Vec<u8>) -> Result<(), AllocError>
    ensures { OnOk result (output.new.items ≡ output.old.items ++ number_text value.0) }
{
    if value.0 < 0 {
        output.extend_from_slice(b"#-")?;
    } else {
        output.extend_from_slice(b"#")?;
    }
    write_unsigned(value.0.unsigned_abs(), output)
}

// Appends `number`, which counts 10^-18, as a decimal number without a sign.
fn write_unsigned(number: u128, output: &mut Vec<u8>) -> Result<(), AllocError>
    ensures { OnOk result (output.new.items ≡ output.old.items ++ unsigned_text number) }
{
    let mut digits = itoa::Buffer::new();
    output.extend_from_slice(digits.format(number / ONE).as_bytes())?;
    write_fraction((number % ONE) as u64, output)
}

// Appends `.` and the digits of `fraction`, which counts 10^-18, or nothing if it is 0.
fn write_fraction(fraction: u64, output: &mut Vec<u8>) -> Result<(), AllocError>
    requires { fraction < 10 ^ 18 }
    ensures { OnOk result (output.new.items ≡ output.old.items ++ fraction_text fraction) }
{
    match fraction {
        0 => Ok(()),
        _ => {
            output.extend_from_slice(b".")?;
            write_places(18, fraction, output)
        }
    }
}

// Appends the digits of `fraction`, which counts 10^-`places`, without trailing zeros.
fn write_places(places: u32, fraction: u64, output: &mut Vec<u8>) -> Result<(), AllocError>
    requires few { places ≤ 18 }
    requires fits { fraction < 10 ^ places }
    ensures { OnOk result (output.new.items ≡ output.old.items ++ fraction_digits places fraction) }
{
    if fraction == 0 {
        return Ok(());
    }
    let unit = 10u64.pow(places - 1);
    output.push(b'0' + (fraction / unit) as u8)?;
    write_places(places - 1, fraction % unit, output)
}

// Returns the symbol of the hierarchy operator.
fn operator_sign(operator: Operator) -> &'static [u8]
    ensures { result.now ≡ operator_text operator }
{
    match operator {
        Operator::Descendants => b"<",
        Operator::DescendantsOrSelf => b"<<",
        Operator::Children => b"<!",
        Operator::ChildrenOrSelf => b"<<!",
        Operator::Ancestors => b">",
        Operator::AncestorsOrSelf => b">>",
        Operator::Parents => b">!",
        Operator::ParentsOrSelf => b">>!",
        Operator::Top => b"!!>",
        Operator::Bottom => b"!!<",
    }
}

// Returns the symbol of the comparison.
fn compare_sign(compare: Compare) -> &'static [u8]
    ensures { result.now ≡ compare_text compare }
{
    match compare {
        Compare::Equal => b"=",
        Compare::NotEqual => b"!=",
        Compare::Less => b"<",
        Compare::LessOrEqual => b"<=",
        Compare::Greater => b">",
        Compare::GreaterOrEqual => b">=",
    }
}
