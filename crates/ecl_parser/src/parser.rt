//! The recursive descent over the tokens. Each function reads one rule of the grammar from the
//! index `at`, returns its tree, and moves `at` after it. The rules (Constraint, Sub, Focus,
//! Refinement, Item, Set, Part, Pair, Count) are those of `specs/Grammar.antt` in
//! `constraint_tree`. `depth` is the number of brackets that may still be opened: it falls with
//! each one, so the descent ends. Each function returns `Syntax` if the tokens do not follow the
//! rule, and `Memory` if memory runs out.
ghost use Rattle.std.specs.Prelude.{◌≡◌, ◌∷◌, [], IfOk, map};
ghost use Rattle.constraint_tree.specs.Tree.{attribute_tree_of, refinement_tree_of, set_tree_of, test_tree_of, tree_of};
ghost use Rattle.ecl_parser.specs.inside.Gives.{Gives, symbols_from};
ghost use Rattle.ecl_parser.specs.inside.Reading.{all_after, constraint_after, constraint_in, dotted_after, focus_in, item_after, item_in, member_in, minus_after, pair_in, part_in, readers, refined_after, refinement_in, set_in, sub_in, test_in, value_test, with_front};

use crate::counts::count;
use crate::tokens::{
    Mark, Tokens, is_ahead, take, take_bracket, take_compare, take_digits, take_number,
    take_operator,
};
use constraint_tree::{
    Attribute, AttributeSet, Cardinality, Compare, Constraint, Refinement, Test,
};
use ecl_lexer::QueryFault;
use std::alloc::{AllocError, Global};

/// Reads the rule Constraint: a Sub that stands alone, is joined with other Subs, is refined, or is
/// followed by dots and names.
#[cycle(parser)]
#[tactic(auto, unfolding(crate::specs::inside::Reading::constraint_in))]
pub fn constraint(
    alloc: Global,
    tokens: &Tokens<'_>,
    at: &mut usize,
    depth: u8,
) -> Result<Constraint, QueryFault>
    ensures { Gives (λ found. (tree_of found, symbols_from tokens.now at.new)) result
        (constraint_in (readers depth) (symbols_from tokens.now at.old)) }
{
    let first = sub(alloc, tokens, at, depth)?;
    constraint_after(alloc, first, tokens, at, depth)
}

// Reads what follows the first Sub of a constraint: the Subs joined with it, the names after dots,
// the refinement, or the Sub after `MINUS`. Returns `first` if none of these follows.
#[cycle(parser)]
#[tactic(auto, unfolding(crate::specs::inside::Reading::constraint_after))]
fn constraint_after(
    alloc: Global,
    first: Constraint,
    tokens: &Tokens<'_>,
    at: &mut usize,
    depth: u8,
) -> Result<Constraint, QueryFault>
    ensures { Gives (λ found. (tree_of found, symbols_from tokens.now at.new)) result
        (constraint_after (readers depth) (tree_of first) (symbols_from tokens.now at.old)) }
{
    if is_ahead(Mark::And, tokens, *at) {
        let parts = joined(alloc, first, Mark::And, tokens, at, depth)?;
        return Ok(Constraint::And(parts));
    }
    if is_ahead(Mark::Or, tokens, *at) {
        let parts = joined(alloc, first, Mark::Or, tokens, at, depth)?;
        return Ok(Constraint::Or(parts));
    }
    if is_ahead(Mark::Dot, tokens, *at) {
        return dotted(alloc, first, tokens, at, depth);
    }
    if take(Mark::Colon, tokens, at) {
        return refined(alloc, first, tokens, at, depth);
    }
    if take(Mark::Minus, tokens, at) {
        return subtracted(alloc, first, tokens, at, depth);
    }
    Ok(first)
}

// Reads the Subs that follow `first`, each after the token `joint`. Returns `first` and these Subs.
#[cycle(parser)]
fn joined(
    alloc: Global,
    first: Constraint,
    joint: Mark,
    tokens: &Tokens<'_>,
    at: &mut usize,
    depth: u8,
) -> Result<Vec<Constraint>, QueryFault>
    ensures { Gives (λ found. (map tree_of found.items, symbols_from tokens.now at.new)) result
        (with_front (tree_of first ∷ [])
        (all_after (sub_in (readers depth)) joint (symbols_from tokens.now at.old))) }
{
    let parts = single(alloc, first)?;
    subs(alloc, parts, joint, tokens, at, depth)
}

// Reads the names that follow `start`, each after a dot, and returns the dotted constraint.
#[cycle(parser)]
fn dotted(
    alloc: Global,
    start: Constraint,
    tokens: &Tokens<'_>,
    at: &mut usize,
    depth: u8,
) -> Result<Constraint, QueryFault>
    ensures { Gives (λ found. (tree_of found, symbols_from tokens.now at.new)) result
        (dotted_after (readers depth) (tree_of start) (symbols_from tokens.now at.old)) }
{
    let start = Box::new(alloc, start)?;
    let names = subs(alloc, Vec::new(alloc), Mark::Dot, tokens, at, depth)?;
    Ok(Constraint::Dotted(start, names))
}

// Reads the refinement after `:` and returns `focus` refined by it.
#[cycle(parser)]
fn refined(
    alloc: Global,
    focus: Constraint,
    tokens: &Tokens<'_>,
    at: &mut usize,
    depth: u8,
) -> Result<Constraint, QueryFault>
    ensures { Gives (λ found. (tree_of found, symbols_from tokens.now at.new)) result
        (refined_after (readers depth) (tree_of focus) (symbols_from tokens.now at.old)) }
{
    let what = refinement(alloc, tokens, at, depth)?;
    let focus = Box::new(alloc, focus)?;
    let what = Box::new(alloc, what)?;
    Ok(Constraint::Refined(focus, what))
}

// Reads the Sub after `MINUS` and returns the difference of `first` and this Sub.
#[cycle(parser)]
fn subtracted(
    alloc: Global,
    first: Constraint,
    tokens: &Tokens<'_>,
    at: &mut usize,
    depth: u8,
) -> Result<Constraint, QueryFault>
    ensures { Gives (λ found. (tree_of found, symbols_from tokens.now at.new)) result
        (minus_after (readers depth) (tree_of first) (symbols_from tokens.now at.old)) }
{
    let second = sub(alloc, tokens, at, depth)?;
    let first = Box::new(alloc, first)?;
    let second = Box::new(alloc, second)?;
    Ok(Constraint::Minus(first, second))
}

// Reads Subs, each after the token `joint`, until no `joint` follows. Returns `parts` with these
// Subs appended.
#[cycle(parser)]
fn subs(
    alloc: Global,
    mut parts: Vec<Constraint>,
    joint: Mark,
    tokens: &Tokens<'_>,
    at: &mut usize,
    depth: u8,
) -> Result<Vec<Constraint>, QueryFault>
    ensures { Gives (λ found. (map tree_of found.items, symbols_from tokens.now at.new)) result
        (with_front (map tree_of parts.items)
        (all_after (sub_in (readers depth)) joint (symbols_from tokens.now at.old))) }
{
    for _turn in *at..tokens.len() {
        if !take(joint, tokens, at) {
            break;
        }
        let part = match sub(alloc, tokens, at, depth) {
            Ok(part) => part,
            Err(fault) => return Err(fault),
        };
        parts.push(part)?;
    }
    Ok(parts)
}

// Reads the rule Sub: an optional hierarchy operator, an optional `^`, and a Focus.
#[cycle(parser)]
#[tactic(auto, unfolding(crate::specs::inside::Reading::sub_in))]
fn sub(
    alloc: Global,
    tokens: &Tokens<'_>,
    at: &mut usize,
    depth: u8,
) -> Result<Constraint, QueryFault>
    ensures { Gives (λ found. (tree_of found, symbols_from tokens.now at.new)) result
        (sub_in (readers depth) (symbols_from tokens.now at.old)) }
{
    match take_operator(tokens, at) {
        Some(operator) => {
            let operand = member(alloc, tokens, at, depth)?;
            let operand = Box::new(alloc, operand)?;
            Ok(Constraint::Walk(operator, operand))
        }
        None => member(alloc, tokens, at, depth),
    }
}

// Reads an optional `^` and a Focus.
#[cycle(parser)]
#[tactic(auto, unfolding(crate::specs::inside::Reading::member_in))]
fn member(
    alloc: Global,
    tokens: &Tokens<'_>,
    at: &mut usize,
    depth: u8,
) -> Result<Constraint, QueryFault>
    ensures { Gives (λ found. (tree_of found, symbols_from tokens.now at.new)) result
        (member_in (readers depth) (symbols_from tokens.now at.old)) }
{
    if take(Mark::MemberOf, tokens, at) {
        let sets = focus(alloc, tokens, at, depth)?;
        let sets = Box::new(alloc, sets)?;
        return Ok(Constraint::MemberOf(sets));
    }
    focus(alloc, tokens, at, depth)
}

// Reads the rule Focus: a concept with an optional term, `*`, or a constraint in round brackets.
#[cycle(parser)]
#[tactic(auto, unfolding(crate::specs::inside::Reading::focus_in, crate::specs::inside::Reading::readers))]
fn focus(
    alloc: Global,
    tokens: &Tokens<'_>,
    at: &mut usize,
    depth: u8,
) -> Result<Constraint, QueryFault>
    ensures { Gives (λ found. (tree_of found, symbols_from tokens.now at.new)) result
        (focus_in (readers depth) (symbols_from tokens.now at.old)) }
{
    if let Some(number) = take_digits(6, tokens, at) {
        let _is_term = take(Mark::Term, tokens, at);
        return Ok(Constraint::Concept(number));
    }
    if take(Mark::Wildcard, tokens, at) {
        return Ok(Constraint::Any);
    }
    if !take(Mark::RoundOpen, tokens, at) || depth == 0 {
        return Err(QueryFault::Syntax);
    }
    let found = constraint(alloc, tokens, at, depth - 1)?;
    if !take(Mark::RoundClose, tokens, at) {
        return Err(QueryFault::Syntax);
    }
    Ok(found)
}

// Reads the rule Refinement: one Item, or several joined by AND or by OR.
#[cycle(parser)]
#[tactic(auto, using(constraint_tree::proofs::TreeLemmas::trees_of_items), unfolding(crate::specs::inside::Reading::refinement_in, crate::specs::inside::Reading::refinement_after))]
fn refinement(
    alloc: Global,
    tokens: &Tokens<'_>,
    at: &mut usize,
    depth: u8,
) -> Result<Refinement, QueryFault>
    ensures { Gives (λ found. (refinement_tree_of found, symbols_from tokens.now at.new)) result
        (refinement_in (readers depth) (symbols_from tokens.now at.old)) }
{
    let first = item(alloc, tokens, at, depth)?;
    if is_ahead(Mark::And, tokens, *at) {
        let parts = single(alloc, first)?;
        let parts = items(alloc, parts, Mark::And, tokens, at, depth)?;
        return Ok(Refinement::And(parts));
    }
    if is_ahead(Mark::Or, tokens, *at) {
        let parts = single(alloc, first)?;
        let parts = items(alloc, parts, Mark::Or, tokens, at, depth)?;
        return Ok(Refinement::Or(parts));
    }
    Ok(first)
}

// Reads Items, each after the token `joint`, until no `joint` follows. Returns `parts` with these
// Items appended.
#[cycle(parser)]
fn items(
    alloc: Global,
    mut parts: Vec<Refinement>,
    joint: Mark,
    tokens: &Tokens<'_>,
    at: &mut usize,
    depth: u8,
) -> Result<Vec<Refinement>, QueryFault>
    ensures { Gives (λ found. (map refinement_tree_of found.items, symbols_from tokens.now at.new))
        result (with_front (map refinement_tree_of parts.items)
        (all_after (item_in (readers depth)) joint (symbols_from tokens.now at.old))) }
{
    for _turn in *at..tokens.len() {
        if !take(joint, tokens, at) {
            break;
        }
        let part = match item(alloc, tokens, at, depth) {
            Ok(part) => part,
            Err(fault) => return Err(fault),
        };
        parts.push(part)?;
    }
    Ok(parts)
}

// Reads the rule Item: a refinement in round brackets, or an optional cardinality and an attribute
// or a group of attributes.
#[cycle(parser)]
#[tactic(auto, unfolding(crate::specs::inside::Reading::item_in, crate::specs::inside::Reading::readers))]
fn item(
    alloc: Global,
    tokens: &Tokens<'_>,
    at: &mut usize,
    depth: u8,
) -> Result<Refinement, QueryFault>
    ensures { Gives (λ found. (refinement_tree_of found, symbols_from tokens.now at.new)) result
        (item_in (readers depth) (symbols_from tokens.now at.old)) }
{
    if take_bracket(tokens, at) {
        if depth == 0 {
            return Err(QueryFault::Syntax);
        }
        let found = refinement(alloc, tokens, at, depth - 1)?;
        if !take(Mark::RoundClose, tokens, at) {
            return Err(QueryFault::Syntax);
        }
        return Ok(found);
    }
    let cardinality = count(tokens, at)?;
    counted_item(alloc, cardinality, tokens, at, depth)
}

// Reads what follows the cardinality of an Item: a group of attributes in braces, or an attribute
// with an optional `R`.
#[cycle(parser)]
#[tactic(auto, unfolding(crate::specs::inside::Reading::item_after, crate::specs::inside::Reading::readers))]
fn counted_item(
    alloc: Global,
    cardinality: Cardinality,
    tokens: &Tokens<'_>,
    at: &mut usize,
    depth: u8,
) -> Result<Refinement, QueryFault>
    ensures { Gives (λ found. (refinement_tree_of found, symbols_from tokens.now at.new)) result
        (item_after (readers depth) cardinality (symbols_from tokens.now at.old)) }
{
    if take(Mark::BraceOpen, tokens, at) {
        if depth == 0 {
            return Err(QueryFault::Syntax);
        }
        let found = set(alloc, tokens, at, depth - 1)?;
        if !take(Mark::BraceClose, tokens, at) {
            return Err(QueryFault::Syntax);
        }
        return Ok(Refinement::Group(cardinality, found));
    }
    if take(Mark::Reverse, tokens, at) {
        let found = pair(alloc, cardinality, true, tokens, at, depth)?;
        return Ok(Refinement::One(found));
    }
    let found = pair(alloc, cardinality, false, tokens, at, depth)?;
    Ok(Refinement::One(found))
}

// Reads the rule Set: one Part, or several joined by AND or by OR.
#[cycle(parser)]
#[tactic(auto, using(constraint_tree::proofs::TreeLemmas::trees_of_items), unfolding(crate::specs::inside::Reading::set_in, crate::specs::inside::Reading::set_after))]
fn set(
    alloc: Global,
    tokens: &Tokens<'_>,
    at: &mut usize,
    depth: u8,
) -> Result<AttributeSet, QueryFault>
    ensures { Gives (λ found. (set_tree_of found, symbols_from tokens.now at.new)) result
        (set_in (readers depth) (symbols_from tokens.now at.old)) }
{
    let first = part(alloc, tokens, at, depth)?;
    if is_ahead(Mark::And, tokens, *at) {
        let list = single(alloc, first)?;
        let list = parts(alloc, list, Mark::And, tokens, at, depth)?;
        return Ok(AttributeSet::And(list));
    }
    if is_ahead(Mark::Or, tokens, *at) {
        let list = single(alloc, first)?;
        let list = parts(alloc, list, Mark::Or, tokens, at, depth)?;
        return Ok(AttributeSet::Or(list));
    }
    Ok(first)
}

// Reads Parts, each after the token `joint`, until no `joint` follows. Returns `list` with these
// Parts appended.
#[cycle(parser)]
fn parts(
    alloc: Global,
    mut list: Vec<AttributeSet>,
    joint: Mark,
    tokens: &Tokens<'_>,
    at: &mut usize,
    depth: u8,
) -> Result<Vec<AttributeSet>, QueryFault>
    ensures { Gives (λ found. (map set_tree_of found.items, symbols_from tokens.now at.new)) result
        (with_front (map set_tree_of list.items)
        (all_after (part_in (readers depth)) joint (symbols_from tokens.now at.old))) }
{
    for _turn in *at..tokens.len() {
        if !take(joint, tokens, at) {
            break;
        }
        let found = match part(alloc, tokens, at, depth) {
            Ok(found) => found,
            Err(fault) => return Err(fault),
        };
        list.push(found)?;
    }
    Ok(list)
}

// Reads the rule Part: a Set in round brackets, or an optional cardinality and an attribute.
#[cycle(parser)]
#[tactic(auto, unfolding(crate::specs::inside::Reading::part_in, crate::specs::inside::Reading::readers))]
fn part(
    alloc: Global,
    tokens: &Tokens<'_>,
    at: &mut usize,
    depth: u8,
) -> Result<AttributeSet, QueryFault>
    ensures { Gives (λ found. (set_tree_of found, symbols_from tokens.now at.new)) result
        (part_in (readers depth) (symbols_from tokens.now at.old)) }
{
    if take_bracket(tokens, at) {
        if depth == 0 {
            return Err(QueryFault::Syntax);
        }
        let found = set(alloc, tokens, at, depth - 1)?;
        if !take(Mark::RoundClose, tokens, at) {
            return Err(QueryFault::Syntax);
        }
        return Ok(found);
    }
    let cardinality = count(tokens, at)?;
    let found = pair(alloc, cardinality, false, tokens, at, depth)?;
    Ok(AttributeSet::One(found))
}

// Reads the rule Pair: a name, a comparison and a value. Returns the attribute that has these, the
// cardinality `count` and the direction `reverse`.
#[cycle(parser)]
#[tactic(auto, unfolding(crate::specs::inside::Reading::pair_in))]
fn pair(
    alloc: Global,
    count: Cardinality,
    reverse: bool,
    tokens: &Tokens<'_>,
    at: &mut usize,
    depth: u8,
) -> Result<Attribute, QueryFault>
    ensures { Gives (λ found. (attribute_tree_of found, symbols_from tokens.now at.new)) result
        (pair_in (readers depth) count reverse (symbols_from tokens.now at.old)) }
{
    let name = sub(alloc, tokens, at, depth)?;
    let Some(compare) = take_compare(tokens, at) else {
        return Err(QueryFault::Syntax);
    };
    let test = test(alloc, compare, tokens, at, depth)?;
    Ok(Attribute {
        count,
        reverse,
        name,
        test,
    })
}

// Reads the value after the comparison `compare`: a number, or, after `=` and `!=`, a Sub.
#[cycle(parser)]
#[tactic(auto, unfolding(crate::specs::inside::Reading::test_in))]
fn test(
    alloc: Global,
    compare: Compare,
    tokens: &Tokens<'_>,
    at: &mut usize,
    depth: u8,
) -> Result<Test, QueryFault>
    ensures { Gives (λ found. (test_tree_of found, symbols_from tokens.now at.new)) result
        (test_in (readers depth) compare (symbols_from tokens.now at.old)) }
{
    if let Some(number) = take_number(tokens, at) {
        return Ok(Test::Number(compare, number));
    }
    match compare {
        Compare::Equal => {
            let value = sub(alloc, tokens, at, depth)?;
            let value = Box::new(alloc, value)?;
            Ok(Test::Within(value))
        }
        Compare::NotEqual => {
            let value = sub(alloc, tokens, at, depth)?;
            let value = Box::new(alloc, value)?;
            Ok(Test::Outside(value))
        }
        _ => Err(QueryFault::Syntax),
    }
}

// Returns a list of the one part `first`.
fn single<T: Drop>(alloc: Global, first: T) -> Result<Vec<T>, AllocError>
    ensures { IfOk result (λ parts. parts.items ≡ first ∷ []) }
{
    let mut parts = Vec::new(alloc);
    parts.push(first)?;
    Ok(parts)
}
