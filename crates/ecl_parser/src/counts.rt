//! Reads a cardinality.
ghost use Rattle.std.specs.Prelude.{◌≡◌, None, Some, IfSome};
ghost use Rattle.ecl_parser.specs.inside.Gives.{Gives, symbols_from};
ghost use Rattle.ecl_parser.specs.inside.Reading.{bounds_at, count_at, most_at};

use crate::tokens::{Mark, Tokens, take, take_digits};
use constraint_tree::Cardinality;
use ecl_lexer::QueryFault;

/// Reads the rule Count: the cardinality that begins at the index `at`, and moves `at` after it. If
/// no `[` stands there, it returns the default `[1..*]` and leaves `at`. Returns `Syntax` if a `[`
/// begins no cardinality.
pub fn count(tokens: &Tokens<'_>, at: &mut usize) -> Result<Cardinality, QueryFault>
    ensures { Gives (λ found. (found, symbols_from tokens.now at.new)) result
        (count_at (symbols_from tokens.now at.old)) }
{
    if !take(Mark::BracketOpen, tokens, at) {
        return Ok(Cardinality { min: 1, max: None });
    }
    match bounds(tokens, at) {
        Some(found) => Ok(found),
        None => Err(QueryFault::Syntax),
    }
}

// Reads the bounds of a cardinality and its `]`, after its `[`. Returns `None` if they do not
// follow.
#[tactic(auto, unfolding(crate::specs::inside::Reading::bounds_at))]
fn bounds(tokens: &Tokens<'_>, at: &mut usize) -> Option<Cardinality>
    ensures some { IfSome result (λ found. bounds_at (symbols_from tokens.now at.old)
        ≡ Some (found, symbols_from tokens.now at.new)) }
    ensures none { result ≡ None → bounds_at (symbols_from tokens.now at.old) ≡ None }
{
    let min = take_digits(1, tokens, at)?;
    if !take(Mark::Dots, tokens, at) {
        return None;
    }
    let max = most(tokens, at)?;
    if !take(Mark::BracketClose, tokens, at) {
        return None;
    }
    Some(Cardinality { min, max })
}

// Reads the maximum of a cardinality. The inner `None` means `*`, no maximum; the outer `None`
// means that no maximum stands at `at`.
fn most(tokens: &Tokens<'_>, at: &mut usize) -> Option<Option<u64>>
    ensures some { IfSome result (λ found. most_at (symbols_from tokens.now at.old)
        ≡ Some (found, symbols_from tokens.now at.new)) }
    ensures none { result ≡ None → most_at (symbols_from tokens.now at.old) ≡ None }
{
    if take(Mark::Wildcard, tokens, at) {
        return Some(None);
    }
    let max = take_digits(1, tokens, at)?;
    Some(Some(max))
}
