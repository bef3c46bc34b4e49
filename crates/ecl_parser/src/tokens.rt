//! Access to the tokens of a text by index. The end of each bracket is computed before, so that no
//! function searches for it.
ghost use Rattle.std.specs.Prelude.{◌≡◌, ◌+◌, ◌<◌, ◌^◌, ◌∷◌, [], false, true, None, Some, IfSome, drop, length, option_map};
ghost use Rattle.numerals.specs.Decimals.{decimal_of};
ghost use Rattle.ecl_lexer.specs.Tokens.{spelled};
ghost use Rattle.constraint_tree.specs.Grammar.{symbol_of};
ghost use Rattle.ecl_parser.specs.declared.tokens.Mark.TheVariants as marks;
ghost use Rattle.ecl_parser.specs.inside.Brackets.{AreEnds};
ghost use Rattle.ecl_parser.specs.inside.Gives.{symbols, symbols_from};
ghost use Rattle.ecl_parser.specs.inside.Reading.{following, after_close as after_close_of, bracketed_at, compare_at, compare_of as comparison_of, digits_at, is_mark as is_marked, number_at, operator_at, operator_of as walk_of, stands};

use constraint_tree::{Compare, Operator};
use ecl_lexer::{Token, TokenKind};
use numerals::{Decimal, decimal, digits};
use std::marker::Model;

/// The tokens of a text whose brackets match. Contracts see the list of tokens.
#[derive(Drop)]
pub struct Tokens<'a> {
    tokens: &'a [Token<'a>],
    // at the index of each `(` the index after the `)` that closes it
    ends: &'a [usize],
}

impl<'a> Model for Tokens<'a> {
    ghost use Rattle.std.specs.Prelude.{List};
    ghost use Rattle.ecl_lexer.specs.declared.token.Token.{Token};

    ghost Value = { List Token };

    ghost use Rattle.ecl_parser.specs.inside.TokensInside.{HaveEnds, tokens_in};

    ghost view = { tokens_in };

    ghost invariant = { HaveEnds };
}

impl<'a> Tokens<'a> {
    /// Joins `tokens` with `ends`, which `bracket_ends` returned for them.
    pub fn new(tokens: &'a [Token<'a>], ends: &'a [usize]) -> Tokens<'a>
        requires { AreEnds (symbols tokens.now) ends.now }
        ensures { result ≡ tokens.now }
    {
        Tokens { tokens, ends }
    }

    /// Returns the number of tokens.
    pub fn len(&self) -> usize
        ensures { result ≡ length self.now }
    {
        self.tokens.len()
    }

    // Returns the index after the `)` that closes the `(` at the index `place`.
    fn after_close(&self, place: usize) -> usize
        requires { stands marks.RoundOpen (symbols_from self.now place) ≡ true }
        ensures { symbols_from self.now result
            ≡ after_close_of 0 (symbols_from self.now (place + 1)) }
    {
        let ends = self.ends;
        ends[place]
    }
}

/// A kind of token whose bytes do not matter to the parser: a symbol, a word or a term.
#[derive(Clone, Copy)]
pub enum Mark {
    And,
    Or,
    Minus,
    Colon,
    Dot,
    Dots,
    RoundOpen,
    RoundClose,
    BraceOpen,
    BraceClose,
    BracketOpen,
    BracketClose,
    Wildcard,
    MemberOf,
    Reverse,
    Term,
}

// Whether `kind` is the kind of the mark `wanted`.
fn is_mark(wanted: Mark, kind: TokenKind) -> bool
    ensures { result ≡ is_marked wanted kind }
{
    match wanted {
        Mark::And => matches!(kind, TokenKind::And),
        Mark::Or => matches!(kind, TokenKind::Or),
        Mark::Minus => matches!(kind, TokenKind::Minus),
        Mark::Colon => matches!(kind, TokenKind::Colon),
        Mark::Dot => matches!(kind, TokenKind::Dot),
        Mark::Dots => matches!(kind, TokenKind::Dots),
        Mark::RoundOpen => matches!(kind, TokenKind::RoundOpen),
        Mark::RoundClose => matches!(kind, TokenKind::RoundClose),
        Mark::BraceOpen => matches!(kind, TokenKind::BraceOpen),
        Mark::BraceClose => matches!(kind, TokenKind::BraceClose),
        Mark::BracketOpen => matches!(kind, TokenKind::BracketOpen),
        Mark::BracketClose => matches!(kind, TokenKind::BracketClose),
        Mark::Wildcard => matches!(kind, TokenKind::Wildcard),
        Mark::MemberOf => matches!(kind, TokenKind::MemberOf),
        Mark::Reverse => matches!(kind, TokenKind::Reverse),
        Mark::Term => matches!(kind, TokenKind::Term),
    }
}

// Returns the hierarchy operator that a token of the kind `kind` spells, or `None` if it spells
// none.
fn operator_of(kind: TokenKind) -> Option<Operator>
    ensures { result ≡ walk_of kind }
{
    match kind {
        TokenKind::DescendantOf => Some(Operator::Descendants),
        TokenKind::DescendantOrSelfOf => Some(Operator::DescendantsOrSelf),
        TokenKind::ChildOf => Some(Operator::Children),
        TokenKind::ChildOrSelfOf => Some(Operator::ChildrenOrSelf),
        TokenKind::AncestorOf => Some(Operator::Ancestors),
        TokenKind::AncestorOrSelfOf => Some(Operator::AncestorsOrSelf),
        TokenKind::ParentOf => Some(Operator::Parents),
        TokenKind::ParentOrSelfOf => Some(Operator::ParentsOrSelf),
        TokenKind::Top => Some(Operator::Top),
        TokenKind::Bottom => Some(Operator::Bottom),
        _ => None,
    }
}

// Returns the comparison that a token of the kind `kind` spells, or `None` if it spells none.
fn compare_of(kind: TokenKind) -> Option<Compare>
    ensures { result ≡ comparison_of kind }
{
    match kind {
        TokenKind::Equal => Some(Compare::Equal),
        TokenKind::NotEqual => Some(Compare::NotEqual),
        TokenKind::DescendantOf => Some(Compare::Less),
        TokenKind::LessOrEqual => Some(Compare::LessOrEqual),
        TokenKind::AncestorOf => Some(Compare::Greater),
        TokenKind::GreaterOrEqual => Some(Compare::GreaterOrEqual),
        _ => None,
    }
}

/// Returns the token at the index `at`, or `None` if there are at most `at` tokens.
pub fn token_at<'a>(tokens: &Tokens<'a>, at: usize) -> Option<Token<'a>>
    ensures front { IfSome result (λ token. symbols_from tokens.now at ≡ symbol_of (spelled token)
        ∷ symbols_from tokens.now (at + 1)) }
    ensures within { IfSome result (λ token. at < length tokens.now) }
    ensures next { IfSome result (λ token. at + 1 < 2 ^ 64) }
    ensures none { result ≡ None → symbols_from tokens.now at ≡ [] }
{
    match tokens.tokens.get(at) {
        Some(token) => Some(*token),
        None => None,
    }
}

/// Whether the token at the index `at` has the kind `wanted`.
#[tactic(auto, using(crate::proofs::TokenLemmas::after_symbol))]
pub fn is_ahead(wanted: Mark, tokens: &Tokens<'_>, at: usize) -> bool
    ensures kind { result ≡ stands wanted (symbols_from tokens.now at) }
    ensures within { result ≡ true → at < length tokens.now }
    ensures next { result ≡ true → at + 1 < 2 ^ 64 }
    ensures rest { result ≡ true → following wanted (symbols_from tokens.now at)
        ≡ Some (symbols_from tokens.now (at + 1)) }
{
    match token_at(tokens, at) {
        Some(token) => is_mark(wanted, token.kind),
        None => false,
    }
}

/// If the token at the index `at` has the kind `wanted`, moves `at` after it and returns true.
/// Otherwise returns false and leaves `at`.
pub fn take(wanted: Mark, tokens: &Tokens<'_>, at: &mut usize) -> bool
    ensures taken { result ≡ true → following wanted (symbols_from tokens.now at.old)
        ≡ Some (symbols_from tokens.now at.new) }
    ensures left { result ≡ false → following wanted (symbols_from tokens.now at.old) ≡ None }
    ensures same { result ≡ false → at.new ≡ at.old }
{
    let place = *at;
    if is_ahead(wanted, tokens, place) {
        *at = place + 1;
        return true;
    }
    false
}

/// If a hierarchy operator stands at `at`, moves `at` after it and returns it. Otherwise returns
/// `None` and leaves `at`.
#[tactic(auto, using(crate::proofs::TokenLemmas::operator_symbol))]
pub fn take_operator(tokens: &Tokens<'_>, at: &mut usize) -> Option<Operator>
    ensures taken { IfSome result (λ operator. operator_at (symbols_from tokens.now at.old)
        ≡ Some (operator, symbols_from tokens.now at.new)) }
    ensures left { result ≡ None → operator_at (symbols_from tokens.now at.old) ≡ None }
    ensures same { result ≡ None → at.new ≡ at.old }
{
    let place = *at;
    let token = token_at(tokens, place)?;
    let operator = operator_of(token.kind)?;
    *at = place + 1;
    Some(operator)
}

/// If a comparison stands at `at`, moves `at` after it and returns it. Otherwise returns `None` and
/// leaves `at`.
#[tactic(auto, using(crate::proofs::TokenLemmas::compare_symbol))]
pub fn take_compare(tokens: &Tokens<'_>, at: &mut usize) -> Option<Compare>
    ensures taken { IfSome result (λ compare. compare_at (symbols_from tokens.now at.old)
        ≡ Some (compare, symbols_from tokens.now at.new)) }
    ensures left { result ≡ None → compare_at (symbols_from tokens.now at.old) ≡ None }
{
    let place = *at;
    let token = token_at(tokens, place)?;
    let compare = compare_of(token.kind)?;
    *at = place + 1;
    Some(compare)
}

/// If a token of `least` to 18 digits stands at `at`, moves `at` after it and returns the number
/// that it spells. Otherwise returns `None` and leaves `at`.
pub fn take_digits(least: usize, tokens: &Tokens<'_>, at: &mut usize) -> Option<u64>
    ensures taken { IfSome result (λ number. digits_at least (symbols_from tokens.now at.old)
        ≡ Some (number, symbols_from tokens.now at.new)) }
    ensures left { result ≡ None → digits_at least (symbols_from tokens.now at.old) ≡ None }
    ensures same { result ≡ None → at.new ≡ at.old }
{
    let place = *at;
    let token = token_at(tokens, place)?;
    match token.kind {
        TokenKind::Digits => {
            let number = digits(token.text, least, 18)?;
            *at = place + 1;
            Some(number)
        }
        _ => None,
    }
}

/// If a token as `#2.5` stands at `at`, moves `at` after it and returns its number. Otherwise
/// returns `None` and leaves `at`.
pub fn take_number(tokens: &Tokens<'_>, at: &mut usize) -> Option<Decimal>
    ensures taken { IfSome result (λ number. number_at (symbols_from tokens.now at.old)
        ≡ Some (number.0, symbols_from tokens.now at.new)) }
    ensures left { result ≡ None → number_at (symbols_from tokens.now at.old) ≡ None }
    ensures same { result ≡ None → at.new ≡ at.old }
{
    let place = *at;
    let token = token_at(tokens, place)?;
    match token.kind {
        TokenKind::Number => {
            let number = number(token.text)?;
            *at = place + 1;
            Some(number)
        }
        _ => None,
    }
}

// Returns the number that a token's text spells after its first byte, `#`.
fn number(text: &[u8]) -> Option<Decimal>
    ensures { option_map (λ found. found.0) result ≡ decimal_of (drop 1 text.now) }
{
    match text.split_first() {
        Some((_, rest)) => decimal(rest),
        None => decimal(text),
    }
}

/// If a `(` stands at `at` and no comparison follows its `)`, moves `at` after the `(` and returns
/// true: the bracket then holds refinements or attribute sets. Otherwise returns false and leaves
/// `at`: a `(` before a comparison begins the name of an attribute.
pub fn take_bracket(tokens: &Tokens<'_>, at: &mut usize) -> bool
    ensures taken { result ≡ true → bracketed_at (symbols_from tokens.now at.old)
        ≡ Some (symbols_from tokens.now at.new) }
    ensures left { result ≡ false → bracketed_at (symbols_from tokens.now at.old) ≡ None }
    ensures same { result ≡ false → at.new ≡ at.old }
{
    let place = *at;
    if !is_ahead(Mark::RoundOpen, tokens, place) {
        return false;
    }
    let mut following = tokens.after_close(place);
    if take_compare(tokens, &mut following).is_some() {
        return false;
    }
    *at = place + 1;
    true
}
