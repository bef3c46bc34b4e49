//! Finds a symbol of the language, as `<<` or `{`, at the beginning of a text.
ghost use Rattle.std.specs.Prelude.{◌≡◌, [], ◌∷◌, option_map};
ghost use Rattle.ecl_lexer.specs.Lexemes.{symbol_kind};
ghost use Rattle.ecl_lexer.specs.Reading.{found, symbol_at};

use crate::lexemes::Lexeme;
use crate::token::TokenKind;

/// Returns the longest symbol that begins `text`, as a lexeme, or `None` if no symbol does.
pub fn symbol(text: &[u8]) -> Option<Lexeme>
    ensures { result ≡ option_map found (symbol_at text.now) }
{
    if text.len() >= 3
        && let Some(kind) = three_bytes(text[0], text[1], text[2])
    {
        return Some(Lexeme::token(kind, 3));
    }
    if text.len() >= 2
        && let Some(kind) = two_bytes(text[0], text[1])
    {
        return Some(Lexeme::token(kind, 2));
    }
    if text.is_empty() {
        return None;
    }
    match one_byte(text[0]) {
        Some(kind) => Some(Lexeme::token(kind, 1)),
        None => None,
    }
}

// Returns the kind of the symbol that these three bytes spell, or `None` if they spell none.
fn three_bytes(first: u8, second: u8, third: u8) -> Option<TokenKind>
    ensures { result ≡ symbol_kind (first ∷ second ∷ third ∷ []) }
{
    match (first, second, third) {
        (b'<', b'<', b'!') => Some(TokenKind::ChildOrSelfOf),
        (b'>', b'>', b'!') => Some(TokenKind::ParentOrSelfOf),
        (b'!', b'!', b'>') => Some(TokenKind::Top),
        (b'!', b'!', b'<') => Some(TokenKind::Bottom),
        _ => None,
    }
}

// Returns the kind of the symbol that these two bytes spell, or `None` if they spell none.
fn two_bytes(first: u8, second: u8) -> Option<TokenKind>
    ensures { result ≡ symbol_kind (first ∷ second ∷ []) }
{
    match (first, second) {
        (b'<', b'<') => Some(TokenKind::DescendantOrSelfOf),
        (b'<', b'!') => Some(TokenKind::ChildOf),
        (b'>', b'>') => Some(TokenKind::AncestorOrSelfOf),
        (b'>', b'!') => Some(TokenKind::ParentOf),
        (b'.', b'.') => Some(TokenKind::Dots),
        (b'!', b'=') => Some(TokenKind::NotEqual),
        (b'<', b'=') => Some(TokenKind::LessOrEqual),
        (b'>', b'=') => Some(TokenKind::GreaterOrEqual),
        _ => None,
    }
}

// Returns the kind of the symbol that `byte` is, or `None` if it is none.
fn one_byte(byte: u8) -> Option<TokenKind>
    ensures { result ≡ symbol_kind (byte ∷ []) }
{
    match byte {
        b'<' => Some(TokenKind::DescendantOf),
        b'>' => Some(TokenKind::AncestorOf),
        b'^' => Some(TokenKind::MemberOf),
        b'*' => Some(TokenKind::Wildcard),
        b'(' => Some(TokenKind::RoundOpen),
        b')' => Some(TokenKind::RoundClose),
        b'{' => Some(TokenKind::BraceOpen),
        b'}' => Some(TokenKind::BraceClose),
        b'[' => Some(TokenKind::BracketOpen),
        b']' => Some(TokenKind::BracketClose),
        b':' => Some(TokenKind::Colon),
        b'.' => Some(TokenKind::Dot),
        b'=' => Some(TokenKind::Equal),
        b',' => Some(TokenKind::And),
        _ => None,
    }
}
