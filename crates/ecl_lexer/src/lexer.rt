//! Cuts a text into tokens.
ghost use Rattle.std.specs.Prelude.{◌≡◌, ◌⊎◌, ◌↔◌, ℕ, ◌+◌, ◌<◌, ◌≤◌, List, [], map, length, Err, IsOk, IfOk, IfErr, IsOkAnd, OnOk};
ghost use Rattle.std.specs.List.{prefix_len};
ghost use Rattle.ecl_lexer.specs.Bytes.{is_code_byte};
ghost use Rattle.ecl_lexer.specs.Reading.{found_of, reading};
ghost use Rattle.ecl_lexer.specs.Tokens.{AreTokensOf, ArePlacedIn, BeginsWithToken, FollowOn, IsFaultOf, IsReadable, Spelled, spelled, placed};
ghost use Rattle.ecl_lexer.specs.declared.fault.QueryFault.{QueryFault};
ghost use Rattle.ecl_lexer.specs.declared.fault.QueryFault.TheVariants.{Long, Utf8, Memory};

use crate::fault::QueryFault;
use crate::lexemes::{Lexeme, first_lexeme};
use crate::runs::code_count;
use crate::token::Token;
use crate::unsupported::unsupported;
use std::alloc::Global;
use std::str::from_utf8;

// The most bytes that a text may have.
const MOST_BYTES: usize = 65_535;

/// Returns the tokens of `text` in their order, or the text's first refusal before the grammar is
/// looked at (Expression Constraint Language 2.2, 5.1 "Brief syntax"). The refusal is `Long`, or
/// else `Utf8`, or else the fault at the least offset; at one offset `Unsupported` comes before
/// `Token`, and `Token` before `Limit`. Returns `Memory` if memory runs out; a text without a token
/// takes no memory. Never returns `Depth` or `Syntax`, which the parser finds.
pub fn lex(alloc: Global, text: &[u8]) -> Result<Vec<Token<'_>>, QueryFault>
    // The result has the tokens of the text, as the grammar sees them and with their places.
    ensures found { IfOk result (λ tokens. AreTokensOf text.now (map spelled tokens.items)) }
    ensures places { IfOk result (λ tokens. ArePlacedIn text.now (map placed tokens.items)) }
    ensures spans { IfOk result (λ tokens. FollowOn text.now 0 (map placed tokens.items)) }
    ensures readable { OnOk result (IsReadable text.now) }

    // A refusal is a fault of the text. If the text has a fault, or tokens, the only other answer
    // is `Memory`.
    ensures fault { IfErr result (λ fault. (fault ≡ Memory) ⊎ IsFaultOf text.now fault) }
    ensures only { (fault : QueryFault) → IsFaultOf text.now fault → (result ≡ Err fault)
        ⊎ (result ≡ Err Memory) }
    ensures whole { (tokens : List Spelled) → IsReadable text.now → AreTokensOf text.now tokens
        → IsOk result ⊎ (result ≡ Err Memory) }
    ensures long { (result ≡ Err Long) ↔ IsFaultOf text.now Long }
    ensures utf8 { (result ≡ Err Utf8) ↔ IsFaultOf text.now Utf8 }

    // Only tokens take memory.
    ensures memory { result ≡ Err Memory → BeginsWithToken text.now }
    ensures empty { text.now ≡ [] → IsOkAnd result (λ tokens. tokens.items ≡ []) }
{
    if text.len() > MOST_BYTES {
        return Err(QueryFault::Long);
    }
    if from_utf8(text).is_err() {
        return Err(QueryFault::Utf8);
    }
    cut(alloc, text)
}

// Cuts `text`, which is UTF-8 and not too long, into tokens. `run_end` remembers where the current
// run of letters, digits and `-` ends, so that each run is counted only once.
fn cut(alloc: Global, text: &[u8]) -> Result<Vec<Token<'_>>, QueryFault>
    requires { IsReadable text.now }
    ensures found { IfOk result (λ tokens. AreTokensOf text.now (map spelled tokens.items)) }
    ensures places { IfOk result (λ tokens. ArePlacedIn text.now (map placed tokens.items)) }
    ensures fault { IfErr result (λ fault. (fault ≡ Memory) ⊎ IsFaultOf text.now fault) }
    ensures memory { result ≡ Err Memory → BeginsWithToken text.now }
    ensures empty { text.now ≡ [] → IsOkAnd result (λ tokens. tokens.items ≡ []) }
{
    let mut tokens = Vec::new(alloc);
    let mut at = 0;
    let mut run_end = 0;
    while at < text.len() {
        let rest = &text[at..];
        if run_end <= at {
            run_end = at + code_count(rest);
        }
        let lexeme = read(rest, run_end - at, at)?;
        let end = at + lexeme.length;
        if let Some(kind) = lexeme.kind {
            tokens.push(Token {
                kind,
                span: (at, end),
                text: &rest[..lexeme.length],
            })?;
        }
        at = end;
    }
    Ok(tokens)
}

// Returns the lexeme that begins `rest`, or the fault there. `offset` is the offset of `rest` in
// the whole text. `code_count` is the number of letters, digits and `-` that begin `rest`.
fn read(rest: &[u8], code_count: usize, offset: usize) -> Result<Lexeme, QueryFault>
    requires { code_count ≡ prefix_len is_code_byte rest.now }
    ensures { result ≡ found_of (reading offset rest.now) }
{
    if let Some(feature) = unsupported(rest, code_count) {
        return Err(QueryFault::Unsupported(offset, feature));
    }
    let Some(lexeme) = first_lexeme(rest) else {
        return Err(QueryFault::Token(offset));
    };
    if !lexeme.is_within_limit {
        return Err(QueryFault::Limit(offset));
    }
    Ok(lexeme)
}
