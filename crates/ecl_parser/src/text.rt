//! Reads a text as the tree of its constraint.
ghost use Rattle.std.specs.Prelude.{◌≡◌, ◌⊎◌, ◌↔◌, ℕ, ◌<◌, ◌≤◌, false, List, [], length, map, Err, IfErr, IfOk, MatchResult};
ghost use Rattle.ecl_lexer.specs.Tokens.{BeginsWithToken, IsFaultOf, most_bytes, spelled};
ghost use Rattle.ecl_lexer.specs.declared.fault.QueryFault.{QueryFault};
ghost use Rattle.ecl_lexer.specs.declared.fault.QueryFault.TheVariants.{Long, Memory, Syntax, Utf8};
ghost use Rattle.constraint_tree.specs.Grammar.{IsTreeOf};
ghost use Rattle.constraint_tree.specs.Refusal.{IsConstraint, IsRefusalOf, is_deep as is_deep_at};
ghost use Rattle.constraint_tree.specs.Text.{constraint_text};
ghost use Rattle.constraint_tree.specs.Tree.{Tree, tree_of};
ghost use Rattle.ecl_parser.specs.inside.Answers.{AreFaulty};

use crate::brackets::{MOST_OPEN, bracket_ends};
use crate::parser::constraint;
use crate::tokens::Tokens;
use constraint_tree::Constraint;
use ecl_lexer::{QueryFault, Token, lex};
use std::alloc::Global;

/// Returns the constraint that `text` spells (Expression Constraint Language 2.2, 5.1 "Brief
/// syntax"), or the text's first refusal: `Long` above 65,535 bytes; then `Utf8`; then, at the
/// least offset, the first of `Unsupported`, `Token` and `Limit`; then `Depth` if more than 64
/// brackets are open at once; then `Syntax` if the grammar has no tree. Returns `Memory` if memory
/// runs out; the empty text takes none.
pub fn parse(alloc: Global, text: &[u8]) -> Result<Constraint, QueryFault>
    // The result is the constraint that the text is, or its refusal.
    ensures found { IfOk result (λ found. IsConstraint text.now (tree_of found)) }
    ensures fault { IfErr result (λ fault. (fault ≡ Memory) ⊎ IsRefusalOf text.now fault) }

    // A text that is a constraint, or has a refusal, gets no other result than that or `Memory`.
    ensures whole { (tree : Tree) → IsConstraint text.now tree
        → MatchResult result (λ found. tree_of found ≡ tree) (λ fault. fault ≡ Memory) }
    ensures only { (fault : QueryFault) → IsRefusalOf text.now fault → (result ≡ Err fault)
        ⊎ (result ≡ Err Memory) }
    ensures empty { text.now ≡ [] → result ≡ Err Syntax }

    // Refusals for length and UTF-8 need no memory; only a text that begins with a token can run
    // out of it.
    ensures long { (result ≡ Err Long) ↔ IsFaultOf text.now Long }
    ensures utf8 { (result ≡ Err Utf8) ↔ IsFaultOf text.now Utf8 }
    ensures memory { result ≡ Err Memory → BeginsWithToken text.now }
{
    let tokens = match lex(alloc, text) {
        Ok(tokens) => tokens,
        Err(fault) => return Err(fault),
    };
    tree(alloc, tokens.as_slice())
}

/// Prints `constraint` and parses the printed text. The result is the same constraint if
/// `constraint` was parsed from some text and its printed text has at most 65,535 bytes. Returns
/// `Long` for a longer printed text, and `Memory` if memory runs out.
pub fn read_again(alloc: Global, constraint: &Constraint) -> Result<Constraint, QueryFault>
    // A constraint that was read from a text is read again as it is, unless memory is refused.
    ensures same { (text : List ℕ) → IsConstraint text (tree_of constraint.now)
        → length (constraint_text (tree_of constraint.now)) ≤ most_bytes
        → MatchResult result (λ found. tree_of found ≡ tree_of constraint.now)
        (λ fault. fault ≡ Memory) }

    // A printed text longer than 65,535 bytes is refused for its length.
    ensures long { most_bytes < length (constraint_text (tree_of constraint.now))
        → (result ≡ Err Long) ⊎ (result ≡ Err Memory) }
{
    let mut text = Vec::new(alloc);
    constraint.print(alloc, &mut text)?;
    parse(alloc, text.as_slice())
}

// Returns the constraint that the tokens of a text derive, or `Depth`, `Syntax` or `Memory`.
fn tree(alloc: Global, tokens: &[Token<'_>]) -> Result<Constraint, QueryFault>
    ensures shallow { IfOk result (λ _. is_deep_at 0 (map spelled tokens.now) ≡ false) }
    ensures found { IfOk result (λ found. IsTreeOf (map spelled tokens.now) (tree_of found)) }
    ensures fault { IfErr result (AreFaulty (map spelled tokens.now)) }
    ensures empty { tokens.now ≡ [] → result ≡ Err Syntax }
{
    if tokens.is_empty() {
        return Err(QueryFault::Syntax);
    }
    let ends = match bracket_ends(alloc, tokens) {
        Ok(ends) => ends,
        Err(fault) => return Err(fault),
    };
    let tokens = Tokens::new(tokens, ends.as_slice());
    let mut at = 0usize;
    let found = match constraint(alloc, &tokens, &mut at, MOST_OPEN as u8) {
        Ok(found) => found,
        Err(fault) => return Err(fault),
    };
    if at < tokens.len() {
        return Err(QueryFault::Syntax);
    }
    Ok(found)
}
