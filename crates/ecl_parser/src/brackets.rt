//! Finds for each opening bracket the one that closes it. Brackets are `(`, `)`, `{` and `}`; the
//! `[` and `]` of a cardinality are not counted.
ghost use Rattle.std.specs.Prelude.{◌≡◌, ◌<◌, ℕ, false, true, IfErr, IfOk, IfSome, None, OnOk, OnSome, [], length, map};
ghost use Rattle.ecl_lexer.specs.Tokens.{spelled};
ghost use Rattle.ecl_lexer.specs.declared.fault.QueryFault.TheVariants.{Depth};
ghost use Rattle.constraint_tree.specs.Refusal.{is_deep, opens};
ghost use Rattle.ecl_parser.specs.inside.Answers.{AreFaulty};
ghost use Rattle.ecl_parser.specs.inside.Brackets.{AreEnds, bracket_closed, bracket_opened, nothing_matched, token_matched};
ghost use Rattle.ecl_parser.specs.inside.Gives.{symbols};

use arrayvec::ArrayVec;
use ecl_lexer::{QueryFault, Token, TokenKind};
use std::alloc::{AllocError, Global};
use std::marker::Model;

/// The most brackets that may be open at once.
pub const MOST_OPEN: usize = 64;

/// An open bracket: the index of its token, and whether it is round or a brace.
#[derive(Clone, Copy, Default)]
pub struct OpenBracket {
    pub place: usize,
    pub is_round: bool,
}

/// The brackets of the tokens that were read. Contracts see the open brackets (innermost first),
/// the list `ends`, and whether each closing bracket closed one of its kind.
#[derive(Drop)]
struct Brackets {
    unclosed: ArrayVec<OpenBracket, MOST_OPEN>,
    // at the index of each closed opening bracket the index after its closing bracket, or else 0
    ends: Vec<usize>,
    are_matched: bool,
}

impl Model for Brackets {
    ghost use Rattle.ecl_parser.specs.inside.Brackets.{Matching};

    ghost Value = { Matching };

    ghost use Rattle.ecl_parser.specs.inside.BracketsInside.{AreWithin, matching_in};

    ghost view = { matching_in };

    ghost invariant = { AreWithin };
}

impl Brackets {
    // Creates the state for a text of `count` tokens, before any of them is read.
    fn new(alloc: Global, count: usize) -> Result<Brackets, AllocError>
        ensures { IfOk result (λ brackets. brackets ≡ nothing_matched count) }
    {
        let ends = vec![in alloc; 0usize; count]?;
        Ok(Brackets {
            unclosed: ArrayVec::new(),
            ends,
            are_matched: true,
        })
    }

    // Reads the token of the kind `kind` at the index `place`. Returns `Depth` if it opens a
    // bracket and `MOST_OPEN` are open already.
    fn take(&mut self, place: usize, kind: TokenKind) -> Result<(), QueryFault>
        requires { place < length self.old.ends }
        ensures ok { OnOk result (self.new ≡ token_matched place kind self.old) }
        ensures few { OnOk result (opens kind ≡ true → length self.old.unclosed < 64) }
        ensures deep { IfErr result (λ fault. (fault ≡ Depth) × (opens kind ≡ true)
            × (length self.old.unclosed ≡ 64)) }
    {
        match kind {
            TokenKind::RoundOpen => self.open_bracket(place, true),
            TokenKind::BraceOpen => self.open_bracket(place, false),
            TokenKind::RoundClose => {
                self.close_bracket(place, true);
                Ok(())
            }
            TokenKind::BraceClose => {
                self.close_bracket(place, false);
                Ok(())
            }
            _ => Ok(()),
        }
    }

    // Notes that the token at the index `place` opens a bracket. Returns `Depth` if `MOST_OPEN` are
    // open already.
    fn open_bracket(&mut self, place: usize, is_round: bool) -> Result<(), QueryFault>
        requires { place < length self.old.ends }
        ensures ok { OnOk result (self.new ≡ bracket_opened place is_round self.old) }
        ensures few { OnOk result (length self.old.unclosed < 64) }
        ensures deep { IfErr result (λ fault. (fault ≡ Depth) × (length self.old.unclosed ≡ 64)) }
    {
        match self.unclosed.try_push(OpenBracket { place, is_round }) {
            Ok(()) => Ok(()),
            Err(_) => Err(QueryFault::Depth),
        }
    }

    // Notes that the token at the index `place` closes the innermost open bracket, whatever its
    // kind. Clears `are_matched` if the kinds differ or no bracket is open.
    fn close_bracket(&mut self, place: usize, is_round: bool)
        requires { place < length self.old.ends }
        ensures { self.new ≡ bracket_closed place is_round self.old }
    {
        match self.unclosed.pop() {
            Some(opened) => {
                self.ends[opened.place] = place + 1;
                self.are_matched = opened.is_round == is_round && self.are_matched;
            }
            None => self.are_matched = false,
        }
    }

    // Returns `ends`, or `None` if a bracket is still open or a closing bracket closed none of its
    // kind.
    fn ends(self) -> Option<Vec<usize>>
        ensures ends { IfSome result (λ ends. ends.items ≡ self.ends) }
        ensures matched { OnSome result ((self.are_matched ≡ true) × (self.unclosed ≡ [])) }
        ensures none { result ≡ None → self.are_matched ≡ true → self.unclosed ≡ [] → ⊥ }
    {
        let Brackets {
            unclosed,
            ends,
            are_matched,
        } = self;
        if are_matched && unclosed.is_empty() {
            return Some(ends);
        }
        None
    }
}

/// Returns a list with an entry for each token. The entry of a token that opens a bracket is the
/// index after the token that closes it. Returns `Depth` if more than `MOST_OPEN` brackets are open
/// at once; for this count a closing bracket closes the innermost open one, whether it is round or
/// a brace. Returns `Syntax` if a bracket is not closed, not opened, or closed by one of the other
/// kind; such tokens have no tree. Returns `Memory` if memory runs out.
pub fn bracket_ends(alloc: Global, tokens: &[Token<'_>]) -> Result<Vec<usize>, QueryFault>
    ensures shallow { IfOk result (λ _. is_deep 0 (map spelled tokens.now) ≡ false) }
    ensures ends { IfOk result (λ ends. AreEnds (symbols tokens.now) ends.items) }
    ensures fault { IfErr result (AreFaulty (map spelled tokens.now)) }
{
    let mut brackets = Brackets::new(alloc, tokens.len())?;
    for (place, token) in tokens.iter().enumerate() {
        match brackets.take(place, token.kind) {
            Ok(()) => {}
            Err(fault) => return Err(fault),
        }
    }
    match brackets.ends() {
        Some(ends) => Ok(ends),
        None => Err(QueryFault::Syntax),
    }
}
