//! The lexer of expression constraints (Expression Constraint Language 2.2, brief syntax).
//!
//! `lex` cuts a text without gaps into blanks and tokens, at each offset the longest that begins
//! there, or returns the first refusal of the text. `specs/` defines the lexemes of a text, and the
//! refusals and their offsets.
#![tactic(auto)]

mod fault;
mod laws;
mod lexemes;
mod lexer;
mod runs;
mod symbols;
mod token;
mod unsupported;

pub use crate::fault::{Feature, QueryFault};
pub use crate::laws::{found_lexemes_stand, one_cut};
pub use crate::lexer::lex;
pub use crate::token::{Token, TokenKind};
