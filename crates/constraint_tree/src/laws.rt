//! Laws about the definitions of this crate: functions that do nothing, whose contracts are the
//! laws.
ghost use Rattle.std.specs.Prelude.{ℕ, ◌≤◌, List, length};
ghost use Rattle.ecl_lexer.specs.Tokens.{most_bytes};
ghost use Rattle.constraint_tree.specs.Denotation.{DenotesConceptsInForce};
ghost use Rattle.constraint_tree.specs.Depth.{depth_of, most_deep};
ghost use Rattle.constraint_tree.specs.Refusal.{IsConstraint};
ghost use Rattle.constraint_tree.specs.Text.{constraint_text};
ghost use Rattle.constraint_tree.specs.Tree.{Tree};
ghost use Rattle.constraint_tree.specs.Walks.{TellsInForce, TellsChild, TellsBelow, TellsAbove};
ghost use Rattle.constraint_tree.specs.WrongReadings.{MisreadsSplitBraces, MisreadsNotEqual, MisreadsNoneInBraces, MisreadsGroupZero, MisreadsRows, MisreadsTop, MisreadsDepth, MisreadsSecondParent, MisreadsWalkOfAnd};

/// The tests that define the hierarchy operators mean what their names say: that a concept is one
/// of the release's, that an is-a row exists, and that a chain of is-a rows leads from a concept up
/// to a member of a set, or from a member up to it.
pub fn walks_tell_chains()
    ensures in_force { TellsInForce }
    ensures child { TellsChild }
    ensures below { TellsBelow }
    ensures above { TellsAbove }
{}

/// For every release, a constraint denotes only concepts in force.
pub fn constraints_denote_concepts_in_force()
    ensures { DenotesConceptsInForce }
{}

/// The printed text of a constraint is a constraint with the same tree, if it has at most
/// `most_bytes` bytes.
pub fn print_is_read()
    ensures { (text : List ℕ) (tree : Tree) → IsConstraint text tree
        → length (constraint_text tree) ≤ most_bytes → IsConstraint (constraint_text tree) tree }
{}

/// No text has a tree deeper than 326, because at most 64 brackets of a text are open at once.
pub fn constraints_are_not_deep()
    ensures { (text : List ℕ) (tree : Tree) → IsConstraint text tree → depth_of tree ≤ most_deep }
{}

/// Each wrong reading of a query finds on the sample release other concepts than the query denotes
/// there.
pub fn wrong_readings_differ()
    ensures split_braces { MisreadsSplitBraces }
    ensures not_equal { MisreadsNotEqual }
    ensures none_in_braces { MisreadsNoneInBraces }
    ensures group_zero { MisreadsGroupZero }
    ensures rows { MisreadsRows }
    ensures top { MisreadsTop }
    ensures depth { MisreadsDepth }
    ensures second_parent { MisreadsSecondParent }
    ensures walk_of_and { MisreadsWalkOfAnd }
{}
