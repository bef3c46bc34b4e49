//! Laws of the grammar and its refusals: functions that do nothing, whose contracts are the laws.
ghost use Rattle.std.specs.Prelude.{◌≡◌, ◌⊎◌, List, ℕ};
ghost use Rattle.ecl_lexer.specs.declared.fault.QueryFault.{QueryFault};
ghost use Rattle.constraint_tree.specs.Grammar.{HaveOneTree};
ghost use Rattle.constraint_tree.specs.Refusal.{IsConstraint, IsRefusalOf};
ghost use Rattle.constraint_tree.specs.Tree.{Tree};
ghost use Rattle.constraint_tree.specs.WorkedQueries.{GivesEverything, GivesDescendants, GivesBraces, GivesDistinctPairs, GivesBraceCounts, GivesNoneInBraces, GivesReverse, GivesDotted, GivesNotEqual, GivesRowsInForce, GivesNumbers, GivesBounds, GivesDifferences, GivesEither, GivesWalks, GivesOperands, GivesEmptyAnswers};

/// Each text has either exactly one tree or exactly one refusal. No list of tokens has two trees.
pub fn one_reading()
    ensures tokens { HaveOneTree }
    ensures tree { (text : List ℕ) (one other : Tree) → IsConstraint text one
        → IsConstraint text other → one ≡ other }
    ensures refusal { (text : List ℕ) (one other : QueryFault) → IsRefusalOf text one
        → IsRefusalOf text other → one ≡ other }
    ensures not_both { (text : List ℕ) (tree : Tree) (fault : QueryFault) → IsConstraint text tree
        → IsRefusalOf text fault → ⊥ }
    ensures either { (text : List ℕ) → ((tree : Tree) × IsConstraint text tree)
        ⊎ ((fault : QueryFault) × IsRefusalOf text fault) }
{}

/// Each worked query is read as the constraint that is stated beside it, and that constraint
/// denotes the stated concepts on the sample release (`WorkedQueries.antt` of `constraint_tree`).
pub fn worked_queries_hold()
    ensures everything { GivesEverything }
    ensures descendants { GivesDescendants }
    ensures braces { GivesBraces }
    ensures distinct_pairs { GivesDistinctPairs }
    ensures brace_counts { GivesBraceCounts }
    ensures none_in_braces { GivesNoneInBraces }
    ensures reverse { GivesReverse }
    ensures dotted { GivesDotted }
    ensures not_equal { GivesNotEqual }
    ensures rows_in_force { GivesRowsInForce }
    ensures numbers { GivesNumbers }
    ensures bounds { GivesBounds }
    ensures differences { GivesDifferences }
    ensures either { GivesEither }
    ensures walks { GivesWalks }
    ensures operands { GivesOperands }
    ensures empty_answers { GivesEmptyAnswers }
{}
