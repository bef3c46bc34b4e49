//! Laws about the definitions: functions that do nothing, whose contracts are the laws.
ghost use Rattle.std.specs.Prelude.{◌≡◌, ◌⊎◌, ℕ, List, [], Some};
ghost use Rattle.ecl_lexer.specs.Lexemes.{Lexeme, Stands, lexeme_text};
ghost use Rattle.ecl_lexer.specs.Reading.{lexeme_at};
ghost use Rattle.ecl_lexer.specs.Tokens.{AreTokensOf, IsCut, IsFaultOf, IsReadable, Spelled};
ghost use Rattle.ecl_lexer.specs.declared.fault.QueryFault.{QueryFault};

/// A text that is UTF-8 and not too long has either tokens or a refusal by the lexer, never both.
/// It has at most one list of tokens and at most one such refusal.
pub fn one_cut()
    ensures cut { (text : List ℕ) (one other : List Lexeme) → IsCut text one []
        → IsCut text other [] → one ≡ other }
    ensures tokens { (text : List ℕ) (one other : List Spelled) → AreTokensOf text one
        → AreTokensOf text other → one ≡ other }
    ensures fault { (text : List ℕ) (one other : QueryFault) → IsFaultOf text one
        → IsFaultOf text other → one ≡ other }
    ensures not_both { (text : List ℕ) (tokens : List Spelled) (fault : QueryFault)
        → IsReadable text → AreTokensOf text tokens → IsFaultOf text fault → ⊥ }
    ensures either { (text : List ℕ) → IsReadable text
        → ((tokens : List Spelled) × AreTokensOf text tokens)
        ⊎ ((fault : QueryFault) × IsFaultOf text fault) }
{}

/// A text begins with at most one lexeme. The search `lexeme_at` of `specs/Reading.antt` finds
/// exactly this lexeme.
pub fn found_lexemes_stand()
    ensures found { (lexeme : Lexeme) (rest : List ℕ) → Stands lexeme rest
        → lexeme_at (lexeme_text lexeme rest) ≡ Some lexeme }
    ensures stands { (text : List ℕ) (lexeme : Lexeme) → lexeme_at text ≡ Some lexeme
        → (rest : List ℕ) × (text ≡ lexeme_text lexeme rest) × Stands lexeme rest }
    ensures one { (one other : Lexeme) (rest following : List ℕ) → Stands one rest
        → Stands other following → lexeme_text one rest ≡ lexeme_text other following
        → one ≡ other }
{}
