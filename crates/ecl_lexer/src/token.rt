//! The tokens of an expression constraint.

/// The kinds of token (Expression Constraint Language 2.2, 5.1 "Brief syntax"), one for each
/// spelling. The comma and the word `AND` spell one kind.
#[derive(Clone, Copy, Debug, PartialEq, Eq)]
pub enum TokenKind {
    /// `<`: descendant of; as a comparison, less than.
    DescendantOf,
    /// `<<`: descendant or self of.
    DescendantOrSelfOf,
    /// `<!`: child of.
    ChildOf,
    /// `<<!`: child or self of.
    ChildOrSelfOf,
    /// `>`: ancestor of; as a comparison, greater than.
    AncestorOf,
    /// `>>`: ancestor or self of.
    AncestorOrSelfOf,
    /// `>!`: parent of.
    ParentOf,
    /// `>>!`: parent or self of.
    ParentOrSelfOf,
    /// `!!>`: top of a set, its members that are below no member of it.
    Top,
    /// `!!<`: bottom of a set, its members that are above no member of it.
    Bottom,
    /// `^`: member of.
    MemberOf,
    /// `*`: any concept; as the maximum of a cardinality, no maximum.
    Wildcard,
    /// `(`.
    RoundOpen,
    /// `)`.
    RoundClose,
    /// `{`: an attribute group opens.
    BraceOpen,
    /// `}`: an attribute group closes.
    BraceClose,
    /// `[`: a cardinality opens.
    BracketOpen,
    /// `]`: a cardinality closes.
    BracketClose,
    /// `:`: a refinement follows.
    Colon,
    /// `.`: a dotted attribute follows.
    Dot,
    /// `..`: between the bounds of a cardinality.
    Dots,
    /// `=`.
    Equal,
    /// `!=`.
    NotEqual,
    /// `<=`.
    LessOrEqual,
    /// `>=`.
    GreaterOrEqual,
    /// `,` or the word `AND`.
    And,
    /// The word `OR`.
    Or,
    /// The word `MINUS`.
    Minus,
    /// `R` or `r`: the attribute is read backwards, from value to source.
    Reverse,
    /// 1 to 18 digits. The first digit is 0 only if it is alone.
    Digits,
    /// `#`, an optional sign, and 1 to 18 digits, of which the first is 0 only if it is alone. If
    /// `.` and a digit follow, the number also has the `.` and 1 to 18 digits after it.
    Number,
    /// A term between two `|`, with both.
    Term,
}

/// A token of a text.
#[derive(Clone, Copy, Debug, PartialEq, Eq)]
pub struct Token<'a> {
    /// The kind of the token.
    pub kind: TokenKind,
    /// The offset in the text of the token's first byte and of the byte after its last, in bytes
    /// from 0.
    pub span: (usize, usize),
    /// The bytes of the token.
    pub text: &'a [u8],
}
