//! The rules of rewriting, and a rule with a place.

/// A rule that rewrites a node of a plan as one that means the same over every release. In the
/// comments of the rules, x.. stands for any further children; `specs/Rules.antt` defines each
/// rule. The rules from Turn to MinusOr and from TypesOr to RangeAll apply to plans of concepts and
/// of groups, the others only to plans of concepts.
#[derive(Clone, Copy, Debug, PartialEq, Eq)]
pub enum Rule {
    /// `And(x1, x..)` to `And(x.., x1)`, of two or more children; `Or` alike.
    Turn,
    /// `And(And(y..), x..)` to `And(y.., x..)`; `Or` alike.
    Join,
    /// `And(x1, x2, x..)` to `And(And(x1, x2), x..)`, of three or more children; `Or` alike.
    Pair,
    /// `And(Or(y..), x..)` to the `Or` of `And(y, x..)` for each y.
    Spread,
    /// `And(x, x, y..)` to `And(x, y..)`; `Or` alike; `Minus(x, x)` to `Empty` or `Nothing`.
    Same,
    /// `And(x)` or `Or(x)` to x.
    Only,
    /// `And(Minus(a, b), x..)` to `Minus(And(a, x..), b)`.
    MinusAnd,
    /// `Minus(a, Or(b, x..))` to `Minus(Minus(a, b), Or(x..))`.
    MinusOr,
    /// `Walk(w, Or(y..))` or `Members(Or(y..))` to the `Or` of `Walk(w, y)` or `Members(y)` for
    /// each y, if w is neither `!!>` nor `!!<`.
    WalkOr,
    /// `Walk(w, Walk(v, a))` to one `Walk` of a: with `<<` if w and v are `<<`, with `<` if one of
    /// them is `<` and the other `<<`; `>>` and `>` alike.
    WalkTwice,
    /// `Pairs` with types `Or(t..)` to the `Or` of `Pairs` with each t, if the count is `[1..*]`.
    TypesOr,
    /// `Pairs` with test `Within(Or(v..))` to the `Or` of `Pairs` with each `Within(v)`, if the
    /// count is `[1..*]`.
    TestOr,
    /// `Pairs` or `Units` with `[m..k]` to the `And` of two copies, with `[m..*]` and with
    /// `[0..k]`, if m is at least 1.
    RangeSplit,
    /// `Pairs` or `Units` with `[0..k]` to the `Minus` of `All` or `Every` and of a copy with
    /// `[k+1..*]`, if k is below `u64::MAX`.
    RangeTurn,
    /// `Pairs` or `Units` with `[0..*]` to `All` or `Every`; with `[m..k]` to `Empty` or `Nothing`,
    /// if m is above k.
    RangeAll,
    /// `Units` of `Or(u..)`: with `[1..*]` to the `Or` of `Units` of each u with `[1..*]`, and with
    /// `[0..0]` to the `And` of `Units` of each u with `[0..0]`.
    BraceOr,
    /// `Units` with `[1..*]` or `[0..0]` of `Pairs` with `[1..*]` to forward `Pairs` with the count
    /// of the `Units`.
    BraceOne,
    /// `Units` with `[m..k]` of `And(Pairs [j..i], u..)` to the `And` of forward `Pairs` with
    /// `[1..*]` and of the unchanged `Units`, if m and j are at least 1.
    BraceGuard,
}

/// A rule, and the place at which to apply it.
#[derive(Clone, Copy, Debug, PartialEq, Eq)]
pub struct Step<'a> {
    /// The rule.
    pub rule: Rule,
    /// The child numbers from the root, from 0; the empty list names the root. In `Values` the
    /// start has the number 0, and its names follow. In `Pairs` the types have the number 0, and
    /// the plan of the test has 1.
    pub place: &'a [u32],
}
