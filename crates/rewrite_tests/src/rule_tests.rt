//! Tests of rules at places of a plan: the plans that they make, and when they do not apply.
use crate::plans::plan_of;
use constraint_tree::Cardinality;
use rewrites::{ApplyFault, Rule, Step, apply, apply_all};
use set_algebra::{Choice, ConceptPlan, ValueTest};
use std::alloc::{AllocError, Global};
use std::process::Abort;

// Whether the rule, at the place, rewrites the plan of `text` to the plan of `other`.
fn is_made(
    alloc: Global,
    text: &[u8],
    rule: Rule,
    place: &[u32],
    other: &[u8],
) -> Result<bool, AllocError> {
    let wanted = plan_of(alloc, other)?;
    match apply(alloc, plan_of(alloc, text)?, rule, place) {
        Ok(new) => Ok(new == wanted),
        Err((_, ApplyFault::Memory)) => Err(AllocError),
        Err((_, _)) => Ok(false),
    }
}

fn check_made(
    rt: &impl Abort,
    alloc: Global,
    rows: &[(&[u8], Rule, &[u32], &[u8])],
) -> Result<(), AllocError> {
    for (text, rule, place, other) in rows {
        let holds = is_made(alloc, text, *rule, place, other)?;
        assert!(rt; holds, "{rule:?} {place:?}");
    }
    Ok(())
}

#[test]
fn rules_apply(rt: HostRuntime) -> Result<(), AllocError> {
    check_made(
        &rt,
        rt.alloc(),
        &[
            (
                b"100005,101009,102002",
                Rule::Turn,
                &[],
                b"101009,102002,100005",
            ),
            (b"100005 OR 101009", Rule::Turn, &[], b"101009 OR 100005"),
            (
                b"(100005,101009),102002",
                Rule::Join,
                &[],
                b"100005,101009,102002",
            ),
            (
                b"100005,101009,102002",
                Rule::Pair,
                &[],
                b"(100005,101009),102002",
            ),
            (
                b"(100005 OR 101009),102002,103007",
                Rule::Spread,
                &[],
                b"(100005,102002,103007) OR (101009,102002,103007)",
            ),
            (b"100005,100005,101009", Rule::Same, &[], b"100005,101009"),
            (
                b"(100005 MINUS 101009),102002",
                Rule::MinusAnd,
                &[],
                b"(100005,102002) MINUS 101009",
            ),
            (
                b"<<(100005 OR 106004)",
                Rule::WalkOr,
                &[],
                b"<<100005 OR <<106004",
            ),
            (
                b"^(100005 OR 108003)",
                Rule::WalkOr,
                &[],
                b"^100005 OR ^108003",
            ),
            (b">>(>103007)", Rule::WalkTwice, &[], b">103007"),
            (
                b"<100005:(104001 OR 105000)=*",
                Rule::TypesOr,
                &[1],
                b"<100005:104001=* OR 105000=*",
            ),
            (
                b"<100005:104001=(106004 OR 107008)",
                Rule::TestOr,
                &[1],
                b"<100005:104001=106004 OR 104001=107008",
            ),
            (
                b"<100005:[1..2]105000=*",
                Rule::RangeSplit,
                &[1],
                b"<100005:105000=*,[0..2]105000=*",
            ),
            (
                b"<100005:[3..1]{105000=*}",
                Rule::RangeSplit,
                &[1],
                b"<100005:[3..*]{105000=*},[0..1]{105000=*}",
            ),
            (b"*:[0..*]105000=*", Rule::RangeAll, &[1], b"*,*"),
            (
                b"<100005:[0..0]{104001=* OR 105000=*}",
                Rule::BraceOr,
                &[1],
                b"<100005:[0..0]{104001=*},[0..0]{105000=*}",
            ),
            (
                b"<100005:{104001=* OR 105000=*}",
                Rule::BraceOr,
                &[1],
                b"<100005:{104001=*} OR {105000=*}",
            ),
            (
                b"<100005:{105000=*}",
                Rule::BraceOne,
                &[1],
                b"<100005:105000=*",
            ),
            (
                b"<100005:{104001=<<106004,105000=*}",
                Rule::BraceGuard,
                &[1],
                b"<100005:104001=<<106004,{104001=<<106004,105000=*}",
            ),
        ],
    )
}

#[test]
fn rules_apply_in_groups_and_deep(rt: HostRuntime) -> Result<(), AllocError> {
    check_made(
        &rt,
        rt.alloc(),
        &[
            (
                b"*:{104001=*,105000=*}",
                Rule::Turn,
                &[1, 0],
                b"*:{105000=*,104001=*}",
            ),
            (
                b"*:{(104001=* OR 105000=*),105000=#3}",
                Rule::Spread,
                &[1, 0],
                b"*:{(104001=*,105000=#3) OR (105000=*,105000=#3)}",
            ),
            (
                b"*:{(104001 OR 105000)=*}",
                Rule::TypesOr,
                &[1, 0],
                b"*:{104001=* OR 105000=*}",
            ),
            (
                b"*:{[1..1]105000=*}",
                Rule::RangeSplit,
                &[1, 0],
                b"*:{105000=*,[0..1]105000=*}",
            ),
            // in the values of a test, in the names of a dotted constraint, and in what is
            // subtracted
            (
                b"*:{104001=(106004,107008)}",
                Rule::Turn,
                &[1, 0, 1],
                b"*:{104001=(107008,106004)}",
            ),
            (
                b"100005.(104001 OR 105000)",
                Rule::Turn,
                &[1],
                b"100005.(105000 OR 104001)",
            ),
            (
                b"* MINUS <(<<100005)",
                Rule::WalkTwice,
                &[1],
                b"* MINUS <100005",
            ),
        ],
    )
}

// The plan of `[2..*] 105000=*` without a focus, which no text has as its plan.
fn twice(alloc: Global) -> Result<ConceptPlan, AllocError> {
    let types = Box::new(alloc, ConceptPlan::One(105000))?;
    let values = Box::new(alloc, ConceptPlan::All)?;
    Ok(ConceptPlan::Pairs {
        back: false,
        count: Cardinality { min: 2, max: None },
        types,
        test: ValueTest::Within(values),
        choice: Choice::ByType,
    })
}

// The plan of all concepts that the plan `twice` does not mean.
fn less_than_twice(alloc: Global) -> Result<ConceptPlan, AllocError> {
    let all = Box::new(alloc, ConceptPlan::All)?;
    let twice = Box::new(alloc, twice(alloc)?)?;
    let rest = ConceptPlan::Minus(all, twice);
    Ok(ConceptPlan::And(vec![in alloc; ConceptPlan::All, rest]?))
}

// Checks two rules that make plans which no text has.
fn others_are_made(alloc: Global) -> Result<bool, AllocError> {
    let turn = [at_second(Rule::RangeTurn)];
    let same = [Step {
        rule: Rule::Same,
        place: &[],
    }];
    let (turned, _) = apply_all(alloc, plan_of(alloc, b"*:[0..1]105000=*")?, &turn)?;
    let (nothing, _) = apply_all(alloc, plan_of(alloc, b"^108003 MINUS ^108003")?, &same)?;
    Ok(turned == less_than_twice(alloc)? && nothing == ConceptPlan::Empty)
}

#[test]
fn rules_that_make_what_no_text_has(rt: HostRuntime) -> Result<(), AllocError> {
    let holds = others_are_made(rt.alloc())?;
    assert!(rt; holds);
    Ok(())
}

// Whether applying the rule returns `NotApplicable` with the plan unchanged.
fn is_not_applicable(
    alloc: Global,
    text: &[u8],
    rule: Rule,
    place: &[u32],
) -> Result<bool, AllocError> {
    let given = plan_of(alloc, text)?;
    match apply(alloc, plan_of(alloc, text)?, rule, place) {
        Ok(_) => Ok(false),
        Err((same, fault)) => Ok(same == given && fault == ApplyFault::NotApplicable),
    }
}

fn check_not_applicable(
    rt: &impl Abort,
    alloc: Global,
    rows: &[(&[u8], Rule, &[u32])],
) -> Result<(), AllocError> {
    for (text, rule, place) in rows {
        let holds = is_not_applicable(alloc, text, *rule, place)?;
        assert!(rt; holds, "{rule:?} {place:?}");
    }
    Ok(())
}

#[test]
fn rules_that_do_not_apply(rt: HostRuntime) -> Result<(), AllocError> {
    check_not_applicable(
        &rt,
        rt.alloc(),
        &[
            (b"100005 MINUS 101009", Rule::Turn, &[]),
            (b"(100005 OR 101009),102002", Rule::Join, &[]),
            (b"100005,101009", Rule::Pair, &[]),
            (b"100005,(101009 OR 102002)", Rule::Spread, &[]),
            (b"100005,101009,100005", Rule::Same, &[]),
            (b"100005,101009", Rule::Only, &[]),
            (b"100005,(101009 MINUS 102002)", Rule::MinusAnd, &[]),
            (b"100005 MINUS (101009,102002)", Rule::MinusOr, &[]),
            (b"!!>(100005 OR 103007)", Rule::WalkOr, &[]),
            (b"<<(101009,102002)", Rule::WalkOr, &[]),
            (b"<(<100005)", Rule::WalkTwice, &[]),
            (b"*:[2..*](104001 OR 105000)=*", Rule::TypesOr, &[1]),
            (b"*:104001!=(106004 OR 107008)", Rule::TestOr, &[1]),
            (b"*:[2..*]104001=(106004 OR 107008)", Rule::TestOr, &[1]),
            (b"*:[0..2]105000=*", Rule::RangeSplit, &[1]),
            (b"*:[1..2]105000=*", Rule::RangeTurn, &[1]),
            (b"*:[1..1]105000=*", Rule::RangeAll, &[1]),
            (b"*:[2..*]{104001=* OR 105000=*}", Rule::BraceOr, &[1]),
            (b"*:[2..*]{105000=*}", Rule::BraceOne, &[1]),
            (b"*:{[0..1]104001=*,105000=*}", Rule::BraceGuard, &[1]),
            // a place that names no node, and a rule for the other kind of plan
            (b"100005", Rule::Turn, &[]),
            (b"100005", Rule::Turn, &[0]),
            (b"100005,101009", Rule::Turn, &[2]),
            (b"100005,101009", Rule::Turn, &[4294967295]),
            (b"<<100005", Rule::Turn, &[0, 4294967295]),
            (b"*:{104001=*,105000=*}", Rule::WalkOr, &[1, 0]),
        ],
    )
}

// Returns the step that applies `rule` to the second child.
fn at_second(rule: Rule) -> Step<'static> {
    Step { rule, place: &[1] }
}

// Checks several steps on the plan of a query with braces; only one of them applies.
fn uses_one(alloc: Global) -> Result<bool, AllocError> {
    let steps = [
        at_second(Rule::BraceGuard),
        at_second(Rule::BraceOr),
        at_second(Rule::RangeTurn),
    ];
    let plan = plan_of(alloc, b"<100005:{104001=<<106004,105000=*}")?;
    let (found, used) = apply_all(alloc, plan, &steps)?;
    let wanted = plan_of(alloc, b"<100005:104001=<<106004,{104001=<<106004,105000=*}")?;
    Ok(used == 1 && found == wanted)
}

// Checks two pairs of steps. After `Same` and `Only`, one of two equal parts is left. After
// `MinusOr` and `Only`, the parts are subtracted one after another.
fn uses_both(alloc: Global) -> Result<bool, AllocError> {
    let same = Step {
        rule: Rule::Same,
        place: &[],
    };
    let only = Step {
        rule: Rule::Only,
        place: &[],
    };
    let minus = Step {
        rule: Rule::MinusOr,
        place: &[],
    };
    let (one, first) = apply_all(alloc, plan_of(alloc, b"100005,100005")?, &[same, only])?;
    let (two, second) = apply_all(
        alloc,
        plan_of(alloc, b"100005 MINUS (101009 OR 102002)")?,
        &[minus, at_second(Rule::Only)],
    )?;
    Ok(
        first == 2
            && second == 2
            && one == plan_of(alloc, b"100005")?
            && two == plan_of(alloc, b"(100005 MINUS 101009) MINUS 102002")?,
    )
}

#[test]
fn steps_one_after_another(rt: HostRuntime) -> Result<(), AllocError> {
    let one = uses_one(rt.alloc())?;
    let both = uses_both(rt.alloc())?;
    assert!(rt; one && both);
    Ok(())
}

// Whether `Pair` applies at the root 1,022 times, and then returns that the plan would be too deep.
fn pairs_until_too_deep(alloc: Global, plan: ConceptPlan) -> bool {
    let mut plan = plan;
    for times in 0..2000u64 {
        match apply(alloc, plan, Rule::Pair, &[]) {
            Ok(new) => plan = new,
            Err((same, fault)) => {
                return times == 1022 && fault == ApplyFault::TooDeep && same.depth() == 1024;
            }
        }
    }
    false
}

// Returns the plan of the text that has `100005` `times` times, with `,` between.
fn repeated(alloc: Global, times: u64) -> Result<ConceptPlan, AllocError> {
    let mut text = Vec::new(alloc);
    text.extend_from_slice(b"100005")?;
    for _ in 1..times {
        text.extend_from_slice(b",100005")?;
    }
    plan_of(alloc, &text)
}

#[test]
fn a_plan_that_gets_too_deep(rt: HostRuntime) -> Result<(), AllocError> {
    let plan = repeated(rt.alloc(), 1100)?;
    let holds = pairs_until_too_deep(rt.alloc(), plan);
    assert!(rt; holds);
    Ok(())
}

// Whether the printed text of a fault is `words`.
fn is_told(alloc: Global, fault: ApplyFault, words: &str) -> bool {
    match format!(in alloc; "{fault}") {
        Ok(text) => text.as_str() == words,
        Err(AllocError) => false,
    }
}

#[test]
fn words_of_faults(rt: HostRuntime) {
    let told = is_told(
        rt.alloc(),
        ApplyFault::NotApplicable,
        "the rule does not apply at the place",
    ) && is_told(
        rt.alloc(),
        ApplyFault::TooDeep,
        "the plan would be deeper than 1,024",
    ) && is_told(rt.alloc(), ApplyFault::Memory, "out of memory");
    assert!(rt; told);
    assert!(rt; ApplyFault::NotApplicable.number() == 1 && ApplyFault::Memory.number() == 3);
}
