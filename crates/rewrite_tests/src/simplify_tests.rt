//! Tests of the plans that `simplify` makes.
use crate::plans::plan_of;
use rewrites::simplify;
use std::alloc::{AllocError, Global};
use std::process::Abort;

// Whether `simplify` rewrites the plan of `text` to the plan of `other`.
fn is_simplified(alloc: Global, text: &[u8], other: &[u8]) -> Result<bool, AllocError> {
    let found = simplify(plan_of(alloc, text)?);
    Ok(found == plan_of(alloc, other)?)
}

fn check_simplified(
    rt: &impl Abort,
    alloc: Global,
    rows: &[(&[u8], &[u8])],
) -> Result<(), AllocError> {
    for (text, other) in rows {
        let holds = is_simplified(alloc, text, other)?;
        assert!(rt; holds, "{text:?}");
    }
    Ok(())
}

#[test]
fn simplified_plans(rt: HostRuntime) -> Result<(), AllocError> {
    check_simplified(
        &rt,
        rt.alloc(),
        &[
            (b"100005,100005", b"100005"),
            (b"<100005:{104001=106004}", b"<100005:104001=106004"),
            (b"<100005:[0..0]{105000=*}", b"<100005:[0..0]105000=*"),
            (b"<100005:[2..*]{105000=*}", b"<100005:[2..*]{105000=*}"),
            // each rule is tried once at a node, so two of three stay
            (b"100005,100005,100005", b"100005,100005"),
            // children are simplified before their parent
            (b"(100005,100005),100005", b"100005"),
            (b"<(100005 OR 100005)", b"<100005"),
            (b"*:[0..*]105000=*", b"*"),
            (b"<100005:[0..*]105000=*", b"<100005,*"),
            (
                b"<100005:{104001=*,[0..0]105000=*}",
                b"<100005:{104001=*,[0..0]105000=*}",
            ),
        ],
    )
}
