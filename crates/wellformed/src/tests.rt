//! First faults that were worked out by hand, and that specifications are accepted where memory is ample.
use super::*;
use qtl_syntax::parse;
use std::alloc::Global;
use std::test::Fail;

/// How many variables a specification has, or its first fault.
type Answer = Result<usize, NameFault>;

/// The answer for the specification that the text spells.
fn variables_or_fault(alloc: Global, text: &str) -> Result<Answer, Fail> {
    let spec = match parse(alloc, text.as_bytes()) {
        Ok(spec) => spec,
        Err(_fault) => return Err("no specification".into()),
    };
    if !can_be_numbered(&spec) {
        return Err("too many items or nodes".into());
    }
    Ok(match check(alloc, spec) {
        Ok(core) => Ok(core.variables.len()),
        Err(fault) => Err(fault),
    })
}

const CASES: &[(&str, Answer)] = &[
    ("", Err(NameFault::NoProperty)),
    ("prop r : (! stop(\"a\")) S go(\"a\")", Ok(0)),
    (
        "prop a : m(1)  pred m(x) = p(x)",
        Err(NameFault::LateMacro { item: 0, node: 0 }),
    ),
    (
        "prop a : p(1) & p",
        Err(NameFault::ArityClash { item: 0, node: 2 }),
    ),
    (
        "prop a : p(1) S p",
        Err(NameFault::ArityClash { item: 0, node: 2 }),
    ),
    (
        "prop a : (p S q(1)) S ! q(1, 2)",
        Err(NameFault::ArityClash { item: 0, node: 5 }),
    ),
    (
        "prop f : p(x)",
        Err(NameFault::FreeVariable { item: 0, node: 0 }),
    ),
];

/// How many macros there are, each of which calls the one before it twice, and the answer for a property that calls the
/// last: the size doubles with each.
const DOUBLED: &[(u32, Answer)] = &[
    (10, Ok(1)),
    (11, Err(NameFault::TooManySubformulas { found: 6143 })),
];

/// The text of so many such macros, and of the property.
fn doubled(alloc: Global, count: u32) -> Result<String, Fail> {
    let mut text = format!(in alloc; "pred m1(x) = p(x) & p(x)\n")?;
    for k in 1..count {
        let line = format!(in alloc; "pred m{}(x) = m{k}(x) & m{k}(x)\n", k + 1)?;
        text.push_str(&line)?;
    }
    let line = format!(in alloc; "prop q : forall x . m{count}(x)")?;
    text.push_str(&line)?;
    Ok(text)
}

#[test]
fn first_faults_are_as_worked_by_hand(rt: HostRuntime) -> Result<(), Fail> {
    for (text, want) in CASES {
        assert_eq!(rt; variables_or_fault(rt.alloc(), text)?, *want, "{text}");
    }
    for (count, want) in DOUBLED {
        let text = doubled(rt.alloc(), *count)?;
        assert_eq!(rt;
            variables_or_fault(rt.alloc(), &text)?,
            *want,
            "{count} macros"
        );
    }
    Ok(())
}
