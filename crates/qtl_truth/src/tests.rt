//! Truths that were worked out by hand from the definition.
use super::*;
use Step::*;
use qtl_syntax::{Bound, Formula, Item, Term, Text};
use sqlite_items::Items;
use std::alloc::{AllocError, Global};
use std::test::Fail;

/// A step of a formula that is written with its parts before it.
#[derive(Clone, Copy)]
enum Step {
    True,
    False,
    /// An atom without terms.
    Alone(&'static str),
    /// An atom whose one term is the constant "a".
    Is(&'static str),
    /// An atom whose one term is a variable.
    Of(&'static str, &'static str),
    Not,
    And,
    Or,
    Implies,
    Iff,
    Prev,
    Since,
    SinceBy(Bound),
    Once,
    OnceBy(Bound),
    Always,
    AlwaysBy(Bound),
    Interval,
}

fn text(alloc: Global, text: &str) -> Result<Text, AllocError> {
    Text::from_bytes(alloc, text.as_bytes())
}

fn atom(alloc: Global, name: &str, term: Option<Term>) -> Result<Formula, AllocError> {
    let mut terms = Items::new(alloc);
    if let Some(term) = term {
        terms.push(term)?;
    }
    Ok(Formula::Atom {
        name: text(alloc, name)?,
        terms,
    })
}

fn one(alloc: Global, parts: &mut Vec<Formula>) -> Result<Box<Formula>, Fail> {
    let part = parts.pop().ok_or("a part is missing")?;
    Ok(Box::new(alloc, part)?)
}

fn two(alloc: Global, parts: &mut Vec<Formula>) -> Result<(Box<Formula>, Box<Formula>), Fail> {
    let right = one(alloc, parts)?;
    Ok((one(alloc, parts)?, right))
}

fn unary(alloc: Global, step: Step, parts: &mut Vec<Formula>) -> Result<Formula, Fail> {
    let f = one(alloc, parts)?;
    Ok(match step {
        Prev => Formula::Prev(f),
        Once => Formula::Once(f),
        OnceBy(bound) => Formula::TimedOnce(bound, f),
        Always => Formula::Always(f),
        AlwaysBy(bound) => Formula::TimedAlways(bound, f),
        _ => Formula::Not(f),
    })
}

fn binary(alloc: Global, step: Step, parts: &mut Vec<Formula>) -> Result<Formula, Fail> {
    let (f, g) = two(alloc, parts)?;
    Ok(match step {
        And => Formula::And(f, g),
        Or => Formula::Or(f, g),
        Implies => Formula::Implies(f, g),
        Iff => Formula::Iff(f, g),
        SinceBy(bound) => Formula::TimedSince(bound, f, g),
        Interval => Formula::Interval(f, g),
        _ => Formula::Since(f, g),
    })
}

fn formula(alloc: Global, steps: &[Step]) -> Result<Formula, Fail> {
    let mut parts = Vec::new(alloc);
    for step in steps {
        let next = match *step {
            True => Formula::True,
            False => Formula::False,
            Alone(name) => atom(alloc, name, None)?,
            Is(name) => atom(alloc, name, Some(Term::Constant(text(alloc, "a")?)))?,
            Of(name, variable) => atom(alloc, name, Some(Term::Variable(text(alloc, variable)?)))?,
            Not | Prev | Once | OnceBy(_) | Always | AlwaysBy(_) => {
                unary(alloc, *step, &mut parts)?
            }
            And | Or | Implies | Iff | Since | SinceBy(_) | Interval => {
                binary(alloc, *step, &mut parts)?
            }
        };
        parts.push(next)?;
    }
    Ok(parts.pop().ok_or("no formula")?)
}

fn event(alloc: Global, name: &str, arg: &str, time: u64) -> Result<Event, AllocError> {
    let mut args = Items::new(alloc);
    if !arg.is_empty() {
        args.push(text(alloc, arg)?)?;
    }
    Ok(Event {
        name: text(alloc, name)?,
        args,
        time,
    })
}

fn pred(alloc: Global, name: &str, param: &str, body: Formula) -> Result<Item, AllocError> {
    let mut params = Items::new(alloc);
    params.push(text(alloc, param)?)?;
    Ok(Item::Pred {
        name: text(alloc, name)?,
        params,
        body,
    })
}

/// `pred was(z) = @ was(z)`, `pred ever(x) = P was(x)`, `prop go : false`.
fn items(alloc: Global) -> Result<Vec<Item>, Fail> {
    let mut items = Vec::new(alloc);
    items.push(pred(alloc, "was", "z", formula(alloc, &[Of("was", "z"), Prev])?)?)?;
    items.push(pred(alloc, "ever", "x", formula(alloc, &[Of("was", "x"), Once])?)?)?;
    items.push(Item::Prop {
        name: text(alloc, "go")?,
        body: Formula::False,
    })?;
    Ok(items)
}

/// The formula's truths at the events, where x is "a" and y is "b".
fn truths(alloc: Global, steps: &[Step], events: &[(&str, &str, u64)]) -> Result<Vec<bool>, Fail> {
    let before = items(alloc)?;
    let formula = formula(alloc, steps)?;
    let mut nu = Vec::new(alloc);
    for (name, value) in [("x", "a"), ("x", "b"), ("y", "b")] {
        nu.push((text(alloc, name)?, text(alloc, value)?))?;
    }
    let mut log = Vec::new(alloc);
    for (name, arg, time) in events {
        log.push(event(alloc, name, arg, *time)?)?;
    }
    judged(alloc, &before, &formula, &log, &nu)
}

fn judged(
    alloc: Global,
    before: &[Item],
    formula: &Formula,
    log: &[Event],
    nu: &[(Text, Text)],
) -> Result<Vec<bool>, Fail> {
    let mut truths = Vec::new(alloc);
    if has_no_quantifier(formula) && macros_have_no_quantifier(before) {
        for i in 0..log.len() {
            truths.push(evaluate(before, formula, log, i + 1, nu))?;
        }
    }
    Ok(truths)
}

/// What a case shows, its formula, the events, and the formula's truth at each of them.
type Case = (
    &'static str,
    &'static [Step],
    &'static [(&'static str, &'static str, u64)],
    &'static [bool],
);

const CASES: &[Case] = &[
    (
        "! stop since go",
        &[Is("stop"), Not, Is("go"), Since],
        &[("go", "a", 0), ("stop", "a", 0)],
        &[true, false],
    ),
    (
        "true since a go that is old enough: the earliest counts",
        &[True, Is("go"), SinceBy(Bound::MoreThan(5))],
        &[("go", "a", 0), ("go", "a", 4), ("done", "a", 6)],
        &[false, false, true],
    ),
    (
        "ok since a go that is new enough",
        &[Is("ok"), Is("go"), SinceBy(Bound::AtMost(5))],
        &[("go", "a", 0), ("ok", "a", 5), ("ok", "a", 6)],
        &[true, true, false],
    ),
    (
        "previous",
        &[True, Prev],
        &[("p", "", 0), ("p", "", 0)],
        &[false, true],
    ),
    (
        "once",
        &[Is("go"), Once],
        &[("tick", "a", 0), ("go", "a", 0), ("tick", "a", 0)],
        &[false, true, true],
    ),
    (
        "once within",
        &[Is("req"), OnceBy(Bound::AtMost(10))],
        &[("req", "a", 100), ("ack", "a", 110), ("ack", "a", 111)],
        &[true, true, false],
    ),
    (
        "always",
        &[Is("ok"), Always],
        &[("ok", "a", 0), ("bad", "a", 0), ("ok", "a", 0)],
        &[true, false, false],
    ),
    (
        "always before",
        &[Is("ok"), AlwaysBy(Bound::MoreThan(5))],
        &[
            ("ok", "a", 0),
            ("bad", "a", 1),
            ("ok", "a", 6),
            ("ok", "a", 7),
        ],
        &[true, true, true, false],
    ),
    (
        "always lately",
        &[Is("ok"), AlwaysBy(Bound::AtMost(5))],
        &[("bad", "a", 0), ("ok", "a", 5), ("ok", "a", 6)],
        &[false, false, true],
    ),
    (
        "interval",
        &[Is("go"), Is("stop"), Interval],
        &[("go", "a", 0), ("tick", "a", 0), ("stop", "a", 0)],
        &[true, true, false],
    ),
    (
        "interval that ends where it begins",
        &[True, Is("stop"), Interval],
        &[("stop", "a", 0), ("tick", "a", 0)],
        &[false, true],
    ),
    (
        "and",
        &[Is("p"), Is("q"), Not, And],
        &[("p", "a", 0), ("q", "a", 0)],
        &[true, false],
    ),
    (
        "or",
        &[Is("p"), False, Or],
        &[("p", "a", 0), ("q", "a", 0)],
        &[true, false],
    ),
    (
        "implies",
        &[Is("p"), Is("q"), Implies],
        &[("p", "a", 0), ("q", "a", 0)],
        &[false, true],
    ),
    (
        "iff",
        &[Is("p"), False, Iff],
        &[("p", "a", 0), ("q", "a", 0)],
        &[false, true],
    ),
    (
        "no terms",
        &[Alone("p")],
        &[("p", "a", 0), ("p", "", 0)],
        &[false, true],
    ),
    (
        "one term",
        &[Is("p")],
        &[("p", "a", 0), ("p", "", 0)],
        &[true, false],
    ),
    (
        "the first text of a variable",
        &[Of("p", "x")],
        &[("p", "a", 0), ("p", "b", 0)],
        &[true, false],
    ),
    (
        "a variable without a text",
        &[Of("p", "z"), Not],
        &[("p", "a", 0)],
        &[true],
    ),
    (
        "a macro, whose body speaks of the event",
        &[Is("was")],
        &[("was", "a", 0), ("tick", "a", 0)],
        &[false, true],
    ),
    (
        "a macro that calls a macro",
        &[Of("ever", "y")],
        &[("was", "b", 0), ("tick", "b", 0), ("tick", "b", 0)],
        &[false, true, true],
    ),
    (
        "a macro with a variable without a text",
        &[Of("was", "z"), Not],
        &[("was", "a", 0), ("tick", "a", 0)],
        &[true, true],
    ),
    (
        "a property is no macro",
        &[Is("go")],
        &[("go", "a", 0)],
        &[true],
    ),
];

#[test]
fn formulas_hold_as_worked_by_hand(rt: HostRuntime) -> Result<(), Fail> {
    for (what, steps, events, want) in CASES {
        assert_eq!(rt;
            truths(rt.alloc(), steps, events)?.as_slice(),
            *want,
            "{what}"
        );
    }
    Ok(())
}

#[test]
fn laws_ask_nothing() {
    past_decides();
    since_unfolds();
    once_is_since();
    timed_once_is_timed_since();
    always_is_never_not();
    timed_always_is_never_not();
    interval_is_since();
}
