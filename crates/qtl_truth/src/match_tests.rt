//! Places of variables that were worked out by hand, and that they are found where memory is ample.
use super::*;
use Given::*;
use qtl_syntax::Text;
use sqlite_items::Items;
use std::alloc::{AllocError, Global};
use std::test::Fail;

/// A term of an atom.
#[derive(Clone, Copy)]
enum Given {
    Var(u32),
    Const(&'static str),
}

fn text(alloc: Global, text: &str) -> Result<Text, AllocError> {
    Text::from_bytes(alloc, text.as_bytes())
}

fn atom(alloc: Global, given: &[Given]) -> Result<Atom, AllocError> {
    let mut terms = Items::new(alloc);
    for term in given {
        terms.push(match *term {
            Var(number) => AtomTerm::Variable(number),
            Const(constant) => AtomTerm::Constant(text(alloc, constant)?),
        })?;
    }
    Ok(Atom {
        name: text(alloc, "p")?,
        terms,
    })
}

fn event(alloc: Global, name: &str, given: &[&str]) -> Result<Event, AllocError> {
    let mut args = Items::new(alloc);
    for arg in given {
        args.push(text(alloc, arg)?)?;
    }
    Ok(Event {
        name: text(alloc, name)?,
        args,
        time: 0,
    })
}

/// Whether these are the places of the atom p with the terms, at the event of the name and the arguments.
fn are_places(
    alloc: Global,
    terms: &[Given],
    name: &str,
    args: &[&str],
    want: Option<&[Place]>,
) -> Result<bool, Fail> {
    let atom = atom(alloc, terms)?;
    if atom.terms.len() > 9 {
        return Err("too many terms".into());
    }
    let event = event(alloc, name, args)?;
    Ok(match (matches(alloc, &atom, &event)?, want) {
        (Some(binding), Some(places)) => binding.places() == places,
        (None, None) => true,
        _ => false,
    })
}

/// What is shown, the terms of p, the event's name and arguments, and the places.
type Case = (
    &'static str,
    &'static [Given],
    &'static str,
    &'static [&'static str],
    Option<&'static [Place]>,
);

const CASES: &[Case] = &[
    (
        "a variable at two unequal arguments",
        &[Var(0), Var(0)],
        "p",
        &["a", "b"],
        None,
    ),
    (
        "a constant at its own text",
        &[Var(0), Const("b")],
        "p",
        &["a", "b"],
        Some(&[Place {
            variable: 0,
            arg: 0,
        }]),
    ),
    (
        "a variable at two equal arguments",
        &[Var(3), Var(3)],
        "p",
        &["a", "a"],
        Some(&[Place {
            variable: 3,
            arg: 0,
        }]),
    ),
    (
        "variables in order of first appearance",
        &[Var(2), Const("b"), Var(0), Var(2)],
        "p",
        &["a", "b", "c", "a"],
        Some(&[
            Place {
                variable: 2,
                arg: 0,
            },
            Place {
                variable: 0,
                arg: 2,
            },
        ]),
    ),
    ("another name", &[Var(0)], "q", &["a"], None),
    (
        "a constant at another text",
        &[Const("a")],
        "p",
        &["b"],
        None,
    ),
    ("no terms", &[], "p", &[], Some(&[])),
    (
        "nine variables, at an event with one argument",
        &[
            Var(0),
            Var(1),
            Var(2),
            Var(3),
            Var(4),
            Var(5),
            Var(6),
            Var(7),
            Var(8),
        ],
        "p",
        &["a"],
        None,
    ),
    (
        "nine variables, of which the last needs memory",
        &[
            Var(0),
            Var(1),
            Var(2),
            Var(3),
            Var(4),
            Var(5),
            Var(6),
            Var(7),
            Var(8),
        ],
        "p",
        &["a", "b", "c", "d", "e", "f", "g", "h", "i"],
        Some(&[
            Place {
                variable: 0,
                arg: 0,
            },
            Place {
                variable: 1,
                arg: 1,
            },
            Place {
                variable: 2,
                arg: 2,
            },
            Place {
                variable: 3,
                arg: 3,
            },
            Place {
                variable: 4,
                arg: 4,
            },
            Place {
                variable: 5,
                arg: 5,
            },
            Place {
                variable: 6,
                arg: 6,
            },
            Place {
                variable: 7,
                arg: 7,
            },
            Place {
                variable: 8,
                arg: 8,
            },
        ]),
    ),
];

#[test]
fn places_are_found_as_worked_by_hand(rt: HostRuntime) -> Result<(), Fail> {
    for (what, terms, name, args, want) in CASES {
        assert!(rt; are_places(rt.alloc(), terms, name, args, *want)?, "{what}");
    }
    atom_is_of_its_event();
    Ok(())
}
