//! Codes that were worked out by hand: which texts have one after a log, and which.

ghost use Rattle.std.specs.Prelude.{◌≡◌, ◌<◌};

use crate::made::{event, judge, open, text};
use mon_base::Steps;
use std::alloc::Global;
use std::marker::Brand;
use std::sync::ledger::{Blank, Ledger};
use std::test::Fail;

/// No text is told apart from others: nothing is remembered of p and q.
const FORGETS: &str = "prop f : exists x . exists y . p(x) | q(x,y) | q(y,x)";

/// Texts that an event m gave are told apart.
const REMEMBERS: &str = "prop r : exists x . exists y . p(x) | q(x,y) | q(y,x) | P m(x)";

/// The same of the second variable alone.
const SECOND: &str = "prop s : exists x . exists y . p(x) & P m(y)";

struct Case {
    shows: &'static str,
    spec: &'static str,
    /// How many bits a code has.
    bits: u8,
    /// The events, with spaces between them. Each is judged.
    log: &'static str,
    variable: u32,
    /// The variable's codes of a, b, c and d afterwards.
    codes: [Option<u32>; 4],
}

/// The codes after the log.
fn codes_after<L: Ledger>(
    alloc: Global,
    case: &Case,
    blank: Blank,
) -> Result<[Option<u32>; 4], Fail>
    requires name { blank.name ≡ L.name }
    requires parts { blank.parts ≡ L.parts }
    requires some { 0 < L.parts }
{
    let mut steps = Steps::<L>::new(blank);
    let mut monitor = open(alloc, case.spec, case.bits, 1000)?;
    for line in case.log.split(' ') {
        if judge(&mut monitor, &event(alloc, line)?, &mut steps)?.is_err() {
            return Err("an event isn't judged".into());
        }
    }
    if case.variable as usize >= monitor.plan().variables().len() {
        return Err("no such variable".into());
    }
    let book = monitor.book(case.variable);
    Ok([
        book.code_of(&text(alloc, "a")?),
        book.code_of(&text(alloc, "b")?),
        book.code_of(&text(alloc, "c")?),
        book.code_of(&text(alloc, "d")?),
    ])
}

const CASES: &[Case] = &[
    Case {
        shows: "a first text is given the code 0",
        spec: FORGETS,
        bits: 1,
        log: "p,a",
        variable: 0,
        codes: [Some(0), None, None, None],
    },
    Case {
        shows: "the code of a text that is not told apart is given again",
        spec: FORGETS,
        bits: 1,
        log: "p,a p,b",
        variable: 0,
        codes: [None, Some(0), None, None],
    },
    Case {
        shows: "a needed text with a code takes no other",
        spec: REMEMBERS,
        bits: 1,
        log: "m,a p,a",
        variable: 0,
        codes: [Some(0), None, None, None],
    },
    Case {
        shows: "while a code is free none is taken back",
        spec: FORGETS,
        bits: 2,
        log: "p,a p,b p,c",
        variable: 0,
        codes: [Some(0), Some(1), Some(2), None],
    },
    Case {
        shows: "codes are taken back all at once, but for the one that is told apart",
        spec: REMEMBERS,
        bits: 2,
        log: "p,a m,b p,c p,d",
        variable: 0,
        codes: [None, Some(1), None, Some(0)],
    },
    Case {
        shows: "codes are taken back all at once, but for the needed one",
        spec: FORGETS,
        bits: 2,
        log: "p,a p,b p,c q,c,d",
        variable: 0,
        codes: [None, None, Some(2), Some(0)],
    },
    Case {
        shows: "two new texts take their codes in order",
        spec: REMEMBERS,
        bits: 2,
        log: "p,a m,b q,d,c",
        variable: 0,
        codes: [None, Some(1), Some(2), Some(0)],
    },
    Case {
        shows: "a tree over the second block tells no text of the first apart",
        spec: SECOND,
        bits: 1,
        log: "m,a p,a p,b",
        variable: 0,
        codes: [None, Some(0), None, None],
    },
    Case {
        shows: "the second variable has a book of its own",
        spec: SECOND,
        bits: 1,
        log: "p,a m,b p,c",
        variable: 1,
        codes: [None, Some(0), None, None],
    },
];

#[test]
fn codes_are_given_and_taken_back(rt: HostRuntime) -> Result<(), Fail> {
    for case in CASES {
        let codes = codes_after::<Brand>(rt.alloc(), case, Blank::new(1))?;
        assert_eq!(rt; codes, case.codes, "{}", case.shows);
    }
    Ok(())
}
