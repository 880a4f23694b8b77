//! The monitor's verdicts beside the slow truth, on small logs that a fixed sequence of numbers spells.

ghost use Rattle.std.specs.Prelude.{◌≡◌, ◌<◌, ◌≤◌};

use crate::made::{core_of, judge, open};
use crate::slow_truth::{holds, truths};
use mon_base::Steps;
use qtl_syntax::Text;
use qtl_truth::Event;
use sqlite_items::Items;
use std::alloc::{AllocError, Global};
use std::marker::Brand;
use std::sync::ledger::{Blank, Ledger};
use std::test::Fail;

/// The texts of the events, and at last one that no event has.
const TEXTS: &[&str] = &["a", "b", "c", "none"];

/// The next number of the sequence, cut to one below the count.
fn pick(seed: &mut u32, count: u32) -> u32
    requires { 1 ≤ count }
    ensures { result < count }
{
    *seed = seed.wrapping_mul(1_664_525).wrapping_add(1_013_904_223);
    (*seed >> 16) % count
}

/// One of the first three texts.
fn pick_text(alloc: Global, seed: &mut u32) -> Result<Text, AllocError> {
    let text = match pick(seed, 3) {
        0 => "a",
        1 => "b",
        _ => "c",
    };
    Text::from_bytes(alloc, text.as_bytes())
}

/// An event p with one argument, or q with two, at this time.
fn pick_event(alloc: Global, seed: &mut u32, time: u64) -> Result<Event, AllocError> {
    let is_p = pick(seed, 2) == 0;
    let mut args = Items::new(alloc);
    args.push(pick_text(alloc, seed)?)?;
    if !is_p {
        args.push(pick_text(alloc, seed)?)?;
    }
    let name = if is_p { "p" } else { "q" };
    Ok(Event {
        name: Text::from_bytes(alloc, name.as_bytes())?,
        args,
        time,
    })
}

/// One to seven events, each at most three units after the one before.
fn pick_log(alloc: Global, seed: u32) -> Result<Vec<Event>, AllocError> {
    let mut state = seed;
    let count = 1 + pick(&mut state, 7);
    let mut time = 0_u64;
    let mut log = Vec::new(alloc);
    for _ in 0..count {
        time = time.saturating_add(pick(&mut state, 4) as u64);
        log.push(pick_event(alloc, &mut state, time)?)?;
    }
    Ok(log)
}

/// What the specification's first property is at the events, from its definition.
fn slow_truths(alloc: Global, spec: &str, log: &[Event]) -> Result<Vec<bool>, Fail> {
    let core = core_of(alloc, spec)?;
    let mut texts = Vec::new(alloc);
    for text in TEXTS {
        texts.push(Text::from_bytes(alloc, text.as_bytes())?)?;
    }
    let mut given = Vec::new(alloc);
    for _ in 0..core.variables.len() {
        given.push(0)?;
    }
    match core.props.as_slice().first() {
        Some(prop) => Ok(truths(alloc, &prop.root, log, texts.as_slice(), &mut given)?),
        None => Err("no property".into()),
    }
}

/// A specification with one property, and how many bits a code has: no fewer than three texts need.
struct Case {
    spec: &'static str,
    bits: u8,
}

/// The first event, counted from 1, at which the monitor doesn't answer the slow truth.
fn first_unlike<L: Ledger>(
    alloc: Global,
    case: &Case,
    log: &[Event],
    steps: &mut Steps<L>,
) -> Result<Option<usize>, Fail> {
    let slow = slow_truths(alloc, case.spec, log)?;
    let mut monitor = open(alloc, case.spec, case.bits, 4096)?;
    for (i, event) in log.iter().enumerate() {
        let want = holds(slow.as_slice(), i);
        if judge(&mut monitor, event, steps)? != Ok(want) {
            return Ok(Some(i + 1));
        }
    }
    Ok(None)
}

/// The first of the logs with such an event, by the number that it comes of, and that event.
fn first_unlike_log<L: Ledger>(
    alloc: Global,
    case: &Case,
    blank: Blank,
) -> Result<Option<(u32, usize)>, Fail>
    requires name { blank.name ≡ L.name }
    requires parts { blank.parts ≡ L.parts }
    requires some { 0 < L.parts }
{
    let mut steps = Steps::<L>::new(blank);
    for seed in 0..100 {
        let log = pick_log(alloc, seed)?;
        if let Some(event) = first_unlike(alloc, case, log.as_slice(), &mut steps)? {
            return Ok(Some((seed, event)));
        }
    }
    Ok(None)
}

const CASES: &[Case] = &[
    Case {
        spec: "prop a : forall x . p(x) -> exists y . [q(x,y),p(y))",
        bits: 3,
    },
    Case {
        spec: "prop b : exists x . (exists y . ! q(x,y) & P p(y)) S p(x)",
        bits: 3,
    },
    Case {
        spec: "prop c : forall x . H (p(x) -> exists y . @ (p(y) | H ! q(y,x)))",
        bits: 2,
    },
    Case {
        spec: "pred led(x,y) = (! p(y)) S q(x,y) prop d : forall x . (P p(x)) -> (exists y . led(x,y)) | led(\"a\",x)",
        bits: 3,
    },
    Case {
        spec: "prop e : exists x . [p(x) | exists y . q(y,x),q(x,\"b\")) & ! @ P q(\"a\",x)",
        bits: 3,
    },
    Case {
        spec: "prop f : forall x . forall y . P (q(x,y) & @ p(x)) -> ((exists x . q(x,y)) S p(y)) <-> ! q(y,x)",
        bits: 2,
    },
    Case {
        spec: "pred seen(x) = exists y . P q(x,y) prop g : exists x . forall y . seen(x) & (p(y) -> H ! q(y,\"c\"))",
        bits: 3,
    },
    Case {
        spec: "prop h : forall x . p(x) -> P[<=3] (exists y . q(y,x))",
        bits: 3,
    },
    Case {
        spec: "prop i : exists x . (! p(x)) S[<=4] q(x,\"b\")",
        bits: 3,
    },
    Case {
        spec: "prop j : forall x . H[<=2] (p(x) -> exists y . P[<=5] q(y,x))",
        bits: 3,
    },
    Case {
        spec: "prop k : exists x . (exists y . q(x,y)) S[>2] p(x)",
        bits: 2,
    },
    Case {
        spec: "prop l : forall x . p(x) -> P[>3] (exists y . q(x,y) | p(y))",
        bits: 3,
    },
    Case {
        spec: "prop m : forall x . p(x) -> H[>4] ! q(x,\"a\")",
        bits: 3,
    },
    Case {
        spec: "prop n : exists x . @ (P[<=2] p(x)) & ! P[>3] q(x,x)",
        bits: 3,
    },
];

#[test]
fn verdicts_are_the_slow_truth(rt: HostRuntime) -> Result<(), Fail> {
    for case in CASES {
        let unlike = first_unlike_log::<Brand>(rt.alloc(), case, Blank::new(1))?;
        assert_eq!(rt; unlike, None, "{}", case.spec);
    }
    Ok(())
}
