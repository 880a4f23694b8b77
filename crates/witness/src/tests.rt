//! Witnesses worked out by hand from the rule.
ghost use Rattle.std.specs.Prelude.{◌≡◌, ◌<◌};

use crate::find;
use mon_base::Steps;
use monitor_step::{Monitor, Sizes};
use qtl_syntax::{Text, parse};
use qtl_truth::Event;
use report::{Shown, Value};
use sqlite_items::Items;
use std::alloc::{AllocError, Global};
use std::marker::Brand;
use std::sync::ledger::{Blank, Ledger};
use std::test::Fail;
use subformulas::make_plan;
use wellformed::{can_be_numbered, check};

/// A specification with one property, a log, and what is shown at the last event.
struct Case {
    spec: &'static str,
    /// The events, with spaces between them.
    log: &'static str,
    /// The variables with what is shown for each, with spaces between them.
    shown: &'static str,
}

#[rattlefmt::skip]
const CASES: &[Case] = &[
    // No variable.
    Case { spec: "prop p : exists x . a(x)", log: "b,1", shown: "" },
    Case { spec: "prop p : false", log: "a,1", shown: "" },
    // One that the event names, and one of several that could be.
    Case { spec: "prop p : forall u . access(u) -> P login(u)", log: "login,ann access,bob", shown: "u=bob" },
    Case { spec: "prop p : forall u . login(u) -> false", log: "login,ann", shown: "u=ann" },
    Case { spec: "prop p : forall u . ! P login(u)", log: "login,cid login,ann login,bob", shown: "u=ann" },
    // The least by bytes: capital letters first, a front before what it begins.
    Case { spec: "prop p : forall u . ! P a(u)", log: "a,b a,B", shown: "u=B" },
    Case { spec: "prop p : forall u . ! P a(u)", log: "a,bb a,b", shown: "u=b" },
    Case { spec: "prop p : forall u . ! P a(u)", log: "a,10 a,9 a,2", shown: "u=10" },
    // Any text, where one that the log doesn't have does.
    Case { spec: "prop p : forall u . P login(u)", log: "login,ann", shown: "u=*" },
    Case { spec: "prop p : forall u . false", log: "login,ann", shown: "u=*" },
    Case { spec: "prop p : forall u . a(u) -> false", log: "b,1 a,", shown: "u=" },
    // Two variables: the first is the least that can be extended, and the second hangs on it.
    Case { spec: "prop p : forall x . forall y . ! P a(x,y)", log: "a,2,1 a,1,3 a,1,2", shown: "x=1 y=2" },
    Case { spec: "prop p : forall x . forall y . P a(x,y) -> false", log: "a,2,9", shown: "x=2 y=9" },
    Case { spec: "prop p : forall x . forall y . ! P a(x)", log: "a,2 a,1", shown: "x=1 y=*" },
    Case { spec: "prop p : forall x . forall y . ! P a(y)", log: "a,2 a,1", shown: "x=* y=1" },
    Case { spec: "prop p : forall x . forall y . P a(x,y)", log: "a,2,1", shown: "x=* y=*" },
    // The first can be any text only with the second as it is.
    Case { spec: "prop p : forall x . forall y . a(y) -> P b(x)", log: "b,1 a,7", shown: "x=* y=7" },
    // The chain goes through macros, and may name a variable twice.
    Case { spec: "pred m(z) = forall x . ! P a(x,z) prop p : forall x . m(x)", log: "a,2,1 a,3,1", shown: "x=1 x=2" },
    // It ends at the first other operator.
    Case { spec: "prop p : forall x . ! (exists y . P a(x,y))", log: "a,2,1 a,3,0", shown: "x=2" },
];

/// The event that a name and arguments with commas between them spell.
fn event(alloc: Global, line: &str) -> Result<Event, AllocError> {
    let mut parts = line.split(',');
    let name = Text::from_bytes(alloc, parts.next().unwrap_or("").as_bytes())?;
    let mut args = Items::new(alloc);
    for part in parts {
        args.push(Text::from_bytes(alloc, part.as_bytes())?)?;
    }
    Ok(Event {
        name,
        args,
        time: 0,
    })
}

/// A monitor of the specification, whose codes have so many bits.
fn open(alloc: Global, text: &str, bits: u8) -> Result<Monitor, Fail> {
    let spec = match parse(alloc, text.as_bytes()) {
        Ok(spec) => spec,
        Err(_fault) => return Err("no specification".into()),
    };
    if !can_be_numbered(&spec) || bits == 0 || bits > 20 {
        return Err("too many items or nodes, or no such bits".into());
    }
    let core = match check(alloc, spec) {
        Ok(core) => core,
        Err(_fault) => return Err("names make no sense".into()),
    };
    let plan = make_plan(alloc, core)?;
    if !plan.has_few_terms() {
        return Err("too many terms".into());
    }
    let sizes = Sizes {
        bits,
        nodes: 1_000,
        cache: 1_002,
    };
    Ok(Monitor::open(alloc, plan, sizes)?)
}

/// The monitor after the events of the log.
fn after<L: Ledger>(
    alloc: Global,
    case: &Case,
    bits: u8,
    steps: &mut Steps<L>,
) -> Result<Monitor, Fail> {
    let mut monitor = open(alloc, case.spec, bits)?;
    for line in case.log.split(' ') {
        if !monitor.is_live() || monitor.events() == u64::MAX || monitor.last_time() > 0 {
            return Err("the monitor takes no event".into());
        }
        if monitor.step(&event(alloc, line)?, steps).is_err() {
            return Err("an event isn't judged".into());
        }
    }
    Ok(monitor)
}

/// The variables with what is shown for each, with spaces between them.
fn spelled(alloc: Global, witness: &[Shown]) -> Result<Vec<u8>, Fail> {
    let mut bytes = Vec::new(alloc);
    for shown in witness {
        if !bytes.is_empty() {
            bytes.push(b' ')?;
        }
        bytes.extend_from_slice(shown.name.bytes())?;
        bytes.push(b'=')?;
        match &shown.value {
            Value::Any => bytes.push(b'*')?,
            Value::Known(text) => bytes.extend_from_slice(text.bytes())?,
        }
    }
    Ok(bytes)
}

/// The witness of the property at the last event of the log.
fn found<L: Ledger>(alloc: Global, case: &Case, bits: u8, blank: Blank) -> Result<Vec<u8>, Fail>
    requires name { blank.name ≡ L.name }
    requires parts { blank.parts ≡ L.parts }
    requires some { 0 < L.parts }
{
    let mut steps = Steps::<L>::new(blank);
    let monitor = after(alloc, case, bits, &mut steps)?;
    if !monitor.is_live() || monitor.events() == 0 || monitor.plan().props() == 0 {
        return Err("nothing is judged".into());
    }
    if monitor.verdict(0) {
        return Err("the property is true".into());
    }
    spelled(alloc, find(alloc, &monitor, 0, &mut steps)?.as_slice())
}

#[test]
fn witnesses_are_those_of_the_rule(rt: HostRuntime) -> Result<(), Fail> {
    let alloc = rt.alloc();
    for case in CASES {
        for bits in [3u8, 8] {
            let shown = found::<Brand>(alloc, case, bits, Blank::new(1))?;
            assert_eq!(rt; shown.as_slice(), case.shown.as_bytes(), "{}", case.spec);
        }
    }
    Ok(())
}
