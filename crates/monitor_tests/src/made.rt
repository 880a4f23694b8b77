//! What the tests make: specifications, monitors and events.

ghost use Rattle.std.specs.Prelude.{◌≡◌, ◌<◌};

use mon_base::Steps;
use monitor_step::{Monitor, Sizes, StepEnd};
use qtl_syntax::{Text, parse};
use qtl_truth::Event;
use sqlite_items::Items;
use std::alloc::{AllocError, Global};
use std::sync::ledger::Ledger;
use std::test::Fail;
use subformulas::make_plan;
use wellformed::{Core, can_be_numbered, check};

/// The specification that the text spells, without macros.
pub fn core_of(alloc: Global, text: &str) -> Result<Core, Fail> {
    let spec = match parse(alloc, text.as_bytes()) {
        Ok(spec) => spec,
        Err(_fault) => return Err("no specification".into()),
    };
    if !can_be_numbered(&spec) {
        return Err("too many items or nodes".into());
    }
    match check(alloc, spec) {
        Ok(core) => Ok(core),
        Err(_fault) => Err("names make no sense".into()),
    }
}

/// A monitor of the specification, whose cache is as small as it may be but for 64 entries.
pub fn open(alloc: Global, spec: &str, bits: u8, nodes: u32) -> Result<Monitor, Fail> {
    let plan = make_plan(alloc, core_of(alloc, spec)?)?;
    if !plan.has_few_terms() {
        return Err("the monitor doesn't take it".into());
    }
    if bits == 0 || bits > 20 || nodes < 2 || nodes > 4_194_304 {
        return Err("no such sizes".into());
    }
    let cache = nodes.max(62) + 2;
    let sizes = Sizes { bits, nodes, cache };
    Ok(Monitor::open(alloc, plan, sizes)?)
}

/// Whether the first property holds at the event, or why that isn't judged.
pub fn judge<L: Ledger>(
    monitor: &mut Monitor,
    event: &Event,
    steps: &mut Steps<L>,
) -> Result<Result<bool, StepEnd>, Fail> {
    if !monitor.is_live() || monitor.events() == u64::MAX || event.time < monitor.last_time() {
        return Err("the monitor takes no such event".into());
    }
    if let Err(end) = monitor.step(event, steps) {
        return Ok(Err(end));
    }
    if monitor.events() == 0 || monitor.plan().props() == 0 {
        return Err("nothing is judged".into());
    }
    Ok(Ok(monitor.verdict(0)))
}

pub fn text(alloc: Global, name: &str) -> Result<Text, AllocError> {
    Text::from_bytes(alloc, name.as_bytes())
}

/// The event that a name and arguments with commas between them spell. A time may follow behind `@`; else it is 0.
pub fn event(alloc: Global, line: &str) -> Result<Event, AllocError> {
    let mut halves = line.split('@');
    let mut parts = halves.next().unwrap_or("").split(',');
    let name = text(alloc, parts.next().unwrap_or(""))?;
    let mut args = Items::new(alloc);
    for part in parts {
        args.push(text(alloc, part)?)?;
    }
    let time = halves.next().unwrap_or("0").parse::<u64>().unwrap_or(0);
    Ok(Event { name, args, time })
}
