//! The judge of the properties: it takes the events one by one, keeps none, and writes what their verdicts write.
ghost use Rattle.std.specs.Prelude.{◌≡◌, ◌+◌, ◌*◌, ◌^◌, ◌<◌, ◌≤◌, ◌++◌, List, length, map, true, IfErr, OnOk, OnErr, IfOk};
ghost use Rattle.std.specs.List.{AllByRecursion};
ghost use Rattle.bdd_ops.specs.Shelf.{IsLarge};
ghost use Rattle.mon_base.specs.Causes.{HasCause, Rose};
ghost use Rattle.mon_base.specs.Told.{AppendsFront};
ghost use Rattle.qtl_truth.specs.Truth.{IsEvent, IsText};
ghost use Rattle.qtl_truth.specs.declared.event.Event.{Event as TheEvent};
ghost use Rattle.report.specs.Lines.{event_lines};
ghost use Rattle.report.specs.Passing.{Passes};
ghost use Rattle.monitor_run.specs.Judging.{Judges, WritesEvent, halt_of_step, judge_bound, witness_bound, witnesses_in};
ghost use Rattle.monitor_run.specs.Reading.{HasCutCause, HasReadCause};
ghost use Rattle.monitor_run.specs.Standing.{IsReady, KeepsPlan, StandsFor, names_in, row_of};

use mon_base::{Failed, NoMemory, Sink, Steps};
use monitor_step::{Monitor, StepEnd};
use qtl_syntax::Text;
use qtl_truth::Event;
use report::{Output, Shown, put_holds, put_violation};
use run_model::{Halt, LogStop, Loss};
use std::alloc::Global;
use std::sync::ledger::Ledger;
use witness::find;

/// The monitor of the properties, and what was counted so far.
#[derive(Drop)]
pub struct Judge {
    pub alloc: Global,
    pub monitor: Monitor,
    /// Whether true verdicts are written too.
    pub shows_true: bool,
    pub events: u64,
    pub violations: u64,
}

/// The witnesses of the false verdicts at the event that the monitor took last, in order of the properties.
fn find_witnesses<L: Ledger>(
    alloc: Global,
    monitor: &Monitor,
    steps: &mut Steps<L>,
) -> Result<Vec<Vec<Shown>>, NoMemory>
    requires live { monitor.now.live ≡ true }
    requires some { 1 ≤ monitor.now.events }
    ensures are { IfOk result (λ found.
        map (λ w. w.items) found.items ≡ witnesses_in (row_of monitor.now)) }
    ensures cost { steps.new ≤ steps.old + witness_bound monitor.now }
{
    let plan = monitor.plan();
    let mut found = Vec::new(alloc);
    for p in 0..plan.props() {
        if !monitor.verdict(p) {
            let witness = find(alloc, monitor, p, steps)?;
            found.push(witness)?;
        }
    }
    Ok(found)
}

/// Writes what the verdicts at the event that the monitor took last write, property by property. The witnesses are those of
/// the false ones.
fn put_verdicts<W: Sink>(
    output: &mut Output,
    out: &mut W,
    event: u64,
    monitor: &Monitor,
    shows_true: bool,
    witnesses: &[Vec<Shown>],
) -> Result<(), Failed>
    requires live { monitor.now.live ≡ true }
    requires some { 1 ≤ monitor.now.events }
    requires are { map (λ w. w.items) witnesses.now ≡ witnesses_in (row_of monitor.now) }
    ensures ok { OnOk result (Passes (W.written out.old) (W.written out.new) output.old output.new
        (event_lines shows_true event (names_in monitor.now) (row_of monitor.now))) }
    ensures err { OnErr result (AppendsFront (W.written out.old) (W.written out.new) (output.old
        ++ event_lines shows_true event (names_in monitor.now) (row_of monitor.now))) }
    ensures cause { HasCause (W.faults out.old) (W.faults out.new) result }
{
    // Most events have nothing to write.
    if witnesses.is_empty() && !shows_true {
        return Ok(());
    }
    let plan = monitor.plan();
    let mut next = 0;
    for p in 0..plan.props() {
        let name = plan.prop_name(p);
        if !monitor.verdict(p) {
            put_violation(output, out, event, name, witnesses[next].as_slice())?;
            next += 1;
        } else if shows_true {
            put_holds(output, out, event, name)?;
        }
    }
    Ok(())
}

/// How a run gives up whose event of this number the monitor refuses.
fn halt_of_step(event: u64, end: StepEnd) -> Halt<LogStop>
    ensures { result ≡ halt_of_step event end }
{
    match end {
        StepEnd::CodesFull { variable, need } => Halt::At(LogStop::CodesFull {
            event,
            variable,
            need,
        }),
        StepEnd::NodesFull { subformula, row } => Halt::At(LogStop::NodesFull {
            event,
            subformula,
            row,
        }),
        StepEnd::NoMemory => Halt::Lost(Loss::Starved),
    }
}

/// A law: bytes are below 256.
fn are_bytes(bytes: &[u8])
    ensures { IsText bytes.now }
{}

/// A law: texts are lists of bytes. The loop has no effect.
fn are_texts(texts: &[Text])
    ensures { AllByRecursion IsText texts.now }
{
    for text in texts {
        are_bytes(text.bytes());
    }
}

/// A law: an event's name and arguments are texts, and its time has 64 bits.
fn is_event(event: &Event)
    ensures { IsEvent event.now }
{
    are_bytes(event.name.bytes());
    are_texts(event.args.as_slice());
    let _time = event.time;
}

/// Judges the next event, and writes what its verdicts write. After an error the judge takes no event more.
pub fn judge_event<W: Sink, L: Ledger>(
    judge: &mut Judge,
    event: &Event,
    output: &mut Output,
    out: &mut W,
    steps: &mut Steps<L>,
) -> Result<(), Halt<LogStop>>
    requires ready { IsReady judge.old }
    requires few { judge.old.events < 2 ^ 48 }
    requires time { judge.old.monitor.last_time ≤ event.now.time }
    ensures plan { KeepsPlan judge.old judge.new }
    ensures ready { OnOk result (IsReady judge.new) }
    ensures time { OnOk result (judge.new.monitor.last_time ≡ event.now.time) }
    ensures judged { (log : List TheEvent) → judge.old.events ≡ length log →
        StandsFor judge.old.monitor log → Judges judge.old judge.new log event.now result }
    ensures written { WritesEvent judge.old judge.new (W.written out.old) (W.written out.new)
        output.old output.new result }
    ensures cause { IfErr result
        (λ halt. HasCutCause (Rose (W.faults out.old) (W.faults out.new)) halt) }
    ensures no_read { IfErr result (λ halt. HasReadCause ⊥ halt) }
    ensures out_later { W.faults out.old ≤ W.faults out.new }
    ensures cost { IsLarge judge.old.monitor.shelf →
        steps.new ≤ steps.old + judge_bound judge.old.monitor }
{
    is_event(event);
    match judge.monitor.step(event, steps) {
        Ok(()) => {}
        Err(end) => return Err(halt_of_step(judge.events + 1, end)),
    }
    // Laws, for the clauses `judged` and `ready`: what holds of each live monitor, and that a plan has at most 4,096
    // properties.
    let _live = judge.monitor.is_live();
    let _rows = judge.monitor.plan().count();
    let found = match find_witnesses(judge.alloc, &judge.monitor, steps) {
        Ok(found) => found,
        Err(_) => return Err(Halt::Lost(Loss::Starved)),
    };
    judge.events += 1;
    let witnesses = found.as_slice();
    match put_verdicts(
        output,
        out,
        judge.events,
        &judge.monitor,
        judge.shows_true,
        witnesses,
    ) {
        Ok(()) => {
            judge.violations += found.len() as u64;
            Ok(())
        }
        Err(_) => Err(Halt::Lost(Loss::Cut)),
    }
}
