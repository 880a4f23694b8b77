//! The records of the bytes that were fed to the reader, judged one by one.
ghost use Rattle.std.specs.Prelude.{◌≡◌, ◌≤◌, ℕ, Bool, List, Option, OnOk, IfErr};
ghost use Rattle.bdd_ops.specs.Shelf.{IsLarge};
ghost use Rattle.mon_base.specs.Causes.{Rose};
ghost use Rattle.qtl_syntax.specs.Tree as tree;
ghost use Rattle.monitor_run.specs.Judging.{Spends, judge_bound};
ghost use Rattle.monitor_run.specs.Opening.{halt_of_record};
ghost use Rattle.monitor_run.specs.Reading.{Halted, HasCutCause, HasReadCause, IsFed, IsFedWithin, Reads, ReadsAll};
ghost use Rattle.monitor_run.specs.Standing.{IsReady, KeepsPlan};
ghost use Rattle.run_model.specs.Job.{Job};

use crate::judge::{Judge, judge_event};
use log_reader::{LogFault, LogReader, times_never_fall};
use mon_base::{Sink, Steps};
use report::Output;
use run_model::{Halt, LogStop, Loss};
use std::sync::ledger::Ledger;

/// How a run gives up whose log has this fault.
fn halt_of_record(fault: LogFault) -> Halt<LogStop>
    ensures { result ≡ halt_of_record fault }
{
    match fault {
        LogFault::NoMemory => Halt::Lost(Loss::Starved),
        _ => Halt::At(LogStop::Fault(fault)),
    }
}

/// Judges the events of the bytes that were fed to the reader.
pub fn judge_fed<W: Sink, L: Ledger>(
    judge: &mut Judge,
    reader: &mut LogReader,
    output: &mut Output,
    out: &mut W,
    steps: &mut Steps<L>,
) -> Result<(), Halt<LogStop>>
    requires fed { IsFedWithin 281474976710656 reader.old judge.old.monitor.last_time }
    requires events { judge.old.events ≡ reader.old.given }
    requires ready { IsReady judge.old }
    ensures ok { OnOk result ((job : Job) (items : List tree.Item) (all : tree.Text)
        (left : Option tree.Text) (sent : Option tree.Text) (given : tree.Text) (ended : Bool) →
        Reads job items all left sent (W.written out.old) given ended judge.old reader.old
        output.old →
        ReadsAll job items all left sent (W.written out.new) given ended judge.new reader.new
        output.new) }
    ensures err { IfErr result (λ halt. (job : Job) (items : List tree.Item)
        (all : tree.Text)
        (left : Option tree.Text) (sent : Option tree.Text) (given : tree.Text) (ended : Bool) →
        Reads job items all left sent (W.written out.old) given ended judge.old reader.old
        output.old →
        Halted job items all left sent (W.written out.new) output.new judge.new reader.new.given
        halt) }
    ensures fed { OnOk result ((count : ℕ) → IsFed count reader.old judge.old.monitor.last_time →
        IsFed count reader.new judge.new.monitor.last_time) }
    ensures on { OnOk result (reader.new.ended ≡ reader.old.ended) }
    ensures events { OnOk result (judge.new.events ≡ reader.new.given) }
    ensures ready { OnOk result (IsReady judge.new) }
    ensures plan { KeepsPlan judge.old judge.new }
    ensures cause { IfErr result
        (λ halt. HasCutCause (Rose (W.faults out.old) (W.faults out.new)) halt) }
    ensures no_read { IfErr result (λ halt. HasReadCause ⊥ halt) }
    ensures out_later { W.faults out.old ≤ W.faults out.new }
    ensures cost { IsLarge judge.old.monitor.shelf →
        Spends (judge_bound judge.old.monitor) judge.old.events reader.new.given steps.old
        steps.new }
    ensures grown { reader.old.given ≤ reader.new.given }
    ensures idle { reader.new.given ≡ reader.old.given → steps.new ≡ steps.old }
{
    // A law, for a condition of `judge_event`.
    times_never_fall();
    'records: loop {
        match reader.next() {
            Ok(Some(event)) => match judge_event(judge, &event, output, out, steps) {
                Ok(()) => {}
                Err(halt) => return Err(halt),
            },
            Ok(None) => return Ok(()),
            Err(fault) => return Err(halt_of_record(fault)),
        }
    }
}
