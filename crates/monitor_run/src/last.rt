//! The last line of a run.
ghost use Rattle.std.specs.Prelude.{◌≡◌, ◌≤◌, ◌++◌, [], unwrap_or, OnOk, OnErr};
ghost use Rattle.std.specs.Io.KnownBytes.{Appends};
ghost use Rattle.mon_base.specs.Causes.{HasCause, Rose};
ghost use Rattle.mon_base.specs.Told.{AppendsFront};
ghost use Rattle.report.specs.LastLines.{usage_line};
ghost use Rattle.report.specs.Passing.{Passes};
ghost use Rattle.run_model.specs.Limits.{name_in};
ghost use Rattle.run_model.specs.Lines.{log_stop_line, spec_stop_line, stop_line};
ghost use Rattle.monitor_run.specs.Finishing.{Finishes, HasLastCause};

use crate::judge::Judge;
use mon_base::{Failed, Sink};
use report::{
    Output, Which, put_codes_full, put_end, put_log_fault, put_long_log, put_long_spec,
    put_name_fault, put_nodes_full, put_spec_fault, put_unopened, put_unread, put_usage,
};
use run_model::{Course, Halt, LogStop, Loss, SpecStop, Stop};

/// How a run went, and how many verdicts it found false.
#[derive(Clone, Copy, Debug, PartialEq, Eq)]
pub struct Finished {
    pub course: Course,
    pub violations: u64,
}

/// The name of a variable, lent by the plan; none where there is no such variable.
fn name_of(judge: &Judge, variable: u32) -> &[u8]
    ensures { result.now ≡ unwrap_or (name_in judge.now.monitor.plan.variables variable) [] }
{
    match judge.monitor.plan().variables().get(variable as usize) {
        Some(found) => found.name.bytes(),
        None => b"",
    }
}

/// Holds back the last line of a run whose specification gave no judge.
fn put_spec_stop<W: Sink>(output: &mut Output, out: &mut W, stop: SpecStop) -> Result<(), Failed>
    ensures ok { OnOk result (Passes (W.written out.old) (W.written out.new) output.old output.new
        (spec_stop_line stop)) }
    ensures err { OnErr result (AppendsFront (W.written out.old) (W.written out.new)
        (output.old ++ spec_stop_line stop)) }
    ensures cause { HasCause (W.faults out.old) (W.faults out.new) result }
{
    match stop {
        SpecStop::Unopened => put_unopened(output, out, Which::Spec),
        SpecStop::Unread => put_unread(output, out, Which::Spec),
        SpecStop::TooLong => put_long_spec(output, out),
        SpecStop::Fault(fault) => put_spec_fault(output, out, fault),
        SpecStop::Names(fault) => put_name_fault(output, out, fault),
    }
}

/// Holds back the last line of a run whose log ended so.
fn put_log_stop<W: Sink>(
    output: &mut Output,
    out: &mut W,
    stop: LogStop,
    judge: &Judge,
) -> Result<(), Failed>
    ensures ok { OnOk result (Passes (W.written out.old) (W.written out.new) output.old output.new
        (log_stop_line judge.now.monitor.plan.variables judge.now.events judge.now.violations
        stop)) }
    ensures err { OnErr result (AppendsFront (W.written out.old) (W.written out.new) (output.old
        ++ log_stop_line judge.now.monitor.plan.variables judge.now.events judge.now.violations
        stop)) }
    ensures cause { HasCause (W.faults out.old) (W.faults out.new) result }
{
    match stop {
        LogStop::Unopened => put_unopened(output, out, Which::Log),
        LogStop::Unread => put_unread(output, out, Which::Log),
        LogStop::Whole => put_end(output, out, judge.events, judge.violations),
        LogStop::Fault(fault) => put_log_fault(output, out, fault),
        LogStop::Long { limit } => put_long_log(output, out, limit),
        LogStop::CodesFull {
            event,
            variable,
            need,
        } => put_codes_full(output, out, event, variable, need, name_of(judge, variable)),
        LogStop::NodesFull {
            event,
            subformula,
            row,
        } => put_nodes_full(output, out, event, subformula, row),
    }
}

/// Writes the last line of a wrong use.
fn send_usage<W: Sink>(output: &mut Output, out: &mut W) -> Result<(), Failed>
    ensures ok { OnOk result (Appends (W.written out.old) (W.written out.new)
        (output.old ++ usage_line)) }
    ensures err { OnErr result (AppendsFront (W.written out.old) (W.written out.new)
        (output.old ++ usage_line)) }
    ensures cause { HasCause (W.faults out.old) (W.faults out.new) result }
{
    put_usage(output, out)?;
    output.flush(out)?;
    Ok(())
}

/// Writes the last line of a run whose specification gave no judge.
fn send_spec_stop<W: Sink>(output: &mut Output, out: &mut W, stop: SpecStop) -> Result<(), Failed>
    ensures ok { OnOk result (Appends (W.written out.old) (W.written out.new)
        (output.old ++ spec_stop_line stop)) }
    ensures err { OnErr result (AppendsFront (W.written out.old) (W.written out.new)
        (output.old ++ spec_stop_line stop)) }
    ensures cause { HasCause (W.faults out.old) (W.faults out.new) result }
{
    put_spec_stop(output, out, stop)?;
    output.flush(out)?;
    Ok(())
}

/// Writes the last line of a run whose log ended so, and all that was held back before it.
fn send_log_stop<W: Sink>(
    output: &mut Output,
    out: &mut W,
    stop: LogStop,
    judge: &Judge,
) -> Result<(), Failed>
    ensures ok { OnOk result (Appends (W.written out.old) (W.written out.new) (output.old
        ++ log_stop_line judge.now.monitor.plan.variables judge.now.events judge.now.violations
        stop)) }
    ensures err { OnErr result (AppendsFront (W.written out.old) (W.written out.new) (output.old
        ++ log_stop_line judge.now.monitor.plan.variables judge.now.events judge.now.violations
        stop)) }
    ensures cause { HasCause (W.faults out.old) (W.faults out.new) result }
{
    put_log_stop(output, out, stop, judge)?;
    output.flush(out)?;
    Ok(())
}

/// Writes what may still be written where the words are a wrong use.
pub fn finish_misused<W: Sink>(output: &mut Output, out: &mut W) -> Course
    ensures course { Finishes (λ stop. stop) (stop_line [] 0 0) (Halt.At Stop.Misused) result
        output.old (W.written out.old) (W.written out.new) }
    ensures cause { HasLastCause (Rose (W.faults out.old) (W.faults out.new)) result }
    ensures later { W.faults out.old ≤ W.faults out.new }
{
    match send_usage(output, out) {
        Ok(()) => Course::Came(Stop::Misused),
        Err(_) => Course::Lost(Loss::Cut, Some(Stop::Misused)),
    }
}

/// Writes what may still be written where the specification gave no judge.
pub fn finish_spec<W: Sink>(output: &mut Output, out: &mut W, halt: Halt<SpecStop>) -> Course
    ensures course { Finishes Stop.Spec (stop_line [] 0 0) halt result
        output.old (W.written out.old) (W.written out.new) }
    ensures cause { HasLastCause (Rose (W.faults out.old) (W.faults out.new)) result }
    ensures later { W.faults out.old ≤ W.faults out.new }
{
    match halt {
        Halt::At(stop) => match send_spec_stop(output, out, stop) {
            Ok(()) => Course::Came(Stop::Spec(stop)),
            Err(_) => Course::Lost(Loss::Cut, Some(Stop::Spec(stop))),
        },
        Halt::Lost(Loss::Cut) => Course::Lost(Loss::Cut, None),
        Halt::Lost(Loss::Starved) => {
            // Nothing that is known already is lost. Whether this is written changes no answer.
            let _sent = output.flush(out);
            Course::Lost(Loss::Starved, None)
        }
    }
}

/// Writes what may still be written where the reading of the log gave up.
pub fn finish_log<W: Sink>(
    output: &mut Output,
    out: &mut W,
    halt: Halt<LogStop>,
    judge: &Judge,
) -> Course
    ensures course { Finishes Stop.Log
        (stop_line judge.now.monitor.plan.variables judge.now.events judge.now.violations) halt
        result
        output.old (W.written out.old) (W.written out.new) }
    ensures cause { HasLastCause (Rose (W.faults out.old) (W.faults out.new)) result }
    ensures later { W.faults out.old ≤ W.faults out.new }
{
    match halt {
        Halt::At(stop) => match send_log_stop(output, out, stop, judge) {
            Ok(()) => Course::Came(Stop::Log(stop)),
            Err(_) => Course::Lost(Loss::Cut, Some(Stop::Log(stop))),
        },
        Halt::Lost(Loss::Cut) => Course::Lost(Loss::Cut, None),
        Halt::Lost(Loss::Starved) => {
            // Nothing that is known already is lost. Whether this is written changes no answer.
            let _sent = output.flush(out);
            Course::Lost(Loss::Starved, None)
        }
    }
}
