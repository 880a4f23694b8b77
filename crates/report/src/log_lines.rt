//! The last lines of a run whose log has no further event.
ghost use Rattle.std.specs.Prelude.{◌++◌, OnOk, OnErr};
ghost use Rattle.mon_base.specs.Causes.{HasCause};
ghost use Rattle.mon_base.specs.Told.{AppendsFront};
ghost use Rattle.report.specs.LastLines.{at_record, log_line, long_log_line};
ghost use Rattle.report.specs.Passing.{Passes};

use crate::line::put_numbered;
use crate::output::Output;
use itoa::Buffer;
use log_reader::LogFault;
use mon_base::{Failed, Sink};

/// Holds back the line that tells that the log has more bytes than this limit.
pub fn put_long_log<W: Sink>(output: &mut Output, out: &mut W, limit: u64) -> Result<(), Failed>
    ensures ok { OnOk result (Passes (W.written out.old) (W.written out.new) output.old output.new
        (long_log_line limit)) }
    ensures err { OnErr result (AppendsFront (W.written out.old) (W.written out.new)
        (output.old ++ long_log_line limit)) }
    ensures cause { HasCause (W.faults out.old) (W.faults out.new) result }
{
    put_numbered(
        output,
        out,
        b"stopped: log longer than ",
        limit,
        b" bytes\n",
    )
}

/// Holds back the line of a fault in a record.
fn put_at_record<W: Sink>(
    output: &mut Output,
    out: &mut W,
    head: &[u8],
    number: u64,
) -> Result<(), Failed>
    ensures ok { OnOk result (Passes (W.written out.old) (W.written out.new) output.old output.new
        (at_record head.now number)) }
    ensures err { OnErr result (AppendsFront (W.written out.old) (W.written out.new)
        (output.old ++ at_record head.now number)) }
    ensures cause { HasCause (W.faults out.old) (W.faults out.new) result }
{
    let mut buffer = Buffer::new();
    let number = buffer.format(number).as_bytes();
    let parts = [head, b" at record ".as_slice(), number, b"\n"];
    output.put_parts(out, &parts)
}

/// Holds back the line of a time that falls.
fn put_time_back<W: Sink>(
    output: &mut Output,
    out: &mut W,
    number: u64,
    before: u64,
    now: u64,
) -> Result<(), Failed>
    ensures ok { OnOk result (Passes (W.written out.old) (W.written out.new) output.old output.new
        (log_line (LogFault.TimeBack number before now))) }
    ensures err { OnErr result (AppendsFront (W.written out.old) (W.written out.new)
        (output.old ++ log_line (LogFault.TimeBack number before now))) }
    ensures cause { HasCause (W.faults out.old) (W.faults out.new) result }
{
    let mut first = Buffer::new();
    let mut second = Buffer::new();
    let mut third = Buffer::new();
    let before = first.format(before).as_bytes();
    let now = second.format(now).as_bytes();
    let number = third.format(number).as_bytes();
    let parts = [
        b"stopped: time falls from ".as_slice(),
        before,
        b" to ",
        now,
        b" at record ",
        number,
        b"\n",
    ];
    output.put_parts(out, &parts)
}

/// Holds back the line that tells why a log has no further event, and in which record.
pub fn put_log_fault<W: Sink>(
    output: &mut Output,
    out: &mut W,
    fault: LogFault,
) -> Result<(), Failed>
    ensures ok { OnOk result (Passes (W.written out.old) (W.written out.new) output.old output.new
        (log_line fault)) }
    ensures err { OnErr result (AppendsFront (W.written out.old) (W.written out.new)
        (output.old ++ log_line fault)) }
    ensures cause { HasCause (W.faults out.old) (W.faults out.new) result }
{
    match fault {
        LogFault::QuoteOpen { number } => {
            put_at_record(output, out, b"stopped: quote not closed", number)
        }
        LogFault::AfterQuote { number } => {
            put_at_record(output, out, b"stopped: text after quote", number)
        }
        LogFault::RecordTooLong { number } => {
            put_at_record(output, out, b"stopped: record too long", number)
        }
        LogFault::TooManyFields { number } => {
            put_at_record(output, out, b"stopped: too many fields", number)
        }
        LogFault::EmptyName { number } => {
            put_at_record(output, out, b"stopped: empty name", number)
        }
        LogFault::BadTime { number } => put_at_record(output, out, b"stopped: bad time", number),
        LogFault::TimeBack {
            number,
            before,
            now,
        } => put_time_back(output, out, number, before, now),
        LogFault::NoMemory => output.put(out, b""),
    }
}
