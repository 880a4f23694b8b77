//! Lines of few parts, one of them not fixed.
ghost use Rattle.std.specs.Prelude.{◌++◌, OnOk, OnErr, decimal};
ghost use Rattle.mon_base.specs.Causes.{HasCause};
ghost use Rattle.mon_base.specs.Told.{AppendsFront};
ghost use Rattle.report.specs.Passing.{Passes};

use crate::output::Output;
use itoa::Buffer;
use mon_base::{Failed, Sink};

/// Holds back a line of three parts.
pub fn put_line<W: Sink>(
    output: &mut Output,
    out: &mut W,
    head: &[u8],
    middle: &[u8],
    tail: &[u8],
) -> Result<(), Failed>
    ensures ok { OnOk result (Passes (W.written out.old) (W.written out.new) output.old output.new
        (head.now ++ (middle.now ++ tail.now))) }
    ensures err { OnErr result (AppendsFront (W.written out.old) (W.written out.new)
        (output.old ++ (head.now ++ (middle.now ++ tail.now)))) }
    ensures cause { HasCause (W.faults out.old) (W.faults out.new) result }
{
    output.put_parts(out, &[head, middle, tail])
}

/// Holds back a line with a number in its middle.
pub fn put_numbered<W: Sink>(
    output: &mut Output,
    out: &mut W,
    head: &[u8],
    number: u64,
    tail: &[u8],
) -> Result<(), Failed>
    ensures ok { OnOk result (Passes (W.written out.old) (W.written out.new) output.old output.new
        (head.now ++ (decimal number ++ tail.now))) }
    ensures err { OnErr result (AppendsFront (W.written out.old) (W.written out.new)
        (output.old ++ (head.now ++ (decimal number ++ tail.now)))) }
    ensures cause { HasCause (W.faults out.old) (W.faults out.new) result }
{
    let mut buffer = Buffer::new();
    let digits = buffer.format(number).as_bytes();
    put_line(output, out, head, digits, tail)
}
