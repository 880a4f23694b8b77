//! The line of a run that judged the whole log.
ghost use Rattle.std.specs.Prelude.{◌++◌, OnOk, OnErr};
ghost use Rattle.mon_base.specs.Causes.{HasCause};
ghost use Rattle.mon_base.specs.Told.{AppendsFront};
ghost use Rattle.report.specs.LastLines.{end_line};
ghost use Rattle.report.specs.Passing.{Passes};

use crate::output::Output;
use itoa::Buffer;
use mon_base::{Failed, Sink};

/// Holds back the line that tells how many events and violations there were.
pub fn put_end<W: Sink>(
    output: &mut Output,
    out: &mut W,
    events: u64,
    violations: u64,
) -> Result<(), Failed>
    ensures ok { OnOk result (Passes (W.written out.old) (W.written out.new) output.old output.new
        (end_line events violations)) }
    ensures err { OnErr result (AppendsFront (W.written out.old) (W.written out.new)
        (output.old ++ end_line events violations)) }
    ensures cause { HasCause (W.faults out.old) (W.faults out.new) result }
{
    let mut first = Buffer::new();
    let mut second = Buffer::new();
    let judged = first.format(events).as_bytes();
    let false_ones = second.format(violations).as_bytes();
    let parts = [
        b"events ".as_slice(),
        judged,
        b" violations ",
        false_ones,
        b"\n",
    ];
    output.put_parts(out, &parts)
}
