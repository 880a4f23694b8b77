//! The line of a true verdict.
ghost use Rattle.std.specs.Prelude.{◌++◌, OnOk, OnErr};
ghost use Rattle.mon_base.specs.Causes.{HasCause};
ghost use Rattle.mon_base.specs.Told.{AppendsFront};
ghost use Rattle.report.specs.Lines.{holds_line};
ghost use Rattle.report.specs.Passing.{Passes};

use crate::output::Output;
use itoa::Buffer;
use mon_base::{Failed, Sink};
use qtl_syntax::Text;

/// Holds back the line that the property of this name is true at this event. Events count from 1.
pub fn put_holds<W: Sink>(
    output: &mut Output,
    out: &mut W,
    event: u64,
    name: &Text,
) -> Result<(), Failed>
    ensures ok { OnOk result (Passes (W.written out.old) (W.written out.new) output.old output.new
        (holds_line event name.now)) }
    ensures err { OnErr result (AppendsFront (W.written out.old) (W.written out.new)
        (output.old ++ holds_line event name.now)) }
    ensures cause { HasCause (W.faults out.old) (W.faults out.new) result }
{
    let mut buffer = Buffer::new();
    let number = buffer.format(event).as_bytes();
    let parts = [b"holds ".as_slice(), number, b" ", name.bytes(), b"\n"];
    output.put_parts(out, &parts)
}
