//! The line of a false verdict.
ghost use Rattle.std.specs.Prelude.{◌++◌, OnOk, OnErr};
ghost use Rattle.mon_base.specs.Causes.{HasCause};
ghost use Rattle.mon_base.specs.Told.{AppendsFront};
ghost use Rattle.report.specs.Lines.{violation_line};
ghost use Rattle.report.specs.Passing.{Passes};

use crate::output::Output;
use crate::shown::Shown;
use crate::values::put_witness;
use itoa::Buffer;
use mon_base::{Failed, Sink};
use qtl_syntax::Text;

/// Holds back the line that the property of this name is false at this event, with what a witness
/// shows for each variable. Events count from 1.
pub fn put_violation<W: Sink>(
    output: &mut Output,
    out: &mut W,
    event: u64,
    name: &Text,
    witness: &[Shown],
) -> Result<(), Failed>
    ensures ok { OnOk result (Passes (W.written out.old) (W.written out.new) output.old output.new
        (violation_line event name.now witness.now)) }
    ensures err { OnErr result (AppendsFront (W.written out.old) (W.written out.new)
        (output.old ++ violation_line event name.now witness.now)) }
    ensures cause { HasCause (W.faults out.old) (W.faults out.new) result }
{
    let mut buffer = Buffer::new();
    let number = buffer.format(event).as_bytes();
    let parts = [b"violation ".as_slice(), number, b" ", name.bytes()];
    output.put_parts(out, &parts)?;
    put_witness(output, out, witness)?;
    output.put(out, b"\n")
}
