//! The last lines of a run whose monitor is full.
ghost use Rattle.std.specs.Prelude.{◌++◌, OnOk, OnErr};
ghost use Rattle.mon_base.specs.Causes.{HasCause};
ghost use Rattle.mon_base.specs.Told.{AppendsFront};
ghost use Rattle.report.specs.LastLines.{codes_line, nodes_line};
ghost use Rattle.report.specs.Passing.{Passes};

use crate::output::Output;
use itoa::Buffer;
use mon_base::{Failed, Sink};

/// Holds back the line that tells for which variable there are too few codes.
pub fn put_codes_full<W: Sink>(
    output: &mut Output,
    out: &mut W,
    event: u64,
    variable: u32,
    need: u32,
    name: &[u8],
) -> Result<(), Failed>
    ensures ok { OnOk result (Passes (W.written out.old) (W.written out.new) output.old output.new
        (codes_line event variable need name.now)) }
    ensures err { OnErr result (AppendsFront (W.written out.old) (W.written out.new)
        (output.old ++ codes_line event variable need name.now)) }
    ensures cause { HasCause (W.faults out.old) (W.faults out.new) result }
{
    let mut first = Buffer::new();
    let mut second = Buffer::new();
    let mut third = Buffer::new();
    let parts = [
        b"stopped: codes full at event ".as_slice(),
        first.format(event).as_bytes(),
        b", variable ",
        second.format(variable).as_bytes(),
        b" (",
        name,
        b"), need ",
        third.format(need).as_bytes(),
        b"\n",
    ];
    output.put_parts(out, &parts)
}

/// Holds back the line that tells at which row there are too few nodes.
pub fn put_nodes_full<W: Sink>(
    output: &mut Output,
    out: &mut W,
    event: u64,
    subformula: u32,
    row: u32,
) -> Result<(), Failed>
    ensures ok { OnOk result (Passes (W.written out.old) (W.written out.new) output.old output.new
        (nodes_line event subformula row)) }
    ensures err { OnErr result (AppendsFront (W.written out.old) (W.written out.new)
        (output.old ++ nodes_line event subformula row)) }
    ensures cause { HasCause (W.faults out.old) (W.faults out.new) result }
{
    let mut first = Buffer::new();
    let mut second = Buffer::new();
    let mut third = Buffer::new();
    let parts = [
        b"stopped: nodes full at event ".as_slice(),
        first.format(event).as_bytes(),
        b", subformula ",
        second.format(subformula).as_bytes(),
        b", row ",
        third.format(row).as_bytes(),
        b"\n",
    ];
    output.put_parts(out, &parts)
}
