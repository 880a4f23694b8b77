//! The part of a line that shows a witness.
ghost use Rattle.std.specs.Prelude.{[], ◌∷◌, ◌++◌, OnOk, OnErr};
ghost use Rattle.mon_base.specs.Causes.{HasCause};
ghost use Rattle.mon_base.specs.Told.{AppendsFront};
ghost use Rattle.report.specs.Lines.{value_text, witness_text};
ghost use Rattle.report.specs.Passing.{Passes};

use crate::output::Output;
use crate::quoted::put_quoted;
use crate::shown::{Shown, Value};
use mon_base::{Failed, Sink};

/// Holds back what is shown for a variable.
fn put_value<W: Sink>(output: &mut Output, out: &mut W, value: &Value) -> Result<(), Failed>
    ensures ok { OnOk result (Passes (W.written out.old) (W.written out.new) output.old output.new
        (value_text value.now)) }
    ensures err { OnErr result (AppendsFront (W.written out.old) (W.written out.new)
        (output.old ++ value_text value.now)) }
    ensures cause { HasCause (W.faults out.old) (W.faults out.new) result }
{
    match value {
        Value::Any => output.put(out, b"*"),
        Value::Known(text) => put_quoted(output, out, text.bytes()),
    }
}

/// Holds back a variable's name and what is shown for it, behind a space.
fn put_shown<W: Sink>(output: &mut Output, out: &mut W, shown: &Shown) -> Result<(), Failed>
    ensures ok { OnOk result (Passes (W.written out.old) (W.written out.new) output.old output.new
        (witness_text (shown.now ∷ []))) }
    ensures err { OnErr result (AppendsFront (W.written out.old) (W.written out.new)
        (output.old ++ witness_text (shown.now ∷ []))) }
    ensures cause { HasCause (W.faults out.old) (W.faults out.new) result }
{
    output.put_parts(out, &[b" ".as_slice(), shown.name.bytes(), b"="])?;
    put_value(output, out, &shown.value)
}

/// Holds back a witness, variable by variable.
pub fn put_witness<W: Sink>(
    output: &mut Output,
    out: &mut W,
    witness: &[Shown],
) -> Result<(), Failed>
    ensures ok { OnOk result (Passes (W.written out.old) (W.written out.new) output.old output.new
        (witness_text witness.now)) }
    ensures err { OnErr result (AppendsFront (W.written out.old) (W.written out.new)
        (output.old ++ witness_text witness.now)) }
    ensures cause { HasCause (W.faults out.old) (W.faults out.new) result }
{
    for shown in witness {
        put_shown(output, out, shown)?;
    }
    Ok(())
}
