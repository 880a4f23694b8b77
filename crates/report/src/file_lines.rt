//! The last lines of a run whose words or files end it.
ghost use Rattle.std.specs.Prelude.{◌++◌, OnOk, OnErr, codes};
ghost use Rattle.mon_base.specs.Causes.{HasCause};
ghost use Rattle.mon_base.specs.Told.{AppendsFront};
ghost use Rattle.report.specs.LastLines.{file_text, unopened_line, unread_line, usage_line};
ghost use Rattle.report.specs.Passing.{Passes};

use crate::line::put_line;
use crate::output::Output;
use crate::which::{Which, name_of};
use mon_base::{Failed, Sink};

/// How the words are to be.
const USAGE: &[u8] =
    b"stopped: usage: dejavu [--bits B] [--nodes N] [--cache C] [--limit L] [--all] \
[--listen NAMES] [--sample SEED,EVENTS] SPEC [LOG]\n";

/// Holds back the line that tells how the words are to be.
pub fn put_usage<W: Sink>(output: &mut Output, out: &mut W) -> Result<(), Failed>
    ensures ok { OnOk result (Passes (W.written out.old) (W.written out.new) output.old output.new
        usage_line) }
    ensures err { OnErr result (AppendsFront (W.written out.old) (W.written out.new)
        (output.old ++ usage_line)) }
    ensures cause { HasCause (W.faults out.old) (W.faults out.new) result }
{
    output.put(out, USAGE)
}

/// Holds back the line that tells what failed, and in which file.
fn put_file_fault<W: Sink>(
    output: &mut Output,
    out: &mut W,
    head: &[u8],
    which: Which,
) -> Result<(), Failed>
    ensures ok { OnOk result (Passes (W.written out.old) (W.written out.new) output.old output.new
        (head.now ++ (file_text which ++ codes "\n"))) }
    ensures err { OnErr result (AppendsFront (W.written out.old) (W.written out.new)
        (output.old ++ (head.now ++ (file_text which ++ codes "\n")))) }
    ensures cause { HasCause (W.faults out.old) (W.faults out.new) result }
{
    put_line(output, out, head, name_of(which), b"\n")
}

/// Holds back the line that tells which file could not be opened.
pub fn put_unopened<W: Sink>(output: &mut Output, out: &mut W, which: Which) -> Result<(), Failed>
    ensures ok { OnOk result (Passes (W.written out.old) (W.written out.new) output.old output.new
        (unopened_line which)) }
    ensures err { OnErr result (AppendsFront (W.written out.old) (W.written out.new)
        (output.old ++ unopened_line which)) }
    ensures cause { HasCause (W.faults out.old) (W.faults out.new) result }
{
    put_file_fault(output, out, b"stopped: cannot open ", which)
}

/// Holds back the line that tells of which file a read failed.
pub fn put_unread<W: Sink>(output: &mut Output, out: &mut W, which: Which) -> Result<(), Failed>
    ensures ok { OnOk result (Passes (W.written out.old) (W.written out.new) output.old output.new
        (unread_line which)) }
    ensures err { OnErr result (AppendsFront (W.written out.old) (W.written out.new)
        (output.old ++ unread_line which)) }
    ensures cause { HasCause (W.faults out.old) (W.faults out.new) result }
{
    put_file_fault(output, out, b"stopped: read fault in ", which)
}
