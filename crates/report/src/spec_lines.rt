//! The last lines of a run whose specification is refused.
ghost use Rattle.std.specs.Prelude.{◌++◌, OnOk, OnErr};
ghost use Rattle.mon_base.specs.Causes.{HasCause};
ghost use Rattle.mon_base.specs.Told.{AppendsFront};
ghost use Rattle.report.specs.LastLines.{at_node, fault_line, in_item, long_spec_line, name_line};
ghost use Rattle.report.specs.Passing.{Passes};

use crate::line::put_numbered;
use crate::output::Output;
use itoa::Buffer;
use mon_base::{Failed, Sink};
use qtl_syntax::SpecFault;
use wellformed::NameFault;

/// Holds back the line that tells that the specification has too many bytes.
pub fn put_long_spec<W: Sink>(output: &mut Output, out: &mut W) -> Result<(), Failed>
    ensures ok { OnOk result (Passes (W.written out.old) (W.written out.new) output.old output.new
        long_spec_line) }
    ensures err { OnErr result (AppendsFront (W.written out.old) (W.written out.new)
        (output.old ++ long_spec_line)) }
    ensures cause { HasCause (W.faults out.old) (W.faults out.new) result }
{
    output.put(out, b"stopped: specification longer than 1048576 bytes\n")
}

/// Holds back the line that tells why a specification is refused, and where.
pub fn put_spec_fault<W: Sink>(
    output: &mut Output,
    out: &mut W,
    fault: SpecFault,
) -> Result<(), Failed>
    ensures ok { OnOk result (Passes (W.written out.old) (W.written out.new) output.old output.new
        (fault_line fault)) }
    ensures err { OnErr result (AppendsFront (W.written out.old) (W.written out.new)
        (output.old ++ fault_line fault)) }
    ensures cause { HasCause (W.faults out.old) (W.faults out.new) result }
{
    match fault {
        SpecFault::NotToken { at } => {
            put_numbered(output, out, b"stopped: no token at byte ", at, b"\n")
        }
        SpecFault::Syntax { at } => {
            put_numbered(output, out, b"stopped: syntax at token ", at, b"\n")
        }
        SpecFault::TooDeep { at } => {
            put_numbered(output, out, b"stopped: too deep at token ", at, b"\n")
        }
        SpecFault::BoundTooLarge { at } => {
            put_numbered(
                output,
                out,
                b"stopped: bound too large at token ",
                at,
                b"\n",
            )
        }
        SpecFault::NoMemory => output.put(out, b""),
    }
}

/// Holds back the line of a fault in an item.
fn put_in_item<W: Sink>(
    output: &mut Output,
    out: &mut W,
    head: &[u8],
    item: u32,
) -> Result<(), Failed>
    ensures ok { OnOk result (Passes (W.written out.old) (W.written out.new) output.old output.new
        (in_item head.now item)) }
    ensures err { OnErr result (AppendsFront (W.written out.old) (W.written out.new)
        (output.old ++ in_item head.now item)) }
    ensures cause { HasCause (W.faults out.old) (W.faults out.new) result }
{
    let mut buffer = Buffer::new();
    let number = buffer.format(item).as_bytes();
    let parts = [head, b" in item ".as_slice(), number, b"\n"];
    output.put_parts(out, &parts)
}

/// Holds back the line of a fault at a node of an item.
fn put_at_node<W: Sink>(
    output: &mut Output,
    out: &mut W,
    head: &[u8],
    item: u32,
    node: u32,
) -> Result<(), Failed>
    ensures ok { OnOk result (Passes (W.written out.old) (W.written out.new) output.old output.new
        (at_node head.now item node)) }
    ensures err { OnErr result (AppendsFront (W.written out.old) (W.written out.new)
        (output.old ++ at_node head.now item node)) }
    ensures cause { HasCause (W.faults out.old) (W.faults out.new) result }
{
    let mut first = Buffer::new();
    let mut second = Buffer::new();
    let item = first.format(item).as_bytes();
    let node = second.format(node).as_bytes();
    let parts = [
        head,
        b" in item ".as_slice(),
        item,
        b" at node ",
        node,
        b"\n",
    ];
    output.put_parts(out, &parts)
}

/// Holds back the line that tells why a specification is refused by its names, and where.
pub fn put_name_fault<W: Sink>(
    output: &mut Output,
    out: &mut W,
    fault: NameFault,
) -> Result<(), Failed>
    ensures ok { OnOk result (Passes (W.written out.old) (W.written out.new) output.old output.new
        (name_line fault)) }
    ensures err { OnErr result (AppendsFront (W.written out.old) (W.written out.new)
        (output.old ++ name_line fault)) }
    ensures cause { HasCause (W.faults out.old) (W.faults out.new) result }
{
    match fault {
        NameFault::DuplicateName { item } => {
            put_in_item(output, out, b"stopped: duplicate name", item)
        }
        NameFault::LateMacro { item, node } => {
            put_at_node(output, out, b"stopped: late macro", item, node)
        }
        NameFault::MacroArity { item, node } => put_at_node(
            output,
            out,
            b"stopped: wrong number of macro terms",
            item,
            node,
        ),
        NameFault::ArityClash { item, node } => {
            put_at_node(output, out, b"stopped: clash of arities", item, node)
        }
        NameFault::FreeVariable { item, node } => {
            put_at_node(output, out, b"stopped: free variable", item, node)
        }
        NameFault::NoProperty => output.put(out, b"stopped: no property\n"),
        NameFault::TooManySubformulas { found } => put_numbered(
            output,
            out,
            b"stopped: too many subformulas, ",
            found as u64,
            b"\n",
        ),
        NameFault::TooManyVariables { found } => put_numbered(
            output,
            out,
            b"stopped: too many variables, ",
            found as u64,
            b"\n",
        ),
        NameFault::NoMemory => output.put(out, b""),
    }
}
