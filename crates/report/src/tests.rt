//! Lines against their bytes, and how they pass the buffer.
use crate::{
    Output, Shown, Value, Which, put_codes_full, put_end, put_holds, put_log_fault, put_long_log,
    put_long_spec, put_name_fault, put_nodes_full, put_spec_fault, put_unopened, put_unread,
    put_usage, put_violation,
};
use log_reader::LogFault;
use mon_base::{Failed, MemSink, NoMemory};
use qtl_syntax::{SpecFault, Text};
use std::alloc::Global;
use std::test::Fail;
use wellformed::NameFault;

/// A line of a report.
#[derive(Clone, Copy)]
enum Line {
    Violation(u64, &'static str),
    Holds(u64, &'static str),
    End(u64, u64),
    Usage,
    Unopened(Which),
    Unread(Which),
    LongSpec,
    Spec(SpecFault),
    Names(NameFault),
    LongLog(u64),
    Log(LogFault),
    Codes(u64, u32, u32, &'static str),
    Nodes(u64, u32, u32),
}

/// Holds back this line by its own call.
fn put_any(
    alloc: Global,
    output: &mut Output,
    out: &mut MemSink,
    line: Line,
) -> Result<Result<(), Failed>, NoMemory> {
    Ok(match line {
        Line::Violation(event, name) => {
            let name = Text::from_bytes(alloc, name.as_bytes())?;
            put_violation(output, out, event, &name, &[])
        }
        Line::Holds(event, name) => {
            let name = Text::from_bytes(alloc, name.as_bytes())?;
            put_holds(output, out, event, &name)
        }
        Line::End(events, violations) => put_end(output, out, events, violations),
        Line::Usage => put_usage(output, out),
        Line::Unopened(which) => put_unopened(output, out, which),
        Line::Unread(which) => put_unread(output, out, which),
        Line::LongSpec => put_long_spec(output, out),
        Line::Spec(fault) => put_spec_fault(output, out, fault),
        Line::Names(fault) => put_name_fault(output, out, fault),
        Line::LongLog(limit) => put_long_log(output, out, limit),
        Line::Log(fault) => put_log_fault(output, out, fault),
        Line::Codes(event, variable, need, name) => {
            put_codes_full(output, out, event, variable, need, name.as_bytes())
        }
        Line::Nodes(event, subformula, row) => put_nodes_full(output, out, event, subformula, row),
    })
}

#[rattlefmt::skip]
const LINES: &[(Line, &str)] = &[
    (Line::Violation(6, "closed"), "violation 6 closed\n"),
    (Line::Holds(1, "opened"), "holds 1 opened\n"),
    (Line::Holds(18_446_744_073_709_551_615, "p"), "holds 18446744073709551615 p\n"),
    (Line::End(11, 2), "events 11 violations 2\n"),
    (Line::End(0, 0), "events 0 violations 0\n"),
    (Line::End(18_446_744_073_709_551_615, 4_096), "events 18446744073709551615 violations 4096\n"),
    (
        Line::Usage,
        "stopped: usage: dejavu [--bits B] [--nodes N] [--cache C] [--limit L] [--all] \
[--listen NAMES] [--sample SEED,EVENTS] SPEC [LOG]\n",
    ),
    (Line::Unopened(Which::Spec), "stopped: cannot open the specification\n"),
    (Line::Unopened(Which::Log), "stopped: cannot open the log\n"),
    (Line::Unread(Which::Spec), "stopped: read fault in the specification\n"),
    (Line::Unread(Which::Log), "stopped: read fault in the log\n"),
    (Line::LongSpec, "stopped: specification longer than 1048576 bytes\n"),
    (Line::Spec(SpecFault::NotToken { at: 9 }), "stopped: no token at byte 9\n"),
    (Line::Spec(SpecFault::Syntax { at: 3 }), "stopped: syntax at token 3\n"),
    (Line::Spec(SpecFault::TooDeep { at: 258 }), "stopped: too deep at token 258\n"),
    (Line::Spec(SpecFault::BoundTooLarge { at: 6 }), "stopped: bound too large at token 6\n"),
    (Line::Spec(SpecFault::NoMemory), ""),
    (Line::Names(NameFault::DuplicateName { item: 1 }), "stopped: duplicate name in item 1\n"),
    (Line::Names(NameFault::LateMacro { item: 0, node: 2 }), "stopped: late macro in item 0 at node 2\n"),
    (Line::Names(NameFault::MacroArity { item: 1, node: 5 }), "stopped: wrong number of macro terms in item 1 at node 5\n"),
    (Line::Names(NameFault::ArityClash { item: 3, node: 4 }), "stopped: clash of arities in item 3 at node 4\n"),
    (Line::Names(NameFault::FreeVariable { item: 2, node: 0 }), "stopped: free variable in item 2 at node 0\n"),
    (Line::Names(NameFault::NoProperty), "stopped: no property\n"),
    (Line::Names(NameFault::TooManySubformulas { found: 6_143 }), "stopped: too many subformulas, 6143\n"),
    (Line::Names(NameFault::TooManyVariables { found: 65 }), "stopped: too many variables, 65\n"),
    (Line::Names(NameFault::NoMemory), ""),
    (Line::LongLog(281_474_976_710_656), "stopped: log longer than 281474976710656 bytes\n"),
    (Line::Log(LogFault::QuoteOpen { number: 2 }), "stopped: quote not closed at record 2\n"),
    (Line::Log(LogFault::AfterQuote { number: 1 }), "stopped: text after quote at record 1\n"),
    (Line::Log(LogFault::RecordTooLong { number: 7 }), "stopped: record too long at record 7\n"),
    (Line::Log(LogFault::TooManyFields { number: 10 }), "stopped: too many fields at record 10\n"),
    (Line::Log(LogFault::EmptyName { number: 3 }), "stopped: empty name at record 3\n"),
    (Line::Log(LogFault::BadTime { number: 4 }), "stopped: bad time at record 4\n"),
    (Line::Log(LogFault::TimeBack { number: 5, before: 9, now: 8 }), "stopped: time falls from 9 to 8 at record 5\n"),
    (Line::Log(LogFault::NoMemory), ""),
    (Line::Codes(12, 0, 256, "u"), "stopped: codes full at event 12, variable 0 (u), need 256\n"),
    (Line::Nodes(3, 14, 1), "stopped: nodes full at event 3, subformula 14, row 1\n"),
];

#[test]
fn each_line_has_its_bytes(rt: HostRuntime) -> Result<(), Fail> {
    let alloc = rt.alloc();
    let mut output = Output::open(alloc)?;
    for (line, wanted) in LINES {
        let mut out = MemSink::open(alloc, 1_000)?;
        assert_eq!(rt;
            put_any(alloc, &mut output, &mut out, *line)?,
            Ok(()),
            "{wanted}"
        );
        assert_eq!(rt; out.bytes(), b"".as_slice(), "{wanted}");
        assert_eq!(rt; output.flush(&mut out), Ok(()), "{wanted}");
        assert_eq!(rt; out.bytes(), wanted.as_bytes());
    }
    Ok(())
}

/// A variable's name, with the text that is shown for it, or none for any text.
type Row = (&'static str, Option<&'static [u8]>);

/// What a witness shows, and the line that tells it.
#[rattlefmt::skip]
const WITNESSES: &[(&[Row], &[u8])] = &[
    (&[], b"violation 6 access\n"),
    (&[("user", Some(b"ann"))], b"violation 6 access user=\"ann\"\n"),
    (&[("user", None)], b"violation 6 access user=*\n"),
    (&[("user", Some(b"ann")), ("file", None)], b"violation 6 access user=\"ann\" file=*\n"),
    (&[("f", None), ("u", Some(b"*"))], b"violation 6 access f=* u=\"*\"\n"),
    (&[("x", Some(b""))], b"violation 6 access x=\"\"\n"),
    (&[("x", Some(b"a b=c"))], b"violation 6 access x=\"a b=c\"\n"),
    (&[("x", Some(b"a\"b"))], b"violation 6 access x=\"a\\\"b\"\n"),
    (&[("x", Some(b"\\"))], b"violation 6 access x=\"\\\\\"\n"),
    (&[("x", Some(b"\"\\\""))], b"violation 6 access x=\"\\\"\\\\\\\"\"\n"),
    (&[("x", Some(b"tab\t"))], b"violation 6 access x=\"tab\\x09\"\n"),
    (&[("x", Some(b"\nline"))], b"violation 6 access x=\"\\x0aline\"\n"),
    (&[("x", Some(b"\x00\x1f \x7e"))], b"violation 6 access x=\"\\x00\\x1f ~\"\n"),
    (&[("x", Some(b"\x7f"))], b"violation 6 access x=\"\\x7f\"\n"),
    (&[("x", Some(b"\x80\xc8\xff"))], b"violation 6 access x=\"\x80\xc8\xff\"\n"),
];

/// What a witness of these rows shows.
fn witness_of(alloc: Global, rows: &[Row]) -> Result<Vec<Shown>, NoMemory> {
    let mut witness = Vec::new(alloc);
    for (name, text) in rows {
        let name = Text::from_bytes(alloc, name.as_bytes())?;
        let value = match text {
            Some(text) => Value::Known(Text::from_bytes(alloc, text)?),
            None => Value::Any,
        };
        witness.push(Shown { name, value })?;
    }
    Ok(witness)
}

#[test]
fn each_witness_has_its_bytes(rt: HostRuntime) -> Result<(), Fail> {
    let alloc = rt.alloc();
    let name = Text::from_bytes(alloc, b"access")?;
    let mut output = Output::open(alloc)?;
    for (rows, wanted) in WITNESSES {
        let witness = witness_of(alloc, rows)?;
        let mut out = MemSink::open(alloc, 1_000)?;
        assert_eq!(rt;
            put_violation(&mut output, &mut out, 6, &name, witness.as_slice()),
            Ok(())
        );
        assert_eq!(rt; output.flush(&mut out), Ok(()));
        assert_eq!(rt; out.bytes(), *wanted);
    }
    Ok(())
}

/// How long the name of a property is, how long the text that is shown for a variable, and how many
/// lines with them there are.
#[derive(Clone, Copy)]
struct Lengths {
    name: usize,
    text: usize,
    lines: u64,
}

/// Short lines that are more together than the buffer holds, lines that just fit, lines that do
/// not, by their name or by their text, and several of these.
#[rattlefmt::skip]
const LENGTHS: &[Lengths] = &[
    Lengths { name: 5, text: 0, lines: 6_000 },
    Lengths { name: 65_518, text: 0, lines: 1 },
    Lengths { name: 65_519, text: 0, lines: 1 },
    Lengths { name: 70_000, text: 0, lines: 3 },
    Lengths { name: 40_000, text: 0, lines: 4 },
    Lengths { name: 5, text: 65_448, lines: 1 },
    Lengths { name: 5, text: 65_449, lines: 1 },
    Lengths { name: 5, text: 70_000, lines: 3 },
    Lengths { name: 5, text: 40_000, lines: 4 },
    Lengths { name: 30_000, text: 140_000, lines: 1 },
];

/// A name, a text, and the bytes of the lines that have them, at the events from 0 on.
#[derive(Drop)]
struct Long {
    name: Text,
    witness: Vec<Shown>,
    lines: Vec<u8>,
}

/// A text of so many bytes, with these in place of each thousandth.
fn long_text(alloc: Global, length: usize, thousandth: &[u8]) -> Result<Vec<u8>, NoMemory> {
    let mut text = Vec::new(alloc);
    for at in 0..length {
        let part = if at % 1_000 == 999 { thousandth } else { b"t" };
        text.extend_from_slice(part)?;
    }
    Ok(text)
}

/// The bytes of the lines of these events, each with this name and with this text between quotes.
fn lines_of(alloc: Global, events: u64, name: &[u8], inside: &[u8]) -> Result<Vec<u8>, Fail> {
    let mut lines = Vec::new(alloc);
    for event in 0..events {
        let head = format!(in alloc; "violation {event} ")?;
        lines.extend_from_slice(head.as_bytes())?;
        lines.extend_from_slice(name)?;
        lines.extend_from_slice(b" x=\"")?;
        lines.extend_from_slice(inside)?;
        lines.extend_from_slice(b"\"\n")?;
    }
    Ok(lines)
}

/// What has these lengths. Each thousandth byte of the text is a quote.
fn long_lines(alloc: Global, lengths: Lengths) -> Result<Long, Fail> {
    let name = long_text(alloc, lengths.name, b"n")?;
    let text = long_text(alloc, lengths.text, b"\"")?;
    let inside = long_text(alloc, lengths.text, b"\\\"")?;
    let mut witness = Vec::new(alloc);
    witness.push(Shown {
        name: Text::from_bytes(alloc, b"x")?,
        value: Value::Known(Text::from_bytes(alloc, text.as_slice())?),
    })?;
    Ok(Long {
        name: Text::from_bytes(alloc, name.as_slice())?,
        witness,
        lines: lines_of(alloc, lengths.lines, name.as_slice(), inside.as_slice())?,
    })
}

/// Puts the lines of these events, up to the first write that fails.
fn put_lines(
    output: &mut Output,
    out: &mut MemSink,
    count: u64,
    long: &Long,
) -> Result<(), Failed> {
    for event in 0..count {
        put_violation(output, out, event, &long.name, long.witness.as_slice())?;
    }
    output.flush(out)
}

#[test]
fn long_lines_and_many_pass_in_order(rt: HostRuntime) -> Result<(), Fail> {
    let alloc = rt.alloc();
    for lengths in LENGTHS {
        let long = long_lines(alloc, *lengths)?;
        let mut output = Output::open(alloc)?;
        let mut out = MemSink::open(alloc, 300_000)?;
        assert_eq!(rt;
            put_lines(&mut output, &mut out, lengths.lines, &long),
            Ok(())
        );
        assert!(rt;
            out.bytes() == long.lines.as_slice(),
            "{} lines with a name of {} bytes and a text of {}",
            lengths.lines,
            lengths.name,
            lengths.text
        );
    }
    Ok(())
}

#[test]
fn a_full_sink_keeps_a_front_and_fails(rt: HostRuntime) -> Result<(), Fail> {
    let alloc = rt.alloc();
    for lengths in LENGTHS {
        let long = long_lines(alloc, *lengths)?;
        for room in [0usize, 1, 12, 65_535] {
            let mut output = Output::open(alloc)?;
            let mut out = MemSink::open(alloc, room)?;
            assert_eq!(rt;
                put_lines(&mut output, &mut out, lengths.lines, &long),
                Err(Failed)
            );
            assert_eq!(rt;
                out.bytes().len(),
                room,
                "{}, {}",
                lengths.name,
                lengths.text
            );
            assert!(rt;
                long.lines.as_slice().starts_with(out.bytes()),
                "{}, {}, {room}",
                lengths.name,
                lengths.text
            );
        }
    }
    Ok(())
}
