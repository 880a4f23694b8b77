//! Texts in quotes.
ghost use Rattle.std.specs.Prelude.{◌≡◌, ◌<◌, ◌≢◌, ◌↔◌, [], ◌∷◌, ◌++◌, IsTrue, OnOk, OnErr, codes};
ghost use Rattle.std.specs.List.{flat_map};
ghost use Rattle.mon_base.specs.Causes.{HasCause};
ghost use Rattle.mon_base.specs.Told.{AppendsFront};
ghost use Rattle.report.specs.Lines.{hex_digit, quoted_byte};
ghost use Rattle.report.specs.Passing.{Passes};

use crate::output::Output;
use mon_base::{Failed, Sink};

/// Whether a byte stands in quotes as it is.
fn is_plain(byte: u8) -> bool
    ensures { IsTrue result ↔ (quoted_byte byte ≡ byte ∷ []) }
{
    32 <= byte && byte != 127 && byte != b'"' && byte != b'\\'
}

/// A digit from 0 to f.
fn hex_digit(n: u8) -> u8
    requires { n < 16 }
    ensures { result ≡ hex_digit n }
{
    if n < 10 { b'0' + n } else { b'a' + (n - 10) }
}

/// Holds back plain bytes, and behind them a byte that does not stand in quotes as it is.
fn put_run<W: Sink>(output: &mut Output, out: &mut W, plain: &[u8], byte: u8) -> Result<(), Failed>
    requires { quoted_byte byte ≢ byte ∷ [] }
    ensures ok { OnOk result (Passes (W.written out.old) (W.written out.new) output.old output.new
        (plain.now ++ quoted_byte byte)) }
    ensures err { OnErr result (AppendsFront (W.written out.old) (W.written out.new)
        (output.old ++ (plain.now ++ quoted_byte byte))) }
    ensures cause { HasCause (W.faults out.old) (W.faults out.new) result }
{
    if byte == b'"' || byte == b'\\' {
        let marked = [b'\\', byte];
        return output.put_parts(out, &[plain, marked.as_slice()]);
    }
    let digits = [hex_digit(byte / 16), hex_digit(byte % 16)];
    output.put_parts(out, &[plain, b"\\x", digits.as_slice()])
}

/// Holds back the bytes of a text as they stand in quotes.
fn put_inside<W: Sink>(output: &mut Output, out: &mut W, text: &[u8]) -> Result<(), Failed>
    ensures ok { OnOk result (Passes (W.written out.old) (W.written out.new) output.old output.new
        (flat_map quoted_byte text.now)) }
    ensures err { OnErr result (AppendsFront (W.written out.old) (W.written out.new)
        (output.old ++ flat_map quoted_byte text.now)) }
    ensures cause { HasCause (W.faults out.old) (W.faults out.new) result }
{
    let mut from = 0;
    for (at, byte) in text.iter().enumerate() {
        if !is_plain(*byte) {
            put_run(output, out, &text[from..at], *byte)?;
            from = at + 1;
        }
    }
    output.put(out, &text[from..])
}

/// Holds back a text in quotes.
pub fn put_quoted<W: Sink>(output: &mut Output, out: &mut W, text: &[u8]) -> Result<(), Failed>
    ensures ok { OnOk result (Passes (W.written out.old) (W.written out.new) output.old output.new
        (codes "\"" ++ (flat_map quoted_byte text.now ++ codes "\""))) }
    ensures err { OnErr result (AppendsFront (W.written out.old) (W.written out.new)
        (output.old ++ (codes "\"" ++ (flat_map quoted_byte text.now ++ codes "\"")))) }
    ensures cause { HasCause (W.faults out.old) (W.faults out.new) result }
{
    output.put(out, b"\"")?;
    put_inside(output, out, text)?;
    output.put(out, b"\"")
}
