//! The text of a field, from its bytes.
ghost use Rattle.std.specs.Prelude.{◌≡◌, ◌≤◌, ◌<◌, ◌+◌, length, take, drop, reverse, All, IfOk, OnOk, IsSome, Bool, false, slice_index, if◌then◌else◌, ◌==◌};
ghost use Rattle.log_reader.specs.Fields.{drop_blanks, trimmed, quoted, text_of};
ghost use Rattle.log_reader.specs.Places.{place_of, is_inside};
ghost use Rattle.log_reader.specs.Quotes.{begins_with_quote, closes, is_quote as is_quote_lem, quoted_text as quoted_text_lem};

use crate::buffer::bytes_from;
use crate::place::{Place, is_blank};
use qtl_syntax::Text;
use std::alloc::{AllocError, Global};

/// How many blanks stand at the front.
fn blanks_at_front(bytes: &[u8]) -> usize
    ensures within { result ≤ length bytes.now }
    ensures rest { drop result bytes.now ≡ drop_blanks bytes.now }
{
    let mut i = 0;
    while i < bytes.len() && is_blank(bytes[i]) {
        i += 1;
    }
    i
}

/// How many bytes stand before the blanks at the end.
fn before_blanks(bytes: &[u8]) -> usize
    ensures within { result ≤ length bytes.now }
    ensures front { take result bytes.now ≡ reverse (drop_blanks (reverse bytes.now)) }
{
    let mut end = bytes.len();
    while end > 0 && is_blank(bytes[end - 1]) {
        end -= 1;
    }
    end
}

/// The bytes without the blanks at both ends.
fn trim(bytes: &[u8]) -> &[u8]
    ensures { result.now ≡ trimmed bytes.now }
{
    let behind = &bytes[blanks_at_front(bytes)..];
    &behind[..before_blanks(behind)]
}

/// The bytes before a place.
fn bytes_before(bytes: &[u8], end: usize) -> &[u8]
    requires { end ≤ length bytes.now }
    ensures { result.now ≡ take end bytes.now }
{
    &bytes[..end]
}

/// Whether a quote stands at this place.
fn is_quote_at(bytes: &[u8], at: usize) -> bool
    ensures { result ≡ begins_with_quote (drop at bytes.now) }
{
    match bytes.get(at) {
        Some(byte) => *byte == b'"',
        None => false,
    }
}

/// How many bytes stand before the first quote.
fn before_quote(bytes: &[u8]) -> usize
    ensures within { result ≤ length bytes.now }
    ensures before { All (λ b. is_quote_lem b ≡ false) (take result bytes.now) }
    ensures quote { result < length bytes.now → slice_index bytes.now result ≡ 34 }
{
    for (i, byte) in bytes.iter().enumerate() {
        if *byte == b'"' {
            return i;
        }
    }
    bytes.len()
}

/// Whether a quote stands at this place, and no other behind it.
fn is_closing(bytes: &[u8], at: usize) -> bool
    requires { at < length bytes.now }
    ensures { result ≡ closes bytes.now at }
{
    bytes[at] == b'"' && !is_quote_at(bytes, at + 1)
}

/// How many bytes of a quoted text spell this one.
fn spelling(byte: u8) -> usize
    ensures { result ≡ (if byte == 34 then 2 else 1) }
{
    if byte == b'"' { 2 } else { 1 }
}

/// Writes the text that the bytes behind an opening quote spell, in place of what was there.
fn undouble(text: &mut Vec<u8>, bytes: &[u8]) -> Result<(), AllocError>
    requires { IsSome (quoted bytes.now) }
    ensures { OnOk result (text.new.items ≡ quoted_text_lem (quoted bytes.now)) }
{
    text.clear();
    let mut i = 0;
    while i < bytes.len() {
        if is_closing(bytes, i) {
            return Ok(());
        }
        text.push(bytes[i])?;
        i += spelling(bytes[i]);
    }
    Ok(())
}

/// The text that the bytes behind an opening quote spell. Where no quote is doubled it stands there as it is.
fn quoted_text(alloc: Global, scratch: &mut Vec<u8>, bytes: &[u8]) -> Result<Text, AllocError>
    requires { IsSome (quoted bytes.now) }
    ensures { IfOk result (λ t. t ≡ quoted_text_lem (quoted bytes.now)) }
{
    let end = before_quote(bytes);
    if !is_quote_at(bytes, end + 1) {
        return Text::from_bytes(alloc, bytes_before(bytes, end));
    }
    undouble(scratch, bytes)?;
    Text::from_bytes(alloc, scratch.as_slice())
}

/// The text of a field with these bytes, behind which a byte has this place. Its quotes, if it has some, are closed.
pub fn field_text(
    alloc: Global,
    scratch: &mut Vec<u8>,
    place: Place,
    bytes: &[u8],
) -> Result<Text, AllocError>
    requires place { place_of bytes.now ≡ place }
    requires closed { is_inside place ≡ false }
    ensures { IfOk result (λ t. t ≡ text_of bytes.now) }
{
    match place {
        Place::AtQuote | Place::Behind => {
            let front = blanks_at_front(bytes);
            quoted_text(alloc, scratch, bytes_from(bytes, front + 1))
        }
        Place::Before | Place::Plain | Place::Inside => Text::from_bytes(alloc, trim(bytes)),
    }
}
