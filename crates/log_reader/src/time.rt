//! The time of a record, from the text of its last field.
ghost use Rattle.std.specs.Prelude.{◌≡◌, ℕ, [], ◌∷◌};
ghost use Rattle.qtl_syntax.specs.Tree as tree;
ghost use Rattle.log_reader.specs.Records.{decimal_from, if_time, time_of as time_of_lem, split_last, at_time, timed_event};

use qtl_syntax::Text;
use sqlite_items::Items;

/// The number with a digit more, if the byte is one and 64 bits are enough.
fn with_digit(number: u64, byte: u8) -> Option<u64>
    ensures { result ≡ if_time (decimal_from number (byte ∷ [])) }
{
    if !byte.is_ascii_digit() {
        return None;
    }
    number.checked_mul(10)?.checked_add(u64::from(byte - b'0'))
}

/// The time that these bytes spell: one or more digits whose value has 64 bits.
fn time_of(text: &[u8]) -> Option<u64>
    ensures { result ≡ time_of_lem text.now }
{
    if text.is_empty() {
        return None;
    }
    let mut time = 0;
    for byte in text {
        time = with_digit(time, *byte)?;
    }
    Some(time)
}

/// Takes the last text away, if there is one, and gives the time that it spells.
pub fn pop_time(args: &mut Items<Text>) -> Option<u64>
    ensures { (name : tree.Text) (before : ℕ) → timed_event before name (split_last args.old) ≡ at_time before name args.new result }
{
    let text = args.pop()?;
    time_of(text.bytes())
}
