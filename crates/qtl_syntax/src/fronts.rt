//! How far a token, or what separates tokens, reaches at the front of some bytes.
ghost use Rattle.std.specs.Prelude.{◌≡◌, ◌+◌, ◌≤◌, ◌<◌, length, take, drop, Some, None, IfSome, IfNone, nat_eq, false, ◌||◌};
ghost use Rattle.std.specs.Option.{option_map};
ghost use Rattle.qtl_syntax.specs.Cuts.{is_blank, is_digit, is_letter, past_gap, words, sign_text};
ghost use Rattle.qtl_syntax.specs.Scan.{is_tail, front_of, to_quote, find_word, signs, find_sign};
ghost use Rattle.qtl_syntax.specs.declared.token.Token.TheVariants as token;

use crate::token::{Sign, Word};

/// The bytes behind the first n.
pub fn behind_first(bytes: &[u8], n: usize) -> &[u8]
    requires { n ≤ length bytes.now }
    ensures { result.now ≡ drop n bytes.now }
{
    &bytes[n..]
}

/// A to Z, a to z or _.
pub fn is_letter_byte(b: u8) -> bool
    ensures { result ≡ is_letter b }
{
    (b'A' <= b && b <= b'Z') || (b'a' <= b && b <= b'z') || b == b'_'
}

/// 0 to 9.
pub fn is_digit_byte(b: u8) -> bool
    ensures { result ≡ is_digit b }
{
    b'0' <= b && b <= b'9'
}

fn is_tail_byte(b: u8) -> bool
    ensures { result ≡ is_tail b }
{
    is_letter_byte(b) || is_digit_byte(b)
}

fn is_blank_byte(b: u8) -> bool
    ensures { result ≡ is_blank b }
{
    b == b' ' || b == b'\t' || b == b'\r' || b == b'\n'
}

/// How many letters, digits and _ stand at the front.
pub fn tail_count(bytes: &[u8]) -> usize
    ensures { result ≡ length (front_of is_tail bytes.now) }
{
    for i in 0..bytes.len() {
        if !is_tail_byte(bytes[i]) {
            return i;
        }
    }
    bytes.len()
}

/// How many digits stand at the front.
pub fn digit_count(bytes: &[u8]) -> usize
    ensures { result ≡ length (front_of is_digit bytes.now) }
{
    for i in 0..bytes.len() {
        if !is_digit_byte(bytes[i]) {
            return i;
        }
    }
    bytes.len()
}

/// Where the quote is that closes a quoted text on this line.
pub fn quote_place(bytes: &[u8]) -> Option<usize>
    ensures found { option_map (λ n. (take n bytes.now, drop (n + 1) bytes.now)) result ≡ to_quote bytes.now }
    ensures inside { IfSome result (λ n. n < length bytes.now) }
{
    for i in 0..bytes.len() {
        if bytes[i] == b'"' {
            return Some(i);
        }
        if bytes[i] == b'\n' {
            return None;
        }
    }
    None
}

/// Behind the first byte: whether a comment is open, or none where the byte is no blank and in no comment.
fn gap_step(in_comment: bool, bytes: &[u8]) -> Option<bool>
    requires { 0 < length bytes.now }
    ensures goes_on { IfSome result (λ s. past_gap in_comment bytes.now ≡ past_gap s (drop 1 bytes.now)) }
    ensures ends { IfNone result (past_gap in_comment bytes.now ≡ bytes.now) }
{
    if in_comment {
        return Some(bytes[0] != b'\n');
    }
    if is_blank_byte(bytes[0]) {
        return Some(false);
    }
    if bytes.len() > 1 && bytes[0] == b'/' && bytes[1] == b'/' {
        return Some(true);
    }
    None
}

/// How many bytes of blanks and comments stand at the front.
pub fn gap_count(bytes: &[u8]) -> usize
    ensures behind { drop result bytes.now ≡ past_gap false bytes.now }
    ensures inside { result ≤ length bytes.now }
{
    let mut in_comment = false;
    for i in 0..bytes.len() {
        match gap_step(in_comment, behind_first(bytes, i)) {
            Some(after) => in_comment = after,
            None => return i,
        }
    }
    bytes.len()
}

/// The word that these bytes are.
pub fn word_of(bytes: &[u8]) -> Option<Word>
    ensures { result ≡ find_word words bytes.now }
{
    match bytes {
        b"prop" => Some(Word::Prop),
        b"pred" => Some(Word::Pred),
        b"exists" => Some(Word::Exists),
        b"forall" => Some(Word::Forall),
        b"true" => Some(Word::True),
        b"false" => Some(Word::False),
        b"S" => Some(Word::Since),
        b"P" => Some(Word::Once),
        b"H" => Some(Word::Always),
        _ => None,
    }
}

/// The sign at the front.
pub fn sign_of(bytes: &[u8]) -> Option<Sign>
    ensures { option_map (λ s. (token.Sign s, drop (length (sign_text s)) bytes.now)) result ≡ find_sign signs bytes.now }
{
    match bytes {
        [b'(', ..] => Some(Sign::LeftParen),
        [b')', ..] => Some(Sign::RightParen),
        [b'[', ..] => Some(Sign::LeftBracket),
        [b']', ..] => Some(Sign::RightBracket),
        [b',', ..] => Some(Sign::Comma),
        [b'.', ..] => Some(Sign::Dot),
        [b':', ..] => Some(Sign::Colon),
        [b'=', ..] => Some(Sign::Equals),
        [b'!', ..] => Some(Sign::Not),
        [b'&', ..] => Some(Sign::And),
        [b'|', ..] => Some(Sign::Or),
        [b'-', b'>', ..] => Some(Sign::Implies),
        [b'<', b'-', b'>', ..] => Some(Sign::Iff),
        [b'@', ..] => Some(Sign::Prev),
        [b'<', b'=', ..] => Some(Sign::AtMost),
        [b'>', ..] => Some(Sign::MoreThan),
        _ => None,
    }
}

/// How many bytes the sign has.
pub fn sign_length(sign: Sign) -> usize
    ensures { result ≡ length (sign_text sign) }
{
    match sign {
        Sign::Iff => 3,
        Sign::Implies => 2,
        Sign::AtMost => 2,
        _ => 1,
    }
}
