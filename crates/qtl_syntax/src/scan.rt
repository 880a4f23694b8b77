//! A text cut into its tokens.
ghost use Rattle.std.specs.Prelude.{◌≡◌, ◌≤◌, length, drop, get_or, true, IfOk, IfErr, IfSome};
ghost use Rattle.std.specs.Option.{option_map};
ghost use Rattle.qtl_syntax.specs.Cuts.{Cuts};
ghost use Rattle.qtl_syntax.specs.Scan.{scan as scan_lem, as_word, find_word, signs, find_sign};
ghost use Rattle.qtl_syntax.specs.declared.scan.TokenEnd.TheVariants.{NoMemory};
ghost use Rattle.qtl_syntax.specs.Answer.{IsRefusal};
ghost use Rattle.qtl_syntax.specs.Cuts.{words, is_letter, is_digit};

use crate::fronts::{
    behind_first, digit_count, gap_count, is_digit_byte, is_letter_byte, quote_place, sign_length,
    sign_of, tail_count, word_of,
};
use crate::text::Text;
use crate::token::Token;
use sqlite_items::Items;
use std::alloc::{AllocError, Global};

/// Why a text is not cut into tokens.
#[derive(Clone, Copy, Debug, PartialEq, Eq)]
pub enum TokenEnd {
    /// No token begins at this byte offset, the first such one outside blanks and comments.
    /// An unclosed quote is refused where it opens.
    NotToken { at: u64 },
    NoMemory,
}

impl From<AllocError> for TokenEnd {
    ghost from_gives = { λ _ e. e ≡ NoMemory };

    fn from(_error: AllocError) -> TokenEnd {
        TokenEnd::NoMemory
    }
}

/// A token, and how many bytes spell it.
#[derive(Drop)]
pub struct Front {
    pub token: Token,
    pub length: usize,
}

fn name_or_word(alloc: Global, bytes: &[u8]) -> Result<Token, AllocError>
    ensures { IfOk result (λ t. t ≡ as_word bytes.now (find_word words bytes.now)) }
{
    match word_of(bytes) {
        Some(word) => Ok(Token::Word(word)),
        None => Ok(Token::Name(Text::from_bytes(alloc, bytes)?)),
    }
}

#[tactic(auto, using(crate::proofs::Steps::name_inside, crate::proofs::Steps::name_scan))]
fn name_front(alloc: Global, bytes: &[u8]) -> Result<Option<Front>, AllocError>
    requires some_bytes { 1 ≤ length bytes.now }
    requires letter { is_letter (get_or bytes.now 0 0) ≡ true }
    ensures scan { IfOk result (λ o. option_map (λ f. (f.token, drop f.length bytes.now)) o ≡ scan_lem bytes.now) }
    ensures inside { IfOk result (λ o. IfSome o (λ f. (1 ≤ f.length) × (f.length ≤ length bytes.now))) }
{
    let length = 1 + tail_count(behind_first(bytes, 1));
    let token = name_or_word(alloc, &bytes[..length])?;
    Ok(Some(Front { token, length }))
}

#[tactic(auto, using(crate::proofs::Steps::number_inside, crate::proofs::Steps::number_scan))]
fn number_front(alloc: Global, bytes: &[u8]) -> Result<Option<Front>, AllocError>
    requires some_bytes { 1 ≤ length bytes.now }
    requires digit { is_digit (get_or bytes.now 0 0) ≡ true }
    ensures scan { IfOk result (λ o. option_map (λ f. (f.token, drop f.length bytes.now)) o ≡ scan_lem bytes.now) }
    ensures inside { IfOk result (λ o. IfSome o (λ f. (1 ≤ f.length) × (f.length ≤ length bytes.now))) }
{
    let length = 1 + digit_count(behind_first(bytes, 1));
    let token = Token::Number(Text::from_bytes(alloc, &bytes[..length])?);
    Ok(Some(Front { token, length }))
}

#[tactic(auto, using(crate::proofs::Steps::quoted_scan))]
fn quoted_front(alloc: Global, bytes: &[u8]) -> Result<Option<Front>, AllocError>
    requires some_bytes { 1 ≤ length bytes.now }
    requires quote { get_or bytes.now 0 0 ≡ 34 }
    ensures scan { IfOk result (λ o. option_map (λ f. (f.token, drop f.length bytes.now)) o ≡ scan_lem bytes.now) }
    ensures inside { IfOk result (λ o. IfSome o (λ f. (1 ≤ f.length) × (f.length ≤ length bytes.now))) }
{
    let behind = behind_first(bytes, 1);
    match quote_place(behind) {
        Some(n) => {
            let token = Token::Quoted(Text::from_bytes(alloc, &behind[..n])?);
            Ok(Some(Front {
                token,
                length: n + 2,
            }))
        }
        None => Ok(None),
    }
}

fn sign_front(bytes: &[u8]) -> Option<Front>
    ensures scan { option_map (λ f. (f.token, drop f.length bytes.now)) result ≡ find_sign signs bytes.now }
    ensures inside { IfSome result (λ f. (1 ≤ f.length) × (f.length ≤ length bytes.now)) }
{
    let sign = sign_of(bytes)?;
    Some(Front {
        token: Token::Sign(sign),
        length: sign_length(sign),
    })
}

/// The token at the front of these bytes, of which there is one at least.
#[tactic(auto, using(crate::proofs::Steps::sign_scan))]
fn front_token(alloc: Global, bytes: &[u8]) -> Result<Option<Front>, AllocError>
    requires { 1 ≤ length bytes.now }
    ensures scan { IfOk result (λ o. option_map (λ f. (f.token, drop f.length bytes.now)) o ≡ scan_lem bytes.now) }
    ensures inside { IfOk result (λ o. IfSome o (λ f. (1 ≤ f.length) × (f.length ≤ length bytes.now))) }
{
    let first = bytes[0];
    if is_letter_byte(first) {
        return name_front(alloc, bytes);
    }
    if is_digit_byte(first) {
        return number_front(alloc, bytes);
    }
    if first == b'"' {
        return quoted_front(alloc, bytes);
    }
    Ok(sign_front(bytes))
}

/// The tokens of a text, the longest one at each place; blanks and comments are dropped.
pub fn tokens(alloc: Global, text: &[u8]) -> Result<Items<Token>, TokenEnd>
    ensures cut { IfOk result (λ ts. Cuts text.now ts) }
    ensures refused { IfErr result (λ e. IsRefusal text.now e) }
{
    let mut all = Items::new(alloc);
    let mut rest = text;
    while rest.len() > 0 {
        let here = behind_first(rest, gap_count(rest));
        if here.len() == 0 {
            return Ok(all);
        }
        match front_token(alloc, here)? {
            Some(front) => {
                rest = behind_first(here, front.length);
                all.push(front.token)?;
            }
            None => {
                let at = (text.len() - here.len()) as u64;
                return Err(TokenEnd::NotToken { at });
            }
        }
    }
    Ok(all)
}
