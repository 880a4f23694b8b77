//! The items that tokens spell, or the place at which they are refused.
ghost use Rattle.std.specs.Prelude.{◌≡◌, ℕ, ◌≤◌, IfOk, IfErr, map};
ghost use Rattle.qtl_syntax.specs.Tree.{item_of};
ghost use Rattle.qtl_syntax.specs.Grammar.{Spells};
ghost use Rattle.qtl_syntax.specs.Places.{Refusal, IsRefusedAt};
ghost use Rattle.qtl_syntax.specs.Reading.{least_of};
ghost use Rattle.qtl_syntax.specs.KeptPlace.{place_of};
ghost use Rattle.qtl_syntax.specs.Stops.{StepsTo, IsStopped};
ghost use Rattle.qtl_syntax.specs.Answer.{IsRefusedBy};
ghost use Rattle.qtl_syntax.specs.declared.read.ReadEnd.TheVariants.{NoMemory};

use crate::formula::Item;
use crate::place::{Place, beginning, ended, is_low_place, is_too_large_there, next_place};
use crate::token::Token;
use sqlite_items::Items;
use std::alloc::{AllocError, Global};

/// Why tokens spell no specification; a place counts tokens from 0.
#[derive(Clone, Copy, Debug, PartialEq, Eq)]
pub enum ReadEnd {
    Syntax { at: u64 },
    TooDeep { at: u64 },
    BoundTooLarge { at: u64 },
    NoMemory,
}

impl From<AllocError> for ReadEnd {
    ghost from_gives = { λ _ e. e ≡ NoMemory };

    fn from(_error: AllocError) -> ReadEnd {
        ReadEnd::NoMemory
    }
}

/// The place behind the token, which stands at this one.
fn one_more(alloc: Global, place: Place, token: &Token, at: u64) -> Result<Place, ReadEnd>
    requires low { least_of (place_of place) ≤ 256 }
    ensures goes { IfOk result (λ q. StepsTo (place_of place) token.now (place_of q)) }
    ensures refused { IfErr result (λ e. IsStopped (place_of place) token.now at e) }
{
    if is_too_large_there(&place.spot, token) {
        return Err(ReadEnd::BoundTooLarge { at });
    }
    match next_place(alloc, place, token)? {
        Some(next) => {
            if is_low_place(&next) {
                Ok(next)
            } else {
                Err(ReadEnd::TooDeep { at })
            }
        }
        None => Err(ReadEnd::Syntax { at }),
    }
}

/// The items that the tokens spell, no formula being higher than 256.
pub fn read_items(alloc: Global, tokens: &[Token]) -> Result<Items<Item>, ReadEnd>
    ensures spelled { IfOk result (λ items. Spells 256 tokens.now (map item_of items)) }
    ensures clear { IfOk result (λ items. (refusal : Refusal) (at : ℕ) → ¬ IsRefusedAt tokens.now refusal at) }
    ensures refused { IfErr result (λ e. IsRefusedBy tokens.now e) }
{
    let mut place = beginning(alloc);
    for i in 0..tokens.len() {
        place = one_more(alloc, place, &tokens[i], i as u64)?;
    }
    match ended(alloc, place)? {
        Some(items) => Ok(items),
        None => Err(ReadEnd::Syntax {
            at: tokens.len() as u64,
        }),
    }
}
