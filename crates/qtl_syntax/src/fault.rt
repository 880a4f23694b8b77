//! A specification from its text, or the one place where the text is refused.
ghost use Rattle.std.specs.Prelude.{◌≡◌, ℕ, List, IfOk, IfErr};
ghost use Rattle.qtl_syntax.specs.Tree.{Item as TheItem, items_of};
ghost use Rattle.qtl_syntax.specs.Places.{Refusal};
ghost use Rattle.qtl_syntax.specs.Faults.{SpellsText, SpellsWithin, RuleHolds, IsFault, fault_of_tokens, fault_of_items};

use crate::read::{ReadEnd, read_items};
use crate::scan::{TokenEnd, tokens};
use crate::spec::Spec;
use std::alloc::Global;

/// Why a text is no specification within the limits. Byte offsets and tokens count from 0.
#[derive(Clone, Copy, Debug, PartialEq, Eq)]
pub enum SpecFault {
    /// No token begins at this byte offset, the first such one outside blanks and comments. It comes
    /// before each other fault.
    NotToken { at: u64 },
    /// No specification goes on with this token; where the tokens end too early, their number.
    Syntax { at: u64 },
    /// With this token each completion is higher than 256.
    TooDeep { at: u64 },
    /// This token is the number of a bound and above 1,048,574.
    BoundTooLarge { at: u64 },
    NoMemory,
}

impl From<TokenEnd> for SpecFault {
    ghost from_gives = { λ end e. e ≡ fault_of_tokens end };

    fn from(end: TokenEnd) -> SpecFault {
        match end {
            TokenEnd::NotToken { at } => SpecFault::NotToken { at },
            TokenEnd::NoMemory => SpecFault::NoMemory,
        }
    }
}

impl From<ReadEnd> for SpecFault {
    ghost from_gives = { λ end e. e ≡ fault_of_items end };

    fn from(end: ReadEnd) -> SpecFault {
        match end {
            ReadEnd::Syntax { at } => SpecFault::Syntax { at },
            ReadEnd::TooDeep { at } => SpecFault::TooDeep { at },
            ReadEnd::BoundTooLarge { at } => SpecFault::BoundTooLarge { at },
            ReadEnd::NoMemory => SpecFault::NoMemory,
        }
    }
}

/// The specification that the text spells, no formula being higher than 256 and no bound above
/// 1,048,574. Parentheses count for the height.
pub fn parse(alloc: Global, text: &[u8]) -> Result<Spec, SpecFault>
    ensures ok { IfOk result (λ spec. SpellsWithin text.now (items_of spec)) }
    ensures only { IfOk result (λ spec. (height : ℕ) (items : List TheItem) → SpellsText height text.now items → items ≡ items_of spec) }
    ensures clear { IfOk result (λ _. (refusal : Refusal) (at : ℕ) → ¬ RuleHolds text.now refusal at) }
    ensures refused { IfErr result (λ fault. IsFault text.now fault) }
{
    let tokens = tokens(alloc, text)?;
    let items = read_items(alloc, tokens.as_slice())?;
    Ok(Spec { items })
}
