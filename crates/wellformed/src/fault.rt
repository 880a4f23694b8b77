//! Why a specification is refused by its names.
ghost use Rattle.std.specs.Prelude.{◌≡◌};
ghost use Rattle.wellformed.specs.declared.fault.NameFault.TheVariants.{NoMemory};

use std::alloc::AllocError;
use thiserror::Error;

/// Why a specification is refused by its names. Items count from 0 in order of the text. The nodes of an item's formula
/// count from 0, a parent before its children, the left child first.
#[derive(Clone, Copy, Debug, PartialEq, Eq, Error)]
pub enum NameFault {
    /// A macro with the name of an earlier macro or with a repeated parameter, or a property with the name of an earlier one.
    #[error("duplicate name in item {item}")]
    DuplicateName { item: u32 },
    /// An atom with the name of a macro of its own or a later item.
    #[error("late macro in item {item} at node {node}")]
    LateMacro { item: u32, node: u32 },
    /// A call with another number of terms than its macro has parameters.
    #[error("wrong number of macro terms in item {item} at node {node}")]
    MacroArity { item: u32, node: u32 },
    /// An atom that is no call, with another number of terms than an earlier such atom of its name.
    #[error("clash of arities in item {item} at node {node}")]
    ArityClash { item: u32, node: u32 },
    /// An atom or call with a variable that no quantifier round it binds and that is no parameter of its macro.
    #[error("free variable in item {item} at node {node}")]
    FreeVariable { item: u32, node: u32 },
    /// No item is a property.
    #[error("no property")]
    NoProperty,
    /// The properties have more than 4,096 nodes after expansion, where a call counts 1 more than its macro's body. `found`
    /// is the number, or 1,000,000 where that is less.
    #[error("too many subformulas, {found}")]
    TooManySubformulas { found: u32 },
    /// The properties have more than 64 quantifiers after expansion. `found` is the number, or 1,000,000 where that is less.
    #[error("too many variables, {found}")]
    TooManyVariables { found: u32 },
    /// There was no memory.
    #[error("no memory")]
    NoMemory,
}

impl From<AllocError> for NameFault {
    ghost from_gives = { λ _ e. e ≡ NoMemory };

    fn from(_error: AllocError) -> NameFault {
        NameFault::NoMemory
    }
}
