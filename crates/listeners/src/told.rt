//! What a listener is told, and why a call of it didn't succeed.
ghost use Rattle.std.specs.Prelude.{◌≡◌, IfOk};
ghost use Rattle.listeners.specs.declared.told.TellEnd.TheVariants.{NoMemory};

use qtl_syntax::Text;
use std::alloc::AllocError;
use thiserror::Error;

/// A violation: a property that is false at an event.
#[derive(Debug, Drop)]
pub struct Told {
    /// The number of the event. Events count from 1.
    pub event: u64,
    /// The number of the property in its specification, from 0.
    pub property: u32,
    /// The name of the property.
    pub name: Text,
    /// The line of the report, with its line feed.
    pub line: Text,
}

impl Told {
    /// The same violation once more.
    pub fn copy(&self) -> Result<Told, AllocError>
        ensures { IfOk result (λ t. t ≡ self.now) }
    {
        Ok(Told {
            event: self.event,
            property: self.property,
            name: self.name.copy()?,
            line: self.line.copy()?,
        })
    }
}

/// Why a call of a listener didn't succeed.
#[derive(Clone, Copy, Debug, PartialEq, Eq, Error)]
pub enum TellEnd {
    /// The listener couldn't do it, and its count of faults rose.
    #[error("the listener failed")]
    Failed,
    /// There was no memory. It may come at any call, and leaves what the listener means.
    #[error("no memory")]
    NoMemory,
}

impl From<AllocError> for TellEnd {
    ghost from_gives = { λ _ e. e ≡ NoMemory };

    fn from(_error: AllocError) -> TellEnd {
        TellEnd::NoMemory
    }
}
