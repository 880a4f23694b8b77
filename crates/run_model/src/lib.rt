//! How a run is told: how large it may be, where it stops, and how it ends.
#![tactic(auto)]

mod end;
mod stop;

pub use end::{End, Outcome};
pub use stop::{Course, Halt, LogStop, Loss, SpecStop, Stop};

/// How many bytes a specification has at most.
pub const MAX_SPEC: usize = 1_048_576;
