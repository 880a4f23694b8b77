//! Operations on diagrams, with exact refusals.

#![tactic(auto)]

mod calls;
mod code_cubes;
mod combine;
mod level;
mod levels;
mod literals;
mod once;
mod op;
mod parts;
mod reading;
mod short;
mod store;
#[cfg(test)]
mod tests;

pub use calls::{apply, apply_inside, not};
pub use code_cubes::{BlockCode, code_cube};
pub use level::Merge;
pub use levels::{change_level, restrict};
pub use literals::{Literal, cube};
pub use once::at_once;
pub use op::Op;
pub use reading::{eval, walk};
pub use store::{NodesFull, Store};
