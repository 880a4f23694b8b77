//! Ages in the time block of a diagram.

#![tactic(auto)]

mod calls;
mod chain;
mod change;
pub mod laws;
mod walk;

pub use calls::{age_cap, age_drop, any_time, at_time, stamp};

#[cfg(test)]
mod tests;
