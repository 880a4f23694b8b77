//! The values that show a violation.
#![tactic(auto)]

mod chain;
mod choose;
mod laws;
mod least;
mod property;

pub use laws::witnesses_hold;
pub use property::find;

#[cfg(test)]
mod tests;
