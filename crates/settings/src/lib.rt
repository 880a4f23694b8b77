//! The settings of a run, as the words of its command line ask for them.
#![tactic(auto)]

mod command;
mod names;
mod numbers;
mod reading;
#[cfg(test)]
mod tests;
mod types;

pub use reading::read;
pub use types::{LogFrom, Settings, UsageEnd};
