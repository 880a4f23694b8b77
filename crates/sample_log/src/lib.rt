//! A large valid log of logins, accesses and logouts, which is made while it is read.

#![tactic(auto)]

mod line;
mod source;
#[cfg(test)]
mod tests;

pub use source::SampleSource;
