//! Which codes diagrams tell apart from all ones, and a book's codes taken back.

#![tactic(auto)]

mod entry;
pub mod laws;
mod reclaim;
mod search;
#[cfg(test)]
mod tests;
mod told;

pub use reclaim::sweep;
pub use told::is_told_apart;
