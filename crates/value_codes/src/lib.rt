//! Books: which code stands for which text, and which code is the least free one.

#![tactic(auto)]

mod book;
mod pair;
mod places;
#[cfg(test)]
mod tests;

pub use book::{Book, GiveFault};
pub use pair::Pair;
