//! A memo of operations on two handles, in arrays that are taken once.
//!
//! `OpCache::open` takes all room. `begin` forgets all, `find` looks a key up, `store` adds the result of a key that has
//! none. Between two calls of `begin` nothing is lost.

#![tactic(auto)]

mod cache;
mod chains;
mod heads;
mod key;
#[cfg(test)]
mod tests;

pub use cache::OpCache;
pub use key::{Key, Place};
