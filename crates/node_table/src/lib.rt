//! A table of shared nodes in fixed arrays: for each tree one handle, exact refusals, collection, and marks.

#![tactic(auto)]

mod arrays;
mod collect;
mod handle;
mod marks;
mod node;
mod table;
#[cfg(test)]
mod tests;

pub use handle::{Block, Branch, Handle};
pub use table::{Full, NodeTable};
