//! What a table holds under a number.

/// A node: its level, and the numbers of its two children.
#[derive(Clone, Copy, Debug, PartialEq, Eq)]
pub struct Node {
    pub level: u16,
    pub low: u32,
    pub high: u32,
}
