//! A text with its code, as lists of a book's pairs hold it.

use qtl_syntax::Text;

/// A text and the code that stands for it.
#[derive(Debug, PartialEq, Eq, Drop)]
pub struct Pair {
    pub value: Text,
    pub code: u32,
}
