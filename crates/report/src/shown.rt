//! What a witness shows for the variables of a property.
use qtl_syntax::Text;

/// What is shown for a variable.
#[derive(Debug, Drop)]
pub enum Value {
    /// Any text that the log does not have.
    Any,
    /// This text.
    Known(Text),
}

/// A variable's name, and what is shown for it.
#[derive(Debug, Drop)]
pub struct Shown {
    pub name: Text,
    pub value: Value,
}
