//! Assignments, as the slow evaluator holds them: nothing is copied where a macro is called.
use qtl_syntax::{Term, Text};

/// The texts of variables.
#[derive(Clone, Copy)]
pub enum Scope<'a> {
    /// Pairs of a variable's name and its text.
    Pairs(&'a [(Text, Text)]),
    /// The parameters of a macro, each with the text of its term, which stands in the scope of the call.
    Call {
        params: &'a [Text],
        terms: &'a [Term],
        outer: &'a Scope<'a>,
    },
}
