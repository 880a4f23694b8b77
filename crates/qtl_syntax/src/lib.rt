//! Specifications as they are written: texts, tokens, terms, formulas and items.
#![tactic(auto)]

mod fault;
mod first;
mod forms;
mod formula;
mod fronts;
mod laws;
mod next;
mod operator;
mod place;
mod read;
mod scan;
mod spec;
mod stack;
mod state;
mod step;
mod text;
mod token;
mod writer;

pub use fault::{SpecFault, parse};
pub use first::is_first_spec;
pub use formula::{Bound, Formula, Item, Term};
pub use laws::one_answer;
pub use operator::{Binary, Prefix, Quantifier};
pub use scan::{TokenEnd, tokens};
pub use spec::Spec;
pub use text::Text;
pub use token::{Sign, Token, Word};
pub use writer::print;

#[cfg(test)]
mod tests;
