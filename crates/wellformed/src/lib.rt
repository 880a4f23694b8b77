//! Specifications whose names make sense, and what they are without macros: one variable for each quantifier.
#![tactic(auto)]

mod clash;
mod core_formula;
mod core_spec;
mod counts;
mod duplicates;
mod expand;
mod fault;
mod laws;
mod macros;
mod meaning;
mod numbers;
mod passes;
mod walk;

pub use core_formula::{CoreFormula, CoreProp, Variable};
pub use core_spec::Core;
pub use fault::NameFault;
pub use laws::{short_texts_have_few_nodes, short_texts_have_few_terms};
pub use numbers::can_be_numbered;
pub use passes::check;

#[cfg(test)]
mod tests;
