//! Events, what is true of a log, a plain slow evaluator of it, and the events that match an atom.
#![tactic(auto)]

mod atom;
mod event;
mod laws;
mod matching;
mod numbered_atom;
mod quantifier_free;
mod scope;
mod slow;

pub use event::Event;
pub use laws::{
    always_is_never_not, interval_is_since, once_is_since, past_decides, since_unfolds,
    timed_always_is_never_not, timed_once_is_timed_since,
};
pub use matching::{Binding, Place, atom_is_of_its_event, matches};
pub use numbered_atom::{Atom, AtomTerm};
pub use quantifier_free::{has_no_quantifier, macros_have_no_quantifier};
pub use slow::evaluate;

#[cfg(test)]
mod match_tests;
#[cfg(test)]
mod tests;
