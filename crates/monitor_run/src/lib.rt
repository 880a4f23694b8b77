//! The top call: a specification and a log are read, each event is judged, and the report is written.
#![tactic(auto)]

mod judge;
mod last;
mod log;
mod origin;
mod piece;
mod session;
mod specification;
mod top;

pub use report::Which;
pub use run_model::{End, MAX_SPEC, Outcome};
pub use top::run;

#[cfg(test)]
mod rows;
#[cfg(test)]
mod tests;
