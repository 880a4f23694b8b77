//! The step of the monitor: books of codes, drawn trees, and one event at a time.
#![tactic(auto)]

mod event_rows;
mod frame;
mod lists;
mod monitor;
mod remember;
mod serve;
mod subformula_rows;
mod temporal_rows;

pub use monitor::{Monitor, Sizes, StepEnd};
