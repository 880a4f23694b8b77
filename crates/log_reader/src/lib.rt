//! The events of a log's bytes, however they are cut into pieces.
#![tactic(auto)]

mod buffer;
mod fault;
mod laws;
mod mark;
mod place;
mod reader;
mod scan;
mod state;
mod text;
mod time;

pub use fault::LogFault;
pub use laws::{records_stay, records_take_bytes, times_fit, times_never_fall, untimed_is_zero};
pub use reader::LogReader;

#[cfg(test)]
mod tests;
