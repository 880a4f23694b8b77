//! Listeners in boxes, which are told of each violation of a run and finished at its end.
#![tactic(auto)]

mod csv_report;
mod fail_listener;
mod finishing;
mod laws;
mod listener;
mod tally;
mod telling;
mod told;

pub use csv_report::CsvReport;
pub use fail_listener::FailListener;
pub use finishing::finish_all;
pub use laws::row_reads_back;
pub use listener::Listener;
pub use tally::Tally;
pub use telling::tell_all;
pub use told::{TellEnd, Told};

#[cfg(test)]
mod tests;
