//! The lines of a report, and the buffer that they pass on their way to the output.
#![tactic(auto)]

mod counts;
mod file_lines;
mod full_lines;
mod holds;
mod laws;
mod line;
mod log_lines;
mod output;
mod quoted;
mod shown;
mod spec_lines;
mod values;
mod violation;
mod which;

pub use counts::put_end;
pub use file_lines::{put_unopened, put_unread, put_usage};
pub use full_lines::{put_codes_full, put_nodes_full};
pub use holds::put_holds;
pub use laws::{one_witness, report_lists_violations, witness_stays};
pub use log_lines::{put_log_fault, put_long_log};
pub use output::Output;
pub use shown::{Shown, Value};
pub use spec_lines::{put_long_spec, put_name_fault, put_spec_fault};
pub use violation::put_violation;
pub use which::Which;

#[cfg(test)]
mod tests;
