//! The operation rows of a monitor's subformulas, with exact refusals.

#![tactic(auto)]

mod always;
mod past;
mod rows;
mod timed;
mod updated;

pub use always::{always_at_most_rows, always_more_than_rows};
pub use past::{once_more_than_rows, since_more_than_rows};
pub use rows::{
    RowFull, code_cube_row, interval_rows, leaf_row, not_row, operation_row, quantifier_rows,
    since_rows,
};
pub use timed::{once_at_most_rows, since_at_most_rows};
pub use updated::Updated;

#[cfg(test)]
mod tests;
