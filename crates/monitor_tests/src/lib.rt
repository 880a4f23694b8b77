//! Tests of the monitor by its public calls: verdicts, ends and codes worked out by hand, and verdicts beside a slow
//! evaluator of truth.
#![tactic(auto)]

#[cfg(test)]
mod codes;
#[cfg(test)]
mod compared;
#[cfg(test)]
mod made;
#[cfg(test)]
mod slow_truth;
#[cfg(test)]
mod verdicts;
