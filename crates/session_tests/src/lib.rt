//! Tests of plan sessions: on the sample task, on a task that fills the journal, and above forms that grant nothing.

#![tactic(auto)]

pub mod barren;
#[cfg(test)]
mod bursts;
#[cfg(test)]
mod sample;
