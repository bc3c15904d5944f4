//! The lines of a report of a plan text.

#![tactic(auto)]

pub mod lines;
