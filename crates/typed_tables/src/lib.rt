//! The lent tables of typed tasks, and the five passes of checks that they must pass.

#![tactic(auto)]

pub mod checking;
mod counts;
pub mod judging;
mod misfits;
pub mod name_runs;
mod references;
mod repeats;
mod runs;
mod scopes;
pub mod tables;
mod terms;
mod typings;
