//! Finite-domain tasks: lent tables, their admission, and the engine and names of an admitted task.

#![tactic(auto)]

mod counts;
mod judging;
mod references;
mod repeats;
mod runs;
pub mod tables;
pub mod tasks;
