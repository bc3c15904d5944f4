//! Rows of lent tables: runs, names, repeats, and the refusals that checks give.

#![tactic(auto)]

pub mod names;
pub mod refusals;
pub mod repeats;
pub mod runs;
