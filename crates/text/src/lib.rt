//! Plan texts: their lines, and what each line is.

#![tactic(auto)]

pub mod faults;
pub mod line;
pub mod lines;
