//! The cells of atoms, formulas and their truth in a row, and the changes that a step makes.

#![tactic(auto)]

pub mod admitting;
pub mod cells;
pub mod changes;
mod grounding;
pub mod judging;
mod reading;
pub mod rows;
pub mod vocabularies;
