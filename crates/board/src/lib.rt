//! The plain record of a row and the journal of its changes.

#![tactic(auto)]

pub mod boards;
pub mod edits;
pub mod readings;
