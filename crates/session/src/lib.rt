//! Plan sessions above any task form.

#![tactic(auto)]

pub mod calls;
mod carrying;
mod edits;
pub mod ledgers;
pub mod logs;
mod refusals;
pub mod sessions;
