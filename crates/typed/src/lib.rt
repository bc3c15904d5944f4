//! Typed tasks: their admission, and an admitted task as a task form.

#![tactic(auto)]

pub mod tasks;
