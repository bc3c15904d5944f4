//! The words that all parts share, and the interfaces of a task form.

#![tactic(auto)]

pub mod answers;
pub mod change_lists;
pub mod forms;
pub mod judgements;
pub mod steps;
pub mod words;
