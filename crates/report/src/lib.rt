//! A plan text judged step by step above any named task form, and the report of it.

#![tactic(auto)]

pub mod judging;
pub mod writing;
