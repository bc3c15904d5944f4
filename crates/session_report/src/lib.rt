//! The report of a plan text above any named task form.

#![tactic(auto)]

pub mod reports;
