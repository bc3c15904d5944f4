//! The typed sample task, for programs and for tests.

#![tactic(auto)]

pub mod rooms;
