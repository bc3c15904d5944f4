//! Plan texts above a session: a text read into a session, and a text written from one.

#![tactic(auto)]

pub mod reading;
pub mod writing;
