//! Tests of plan texts: reading into a session, writing from one, and both in turn.

#![tactic(auto)]

#[cfg(test)]
mod reading;
#[cfg(test)]
mod tasks;
#[cfg(test)]
mod writing;
