//! Tests of typed tables and their admission.

#![tactic(auto)]

#[cfg(test)]
mod actions;
#[cfg(test)]
mod base;
#[cfg(test)]
mod declarations;
#[cfg(test)]
mod engine;
#[cfg(test)]
mod facts_and_goals;
#[cfg(test)]
mod sizes;
