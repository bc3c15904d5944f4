//! Tests of finite-domain tables: their admission, and the engine and names of an admitted task.

#![tactic(auto)]

#[cfg(test)]
mod bad_rows;
#[cfg(test)]
mod base;
#[cfg(test)]
mod engine;
#[cfg(test)]
mod limits;
#[cfg(test)]
mod name_rule;
#[cfg(test)]
mod order;
