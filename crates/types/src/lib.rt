//! Sets of types, the edges between types, and whether the types of one set fit those of another.

#![tactic(auto)]

pub mod closures;
pub mod edges;
pub mod sets;
#[cfg(test)]
mod tests;
