//! Tests of cells, formulas and changes, with expectations made by hand.

#![tactic(auto)]

#[cfg(test)]
mod base;
#[cfg(test)]
mod cells;
#[cfg(test)]
mod changes;
#[cfg(test)]
mod formulas;
