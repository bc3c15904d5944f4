//! The seven lent tables of a finite-domain task.
//!
//! Every number is a `u32`, so that a bad one can stand in a table, be refused and be reported.

use rows::names::Named;
pub use rows::runs::Run;

/// A variable: its number of values.
#[derive(Clone, Copy)]
pub struct Variable {
    pub values: u32,
}

/// The value of the variable of the same number in the first row.
#[derive(Clone, Copy)]
pub struct InitialValue {
    pub value: u32,
}

/// A variable and a value of it.
#[derive(Clone, Copy)]
pub struct Pair {
    pub variable: u32,
    pub value: u32,
}

/// An operator: its name in the name bytes, its preconditions in the pairs, its effects in the effects.
#[derive(Clone, Copy)]
pub struct Operator {
    pub name: Run,
    pub preconditions: Run,
    pub effects: Run,
}

/// An effect: where its conditions (in the pairs) hold, the variable gets the new value.
///
/// A former value, if there is one, is demanded of every step with this effect, whether the conditions hold or not.
#[derive(Clone, Copy)]
pub struct Effect {
    pub conditions: Run,
    pub variable: u32,
    pub former: Option<u32>,
    pub new: u32,
}

/// The tables of a finite-domain task, lent by the caller. Table k is the k-th field.
// Checks give a table as this number, not as an enum: a fault says it by its number.
#[derive(Clone, Copy)]
pub struct FdrTables<'a> {
    pub variables: &'a [Variable],
    pub initial: &'a [InitialValue],
    pub goal: &'a [Pair],
    pub operators: &'a [Operator],
    pub effects: &'a [Effect],
    pub pairs: &'a [Pair],
    pub names: &'a [u8],
}

impl Named for Operator {
    ghost place = { λ o. o.name };

    fn name_run(&self) -> Run {
        self.name
    }
}
