//! The tables of a typed task: the number of types, and nine lent tables.
//!
//! Every number is a `u32`, so that a bad one can stand in a table, be refused and be reported.

pub use atoms::rows::{Atom, Predicate};
pub use rows::runs::Run;
pub use types::edges::Edge;
pub use types::sets::TypeSet;

/// An object or constant: its name in the name bytes, and its types.
#[derive(Clone, Copy)]
pub struct Object {
    pub name: Run,
    pub types: TypeSet,
}

/// An action: its name in the name bytes, its number of parameters with the types of each, its precondition in the formula numbers, and the atoms that it adds and deletes.
///
/// Places from the number of parameters on say nothing.
// Places in an array with their number beside it: the format of lent tables.
#[derive(Clone, Copy)]
pub struct Action {
    pub name: Run,
    pub parameters: u32,
    pub types: [TypeSet; 4],
    pub formula: Run,
    pub added: Run,
    pub deleted: Run,
}

/// An initial fact: a predicate and objects for its arguments. Places from the predicate's arity on say nothing.
#[derive(Clone, Copy)]
pub struct Fact {
    pub predicate: u32,
    pub objects: [u32; 3],
}

/// The goal: one formula in the formula numbers.
#[derive(Clone, Copy)]
pub struct Goal {
    pub formula: Run,
}

/// The tables of a typed task, lent by the caller. Table k is the k-th field behind the number of types.
#[derive(Clone, Copy)]
pub struct TypedTables<'a> {
    pub types: u32,
    pub edges: &'a [Edge],
    pub objects: &'a [Object],
    pub predicates: &'a [Predicate],
    pub actions: &'a [Action],
    pub atoms: &'a [Atom],
    pub facts: &'a [Fact],
    pub goal: Goal,
    pub formulas: &'a [u32],
    pub names: &'a [u8],
}
