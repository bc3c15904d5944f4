//! Sample tasks, for the report program and for tests.

#![tactic(auto)]

ghost use Rattle.std.specs.Prelude.{◌≡◌, true, is_ok};
ghost use Rattle.fdr.specs.Admission.{admission};
ghost use Rattle.fdr.specs.Tables.{held};
ghost use Rattle.samples.specs.PickGoDrop.{pick_go_drop_tables};

use fdr::tables::{Effect, FdrTables, InitialValue, Operator, Pair, Run, Variable};

/// The operator that moves the shuttle.
pub const GO: u32 = 0;

/// The operator that takes the load up.
pub const PICK: u32 = 1;

/// The operator that sets the load down.
pub const DROP: u32 = 2;

/// The operator that moves shuttle and load at once.
pub const LEAP: u32 = 3;

/// A shuttle that moves one load: variable 0 is where the shuttle stands, variable 1 where the load is.
///
/// The load starts at place 0 and shall be at place 1; its value 2 means that it is on the shuttle.
pub fn pick_go_drop() -> FdrTables<'static>
    ensures tables_of_the_sample { held result ≡ pick_go_drop_tables }
    ensures tables_are_admitted { is_ok (admission (held result)) ≡ true }
{
    FdrTables {
        variables: &[Variable { values: 2 }, Variable { values: 3 }],
        initial: &[InitialValue { value: 0 }, InitialValue { value: 0 }],
        goal: &[Pair {
            variable: 1,
            value: 1,
        }],
        operators: &[
            Operator {
                name: Run { start: 0, count: 2 },
                preconditions: Run { start: 0, count: 0 },
                effects: Run { start: 0, count: 1 },
            },
            Operator {
                name: Run { start: 2, count: 4 },
                preconditions: Run { start: 0, count: 1 },
                effects: Run { start: 1, count: 1 },
            },
            Operator {
                name: Run { start: 6, count: 4 },
                preconditions: Run { start: 1, count: 1 },
                effects: Run { start: 2, count: 1 },
            },
            Operator {
                name: Run {
                    start: 10,
                    count: 4,
                },
                preconditions: Run { start: 0, count: 0 },
                effects: Run { start: 3, count: 2 },
            },
            Operator {
                name: Run {
                    start: 14,
                    count: 3,
                },
                preconditions: Run { start: 0, count: 0 },
                effects: Run { start: 5, count: 1 },
            },
        ],
        effects: &[
            Effect {
                conditions: Run { start: 0, count: 0 },
                variable: 0,
                former: Some(0),
                new: 1,
            },
            Effect {
                conditions: Run { start: 0, count: 0 },
                variable: 1,
                former: Some(0),
                new: 2,
            },
            Effect {
                conditions: Run { start: 0, count: 0 },
                variable: 1,
                former: Some(2),
                new: 1,
            },
            Effect {
                conditions: Run { start: 0, count: 0 },
                variable: 0,
                former: None,
                new: 1,
            },
            Effect {
                conditions: Run { start: 1, count: 1 },
                variable: 1,
                former: None,
                new: 1,
            },
            Effect {
                conditions: Run { start: 1, count: 1 },
                variable: 1,
                former: Some(2),
                new: 0,
            },
        ],
        pairs: &[
            Pair {
                variable: 0,
                value: 0,
            },
            Pair {
                variable: 0,
                value: 1,
            },
        ],
        names: b"gopickdropleapodd",
    }
}
