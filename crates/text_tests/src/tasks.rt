//! A task whose operators have names of one word and of several, one of 64 bytes, and one with nine changes.

use fdr::tables::{Effect, FdrTables, InitialValue, Operator, Pair, Run, Variable};
use form::answers::{Answer, Fault};

/// The numbers of what is granted.
pub(crate) const GRANTED: [u32; 4] = [0, 0, 0, 0];

const NONE: Run = Run { start: 0, count: 0 };

const EFFECTS: [Effect; 11] = [
    Effect {
        conditions: NONE,
        variable: 0,
        former: Some(0),
        new: 1,
    },
    Effect {
        conditions: NONE,
        variable: 0,
        former: Some(1),
        new: 0,
    },
    Effect {
        conditions: NONE,
        variable: 1,
        former: None,
        new: 1,
    },
    Effect {
        conditions: NONE,
        variable: 2,
        former: None,
        new: 1,
    },
    Effect {
        conditions: NONE,
        variable: 3,
        former: None,
        new: 1,
    },
    Effect {
        conditions: NONE,
        variable: 4,
        former: None,
        new: 1,
    },
    Effect {
        conditions: NONE,
        variable: 5,
        former: None,
        new: 1,
    },
    Effect {
        conditions: NONE,
        variable: 6,
        former: None,
        new: 1,
    },
    Effect {
        conditions: NONE,
        variable: 7,
        former: None,
        new: 1,
    },
    Effect {
        conditions: NONE,
        variable: 8,
        former: None,
        new: 1,
    },
    Effect {
        conditions: NONE,
        variable: 9,
        former: None,
        new: 1,
    },
];

/// Operators: 0 `lift a` sets v0 from 0 to 1; 1 `drop a b` sets it from 1 to 0; 2 `nine` sets v1 to v9; 3, whose name is 64 bytes `w`, changes nothing. The goal is v0 = 1.
pub(crate) fn tables() -> FdrTables<'static> {
    FdrTables {
        variables: &[Variable { values: 2 }; 10],
        initial: &[InitialValue { value: 0 }; 10],
        goal: &[Pair {
            variable: 0,
            value: 1,
        }],
        operators: &[
            Operator {
                name: Run { start: 0, count: 6 },
                preconditions: NONE,
                effects: Run { start: 0, count: 1 },
            },
            Operator {
                name: Run { start: 6, count: 8 },
                preconditions: NONE,
                effects: Run { start: 1, count: 1 },
            },
            Operator {
                name: Run {
                    start: 14,
                    count: 4,
                },
                preconditions: NONE,
                effects: Run { start: 2, count: 9 },
            },
            Operator {
                name: Run {
                    start: 18,
                    count: 64,
                },
                preconditions: NONE,
                effects: NONE,
            },
        ],
        effects: &EFFECTS,
        pairs: &[],
        names: b"lift adrop a bninewwwwwwwwwwwwwwwwwwwwwwwwwwwwwwwwwwwwwwwwwwwwwwwwwwwwwwwwwwwwwwww",
    }
}

/// What reading gave, as numbers.
pub(crate) fn numbers(res: Result<(), Fault>) -> [u32; 4] {
    Answer::from(res).into()
}
