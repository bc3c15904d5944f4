//! Tables that pass, from which each case differs in a row or a table.

use fdr::tables::{Effect, FdrTables, InitialValue, Operator, Pair, Run, Variable};
use fdr::tasks::admitting::admit;
use form::answers::Answer;

/// The refusal, line, table and row of tables that pass.
pub const PASSES: [u32; 4] = [0, 0, 0, 0];

/// Operator "a b": two preconditions and two effects.
pub const FIRST: Operator = Operator {
    name: Run { start: 0, count: 3 },
    preconditions: Run { start: 0, count: 2 },
    effects: Run { start: 0, count: 2 },
};

/// Operator "c": its name ends with the name bytes, its other runs are empty and start where their tables end.
pub const SECOND: Operator = Operator {
    name: Run { start: 3, count: 1 },
    preconditions: Run { start: 4, count: 0 },
    effects: Run { start: 3, count: 0 },
};

/// An effect with a condition and a former value.
pub const TO_0: Effect = Effect {
    conditions: Run { start: 2, count: 1 },
    variable: 0,
    former: Some(1),
    new: 0,
};

/// An effect with neither; its conditions start where the pairs end.
pub const TO_2: Effect = Effect {
    conditions: Run { start: 4, count: 0 },
    variable: 1,
    former: None,
    new: 2,
};

/// An effect of no operator.
pub const UNUSED: Effect = Effect {
    conditions: Run { start: 0, count: 2 },
    variable: 1,
    former: Some(0),
    new: 0,
};

pub const V0_IS_0: Pair = Pair {
    variable: 0,
    value: 0,
};

pub const V0_IS_1: Pair = Pair {
    variable: 0,
    value: 1,
};

pub const V1_IS_0: Pair = Pair {
    variable: 1,
    value: 0,
};

pub const V1_IS_2: Pair = Pair {
    variable: 1,
    value: 2,
};

/// A pair whose variable names nothing.
pub const V2_IS_0: Pair = Pair {
    variable: 2,
    value: 0,
};

/// Two variables of 2 and 3 values. The last effect and the last pair are used by nothing.
pub const BASE: FdrTables<'static> = FdrTables {
    variables: &[Variable { values: 2 }, Variable { values: 3 }],
    initial: &[InitialValue { value: 0 }, InitialValue { value: 2 }],
    goal: &[V1_IS_2, V0_IS_1],
    operators: &[FIRST, SECOND],
    effects: &[TO_0, TO_2, UNUSED],
    pairs: &[V0_IS_1, V1_IS_2, V0_IS_0, V1_IS_0],
    names: b"a bc",
};

/// The refusal, line, table and row that admission gives for tables.
pub fn refusal(tables: FdrTables) -> [u32; 4] {
    match admit(tables) {
        Ok(_) => PASSES,
        Err(fault) => Answer::Refused(fault).into(),
    }
}
