//! Tables with several faults: check after check over all tables, and in each the tables and rows in order.

use super::base::*;
use fdr::tables::{Effect, FdrTables, InitialValue, Operator, Run, Variable};

/// An operator that names a variable twice in its preconditions.
const REPEATS: Operator = Operator {
    name: Run { start: 3, count: 1 },
    preconditions: Run { start: 0, count: 3 },
    effects: Run { start: 3, count: 0 },
};

/// An effect whose conditions start behind the pairs.
const PASSES_PAIRS: Effect = Effect {
    conditions: Run { start: 5, count: 0 },
    variable: 1,
    former: None,
    new: 2,
};

/// An effect whose new value names nothing and whose conditions name a variable twice.
const NAMES_NOTHING: Effect = Effect {
    conditions: Run { start: 0, count: 3 },
    variable: 1,
    former: None,
    new: 3,
};

/// Tables, and the refusal, line, table and row that they give.
static CASES: [(FdrTables<'static>, [u32; 4]); 6] = [
    // a count in table 7, then a run in table 2, a number and a repeat in table 3
    (
        FdrTables {
            initial: &[],
            goal: &[V2_IS_0, V2_IS_0],
            names: &[b'a'; 65537],
            ..BASE
        },
        [1, 0, 7, 0],
    ),
    // counts in tables 1, 3 and 7
    (
        FdrTables {
            variables: &[Variable { values: 2 }, Variable { values: 0 }],
            goal: &[V1_IS_2; 1025],
            names: &[b'a'; 65537],
            ..BASE
        },
        [1, 0, 1, 2],
    ),
    // runs in rows 2 and 3 of table 5, then a number in table 2, a number and a repeat in table 3
    (
        FdrTables {
            initial: &[InitialValue { value: 2 }, InitialValue { value: 2 }],
            goal: &[V2_IS_0, V2_IS_0],
            effects: &[TO_0, PASSES_PAIRS, PASSES_PAIRS],
            ..BASE
        },
        [2, 0, 5, 2],
    ),
    // a number in table 6, then repeats in tables 3 and 4
    (
        FdrTables {
            goal: &[V1_IS_2, V1_IS_2],
            operators: &[FIRST, REPEATS],
            pairs: &[V0_IS_1, V1_IS_2, V0_IS_0, V2_IS_0],
            ..BASE
        },
        [3, 0, 6, 4],
    ),
    // numbers in rows 2 and 3 of table 3, a name in table 4, numbers in tables 5 and 6
    (
        FdrTables {
            goal: &[V1_IS_2, V2_IS_0, V2_IS_0],
            effects: &[TO_0, TO_2, NAMES_NOTHING],
            pairs: &[V0_IS_1, V1_IS_2, V0_IS_0, V2_IS_0],
            names: b"a (c",
            ..BASE
        },
        [3, 0, 3, 2],
    ),
    // repeats in rows 1 and 2 of table 4, and in table 5
    (
        FdrTables {
            operators: &[REPEATS, REPEATS],
            effects: &[
                TO_0,
                TO_2,
                Effect {
                    new: 2,
                    ..NAMES_NOTHING
                },
            ],
            ..BASE
        },
        [4, 0, 4, 1],
    ),
];

#[test]
fn the_first_fault_in_checking_order_is_given(rt: HostRuntime) {
    for (tables, numbers) in &CASES {
        assert_eq!(rt; refusal(*tables), *numbers);
    }
}
