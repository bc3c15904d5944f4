//! Tables with one row more than their limit, and tables at it, which pass at least the check of counts.

use super::base::*;
use fdr::tables::{FdrTables, InitialValue, Operator, Run, Variable};

/// An operator whose name is the last 64 of as many name bytes as there may be.
const LONG_NAME: Operator = Operator {
    name: Run {
        start: 65472,
        count: 64,
    },
    preconditions: Run { start: 4, count: 0 },
    effects: Run { start: 3, count: 0 },
};

/// An operator with one effect more than it may have.
const THIRTY_THREE_EFFECTS: Operator = Operator {
    name: Run { start: 0, count: 3 },
    preconditions: Run { start: 4, count: 0 },
    effects: Run {
        start: 0,
        count: 33,
    },
};

/// An operator with as many effects as it may have.
const THIRTY_TWO_EFFECTS: Operator = Operator {
    name: Run { start: 0, count: 3 },
    preconditions: Run { start: 4, count: 0 },
    effects: Run {
        start: 0,
        count: 32,
    },
};

/// Tables, and the refusal, line, table and row that they give. Equal rows at a limit are refused as repeats.
static CASES: [(FdrTables<'static>, [u32; 4]); 15] = [
    (BASE, PASSES),
    (
        FdrTables {
            variables: &[Variable { values: 1 }; 1025],
            ..BASE
        },
        [1, 0, 1, 0],
    ),
    (
        FdrTables {
            variables: &[Variable { values: 1 }; 1024],
            initial: &[InitialValue { value: 0 }; 1024],
            goal: &[],
            operators: &[],
            effects: &[],
            pairs: &[],
            names: b"",
        },
        PASSES,
    ),
    (
        FdrTables {
            goal: &[V1_IS_2; 1025],
            ..BASE
        },
        [1, 0, 3, 0],
    ),
    (
        FdrTables {
            goal: &[V1_IS_2; 1024],
            ..BASE
        },
        [4, 0, 3, 2],
    ),
    (
        FdrTables {
            operators: &[FIRST; 2049],
            ..BASE
        },
        [1, 0, 4, 0],
    ),
    (
        FdrTables {
            operators: &[FIRST; 2048],
            ..BASE
        },
        [4, 0, 4, 2],
    ),
    (
        FdrTables {
            operators: &[THIRTY_THREE_EFFECTS],
            effects: &[UNUSED; 33],
            ..BASE
        },
        [1, 0, 4, 1],
    ),
    (
        FdrTables {
            operators: &[THIRTY_TWO_EFFECTS],
            effects: &[UNUSED; 33],
            ..BASE
        },
        [4, 0, 4, 1],
    ),
    (
        FdrTables {
            effects: &[UNUSED; 4097],
            ..BASE
        },
        [1, 0, 5, 0],
    ),
    (
        FdrTables {
            operators: &[SECOND],
            effects: &[UNUSED; 4096],
            ..BASE
        },
        PASSES,
    ),
    (
        FdrTables {
            pairs: &[V0_IS_1; 8193],
            ..BASE
        },
        [1, 0, 6, 0],
    ),
    (
        FdrTables {
            operators: &[],
            effects: &[TO_2],
            pairs: &[V0_IS_1; 8192],
            ..BASE
        },
        PASSES,
    ),
    (
        FdrTables {
            names: &[b'a'; 65537],
            ..BASE
        },
        [1, 0, 7, 0],
    ),
    (
        FdrTables {
            operators: &[LONG_NAME, SECOND],
            names: &[b'a'; 65536],
            ..BASE
        },
        PASSES,
    ),
];

#[test]
fn tables_past_their_limits_are_refused(rt: HostRuntime) {
    for (tables, numbers) in &CASES {
        assert_eq!(rt; refusal(*tables), *numbers);
    }
}
