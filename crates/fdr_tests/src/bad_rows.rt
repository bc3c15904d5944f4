//! Every refusal of a row, in each table, beside the nearest row that passes.

use super::base::*;
use fdr::tables::{Effect, FdrTables, InitialValue, Operator, Pair, Run, Variable};
use std::process::Abort;

/// The largest number that can stand in a table.
const MAX: u32 = 4294967295;

/// The numbers of values of both variables.
static VARIABLES: [([u32; 2], [u32; 4]); 6] = [
    ([2, 1000], PASSES),
    ([1000, 3], PASSES),
    ([2, 1001], [1, 0, 1, 2]),
    ([2, MAX], [1, 0, 1, 2]),
    ([2, 0], [1, 0, 1, 2]),
    ([0, 3], [1, 0, 1, 1]),
];

/// The initial values of variables of 2 and 3 values.
static INITIAL: [(&'static [InitialValue], [u32; 4]); 6] = [
    (
        &[InitialValue { value: 1 }, InitialValue { value: 2 }],
        PASSES,
    ),
    (
        &[InitialValue { value: 2 }, InitialValue { value: 2 }],
        [3, 0, 2, 1],
    ),
    (
        &[InitialValue { value: 1 }, InitialValue { value: 3 }],
        [3, 0, 2, 2],
    ),
    (&[InitialValue { value: 1 }], [2, 0, 2, 0]),
    (&[], [2, 0, 2, 0]),
    (&[InitialValue { value: 0 }; 3], [2, 0, 2, 0]),
];

/// Two goal rows, each a variable and a value.
static GOALS: [((u32, u32), (u32, u32), [u32; 4]); 8] = [
    ((0, 0), (1, 1), PASSES),
    ((2, 0), (0, 1), [3, 0, 3, 1]),
    ((1, 2), (2, 0), [3, 0, 3, 2]),
    ((1, 2), (MAX, 0), [3, 0, 3, 2]),
    ((1, 3), (0, 1), [3, 0, 3, 1]),
    ((1, 2), (0, 2), [3, 0, 3, 2]),
    ((1, 2), (1, 2), [4, 0, 3, 2]),
    ((1, 2), (1, 0), [4, 0, 3, 2]),
];

/// The runs of the second operator: name, preconditions and effects.
static OPERATORS: [((u32, u32), (u32, u32), (u32, u32), [u32; 4]); 21] = [
    ((3, 1), (3, 1), (2, 1), PASSES),
    ((3, 1), (4, 0), (0, 33), [1, 0, 4, 2]),
    ((3, 1), (4, 0), (0, 32), [2, 0, 4, 2]),
    ((3, 2), (4, 0), (3, 0), [2, 0, 4, 2]),
    ((MAX, MAX), (4, 0), (3, 0), [2, 0, 4, 2]),
    ((5, 0), (4, 0), (3, 0), [2, 0, 4, 2]),
    ((4, 0), (4, 0), (3, 0), [3, 0, 4, 2]),
    ((3, 1), (3, 2), (3, 0), [2, 0, 4, 2]),
    ((3, 1), (MAX, MAX), (3, 0), [2, 0, 4, 2]),
    ((3, 1), (MAX, 1), (3, 0), [2, 0, 4, 2]),
    ((3, 1), (5, 0), (3, 0), [2, 0, 4, 2]),
    ((3, 1), (4, 0), (2, 2), [2, 0, 4, 2]),
    ((3, 1), (4, 0), (MAX, MAX), [1, 0, 4, 2]),
    ((3, 1), (4, 0), (MAX, 1), [2, 0, 4, 2]),
    ((3, 1), (4, 0), (4, 0), [2, 0, 4, 2]),
    ((2, 1), (4, 0), (3, 0), PASSES),
    ((0, 3), (4, 0), (3, 0), [4, 0, 4, 2]),
    ((3, 1), (0, 3), (3, 0), [4, 0, 4, 2]),
    ((3, 1), (1, 2), (3, 0), PASSES),
    ((3, 1), (4, 0), (1, 2), [4, 0, 4, 2]),
    ((3, 1), (4, 0), (0, 2), PASSES),
];

/// An effect in place of one of the three, which of them counted from 0: its conditions, variable, former and new value.
static EFFECTS: [(usize, (u32, u32), u32, Option<u32>, u32, [u32; 4]); 18] = [
    (0, (3, 1), 0, Some(0), 1, PASSES),
    (0, (3, 2), 0, None, 0, [2, 0, 5, 1]),
    (1, (MAX, MAX), 1, None, 0, [2, 0, 5, 2]),
    (1, (MAX, 1), 1, None, 0, [2, 0, 5, 2]),
    (2, (5, 0), 1, None, 0, [2, 0, 5, 3]),
    (2, (4, 0), 1, None, 0, PASSES),
    (0, (4, 0), 2, None, 0, [3, 0, 5, 1]),
    (2, (4, 0), 2, None, 0, [3, 0, 5, 3]),
    (2, (4, 0), MAX, None, 0, [3, 0, 5, 3]),
    (0, (4, 0), 0, None, 2, [3, 0, 5, 1]),
    (2, (4, 0), 1, None, 3, [3, 0, 5, 3]),
    (0, (4, 0), 0, Some(2), 0, [3, 0, 5, 1]),
    (2, (4, 0), 1, Some(3), 0, [3, 0, 5, 3]),
    (2, (4, 0), 1, Some(2), 2, PASSES),
    (1, (4, 0), 0, None, 0, [4, 0, 4, 1]),
    (0, (0, 3), 0, None, 0, [4, 0, 5, 1]),
    (2, (0, 3), 1, None, 0, [4, 0, 5, 3]),
    (2, (1, 2), 1, None, 0, PASSES),
];

/// A pair in place of one of the four, which of them counted from 0: its variable and value.
static PAIRS: [(usize, u32, u32, [u32; 4]); 7] = [
    (3, 1, 2, PASSES),
    (0, 2, 0, [3, 0, 6, 1]),
    (0, 0, 2, [3, 0, 6, 1]),
    (1, 1, 3, [3, 0, 6, 2]),
    (3, 2, 0, [3, 0, 6, 4]),
    (3, MAX, 0, [3, 0, 6, 4]),
    (3, 1, 3, [3, 0, 6, 4]),
];

fn run((start, count): (u32, u32)) -> Run {
    Run { start, count }
}

fn pair((variable, value): (u32, u32)) -> Pair {
    Pair { variable, value }
}

fn check_variables(rt: &impl Abort) {
    for ([first, second], numbers) in &VARIABLES {
        let variables = [Variable { values: *first }, Variable { values: *second }];
        assert_eq!(rt;
            refusal(FdrTables {
                variables: &variables,
                ..BASE
            }),
            *numbers,
            "variables"
        );
    }
}

fn check_initial(rt: &impl Abort) {
    for (initial, numbers) in &INITIAL {
        assert_eq!(rt;
            refusal(FdrTables { initial, ..BASE }),
            *numbers,
            "initial values"
        );
    }
}

fn check_goals(rt: &impl Abort) {
    for (first, second, numbers) in &GOALS {
        let goal = [pair(*first), pair(*second)];
        assert_eq!(rt;
            refusal(FdrTables {
                goal: &goal,
                ..BASE
            }),
            *numbers,
            "goal"
        );
    }
}

fn check_operators(rt: &impl Abort) {
    for (name, preconditions, effects, numbers) in &OPERATORS {
        let second = Operator {
            name: run(*name),
            preconditions: run(*preconditions),
            effects: run(*effects),
        };
        assert_eq!(rt;
            refusal(FdrTables {
                operators: &[FIRST, second],
                ..BASE
            }),
            *numbers,
            "operators"
        );
    }
}

fn check_effects(rt: &impl Abort) {
    for (at, conditions, variable, former, new, numbers) in &EFFECTS {
        let mut effects = [TO_0, TO_2, UNUSED];
        assert!(rt; *at < 3, "effects");
        effects[*at] = Effect {
            conditions: run(*conditions),
            variable: *variable,
            former: *former,
            new: *new,
        };
        assert_eq!(rt;
            refusal(FdrTables {
                effects: &effects,
                ..BASE
            }),
            *numbers,
            "effects"
        );
    }
}

fn check_pairs(rt: &impl Abort) {
    for (at, variable, value, numbers) in &PAIRS {
        let mut pairs = [V0_IS_1, V1_IS_2, V0_IS_0, V1_IS_0];
        assert!(rt; *at < 4, "pairs");
        pairs[*at] = pair((*variable, *value));
        assert_eq!(rt;
            refusal(FdrTables {
                pairs: &pairs,
                ..BASE
            }),
            *numbers,
            "pairs"
        );
    }
}

#[test]
fn bad_rows_are_refused(rt: HostRuntime) {
    check_variables(&rt);
    check_initial(&rt);
    check_goals(&rt);
    check_operators(&rt);
    check_effects(&rt);
    check_pairs(&rt);
}
