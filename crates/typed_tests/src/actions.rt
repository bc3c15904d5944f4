//! Refusals of actions, and of the formulas and atoms that they name, beside the nearest ones that pass.

use super::base::*;
use typed_tables::tables::{Action, Atom, Run, TypeSet, TypedTables};

/// A run by its start and count.
fn run(start: u32, count: u32) -> Run {
    Run { start, count }
}

/// The second action's runs: name, formula, added and deleted atoms.
static RUNS: [((u32, u32), (u32, u32), (u32, u32), (u32, u32), [u32; 4]); 20] = [
    ((15, 4), (9, 4), (1, 1), (1, 1), PASSES),
    ((15, 4), (9, 4), (2, 0), (0, 0), PASSES),
    ((15, 5), (9, 4), (1, 1), (1, 1), [2, 0, 4, 2]),
    ((20, 0), (9, 4), (1, 1), (1, 1), [2, 0, 4, 2]),
    ((15, 0), (9, 4), (1, 1), (1, 1), [3, 0, 4, 2]),
    ((11, 4), (9, 4), (1, 1), (1, 1), [4, 0, 4, 2]),
    ((4, 4), (9, 4), (1, 1), (1, 1), PASSES),
    ((15, 4), (9, 257), (1, 1), (1, 1), [1, 0, 4, 2]),
    ((15, 4), (9, 256), (1, 1), (1, 1), [2, 0, 4, 2]),
    ((15, 4), (MAX, 4), (1, 1), (1, 1), [2, 0, 4, 2]),
    ((15, 4), (18, 0), (1, 1), (1, 1), [2, 0, 4, 2]),
    ((15, 4), (9, 0), (1, 1), (1, 1), [3, 0, 4, 2]),
    ((15, 4), (9, 3), (1, 1), (1, 1), [3, 0, 4, 2]),
    ((15, 4), (9, 5), (1, 1), (1, 1), [3, 0, 4, 2]),
    ((15, 4), (13, 4), (1, 1), (1, 1), PASSES),
    ((15, 4), (9, 4), (1, 2), (1, 1), [2, 0, 4, 2]),
    ((15, 4), (9, 4), (1, 1), (3, 0), [2, 0, 4, 2]),
    ((15, 4), (9, 4), (0, 33), (0, 0), [1, 0, 4, 2]),
    ((15, 4), (9, 4), (0, 16), (0, 17), [1, 0, 4, 2]),
    ((15, 4), (9, 4), (0, MAX), (0, MAX), [1, 0, 4, 2]),
];

/// The second action's parameters: their number and the types of four; its formula and its atoms name the first two.
static PARAMETERS: [(u32, [u32; 4], [u32; 4]); 8] = [
    (2, [0b100, 0b010, 0, 0], PASSES),
    (5, [0b100, 0b010, 1, 1], [1, 0, 4, 2]),
    (MAX, [0b100, 0b010, 1, 1], [1, 0, 4, 2]),
    (4, [0b100, 0b010, 0b001, 0b1000], PASSES),
    (3, [0b100, 0b010, 0, 0], [3, 0, 4, 2]),
    (2, [0b100, 0b10000, 0, 0], [3, 0, 4, 2]),
    (1, [0b100, 0b010, 0, 0], [3, 0, 4, 2]),
    (2, [0b001, 0b010, 0, 0], [5, 0, 4, 2]),
];

/// How many of these numbers are the formula of the second action, with two parameters of types 2 and 1.
static FORMULAS_OF_KEEP: [(u32, [u32; 7], [u32; 4]); 24] = [
    (1, [0, 0, 0, 0, 0, 0, 0], PASSES),
    (2, [1, 1, 0, 0, 0, 0, 0], PASSES),
    (4, [1, 0, 64, 65, 0, 0, 0], PASSES),
    (4, [1, 0, 2, 0, 0, 0, 0], PASSES),
    (3, [2, 64, 0, 0, 0, 0, 0], PASSES),
    (2, [3, 0, 0, 0, 0, 0, 0], PASSES),
    (4, [4, 0, 1, 1, 0, 0, 0], PASSES),
    (6, [5, 1, 1, 3, 1, 1, 0], PASSES),
    (7, [6, 4, 0, 0, 5, 0, 0], PASSES),
    (0, [0, 0, 0, 0, 0, 0, 0], [3, 0, 4, 2]),
    (1, [7, 0, 0, 0, 0, 0, 0], [3, 0, 4, 2]),
    (1, [MAX, 0, 0, 0, 0, 0, 0], [3, 0, 4, 2]),
    (2, [0, 0, 0, 0, 0, 0, 0], [3, 0, 4, 2]),
    (1, [3, 0, 0, 0, 0, 0, 0], [3, 0, 4, 2]),
    (2, [4, 0, 0, 0, 0, 0, 0], [3, 0, 4, 2]),
    (1, [1, 0, 0, 0, 0, 0, 0], [3, 0, 4, 2]),
    (2, [1, 2, 0, 0, 0, 0, 0], [3, 0, 4, 2]),
    (3, [1, 0, 64, 0, 0, 0, 0], [3, 0, 4, 2]),
    (4, [1, 0, 64, 66, 0, 0, 0], [3, 0, 4, 2]),
    (4, [1, 0, 3, 65, 0, 0, 0], [3, 0, 4, 2]),
    (3, [2, 64, 63, 0, 0, 0, 0], [3, 0, 4, 2]),
    (2, [2, 64, 0, 0, 0, 0, 0], [3, 0, 4, 2]),
    (5, [3, 1, 0, 65, 64, 0, 0], [5, 0, 4, 2]),
    (6, [6, 0, 1, 0, 64, 2, 0], [5, 0, 4, 2]),
];

/// The second atom row, which the first action deletes and the second adds and deletes; only the second has two parameters.
static SECOND_ATOM: [(u32, [u32; 3], [u32; 4]); 9] = [
    (0, [64, 65, 0], PASSES),
    (1, [MAX, MAX, MAX], PASSES),
    (2, [64, 65, 0], [3, 0, 4, 1]),
    (MAX, [64, 65, 0], [3, 0, 4, 1]),
    (0, [64, 66, 0], [3, 0, 4, 2]),
    (0, [64, 67, 0], [3, 0, 4, 1]),
    (0, [3, 65, 0], [3, 0, 4, 1]),
    (0, [2, 1, 0], PASSES),
    (0, [65, 64, 0], [5, 0, 4, 1]),
];

#[test]
fn runs_of_actions(rt: HostRuntime) {
    let mut base = two_rooms();
    for (name, formula, added, deleted, expected) in &RUNS {
        base.actions[1] = Action {
            name: run(name.0, name.1),
            formula: run(formula.0, formula.1),
            added: run(added.0, added.1),
            deleted: run(deleted.0, deleted.1),
            ..keep()
        };
        assert_eq!(rt; refusal(base.tables()), *expected);
    }
}

#[test]
fn parameters(rt: HostRuntime) {
    let mut base = two_rooms();
    for (count, masks, expected) in &PARAMETERS {
        base.actions[1] = Action {
            parameters: *count,
            types: [
                TypeSet { mask: masks[0] },
                TypeSet { mask: masks[1] },
                TypeSet { mask: masks[2] },
                TypeSet { mask: masks[3] },
            ],
            ..keep()
        };
        assert_eq!(rt; refusal(base.tables()), *expected);
    }
}

#[test]
fn formulas(rt: HostRuntime) {
    let mut base = two_rooms();
    base.goal = FALSE;
    base.actions[0] = Action {
        formula: run(0, 1),
        ..move_action()
    };
    for (count, numbers, expected) in &FORMULAS_OF_KEEP {
        let formulas = [
            0, numbers[0], numbers[1], numbers[2], numbers[3], numbers[4], numbers[5], numbers[6],
        ];
        base.actions[1] = Action {
            formula: run(1, *count),
            ..keep()
        };
        assert_eq!(rt; with_formulas(&base, &formulas), *expected);
    }
}

#[test]
fn atoms_of_actions(rt: HostRuntime) {
    let mut base = two_rooms();
    for (predicate, terms, expected) in &SECOND_ATOM {
        base.atoms[1] = Atom {
            predicate: *predicate,
            terms: *terms,
        };
        assert_eq!(rt; refusal(base.tables()), *expected);
    }
}
