//! Refusals of facts and of the goal, and counts of the tables behind the actions.

use super::base::*;
use typed_tables::tables::{Action, Atom, Fact, Goal, Run, TypedTables};

/// The second fact, behind the one that the ball is in the hall.
static SECOND_FACT: [(u32, [u32; 3], [u32; 4]); 10] = [
    (0, [2, 1, 0], PASSES),
    (1, [MAX, MAX, MAX], PASSES),
    (0, [2, 0, 7], [4, 0, 6, 2]),
    (0, [2, 0, 1], [4, 0, 6, 2]),
    (2, [2, 0, 0], [3, 0, 6, 2]),
    (MAX, [2, 0, 0], [3, 0, 6, 2]),
    (0, [3, 0, 0], [3, 0, 6, 2]),
    (0, [2, 64, 0], [3, 0, 6, 2]),
    (0, [0, 1, 0], [5, 0, 6, 2]),
    (0, [2, 2, 0], [5, 0, 6, 2]),
];

/// The goal's run in the formula numbers.
static GOALS: [((u32, u32), [u32; 4]); 10] = [
    ((13, 4), PASSES),
    ((13, 257), [1, 0, 7, 1]),
    ((13, 5), [2, 0, 7, 1]),
    ((18, 0), [2, 0, 7, 1]),
    ((MAX, MAX), [1, 0, 7, 1]),
    ((MAX, 1), [2, 0, 7, 1]),
    ((13, 0), [3, 0, 7, 1]),
    ((13, 3), [3, 0, 7, 1]),
    ((9, 4), [3, 0, 7, 1]),
    ((6, 3), [3, 0, 7, 1]),
];

#[test]
fn facts(rt: HostRuntime) {
    let base = two_rooms();
    for (predicate, objects, expected) in &SECOND_FACT {
        let second = Fact {
            predicate: *predicate,
            objects: *objects,
        };
        let facts = [red_in_hall(), second];
        assert_eq!(rt; with_facts(&base, &facts), *expected);
    }
}

#[test]
fn goals(rt: HostRuntime) {
    let mut base = two_rooms();
    for (run, expected) in &GOALS {
        base.goal = Goal {
            formula: Run {
                start: run.0,
                count: run.1,
            },
        };
        assert_eq!(rt; refusal(base.tables()), *expected);
    }
}

/// A room in the ball's place does not fit.
#[test]
fn goal_misfits(rt: HostRuntime) {
    let mut base = two_rooms();
    base.formulas[15] = 1;
    assert_eq!(rt; refusal(base.tables()), [5, 0, 7, 1]);
}

#[test]
fn numbers_of_declarations(rt: HostRuntime) {
    let base = two_rooms();
    let halls = [HALL; 65];
    assert_eq!(rt; with_objects(&base, &halls), [1, 0, 2, 0]);
    let days = [day(); 33];
    assert_eq!(rt; with_predicates(&base, &days), [1, 0, 3, 0]);
    let keeps = [keep(); 65];
    assert_eq!(rt; with_actions(&base, &keeps), [1, 0, 4, 0]);
    assert_eq!(rt; with_actions(&base, &keeps[0..64]), [4, 0, 4, 2]);
}

#[test]
fn numbers_of_rows(rt: HostRuntime) {
    let base = two_rooms();
    let atoms = [in_first(); 513];
    assert_eq!(rt; with_atoms(&base, &atoms), [1, 0, 5, 0]);
    assert_eq!(rt; with_atoms(&base, &atoms[0..512]), PASSES);
    let facts = [red_in_hall(); 1025];
    assert_eq!(rt; with_facts(&base, &facts), [1, 0, 6, 0]);
    assert_eq!(rt; with_facts(&base, &facts[0..1024]), [4, 0, 6, 2]);
    let formulas = [0; 4097];
    assert_eq!(rt; with_formulas(&base, &formulas), [1, 0, 8, 0]);
}

/// An atom that no action names is not looked at.
#[test]
fn unused_atoms_are_not_judged(rt: HostRuntime) {
    let mut base = two_rooms();
    let unknown = Atom {
        predicate: MAX,
        terms: [MAX, MAX, MAX],
    };
    let atoms = [in_last(), in_first(), unknown];
    assert_eq!(rt; with_atoms(&base, &atoms), PASSES);
    base.actions[0] = Action {
        added: Run { start: 0, count: 3 },
        ..move_action()
    };
    assert_eq!(rt; with_atoms(&base, &atoms), [3, 0, 4, 1]);
}
