//! The largest tables: 64 objects, rows of 1,024 cells, the longest formulas and names.

use super::base::*;
use typed_tables::tables::{Action, Goal, Object, Predicate, Run, TypedTables};

/// One byte for each of 64 names.
const LETTERS: &[u8] = b"0123456789ABCDEFGHIJKLMNOPQRSTUVWXYZabcdefghijklmnopqrstuvwxyz+-";

/// A predicate of so many arguments of any type.
fn of_arity(arity: u32) -> Predicate {
    Predicate {
        arity,
        types: [ANY, ANY, ANY],
    }
}

/// 64 objects of type 0, each with a letter for its name.
fn letters() -> [Object; 64] {
    let mut objects = [Object {
        name: Run { start: 0, count: 1 },
        types: ANY,
    }; 64];
    for at in 0..64 {
        objects[at].name.start = at as u32;
    }
    objects
}

/// What admission gives for these objects and predicates, with one type and nothing else.
fn refusal_of<'a>(objects: &'a [Object], predicates: &'a [Predicate], names: &'a [u8]) -> [u32; 4] {
    refusal(TypedTables {
        types: 1,
        edges: &[],
        objects,
        predicates,
        actions: &[],
        atoms: &[],
        facts: &[],
        goal: FALSE,
        formulas: &[0],
        names,
    })
}

#[test]
fn widths(rt: HostRuntime) {
    let objects = letters();
    let mut singles = [of_arity(1); 17];
    assert_eq!(rt; refusal_of(&objects, &singles[0..16], LETTERS), PASSES);
    assert_eq!(rt; refusal_of(&objects, &singles, LETTERS), [1, 0, 3, 0]);
    singles[16] = of_arity(0);
    assert_eq!(rt; refusal_of(&objects, &singles, LETTERS), [1, 0, 3, 0]);
    let pair = [of_arity(2), of_arity(0)];
    assert_eq!(rt; refusal_of(&objects[0..32], &pair[0..1], LETTERS), PASSES);
    assert_eq!(rt; refusal_of(&objects[0..32], &pair, LETTERS), [1, 0, 3, 0]);
    let triple = [of_arity(3)];
    assert_eq!(rt; refusal_of(&objects[0..10], &triple, LETTERS), PASSES);
    assert_eq!(rt; refusal_of(&objects[0..11], &triple, LETTERS), [1, 0, 3, 0]);
    assert_eq!(rt; refusal_of(&objects[0..0], &triple, LETTERS), PASSES);
}

#[test]
fn longest_formulas(rt: HostRuntime) {
    let mut nots = [3; 256];
    nots[255] = 0;
    let mut base = two_rooms();
    base.goal = Goal {
        formula: Run {
            start: 255,
            count: 1,
        },
    };
    base.actions[0] = Action {
        formula: Run {
            start: 0,
            count: 256,
        },
        ..move_action()
    };
    base.actions[1] = Action {
        formula: Run {
            start: 1,
            count: 255,
        },
        ..keep()
    };
    assert_eq!(rt; with_formulas(&base, &nots), PASSES);
    nots[255] = 3;
    assert_eq!(rt; with_formulas(&base, &nots), [3, 0, 4, 1]);
}

#[test]
fn longest_names(rt: HostRuntime) {
    let names = [b'x'; 96];
    let mut objects = [Object {
        name: Run {
            start: 0,
            count: 48,
        },
        types: ANY,
    }; 2];
    objects[1].name.count = 47;
    assert_eq!(rt; refusal_of(&objects, &[], &names), PASSES);
    objects[1].name.count = 49;
    assert_eq!(rt; refusal_of(&objects, &[], &names), [3, 0, 2, 2]);
}

#[test]
fn too_many_name_bytes(rt: HostRuntime) {
    let base = two_rooms();
    let names = [b'x'; 65537];
    assert_eq!(rt;
        refusal(TypedTables {
            names: &names,
            ..base.tables()
        }),
        [1, 0, 9, 0]
    );
}
