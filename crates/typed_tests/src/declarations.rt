//! Refusals of types, edges, objects and predicates, beside the nearest tables that pass.

use super::base::*;
use typed_tables::tables::{Edge, Object, Predicate, Run, TypeSet, TypedTables};

/// The number of types.
static TYPES: [(u32, [u32; 4]); 6] = [
    (4, PASSES),
    (0, [1, 0, 0, 0]),
    (33, [1, 0, 0, 0]),
    (32, [3, 0, 1, 0]),
    (5, [3, 0, 1, 0]),
    (3, [3, 0, 1, 3]),
];

/// The third edge.
static THIRD_EDGE: [(u32, u32, [u32; 4]); 8] = [
    (3, 2, PASSES),
    (3, 0, [5, 0, 6, 1]),
    (0, 0, [3, 0, 1, 3]),
    (4, 0, [3, 0, 1, 3]),
    (MAX, 0, [3, 0, 1, 3]),
    (3, 4, [3, 0, 1, 3]),
    (3, MAX, [3, 0, 1, 3]),
    (2, 0, [3, 0, 1, 0]),
];

/// Edges as a whole: too many, repeated, and rings that do not lead to type 0.
static EDGES: [(&'static [Edge], [u32; 4]); 5] = [
    (&[ROOM_EDGE; 65], [1, 0, 1, 0]),
    (&[ROOM_EDGE; 64], [3, 0, 1, 0]),
    (
        &[ROOM_EDGE, THING_EDGE, THING_EDGE, BALL_EDGE, BALL_EDGE],
        PASSES,
    ),
    (
        &[
            ROOM_EDGE,
            Edge {
                subtype: 2,
                supertype: 3,
            },
            BALL_EDGE,
        ],
        PASSES,
    ),
    (
        &[
            Edge {
                subtype: 1,
                supertype: 1,
            },
            THING_EDGE,
            BALL_EDGE,
        ],
        PASSES,
    ),
];

/// The second object: its name run and its types.
static SECOND_OBJECT: [(Object, [u32; 4]); 12] = [
    (YARD, PASSES),
    (
        Object {
            types: NONE,
            ..YARD
        },
        [3, 0, 2, 2],
    ),
    (
        Object {
            types: FIFTH,
            ..YARD
        },
        [3, 0, 2, 2],
    ),
    (Object { types: ANY, ..YARD }, [5, 0, 7, 1]),
    (
        Object {
            name: Run { start: 0, count: 0 },
            ..YARD
        },
        [3, 0, 2, 2],
    ),
    (
        Object {
            name: Run {
                start: 19,
                count: 0,
            },
            ..YARD
        },
        [3, 0, 2, 2],
    ),
    (
        Object {
            name: Run {
                start: 20,
                count: 0,
            },
            ..YARD
        },
        [2, 0, 2, 2],
    ),
    (
        Object {
            name: Run {
                start: 18,
                count: 2,
            },
            ..YARD
        },
        [2, 0, 2, 2],
    ),
    (
        Object {
            name: Run {
                start: MAX,
                count: MAX,
            },
            ..YARD
        },
        [2, 0, 2, 2],
    ),
    (
        Object {
            name: Run { start: 0, count: 4 },
            ..YARD
        },
        [4, 0, 2, 2],
    ),
    (
        Object {
            name: Run {
                start: 11,
                count: 4,
            },
            ..YARD
        },
        PASSES,
    ),
    (
        Object {
            name: Run { start: 0, count: 5 },
            ..YARD
        },
        PASSES,
    ),
];

/// Name bytes in which object names break the rule: a blank, a bracket, bytes below 33 and above 126.
static NAMES: [(&'static [u8], [u32; 4]); 7] = [
    (b"hal yardredmovekeep", [3, 0, 2, 1]),
    (b"hally(rdredmovekeep", [3, 0, 2, 2]),
    (b"hallyar)redmovekeep", [3, 0, 2, 2]),
    (b"hallyard\x1fedmovekeep", [3, 0, 2, 3]),
    (b"hallyard\x7fedmovekeep", [3, 0, 2, 3]),
    (b"hallyard!~]movekeep", PASSES),
    (b"hallyardredmo ekeep", [3, 0, 4, 1]),
];

/// The first predicate: its arity, and the types of three places.
static FIRST_PREDICATE: [(u32, [u32; 3], [u32; 4]); 6] = [
    (2, [0b100, 0b010, 0], PASSES),
    (4, [0b100, 0b010, 0b010], [1, 0, 3, 1]),
    (MAX, [0b100, 0b010, 0b010], [1, 0, 3, 1]),
    (2, [0b100, 0, 0b010], [3, 0, 3, 1]),
    (2, [0b10000, 0b010, 0b010], [3, 0, 3, 1]),
    (2, [0b100, 0b010, 0b10000], PASSES),
];

#[test]
fn numbers_of_types(rt: HostRuntime) {
    let mut base = two_rooms();
    for (types, expected) in &TYPES {
        base.types = *types;
        assert_eq!(rt; refusal(base.tables()), *expected);
    }
}

#[test]
fn ends_of_edges(rt: HostRuntime) {
    let mut base = two_rooms();
    for (subtype, supertype, expected) in &THIRD_EDGE {
        base.edges[2] = Edge {
            subtype: *subtype,
            supertype: *supertype,
        };
        assert_eq!(rt; refusal(base.tables()), *expected);
    }
}

#[test]
fn edges_as_a_whole(rt: HostRuntime) {
    let base = two_rooms();
    for (edges, expected) in &EDGES {
        assert_eq!(rt;
            refusal(TypedTables {
                edges,
                ..base.tables()
            }),
            *expected
        );
    }
}

#[test]
fn objects(rt: HostRuntime) {
    let mut base = two_rooms();
    for (second, expected) in &SECOND_OBJECT {
        base.objects[1] = *second;
        assert_eq!(rt; refusal(base.tables()), *expected);
    }
}

#[test]
fn name_rule(rt: HostRuntime) {
    let base = two_rooms();
    for (names, expected) in &NAMES {
        assert_eq!(rt;
            refusal(TypedTables {
                names,
                ..base.tables()
            }),
            *expected
        );
    }
}

#[test]
fn predicates(rt: HostRuntime) {
    let mut base = two_rooms();
    for (arity, masks, expected) in &FIRST_PREDICATE {
        base.predicates[0] = Predicate {
            arity: *arity,
            types: [
                TypeSet { mask: masks[0] },
                TypeSet { mask: masks[1] },
                TypeSet { mask: masks[2] },
            ],
        };
        assert_eq!(rt; refusal(base.tables()), *expected);
    }
}
