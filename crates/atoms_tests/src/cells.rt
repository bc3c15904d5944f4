//! Widths and cells.

use crate::base::{AT, NO_TYPES, PLAIN, PREDICATES};
use atoms::cells::Cells;
use atoms::rows::Predicate;

/// One argument.
const ONE: Predicate = Predicate {
    arity: 1,
    types: [NO_TYPES; 3],
};

/// Three arguments.
const THREE: Predicate = Predicate {
    arity: 3,
    types: [NO_TYPES; 3],
};

/// More arguments than a predicate may have.
const FOUR: Predicate = Predicate {
    arity: 4,
    types: [NO_TYPES; 3],
};

/// The width of predicates, if a row has room for them.
fn width(objects: u32, predicates: &[Predicate]) -> Option<usize> {
    Cells::of(objects, predicates).map(|cells| cells.width())
}

#[test]
fn widths(rt: HostRuntime) {
    assert_eq!(rt; width(3, &PREDICATES), Some(10));
    assert_eq!(rt; width(0, &PREDICATES), Some(1));
    assert_eq!(rt; width(32, &[AT]), Some(1024));
    assert_eq!(rt; width(32, &[AT, PLAIN]), None);
    assert_eq!(rt; width(10, &[THREE, ONE]), Some(1010));
}

#[test]
fn no_room(rt: HostRuntime) {
    assert_eq!(rt; width(1, &[PLAIN; 32]), Some(32));
    assert_eq!(rt; width(1, &[PLAIN; 33]), None);
    assert_eq!(rt; width(1, &[FOUR]), None);
    assert_eq!(rt; width(u32::MAX, &[THREE]), None);
}

/// A predicate of the sample, objects, and their cell: the first object weighs most.
static CELLS: [(u32, &'static [u32], Option<u16>); 10] = [
    (0, &[0, 0], Some(0)),
    (0, &[0, 2], Some(2)),
    (0, &[2, 0], Some(6)),
    (0, &[2, 2], Some(8)),
    (1, &[], Some(9)),
    (0, &[3, 0], None),
    (0, &[2], None),
    (0, &[2, 0, 0], None),
    (1, &[0], None),
    (2, &[], None),
];

#[test]
fn cells_of_atoms(rt: HostRuntime) {
    for (predicate, objects, cell) in &CELLS {
        let found = Cells::of(3, &PREDICATES).map_or(
            Some(9999),
            |cells| cells.cell(*predicate, objects),
        );
        assert_eq!(rt; found, *cell);
    }
}
