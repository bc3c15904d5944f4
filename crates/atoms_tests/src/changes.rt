//! The changes of steps.

use crate::base::PREDICATES;
use atoms::cells::Cells;
use atoms::changes::change_list;
use atoms::rows::Atom;
use form::change_lists::ChangeList;
use form::steps::Change;

/// Parameter 0 at parameter 1.
const WAS: Atom = Atom {
    predicate: 0,
    terms: [64, 65, 0],
};

/// The same; the last place says nothing.
const WAS_AGAIN: Atom = Atom {
    predicate: 0,
    terms: [64, 65, 7],
};

/// The same by its objects, where the arguments are 2 and 0.
const WAS_BY_OBJECTS: Atom = Atom {
    predicate: 0,
    terms: [2, 0, 9],
};

/// Parameter 0 at parameter 2.
const IS: Atom = Atom {
    predicate: 0,
    terms: [64, 66, 0],
};

/// A predicate that does not exist.
const NO_PREDICATE: Atom = Atom {
    predicate: 2,
    terms: [0, 0, 0],
};

/// An object that does not exist.
const NO_OBJECT: Atom = Atom {
    predicate: 0,
    terms: [3, 0, 0],
};

/// Arguments, added and deleted atoms, and the changes.
static CHANGES: [(
    &'static [u32],
    &'static [Atom],
    &'static [Atom],
    &'static [Change],
); 4] = [
    (
        &[2, 0, 1],
        &[IS],
        &[WAS],
        &[Change { cell: 7, value: 1 }, Change { cell: 6, value: 0 }],
    ),
    (&[2, 0], &[WAS], &[WAS], &[Change { cell: 6, value: 1 }]),
    (
        &[2, 0, 2],
        &[WAS, WAS_AGAIN, WAS_BY_OBJECTS],
        &[IS, IS],
        &[Change { cell: 6, value: 1 }, Change { cell: 8, value: 0 }],
    ),
    (&[2, 0], &[NO_PREDICATE, NO_OBJECT, IS], &[], &[]),
];

#[test]
fn changes_of_steps(rt: HostRuntime) {
    for (arguments, added, deleted, made) in &CHANGES {
        let list = Cells::of(3, &PREDICATES).map_or(ChangeList::new(), |cells| {
            change_list(&cells, arguments, added, deleted)
        });
        assert_eq!(rt; list.as_slice(), *made);
    }
}
