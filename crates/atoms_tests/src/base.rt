//! Two predicates over three objects: "at" of a ball and a room, and one without arguments. They have ten cells.

use atoms::rows::Predicate;
use types::sets::TypeSet;

/// The types of a place that says nothing.
pub const NO_TYPES: TypeSet = TypeSet { mask: 0 };

/// Predicate 0, a ball (type 2) at a room (type 1).
pub const AT: Predicate = Predicate {
    arity: 2,
    types: [TypeSet { mask: 4 }, TypeSet { mask: 2 }, NO_TYPES],
};

/// Predicate 1, without arguments.
pub const PLAIN: Predicate = Predicate {
    arity: 0,
    types: [NO_TYPES; 3],
};

/// Both, in order.
pub const PREDICATES: [Predicate; 2] = [AT, PLAIN];

/// Object 2 is at object 0, which is cell 6.
pub const ROW: [u16; 10] = [0, 0, 0, 0, 0, 0, 1, 0, 0, 0];

/// "and": parameter 0 at parameter 1, and "not": parameters 1 and 2 are equal.
pub const MOVES: [u32; 9] = [4, 1, 0, 64, 65, 3, 2, 65, 66];
