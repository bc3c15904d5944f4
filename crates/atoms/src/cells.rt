//! The cells of a typed task: one for each predicate with objects for its arguments.

ghost use Rattle.std.specs.Prelude.{◌≡◌, ◌≤◌, true, length, take};
ghost use Rattle.atoms.specs.Layouts.{laid_out};

pub mod finding;
pub mod laying;

/// A predicate that is laid out: the number of its arguments, and its first cell.
#[derive(Clone, Copy)]
struct PredicateCells {
    arity: u32,
    first: u32,
}

/// The number of objects, and each predicate's arity and first cell.
///
/// There are at most 32 predicates of arity at most 3, with at most 1,024 cells together.
// The places are a fixed array with a count, since judging allocates nothing.
#[derive(Clone, Copy)]
pub struct Cells {
    objects: u32,
    count: usize,
    predicates: [PredicateCells; 32],
    width: u32,
    ghost few: { count ≤ 32 },
    ghost places: { length predicates ≡ 32 },
    ghost narrow: { width ≤ 1024 },
    ghost laid: { laid_out objects 0 (take count predicates) width ≡ true },
}
