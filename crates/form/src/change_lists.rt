//! The change list of a granted step: at most 32 changes, in a fixed place, so that judging allocates nothing.

ghost use Rattle.std.specs.Prelude.{◌≡◌, ◌≤◌, length};

use crate::steps::Change;

pub mod edits;

/// The changes of one granted step, in the order in which they are made.
// An array with a count: judging allocates nothing.
#[derive(Clone, Copy)]
pub struct ChangeList {
    len: usize,
    items: [Change; 32],
    ghost few: { len ≤ 32 },
    ghost places: { length items ≡ 32 },
}
