//! The record itself. It has no invariant: its calls are total.

/// The number of cells of a row.
pub const CELLS: usize = 1024;

/// The number of places of the journal.
pub const PLACES: usize = 2048;

/// A cell and its value before a change.
#[derive(Clone, Copy, PartialEq, Eq, Debug)]
pub struct JournalEntry {
    pub cell: u16,
    pub before: u16,
}

/// A row and the journal of the changes that led to it, `used` of whose places are used.
// Arrays with a count: nothing is allocated, and a draft is a copy.
#[derive(Clone, Copy)]
pub struct Board {
    pub row: [u16; CELLS],
    pub journal: [JournalEntry; PLACES],
    pub used: usize,
}
