//! Reading the row and its journal.

ghost use Rattle.std.specs.Prelude.{◌≡◌, ◌&&◌, take, if◌then◌else◌, Some, None, nat_lt, slice_index, slice_index_or};
ghost use Rattle.board.specs.Boards.{no_entry};

use crate::boards::{Board, CELLS, JournalEntry};

impl Board {
    /// A cell's value; 0 for a cell that the row does not have.
    pub fn cell(&self, at: usize) -> u16
        ensures value_or_zero { result ≡ slice_index self.now.row at }
    {
        self.row.get(at).copied().unwrap_or(0)
    }

    /// The first `width` cells, or the whole row where it has fewer.
    pub fn row(&self, width: usize) -> &[u16]
        ensures first_cells { result.now ≡ take width self.now.row }
    {
        &self.row[..width.min(CELLS)]
    }

    /// The entry at a place of the journal that is used.
    pub fn entry(&self, at: usize) -> Option<JournalEntry>
        ensures entry_if_used { result ≡ (if nat_lt at self.now.used && nat_lt at 2048 then Some (slice_index_or self.now.journal at no_entry) else None) }
    {
        // The array has more places than are used.
        if at < self.used {
            self.journal.get(at).copied()
        } else {
            None
        }
    }

    /// The number of places of the journal that are used.
    pub fn used(&self) -> usize
        ensures places_used { result ≡ self.now.used }
    {
        self.used
    }
}
