//! Writing a change list, and undoing it.

ghost use Rattle.std.specs.Prelude.{◌≡◌, ◌<◌, true, ◌++◌, length, take, replicate, if◌then◌else◌, slice_set};
ghost use Rattle.form.specs.Leading.{written};
ghost use Rattle.board.specs.Boards.{no_entry, entries_of, changed, made, cells_exist, writable, unchanged, undone, UnusedAreEmpty};

use crate::boards::{Board, CELLS, JournalEntry, PLACES};
use form::steps::Change;

/// What an unused place of the journal holds.
const NO_ENTRY: JournalEntry = JournalEntry { cell: 0, before: 0 };

/// Whether every change is to a cell that a board has.
fn cells_exist(changes: &[Change]) -> bool
    ensures { result ≡ cells_exist changes.now }
{
    changes
        .iter()
        .all(|change| usize::from(change.cell) < CELLS)
}

/// Writes the item at an index, if the slice has it, so that undoing needs no bound on what a board holds.
fn put<T: Copy>(items: &mut [T], at: usize, item: T)
    ensures { items.new ≡ slice_set items.old at item }
{
    // an item written through `get_mut` leaves the list that comes back without a proof
    if at < items.len() {
        items[at] = item;
    }
}

impl Board {
    /// A board with a row and nothing in the journal.
    pub fn with_row(row: [u16; CELLS]) -> Board
        ensures row_given { result.row ≡ row }
        ensures none_used { result.used ≡ 0 }
        ensures journal_empty { result.journal ≡ replicate 2048 no_entry }
    {
        Board {
            row,
            journal: [NO_ENTRY; PLACES],
            used: 0,
        }
    }

    /// Whether the journal has room for the changes, and all cells exist.
    fn can_write(&self, changes: &[Change]) -> bool
        ensures { result ≡ writable self.now changes.now }
    {
        let used = self.used.checked_add(changes.len());
        used.is_some_and(|used| used <= PLACES) && cells_exist(changes)
    }

    /// Makes one change, and notes the cell's old value behind the last entry.
    fn make(&mut self, change: Change)
        requires room { self.old.used < 2048 }
        requires cell_exists { change.cell < 1024 }
        ensures { self.new ≡ changed self.old change }
    {
        let cell = usize::from(change.cell);
        let before = self.row[cell];
        self.row[cell] = change.value;
        let at = self.used;
        self.journal[at] = JournalEntry {
            cell: change.cell,
            before,
        };
        self.used = at + 1;
    }

    /// Makes the changes in order.
    fn make_all(&mut self, changes: &[Change])
        requires { writable self.old changes.now ≡ true }
        ensures { self.new ≡ made self.old changes.now }
    {
        for change in changes {
            self.make(*change);
        }
    }

    /// Makes the changes if they can be written, and says whether they were.
    fn make_if_writable(&mut self, changes: &[Change]) -> bool
        ensures writable_or_not { result ≡ writable self.old changes.now }
        ensures made_or_left { self.new ≡ (if result then made self.old changes.now else self.old) }
    {
        if !self.can_write(changes) {
            return false;
        }
        self.make_all(changes);
        true
    }

    /// Writes the changes in order and notes each cell's old value; says whether it did, and alters nothing where the journal has too little room or a cell does not exist.
    // A `bool`: changes that do not fit leave nothing more to tell.
    pub fn write(&mut self, changes: &[Change]) -> bool
        ensures written_if_it_fits { result ≡ writable self.old changes.now }
        ensures all_or_nothing { self.new ≡ (if result then made self.old changes.now else self.old) }
        ensures row_after { result ≡ true → self.new.row ≡ written self.old.row changes.now }
        ensures journal_after { result ≡ true → take self.new.used self.new.journal ≡ take self.old.used self.old.journal ++ entries_of self.old.row changes.now }
        ensures undoing_gives_it_back { result ≡ true → UnusedAreEmpty self.old → undone (length changes.now) self.new ≡ self.old }
        ensures unused_stay_empty { UnusedAreEmpty self.old → UnusedAreEmpty self.new }
    {
        self.make_if_writable(changes)
    }

    /// Puts the newest entry's cell back, and empties the entry.
    fn undo_newest(&mut self)
        requires { 0 < self.old.used }
        ensures { self.new ≡ unchanged self.old }
    {
        let at = self.used - 1;
        let newest = self.journal.get(at).copied().unwrap_or(NO_ENTRY);
        put(&mut self.row, usize::from(newest.cell), newest.before);
        put(&mut self.journal, at, NO_ENTRY);
        self.used = at;
    }

    /// Undoes the newest `count` changes, newest first, or all of them where there are fewer.
    pub fn undo(&mut self, count: usize)
        ensures newest_undone { self.new ≡ undone count self.old }
        ensures unused_stay_empty { UnusedAreEmpty self.old → UnusedAreEmpty self.new }
    {
        for _ in 0..count.min(self.used) {
            self.undo_newest();
        }
    }
}

#[cfg(test)]
mod tests {
    use super::*;

    fn change(cell: u16, value: u16) -> Change {
        Change { cell, value }
    }

    fn noted(cell: u16, before: u16) -> Option<JournalEntry> {
        Some(JournalEntry { cell, before })
    }

    #[test]
    fn changes_are_undone_newest_first(rt: HostRuntime) {
        let mut board = Board::with_row([7; CELLS]);
        assert!(rt; board.write(&[change(2, 8), change(2, 9)]));
        assert_eq!(rt; board.row(4), [7, 7, 9, 7].as_slice());
        assert_eq!(rt; board.entry(0), noted(2, 7));
        assert_eq!(rt; board.entry(1), noted(2, 8));
        assert_eq!(rt; board.entry(2), None);
        board.undo(1);
        assert_eq!(rt; (board.cell(2), board.used()), (8, 1));
        assert_eq!(rt; board.journal[1], NO_ENTRY);
        board.undo(1);
        assert_eq!(rt; (board.cell(2), board.used()), (7, 0));
        assert_eq!(rt; board.journal[0], NO_ENTRY);
        board.undo(5);
        assert_eq!(rt; (board.row(2000).len(), board.used()), (CELLS, 0));
        assert_eq!(rt; (board.cell(0), board.cell(CELLS)), (7, 0));
    }

    #[test]
    fn what_does_not_fit_alters_nothing(rt: HostRuntime) {
        let last = change(1023, 1);
        let mut board = Board::with_row([0; CELLS]);
        assert!(rt; !board.write(&[last; 2049]));
        assert!(rt; !board.write(&[last, change(1024, 1)]));
        assert_eq!(rt; (board.cell(1023), board.used()), (0, 0));
        assert!(rt; board.write(&[last; 2048]));
        assert!(rt; !board.write(&[last]));
        assert_eq!(rt; (board.cell(1023), board.used()), (1, 2048));
        assert_eq!(rt; board.entry(2047), noted(1023, 1));
        board.undo(4000);
        assert_eq!(rt; (board.cell(1023), board.used()), (0, 0));
        assert_eq!(rt; board.journal[0], NO_ENTRY);
    }
}
