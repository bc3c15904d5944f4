//! Reading what a session holds.

ghost use Rattle.std.specs.Prelude.{◌≡◌, ◌-◌, ◌&&◌, take, if◌then◌else◌, Some, None, nat_lt, slice_index, slice_index_or};
ghost use Rattle.board.specs.Boards.{no_entry};
ghost use Rattle.session.specs.Book.{place_exists};
ghost use Rattle.session.specs.Ledgers.{no_standing};

use super::Session;
use crate::ledgers::Standing;
use board::boards::JournalEntry;

impl<F> Session<F> {
    /// The number of steps that stand.
    pub fn standing_count(&self) -> usize
        ensures steps_that_stand { result ≡ self.now.ledger.count }
    {
        self.ledger.count
    }

    /// The standing steps with their numbers of changes, in order.
    pub fn standing(&self) -> &[Standing]
        ensures steps_in_order { result.now ≡ take self.now.ledger.count self.now.ledger.standing }
    {
        &self.ledger.standing[..self.ledger.count]
    }

    /// The step at a place, from 1, with its number of changes.
    pub fn entry(&self, place: usize) -> Option<Standing>
        ensures step_if_it_stands { result ≡ (if place_exists place self.now.ledger.count then Some (slice_index_or self.now.ledger.standing (place - 1) no_standing) else None) }
    {
        self.standing().get(place.checked_sub(1)?).copied()
    }

    /// A cell's value in the row that the standing steps lead to; 0 for a cell that the row does not have.
    pub fn cell(&self, at: usize) -> u16
        ensures value_or_zero { result ≡ slice_index self.now.ledger.board.row at }
    {
        self.ledger.board.cell(at)
    }

    /// The number of changes that the journal notes.
    pub fn journal_len(&self) -> usize
        ensures changes_noted { result ≡ self.now.ledger.board.used }
    {
        self.ledger.board.used()
    }

    /// The journal's entry for a change, from 0, oldest first.
    pub fn journal_entry(&self, at: usize) -> Option<JournalEntry>
        ensures entry_if_noted { result ≡ (if nat_lt at self.now.ledger.board.used && nat_lt at 2048 then Some (slice_index_or self.now.ledger.board.journal at no_entry) else None) }
    {
        self.ledger.board.entry(at)
    }

    /// The form that steps are judged by.
    pub fn form(&self) -> &F
        ensures form_held { result.now ≡ self.now.form }
    {
        &self.form
    }
}
