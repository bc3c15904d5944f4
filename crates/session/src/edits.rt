//! Putting a standing step behind the last, and taking it back.

ghost use Rattle.std.specs.Prelude.{◌≡◌, ◌-◌, ◌<◌, ◌≤◌, if◌then◌else◌, take, drop};
ghost use Rattle.board.specs.Boards.{writable};
ghost use Rattle.session.specs.Working.{pushed, popped, popped_by};

use crate::ledgers::{Ledger, Standing};
use form::steps::{Change, Step};

/// What an unused place of the standing steps holds.
pub(crate) const NO_STANDING: Standing = Standing {
    step: Step {
        operator: 0,
        count: 0,
        args: [0; 4],
    },
    changes: 0,
};

impl Ledger {
    /// Writes a step's changes and puts it behind the last; says whether the board could take the changes, and alters nothing where it could not.
    // A `bool`, as the board gives it.
    pub(crate) fn push(&mut self, step: Step, changes: &[Change]) -> bool
        requires { self.old.count < 256 }
        ensures taken_if_writable { result ≡ writable self.old.board changes.now }
        ensures pushed_or_left { self.new ≡ (if result then pushed self.old step changes.now else self.old) }
    {
        if !self.board.write(changes) {
            return false;
        }
        let at = self.count;
        self.standing[at] = Standing {
            step,
            changes: changes.len() as u32,
        };
        self.count = at + 1;
        true
    }

    /// Undoes the last step's changes, and only those, and empties its place.
    pub(crate) fn pop(&mut self)
        requires some_stand { 0 < self.old.count }
        requires few_stand { self.old.count ≤ 256 }
        ensures { self.new ≡ popped self.old }
    {
        let at = self.count - 1;
        self.board.undo(self.standing[at].changes as usize);
        self.standing[at] = NO_STANDING;
        self.count = at;
    }

    /// Takes steps back until so many stand.
    pub(crate) fn cut_back(&mut self, left: usize)
        requires few_stand { self.old.count ≤ 256 }
        requires enough_stand { left ≤ self.old.count }
        ensures taken_back { self.new ≡ popped_by (self.old.count - left) self.old }
        ensures so_many_left { self.new.count ≡ left }
    {
        for _ in left..self.count {
            self.pop();
        }
    }

    /// The standing steps behind the first so many.
    pub(crate) fn following(&self, first: usize) -> &[Standing]
        requires few_stand { self.now.count ≤ 256 }
        requires enough_stand { first ≤ self.now.count }
        ensures { result.now ≡ take (self.now.count - first) (drop first self.now.standing) }
    {
        &self.standing[first..self.count]
    }
}
