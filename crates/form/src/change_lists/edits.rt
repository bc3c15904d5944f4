//! Making and reading a change list.

ghost use Rattle.std.specs.Prelude.{◌≡◌, [], ◌∷◌, ◌++◌, length, if◌then◌else◌, nat_lt};
ghost use Rattle.form.specs.ChangeLists.{listed};

use super::ChangeList;
use crate::steps::Change;

/// The most changes that one step makes.
pub const MOST_CHANGES: usize = 32;

impl ChangeList {
    /// A list with no change.
    pub fn new() -> ChangeList
        ensures holds_none { listed result ≡ [] }
    {
        ChangeList {
            len: 0,
            items: [Change { cell: 0, value: 0 }; MOST_CHANGES],
        }
    }

    /// Whether a place is unused.
    fn has_place(&self) -> bool
        ensures { result ≡ nat_lt self.now.len 32 }
    {
        self.len < MOST_CHANGES
    }

    /// Puts a change behind the last; says whether there was room, and leaves a full list as it was.
    // A `bool`: a full list has nothing more to tell.
    pub fn push(&mut self, change: Change) -> bool
        ensures has_room { result ≡ nat_lt (length (listed self.old)) 32 }
        ensures holds_change_last { listed self.new ≡ (if result then listed self.old ++ change ∷ [] else listed self.old) }
    {
        let at = self.len;
        if !self.has_place() {
            return false;
        }
        self.items[at] = change;
        self.len = at + 1;
        true
    }

    /// The changes, in order.
    pub fn as_slice(&self) -> &[Change]
        ensures all_in_order { result.now ≡ listed self.now }
    {
        &self.items[..self.len]
    }
}
