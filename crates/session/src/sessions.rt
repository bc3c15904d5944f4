//! The type of a session.

ghost use Rattle.std.specs.Prelude.{◌≤◌};

use crate::ledgers::Ledger;

pub mod editing;
pub mod opening;
pub mod reading;

/// A task form, and what the standing steps leave: row, journal and the steps with their numbers of changes.
#[derive(Drop)]
pub struct Session<F> {
    form: F,
    ledger: Ledger,
    ghost few: { ledger.count ≤ 256 },
}
