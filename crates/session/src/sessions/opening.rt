//! Opening a session.

ghost use Rattle.std.specs.Prelude.{◌≡◌, [], replicate};
ghost use Rattle.session.specs.Ledgers.{Sound, no_standing, padded, steps_of};

use super::Session;
use crate::edits::NO_STANDING;
use crate::ledgers::{Ledger, MOST_STEPS};
use board::boards::{Board, CELLS};
use form::forms::TaskForm;

/// The row before any step, with 0 in the cells that the form does not have.
fn first_row<F: TaskForm>(form: &F) -> [u16; CELLS]
    ensures { result ≡ padded 1024 0 (F.TaskForm.means form.now).first }
{
    form.lawful();
    // a form may take long for a cell, so only its own cells are asked
    let mut row = [0; CELLS];
    for cell in 0..form.width() {
        row[cell] = form.first_value(cell);
    }
    row
}

/// A ledger with a board and no step.
fn without_steps(board: Board) -> Ledger
    ensures { result ≡ record { board = board; standing = replicate 256 no_standing; count = 0 } }
{
    Ledger {
        board,
        standing: [NO_STANDING; MOST_STEPS],
        count: 0,
    }
}

impl<F: TaskForm> Session<F> {
    /// A session with no step. It is never declined.
    pub fn open(form: F) -> Session<F>
        ensures holds_form { result.form ≡ form }
        ensures sound { Sound (F.TaskForm.means form) result.ledger }
        ensures no_step_stands { steps_of result.ledger ≡ [] }
    {
        let board = Board::with_row(first_row(&form));
        let ledger = without_steps(board);
        Session { form, ledger }
    }
}
