//! A log of calls made on a session.

ghost use Rattle.std.specs.Prelude.{◌≡◌, []};
ghost use Rattle.session.specs.Answered.{Answered};
ghost use Rattle.session.specs.Book.{after_all, answers};
ghost use Rattle.session.specs.Held.{HoldsPlan};
ghost use Rattle.session.specs.Laws.{RunLaw};
ghost use Rattle.session.specs.Ledgers.{Sound, steps_of};
ghost use Rattle.session.specs.Logs.{answers_of, calls_of};

use crate::calls::{Call, Exchange};
use crate::sessions::Session;
use form::answers::Answer;
use form::forms::TaskForm;

/// Makes one call.
fn make<F: TaskForm>(session: &mut Session<F>, call: Call) -> Answer
    ensures answered_as_in_book { Answered (F.TaskForm.means session.old.form) call session.old.ledger session.new.ledger result }
    ensures form_stays { session.new.form ≡ session.old.form }
{
    // A match: a log holds its calls as data.
    match call {
        Call::Append { step } => session.append(step),
        Call::Insert { place, step } => session.insert(place, step),
        Call::Strike { place } => session.strike(place),
        Call::Retract => session.retract(),
        Call::Verdict => session.verdict(),
    }
}

/// Makes the calls of a log in order, and writes each answer beside its call.
pub fn perform<F: TaskForm>(session: &mut Session<F>, log: &mut [Exchange])
    ensures answers_of_the_book { Sound (F.TaskForm.means session.old.form) session.old.ledger → answers_of log.new ≡ answers (F.TaskForm.means session.old.form) (calls_of log.old) (steps_of session.old.ledger) }
    ensures stays_sound { Sound (F.TaskForm.means session.old.form) session.old.ledger → Sound (F.TaskForm.means session.old.form) session.new.ledger }
    ensures holds_what_the_book_keeps { Sound (F.TaskForm.means session.old.form) session.old.ledger → steps_of session.new.ledger ≡ after_all (F.TaskForm.means session.old.form) (calls_of log.old) (steps_of session.old.ledger) }
    ensures calls_stay { calls_of log.new ≡ calls_of log.old }
    ensures law_of_every_call { Sound (F.TaskForm.means session.old.form) session.old.ledger → RunLaw (F.TaskForm.means session.old.form) (calls_of log.old) (steps_of session.old.ledger) }
    ensures holds_the_plan_as_appended_anew { Sound (F.TaskForm.means session.old.form) session.old.ledger → HoldsPlan (F.TaskForm.means session.old.form) session.new.ledger }
    ensures form_stays { session.new.form ≡ session.old.form }
{
    for exchange in log.iter_mut() {
        exchange.answer = make(session, exchange.call);
    }
}

/// Opens a session, makes the calls of a log on it in order, and gives the session back.
pub fn run<F: TaskForm>(form: F, log: &mut [Exchange]) -> Session<F>
    ensures answers_of_the_book { answers_of log.new ≡ answers (F.TaskForm.means form) (calls_of log.old) [] }
    ensures holds_what_the_book_keeps { Sound (F.TaskForm.means form) result.ledger × (steps_of result.ledger ≡ after_all (F.TaskForm.means form) (calls_of log.old) []) }
    ensures calls_stay { calls_of log.new ≡ calls_of log.old }
    ensures law_of_every_call { RunLaw (F.TaskForm.means form) (calls_of log.old) [] }
    ensures holds_the_plan_as_appended_anew { HoldsPlan (F.TaskForm.means form) result.ledger }
    ensures form_stays { result.form ≡ form }
{
    let mut session = Session::open(form);
    perform(&mut session, log);
    session
}
