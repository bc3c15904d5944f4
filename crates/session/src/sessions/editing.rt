//! The calls that edit the standing steps, and the verdict.

ghost use Rattle.std.specs.Prelude.{◌≡◌, ℕ, List, take};
ghost use Rattle.form.specs.Numbers.{answer_of};
ghost use Rattle.session.specs.Book.{by_goal, trimmed};
ghost use Rattle.session.specs.Answered.{Answered};

use super::Session;
use crate::calls::Call;
use crate::carrying::{beyond_count_unseen, trim};
use crate::ledgers::Ledger;
use crate::refusals::check_at_once;
use form::answers::{Answer, Fault};
use form::forms::TaskForm;
use form::steps::Step;

/// The first goal item that a ledger's row leaves unmet.
fn first_unmet<F: TaskForm>(form: &F, ledger: &Ledger) -> Option<u32>
    ensures { result ≡ (F.TaskForm.means form.now).unmet (take (F.TaskForm.means form.now).width ledger.now.board.row) }
{
    form.unmet_goal(ledger.row(form))
}

/// The verdict where this goal item is the first unmet, or none is.
// No `From`: an item alone does not say that it is one that is unmet.
fn verdict_by(unmet: Option<u32>) -> Answer
    ensures { result ≡ by_goal unmet }
{
    match unmet {
        None => Answer::Plan,
        Some(item) => Answer::Open(item),
    }
}

impl<F: TaskForm> Session<F> {
    /// Puts a step behind the last, if it can be carried out there.
    pub fn append(&mut self, step: Step) -> Answer
        ensures answered_as_in_book { Answered (F.TaskForm.means self.old.form) (Call.Append step) self.old.ledger self.new.ledger result }
        ensures judged_as_given { (row : List ℕ) → (F.TaskForm.means self.old.form).judge row (trimmed step) ≡ (F.TaskForm.means self.old.form).judge row step }
        ensures form_stays { self.new.form ≡ self.old.form }
    {
        beyond_count_unseen(&self.form, step);
        Answer::from(self.try_append(step))
    }

    /// Puts a step at a place, if it and what follows it can be carried out.
    pub fn insert(&mut self, place: u32, step: Step) -> Answer
        ensures answered_as_in_book { Answered (F.TaskForm.means self.old.form) (Call.Insert place step) self.old.ledger self.new.ledger result }
        ensures judged_as_given { (row : List ℕ) → (F.TaskForm.means self.old.form).judge row (trimmed step) ≡ (F.TaskForm.means self.old.form).judge row step }
        ensures form_stays { self.new.form ≡ self.old.form }
    {
        beyond_count_unseen(&self.form, step);
        Answer::from(self.try_insert(place, step))
    }

    /// Removes the step at a place, if what follows it can be carried out without it.
    pub fn strike(&mut self, place: u32) -> Answer
        ensures answered_as_in_book { Answered (F.TaskForm.means self.old.form) (Call.Strike place) self.old.ledger self.new.ledger result }
        ensures form_stays { self.new.form ≡ self.old.form }
    {
        Answer::from(self.try_strike(place))
    }

    /// Removes the last step: its own changes are undone, and nothing is judged.
    pub fn retract(&mut self) -> Answer
        ensures answered_as_in_book { Answered (F.TaskForm.means self.old.form) Call.Retract self.old.ledger self.new.ledger result }
        ensures form_stays { self.new.form ≡ self.old.form }
    {
        Answer::from(self.try_retract())
    }

    /// Whether the standing steps lead to the goal; if not, the first goal item that they leave unmet.
    pub fn verdict(&self) -> Answer
        ensures answered_as_in_book { Answered (F.TaskForm.means self.now.form) Call.Verdict self.now.ledger self.now.ledger result }
    {
        self.form.lawful();
        verdict_by(first_unmet(&self.form, &self.ledger))
    }

    /// Carries a step out behind the last.
    fn try_append(&mut self, step: Step) -> Result<(), Fault>
        ensures answered_as_in_book { Answered (F.TaskForm.means self.old.form) (Call.Append step) self.old.ledger self.new.ledger (answer_of result) }
        ensures form_stays { self.new.form ≡ self.old.form }
    {
        self.form.lawful();
        check_at_once(Call::Append { step }, self.ledger.count as u32)?;
        self.ledger.carry_out(&self.form, trim(step))
    }

    /// Carries a step out at a place and, again, what follows it, on a draft; keeps the draft if nothing fails.
    fn try_insert(&mut self, place: u32, step: Step) -> Result<(), Fault>
        ensures answered_as_in_book { Answered (F.TaskForm.means self.old.form) (Call.Insert place step) self.old.ledger self.new.ledger (answer_of result) }
        ensures form_stays { self.new.form ≡ self.old.form }
    {
        self.form.lawful();
        check_at_once(Call::Insert { place, step }, self.ledger.count as u32)?;
        let before = place as usize - 1;
        let mut draft = self.ledger;
        draft.cut_back(before);
        draft.carry_out(&self.form, trim(step))?;
        draft.carry_out_all(&self.form, self.ledger.following(before))?;
        self.ledger = draft;
        Ok(())
    }

    /// Removes the step at a place and carries out, again, what follows it, on a draft; keeps the draft if nothing fails.
    fn try_strike(&mut self, place: u32) -> Result<(), Fault>
        ensures answered_as_in_book { Answered (F.TaskForm.means self.old.form) (Call.Strike place) self.old.ledger self.new.ledger (answer_of result) }
        ensures form_stays { self.new.form ≡ self.old.form }
    {
        self.form.lawful();
        check_at_once(Call::Strike { place }, self.ledger.count as u32)?;
        let struck = place as usize;
        let mut draft = self.ledger;
        draft.cut_back(struck - 1);
        draft.carry_out_all(&self.form, self.ledger.following(struck))?;
        self.ledger = draft;
        Ok(())
    }

    /// Takes the last step back.
    fn try_retract(&mut self) -> Result<(), Fault>
        ensures answered_as_in_book { Answered (F.TaskForm.means self.old.form) Call.Retract self.old.ledger self.new.ledger (answer_of result) }
        ensures form_stays { self.new.form ≡ self.old.form }
    {
        self.form.lawful();
        check_at_once(Call::Retract, self.ledger.count as u32)?;
        self.ledger.pop();
        Ok(())
    }
}
