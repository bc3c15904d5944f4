//! Carrying steps out on a ledger.

ghost use Rattle.std.specs.Prelude.{◌≡◌, ℕ, ◌+◌, ◌<◌, ◌≤◌, List, map, length, take};
ghost use Rattle.std.specs.List.{AllByRecursion};
ghost use Rattle.session.specs.Book.{Outcome, go_through, one_step_more, trimmed};
ghost use Rattle.session.specs.Ledgers.{ledger_of};
ghost use Rattle.session.specs.Working.{CarriedOut, CountedOrLeft};

use crate::ledgers::{Ledger, Standing};
use crate::refusals::fault;
use form::answers::{Decline, Fault};
use form::forms::TaskForm;
use form::steps::Step;

/// The step with 0 in the argument places beyond its count.
pub(crate) fn trim(step: Step) -> Step
    ensures { result ≡ trimmed step }
{
    let kept = (step.count as usize).min(4);
    let mut args = [0; 4];
    args[..kept].copy_from_slice(&step.args[..kept]);
    Step { args, ..step }
}

/// A step means what its trimmed form means, in every row. It computes nothing: the calls that take a step cite it.
pub(crate) fn beyond_count_unseen<F: TaskForm>(form: &F, step: Step)
    ensures { (row : List ℕ) → (F.TaskForm.means form.now).judge row (trimmed step) ≡ (F.TaskForm.means form.now).judge row step }
{
    form.lawful();
    let _places: &[u32] = &step.args;
}

impl Ledger {
    /// The row that the standing steps lead to: the form's cells.
    pub(crate) fn row<F: TaskForm>(&self, form: &F) -> &[u16]
        ensures { result.now ≡ take (F.TaskForm.means form.now).width self.now.board.row }
    {
        self.board.row(form.width())
    }

    /// The place behind the last.
    fn next_place(&self) -> u32
        requires { self.now.count < 256 }
        ensures { result ≡ self.now.count + 1 }
    {
        self.count as u32 + 1
    }

    /// Carries a step out behind the last, if the form grants it and the journal has room for its changes; alters nothing where it refuses.
    pub(crate) fn carry_out<F: TaskForm>(&mut self, form: &F, step: Step) -> Result<(), Fault>
        requires { self.old.count < 256 }
        ensures one_more_step { (o : Outcome) → length o.row ≡ (F.TaskForm.means form.now).width → step ≡ trimmed step → self.old ≡ ledger_of o → CarriedOut (one_step_more o (length o.entries + 1) step ((F.TaskForm.means form.now).judge o.row step)) self.new result }
        ensures counted_or_left { CountedOrLeft self.old self.new result }
    {
        form.lawful();
        let place = self.next_place();
        let changes = form
            .judge(self.row(form), step)
            .map_err(|cause| cause.at(0, place))?;
        if !self.push(step, changes.as_slice()) {
            return Err(fault(Decline::JournalFull, place, 0));
        }
        Ok(())
    }

    /// Carries standing steps out behind the last, in order, up to the first that fails.
    pub(crate) fn carry_out_all<F: TaskForm>(
        &mut self,
        form: &F,
        standing: &[Standing],
    ) -> Result<(), Fault>
        requires { self.old.count + length standing.now ≤ 256 }
        ensures all_steps { (o : Outcome) → length o.row ≡ (F.TaskForm.means form.now).width → AllByRecursion (λ s. s ≡ trimmed s) (map (λ e. e.step) standing.now) → self.old ≡ ledger_of o → CarriedOut (go_through (F.TaskForm.means form.now) o (length o.entries + 1) (map (λ e. e.step) standing.now)) self.new result }
        ensures few_stand { self.new.count ≤ 256 }
    {
        for next in standing {
            self.carry_out(form, next.step)?;
        }
        Ok(())
    }
}
