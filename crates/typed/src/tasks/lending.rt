//! An admitted task that is lent, as the task form that it is.
//!
//! Several sessions can so stand above one task. Each answer is the task's own, and so is what it promises.

ghost use Rattle.std.specs.Prelude.{◌≡◌, ◌≤◌};
ghost use Rattle.form.specs.Meanings.{Lawful, judged};
ghost use Rattle.typed_tables.specs.Engine.{typed_meaning};
ghost use Rattle.typed_tables.specs.StepLaws.{Complete, StepFollowsSource, GoalFollowsSource, PlansFollowSource};
ghost use Rattle.typed_tables.specs.Tables.{held};

use super::TypedTask;
use form::change_lists::ChangeList;
use form::forms::TaskForm;
use form::judgements::Cause;
use form::steps::Step;

impl TaskForm for &TypedTask<'_> {
    ghost means = { λ f. typed_meaning (held f.now.tables) };

    fn lawful(&self)
        ensures bounds { Lawful (typed_meaning (held self.now.now.tables)) }
        ensures plans_follow_source { PlansFollowSource (held self.now.now.tables) }
    {
        (**self).lawful();
    }

    fn width(&self) -> usize {
        (**self).width()
    }

    fn first_value(&self, cell: usize) -> u16 {
        (**self).first_value(cell)
    }

    fn judge(&self, row: &[u16], step: Step) -> Result<ChangeList, Cause>
        ensures judgement_of_meaning { judged result ≡ (typed_meaning (held self.now.now.tables)).judge row.now step }
        ensures follows_source { StepFollowsSource (held self.now.now.tables) row.now step }
        ensures complete_up_to_four { step.count ≤ 4 → Complete step }
    {
        (**self).judge(row, step)
    }

    fn unmet_goal(&self, row: &[u16]) -> Option<u32>
        ensures first_unmet_item { result ≡ (typed_meaning (held self.now.now.tables)).unmet row.now }
        ensures follows_source { GoalFollowsSource (held self.now.now.tables) row.now }
    {
        (**self).unmet_goal(row)
    }
}
