//! An admitted task as a task form.

ghost use Rattle.std.specs.Prelude.{◌≡◌, ◌≤◌};
ghost use Rattle.form.specs.Meanings.{Lawful, judged};
ghost use Rattle.atoms.specs.Laying.{layout_of};
ghost use Rattle.typed_tables.specs.Engine.{typed_meaning};
ghost use Rattle.typed_tables.specs.Facts.{layout_in};
ghost use Rattle.typed_tables.specs.StepLaws.{Complete, StepFollowsSource, GoalFollowsSource, PlansFollowSource};
ghost use Rattle.typed_tables.specs.Tables.{held};

use super::TypedTask;
use form::change_lists::ChangeList;
use form::forms::TaskForm;
use form::judgements::Cause;
use form::steps::Step;
use typed_tables::judging::Engine;

impl TypedTask<'_> {
    /// What judges the task's steps; it copies neither tables nor cells.
    fn engine(&self) -> Engine<'_>
        ensures tables { held result.tables.now ≡ held self.now.tables }
        ensures edges { result.closure.now.edges.now ≡ self.now.tables.edges.now }
        ensures cells { layout_of result.cells.now ≡ layout_in (held self.now.tables) }
    {
        Engine {
            tables: &self.tables,
            closure: &self.closure,
            cells: &self.cells,
        }
    }
}

impl TaskForm for TypedTask<'_> {
    ghost means = { λ f. typed_meaning (held f.tables) };

    fn lawful(&self)
        ensures bounds { Lawful (typed_meaning (held self.now.tables)) }
        ensures plans_follow_source { PlansFollowSource (held self.now.tables) }
    {}

    fn width(&self) -> usize {
        self.cells.width()
    }

    fn first_value(&self, cell: usize) -> u16 {
        self.engine().first_value(cell)
    }

    fn judge(&self, row: &[u16], step: Step) -> Result<ChangeList, Cause>
        ensures judgement_of_meaning { judged result ≡ (typed_meaning (held self.now.tables)).judge row.now step }
        ensures follows_source { StepFollowsSource (held self.now.tables) row.now step }
        ensures complete_up_to_four { step.count ≤ 4 → Complete step }
    {
        self.engine().judge_step(row, step)
    }

    fn unmet_goal(&self, row: &[u16]) -> Option<u32>
        ensures first_unmet_item { result ≡ (typed_meaning (held self.now.tables)).unmet row.now }
        ensures follows_source { GoalFollowsSource (held self.now.tables) row.now }
    {
        self.engine().unmet_goal(row)
    }
}
