//! An admitted task that is lent, as the task form with names that it is.
//!
//! Several sessions can so stand above one task. Each answer is the task's own, and so is what it promises.

ghost use Rattle.std.specs.Prelude.{◌≡◌, ◌<◌, length, IfOk};
ghost use Rattle.form.specs.Meanings.{Lawful, judged};
ghost use Rattle.fdr.specs.Engine.{fdr_meaning};
ghost use Rattle.fdr.specs.Naming.{fdr_naming};
ghost use Rattle.fdr.specs.SourceLaws.{StepFollowsSource, GoalFollowsSource, PlansFollowSource};
ghost use Rattle.fdr.specs.Tables.{held};

use super::FdrTask;
use form::change_lists::ChangeList;
use form::forms::{NamedForm, ReadableForm, TaskForm};
use form::judgements::Cause;
use form::steps::Step;

impl TaskForm for &FdrTask<'_> {
    ghost means = { λ f. fdr_meaning (held f.now.tables) };

    fn lawful(&self)
        ensures bounds { Lawful (fdr_meaning (held self.now.now.tables)) }
        ensures plans_follow_source { PlansFollowSource (held self.now.now.tables) }
    {
        (**self).lawful();
    }

    fn width(&self) -> usize {
        (**self).width()
    }

    fn first_value(&self, cell: usize) -> u16 {
        (**self).first_value(cell)
    }

    fn judge(&self, row: &[u16], step: Step) -> Result<ChangeList, Cause>
        ensures judgement_of_meaning { judged result ≡ (fdr_meaning (held self.now.now.tables)).judge row.now step }
        ensures follows_source { StepFollowsSource (held self.now.now.tables) row.now step }
    {
        (**self).judge(row, step)
    }

    fn unmet_goal(&self, row: &[u16]) -> Option<u32>
        ensures first_unmet_item { result ≡ (fdr_meaning (held self.now.now.tables)).unmet row.now }
        ensures follows_source { GoalFollowsSource (held self.now.now.tables) row.now }
    {
        (**self).unmet_goal(row)
    }
}

impl NamedForm for &FdrTask<'_> {
    const MOST_WORDS: u32 = 32;

    ghost most = { 32 };

    ghost names = { λ f. fdr_naming (held f.now.tables) };

    fn word_limit() -> u32
        ensures most_words_of_line { result ≡ 32 }
    {
        Self::MOST_WORDS
    }

    fn names_lawful(&self) {
        (**self).names_lawful();
    }

    fn step_named(&self, text: &[u8]) -> Result<Step, u32>
        ensures step_of_text { result ≡ (fdr_naming (held self.now.now.tables)).step_named text.now }
        ensures operator_exists { IfOk result (λ s. s.operator < length (held self.now.now.tables).operators) }
    {
        (**self).step_named(text)
    }

    fn write_text(&self, step: Step, buffer: &mut [u8]) -> usize {
        (**self).write_text(step, buffer)
    }
}

impl ReadableForm for &FdrTask<'_> {
    fn names_readable(&self) {
        (**self).names_readable();
    }
}
