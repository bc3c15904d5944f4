//! An admitted task as a task form with names.

ghost use Rattle.std.specs.Prelude.{◌≡◌, ◌↔◌, ◌<◌, length, IfOk, IfSome, IsSome, slice_index, slice_index_or};
ghost use Rattle.form.specs.Meanings.{Lawful, judged};
ghost use Rattle.fdr.specs.Engine.{fdr_meaning, judge_step, no_operator};
ghost use Rattle.fdr.specs.Naming.{fdr_naming};
ghost use Rattle.fdr.specs.SourceLaws.{StepFollowsSource, GoalFollowsSource, PlansFollowSource};
ghost use Rattle.fdr.specs.Tables.{held};

use super::FdrTask;
use crate::judging::Situation;
use crate::tables::Operator;
use form::change_lists::ChangeList;
use form::forms::{NamedForm, ReadableForm, TaskForm};
use form::judgements::Cause;
use form::steps::Step;
use rows::names::find_name;
use rows::runs::part_of;

impl TaskForm for FdrTask<'_> {
    ghost means = { λ f. fdr_meaning (held f.tables) };

    fn lawful(&self)
        ensures bounds { Lawful (fdr_meaning (held self.now.tables)) }
        ensures plans_follow_source { PlansFollowSource (held self.now.tables) }
    {}

    fn width(&self) -> usize {
        self.tables.variables.len()
    }

    fn first_value(&self, cell: usize) -> u16 {
        self.initial_value(cell) as u16
    }

    #[tactic(auto, using(crate::proofs::Admitted::step_follows_if_admitted))]
    fn judge(&self, row: &[u16], step: Step) -> Result<ChangeList, Cause>
        ensures judgement_of_meaning { judged result ≡ (fdr_meaning (held self.now.tables)).judge row.now step }
        ensures follows_source { StepFollowsSource (held self.now.tables) row.now step }
    {
        self.judge_step(row, step)
    }

    #[tactic(auto, using(crate::proofs::Admitted::goal_follows_if_admitted))]
    fn unmet_goal(&self, row: &[u16]) -> Option<u32>
        ensures first_unmet_item { result ≡ (fdr_meaning (held self.now.tables)).unmet row.now }
        ensures follows_source { GoalFollowsSource (held self.now.tables) row.now }
    {
        self.situation(row).first_unmet()
    }
}

impl NamedForm for FdrTask<'_> {
    const MOST_WORDS: u32 = 32;

    ghost most = { 32 };

    ghost names = { λ f. fdr_naming (held f.tables) };

    fn word_limit() -> u32
        ensures most_words_of_line { result ≡ 32 }
    {
        Self::MOST_WORDS
    }

    fn names_lawful(&self) {}

    fn step_named(&self, text: &[u8]) -> Result<Step, u32>
        ensures step_of_text { result ≡ (fdr_naming (held self.now.tables)).step_named text.now }
        ensures operator_exists { IfOk result (λ s. s.operator < length (held self.now.tables).operators) }
    {
        let at = find_name(self.tables.names, self.tables.operators, text).ok_or(1u32)?;
        Ok(Step::of(at as u32))
    }

    fn write_text(&self, step: Step, buffer: &mut [u8]) -> usize {
        let name = self.name_of(step);
        let len = name.len();
        // Not by `get_mut`: of a slice that was lent so, a proof knows the length only.
        if len <= buffer.len() {
            buffer[..len].copy_from_slice(name);
        }
        len
    }
}

impl ReadableForm for FdrTask<'_> {
    #[tactic(auto, using(crate::proofs::Admitted::names_readable_if_admitted))]
    fn names_readable(&self) {}
}

impl<'a> FdrTask<'a> {
    /// The task's tables with a row that a step or the goal is judged in.
    fn situation<'s>(&'s self, row: &'s [u16]) -> Situation<'s>
        ensures of_tables { result.tables.now ≡ self.now.tables }
        ensures in_row { result.row.now ≡ row.now }
    {
        Situation {
            tables: &self.tables,
            row,
        }
    }

    /// A variable's initial value; 0 for one that does not exist.
    fn initial_value(&self, variable: usize) -> u32
        ensures { result ≡ slice_index (fdr_meaning (held self.now.tables)).first variable }
    {
        self.tables
            .initial
            .get(variable)
            .map_or(0, |initial| initial.value)
    }

    /// A step's operator, if it exists.
    fn operator_of(&self, step: Step) -> Option<&'a Operator>
        ensures exists { IsSome result ↔ (step.operator < length (held self.now.tables).operators) }
        ensures row_of_step { IfSome result (λ o. o.now ≡ slice_index_or (held self.now.tables).operators step.operator no_operator) }
    {
        self.tables.operators.get(step.operator as usize)
    }

    /// The judgement of a step: its operator must exist, and it has no arguments.
    fn judge_step(&self, row: &[u16], step: Step) -> Result<ChangeList, Cause>
        ensures { judged result ≡ judge_step (held self.now.tables) row.now step }
    {
        let Some(operator) = self.operator_of(step) else {
            return Err(Cause::NoSuchOperator);
        };
        if step.count != 0 {
            return Err(Cause::ArgumentCount(step.count));
        }
        self.situation(row).judge_operator(operator)
    }

    /// The name of a step's operator; empty for a step that has none.
    fn name_of(&self, step: Step) -> &'a [u8]
        ensures { result.now ≡ (fdr_naming (held self.now.tables)).text_of step }
    {
        match self.operator_of(step) {
            Some(operator) if step.count == 0 => part_of(self.tables.names, operator.name),
            _ => &[],
        }
    }
}
