//! The engine: one operator judged in one row, and the goal.

ghost use Rattle.std.specs.Prelude.{◌≡◌, ◌<◌, ◌≤◌, [], ◌∷◌, ◌++◌, map, length, position, if◌then◌else◌, filter, IfSome, slice_index};
ghost use Rattle.std.specs.List.{list_any, AllByRecursion};
ghost use Rattle.form.specs.ChangeLists.{listed};
ghost use Rattle.form.specs.Meanings.{judged};
ghost use Rattle.fdr.specs.Engine.{mismatch, former_mismatch, fires, change_of, item_after, judge_operator};
ghost use Rattle.fdr.specs.Limits.{OperatorFits};
ghost use Rattle.fdr.specs.Tables.{held};

use crate::tables::{Effect, FdrTables, Operator, Pair};
use form::change_lists::ChangeList;
use form::judgements::Cause;
use form::steps::Change;
use rows::runs::part_of;

/// What judgements speak of: the tables, and the row before the step.
#[derive(Clone, Copy)]
pub(crate) struct Situation<'s> {
    pub(crate) tables: &'s FdrTables<'s>,
    pub(crate) row: &'s [u16],
}

/// What an effect changes.
// Lent rows carry no fact of their own, so each call says which numbers fit.
fn change_of(effect: &Effect) -> Change
    requires { (effect.now.variable < 65536) × (effect.now.new < 65536) }
    ensures { result ≡ change_of effect.now }
{
    Change {
        cell: effect.variable as u16,
        value: effect.new as u16,
    }
}

impl Situation<'_> {
    /// The value of a cell; one that the row lacks reads as 0.
    fn cell(&self, variable: u32) -> u32
        ensures { result ≡ slice_index self.now.row.now variable }
    {
        u32::from(self.row.get(variable as usize).copied().unwrap_or(0))
    }

    /// Whether a pair does not match the row.
    fn mismatches(&self, pair: &Pair) -> bool
        ensures { result ≡ mismatch self.now.row.now pair.now }
    {
        self.cell(pair.variable) != pair.value
    }

    /// Whether an effect's former value, if it has one, does not match the row.
    fn former_mismatches(&self, effect: &Effect) -> bool
        ensures { result ≡ former_mismatch self.now.row.now effect.now }
    {
        let value = self.cell(effect.variable);
        effect.former.is_some_and(|former| value != former)
    }

    /// The first pair that does not match the row.
    fn first_mismatch(&self, pairs: &[Pair]) -> Option<usize>
        ensures first_of_pairs { result ≡ position (mismatch self.now.row.now) pairs.now }
        ensures inside { IfSome result (λ i. i < length pairs.now) }
    {
        pairs.iter().position(|pair| self.mismatches(pair))
    }

    /// The first effect whose former value does not match the row.
    fn first_former_mismatch(&self, effects: &[Effect]) -> Option<usize>
        ensures first_of_effects { result ≡ position (former_mismatch self.now.row.now) effects.now }
        ensures inside { IfSome result (λ i. i < length effects.now) }
    {
        effects
            .iter()
            .position(|effect| self.former_mismatches(effect))
    }

    /// Whether one of the pairs does not match the row.
    fn some_mismatch(&self, pairs: &[Pair]) -> bool
        ensures { result ≡ list_any (mismatch self.now.row.now) pairs.now }
    {
        pairs.iter().any(|pair| self.mismatches(pair))
    }

    /// Whether an effect's conditions hold in the row before the step.
    fn conditions_hold(&self, effect: &Effect) -> bool
        ensures { result ≡ fires (held self.now.tables.now) self.now.row.now effect.now }
    {
        !self.some_mismatch(part_of(self.tables.pairs, effect.conditions))
    }

    /// Puts an effect's change behind the others if its conditions hold in the row before the step.
    fn push_if_it_fires(&self, effect: &Effect, changes: &mut ChangeList)
        requires room { length (listed changes.old) < 32 }
        requires fits { (effect.now.variable < 65536) × (effect.now.new < 65536) }
        ensures { listed changes.new ≡ (if fires (held self.now.tables.now) self.now.row.now effect.now then listed changes.old ++ change_of effect.now ∷ [] else listed changes.old) }
    {
        if self.conditions_hold(effect) {
            let _has_room = changes.push(change_of(effect));
        }
    }

    /// The changes of the effects whose conditions hold, in effect order. All conditions are tested on the row before the step.
    #[tactic(auto, using(crate::proofs::Filtering::front_is_short))]
    fn change_list(&self, effects: &[Effect]) -> ChangeList
        requires { (length effects.now ≤ 32) × (AllByRecursion (λ e. (e.variable < 65536) × (e.new < 65536)) effects.now) }
        ensures { listed result ≡ map change_of (filter (fires (held self.now.tables.now) self.now.row.now) effects.now) }
    {
        // A loop: a chain would have to collect, and judging allocates nothing.
        let mut changes = ChangeList::new();
        for effect in effects {
            self.push_if_it_fires(effect, &mut changes);
        }
        changes
    }

    /// The judgement of an operator in a row: preconditions, then former values, then the change list.
    pub(crate) fn judge_operator(&self, operator: &Operator) -> Result<ChangeList, Cause>
        requires { OperatorFits (held self.now.tables.now) operator.now }
        ensures { judged result ≡ judge_operator (held self.now.tables.now) self.now.row.now operator.now }
    {
        let preconditions = part_of(self.tables.pairs, operator.preconditions);
        let effects = part_of(self.tables.effects, operator.effects);
        if let Some(at) = self.first_mismatch(preconditions) {
            return Err(Cause::Precondition((at + 1) as u32));
        }
        if let Some(at) = self.first_former_mismatch(effects) {
            return Err(Cause::Precondition((preconditions.len() + at + 1) as u32));
        }
        Ok(self.change_list(effects))
    }

    /// The number, from 1, of the first goal pair that does not match the row.
    pub(crate) fn first_unmet(&self) -> Option<u32>
        requires { length self.now.tables.now.goal.now ≤ 1024 }
        ensures { result ≡ item_after 0 (position (mismatch self.now.row.now) self.now.tables.now.goal.now) }
    {
        self.first_mismatch(self.tables.goal)
            .map(|at| (at + 1) as u32)
    }
}
