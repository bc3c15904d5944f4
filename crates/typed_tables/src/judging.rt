//! Judging a step, the goal and the first row of an admitted task.

ghost use Rattle.std.specs.Prelude.{◌≡◌, ◌<◌, ◌≤◌, length, IfSome};
ghost use Rattle.std.specs.List.{list_any};
ghost use Rattle.form.specs.Meanings.{judged};
ghost use Rattle.atoms.specs.Laying.{layout_of};
ghost use Rattle.rows.specs.Scans.{first_from};
ghost use Rattle.typed_tables.specs.Atoms.{parameters_of};
ghost use Rattle.typed_tables.specs.Engine.{argument_misfits, arguments_of, fact_at, first_value, judge_action, judge_step, true_in, unmet_goal};
ghost use Rattle.typed_tables.specs.Tables.{held};

use crate::repeats::CellOfFact;
use crate::tables::{Action, TypedTables};
use crate::terms::{front_of, parameters_of, types_at, types_of_object};
use atoms::cells::Cells;
use atoms::changes::change_list;
use atoms::judging::Situation;
use form::change_lists::ChangeList;
use form::judgements::Cause;
use form::steps::Step;
use rows::repeats::Numbers;
use rows::runs::part_of;
use types::closures::Closure;

/// The arguments of a step up to its count.
fn arguments_of(step: &Step) -> &[u32]
    ensures up_to_the_count { result.now ≡ arguments_of step.now }
    ensures few { length result.now ≤ 4 }
{
    front_of(&step.args, step.count)
}

/// Whether a formula is true in a row, with arguments for its parameters.
fn is_true(cells: &Cells, row: &[u16], arguments: &[u32], formula: &[u32]) -> bool
    ensures { result ≡ true_in (layout_of cells.now) row.now arguments.now formula.now }
{
    let situation = Situation {
        cells,
        arguments,
        row,
    };
    let (holds, _) = situation.judge(formula);
    holds
}

/// Whether an initial fact is the one of a cell.
fn has_fact_at(tables: &TypedTables, cells: &Cells, cell: usize) -> bool
    ensures { result ≡ list_any (fact_at (layout_of cells.now) (held tables.now) cell) tables.now.facts.now }
{
    let numbers = CellOfFact { tables, cells };
    tables
        .facts
        .iter()
        .any(|fact| numbers.number_of(fact) as usize == cell)
}

/// A cell's value in the first row: 1 for an initial fact, else 0. No edges are asked for.
pub fn first_value_of(tables: &TypedTables, cells: &Cells, cell: usize) -> u16
    ensures one_for_an_initial_fact { result ≡ first_value (layout_of cells.now) (held tables.now) cell }
{
    u16::from(cell < cells.width() && has_fact_at(tables, cells, cell))
}

/// The goal's item, 1, if a row leaves the goal unmet. No edges are asked for.
pub fn unmet_in(tables: &TypedTables, cells: &Cells, row: &[u16]) -> Option<u32>
    ensures item_of_goal { result ≡ unmet_goal (layout_of cells.now) (held tables.now) row.now }
{
    let formula = part_of(tables.formulas, tables.goal.formula);
    (!is_true(cells, row, &[], formula)).then_some(1)
}

/// What judges steps: the tables, their edges closed, and their cells laid out.
#[derive(Clone, Copy)]
pub struct Engine<'t> {
    pub tables: &'t TypedTables<'t>,
    pub closure: &'t Closure<'t>,
    pub cells: &'t Cells,
}

impl Engine<'_> {
    /// The first argument that is no object, or does not fit its parameter.
    fn first_misfit(&self, action: &Action, arguments: &[u32]) -> Option<usize>
        ensures first { result ≡ first_from (argument_misfits self.now.closure.now.edges.now (held self.now.tables.now) (parameters_of action.now)) 0 arguments.now }
        ensures inside { IfSome result (λ at. at < length arguments.now) }
    {
        let objects = self.tables.objects;
        let parameters = parameters_of(action);
        arguments.iter().enumerate().position(|(at, argument)| {
            let object = *argument as usize;
            let own = types_of_object(objects, object);
            let place = types_at(parameters, at);
            object >= objects.len() || !self.closure.types_fit(own, place)
        })
    }

    /// The judgement of an action with arguments: each must fit its parameter, and then the precondition must hold.
    fn judge_action(
        &self,
        row: &[u16],
        action: &Action,
        arguments: &[u32],
    ) -> Result<ChangeList, Cause>
        requires { length arguments.now ≤ 4 }
        ensures { judged result ≡ judge_action self.now.closure.now.edges.now (layout_of self.now.cells.now) (held self.now.tables.now) row.now action.now arguments.now }
    {
        if let Some(at) = self.first_misfit(action, arguments) {
            return Err(Cause::ArgumentMisfit(at as u32 + 1));
        }
        let tables = self.tables;
        let precondition = part_of(tables.formulas, action.formula);
        if !is_true(self.cells, row, arguments, precondition) {
            return Err(Cause::Precondition(0));
        }
        let added = part_of(tables.atoms, action.added);
        let deleted = part_of(tables.atoms, action.deleted);
        Ok(change_list(self.cells, arguments, added, deleted))
    }

    /// The judgement of a step in a row: its action must exist and have so many parameters, its arguments must fit, and the precondition must hold.
    pub fn judge_step(&self, row: &[u16], step: Step) -> Result<ChangeList, Cause>
        ensures judgement_of_definition { judged result ≡ judge_step self.now.closure.now.edges.now (layout_of self.now.cells.now) (held self.now.tables.now) row.now step }
    {
        let Some(action) = self.tables.actions.get(step.operator as usize) else {
            return Err(Cause::NoSuchOperator);
        };
        if step.count != action.parameters {
            return Err(Cause::ArgumentCount(step.count));
        }
        self.judge_action(row, action, arguments_of(&step))
    }

    /// A cell's value in the first row: 1 for an initial fact, else 0.
    pub fn first_value(&self, cell: usize) -> u16
        ensures one_for_an_initial_fact { result ≡ first_value (layout_of self.now.cells.now) (held self.now.tables.now) cell }
    {
        first_value_of(self.tables, self.cells, cell)
    }

    /// The goal's item, 1, if a row leaves the goal unmet.
    pub fn unmet_goal(&self, row: &[u16]) -> Option<u32>
        ensures item_of_goal { result ≡ unmet_goal (layout_of self.now.cells.now) (held self.now.tables.now) row.now }
    {
        unmet_in(self.tables, self.cells, row)
    }
}
