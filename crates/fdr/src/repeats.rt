//! The fourth checks: nothing stands twice that may stand once.

ghost use Rattle.std.specs.Prelude.{◌≡◌, position};
ghost use Rattle.rows.specs.Scans.{first_from};
ghost use Rattle.fdr.specs.Admission.{pairs_repeat, effects_repeat, operator_repeats, effect_repeats, repeats};
ghost use Rattle.fdr.specs.Tables.{held};

use crate::tables::{Effect, FdrTables, Operator, Pair};
use form::answers::{Decline, Fault};
use rows::names::earlier_has_name;
use rows::refusals::refuse_row;
use rows::repeats::{Numbers, first_repeat};
use rows::runs::part_of;

/// The variable that a row names.
#[derive(Drop)]
struct NamedVariable;

impl Numbers<Pair> for NamedVariable {
    ghost number = { λ _ p. p.variable };

    fn number_of(&self, row: &Pair) -> u32 {
        row.variable
    }
}

impl Numbers<Effect> for NamedVariable {
    ghost number = { λ _ e. e.variable };

    fn number_of(&self, row: &Effect) -> u32 {
        row.variable
    }
}

/// Whether an operator names a variable twice in its preconditions or its effects, or has an earlier operator's name.
fn operator_repeats(tables: &FdrTables, at: usize, operator: &Operator) -> bool
    ensures { result ≡ operator_repeats (held tables.now) at operator.now }
{
    first_repeat(
        &NamedVariable,
        part_of(tables.pairs, operator.preconditions),
    )
    .is_some()
        || first_repeat(&NamedVariable, part_of(tables.effects, operator.effects)).is_some()
        || earlier_has_name(tables.names, tables.operators, at, operator)
}

/// The first operator that repeats a variable or an earlier operator's name.
fn first_operator_that_repeats(tables: &FdrTables) -> Option<usize>
    ensures { result ≡ first_from (operator_repeats (held tables.now)) 0 tables.now.operators.now }
{
    tables
        .operators
        .iter()
        .enumerate()
        .position(|(at, operator)| operator_repeats(tables, at, operator))
}

/// The first effect that names a variable twice in its conditions.
fn first_effect_that_repeats(tables: &FdrTables) -> Option<usize>
    ensures { result ≡ position (effect_repeats (held tables.now)) tables.now.effects.now }
{
    tables.effects.iter().position(|effect| first_repeat(
        &NamedVariable,
        part_of(tables.pairs, effect.conditions),
    ).is_some())
}

/// Checks that goal, preconditions, effects and conditions name no variable twice, and that operator names differ.
pub(crate) fn check_repeats(tables: &FdrTables) -> Result<(), Fault>
    ensures { result ≡ repeats (held tables.now) }
{
    let twice = Decline::StandsTwice;
    refuse_row(twice, 3, first_repeat(&NamedVariable, tables.goal))?;
    refuse_row(twice, 4, first_operator_that_repeats(tables))?;
    refuse_row(twice, 5, first_effect_that_repeats(tables))
}
