//! The second checks: runs inside their tables, and an initial value for each variable.

ghost use Rattle.std.specs.Prelude.{◌≡◌, position};
ghost use Rattle.fdr.specs.Admission.{operator_passes, effect_passes, runs};
ghost use Rattle.fdr.specs.Tables.{held};

use crate::tables::FdrTables;
use form::answers::{Decline, Fault};
use rows::refusals::{refuse_row, refuse_table};
use rows::runs::passes_end;

/// The first operator with a run that passes its table.
fn first_operator_past_table(tables: &FdrTables) -> Option<usize>
    ensures { result ≡ position (operator_passes (held tables.now)) tables.now.operators.now }
{
    tables.operators.iter().position(|operator| {
        passes_end(operator.name, tables.names.len())
            || passes_end(operator.preconditions, tables.pairs.len())
            || passes_end(operator.effects, tables.effects.len())
    })
}

/// The first effect whose condition run passes the pairs.
fn first_effect_past_pairs(tables: &FdrTables) -> Option<usize>
    ensures { result ≡ position (effect_passes (held tables.now)) tables.now.effects.now }
{
    tables
        .effects
        .iter()
        .position(|effect| passes_end(effect.conditions, tables.pairs.len()))
}

/// Checks that every run lies in its table and that each variable has an initial value.
pub(crate) fn check_runs(tables: &FdrTables) -> Result<(), Fault>
    ensures { result ≡ runs (held tables.now) }
{
    let past = Decline::RunPastTable;
    refuse_table(past, 2, tables.initial.len() != tables.variables.len())?;
    refuse_row(past, 4, first_operator_past_table(tables))?;
    refuse_row(past, 5, first_effect_past_pairs(tables))
}
