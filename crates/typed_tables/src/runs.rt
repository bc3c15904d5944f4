//! The second checks: runs inside their tables.

ghost use Rattle.std.specs.Prelude.{◌≡◌, position};
ghost use Rattle.typed_tables.specs.Runs.{object_passes, action_passes, runs};
ghost use Rattle.typed_tables.specs.Tables.{held};

use crate::tables::TypedTables;
use form::answers::{Decline, Fault};
use rows::refusals::refuse_row;
use rows::runs::passes_end;

/// The first object whose name passes the name bytes.
fn first_object_outside(tables: &TypedTables) -> Option<usize>
    ensures { result ≡ position (object_passes (held tables.now)) tables.now.objects.now }
{
    tables
        .objects
        .iter()
        .position(|object| passes_end(object.name, tables.names.len()))
}

/// The first action with a run that passes its table.
fn first_action_outside(tables: &TypedTables) -> Option<usize>
    ensures { result ≡ position (action_passes (held tables.now)) tables.now.actions.now }
{
    tables.actions.iter().position(|action| {
        passes_end(action.name, tables.names.len())
            || passes_end(action.formula, tables.formulas.len())
            || passes_end(action.added, tables.atoms.len())
            || passes_end(action.deleted, tables.atoms.len())
    })
}

/// Checks that every run lies in its table.
pub(crate) fn check_runs(tables: &TypedTables) -> Result<(), Fault>
    ensures { result ≡ runs (held tables.now) }
{
    refuse_row(Decline::RunPastTable, 2, first_object_outside(tables))?;
    refuse_row(Decline::RunPastTable, 4, first_action_outside(tables))?;
    refuse_row(
        Decline::RunPastTable,
        7,
        passes_end(tables.goal.formula, tables.formulas.len()).then_some(0),
    )
}
