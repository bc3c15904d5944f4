//! The first checks: counts within their limits.

ghost use Rattle.std.specs.Prelude.{◌≡◌, position};
ghost use Rattle.fdr.specs.Admission.{bad_range, many_effects, counts};
ghost use Rattle.fdr.specs.Tables.{held};

use crate::tables::{FdrTables, Operator, Variable};
use form::answers::{Decline, Fault};
use rows::refusals::{refuse_row, refuse_table};

// The limits of the tables.
const MOST_VARIABLES: usize = 1024;

const MOST_VALUES: u32 = 1000;

const MOST_GOALS: usize = 1024;

const MOST_OPERATORS: usize = 2048;

const MOST_OPERATOR_EFFECTS: u32 = 32;

const MOST_EFFECTS: usize = 4096;

const MOST_PAIRS: usize = 8192;

const MOST_NAME_BYTES: usize = 65536;

/// The first variable whose number of values is outside its limits.
fn first_bad_range(variables: &[Variable]) -> Option<usize>
    ensures { result ≡ position bad_range variables.now }
{
    variables.iter().position(|variable| variable.values < 1 || variable.values > MOST_VALUES)
}

/// The first operator with too many effects.
fn first_with_many_effects(operators: &[Operator]) -> Option<usize>
    ensures { result ≡ position many_effects operators.now }
{
    operators
        .iter()
        .position(|operator| operator.effects.count > MOST_OPERATOR_EFFECTS)
}

/// Checks every count against its limit, table by table.
pub(crate) fn check_counts(tables: &FdrTables) -> Result<(), Fault>
    ensures { result ≡ counts (held tables.now) }
{
    let outside = Decline::CountOutsideLimit;
    refuse_table(outside, 1, tables.variables.len() > MOST_VARIABLES)?;
    refuse_row(outside, 1, first_bad_range(tables.variables))?;
    refuse_table(outside, 3, tables.goal.len() > MOST_GOALS)?;
    refuse_table(outside, 4, tables.operators.len() > MOST_OPERATORS)?;
    refuse_row(outside, 4, first_with_many_effects(tables.operators))?;
    refuse_table(outside, 5, tables.effects.len() > MOST_EFFECTS)?;
    refuse_table(outside, 6, tables.pairs.len() > MOST_PAIRS)?;
    refuse_table(outside, 7, tables.names.len() > MOST_NAME_BYTES)
}
