//! The third checks: numbers that name something, and names that keep the rule.

ghost use Rattle.std.specs.Prelude.{◌≡◌, position};
ghost use Rattle.rows.specs.Scans.{first_from};
ghost use Rattle.fdr.specs.Admission.{values_of, names_nothing, bad_initial, bad_pair, bad_former, bad_effect, breaks_rule, bad_name, references};
ghost use Rattle.fdr.specs.Tables.{held};

use crate::tables::{Effect, FdrTables, InitialValue, Pair, Variable};
use form::answers::{Decline, Fault};
use form::words::holds_words;
use rows::refusals::refuse_row;
use rows::runs::part_of;

/// The most bytes of a name.
const LONGEST_NAME: usize = 64;

/// The number of values of a variable; one that does not exist has none.
fn values_of(variables: &[Variable], variable: usize) -> u32
    ensures { result ≡ values_of variables.now variable }
{
    variables.get(variable).map_or(0, |found| found.values)
}

/// Whether a variable's number, or a value of it, names nothing.
fn names_nothing(variables: &[Variable], variable: usize, value: u32) -> bool
    ensures { result ≡ names_nothing variables.now variable value }
{
    value >= values_of(variables, variable)
}

/// Whether a former value that is there names nothing.
fn former_names_nothing(variables: &[Variable], variable: usize, former: Option<u32>) -> bool
    ensures { result ≡ bad_former variables.now variable former }
{
    former.is_some_and(|value| names_nothing(variables, variable, value))
}

/// Whether a name breaks the rule: 1 to 64 bytes, words with single blanks between.
// Both forms' rules are one call of `holds_words`, with their own limits.
fn breaks_rule(name: &[u8]) -> bool
    ensures { result ≡ breaks_rule name.now }
{
    name.len() > LONGEST_NAME || !holds_words(name, name.len() as u32)
}

/// The first initial value that the variable of its row does not have.
fn first_bad_initial(variables: &[Variable], initial: &[InitialValue]) -> Option<usize>
    ensures { result ≡ first_from (bad_initial variables.now) 0 initial.now }
{
    initial.iter().enumerate().position(|(variable, first)| names_nothing(
        variables,
        variable,
        first.value,
    ))
}

/// The first pair whose variable or value names nothing.
fn first_bad_pair(variables: &[Variable], pairs: &[Pair]) -> Option<usize>
    ensures { result ≡ position (bad_pair variables.now) pairs.now }
{
    pairs.iter().position(|pair| names_nothing(variables, pair.variable as usize, pair.value))
}

/// The first effect whose variable, new value or former value names nothing.
fn first_bad_effect(variables: &[Variable], effects: &[Effect]) -> Option<usize>
    ensures { result ≡ position (bad_effect variables.now) effects.now }
{
    effects.iter().position(|effect| {
        let variable = effect.variable as usize;
        names_nothing(variables, variable, effect.new)
            || former_names_nothing(variables, variable, effect.former)
    })
}

/// The first operator whose name breaks the rule.
fn first_bad_name(tables: &FdrTables) -> Option<usize>
    ensures { result ≡ position (bad_name (held tables.now)) tables.now.operators.now }
{
    tables.operators.iter().position(|operator| breaks_rule(part_of(tables.names, operator.name)))
}

/// Checks that every number names something and that every name keeps the rule.
pub(crate) fn check_references(tables: &FdrTables) -> Result<(), Fault>
    ensures { result ≡ references (held tables.now) }
{
    let nothing = Decline::NamesNothing;
    let variables = tables.variables;
    refuse_row(nothing, 2, first_bad_initial(variables, tables.initial))?;
    refuse_row(nothing, 3, first_bad_pair(variables, tables.goal))?;
    refuse_row(nothing, 4, first_bad_name(tables))?;
    refuse_row(nothing, 5, first_bad_effect(variables, tables.effects))?;
    refuse_row(nothing, 6, first_bad_pair(variables, tables.pairs))
}
