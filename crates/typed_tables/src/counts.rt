//! The first checks: counts within their limits.

ghost use Rattle.std.specs.Prelude.{◌≡◌, ◌+◌, ◌<◌, ℕ, map, position, nat_lt};
ghost use Rattle.atoms.specs.Layouts.{cell_count};
ghost use Rattle.typed_tables.specs.Counts.{bad_arity, bad_action, declaration_counts, counts};
ghost use Rattle.typed_tables.specs.Tables.{held};

use crate::tables::{Action, Predicate, Run, TypedTables};
use form::answers::{Decline, Fault};
use rows::refusals::{refuse_row, refuse_table};

// The limits of the tables.
const MOST_TYPES: u32 = 32;

const MOST_EDGES: usize = 64;

const MOST_OBJECTS: usize = 64;

const MOST_PREDICATES: usize = 32;

const MOST_PLACES: u32 = 3;

const MOST_CELLS: usize = 1024;

const MOST_ACTIONS: usize = 64;

const MOST_PARAMETERS: u32 = 4;

const MOST_CHANGES: u64 = 32;

const LONGEST_FORMULA: u32 = 256;

const MOST_ATOMS: usize = 512;

const MOST_FACTS: usize = 1024;

const MOST_FORMULA_NUMBERS: usize = 4096;

const MOST_NAME_BYTES: usize = 65536;

/// The first predicate with too many places.
fn first_wide(predicates: &[Predicate]) -> Option<usize>
    ensures { result ≡ position bad_arity predicates.now }
{
    predicates
        .iter()
        .position(|predicate| predicate.arity > MOST_PLACES)
}

/// Whether two runs together name more atoms than one action may change; the sum is made in 64 bits, so it cannot wrap.
fn changes_too_many(added: Run, deleted: Run) -> bool
    ensures { result ≡ nat_lt 32 (added.count + deleted.count) }
{
    added.count as u64 + deleted.count as u64 > MOST_CHANGES
}

/// The first action with too many parameters, too many changes or too long a formula.
fn first_too_large(actions: &[Action]) -> Option<usize>
    ensures { result ≡ position bad_action actions.now }
{
    actions.iter().position(|action| {
        action.parameters > MOST_PARAMETERS
            || changes_too_many(action.added, action.deleted)
            || action.formula.count > LONGEST_FORMULA
    })
}

/// The number of cells of predicates, as far as it matters that it passes the most cells.
fn cells_of(objects: usize, predicates: &[Predicate]) -> usize
    ensures { (most : ℕ) → most < 4294967295 → nat_lt most result ≡ nat_lt most (cell_count objects (map (λ p. p.arity) predicates.now)) }
{
    predicates.iter().fold(0, |cells: usize, predicate| {
        cells.saturating_add(objects.saturating_pow(predicate.arity))
    })
}

/// Whether the predicates have more cells than a row has room for.
fn is_too_wide(objects: usize, predicates: &[Predicate]) -> bool
    ensures { result ≡ nat_lt 1024 (cell_count objects (map (λ p. p.arity) predicates.now)) }
{
    cells_of(objects, predicates) > MOST_CELLS
}

/// Checks the counts of types, edges, objects and predicates.
fn check_declarations(tables: &TypedTables) -> Result<(), Fault>
    ensures { result ≡ declaration_counts (held tables.now) }
{
    refuse_table(
        Decline::CountOutsideLimit,
        0,
        tables.types < 1 || tables.types > MOST_TYPES,
    )?;
    refuse_table(
        Decline::CountOutsideLimit,
        1,
        tables.edges.len() > MOST_EDGES,
    )?;
    refuse_table(
        Decline::CountOutsideLimit,
        2,
        tables.objects.len() > MOST_OBJECTS,
    )?;
    refuse_table(
        Decline::CountOutsideLimit,
        3,
        tables.predicates.len() > MOST_PREDICATES,
    )?;
    refuse_row(Decline::CountOutsideLimit, 3, first_wide(tables.predicates))?;
    refuse_table(
        Decline::CountOutsideLimit,
        3,
        is_too_wide(tables.objects.len(), tables.predicates),
    )
}

/// Checks every count against its limit, table by table.
pub(crate) fn check_counts(tables: &TypedTables) -> Result<(), Fault>
    ensures { result ≡ counts (held tables.now) }
{
    check_declarations(tables)?;
    refuse_table(
        Decline::CountOutsideLimit,
        4,
        tables.actions.len() > MOST_ACTIONS,
    )?;
    refuse_row(
        Decline::CountOutsideLimit,
        4,
        first_too_large(tables.actions),
    )?;
    refuse_table(
        Decline::CountOutsideLimit,
        5,
        tables.atoms.len() > MOST_ATOMS,
    )?;
    refuse_table(
        Decline::CountOutsideLimit,
        6,
        tables.facts.len() > MOST_FACTS,
    )?;
    refuse_row(
        Decline::CountOutsideLimit,
        7,
        (tables.goal.formula.count > LONGEST_FORMULA).then_some(0),
    )?;
    refuse_table(
        Decline::CountOutsideLimit,
        8,
        tables.formulas.len() > MOST_FORMULA_NUMBERS,
    )?;
    refuse_table(
        Decline::CountOutsideLimit,
        9,
        tables.names.len() > MOST_NAME_BYTES,
    )
}
