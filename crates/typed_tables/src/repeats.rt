//! The fourth checks: nothing stands twice that may stand once.

ghost use Rattle.std.specs.Prelude.{◌≡◌};
ghost use Rattle.atoms.specs.Laying.{layout_of, cell_at};
ghost use Rattle.rows.specs.Scans.{first_from, part};
ghost use Rattle.typed_tables.specs.Facts.{cell_number, FactsAreAtoms};
ghost use Rattle.typed_tables.specs.Repeats.{fact_repeats, name_repeats, repeats};
ghost use Rattle.typed_tables.specs.SourceLaws.{fact_atom};
ghost use Rattle.typed_tables.specs.Tables.{held};

use crate::tables::{Fact, TypedTables};
use crate::terms::objects_of;
use atoms::cells::Cells;
use form::answers::{Decline, Fault};
use rows::names::{Named, earlier_has_name};
use rows::refusals::refuse_row;
use rows::repeats::{Numbers, first_repeat};

/// The number that no cell of a row can have.
const NO_CELL: u32 = 1024;

/// The first row that has the name of an earlier one.
fn first_repeated_name<R: Named>(names: &[u8], rows: &[R]) -> Option<usize>
    ensures { result ≡ first_from (name_repeats (λ row. part names.now (R.Named.place row)) rows.now) 0 rows.now }
{
    rows.iter()
        .enumerate()
        .position(|(at, row)| earlier_has_name(names, rows, at, row))
}

/// Numbers facts by their cells.
// A repeat is found among numbers, so a fact without a cell has one too, which is no cell's.
#[derive(Clone, Copy)]
pub(crate) struct CellOfFact<'t> {
    pub(crate) tables: &'t TypedTables<'t>,
    pub(crate) cells: &'t Cells,
}

impl Numbers<Fact> for CellOfFact<'_> {
    ghost number = { λ n f. cell_number (cell_at (layout_of n.cells.now) (fact_atom (held n.tables.now) f)) };

    fn number_of(&self, row: &Fact) -> u32 {
        self.cells
            .cell(row.predicate, objects_of(self.tables, row))
            .map_or(NO_CELL, u32::from)
    }
}

/// The first fact that an earlier one repeats. Facts are told by their cells, so that the work grows with the table.
fn first_repeated_fact(tables: &TypedTables) -> Option<usize>
    requires { FactsAreAtoms (held tables.now) }
    ensures { result ≡ first_from (fact_repeats (held tables.now)) 0 tables.now.facts.now }
{
    let cells = Cells::of(tables.objects.len() as u32, tables.predicates).unwrap();
    let numbers = CellOfFact {
        tables,
        cells: &cells,
    };
    first_repeat(&numbers, tables.facts)
}

/// Checks that names of objects and of actions differ, and that no fact stands twice.
pub(crate) fn check_repeats(tables: &TypedTables) -> Result<(), Fault>
    requires { FactsAreAtoms (held tables.now) }
    ensures { result ≡ repeats (held tables.now) }
{
    refuse_row(
        Decline::StandsTwice,
        2,
        first_repeated_name(tables.names, tables.objects),
    )?;
    refuse_row(
        Decline::StandsTwice,
        4,
        first_repeated_name(tables.names, tables.actions),
    )?;
    refuse_row(Decline::StandsTwice, 6, first_repeated_fact(tables))
}
