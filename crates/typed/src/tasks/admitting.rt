//! Admission: the five checks in order, and what it gives.

ghost use Rattle.std.specs.Prelude.{◌≡◌, ◌≤◌, true, length, is_ok, Ok, Err, MatchResult};
ghost use Rattle.atoms.specs.Laying.{layout_of};
ghost use Rattle.atoms.specs.Layouts.{RowHasRoom};
ghost use Rattle.typed_tables.specs.Admission.{admission};
ghost use Rattle.typed_tables.specs.Facts.{layout_in};
ghost use Rattle.typed_tables.specs.Source.{WellFormed};
ghost use Rattle.typed_tables.specs.SourceLaws.{Shape, problem_of, AdmitsWellFormed};
ghost use Rattle.typed_tables.specs.Tables.{held};

use super::TypedTask;
use atoms::cells::Cells;
use form::answers::Fault;
use typed_tables::checking::check_tables;
use typed_tables::tables::TypedTables;
use types::closures::Closure;

/// The cells of tables that a row has room for.
fn cells_of(tables: &TypedTables) -> Cells
    requires few { length tables.now.objects.now ≤ 64 }
    requires room { RowHasRoom (layout_in (held tables.now)) }
    ensures { layout_of result ≡ layout_in (held tables.now) }
{
    Cells::of(tables.objects.len() as u32, tables.predicates).unwrap()
}

/// A task of admitted tables, with their edges closed and their cells laid out.
fn task_of<'a>(tables: TypedTables<'a>, closure: Closure<'a>) -> TypedTask<'a>
    requires passed { is_ok (admission (held tables)) ≡ true }
    requires closed { closure.edges.now ≡ tables.edges.now }
    ensures { held result.tables ≡ held tables.entry }
{
    let cells = cells_of(&tables);
    TypedTask {
        tables,
        closure,
        cells,
    }
}

/// Admits lent tables, whatever they hold, or refuses them with the first fault in checking order.
pub fn admit<'a>(tables: TypedTables<'a>) -> Result<TypedTask<'a>, Fault>
    ensures first_refusal_or_task { MatchResult result (λ task. (admission (held tables.entry) ≡ Ok tt) × (held task.tables ≡ held tables.entry)) (λ fault. admission (held tables.entry) ≡ Err fault) }
    ensures admits_exactly_the_well_formed { AdmitsWellFormed (held tables.entry) }
{
    let (passed, closure) = check_tables(&tables);
    passed?;
    Ok(task_of(tables, closure))
}

impl<'a> TypedTask<'a> {
    /// The tables, as they are held.
    // The law stands on the public call; the value alone needs no answer here.
    fn as_held(&self) -> TypedTables<'a>
        ensures { held result ≡ held self.now.tables }
    {
        self.tables
    }

    /// The tables that were admitted.
    pub fn tables(&self) -> TypedTables<'a>
        ensures tables_as_admitted { held result ≡ held self.now.tables }
        ensures every_number_names_something { Shape (held result) × WellFormed (problem_of (held result)) }
    {
        self.as_held()
    }
}
