//! The type of an admitted task.

ghost use Rattle.std.specs.Prelude.{◌≡◌, true, map, length, is_ok};
ghost use Rattle.atoms.specs.Laying.{layout_of};
ghost use Rattle.typed_tables.specs.Admission.{admission};
ghost use Rattle.typed_tables.specs.Tables.{held};

use atoms::cells::Cells;
use typed_tables::tables::TypedTables;
use types::closures::Closure;

pub mod admitting;
pub mod forming;
pub mod lending;

/// A typed task whose tables were admitted, with its edges closed and its cells laid out. Only admission makes one.
#[derive(Clone, Copy)]
pub struct TypedTask<'a> {
    tables: TypedTables<'a>,
    closure: Closure<'a>,
    cells: Cells,
    ghost admitted: { is_ok (admission (held tables)) ≡ true },
    ghost subtypes: { map (λ e. e.subtype) closure.edges.now ≡ map (λ e. e.subtype) tables.edges.now },
    ghost supertypes: { map (λ e. e.supertype) closure.edges.now ≡ map (λ e. e.supertype) tables.edges.now },
    ghost objects: { (layout_of cells).objects ≡ length tables.objects.now },
    ghost arities: { (layout_of cells).arities ≡ map (λ p. p.arity) tables.predicates.now },
}
