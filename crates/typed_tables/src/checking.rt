//! The five passes of checks in order.

ghost use Rattle.std.specs.Prelude.{◌≡◌};
ghost use Rattle.typed_tables.specs.Admission.{admission};
ghost use Rattle.typed_tables.specs.SourceLaws.{AdmitsWellFormed};
ghost use Rattle.typed_tables.specs.Tables.{held};

use crate::counts::check_counts;
use crate::misfits::ClosedTables;
use crate::references::check_references;
use crate::repeats::check_repeats;
use crate::runs::check_runs;
use crate::tables::TypedTables;
use form::answers::Fault;
use types::closures::Closure;

// Tables go by number, from 0 for the number of types: a fault tells its table so, in the product's own format.

/// The first refusal in checking order, if there is one, where the tables' edges are closed.
fn first_refusal(tables: &TypedTables, closure: &Closure) -> Result<(), Fault>
    requires { closure.now.edges.now ≡ tables.now.edges.now }
    ensures { result ≡ admission (held tables.now) }
{
    check_counts(tables)?;
    check_runs(tables)?;
    check_references(tables)?;
    check_repeats(tables)?;
    ClosedTables { tables, closure }.check_fits()
}

/// Checks lent tables, whatever they hold: the first refusal in checking order, if there is one, and the edges, closed once.
// A pair and no `Result` of the edges: those of refused tables are given too.
pub fn check_tables<'a>(tables: &TypedTables<'a>) -> (Result<(), Fault>, Closure<'a>)
    ensures first_refusal_in_order { result.0 ≡ admission (held tables.now) }
    ensures passes_exactly_the_well_formed { AdmitsWellFormed (held tables.now) }
    ensures edges_closed { result.1.edges.now ≡ tables.now.edges.now }
{
    let closure = Closure::of(tables.edges);
    (first_refusal(tables, &closure), closure)
}
