//! Admission: the four checks in order, and what it gives.

ghost use Rattle.std.specs.Prelude.{◌≡◌, Ok, Err, MatchResult};
ghost use Rattle.fdr.specs.Admission.{admission, admitted};
ghost use Rattle.fdr.specs.SourceLaws.{Shape, problem_of, AdmitsWellFormed};
ghost use Rattle.fdr.specs.Source.{WellFormed};
ghost use Rattle.fdr.specs.Tables.{held};

use super::FdrTask;
use crate::counts::check_counts;
use crate::references::check_references;
use crate::repeats::check_repeats;
use crate::runs::check_runs;
use crate::tables::FdrTables;
use form::answers::Fault;

/// The first refusal in checking order, if there is one.
fn check_tables(tables: &FdrTables) -> Result<(), Fault>
    ensures { result ≡ admission (held tables.now) }
{
    check_counts(tables)?;
    check_runs(tables)?;
    check_references(tables)?;
    check_repeats(tables)
}

/// The task of tables that pass the checks, or their first refusal.
fn task_of<'a>(tables: FdrTables<'a>) -> Result<FdrTask<'a>, Fault>
    ensures { MatchResult result (λ task. admitted (held tables.entry) ≡ Ok (held task.tables)) (λ fault. admitted (held tables.entry) ≡ Err fault) }
{
    check_tables(&tables)?;
    Ok(FdrTask { tables })
}

/// Admits lent tables, whatever they hold, or refuses them with the first fault in checking order.
pub fn admit<'a>(tables: FdrTables<'a>) -> Result<FdrTask<'a>, Fault>
    ensures first_refusal_or_task { MatchResult result (λ task. admitted (held tables.entry) ≡ Ok (held task.tables)) (λ fault. admitted (held tables.entry) ≡ Err fault) }
    ensures admits_exactly_the_well_formed { AdmitsWellFormed (held tables.entry) }
{
    task_of(tables)
}

impl<'a> FdrTask<'a> {
    /// The tables, as they are held.
    // The law stands on the public call; the value alone needs no answer here.
    fn as_held(&self) -> FdrTables<'a>
        ensures { held result ≡ held self.now.tables }
    {
        self.tables
    }

    /// The tables that were admitted.
    pub fn tables(&self) -> FdrTables<'a>
        ensures tables_as_admitted { held result ≡ held self.now.tables }
        ensures every_number_names_something { Shape (held result) × WellFormed (problem_of (held result)) }
    {
        self.as_held()
    }
}
