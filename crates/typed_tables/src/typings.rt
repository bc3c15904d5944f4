//! Whether the terms of atoms and formulas fit their predicates.

ghost use Rattle.std.specs.Prelude.{◌≡◌, not, slice_index_or};
ghost use Rattle.rows.specs.Scans.{part};
ghost use Rattle.atoms.specs.Admitting.{is_formula};
ghost use Rattle.typed_tables.specs.Atoms.{atom_misfits, no_predicate, no_types, places_of, term_misfits, term_types};
ghost use Rattle.typed_tables.specs.Fitting.{fit_tests, misfit_atoms};
ghost use Rattle.typed_tables.specs.Tables.{held};

use crate::tables::{Predicate, Run, TypeSet, TypedTables};
use crate::terms::{NO_TYPES, places_of, terms_of, types_at, types_of_object};
use atoms::admitting::{AtomTest, is_formula};
use atoms::rows::{FIRST_PARAMETER, arity_of};
use rows::runs::part_of;
use types::closures::Closure;

/// The types of a predicate's place; none where there is no such place.
fn types_of_place(predicates: &[Predicate], predicate: usize, at: usize) -> TypeSet
    ensures { result ≡ slice_index_or (places_of (slice_index_or predicates.now predicate no_predicate)) at no_types }
{
    predicates
        .get(predicate)
        .map_or(NO_TYPES, |row| types_at(places_of(row), at))
}

/// What tells whether terms fit: the tables, their edges closed, and the types of the parameters.
#[derive(Clone, Copy)]
pub(crate) struct Typing<'t> {
    pub(crate) tables: &'t TypedTables<'t>,
    pub(crate) closure: &'t Closure<'t>,
    pub(crate) parameters: &'t [TypeSet],
}

impl Typing<'_> {
    /// The types of a term: an object's, or those of a parameter.
    fn types_of(&self, term: u32) -> TypeSet
        ensures { result ≡ term_types (held self.now.tables.now) self.now.parameters.now term }
    {
        if term < FIRST_PARAMETER {
            types_of_object(self.tables.objects, term as usize)
        } else {
            types_at(self.parameters, (term - FIRST_PARAMETER) as usize)
        }
    }

    /// Whether a term does not fit a predicate's place.
    fn term_misfits(&self, predicate: u32, at: usize, term: u32) -> bool
        ensures { result ≡ term_misfits self.now.closure.now.edges.now (held self.now.tables.now) self.now.parameters.now predicate at term }
    {
        let place = types_of_place(self.tables.predicates, predicate as usize, at);
        !self.closure.types_fit(self.types_of(term), place)
    }

    /// Whether one of the terms does not fit the predicate.
    pub(crate) fn atom_misfits(&self, predicate: u32, terms: &[u32]) -> bool
        ensures { result ≡ atom_misfits self.now.closure.now.edges.now (held self.now.tables.now) self.now.parameters.now predicate terms.now }
    {
        terms
            .iter()
            .enumerate()
            .any(|(at, term)| self.term_misfits(predicate, at, *term))
    }

    /// Whether numbers are not one formula whose atoms fit.
    pub(crate) fn formula_misfits(&self, run: Run) -> bool
        ensures { result ≡ not (is_formula (fit_tests self.now.closure.now.edges.now (held self.now.tables.now) self.now.parameters.now) (part self.now.tables.now.formulas.now run)) }
    {
        !is_formula(self, part_of(self.tables.formulas, run))
    }

    /// Whether a run has an atom that does not fit.
    pub(crate) fn has_misfit(&self, run: Run) -> bool
        ensures { result ≡ misfit_atoms self.now.closure.now.edges.now (held self.now.tables.now) self.now.parameters.now (part self.now.tables.now.atoms.now run) }
    {
        part_of(self.tables.atoms, run).iter().any(|atom| {
            self.atom_misfits(atom.predicate, terms_of(self.tables, atom))
        })
    }
}

/// The terms of atoms fit, and equality has no type rule.
impl AtomTest for Typing<'_> {
    ghost tests = { λ t. fit_tests t.closure.now.edges.now (held t.tables.now) t.parameters.now };

    fn arity(&self, predicate: u32) -> u32 {
        arity_of(self.tables.predicates, predicate)
    }

    fn atom_passes(&self, predicate: u32, terms: &[u32]) -> bool {
        !self.atom_misfits(predicate, terms)
    }

    fn equality_passes(&self, _first: u32, _second: u32) -> bool {
        true
    }
}
