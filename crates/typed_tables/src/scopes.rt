//! Whether the terms of atoms and formulas name something.

ghost use Rattle.std.specs.Prelude.{◌≡◌, not};
ghost use Rattle.std.specs.List.{list_any};
ghost use Rattle.rows.specs.Scans.{part};
ghost use Rattle.atoms.specs.Admitting.{is_formula};
ghost use Rattle.typed_tables.specs.Atoms.{atom_names_nothing, unknown_term};
ghost use Rattle.typed_tables.specs.References.{bad_atoms, names_tests};
ghost use Rattle.typed_tables.specs.Tables.{held};

use crate::tables::{Run, TypedTables};
use crate::terms::terms_of;
use atoms::admitting::{AtomTest, is_formula};
use atoms::rows::{FIRST_PARAMETER, arity_of};
use rows::runs::part_of;

/// What terms may name: the objects of tables, and so many parameters.
// Not `atoms`' `Vocabulary`: that counts objects in 32 bits, so the pass would need a bound on their number.
#[derive(Clone, Copy)]
pub(crate) struct Scope<'t, 'a> {
    pub(crate) tables: &'t TypedTables<'a>,
    pub(crate) parameters: u32,
}

impl Scope<'_, '_> {
    /// Whether a term names nothing.
    fn lacks(&self, term: u32) -> bool
        ensures { result ≡ unknown_term (held self.now.tables.now) self.now.parameters term }
    {
        if term < FIRST_PARAMETER {
            term as usize >= self.tables.objects.len()
        } else {
            term - FIRST_PARAMETER >= self.parameters
        }
    }

    /// Whether one of the terms names nothing.
    fn lacks_one(&self, terms: &[u32]) -> bool
        ensures { result ≡ list_any (unknown_term (held self.now.tables.now) self.now.parameters) terms.now }
    {
        terms.iter().any(|term| self.lacks(*term))
    }

    /// Whether a predicate or one of its terms names nothing.
    pub(crate) fn atom_names_nothing(&self, predicate: u32, terms: &[u32]) -> bool
        ensures { result ≡ atom_names_nothing (held self.now.tables.now) self.now.parameters predicate terms.now }
    {
        predicate as usize >= self.tables.predicates.len() || self.lacks_one(terms)
    }

    /// Whether numbers are not one formula whose atoms and equalities name something.
    pub(crate) fn is_no_formula(&self, run: Run) -> bool
        ensures { result ≡ not (is_formula (names_tests (held self.now.tables.now) self.now.parameters) (part self.now.tables.now.formulas.now run)) }
    {
        !is_formula(self, part_of(self.tables.formulas, run))
    }

    /// Whether a run has an atom that names nothing.
    pub(crate) fn has_bad_atom(&self, run: Run) -> bool
        ensures { result ≡ bad_atoms (held self.now.tables.now) self.now.parameters (part self.now.tables.now.atoms.now run) }
    {
        part_of(self.tables.atoms, run).iter().any(|atom| {
            self.atom_names_nothing(atom.predicate, terms_of(self.tables, atom))
        })
    }
}

/// Predicates and terms name something.
impl AtomTest for Scope<'_, '_> {
    ghost tests = { λ s. names_tests (held s.tables.now) s.parameters };

    fn arity(&self, predicate: u32) -> u32 {
        arity_of(self.tables.predicates, predicate)
    }

    fn atom_passes(&self, predicate: u32, terms: &[u32]) -> bool {
        !self.atom_names_nothing(predicate, terms)
    }

    fn equality_passes(&self, first: u32, second: u32) -> bool {
        !(self.lacks(first) || self.lacks(second))
    }
}
