//! The test that what a formula names exists.

ghost use Rattle.std.specs.Prelude.{◌≡◌};
ghost use Rattle.std.specs.List.{list_all};
ghost use Rattle.atoms.specs.Admitting.{existence, term_exists};

use crate::admitting::AtomTest;
use crate::rows::{FIRST_PARAMETER, Predicate, arity_of};

/// What formulas may name: predicates, and so many objects and parameters.
#[derive(Clone, Copy)]
pub struct Vocabulary<'a> {
    pub predicates: &'a [Predicate],
    pub objects: u32,
    pub parameters: u32,
}

impl Vocabulary<'_> {
    /// Whether a term names an object or a parameter that exists.
    fn has_term(&self, term: u32) -> bool
        ensures { result ≡ term_exists self.now.objects self.now.parameters term }
    {
        if term < FIRST_PARAMETER {
            term < self.objects
        } else {
            term - FIRST_PARAMETER < self.parameters
        }
    }

    /// Whether each term does.
    fn has_terms(&self, terms: &[u32]) -> bool
        ensures { result ≡ list_all (term_exists self.now.objects self.now.parameters) terms.now }
    {
        terms.iter().all(|term| self.has_term(*term))
    }
}

/// A predicate, an object or a parameter that does not exist fails.
impl AtomTest for Vocabulary<'_> {
    ghost tests = { λ v. existence v.predicates.now v.objects v.parameters };

    fn arity(&self, predicate: u32) -> u32 {
        arity_of(self.predicates, predicate)
    }

    fn atom_passes(&self, predicate: u32, terms: &[u32]) -> bool {
        (predicate as usize) < self.predicates.len() && self.has_terms(terms)
    }

    fn equality_passes(&self, first: u32, second: u32) -> bool {
        self.has_term(first) && self.has_term(second)
    }
}
