//! Which numbers are a formula whose atoms and equalities pass a test.

ghost use Rattle.std.specs.Prelude.{◌≡◌, Decides, slice_index};
ghost use Rattle.atoms.specs.Admitting.{Tests, admission, OneFormula, is_formula};

use crate::reading::{Reading, read_code};

/// A test of the atoms and equalities of a formula, by the numbers of their terms.
// A trait and not closures: its three answers belong to one meaning.
pub trait AtomTest {
    /// What the test says.
    ghost tests: { Self → Tests };

    /// The number of a predicate's arguments; 0 for a predicate that does not exist.
    fn arity(&self, predicate: u32) -> u32
        ensures number_of_arguments { result ≡ slice_index (tests self.now).arities predicate };

    /// Whether a predicate with as many terms as it has arguments passes.
    fn atom_passes(&self, predicate: u32, terms: &[u32]) -> bool
        ensures as_the_test_says { result ≡ (tests self.now).atom_passes predicate terms.now };

    /// Whether an equality of two terms passes.
    fn equality_passes(&self, first: u32, second: u32) -> bool
        ensures as_the_test_says { result ≡ (tests self.now).equality_passes first second };
}

/// The reading of a formula as one that passes a test or not: all its parts must pass.
#[derive(Drop)]
struct Admission<'t, T> {
    test: &'t T,
}

impl<T: AtomTest> Reading for Admission<'_, T> {
    ghost algebra = { λ a. admission (T.AtomTest.tests a.test.now) };

    fn arity(&self, predicate: u32) -> u32 {
        self.test.arity(predicate)
    }

    fn at_falsum(&self) -> bool {
        true
    }

    fn at_atom(&self, predicate: u32, terms: &[u32]) -> bool {
        self.test.atom_passes(predicate, terms)
    }

    fn at_equality(&self, first: u32, second: u32) -> bool {
        self.test.equality_passes(first, second)
    }

    fn at_negation(&self, operand: bool) -> bool {
        operand
    }

    fn at_conjunction(&self, first: bool, second: bool) -> bool {
        first && second
    }

    fn at_disjunction(&self, first: bool, second: bool) -> bool {
        first && second
    }

    fn at_implication(&self, first: bool, second: bool) -> bool {
        first && second
    }
}

/// Whether the numbers are one formula that passes the test, with none left over.
fn passes_whole<T: AtomTest>(test: &T, code: &[u32]) -> bool
    ensures { result ≡ is_formula (T.AtomTest.tests test.now) code.now }
{
    let (passes, left) = read_code(&Admission { test }, code);
    passes && left.is_empty()
}

/// Whether the numbers are one formula, with none left over, each atom and each equality of which passes the test.
pub fn is_formula<T: AtomTest>(test: &T, code: &[u32]) -> bool
    ensures as_computed { result ≡ is_formula (T.AtomTest.tests test.now) code.now }
    ensures decides_one_formula { Decides result (OneFormula (T.AtomTest.tests test.now) code.now) }
{
    passes_whole(test, code)
}
