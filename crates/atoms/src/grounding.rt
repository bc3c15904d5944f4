//! The cells of atoms with arguments for their parameters.

ghost use Rattle.std.specs.Prelude.{◌≡◌, ◌≤◌, map, length, take};
ghost use Rattle.atoms.specs.Changes.{ground_atom};
ghost use Rattle.atoms.specs.Laying.{layout_of, cell_at};
ghost use Rattle.atoms.specs.Layouts.{ground};
ghost use Rattle.atoms.specs.Reading.{term_object};

use crate::cells::Cells;
use crate::rows::{Atom, FIRST_PARAMETER};

/// What atoms are grounded by: cells, and the objects that stand for the parameters.
#[derive(Clone, Copy)]
pub(crate) struct Grounding<'c, 'a> {
    pub(crate) cells: &'c Cells,
    pub(crate) arguments: &'a [u32],
}

impl Grounding<'_, '_> {
    /// The object that a term stands for. A parameter without an argument stands for its own number, which is no object's.
    pub(crate) fn object(&self, term: u32) -> u32
        ensures { result ≡ term_object self.now.arguments.now term }
    {
        if term < FIRST_PARAMETER {
            return term;
        }
        let at = (term - FIRST_PARAMETER) as usize;
        self.arguments.get(at).copied().unwrap_or(term)
    }

    /// The objects that at most three terms stand for, in order.
    fn objects(&self, terms: &[u32]) -> [u32; 3]
        requires { length terms.now ≤ 3 }
        ensures { take (length terms.now) result ≡ map (term_object self.now.arguments.now) terms.now }
    {
        let mut objects = [0; 3];
        // By place: a proof knows nothing of what a `zip` writes through `iter_mut`.
        for (at, term) in terms.iter().enumerate() {
            objects[at] = self.object(*term);
        }
        objects
    }

    /// The cell of a predicate with at most three terms.
    pub(crate) fn cell(&self, predicate: u32, terms: &[u32]) -> Option<u16>
        requires { length terms.now ≤ 3 }
        ensures { result ≡ cell_at (layout_of self.now.cells.now) (ground predicate (map (term_object self.now.arguments.now) terms.now)) }
    {
        let objects = self.objects(terms);
        self.cells.cell(predicate, &objects[..terms.len()])
    }

    /// The cell of an atom.
    #[tactic(auto, using(crate::proofs::Laying::low_arity))]
    pub(crate) fn cell_of(&self, atom: &Atom) -> Option<u16>
        ensures { result ≡ cell_at (layout_of self.now.cells.now) (ground_atom (layout_of self.now.cells.now) self.now.arguments.now atom.now) }
    {
        let arity = self.cells.arity(atom.predicate) as usize;
        self.cell(atom.predicate, &atom.terms[..arity])
    }
}
