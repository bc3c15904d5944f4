//! The cell of a ground atom.

ghost use Rattle.std.specs.Prelude.{◌≡◌, ◌+◌, ◌*◌, ◌^◌, ◌<◌, ◌≤◌, length, map, slice_index, take};
ghost use Rattle.std.specs.Int.Digits.{number_from_digits, AllBelowBase};
ghost use Rattle.atoms.specs.Layouts.{ground, OneAtomPerCell, all_below, first_cell, is_atom_of};
ghost use Rattle.atoms.specs.Laying.{layout_of, cell_at};

use super::{Cells, PredicateCells};

/// Whether all objects are below a number.
fn all_below(objects: &[u32], count: u32) -> bool
    ensures { result ≡ all_below count objects.now }
{
    objects.iter().all(|object| *object < count)
}

/// A number with one more digit behind its last.
fn with_digit(front: u32, base: u32, digit: u32) -> u32
    requires { front * base + digit < 2 ^ 32 }
    ensures { result ≡ front * base + digit }
{
    front * base + digit
}

/// The number that objects write as digits; the first weighs most.
// A loop, since the proof lacks a bound for each turn of `fold`.
fn number_of(objects: &[u32], base: u32) -> u32
    requires digits { AllBelowBase base objects.now }
    requires few_cells { base ^ length objects.now ≤ 1024 }
    ensures { result ≡ number_from_digits base objects.now }
{
    let mut at = 0;
    for object in objects {
        at = with_digit(at, base, *object);
    }
    at
}

impl Cells {
    /// The predicates that are laid out.
    fn laid_out(&self) -> &[PredicateCells]
        ensures { result.now ≡ take self.now.count self.now.predicates }
    {
        &self.predicates[..self.count]
    }

    /// The number of a predicate's arguments; none for a predicate that does not exist.
    pub(crate) fn arity(&self, predicate: u32) -> u32
        ensures { result ≡ slice_index (layout_of self.now).arities predicate }
    {
        self.laid_out()
            .get(predicate as usize)
            .map_or(0, |place| place.arity)
    }

    /// The first cell of a predicate that exists.
    fn first_cell(&self, predicate: usize) -> u32
        requires { predicate < self.now.count }
        ensures { result ≡ first_cell (layout_of self.now) predicate }
    {
        self.predicates[predicate].first
    }

    /// Whether a predicate exists and has these many arguments, and the objects exist.
    fn is_atom(&self, predicate: u32, objects: &[u32]) -> bool
        ensures { result ≡ is_atom_of (layout_of self.now) (ground predicate objects.now) }
    {
        (predicate as usize) < self.count
            && objects.len() == self.arity(predicate) as usize
            && all_below(objects, self.objects)
    }

    /// The cell of a ground atom, if it is one.
    // One look-up for the test and the first cell was tried: it leaves more to prove.
    fn cell_if_atom(&self, predicate: u32, objects: &[u32]) -> Option<u16>
        ensures { result ≡ cell_at (layout_of self.now) (ground predicate objects.now) }
    {
        if !self.is_atom(predicate, objects) {
            return None;
        }
        let first = self.first_cell(predicate as usize);
        Some((first + number_of(objects, self.objects)) as u16)
    }

    /// The cell of a predicate with objects; none if the predicate or an object does not exist, or their number is not the arity.
    pub fn cell(&self, predicate: u32, objects: &[u32]) -> Option<u16>
        ensures cell_of_atom { result ≡ cell_at (layout_of self.now) (ground predicate objects.now) }
        ensures one_atom_per_cell { OneAtomPerCell (layout_of self.now) }
    {
        self.cell_if_atom(predicate, objects)
    }
}
