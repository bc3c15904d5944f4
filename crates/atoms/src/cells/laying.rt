//! Laying out the cells of predicates one behind the other.

ghost use Rattle.std.specs.Prelude.{◌≡◌, ◌+◌, ◌^◌, ◌≤◌, ◌&&◌, is_some, IfSome, if◌then◌else◌, Some, None, Decides, nat_le};
ghost use Rattle.atoms.specs.Layouts.{RowHasRoom, next_fits, has_room, width};
ghost use Rattle.atoms.specs.Laying.{layout_of, layout, Followed};

use super::{Cells, PredicateCells};
use crate::rows::Predicate;

/// The most predicates.
const MOST_PREDICATES: usize = 32;

/// The most cells.
const MOST_CELLS: u32 = 1024;

/// The cell behind the last of a predicate whose cells begin at `at`; none if that passes the most cells, or the arity is above 3.
fn end_of(objects: u32, at: u32, arity: u32) -> Option<u32>
    requires { at ≤ 1024 }
    ensures { result ≡ (if nat_le arity 3 && nat_le (at + objects ^ arity) 1024 then Some (at + objects ^ arity) else None) }
{
    let cells = objects.saturating_pow(arity);
    if arity <= 3 && cells <= MOST_CELLS - at {
        Some(at + cells)
    } else {
        None
    }
}

impl Cells {
    /// The cells of no predicate.
    fn none(objects: u32) -> Cells
        ensures objects_given { result.objects ≡ objects }
        ensures no_predicates { result.count ≡ 0 }
        ensures no_cells { result.width ≡ 0 }
    {
        Cells {
            objects,
            count: 0,
            predicates: [PredicateCells { arity: 0, first: 0 }; MOST_PREDICATES],
            width: 0,
        }
    }

    /// Puts the cells of one more predicate behind these, in place, if there is room.
    fn add_predicate(&mut self, arity: u32) -> Option<()>
        ensures fits { is_some result ≡ next_fits self.old.objects self.old.count self.old.width arity }
        ensures follows { IfSome result (λ _. Followed self.old arity self.new) }
    {
        if self.count >= MOST_PREDICATES {
            return None;
        }
        let width = end_of(self.objects, self.width, arity)?;
        let first = self.width;
        self.predicates[self.count] = PredicateCells { arity, first };
        self.count += 1;
        self.width = width;
        Some(())
    }

    /// Lays out the cells of predicates in order; none if a row has no room for them.
    fn lay_out(objects: u32, predicates: &[Predicate]) -> Option<Cells>
        ensures room { is_some result ≡ has_room (layout objects predicates.now) }
        ensures laid { IfSome result (λ c. layout_of c ≡ layout objects predicates.now) }
    {
        let mut cells = Cells::none(objects);
        for predicate in predicates {
            cells.add_predicate(predicate.arity)?;
        }
        Some(cells)
    }

    /// The cells of predicates in order, each with any of the objects for its arguments; none if a row has no room for them.
    pub fn of(objects: u32, predicates: &[Predicate]) -> Option<Cells>
        ensures as_computed { is_some result ≡ has_room (layout objects predicates.now) }
        ensures there_if_row_has_room { Decides (is_some result) (RowHasRoom (layout objects predicates.now)) }
        ensures laid_out_as_given { IfSome result (λ c. layout_of c ≡ layout objects predicates.now) }
    {
        Cells::lay_out(objects, predicates)
    }

    /// The number of cells.
    #[tactic(auto, using(crate::proofs::Laying::all_cells))]
    pub fn width(&self) -> usize
        ensures all_cells { result ≡ width (layout_of self.now) }
        ensures at_most_1024 { result ≤ 1024 }
    {
        self.width as usize
    }
}
