//! The truth of formulas in a row.

ghost use Rattle.std.specs.Prelude.{◌≡◌, List, ℕ, length, Decides, ◌==◌, slice_index};
ghost use Rattle.atoms.specs.Formulas.{Formula, BeginsWith};
ghost use Rattle.atoms.specs.Judging.{truth_in, HoldsIn, EntailedIn};
ghost use Rattle.atoms.specs.Laying.{layout_of};
ghost use Rattle.atoms.specs.Reading.{read};

use crate::cells::Cells;
use crate::grounding::Grounding;
use crate::reading::{Reading, read_code};

/// What formulas are judged in: a row of cells, and the objects that stand for the parameters. A cell that the row lacks reads as 0.
#[derive(Clone, Copy)]
pub struct Situation<'c, 'a, 'r> {
    pub cells: &'c Cells,
    pub arguments: &'a [u32],
    pub row: &'r [u16],
}

/// Whether a cell of a row holds 1.
fn holds_one(row: &[u16], cell: u16) -> bool
    ensures { result ≡ (slice_index row.now cell == 1) }
{
    row.get(cell as usize).copied().unwrap_or(0) == 1
}

impl<'c, 'a> Situation<'c, 'a, '_> {
    /// What atoms are grounded by.
    fn grounding(&self) -> Grounding<'c, 'a>
        ensures same_cells { result.cells.now ≡ self.now.cells.now }
        ensures same_arguments { result.arguments.now ≡ self.now.arguments.now }
    {
        Grounding {
            cells: self.cells,
            arguments: self.arguments,
        }
    }

    /// Judges the formula that the numbers begin with: its truth, and the numbers left over.
    pub fn judge<'n>(&self, code: &'n [u32]) -> (bool, &'n [u32])
        ensures as_computed { read (truth_in self.now) (length code.now) code.now ≡ (result.0, result.1.now) }
        ensures truth_in_the_world_of_the_row { (f : Formula) (left : List ℕ) → BeginsWith (layout_of self.now.cells.now).arities code.now f left → Decides result.0 (HoldsIn self.now f) × (result.1.now ≡ left) }
        ensures entailment_under_the_closed_world { (f : Formula) (left : List ℕ) → BeginsWith (layout_of self.now.cells.now).arities code.now f left → Decides result.0 (EntailedIn self.now f) }
    {
        read_code(self, code)
    }
}

/// The reading of a formula as true or false.
impl Reading for Situation<'_, '_, '_> {
    ghost algebra = { truth_in };

    fn arity(&self, predicate: u32) -> u32 {
        self.cells.arity(predicate)
    }

    fn at_falsum(&self) -> bool {
        false
    }

    #[tactic(auto, using(crate::proofs::Laying::low_arity))]
    fn at_atom(&self, predicate: u32, terms: &[u32]) -> bool {
        self.grounding()
            .cell(predicate, terms)
            .is_some_and(|cell| holds_one(self.row, cell))
    }

    fn at_equality(&self, first: u32, second: u32) -> bool {
        self.grounding().object(first) == self.grounding().object(second)
    }

    fn at_negation(&self, operand: bool) -> bool {
        !operand
    }

    fn at_conjunction(&self, first: bool, second: bool) -> bool {
        first && second
    }

    fn at_disjunction(&self, first: bool, second: bool) -> bool {
        first || second
    }

    fn at_implication(&self, first: bool, second: bool) -> bool {
        !first || second
    }
}
