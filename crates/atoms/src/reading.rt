//! Reading the formula that numbers begin with.

ghost use Rattle.std.specs.Prelude.{◌≡◌, ℕ, ◌≤◌, cond, ◌==◌, length, slice_index};
ghost use Rattle.atoms.specs.Reading.{Algebra, atom_behind, read};

/// A reading of formulas: what it says of each kind, from what it says of the operands.
pub(crate) trait Reading {
    /// What it says, all together.
    ghost algebra: { Self → Algebra };

    /// The number of a predicate's arguments; 0 for a predicate that does not exist.
    fn arity(&self, predicate: u32) -> u32
        ensures number_of_arguments { result ≡ slice_index (algebra self.now).arities predicate };

    /// Of "false".
    fn at_falsum(&self) -> bool
        ensures as_it_says { result ≡ (algebra self.now).at_falsum };

    /// Of a predicate with as many terms as it has arguments.
    fn at_atom(&self, predicate: u32, terms: &[u32]) -> bool
        requires as_many_terms { length terms.now ≡ slice_index (algebra self.now).arities predicate }
        ensures as_it_says { result ≡ (algebra self.now).at_atom predicate terms.now };

    /// Of two terms that are equal or not.
    fn at_equality(&self, first: u32, second: u32) -> bool
        ensures as_it_says { result ≡ (algebra self.now).at_equality first second };

    /// Of "not".
    fn at_negation(&self, operand: bool) -> bool
        ensures as_it_says { result ≡ (algebra self.now).at_negation operand };

    /// Of "and".
    fn at_conjunction(&self, first: bool, second: bool) -> bool
        ensures as_it_says { result ≡ (algebra self.now).at_conjunction first second };

    /// Of "or".
    fn at_disjunction(&self, first: bool, second: bool) -> bool
        ensures as_it_says { result ≡ (algebra self.now).at_disjunction first second };

    /// Of "implies".
    fn at_implication(&self, first: bool, second: bool) -> bool
        ensures as_it_says { result ≡ (algebra self.now).at_implication first second };
}

/// "false", as the first number of a formula.
const FALSUM: u32 = 0;

/// An atom: its predicate and terms follow.
const ATOM: u32 = 1;

/// An equality: its terms follow.
const EQUALITY: u32 = 2;

/// "not": its operand follows.
const NEGATION: u32 = 3;

/// "and": its operands follow.
const CONJUNCTION: u32 = 4;

/// "or": its operands follow.
const DISJUNCTION: u32 = 5;

/// "implies": its operands follow.
const IMPLICATION: u32 = 6;

/// Reads the atom of a predicate whose terms the numbers begin with.
// The pair of truth and rest is a fixed form: the rest goes on to the next operand, whatever the truth.
fn read_atom<'n, R: Reading>(reading: &R, predicate: u32, rest: &'n [u32]) -> (bool, &'n [u32])
    ensures reads { atom_behind (R.Reading.algebra reading.now) predicate rest.now ≡ (result.0, result.1.now) }
    ensures shortens { length result.1.now ≤ length rest.now }
{
    match rest.split_at_checked(reading.arity(predicate) as usize) {
        Some((terms, left)) => (reading.at_atom(predicate, terms), left),
        None => (false, rest),
    }
}

/// What the reading says of a kind with two operands, by the kind's number.
fn at_two<R: Reading>(reading: &R, kind: u32, first: bool, second: bool) -> bool
    ensures by_its_number { result ≡ cond (kind == 4) ((R.Reading.algebra reading.now).at_conjunction first second) (cond (kind == 5) ((R.Reading.algebra reading.now).at_disjunction first second) ((R.Reading.algebra reading.now).at_implication first second)) }
{
    match kind {
        CONJUNCTION => reading.at_conjunction(first, second),
        DISJUNCTION => reading.at_disjunction(first, second),
        _ => reading.at_implication(first, second),
    }
}

/// Reads the formula that the numbers begin with: what the reading says of it, and the numbers left over.
// A recursion on slice patterns: each shows a kind's numbers as they stand in the tables.
pub(crate) fn read_code<'n, R: Reading>(reading: &R, code: &'n [u32]) -> (bool, &'n [u32])
    ensures reads { (n : ℕ) → length code.now ≤ n → read (R.Reading.algebra reading.now) n code.now ≡ (result.0, result.1.now) }
    ensures shortens { length result.1.now ≤ length code.now }
{
    match code {
        [FALSUM, rest @ ..] => (reading.at_falsum(), rest),
        [ATOM, predicate, rest @ ..] => read_atom(reading, *predicate, rest),
        [EQUALITY, first, second, rest @ ..] => (reading.at_equality(*first, *second), rest),
        [
            kind @ (NEGATION | CONJUNCTION | DISJUNCTION | IMPLICATION),
            rest @ ..,
        ] => {
            // One call for the only operand and the first of two: the fewer pairs a frame holds, the deeper a formula may nest.
            let (first, middle) = read_code(reading, rest);
            if *kind == NEGATION {
                return (reading.at_negation(first), middle);
            }
            let (second, left) = read_code(reading, middle);
            (at_two(reading, *kind, first, second), left)
        }
        _ => (false, code),
    }
}
