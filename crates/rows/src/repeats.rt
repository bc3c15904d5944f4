//! Numbers that stand twice among the rows of a table.

ghost use Rattle.std.specs.Prelude.{◌≡◌, ◌==◌, ℕ, ◌<◌, true, map, length, IfSome, slice_set};
ghost use Rattle.std.specs.List.{list_any};
ghost use Rattle.rows.specs.Scans.{among, first_repeat};
ghost use Rattle.rows.specs.Marks.{Marks};

/// How many numbers have a mark of their own.
const MARKED: usize = 1024;

/// A number for each row of a table.
// A trait and not a closure: contracts speak of the number, which the trait names once.
pub trait Numbers<R> {
    /// A row's number.
    ghost number: { Self → R → ℕ };

    fn number_of(&self, row: &R) -> u32
        ensures number_of_row { result ≡ number self.now row.now };
}

/// Whether one of the rows has a number.
fn has_number<R, N: Numbers<R>>(numbers: &N, rows: &[R], number: u32) -> bool
    ensures { result ≡ list_any (λ row. number == N.Numbers.number numbers.now row) rows.now }
{
    rows.iter().any(|row| number == numbers.number_of(row))
}

/// Marks a number that has a mark.
fn mark(seen: &mut [bool; MARKED], number: u32)
    ensures { seen.new ≡ slice_set seen.old number true }
{
    // Not by `get_mut`: of a slice that was lent so, a proof knows the length only.
    if (number as usize) < MARKED {
        seen[number as usize] = true;
    }
}

/// Whether an earlier row has a number: by its mark, or, for a number without one, by looking through the rows.
#[tactic(auto, using(crate::proofs::Repeating::among_numbers))]
fn was_seen<R, N: Numbers<R>>(
    numbers: &N,
    seen: &[bool; MARKED],
    earlier: &[R],
    number: u32,
) -> bool
    ensures { Marks seen.now (map (N.Numbers.number numbers.now) earlier.now) → result ≡ among number (map (N.Numbers.number numbers.now) earlier.now) }
{
    match seen.get(number as usize) {
        Some(marked) => *marked,
        None => has_number(numbers, earlier, number),
    }
}

/// The index of the first row whose number an earlier row has.
///
/// Numbers below 1,024 are marked when seen, so that the work grows with the rows, and stops at the first repeat.
pub fn first_repeat<R, N: Numbers<R>>(numbers: &N, rows: &[R]) -> Option<usize>
    ensures first_repeated_row { result ≡ first_repeat (map (N.Numbers.number numbers.now) rows.now) }
    ensures inside { IfSome result (λ i. i < length rows.now) }
{
    // A loop: each row is marked for those behind it. Fixed marks, since admission allocates nothing.
    let mut seen = [false; MARKED];
    for (at, row) in rows.iter().enumerate() {
        let number = numbers.number_of(row);
        if was_seen(numbers, &seen, &rows[..at], number) {
            return Some(at);
        }
        mark(&mut seen, number);
    }
    None
}
