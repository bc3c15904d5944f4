//! Runs: the part of a table that a start and a count name.

ghost use Rattle.std.specs.Prelude.{◌≡◌};
ghost use Rattle.rows.specs.Scans.{part, passes};

/// A start and a count in another table.
// A start and a count into another table: the format of lent tables.
#[derive(Clone, Copy)]
pub struct Run {
    pub start: u32,
    pub count: u32,
}

/// The rows of a table that a run names, as far as the table has them.
pub fn part_of<R>(table: &[R], run: Run) -> &[R]
    ensures rows_of_run { result.now ≡ part table.now run }
{
    let behind = &table[table.len().min(run.start as usize)..];
    &behind[..behind.len().min(run.count as usize)]
}

/// Whether a run's start plus count passes the end of a table; the sum is made in 64 bits, so it cannot wrap.
pub fn passes_end(run: Run, len: usize) -> bool
    ensures sum_above_length { result ≡ passes run len }
{
    run.start as usize + run.count as usize > len
}
