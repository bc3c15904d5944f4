//! Names of rows: looking a name up, and whether an earlier row has it.

ghost use Rattle.std.specs.Prelude.{◌≡◌, ◌<◌, length, take, IfSome};
ghost use Rattle.rows.specs.declared.runs.Run.{Run};
ghost use Rattle.rows.specs.Scans.{part, name_at, name_among};

use crate::runs::{Run, part_of};

/// A row with a name: a run of name bytes.
pub trait Named {
    /// Where the name stands.
    ghost place: { Self → Run };

    fn name_run(&self) -> Run
        ensures run_of_name { result ≡ place self.now };
}

/// The index of the first row that has a name.
pub fn find_name<R: Named>(bytes: &[u8], rows: &[R], name: &[u8]) -> Option<usize>
    ensures first_of_name { result ≡ name_at (λ x. part bytes.now (R.Named.place x)) name.now rows.now }
    ensures inside { IfSome result (λ i. i < length rows.now) }
{
    rows.iter()
        .position(|row| part_of(bytes, row.name_run()) == name)
}

/// The rows before an index.
fn rows_before<R>(rows: &[R], at: usize) -> &[R]
    ensures { result.now ≡ take at rows.now }
{
    rows.get(..at).unwrap_or(rows)
}

/// Whether a row before an index has the same name as a given row.
///
/// It is a look-up by `find_name`: names are compared in one place, behind which an index could come.
pub fn earlier_has_name<R: Named>(bytes: &[u8], rows: &[R], at: usize, row: &R) -> bool
    ensures stands_earlier { result ≡ name_among (λ x. part bytes.now (R.Named.place x)) row.now (take at rows.now) }
{
    let name = part_of(bytes, row.name_run());
    find_name(bytes, rows_before(rows, at), name).is_some()
}
