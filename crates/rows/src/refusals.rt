//! Refusals of tables: a table as a whole, or a row of it.

ghost use Rattle.std.specs.Prelude.{◌≡◌};
ghost use Rattle.rows.specs.Checks.{refusal, row_from1, table_check, row_check};

use form::answers::{Decline, Fault};

/// The refusal of a row of a table, from 1, or, as row 0, of the table as a whole.
fn refusal(decline: Decline, table: u32, row: u32) -> Fault
    ensures { result ≡ refusal decline table row }
{
    Fault {
        decline,
        line: 0,
        place: table,
        item: row,
    }
}

/// The number, from 1, of the row of an index, as far as 32 bits count.
fn row_from_1(at: usize) -> u32
    ensures { result ≡ row_from1 at }
{
    at.min(u32::MAX as usize - 1) as u32 + 1
}

/// Refuses a table as a whole if it is bad.
pub fn refuse_table(decline: Decline, table: u32, bad: bool) -> Result<(), Fault>
    ensures refused_if_bad { result ≡ table_check decline table bad }
{
    if bad {
        return Err(refusal(decline, table, 0));
    }
    Ok(())
}

/// Refuses a table's row by its index, if one was found; the row counts from 1, as far as 32 bits count.
pub fn refuse_row(decline: Decline, table: u32, found: Option<usize>) -> Result<(), Fault>
    ensures refused_if_found { result ≡ row_check decline table found }
{
    match found {
        Some(at) => Err(refusal(decline, table, row_from_1(at))),
        None => Ok(()),
    }
}
