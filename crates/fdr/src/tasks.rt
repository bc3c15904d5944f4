//! The type of an admitted task.

ghost use Rattle.std.specs.Prelude.{◌≡◌, true, is_ok};
ghost use Rattle.fdr.specs.Admission.{admission};
ghost use Rattle.fdr.specs.Tables.{held};

use crate::tables::FdrTables;

pub mod admitting;
pub mod forming;
pub mod lending;

/// A finite-domain task whose tables were admitted. Only admission makes one.
#[derive(Clone, Copy)]
pub struct FdrTask<'a> {
    tables: FdrTables<'a>,
    ghost admitted: { is_ok (admission (held tables)) ≡ true },
}
