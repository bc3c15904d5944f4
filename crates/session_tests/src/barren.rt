//! Forms that grant no step: they keep the meaning all the same.

ghost use Rattle.session_tests.specs.Barren.{barren_meaning, sealed_meaning};

use form::change_lists::ChangeList;
use form::forms::TaskForm;
use form::judgements::Cause;
use form::steps::Step;

/// A form that declines every step for one cause, in every row.
#[derive(Clone, Copy)]
pub struct Barren {
    pub cause: Cause,
}

impl TaskForm for Barren {
    ghost means = { λ f. barren_meaning f.cause };

    fn lawful(&self) {}

    fn width(&self) -> usize {
        1
    }

    fn first_value(&self, cell: usize) -> u16 {
        if cell == 0 { 7 } else { 0 }
    }

    fn judge(&self, _row: &[u16], _step: Step) -> Result<ChangeList, Cause> {
        Err(self.cause)
    }

    fn unmet_goal(&self, _row: &[u16]) -> Option<u32> {
        Some(1)
    }
}

/// A form that declines every step by the row: the failing item is what its cell holds.
#[derive(Clone, Copy)]
pub struct Sealed;

impl TaskForm for Sealed {
    ghost means = { λ _. sealed_meaning };

    fn lawful(&self) {}

    fn width(&self) -> usize {
        1
    }

    fn first_value(&self, cell: usize) -> u16 {
        if cell == 0 { 7 } else { 0 }
    }

    fn judge(&self, row: &[u16], _step: Step) -> Result<ChangeList, Cause> {
        let item = u32::from(row.first().copied().unwrap_or(0));
        Err(Cause::Precondition(item))
    }

    fn unmet_goal(&self, _row: &[u16]) -> Option<u32> {
        Some(1)
    }
}
