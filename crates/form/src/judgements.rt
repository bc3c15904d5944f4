//! Why a task form declines a step.

ghost use Rattle.std.specs.Prelude.{◌≡◌};
ghost use Rattle.form.specs.Numbers.{cause_fault};

use crate::answers::{Decline, Fault};

/// Why a form declines a step.
#[derive(Clone, Copy, PartialEq, Eq, Debug)]
pub enum Cause {
    /// The operator does not exist.
    NoSuchOperator,
    /// The number of arguments is wrong: the number given.
    ArgumentCount(u32),
    /// An argument is no object or does not fit: its position, from 1.
    ArgumentMisfit(u32),
    /// A precondition fails: the form's own number for it.
    Precondition(u32),
}

impl Cause {
    /// The fault that a declined step gives, at its line and place.
    pub fn at(self, line: u32, place: u32) -> Fault
        ensures numbers_of_cause { result ≡ cause_fault self line place }
    {
        let (decline, item) = match self {
            Cause::NoSuchOperator => (Decline::NoSuchOperator, 0),
            Cause::ArgumentCount(given) => (Decline::ArgumentCount, given),
            Cause::ArgumentMisfit(position) => (Decline::ArgumentMisfit, position),
            Cause::Precondition(item) => (Decline::PreconditionFails, item),
        };
        Fault {
            decline,
            line,
            place,
            item,
        }
    }
}
