//! Steps of a plan, and the changes that a granted step makes.

ghost use Rattle.std.specs.Prelude.{◌≡◌, [], ◌∷◌};

/// One step of a plan: an operator with its arguments.
///
/// Argument places from `count` on say nothing: steps that differ only there are one step.
// Places in an array with their count beside it: the format in which steps are lent.
#[derive(Clone, Copy, Default, PartialEq, Eq, Debug)]
pub struct Step {
    pub operator: u32,
    pub count: u32,
    pub args: [u32; 4],
}

impl Step {
    /// The step of an operator, without arguments.
    pub fn of(operator: u32) -> Step
        ensures operator_alone { result ≡ record { operator = operator; count = 0; args = 0 ∷ 0 ∷ 0 ∷ 0 ∷ [] } }
    {
        Step {
            operator,
            ..Step::default()
        }
    }
}

/// A cell of the row and the value that it gets.
#[derive(Clone, Copy, PartialEq, Eq, Debug)]
pub struct Change {
    pub cell: u16,
    pub value: u16,
}
