//! The calls of a session, and a log of calls with their answers.

ghost use Rattle.std.specs.Prelude.{◌≡◌};
ghost use Rattle.session.specs.Logs.{asked};

use form::answers::Answer;
use form::steps::Step;

/// A call of a session. Places count from 1.
#[derive(Clone, Copy)]
pub enum Call {
    /// Puts a step behind the last.
    Append { step: Step },
    /// Puts a step at a place, and moves those from there on up by one.
    Insert { place: u32, step: Step },
    /// Removes the step at a place.
    Strike { place: u32 },
    /// Removes the last step.
    Retract,
    /// Says whether the standing steps lead to the goal.
    Verdict,
}

/// A call, and the place for its answer.
#[derive(Clone, Copy)]
pub struct Exchange {
    pub call: Call,
    pub answer: Answer,
}

impl From<Call> for Exchange {
    ghost from_gives = { λ call exchange. exchange ≡ asked call };

    /// A call whose answer is still to come: until it is made it reads as granted.
    fn from(call: Call) -> Exchange {
        Exchange {
            call,
            answer: Answer::Granted,
        }
    }
}
