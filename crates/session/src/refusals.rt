//! What a session refuses at once: places that do not exist, and a full plan.

ghost use Rattle.std.specs.Prelude.{◌≡◌, ◌+◌, ◌≤◌, if◌then◌else◌, Some, None, nat_le};
ghost use Rattle.std.specs.Result.{result_err};
ghost use Rattle.form.specs.declared.answers.Decline.TheVariants.{NoSuchPlace, PlanFull};
ghost use Rattle.session.specs.Book.{place_exists, refusal, refused_at_once};

use crate::calls::Call;
use crate::ledgers::MOST_STEPS;
use form::answers::{Decline, Fault};

/// A refusal of a session; the line is 0.
pub(crate) fn fault(decline: Decline, place: u32, item: u32) -> Fault
    ensures { result ≡ refusal decline place item }
{
    Fault {
        decline,
        line: 0,
        place,
        item,
    }
}

/// Refuses a place, from 1, behind the last one, where so many steps stand.
fn check_place(place: u32, last: u32, count: u32) -> Result<(), Fault>
    ensures { result_err result ≡ (if place_exists place last then None else Some (refusal NoSuchPlace place count)) }
{
    if 1 <= place && place <= last {
        Ok(())
    } else {
        Err(fault(Decline::NoSuchPlace, place, count))
    }
}

/// Refuses one more step where the plan is full.
fn check_room(count: u32) -> Result<(), Fault>
    requires { count ≤ 256 }
    ensures { result_err result ≡ (if nat_le 256 count then Some (refusal PlanFull (count + 1) 256) else None) }
{
    if MOST_STEPS as u32 <= count {
        Err(fault(Decline::PlanFull, count + 1, MOST_STEPS as u32))
    } else {
        Ok(())
    }
}

/// Refuses a call for its place or for the number of steps, where so many stand.
pub(crate) fn check_at_once(call: Call, count: u32) -> Result<(), Fault>
    requires { count ≤ 256 }
    ensures { result_err result ≡ refused_at_once call count }
{
    // A match: a log holds its calls as data.
    match call {
        Call::Append { step: _ } => check_room(count),
        Call::Insert { place, step: _ } => {
            check_place(place, count + 1, count)?;
            check_room(count)
        }
        Call::Strike { place } => check_place(place, count, count),
        Call::Retract => {
            if count == 0 {
                Err(fault(Decline::NoSuchPlace, 0, 0))
            } else {
                Ok(())
            }
        }
        Call::Verdict => Ok(()),
    }
}
