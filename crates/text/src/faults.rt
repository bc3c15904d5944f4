//! The faults of a plan text and of its lines.
ghost use Rattle.std.specs.Prelude.{◌≡◌, ◌+◌, min, length, if◌then◌else◌, Ok, Err, nat_lt};
ghost use Rattle.form.specs.declared.answers.Decline.TheVariants.{TextTooLong};
ghost use Rattle.text.specs.Faults.{fault_at};

use form::answers::{Decline, Fault};

/// The most bytes of a plan text.
pub const MOST_BYTES: usize = 65536;

/// Refuses a text that is too long to be read.
pub fn check_length(text: &[u8]) -> Result<(), Fault>
    ensures refused_past_the_limit { result ≡ (if nat_lt 65536 (length text.now) then Err (fault_at TextTooLong 0 0 0) else Ok tt) }
{
    if text.len() > MOST_BYTES {
        return Err(Fault {
            decline: Decline::TextTooLong,
            line: 0,
            place: 0,
            item: 0,
        });
    }
    Ok(())
}

/// The fault of a line that gives no step, behind so many that stand: its place is the one that its step would have.
pub fn fault_behind(standing: u32, decline: Decline, line: u32, item: u32) -> Fault
    ensures at_the_place_of_its_step { result ≡ fault_at decline line (min (standing + 1) 4294967295) item }
{
    Fault {
        decline,
        line,
        place: standing.saturating_add(1),
        item,
    }
}
