//! Writing the plan text of a session's standing steps.

ghost use Rattle.std.specs.Prelude.{◌≡◌, ℕ, ◌+◌, ◌*◌, ◌≤◌, ◌++◌, map, length, sum_by, take, drop, if◌then◌else◌, Ok, nat_le};
ghost use Rattle.session.specs.Ledgers.{Sound, steps_of};
ghost use Rattle.plan_texts.specs.Writing.{ReadsBack, plan_text, step_line, write_result, written_to};

use form::answers::{Decline, Fault};
use form::forms::{NamedForm, TaskForm};
use form::steps::Step;
use session::ledgers::Standing;
use session::sessions::Session;

/// The length of a step's line: a buffer without room leaves the form nothing to write, and it tells the length of the text.
fn line_length<F: NamedForm>(form: &F, step: Step) -> usize
    ensures text_brackets_and_end { result ≡ length ((F.NamedForm.names form.now).text_of step) + 3 }
    ensures short { result ≤ 247 }
{
    form.names_lawful();
    let mut no_room: [u8; 0] = [];
    form.write_text(step, &mut no_room) + 3
}

/// The length of the text of some steps.
// This and the two that write take the steps with their bound, as one look at the session gives them: to ask the session in each is no plainer.
fn text_length<F: NamedForm>(form: &F, standing: &[Standing]) -> usize
    requires { length standing.now ≤ 256 }
    ensures { result ≡ sum_by (λ e. length ((F.NamedForm.names form.now).text_of e.step) + 3) standing.now }
{
    standing
        .iter()
        .map(|entry| line_length(form, entry.step))
        .sum()
}

/// Writes a step's line to the front of what is left of a buffer, and returns the line's length.
fn write_line<F: NamedForm>(form: &F, step: Step, tail: &mut [u8]) -> usize
    requires { length (step_line (F.NamedForm.names form.now) step) ≤ length tail.old }
    ensures length_of_line { result ≡ length (step_line (F.NamedForm.names form.now) step) }
    ensures short { result ≤ 247 }
    ensures line_then_old_bytes { tail.new ≡ step_line (F.NamedForm.names form.now) step ++ drop result tail.old }
{
    form.names_lawful();
    tail[0] = b'(';
    let end = form.write_text(step, &mut tail[1..]) + 1;
    tail[end] = b')';
    tail[end + 1] = b'\n';
    end + 2
}

/// Writes the lines of some steps, each into what is left of the buffer behind the line before.
fn write_lines<F: NamedForm>(form: &F, standing: &[Standing], buffer: &mut [u8])
    requires few { length standing.now ≤ 256 }
    requires room { length (plan_text (F.NamedForm.names form.now) (map (λ e. e.step) standing.now)) ≤ length buffer.old }
    ensures { buffer.new ≡ plan_text (F.NamedForm.names form.now) (map (λ e. e.step) standing.now) ++ drop (length (plan_text (F.NamedForm.names form.now) (map (λ e. e.step) standing.now))) buffer.old }
{
    let mut at = 0;
    for entry in standing {
        // The rest of the buffer is lent to the call that writes one line: a fixed form of the project.
        at += write_line(form, entry.step, &mut buffer[at..]);
    }
}

/// Writes the lines of some steps if the buffer has room for all of them, which need so many bytes.
fn write_if_room<F: NamedForm>(
    form: &F,
    standing: &[Standing],
    needed: usize,
    buffer: &mut [u8],
) -> Result<usize, Fault>
    requires few { length standing.now ≤ 256 }
    requires short { needed ≤ 247 * 256 }
    requires length_of_text { needed ≡ length (plan_text (F.NamedForm.names form.now) (map (λ e. e.step) standing.now)) }
    ensures length_or_length_needed { result ≡ write_result needed (length buffer.old) }
    ensures text_then_old_bytes { buffer.new ≡ (if nat_le needed (length buffer.old) then plan_text (F.NamedForm.names form.now) (map (λ e. e.step) standing.now) ++ drop needed buffer.old else buffer.old) }
{
    if needed > buffer.len() {
        return Err(Fault {
            decline: Decline::BufferTooShort,
            line: 0,
            place: 0,
            item: needed as u32,
        });
    }
    write_lines(form, standing, buffer);
    Ok(needed)
}

/// Writes the plan text of the standing steps to the front of a buffer, and returns its length. A buffer that is too short is not touched.
pub fn write<F: NamedForm>(session: &Session<F>, buffer: &mut [u8]) -> Result<usize, Fault>
    ensures length_or_length_needed { result ≡ write_result (length (plan_text (F.NamedForm.names session.now.form) (steps_of session.now.ledger))) (length buffer.old) }
    ensures text_then_old_bytes { buffer.new ≡ written_to (plan_text (F.NamedForm.names session.now.form) (steps_of session.now.ledger)) buffer.old }
    ensures short_enough_to_be_read { length (plan_text (F.NamedForm.names session.now.form) (steps_of session.now.ledger)) ≤ 65536 }
    ensures reads_back_to_the_same_session { Sound (F.TaskForm.means session.now.form) session.now.ledger → (n : ℕ) → result ≡ Ok n → ReadsBack F.NamedForm.most (F.TaskForm.means session.now.form) (F.NamedForm.names session.now.form) session.now.ledger (take n buffer.new) }
{
    let form = session.form();
    let standing = session.standing();
    form.lawful();
    form.names_lawful();
    let needed = text_length(form, standing);
    write_if_room(form, standing, needed, buffer)
}
