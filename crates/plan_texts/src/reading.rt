//! Reading a plan text into a session.

ghost use Rattle.std.specs.Prelude.{◌≡◌, ◌+◌, ◌<◌, ◌≤◌, length, Ok};
ghost use Rattle.session.specs.Ledgers.{Sound, steps_of};
ghost use Rattle.text.specs.Faults.{fault_at};
ghost use Rattle.text.specs.Kinds.{Kind};
ghost use Rattle.plan_texts.specs.Outcomes.{LineRead, LinesRead, TextRead};
ghost use Rattle.plan_texts.specs.Reading.{at_line, line_gives, named_gives, read_lines};
ghost use Rattle.text.specs.Split.{lines_of};

use form::answers::{Answer, Decline, Fault};
use form::forms::{NamedForm, ReadableForm, TaskForm};
use form::steps::Step;
use session::sessions::Session;
use text::faults::{check_length, fault_behind};
use text::line::{Line, classify};
use text::lines::NumberedLines;

/// The fault of a line that gives no step: its place is the one that its step would have.
fn fault_here<F>(session: &Session<F>, decline: Decline, line: u32, item: u32) -> Fault
    ensures { result ≡ fault_at decline line (session.now.ledger.count + 1) item }
{
    fault_behind(session.standing_count() as u32, decline, line, item)
}

/// Puts the step that a line names behind the last.
fn append_named<'a, F: NamedForm>(
    session: &mut Session<F>,
    number: u32,
    inner: &'a [u8],
    step: Step,
) -> Result<Option<&'a [u8]>, Fault>
    ensures one_more_step { LineRead (F.TaskForm.means session.old.form) (λ ss. named_gives (F.TaskForm.means session.old.form) number inner.now ss (Ok step)) session.old.ledger session.new.ledger result }
    ensures form_stays { session.new.form ≡ session.old.form }
{
    match session.append(step) {
        Answer::Refused(fault) => Err(Fault {
            line: number,
            ..fault
        }),
        Answer::Granted | Answer::Plan | Answer::Open(_) => Ok(Some(inner)),
    }
}

/// What a line is, by the form's most words.
fn kind_by_form<'a, F: NamedForm>(line: &'a [u8]) -> Line<'a>
    ensures { Kind F.NamedForm.most line.now result }
{
    classify(line, F::word_limit())
}

/// Reads a line of a plan text, the one of this number: a step line's step is looked up by its inner text and put behind the last. Gives that inner text, or nothing where the line is blank or a comment.
// Part of each loop over lines: a call of its own would cost more than a blank line or a comment does.
#[inline(always)]
pub fn read_line<'a, F: NamedForm>(
    session: &mut Session<F>,
    number: u32,
    line: &'a [u8],
) -> Result<Option<&'a [u8]>, Fault>
    ensures line_read_as_defined { LineRead (F.TaskForm.means session.old.form) (λ ss. line_gives F.NamedForm.most (F.TaskForm.means session.old.form) (F.NamedForm.names session.old.form) number ss line.now) session.old.ledger session.new.ledger result }
    ensures form_stays { session.new.form ≡ session.old.form }
{
    match kind_by_form::<F>(line) {
        Line::Blank | Line::Comment => Ok(None),
        Line::Step(inner) => match session.form().step_named(inner) {
            Ok(step) => append_named(session, number, inner, step),
            Err(item) => Err(fault_here(session, Decline::UnknownName, number, item)),
        },
        Line::Malformed => Err(fault_here(session, Decline::MalformedLine, number, 0)),
    }
}

/// Reads the lines of a text in order, up to the first that ends the reading.
// Its bound is what `check_length` has just said.
fn read_lines<F: NamedForm>(session: &mut Session<F>, text: &[u8]) -> Result<(), Fault>
    requires { length text.now ≤ 65536 }
    ensures lines_read { Sound (F.TaskForm.means session.old.form) session.old.ledger → LinesRead (F.TaskForm.means session.old.form) (read_lines F.NamedForm.most (F.TaskForm.means session.old.form) (F.NamedForm.names session.old.form) 1 (steps_of session.old.ledger) (lines_of text.now)) session.new.ledger result }
    ensures form_stays { session.new.form ≡ session.old.form }
{
    for next in NumberedLines::new(text) {
        read_line(session, next.number, next.line)?;
    }
    Ok(())
}

/// Reads a plan text into a session: its steps are put behind the last, in order, up to the first fault. The steps read before a fault keep standing.
///
/// A text of more than 65,536 bytes is refused whole. Every line counts, blank lines and comments too. The text is gone over once, and nothing of it is copied.
pub fn read<F: ReadableForm>(session: &mut Session<F>, text: &[u8]) -> Result<(), Fault>
    ensures read_as_defined_to_the_earliest_bad_line { Sound (F.TaskForm.means session.old.form) session.old.ledger → TextRead F.NamedForm.most (F.TaskForm.means session.old.form) (F.NamedForm.names session.old.form) text.now session.old.ledger session.new.ledger result }
    ensures untouched_if_too_long { 65536 < length text.now → session.new.ledger ≡ session.old.ledger }
    ensures form_stays { session.new.form ≡ session.old.form }
{
    session.form().lawful();
    session.form().names_lawful();
    session.form().names_readable();
    check_length(text)?;
    read_lines(session, text)
}
