//! A plan text read into a session, and the report of it.

ghost use Rattle.std.specs.Prelude.{◌≡◌, ◌≤◌, [], length, IfOk};
ghost use Rattle.session.specs.Ledgers.{Sound, steps_of};
ghost use Rattle.plan_texts.specs.Reading.{read_lines, read_text};
ghost use Rattle.text.specs.Split.{lines_of};
ghost use Rattle.session_report.specs.Reports.{EndsWith, Reported, StepsReported};

use form::answers::{Answer, Fault};
use form::forms::{NamedForm, ReadableForm, TaskForm};
use plan_texts::reading::read_line;
use report_lines::lines::{answer_line, write_step_line};
use session::sessions::Session;
use std::alloc::{AllocError, Global};
use text::faults::check_length;
use text::lines::NumberedLines;

/// The lines of the steps granted, their number, and what reading the text gave.
// The lines stand where a fault ended the reading too, so the fault is a part of the report and no error of the call.
#[derive(Drop)]
pub(crate) struct StepReport {
    lines: Vec<u8>,
    granted: usize,
    result: Result<(), Fault>,
}

/// Reads the lines of a text into a session, up to the first that ends the reading, and writes a line for each step granted.
// Its bound is what `check_length` has just said.
fn report_lines<F: NamedForm>(
    heap: Global,
    session: &mut Session<F>,
    text: &[u8],
) -> Result<StepReport, AllocError>
    requires sound { Sound (F.TaskForm.means session.old.form) session.old.ledger }
    requires short { length text.now ≤ 65536 }
    ensures steps_reported { IfOk result (λ report. StepsReported (F.TaskForm.means session.old.form) (read_lines F.NamedForm.most (F.TaskForm.means session.old.form) (F.NamedForm.names session.old.form) 1 (steps_of session.old.ledger) (lines_of text.now)) session.new.ledger report) }
    ensures form_stays { session.new.form ≡ session.old.form }
{
    let mut lines = Vec::new(heap);
    let mut granted = 0;
    for next in NumberedLines::new(text) {
        match read_line(session, next.number, next.line) {
            Ok(None) => {}
            Ok(Some(inner)) => {
                granted += 1;
                write_step_line(heap, &mut lines, granted, inner)?;
            }
            Err(fault) => return Ok(StepReport {
                lines,
                granted,
                result: Err(fault),
            }),
        }
    }
    Ok(StepReport {
        lines,
        granted,
        result: Ok(()),
    })
}

/// Reads a text into a session, and writes a line for each step granted. A text that is too long is refused whole.
fn report_steps<F: NamedForm>(
    heap: Global,
    session: &mut Session<F>,
    text: &[u8],
) -> Result<StepReport, AllocError>
    requires { Sound (F.TaskForm.means session.old.form) session.old.ledger }
    ensures steps_reported { IfOk result (λ report. StepsReported (F.TaskForm.means session.old.form) (read_text F.NamedForm.most (F.TaskForm.means session.old.form) (F.NamedForm.names session.old.form) text.now (steps_of session.old.ledger)) session.new.ledger report) }
    ensures form_stays { session.new.form ≡ session.old.form }
{
    if let Err(fault) = check_length(text) {
        return Ok(StepReport {
            lines: Vec::new(heap),
            granted: 0,
            result: Err(fault),
        });
    }
    report_lines(heap, session, text)
}

/// The answer where the reading ended: its fault, or whether the standing steps lead to the goal.
fn answer_at_end<F: TaskForm>(session: &Session<F>, res: Result<(), Fault>) -> Answer
    ensures fault_or_verdict { EndsWith (F.TaskForm.means session.now.form) session.now.ledger res result }
{
    match res {
        Ok(()) => session.verdict(),
        Err(fault) => Answer::Refused(fault),
    }
}

/// The report of a plan text: a line for each step granted, with its place and the inner text of its line, and then the answer's line.
///
/// The text is read into a session newly opened above the form, up to its end or to its earliest bad line.
pub fn report_plan<F: ReadableForm + Drop>(
    heap: Global,
    form: F,
    text: &[u8],
) -> Result<Vec<u8>, AllocError>
    ensures reported_to_the_earliest_bad_line { IfOk result (λ bytes. Reported F.NamedForm.most (F.TaskForm.means form) (F.NamedForm.names form) text.now bytes.items) }
{
    form.lawful();
    form.names_lawful();
    form.names_readable();
    let mut session = Session::open(form);
    let report = report_steps(heap, &mut session, text)?;
    let answer = answer_at_end(&session, report.result);
    let last = answer_line(heap, report.granted, answer)?;
    let StepReport {
        mut lines,
        granted: _,
        result: _,
    } = report;
    lines.extend_from_slice(last.as_bytes())?;
    Ok(lines)
}
