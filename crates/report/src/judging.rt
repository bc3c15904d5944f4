//! A plan text judged line by line.

ghost use Rattle.std.specs.Prelude.{◌≡◌, ℕ, ◌+◌, ◌<◌, ◌≤◌, List, [], ◌∷◌, ◌++◌, length, IfOk, OnOk, nat_lt, slice_index, EachIndex};
ghost use Rattle.std.specs.List.{AllByRecursion};
ghost use Rattle.form.specs.Leading.{written};
ghost use Rattle.text.specs.Faults.{fault_at};
ghost use Rattle.text.specs.Kinds.{StepText};
ghost use Rattle.report.specs.PlanTexts.{PlanJudged, PlanAtGoal};
ghost use Rattle.report.specs.Runs.{texts_of, steps_of, answer_at};
ghost use Rattle.report.specs.Turns.{LineJudged, StepLineJudged};

use form::answers::{Answer, Decline, Fault};
use form::forms::{NamedForm, TaskForm};
use form::steps::{Change, Step};
use std::alloc::{AllocError, Global};
use text::faults::{check_length, fault_behind};
use text::line::{Line, classify};
use text::lines::NumberedLines;

/// A step that stands, with the part of the plan text that names it.
#[derive(Clone, Copy)]
pub struct NamedStep<'a> {
    pub text: &'a [u8],
    pub step: Step,
}

/// What judging a plan text gives: the steps granted, and the answer.
#[derive(Drop)]
pub struct PlanRun<'a> {
    pub granted: Vec<NamedStep<'a>>,
    pub answer: Answer,
}

/// The most steps that stand at once.
const MOST_STEPS: u32 = 256;

/// The row before any step, cell by cell. (A session fills a fixed array, since it allocates nothing.)
fn first_row<F: TaskForm>(heap: Global, form: &F) -> Result<Vec<u16>, AllocError>
    ensures as_wide { IfOk result (λ row. length row.items ≡ (F.TaskForm.means form.now).width) }
    ensures each_first_value { IfOk result (λ row. EachIndex row.items (λ cell. slice_index row.items cell ≡ slice_index (F.TaskForm.means form.now).first cell)) }
{
    (0..form.width())
        .map(|cell| form.first_value(cell))
        .collect(heap)
}

/// Writes changes into a row, in order.
fn write_changes(row: &mut [u16], changes: &[Change])
    requires { AllByRecursion (λ c. c.cell < length row.old) changes.now }
    ensures { row.new ≡ written row.old changes.now }
{
    for change in changes {
        row[change.cell as usize] = change.value;
    }
}

/// A task as far as its plan text is judged: the steps that stand so far, and the row reached.
#[derive(Drop)]
struct Judging<'a, 'f, F: NamedForm> {
    form: &'f F,
    row: Vec<u16>,
    granted: Vec<NamedStep<'a>>,
    ghost wide: { length row.items ≡ (F.TaskForm.means form.now).width },
    ghost few: { length granted.items ≤ 256 },
}

impl<'a, 'f, F: NamedForm> Judging<'a, 'f, F> {
    /// No step granted, and the row before any.
    fn new(heap: Global, form: &'f F) -> Result<Judging<'a, 'f, F>, AllocError>
        ensures form_held { IfOk result (λ judging. judging.form.now ≡ form.now) }
        ensures first_row { IfOk result (λ judging. judging.row.items ≡ (F.TaskForm.means form.now).first) }
        ensures none_granted { IfOk result (λ judging. judging.granted.items ≡ []) }
    {
        form.lawful();
        let row = first_row(heap, form)?;
        let granted = Vec::new(heap);
        Ok(Judging { form, row, granted })
    }

    /// The number of the steps granted.
    fn standing(&self) -> u32
        ensures { result ≡ length self.now.granted.items }
    {
        self.granted.len() as u32
    }

    /// Whether one more step may stand.
    fn has_room(&self) -> bool
        ensures { result ≡ nat_lt (length self.now.granted.items) 256 }
    {
        self.standing() < MOST_STEPS
    }

    /// The fault of the line of this number, at the place that its step would have.
    fn fault(&self, decline: Decline, number: u32, item: u32) -> Fault
        ensures { result ≡ fault_at decline number (length self.now.granted.items + 1) item }
    {
        fault_behind(self.standing(), decline, number, item)
    }

    /// Judges a step line by its inner text: its names, the room for its step, then the step itself. The changes of a granted step are made.
    // They are made where the judgement lies: handed on, so large a value would be copied with the answer to every line.
    fn judge_step_line(&mut self, number: u32, text: &'a [u8]) -> Result<NamedStep<'a>, Fault>
        ensures judged { (line : List ℕ) → StepText F.NamedForm.most line text.now → StepLineJudged F.NamedForm.most (F.TaskForm.means self.old.form.now) (F.NamedForm.names self.old.form.now) self.old.row.items (length self.old.granted.items) number line self.new.row.items result }
        ensures none_more_stands { self.new.granted.items ≡ self.old.granted.items }
        ensures form_stays { self.new.form.now ≡ self.old.form.now }
    {
        self.form.lawful();
        let step = match self.form.step_named(text) {
            Ok(step) => step,
            Err(item) => return Err(self.fault(Decline::UnknownName, number, item)),
        };
        if !self.has_room() {
            return Err(self.fault(Decline::PlanFull, number, MOST_STEPS));
        }
        match self.form.judge(self.row.as_slice(), step) {
            Ok(changes) => {
                write_changes(&mut self.row, changes.as_slice());
                Ok(NamedStep { text, step })
            }
            Err(cause) => Err(cause.at(number, self.standing() + 1)),
        }
    }

    // Not the reading of a line into a session: no journal is kept here, so nothing is refused by 15.
    /// Judges the line of this number: a step granted, nothing where the line is passed over, or what is wrong with it.
    fn judge_line(&mut self, number: u32, line: &'a [u8]) -> Result<Option<NamedStep<'a>>, Fault>
        ensures judged { LineJudged F.NamedForm.most (F.TaskForm.means self.old.form.now) (F.NamedForm.names self.old.form.now) self.old.row.items (length self.old.granted.items) number line.now self.new.row.items result }
        ensures none_more_stands { self.new.granted.items ≡ self.old.granted.items }
        ensures form_stays { self.new.form.now ≡ self.old.form.now }
    {
        match classify(line, F::word_limit()) {
            Line::Blank | Line::Comment => Ok(None),
            Line::Step(text) => Ok(Some(self.judge_step_line(number, text)?)),
            Line::Malformed => Err(self.fault(Decline::MalformedLine, number, 0)),
        }
    }

    /// Lets a granted step stand, whose changes are made.
    fn let_stand(&mut self, step: NamedStep<'a>) -> Result<(), AllocError>
        requires { length self.old.granted.items < 256 }
        ensures one_step_more { OnOk result (self.new.granted.items ≡ self.old.granted.items ++ step.entry ∷ []) }
        ensures row_stays { self.new.row.items ≡ self.old.row.items }
        ensures form_stays { self.new.form.now ≡ self.old.form.now }
    {
        self.granted.push(step)?;
        Ok(())
    }

    /// Whether the steps granted lead to the goal.
    fn answer(&self) -> Answer
        ensures { result ≡ answer_at ((F.TaskForm.means self.now.form.now).unmet self.now.row.items) }
    {
        match self.form.unmet_goal(self.row.as_slice()) {
            None => Answer::Plan,
            Some(item) => Answer::Open(item),
        }
    }
}

/// Judges the lines of a plan text, up to the first that is refused.
// Its bound is what `check_length` has just said; heap and form are the caller's own.
fn judge_lines<'a, F: NamedForm>(
    heap: Global,
    form: &F,
    text: &'a [u8],
) -> Result<PlanRun<'a>, AllocError>
    requires { length text.now ≤ 65536 }
    ensures { IfOk result (λ run. PlanJudged F.NamedForm.most (F.TaskForm.means form.now) (F.NamedForm.names form.now) text.now (texts_of run.granted.items) (steps_of run.granted.items) run.answer) }
{
    let mut judging = Judging::new(heap, form)?;
    for next in NumberedLines::new(text) {
        match judging.judge_line(next.number, next.line) {
            Ok(None) => {}
            Ok(Some(step)) => judging.let_stand(step)?,
            Err(fault) => return Ok(PlanRun {
                granted: judging.granted,
                answer: Answer::Refused(fault),
            }),
        }
    }
    let answer = judging.answer();
    Ok(PlanRun {
        granted: judging.granted,
        answer,
    })
}

/// Judges a plan text step by step, and gives the longest beginning of its steps that can be carried out.
///
/// A text of more than 65,536 bytes is refused whole. Every line counts, blank lines and comments too.
pub fn judge_plan<'a, F: NamedForm>(
    heap: Global,
    form: &F,
    text: &'a [u8],
) -> Result<PlanRun<'a>, AllocError>
    ensures longest_beginning_judged { IfOk result (λ run. PlanJudged F.NamedForm.most (F.TaskForm.means form.now) (F.NamedForm.names form.now) text.now (texts_of run.granted.items) (steps_of run.granted.items) run.answer) }
    ensures plan_exactly_at_goal { IfOk result (λ run. PlanAtGoal (F.TaskForm.means form.now) (steps_of run.granted.items) run.answer) }
{
    if let Err(fault) = check_length(text) {
        return Ok(PlanRun {
            granted: Vec::new(heap),
            answer: Answer::Refused(fault),
        });
    }
    judge_lines(heap, form, text)
}
