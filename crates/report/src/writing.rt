//! The report of a judged plan text.

ghost use Rattle.std.specs.Prelude.{◌≡◌, IfOk};
ghost use Rattle.report_lines.specs.ReportTexts.{report_of};
ghost use Rattle.report.specs.Reports.{Reported};
ghost use Rattle.report.specs.Runs.{texts_of};

use crate::judging::{PlanRun, judge_plan};
use form::forms::{NamedForm, TaskForm};
use report_lines::lines::{answer_line, write_step_line};
use std::alloc::{AllocError, Global};

/// The report of a judged plan text: a line for each granted step, with its place and its inner text, and then the answer's line.
pub fn report_text(heap: Global, run: &PlanRun) -> Result<Vec<u8>, AllocError>
    ensures bytes_of_report { IfOk result (λ bytes. bytes.items ≡ report_of (texts_of run.now.granted.items) run.now.answer) }
{
    let granted = run.granted.as_slice();
    let mut bytes = Vec::new(heap);
    for (i, step) in granted.iter().enumerate() {
        write_step_line(heap, &mut bytes, i + 1, step.text)?;
    }
    let line = answer_line(heap, granted.len(), run.answer)?;
    bytes.extend_from_slice(line.as_bytes())?;
    Ok(bytes)
}

/// Judges a plan text and gives its report.
pub fn report_plan<F: NamedForm>(heap: Global, form: &F, text: &[u8]) -> Result<Vec<u8>, AllocError>
    ensures judged_and_reported { IfOk result (λ bytes. Reported F.NamedForm.most (F.TaskForm.means form.now) (F.NamedForm.names form.now) text.now bytes.items) }
{
    let judged = judge_plan(heap, form, text)?;
    let bytes = report_text(heap, &judged)?;
    Ok(bytes)
}

#[cfg(test)]
mod tests {
    use super::*;
    use crate::judging::NamedStep;
    use form::answers::{Answer, Decline, Fault};
    use form::steps::Step;
    use std::test::Fail;

    // The report of two granted steps and an answer.
    fn reported(heap: Global, answer: Answer) -> Result<Vec<u8>, AllocError> {
        let mut granted = Vec::new(heap);
        granted.push(NamedStep {
            text: b"lift a",
            step: Step::of(0),
        })?;
        granted.push(NamedStep {
            text: b"drop a b",
            step: Step::of(0),
        })?;
        report_text(heap, &PlanRun { granted, answer })
    }

    #[test]
    fn step_lines_come_before_the_answer_line(rt: HostRuntime) -> Result<(), Fail> {
        let heap = rt.alloc();
        let plan = reported(heap, Answer::Plan)?;
        assert_eq!(rt;
            plan.as_slice(),
            b"1 lift a\n2 drop a b\nplan 2\n".as_slice()
        );
        let open = reported(heap, Answer::Open(7))?;
        assert_eq!(rt;
            open.as_slice(),
            b"1 lift a\n2 drop a b\nopen 2 goal 7\n".as_slice()
        );
        let fault = Fault {
            decline: Decline::PreconditionFails,
            line: 12,
            place: 3,
            item: 4,
        };
        let refused = reported(heap, Answer::Refused(fault))?;
        assert_eq!(rt;
            refused.as_slice(),
            b"1 lift a\n2 drop a b\nfault 14 line 12 step 3 item 4\n".as_slice()
        );
        Ok(())
    }
}
