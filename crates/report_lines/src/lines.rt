//! The lines of a report: of a granted step, of a refusal, and of the answer.

ghost use Rattle.std.specs.Prelude.{◌≡◌, ◌++◌, IfOk, string_bytes, OnOk};
ghost use Rattle.report_lines.specs.ReportTexts.{answer_line, fault_line, step_line};

use form::answers::{Answer, Fault};
use std::alloc::{AllocError, Global};

/// The line of a refusal.
pub fn fault_line(heap: Global, fault: Fault) -> Result<String, AllocError>
    ensures numbers_in_order { IfOk result (λ line. string_bytes line ≡ fault_line fault) }
{
    format!(in heap; "{fault}\n")
}

/// The last line of a report, behind so many granted steps.
pub fn answer_line(heap: Global, count: usize, answer: Answer) -> Result<String, AllocError>
    ensures number_of_steps_and_answer { IfOk result (λ line. string_bytes line ≡ answer_line count answer) }
{
    match answer {
        Answer::Granted => format!(in heap; "granted {count}\n"),
        Answer::Plan => format!(in heap; "plan {count}\n"),
        Answer::Open(item) => format!(in heap; "open {count} goal {item}\n"),
        Answer::Refused(fault) => fault_line(heap, fault),
    }
}

/// Writes the line of a granted step, its place and its inner text, behind what is written.
pub fn write_step_line(
    heap: Global,
    bytes: &mut Vec<u8>,
    place: usize,
    inner: &[u8],
) -> Result<(), AllocError>
    ensures line_behind_the_others { OnOk result (bytes.new.items ≡ bytes.old.items ++ step_line place inner.now) }
{
    let front = format!(in heap; "{place} ")?;
    bytes.extend_from_slice(front.as_bytes())?;
    bytes.extend_from_slice(inner)?;
    bytes.push(b'\n')?;
    Ok(())
}
