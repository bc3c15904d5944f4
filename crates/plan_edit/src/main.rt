//! A script of edits on the sample task pick-go-drop: prints each call with its answer, and the plan that stands at the end.

#![tactic(auto)]

use fdr::tasks::FdrTask;
use fdr::tasks::admitting::admit;
use form::answers::{Answer, Fault};
use form::forms::NamedForm;
use form::steps::Step;
use samples::{DROP, GO, LEAP, PICK, pick_go_drop};
use session::calls::{Call, Exchange};
use session::ledgers::Standing;
use session::logs::run;
use session::sessions::Session;
use std::io;
use std::io::Write;

/// A plan is made, some edits are refused, one is granted.
fn script() -> [Exchange; 11] {
    let calls = [
        Call::Retract,
        Call::Verdict,
        Call::Append {
            step: Step::of(PICK),
        },
        Call::Append { step: Step::of(GO) },
        Call::Append {
            step: Step::of(DROP),
        },
        Call::Verdict,
        Call::Strike { place: 2 },
        Call::Strike { place: 1 },
        Call::Insert {
            place: 1,
            step: Step::of(GO),
        },
        Call::Insert {
            place: 4,
            step: Step::of(LEAP),
        },
        Call::Verdict,
    ];
    calls.map(Exchange::from)
}

/// What the program prints, as far as it is written, and the task that names steps.
#[derive(Drop)]
struct Printout<'a> {
    task: FdrTask<'a>,
    bytes: Vec<u8>,
}

impl Printout<'_> {
    /// Writes the name of a step's operator.
    fn write_name(&mut self, step: Step) -> io::Result<()> {
        // A buffer of the caller's, as `write_text` asks.
        let mut buffer = [0; 244];
        let length = self.task.write_text(step, &mut buffer).min(buffer.len());
        self.bytes.write_all(&buffer[..length])
    }

    /// Writes a call, its steps by their names.
    fn write_call(&mut self, call: Call) -> io::Result<()> {
        // A match: the script holds its calls as data.
        match call {
            Call::Append { step } => {
                write!(self.bytes, "append ")?;
                self.write_name(step)
            }
            Call::Insert { place, step } => {
                write!(self.bytes, "insert {place} ")?;
                self.write_name(step)
            }
            Call::Strike { place } => write!(self.bytes, "strike {place}"),
            Call::Retract => write!(self.bytes, "retract"),
            Call::Verdict => write!(self.bytes, "verdict"),
        }
    }

    /// Writes an answer. A script has no lines of a text, so a fault is told by its step and item.
    fn write_answer(&mut self, answer: Answer) -> io::Result<()> {
        match answer {
            Answer::Granted => write!(self.bytes, "granted"),
            Answer::Plan => write!(self.bytes, "plan"),
            Answer::Open(item) => write!(self.bytes, "open {item}"),
            Answer::Refused(fault) => {
                let number = u32::from(fault.decline);
                let Fault { place, item, .. } = fault;
                write!(self.bytes, "fault {number} step {place} item {item}")
            }
        }
    }

    /// Writes a line for each call of a log, with its answer.
    fn write_log(&mut self, log: &[Exchange]) -> io::Result<()> {
        for exchange in log {
            self.write_call(exchange.call)?;
            write!(self.bytes, ": ")?;
            self.write_answer(exchange.answer)?;
            writeln!(self.bytes, "")?;
        }
        Ok(())
    }

    /// Writes a line for each standing step: its place, its name and its number of changes.
    fn write_plan(&mut self, standing: &[Standing]) -> io::Result<()> {
        for (before, entry) in standing.iter().enumerate() {
            let place = before + 1;
            let changes = entry.changes;
            write!(self.bytes, "{place} ")?;
            self.write_name(entry.step)?;
            writeln!(self.bytes, " changes {changes}")?;
        }
        Ok(())
    }
}

fn main(rt: HostRuntime) -> io::Result<()> {
    let Ok(task) = admit(pick_go_drop()) else {
        return rt.println("the sample task was refused");
    };
    let mut log = script();
    let session = run(task, &mut log);
    let bytes = Vec::new(rt.alloc());
    let mut printout = Printout { task, bytes };
    printout.write_log(&log)?;
    printout.write_plan(session.standing())?;
    rt.stdout().write_all(printout.bytes.as_slice())
}
