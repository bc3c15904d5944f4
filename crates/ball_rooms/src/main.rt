//! A script of edits on the typed sample task, a ball and two rooms: prints each answer, and the plan that stands at the end by its numbers.

#![tactic(auto)]

use form::answers::Answer;
use form::steps::Step;
use session::calls::{Call, Exchange};
use session::ledgers::Standing;
use session::logs::run;
use session::sessions::Session;
use std::alloc::AllocError;
use std::fmt::Write as _;
use std::io;
use std::io::Write;
use typed::tasks::admitting::admit;
use typed_samples::rooms::ball_and_rooms;

/// Objects of the sample task.
const WEST: u32 = 0;

const EAST: u32 = 1;

const BALL: u32 = 2;

/// A thing moved from one room to another.
fn move_thing(thing: u32, from: u32, to: u32) -> Step {
    Step {
        operator: 0,
        count: 3,
        args: [thing, from, to, 0],
    }
}

/// A thing touched in a room.
fn touch(thing: u32, room: u32) -> Step {
    Step {
        operator: 1,
        count: 2,
        args: [thing, room, 0, 0],
    }
}

/// The ball is moved east, back and east again; some edits are refused.
fn script() -> [Exchange; 11] {
    let calls = [
        Call::Retract,
        Call::Verdict,
        Call::Append {
            step: move_thing(BALL, WEST, EAST),
        },
        Call::Verdict,
        Call::Append {
            step: move_thing(BALL, EAST, WEST),
        },
        Call::Verdict,
        Call::Append {
            step: move_thing(BALL, EAST, WEST),
        },
        Call::Append {
            step: move_thing(WEST, WEST, EAST),
        },
        Call::Append {
            step: move_thing(BALL, WEST, EAST),
        },
        Call::Insert {
            place: 1,
            step: touch(BALL, WEST),
        },
        Call::Verdict,
    ];
    calls.map(Exchange::from)
}

/// Writes an answer on a line.
// A script's own words; a fault prints itself.
fn write_answer(out: &mut String, answer: Answer) -> Result<(), AllocError> {
    match answer {
        Answer::Granted => writeln!(out, "granted"),
        Answer::Plan => writeln!(out, "plan"),
        Answer::Open(item) => writeln!(out, "open {item}"),
        Answer::Refused(fault) => writeln!(out, "{fault}"),
    }
}

/// Writes a line for each call of a log: its answer.
fn write_answers(out: &mut String, log: &[Exchange]) -> Result<(), AllocError> {
    for exchange in log {
        write_answer(out, exchange.answer)?;
    }
    Ok(())
}

/// Writes a line for each standing step: its action, its count and arguments, and its number of changes.
fn write_plan(out: &mut String, standing: &[Standing]) -> Result<(), AllocError> {
    for entry in standing {
        let [first, second, third, fourth] = entry.step.args;
        let action = entry.step.operator;
        let count = entry.step.count;
        let changes = entry.changes;
        writeln!(
            out,
            "action {action} arguments {count}: {first} {second} {third} {fourth} changes {changes}"
        )?;
    }
    Ok(())
}

fn main(rt: HostRuntime) -> io::Result<()> {
    let rooms = ball_and_rooms();
    let Ok(task) = admit(rooms.tables()) else {
        return rt.println("the sample task was refused");
    };
    let mut log = script();
    let session = run(task, &mut log);
    let mut out = String::new(rt.alloc());
    write_answers(&mut out, &log)?;
    write_plan(&mut out, session.standing())?;
    rt.stdout().write_all(out.as_bytes())
}
