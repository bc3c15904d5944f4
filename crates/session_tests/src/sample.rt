//! The sample task's worked cases, and the forms that grant nothing.

use crate::barren::{Barren, Sealed};
use fdr::tasks::admitting::admit;
use form::forms::TaskForm;
use form::judgements::Cause;
use form::steps::Step;
use samples::pick_go_drop;
use session::calls::{Call, Exchange};
use session::logs::run;
use session::sessions::Session;
use std::process::Abort;
use std::test::Fail;

// The answers of a log against the numbers they should have.
fn answered(rt: &impl Abort, log: &[Exchange], expected: &[[u32; 4]]) {
    assert_eq!(rt; log.len(), expected.len());
    for (exchange, numbers) in log.iter().zip(expected) {
        assert_eq!(rt; <[u32; 4]>::from(exchange.answer), *numbers);
    }
}

// Row, standing count and journal of a session against what they should be; a journal entry is a cell and its old value.
fn holds<F: TaskForm>(
    rt: &impl Abort,
    session: &Session<F>,
    row: &[u16],
    standing: usize,
    journal: &[(u16, u16)],
) -> Result<(), Fail> {
    assert_eq!(rt; session.standing_count(), standing);
    assert_eq!(rt; session.journal_len(), journal.len());
    for (at, value) in row.iter().enumerate() {
        assert_eq!(rt; session.cell(at), *value);
    }
    for (at, pair) in journal.iter().enumerate() {
        let entry = session.journal_entry(at).ok_or("no such entry")?;
        assert_eq!(rt; (entry.cell, entry.before), *pair);
    }
    Ok(())
}

// The numbers of an edit that is granted.
pub(crate) const GRANTED: [u32; 4] = [0, 0, 0, 0];

#[test]
fn pick_go_drop_is_a_plan_and_some_edits_are_refused(rt: HostRuntime) -> Result<(), Fail> {
    let Ok(task) = admit(pick_go_drop()) else {
        return Err(Fail::new("the sample task was refused"));
    };
    let mut log = [
        Call::Retract,
        Call::Verdict,
        Call::Append { step: Step::of(1) },
        Call::Append { step: Step::of(0) },
        Call::Append { step: Step::of(2) },
        Call::Verdict,
        Call::Strike { place: 2 },
        Call::Strike { place: 1 },
        Call::Insert {
            place: 1,
            step: Step::of(0),
        },
        Call::Strike { place: 0 },
        Call::Strike { place: 4 },
        Call::Insert {
            place: 5,
            step: Step::of(0),
        },
        Call::Append {
            step: Step {
                operator: 9,
                count: 9,
                args: [9; 4],
            },
        },
        Call::Append {
            step: Step {
                operator: 0,
                count: 5,
                args: [9; 4],
            },
        },
    ]
    .map(Exchange::from);
    let session = run(task, &mut log);
    answered(
        &rt,
        &log,
        &[
            [9, 0, 0, 0],
            [102, 0, 0, 1],
            GRANTED,
            GRANTED,
            GRANTED,
            [101, 0, 0, 0],
            [14, 0, 2, 1],
            [14, 0, 2, 2],
            [14, 0, 2, 1],
            [9, 0, 0, 3],
            [9, 0, 4, 3],
            [9, 0, 5, 3],
            [11, 0, 4, 0],
            [12, 0, 4, 5],
        ],
    );
    holds(&rt, &session, &[1, 1, 0], 3, &[(1, 0), (0, 0), (1, 2)])
}

#[test]
fn a_leap_behind_the_plan_is_kept_and_retracted(rt: HostRuntime) -> Result<(), Fail> {
    let Ok(task) = admit(pick_go_drop()) else {
        return Err(Fail::new("the sample task was refused"));
    };
    let mut session = Session::open(task);
    assert_eq!(rt; <[u32; 4]>::from(session.append(Step::of(1))), GRANTED);
    holds(&rt, &session, &[0, 2], 1, &[(1, 0)])?;
    assert_eq!(rt; <[u32; 4]>::from(session.append(Step::of(0))), GRANTED);
    holds(&rt, &session, &[1, 2], 2, &[(1, 0), (0, 0)])?;
    assert_eq!(rt; <[u32; 4]>::from(session.append(Step::of(2))), GRANTED);
    assert_eq!(rt;
        <[u32; 4]>::from(session.insert(
            4,
            Step {
                operator: 3,
                count: 0,
                args: [5, 6, 7, 8],
            },
        )),
        GRANTED
    );
    holds(
        &rt,
        &session,
        &[1, 1],
        4,
        &[(1, 0), (0, 0), (1, 2), (0, 1), (1, 1)],
    )?;
    let leap = session.entry(4).ok_or("nothing at place 4")?;
    assert_eq!(rt; (leap.step.operator, leap.changes), (3, 2));
    for at in 0..4 {
        assert_eq!(rt; leap.step.args[at], 0);
    }
    assert_eq!(rt; <[u32; 4]>::from(session.retract()), GRANTED);
    holds(&rt, &session, &[1, 1], 3, &[(1, 0), (0, 0), (1, 2)])?;
    assert_eq!(rt; <[u32; 4]>::from(session.verdict()), [101, 0, 0, 0]);
    Ok(())
}

#[test]
fn a_leap_from_the_first_row_changes_one_cell(rt: HostRuntime) -> Result<(), Fail> {
    let Ok(task) = admit(pick_go_drop()) else {
        return Err(Fail::new("the sample task was refused"));
    };
    let mut session = Session::open(task);
    assert_eq!(rt; <[u32; 4]>::from(session.append(Step::of(3))), GRANTED);
    holds(&rt, &session, &[1, 0], 1, &[(0, 0)])
}

#[test]
fn forms_that_grant_nothing_open_sessions(rt: HostRuntime) -> Result<(), Fail> {
    let causes = [
        (Cause::NoSuchOperator, [11, 0, 1, 0]),
        (Cause::Precondition(3), [14, 0, 1, 3]),
    ];
    for case in &causes {
        let mut log = [
            Call::Append { step: Step::of(0) },
            Call::Insert {
                place: 1,
                step: Step::of(0),
            },
            Call::Verdict,
        ]
        .map(Exchange::from);
        let session = run(Barren { cause: case.0 }, &mut log);
        answered(&rt, &log, &[case.1, case.1, [102, 0, 0, 1]]);
        holds(&rt, &session, &[7, 0], 0, &[])?;
    }
    Ok(())
}

#[test]
fn a_form_that_declines_by_the_row_opens_a_session(rt: HostRuntime) -> Result<(), Fail> {
    let mut log = [Call::Append { step: Step::of(0) }, Call::Verdict].map(Exchange::from);
    let session = run(Sealed, &mut log);
    answered(&rt, &log, &[[14, 0, 1, 7], [102, 0, 0, 1]]);
    holds(&rt, &session, &[7, 0], 0, &[])
}
