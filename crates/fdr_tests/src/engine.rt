//! The engine and the names of an admitted task, mostly on the sample task of a shuttle and its load.

use super::base::*;
use fdr::tables::{FdrTables, Operator, Run};
use fdr::tasks::FdrTask;
use fdr::tasks::admitting::admit;
use form::change_lists::ChangeList;
use form::forms::{NamedForm, TaskForm};
use form::judgements::Cause;
use form::steps::{Change, Step};
use samples::{DROP, GO, LEAP, PICK, pick_go_drop};
use std::test::Fail;

const ODD: u32 = 4;

/// A row, an operator, a number of arguments; why the step is declined, and what it changes if it is not.
static JUDGEMENTS: [([u16; 2], u32, u32, Option<Cause>, &'static [Change]); 16] = [
    ([0, 0], LEAP, 0, None, &[Change { cell: 0, value: 1 }]),
    (
        [1, 0],
        LEAP,
        0,
        None,
        &[Change { cell: 0, value: 1 }, Change { cell: 1, value: 1 }],
    ),
    ([0, 0], ODD, 0, Some(Cause::Precondition(1)), &[]),
    ([0, 2], ODD, 0, None, &[]),
    ([1, 2], ODD, 0, None, &[Change { cell: 1, value: 0 }]),
    ([0, 0], PICK, 0, None, &[Change { cell: 1, value: 2 }]),
    ([1, 0], PICK, 0, Some(Cause::Precondition(1)), &[]),
    ([1, 1], PICK, 0, Some(Cause::Precondition(1)), &[]),
    ([0, 1], PICK, 0, Some(Cause::Precondition(2)), &[]),
    ([0, 0], GO, 0, None, &[Change { cell: 0, value: 1 }]),
    ([1, 0], GO, 0, Some(Cause::Precondition(1)), &[]),
    ([1, 2], DROP, 0, None, &[Change { cell: 1, value: 1 }]),
    ([0, 0], GO, 1, Some(Cause::ArgumentCount(1)), &[]),
    ([1, 0], GO, 5, Some(Cause::ArgumentCount(5)), &[]),
    ([0, 0], 5, 0, Some(Cause::NoSuchOperator), &[]),
    ([0, 0], 5, 1, Some(Cause::NoSuchOperator), &[]),
];

/// What a judgement says: why the step is declined, and what it changes if it is not.
fn told(judgement: &Result<ChangeList, Cause>) -> (Option<Cause>, &[Change]) {
    match judgement {
        Ok(changes) => (None, changes.as_slice()),
        Err(cause) => (Some(*cause), &[]),
    }
}

fn step_of(operator: u32, count: u32) -> Step {
    Step {
        operator,
        count,
        args: [0; 4],
    }
}

#[test]
fn steps_are_judged(rt: HostRuntime) -> Result<(), Fail> {
    let task = admit(pick_go_drop())?;
    for (row, operator, count, cause, changes) in &JUDGEMENTS {
        let judgement = task.judge(row, step_of(*operator, *count));
        assert_eq!(rt; told(&judgement), (*cause, *changes));
    }
    Ok(())
}

/// One precondition, on variable 1; its effects are those of "a b".
const ON_V1: Operator = Operator {
    preconditions: Run { start: 1, count: 1 },
    ..FIRST
};

#[test]
fn items_count_effects_without_former_values(rt: HostRuntime) -> Result<(), Fail> {
    let tables = FdrTables {
        operators: &[ON_V1],
        effects: &[TO_2, TO_0, UNUSED],
        ..BASE
    };
    let task = admit(tables)?;
    let in_first_row = task.judge(&[0, 2], step_of(0, 0));
    assert_eq!(rt; told(&in_first_row).0, Some(Cause::Precondition(3)));
    let without_v1 = task.judge(&[0, 0], step_of(0, 0));
    assert_eq!(rt; told(&without_v1).0, Some(Cause::Precondition(1)));
    assert_eq!(rt; task.unmet_goal(&[0, 2]), Some(2));
    assert_eq!(rt;
        (
            task.first_value(0),
            task.first_value(1),
            task.first_value(2),
        ),
        (0, 2, 0)
    );
    Ok(())
}

#[test]
fn goal_and_names_are_those_of_the_tables(rt: HostRuntime) -> Result<(), Fail> {
    let task = admit(pick_go_drop())?;
    assert_eq!(rt; task.width(), 2);
    assert_eq!(rt; task.unmet_goal(&[0, 0]), Some(1));
    assert_eq!(rt; task.unmet_goal(&[1, 1]), None);
    assert_eq!(rt; <FdrTask<'_> as NamedForm>::word_limit(), 32);
    assert_eq!(rt; task.step_named(b"leap"), Ok(step_of(LEAP, 0)));
    assert_eq!(rt; task.step_named(b"fly"), Err(1));
    assert_eq!(rt; task.step_named(b"lea"), Err(1));
    assert_eq!(rt; task.tables().names, b"gopickdropleapodd".as_slice());
    Ok(())
}

#[test]
fn texts_are_written_where_they_fit(rt: HostRuntime) -> Result<(), Fail> {
    let task = admit(pick_go_drop())?;
    let mut short = [170; 3];
    assert_eq!(rt; task.write_text(step_of(DROP, 0), &mut short), 4);
    assert_eq!(rt; short, [170, 170, 170]);
    let mut long = [170; 6];
    assert_eq!(rt; task.write_text(step_of(DROP, 1), &mut long), 0);
    assert_eq!(rt; task.write_text(step_of(5, 0), &mut long), 0);
    assert_eq!(rt; long, [170, 170, 170, 170, 170, 170]);
    assert_eq!(rt; task.write_text(step_of(DROP, 0), &mut long), 4);
    assert_eq!(rt; long, *b"drop\xaa\xaa");
    Ok(())
}
