//! Judgements, change lists, the first row and the goal of the typed sample task.

use form::answers::Answer;
use form::change_lists::ChangeList;
use form::forms::TaskForm;
use form::judgements::Cause;
use form::steps::{Change, Step};
use std::test::Fail;
use typed::tasks::admitting::admit;
use typed_samples::rooms::ball_and_rooms;

// The ball, object 2, is in the west room, object 0: cell 6 of 10.
const FIRST: [u16; 10] = [0, 0, 0, 0, 0, 0, 1, 0, 0, 0];

// An operator, a count and arguments, the numbers of the refusal in the first row (0 for granted), and the changes of a granted step.
static STEPS: [(u32, u32, [u32; 4], [u32; 4], &'static [(u16, u16)]); 13] = [
    (0, 3, [2, 0, 1, 0], [0, 0, 0, 0], &[(7, 1), (6, 0)]),
    (0, 3, [2, 0, 1, 77], [0, 0, 0, 0], &[(7, 1), (6, 0)]),
    (1, 2, [2, 0, 0, 0], [0, 0, 0, 0], &[(6, 1)]),
    (0, 3, [2, 0, 0, 0], [14, 0, 0, 0], &[]),
    (0, 3, [2, 1, 0, 0], [14, 0, 0, 0], &[]),
    (1, 2, [2, 1, 0, 0], [14, 0, 0, 0], &[]),
    (0, 3, [0, 0, 1, 0], [13, 0, 0, 1], &[]),
    (0, 3, [2, 2, 1, 0], [13, 0, 0, 2], &[]),
    (0, 3, [2, 0, 3, 0], [13, 0, 0, 3], &[]),
    (0, 2, [2, 0, 1, 0], [12, 0, 0, 2], &[]),
    (1, 3, [2, 0, 1, 0], [12, 0, 0, 3], &[]),
    (0, 5, [2, 0, 1, 0], [12, 0, 0, 5], &[]),
    (2, 3, [2, 0, 1, 0], [11, 0, 0, 0], &[]),
];

// The numbers of a judgement, and its changes.
fn told(judgement: &Result<ChangeList, Cause>) -> ([u32; 4], &[Change]) {
    match judgement {
        Ok(changes) => (Answer::Granted.into(), changes.as_slice()),
        Err(cause) => (Answer::Refused(cause.at(0, 0)).into(), &[]),
    }
}

#[test]
fn steps_of_the_sample_in_its_first_row(rt: HostRuntime) -> Result<(), Fail> {
    let rooms = ball_and_rooms();
    let Ok(task) = admit(rooms.tables()) else {
        return Err(Fail::new("the sample task was refused"));
    };
    assert_eq!(rt; task.width(), 10);
    for (cell, value) in FIRST.iter().enumerate() {
        assert_eq!(rt; task.first_value(cell), *value);
    }
    assert_eq!(rt; (task.first_value(10), task.first_value(1024)), (0, 0));
    for (operator, count, args, expected, changes) in &STEPS {
        let step = Step {
            operator: *operator,
            count: *count,
            args: *args,
        };
        let judgement = task.judge(&FIRST, step);
        let (numbers, listed) = told(&judgement);
        assert_eq!(rt; numbers, *expected);
        assert_eq!(rt; listed.len(), changes.len());
        for (change, pair) in listed.iter().zip(*changes) {
            assert_eq!(rt; (change.cell, change.value), *pair);
        }
    }
    Ok(())
}

#[test]
fn the_goal_and_cells_that_hold_other_numbers(rt: HostRuntime) -> Result<(), Fail> {
    let rooms = ball_and_rooms();
    let Ok(task) = admit(rooms.tables()) else {
        return Err(Fail::new("the sample task was refused"));
    };
    assert_eq!(rt; task.unmet_goal(&FIRST), Some(1));
    assert_eq!(rt; task.unmet_goal(&[0, 0, 0, 0, 0, 0, 0, 1]), None);
    // a cell that holds another number than 1, and one that the row lacks, read as false
    assert_eq!(rt; task.unmet_goal(&[0, 0, 0, 0, 0, 0, 1, 2]), Some(1));
    assert_eq!(rt; task.unmet_goal(&[]), Some(1));
    let judgement = task.judge(
        &[0, 0, 0, 0, 0, 0, 65_535, 0, 0, 0],
        Step {
            operator: 0,
            count: 3,
            args: [2, 0, 1, 0],
        },
    );
    assert_eq!(rt; told(&judgement).0, [14, 0, 0, 0]);
    Ok(())
}
