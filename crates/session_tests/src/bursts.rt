//! A task whose steps make many changes, for the limits of steps and journal.

use crate::sample::GRANTED;
use fdr::tables::{Effect, FdrTables, InitialValue, Operator, Pair, Run, Variable};
use fdr::tasks::admitting::admit;
use form::steps::Step;
use session::sessions::Session;
use std::test::Fail;

const NONE: Run = Run { start: 0, count: 0 };

const AT_REST: Run = Run { start: 0, count: 1 };

// Operators: 0 hold sets v0; 1 burst sets v1 to v9, each only while v0 is 0; 2 eight sets v1 to v8. There is no goal.
const EFFECTS: [Effect; 18] = [
    Effect {
        conditions: NONE,
        variable: 0,
        former: None,
        new: 1,
    },
    Effect {
        conditions: AT_REST,
        variable: 1,
        former: None,
        new: 1,
    },
    Effect {
        conditions: AT_REST,
        variable: 2,
        former: None,
        new: 1,
    },
    Effect {
        conditions: AT_REST,
        variable: 3,
        former: None,
        new: 1,
    },
    Effect {
        conditions: AT_REST,
        variable: 4,
        former: None,
        new: 1,
    },
    Effect {
        conditions: AT_REST,
        variable: 5,
        former: None,
        new: 1,
    },
    Effect {
        conditions: AT_REST,
        variable: 6,
        former: None,
        new: 1,
    },
    Effect {
        conditions: AT_REST,
        variable: 7,
        former: None,
        new: 1,
    },
    Effect {
        conditions: AT_REST,
        variable: 8,
        former: None,
        new: 1,
    },
    Effect {
        conditions: AT_REST,
        variable: 9,
        former: None,
        new: 1,
    },
    Effect {
        conditions: NONE,
        variable: 1,
        former: None,
        new: 1,
    },
    Effect {
        conditions: NONE,
        variable: 2,
        former: None,
        new: 1,
    },
    Effect {
        conditions: NONE,
        variable: 3,
        former: None,
        new: 1,
    },
    Effect {
        conditions: NONE,
        variable: 4,
        former: None,
        new: 1,
    },
    Effect {
        conditions: NONE,
        variable: 5,
        former: None,
        new: 1,
    },
    Effect {
        conditions: NONE,
        variable: 6,
        former: None,
        new: 1,
    },
    Effect {
        conditions: NONE,
        variable: 7,
        former: None,
        new: 1,
    },
    Effect {
        conditions: NONE,
        variable: 8,
        former: None,
        new: 1,
    },
];

fn tables() -> FdrTables<'static> {
    FdrTables {
        variables: &[Variable { values: 2 }; 10],
        initial: &[InitialValue { value: 0 }; 10],
        goal: &[],
        operators: &[
            Operator {
                name: Run { start: 0, count: 4 },
                preconditions: NONE,
                effects: Run { start: 0, count: 1 },
            },
            Operator {
                name: Run { start: 4, count: 5 },
                preconditions: NONE,
                effects: Run { start: 1, count: 9 },
            },
            Operator {
                name: Run { start: 9, count: 5 },
                preconditions: NONE,
                effects: Run {
                    start: 10,
                    count: 8,
                },
            },
        ],
        effects: &EFFECTS,
        pairs: &[Pair {
            variable: 0,
            value: 0,
        }],
        names: b"holdbursteight",
    }
}

// With hold in front, 255 bursts change nothing. Without it each makes 9 changes: 227 of them make 2,043, and the 228th would pass 2,048.
#[test]
fn a_strike_is_refused_where_the_journal_would_run_full(rt: HostRuntime) -> Result<(), Fail> {
    let Ok(task) = admit(tables()) else {
        return Err(Fail::new("the task was refused"));
    };
    let mut session = Session::open(task);
    assert_eq!(rt; <[u32; 4]>::from(session.append(Step::of(0))), GRANTED);
    for _ in 0..255 {
        assert_eq!(rt; <[u32; 4]>::from(session.append(Step::of(1))), GRANTED);
    }
    assert_eq!(rt; (session.standing_count(), session.journal_len()), (256, 1));
    assert_eq!(rt;
        <[u32; 4]>::from(session.append(Step::of(1))),
        [10, 0, 257, 256]
    );
    assert_eq!(rt;
        <[u32; 4]>::from(session.insert(1, Step::of(1))),
        [10, 0, 257, 256]
    );
    assert_eq!(rt;
        <[u32; 4]>::from(session.insert(300, Step::of(1))),
        [9, 0, 300, 256]
    );
    assert_eq!(rt; <[u32; 4]>::from(session.strike(1)), [15, 0, 228, 0]);
    assert_eq!(rt;
        (
            session.standing_count(),
            session.journal_len(),
            session.cell(0),
        ),
        (256, 1, 1)
    );
    assert_eq!(rt; <[u32; 4]>::from(session.strike(256)), GRANTED);
    assert_eq!(rt; session.standing_count(), 255);
    Ok(())
}

#[test]
fn a_journal_of_exactly_2048_entries_is_fine(rt: HostRuntime) -> Result<(), Fail> {
    let Ok(task) = admit(tables()) else {
        return Err(Fail::new("the task was refused"));
    };
    let mut session = Session::open(task);
    for _ in 0..256 {
        assert_eq!(rt; <[u32; 4]>::from(session.append(Step::of(2))), GRANTED);
    }
    assert_eq!(rt;
        (session.standing_count(), session.journal_len()),
        (256, 2048)
    );
    assert_eq!(rt; <[u32; 4]>::from(session.strike(1)), GRANTED);
    assert_eq!(rt;
        <[u32; 4]>::from(session.append(Step::of(1))),
        [15, 0, 256, 0]
    );
    assert_eq!(rt; <[u32; 4]>::from(session.append(Step::of(0))), GRANTED);
    assert_eq!(rt; <[u32; 4]>::from(session.verdict()), [101, 0, 0, 0]);
    Ok(())
}
