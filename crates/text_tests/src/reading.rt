//! Texts read into a session: the answer, the steps that then stand, and the journal.

use crate::tasks::{GRANTED, numbers, tables};
use fdr::tasks::admitting::admit;
use form::steps::Step;
use plan_texts::reading::read;
use session::sessions::Session;
use std::process::Abort;
use std::test::Fail;

// A text, the numbers of its answer, and the operators of the steps that stand after it.
const TEXTS: [(&'static [u8], [u32; 4], &'static [u32]); 36] = [
    (b"", GRANTED, &[]),
    (b"\n", GRANTED, &[]),
    (b"; only a comment", GRANTED, &[]),
    (b"(lift a)", GRANTED, &[0]),
    (b"(lift a)\n", GRANTED, &[0]),
    (
        b"; a comment\n\n(lift a)\n;(drop a b)\n(drop a b)\n\n\n(lift a)",
        GRANTED,
        &[0, 1, 0],
    ),
    (b"(nine)\n(nine)\n", GRANTED, &[2, 2]),
    (
        b"(wwwwwwwwwwwwwwwwwwwwwwwwwwwwwwwwwwwwwwwwwwwwwwwwwwwwwwwwwwwwwwww)",
        GRANTED,
        &[3],
    ),
    // declined by the form, with the line added
    (b"(drop a b)\n(lift a)\n", [14, 1, 1, 1], &[]),
    (b"(lift a)\n(lift a)\n(drop a b)\n", [14, 2, 2, 1], &[0]),
    (b"; c\n\n(lift a)\n;\n(lift a)\n", [14, 5, 2, 1], &[0]),
    // names that no operator has
    (b"(fly)\n", [8, 1, 1, 1], &[]),
    (b"(lift b)\n", [8, 1, 1, 1], &[]),
    (b"(lift)\n", [8, 1, 1, 1], &[]),
    (b"(Nine)\n", [8, 1, 1, 1], &[]),
    (b"; c\n\n(lift a)\n(fly)\n(drop a b)\n", [8, 4, 2, 1], &[0]),
    (
        b"(wwwwwwwwwwwwwwwwwwwwwwwwwwwwwwwwwwwwwwwwwwwwwwwwwwwwwwwwwwwwwwwww)",
        [8, 1, 1, 1],
        &[],
    ),
    (
        b"(a a a a a a a a a a a a a a a a a a a a a a a a a a a a a a a a)\n",
        [8, 1, 1, 1],
        &[],
    ),
    // lines that are no step lines
    (
        b"(a a a a a a a a a a a a a a a a a a a a a a a a a a a a a a a a a)\n",
        [7, 1, 1, 0],
        &[],
    ),
    (b"lift a\n", [7, 1, 1, 0], &[]),
    (b"(lift a\n", [7, 1, 1, 0], &[]),
    (b"lift a)\n", [7, 1, 1, 0], &[]),
    (b"()\n", [7, 1, 1, 0], &[]),
    (b"(\n", [7, 1, 1, 0], &[]),
    (b"( lift a)\n", [7, 1, 1, 0], &[]),
    (b"(lift a )\n", [7, 1, 1, 0], &[]),
    (b"(lift  a)\n", [7, 1, 1, 0], &[]),
    (b" (lift a)\n", [7, 1, 1, 0], &[]),
    (b"(lift a) \n", [7, 1, 1, 0], &[]),
    (b"(lift a)\r\n", [7, 1, 1, 0], &[]),
    (b"(lift\ta)\n", [7, 1, 1, 0], &[]),
    (b"(li(ft a)\n", [7, 1, 1, 0], &[]),
    (b"(lift a)(drop a b)\n", [7, 1, 1, 0], &[]),
    (b"(lift \xc3\xa0)\n", [7, 1, 1, 0], &[]),
    (b"(lift a)\n ; c\n", [7, 2, 2, 0], &[0]),
    (b"(lift a)\n\n  \n(drop a b)\n", [7, 3, 2, 0], &[0]),
];

// The operators of the standing steps against what they should be.
fn stand<F>(rt: &impl Abort, session: &Session<F>, operators: &[u32]) {
    assert_eq!(rt; session.standing_count(), operators.len());
    for (entry, operator) in session.standing().iter().zip(operators) {
        assert_eq!(rt; entry.step, Step::of(*operator));
    }
}

#[test]
fn short_texts(rt: HostRuntime) -> Result<(), Fail> {
    let Ok(task) = admit(tables()) else {
        return Err(Fail::new("the task was refused"));
    };
    for case in &TEXTS {
        let mut session = Session::open(task);
        assert_eq!(rt; numbers(read(&mut session, case.0)), case.1);
        stand(&rt, &session, case.2);
    }
    Ok(())
}

#[test]
fn a_text_goes_on_behind_what_stands(rt: HostRuntime) -> Result<(), Fail> {
    let Ok(task) = admit(tables()) else {
        return Err(Fail::new("the task was refused"));
    };
    let mut session = Session::open(task);
    assert_eq!(rt; <[u32; 4]>::from(session.append(Step::of(0))), GRANTED);
    assert_eq!(rt;
        numbers(read(&mut session, b"(drop a b)\n(drop a b)\n")),
        [14, 2, 3, 1]
    );
    assert_eq!(rt; numbers(read(&mut session, b"\n(nine\n")), [7, 2, 3, 0]);
    assert_eq!(rt; numbers(read(&mut session, b"(nine)")), GRANTED);
    assert_eq!(rt; (session.cell(0), session.cell(9)), (0, 1));
    assert_eq!(rt; session.journal_len(), 11);
    stand(&rt, &session, &[0, 1, 2]);
    Ok(())
}

// A line some times over, and behind it an end.
fn repeated(
    rt: &HostRuntime,
    line: &[u8],
    times: usize,
    end: &[u8],
) -> Result<Vec<u8>, std::alloc::AllocError> {
    let mut text = Vec::new(rt.alloc());
    for _ in 0..times {
        text.extend_from_slice(line)?;
    }
    text.extend_from_slice(end)?;
    Ok(text)
}

#[test]
fn limits_of_steps_changes_lines_and_bytes(rt: HostRuntime) -> Result<(), Fail> {
    let Ok(task) = admit(tables()) else {
        return Err(Fail::new("the task was refused"));
    };
    // the 257th step is refused; behind 256 steps a line is still checked and looked up first
    let mut full = Session::open(task);
    let text = repeated(&rt, b"(lift a)\n(drop a b)\n", 129, b"")?;
    assert_eq!(rt;
        numbers(read(&mut full, text.as_slice())),
        [10, 257, 257, 256]
    );
    assert_eq!(rt; full.standing_count(), 256);
    assert_eq!(rt; numbers(read(&mut full, b";\n(lift  a)")), [7, 2, 257, 0]);
    assert_eq!(rt; numbers(read(&mut full, b"(fly)")), [8, 1, 257, 1]);
    assert_eq!(rt; numbers(read(&mut full, b"\n;\n")), GRANTED);
    // nine changes a step: 227 steps make 2,043, and the 228th would pass 2,048
    let mut journal = Session::open(task);
    let text = repeated(&rt, b"; nine\n(nine)\n", 240, b"")?;
    assert_eq!(rt;
        numbers(read(&mut journal, text.as_slice())),
        [15, 456, 228, 0]
    );
    assert_eq!(rt;
        (journal.standing_count(), journal.journal_len()),
        (227, 2043)
    );
    // 300 lines, the last two of them steps
    let mut long = Session::open(task);
    let text = repeated(&rt, b"\n; c\n", 149, b"(lift a)\n(lift a)")?;
    assert_eq!(rt; numbers(read(&mut long, text.as_slice())), [14, 300, 2, 1]);
    // the longest text that is read, and one byte more
    let text = repeated(&rt, b";", 65_536, b"")?;
    assert_eq!(rt; numbers(read(&mut long, text.as_slice())), GRANTED);
    let text = repeated(&rt, b"(drop a b)\n", 6_000, b"")?;
    assert_eq!(rt; numbers(read(&mut long, text.as_slice())), [6, 0, 0, 0]);
    assert_eq!(rt; long.standing_count(), 1);
    Ok(())
}
