//! Plans written into buffers of several lengths, and read again.

use crate::tasks::{GRANTED, numbers, tables};
use fdr::tasks::admitting::admit;
use form::answers::{Answer, Fault};
use form::steps::Step;
use plan_texts::reading::read;
use plan_texts::writing::write;
use session::sessions::Session;
use std::test::Fail;

// What writing gave: the length, or the refusal's numbers.
fn told(res: Result<usize, Fault>) -> (usize, [u32; 4]) {
    match res {
        Ok(len) => (len, GRANTED),
        Err(fault) => (0, Answer::Refused(fault).into()),
    }
}

#[test]
fn buffers_one_byte_short_exact_and_longer(rt: HostRuntime) -> Result<(), Fail> {
    let Ok(task) = admit(tables()) else {
        return Err(Fail::new("the task was refused"));
    };
    let mut session = Session::open(task);
    let mut none: [u8; 0] = [];
    assert_eq!(rt; told(write(&session, &mut none)), (0, GRANTED));
    assert_eq!(rt; <[u32; 4]>::from(session.append(Step::of(0))), GRANTED);
    assert_eq!(rt; <[u32; 4]>::from(session.append(Step::of(2))), GRANTED);
    assert_eq!(rt; <[u32; 4]>::from(session.append(Step::of(1))), GRANTED);
    let mut short = [170; 26];
    assert_eq!(rt; told(write(&session, &mut short)), (0, [16, 0, 0, 27]));
    assert_eq!(rt; short, [170; 26]);
    assert_eq!(rt; told(write(&session, &mut none)), (0, [16, 0, 0, 27]));
    let mut exact = [170; 27];
    assert_eq!(rt; told(write(&session, &mut exact)), (27, GRANTED));
    assert_eq!(rt; &exact, b"(lift a)\n(nine)\n(drop a b)\n");
    let mut long = [170; 31];
    assert_eq!(rt; told(write(&session, &mut long)), (27, GRANTED));
    assert_eq!(rt; &long, b"(lift a)\n(nine)\n(drop a b)\n\xaa\xaa\xaa\xaa");
    Ok(())
}

#[test]
fn a_written_plan_reads_back(rt: HostRuntime) -> Result<(), Fail> {
    let Ok(task) = admit(tables()) else {
        return Err(Fail::new("the task was refused"));
    };
    let mut session = Session::open(task);
    for _ in 0..85 {
        assert_eq!(rt;
            numbers(read(
                &mut session,
                b"(lift a)\n(drop a b)\n; a name of 64 bytes\n(wwwwwwwwwwwwwwwwwwwwwwwwwwwwwwwwwwwwwwwwwwwwwwwwwwwwwwwwwwwwwwww)\n",
            )),
            GRANTED
        );
    }
    let mut buffer = vec![in rt.alloc(); 0; 10_000]?;
    let (len, answer) = told(write(&session, buffer.as_mut_slice()));
    assert_eq!(rt; (len, answer), (85 * (9 + 11 + 67), GRANTED));
    let mut again = Session::open(task);
    let text = buffer.as_slice().get(0..len).ok_or("a longer text")?;
    assert_eq!(rt; numbers(read(&mut again, text)), GRANTED);
    assert_eq!(rt;
        (again.standing_count(), again.journal_len(), again.cell(0)),
        (255, 170, 0)
    );
    for (one, other) in session.standing().iter().zip(again.standing()) {
        assert_eq!(rt; (one.step, one.changes), (other.step, other.changes));
    }
    Ok(())
}
