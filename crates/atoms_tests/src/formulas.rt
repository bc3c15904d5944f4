//! Truth in a row, and which numbers are a formula.

use crate::base::{MOVES, PREDICATES, ROW};
use atoms::admitting::is_formula;
use atoms::cells::Cells;
use atoms::judging::Situation;
use atoms::vocabularies::Vocabulary;

/// The truth of a formula in a row, and how many numbers are left over.
fn judged(row: &[u16], arguments: &[u32], code: &[u32]) -> (bool, usize) {
    Cells::of(3, &PREDICATES).map_or((false, 9999), |cells| {
        let situation = Situation {
            cells: &cells,
            arguments,
            row,
        };
        let (truth, left) = situation.judge(code);
        (truth, left.len())
    })
}

/// A row, arguments, numbers; the truth of the formula that they begin with, and how many are left over.
static JUDGEMENTS: [(&'static [u16], &'static [u32], &'static [u32], bool, usize); 14] = [
    (&ROW, &[2, 0, 1], &MOVES, true, 0),
    (&ROW, &[2, 0, 0], &MOVES, false, 0),
    (&ROW, &[2, 1, 0], &MOVES, false, 0),
    (&[0, 0, 0, 0, 0, 0, 2], &[2, 0, 1], &MOVES, false, 0),
    (&[], &[2, 0, 1], &MOVES, false, 0),
    (&ROW, &[], &[6, 3, 0, 0], false, 0),
    (&ROW, &[], &[6, 0, 3, 0], true, 0),
    (&ROW, &[], &[5, 0, 3, 0], true, 0),
    (&ROW, &[], &[4, 0, 3, 0], false, 0),
    (&ROW, &[], &[1, 0, 2, 0, 8, 8], true, 2),
    (&ROW, &[1, 1], &[2, 64, 65], true, 0),
    (&ROW, &[1, 1], &[2, 64, 1], true, 0),
    (&ROW, &[1, 0], &[2, 64, 65], false, 0),
    (&ROW, &[], &[2, 64, 64], true, 0),
];

#[test]
fn formulas_are_judged(rt: HostRuntime) {
    for (row, arguments, code, truth, left) in &JUDGEMENTS {
        assert_eq!(rt; judged(row, arguments, code), (*truth, *left));
    }
}

/// Whether the numbers are a formula over the sample's predicates, three objects and three parameters.
fn admitted(code: &[u32]) -> bool {
    is_formula(
        &Vocabulary {
            predicates: &PREDICATES,
            objects: 3,
            parameters: 3,
        },
        code,
    )
}

/// Numbers, and whether they are one formula whose names exist.
static ADMISSIONS: [(&'static [u32], bool); 13] = [
    (&MOVES, true),
    (&[0], true),
    (&[1, 1], true),
    (&[], false),
    (&[0, 0], false),
    (&[7], false),
    (&[4, 0], false),
    (&[2, 2, 66], true),
    (&[2, 3, 66], false),
    (&[2, 2, 67], false),
    (&[1, 2], false),
    (&[1, 0, 64], false),
    (&[3, 1, 0, 64, 67], false),
];

#[test]
fn formulas_are_admitted(rt: HostRuntime) {
    for (code, passes) in &ADMISSIONS {
        assert_eq!(rt; admitted(code), *passes);
    }
}

#[test]
fn deepest_formula(rt: HostRuntime) {
    let mut code = [3u32; 256];
    code[255] = 0;
    assert!(rt; admitted(&code));
    assert_eq!(rt; judged(&ROW, &[], &code), (true, 0));
}
