//! The rule for an operator's name, as admission applies it.

use super::base::*;
use fdr::tables::{FdrTables, Operator, Run};

/// The second operator's name breaks the rule.
const BREAKS: [u32; 4] = [3, 0, 4, 2];

/// Name bytes: the first operator's name "x", then the second operator's name; and what admission gives.
static NAMES: [(&'static [u8], [u32; 4]); 20] = [
    (b"x", BREAKS),
    (b"xa", PASSES),
    (
        b"xaaaaaaaaaaaaaaaaaaaaaaaaaaaaaaaaaaaaaaaaaaaaaaaaaaaaaaaaaaaaaaaa",
        PASSES,
    ),
    (
        b"xaaaaaaaaaaaaaaaaaaaaaaaaaaaaaaaaaaaaaaaaaaaaaaaaaaaaaaaaaaaaaaaaa",
        BREAKS,
    ),
    (b"x ", BREAKS),
    (b"x a", BREAKS),
    (b"xa ", BREAKS),
    (b"xa b", PASSES),
    (b"xa b c", PASSES),
    (b"xa  b", BREAKS),
    (b"x(a", BREAKS),
    (b"xa)", BREAKS),
    (b"x~", PASSES),
    (b"x\x7f", BREAKS),
    (b"xa\x7fb", BREAKS),
    (b"x!", PASSES),
    (b"x\x1f", BREAKS),
    (b"xa\x1fb", BREAKS),
    (b"xa\nb", BREAKS),
    (b"xx", [4, 0, 4, 2]),
];

#[test]
fn names_keep_the_rule(rt: HostRuntime) {
    for (names, numbers) in &NAMES {
        assert!(rt; names.len() >= 1 && names.len() <= 66);
        let named_x = Operator {
            name: Run { start: 0, count: 1 },
            ..FIRST
        };
        let named_by_rest = Operator {
            name: Run {
                start: 1,
                count: (names.len() - 1) as u32,
            },
            ..SECOND
        };
        let tables = FdrTables {
            operators: &[named_x, named_by_rest],
            names,
            ..BASE
        };
        assert_eq!(rt; refusal(tables), *numbers);
    }
}
