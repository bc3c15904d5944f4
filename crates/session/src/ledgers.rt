//! What a session holds beside its form.

use board::boards::Board;
use form::steps::Step;

/// The most steps that stand at once.
pub const MOST_STEPS: usize = 256;

/// A standing step with its number of changes.
#[derive(Clone, Copy)]
pub struct Standing {
    pub step: Step,
    pub changes: u32,
}

// Fixed arrays with a count: nothing allocates, and a draft is a copy. The count has no bound in this type, since `ledger_of` has a ledger for every outcome.
/// Row and journal, and the standing steps, the first `count` of which are in use.
#[derive(Clone, Copy)]
pub struct Ledger {
    pub board: Board,
    pub standing: [Standing; MOST_STEPS],
    pub count: usize,
}
