//! The interfaces of a task form.

ghost use Rattle.std.specs.Prelude.{◌≡◌, ℕ, ◌++◌, length, drop, if◌then◌else◌, nat_le, slice_index};
ghost use Rattle.form.specs.Meanings.{Meaning, Lawful, judged};
ghost use Rattle.form.specs.Names.{Naming, NamesLawful, NamesReadable};

use crate::change_lists::ChangeList;
use crate::judgements::Cause;
use crate::steps::Step;

/// A task form: a row of cells, a first row, a judgement of each step in each row, and a goal.
///
/// Rows are lent as slices; a question alters nothing.
pub trait TaskForm {
    /// What the form means; every answer is this meaning's.
    ghost means: { Self → Meaning };

    /// The bounds that the meaning keeps. It computes nothing: code that needs the bounds calls it.
    fn lawful(&self)
        ensures bounds { Lawful (means self.now) };

    /// The number of cells.
    fn width(&self) -> usize
        ensures number_of_cells { result ≡ (means self.now).width };

    /// A cell's value in the first row; 0 for a cell that the form does not have.
    fn first_value(&self, cell: usize) -> u16
        ensures value_in_first_row { result ≡ slice_index (means self.now).first cell };

    /// The judgement of a step in a row: the changes that it makes if it is granted, or why it is declined.
    fn judge(&self, row: &[u16], step: Step) -> Result<ChangeList, Cause>
        ensures judgement_of_meaning { judged result ≡ (means self.now).judge row.now step };

    /// The number, from 1, of the first goal item that the row leaves unmet.
    fn unmet_goal(&self, row: &[u16]) -> Option<u32>
        ensures first_unmet_item { result ≡ (means self.now).unmet row.now };
}

/// A task form that also knows names.
pub trait NamedForm: TaskForm {
    /// The most words that a step line may have.
    const MOST_WORDS: u32;

    /// The same number, for contracts.
    ghost most: { ℕ };

    /// The names of the form's steps.
    ghost names: { Self → Naming };

    /// The constant above, as a value that a contract can speak of.
    fn word_limit() -> u32
        ensures most_words_of_line { result ≡ most };

    /// What the names keep. It computes nothing: code that needs it calls it.
    fn names_lawful(&self)
        ensures names_undo_each_other { NamesLawful most (Self.TaskForm.means self.now) (names self.now) };

    /// The step that a text names, or the position, from 1, of its first unknown word.
    // The error is a position and no kind of refusal: a fault takes it as its item.
    fn step_named(&self, text: &[u8]) -> Result<Step, u32>
        ensures step_of_text { result ≡ (names self.now).step_named text.now };

    /// Writes a step's text to the front of the buffer, if it fits, and returns its length.
    fn write_text(&self, step: Step, buffer: &mut [u8]) -> usize
        ensures length_of_text { result ≡ length ((names self.now).text_of step) }
        ensures text_then_old_bytes { buffer.new ≡ (if nat_le result (length buffer.old) then (names self.now).text_of step ++ drop result buffer.old else buffer.old) };
}

/// A task form whose names serve plan texts: what a text names is written out under that text.
pub trait ReadableForm: NamedForm {
    /// What reading needs of the names beyond `names_lawful`. It computes nothing: code that needs it calls it.
    fn names_readable(&self)
        ensures text_told_by_the_step { NamesReadable (Self.NamedForm.names self.now) };
}
