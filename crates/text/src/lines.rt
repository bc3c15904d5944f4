//! The lines of a plan text, numbered.
ghost use Rattle.std.specs.Prelude.{◌≡◌, ◌+◌, ◌<◌, min, ◌∷◌, length};
ghost use Rattle.text.specs.Split.{Parted, Rejoined, Unbroken, lines_of};

use crate::line::split_line;

/// A line of a text, its number, and what is left of the text behind it.
#[derive(Clone, Copy)]
pub struct NumberedLine<'a> {
    pub line: &'a [u8],
    pub number: u32,
    pub rest: &'a [u8],
}

/// Takes the first line off what is left of a text behind so many lines. Every line counts, whatever it is; the number stops at the largest `u32`.
pub fn next_line<'a>(text: &'a [u8], before: u32) -> NumberedLine<'a>
    ensures numbered_behind_those_before { result.number ≡ min (before + 1) 4294967295 }
    ensures line_holds_no_end { Unbroken result.line.now }
    ensures line_end_and_rest { Parted text.now result.line.now result.rest.now }
    ensures first_of_the_lines { 0 < length text.now → lines_of text.now ≡ result.line.now ∷ lines_of result.rest.now }
    ensures rest_is_shorter { 0 < length text.now → length result.rest.now < length text.now }
    ensures lines_rejoin_to_the_text { Rejoined text.now }
{
    let (line, rest) = split_line(text);
    let number = before.saturating_add(1);
    NumberedLine { line, number, rest }
}

/// The lines of a text from the first on, each with its number: what is left of the text, and how many lines were before.
#[derive(Drop)]
pub struct NumberedLines<'a> {
    pub rest: &'a [u8],
    pub before: u32,
}

impl<'a> NumberedLines<'a> {
    /// The lines of a whole text, the first of them line 1.
    pub fn new(text: &'a [u8]) -> NumberedLines<'a>
        ensures nothing_read { result.rest.now ≡ text.now }
        ensures no_line_before { result.before ≡ 0 }
    {
        NumberedLines {
            rest: text,
            before: 0,
        }
    }
}

impl<'a> Iterator for NumberedLines<'a> {
    ghost use Rattle.std.specs.Iterator.{at_most};
    ghost use Rattle.text.specs.Numbered.{GivesNextLine};

    type Item = NumberedLine<'a>;

    ghost next_gives = { GivesNextLine };

    ghost remaining = { λ lines. at_most (length lines.rest.now) };

    fn next(&mut self) -> Option<NumberedLine<'a>> {
        if self.rest.is_empty() {
            return None;
        }
        let next = next_line(self.rest, self.before);
        self.rest = next.rest;
        self.before = next.number;
        Some(next)
    }
}

#[cfg(test)]
mod tests {
    use super::*;
    use crate::line::tests::TEXTS;

    #[test]
    fn lines_are_numbered_behind_those_before(rt: HostRuntime) {
        for (text, line, rest) in &TEXTS {
            let first = next_line(text, 41);
            assert_eq!(rt; (first.line, first.number, first.rest), (*line, 42, *rest));
        }
    }
}
