//! A plan text's lines: the first line of a text, and what a line is.
ghost use Rattle.std.specs.Prelude.{◌≡◌, ◌-◌, ◌<◌, ◌≤◌, ◌∷◌, length, take, drop, ◌==◌, slice_index};
ghost use Rattle.text.specs.Kinds.{Kind};
ghost use Rattle.text.specs.Split.{Parted, Rejoined, Unbroken, lines_of};

use form::words::holds_words;

/// What a line of a plan text is. It borrows the text.
#[derive(Clone, Copy, Debug, PartialEq, Eq)]
pub enum Line<'a> {
    /// The line has no bytes.
    Blank,
    /// The line's first byte is `;`.
    Comment,
    /// The line is one word or more in round brackets: what stands between the brackets.
    Step(&'a [u8]),
    /// The line is none of these.
    Malformed,
}

/// Says what a line is, where a step has at most `most_words` words.
pub fn classify<'a>(line: &'a [u8], most_words: u32) -> Line<'a>
    ensures classified { Kind most_words line.now result }
{
    match line {
        [] => Line::Blank,
        [b';', ..] => Line::Comment,
        [b'(', inner @ .., b')'] if holds_words(inner, most_words) => Line::Step(inner),
        _ => Line::Malformed,
    }
}

/// The length of a text's first line, without its line end.
fn line_length(text: &[u8]) -> usize
    ensures within { result ≤ length text.now }
    ensures unbroken { Unbroken (take result text.now) }
    ensures ends { result < length text.now → slice_index text.now result ≡ 10 }
{
    text.iter()
        .position(|byte| *byte == b'\n')
        .unwrap_or(text.len())
}

/// Takes the first line off a text: the line without its line end, and the text behind that end.
#[tactic(auto, using(crate::proofs::Breaks::rejoined))]
pub fn split_line<'a>(text: &'a [u8]) -> (&'a [u8], &'a [u8])
    ensures line_holds_no_end { Unbroken result.0.now }
    ensures line_end_and_rest { Parted text.now result.0.now result.1.now }
    ensures first_of_the_lines { 0 < length text.now → lines_of text.now ≡ result.0.now ∷ lines_of result.1.now }
    ensures rest_is_shorter { 0 < length text.now → length result.1.now < length text.now }
    ensures lines_rejoin_to_the_text { Rejoined text.now }
{
    let (line, tail) = text.split_at(line_length(text));
    (line, tail.get(1..).unwrap_or(tail))
}

#[cfg(test)]
pub(crate) mod tests {
    use super::*;

    // A line, the most words of a step, and what the line is.
    const LINES: [(&'static [u8], u32, Line<'static>); 27] = [
        (b"", 2, Line::Blank),
        (b";", 2, Line::Comment),
        (b";(a)", 2, Line::Comment),
        (b"(a)", 2, Line::Step(b"a")),
        (b"(a b)", 2, Line::Step(b"a b")),
        (b"(! ~~~)", 2, Line::Step(b"! ~~~")),
        (b"(a b c)", 32, Line::Step(b"a b c")),
        (
            b"(a a a a a a a a a a a a a a a a a a a a a a a a a a a a a a a a)",
            32,
            Line::Step(b"a a a a a a a a a a a a a a a a a a a a a a a a a a a a a a a a"),
        ),
        (
            b"(a a a a a a a a a a a a a a a a a a a a a a a a a a a a a a a a a)",
            32,
            Line::Malformed,
        ),
        (b"(a b c)", 2, Line::Malformed),
        (b"(a)", 0, Line::Malformed),
        (b"  ", 2, Line::Malformed),
        (b" ;", 2, Line::Malformed),
        (b"\r", 2, Line::Malformed),
        (b"(a)\r", 2, Line::Malformed),
        (b"()", 2, Line::Malformed),
        (b"(", 2, Line::Malformed),
        (b"(a", 2, Line::Malformed),
        (b"a)", 2, Line::Malformed),
        (b" (a)", 2, Line::Malformed),
        (b"(a  b)", 2, Line::Malformed),
        (b"( a)", 2, Line::Malformed),
        (b"(a )", 2, Line::Malformed),
        (b"(a(b)", 2, Line::Malformed),
        (b"(a)b)", 2, Line::Malformed),
        (b"(a\rb)", 2, Line::Malformed),
        (b"(a\x7f)", 2, Line::Malformed),
    ];

    // A text, its first line, and the rest.
    pub(crate) const TEXTS: [(&'static [u8], &'static [u8], &'static [u8]); 6] = [
        (b"", b"", b""),
        (b"a", b"a", b""),
        (b"a\n", b"a", b""),
        (b"\n", b"", b""),
        (b"a\n\nb", b"a", b"\nb"),
        (b"\nb", b"", b"b"),
    ];

    #[test]
    fn lines_are_split_and_classified(rt: HostRuntime) {
        for (line, most_words, kind) in &LINES {
            assert_eq!(rt; classify(line, *most_words), *kind);
        }
        for (text, line, rest) in &TEXTS {
            assert_eq!(rt; split_line(text), (*line, *rest));
        }
    }
}
