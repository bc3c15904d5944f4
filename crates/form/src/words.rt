//! Words with single blanks between them: the inner text of a step line, and a name.

ghost use Rattle.std.specs.Prelude.{◌≡◌, Decides};
ghost use Rattle.form.specs.Lines.{word_byte, Words, is_words};

/// Whether a byte may stand in a word.
fn is_word_byte(byte: u8) -> bool
    ensures { result ≡ word_byte byte }
{
    byte >= 33 && byte <= 126 && byte != b'(' && byte != b')'
}

/// Whether one pass over a text finds at most `most_words` words with single blanks between them.
fn passes(text: &[u8], most_words: u32) -> bool
    ensures { result ≡ is_words most_words text.now }
{
    // A loop: what a byte may be depends on the bytes before it.
    let mut words_left = most_words;
    let mut in_word = false;
    for byte in text {
        if is_word_byte(*byte) {
            if !in_word {
                if words_left == 0 {
                    return false;
                }
                words_left -= 1;
                in_word = true;
            }
        } else {
            if *byte != b' ' || !in_word {
                return false;
            }
            in_word = false;
        }
    }
    in_word
}

/// Whether a text is one word up to `most_words` words with single blanks between them, in one pass.
pub fn holds_words(text: &[u8], most_words: u32) -> bool
    ensures decides_words { Decides result (Words most_words text.now) }
    ensures same_as_test { result ≡ is_words most_words text.now }
{
    passes(text, most_words)
}
