//! Words.

ghost use Rattle.std.specs.Prelude.{◌≡◌, false};

use std::marker::Model;

/// A run of bytes that are allowed in names, or one other byte, such as a brace. Contracts see its
/// bytes, its line, and whether its text asks for straw2.
#[derive(Drop)]
pub struct Word<'a> {
    line: usize,
    text: &'a [u8],
    straw2: bool,
}

impl<'a> Model for Word<'a> {
    ghost use Rattle.crush_grammar.specs.Words as spec;

    ghost Value = { spec.Word };

    ghost view = { λ w. record { line = w.line; text = w.text.now; straw2 = w.straw2 } };
}

impl<'a> Word<'a> {
    /// Makes the word with the bytes `text`, on the line `line`, of a text that doesn't ask for
    /// straw2.
    pub(crate) fn new(line: usize, text: &'a [u8]) -> Self
        ensures { result ≡ record { line = line; text = text.now; straw2 = false } }
    {
        Word {
            line,
            text,
            straw2: false,
        }
    }

    /// Returns the same word, of a text that asks for straw2 or doesn't.
    pub(crate) fn in_text(self, straw2: bool) -> Self
        ensures { result ≡ record self.entry { straw2 = straw2 } }
    {
        Word { straw2, ..self }
    }

    /// Returns the number of the word's line; the first line is 1.
    pub fn line(&self) -> usize
        ensures { result ≡ self.now.line }
    {
        self.line
    }

    /// Returns the word's bytes.
    pub fn text(&self) -> &'a [u8]
        ensures { result.now ≡ self.now.text }
    {
        self.text
    }

    /// Returns whether the word's text asks for straw2.
    pub fn asks_for_straw2(&self) -> bool
        ensures { result ≡ self.now.straw2 }
    {
        self.straw2
    }
}
