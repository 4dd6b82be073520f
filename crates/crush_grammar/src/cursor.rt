//! A place in a text that is read word by word.

ghost use Rattle.std.specs.Prelude.{◌≡◌, ◌<◌, ◌∷◌, [], length, MatchOption, IfSome};
ghost use Rattle.crush_grammar.specs.Words as spec;

use crate::lex::first_word;
use crate::mark::asks_for_straw2;
use crate::word::Word;
use std::marker::Model;

/// The rest of a text that is read word by word, and whether the whole text asks for straw2.
/// Contracts see the words that remain, and the line of the last word read.
#[derive(Drop)]
pub struct Cursor<'a> {
    line: usize,
    rest: &'a [u8],
    straw2: bool,
}

impl<'a> Model for Cursor<'a> {
    ghost use Rattle.std.specs.Prelude.{◌+◌, ◌<◌, ◌^◌, length, false};
    ghost use Rattle.crush_grammar.specs.Words as spec;

    ghost Value = { spec.Rest };

    ghost view = { λ c. record { line = c.line; words = spec.in_text c.straw2 (spec.words_from false c.line c.rest.now) } };

    ghost invariant = { λ c. c.line + length c.rest.now < 2 ^ 64 };
}

impl<'a> Cursor<'a> {
    /// Returns the start of a text.
    pub fn new(text: &'a [u8]) -> Self
        ensures { result ≡ record { line = 1; words = spec.words text.now } }
    {
        Cursor {
            line: 1,
            rest: text,
            straw2: asks_for_straw2(text),
        }
    }

    /// Returns the number of the line of the last word read, or 1 if none was read.
    pub fn line(&self) -> usize
        ensures { result ≡ self.now.line }
    {
        self.line
    }

    /// Reads the next word. Returns it and the rest after it. `None`: no word remains.
    pub fn next(&self) -> Option<(Word<'a>, Cursor<'a>)>
        ensures { MatchOption result (self.now.words ≡ []) (λ r. (self.now.words ≡ r.0 ∷ r.1.words) × (r.1.line ≡ r.0.line)) }
    {
        let (word, rest) = first_word(self.line, self.rest)?;
        let line = word.line();
        let rest = Cursor {
            line,
            rest,
            ..*self
        };
        Some((word.in_text(self.straw2), rest))
    }
}
