//! Where a text ends.

ghost use Rattle.std.specs.Prelude.{◌≡◌};
ghost use Rattle.crush_grammar.specs.Words.{words};
ghost use Rattle.crush_grammar.specs.Fronts as spec;

use crate::Cursor;

/// Finds the line of the last word of a text, or 1.
pub fn last_line(text: &[u8]) -> usize
    ensures { result ≡ spec.last_line 1 (words text.now) }
{
    let mut cursor = Cursor::new(text);
    while let Some((_word, rest)) = cursor.next() {
        cursor = rest;
    }
    cursor.line()
}
