//! Whether a text asks for straw2.

ghost use Rattle.std.specs.Prelude.{◌≡◌};
ghost use Rattle.crush_grammar.specs.Private.Ends.{ends_line};
ghost use Rattle.crush_grammar.specs.Words as spec;

use crush_map::straw2_mark;

/// Returns whether nothing is left of a line but one CR, or nothing at all.
fn ends_line(rest: &[u8]) -> bool
    ensures { result ≡ ends_line rest.now }
{
    matches!(rest, [] | [b'\n', ..] | [b'\r'] | [b'\r', b'\n', ..])
}

/// Returns whether a text asks for straw2: whether its first line, less one CR at its end, is the
/// mark. No byte after that line is read.
pub(crate) fn asks_for_straw2(text: &[u8]) -> bool
    ensures { result ≡ spec.asks_for_straw2 text.now }
{
    match text.strip_prefix(straw2_mark().as_bytes()) {
        Some(rest) => ends_line(rest),
        None => false,
    }
}
