//! Finding the first word in bytes.

ghost use Rattle.std.specs.Prelude.{◌≡◌, ◌≤◌, ◌<◌, ◌+◌, ◌^◌, ℕ, [], ◌∷◌, length, take, drop, IfSome, MatchOption, true, false};
ghost use Rattle.crush_grammar.specs.Private.Scan as scan;
ghost use Rattle.crush_grammar.specs.Words as spec;

use crate::word::Word;
use crush_map::is_name_byte;

/// Returns how many bytes at the front are allowed in names.
fn run_len(bytes: &[u8]) -> usize
    ensures value { result ≡ scan.run_len bytes.now }
    ensures bound { result ≤ length bytes.now }
{
    let mut len = 0;
    for byte in bytes {
        if !is_name_byte(*byte) {
            return len;
        }
        len += 1;
    }
    len
}

/// Returns whether a byte is blank: a space, a tab or a CR.
fn is_blank(byte: u8) -> bool
    ensures { result ≡ spec.is_blank byte }
{
    matches!(byte, b' ' | b'\t' | b'\r')
}

/// Returns the length of the word at the front, in bytes.
fn word_len(bytes: &[u8]) -> usize
    requires { scan.starts_word bytes.now ≡ true }
    ensures bound { result ≤ length bytes.now }
    ensures some { 0 < result }
    ensures value { (line : ℕ) → spec.words_from false line bytes.now ≡ record { line = line; text = take result bytes.now; straw2 = false } ∷ spec.words_from false line (drop result bytes.now) }
{
    let len = run_len(bytes);
    if len == 0 { 1 } else { len }
}

/// Finds the first word of a text whose first line has the number `line`. Returns it, and what
/// follows it. `None`: the text has no word.
pub(crate) fn first_word<'a>(line: usize, text: &'a [u8]) -> Option<(Word<'a>, &'a [u8])>
    requires { line + length text.now < 2 ^ 64 }
    ensures value { MatchOption result (spec.words_from false line text.now ≡ []) (λ r. spec.words_from false line text.now ≡ r.0 ∷ spec.words_from false r.0.line r.1.now) }
    ensures bound { IfSome result (λ r. r.0.line + length r.1.now < line + length text.now) }
    ensures less { IfSome result (λ r. length r.1.now < length text.now) }
{
    let mut line = line;
    let mut comment = false;
    for (place, byte) in text.iter().enumerate() {
        if *byte == b'\n' {
            line += 1;
            comment = false;
        } else if !comment {
            if *byte == b'#' {
                comment = true;
            } else if !is_blank(*byte) {
                let len = word_len(&text[place..]);
                let word = Word::new(line, &text[place..place + len]);
                return Some((word, &text[place + len..]));
            }
        }
    }
    None
}
