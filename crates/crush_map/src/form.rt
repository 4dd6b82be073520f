//! Which texts are names.

ghost use Rattle.std.specs.Prelude.{◌≡◌, bytes_eq};
ghost use Rattle.std.specs.List.{list_all};
ghost use Rattle.crush_map.specs.Faults as spec;

use crate::limits::NAME_LIMIT;

/// Returns whether a byte is allowed in a name: an ASCII letter or digit, `-`, `_` or `.`.
pub fn is_name_byte(byte: u8) -> bool
    ensures { result ≡ spec.is_name_byte byte }
{
    matches!(byte, b'a'..=b'z' | b'A'..=b'Z' | b'0'..=b'9' | b'-' | b'_' | b'.')
}

/// Returns whether each byte is allowed in a name.
pub fn all_are_name_bytes(bytes: &[u8]) -> bool
    ensures { result ≡ list_all spec.is_name_byte bytes.now }
{
    bytes.iter().all(|&byte| is_name_byte(byte))
}

/// Returns whether a text is a name: 1 to `NAME_LIMIT` bytes that are allowed in one.
pub fn is_name(name: &str) -> bool
    ensures { result ≡ spec.is_name name.now }
{
    let bytes = name.as_bytes();
    1 <= bytes.len() && bytes.len() <= NAME_LIMIT && all_are_name_bytes(bytes)
}

/// Returns whether two texts are the same.
fn is(word: &[u8], name: &[u8]) -> bool
    ensures { result ≡ bytes_eq word.now name.now }
{
    word == name
}

/// Returns whether a text begins a declaration in a map's text, or is `class`: no type has it as
/// its name.
pub fn is_reserved(name: &[u8]) -> bool
    ensures { result ≡ spec.is_reserved name.now }
{
    is(b"tunable", name)
        || is(b"device", name)
        || is(b"type", name)
        || is(b"rule", name)
        || is(b"choose_args", name)
        || is(b"class", name)
}
