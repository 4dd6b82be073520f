//! Bytes that are written whole, and the body of a reply as it is written.

ghost use Rattle.std.specs.Prelude.{◌≡◌, IsTrue};
ghost use Rattle.std.specs.Bool.{IsFalse};
ghost use Rattle.std.specs.Io.KnownBytes.{Appends};
ghost use Rattle.tenant_service.specs.Writing as spec;
ghost use Rattle.tenant_service.specs.Writing.{AppendsPart};

use std::io::Write;

/// Writes the bytes and returns whether all were written: it ends at the first error, or where a
/// write accepts no byte. Without bytes the writer isn't called. Allocates nothing.
pub fn write_whole<W: Write>(writer: &mut W, bytes: &[u8]) -> bool
    ensures whole { IsTrue result → Appends (W.contents writer.old) (W.contents writer.new) bytes.now }
    ensures part { IsFalse result → AppendsPart (W.contents writer.old) (W.contents writer.new) bytes.now }
{
    let mut rest = bytes;
    while !rest.is_empty() {
        match writer.write(rest) {
            Ok(0) | Err(_) => return false,
            Ok(count) => rest = &rest[count..],
        }
    }
    true
}

/// Returns the body of a reply as it is written. A reply for a failed allocation has an empty body,
/// for which its text is written. Allocates nothing.
pub fn shown_body(body: &str) -> &[u8]
    ensures { result.now ≡ spec.shown_body body.now }
{
    if body.is_empty() {
        b"{\"error\":\"no_memory\"}"
    } else {
        body.as_bytes()
    }
}
