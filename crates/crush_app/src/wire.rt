//! Replies, written as lines.

ghost use Rattle.std.specs.Prelude.{◌≡◌, ◌+◌, ◌≤◌, ◌++◌, ◌∷◌, [], length, IsTrue};
ghost use Rattle.std.specs.Bool.{IsFalse};
ghost use Rattle.std.specs.Io.KnownBytes.{Appends};
ghost use Rattle.tenant_service.specs.Writing.{AppendsPart};
ghost use Rattle.crush_app.specs.Script as spec;
ghost use Rattle.crush_app.specs.declared.line.TheConstants.{LINE_ROOM};

use crate::line::{LINE_ROOM, Line};
use std::io::Write;
use tenant_core::Reply;
use tenant_service::{shown_body, write_whole};

/// Writes `first` and then `second`, and returns whether all bytes were written. Allocates nothing.
fn write_both<W: Write>(writer: &mut W, first: &[u8], second: &[u8]) -> bool
    ensures whole { IsTrue result → Appends (W.contents writer.old) (W.contents writer.new) (first.now ++ second.now) }
    ensures part { IsFalse result → AppendsPart (W.contents writer.old) (W.contents writer.new) (first.now ++ second.now) }
{
    if !write_whole(writer, first) {
        return false;
    }
    write_whole(writer, second)
}

/// Writes the line of `status` and `body` in pieces, and returns whether all of it was written.
/// Allocates nothing.
fn write_long<W: Write>(writer: &mut W, status: &[u8], body: &[u8]) -> bool
    ensures whole { IsTrue result → Appends (W.contents writer.old) (W.contents writer.new) ((status.now ++ 32 ∷ []) ++ (body.now ++ 10 ∷ [])) }
    ensures part { IsFalse result → AppendsPart (W.contents writer.old) (W.contents writer.new) ((status.now ++ 32 ∷ []) ++ (body.now ++ 10 ∷ [])) }
{
    if !write_both(writer, status, b" ") {
        return false;
    }
    write_both(writer, body, b"\n")
}

/// Puts the line of `status` and `body` together, writes it at once, and returns whether all of it
/// was written. Allocates nothing.
fn write_short<W: Write>(writer: &mut W, status: &[u8], body: &[u8]) -> bool
    requires { length status.now + length body.now + 2 ≤ LINE_ROOM }
    ensures whole { IsTrue result → Appends (W.contents writer.old) (W.contents writer.new) ((status.now ++ 32 ∷ []) ++ (body.now ++ 10 ∷ [])) }
    ensures part { IsFalse result → AppendsPart (W.contents writer.old) (W.contents writer.new) ((status.now ++ 32 ∷ []) ++ (body.now ++ 10 ∷ [])) }
{
    let mut line = Line::new();
    line.push(status);
    line.push(b" ");
    line.push(body);
    line.push(b"\n");
    write_whole(writer, line.bytes())
}

/// Writes `reply` as a line (STATUS, a space, the body, LF), and returns whether all of it was
/// written. A short line is written by one write, if that write takes all bytes. Allocates nothing.
pub(crate) fn write_line<W: Write>(writer: &mut W, reply: &Reply) -> bool
    ensures whole { IsTrue result → Appends (W.contents writer.old) (W.contents writer.new) (spec.wire reply.now) }
    ensures part { IsFalse result → AppendsPart (W.contents writer.old) (W.contents writer.new) (spec.wire reply.now) }
{
    let mut buffer = itoa::Buffer::new();
    let status = buffer.format(reply.status).as_bytes();
    let body = shown_body(reply.body.as_str());
    if status.len() <= 3 && body.len() <= LINE_ROOM - 5 {
        write_short(writer, status, body)
    } else {
        write_long(writer, status, body)
    }
}
