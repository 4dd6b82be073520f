//! Replies, written as bytes.

ghost use Rattle.std.specs.Prelude.{◌≡◌, ◌∷◌, [], map, codes};
ghost use Rattle.std.specs.List.{flat_map};
ghost use Rattle.crush_http.specs.Wire as spec;
ghost use Rattle.crush_http.specs.Private.Served.{Puts};

use crate::held::HeldBytes;
use crate::rejection::Rejection;
use http::StatusCode;
use std::io::Write;
use tenant_core::Reply;
use tenant_service::shown_body;

/// Puts the pieces, one after the other, after what is held, and returns whether all bytes are held
/// or written. Allocates nothing.
fn put_pieces<W: Write>(held: &mut HeldBytes, writer: &mut W, pieces: &[&[u8]]) -> bool
    ensures { Puts result held.old held.new (W.contents writer.old) (W.contents writer.new) (flat_map (λ piece. piece.now) pieces.now) }
{
    for piece in pieces {
        if !held.put(writer, piece) {
            return false;
        }
    }
    true
}

/// Returns the phrase of `status` (RFC 9110, section 15), or an empty one. Allocates nothing.
fn phrase(status: u16) -> &'static str
    ensures { result.now ≡ spec.phrase status }
{
    match StatusCode::from_u16(status) {
        Ok(code) => code.canonical_reason().unwrap_or(""),
        Err(_) => "",
    }
}

/// Returns the line `Connection: close` if the connection ends after the reply, and else nothing.
fn close_line(last: bool) -> &'static [u8]
    ensures { result.now ≡ spec.close_line last }
{
    if last { b"Connection: close\r\n" } else { b"" }
}

/// Returns the pieces of a reply, in order.
fn pieces_of<'a>(
    status: &'a [u8],
    phrase: &'a [u8],
    size: &'a [u8],
    close: &'a [u8],
    body: &'a [u8],
) -> [&'a [u8]; 10]
    ensures { map (λ piece. piece.now) result ≡ codes "HTTP/1.1 " ∷ status.now ∷ codes " " ∷ phrase.now ∷ codes "\r\nContent-Length: " ∷ size.now ∷ codes "\r\nContent-Type: application/json\r\n" ∷ close.now ∷ codes "\r\n" ∷ body.now ∷ [] }
{
    [
        b"HTTP/1.1 ",
        status,
        b" ",
        phrase,
        b"\r\nContent-Length: ",
        size,
        b"\r\nContent-Type: application/json\r\n",
        close,
        b"\r\n",
        body,
    ]
}

/// Puts a reply with `status` and `body` after what is held, and returns whether all of it is held
/// or written. Allocates nothing.
fn put_with<W: Write>(
    held: &mut HeldBytes,
    writer: &mut W,
    last: bool,
    status: u16,
    body: &[u8],
) -> bool
    ensures { Puts result held.old held.new (W.contents writer.old) (W.contents writer.new) (spec.wire last status body.now) }
{
    let mut status_buffer = itoa::Buffer::new();
    let mut size_buffer = itoa::Buffer::new();
    let status_digits = status_buffer.format(status).as_bytes();
    let size_digits = size_buffer.format(body.len()).as_bytes();
    let pieces = pieces_of(
        status_digits,
        phrase(status).as_bytes(),
        size_digits,
        close_line(last),
        body,
    );
    put_pieces(held, writer, &pieces)
}

/// Puts `reply` after what is held, and returns whether all of it is held or written. `last` says
/// whether the connection ends after it. Allocates nothing.
pub(crate) fn put_reply<W: Write>(
    held: &mut HeldBytes,
    writer: &mut W,
    last: bool,
    reply: &Reply,
) -> bool
    ensures { Puts result held.old held.new (W.contents writer.old) (W.contents writer.new) (spec.reply_wire last reply.now) }
{
    put_with(
        held,
        writer,
        last,
        reply.status,
        shown_body(reply.body.as_str()),
    )
}

/// Returns the status of the reply to what is no message for `reason`.
fn rejection_status(reason: Rejection) -> u16
    ensures { result ≡ spec.rejection_status reason }
{
    match reason {
        Rejection::BadRequest => 400,
        Rejection::TooLarge => 413,
        Rejection::Length => 501,
    }
}

/// Returns the body of the reply to what is no message for `reason`.
fn rejection_body(reason: Rejection) -> &'static [u8]
    ensures { result.now ≡ spec.rejection_body reason }
{
    match reason {
        Rejection::BadRequest => b"{\"error\":\"bad_request\"}",
        Rejection::TooLarge => b"{\"error\":\"too_large\"}",
        Rejection::Length => b"{\"error\":\"length\"}",
    }
}

/// Puts the reply to what is no message for `reason` after what is held, and returns whether all of
/// it is held or written. Allocates nothing.
pub(crate) fn put_rejection<W: Write>(
    held: &mut HeldBytes,
    writer: &mut W,
    reason: Rejection,
) -> bool
    ensures { Puts result held.old held.new (W.contents writer.old) (W.contents writer.new) (spec.rejection_wire reason) }
{
    put_with(
        held,
        writer,
        true,
        rejection_status(reason),
        rejection_body(reason),
    )
}
