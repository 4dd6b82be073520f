//! Reading a message.

ghost use Rattle.std.specs.Prelude.{◌≡◌, Some, [], length};
ghost use Rattle.tenant_core.specs.declared.limits.TheConstants.{BODY_LIMIT};
ghost use Rattle.crush_http.specs.Private.Reading.{Finds};

use crate::body::{BodyRead, read_body};
use crate::buffer::Buffer;
use crate::head::{HeadRead, read_head};
use crate::limits::HEADER_LIMIT;
use crate::rejection::Rejection;
use crate::request::{MessagePlaces, request_of};
use httparse::spans::EMPTY_HEADER_SPAN;
use std::io::Read;

/// What comes next.
pub(crate) enum Incoming {
    /// A message. Its head is in the buffer, and its body was read.
    Message(MessagePlaces),
    /// What comes is no message, whatever bytes follow.
    Rejected(Rejection),
    /// The input ends before a message is whole.
    Ended,
    /// A read failed before a message was whole.
    Fault,
}

/// Reads a message: its head into the buffer, and its body to the front of `body`.
pub(crate) fn read_message<R: Read>(
    reader: &mut R,
    buffer: &mut Buffer,
    body: &mut [u8],
) -> Incoming
    requires room { length body.old ≡ BODY_LIMIT }
    ensures found { Finds result buffer.old buffer.new body.new (R.remaining reader.old) (R.remaining reader.new) }
    ensures kept { R.remaining reader.old ≡ Some [] → buffer.new ≡ buffer.old }
    ensures same_room { length body.new ≡ length body.old }
{
    let mut headers = [EMPTY_HEADER_SPAN; HEADER_LIMIT];
    let found = match read_head(reader, buffer, &mut headers) {
        HeadRead::Found(found) => found,
        HeadRead::Never => return Incoming::Rejected(Rejection::BadRequest),
        HeadRead::Ended => return Incoming::Ended,
        HeadRead::Fault => return Incoming::Fault,
    };
    let bytes = buffer.bytes();
    let request = match request_of(bytes, &found, &headers) {
        Ok(request) => request,
        Err(reason) => return Incoming::Rejected(reason),
    };
    match read_body(reader, &bytes[request.len..], &mut body[..request.size]) {
        BodyRead::Whole => Incoming::Message(request),
        BodyRead::Ended => Incoming::Ended,
        BodyRead::Fault => Incoming::Fault,
    }
}
