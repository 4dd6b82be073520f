//! Reading a head.

ghost use Rattle.std.specs.Prelude.{◌≡◌, ◌≤◌, length};
ghost use Rattle.std.specs.Io.KnownBytes.{IsAtEnd};
ghost use Rattle.httparse.specs.Spans.{IsRequestOf, IsRequestWithin};
ghost use Rattle.httparse.specs.declared.spans.RequestSpans.{RequestSpans};
ghost use Rattle.crush_http.specs.Head.{HasNoHead, IsHalfHead};
ghost use Rattle.crush_http.specs.declared.limits.TheConstants.{HEAD_LIMIT, HEADER_LIMIT};
ghost use Rattle.crush_http.specs.Private.Reading.{ReadsOn};

use crate::buffer::Buffer;
use crate::limits::HEAD_LIMIT;
use httparse::Status;
use httparse::spans::{HeaderSpan, RequestSpans, parse_request};
use std::io::Read;

/// What is at the front of the input.
pub(crate) enum HeadRead {
    Found(RequestSpans),
    /// There is no head within the limits, whatever bytes follow.
    Never,
    /// The input ends before a head is whole.
    Ended,
    /// A read failed before a head was whole.
    Fault,
}

/// Reads until the buffer begins with a head, or can't begin with one. The places of the head's
/// headers are put into `headers`.
pub(crate) fn read_head<R: Read>(
    reader: &mut R,
    buffer: &mut Buffer,
    headers: &mut [HeaderSpan],
) -> HeadRead
    requires room { length headers.old ≡ HEADER_LIMIT }
    ensures read { ReadsOn buffer.old (R.remaining reader.old) (R.remaining reader.new) (λ all. buffer.new ≡ all) }
    ensures found { (r : RequestSpans) → result ≡ HeadRead.Found r → IsRequestOf buffer.new headers.new r × IsRequestWithin buffer.new headers.new r }
    ensures never { result ≡ HeadRead.Never → HasNoHead buffer.new }
    ensures ended { result ≡ HeadRead.Ended → IsHalfHead buffer.new × IsAtEnd (R.remaining reader.new) }
    ensures fault { result ≡ HeadRead.Fault → IsHalfHead buffer.new }
    ensures limit { length buffer.new ≤ HEAD_LIMIT }
    ensures same_room { length headers.new ≡ length headers.old }
{
    loop {
        match parse_request(buffer.bytes(), headers) {
            Ok(Status::Complete(found)) => return HeadRead::Found(found),
            Ok(Status::Partial) => {}
            Err(_) => return HeadRead::Never,
        }
        if buffer.bytes().len() == HEAD_LIMIT {
            return HeadRead::Never;
        }
        match buffer.read_from(reader) {
            Ok(0) => return HeadRead::Ended,
            Ok(_) => {}
            Err(_) => return HeadRead::Fault,
        }
    }
}
