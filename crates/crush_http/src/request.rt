//! The head of a message, and its call.

ghost use Rattle.std.specs.Prelude.{◌≡◌, ◌≤◌, length, IfOk, IfErr};
ghost use Rattle.httparse.specs.Grammar.{RequestHead};
ghost use Rattle.httparse.specs.Spans.{IsRequestOf, IsRequestWithin};
ghost use Rattle.tenant_core.specs.tenant_messages.specs.CallParts as spec;
ghost use Rattle.crush_http.specs.Messages.{HasBadSize};
ghost use Rattle.crush_http.specs.declared.limits.TheConstants.{HEAD_LIMIT, HEADER_LIMIT};
ghost use Rattle.crush_http.specs.Private.Reading.{IsRequest, call_in, used};

use crate::headers::{asks_close, size_of};
use crate::rejection::Rejection;
use httparse::spans::{HeaderSpan, RequestSpans, Span};
use tenant_core::CallParts;

/// The places of the parts of a message in the buffer, and the length of its body.
#[derive(Clone, Copy)]
pub(crate) struct MessagePlaces {
    pub method: Span,
    pub path: Span,
    /// The length of the head, in bytes, after which the body begins.
    pub len: usize,
    /// The length of the body, in bytes.
    pub size: usize,
    /// Whether the connection ends after the reply.
    pub closes: bool,
}

impl MessagePlaces {
    ghost use Rattle.std.specs.Prelude.{◌≡◌, ◌≤◌};
    ghost use Rattle.crush_http.specs.Private.Reading.{used};

    /// Returns the number of bytes that belong to the message, of the `count` bytes in the buffer.
    pub(crate) fn used(&self, count: usize) -> usize
        requires { self.now.len ≤ count }
        ensures { result ≡ used self.now count }
    {
        self.len + self.size.min(count - self.len)
    }
}

/// Finds the parts of the message whose head is `found` in `bytes`. `Err`: why the message isn't
/// served.
pub(crate) fn request_of(
    bytes: &[u8],
    found: &RequestSpans,
    headers: &[HeaderSpan],
) -> Result<MessagePlaces, Rejection>
    requires limit { length bytes.now ≤ HEAD_LIMIT }
    requires room { length headers.now ≤ HEADER_LIMIT }
    requires of { IsRequestOf bytes.now headers.now found.now }
    requires within { IsRequestWithin bytes.now headers.now found.now }
    ensures ok { IfOk result (λ r. (head : RequestHead) × IsRequest bytes.now r head) }
    ensures err { IfErr result (λ reason. HasBadSize bytes.now reason) }
{
    let fields = &headers[..found.headers];
    let size = size_of(bytes, fields)?;
    Ok(MessagePlaces {
        method: found.method,
        path: found.path,
        len: found.len,
        size,
        closes: found.version == 0 || asks_close(bytes, fields),
    })
}

/// Returns the call of a message. Allocates nothing.
pub(crate) fn call_of<'a>(bytes: &'a [u8], request: &MessagePlaces, body: &'a [u8]) -> CallParts<'a>
    requires { (head : RequestHead) × IsRequest bytes.now request.now head }
    ensures { spec.call_of result ≡ call_in bytes.now request.now body.now }
{
    let path = match str::from_utf8(request.path.of(bytes)) {
        Ok(path) => path,
        Err(_) => unreachable!(),
    };
    CallParts {
        method: request.method.of(bytes),
        path,
        body,
    }
}
