//! Why what comes is no message.

/// Why what comes is no message. It is answered, and the connection then ends.
#[derive(Clone, Copy, Debug, PartialEq, Eq)]
pub enum Rejection {
    /// 400: there is no head within the limits, or its Content-Length is no length.
    BadRequest,
    /// 413: the body is over its limit.
    TooLarge,
    /// 501: there is a Transfer-Encoding.
    Length,
}
