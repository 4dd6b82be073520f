//! What clients send, and what they have to get.

/// Two messages, as in a script: a tenant is created and shown.
pub const STREAM: &[u8] =
    b"PUT /t/a HTTP/1.1\r\nHost: l\r\n\r\nGET /t/a HTTP/1.1\r\nHost: l\r\n\r\n";

/// The replies to the two messages.
pub const REPLIES: &[u8] =
    b"HTTP/1.1 201 Created\r\nContent-Length: 24\r\nContent-Type: application/json\r\n\r\n{\"epoch\":0,\"tenant\":\"a\"}HTTP/1.1 200 OK\r\nContent-Length: 59\r\nContent-Type: application/json\r\n\r\n{\"devices\":0,\"epoch\":0,\"pools\":0,\"tenant\":\"a\",\"versions\":0}";

/// The replies to the same messages once the tenant is there.
pub const REPLIES_AGAIN: &[u8] =
    b"HTTP/1.1 409 Conflict\r\nContent-Length: 18\r\nContent-Type: application/json\r\n\r\n{\"error\":\"exists\"}HTTP/1.1 200 OK\r\nContent-Length: 59\r\nContent-Type: application/json\r\n\r\n{\"devices\":0,\"epoch\":0,\"pools\":0,\"tenant\":\"a\",\"versions\":0}";
