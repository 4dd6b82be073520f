//! HTTP/1.1 over any reader and writer: the messages of a connection are served, and their replies
//! written.
#![tactic(auto)]

mod body;
mod buffer;
mod buffers;
mod connection;
mod head;
mod headers;
mod held;
pub mod laws;
pub mod limits;
mod message;
mod rejection;
mod request;
mod wire;

pub use buffers::Buffers;
pub use connection::{ConnectionEnd, serve, serve_with};
pub use rejection::Rejection;
pub use tenant_core::{Bytes, Call, CallParts, Reply};
pub use tenant_service::{MemoryStore, Service, SessionEnd};
