//! Calls: requests before any check.

ghost use Rattle.std.specs.Prelude.{◌≡◌};
ghost use Rattle.tenant_messages.specs.CallParts.{call_of};

use crush_map::{Sequence, Text};

/// Bytes that a contract sees as a list.
pub type Bytes = Sequence<u8>;

/// A method, a path and a body, none of them checked. The path is the request target (RFC 9112) as
/// received: nothing is decoded.
#[derive(Drop)]
pub struct Call {
    pub method: Bytes,
    pub path: Text,
    pub body: Bytes,
}

impl Call {
    /// Borrows the parts of the call.
    pub fn parts(&self) -> CallParts<'_>
        ensures { call_of result ≡ self.now }
    {
        CallParts {
            method: self.method.as_slice(),
            path: self.path.as_str(),
            body: self.body.as_slice(),
        }
    }
}

/// A call whose parts are borrowed from where it was read.
#[derive(Clone, Copy)]
pub struct CallParts<'a> {
    pub method: &'a [u8],
    pub path: &'a str,
    pub body: &'a [u8],
}
