//! Orders that are accepted.

use serde_json::Value;
use tenant_messages::SuccessStatus;
use tenant_state::Product;

/// An order that is accepted: what it makes, and the status and the body of its reply.
#[derive(Drop)]
pub struct Acceptance {
    pub made: Product,
    pub status: SuccessStatus,
    pub body: Value,
}
