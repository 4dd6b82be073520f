//! Calls with their replies: some that several tests make, and the calls that compare. A crate
//! below others can't end a failed test itself, so a difference is an error, with which the test
//! ends.

use crate::imports::FIRST;
use crush_map::Text;
use std::alloc::{AllocError, Global};
use tenant_core::{Bytes, Call, CallParts, Reply, TenantStore};
use tenant_service::{MemoryStore, Service};

/// A method, a path and a body, and the status and the body of the reply that the rules of requests
/// give them.
pub type Row = (&'static str, &'static str, &'static str, u16, &'static str);

pub const CREATION_OF_A: Row = ("PUT", "/t/a", "", 201, "{\"epoch\":0,\"tenant\":\"a\"}");

/// The first import of tenant a.
pub const IMPORT_BY_A: Row = (
    "POST",
    "/t/a/maps",
    FIRST,
    201,
    "{\"epoch\":1,\"version\":1}",
);

/// How replies differ from their rows, or why they weren't compared.
#[derive(Debug, Drop)]
pub enum Mismatch {
    /// An allocation failed.
    NoMemory,
    /// There are this many replies, and not one for each call.
    Replies(usize),
    /// The reply to this method and path has this status; status or body isn't that of the row.
    Reply(&'static str, &'static str, u16),
}

impl From<AllocError> for Mismatch {
    fn from(_: AllocError) -> Mismatch {
        Mismatch::NoMemory
    }
}

/// Compares a reply with its row. `Err(Mismatch::Reply)`: they differ. Allocates nothing.
pub fn check_reply(reply: &Reply, row: &Row) -> Result<(), Mismatch> {
    let (method, path, _, status, body) = *row;
    if reply.status == status && reply.body.as_str() == body {
        Ok(())
    } else {
        Err(Mismatch::Reply(method, path, reply.status))
    }
}

/// Serves the requests of `rows` one after the other, and compares each reply with its row.
/// `Err(Mismatch::Reply)`: a reply differs.
pub fn check_requests<T: TenantStore>(
    service: &mut Service<T>,
    rows: &[Row],
) -> Result<(), Mismatch> {
    for row in rows {
        let (method, path, body, _, _) = *row;
        let reply = service.request(CallParts {
            method: method.as_bytes(),
            path,
            body: body.as_bytes(),
        });
        check_reply(&reply, row)?;
    }
    Ok(())
}

/// Makes the calls of `rows`. `Err(AllocError)`: an allocation failed.
pub fn calls_of(alloc: Global, rows: &[Row]) -> Result<Vec<Call>, AllocError> {
    let mut calls = Vec::new(alloc);
    for (method, path, body, _, _) in rows {
        calls.push(Call {
            method: Bytes::new(Vec::from_slice(alloc, method.as_bytes())?),
            path: Text::copy(alloc, path)?,
            body: Bytes::new(Vec::from_slice(alloc, body.as_bytes())?),
        })?;
    }
    Ok(calls)
}

/// Runs the calls of `rows` on a service without a tenant, and compares the replies with the rows.
/// `Err`: a reply differs or is missing, or an allocation failed.
pub fn check_run(alloc: Global, rows: &[Row]) -> Result<(), Mismatch> {
    let calls = calls_of(alloc, rows)?;
    let replies = Service::in_memory(alloc)?.run(&calls)?;
    if replies.len() != rows.len() {
        return Err(Mismatch::Replies(replies.len()));
    }
    for (reply, row) in replies.iter().zip(rows) {
        check_reply(reply, row)?;
    }
    Ok(())
}

/// Counts the tenants that are there, if they are the first ones of a, b and c and the replies for
/// the others are 404; else returns `None`.
pub fn created(service: &mut Service<MemoryStore>) -> Option<usize> {
    let mut count = 0usize;
    for (place, path) in ["/t/a", "/t/b", "/t/c"].into_iter().enumerate() {
        let reply = service.request(CallParts {
            method: b"GET",
            path,
            body: b"",
        });
        match reply.status {
            200 if count == place => count = place.saturating_add(1),
            404 => {}
            _ => return None,
        }
    }
    Some(count)
}
