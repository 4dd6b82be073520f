//! Decisions of `tenant_core` that no request shows.

use crate::same::assert_same;
use std::alloc::{AllocError, Global};
use std::process::Abort;
use tenant_core::{
    CallParts, Decision, Effect, Refusal, Reply, Routes, StoreFault, decide, read_request,
    store_fault,
};

/// Decides on a request without a body to the path of tenant a, which is absent. It is a function
/// of its own since a function that holds both a request and a decision takes long to prove.
fn decided(alloc: Global, method: &str) -> Result<Option<Decision>, AllocError> {
    let routes = Routes::build(alloc)?;
    let call = CallParts {
        method: method.as_bytes(),
        path: "/t/a",
        body: b"",
    };
    match read_request(alloc, &routes, call) {
        Ok(request) => Ok(Some(decide(alloc, "a", None, None, &request.action)?)),
        Err(Refusal::Problem(_)) => Ok(None),
        Err(Refusal::NoMemory) => Err(AllocError),
    }
}

/// Splits a decision: returns whether it changes what is stored, and its reply.
fn taken_apart(decision: Decision) -> (bool, Reply) {
    let Decision { effect, reply } = decision;
    (!matches!(effect, Effect::Keep), reply)
}

/// A method, whether its decision changes what is stored, and the status and the body of its reply.
type Decided = (&'static str, bool, u16, &'static str);

const DECIDED: &[Decided] = &[
    ("PUT", true, 201, "{\"epoch\":0,\"tenant\":\"a\"}"),
    ("GET", false, 404, "{\"error\":\"no_tenant\"}"),
    ("DELETE", false, 404, "{\"error\":\"no_tenant\"}"),
];

/// Asserts that the decision is that of the row.
fn assert_decided(rt: &impl Abort, decision: Decision, row: &Decided) {
    let (method, changes, status, body) = *row;
    let (is_changed, reply) = taken_apart(decision);
    assert!(rt; is_changed == changes && reply.status == status, "{method}");
    assert!(rt; reply.body.as_str() == body, "{method}");
}

#[test]
fn an_absent_tenant_is_made_and_nothing_else_is_done_to_it(rt: HostRuntime) {
    for row in DECIDED {
        match decided(rt.alloc(), row.0).expect(&rt, "no memory") {
            Some(decision) => assert_decided(&rt, decision, row),
            None => rt.panic("the call isn't a request"),
        }
    }
}

/// A fault of a store, and the status and the body of its reply.
type Faulted = (StoreFault, u16, &'static str);

const FAULTED: &[Faulted] = &[
    (StoreFault::NoMemory, 503, ""),
    (StoreFault::Full, 503, "{\"error\":\"store_failed\"}"),
    (StoreFault::Failed, 503, "{\"error\":\"store_failed\"}"),
    (StoreFault::Damaged, 500, "{\"error\":\"store_damaged\"}"),
];

#[test]
fn a_fault_of_the_store_has_its_reply(rt: HostRuntime) {
    for (fault, status, body) in FAULTED {
        let reply = store_fault(rt.alloc(), *fault);
        assert_same(&rt, &reply.status, status);
        assert_same(&rt, &reply.body.as_str(), body);
    }
}
