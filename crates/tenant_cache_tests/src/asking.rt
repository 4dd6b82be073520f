//! Requests, and assertions about their replies.

use std::num::NonZeroUsize;
use std::process::Abort;
use tenant_core::{CallParts, Reply, TenantStore};
use tenant_service::Service;

/// The body of an import of a map that has only the device `$device`.
macro_rules! import_of {
    ($device:literal) => {
        concat!(
            "{\"request\":\"m1\",\"text\":\"tunable choose_local_tries 0\\ntunable choose_local_fallback_tries 0\\ntunable choose_total_tries 50\\ntunable chooseleaf_descend_once 1\\ntunable chooseleaf_vary_r 1\\ntunable chooseleaf_stable 1\\ndevice ",
            $device,
            " osd.",
            $device,
            "\\ntype 0 osd\\ntype 1 host\\ntype 10 root\\nroot default {\\n id -1\\n alg uniform\\n hash 0\\n item osd.",
            $device,
            " weight 1.0\\n}\\nrule all {\\n id 0\\n type replicated\\n step take default\\n step choose firstn 0 type osd\\n step emit\\n}\\n\"}"
        )
    };
}

/// An import of a map with the device 0.
pub(crate) const IMPORT: &str = import_of!(0);

/// An import of a map with the device 9.
pub(crate) const IMPORT_OF_9: &str = import_of!(9);

/// The body that adds a pool by the map's rule.
pub(crate) const POOL: &str =
    "{\"request\":\"p1\",\"id\":1,\"name\":\"p\",\"kind\":\"replicated\",\"size\":1,\"rule\":0,\"pg_num\":8,\"pgp_num\":8,\"hashpspool\":true}";

/// The body that takes the device 0 down.
pub(crate) const DOWN: &str = "{\"request\":\"d1\",\"devices\":[{\"id\":0,\"up\":false}]}";

/// A method, a path and a body.
pub(crate) type Asked = (&'static str, &'static str, &'static str);

/// Returns `placements` as a number that isn't 0.
pub(crate) fn room_for(rt: &impl Abort, placements: usize) -> NonZeroUsize {
    match NonZeroUsize::new(placements) {
        Some(placements) => placements,
        None => rt.abort(),
    }
}

/// Serves a request and returns the reply.
pub(crate) fn ask<T: TenantStore>(service: &mut Service<T>, asked: &Asked) -> Reply {
    let (method, path, body) = *asked;
    service.request(CallParts {
        method: method.as_bytes(),
        path,
        body: body.as_bytes(),
    })
}

/// Asserts that a number is the expected one after a request. The text of each `assert_eq!` is
/// proved where it is written; a call takes a fraction of that time.
pub(crate) fn assert_count(rt: &impl Abort, asked: &Asked, count: u64, expected: u64) {
    assert_eq!(rt; count, expected, "{} {}", asked.0, asked.1);
}

/// Asserts that something holds of the case that `name` and `number` name.
pub(crate) fn assert_that(rt: &impl Abort, holds: bool, name: &str, number: u64) {
    assert!(rt; holds, "{name} {number}");
}
