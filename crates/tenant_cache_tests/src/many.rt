//! 300 tenants with maps of their own. The 257th content empties the cache, so that the cache no
//! longer knows the numbers that are kept beside tenants.

use crate::asking::{POOL, assert_that};
use crate::counted::Over;
use crate::history::{Held, accept_parts, assert_touched, is_on, new_store, placed};
use crate::touched::ALL;
use std::alloc::Global;
use std::process::Abort;
use tenant_core::TenantStore;

/// Returns the name of the tenant of the device `device`.
fn name_of(rt: &impl Abort, alloc: Global, device: u32) -> String {
    format!(in alloc; "t{device}").expect(rt, "no memory")
}

/// Makes the body of an import of a map that has only the device `device`.
fn import_of(rt: &impl Abort, alloc: Global, device: u32) -> String {
    format!(in alloc;
        "{{\"request\":\"m1\",\"text\":\"tunable choose_local_tries 0\\ntunable choose_local_fallback_tries 0\\ntunable choose_total_tries 50\\ntunable chooseleaf_descend_once 1\\ntunable chooseleaf_vary_r 1\\ntunable chooseleaf_stable 1\\ndevice {device} osd.{device}\\ntype 0 osd\\ntype 1 host\\ntype 10 root\\nroot default {{\\n id -1\\n alg uniform\\n hash 0\\n item osd.{device} weight 1.0\\n}}\\nrule all {{\\n id 0\\n type replicated\\n step take default\\n step choose firstn 0 type osd\\n step emit\\n}}\\n\"}}"
    ).expect(rt, "no memory")
}

/// Creates a tenant that has a pool of 8 groups on a map with only the device `device`.
fn make<T: TenantStore + Drop>(rt: &impl Abort, alloc: Global, held: &mut Option<T>, device: u32) {
    let tenant = format!(in alloc; "/t/t{device}").expect(rt, "no memory");
    accept_parts(rt, alloc, held, "PUT", tenant.as_str(), "");
    let maps = format!(in alloc; "/t/t{device}/maps").expect(rt, "no memory");
    let import = import_of(rt, alloc, device);
    accept_parts(rt, alloc, held, "POST", maps.as_str(), import.as_str());
    let pools = format!(in alloc; "/t/t{device}/pools").expect(rt, "no memory");
    accept_parts(rt, alloc, held, "POST", pools.as_str(), POOL);
}

/// Makes a store with 300 tenants like this.
fn with_tenants(rt: &impl Abort, alloc: Global) -> Held {
    let mut held = new_store(rt, alloc, Over::Bound, 1_024);
    for device in 0..300 {
        make(rt, alloc, &mut held, device);
    }
    held
}

/// Asserts that the first group of a tenant's pool lies on the tenant's device.
fn assert_placed<T: TenantStore>(
    rt: &impl Abort,
    alloc: Global,
    held: &mut Option<T>,
    device: i32,
) {
    let Some(store) = held else {
        return rt.abort();
    };
    let tenant = name_of(rt, alloc, device.unsigned_abs());
    let found = placed(rt, store, tenant.as_str(), 0);
    assert_that(rt, is_on(&found, device, Some(device)), tenant.as_str(), 0);
}

/// Asserts that the tenant's device can touch all groups of its pool.
fn assert_all_touched<T: TenantStore>(
    rt: &impl Abort,
    alloc: Global,
    held: &mut Option<T>,
    device: u32,
) {
    let Some(store) = held else {
        return rt.abort();
    };
    let tenant = name_of(rt, alloc, device);
    assert_touched(rt, store, tenant.as_str(), u64::from(device), &ALL);
}

#[test]
fn each_of_300_tenants_has_placements_of_its_own(rt: HostRuntime) {
    let mut held = with_tenants(&rt, rt.alloc());
    for _ in 0..2 {
        for device in 0..300 {
            assert_placed(&rt, rt.alloc(), &mut held, device);
        }
    }
}

#[test]
fn each_of_300_tenants_has_groups_of_its_own(rt: HostRuntime) {
    let mut held = with_tenants(&rt, rt.alloc());
    for _ in 0..2 {
        for device in 0..300 {
            assert_all_touched(&rt, rt.alloc(), &mut held, device);
        }
    }
}
