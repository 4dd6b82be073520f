//! Calls of `crush_hash`, `crush_map` and `crush_text`.

use crate::same::assert_same;
use crush_hash::{hash1, hash2, hash3, hash4, hash4_lanes, hash5, name_hash};
use crush_map::{
    Bucket, CrushMap, Device, Element, FaultCode, ItemId, Kind, MapFault, Rule, Step, TypeName,
    Weight, weight_from_text, weight_text,
};
use crush_text::{TextCode, TextFault, read_map, write_map};
use map_tests::drafts::{JEWEL, ONE, SOUND, Short, draft};
use std::alloc::AllocError;
use std::test::Fail;
use text_tests::texts::{DEVICE_0, map_text};

/// The hashes are those that Ceph 16's `crush_hash32` to `crush_hash32_5` and
/// `ceph_str_hash_rjenkins` answer.
#[test]
fn crush_hash_has_its_calls(rt: HostRuntime) {
    let most = u32::MAX;
    assert_same(&rt, &hash1(1), &3_574_081_617);
    assert_same(&rt, &hash2(0, 1), &91_478_055);
    assert_same(&rt, &hash3(0, most, 0), &573_963_155);
    assert_same(&rt, &hash4(0, 1, 0, most), &2_425_877_818);
    assert_same(&rt, &hash5(1, 2, 3, 4, 5), &1_262_657_953);
    assert_same(&rt, &hash4_lanes(0, &[1; 8], 0, most), &[2_425_877_818; 8]);
    assert_same(&rt, &name_hash(b""), &3_175_731_469);
    assert_same(&rt, &name_hash(b"a"), &703_514_648);
}

/// A map of the devices 0 and 3, the second of which is the item of the root.
const ONE_ITEM: Short<'static> = Short {
    buckets: &[(-1, "default", 10, Kind::Uniform, &[(3, ONE)])],
    rules: &[(0, "all", &[Step::Take(ItemId(-1)), Step::Emit])],
    ..SOUND
};

/// The same map with an item that isn't declared.
const UNDECLARED: Short<'static> = Short {
    buckets: &[(-1, "default", 10, Kind::Uniform, &[(4, ONE)])],
    ..ONE_ITEM
};

#[test]
fn crush_map_has_its_calls(rt: HostRuntime) -> Result<(), Fail> {
    let alloc = rt.alloc();
    let Ok(map) = CrushMap::check(alloc, draft(alloc, ONE_ITEM)?)? else {
        return Err(Fail::new("the draft is refused"));
    };
    let devices: &[Device] = map.devices();
    let types: &[TypeName] = map.types();
    let buckets: &[Bucket] = map.buckets();
    let rules: &[Rule] = map.rules();
    assert!(rt; devices.len() == 2 && types.len() == 4 && buckets.len() == 1 && rules.len() == 1);
    assert_same(&rt, &map.tunables(), &JEWEL);
    Ok(())
}

#[test]
fn a_draft_with_a_fault_is_given_back(rt: HostRuntime) -> Result<(), Fail> {
    let alloc = rt.alloc();
    let Err((draft, fault)) = CrushMap::check(alloc, draft(alloc, UNDECLARED)?)? else {
        return Err(Fail::new("an item that isn't declared is taken"));
    };
    let unknown = MapFault {
        code: FaultCode::M5,
        element: Element::Buckets,
        index: 0,
    };
    assert_same(&rt, &fault, &unknown);
    assert_same(&rt, &draft.buckets.as_slice().len(), &1);
    Ok(())
}

#[test]
fn weights_have_their_texts(rt: HostRuntime) -> Result<(), AllocError> {
    let alloc = rt.alloc();
    assert_same(&rt, &weight_from_text(b"0.1"), &Some(Weight(6_553)));
    assert_same(
        &rt,
        &weight_text(alloc, Weight(6_553))?.as_str(),
        &"0.10000",
    );
    Ok(())
}

/// The canonical text of the map of the device 0.
const CANONICAL: &str = "# begin crush map
tunable choose_local_tries 0
tunable choose_local_fallback_tries 0
tunable choose_total_tries 50
tunable chooseleaf_descend_once 1
tunable chooseleaf_vary_r 1
tunable chooseleaf_stable 1

# devices
device 0 osd.0

# types
type 0 osd
type 1 host
type 10 root

# buckets
root default {
\tid -1
\talg uniform
\thash 0
\titem osd.0 weight 1.00000
}

# rules
rule all {
\tid 0
\ttype replicated
\tstep take default
\tstep choose firstn 0 type osd
\tstep emit
}

# end crush map
";

/// A text with a bucket of an algorithm that isn't computed, which line 13 names.
const STRAW: &str = map_text!(
    "",
    "device 0 osd.0
type 0 osd
type 1 host
type 10 root
root default {
 id -1
 alg straw2
 hash 0
 item osd.0 weight 1.0
}
"
);

#[test]
fn crush_text_has_its_calls(rt: HostRuntime) -> Result<(), Fail> {
    let alloc = rt.alloc();
    let Ok(map) = read_map(alloc, DEVICE_0.as_bytes())? else {
        return Err(Fail::new("the text is refused"));
    };
    let text = write_map(alloc, &map)?;
    assert!(rt; text.as_slice() == CANONICAL.as_bytes());
    assert!(rt; read_map(alloc, text.as_slice())?.is_ok());
    Ok(())
}

#[test]
fn a_text_with_a_fault_has_its_line(rt: HostRuntime) -> Result<(), Fail> {
    let alloc = rt.alloc();
    let Err(fault) = read_map(alloc, STRAW.as_bytes())? else {
        return Err(Fail::new("straw2 is taken"));
    };
    let straw = TextFault {
        line: 13,
        code: TextCode::X2,
    };
    assert_same(&rt, &fault, &straw);
    Ok(())
}
