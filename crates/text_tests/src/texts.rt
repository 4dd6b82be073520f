//! Texts of maps with the tunables of Jewel.

use crush_map::CrushMap;
use crush_text::read_map;
use std::alloc::Global;
use std::test::Fail;

/// A text from what precedes its tunables on.
#[macro_export]
macro_rules! map_text {
    ($begin:literal, $($rest:literal),*) => {
        concat!(
            $begin,
            "tunable choose_local_tries 0
tunable choose_local_fallback_tries 0
tunable choose_total_tries 50
tunable chooseleaf_descend_once 1
tunable chooseleaf_vary_r 1
tunable chooseleaf_stable 1
",
            $($rest),*
        )
    };
}

pub use crate::map_text;

/// A text of 23 lines: a map of one device, which is the one item of its root.
macro_rules! one_device {
    ($id:literal) => {
        map_text!(
            "",
            "device ",
            $id,
            " osd.",
            $id,
            "
type 0 osd
type 1 host
type 10 root
root default {
 id -1
 alg uniform
 hash 0
 item osd.",
            $id,
            " weight 1.0
}
rule all {
 id 0
 type replicated
 step take default
 step choose firstn 0 type osd
 step emit
}
"
        )
    };
}

/// A map of the device 0.
pub const DEVICE_0: &str = one_device!(0);

/// A map of the device 7.
pub const DEVICE_7: &str = one_device!(7);

/// Reads the map of a text without a fault.
pub fn map_of(alloc: Global, text: &str) -> Result<CrushMap, Fail> {
    match read_map(alloc, text.as_bytes())? {
        Ok(map) => Ok(map),
        Err(_) => Err(Fail::new("the text is refused")),
    }
}
