//! Bodies of imports of small maps.

/// The body of an import under the request number `$number`, of a map with one device and a rule 0
/// that chooses by the step `$step`.
macro_rules! import {
    ($number:literal, $device:literal, $step:literal) => {
        concat!(
            "{\"request\":\"",
            $number,
            "\",\"text\":\"tunable choose_local_tries 0\\ntunable choose_local_fallback_tries 0\\ntunable choose_total_tries 50\\ntunable chooseleaf_descend_once 1\\ntunable chooseleaf_vary_r 1\\ntunable chooseleaf_stable 1\\ndevice ",
            $device,
            " osd.",
            $device,
            "\\ntype 0 osd\\ntype 1 host\\ntype 10 root\\nroot default {\\n id -1\\n alg uniform\\n hash 0\\n item osd.",
            $device,
            " weight 1.0\\n}\\nrule all {\\n id 0\\n type replicated\\n step take default\\n step ",
            $step,
            "\\n step emit\\n}\\n\"}"
        )
    };
}

/// An import of a map with the device 0.
pub const FIRST: &str = import!("m1", 0, "choose firstn 0 type osd");

/// An import of a map with the device 3, whose rule chooses two items in their places.
pub const SECOND: &str = import!("m2", 3, "choose indep 2 type osd");

/// The second map under the request number of the first import.
pub const OTHER: &str = import!("m1", 3, "choose indep 2 type osd");
