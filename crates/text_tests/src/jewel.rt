//! A map that crushtool and this library write, and what it is with one device more.

use crate::same::assert_same;
use crate::texts::{map_of, map_text};
use crush_text::write_map;
use std::alloc::Global;
use std::process::Abort;
use std::test::Fail;

/// The text as crushtool writes it: with two tunables, a class, sizes and remarks that are dropped.
pub(crate) const WRITTEN_BY_CRUSHTOOL: &str = map_text!(
    "# begin crush map
",
    "tunable straw_calc_version 1
tunable allowed_bucket_algs 54

# devices
device 0 osd.0 class ssd

# types
type 0 osd
type 1 host

# buckets
host a {
\tid -2\t\t# do not change unnecessarily
\tid -4 class ssd\t\t# do not change unnecessarily
\t# weight 1.000
\talg list\t# add new items at the end; do not change order unnecessarily
\thash 0\t# rjenkins1
\titem osd.0 weight 1.000
}

# rules
rule data {
\tid 0
\ttype replicated
\tmin_size 1
\tmax_size 10
\tstep take a
\tstep choose firstn 0 type osd
\tstep emit
}

# end crush map
"
);

/// The canonical text, with a line for a further device and one for a further item.
macro_rules! canonical_text {
    ($device:literal, $item:literal) => {
        map_text!(
            "# begin crush map
",
            "
# devices
device 0 osd.0
",
            $device,
            "
# types
type 0 osd
type 1 host

# buckets
host a {
\tid -2
\talg list
\thash 0
\titem osd.0 weight 1.00000
",
            $item,
            "}

# rules
rule data {
\tid 0
\ttype replicated
\tstep take a
\tstep choose firstn 0 type osd
\tstep emit
}

# end crush map
"
        )
    };
}

/// The canonical text of the same map.
pub(crate) const CANONICAL: &str = canonical_text!("", "");

/// The canonical text of a map with two devices.
pub(crate) const TWO_DEVICES: &str = canonical_text!(
    "device 1 osd.1\n",
    "\titem osd.1 weight 2.00000\n"
);

/// Asserts that a text is read, and written as the text `canonical`.
pub(crate) fn assert_canonical(
    rt: &impl Abort,
    alloc: Global,
    text: &str,
    canonical: &str,
) -> Result<(), Fail> {
    let written = write_map(alloc, &map_of(alloc, text)?)?;
    assert_same(rt, &written.as_slice(), &canonical.as_bytes());
    Ok(())
}

#[test]
fn a_text_of_crushtool_is_written_as_its_canonical_text(rt: HostRuntime) -> Result<(), Fail> {
    let alloc = rt.alloc();
    assert_canonical(&rt, alloc, WRITTEN_BY_CRUSHTOOL, CANONICAL)?;
    assert_canonical(&rt, alloc, CANONICAL, CANONICAL)
}
