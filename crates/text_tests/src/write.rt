//! Canonical texts, byte for byte, and read again.

use crate::jewel::{CANONICAL, assert_canonical};
use crate::same::assert_same;
use crate::texts::map_text;
use crush_map::{ItemId, Kind, Step};
use crush_text::write_map;
use map_tests::drafts::{ONE, SOUND, Short, choose, draft, map_of};
use std::alloc::Global;
use std::process::Abort;
use std::test::Fail;

/// Asserts that the map of a draft is written as `text`, and that `text`, read again, as itself.
fn assert_written(
    rt: &impl Abort,
    alloc: Global,
    short: Short<'_>,
    text: &str,
) -> Result<(), Fail> {
    let written = write_map(alloc, &map_of(alloc, draft(alloc, short)?)?)?;
    assert_same(rt, &written.as_slice(), &text.as_bytes());
    assert_canonical(rt, alloc, text, text)
}

/// A map with the tunables of Jewel.
const ONE_DEVICE: Short<'static> = Short {
    types: &[(1, "host"), (0, "osd")],
    devices: &[(0, "osd.0")],
    buckets: &[(-2, "a", 1, Kind::List, &[(0, ONE)])],
    rules: &[(
        0,
        "data",
        &[
            Step::Take(ItemId(-2)),
            choose!(true, false, 0, 0),
            Step::Emit,
        ],
    )],
    ..SOUND
};

#[test]
fn a_map_with_jewels_tunables_is_written(rt: HostRuntime) -> Result<(), Fail> {
    assert_written(&rt, rt.alloc(), ONE_DEVICE, CANONICAL)
}

/// A map whose text has each kind of line.
const EACH_KIND: Short<'static> = Short {
    types: &[(0, "osd"), (10, "root"), (1, "host")],
    devices: &[(7, "x.7"), (1, "x.1")],
    buckets: &[
        (-3, "h", 1, Kind::Uniform, &[(7, 6_553), (1, 6_553)]),
        (-1, "r", 10, Kind::Tree, &[(-3, 4_294_967_295)]),
        (-65_536, "e", 10, Kind::List, &[]),
    ],
    rules: &[(
        255,
        "q",
        &[
            Step::SetChooseTries(100),
            Step::SetLeafTries(5),
            Step::SetVaryR(8),
            Step::SetStable(0),
            Step::Take(ItemId(7)),
            choose!(false, true, -2, 1),
        ],
    )],
    erasure: true,
    ..SOUND
};

/// Its canonical text.
const EACH_KIND_OF_LINE: &str = map_text!(
    "# begin crush map
",
    "
# devices
device 1 x.1
device 7 x.7

# types
type 0 osd
type 1 host
type 10 root

# buckets
host h {
\tid -3
\talg uniform
\thash 0
\titem x.7 weight 0.10000
\titem x.1 weight 0.10000
}
root r {
\tid -1
\talg tree
\thash 0
\titem h weight 65535.99999
}
root e {
\tid -65536
\talg list
\thash 0
}

# rules
rule q {
\tid 255
\ttype erasure
\tstep set_choose_tries 100
\tstep set_chooseleaf_tries 5
\tstep set_chooseleaf_vary_r 8
\tstep set_chooseleaf_stable 0
\tstep take x.7
\tstep chooseleaf indep -2 type host
}

# end crush map
"
);

#[test]
fn each_kind_of_line_is_written(rt: HostRuntime) -> Result<(), Fail> {
    assert_written(&rt, rt.alloc(), EACH_KIND, EACH_KIND_OF_LINE)
}

/// A map of straw2 buckets among others.
const STRAW2: Short<'static> = Short {
    types: &[(0, "osd"), (1, "host")],
    devices: &[(0, "osd.0")],
    buckets: &[
        (-1, "a", 1, Kind::List, &[(0, ONE)]),
        (-2, "b", 1, Kind::Straw2, &[(-1, 2_147_483_647), (0, 0)]),
        (-3, "c", 1, Kind::Straw2, &[]),
    ],
    ..SOUND
};

/// Its canonical text, which asks for straw2 by its first line.
const WITH_THE_MARK: &str = map_text!(
    "# crushcalc: straw2
# begin crush map
",
    "
# devices
device 0 osd.0

# types
type 0 osd
type 1 host

# buckets
host a {
\tid -1
\talg list
\thash 0
\titem osd.0 weight 1.00000
}
host b {
\tid -2
\talg straw2
\thash 0
\titem a weight 32767.99999
\titem osd.0 weight 0.00000
}
host c {
\tid -3
\talg straw2
\thash 0
}

# rules

# end crush map
"
);

#[test]
fn a_map_with_straw2_buckets_is_written_behind_the_mark(rt: HostRuntime) -> Result<(), Fail> {
    assert_written(&rt, rt.alloc(), STRAW2, WITH_THE_MARK)
}

/// A text that asks for straw2, and whose map has none, is written without the mark.
#[test]
fn a_mark_that_is_not_needed_is_not_written(rt: HostRuntime) -> Result<(), Fail> {
    let mut text = String::new(rt.alloc());
    text.push_str("# crushcalc: straw2\n")?;
    text.push_str(CANONICAL)?;
    assert_canonical(&rt, rt.alloc(), text.as_str(), CANONICAL)
}
