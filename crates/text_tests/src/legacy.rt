//! Maps whose texts name the local tunables alone, and their canonical texts.

use crate::jewel::assert_canonical;
use std::alloc::{AllocError, Global};
use std::test::Fail;

/// Makes a text of two types and three devices, with the buckets and rules of `rest`.
fn text(alloc: Global, rest: &str) -> Result<String, AllocError> {
    format!(in alloc;
        "tunable choose_local_tries 0 tunable choose_local_fallback_tries 0 type 0 osd type 1 host device 0 a device 1 b device 2 c {rest}"
    )
}

/// Makes the canonical text of a map of two types and three devices: the tunables that aren't named
/// have their legacy values.
fn canonical(alloc: Global, buckets: &str, rules: &str) -> Result<String, AllocError> {
    format!(in alloc;
        "# begin crush map
tunable choose_local_tries 0
tunable choose_local_fallback_tries 0
tunable choose_total_tries 19
tunable chooseleaf_descend_once 0
tunable chooseleaf_vary_r 0
tunable chooseleaf_stable 0

# devices
device 0 a
device 1 b
device 2 c

# types
type 0 osd
type 1 host

# buckets
{buckets}
# rules
{rules}
# end crush map
"
    )
}

/// The host h with the given items.
macro_rules! host {
    ($($item:literal)*) => {
        concat!("host h {\n\tid -1\n\talg list\n\thash 0\n", $("\titem ", $item, "\n",)* "}\n")
    };
}

/// A rule with one step as often as a rule may have steps, between what is before and after it.
macro_rules! rule {
    ($before:literal, $step:literal, $behind:literal) => {
        concat!(
            $before, $step, $step, $step, $step, $step, $step, $step, $step, $step, $step, $step,
            $step, $step, $step, $step, $step, $step, $step, $step, $step, $step, $step, $step,
            $step, $step, $step, $step, $step, $step, $step, $step, $step, $behind
        )
    };
}

/// What stands in a text, and the buckets and rules of its canonical text.
const ROWS: &[(&str, &str, &str)] = &[
    ("", "", ""),
    // the items that name no place take those that no item names, in order
    (
        "host h { id -1 alg list item a item b pos 1 item c }",
        host!("a weight 1.00000" "b weight 1.00000" "c weight 1.00000"),
        "",
    ),
    (
        "host h { id -1 alg list item a pos 2 item b item c }",
        host!("b weight 1.00000" "c weight 1.00000" "a weight 1.00000"),
        "",
    ),
    (
        "host h { id -1 alg list item a item b pos 0 }",
        host!("b weight 1.00000" "a weight 1.00000"),
        "",
    ),
    // the sum of no weights is 0
    (
        "host h { id -1 alg list } host g { id -2 alg list item h item a }",
        concat!(
            "host h {\n\tid -1\n\talg list\n\thash 0\n}\n",
            "host g {\n\tid -2\n\talg list\n\thash 0\n\titem h weight 0.00000\n\titem a weight 1.00000\n}\n"
        ),
        "",
    ),
    // an id with a class is dropped, whatever it is
    (
        "host h { id 5 class ssd id -1 id -9999999999 class hdd alg list }",
        host!(),
        "",
    ),
    // a step that is dropped isn't counted
    (
        rule!(
            "rule q { id 0 type erasure ",
            "step emit ",
            "step set_choose_local_tries 0 }"
        ),
        "",
        rule!("rule q {\n\tid 0\n\ttype erasure\n", "\tstep emit\n", "}\n"),
    ),
];

#[test]
fn a_text_is_written_as_the_map_that_it_says(rt: HostRuntime) -> Result<(), Fail> {
    let alloc = rt.alloc();
    for (rest, buckets, rules) in ROWS {
        let text = text(alloc, rest)?;
        let canonical = canonical(alloc, buckets, rules)?;
        assert_canonical(&rt, alloc, &text, &canonical)?;
    }
    Ok(())
}
