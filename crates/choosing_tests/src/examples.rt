//! Worked examples of rules on maps of seven devices.

use crate::drafts::{JEWEL, ONE, SOUND, Short, ShortBucket, choose, draft};
use crate::rules::{LEGACY, TAKE, ask};
use Kind::{List, Uniform};
use crush_choose::Slot;
use crush_map::{ItemId, Kind, Step, Tunables};
use std::test::Fail;

/// A rule on a map of seven devices, and what it answers for each of the inputs below `inputs`.
#[derive(Clone, Copy)]
pub(crate) struct Example<'a> {
    pub(crate) buckets: &'a [ShortBucket<'a>],
    pub(crate) tunables: Tunables,
    pub(crate) steps: &'a [Step],
    pub(crate) reweights: &'a [(u32, u32)],
    pub(crate) size: u32,
    pub(crate) inputs: u32,
    pub(crate) items: &'a [Slot],
    pub(crate) trace: &'a [u32],
}

pub(crate) const NOTHING: Example<'static> = Example {
    buckets: &[],
    tunables: JEWEL,
    steps: &[],
    reweights: &[],
    size: 1,
    inputs: 1_000,
    items: &[],
    trace: &[],
};

const ONE_DEVICE: Example<'static> = Example {
    buckets: &[(-1, "root", 10, Uniform, &[(3, ONE)])],
    ..NOTHING
};

const EMPTY_HOST: Example<'static> = Example {
    buckets: &[
        (-2, "host", 1, List, &[]),
        (-1, "root", 10, List, &[(-2, 0)]),
    ],
    ..NOTHING
};

/// A host of no weight, which is never chosen.
const LIGHT_HOST: Example<'static> = Example {
    buckets: &[
        (-2, "host", 1, List, &[(0, ONE)]),
        (-3, "light", 1, List, &[(1, ONE)]),
        (-1, "root", 10, List, &[(-2, ONE), (-3, 0)]),
    ],
    steps: &[TAKE, choose!(true, true, 2, 1), Step::Emit],
    size: 2,
    items: &[Some(ItemId(0))],
    trace: &[0],
    ..NOTHING
};

/// Hosts of one device each, and a root of the hosts -2 and -3 of which the second has no weight,
/// so that it is never chosen.
const SINGLE_HOSTS: Example<'static> = Example {
    buckets: &[
        (-1, "first", 1, Uniform, &[(0, ONE)]),
        (-2, "second", 1, List, &[(1, ONE)]),
        (-3, "light", 1, List, &[(2, ONE)]),
        (-4, "root", 10, List, &[(-2, ONE), (-3, 0)]),
    ],
    ..NOTHING
};

/// A leaf of indep starts from the attempt of its bucket: an even attempt for the leaf picks device
/// 1, which is out, and an odd one device 0.
const LEAVES: Example<'static> = Example {
    buckets: &[
        (-1, "host", 1, Uniform, &[(0, ONE), (1, ONE)]),
        (-2, "root", 10, List, &[(-1, ONE)]),
    ],
    steps: &[
        Step::Take(ItemId(-2)),
        choose!(false, true, 0, 1),
        Step::Emit,
    ],
    reweights: &[(1, 0)],
    inputs: 1,
    ..NOTHING
};

const EXAMPLES: &[Example] = &[
    Example {
        buckets: &[(-1, "root", 10, Uniform, &[(0, ONE), (1, ONE)])],
        steps: &[TAKE, choose!(true, false, 0, 0), Step::Emit],
        reweights: &[(0, 0)],
        size: 2,
        items: &[Some(ItemId(1))],
        trace: &[1],
        ..NOTHING
    },
    Example {
        steps: &[TAKE, choose!(false, false, 2, 0), Step::Emit],
        size: 2,
        items: &[Some(ItemId(3)), None],
        trace: &[3],
        ..ONE_DEVICE
    },
    Example {
        steps: &[TAKE, choose!(true, false, 1, 3), Step::Emit],
        ..ONE_DEVICE
    },
    Example {
        steps: &[TAKE, choose!(false, false, 1, 3), Step::Emit],
        items: &[None],
        ..ONE_DEVICE
    },
    Example {
        steps: &[TAKE, choose!(true, false, 1, 0), Step::Emit],
        ..EMPTY_HOST
    },
    Example {
        steps: &[TAKE, choose!(false, false, 1, 0), Step::Emit],
        items: &[None],
        ..EMPTY_HOST
    },
    LIGHT_HOST,
    Example {
        tunables: LEGACY,
        ..LIGHT_HOST
    },
    // devices that are taken are emitted without a trace
    Example {
        steps: &[Step::Take(ItemId(5)), Step::Emit],
        items: &[Some(ItemId(5))],
        ..NOTHING
    },
    Example {
        steps: &[
            Step::Take(ItemId(5)),
            Step::Emit,
            Step::Take(ItemId(6)),
            Step::Emit,
        ],
        items: &[Some(ItemId(5))],
        ..NOTHING
    },
    Example {
        size: 3,
        items: &[Some(ItemId(0)), None, None],
        trace: &[0],
        ..LEAVES
    },
    Example {
        size: 2,
        items: &[None, None],
        ..LEAVES
    },
    Example {
        steps: &[
            Step::SetLeafTries(2),
            Step::Take(ItemId(-2)),
            choose!(false, true, 0, 1),
            Step::Emit,
        ],
        size: 2,
        items: &[Some(ItemId(0)), None],
        trace: &[0],
        ..LEAVES
    },
    // a leaf that doesn't descend once has as many tries as are set for items, here one, and not
    // those of the map's tunables
    Example {
        tunables: LEGACY,
        steps: &[
            Step::SetChooseTries(1),
            Step::Take(ItemId(-2)),
            choose!(true, true, 1, 1),
            Step::Emit,
        ],
        ..LEAVES
    },
    Example {
        tunables: LEGACY,
        steps: &[
            Step::SetChooseTries(2),
            Step::Take(ItemId(-2)),
            choose!(true, true, 1, 1),
            Step::Emit,
        ],
        items: &[Some(ItemId(0))],
        trace: &[0],
        ..LEAVES
    },
    // a choose step passes over a device of the working list
    Example {
        steps: &[
            Step::Take(ItemId(0)),
            choose!(true, false, 1, 0),
            Step::Emit,
        ],
        ..NOTHING
    },
    // device 0 of the first choose step is dropped by the second take, and stays in the trace
    Example {
        steps: &[
            TAKE,
            choose!(true, false, 1, 0),
            Step::Take(ItemId(-4)),
            choose!(true, false, 2, 1),
            choose!(true, false, 1, 0),
            Step::Emit,
        ],
        size: 2,
        items: &[Some(ItemId(1))],
        trace: &[0, 1],
        ..SINGLE_HOSTS
    },
    // device 1 is dropped where the third choose step passes over it
    Example {
        steps: &[
            TAKE,
            choose!(true, false, 1, 0),
            Step::Emit,
            Step::Take(ItemId(-4)),
            choose!(true, true, 1, 1),
            choose!(true, false, 1, 0),
            Step::Emit,
        ],
        size: 2,
        items: &[Some(ItemId(0))],
        trace: &[0, 1],
        ..SINGLE_HOSTS
    },
];

pub(crate) const SEVEN: &[(u32, &str)] = &[
    (0, "osd.0"),
    (1, "osd.1"),
    (2, "osd.2"),
    (3, "osd.3"),
    (4, "osd.4"),
    (5, "osd.5"),
    (6, "osd.6"),
];

#[test]
fn rules_answer_the_worked_examples(rt: HostRuntime) -> Result<(), Fail> {
    let alloc = rt.alloc();
    for example in EXAMPLES {
        let short = Short {
            devices: SEVEN,
            buckets: example.buckets,
            rules: &[(0, "rule", example.steps)],
            tunables: example.tunables,
            ..SOUND
        };
        ask(
            &rt,
            alloc,
            draft(alloc, short)?,
            example.reweights,
            example.size,
            example.inputs,
            Some((example.items, example.trace)),
        )?;
    }
    Ok(())
}
