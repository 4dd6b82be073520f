//! Pools on maps, and asking a cache for the placements of their groups.

ghost use Rattle.std.specs.Prelude.{◌≡◌, IfOk, true};
ghost use Rattle.crush_text.specs.crush_writing.specs.Canonical.{canonical};
ghost use Rattle.crush_pool.specs.Exceptions.{are_pairs};
ghost use Rattle.crush_cache.specs.Caches.{KeepsNumbers, WasNumberOf};
ghost use Rattle.crush_pool.specs.Contents.{content_of};
ghost use Rattle.crush_choose.specs.Weights.{weights_of};
ghost use Rattle.crush_pool.specs.States.{flags_of, reweights};

use crate::same::assert_same;
use crush_bucket::Tables;
use crush_cache::PlacementCache;
use crush_choose::{Slot, Weights};
use crush_map::{CrushMap, ItemId, Text};
use crush_pool::{
    Content, DeviceState, DeviceStates, Exceptions, Pair, Placement, Placer, Pool, PoolFault,
    PoolParts, SharedExceptions, SharedStates, SharedText, reweights_of,
};
use crush_text::write_map;
use std::alloc::{AllocError, Global};
use std::num::NonZeroUsize;
use std::process::Abort;
use std::rc::Rc;
use std::test::Fail;
use text_tests::texts::map_of;

/// What a group is asked of: a map of one device, with its state if it has one, and a pool of 12
/// groups.
#[derive(Clone, Copy)]
pub(crate) struct Asked {
    /// The id of the map's device.
    pub(crate) device: u32,
    /// Whether the map's text is long: it then has devices too that are in no bucket.
    pub(crate) is_long: bool,
    /// The state of the device.
    pub(crate) state: Option<(u32, bool)>,
    /// The id of the pool.
    pub(crate) pool: u32,
    /// The name of the pool.
    pub(crate) name: &'static str,
    /// Whether the pool is erasure coded.
    pub(crate) erasure: bool,
    /// The exceptions of the pool.
    pub(crate) pairs: &'static [Pair],
}

/// The device 0, without a state, on a map with a short text, and the pool 1. Its group g has the
/// seed g + 1.
pub(crate) const FIRST: Asked = Asked {
    device: 0,
    is_long: false,
    state: None,
    pool: 1,
    name: "rbd",
    erasure: false,
    pairs: &[],
};

/// The same on a map with a long text.
pub(crate) const LONG: Asked = Asked {
    is_long: true,
    ..FIRST
};

/// Makes declarations of the devices with the ids from 1,000 on below `end`, with names of 64
/// bytes: some 77,000 bytes below 2,000.
fn devices(alloc: Global, end: u32) -> Result<String, Fail> {
    let mut text = String::new(alloc);
    for id in 1_000..end {
        write!(text, "device {id} device-{id:057}\n")?;
    }
    Ok(text)
}

/// Makes a map whose rule 0 takes one device.
fn map_with(alloc: Global, device: u32, is_long: bool) -> Result<CrushMap, Fail> {
    let others = devices(alloc, if is_long { 2_000 } else { 1_000 })?;
    let text = format!(in alloc;
        "tunable choose_local_tries 0
tunable choose_local_fallback_tries 0
tunable choose_total_tries 50
tunable chooseleaf_descend_once 1
tunable chooseleaf_vary_r 1
tunable chooseleaf_stable 1
device {device} osd.{device}
{others}type 0 osd
type 1 host
type 10 root
root default {{
 id -1
 alg uniform
 hash 0
 item osd.{device} weight 1.0
}}
rule all {{
 id 0
 type replicated
 step take default
 step choose firstn 0 type osd
 step emit
}}
"
    )?;
    map_of(alloc, text.as_str())
}

/// Makes the states of devices.
fn states_of(alloc: Global, asked: &Asked) -> Result<Vec<DeviceState>, AllocError> {
    let mut states = Vec::new(alloc);
    if let Some((reweight, up)) = asked.state {
        states.push(DeviceState {
            device: asked.device,
            reweight,
            up,
        })?;
    }
    Ok(states)
}

/// Makes the pool.
fn pool_of(rt: &impl Abort, alloc: Global, asked: &Asked) -> Result<Pool, Fail> {
    let parts = PoolParts {
        id: asked.pool,
        name: Text::copy(alloc, asked.name)?,
        erasure: asked.erasure,
        size: 1,
        rule: 0,
        pg_num: 12,
        pgp_num: 12,
        hashpspool: false,
    };
    match Pool::new(parts) {
        Ok(pool) => Ok(pool),
        Err(_) => rt.abort(),
    }
}

/// Makes the exceptions of the pool.
fn exceptions_of(
    rt: &impl Abort,
    alloc: Global,
    pool: &Pool,
    pairs: &[Pair],
) -> Result<SharedExceptions, Fail>
    ensures { IfOk result (λ exceptions. are_pairs pool.now.pg_num exceptions ≡ true) }
{
    let mut list = Vec::with_capacity(alloc, pairs.len())?;
    for pair in pairs {
        list.push(*pair)?;
    }
    match Exceptions::new(alloc, pool, list)? {
        Ok(exceptions) => Ok(SharedExceptions::new(alloc, exceptions)?),
        Err(_) => rt.abort(),
    }
}

/// Writes the canonical text of a map.
fn text_of(rt: &impl Abort, alloc: Global, map: &CrushMap) -> Result<SharedText, AllocError>
    ensures { IfOk result (λ text. text ≡ canonical map.now) }
{
    match String::from_utf8(write_map(alloc, map)?) {
        Ok(text) => SharedText::new(text),
        Err(_) => rt.abort(),
    }
}

/// Makes a cache for `capacity` placements.
pub(crate) fn cache_for(rt: &impl Abort, alloc: Global, capacity: usize) -> PlacementCache {
    let room = NonZeroUsize::new(capacity).expect(rt, "no room");
    PlacementCache::new(alloc, room).expect(rt, "no memory")
}

/// How a cache is asked.
#[derive(Clone, Copy, PartialEq, Eq)]
pub(crate) enum How {
    /// By the content.
    ByContent,
    /// By the number of the content, after the given number of other contents were given numbers.
    ByNumber(u32),
}

/// The placement of a group, and the number of its content.
pub(crate) type Answer = (Result<Rc<Placement>, PoolFault>, u64);

/// Returns the number that a cache gives to a content.
fn number_of(rt: &impl Abort, cache: &mut PlacementCache, content: &Content) -> u64
    ensures number { WasNumberOf cache.new result content.now }
    ensures kept { KeepsNumbers cache.old cache.new }
{
    let Ok(again) = content.share() else {
        return rt.abort();
    };
    match cache.number_of(again) {
        Some(number) => number,
        None => rt.abort(),
    }
}

/// Asks a cache for the placement of a group of a placer, which has the content `content`.
fn answer_of(
    rt: &impl Abort,
    alloc: Global,
    cache: &mut PlacementCache,
    placer: &Placer<'_>,
    content: &Content,
    group: u32,
    how: How,
) -> Result<Answer, Fail>
    requires { content.now ≡ content_of placer.now }
{
    match how {
        How::ByContent => {
            let answer = cache.place(placer, content, group)?;
            Ok((answer, number_of(rt, cache, content)))
        }
        How::ByNumber(others) => {
            let number = number_of(rt, cache, content);
            give_numbers(rt, alloc, cache, others)?;
            Ok((cache.place_known(number, placer, group)?, number))
        }
    }
}

/// The states of a device, with what a placer reads of them.
#[derive(Drop)]
struct Given {
    states: SharedStates,
    weights: Weights,
    flags: DeviceStates,
}

/// Makes the states that are asked with.
fn given_of(alloc: Global, asked: &Asked) -> Result<Given, AllocError>
    ensures weights { IfOk result (λ given. given.weights ≡ weights_of (reweights given.states)) }
    ensures flags { IfOk result (λ given. given.flags ≡ flags_of given.states) }
{
    let states = SharedStates::new(states_of(alloc, asked)?)?;
    let weights = Weights::of(alloc, &reweights_of(alloc, states.as_slice())?)?;
    let flags = DeviceStates::build(alloc, states.as_slice())?;
    Ok(Given {
        states,
        weights,
        flags,
    })
}

/// Makes the content that a placement depends on.
fn content_with(
    rt: &impl Abort,
    alloc: Global,
    map: &CrushMap,
    states: &SharedStates,
    pool: &Rc<Pool>,
    exceptions: &SharedExceptions,
) -> Result<Content, AllocError>
    ensures { IfOk result (λ content. content ≡ record { text = canonical map.now; states = states.now; pool = pool.now.value; pairs = exceptions.now }) }
{
    let text = text_of(rt, alloc, map)?;
    Content::new(&text, states, pool, exceptions)
}

/// Asks a cache for the placement of a group by what was made for it.
fn ask_with(
    rt: &impl Abort,
    alloc: Global,
    cache: &mut PlacementCache,
    map: &CrushMap,
    given: &Given,
    pool: &Rc<Pool>,
    exceptions: &SharedExceptions,
    group: u32,
    how: How,
) -> Result<Answer, Fail>
    requires weights { given.now.weights ≡ weights_of (reweights given.now.states) }
    requires flags { given.now.flags ≡ flags_of given.now.states }
    requires pairs { are_pairs pool.now.value.pg_num exceptions.now ≡ true }
{
    let content = content_with(rt, alloc, map, &given.states, pool, exceptions)?;
    let tables = Tables::build(alloc, map)?;
    match Placer::new(
        map,
        &tables,
        given.states.as_slice(),
        &given.weights,
        &given.flags,
        pool,
        exceptions.exceptions(),
    ) {
        Some(placer) => answer_of(rt, alloc, cache, &placer, &content, group, how),
        None => rt.abort(),
    }
}

/// Asks a cache for the placement of a group. All that is needed is made anew each time. `Err`: an
/// allocation failed.
fn try_to_ask(
    rt: &impl Abort,
    alloc: Global,
    cache: &mut PlacementCache,
    asked: &Asked,
    group: u32,
    how: How,
) -> Result<Answer, Fail> {
    let given = given_of(alloc, asked)?;
    let map = map_with(alloc, asked.device, asked.is_long)?;
    let pool = Rc::new(alloc, pool_of(rt, alloc, asked)?)?;
    let exceptions = exceptions_of(rt, alloc, &pool, asked.pairs)?;
    ask_with(
        rt,
        alloc,
        cache,
        &map,
        &given,
        &pool,
        &exceptions,
        group,
        how,
    )
}

/// Asks as `try_to_ask` does, where there is memory for it.
pub(crate) fn ask(
    rt: &impl Abort,
    alloc: Global,
    cache: &mut PlacementCache,
    asked: &Asked,
    group: u32,
    how: How,
) -> Answer {
    match try_to_ask(rt, alloc, cache, asked, group, how) {
        Ok(answer) => answer,
        Err(_) => rt.abort(),
    }
}

/// Gives numbers to `count` contents, which have a text that is no map's.
pub(crate) fn give_numbers(
    rt: &impl Abort,
    alloc: Global,
    cache: &mut PlacementCache,
    count: u32,
) -> Result<(), Fail>
    ensures { KeepsNumbers cache.old cache.new }
{
    for pool in 0..count {
        let asked = Asked {
            pool: pool + 1,
            ..FIRST
        };
        let text = SharedText::new(String::from_str(alloc, "other")?)?;
        let states = SharedStates::new(Vec::new(alloc))?;
        let pool = Rc::new(alloc, pool_of(rt, alloc, &asked)?)?;
        let exceptions = SharedExceptions::new(alloc, Exceptions::none(alloc)?)?;
        let content = Content::new(&text, &states, &pool, &exceptions)?;
        number_of(rt, cache, &content);
    }
    Ok(())
}

/// Asserts that a placement is that of the group with a seed: on `device`, which is up or not.
pub(crate) fn assert_placed(rt: &impl Abort, answer: &Answer, seed: u32, device: u32, is_up: bool) {
    let Ok(placement) = &answer.0 else {
        return rt.abort();
    };
    let Ok(id) = i32::try_from(device) else {
        return rt.abort();
    };
    let slot: Slot = Some(ItemId(id));
    assert_same(rt, &placement.seed, &seed);
    assert_same(rt, &placement.raw.as_slice(), &[slot].as_slice());
    if is_up {
        assert_same(rt, &placement.up.as_slice(), &[slot].as_slice());
        assert_same(rt, &placement.primary, &slot);
    } else {
        assert!(rt; placement.primary.is_none());
    }
}

/// Returns whether two answers are one placement in memory, so that the second was kept.
pub(crate) fn is_one(rt: &impl Abort, first: &Answer, second: &Answer) -> bool {
    match (&first.0, &second.0) {
        (Ok(first), Ok(second)) => Rc::ptr_eq(first, second),
        _ => rt.abort(),
    }
}
