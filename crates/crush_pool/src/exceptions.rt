//! Placement exceptions: pairs of devices, by which a group has another device than its rule
//! answered; and lists of them that are shared, with their hash.

ghost use Rattle.std.specs.Prelude.{◌≡◌, ◌<◌, ◌≤◌, ◌+◌, IfOk, IfErr, is_ok, [], fold, length, max, position, slice_index_or, true};
ghost use Rattle.std.specs.List.{list_all, list_any};
ghost use Rattle.crush_map.specs.Faults.{has_number};
ghost use Rattle.crush_map.specs.declared.limits.TheConstants.{NUMBER_LIMIT};
ghost use Rattle.crush_choose.specs.Firstn.{slot_has};
ghost use Rattle.crush_choose.specs.declared.limits.TheConstants.{SIZE_LIMIT};
ghost use Rattle.crush_pool.specs.Exceptions as spec;
ghost use Rattle.crush_pool.specs.Private.Pairs.{HasFirst, HasNext, first_from, no_pair};
ghost use Rattle.crush_pool.specs.declared.limits.TheConstants.{GROUP_LIMIT};
ghost use Rattle.crush_pool.specs.Hashes.{fed_with, pair_writes, pairs_hash};

use crate::limits::{GROUP_LIMIT, PAIR_LIMIT};
use crate::pool::{Pool, PoolFault};
use arrayvec::ArrayVec;
use crush_bucket::Tables;
use crush_choose::limits::SIZE_LIMIT;
use crush_choose::{Slot, Weights, has, slot_has};
use crush_map::limits::NUMBER_LIMIT;
use crush_map::{DeviceVec, ItemId};
use std::alloc::{AllocError, Global};
use std::hash::{FoldHasher, Hash, Hasher};
use std::marker::Model;
use std::rc::Rc;

/// An exception: in a group, a device takes the place of another one.
#[derive(Clone, Copy, Debug, PartialEq, Eq)]
pub struct Pair {
    /// The group, which is below `pg_num` of its pool.
    pub group: u32,
    /// The id of the device that is replaced, 0..`NUMBER_LIMIT`.
    pub from: u32,
    /// The id of the device that takes its place, 0..`NUMBER_LIMIT`: another one than `from`.
    pub to: u32,
}

/// Returns whether a pair is of a group below `groups`, with two different ids that devices can
/// have.
fn is_pair(groups: u32, pair: &Pair) -> bool
    ensures { result ≡ spec.is_pair groups pair.now }
{
    pair.group < groups
        && pair.from <= NUMBER_LIMIT
        && pair.to <= NUMBER_LIMIT
        && pair.from != pair.to
}

/// Returns whether each pair is of a group below `groups`, with two different ids that devices can
/// have.
fn are_all_pairs(groups: u32, pairs: &[Pair]) -> bool
    ensures { result ≡ list_all (spec.is_pair groups) pairs.now }
{
    pairs.iter().all(|pair| is_pair(groups, pair))
}

/// Returns whether there are at most `PAIR_LIMIT` pairs, each of a group below `groups`, with two
/// different ids that devices can have.
pub fn are_pairs(groups: u32, pairs: &[Pair]) -> bool
    ensures { result ≡ spec.are_pairs groups pairs.now }
{
    pairs.len() <= PAIR_LIMIT && are_all_pairs(groups, pairs)
}

/// Returns how many places a table by group has that reaches to the greatest group of the pairs.
fn reach_of(pairs: &[Pair]) -> usize
    ensures { result ≡ fold (λ reach p. max reach (p.group + 1)) 0 pairs.now }
{
    let mut reach = 0;
    for pair in pairs {
        reach = reach.max(pair.group as usize + 1);
    }
    reach
}

/// Finds for each group the place of its first pair, and for each pair the place of the next one of
/// its group. Where there is none, the number of pairs stands. `Err(AllocError)`: an allocation
/// failed.
fn places_of(alloc: Global, pairs: &[Pair]) -> Result<(DeviceVec<u16>, Vec<u16>), AllocError>
    requires { spec.are_pairs GROUP_LIMIT pairs.now ≡ true }
    ensures first { IfOk result (λ places. HasFirst places.0 pairs.now) }
    ensures next { IfOk result (λ places. HasNext places.1.items pairs.now) }
    ensures each { IfOk result (λ places. length places.1.items ≡ length pairs.now) }
{
    let none = pairs.len() as u16;
    let mut first = DeviceVec::new(alloc, none, reach_of(pairs))?;
    let mut next = vec![in alloc; none; pairs.len()]?;
    for place in (0..pairs.len()).rev() {
        let group = pairs[place].group;
        next[place] = first.get(group);
        first.set(group, place as u16)?;
    }
    Ok((first, next))
}

/// The exceptions of a pool: at most `PAIR_LIMIT` pairs, in an order that counts. Contracts see the
/// list of them.
#[derive(Drop)]
pub struct Exceptions {
    pairs: Vec<Pair>,
    /// The place of each group's first pair, so that only the pairs of a group are looked at. A
    /// group has a number that a device can have.
    first: DeviceVec<u16>,
    /// For each pair the place of the next one of its group.
    next: Vec<u16>,
}

impl Model for Exceptions {
    ghost use Rattle.std.specs.Prelude.{◌≡◌, List, length, true};
    ghost use Rattle.crush_pool.specs.Exceptions.{are_pairs};
    ghost use Rattle.crush_pool.specs.Private.Pairs.{HasFirst, HasNext};
    ghost use Rattle.crush_pool.specs.declared.exceptions.Pair.{Pair};
    ghost use Rattle.crush_pool.specs.declared.limits.TheConstants.{GROUP_LIMIT};

    ghost Value = { List Pair };

    ghost view = { λ a. a.pairs.items };

    ghost invariant = { λ a. record {
      valid : are_pairs GROUP_LIMIT a.pairs.items ≡ true;
      first : HasFirst a.first a.pairs.items;
      next : HasNext a.next.items a.pairs.items;
      each : length a.next.items ≡ length a.pairs.items;
    } };
}

impl Exceptions {
    /// Makes the empty list of exceptions, which any pool can have. `Err(AllocError)`: an
    /// allocation failed.
    pub fn none(alloc: Global) -> Result<Exceptions, AllocError>
        ensures { IfOk result (λ exceptions. exceptions ≡ []) }
    {
        let pairs = Vec::new(alloc);
        let (first, next) = places_of(alloc, &pairs)?;
        Ok(Exceptions { pairs, first, next })
    }

    /// Makes `pairs` the exceptions of a pool, or answers `P3` where they are more than
    /// `PAIR_LIMIT`, or one of them has no group of the pool, an id above `NUMBER_LIMIT`, or one id
    /// twice. `Err(AllocError)`: an allocation failed; the pairs are dropped.
    pub fn new(
        alloc: Global,
        pool: &Pool,
        pairs: Vec<Pair>,
    ) -> Result<Result<Exceptions, PoolFault>, AllocError>
        ensures there { IfOk result (λ answer. is_ok answer ≡ spec.are_pairs pool.now.pg_num pairs.items) }
        ensures pairs { IfOk result (λ answer. IfOk answer (λ exceptions. exceptions ≡ pairs.items)) }
        ensures fault { IfOk result (λ answer. IfErr answer (λ fault. fault ≡ PoolFault.P3)) }
    {
        if !are_pairs(pool.parts().pg_num, pairs.as_slice()) {
            return Ok(Err(PoolFault::P3));
        }
        let (first, next) = places_of(alloc, pairs.as_slice())?;
        Ok(Ok(Exceptions { pairs, first, next }))
    }

    /// Returns the pairs, in their order.
    pub fn pairs(&self) -> &[Pair]
        ensures same { result.now ≡ self.now }
        ensures valid { spec.are_pairs GROUP_LIMIT self.now ≡ true }
    {
        self.pairs.as_slice()
    }

    /// Returns whether one of the pairs is of the group `group`.
    pub fn concern(&self, group: u32) -> bool
        ensures { result ≡ list_any (spec.is_of_group group) self.now }
    {
        self.first_of(group) < self.pairs.len()
    }

    /// Returns whether a pair of a group leads to a device.
    pub fn lead_to(&self, group: u32, device: u32) -> bool
        ensures { result ≡ has_number (spec.targets_of self.now group) device }
    {
        let mut place = self.first_of(group);
        while place < self.pairs.len() {
            if self.pairs[place].to == device {
                return true;
            }
            place = self.next_of(place);
        }
        false
    }

    /// Finds the place of the first pair of a group, or the number of pairs where there is none.
    fn first_of(&self, group: u32) -> usize
        ensures { result ≡ first_from self.now group 0 }
    {
        self.first.get(group) as usize
    }

    /// Finds the place of the next pair of the group of the pair at `place`, or the number of pairs
    /// where there is none.
    fn next_of(&self, place: usize) -> usize
        requires { place < length self.now }
        ensures { result ≡ first_from self.now (slice_index_or self.now place no_pair).group (place + 1) }
    {
        self.next[place] as usize
    }

    /// Changes what a rule answered for a group by the pairs of that group, one after the other.
    fn apply_all(&self, tables: &Tables, weights: &Weights, group: u32, slots: &mut [Slot])
        ensures { slots.new ≡ spec.excepted tables.now weights.now self.now group slots.old }
    {
        let mut place = self.first_of(group);
        while place < self.pairs.len() {
            apply(tables, weights, self.pairs[place], slots);
            place = self.next_of(place);
        }
    }
}

/// Returns the item that is the device with an id.
fn device_item(device: u32) -> ItemId
    requires { device ≤ NUMBER_LIMIT }
    ensures { result ≡ spec.device_item device }
{
    ItemId(device as i32)
}

/// Returns whether a pair takes effect on a list of slots.
fn takes_effect(tables: &Tables, weights: &Weights, pair: Pair, slots: &[Slot]) -> bool
    requires { spec.is_pair GROUP_LIMIT pair ≡ true }
    ensures { result ≡ spec.takes_effect tables.now weights.now pair slots.now }
{
    has(slots, device_item(pair.from))
        && !has(slots, device_item(pair.to))
        && weights.get(pair.to) > 0
        && tables.has_device(pair.to)
}

/// Finds the place of the first slot that has an item.
fn place_of(slots: &[Slot], item: ItemId) -> Option<usize>
    ensures { result ≡ position (slot_has item) slots.now }
{
    slots.iter().position(|slot| slot_has(*slot, item))
}

/// Puts the item `to` into the first slot that has the item `from`.
#[tactic(auto, using(crate::proofs::Pairs::exchanged_at))]
fn exchange(slots: &mut [Slot], from: ItemId, to: ItemId)
    ensures { slots.new ≡ spec.exchanged from to slots.old }
{
    if let Some(place) = place_of(slots, from) {
        slots[place] = Some(to);
    }
}

/// Changes a list of slots by a pair, if the pair takes effect.
fn apply(tables: &Tables, weights: &Weights, pair: Pair, slots: &mut [Slot])
    requires { spec.is_pair GROUP_LIMIT pair ≡ true }
    ensures { slots.new ≡ spec.after_pair tables.now weights.now pair slots.old }
{
    if takes_effect(tables, weights, pair, slots) {
        exchange(slots, device_item(pair.from), device_item(pair.to));
    }
}

/// What a rule answered for a group, with the exceptions of that group: at most `SIZE_LIMIT` slots,
/// in an array of its own. Contracts see the list of them.
#[derive(Drop)]
pub(crate) struct ExceptedSlots {
    slots: ArrayVec<Slot, SIZE_LIMIT>,
}

impl Model for ExceptedSlots {
    ghost use Rattle.std.specs.Prelude.{List};
    ghost use Rattle.crush_choose.specs.Marks.{Slot};

    ghost Value = { List Slot };

    ghost view = { λ a. a.slots.items };
}

impl ExceptedSlots {
    /// Applies the pairs of a group to a copy of a rule's answer for it. Allocates nothing.
    pub(crate) fn new(
        tables: &Tables,
        weights: &Weights,
        exceptions: &Exceptions,
        group: u32,
        raw: &[Slot],
    ) -> ExceptedSlots
        requires { length raw.now ≤ SIZE_LIMIT }
        ensures { result ≡ spec.excepted tables.now weights.now exceptions.now group raw.now }
    {
        let mut slots = ArrayVec::new();
        for slot in raw {
            slots.push(*slot);
        }
        exceptions.apply_all(tables, weights, group, slots.as_mut_slice());
        ExceptedSlots { slots }
    }

    /// Returns the slots, in order.
    pub(crate) fn items(&self) -> &[Slot]
        ensures value { result.now ≡ self.now }
        ensures fits { length result.now ≤ SIZE_LIMIT }
    {
        self.slots.as_slice()
    }
}

/// Exceptions of a pool that are shared, and not copied, by all who have them. Contracts see the
/// pairs, in order.
#[derive(Drop)]
pub struct SharedExceptions {
    exceptions: Rc<Exceptions>,
    /// The hash of the pairs, which is made once.
    hash: u64,
}

impl Model for SharedExceptions {
    ghost use Rattle.std.specs.Prelude.{◌≡◌, List};
    ghost use Rattle.crush_pool.specs.declared.exceptions.Pair.{Pair};
    ghost use Rattle.crush_pool.specs.Hashes.{pairs_hash};

    ghost Value = { List Pair };

    ghost view = { λ a. a.exceptions.value };

    ghost invariant = { λ a. a.hash ≡ pairs_hash a.exceptions.value };
}

/// Feeds a pair to a hasher.
fn feed(hasher: &mut FoldHasher, pair: &Pair)
    ensures { hasher.new ≡ fed_with hasher.old (pair_writes pair.now) }
{
    pair.group.hash(hasher);
    pair.from.hash(hasher);
    pair.to.hash(hasher);
}

/// Hashes pairs.
fn hash_of(pairs: &[Pair]) -> u64
    ensures { result ≡ pairs_hash pairs.now }
{
    let mut hasher = FoldHasher::default();
    for pair in pairs {
        feed(&mut hasher, pair);
    }
    hasher.finish()
}

impl SharedExceptions {
    ghost use Rattle.std.specs.Prelude.{◌≡◌, IfOk};
    ghost use Rattle.std.specs.Cmp.Lexicographic.{pointwise};
    ghost use Rattle.crush_pool.specs.Contents.{pair_eq};
    ghost use Rattle.crush_pool.specs.Hashes.{pairs_hash};

    /// Makes exceptions that can be shared. Takes time linear in the number of pairs, for the hash.
    /// `Err(AllocError)`: an allocation failed; the exceptions are dropped.
    pub fn new(alloc: Global, exceptions: Exceptions) -> Result<Self, AllocError>
        ensures { IfOk result (λ shared. shared ≡ exceptions) }
    {
        let hash = hash_of(exceptions.pairs());
        let exceptions = Rc::new(alloc, exceptions)?;
        Ok(SharedExceptions { exceptions, hash })
    }

    /// Returns the exceptions.
    pub fn exceptions(&self) -> &Exceptions
        ensures { result.now ≡ self.now }
    {
        &self.exceptions
    }

    /// Returns the hash of the pairs.
    pub fn hash(&self) -> u64
        ensures { result ≡ pairs_hash self.now }
    {
        self.hash
    }

    /// Returns whether the pairs are the same, in the same order.
    pub(crate) fn is_same(&self, other: &SharedExceptions) -> bool
        ensures { result ≡ pointwise pair_eq self.now other.now }
    {
        self.exceptions.pairs() == other.exceptions.pairs()
    }

    /// Shares the exceptions with one more who has them. Takes no memory, but can be refused where
    /// the number of those who share them is full.
    pub fn share(&self) -> Result<Self, AllocError>
        ensures { IfOk result (λ again. again ≡ self.now) }
    {
        Ok(SharedExceptions {
            exceptions: self.exceptions.clone()?,
            hash: self.hash,
        })
    }
}
