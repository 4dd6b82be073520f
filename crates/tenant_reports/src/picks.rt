//! Picks, at `/t/{t}/pick`: POST asks which item a bucket picks. The bucket is described in the
//! body.

ghost use Rattle.std.specs.Prelude.{◌≡◌, ◌<◌, ◌^◌, ◌&&◌, ◌||◌, ◌+ℤ◌, IfOk, None, Some, codes, false, int_le, int_lt, length, pos, slice_index_or, true, ℕ, ℤ};
ghost use Rattle.std.specs.List.{list_any};
ghost use Rattle.serde_json.specs.View.{view, items_view};
ghost use Rattle.crush_bucket.specs.Bucket.{total_weight, HasEqualWeights};
ghost use Rattle.crush_bucket.specs.Pick.{pick};
ghost use Rattle.tenant_messages.specs.Json as json;
ghost use Rattle.tenant_reports.specs.Picks as spec;
ghost use Rattle.tenant_reports.specs.Private.Seen.{HasItems};
ghost use Rattle.tenant_messages.specs.Reading.{Reads};
ghost use Rattle.crush_map.specs.crush_types.specs.declared.limits.TheConstants.{ID_COUNT};
ghost use Rattle.tenant_messages.specs.Reply.{reply};

use crate::limits::ATTEMPT_LIMIT;
use crush_bucket::{AnyBucket, Perm};
use crush_map::limits::{ID_COUNT, ITEM_LIMIT, NUMBER_LIMIT, TOTAL_WEIGHT_LIMIT};
use crush_map::{ItemId, Kind, Weight, has_equal_weights, total_weight};
use serde_json::{Value, json};
use std::alloc::{AllocError, Global};
use std::marker::Model;
use tenant_messages::{Problem, Refusal, Reply, has_keys, integer, natural, success, text};

/// The most entries of which each is compared with each other: for more of them a table of flags
/// takes less time.
const FEW_ENTRIES: usize = 256;

// ---- a bucket in a request

/// A bucket as a request describes it: at least one item, and weights whose sum is below 2^32.
#[derive(Drop)]
pub struct AskedBucket {
    id: ItemId,
    kind: Kind,
    items: Vec<(ItemId, Weight)>,
}

impl Model for AskedBucket {
    ghost use Rattle.std.specs.Prelude.{◌≡◌};
    ghost use Rattle.crush_bucket.specs.Bucket.{BucketView, CanBeAsked, HasEqualWeights};
    ghost use Rattle.crush_map.specs.crush_types.specs.declared.Kind.TheVariants.{Uniform};

    ghost Value = { BucketView };

    ghost view = { λ a. record { id = a.id; kind = a.kind; items = a.items.items } };

    ghost invariant = { λ a. record {
      asked : CanBeAsked a.items.items;
      equal : a.kind ≡ Uniform → HasEqualWeights a.items.items;
    } };
}

impl AskedBucket {
    /// Makes the bucket of these items. Allocates nothing.
    pub fn new(id: ItemId, kind: Kind, items: Vec<(ItemId, Weight)>) -> Self
        requires some { 0 < length items.items }
        requires few { length items.items < 2 ^ 16 }
        requires light { total_weight items.items < 2 ^ 32 }
        requires equal { kind ≡ Kind.Uniform → HasEqualWeights items.items }
        ensures { result ≡ record { id = id; kind = kind; items = items.items } }
    {
        AskedBucket { id, kind, items }
    }

    /// Picks the item that the bucket has for the input `x` at the attempt `r`. `Err(AllocError)`:
    /// an allocation failed; nothing is changed.
    pub fn pick(&self, alloc: Global, x: u32, r: u32) -> Result<ItemId, AllocError>
        ensures { IfOk result (λ item. item ≡ pick self.now x r) }
    {
        let items = self.items.as_slice();
        let bucket = AnyBucket::build(alloc, self.kind, self.id, items)?;
        let mut perm = Perm::build(alloc, self.id, items.len())?;
        Ok(bucket.pick(&mut perm, x, r))
    }
}

/// The body of a pick: which item the bucket picks for the input `x` at the attempt `r`.
#[derive(Drop)]
pub struct PickRequest {
    pub bucket: AskedBucket,
    pub x: u32,
    pub r: u32,
}

// ---- the items of a bucket

/// Reads the item and the weight (16.16 fixed point) that a value of the list says, or returns
/// `None` where the value doesn't have the form of an item.
fn entry(value: &Value) -> Option<(ItemId, Weight)>
    ensures { result ≡ spec.entry_of (view value.now) }
{
    if !has_keys(value, 2) {
        return None;
    }
    let item = integer(value, "item", -1 - NUMBER_LIMIT as i32, NUMBER_LIMIT as i32)?;
    let weight = natural(value, "weight", 4_294_967_295)?;
    Some((ItemId(item), Weight(weight)))
}

/// Reads the items and weights that `values` say, in their order. The problem is `BadRequest`,
/// exactly where a value doesn't have the form of an item.
fn entries(alloc: Global, values: &[Value]) -> Result<Vec<(ItemId, Weight)>, Refusal>
    ensures { Reads (λ v. v.items) result (json.each_of spec.entry_of (items_view values.now)) }
{
    let mut found = Vec::new(alloc);
    for value in values {
        let next = entry(value).ok_or(Problem::BadRequest)?;
        if found.push(next).is_err() {
            return Err(Refusal::NoMemory);
        }
    }
    Ok(found)
}

/// Returns whether an entry has the item `item`.
fn contains(item: i32, entries: &[(ItemId, Weight)]) -> bool
    ensures { result ≡ list_any (spec.is_of_item item) entries.now }
{
    entries.iter().any(|entry| entry.0.0 == item)
}

/// Returns the place of an item in a table of flags for all ids that an item can have, from the
/// least one on. `None` where the item is less than all of them.
fn place_of(item: i32) -> Option<usize>
    ensures below { result ≡ None → int_lt (pos ID_COUNT +ℤ item) (pos 0) ≡ true }
    ensures there { (place : ℕ) → result ≡ Some place → pos place ≡ pos ID_COUNT +ℤ item }
{
    usize::try_from(ID_COUNT as i64 + i64::from(item)).ok()
}

/// Returns whether an entry has the item `item`. A table of flags says it for the items that it
/// reaches; for other items the entries are searched.
fn is_again(seen: &[bool], item: i32, entries: &[(ItemId, Weight)]) -> bool
    requires { HasItems seen.now entries.now }
    ensures { result ≡ list_any (spec.is_of_item item) entries.now }
{
    match place_of(item) {
        Some(place) if place < seen.len() => seen[place],
        _ => contains(item, entries),
    }
}

/// Sets the flag of an item, if the table reaches it.
fn mark(seen: &mut [bool], item: i32)
    ensures len { length seen.new ≡ length seen.old }
    ensures each { (z : ℤ) → (place : ℕ) → place < length seen.old → pos place ≡ pos ID_COUNT +ℤ z → slice_index_or seen.new place false ≡ ((int_le z item && int_le item z) || slice_index_or seen.old place false) }
{
    if let Some(place) = place_of(item)
        && place < seen.len()
    {
        seen[place] = true;
    }
}

/// Returns whether no item comes twice: searches the entries behind each entry.
fn are_few_distinct(entries: &[(ItemId, Weight)]) -> bool
    ensures { result ≡ spec.are_distinct entries.now }
{
    let mut rest = entries;
    while let [first, others @ ..] = rest {
        if contains(first.0.0, others) {
            return false;
        }
        rest = others;
    }
    true
}

/// Returns whether no item comes twice, by a table of flags for all ids that an item can have.
/// Takes linear time where the table reaches all items. Allocates nothing.
fn are_many_distinct(entries: &[(ItemId, Weight)]) -> bool
    ensures { result ≡ spec.are_distinct entries.now }
{
    let mut seen = [false; 2 * ID_COUNT];
    for place in (0..entries.len()).rev() {
        let item = entries[place].0.0;
        if is_again(&seen, item, &entries[place + 1..]) {
            return false;
        }
        mark(&mut seen, item);
    }
    true
}

/// Returns whether no item comes twice.
fn are_distinct(entries: &[(ItemId, Weight)]) -> bool
    ensures { result ≡ spec.are_distinct entries.now }
{
    if entries.len() <= FEW_ENTRIES {
        are_few_distinct(entries)
    } else {
        are_many_distinct(entries)
    }
}

// ---- a bucket

/// Returns whether `entries` can be those of a bucket with the id `id` and the kind `kind`.
fn is_valid(id: ItemId, kind: Kind, entries: &[(ItemId, Weight)]) -> bool
    ensures { result ≡ spec.is_valid (record { id = id; kind = kind; items = entries.now }) }
{
    !entries.is_empty()
        && entries.len() <= ITEM_LIMIT
        && total_weight(entries) <= TOTAL_WEIGHT_LIMIT
        && !contains(id.0, entries)
        && are_distinct(entries)
        && (kind != Kind::Uniform || has_equal_weights(entries))
}

/// Reads the kind under the key `kind`, or returns `None` where the value isn't one.
fn kind_in(value: &Value) -> Option<Kind>
    ensures { result ≡ json.under (codes "kind") spec.kind_of (view value.now) }
{
    Kind::named(text(value, "kind")?.as_bytes())
}

/// Reads the bucket that a value says. The problem is `BadRequest`, exactly where the value doesn't
/// have the form of a bucket.
fn bucket(alloc: Global, value: &Value) -> Result<AskedBucket, Refusal>
    ensures { Reads (λ b. b) result (spec.bucket_of (view value.now)) }
{
    if !has_keys(value, 3) {
        return Err(Refusal::Problem(Problem::BadRequest));
    }
    let kind = kind_in(value).ok_or(Problem::BadRequest)?;
    let id = ItemId(integer(value, "id", -1 - NUMBER_LIMIT as i32, -1).ok_or(Problem::BadRequest)?);
    let values = value
        .get("items")
        .and_then(Value::as_array)
        .ok_or(Problem::BadRequest)?;
    let items = entries(alloc, values)?;
    if is_valid(id, kind, &items) {
        Ok(AskedBucket::new(id, kind, items))
    } else {
        Err(Refusal::Problem(Problem::BadRequest))
    }
}

// ---- the body

/// Reads the pick that a body's value says. The problem is `BadRequest`, exactly where the value
/// doesn't have the form (`IsPickBody`).
pub fn read_pick(alloc: Global, value: &Value) -> Result<PickRequest, Refusal>
    ensures { Reads (λ p. p) result (spec.pick_of (view value.now)) }
{
    if !has_keys(value, 3) {
        return Err(Refusal::Problem(Problem::BadRequest));
    }
    let bucket = bucket(alloc, value.get("bucket").ok_or(Problem::BadRequest)?)?;
    let r = natural(value, "r", ATTEMPT_LIMIT).ok_or(Problem::BadRequest)?;
    let x = natural(value, "x", 4_294_967_295).ok_or(Problem::BadRequest)?;
    Ok(PickRequest { bucket, x, r })
}

// ---- the answer

/// Makes the body of the reply, which has the picked item.
fn picked(alloc: Global, item: ItemId) -> Result<Value, AllocError>
    ensures { IfOk result (λ v. view v ≡ spec.picked item) }
{
    json!(in alloc; {"item": i64::from(item.0)})
}

/// Picks the item and makes the reply with it. `Err(AllocError)`: an allocation failed; nothing is
/// changed.
pub fn answer(alloc: Global, pick: &PickRequest) -> Result<Reply, AllocError>
    ensures { IfOk result (λ r. r ≡ reply (spec.answer pick.now)) }
{
    let item = pick.bucket.pick(alloc, pick.x, pick.r)?;
    success(alloc, &picked(alloc, item)?)
}
