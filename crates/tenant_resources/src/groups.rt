//! Groups of pools: at `/t/{t}/pools/{p}/groups/{g}` GET reads where a group lies, and at
//! `/t/{t}/pools/{p}/locate` POST asks where an object lies.

ghost use Rattle.std.specs.Prelude.{◌≡◌, ◌<◌, ◌++◌, true, IfOk, OnOk, string_bytes};
ghost use Rattle.serde_json.specs.View.{view};
ghost use Rattle.serde_json.specs.Written.{compact_text, members_text};
ghost use Rattle.tenant_messages.specs.Reading.{Reads};
ghost use Rattle.tenant_messages.specs.Refusals.{Answers, Gives};
ghost use Rattle.tenant_messages.specs.Reply as replies;
ghost use Rattle.tenant_resources.specs.Groups as spec;
ghost use Rattle.tenant_resources.specs.Private.Members.{placement_members};

use crate::limits::OBJECT_NAME_LIMIT;
use crush_bucket::Scratch;
use crush_choose::Out;
use crush_hash::name_hash;
use crush_map::Text;
use crush_pool::Placement;
use serde_json::Value;
use std::alloc::{AllocError, Global};
use std::marker::Model;
use tenant_messages::{
    Problem, Refusal, Reply, done, has_keys, push_number, push_slot, push_slots, text,
};
use tenant_state::{Inventory, TenantPool};

/// The name of an object: a text of at most `OBJECT_NAME_LIMIT` bytes. Contracts see the name; code
/// reads its hash, which is made once.
#[derive(Drop)]
pub struct ObjectName {
    name: Text,
    hash: u32,
}

impl Model for ObjectName {
    ghost use Rattle.std.specs.Prelude.{List, ℕ, ◌≡◌, ◌≤◌, length};
    ghost use Rattle.crush_hash.specs.Hash.{name_hash};
    ghost use Rattle.tenant_resources.specs.declared.limits.TheConstants.{OBJECT_NAME_LIMIT};

    ghost Value = { List ℕ };

    ghost view = { λ a. a.name };

    ghost invariant = { λ a. record {
      few : length a.name ≤ OBJECT_NAME_LIMIT;
      hashed : a.hash ≡ name_hash a.name;
    } };
}

impl ObjectName {
    ghost use Rattle.std.specs.Prelude.{◌≡◌};
    ghost use Rattle.crush_hash.specs.Hash.{name_hash};

    /// Returns the hash of the name.
    pub fn hash(&self) -> u32
        ensures { result ≡ name_hash self.now }
    {
        self.hash
    }
}

// ---- the body that asks for an object

/// Reads the name of the object that a body's value says. The problem is `BadRequest`, exactly
/// where the value doesn't have the form (`IsLocateBody`).
pub fn read_name(alloc: Global, value: &Value) -> Result<ObjectName, Refusal>
    ensures { Reads (λ name. name) result (spec.name_of (view value.now)) }
{
    if !has_keys(value, 1) {
        return Err(Refusal::Problem(Problem::BadRequest));
    }
    let name = text(value, "name").ok_or(Problem::BadRequest)?;
    if name.len() > OBJECT_NAME_LIMIT {
        return Err(Refusal::Problem(Problem::BadRequest));
    }
    let hash = name_hash(name.as_bytes());
    let name = Text::copy(alloc, name)?;
    Ok(ObjectName { name, hash })
}

// ---- placing a group

/// Places a group of a pool on the newest version. The problem is `NoVersion` where there is no
/// version, and `NoRule` where the newest lacks the pool's rule.
fn placed(
    alloc: Global,
    inventory: &Inventory,
    pool: &TenantPool,
    group: u32,
) -> Result<Placement, Refusal>
    requires { group < pool.now.parts.pg_num }
    ensures { Gives (λ p. p) result (spec.placed inventory.now pool.now group) }
{
    let placer = inventory.on_newest(pool)?;
    let mut scratch = Scratch::build(alloc, placer.tables())?;
    let mut out = Out::build(alloc)?;
    let placement = placer.place_with(alloc, &mut scratch, &mut out, group)?;
    Ok(placement)
}

// ---- the answers

/// The room for a reply's text: at most 913 bytes, since a list has at most `SIZE_LIMIT` items.
const REPLY_ROOM: usize = 1_024;

/// Adds the rest of a reply to the end of its text: the primary, the items that the rule gave
/// (`raw`), the seed, those of the items that are up, and the version. `Err(AllocError)`: an
/// allocation failed.
fn push_placement(text: &mut String, placement: &Placement, version: u64) -> Result<(), AllocError>
    ensures { OnOk result (string_bytes text.new ≡ string_bytes text.old ++ members_text true (placement_members placement.now version)) }
{
    push_slot(text, ",\"primary\":", &placement.primary)?;
    push_slots(text, ",\"raw\":", placement.raw.as_slice())?;
    push_number(text, ",\"seed\":", u64::from(placement.seed))?;
    push_slots(text, ",\"up\":", placement.up.as_slice())?;
    push_number(text, ",\"version\":", version)?;
    text.push_str("}")?;
    Ok(())
}

/// Writes the text of the reply for a group.
#[tactic(auto, using(crate::proofs::GroupTexts::group_by_pieces))]
fn group_text(
    alloc: Global,
    inventory: &Inventory,
    group: u32,
    placement: &Placement,
) -> Result<String, AllocError>
    ensures { IfOk result (λ text. string_bytes text ≡ compact_text (spec.group_reply inventory.now group placement.now)) }
{
    let mut text = String::with_capacity(alloc, REPLY_ROOM)?;
    push_number(&mut text, "{\"epoch\":", inventory.epoch())?;
    push_number(&mut text, ",\"group\":", u64::from(group))?;
    push_placement(&mut text, placement, inventory.newest())?;
    Ok(text)
}

/// Writes the text of the reply for an object: that of its group, with the hash of the object's
/// name.
#[tactic(auto, using(crate::proofs::GroupTexts::object_by_pieces))]
fn object_text(
    alloc: Global,
    name: &ObjectName,
    inventory: &Inventory,
    group: u32,
    placement: &Placement,
) -> Result<String, AllocError>
    ensures { IfOk result (λ text. string_bytes text ≡ compact_text (spec.object_reply name.now inventory.now group placement.now)) }
{
    let hash = name.hash();
    let mut text = String::with_capacity(alloc, REPLY_ROOM)?;
    push_number(&mut text, "{\"epoch\":", inventory.epoch())?;
    push_number(&mut text, ",\"group\":", u64::from(group))?;
    push_number(&mut text, ",\"hash\":", u64::from(hash))?;
    push_placement(&mut text, placement, inventory.newest())?;
    Ok(text)
}

/// Makes the reply for a group that was placed. `Err(AllocError)`: an allocation failed; nothing is
/// changed.
pub fn placed_group(
    alloc: Global,
    inventory: &Inventory,
    group: u32,
    placement: &Placement,
) -> Result<Reply, AllocError>
    ensures { IfOk result (λ r. r ≡ replies.reply (replies.success (spec.group_reply inventory.now group placement.now))) }
{
    let text = group_text(alloc, inventory, group, placement)?;
    Ok(done(text))
}

/// Makes the reply for an object whose group was placed. `Err(AllocError)`: an allocation failed;
/// nothing is changed.
pub fn placed_object(
    alloc: Global,
    name: &ObjectName,
    inventory: &Inventory,
    group: u32,
    placement: &Placement,
) -> Result<Reply, AllocError>
    ensures { IfOk result (λ r. r ≡ replies.reply (replies.success (spec.object_reply name.now inventory.now group placement.now))) }
{
    let text = object_text(alloc, name, inventory, group, placement)?;
    Ok(done(text))
}

/// Places the group `group` of the pool that has `id`, and makes the reply. The problem is, in this
/// order, `NoPool`, `NoGroup` where the pool has no such group, `NoVersion`, or `NoRule`.
pub fn group_answer(
    alloc: Global,
    id: u64,
    group: u64,
    inventory: &Inventory,
) -> Result<Reply, Refusal>
    ensures { Answers result (spec.group_answer id group inventory.now) }
{
    let pool = inventory.pools().get(id).ok_or(Problem::NoPool)?;
    if group >= u64::from(pool.parts().pg_num) {
        return Err(Refusal::Problem(Problem::NoGroup));
    }
    let group = group as u32;
    let placement = placed(alloc, inventory, pool, group)?;
    Ok(placed_group(alloc, inventory, group, &placement)?)
}

/// Places the object with the name `name` in the pool that has `id`, and makes the reply. The
/// problem is, in this order, `NoPool`, `NoVersion`, or `NoRule`.
pub fn object_answer(
    alloc: Global,
    id: u64,
    name: &ObjectName,
    inventory: &Inventory,
) -> Result<Reply, Refusal>
    ensures { Answers result (spec.object_answer id name.now inventory.now) }
{
    let pool = inventory.pools().get(id).ok_or(Problem::NoPool)?;
    let group = pool.pool().group_of_hash(name.hash());
    let placement = placed(alloc, inventory, pool, group)?;
    Ok(placed_object(alloc, name, inventory, group, &placement)?)
}
