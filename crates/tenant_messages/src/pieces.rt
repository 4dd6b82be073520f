//! JSON of replies, added to the end of a text piece by piece: numbers, items and lists of items.
//! To make a value first and write it afterwards takes several times as long.

ghost use Rattle.std.specs.Prelude.{◌≡◌, ◌++◌, OnOk, map, string_bytes};
ghost use Rattle.std.specs.Fmt.{decimal};
ghost use Rattle.serde_json.specs.Data.{Data};
ghost use Rattle.serde_json.specs.Written.{comma_if, compact_text};
ghost use Rattle.tenant_messages.specs.Reply.{reply, success};
ghost use Rattle.tenant_messages.specs.Slots.{slot_json, list_json};

use crate::reply::Reply;
use crush_map::{ItemId, Text};
use itoa::Buffer;
use std::alloc::AllocError;

/// Adds `before` and then the decimal digits of `number` to the end of `text`. `Err(AllocError)`:
/// an allocation failed; a part may have been added.
pub fn push_number(text: &mut String, before: &str, number: u64) -> Result<(), AllocError>
    ensures { OnOk result (string_bytes text.new ≡ string_bytes text.old ++ (before.now ++ decimal number)) }
{
    let mut digits = Buffer::new();
    text.push_str(before)?;
    text.push_str(digits.format(number))
}

/// Adds `before` and then the JSON of an item, or `null`, to the end of `text`. `Err(AllocError)`:
/// an allocation failed; a part may have been added.
#[tactic(auto, using(crate::proofs::Texts::item_digits))]
pub fn push_slot(text: &mut String, before: &str, slot: &Option<ItemId>) -> Result<(), AllocError>
    ensures { OnOk result (string_bytes text.new ≡ string_bytes text.old ++ (before.now ++ compact_text (slot_json slot.now))) }
{
    text.push_str(before)?;
    let mut digits = Buffer::new();
    match slot {
        None => text.push_str("null"),
        Some(item) => text.push_str(digits.format(item.0)),
    }
}

/// Returns a comma if `later`, where an element comes before, else an empty text.
fn comma(later: bool) -> &'static str
    ensures { result.now ≡ comma_if later }
{
    if later { "," } else { "" }
}

/// Adds `before` and then the JSON list of `slots` to the end of `text`. `Err(AllocError)`: an
/// allocation failed; a part may have been added.
#[tactic(auto, using(crate::proofs::Texts::item_more))]
pub fn push_slots(
    text: &mut String,
    before: &str,
    slots: &[Option<ItemId>],
) -> Result<(), AllocError>
    ensures { OnOk result (string_bytes text.new ≡ string_bytes text.old ++ (before.now ++ compact_text (list_json (map slot_json slots.now)))) }
{
    text.push_str(before)?;
    text.push_str("[")?;
    let mut later = false;
    let mut rest = slots;
    while let [slot, others @ ..] = rest {
        push_slot(text, comma(later), slot)?;
        later = true;
        rest = others;
    }
    text.push_str("]")
}

/// Makes the reply 200 with a body that is the text of a value. Allocates nothing.
#[tactic(auto, unfolding(crate::specs::Reply::reply))]
pub fn done(body: String) -> Reply
    ensures { (d : Data) → string_bytes body ≡ compact_text d → result ≡ reply (success d) }
{
    Reply {
        status: 200,
        body: Text::new(body),
    }
}
