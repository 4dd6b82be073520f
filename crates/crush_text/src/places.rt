//! The places of a bucket's items, found by a table.

ghost use Rattle.std.specs.Prelude.{◌≡◌, ◌<◌, ◌==◌, ℕ, List, IfOk, length, slice_index_or, false, Some, None, if◌then◌else◌};
ghost use Rattle.std.specs.Option.{option_map_or, option_or};
ghost use Rattle.crush_map.specs.crush_types.specs.declared.ItemId.{ItemId};
ghost use Rattle.crush_map.specs.crush_types.specs.declared.Weight.{Weight};
ghost use Rattle.crush_text.specs.Places as spec;
ghost use Rattle.crush_text.specs.Private.Tables.{arrange};

use crush_grammar::{DeclaredItem, Place};
use crush_map::{ItemId, Weight};
use std::alloc::{AllocError, Global};

/// Makes a table with a flag for each of `size` places: none was named yet.
fn unnamed(alloc: Global, size: usize) -> Result<Vec<bool>, AllocError>
    ensures len { IfOk result (λ t. length t.items ≡ size) }
    ensures none { IfOk result (λ t. (k : ℕ) → slice_index_or t.items k false ≡ false) }
{
    Ok(vec![in alloc; false; size]?)
}

/// Finds the line of the first place that is past the items or was named before.
#[tactic(auto, unfolding(crate::specs::Places::wrong_place))]
pub(crate) fn wrong_place(
    alloc: Global,
    items: &[DeclaredItem<'_>],
) -> Result<Option<usize>, AllocError>
    ensures { IfOk result (λ line. line ≡ spec.wrong_place items.now) }
{
    let mut named = unnamed(alloc, items.len())?;
    for item in items {
        if let Some(place) = item.place {
            if place.number >= named.len() as u64 || named[place.number as usize] {
                return Ok(Some(place.line));
            }
            named[place.number as usize] = true;
        }
    }
    Ok(None)
}

/// Makes a table with an entry for each of `size` places: none has an item yet.
pub(crate) fn free_places(
    alloc: Global,
    size: usize,
) -> Result<Vec<Option<(ItemId, Weight)>>, AllocError>
    ensures len { IfOk result (λ t. length t.items ≡ size) }
    ensures none { IfOk result (λ t. (k : ℕ) → slice_index_or t.items k None ≡ None) }
{
    Ok(vec![in alloc; None; size]?)
}

/// Puts an item at the place that it names, unless that is past the table or has an item already.
/// Returns the table.
#[tactic(auto, using(crate::proofs::Named::named_steps))]
pub(crate) fn with_item(
    mut named: Vec<Option<(ItemId, Weight)>>,
    place: Option<Place>,
    item: (ItemId, Weight),
) -> Vec<Option<(ItemId, Weight)>>
    ensures len { length result.items ≡ length named.items }
    ensures each { (k : ℕ) → k < length named.items → slice_index_or result.items k None ≡ option_or (slice_index_or named.items k None) (if option_map_or (λ p. p.number == k) place false then Some item else None) }
{
    let Some(place) = place else {
        return named;
    };
    if place.number >= named.len() as u64 {
        return named;
    }
    let number = place.number as usize;
    if named[number].is_some() {
        return named;
    }
    named[number] = Some(item);
    named
}

/// Arranges items in order of place: at each the item that names it, or the next of the others.
pub(crate) fn arranged(
    alloc: Global,
    places: &[Option<(ItemId, Weight)>],
    others: &[(ItemId, Weight)],
) -> Result<Vec<(ItemId, Weight)>, AllocError>
    ensures { IfOk result (λ items. items.items ≡ arrange places.now others.now) }
{
    let mut items = Vec::new(alloc);
    let mut others = others;
    for place in places {
        match *place {
            Some(item) => items.push(item)?,
            None => {
                if let [next, rest @ ..] = others {
                    items.push(*next)?;
                    others = rest;
                }
            }
        }
    }
    Ok(items)
}
