//! The placements that a cache keeps, by the number of a content and the group.

ghost use Rattle.std.specs.Prelude.{◌≡◌, ◌⊎◌, Some, IfSome, Contains, option_copied};

use crush_pool::Placement;
use lru::LruCache;
use std::alloc::Global;
use std::rc::Rc;

/// The number of a content, and a group.
#[derive(Clone, Copy, PartialEq, Eq, Hash)]
pub struct Key {
    pub number: u64,
    pub group: u32,
}

/// Placements, that used last first.
pub type Entries = LruCache<Key, Rc<Placement>>;

/// Returns the same placement again, shared.
fn again(found: Option<&Rc<Placement>>) -> Option<Rc<Placement>>
    ensures { IfSome result (λ p. (kept : _) × (option_copied found.entry ≡ Some kept) × (p.value ≡ kept.value)) }
{
    match found {
        Some(placement) => match placement.clone() {
            Ok(again) => Some(again),
            Err(_) => None,
        },
        None => None,
    }
}

/// Finds the placement that is kept under a key, and shares it. `None`: there is none. Takes no
/// memory.
pub(crate) fn recall(entries: &mut Entries, key: Key) -> Option<Rc<Placement>>
    ensures found { IfSome result (λ p. (kept : _) × Contains entries.old.entries (key, kept) × (p.value ≡ kept.value)) }
    ensures same { (e : _) → Contains entries.new.entries e → Contains entries.old.entries e }
{
    again(entries.get(&key))
}

/// Keeps a placement under a key, where there is memory for it.
pub(crate) fn keep(entries: &mut Entries, key: Key, placement: Rc<Placement>)
    ensures { (e : _) → Contains entries.new.entries e → Contains entries.old.entries e ⊎ ((e.0 ≡ key) × (e.1.value ≡ placement.value)) }
{
    match entries.put(key, placement) {
        Ok(_displaced) => {}
        Err(_refused) => {}
    }
}
