//! Lists of at most `SIZE_LIMIT` slots.

ghost use Rattle.std.specs.Prelude.{◌≡◌, ◌<◌, ◌≤◌, [], ◌∷◌, ◌++◌, length};

use crate::limits::SIZE_LIMIT;
use crush_map::ItemId;
use std::marker::Model;

/// An item, or none.
pub type Slot = Option<ItemId>;

/// At most `SIZE_LIMIT` slots, in an array of its own, so it allocates nothing. What stands behind
/// them is of no use: it isn't blanked, which would take longer than what is done with a row.
/// Contracts see a list.
#[derive(Drop)]
pub struct Row {
    slots: [Slot; SIZE_LIMIT],
    len: usize,
}

impl Model for Row {
    ghost use Rattle.std.specs.Prelude.{◌≡◌, ◌≤◌, List, Option, length, take};
    ghost use Rattle.crush_map.specs.crush_types.specs.declared.ItemId.{ItemId};
    ghost use Rattle.crush_choose.specs.declared.limits.TheConstants.{SIZE_LIMIT};

    ghost Value = { List (Option ItemId) };

    ghost view = { λ a. take a.len a.slots };

    ghost invariant = { λ a. record {
      few : a.len ≤ SIZE_LIMIT;
      whole : length a.slots ≡ SIZE_LIMIT;
    } };
}

impl Row {
    /// Makes a row without slots.
    pub fn new() -> Self
        ensures { result ≡ [] }
    {
        Row {
            slots: [None; SIZE_LIMIT],
            len: 0,
        }
    }

    /// Returns the slots.
    pub fn items(&self) -> &[Slot]
        ensures value { result.now ≡ self.now }
        ensures fits { length result.now ≤ SIZE_LIMIT }
    {
        &self.slots[..self.len]
    }

    /// Returns how many slots there are.
    pub fn len(&self) -> usize
        ensures value { result ≡ length self.now }
        ensures fits { result ≤ SIZE_LIMIT }
    {
        self.len
    }

    /// Removes all slots.
    pub fn clear(&mut self)
        ensures { self.new ≡ [] }
    {
        self.len = 0;
    }

    /// Appends a slot.
    pub fn push(&mut self, slot: Slot)
        requires { length self.old < SIZE_LIMIT }
        ensures { self.new ≡ self.old ++ slot ∷ [] }
    {
        self.slots[self.len] = slot;
        self.len += 1;
    }
}
