//! What a query asks of a pool, and the reply from what a store had in its cache for that.

ghost use Rattle.std.specs.Prelude.{◌≡◌, IfOk};
ghost use Rattle.tenant_core.specs.Cached.{HasRoom, cached_reply};
ghost use Rattle.tenant_messages.specs.Reply.{reply, success};

use crate::queries::Query;
use crush_map::Sequence;
use crush_pool::Placement;
use crush_report::MoveRow;
use std::alloc::{AllocError, Global};
use std::rc::Rc;
use tenant_messages::Reply;
use tenant_reports::{impact, moves};
use tenant_resources::{ObjectName, groups};
use tenant_state::Inventory;

/// What a query asks of a pool: all that a cache may have for it.
#[derive(Clone, Copy)]
pub enum Question<'q> {
    /// Where the group with this number lies.
    Group(u64),
    /// Where the object with this name lies.
    Object(&'q ObjectName),
    /// Which groups the device with this number can touch.
    Device(u64),
    /// Which groups move from the version with the first number to that with the second.
    Versions(u64, u64),
}

/// What a store had in its cache for a query: with the inventory, all that the reply says.
#[derive(Drop)]
pub enum CachedAnswer<'q> {
    /// A group, and its placement.
    Placed(u32, Rc<Placement>),
    /// The name of an object, its group, and the placement of that.
    Located(&'q ObjectName, u32, Rc<Placement>),
    /// The id of a pool, the number of a device, and the groups of the pool that it can touch.
    Touched(u32, u64, Sequence<u32>),
    /// The id of a pool, the numbers of two versions, and the rows of the pool's groups that move
    /// from the first to the second.
    Moved(u32, u64, u64, Sequence<MoveRow>),
}

impl Query {
    ghost use Rattle.std.specs.Prelude.{IfSome};
    ghost use Rattle.tenant_core.specs.Cached.{Asks};

    /// Returns the id of a pool, and what the query asks of that pool; `None` where it asks nothing
    /// that a cache may have.
    pub fn asked(&self) -> Option<(u64, Question<'_>)>
        ensures { IfSome result (λ r. Asks self.now r.0 r.1) }
    {
        match self {
            Query::Group(id, group) => Some((*id, Question::Group(*group))),
            Query::Object(id, name) => Some((*id, Question::Object(name))),
            Query::Impact(id, device) => Some((*id, Question::Device(*device))),
            Query::Moves(id, from, to) => Some((*id, Question::Versions(*from, *to))),
            _ => None,
        }
    }
}

/// Makes the reply to a query from what a store had in its cache for it. `Err(AllocError)`: an
/// allocation failed; nothing is changed.
pub fn answer_cached(
    alloc: Global,
    inventory: &Inventory,
    cached: &CachedAnswer<'_>,
) -> Result<Reply, AllocError>
    requires { HasRoom cached.now }
    ensures { IfOk result (λ r. r ≡ reply (success (cached_reply inventory.now cached.now))) }
{
    match cached {
        CachedAnswer::Placed(group, placement) => {
            groups::placed_group(alloc, inventory, *group, placement)
        }
        CachedAnswer::Located(name, group, placement) => {
            groups::placed_object(alloc, name, inventory, *group, placement)
        }
        CachedAnswer::Touched(id, device, groups) => {
            impact::touched_reply(alloc, inventory, *id, *device, groups.as_slice())
        }
        CachedAnswer::Moved(id, from, to, rows) => {
            moves::moved_reply(alloc, inventory, *id, *from, *to, rows.as_slice())
        }
    }
}
