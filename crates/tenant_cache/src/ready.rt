//! What a tenant has, with the numbers of the contents that its placements depend on.

ghost use Rattle.std.specs.Prelude.{◌≡◌};

use std::alloc::{AllocError, Global};
use std::marker::Model;
use std::rc::Rc;
use tenant_state::limits::RECEIPT_LIMIT;
use tenant_state::{Change, Inventory};

/// The most numbers that are kept beside what a tenant has. They take 16 bytes each, which are part
/// of the bytes of an inventory without its parts (`INVENTORY_BYTES`).
const NUMBER_LIMIT: usize = 16;

/// What a tenant has, kept ready, with the numbers that a cache of placements gave to the contents
/// of its pools on the newest version. Contracts see both.
#[derive(Drop)]
pub struct ReadyTenant {
    inventory: Rc<Inventory>,
    /// The id of a pool and a number; the pair that was given last comes first.
    numbers: Vec<(u32, u64)>,
    /// How many bytes the inventory takes.
    bytes: u64,
}

impl Model for ReadyTenant {
    ghost use Rattle.std.specs.Prelude.{◌≡◌, ◌-◌, ◌^◌, min};
    ghost use Rattle.tenant_cache.specs.Kept.{ReadyTenant};
    ghost use Rattle.tenant_state.specs.Size as spec;

    ghost Value = { ReadyTenant };

    ghost view = { λ a. record { inventory = a.inventory.value; numbers = a.numbers.items } };

    ghost invariant = { λ a. a.bytes ≡ min (spec.size a.inventory.value) (2 ^ 64 - 1) };
}

impl ReadyTenant {
    ghost use Rattle.std.specs.Prelude.{◌≡◌, ◌-◌, ◌^◌, ◌&&◌, [], Contains, IfOk, IfSome, is_some, min, nat_lt};
    ghost use Rattle.tenant_cache.specs.Ready.{IsWithNumber};
    ghost use Rattle.tenant_state.specs.Size.{size};
    ghost use Rattle.tenant_state.specs.State.{inventory_after, suits};
    ghost use Rattle.tenant_state.specs.declared.limits.TheConstants.{RECEIPT_LIMIT};

    /// Makes the entry of a tenant from what it has, with no number. Allocates nothing.
    pub fn new(alloc: Global, inventory: Rc<Inventory>) -> Self
        ensures { result ≡ record { inventory = inventory.value; numbers = [] } }
    {
        let bytes = inventory.size();
        ReadyTenant {
            inventory,
            numbers: Vec::new(alloc),
            bytes,
        }
    }

    /// Returns the shared inventory of the tenant.
    pub fn inventory(&self) -> &Rc<Inventory>
        ensures { result.now.value ≡ self.now.inventory }
    {
        &self.inventory
    }

    /// Returns the number of the content of the pool that has the id `pool`, if there is one.
    pub fn number_of(&self, pool: u32) -> Option<u64>
        ensures { IfSome result (λ n. Contains self.now.numbers (pool, n)) }
    {
        for (id, number) in &self.numbers {
            if *id == pool {
                return Some(*number);
            }
        }
        None
    }

    /// Makes the same with one more number, for the content of a pool; the number that was given
    /// first is left out where there are more than `NUMBER_LIMIT`. `Err(AllocError)`: an allocation
    /// failed; nothing is changed.
    pub fn with_number(
        &self,
        alloc: Global,
        pool: u32,
        number: u64,
    ) -> Result<ReadyTenant, AllocError>
        ensures { IfOk result (λ r. IsWithNumber self.now pool number r) }
    {
        let mut numbers = Vec::with_capacity(alloc, NUMBER_LIMIT)?;
        numbers.push((pool, number))?;
        for (id, other) in &self.numbers {
            if numbers.len() < NUMBER_LIMIT && *id != pool {
                numbers.push((*id, *other))?;
            }
        }
        Ok(ReadyTenant {
            inventory: self.inventory.clone()?,
            numbers,
            bytes: self.bytes,
        })
    }

    /// Makes what the tenant has after a change, with no number: its contents are others. `None`,
    /// exactly where what it has can't take the change: there is no room for one more receipt, or
    /// the change doesn't suit the inventory. `Err(AllocError)`: an allocation failed; nothing is
    /// changed.
    pub fn after(
        &self,
        alloc: Global,
        change: &Change,
    ) -> Result<Option<Rc<ReadyTenant>>, AllocError>
        ensures some { IfOk result (λ found. is_some found ≡ (nat_lt self.now.inventory.epoch RECEIPT_LIMIT && suits change.now.made self.now.inventory)) }
        ensures next { IfOk result (λ found. IfSome found (λ r. r.value ≡ record { inventory = inventory_after change.now self.now.inventory; numbers = [] })) }
    {
        if self.inventory.epoch() < RECEIPT_LIMIT as u64 && self.inventory.suits(&change.made) {
            let inventory = Rc::new(alloc, self.inventory.after(alloc, change)?)?;
            Ok(Some(Rc::new(alloc, ReadyTenant::new(alloc, inventory))?))
        } else {
            Ok(None)
        }
    }

    /// Returns the bytes of memory that it takes at most, by an estimate. The numbers add nothing:
    /// they are part of the bytes of an inventory without its parts.
    pub fn size(&self) -> u64
        ensures { result ≡ min (size self.now.inventory) (2 ^ 64 - 1) }
    {
        self.bytes
    }
}
