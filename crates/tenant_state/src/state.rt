//! The state of one tenant, and its changes.

use crate::devices::Devices;
use crate::pool::TenantPool;
use crate::pools::Pools;
use crate::receipts::{Receipt, Receipts};
use crate::size::{INVENTORY_BYTES, plus};
use crate::version::Version;
use crate::versions::Versions;
use crush_map::{CrushMap, Sequence, Text};
use crush_pool::{Content, DeviceState, Placer, Pool, SharedExceptions, rule_with_id};
use std::alloc::{AllocError, Global};
use std::marker::Model;
use std::rc::Rc;
use tenant_messages::Problem;

// ---- changes

/// What a change makes anew.
#[derive(Drop)]
pub enum Product {
    /// One more version.
    Version(Rc<Version>),
    /// These states of devices, each in place of the one that was stored of the same device.
    States(Sequence<DeviceState>),
    /// One more pool, with no exceptions.
    Pool(Rc<Pool>),
    /// The pool with this id has these exceptions, and no others.
    Exceptions(u32, SharedExceptions),
    /// The pool with this id is removed, with its exceptions.
    NoPool(u32),
}

/// An accepted change, whose parts are in their ranges (`IsChange`). Its receipt is stored under
/// the request number.
#[derive(Drop)]
pub struct Change {
    pub number: Text,
    pub receipt: Rc<Receipt>,
    pub made: Product,
}

impl Model for Change {
    ghost use Rattle.tenant_state.specs.State.{Change};
    ghost use Rattle.tenant_state.specs.Made.{made_of};
    ghost use Rattle.tenant_state.specs.Valid.{IsChange};

    ghost Value = { Change };

    ghost view = { λ a. record { number = a.number; receipt = a.receipt.value; made = made_of a.made } };

    ghost invariant = { λ a. IsChange (record { number = a.number; receipt = a.receipt.value; made = made_of a.made }) };
}

// ---- what a tenant has

/// What a tenant has: the versions of its map, the states of devices, the pools with their
/// exceptions, and its epoch. All queries of the tenant are answered from it; of the receipts it
/// has only their number, the epoch. Its parts are in their ranges and orders (`IsInventory`).
#[derive(Drop)]
pub struct Inventory {
    versions: Versions,
    devices: Rc<Devices>,
    pools: Pools,
    epoch: u64,
}

impl Model for Inventory {
    ghost use Rattle.tenant_state.specs.State.{Inventory};
    ghost use Rattle.tenant_state.specs.Valid.{IsInventory};

    ghost Value = { Inventory };

    ghost view = { λ a. record { versions = a.versions; devices = a.devices.value; pools = a.pools; epoch = a.epoch } };

    ghost invariant = { λ a. IsInventory (record { versions = a.versions; devices = a.devices.value; pools = a.pools; epoch = a.epoch }) };
}

impl Inventory {
    ghost use Rattle.std.specs.Prelude.{◌≡◌, ◌<◌, ◌-◌, ◌^◌, [], IfOk, map, min, option_map, true};
    ghost use Rattle.crush_pool.specs.Contents.{content_of};
    ghost use Rattle.crush_map.specs.Map.{IsMap};
    ghost use Rattle.tenant_state.specs.Made.{made_of};
    ghost use Rattle.tenant_state.specs.Size.{size};
    ghost use Rattle.tenant_state.specs.State as spec;
    ghost use Rattle.tenant_state.specs.Valid.{IsInventory};
    ghost use Rattle.tenant_state.specs.declared.limits.TheConstants.{RECEIPT_LIMIT};

    /// Makes the inventory of its parts: the versions 1, 2, .., the states of devices, the pools
    /// and the epoch. Allocates nothing.
    pub fn of(versions: Versions, devices: Rc<Devices>, pools: Pools, epoch: u64) -> Inventory
        requires { IsInventory (record { versions = versions; devices = devices.value; pools = pools; epoch = epoch }) }
        ensures { result ≡ record { versions = versions; devices = devices.value; pools = pools; epoch = epoch } }
    {
        Inventory {
            versions,
            devices,
            pools,
            epoch,
        }
    }

    /// Makes the inventory of a tenant that was just created. `Err(AllocError)`: an allocation
    /// failed; nothing is changed.
    pub fn fresh(alloc: Global) -> Result<Inventory, AllocError>
        ensures { IfOk result (λ i. i ≡ spec.inventory_of spec.fresh) }
    {
        Ok(Inventory::of(
            Versions::of(alloc, Vec::new(alloc))?,
            Rc::new(alloc, Devices::new(alloc)?)?,
            Pools::new(alloc),
            0,
        ))
    }

    /// Returns the number of accepted changes, each of which left one receipt.
    pub fn epoch(&self) -> u64
        ensures same { result ≡ self.now.epoch }
        ensures valid { IsInventory self.now }
    {
        self.epoch
    }

    /// Returns the number of the newest version, or 0 where there is none.
    pub fn newest(&self) -> u64
        ensures { result ≡ spec.newest self.now }
    {
        self.versions().len() as u64
    }

    /// Returns the versions 1, 2, ..
    pub fn versions(&self) -> &[Rc<Version>]
        ensures { map (λ v. v.value) result.now ≡ self.now.versions }
    {
        self.versions.as_slice()
    }

    /// Returns the version with the number `number`, from 1 on, or `None`.
    pub fn version(&self, number: u64) -> Option<&Version>
        ensures { option_map (λ v. v.now) result ≡ spec.version number self.now }
    {
        if number == 0 {
            return None;
        }
        match self.versions().get((number - 1) as usize) {
            Some(version) => Some(version.as_ref()),
            None => None,
        }
    }

    /// Returns the states of devices that were stored.
    pub fn devices(&self) -> &Devices
        ensures { result.now ≡ self.now.devices }
    {
        self.devices.as_ref()
    }

    /// Returns the pools.
    pub fn pools(&self) -> &Pools
        ensures { result.now ≡ self.now.pools }
    {
        &self.pools
    }

    /// Returns whether a map has the rule of each pool.
    pub fn has_rules_in(&self, map: &CrushMap) -> bool
        ensures { result ≡ spec.has_rules_of self.now.pools map.now }
    {
        self.pools
            .as_slice()
            .iter()
            .all(|pool| rule_with_id(map, pool.parts().rule).is_some())
    }

    /// Makes the placer of `pool` on `version`, with the pool's exceptions and the states of
    /// devices as they are now. The problem is `NoRule`, exactly where the version lacks the
    /// pool's rule.
    pub fn on_version<'a>(
        &'a self,
        version: &'a Version,
        pool: &'a TenantPool,
    ) -> Result<Placer<'a>, Problem>
        ensures value { result ≡ spec.on_version self.now pool.now version.now }
        ensures map { IsMap version.now }
    {
        let devices = self.devices();
        Placer::new(
            version.map(),
            version.tables(),
            devices.states(),
            devices.weights(),
            devices.flags(),
            pool.pool(),
            pool.exceptions(),
        )
        .ok_or(Problem::NoRule)
    }

    /// Makes the placer of `pool` on the newest version. The problem is `NoVersion` where there is
    /// no version, and `NoRule` where the newest lacks the pool's rule.
    pub fn on_newest<'a>(&'a self, pool: &'a TenantPool) -> Result<Placer<'a>, Problem>
        ensures { result ≡ spec.on_newest self.now pool.now }
    {
        match self.version(self.newest()) {
            Some(version) => self.on_version(version, pool),
            None => Err(Problem::NoVersion),
        }
    }

    /// Makes the content that the placements of `pool` on `version` depend on, with the pool's
    /// exceptions and the states of devices as they are now. It is shared, and not copied.
    /// `Err(AllocError)`: nothing is changed.
    pub fn content(&self, version: &Version, pool: &TenantPool) -> Result<Content, AllocError>
        ensures { IfOk result (λ c. c ≡ content_of (record { map = version.now; states = self.now.devices; pool = pool.now.parts; pairs = pool.now.pairs })) }
    {
        Content::new(
            version.shared_text(),
            self.devices.shared_states(),
            pool.shared_pool(),
            pool.shared_exceptions(),
        )
    }

    /// Returns the bytes of memory that the inventory takes at most, by an estimate.
    pub fn size(&self) -> u64
        ensures { result ≡ min (size self.now) (2 ^ 64 - 1) }
    {
        let versions = plus(INVENTORY_BYTES, self.versions.size());
        let states = self.devices.size();
        let pools = self.pools.size();
        plus(plus(versions, states), pools)
    }

    /// Returns whether `made` suits the inventory: exceptions suit the pool that they are for,
    /// which is there, and everything else suits. Takes time linear in the number of exceptions.
    pub fn suits(&self, made: &Product) -> bool
        ensures { result ≡ spec.suits (made_of made.now) self.now }
    {
        match made {
            Product::Exceptions(id, exceptions) => match self.pools.get(u64::from(*id)) {
                Some(pool) => pool.can_have(exceptions),
                None => false,
            },
            _ => true,
        }
    }

    /// Makes a copy that shares the parts. `Err(AllocError)`: an allocation failed; nothing is
    /// changed.
    fn copy(&self) -> Result<Inventory, AllocError>
        ensures { IfOk result (λ again. again ≡ self.now) }
    {
        Ok(Inventory {
            versions: self.versions.copy()?,
            devices: self.devices.clone()?,
            pools: self.pools.copy()?,
            epoch: self.epoch,
        })
    }

    /// Makes what the tenant has after a change. What is unchanged is shared, and not copied.
    /// `Err(AllocError)`: an allocation failed; nothing is changed.
    pub fn after(&self, alloc: Global, change: &Change) -> Result<Inventory, AllocError>
        requires room { self.now.epoch < RECEIPT_LIMIT }
        requires suits { spec.suits change.now.made self.now ≡ true }
        ensures { IfOk result (λ i. i ≡ spec.inventory_after change.now self.now) }
    {
        let mut next = self.copy()?;
        next.epoch += 1;
        match &change.made {
            Product::Version(version) => {
                next.versions = next.versions.with(alloc, version)?;
                Ok(next)
            }
            Product::States(changed) => {
                let devices = next.devices.with(alloc, changed.as_slice())?;
                next.devices = Rc::new(alloc, devices)?;
                Ok(next)
            }
            Product::Pool(pool) => {
                next.pools = next.pools.with(alloc, pool)?;
                Ok(next)
            }
            Product::Exceptions(id, exceptions) => {
                next.pools = next.pools.with_exceptions(alloc, *id, exceptions)?;
                Ok(next)
            }
            Product::NoPool(id) => {
                next.pools = next.pools.without(*id)?;
                Ok(next)
            }
        }
    }
}

// ---- states

/// The state of a tenant that exists: what it has, and the receipts of its accepted changes, all
/// within their limits (`IsState`).
#[derive(Drop)]
pub struct TenantState {
    inventory: Rc<Inventory>,
    receipts: Receipts,
}

impl Model for TenantState {
    ghost use Rattle.std.specs.Prelude.{◌≡◌, length};
    ghost use Rattle.tenant_state.specs.State.{TenantState, with_receipts};
    ghost use Rattle.tenant_state.specs.Valid.{IsState};

    ghost Value = { TenantState };

    ghost view = { λ a. with_receipts a.inventory.value a.receipts };

    ghost invariant = { λ a. record {
      epoch : a.inventory.value.epoch ≡ length a.receipts;
      state : IsState (with_receipts a.inventory.value a.receipts);
    } };
}

impl TenantState {
    ghost use Rattle.std.specs.Prelude.{◌≡◌, IfOk, OnOk, OnErr, length, option_map};
    ghost use Rattle.tenant_state.specs.Receipts.{receipt_of};
    ghost use Rattle.tenant_state.specs.State as spec;
    ghost use Rattle.tenant_state.specs.Valid.{IsState};

    /// Makes the state of a tenant with this inventory and these receipts. Allocates nothing.
    pub fn of(inventory: Rc<Inventory>, receipts: Receipts) -> TenantState
        requires epoch { inventory.value.epoch ≡ length receipts }
        requires state { IsState (spec.with_receipts inventory.value receipts) }
        ensures { result ≡ spec.with_receipts inventory.value receipts }
    {
        TenantState {
            inventory,
            receipts,
        }
    }

    /// Makes the state of a tenant that was just created. `Err(AllocError)`: an allocation failed;
    /// nothing is changed.
    pub fn fresh(alloc: Global) -> Result<TenantState, AllocError>
        ensures { IfOk result (λ s. s ≡ spec.fresh) }
    {
        let inventory = Rc::new(alloc, Inventory::fresh(alloc)?)?;
        Ok(TenantState::of(inventory, Receipts::new(alloc)))
    }

    /// Returns the shared inventory of the tenant.
    pub fn inventory(&self) -> &Rc<Inventory>
        ensures same { result.now.value ≡ spec.inventory_of self.now }
        ensures valid { IsState self.now }
    {
        &self.inventory
    }

    /// Returns the receipts.
    pub fn receipts(&self) -> &Receipts
        ensures { result.now ≡ self.now.receipts }
    {
        &self.receipts
    }

    /// Makes a change in place. `Err(AllocError)`: an allocation failed; nothing is changed.
    pub fn change(&mut self, alloc: Global, change: &Change) -> Result<(), AllocError>
        requires { spec.CanMake change.now self.old }
        ensures ok { OnOk result (self.new ≡ spec.after change.now self.old) }
        ensures err { OnErr result (self.new ≡ self.old) }
        ensures valid { IsState self.new }
    {
        let inventory = Rc::new(alloc, self.inventory.after(alloc, change)?)?;
        let number = String::from_str(alloc, change.number.as_str())?;
        let receipt = change.receipt.clone()?;
        self.receipts.insert(number, receipt)?;
        self.inventory = inventory;
        Ok(())
    }

    /// Makes the state after a change. What is unchanged is shared, and not copied.
    /// `Err(AllocError)`: an allocation failed; nothing is changed.
    pub fn after(&self, alloc: Global, change: &Change) -> Result<TenantState, AllocError>
        requires { spec.CanMake change.now self.now }
        ensures { IfOk result (λ s. s ≡ spec.after change.now self.now) }
    {
        let mut state = TenantState {
            inventory: self.inventory.clone()?,
            receipts: self.receipts.copy()?,
        };
        state.change(alloc, change)?;
        Ok(state)
    }
}
