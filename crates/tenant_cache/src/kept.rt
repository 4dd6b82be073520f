//! What the tenants have that were used last, by name, up to a number of bytes.

ghost use Rattle.std.specs.Prelude.{◌≡◌, ◌≤◌, ◌<◌, ◌-◌, ◌^◌, ℕ, length, min, take};
ghost use Rattle.tenant_cache.specs.Bytes.{bytes_in, bytes_of};

use crate::bound::Bound;
use crate::ready::ReadyTenant;
use lru::LruCache;
use std::alloc::{AllocError, Global};
use std::marker::{Model, PhantomData};
use std::rc::Rc;

/// The greatest size in bytes of one entry, and of several together. No memory is larger.
const GREATEST_SIZE: u64 = u64::MAX / 2;

type ByName = LruCache<String, Rc<ReadyTenant>>;

/// What tenants have by name: one entry, or several whose sizes together are at most the bound `B`.
/// The entry that was used least recently is forgotten first. Contracts say what a name may still
/// have; only of a name that is put again do they say that it has it.
#[derive(Drop)]
pub struct KeptTenants<B: Bound> {
    by_name: ByName,
    bytes: u64,
    bound: PhantomData<B>,
}

impl<B: Bound> Model for KeptTenants<B> {
    ghost use Rattle.std.specs.Prelude.{◌≡◌, ◌≤◌, ◌<◌, ◌^◌, length, map, string_bytes};
    ghost use Rattle.tenant_cache.specs.Bytes.{bytes_in};
    ghost use Rattle.tenant_cache.specs.Kept.{KeptTenants};

    ghost Value = { KeptTenants };

    ghost view = { λ a. record { entries = map (λ e. (string_bytes e.0, e.1.value)) a.by_name.entries } };

    ghost invariant = { λ a. record {
      bytes : a.bytes ≡ bytes_in a.by_name.entries;
      is_bounded : 1 < length a.by_name.entries → a.bytes ≤ B.bytes;
      small : a.bytes < 2 ^ 63;
    } };
}

impl<B: Bound> KeptTenants<B> {
    ghost use Rattle.std.specs.Prelude.{◌≡◌, ◌≤◌, ◌<◌, ◌≢◌, ℕ, [], List, Option, Some, None, IfOk, IsSome, is_some, length, option_map, string_bytes};
    ghost use Rattle.tenant_cache.specs.Kept as spec;
    ghost use Rattle.tenant_cache.specs.Kept.{kept_at, bytes_kept, Updates};
    ghost use Rattle.tenant_cache.specs.declared.kept.TheConstants.{GREATEST_SIZE};
    ghost use Rattle.tenant_state.specs.Size.{size};

    /// Makes a cache that keeps nothing yet. `Err(AllocError)`: an allocation failed; nothing is
    /// changed.
    pub fn new(alloc: Global) -> Result<Self, AllocError>
        ensures { IfOk result (λ kept. kept ≡ record { entries = [] }) }
    {
        Ok(KeptTenants {
            by_name: LruCache::unbounded(alloc)?,
            bytes: 0,
            bound: PhantomData,
        })
    }

    /// Returns the bytes that all kept entries take together.
    pub fn bytes(&self) -> u64
        ensures value { result ≡ bytes_kept self.now }
        ensures within { 1 < length self.now.entries → result ≤ B.bytes }
    {
        self.bytes
    }

    /// Returns what is kept of a name, which is then the one used last. `Err(AllocError)`: it
    /// can't be shared; of each name the same is kept as before, or nothing.
    pub fn get(&mut self, name: &str) -> Result<Option<Rc<ReadyTenant>>, AllocError>
        ensures found { IfOk result (λ found. option_map (λ r. r.value) found ≡ kept_at self.old name.now) }
        ensures same { (u : List ℕ) (r : _) → kept_at self.new u ≡ Some r → kept_at self.old u ≡ Some r }
    {
        // a call gives the prover the invariant of its value
        let _count = self.by_name.len();
        self.by_name.promote(name);
        let Some(ready) = self.by_name.peek(name) else {
            return Ok(None);
        };
        Ok(Some(ready.clone()?))
    }

    /// Returns whether something is kept of a name.
    pub fn has(&self, name: &str) -> bool
        ensures { result ≡ is_some (kept_at self.now name.now) }
    {
        self.by_name.peek(name).is_some()
    }

    /// Forgets a name.
    pub fn forget(&mut self, name: &str)
        ensures { Updates name.now None self.old self.new }
    {
        // a call gives the prover the invariant of its value
        let _count = self.by_name.len();
        self.bytes -= size_of(&self.by_name.pop_entry(name));
    }

    /// Keeps what a name has, in place of what was kept of it, and forgets other names where they
    /// have no room beside it. It isn't kept where an allocation fails, or where its size is above
    /// 2^63 - 1 bytes; for a name that is kept already nothing is allocated.
    pub fn put(&mut self, name: String, ready: Rc<ReadyTenant>)
        ensures only { Updates (string_bytes name) (Some ready.value) self.old self.new }
        ensures stays { IsSome (kept_at self.old (string_bytes name)) → size ready.value.inventory ≤ GREATEST_SIZE → kept_at self.new (string_bytes name) ≡ Some ready.value }
    {
        let size = ready.size();
        if size > GREATEST_SIZE {
            self.forget(name.as_str());
            return;
        }
        let bytes = self.bytes + size;
        // a call gives the prover the invariant of its value
        let _count = self.by_name.len();
        match self.by_name.push(name, ready) {
            Ok(displaced) => {
                let bytes = bytes - size_of(&displaced);
                self.bytes = evict(&mut self.by_name, bytes, B::bytes().min(GREATEST_SIZE));
            }
            Err(refused) => {
                let (name, _ready) = refused.value;
                self.forget(name.as_str());
            }
        }
    }
}

/// Returns the bytes that an entry takes, or 0 if there is none.
fn size_of(entry: &Option<(String, Rc<ReadyTenant>)>) -> u64
    ensures { result ≡ min (bytes_of entry.now) (2 ^ 64 - 1) }
{
    match entry {
        Some((_name, ready)) => ready.size(),
        None => 0,
    }
}

/// Forgets the entries that were used least recently, and no more than it must, until the rest
/// takes at most `bound` bytes or is one entry. Returns the bytes that the rest takes.
fn evict(by_name: &mut ByName, bytes: u64, bound: u64) -> u64
    requires { bytes ≡ bytes_in by_name.old.entries }
    ensures value { result ≡ bytes_in by_name.new.entries }
    ensures fits { 1 < length by_name.new.entries → result ≤ bound }
    ensures first { by_name.new.entries ≡ take (length by_name.new.entries) by_name.old.entries }
    ensures one { 0 < length by_name.old.entries → 0 < length by_name.new.entries }
    ensures most { (n : ℕ) → length by_name.new.entries < n → n ≤ length by_name.old.entries → bound < bytes_in (take n by_name.old.entries) }
{
    let mut rest = bytes;
    while rest > bound && by_name.len() > 1 {
        rest -= size_of(&by_name.pop_lru());
    }
    rest
}
