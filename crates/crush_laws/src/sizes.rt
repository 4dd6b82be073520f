//! Laws of sizes: each contract is about the definitions alone.

ghost use Rattle.std.specs.Prelude.{◌≡◌, ◌≤◌, ◌+◌, ◌*◌, ◌++◌, ℕ, List, [], ◌∷◌, length, Some};
ghost use Rattle.std.specs.List.{sum_by};
ghost use Rattle.std.specs.Map.{values_of};
ghost use Rattle.crush_map.specs.Map.{Map};
ghost use Rattle.tenant_cache.specs.Kept.{KeptTenants, ReadyTenant, bytes_kept, kept_at};
ghost use Rattle.tenant_core.specs.tenant_state.specs.Size.{pool_size, size, version_size};
ghost use Rattle.tenant_core.specs.tenant_state.specs.State.{Inventory, TenantPool};
ghost use Rattle.crush_laws.specs.Sizes.{item_count, pair_count, step_count, text_bytes};

/// An inventory takes at least the bytes of its texts, and beside them 8 for each item of a bucket,
/// 16 for each step of a rule, and 12 for each state of a device and each pair. One more version or
/// pool adds its whole size.
pub fn what_a_tenant_has_takes_the_bytes_of_its_texts()
    ensures texts { (inventory : Inventory) → text_bytes inventory ≤ size inventory }
    ensures lists { (inventory : Inventory) → text_bytes inventory + 8 * item_count inventory + 16 * step_count inventory + 12 * length inventory.devices + 12 * pair_count inventory ≤ size inventory }
    ensures version { (inventory : Inventory) (m : Map) → size (record inventory { versions = inventory.versions ++ m ∷ [] }) ≡ size inventory + version_size m }
    ensures pool { (inventory : Inventory) (pool : TenantPool) → size (record inventory { pools = inventory.pools ++ pool ∷ [] }) ≡ size inventory + pool_size pool }
{}

/// All kept inventories together take at least the size of each one, and at least the bytes of
/// their texts.
pub fn what_is_kept_takes_the_bytes_of_its_texts()
    ensures each { (kept : KeptTenants) (name : List ℕ) (ready : ReadyTenant) → kept_at kept name ≡ Some ready → size ready.inventory ≤ bytes_kept kept }
    ensures texts { (kept : KeptTenants) → sum_by (λ ready. text_bytes ready.inventory) (values_of kept.entries) ≤ bytes_kept kept }
{}
