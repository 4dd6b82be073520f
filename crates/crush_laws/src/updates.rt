//! Laws of what is kept in memory by name: each contract is about the definitions alone.

ghost use Rattle.std.specs.Prelude.{◌≡◌, ◌≢◌, ℕ, List, Option, Some, None};
ghost use Rattle.tenant_cache.specs.Kept.{KeptTenants, ReadyTenant, Updates, kept_at};

/// After an update of a name only the new entry is kept of it, and nothing new of another name.
pub fn an_update_is_of_its_name_alone()
    ensures own { (name : List ℕ) (now : Option ReadyTenant) (old new : KeptTenants) (ready : ReadyTenant) → Updates name now old new → kept_at new name ≡ Some ready → now ≡ Some ready }
    ensures none { (name : List ℕ) (old new : KeptTenants) → Updates name None old new → kept_at new name ≡ None }
    ensures others { (name other : List ℕ) (now : Option ReadyTenant) (old new : KeptTenants) (ready : ReadyTenant) → Updates name now old new → other ≢ name
        → kept_at new other ≡ Some ready → kept_at old other ≡ Some ready }
{}
