//! The names whose receipts were judged since the opening.

ghost use Rattle.std.specs.Prelude.{◌≡◌, ℕ, List, Some, None, IfSome};
ghost use Rattle.std.specs.BTreeMap.{get_by_text};
ghost use Rattle.tenant_store.specs.Judged.{Adds, Forgets, Updates};

use std::alloc::Global;
use std::collections::BTreeMap;

/// The number of versions of each tenant whose receipts were judged, by its name.
pub type JudgedVersions = BTreeMap<String, u64>;

/// Remembers that the tenant with the name has `versions` versions. Where there is no memory for
/// it, nothing is changed.
pub fn remember(alloc: Global, judged: &mut JudgedVersions, name: &str, versions: u64)
    ensures { Adds name.now versions (get_by_text judged.old) (get_by_text judged.new) }
{
    if let Ok(key) = String::from_str(alloc, name) {
        let _earlier = judged.insert(key, versions);
    }
}

/// Sets the number of versions of the name, if the name is there. Allocates nothing.
pub fn update(judged: &mut JudgedVersions, name: &str, versions: u64)
    ensures { Updates name.now versions (get_by_text judged.old) (get_by_text judged.new) }
{
    if let Some(count) = judged.get_mut(name) {
        *count = versions;
    }
}

/// Forgets the name. Allocates nothing.
pub fn forget(judged: &mut JudgedVersions, name: &str)
    ensures { Forgets name.now (get_by_text judged.old) (get_by_text judged.new) }
{
    let _versions = judged.remove(name);
}
