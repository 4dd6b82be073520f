//! The versions of a tenant.

use crate::size::size_of_versions;
use crate::version::Version;
use std::alloc::{AllocError, Global};
use std::marker::Model;
use std::rc::Rc;

/// The versions 1, 2, .., which are shared as one list: a change that adds no version takes no time
/// for each of them. Contracts see their maps.
#[derive(Drop)]
pub struct Versions {
    list: Rc<Vec<Rc<Version>>>,
    /// How many bytes the versions take.
    size: u64,
}

impl Model for Versions {
    ghost use Rattle.std.specs.Prelude.{◌≡◌, ◌-◌, ◌^◌, List, map, min};
    ghost use Rattle.std.specs.List.{sum_by};
    ghost use Rattle.crush_map.specs.Map.{Map};
    ghost use Rattle.tenant_state.specs.Size.{version_size};

    ghost Value = { List Map };

    ghost view = { λ a. map (λ v. v.value) a.list.value.items };

    ghost invariant = { λ a. a.size ≡ min (sum_by version_size (map (λ v. v.value) a.list.value.items)) (2 ^ 64 - 1) };
}

impl Versions {
    ghost use Rattle.std.specs.Prelude.{◌≡◌, ◌++◌, ◌∷◌, ◌-◌, ◌^◌, [], IfOk, map, min};
    ghost use Rattle.std.specs.List.{sum_by};
    ghost use Rattle.tenant_state.specs.Size.{version_size};

    /// Makes the list of versions 1, 2, .. `Err(AllocError)`: an allocation failed; the list is
    /// dropped.
    pub fn of(alloc: Global, list: Vec<Rc<Version>>) -> Result<Self, AllocError>
        ensures { IfOk result (λ versions. versions ≡ map (λ v. v.value) list.items) }
    {
        let size = size_of_versions(&list);
        let list = Rc::new(alloc, list)?;
        Ok(Versions { list, size })
    }

    /// Returns the versions 1, 2, ..
    pub fn as_slice(&self) -> &[Rc<Version>]
        ensures { map (λ v. v.value) result.now ≡ self.now }
    {
        self.list.as_ref().as_slice()
    }

    /// Returns the bytes of memory that the versions take at most, by an estimate.
    pub fn size(&self) -> u64
        ensures { result ≡ min (sum_by version_size self.now) (2 ^ 64 - 1) }
    {
        self.size
    }

    /// Shares the versions. `Err(AllocError)`: an allocation failed; nothing is changed.
    pub fn copy(&self) -> Result<Self, AllocError>
        ensures { IfOk result (λ again. again ≡ self.now) }
    {
        Ok(Versions {
            list: self.list.clone()?,
            size: self.size,
        })
    }

    /// Makes a list with one more version. `Err(AllocError)`: an allocation failed; nothing is
    /// changed.
    pub fn with(&self, alloc: Global, version: &Rc<Version>) -> Result<Self, AllocError>
        ensures { IfOk result (λ versions. versions ≡ self.now ++ version.now.value ∷ []) }
    {
        let before = self.list.as_ref();
        let mut list = before.clone()?;
        list.push(version.clone()?)?;
        Versions::of(alloc, list)
    }
}
