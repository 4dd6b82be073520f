//! Versions of a tenant's map, each ready for use.

ghost use Rattle.std.specs.Prelude.{◌≡◌, IfOk};
ghost use Rattle.crush_text.specs.crush_writing.specs.Canonical.{canonical};

use crate::size::size_of_version;
use crush_bucket::Tables;
use crush_map::CrushMap;
use crush_pool::SharedText;
use crush_text::{canonical_texts_are_ascii, read_stored, write_map, written_maps_are_read_back};
use std::alloc::{AllocError, Global};
use std::marker::Model;
use std::rc::Rc;

/// A version: a checked map, with its canonical text, and the tables that its rules run on.
/// Contracts see the map.
#[derive(Drop)]
pub struct Version {
    map: CrushMap,
    text: SharedText,
    tables: Tables,
    size: u64,
}

impl Model for Version {
    ghost use Rattle.std.specs.Prelude.{◌≡◌, ◌-◌, ◌^◌, min};
    ghost use Rattle.crush_bucket.specs.Tables.{tables_of};
    ghost use Rattle.crush_map.specs.Map.{Map};
    ghost use Rattle.crush_text.specs.crush_writing.specs.Canonical.{canonical};
    ghost use Rattle.tenant_state.specs.Size.{version_size};

    ghost Value = { Map };

    ghost view = { λ a. a.map };

    ghost invariant = { λ a. record {
      text : a.text ≡ canonical a.map;
      tables : a.tables ≡ tables_of a.map;
      size : a.size ≡ min (version_size a.map) (2 ^ 64 - 1);
    } };
}

impl Version {
    ghost use Rattle.std.specs.Prelude.{◌≡◌, ◌-◌, ◌^◌, ◌↔◌, IfOk, Some, min};
    ghost use Rattle.crush_bucket.specs.Tables.{tables_of};
    ghost use Rattle.crush_map.specs.Map.{IsMap, Map};
    ghost use Rattle.crush_text.specs.crush_writing.specs.Canonical.{canonical};
    ghost use Rattle.tenant_state.specs.Size.{version_size};

    /// Makes the version with this map. `Err(AllocError)`: an allocation failed; the map is
    /// dropped.
    pub fn build(alloc: Global, map: CrushMap) -> Result<Self, AllocError>
        ensures { IfOk result (λ version. version ≡ map) }
    {
        let text = canonical_text(alloc, &map)?;
        let tables = Tables::build(alloc, &map)?;
        let size = size_of_version(&map, text.as_str().len() as u64);
        Ok(Version {
            map,
            text,
            tables,
            size,
        })
    }

    /// Makes the shared version with this map. `Err(AllocError)`: an allocation failed; the map is
    /// dropped.
    pub fn shared(alloc: Global, map: CrushMap) -> Result<Rc<Self>, AllocError>
        ensures { IfOk result (λ version. version.value ≡ map) }
    {
        Ok(Rc::new(alloc, Version::build(alloc, map)?)?)
    }

    /// Makes the version of a canonical text, as `text` gives it. `None`, exactly where the text
    /// isn't the canonical text of a map. `Err(AllocError)`: an allocation failed; nothing is
    /// changed.
    pub fn from_text(alloc: Global, text: &str) -> Result<Option<Self>, AllocError>
        ensures { IfOk result (λ found. (m : Map) → (found ≡ Some m) ↔ (IsMap m × (canonical m ≡ text.now))) }
    {
        written_maps_are_read_back();
        match read_stored(alloc, text.as_bytes())? {
            Ok(map) => {
                // any reader of a map also gives the prover that it is valid, which the law needs
                let _tunables = map.tunables();
                let version = Version::build(alloc, map)?;
                Ok(if version.text() == text {
                    Some(version)
                } else {
                    None
                })
            }
            Err(_) => Ok(None),
        }
    }

    /// Returns the map.
    pub fn map(&self) -> &CrushMap
        ensures { result.now ≡ self.now }
    {
        &self.map
    }

    /// Returns the map's canonical text.
    pub fn text(&self) -> &str
        ensures { result.now ≡ canonical self.now }
    {
        self.text.as_str()
    }

    /// Returns the shared canonical text.
    pub fn shared_text(&self) -> &SharedText
        ensures { result.now ≡ canonical self.now }
    {
        &self.text
    }

    /// Returns the bytes of memory that the version takes at most, by an estimate.
    pub fn size(&self) -> u64
        ensures { result ≡ min (version_size self.now) (2 ^ 64 - 1) }
    {
        self.size
    }

    /// Returns the map's tables.
    pub fn tables(&self) -> &Tables
        ensures { result.now ≡ tables_of self.now }
    {
        &self.tables
    }
}

/// Writes the canonical text of a map, which is ASCII. `Err(AllocError)`: an allocation failed;
/// nothing is changed.
fn canonical_text(alloc: Global, map: &CrushMap) -> Result<SharedText, AllocError>
    ensures { IfOk result (λ text. text ≡ canonical map.now) }
{
    canonical_texts_are_ascii();
    match String::from_utf8(write_map(alloc, map)?) {
        Ok(text) => SharedText::new(text),
        Err(_) => unreachable!(),
    }
}
