//! Maps that are written as texts.

ghost use Rattle.std.specs.Prelude.{◌≡◌};
ghost use Rattle.crush_bucket.specs.Tables.{tables_of};

use crush_bucket::Tables;
use crush_map::CrushMap;
use std::alloc::Global;
use std::marker::Model;
use std::test::Fail;
use text_tests::texts::{map_of, map_text};

/// A map of three devices. Its rules answer, whatever the input is: the devices 0, 1 and 2; the
/// device 0 and none; the root and then the device 2; the device 1 twice.
pub const THREE: &str = map_text!(
    "",
    "device 0 osd.0
device 1 osd.1
device 2 osd.2
type 0 osd
type 1 host
type 10 root
root default {
 id -1
 alg uniform
 hash 0
 item osd.0 weight 1.0
}
rule all {
 id 0
 type replicated
 step take osd.0
 step emit
 step take osd.1
 step emit
 step take osd.2
 step emit
}
rule short {
 id 1
 type erasure
 step take default
 step choose indep 2 type osd
 step emit
}
rule root {
 id 2
 type replicated
 step take default
 step emit
 step take osd.2
 step emit
}
rule twice {
 id 3
 type replicated
 step take osd.1
 step emit
 step take osd.1
 step emit
}
"
);

/// A map of two devices, of which the first is the one item of its root.
pub const TWO: &str = map_text!(
    "",
    "device 0 osd.0
device 1 osd.1
type 0 osd
type 1 host
type 10 root
root default {
 id -1
 alg uniform
 hash 0
 item osd.0 weight 1.0
}
rule all {
 id 0
 type replicated
 step take default
 step choose firstn 0 type osd
 step emit
}
"
);

/// A map and its tables. Contracts see the map.
#[derive(Drop)]
pub struct MapTables {
    map: CrushMap,
    tables: Tables,
}

impl Model for MapTables {
    ghost use Rattle.std.specs.Prelude.{◌≡◌};
    ghost use Rattle.crush_map.specs.Map.{Map};
    ghost use Rattle.crush_bucket.specs.Tables.{tables_of};

    ghost Value = { Map };

    ghost view = { λ a. a.map };

    ghost invariant = { λ a. a.tables ≡ tables_of a.map };
}

impl MapTables {
    ghost use Rattle.std.specs.Prelude.{◌≡◌};
    ghost use Rattle.crush_bucket.specs.Tables.{tables_of};

    /// Reads the map of a text, and makes its tables. `Err`: an allocation failed, or the text has
    /// a fault.
    pub fn of_text(alloc: Global, text: &str) -> Result<MapTables, Fail> {
        let map = map_of(alloc, text)?;
        let tables = Tables::build(alloc, &map)?;
        Ok(MapTables { map, tables })
    }

    /// Returns the map.
    pub fn map(&self) -> &CrushMap
        ensures { result.now ≡ self.now }
    {
        &self.map
    }

    /// Returns the tables of the map.
    pub fn tables(&self) -> &Tables
        ensures { result.now ≡ tables_of self.now }
    {
        &self.tables
    }
}
