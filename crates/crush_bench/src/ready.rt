//! A map that is ready to answer.

ghost use Rattle.std.specs.Prelude.{◌≡◌};
ghost use Rattle.crush_map.specs.Map.{IsMap};
ghost use Rattle.crush_bucket.specs.Tables.{scratch_of, tables_of};

use crate::size::Size;
use crush_bucket::{Scratch, Tables};
use crush_choose::laws::rules_of_a_map_can_run;
use crush_choose::{Out, Slot, Weights, run_rule};
use crush_map::CrushMap;
use std::alloc::{AllocError, Global};

/// A map, and all that running its rules needs.
#[derive(Drop)]
pub struct Ready<'a> {
    map: &'a CrushMap,
    tables: &'a Tables,
    scratch: Scratch<'a>,
    weights: Weights,
    out: Out,
    ghost sound: { IsMap map.now },
    ghost laid: { tables.now ≡ tables_of map.now },
    ghost fits: { scratch ≡ scratch_of tables.now },
}

impl<'a> Ready<'a> {
    /// Makes a map ready to answer, with its tables and with pairs of device and reweight.
    pub(crate) fn build(
        alloc: Global,
        map: &'a CrushMap,
        tables: &'a Tables,
        reweights: &[(u32, u32)],
    ) -> Result<Ready<'a>, AllocError>
        requires { tables.now ≡ tables_of map.now }
    {
        // says that the map is valid
        let _tunables = map.tunables();
        Ok(Ready {
            map,
            tables,
            scratch: Scratch::build(alloc, tables)?,
            weights: Weights::build(alloc, map, reweights)?,
            out: Out::build(alloc)?,
        })
    }

    /// Runs the map's first rule for the input `x`. Returns its answer; nothing where it has no
    /// rule.
    pub(crate) fn answer(&mut self, x: u32, size: Size) -> &[Slot] {
        rules_of_a_map_can_run();
        match self.map.rules().first() {
            Some(rule) => {
                run_rule(
                    self.tables,
                    &mut self.scratch,
                    rule,
                    x,
                    size.slots,
                    &self.weights,
                    &mut self.out,
                );
                self.out.items()
            }
            None => &[],
        }
    }
}
