//! An assertion that contracts see.

ghost use Rattle.std.specs.Prelude.{◌≡◌, is_some, true};
ghost use Rattle.crush_pool.specs.Placements.{rule_numbered};

use crush_map::CrushMap;
use crush_pool::{Pool, rule_with_id};
use std::process::Abort;

/// Asserts that a map has the rule of a pool.
pub(crate) fn assert_rule(rt: &impl Abort, map: &CrushMap, pool: &Pool)
    ensures { is_some (rule_numbered map.now pool.now.rule) ≡ true }
{
    if rule_with_id(map, pool.parts().rule).is_none() {
        rt.abort()
    }
}
