//! The up lists of a pool's groups, one after the other.

use crate::answers::Answers;
use crush_bucket::Scratch;
use crush_choose::{Out, Slot};
use crush_pool::Placer;
use std::alloc::{AllocError, Global};
use std::marker::Model;

/// Finds the up lists of a pool's groups, one after the other: what they share is answered once.
/// Contracts see the pool on its map alone.
#[derive(Drop)]
pub struct UpRun<'a> {
    placer: &'a Placer<'a>,
    answers: Answers,
    scratch: Scratch<'a>,
    out: Out,
}

impl<'a> Model for UpRun<'a> {
    ghost use Rattle.std.specs.Prelude.{◌≡◌};
    ghost use Rattle.crush_bucket.specs.Tables.{scratch_of, tables_of};
    ghost use Rattle.crush_pool.specs.Placers.{PoolOnMap};
    ghost use Rattle.crush_report.specs.Private.Places.{AreAnswers};

    ghost Value = { PoolOnMap };

    ghost view = { λ a. a.placer.now };

    ghost invariant = { λ a. record {
      answers : AreAnswers a.placer.now a.answers;
      fits : a.scratch ≡ scratch_of (tables_of a.placer.now.map);
    } };
}

impl<'a> UpRun<'a> {
    ghost use Rattle.std.specs.Prelude.{◌≡◌, IfOk, OnOk, is_some, true};
    ghost use Rattle.crush_pool.specs.Placements.{rule_numbered};
    ghost use Rattle.crush_report.specs.OnMaps.{up_on};

    /// Makes the run that finds the up lists of the placer's pool. It stores at most `most` words
    /// of 8 bytes a group of what groups share. `Err(AllocError)`: an allocation failed.
    pub fn build(alloc: Global, placer: &'a Placer<'a>, most: u32) -> Result<UpRun<'a>, AllocError>
        ensures same { IfOk result (λ run. run ≡ placer.now) }
        ensures rule { is_some (rule_numbered placer.now.map placer.now.pool.rule) ≡ true }
    {
        let mut scratch = Scratch::for_many(alloc, placer.tables())?;
        let mut out = Out::build(alloc)?;
        let answers = Answers::build(alloc, placer, &mut scratch, &mut out, most)?;
        Ok(UpRun {
            placer,
            answers,
            scratch,
            out,
        })
    }

    /// Sets `up` to the up list of a group. The rule runs where the answer for the group's place
    /// isn't stored; it takes least time where groups come in order. `Err(AllocError)`: an
    /// allocation failed.
    pub fn set_up(&mut self, up: &mut Vec<Slot>, group: u32) -> Result<(), AllocError>
        ensures up { OnOk result (up.new.items ≡ up_on self.old group) }
        ensures same { self.new ≡ self.old }
    {
        let placer = self.placer;
        match self.answers.kept(placer, group) {
            Some(raw) => placer.set_up(up, group, raw),
            None => {
                placer.run_next(&mut self.scratch, &mut self.out, group);
                placer.set_up(up, group, self.out.items())
            }
        }
    }
}
