//! The output of a choose step.

ghost use Rattle.std.specs.Prelude.{◌≡◌, ◌<◌, ◌≤◌, ◌+◌, ◌++◌, [], length, map};
ghost use Rattle.crush_choose.specs.Rules.{put_out, slot_out, step_out};
ghost use Rattle.crush_choose.specs.Private.Runs.{IsPlan, call_of};
ghost use Rattle.crush_choose.specs.declared.limits.TheConstants.{SIZE_LIMIT};

use crate::{FirstnCall, IndepCall, Row, Slot, Weights, choose_firstn, choose_indep};
use crush_bucket::{BucketNo, Scratch};

/// The parameters of a choose step, which are the same for each bucket of the working list.
#[derive(Clone, Copy)]
pub(crate) struct Plan<'a> {
    pub weights: &'a Weights,
    pub firstn: bool,
    pub leaf: bool,
    pub x: u32,
    pub numrep: u32,
    pub wanted: u32,
    pub tries: u32,
    pub leaf_tries: u32,
    pub vary_r: u32,
    pub stable: u32,
}

/// What a choose step puts out, and the items and leaves that a bucket has for it.
#[derive(Drop)]
pub(crate) struct Rows {
    pub out: Row,
    pub items: Row,
    pub leaves: Row,
}

/// Appends slots to a row.
pub(crate) fn append(row: &mut Row, slots: &[Slot])
    requires { length row.old + length slots.now ≤ SIZE_LIMIT }
    ensures { row.new ≡ row.old ++ slots.now }
{
    for slot in slots {
        row.push(*slot);
    }
}

impl<'a> Plan<'a> {
    /// Appends the output of one bucket, at most `room` slots.
    #[tactic(auto, unfolding(crate::specs::Rules::put_out))]
    fn put_out(&self, scratch: &mut Scratch, room: u32, bucket: BucketNo, rows: &mut Rows)
        requires plan { IsPlan self.now }
        requires bucket { bucket < length scratch.old.buckets }
        requires room { length rows.old.out + room ≤ SIZE_LIMIT }
        ensures value { rows.new.out ≡ rows.old.out ++ put_out scratch.old self.now.weights.now (call_of self.now) room bucket }
        ensures room { length (put_out scratch.old self.now.weights.now (call_of self.now) room bucket) ≤ room }
        ensures same { scratch.new ≡ scratch.old }
    {
        if self.numrep == 0 {
            return;
        }
        let tables = scratch.tables();
        if self.firstn {
            let call = FirstnCall {
                bucket,
                x: self.x,
                numrep: self.numrep,
                room,
                wanted: self.wanted,
                tries: self.tries,
                leaf_tries: self.leaf_tries,
                vary_r: self.vary_r,
                stable: self.stable,
            };
            choose_firstn(
                tables,
                scratch,
                &call,
                self.weights,
                &mut rows.items,
                &mut rows.leaves,
            );
        } else {
            let call = IndepCall {
                bucket,
                x: self.x,
                n: self.numrep.min(room),
                numrep: self.numrep,
                wanted: self.wanted,
                tries: self.tries,
                leaf_tries: self.leaf_tries,
            };
            choose_indep(
                tables,
                scratch,
                &call,
                self.weights,
                &mut rows.items,
                &mut rows.leaves,
            );
        }
        if self.leaf {
            append(&mut rows.out, rows.leaves.items());
        } else {
            append(&mut rows.out, rows.items.items());
        }
    }

    /// Appends the output of one slot of the working list: nothing for a device or an empty slot.
    fn slot_out(&self, scratch: &mut Scratch, room: u32, slot: Slot, rows: &mut Rows)
        requires plan { IsPlan self.now }
        requires room { length rows.old.out + room ≤ SIZE_LIMIT }
        ensures value { rows.new.out ≡ rows.old.out ++ slot_out scratch.old self.now.weights.now (call_of self.now) room slot }
        ensures room { length (slot_out scratch.old self.now.weights.now (call_of self.now) room slot) ≤ room }
        ensures same { scratch.new ≡ scratch.old }
    {
        match slot {
            Some(item) => match scratch.tables().bucket_of(item) {
                Some(bucket) => self.put_out(scratch, room, bucket, rows),
                None => {}
            },
            None => {}
        }
    }

    /// Puts out what a working list has, in order, at most `size` slots.
    pub(crate) fn step_out(
        &self,
        scratch: &mut Scratch,
        size: u32,
        working: &[Slot],
        rows: &mut Rows,
    )
        requires plan { IsPlan self.now }
        requires size { size ≤ SIZE_LIMIT }
        requires empty { rows.old.out ≡ [] }
        ensures value { rows.new.out ≡ step_out scratch.old self.now.weights.now (call_of self.now) size working.now }
        ensures room { length rows.new.out ≤ size }
        ensures same { scratch.new ≡ scratch.old }
    {
        for slot in working {
            let room = size - rows.out.len() as u32;
            self.slot_out(scratch, room, *slot, rows);
        }
    }
}
