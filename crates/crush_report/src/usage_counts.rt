//! How much of a pool lies on each device.

ghost use Rattle.std.specs.Prelude.{◌≡◌, ◌<◌, ◌*◌, ◌^◌, ℕ, Some, IfOk, map};
ghost use Rattle.crush_report.specs.Private.Tallies.{count_at, id_bound, row_by};
ghost use Rattle.crush_report.specs.Usage as spec;
ghost use Rattle.crush_report.specs.Reports.{usage};

use crate::counts::{count_if, count_slot, is_again};
use crate::rows::UsageRow;
use crate::up_runs::UpRun;
use crush_choose::Slot;
use crush_choose::limits::SIZE_LIMIT;
use crush_map::{Device, Sequence};
use crush_pool::Placer;
use std::alloc::{AllocError, Global};
use std::marker::Model;

/// Counts over some up lists: three for each device with an id below a bound, and one of all
/// entries that aren't none.
#[derive(Drop)]
struct Tally {
    groups: Vec<u32>,
    entries: Vec<u32>,
    primaries: Vec<u32>,
    filled: u32,
}

impl Model for Tally {
    ghost use Rattle.crush_report.specs.Private.Tallies.{TallyView};

    ghost Value = { TallyView };

    ghost view = { λ a. record { groups = a.groups.items; entries = a.entries.items; primaries = a.primaries.items; filled = a.filled } };
}

impl Tally {
    ghost use Rattle.std.specs.Prelude.{◌≡◌, ◌<◌, ◌≤◌, ◌+◌, ◌*◌, ◌^◌, ◌&&◌, ℕ, List, [], ◌∷◌, ◌++◌, if◌then◌else◌, IfOk, length};
    ghost use Rattle.crush_choose.specs.Marks.{Slot};
    ghost use Rattle.crush_choose.specs.Firstn.{slot_has};
    ghost use Rattle.crush_choose.specs.declared.limits.TheConstants.{SIZE_LIMIT};
    ghost use Rattle.crush_report.specs.Private.Tallies.{IsTally, HasRoom, HasSameLengths, count_at, row_by};
    ghost use Rattle.crush_pool.specs.Exceptions.{device_item};

    /// Makes the counts over no list, for the devices with ids below a bound. `Err(AllocError)`: an
    /// allocation failed.
    fn new(alloc: Global, bound: usize) -> Result<Tally, AllocError>
        ensures { IfOk result (λ t. IsTally bound [] t) }
    {
        Ok(Tally {
            groups: vec![in alloc; 0; bound]?,
            entries: vec![in alloc; 0; bound]?,
            primaries: vec![in alloc; 0; bound]?,
            filled: 0,
        })
    }

    /// Counts an entry of an up list. `last` says that its device isn't further on in the list, and
    /// `primary` that no entry of the list was counted before.
    fn count(&mut self, entry: Slot, last: bool, primary: bool)
        requires groups { HasRoom self.old.groups 1 }
        requires entries { HasRoom self.old.entries 1 }
        requires primaries { HasRoom self.old.primaries 1 }
        requires filled { self.old.filled + 1 < 2 ^ 32 }
        ensures lens { HasSameLengths self.old self.new }
        ensures groups { (id : ℕ) → id < length self.old.groups → count_at self.new.groups id ≡ count_at self.old.groups id + (if last && slot_has (device_item id) entry then 1 else 0) }
        ensures entries { (id : ℕ) → id < length self.old.entries → count_at self.new.entries id ≡ count_at self.old.entries id + (if slot_has (device_item id) entry then 1 else 0) }
        ensures primaries { (id : ℕ) → id < length self.old.primaries → count_at self.new.primaries id ≡ count_at self.old.primaries id + (if primary && slot_has (device_item id) entry then 1 else 0) }
        ensures filled { self.new.filled ≡ self.old.filled + 1 }
    {
        count_if(last, &mut self.groups, entry);
        count_slot(&mut self.entries, entry);
        count_if(primary, &mut self.primaries, entry);
        self.filled += 1;
    }

    /// Counts the entries of one more up list.
    fn add(&mut self, up: &[Slot])
        requires short { length up.now ≤ SIZE_LIMIT }
        requires groups { HasRoom self.old.groups SIZE_LIMIT }
        requires entries { HasRoom self.old.entries SIZE_LIMIT }
        requires primaries { HasRoom self.old.primaries SIZE_LIMIT }
        requires filled { self.old.filled + SIZE_LIMIT < 2 ^ 32 }
        ensures { (bound : ℕ) (ups : List (List Slot)) → IsTally bound ups self.old → IsTally bound (ups ++ up.now ∷ []) self.new }
    {
        let mut rest = up;
        let mut first = true;
        while let [slot, others @ ..] = rest {
            if slot.is_some() {
                self.count(*slot, !is_again(*slot, others), first);
                first = false;
            }
            rest = others;
        }
    }

    /// Returns the row of a device.
    fn row(&self, device: u32) -> UsageRow
        requires { (id : ℕ) → 1000 * count_at self.now.entries id < 2 ^ 32 }
        ensures { result ≡ row_by self.now device }
    {
        let entries = count_of(&self.entries, device);
        UsageRow {
            device,
            groups: count_of(&self.groups, device),
            entries,
            primaries: count_of(&self.primaries, device),
            permille: permille(entries, self.filled),
        }
    }
}

/// Returns the count of a device; 0 past the end.
fn count_of(counts: &[u32], device: u32) -> u32
    ensures { result ≡ count_at counts.now device }
{
    match counts.get(device as usize) {
        Some(count) => *count,
        None => 0,
    }
}

/// Returns `part` in thousandths of `whole`, rounded down; 0 of nothing.
fn permille(part: u32, whole: u32) -> u32
    requires { 1000 * part < 2 ^ 32 }
    ensures { result ≡ spec.permille part whole }
{
    if whole == 0 { 0 } else { 1000 * part / whole }
}

/// Returns one more than the greatest id of the devices; 0 without a device.
fn bound_of(devices: &[Device]) -> usize
    ensures { result ≡ id_bound devices.now }
{
    let mut bound = 0;
    for device in devices {
        bound = bound.max(device.id as usize + 1);
    }
    bound
}

/// The most words of 8 bytes a group that are stored of answers.
const WORDS_KEPT: u32 = 4;

/// Makes a row for each device, in the order of the devices. `Err(AllocError)`: an allocation
/// failed.
fn rows_of(
    alloc: Global,
    devices: &[Device],
    tally: &Tally,
) -> Result<Sequence<UsageRow>, AllocError>
    requires { (id : ℕ) → 1000 * count_at tally.now.entries id < 2 ^ 32 }
    ensures { IfOk result (λ rows. rows ≡ map (λ d. row_by tally.now d.id) devices.now) }
{
    let mut rows = Vec::with_capacity(alloc, devices.len())?;
    for device in devices {
        rows.push(tally.row(device.id))?;
    }
    Ok(Sequence::new(rows))
}

/// Counts how much of a pool lies on each device of a map, in the order of the devices.
/// `Err(AllocError)`: an allocation failed.
pub fn usage_with(alloc: Global, placer: &Placer) -> Result<Sequence<UsageRow>, AllocError>
    ensures { IfOk result (λ rows. Some rows ≡ usage placer.now.map placer.now.states placer.now.pool placer.now.pairs) }
{
    let parts = placer.pool_parts();
    let devices = placer.map().devices();
    let mut run = UpRun::build(alloc, &*placer, WORDS_KEPT)?;
    let mut up = Vec::with_capacity(alloc, SIZE_LIMIT)?;
    let mut tally = Tally::new(alloc, bound_of(devices))?;
    for group in 0..parts.pg_num {
        run.set_up(&mut up, group)?;
        tally.add(up.as_slice());
    }
    let rows = rows_of(alloc, devices, &tally)?;
    Ok(rows)
}
