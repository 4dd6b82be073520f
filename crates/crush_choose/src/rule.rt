//! Running a rule.

ghost use Rattle.std.specs.Prelude.{◌≡◌, ◌<◌, ◌≤◌, ◌+◌, ◌-◌, ◌*◌, ◌++◌, [], ◌∷◌, take, length, vec_len, vec_capacity, IfOk, Some, true, ℕ, List};
ghost use Rattle.std.specs.List.Sorted.{IsStrictlyIncreasing};
ghost use Rattle.crush_map.specs.Faults.{are_in_range, has_number};
ghost use Rattle.crush_bucket.specs.Tables.{scratch_of};
ghost use Rattle.crush_choose.specs.Rules as spec;
ghost use Rattle.crush_choose.specs.Rules.{CanRun, IsTrace, rule_answer, with_chosen};
ghost use Rattle.crush_choose.specs.Stability.{AreLoweredOutside};
ghost use Rattle.crush_choose.specs.Private.Runs.{AreSettings, IsPlan, IsRun, IsStep, call_of, settings_in, state_of};
ghost use Rattle.crush_map.specs.declared.limits.TheConstants.{STEP_LIMIT};
ghost use Rattle.crush_choose.specs.declared.limits.TheConstants.{SIZE_LIMIT};

use crate::limits::TRACE_LIMIT;
use crate::plan::{Plan, Rows, append};
use crate::{Row, Slot, Weights};
use crush_bucket::{Scratch, Tables};
use crush_map::{ItemId, Rule, Step, Tunables};
use std::alloc::{AllocError, Global};
use std::marker::Model;

/// The settings that the steps of a rule change.
#[derive(Clone, Copy)]
pub(crate) struct Settings {
    pub tries: u32,
    /// 0 until a step sets it.
    pub leaf_tries: u32,
    pub vary_r: u32,
    pub stable: u32,
}

/// The state of a rule that runs.
#[derive(Drop)]
pub(crate) struct Run {
    pub settings: Settings,
    pub working: Row,
    pub emitted: Row,
    /// What a choose step puts out before it becomes the working list.
    pub rows: Rows,
    /// The devices in the outputs of choose steps.
    pub made: Vec<u32>,
}

/// Returns how many items a choose step with count n asks for, in an answer of `size` slots.
pub(crate) fn reps(n: i32, size: u32) -> u32
    ensures { result ≡ spec.reps n size }
{
    if n > 0 {
        n as u32
    } else {
        size.saturating_sub(n.unsigned_abs())
    }
}

/// Returns how many tries a leaf has.
fn leaf_tries(tunables: Tunables, settings: Settings, firstn: bool) -> u32
    ensures { result ≡ spec.leaf_tries tunables (settings_in settings) firstn }
{
    if settings.leaf_tries > 0 {
        settings.leaf_tries
    } else if firstn {
        if tunables.descend_once == 1 {
            1
        } else {
            settings.tries
        }
    } else {
        1
    }
}

/// Appends the devices among slots.
fn note_devices(made: &mut Vec<u32>, slots: &[Slot])
    requires { vec_len made.old + length slots.now ≤ vec_capacity made.old }
    ensures value { made.new.items ≡ made.old.items ++ spec.devices_of slots.now }
    ensures few { vec_len made.new ≤ vec_len made.old + length slots.now }
    ensures capacity { vec_capacity made.old ≤ vec_capacity made.new }
{
    for slot in slots {
        if let Some(item) = *slot {
            note_device(made, item);
        }
    }
}

/// Appends an item if it is a device.
fn note_device(made: &mut Vec<u32>, item: ItemId)
    requires { vec_len made.old < vec_capacity made.old }
    ensures value { made.new.items ≡ made.old.items ++ spec.devices_before item.0 [] }
    ensures few { vec_len made.new ≤ vec_len made.old + 1 }
    ensures capacity { vec_capacity made.old ≤ vec_capacity made.new }
{
    if item.0 >= 0 && made.push(item.0 as u32).is_err() {
        unreachable!();
    }
}

/// Appends slots to the answer until it has `size` slots.
fn emit(emitted: &mut Row, working: &[Slot], size: u32)
    requires size { size ≤ SIZE_LIMIT }
    requires room { length emitted.old ≤ size }
    ensures value { emitted.new ≡ emitted.old ++ take (size - length emitted.old) working.now }
    ensures room { length emitted.new ≤ size }
{
    let room = size as usize - emitted.len();
    append(emitted, &working[..room.min(working.len())]);
}

/// Runs one choose step, after k steps.
fn choose(plan: &Plan, scratch: &mut Scratch, size: u32, run: &mut Run, k: u32)
    requires plan { IsPlan plan.now }
    requires size { size ≤ SIZE_LIMIT }
    requires few { k < STEP_LIMIT }
    requires run { IsRun size k run.old }
    ensures value { state_of run.new ≡ with_chosen (state_of run.old) (spec.step_out scratch.old plan.now.weights.now (call_of plan.now) size run.old.working) }
    ensures run { IsRun size (k + 1) run.new }
    ensures same { scratch.new ≡ scratch.old }
{
    run.rows.out.clear();
    plan.step_out(scratch, size, run.working.items(), &mut run.rows);
    let out = run.rows.out.items();
    note_devices(&mut run.made, out);
    run.working.clear();
    append(&mut run.working, out);
}

/// Makes a run ready for its first step.
fn start(tunables: Tunables, run: &mut Run)
    requires tunables { are_in_range tunables ≡ true }
    requires capacity { TRACE_LIMIT ≤ vec_capacity run.old.made }
    ensures value { state_of run.new ≡ spec.start tunables }
    ensures run { (size : ℕ) → IsRun size 0 run.new }
{
    run.settings = Settings {
        tries: tunables.total_tries + 1,
        leaf_tries: 0,
        vary_r: tunables.vary_r,
        stable: tunables.stable,
    };
    run.working.clear();
    run.emitted.clear();
    run.made.clear();
}

/// Makes the trace: the devices in ascending order, each once.
fn finish(made: &mut Vec<u32>)
    ensures rising { IsStrictlyIncreasing made.new.items }
    ensures same { (d : ℕ) → has_number made.new.items d ≡ has_number made.old.items d }
    ensures capacity { vec_capacity made.new ≡ vec_capacity made.old }
{
    made.sort_unstable();
    made.dedup();
}

/// What a rule is run on beside a scratch: the reweights, the input, and how many slots the answer
/// has at most.
#[derive(Clone, Copy)]
struct Runner<'a> {
    weights: &'a Weights,
    x: u32,
    size: u32,
    ghost few: { size ≤ SIZE_LIMIT },
}

impl<'a> Runner<'a> {
    /// Runs one step of a rule, after k steps.
    fn after_step(&self, scratch: &mut Scratch, run: &mut Run, step: Step, k: u32)
        requires few { k < STEP_LIMIT }
        requires step { IsStep self.now.size step }
        requires run { IsRun self.now.size k run.old }
        ensures value { let s = self.now in state_of run.new ≡ spec.after_step scratch.old s.weights.now s.x s.size (state_of run.old) step }
        ensures run { IsRun self.now.size (k + 1) run.new }
        ensures same { scratch.new ≡ scratch.old }
    {
        match step {
            Step::Take(item) => {
                run.working.clear();
                run.working.push(Some(item));
            }
            Step::SetChooseTries(n) => {
                if n != 0 {
                    run.settings.tries = n;
                }
            }
            Step::SetLeafTries(n) => {
                if n != 0 {
                    run.settings.leaf_tries = n;
                }
            }
            Step::SetVaryR(n) => run.settings.vary_r = n,
            Step::SetStable(n) => run.settings.stable = n,
            Step::Choose {
                firstn,
                leaf,
                n,
                wanted,
            } => {
                let settings = run.settings;
                let plan = Plan {
                    weights: self.weights,
                    firstn,
                    leaf,
                    x: self.x,
                    numrep: reps(n, self.size),
                    wanted,
                    tries: settings.tries,
                    leaf_tries: if leaf {
                        leaf_tries(scratch.tables().tunables(), settings, firstn)
                    } else {
                        0
                    },
                    vary_r: settings.vary_r,
                    stable: settings.stable,
                };
                choose(&plan, scratch, self.size, run, k);
            }
            Step::Emit => {
                emit(&mut run.emitted, run.working.items(), self.size);
                run.working.clear();
            }
        }
    }

    /// Runs the steps of a rule in order.
    #[tactic(auto, unfolding(crate::specs::Rules::after_rule))]
    fn take_steps(&self, scratch: &mut Scratch, rule: &Rule, run: &mut Run)
        requires rule { CanRun scratch.old rule.now }
        requires capacity { TRACE_LIMIT ≤ vec_capacity run.old.made }
        ensures items { let s = self.now in run.new.emitted ≡ rule_answer scratch.old s.weights.now rule.now.steps s.x s.size }
        ensures room { length run.new.emitted ≤ self.now.size }
        ensures made { let s = self.now in run.new.made.items ≡ (spec.after_rule scratch.old s.weights.now rule.now.steps s.x s.size).made }
        ensures capacity { TRACE_LIMIT ≤ vec_capacity run.new.made }
        ensures same { scratch.new ≡ scratch.old }
    {
        let steps = rule.steps.as_slice();
        start(scratch.tables().tunables(), run);
        for (k, step) in steps.iter().enumerate() {
            self.after_step(scratch, run, *step, k as u32);
        }
    }

    /// Runs the steps of a rule in order, then makes the trace.
    fn trace_steps(&self, scratch: &mut Scratch, rule: &Rule, run: &mut Run)
        requires rule { CanRun scratch.old rule.now }
        requires capacity { TRACE_LIMIT ≤ vec_capacity run.old.made }
        ensures items { let s = self.now in run.new.emitted ≡ rule_answer scratch.old s.weights.now rule.now.steps s.x s.size }
        ensures room { length run.new.emitted ≤ self.now.size }
        ensures trace { let s = self.now in IsTrace scratch.old s.weights.now rule.now.steps s.x s.size run.new.made.items }
        ensures capacity { TRACE_LIMIT ≤ vec_capacity run.new.made }
        ensures same { scratch.new ≡ scratch.old }
    {
        self.take_steps(scratch, rule, run);
        finish(&mut run.made);
    }
}

/// Returns whether a number is in a list.
fn has_number(numbers: &[u32], number: u32) -> bool
    ensures { result ≡ has_number numbers.now number }
{
    numbers.iter().any(|other| *other == number)
}

/// The answer of a rule and the trace of its run, with the memory for both. Contracts see both as
/// lists.
#[derive(Drop)]
pub struct Out {
    run: Run,
}

impl Model for Out {
    ghost use Rattle.std.specs.Prelude.{◌≤◌, vec_capacity};
    ghost use Rattle.crush_choose.specs.Outs.{OutView};
    ghost use Rattle.crush_choose.specs.declared.limits.TheConstants.{TRACE_LIMIT};

    ghost Value = { OutView };

    ghost view = { λ a. record { items = a.run.emitted; trace = a.run.made.items } };

    ghost invariant = { λ a. TRACE_LIMIT ≤ vec_capacity a.run.made };
}

impl Out {
    /// Makes an empty answer and an empty trace, with the memory that any rule needs.
    ///
    /// `Err(AllocError)`: an allocation failed; nothing is changed.
    pub fn build(alloc: Global) -> Result<Out, AllocError>
        ensures items { IfOk result (λ out. out.items ≡ []) }
        ensures trace { IfOk result (λ out. out.trace ≡ []) }
    {
        let made = Vec::with_capacity(alloc, TRACE_LIMIT)?;
        Ok(Out {
            run: Run {
                settings: Settings {
                    tries: 0,
                    leaf_tries: 0,
                    vary_r: 0,
                    stable: 0,
                },
                working: Row::new(),
                emitted: Row::new(),
                rows: Rows {
                    out: Row::new(),
                    items: Row::new(),
                    leaves: Row::new(),
                },
                made,
            },
        })
    }

    /// Returns the answer, in order; a slot of an indep step may be empty.
    pub fn items(&self) -> &[Slot]
        ensures value { result.now ≡ self.now.items }
        ensures fits { length result.now ≤ SIZE_LIMIT }
    {
        self.run.emitted.items()
    }

    /// Returns the trace that `run_rule` left: the devices in the outputs of choose steps, in
    /// ascending order, each once.
    pub fn trace(&self) -> &[u32]
        ensures { result.now ≡ self.now.trace }
    {
        self.run.made.as_slice()
    }
}

/// Runs a rule for an input: sets `out` to its answer, at most `size` slots, and to the trace of
/// the run (`crush_do_rule` of Ceph's `mapper.c`). Allocates nothing.
///
/// Lower reweights of devices outside the trace, of any number of them at once, leave the answer
/// and the trace as they are.
pub fn run_rule(
    tables: &Tables,
    scratch: &mut Scratch,
    rule: &Rule,
    x: u32,
    size: u32,
    weights: &Weights,
    out: &mut Out,
)
    requires rule { CanRun tables.now rule.now }
    requires fits { scratch.old ≡ scratch_of tables.now }
    requires some { 1 ≤ size }
    requires few { size ≤ SIZE_LIMIT }
    ensures items { out.new.items ≡ rule_answer tables.now weights.now rule.now.steps x size }
    ensures room { length out.new.items ≤ size }
    ensures trace { IsTrace tables.now weights.now rule.now.steps x size out.new.trace }
    ensures stays { (lowered : List ℕ) → AreLoweredOutside out.new.trace weights.now lowered → rule_answer tables.now lowered rule.now.steps x size ≡ out.new.items }
    ensures trace_stays { (lowered : List ℕ) → AreLoweredOutside out.new.trace weights.now lowered → IsTrace tables.now lowered rule.now.steps x size out.new.trace }
    ensures fits { scratch.new ≡ scratch_of tables.now }
{
    let runner = Runner { weights, x, size };
    runner.trace_steps(scratch, rule, &mut out.run);
}

/// Runs a rule for an input as `run_rule` does, and returns whether a device is in the trace of the
/// run. The trace isn't sorted: afterwards `out` has the rule's answer, and no clause says what its
/// trace is. Allocates nothing.
pub fn touches(
    tables: &Tables,
    scratch: &mut Scratch,
    rule: &Rule,
    x: u32,
    size: u32,
    weights: &Weights,
    out: &mut Out,
    device: u32,
) -> bool
    requires rule { CanRun tables.now rule.now }
    requires fits { scratch.old ≡ scratch_of tables.now }
    requires some { 1 ≤ size }
    requires few { size ≤ SIZE_LIMIT }
    ensures touched { (trace : List ℕ) → IsTrace tables.now weights.now rule.now.steps x size trace → result ≡ has_number trace device }
    ensures items { out.new.items ≡ rule_answer tables.now weights.now rule.now.steps x size }
    ensures room { length out.new.items ≤ size }
    ensures fits { scratch.new ≡ scratch_of tables.now }
{
    let runner = Runner { weights, x, size };
    runner.take_steps(scratch, rule, &mut out.run);
    has_number(out.run.made.as_slice(), device)
}
