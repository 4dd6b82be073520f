//! Laws of walks, answers, rules and traces. A call does nothing; its contract is the law.

ghost use Rattle.std.specs.Prelude.{◌≡◌, ◌↔◌, ℕ, ℤ, List, All, Contains, map, slice_get, Some, true, false, ◌<◌, length, Option, None};
ghost use Rattle.crush_map.specs.declared.draft.Rule.{Rule};
ghost use Rattle.crush_map.specs.declared.draft.Step.{Step};
ghost use Rattle.crush_map.specs.declared.draft.Step.TheVariants.{Choose};
ghost use Rattle.crush_map.specs.declared.draft.Tunables.{Tunables};
ghost use Rattle.crush_map.specs.Map.{Map, IsMap};
ghost use Rattle.crush_bucket.specs.Laws.{HasNoDeviceBucket, PicksBelow};
ghost use Rattle.crush_bucket.specs.Tables.{TablesView, tables_of};
ghost use Rattle.crush_choose.specs.declared.firstn.FirstnCall.{FirstnCall};
ghost use Rattle.crush_choose.specs.Marks.{Slot, Marks};
ghost use Rattle.crush_choose.specs.Firstn.{firstn, IsFirstnAnswer};
ghost use Rattle.crush_choose.specs.Trace.{rule_trace};
ghost use Rattle.crush_choose.specs.Rules.{CanRun, IsTrace, Running, Settings, choose_call, step_out, after_step};
ghost use Rattle.crush_choose.specs.declared.indep.IndepCall.{IndepCall};
ghost use Rattle.crush_choose.specs.declared.mark.Mark.{Mark};
ghost use Rattle.crush_choose.specs.Least.{least};
ghost use Rattle.crush_choose.specs.Reach.{reach, reach_below};
ghost use Rattle.crush_choose.specs.Indep.{IsIndepAnswer, indep};
ghost use Rattle.crush_choose.specs.Laws.{reach_after_pick};
ghost use Rattle.crush_choose.specs.Entries.{Entry, AreEntries, AreFirstnEntries, entries};

use crush_bucket::laws::{buckets_of_a_map_pick_below, no_bucket_of_a_map_has_type_0};
use crush_map::buckets_are_sound;

/// Each rule of a map can run on the tables of the map.
pub fn rules_of_a_map_can_run()
    ensures { (m : Map) (place : ℕ) (rule : Rule) → IsMap m → slice_get m.rules place ≡ Some rule → CanRun (tables_of m) rule }
{}

/// Where no bucket has type 0, as on the tables of every map, a step `chooseleaf firstn` of type 0
/// does what `choose firstn` does.
pub fn chooseleaf_of_devices_is_choose()
    ensures marks { (t : TablesView) (w : List ℕ) (c : FirstnCall) → HasNoDeviceBucket t → c.wanted ≡ 0 → firstn t w c ≡ firstn t w (record c { leaf_tries = 0 }) }
    ensures out { (t : TablesView) (w : List ℕ) (tunables : Tunables) (s : Settings) (x size : ℕ) (n : ℤ) (working : List Slot) → HasNoDeviceBucket t → step_out t w (choose_call tunables s x size true true n 0) size working ≡ step_out t w (choose_call tunables s x size true false n 0) size working }
    ensures map { (m : Map) (w : List ℕ) (x size : ℕ) (s : Running) (n : ℤ) → IsMap m → after_step (tables_of m) w x size s (Choose true true n 0) ≡ after_step (tables_of m) w x size s (Choose true false n 0) }
{
    no_bucket_of_a_map_has_type_0();
}

/// A list is the trace of a rule's run exactly where it is `rule_trace`.
pub fn traces_ascend()
    ensures { (t : TablesView) (w : List ℕ) (steps : List Step) (x size : ℕ) (trace : List ℕ) → IsTrace t w steps x size trace ↔ (trace ≡ rule_trace t w steps x size) }
{}

/// The trace of a run on the tables of a map has devices of the map alone: for any steps, so for
/// those of each of its rules, and for any reweights.
pub fn traces_are_of_the_map()
    ensures { (m : Map) (w : List ℕ) (steps : List Step) (x size : ℕ) → IsMap m → All (Contains (map (λ d. d.id) m.devices)) (rule_trace (tables_of m) w steps x size) }
{
    buckets_of_a_map_pick_below();
    buckets_are_sound();
}

/// The value of `least` is that of a try below the bound before which no try has one; where `least`
/// has none, no try below the bound has one.
pub fn least_is_first()
    ensures some { (tries : ℕ → Option Mark) (n : ℕ) (a : Mark) → least tries n ≡ Some a → (i : ℕ) × (i < n) × (tries i ≡ Some a) × ((j : ℕ) → j < i → tries j ≡ None) }
    ensures none { (tries : ℕ → Option Mark) (n : ℕ) → least tries n ≡ None → (j : ℕ) → j < n → tries j ≡ None }
{}

/// A walk is one pick followed by the walk from the picked item; it ends after at most as many
/// picks as its bucket's number and one more.
pub fn walk_goes_on()
    ensures step { (t : TablesView) (x : ℕ) (rr : ℕ → ℕ) (wanted bucket : ℕ) → PicksBelow t → bucket < length t.buckets → reach t x rr wanted bucket ≡ reach_after_pick t x rr wanted bucket }
    ensures enough { (t : TablesView) (x : ℕ) (rr : ℕ → ℕ) (wanted bucket n : ℕ) → PicksBelow t → bucket < length t.buckets → bucket < n → reach_below t x rr wanted n bucket ≡ reach t x rr wanted bucket }
{}

/// The law `walk_goes_on` on the tables of every map.
pub fn walk_on_a_map_goes_on()
    ensures step { (m : Map) (x : ℕ) (rr : ℕ → ℕ) (wanted bucket : ℕ) → IsMap m → bucket < length m.buckets → reach (tables_of m) x rr wanted bucket ≡ reach_after_pick (tables_of m) x rr wanted bucket }
    ensures enough { (m : Map) (x : ℕ) (rr : ℕ → ℕ) (wanted bucket n : ℕ) → IsMap m → bucket < length m.buckets → bucket < n → reach_below (tables_of m) x rr wanted n bucket ≡ reach (tables_of m) x rr wanted bucket }
{
    buckets_of_a_map_pick_below();
}

/// The entries of marks are what the marks place, in ascending order of rep.
pub fn marks_are_entries()
    ensures { (marks : Marks) → AreEntries marks (entries marks) }
{}

/// The entries of an answer's marks are an answer as entries, and each answer as entries is that of
/// an answer's marks.
pub fn entries_are_those_of_marks()
    ensures entries { (t : TablesView) (w : List ℕ) (c : FirstnCall) (marks : Marks) → IsFirstnAnswer t w c marks → AreFirstnEntries t w c (entries marks) }
    ensures marks { (t : TablesView) (w : List ℕ) (c : FirstnCall) (found : List Entry) → AreFirstnEntries t w c found → (marks : Marks) × IsFirstnAnswer t w c marks × (found ≡ entries marks) }
{}

/// A call of choose firstn has exactly one answer as entries.
pub fn one_list_of_entries()
    ensures there { (t : TablesView) (w : List ℕ) (c : FirstnCall) → AreFirstnEntries t w c (entries (firstn t w c)) }
    ensures one { (t : TablesView) (w : List ℕ) (c : FirstnCall) (found : List Entry) → AreFirstnEntries t w c found → found ≡ entries (firstn t w c) }
{}

/// A call of choose firstn has exactly one answer as marks.
pub fn one_firstn_answer()
    ensures there { (t : TablesView) (w : List ℕ) (c : FirstnCall) → IsFirstnAnswer t w c (firstn t w c) }
    ensures one { (t : TablesView) (w : List ℕ) (c : FirstnCall) (marks : Marks) → IsFirstnAnswer t w c marks → marks ≡ firstn t w c }
{}

/// A call of choose indep has exactly one answer.
pub fn one_indep_answer()
    ensures there { (t : TablesView) (w : List ℕ) (c : IndepCall) → IsIndepAnswer t w c (indep t w c) }
    ensures one { (t : TablesView) (w : List ℕ) (c : IndepCall) (marks : Marks) → IsIndepAnswer t w c marks → marks ≡ indep t w c }
{}
