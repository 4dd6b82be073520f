//! Laws of a rule's run under lowered reweights: each contract holds of the definitions alone.

ghost use Rattle.std.specs.Prelude.{◌≡◌, ◌≢◌, ◌<◌, ◌≤◌, ℕ, List, true};
ghost use Rattle.crush_map.specs.declared.draft.Step.{Step};
ghost use Rattle.crush_map.specs.Faults.{has_number};
ghost use Rattle.crush_bucket.specs.Tables.{TablesView};
ghost use Rattle.crush_choose.specs.Weights.{weight_at};
ghost use Rattle.crush_choose.specs.Rules.{IsTrace, after_rule, rule_answer};
ghost use Rattle.crush_choose.specs.Stability.{AreLoweredOutside};

/// Reweights that are lowered outside the trace of a run change neither its answer nor its trace,
/// however many devices are lowered at once.
pub fn lowering_outside_the_trace_changes_nothing()
    ensures run { (t : TablesView) (w lowered : List ℕ) (steps : List Step) (x size : ℕ) → AreLoweredOutside (after_rule t w steps x size).made w lowered → after_rule t lowered steps x size ≡ after_rule t w steps x size }
    ensures answer { (t : TablesView) (w lowered : List ℕ) (steps : List Step) (x size : ℕ) (trace : List ℕ) → IsTrace t w steps x size trace → AreLoweredOutside trace w lowered → rule_answer t lowered steps x size ≡ rule_answer t w steps x size }
    ensures trace { (t : TablesView) (w lowered : List ℕ) (steps : List Step) (x size : ℕ) (trace : List ℕ) → IsTrace t w steps x size trace → AreLoweredOutside trace w lowered → IsTrace t lowered steps x size trace }
{}

/// Where reweights are lowered and the answer changes, a device of the trace of the first run is
/// among those that were lowered.
pub fn a_changed_answer_has_a_lowered_device_in_its_trace()
    ensures { (t : TablesView) (w lowered : List ℕ) (steps : List Step) (x size : ℕ) (trace : List ℕ) → IsTrace t w steps x size trace → ((device : ℕ) → weight_at lowered device ≤ weight_at w device) → rule_answer t lowered steps x size ≢ rule_answer t w steps x size → (device : ℕ) × (has_number trace device ≡ true) × (weight_at lowered device < weight_at w device) }
{}

/// Exactly one list is the trace of a run.
pub fn a_run_has_one_trace()
    ensures { (t : TablesView) (w : List ℕ) (steps : List Step) (x size : ℕ) (trace other : List ℕ) → IsTrace t w steps x size trace → IsTrace t w steps x size other → other ≡ trace }
{}
