//! Laws: statements that hold for every draft or every map. A call does nothing; its contract is
//! the law.

ghost use Rattle.std.specs.Prelude.{◌≡◌, ℕ, true, ◌++◌, map, Some, None, slice_get, IfSome};
ghost use Rattle.crush_map.specs.declared.draft.MapDraft.{MapDraft};
ghost use Rattle.crush_map.specs.declared.fault.MapFault.{MapFault};
ghost use Rattle.crush_map.specs.Faults as spec;
ghost use Rattle.crush_map.specs.Map.{Map, IsMap, IsMapOf};
ghost use Rattle.crush_map.specs.Sound.{IsBucketAt, IsRuleAt, IsTypeAt, IsDeviceAt, IsEachOnce, has_type};
ghost use Rattle.crush_map.specs.Laws.{IsFirstFault, HasNoFault, IsInOrder};

/// The element that a draft's first fault names has that fault, and nothing before it has one; a
/// draft without a first fault has none at all.
pub fn first_fault_is_first()
    ensures fault { (d : MapDraft) (f : MapFault) → spec.first_fault d ≡ Some f → IsFirstFault d f.element f.index f.code }
    ensures none { (d : MapDraft) → spec.first_fault d ≡ None → HasNoFault d }
{}

/// The elements of a draft without a fault are a map, once its types, devices and rules are in
/// order of number.
pub fn drafts_declare_maps()
    ensures { (d : MapDraft) (m : Map) → spec.first_fault d ≡ None → IsMapOf d m → IsInOrder m → IsMap m }
{}

/// Each bucket of a map is sound: what `IsBucketAt` says holds for it.
pub fn buckets_are_sound()
    ensures { (m : Map) (i : ℕ) → IsMap m → IfSome (slice_get m.buckets i) (λ b. IsBucketAt m i b) }
{}

/// Each rule of a map is sound: what `IsRuleAt` says holds for it.
pub fn rules_are_sound()
    ensures { (m : Map) (i : ℕ) → IsMap m → IfSome (slice_get m.rules i) (λ r. IsRuleAt m i r) }
{}

/// Types and devices of a map are sound, one type is 0, and each tunable is in its range.
pub fn numbers_are_sound()
    ensures types { (m : Map) (i : ℕ) → IsMap m → IfSome (slice_get m.types i) (λ t. IsTypeAt i t) }
    ensures devices { (m : Map) (i : ℕ) → IsMap m → IfSome (slice_get m.devices i) (λ d. IsDeviceAt i d) }
    ensures device_type { (m : Map) → IsMap m → has_type m.types 0 ≡ true }
    ensures tunables { (m : Map) → IsMap m → spec.are_in_range m.tunables ≡ true }
{}

/// No number, id or name occurs twice in a map. Names of devices and buckets together differ.
pub fn numbers_and_names_are_once()
    ensures type_numbers { (m : Map) → IsMap m → IsEachOnce (map (λ t. t.number) m.types) }
    ensures type_names { (m : Map) → IsMap m → IsEachOnce (map (λ t. t.name) m.types) }
    ensures device_ids { (m : Map) → IsMap m → IsEachOnce (map (λ d. d.id) m.devices) }
    ensures bucket_ids { (m : Map) → IsMap m → IsEachOnce (map (λ b. b.id) m.buckets) }
    ensures item_names { (m : Map) → IsMap m → IsEachOnce (map (λ d. d.name) m.devices ++ map (λ b. b.name) m.buckets) }
    ensures rule_ids { (m : Map) → IsMap m → IsEachOnce (map (λ r. r.id) m.rules) }
    ensures rule_names { (m : Map) → IsMap m → IsEachOnce (map (λ r. r.name) m.rules) }
{}
