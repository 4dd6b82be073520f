//! CRUSH maps: each value of the type is a valid map.

ghost use Rattle.std.specs.Prelude.{◌≡◌, IfOk, IfErr, option_map, None};
ghost use Rattle.std.specs.Result.{result_err};
ghost use Rattle.std.specs.List.Sorted.{IsPermutation, IsNonDecreasingBy};
ghost use Rattle.crush_map.specs.Faults as spec;
ghost use Rattle.crush_map.specs.Map.{IsMap, IsMapOf};

use crate::draft::{Bucket, Device, MapDraft, Rule, Tunables, TypeName};
use crate::fault::MapFault;
use crate::judge::first_fault;
use std::alloc::{AllocError, Global};
use std::marker::Model;

/// A map without a fault. Contracts see its lists and its tunables. Types, devices and rules are in
/// ascending order of number, buckets in order of declaration.
#[derive(Drop)]
pub struct CrushMap {
    types: Vec<TypeName>,
    devices: Vec<Device>,
    buckets: Vec<Bucket>,
    rules: Vec<Rule>,
    tunables: Tunables,
}

impl Model for CrushMap {
    ghost use Rattle.crush_map.specs.Map.{Map, IsMap};

    ghost Value = { Map };

    ghost view = { λ a. record { types = a.types.items; devices = a.devices.items; buckets = a.buckets.items; rules = a.rules.items; tunables = a.tunables } };

    ghost invariant = { λ a. IsMap (record { types = a.types.items; devices = a.devices.items; buckets = a.buckets.items; rules = a.rules.items; tunables = a.tunables }) };
}

impl CrushMap {
    /// Checks a draft. Returns the map that it declares, or the draft and its first fault.
    ///
    /// Types are checked first, then devices, buckets and rules, each list in order, and last what
    /// concerns the whole draft.
    ///
    /// `Err(AllocError)`: an allocation failed; the draft is dropped.
    pub fn check(
        alloc: Global,
        draft: MapDraft,
    ) -> Result<Result<CrushMap, (MapDraft, MapFault)>, AllocError>
        ensures fault { IfOk result (λ answer. option_map (λ e. e.1) (result_err answer) ≡ spec.first_fault draft) }
        ensures draft { IfOk result (λ answer. IfErr answer (λ e. e.0 ≡ draft)) }
        ensures map { IfOk result (λ answer. IfOk answer (λ m. IsMapOf draft m)) }
        ensures valid { IfOk result (λ answer. IfOk answer IsMap) }
    {
        match first_fault(alloc, &draft)? {
            Some(fault) => Ok(Err((draft, fault))),
            None => Ok(Ok(CrushMap::of(draft))),
        }
    }

    /// Makes the map of a draft that is known to have no fault. Allocates nothing.
    pub fn of(draft: MapDraft) -> CrushMap
        requires { spec.first_fault draft ≡ None }
        ensures map { IsMapOf draft result }
        ensures valid { IsMap result }
    {
        CrushMap {
            types: in_order_of_number(draft.types.into_vec()),
            devices: in_order_of_id(draft.devices.into_vec()),
            buckets: draft.buckets.into_vec(),
            rules: rules_in_order(draft.rules.into_vec()),
            tunables: draft.tunables,
        }
    }

    /// Returns the types, in order of number.
    pub fn types(&self) -> &[TypeName]
        ensures same { result.now ≡ self.now.types }
        ensures valid { IsMap self.now }
    {
        self.types.as_slice()
    }

    /// Returns the devices, in order of id.
    pub fn devices(&self) -> &[Device]
        ensures same { result.now ≡ self.now.devices }
        ensures valid { IsMap self.now }
    {
        self.devices.as_slice()
    }

    /// Returns the buckets, in order of declaration.
    pub fn buckets(&self) -> &[Bucket]
        ensures same { result.now ≡ self.now.buckets }
        ensures valid { IsMap self.now }
    {
        self.buckets.as_slice()
    }

    /// Returns the rules, in order of id.
    pub fn rules(&self) -> &[Rule]
        ensures same { result.now ≡ self.now.rules }
        ensures valid { IsMap self.now }
    {
        self.rules.as_slice()
    }

    /// Returns the tunables that choosing reads.
    pub fn tunables(&self) -> Tunables
        ensures same { result ≡ self.now.tunables }
        ensures valid { IsMap self.now }
    {
        self.tunables
    }
}

/// Sorts types in ascending order of number.
fn in_order_of_number(mut types: Vec<TypeName>) -> Vec<TypeName>
    ensures same { IsPermutation types.items result.items }
    ensures order { IsNonDecreasingBy (λ t. t.number) result.items }
{
    types.sort_unstable_by_key(|t| t.number);
    types
}

/// Sorts devices in ascending order of id.
fn in_order_of_id(mut devices: Vec<Device>) -> Vec<Device>
    ensures same { IsPermutation devices.items result.items }
    ensures order { IsNonDecreasingBy (λ d. d.id) result.items }
{
    devices.sort_unstable_by_key(|d| d.id);
    devices
}

/// Sorts rules in ascending order of id.
fn rules_in_order(mut rules: Vec<Rule>) -> Vec<Rule>
    ensures same { IsPermutation rules.items result.items }
    ensures order { IsNonDecreasingBy (λ r. r.id) result.items }
{
    rules.sort_unstable_by_key(|r| r.id);
    rules
}
