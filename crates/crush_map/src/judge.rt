//! The first fault of a draft.

ghost use Rattle.std.specs.Prelude.{◌≡◌, IfOk, None, fold};
ghost use Rattle.crush_map.specs.Faults as spec;
ghost use Rattle.crush_map.specs.declared.fault.Element.TheVariants.{Types, Devices, Buckets, Rules};

use crate::draft::{Bucket, Device, MapDraft, Rule, TypeName};
use crate::fault::{Element, FaultCode, MapFault};
use crate::known::SymbolTable;
use std::alloc::{AllocError, Global};

/// Returns the fault `code` at the place `index` of a list.
fn fault_at(element: Element, index: usize, code: FaultCode) -> MapFault
    ensures { result ≡ record { code = code; element = element; index = index } }
{
    MapFault {
        code,
        element,
        index,
    }
}

/// Declares types, each checked against those before it. Returns their first fault; if there is
/// none, all are declared.
#[tactic(auto, unfolding(crate::specs::Faults::first_in))]
fn judge_types(
    alloc: Global,
    known: &mut SymbolTable,
    types: &[TypeName],
) -> Result<Option<MapFault>, AllocError>
    ensures fault { IfOk result (λ fault. fault ≡ spec.first_in Types spec.type_fault spec.with_type 0 known.old types.now) }
    ensures known { IfOk result (λ fault. fault ≡ None → known.new ≡ fold spec.with_type known.old types.now) }
{
    for (index, declared) in types.iter().enumerate() {
        if let Some(code) = known.declare_type(alloc, declared)? {
            return Ok(Some(fault_at(Element::Types, index, code)));
        }
    }
    Ok(None)
}

/// Declares devices, each checked against those before it. Returns their first fault; if there is
/// none, all are declared.
#[tactic(auto, unfolding(crate::specs::Faults::first_in))]
fn judge_devices(
    alloc: Global,
    known: &mut SymbolTable,
    devices: &[Device],
) -> Result<Option<MapFault>, AllocError>
    ensures fault { IfOk result (λ fault. fault ≡ spec.first_in Devices spec.device_fault spec.with_device 0 known.old devices.now) }
    ensures known { IfOk result (λ fault. fault ≡ None → known.new ≡ fold spec.with_device known.old devices.now) }
{
    for (index, declared) in devices.iter().enumerate() {
        if let Some(code) = known.declare_device(alloc, declared)? {
            return Ok(Some(fault_at(Element::Devices, index, code)));
        }
    }
    Ok(None)
}

/// Declares buckets, each checked against those before it. Returns their first fault; if there is
/// none, all are declared.
#[tactic(auto, unfolding(crate::specs::Faults::first_in))]
fn judge_buckets(
    alloc: Global,
    known: &mut SymbolTable,
    buckets: &[Bucket],
) -> Result<Option<MapFault>, AllocError>
    ensures fault { IfOk result (λ fault. fault ≡ spec.first_in Buckets spec.bucket_fault spec.with_bucket 0 known.old buckets.now) }
    ensures known { IfOk result (λ fault. fault ≡ None → known.new ≡ fold spec.with_bucket known.old buckets.now) }
{
    for (index, declared) in buckets.iter().enumerate() {
        if let Some(code) = known.declare_bucket(alloc, declared)? {
            return Ok(Some(fault_at(Element::Buckets, index, code)));
        }
    }
    Ok(None)
}

/// Declares rules, each checked against those before it. Returns their first fault; if there is
/// none, all are declared.
#[tactic(auto, unfolding(crate::specs::Faults::first_in))]
fn judge_rules(
    alloc: Global,
    known: &mut SymbolTable,
    rules: &[Rule],
) -> Result<Option<MapFault>, AllocError>
    ensures fault { IfOk result (λ fault. fault ≡ spec.first_in Rules spec.rule_fault spec.with_rule 0 known.old rules.now) }
    ensures known { IfOk result (λ fault. fault ≡ None → known.new ≡ fold spec.with_rule known.old rules.now) }
{
    for (index, declared) in rules.iter().enumerate() {
        let fault_of_steps = known.steps_fault(declared.steps.as_slice());
        if let Some(code) = known.declare_rule(alloc, declared, fault_of_steps)? {
            return Ok(Some(fault_at(Element::Rules, index, code)));
        }
    }
    Ok(None)
}

/// Declares a draft's types, devices, buckets and rules. Returns their first fault; if there is
/// none, all are declared.
#[tactic(auto, unfolding(crate::specs::Faults::element_fault))]
fn judge_elements(
    alloc: Global,
    known: &mut SymbolTable,
    draft: &MapDraft,
) -> Result<Option<MapFault>, AllocError>
    requires { known.old ≡ spec.nothing }
    ensures fault { IfOk result (λ fault. fault ≡ spec.element_fault draft.now) }
    ensures known { IfOk result (λ fault. fault ≡ None → known.new ≡ spec.known_rules draft.now) }
{
    if let Some(fault) = judge_types(alloc, known, draft.types.as_slice())? {
        return Ok(Some(fault));
    }
    if let Some(fault) = judge_devices(alloc, known, draft.devices.as_slice())? {
        return Ok(Some(fault));
    }
    if let Some(fault) = judge_buckets(alloc, known, draft.buckets.as_slice())? {
        return Ok(Some(fault));
    }
    judge_rules(alloc, known, draft.rules.as_slice())
}

/// Finds the first fault of a draft of which nothing is known yet: of its elements, else the one
/// at its end.
#[tactic(auto, unfolding(crate::specs::Faults::first_fault))]
fn fault_of(
    alloc: Global,
    known: &mut SymbolTable,
    draft: &MapDraft,
) -> Result<Option<MapFault>, AllocError>
    requires { known.old ≡ spec.nothing }
    ensures { IfOk result (λ fault. fault ≡ spec.first_fault draft.now) }
{
    if let Some(fault) = judge_elements(alloc, known, draft)? {
        return Ok(Some(fault));
    }
    let fault = known.end_fault(
        draft.tunables,
        draft.local_tries,
        draft.local_fallback_tries,
    );
    Ok(match fault {
        Some(code) => Some(fault_at(Element::End, 0, code)),
        None => None,
    })
}

/// Finds the first fault of a draft, if it has one.
// One way out while the tables live makes the check of this function short.
pub(crate) fn first_fault(alloc: Global, draft: &MapDraft) -> Result<Option<MapFault>, AllocError>
    ensures { IfOk result (λ fault. fault ≡ spec.first_fault draft.now) }
{
    let mut known = SymbolTable::new(alloc);
    fault_of(alloc, &mut known, draft)
}
