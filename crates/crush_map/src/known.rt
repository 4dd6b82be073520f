//! The numbers, ids and names declared so far, and the checks of the next element against them.

ghost use Rattle.std.specs.Prelude.{◌≡◌, ◌≤◌, IfOk, if◌then◌else◌, is_some, length};
ghost use Rattle.std.specs.List.{list_any};
ghost use Rattle.crush_map.specs.Faults as spec;

use crate::draft::{Bucket, Device, Rule, Step, Tunables, TypeName};
use crate::fault::FaultCode;
use crate::form::{is_name, is_reserved};
use crate::ids::Ids;
use crate::limits::{
    BUCKET_LIMIT, COUNT_LIMIT, DEVICE_LIMIT, ITEM_LIMIT, NUMBER_LIMIT, RULE_ID_LIMIT, RULE_LIMIT,
    STEP_LIMIT, STRAW2_WEIGHT_LIMIT, TOTAL_TRIES_LIMIT, TOTAL_WEIGHT_LIMIT, TRIES_LIMIT,
    TYPE_LIMIT, VARY_R_LIMIT,
};
use crate::names::Names;
use crate::numbers::Numbers;
use crush_types::{ItemId, Kind, Weight, has_equal_weights, total_weight};
use std::alloc::{AllocError, Global};
use std::marker::Model;

/// The numbers, ids and names declared so far. Contracts see them as lists, in order of
/// declaration.
#[derive(Drop)]
pub struct SymbolTable {
    types: Numbers,
    type_names: Names,
    items: Ids,
    item_names: Names,
    rules: Numbers,
    rule_names: Names,
}

impl Model for SymbolTable {
    ghost use Rattle.crush_map.specs.Faults as spec;

    ghost Value = { spec.SymbolTable };

    ghost view = { λ a. record { types = a.types; type_names = a.type_names; items = a.items; item_names = a.item_names; rules = a.rules; rule_names = a.rule_names } };
}

impl SymbolTable {
    /// Returns what is known before anything is declared.
    pub fn new(alloc: Global) -> Self
        ensures { result ≡ spec.nothing }
    {
        SymbolTable {
            types: Numbers::new(alloc),
            type_names: Names::new(alloc),
            items: Ids::new(alloc),
            item_names: Names::new(alloc),
            rules: Numbers::new(alloc),
            rule_names: Names::new(alloc),
        }
    }

    /// Declares a type that has no fault. Returns the fault if it has one.
    ///
    /// `Err(AllocError)`: an allocation failed; the value must not be used any more.
    #[tactic(auto, unfolding(crate::specs::Faults::type_fault))]
    pub fn declare_type(
        &mut self,
        alloc: Global,
        declared: &TypeName,
    ) -> Result<Option<FaultCode>, AllocError>
        ensures fault { IfOk result (λ fault. fault ≡ spec.type_fault self.old declared.now) }
        ensures known { IfOk result (λ fault. self.new ≡ (if is_some fault then self.old else spec.with_type self.old declared.now)) }
    {
        let name = declared.name.as_str();
        let fault = if self.types.len() >= TYPE_LIMIT {
            FaultCode::M1
        } else if declared.number > NUMBER_LIMIT {
            FaultCode::M12
        } else if self.types.has(declared.number) {
            FaultCode::M2
        } else if !is_name(name) || is_reserved(name.as_bytes()) {
            FaultCode::M15
        } else if !self.type_names.insert(alloc, name)? {
            FaultCode::M3
        } else {
            self.types.add(declared.number)?;
            return Ok(None);
        };
        Ok(Some(fault))
    }

    /// Declares a device that has no fault. Returns the fault if it has one.
    ///
    /// `Err(AllocError)`: an allocation failed; the value must not be used any more.
    #[tactic(auto, unfolding(crate::specs::Faults::device_fault))]
    pub fn declare_device(
        &mut self,
        alloc: Global,
        declared: &Device,
    ) -> Result<Option<FaultCode>, AllocError>
        ensures fault { IfOk result (λ fault. fault ≡ spec.device_fault self.old declared.now) }
        ensures known { IfOk result (λ fault. self.new ≡ (if is_some fault then self.old else spec.with_device self.old declared.now)) }
    {
        let name = declared.name.as_str();
        let fault = if self.items.devices() >= DEVICE_LIMIT {
            FaultCode::M1
        } else if declared.id > NUMBER_LIMIT {
            FaultCode::M12
        } else if self.items.has_device(declared.id) {
            FaultCode::M2
        } else if !is_name(name) {
            FaultCode::M15
        } else if !self.item_names.insert(alloc, name)? {
            FaultCode::M3
        } else {
            self.items.add_device(declared.id)?;
            return Ok(None);
        };
        Ok(Some(fault))
    }

    /// Declares a bucket that has no fault. Returns the fault if it has one.
    ///
    /// `Err(AllocError)`: an allocation failed; the value must not be used any more.
    #[tactic(auto, using(crate::proofs::Passing::bucket_is), unfolding(crate::specs::Faults::bucket_fault))]
    pub fn declare_bucket(
        &mut self,
        alloc: Global,
        declared: &Bucket,
    ) -> Result<Option<FaultCode>, AllocError>
        ensures fault { IfOk result (λ fault. fault ≡ spec.bucket_fault self.old declared.now) }
        ensures known { IfOk result (λ fault. self.new ≡ (if is_some fault then self.old else spec.with_bucket self.old declared.now)) }
    {
        let name = declared.name.as_str();
        let items = declared.items.as_slice();
        let fault = if self.items.buckets() >= BUCKET_LIMIT {
            FaultCode::M1
        } else if !is_bucket_id(declared.id) {
            FaultCode::M12
        } else if self.items.has(declared.id) {
            FaultCode::M2
        } else if !is_name(name) {
            FaultCode::M15
        } else if self.item_names.has(name) {
            FaultCode::M3
        } else if !self.types.has(declared.kind_of) {
            FaultCode::M4
        } else if declared.kind_of == 0 {
            FaultCode::M9
        } else if items.len() > ITEM_LIMIT {
            FaultCode::M1
        } else if let Some(fault) = self.contents_fault(alloc, declared.alg, items)? {
            fault
        } else {
            self.item_names.insert(alloc, name)?;
            self.items.add(declared.id)?;
            return Ok(None);
        };
        Ok(Some(fault))
    }

    /// Returns the fault of a bucket's items and weights.
    #[tactic(auto, unfolding(crate::specs::Faults::contents_fault))]
    fn contents_fault(
        &self,
        alloc: Global,
        alg: Kind,
        items: &[(ItemId, Weight)],
    ) -> Result<Option<FaultCode>, AllocError>
        requires { length items.now ≤ ITEM_LIMIT }
        ensures { IfOk result (λ fault. fault ≡ spec.contents_fault self.now alg items.now) }
    {
        if let Some(fault) = self.items_fault(alloc, items)? {
            return Ok(Some(fault));
        }
        if alg.is_uniform() && !has_equal_weights(items) {
            return Ok(Some(FaultCode::M8));
        }
        if is_too_heavy(alg, items) {
            return Ok(Some(FaultCode::M7));
        }
        Ok(None)
    }

    /// Finds the first fault of a bucket's items that come behind items with the ids `before`.
    ///
    /// `Err(AllocError)`: an allocation failed; `before` must not be used any more.
    #[tactic(auto, unfolding(crate::specs::Faults::items_fault))]
    fn items_fault_behind(
        &self,
        before: &mut Ids,
        items: &[(ItemId, Weight)],
    ) -> Result<Option<FaultCode>, AllocError>
        ensures { IfOk result (λ fault. fault ≡ spec.items_fault self.now before.old items.now) }
    {
        for item in items {
            if !self.items.has(item.0) {
                return Ok(Some(FaultCode::M5));
            }
            if before.has(item.0) {
                return Ok(Some(FaultCode::M6));
            }
            before.add(item.0)?;
        }
        Ok(None)
    }

    /// Finds the first fault of a bucket's items.
    fn items_fault(
        &self,
        alloc: Global,
        items: &[(ItemId, Weight)],
    ) -> Result<Option<FaultCode>, AllocError>
        ensures { IfOk result (λ fault. fault ≡ spec.items_fault self.now spec.no_ids items.now) }
    {
        let mut before = Ids::new(alloc);
        self.items_fault_behind(&mut before, items)
    }

    /// Returns the fault of a choose step.
    #[tactic(auto, unfolding(crate::specs::Faults::choose_fault))]
    fn choose_fault(&self, firstn: bool, leaf: bool, n: i32, wanted: u32) -> Option<FaultCode>
        ensures { result ≡ spec.choose_fault self.now firstn leaf n wanted }
    {
        if !self.types.has(wanted) {
            Some(FaultCode::M11)
        } else if n.unsigned_abs() > COUNT_LIMIT {
            Some(FaultCode::M12)
        } else if leaf && !firstn && wanted == 0 {
            Some(FaultCode::M14)
        } else {
            None
        }
    }

    /// Returns the fault of a step of a rule.
    #[tactic(auto, unfolding(crate::specs::Faults::step_fault))]
    pub fn step_fault(&self, step: Step) -> Option<FaultCode>
        ensures { result ≡ spec.step_fault self.now step }
    {
        match step {
            Step::Take(id) => fault_if(!self.items.has(id), FaultCode::M10),
            Step::SetChooseTries(tries) => fault_if(tries > TRIES_LIMIT, FaultCode::M12),
            Step::SetLeafTries(tries) => fault_if(tries > TRIES_LIMIT, FaultCode::M12),
            Step::SetVaryR(value) => fault_if(value > VARY_R_LIMIT, FaultCode::M12),
            Step::SetStable(value) => fault_if(value > 1, FaultCode::M12),
            Step::Choose {
                firstn,
                leaf,
                n,
                wanted,
            } => self.choose_fault(firstn, leaf, n, wanted),
            Step::Emit => None,
        }
    }

    /// Finds the first fault of steps.
    pub(crate) fn steps_fault(&self, steps: &[Step]) -> Option<FaultCode>
        ensures { result ≡ spec.steps_fault self.now steps.now }
    {
        for step in steps {
            if let Some(fault) = self.step_fault(*step) {
                return Some(fault);
            }
        }
        None
    }

    /// Declares a rule that has no fault, where `fault_of_steps` is the first fault of its steps.
    /// Returns the fault if it has one: that of the rule apart from its steps, else that of its
    /// steps.
    ///
    /// `Err(AllocError)`: an allocation failed; the value must not be used any more.
    #[tactic(auto, unfolding(crate::specs::Faults::rule_head_fault))]
    pub fn declare_rule(
        &mut self,
        alloc: Global,
        declared: &Rule,
        fault_of_steps: Option<FaultCode>,
    ) -> Result<Option<FaultCode>, AllocError>
        ensures fault { IfOk result (λ fault. fault ≡ spec.or_else (spec.rule_head_fault self.old declared.now) fault_of_steps) }
        ensures known { IfOk result (λ fault. self.new ≡ (if is_some fault then self.old else spec.with_rule self.old declared.now)) }
    {
        let name = declared.name.as_str();
        let steps = declared.steps.as_slice();
        let fault = if self.rules.len() >= RULE_LIMIT {
            FaultCode::M1
        } else if declared.id > RULE_ID_LIMIT {
            FaultCode::M12
        } else if self.rules.has(declared.id) {
            FaultCode::M2
        } else if !is_name(name) {
            FaultCode::M15
        } else if self.rule_names.has(name) {
            FaultCode::M3
        } else if steps.is_empty() || steps.len() > STEP_LIMIT {
            FaultCode::M1
        } else if let Some(fault) = fault_of_steps {
            fault
        } else {
            self.rule_names.insert(alloc, name)?;
            self.rules.add(declared.id)?;
            return Ok(None);
        };
        Ok(Some(fault))
    }

    /// Returns the fault of a whole draft whose elements have none: it has no type 0, a tunable is
    /// out of its range, or its local tries or local fallback tries aren't 0.
    #[tactic(auto, unfolding(crate::specs::Faults::end_fault))]
    pub fn end_fault(
        &self,
        tunables: Tunables,
        local_tries: u32,
        local_fallback_tries: u32,
    ) -> Option<FaultCode>
        ensures { result ≡ spec.end_fault self.now tunables local_tries local_fallback_tries }
    {
        if !self.types.has(0) {
            Some(FaultCode::M4)
        } else if !are_in_range(tunables) {
            Some(FaultCode::M12)
        } else if local_tries != 0 || local_fallback_tries != 0 {
            Some(FaultCode::M13)
        } else {
            None
        }
    }
}

/// Returns the fault `code`, if `broken`.
fn fault_if(broken: bool, code: FaultCode) -> Option<FaultCode>
    ensures { result ≡ (if broken then Some code else None) }
{
    if broken { Some(code) } else { None }
}

/// Returns whether an id is one that a bucket of a map can have.
fn is_bucket_id(id: ItemId) -> bool
    ensures { result ≡ spec.is_bucket_id id.0 }
{
    id.0 < 0 && id.0.unsigned_abs() - 1 <= NUMBER_LIMIT
}

/// Returns whether the weights of a bucket of the kind `alg` have too great a sum, or one of them
/// is too great for that kind.
fn is_too_heavy(alg: Kind, items: &[(ItemId, Weight)]) -> bool
    requires { length items.now ≤ ITEM_LIMIT }
    ensures { result ≡ spec.is_too_heavy alg items.now }
{
    total_weight(items) > TOTAL_WEIGHT_LIMIT || (alg.is_straw2() && has_heavy(items))
}

/// Returns whether an item's weight is too great for a straw2 bucket.
fn has_heavy(items: &[(ItemId, Weight)]) -> bool
    ensures { result ≡ list_any spec.is_heavy items.now }
{
    items.iter().any(|item| item.1.0 > STRAW2_WEIGHT_LIMIT)
}

/// Returns whether each tunable is in its range.
pub fn are_in_range(tunables: Tunables) -> bool
    ensures { result ≡ spec.are_in_range tunables }
{
    tunables.total_tries <= TOTAL_TRIES_LIMIT
        && tunables.descend_once <= 1
        && tunables.vary_r <= VARY_R_LIMIT
        && tunables.stable <= 1
}
