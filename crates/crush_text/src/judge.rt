//! Checking what a text declares, in order.

ghost use Rattle.std.specs.Prelude.{◌≡◌, ◌<◌, ℕ, List, IfOk, length, map, filter, filter_map, find, option_map, is_none, slice_index_or, None};
ghost use Rattle.std.specs.Result.{result_err};
ghost use Rattle.crush_map.specs.Faults as faults;
ghost use Rattle.crush_map.specs.declared.draft.MapDraft.{MapDraft};
ghost use Rattle.crush_text.specs.Judging as spec;
ghost use Rattle.crush_text.specs.Places as places;
ghost use Rattle.crush_grammar.specs.declared.declaration.Declaration.TheVariants as kinds;
ghost use Rattle.crush_grammar.specs.declared.declaration.DeclaredStep.TheVariants as step_kinds;
ghost use Rattle.crush_grammar.specs.declared.code.TextCode.TheVariants as codes;

use crate::fit::{fitted, fitted_integer};
use crate::places::{arranged, free_places, with_item, wrong_place};
use crate::tables::{BucketTable, DeviceTable, UNDECLARED, type_number};
use crush_grammar::{
    Declaration, DeclaredBucket, DeclaredDevice, DeclaredItem, DeclaredRule, DeclaredStep,
    DeclaredTunable, DeclaredType, Setting, TextCode, TextFault, TunableName,
};
use crush_map::{
    Bucket, Device, FaultCode, ItemId, MapDraft, Rule, Sequence, Step, SymbolTable, Text, Tunables,
    TypeName, Weight, are_in_range,
};
use std::alloc::{AllocError, Global};
use std::marker::Model;

/// What was declared so far. A contract sees the draft of the map, what is known by then, and the
/// tunables that were named.
#[derive(Drop)]
pub(crate) struct Judge {
    known: SymbolTable,
    types: Vec<TypeName>,
    devices: DeviceTable,
    buckets: BucketTable,
    rules: Vec<Rule>,
    local_tries: u32,
    local_fallback_tries: u32,
    tunables: Tunables,
    named: Vec<TunableName>,
}

impl Model for Judge {
    ghost use Rattle.crush_text.specs.Judging as spec;

    ghost Value = { spec.Declared };

    ghost view = { λ a. record { draft = record { types = a.types.items; devices = a.devices; buckets = a.buckets; rules = a.rules.items; local_tries = a.local_tries; local_fallback_tries = a.local_fallback_tries; tunables = a.tunables }; known = a.known; tunables = a.named.items } };
}

/// Returns a fault of what is declared, on the line `line`.
pub(crate) fn at_line(line: usize, code: FaultCode) -> TextFault
    ensures { result ≡ record { line = line; code = codes.Map code } }
{
    TextFault {
        line,
        code: TextCode::Map(code),
    }
}

/// Returns a number for each tunable, by which two are compared.
fn tunable_number(name: TunableName) -> u32
    ensures { result ≡ spec.tunable_number name }
{
    match name {
        TunableName::LocalTries => 0,
        TunableName::LocalFallbackTries => 1,
        TunableName::TotalTries => 2,
        TunableName::DescendOnce => 3,
        TunableName::VaryR => 4,
        TunableName::Stable => 5,
        TunableName::StrawCalcVersion => 6,
        TunableName::AllowedBucketAlgs => 7,
    }
}

/// Returns whether a tunable is in a list.
fn is_named(names: &[TunableName], name: TunableName) -> bool
    ensures { result ≡ spec.is_named names.now name }
{
    for other in names {
        if tunable_number(*other) == tunable_number(name) {
            return true;
        }
    }
    false
}

/// Returns whether a tunable is `choose_local_tries` or `choose_local_fallback_tries`.
fn is_local(name: TunableName) -> bool
    ensures { result ≡ spec.is_local name }
{
    matches!(
        name,
        TunableName::LocalTries | TunableName::LocalFallbackTries
    )
}

/// Returns the tunables that choosing reads, where `name` has the value `value`. If `name` isn't
/// one of them, they are the same.
fn with_value(tunables: Tunables, name: TunableName, value: u32) -> Tunables
    ensures { (d : MapDraft) → d.tunables ≡ tunables → (spec.with_tunable d name value).tunables ≡ result }
{
    let mut tunables = tunables;
    match name {
        TunableName::TotalTries => tunables.total_tries = value,
        TunableName::DescendOnce => tunables.descend_once = value,
        TunableName::VaryR => tunables.vary_r = value,
        TunableName::Stable => tunables.stable = value,
        _ => {}
    }
    tunables
}

impl Judge {
    /// Returns the state before the first declaration.
    pub(crate) fn new(alloc: Global) -> Self
        ensures { result ≡ spec.nothing_declared }
    {
        Judge {
            known: SymbolTable::new(alloc),
            types: Vec::new(alloc),
            devices: DeviceTable::new(alloc),
            buckets: BucketTable::new(alloc),
            rules: Vec::new(alloc),
            local_tries: 2,
            local_fallback_tries: 5,
            tunables: Tunables {
                total_tries: 19,
                descend_once: 0,
                vary_r: 0,
                stable: 0,
            },
            named: Vec::new(alloc),
        }
    }

    /// Returns the fault of a tunable that is declared next.
    #[tactic(auto, unfolding(crate::specs::Judging::tunable_fault))]
    fn tunable_fault(&self, declared: &DeclaredTunable) -> Option<FaultCode>
        ensures { result ≡ spec.tunable_fault self.now declared.now }
    {
        if is_named(self.named.as_slice(), declared.name) {
            Some(FaultCode::M3)
        } else if !are_in_range(with_value(self.tunables, declared.name, fitted(declared.value))) {
            Some(FaultCode::M12)
        } else if is_local(declared.name) && declared.value != 0 {
            Some(FaultCode::M13)
        } else {
            None
        }
    }

    /// Sets a tunable.
    fn set_tunable(&mut self, name: TunableName, value: u32)
        ensures { self.new ≡ record self.old { draft = spec.with_tunable self.old.draft name value } }
    {
        match name {
            TunableName::LocalTries => self.local_tries = value,
            TunableName::LocalFallbackTries => self.local_fallback_tries = value,
            TunableName::TotalTries => self.tunables.total_tries = value,
            TunableName::DescendOnce => self.tunables.descend_once = value,
            TunableName::VaryR => self.tunables.vary_r = value,
            TunableName::Stable => self.tunables.stable = value,
            TunableName::StrawCalcVersion | TunableName::AllowedBucketAlgs => {}
        }
    }

    /// Declares a tunable that has no fault. Returns the fault if it has one.
    ///
    /// `Err(AllocError)`: an allocation failed; the value must not be used any more.
    fn declare_tunable(
        &mut self,
        declared: &DeclaredTunable,
    ) -> Result<Option<TextFault>, AllocError>
        ensures fault { IfOk result (λ fault. fault ≡ spec.declaration_fault self.old (kinds.Tunable declared.now)) }
        ensures declared { IfOk result (λ fault. fault ≡ None → self.new ≡ spec.declare self.old (kinds.Tunable declared.now)) }
    {
        if let Some(code) = self.tunable_fault(declared) {
            return Ok(Some(at_line(declared.line, code)));
        }
        self.named.push(declared.name)?;
        self.set_tunable(declared.name, fitted(declared.value));
        Ok(None)
    }

    /// Declares a device that has no fault. Returns the fault if it has one.
    ///
    /// `Err(AllocError)`: an allocation failed; the value must not be used any more.
    #[tactic(auto, using(crate::proofs::Kept::is_small))]
    fn declare_device(
        &mut self,
        alloc: Global,
        declared: &DeclaredDevice<'_>,
    ) -> Result<Option<TextFault>, AllocError>
        ensures fault { IfOk result (λ fault. fault ≡ spec.declaration_fault self.old (kinds.Device declared.now)) }
        ensures declared { IfOk result (λ fault. fault ≡ None → self.new ≡ spec.declare self.old (kinds.Device declared.now)) }
    {
        let device = Device {
            id: fitted(declared.id),
            name: Text::copy(alloc, declared.name.as_str())?,
        };
        if let Some(code) = self.known.declare_device(alloc, &device)? {
            return Ok(Some(at_line(declared.line, code)));
        }
        self.devices.add(alloc, device)?;
        Ok(None)
    }

    /// Declares a type that has no fault. Returns the fault if it has one.
    ///
    /// `Err(AllocError)`: an allocation failed; the value must not be used any more.
    fn declare_type(
        &mut self,
        alloc: Global,
        declared: &DeclaredType<'_>,
    ) -> Result<Option<TextFault>, AllocError>
        ensures fault { IfOk result (λ fault. fault ≡ spec.declaration_fault self.old (kinds.TypeName declared.now)) }
        ensures declared { IfOk result (λ fault. fault ≡ None → self.new ≡ spec.declare self.old (kinds.TypeName declared.now)) }
    {
        let named = TypeName {
            number: fitted(declared.number),
            name: Text::copy(alloc, declared.name.as_str())?,
        };
        if let Some(code) = self.known.declare_type(alloc, &named)? {
            return Ok(Some(at_line(declared.line, code)));
        }
        self.types.push(named)?;
        Ok(None)
    }

    /// Finds the id of the item with a name, and the weight that it has if a text gives none.
    fn item_named(&self, name: &str) -> (ItemId, Weight)
        ensures { result ≡ spec.item_named self.now.draft name.now }
    {
        match self.devices.item(name) {
            Some(item) => item,
            None => match self.buckets.item(name) {
                Some(item) => item,
                None => (ItemId(UNDECLARED as i32), Weight(65_536)),
            },
        }
    }

    /// Returns the id and the weight of an item of a bucket.
    fn item_of(&self, item: &DeclaredItem<'_>) -> (ItemId, Weight)
        ensures { result ≡ spec.item_of self.now.draft item.now }
    {
        let (id, weight) = self.item_named(item.name.as_str());
        (id, item.weight.unwrap_or(weight))
    }

    /// Makes the table of places, with the first item that names each place, if one does.
    fn named_places(
        &self,
        alloc: Global,
        items: &[DeclaredItem<'_>],
    ) -> Result<Vec<Option<(ItemId, Weight)>>, AllocError>
        ensures len { IfOk result (λ t. length t.items ≡ length items.now) }
        ensures each { IfOk result (λ t. (k : ℕ) → k < length items.now → slice_index_or t.items k None ≡ option_map (spec.item_of self.now.draft) (find (places.names_place k) items.now)) }
    {
        let mut named = free_places(alloc, items.len())?;
        for item in items {
            named = with_item(named, item.place, self.item_of(item));
        }
        Ok(named)
    }

    /// Returns the items that name no place.
    fn other_items(
        &self,
        alloc: Global,
        items: &[DeclaredItem<'_>],
    ) -> Result<Vec<(ItemId, Weight)>, AllocError>
        ensures { IfOk result (λ v. v.items ≡ map (spec.item_of self.now.draft) (filter (λ item. is_none item.place) items.now)) }
    {
        let mut others = Vec::new(alloc);
        for item in items {
            if item.place.is_none() {
                others.push(self.item_of(item))?;
            }
        }
        Ok(others)
    }

    /// Makes the items of a bucket, in order of place.
    fn items_of(
        &self,
        alloc: Global,
        items: &[DeclaredItem<'_>],
    ) -> Result<Vec<(ItemId, Weight)>, AllocError>
        ensures { IfOk result (λ v. v.items ≡ map (spec.item_of self.now.draft) (places.in_place items.now)) }
    {
        let others = self.other_items(alloc, items)?;
        if others.len() == items.len() {
            return Ok(others);
        }
        let named = self.named_places(alloc, items)?;
        let places = named.as_slice();
        let rest = others.as_slice();
        arranged(alloc, places, rest)
    }

    /// Makes the bucket of a declaration, as the draft has it.
    fn bucket_of(&self, alloc: Global, declared: &DeclaredBucket<'_>) -> Result<Bucket, AllocError>
        ensures { IfOk result (λ bucket. bucket ≡ spec.bucket_of self.now.draft declared.now) }
    {
        let items = self.items_of(alloc, declared.items.as_slice())?;
        Ok(Bucket {
            id: ItemId(fitted_integer(declared.id)),
            name: Text::copy(alloc, declared.head.name.as_str())?,
            kind_of: type_number(self.types.as_slice(), declared.head.type_name.as_str()),
            alg: declared.alg,
            items: Sequence::new(items),
        })
    }

    /// Declares a bucket that has no fault. Returns the fault if it has one.
    ///
    /// `Err(AllocError)`: an allocation failed; the value must not be used any more.
    #[tactic(auto, using(crate::proofs::Kept::is_few, crate::proofs::Kept::is_light), unfolding(crate::specs::Judging::declared_bucket_fault))]
    fn declare_bucket(
        &mut self,
        alloc: Global,
        declared: &DeclaredBucket<'_>,
    ) -> Result<Option<TextFault>, AllocError>
        ensures fault { IfOk result (λ fault. fault ≡ spec.declaration_fault self.old (kinds.Bucket declared.now)) }
        ensures declared { IfOk result (λ fault. fault ≡ None → self.new ≡ spec.declare self.old (kinds.Bucket declared.now)) }
    {
        if let Some(line) = wrong_place(alloc, declared.items.as_slice())? {
            return Ok(Some(TextFault {
                line,
                code: TextCode::X5,
            }));
        }
        let bucket = self.bucket_of(alloc, declared)?;
        if let Some(code) = self.known.declare_bucket(alloc, &bucket)? {
            return Ok(Some(at_line(declared.head.line, code)));
        }
        self.buckets.add(alloc, bucket)?;
        Ok(None)
    }

    /// Makes the step of a declaration. `None`: the step sets local tries, and is dropped.
    fn step_of(&self, step: &DeclaredStep<'_>) -> Option<Step>
        ensures { result ≡ spec.step_of self.now.draft step.now }
    {
        match step {
            DeclaredStep::Take(name) => Some(Step::Take(self.item_named(name.as_str()).0)),
            DeclaredStep::Set(setting, n) => set_step(*setting, fitted(*n)),
            DeclaredStep::Choose {
                firstn,
                leaf,
                n,
                wanted,
            } => Some(Step::Choose {
                firstn: *firstn,
                leaf: *leaf,
                n: fitted_integer(*n),
                wanted: type_number(self.types.as_slice(), wanted.as_str()),
            }),
            DeclaredStep::Emit => Some(Step::Emit),
        }
    }

    /// Returns the fault of a step.
    fn step_fault(&self, step: &DeclaredStep<'_>) -> Option<FaultCode>
        ensures { result ≡ spec.declared_step_fault self.now step.now }
    {
        if let DeclaredStep::Set(Setting::LocalTries | Setting::LocalFallbackTries, n) = step {
            return if *n != 0 { Some(FaultCode::M13) } else { None };
        }
        match self.step_of(step) {
            Some(kept) => self.known.step_fault(kept),
            None => None,
        }
    }

    /// Finds the first fault of steps.
    fn steps_fault(&self, steps: &[DeclaredStep<'_>]) -> Option<FaultCode>
        ensures { result ≡ faults.first_of (map (spec.declared_step_fault self.now) steps.now) }
    {
        for step in steps {
            if let Some(fault) = self.step_fault(step) {
                return Some(fault);
            }
        }
        None
    }

    /// Makes the steps of declarations, without those that are dropped.
    fn steps_of(&self, alloc: Global, steps: &[DeclaredStep<'_>]) -> Result<Vec<Step>, AllocError>
        ensures { IfOk result (λ v. v.items ≡ filter_map (spec.step_of self.now.draft) steps.now) }
    {
        let mut kept = Vec::new(alloc);
        for step in steps {
            if let Some(found) = self.step_of(step) {
                kept.push(found)?;
            }
        }
        Ok(kept)
    }

    /// Makes the rule of a declaration, as the draft has it.
    fn rule_of(&self, alloc: Global, declared: &DeclaredRule<'_>) -> Result<Rule, AllocError>
        ensures { IfOk result (λ rule. rule ≡ spec.rule_of self.now.draft declared.now) }
    {
        let steps = self.steps_of(alloc, declared.steps.as_slice())?;
        Ok(Rule {
            id: fitted(declared.id),
            name: Text::copy(alloc, declared.name.as_str())?,
            erasure: declared.erasure,
            steps: Sequence::new(steps),
        })
    }

    /// Declares a rule that has no fault. Returns the fault if it has one.
    ///
    /// `Err(AllocError)`: an allocation failed; the value must not be used any more.
    #[tactic(auto, unfolding(crate::specs::Judging::declared_rule_fault))]
    fn declare_rule(
        &mut self,
        alloc: Global,
        declared: &DeclaredRule<'_>,
    ) -> Result<Option<TextFault>, AllocError>
        ensures fault { IfOk result (λ fault. fault ≡ spec.declaration_fault self.old (kinds.Rule declared.now)) }
        ensures declared { IfOk result (λ fault. fault ≡ None → self.new ≡ spec.declare self.old (kinds.Rule declared.now)) }
    {
        let rule = self.rule_of(alloc, declared)?;
        let fault_of_steps = self.steps_fault(declared.steps.as_slice());
        if let Some(code) = self.known.declare_rule(alloc, &rule, fault_of_steps)? {
            return Ok(Some(at_line(declared.line, code)));
        }
        self.rules.push(rule)?;
        Ok(None)
    }

    /// Declares what a declaration says, if it has no fault. Returns the fault if it has one.
    ///
    /// `Err(AllocError)`: an allocation failed; the value must not be used any more.
    fn declare(
        &mut self,
        alloc: Global,
        declaration: &Declaration<'_>,
    ) -> Result<Option<TextFault>, AllocError>
        ensures fault { IfOk result (λ fault. fault ≡ spec.declaration_fault self.old declaration.now) }
        ensures declared { IfOk result (λ fault. fault ≡ None → self.new ≡ spec.declare self.old declaration.now) }
    {
        match declaration {
            Declaration::Tunable(tunable) => self.declare_tunable(tunable),
            Declaration::Device(device) => self.declare_device(alloc, device),
            Declaration::TypeName(named) => self.declare_type(alloc, named),
            Declaration::Bucket(bucket) => self.declare_bucket(alloc, bucket),
            Declaration::Rule(rule) => self.declare_rule(alloc, rule),
        }
    }

    /// Declares what declarations say, each checked behind those before it. Returns their first
    /// fault; if there is none, all are declared.
    ///
    /// `Err(AllocError)`: an allocation failed; the value must not be used any more.
    #[tactic(auto, unfolding(crate::specs::Judging::fault_from))]
    fn declare_all(
        &mut self,
        alloc: Global,
        declarations: &[Declaration<'_>],
    ) -> Result<Option<TextFault>, AllocError>
        ensures fault { IfOk result (λ fault. fault ≡ spec.fault_from self.old declarations.now) }
        ensures declared { IfOk result (λ fault. fault ≡ None → self.new ≡ spec.declared_from self.old declarations.now) }
    {
        for declaration in declarations {
            if let Some(fault) = self.declare(alloc, declaration)? {
                return Ok(Some(fault));
            }
        }
        Ok(None)
    }

    /// Returns what is known, and the draft of the map. Allocates nothing.
    pub(crate) fn into_parts(self) -> (SymbolTable, MapDraft)
        ensures known { result.0 ≡ self.known }
        ensures draft { result.1 ≡ self.draft }
    {
        let Judge {
            known,
            types,
            devices,
            buckets,
            rules,
            local_tries,
            local_fallback_tries,
            tunables,
            ..
        } = self;
        let draft = MapDraft {
            types: Sequence::new(types),
            devices: Sequence::new(devices.into_vec()),
            buckets: Sequence::new(buckets.into_vec()),
            rules: Sequence::new(rules),
            local_tries,
            local_fallback_tries,
            tunables,
        };
        (known, draft)
    }
}

/// Makes the step that sets a setting. `None`: it sets local tries, and is dropped.
fn set_step(setting: Setting, n: u32) -> Option<Step>
    ensures { (d : MapDraft) (m : ℕ) → spec.fitted m ≡ n → result ≡ spec.step_of d (step_kinds.Set setting m) }
{
    match setting {
        Setting::ChooseTries => Some(Step::SetChooseTries(n)),
        Setting::LeafTries => Some(Step::SetLeafTries(n)),
        Setting::VaryR => Some(Step::SetVaryR(n)),
        Setting::Stable => Some(Step::SetStable(n)),
        Setting::LocalTries | Setting::LocalFallbackTries => None,
    }
}

/// Declares what all declarations say. Returns what they make, or the first fault of one of them.
pub(crate) fn judge_all(
    alloc: Global,
    declarations: &[Declaration<'_>],
) -> Result<Result<Judge, TextFault>, AllocError>
    ensures fault { IfOk result (λ r. result_err r ≡ spec.declared_fault declarations.now) }
    ensures declared { IfOk result (λ r. IfOk r (λ judge. judge ≡ spec.declared declarations.now)) }
{
    let mut judge = Judge::new(alloc);
    match judge.declare_all(alloc, declarations)? {
        Some(fault) => Ok(Err(fault)),
        None => Ok(Ok(judge)),
    }
}
