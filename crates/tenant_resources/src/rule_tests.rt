//! Tests of rules, at `/t/{t}/test`: POST asks which items a rule of a version of the tenant's map
//! gives for an input.

ghost use Rattle.std.specs.Prelude.{◌≡◌, IfOk};
ghost use Rattle.crush_bucket.specs.Tables.{tables_of};
ghost use Rattle.crush_choose.specs.Rules.{CanRun, rule_answer};
ghost use Rattle.crush_choose.specs.Trace.{rule_trace};
ghost use Rattle.serde_json.specs.View.{view};
ghost use Rattle.tenant_messages.specs.Refusals.{Answers};
ghost use Rattle.tenant_resources.specs.RuleTests as spec;

use crush_bucket::Scratch;
use crush_choose::laws::traces_ascend;
use crush_choose::limits::SIZE_LIMIT;
use crush_choose::{Out, Slot, Weights, run_rule};
use crush_map::Rule;
use crush_map::limits::RULE_ID_LIMIT;
use crush_pool::rule_with_id;
use serde_json::{Value, json};
use std::alloc::{AllocError, Global};
use std::marker::Model;
use tenant_messages::{
    Problem, Refusal, Reply, has_keys, ids_json, natural, optional_natural, slots_json, success,
};
use tenant_state::{Inventory, Version};

/// The body of a rule test: which items the rule gives for the input `x`, at most `size` of them.
#[derive(Drop)]
pub struct RuleTest {
    rule: u32,
    size: u32,
    x: u32,
    version: Option<u32>,
}

impl Model for RuleTest {
    ghost use Rattle.std.specs.Prelude.{◌≤◌};
    ghost use Rattle.crush_choose.specs.declared.limits.TheConstants.{SIZE_LIMIT};
    ghost use Rattle.tenant_resources.specs.RuleTests.{RuleTest};

    ghost Value = { RuleTest };

    ghost view = { λ a. record { rule = a.rule; size = a.size; x = a.x; version = a.version } };

    ghost invariant = { λ a. record {
      some : 1 ≤ a.size;
      few : a.size ≤ SIZE_LIMIT;
    } };
}

// ---- the body

/// Reads the test that a body's value says, or returns `None` where the value doesn't have the form
/// (`IsTestBody`).
pub fn read_test(value: &Value) -> Option<RuleTest>
    ensures { result ≡ spec.test_of (view value.now) }
{
    let keys = if value.get("version").is_some() { 4 } else { 3 };
    if !has_keys(value, keys) {
        return None;
    }
    let rule = natural(value, "rule", RULE_ID_LIMIT)?;
    let size = natural(value, "size", SIZE_LIMIT as u32)?;
    let x = natural(value, "x", 4_294_967_295)?;
    let version = optional_natural(value, "version", 4_294_967_295)?;
    if size == 0 {
        return None;
    }
    Some(RuleTest {
        rule,
        size,
        x,
        version,
    })
}

// ---- the answer

/// Makes the body of the reply: the epoch, the items (`null` for none) that the rule gives, the
/// devices in the outputs of its choose steps (`trace`, ascending), and the number of the version.
fn outcome(
    alloc: Global,
    epoch: u64,
    number: u64,
    slots: &[Slot],
    trace: &[u32],
) -> Result<Value, AllocError>
    ensures { IfOk result (λ v. view v ≡ spec.outcome epoch number slots.now trace.now) }
{
    let items = slots_json(alloc, slots)?;
    let trace = ids_json(alloc, trace)?;
    json!(in alloc; {"epoch": epoch, "items": items, "trace": trace, "version": number})
}

/// Runs a rule of a version on the reweights `weights` (16.16 fixed point), and makes the body of
/// the reply. `Err(AllocError)`: an allocation failed; nothing is changed.
fn test_reply(
    alloc: Global,
    epoch: u64,
    number: u64,
    version: &Version,
    weights: &Weights,
    rule: &Rule,
    test: &RuleTest,
) -> Result<Value, AllocError>
    requires rule { CanRun (tables_of version.now) rule.now }
    ensures { IfOk result (λ v. view v ≡ spec.test_reply epoch number version.now weights.now rule.now test.now.x test.now.size) }
{
    traces_ascend();
    let tables = version.tables();
    let mut scratch = Scratch::build(alloc, tables)?;
    let mut out = Out::build(alloc)?;
    run_rule(
        tables,
        &mut scratch,
        rule,
        test.x,
        test.size,
        weights,
        &mut out,
    );
    outcome(alloc, epoch, number, out.items(), out.trace())
}

/// Makes the reply to a rule test on `version`, which has the number `number`. The problem is
/// `NoRule`, where the version lacks the rule.
fn answer_on(
    alloc: Global,
    test: &RuleTest,
    inventory: &Inventory,
    number: u64,
    version: &Version,
) -> Result<Reply, Refusal>
    ensures { Answers result (spec.on_version test.now inventory.now number (Some version.now)) }
{
    let rule = rule_with_id(version.map(), test.rule).ok_or(Problem::NoRule)?;
    let weights = inventory.devices().weights();
    let body = test_reply(
        alloc,
        inventory.epoch(),
        number,
        version,
        weights,
        rule,
        test,
    )?;
    Ok(success(alloc, &body)?)
}

/// Makes the reply to a rule test: the items that the rule gives on the version that is named, or
/// else on the newest, with the states of devices as they are now. The problem is `NoVersion` where
/// there is no such version, and `NoRule` where it lacks the rule.
pub fn answer(alloc: Global, test: &RuleTest, inventory: &Inventory) -> Result<Reply, Refusal>
    ensures { Answers result (spec.answer test.now inventory.now) }
{
    let number = match test.version {
        Some(number) => u64::from(number),
        None => inventory.newest(),
    };
    let version = inventory.version(number).ok_or(Problem::NoVersion)?;
    answer_on(alloc, test, inventory, number, version)
}
