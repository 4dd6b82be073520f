//! Maps, at `/t/{t}/maps`: POST adds a version of the tenant's map, from a text. At
//! `/t/{t}/maps/{v}` GET reads the version v.

ghost use Rattle.std.specs.Prelude.{◌≡◌, ◌<◌, ◌^◌, false, IfOk, length};
ghost use Rattle.serde_json.specs.View.{view};
ghost use Rattle.serde_json.specs.Written.{has_float};
ghost use Rattle.tenant_resources.specs.Maps as spec;
ghost use Rattle.tenant_resources.specs.Orders.{accepted_of};
ghost use Rattle.tenant_messages.specs.Reading.{Reads};
ghost use Rattle.tenant_messages.specs.Refusals.{Answers, Gives};

use crate::accepted::Acceptance;
use crush_map::Text;
use crush_text::{read_map, texts_are_read_as_they_say};
use serde_json::{Value, json};
use std::alloc::{AllocError, Global};
use tenant_messages::{
    Problem, Refusal, Reply, SuccessStatus, has_keys, request_number, success, text,
};
use tenant_state::limits::VERSION_LIMIT;
use tenant_state::{Inventory, Product, Version};

// ---- the body of an import

/// Reads the request number and the text of the import that a body's value says. The problem is
/// `BadRequest`, exactly where the value doesn't have the form (`IsImportBody`).
pub fn read_import(alloc: Global, value: &Value) -> Result<(Text, Text), Refusal>
    ensures { Reads (λ asked. asked) result (spec.import_of (view value.now)) }
{
    if !has_keys(value, 2) {
        return Err(Refusal::Problem(Problem::BadRequest));
    }
    let number = request_number(value).ok_or(Problem::BadRequest)?;
    let written = text(value, "text").ok_or(Problem::BadRequest)?;
    Ok((Text::copy(alloc, number)?, Text::copy(alloc, written)?))
}

// ---- importing a text

/// Makes the body of the reply: the epoch after the import, and the number of the new version.
fn import_reply(alloc: Global, inventory: &Inventory) -> Result<Value, AllocError>
    requires receipts { inventory.now.epoch < 2 ^ 32 }
    requires versions { length inventory.now.versions < 2 ^ 32 }
    ensures { IfOk result (λ v. view v ≡ spec.import_reply inventory.now) }
{
    json!(in alloc; {"epoch": inventory.epoch() + 1, "version": inventory.newest() + 1})
}

/// Accepts a map's text as a new version, with the reply. The problem is, in this order,
/// `TenantLimit` where there are `VERSION_LIMIT` versions already, `MapRefused` with the text's
/// first fault, or `RuleInUse` where the new map lacks the rule of a pool.
pub fn import(alloc: Global, text: &str, inventory: &Inventory) -> Result<Acceptance, Refusal>
    requires { inventory.now.epoch < 2 ^ 32 }
    ensures given { Gives accepted_of result (spec.imported text.now inventory.now) }
    ensures plain { IfOk result (λ a. has_float (view a.body) ≡ false) }
{
    if inventory.newest() >= VERSION_LIMIT as u64 {
        return Err(Refusal::Problem(Problem::TenantLimit));
    }
    texts_are_read_as_they_say();
    match read_map(alloc, text.as_bytes())? {
        Err(fault) => Err(Refusal::Problem(Problem::MapRefused(fault))),
        Ok(map) => {
            if !inventory.has_rules_in(&map) {
                return Err(Refusal::Problem(Problem::RuleInUse));
            }
            let version = Version::shared(alloc, map)?;
            Ok(Acceptance {
                made: Product::Version(version),
                status: SuccessStatus::Created,
                body: import_reply(alloc, inventory)?,
            })
        }
    }
}

// ---- reading a version

/// Makes the body of the reply: the canonical text of a version, and its number.
fn version_reply(alloc: Global, number: u64, version: &Version) -> Result<Value, AllocError>
    ensures { IfOk result (λ v. view v ≡ spec.version_reply number version.now) }
{
    json!(in alloc; {"text": version.text(), "version": number})
}

/// Makes the reply with the canonical text of the version `number`. The problem is `NoVersion`,
/// where there is no such version.
pub fn answer(alloc: Global, number: u64, inventory: &Inventory) -> Result<Reply, Refusal>
    ensures { Answers result (spec.answer number inventory.now) }
{
    let version = inventory.version(number).ok_or(Problem::NoVersion)?;
    let body = version_reply(alloc, number, version)?;
    Ok(success(alloc, &body)?)
}
