//! Reading bodies: bytes as a JSON value (RFC 8259), and that value as one of a given form.

ghost use Rattle.std.specs.Prelude.{◌≡◌, option_map, codes};
ghost use Rattle.serde_json.specs.Find.{as_bool, as_str};
ghost use Rattle.serde_json.specs.View.{view};
ghost use Rattle.tenant_messages.specs.Json as spec;
ghost use Rattle.tenant_messages.specs.Numbers as numbers;
ghost use Rattle.tenant_messages.specs.Reading.{Reads};

use crate::limits::REQUEST_NUMBER_LIMIT;
use crate::reply::{Problem, Refusal};
use serde_json::Value;
use std::alloc::Global;

/// Reads `body` as UTF-8. `Err`: the problem `BadRequest`, exactly where it isn't UTF-8.
pub fn text_of(body: &[u8]) -> Result<&str, Refusal>
    ensures { Reads (λ t. t.now) result (spec.text_of body.now) }
{
    match str::from_utf8(body) {
        Ok(text) => Ok(text),
        Err(_) => Err(Refusal::Problem(Problem::BadRequest)),
    }
}

/// Reads `body` as a JSON value. `Err`: the problem `BadRequest`, exactly where it isn't JSON, or
/// `NoMemory`, where an allocation failed.
pub fn read_value(alloc: Global, body: &str) -> Result<Value, Refusal>
    ensures { Reads view result (spec.value_of body.now) }
{
    match Value::from_str(alloc, body) {
        Ok(value) => Ok(value),
        Err(error) if error.is_memory() => Err(Refusal::NoMemory),
        Err(_) => Err(Refusal::Problem(Problem::BadRequest)),
    }
}

/// Returns whether `value` is an object with `count` different keys.
pub fn has_keys(value: &Value, count: usize) -> bool
    ensures { result ≡ spec.has_keys count (view value.now) }
{
    let Some(members) = value.as_object() else {
        return false;
    };
    members.len() == count
}

/// Returns the whole number under `key`, written without sign, point and exponent, if it is from 0
/// to `greatest`; else `None`.
pub fn natural(value: &Value, key: &str, greatest: u32) -> Option<u32>
    ensures { result ≡ spec.under key.now (spec.natural_of greatest) (view value.now) }
{
    let number = value.get(key)?.as_u64()?;
    if number <= u64::from(greatest) {
        Some(number as u32)
    } else {
        None
    }
}

/// Returns the whole number under `key`, written without point and exponent, if it is from `least`
/// to `greatest`; else `None`.
pub fn integer(value: &Value, key: &str, least: i32, greatest: i32) -> Option<i32>
    ensures { result ≡ spec.under key.now (spec.integer_of least greatest) (view value.now) }
{
    let number = value.get(key)?.as_i64()?;
    if i64::from(least) <= number && number <= i64::from(greatest) {
        Some(number as i32)
    } else {
        None
    }
}

/// Returns the truth value under `key`, or `None` where there is none.
pub fn boolean(value: &Value, key: &str) -> Option<bool>
    ensures { result ≡ spec.under key.now as_bool (view value.now) }
{
    value.get(key)?.as_bool()
}

/// Returns the text under `key`, or `None` where there is none.
pub fn text<'a>(value: &'a Value, key: &str) -> Option<&'a str>
    ensures { option_map (λ t. t.now) result ≡ spec.under key.now as_str (view value.now) }
{
    value.get(key)?.as_str()
}

/// Returns the whole number under `key`, from 0 to `greatest`: `Some(None)` where the object has no
/// such key, and `None` where the value under the key is another.
pub fn optional_natural(value: &Value, key: &str, greatest: u32) -> Option<Option<u32>>
    ensures { result ≡ spec.optional key.now (spec.natural_of greatest) (view value.now) }
{
    match value.get(key) {
        None => Some(None),
        Some(_) => Some(Some(natural(value, key, greatest)?)),
    }
}

/// Returns the truth value under `key`: `Some(None)` where the object has no such key, and `None`
/// where the value under the key is another.
pub fn optional_boolean(value: &Value, key: &str) -> Option<Option<bool>>
    ensures { result ≡ spec.optional key.now as_bool (view value.now) }
{
    match value.get(key) {
        None => Some(None),
        Some(_) => Some(Some(boolean(value, key)?)),
    }
}

/// Returns the request number of a changing request, the text under the key `request`, if it has
/// from 1 to `REQUEST_NUMBER_LIMIT` bytes; else `None`.
pub fn request_number(value: &Value) -> Option<&str>
    ensures { option_map (λ t. t.now) result ≡ spec.under (codes "request") numbers.request_number_of (view value.now) }
{
    let number = text(value, "request")?;
    if number.is_empty() || number.len() > REQUEST_NUMBER_LIMIT {
        return None;
    }
    Some(number)
}
