//! States of devices as CSV, at `/t/{t}/devices/csv`: POST changes reweights, and which devices are
//! up.

ghost use Rattle.std.specs.Prelude.{◌≡◌};
ghost use Rattle.serde_json.specs.View.{view};
ghost use Rattle.crush_report.specs.DeviceCsv.{device_changes_of};
ghost use Rattle.tenant_messages.specs.Reading.{Reads};
ghost use Rattle.tenant_reports.specs.DeviceCsv as spec;

use crush_map::{Sequence, Text};
use crush_pool::DeviceChange;
use crush_report::read_device_csv;
use serde_json::Value;
use std::alloc::Global;
use tenant_messages::{Problem, Refusal, has_keys, request_number, text};

/// Reads the changes that a CSV says, in the order of its lines. The problem is `BadRequest`,
/// exactly where the text doesn't have the form of a CSV of changes.
fn changes(alloc: Global, csv: &str) -> Result<Sequence<DeviceChange>, Refusal>
    ensures { Reads (λ changes. changes) result (device_changes_of csv.now) }
{
    match read_device_csv(alloc, csv.as_bytes())? {
        Ok(changes) => Ok(Sequence::new(changes)),
        Err(_) => Err(Refusal::Problem(Problem::BadRequest)),
    }
}

/// Reads the request number and the changes that a body's value says. The problem is `BadRequest`,
/// exactly where the value doesn't have the form (`IsDeviceCsvBody`).
pub fn read_changes(alloc: Global, value: &Value) -> Result<(Text, Sequence<DeviceChange>), Refusal>
    ensures { Reads (λ asked. asked) result (spec.changes_of (view value.now)) }
{
    if !has_keys(value, 2) {
        return Err(Refusal::Problem(Problem::BadRequest));
    }
    let number = request_number(value).ok_or(Problem::BadRequest)?;
    let csv = text(value, "csv").ok_or(Problem::BadRequest)?;
    let changes = changes(alloc, csv)?;
    Ok((Text::copy(alloc, number)?, changes))
}
