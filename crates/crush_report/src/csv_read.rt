//! Changes of devices from CSV (RFC 4180).

ghost use Rattle.std.specs.Prelude.{◌≡◌, ◌+◌, true, take, map, option_map, Some, None, IfOk, IfErr};
ghost use Rattle.csv.specs.Reading.{default_config, error_kind, records, stops_reader, strip_bom};
ghost use Rattle.csv.specs.Records.{fields_of};
ghost use Rattle.crush_pool.specs.declared.limits.TheConstants.{CHANGE_LIMIT};
ghost use Rattle.crush_report.specs.DeviceCsv as spec;

use crush_choose::FULL;
use crush_grammar::number_from_text;
use crush_map::limits::NUMBER_LIMIT;
use crush_pool::limits::CHANGE_LIMIT;
use crush_pool::{DeviceChange, are_valid_changes};
use csv::{ByteRecord, Error, ErrorKind, ReaderBuilder};
use std::alloc::{AllocError, Global};

/// Why a CSV wasn't read.
#[derive(Clone, Copy, Debug, PartialEq, Eq)]
pub enum CsvFault {
    /// The text isn't of the form.
    C1,
}

// ---- fields

/// Reads the number from 0 to `greatest` that 1 to 10 digits write. `None`: they write none.
fn number_up_to(greatest: u32, text: &[u8]) -> Option<u32>
    ensures { result ≡ spec.number_up_to greatest text.now }
{
    let number = number_from_text(text)?;
    if number <= u64::from(greatest) {
        Some(number as u32)
    } else {
        None
    }
}

/// Reads the flag that `1` or `0` writes. `None`: the text is neither.
fn flag(text: &[u8]) -> Option<bool>
    ensures { result ≡ spec.flag_of text.now }
{
    if text == b"1".as_slice() {
        Some(true)
    } else if text == b"0".as_slice() {
        Some(false)
    } else {
        None
    }
}

/// Reads the change that the fields of a record write. `None`: they write none.
fn change_of_fields(id: &[u8], reweight: &[u8], up: &[u8]) -> Option<DeviceChange>
    ensures { result ≡ spec.change_of_fields id.now reweight.now up.now }
{
    let device = number_up_to(NUMBER_LIMIT, id)?;
    let reweight = number_up_to(FULL, reweight)?;
    let up = flag(up)?;
    Some(DeviceChange {
        device,
        reweight: Some(reweight),
        up: Some(up),
    })
}

// ---- records

/// Returns the fields of a record that has three. `None`: it has another number of fields.
fn three_fields(row: &ByteRecord) -> Option<(&[u8], &[u8], &[u8])>
    ensures { option_map (λ f. (f.0.now, f.1.now, f.2.now)) result ≡ spec.three_of (fields_of row.now) }
{
    if row.len() != 3 {
        return None;
    }
    Some((row.get(0)?, row.get(1)?, row.get(2)?))
}

/// Reads the change that a record says. `None`: it says none.
fn change(row: &ByteRecord) -> Option<DeviceChange>
    ensures { result ≡ spec.change_of (fields_of row.now) }
{
    let (id, reweight, up) = three_fields(row)?;
    change_of_fields(id, reweight, up)
}

/// Reads the changes that records say. `None`: one of them says no change.
fn changes(alloc: Global, rows: &[ByteRecord]) -> Result<Option<Vec<DeviceChange>>, AllocError>
    ensures { IfOk result (λ found. option_map (λ v. v.items) found ≡ spec.changes_of (map fields_of rows.now)) }
{
    let mut found = Vec::new(alloc);
    for row in rows {
        let Some(next) = change(row) else {
            return Ok(None);
        };
        found.push(next)?;
    }
    Ok(Some(found))
}

/// Returns whether a record has the names of the columns.
fn is_head(row: &ByteRecord) -> bool
    ensures { result ≡ spec.is_head (fields_of row.now) }
{
    let Some((id, reweight, up)) = three_fields(row) else {
        return false;
    };
    id == b"id".as_slice() && reweight == b"reweight".as_slice() && up == b"up".as_slice()
}

/// Reads the changes that records say, of which the first has the names of the columns. `None`:
/// they aren't of the form.
fn changes_under_head(
    alloc: Global,
    rows: &[ByteRecord],
) -> Result<Option<Vec<DeviceChange>>, AllocError>
    ensures { IfOk result (λ found. option_map (λ v. v.items) found ≡ spec.changes_under_head (map fields_of rows.now)) }
{
    let [head, others @ ..] = rows else {
        return Ok(None);
    };
    if !is_head(head) {
        return Ok(None);
    }
    match changes(alloc, others)? {
        Some(changes) if are_valid_changes(&changes) => Ok(Some(changes)),
        _ => Ok(None),
    }
}

// ---- texts

/// Returns the error for the error that stopped a reader.
///
/// `csv` doesn't say when `Io` comes. Over bytes in memory it has no cause.
fn allocation_error(error: &Error) -> AllocError
    requires { stops_reader (error_kind error.now) ≡ true }
{
    match error.kind() {
        ErrorKind::OutOfMemory | ErrorKind::Io(_) => AllocError,
        ErrorKind::UnequalLengths { .. } => unreachable!(),
        ErrorKind::Utf8 { .. } => unreachable!(),
        ErrorKind::Serialize(_) => unreachable!(),
        ErrorKind::Deserialize { .. } => unreachable!(),
    }
}

/// Reads the first records of a text: at most one more than a text of the form has.
fn first_records(alloc: Global, text: &[u8]) -> Result<Vec<ByteRecord>, AllocError>
    ensures { IfOk result (λ found. map fields_of found.items ≡ take (CHANGE_LIMIT + 2) (records default_config (strip_bom text.now))) }
{
    let reader = ReaderBuilder::new()
        .has_headers(false)
        .flexible(true)
        .from_reader(alloc, text);
    let mut found = Vec::new(alloc);
    for next in reader.into_byte_records() {
        if found.len() == CHANGE_LIMIT + 2 {
            break;
        }
        match next {
            Ok(row) => found.push(row)?,
            Err(error) => return Err(allocation_error(&error)),
        }
    }
    Ok(found)
}

/// Reads the changes that a text says. `None`: it isn't of the form.
fn changes_in(alloc: Global, text: &[u8]) -> Result<Option<Vec<DeviceChange>>, AllocError>
    ensures { IfOk result (λ found. option_map (λ v. v.items) found ≡ spec.device_changes_of text.now) }
{
    let rows = first_records(alloc, text)?;
    changes_under_head(alloc, &rows)
}

/// Reads the changes that a text says, or answers `C1` where it isn't of the form.
/// `Err(AllocError)`: an allocation failed.
pub fn read_device_csv(
    alloc: Global,
    text: &[u8],
) -> Result<Result<Vec<DeviceChange>, CsvFault>, AllocError>
    ensures read { IfOk result (λ answer. IfOk answer (λ changes. spec.device_changes_of text.now ≡ Some changes.items)) }
    ensures refused { IfOk result (λ answer. IfErr answer (λ fault. spec.device_changes_of text.now ≡ None)) }
{
    match changes_in(alloc, text)? {
        Some(changes) => Ok(Ok(changes)),
        None => Ok(Err(CsvFault::C1)),
    }
}
