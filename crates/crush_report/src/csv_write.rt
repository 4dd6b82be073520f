//! Reports as CSV (RFC 4180): the names of the columns, and then each row.
//!
//! A field is digits, `-`, or ids with one space between two, so none needs quotes.

ghost use Rattle.std.specs.Prelude.{◌≡◌, ◌++◌, ◌∷◌, [], IfOk, OnOk};
ghost use Rattle.std.specs.Fmt.{decimal};
ghost use Rattle.csv.specs.Writing.{default_writer, row_text};
ghost use Rattle.crush_report.specs.Csv as spec;

use crate::rows::{MoveRow, UsageRow};
use crush_choose::Slot;
use itoa::Buffer;
use std::alloc::{AllocError, Global};

/// Writes a number in decimal, and the byte after it.
fn write_number(out: &mut Vec<u8>, number: u64, after: u8) -> Result<(), AllocError>
    ensures { OnOk result (out.new.items ≡ out.old.items ++ (decimal number ++ after ∷ [])) }
{
    let mut digits = Buffer::new();
    out.extend_from_slice(digits.format(number).as_bytes())?;
    out.push(after)?;
    Ok(())
}

// ---- usage

/// Writes the line of a device.
fn write_usage(out: &mut Vec<u8>, row: &UsageRow) -> Result<(), AllocError>
    ensures { OnOk result (out.new.items ≡ out.old.items ++ row_text default_writer (spec.usage_fields row.now)) }
{
    write_number(out, u64::from(row.device), b',')?;
    write_number(out, u64::from(row.groups), b',')?;
    write_number(out, u64::from(row.entries), b',')?;
    write_number(out, u64::from(row.primaries), b',')?;
    write_number(out, u64::from(row.permille), b'\n')?;
    Ok(())
}

/// Writes usage as CSV. `Err(AllocError)`: an allocation failed.
#[tactic(auto, using(crate::proofs::CsvTexts::usage_head_line, crate::proofs::CsvTexts::one_more))]
pub fn usage_csv(alloc: Global, rows: &[UsageRow]) -> Result<Vec<u8>, AllocError>
    ensures { IfOk result (λ text. text.items ≡ spec.usage_text rows.now) }
{
    let mut text = Vec::new(alloc);
    text.extend_from_slice(b"device,groups,entries,primaries,permille\n")?;
    for row in rows {
        write_usage(&mut text, row)?;
    }
    Ok(text)
}

// ---- moves

/// Writes an item by its id, or `-` for none.
fn write_slot(out: &mut Vec<u8>, slot: &Slot) -> Result<(), AllocError>
    ensures { OnOk result (out.new.items ≡ out.old.items ++ spec.slot_text slot.now) }
{
    match slot {
        None => out.push(b'-')?,
        Some(item) => {
            let mut digits = Buffer::new();
            out.extend_from_slice(digits.format(item.0).as_bytes())?;
        }
    }
    Ok(())
}

/// Writes the items of a list, with one space between two.
fn write_list(out: &mut Vec<u8>, slots: &[Slot]) -> Result<(), AllocError>
    ensures { OnOk result (out.new.items ≡ out.old.items ++ spec.list_text slots.now) }
{
    let [first, others @ ..] = slots else {
        return Ok(());
    };
    write_slot(out, first)?;
    for slot in others {
        out.push(b' ')?;
        write_slot(out, slot)?;
    }
    Ok(())
}

/// Writes the line of a group.
fn write_move(out: &mut Vec<u8>, row: &MoveRow) -> Result<(), AllocError>
    ensures { OnOk result (out.new.items ≡ out.old.items ++ row_text default_writer (spec.move_fields row.now)) }
{
    write_number(out, u64::from(row.group), b',')?;
    write_number(out, row.gained as u64, b',')?;
    write_list(out, row.old.as_slice())?;
    out.push(b',')?;
    write_list(out, row.new.as_slice())?;
    out.push(b'\n')?;
    Ok(())
}

/// Writes moves as CSV. `Err(AllocError)`: an allocation failed.
#[tactic(auto, using(crate::proofs::CsvTexts::move_head_line, crate::proofs::CsvTexts::one_more))]
pub fn moves_csv(alloc: Global, rows: &[MoveRow]) -> Result<Vec<u8>, AllocError>
    ensures { IfOk result (λ text. text.items ≡ spec.moves_text rows.now) }
{
    let mut text = Vec::new(alloc);
    text.extend_from_slice(b"group,gained,old,new\n")?;
    for row in rows {
        write_move(&mut text, row)?;
    }
    Ok(text)
}
