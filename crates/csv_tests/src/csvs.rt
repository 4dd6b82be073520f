//! Reports as CSV, and changes of devices from CSV.

use crush_map::{ItemId, Sequence};
use crush_pool::limits::CHANGE_LIMIT;
use crush_report::{DeviceChange, MoveRow, UsageRow, moves_csv, read_device_csv, usage_csv};
use std::alloc::{AllocError, Global};
use std::test::Fail;

// ---- reports

#[test]
fn each_device_has_a_line_of_its_numbers(rt: HostRuntime) -> Result<(), Fail> {
    let alloc = rt.alloc();
    let none = UsageRow {
        device: 65_535,
        groups: 0,
        entries: 0,
        primaries: 0,
        permille: 0,
    };
    let most = UsageRow {
        device: 0,
        groups: 65_536,
        entries: 2_097_152,
        primaries: 7,
        permille: 1000,
    };
    let text = usage_csv(alloc, &[most, none])?;
    assert!(rt;
        text.as_slice()
            == b"device,groups,entries,primaries,permille\n0,65536,2097152,7,1000\n65535,0,0,0,0\n".as_slice()
    );
    Ok(())
}

/// Makes a list of `devices`, with none where the number is below 0.
fn list(alloc: Global, devices: &[i32]) -> Result<Sequence<Option<ItemId>>, AllocError> {
    let mut all = Vec::new(alloc);
    for device in devices {
        all.push(if *device < 0 {
            None
        } else {
            Some(ItemId(*device))
        })?;
    }
    Ok(Sequence::new(all))
}

#[test]
fn lists_are_joined_by_one_space(rt: HostRuntime) -> Result<(), Fail> {
    let alloc = rt.alloc();
    let mut rows = Vec::new(alloc);
    rows.push(MoveRow {
        group: 0,
        gained: 1,
        old: list(alloc, &[0])?,
        new: list(alloc, &[7])?,
    })?;
    rows.push(MoveRow {
        group: 65_535,
        gained: 2,
        old: list(alloc, &[])?,
        new: list(alloc, &[12, -1, 65_535])?,
    })?;
    let text = moves_csv(alloc, rows.as_slice())?;
    assert!(rt;
        text.as_slice() == b"group,gained,old,new\n0,1,0,7\n65535,2,,12 - 65535\n".as_slice()
    );
    Ok(())
}

#[test]
fn without_rows_the_names_of_the_columns_stand_alone(rt: HostRuntime) -> Result<(), Fail> {
    let alloc = rt.alloc();
    let used = usage_csv(alloc, &[])?;
    assert!(rt; used.as_slice() == b"device,groups,entries,primaries,permille\n".as_slice());
    let moved = moves_csv(alloc, &[])?;
    assert!(rt; moved.as_slice() == b"group,gained,old,new\n".as_slice());
    Ok(())
}

// ---- changes of devices

/// Texts that say that device 1 has 32768 and is down.
const FORMS: &[&[u8]] = &[
    b"id,reweight,up\n1,32768,0\n",
    b"\xef\xbb\xbfid,reweight,up\r\n1,32768,0",
    b"\n\nid,reweight,up\r\"1\",32768,\"0",
    b"id,reweight,up\n0000000001,0000032768,0\n\n",
];

#[test]
fn changes_are_read_by_the_rules_of_csv(rt: HostRuntime) -> Result<(), Fail> {
    let wanted = DeviceChange {
        device: 1,
        reweight: Some(32_768),
        up: Some(false),
    };
    for (place, text) in FORMS.iter().enumerate() {
        let answer = read_device_csv(rt.alloc(), text)?;
        assert!(rt; answer.is_ok(), "the text {place}");
        assert!(rt;
            answer.ok().unwrap().as_slice() == [wanted].as_slice(),
            "the text {place}"
        );
    }
    Ok(())
}

/// Texts that aren't of the form.
const OTHERS: &[&[u8]] = &[
    b"",
    b"id,reweight,up\n",
    b"id,reweight,up\n1,65537,0\n",
    b"id,reweight,up\n65536,1,0\n",
    b"id,reweight,up\n1,1,0\n1,2,1\n",
    b"id,reweight,up\n1,1,2\n",
    b"id,reweight,up\n1,1\n",
    b"id,reweight,up\n1,1,1,1\n",
    b"id,reweight,up\n1, 1,1\n",
    b"id,reweight,up\n00000000001,1,1\n",
    b"id,reweight,up\n,1,1\n",
    b"1,1,1\n",
    b"ID,reweight,up\n1,1,1\n",
];

#[test]
fn other_texts_are_refused(rt: HostRuntime) -> Result<(), Fail> {
    for (place, text) in OTHERS.iter().enumerate() {
        let answer = read_device_csv(rt.alloc(), text)?;
        assert!(rt; answer.is_err(), "the text {place}");
    }
    Ok(())
}

/// Makes a text with a line for each of the devices 0, 1, ..
fn lines(alloc: Global, count: u32) -> Result<Vec<u8>, AllocError> {
    let mut text = Vec::new(alloc);
    text.extend_from_slice(b"id,reweight,up\n".as_slice())?;
    for id in 0..count {
        let line = format!(in alloc; "{id},65536,1\n")?;
        text.extend_from_slice(line.as_bytes())?;
    }
    Ok(text)
}

#[test]
fn changes_are_as_many_as_the_limit_at_most(rt: HostRuntime) -> Result<(), Fail> {
    let alloc = rt.alloc();
    let most = read_device_csv(alloc, lines(alloc, CHANGE_LIMIT as u32)?.as_slice())?;
    assert!(rt; most.is_ok());
    assert_eq!(rt; most.ok().unwrap().len(), CHANGE_LIMIT);
    let past = read_device_csv(alloc, lines(alloc, CHANGE_LIMIT as u32 + 1)?.as_slice())?;
    assert!(rt; past.is_err());
    Ok(())
}
