//! Timing whole mappings, by the first rule of a map.

use crate::bucket::Measured;
use crate::ready::Ready;
use crate::size::Size;
use crush_choose::Slot;
use std::io;
use std::rt::Clock;
use std::time::{Duration, Instant};

/// Ceph's CRUSH_ITEM_NONE, the value of an empty slot in a checksum.
const NONE: u64 = 0x7fff_ffff;

/// How many times the same work is timed.
const RUNS: u32 = 5;

fn with_answer(sum: u64, slots: &[Slot]) -> u64 {
    let mut sum = sum;
    for slot in slots {
        let item = match *slot {
            Some(item) => i64::from(item.0).cast_unsigned(),
            None => NONE,
        };
        sum = sum.wrapping_mul(31).wrapping_add(item);
    }
    sum
}

/// Computes the checksum over the answers for the inputs below `count`.
fn checksum(ready: &mut Ready, size: Size, count: u32) -> u64 {
    let mut sum = 0;
    for x in 0..count {
        sum = with_answer(sum, ready.answer(x, size));
    }
    sum
}

/// Times the mappings for the inputs below `count`; the time is the shortest of `RUNS` runs.
pub(crate) fn measure<R: Clock>(
    rt: &R,
    ready: &mut Ready,
    size: Size,
    count: u32,
) -> io::Result<Measured> {
    let mut sum = 0;
    let mut shortest = Duration::MAX;
    for _ in 0..RUNS {
        let start = Instant::now(rt)?;
        sum = checksum(ready, size, count);
        shortest = shortest.min(start.elapsed(rt)?);
    }
    Ok(Measured {
        checksum: sum,
        took: shortest,
    })
}
