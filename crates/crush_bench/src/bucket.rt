//! Timing picks from one bucket.

ghost use Rattle.std.specs.Prelude.{◌≡◌};
ghost use Rattle.crush_bucket.specs.Pick.{perm_of};

use crush_bucket::{
    ListBucket, Perm, Picker, Straw2Bucket, TreeBucket, UniformBucket, can_be_asked,
};
use crush_map::{ItemId, Kind, Weight, has_equal_weights};
use std::alloc::{AllocError, Global};
use std::io;
use std::rt::Clock;
use std::time::{Duration, Instant};

/// 1.0 in 16.16 fixed point.
const ONE: u32 = 65_536;

/// The id of the bucket.
const ID: ItemId = ItemId(-1);

/// The checksum of some picks, and how long they took.
#[derive(Clone, Copy)]
pub struct Measured {
    pub checksum: u64,
    pub took: Duration,
}

/// Which picks to make: for each of the inputs 0, 1, .. the attempts 0, 1, ..
#[derive(Clone, Copy)]
pub struct Questions {
    pub inputs: u32,
    pub tries: u32,
}

/// Times the picks from a bucket of `kind` with `size` items. `None`: there is no such bucket.
pub(crate) fn measure<R: AllocGlobal + Clock>(
    rt: &R,
    kind: Kind,
    size: u32,
    questions: Questions,
) -> io::Result<Option<Measured>> {
    let alloc = rt.alloc();
    let entries = entries_of(alloc, kind, size)?;
    if !can_be_asked(&entries) {
        return Ok(None);
    }
    let perm = Perm::build(alloc, ID, entries.len())?;
    match kind {
        Kind::Uniform => {
            if !has_equal_weights(&entries) {
                return Ok(None);
            }
            let bucket = UniformBucket::build(alloc, ID, &entries)?;
            measure_bucket(rt, &bucket, perm, questions)
        }
        Kind::List => {
            let bucket = ListBucket::build(alloc, ID, &entries)?;
            measure_bucket(rt, &bucket, perm, questions)
        }
        Kind::Tree => {
            let bucket = TreeBucket::build(alloc, ID, &entries)?;
            measure_bucket(rt, &bucket, perm, questions)
        }
        Kind::Straw2 => {
            let bucket = Straw2Bucket::build(alloc, ID, &entries)?;
            measure_bucket(rt, &bucket, perm, questions)
        }
    }
}

/// Makes the devices 0, 1, .. with weights in 16.16 fixed point.
fn entries_of(alloc: Global, kind: Kind, size: u32) -> Result<Vec<(ItemId, Weight)>, AllocError> {
    let mut entries = Vec::new(alloc);
    for n in 0..size.min(65_535) {
        let weight = match kind {
            Kind::Uniform => ONE,
            Kind::List | Kind::Tree | Kind::Straw2 => ONE * (1 + n % 4),
        };
        entries.push((ItemId(n as i32), Weight(weight)))?;
    }
    Ok(entries)
}

/// Times the picks alone, without building the bucket.
fn measure_bucket<P: Picker, R: Clock>(
    rt: &R,
    bucket: &P,
    mut perm: Perm,
    questions: Questions,
) -> io::Result<Option<Measured>>
    requires { perm.of ≡ perm_of (P.bucket bucket.now) }
{
    let start = Instant::now(rt)?;
    let checksum = pick_all(bucket, &mut perm, questions);
    let took = start.elapsed(rt)?;
    Ok(Some(Measured { checksum, took }))
}

/// Makes all picks. Returns their checksum.
fn pick_all<P: Picker>(bucket: &P, perm: &mut Perm, questions: Questions) -> u64
    requires { perm.old.of ≡ perm_of (P.bucket bucket.now) }
{
    let mut checksum = 0;
    'inputs: for x in 0..questions.inputs {
        checksum = pick_tries(bucket, perm, x, questions.tries, checksum);
    }
    checksum
}

/// Makes the picks for the input `x`. Returns the checksum `before` with them.
#[inline]
fn pick_tries<P: Picker>(bucket: &P, perm: &mut Perm, x: u32, tries: u32, before: u64) -> u64
    requires { perm.old.of ≡ perm_of (P.bucket bucket.now) }
    ensures { perm.new.of ≡ perm.old.of }
{
    let mut checksum = before;
    'tries: for r in 0..tries {
        let item = bucket.pick(perm, x, r);
        checksum = checksum
            .wrapping_mul(31)
            .wrapping_add(u64::from(item.word()));
    }
    checksum
}
