//! The index from the id of a bucket to its number.

ghost use Rattle.std.specs.Prelude.{◌≡◌, ◌<◌, ℕ, negsuc, Option, None, Some, IfOk, length, slice_index_or, slice_set};
ghost use Rattle.crush_bucket.specs.Private.Laid.{IsIndexOf};
ghost use Rattle.crush_bucket.specs.Tables.{no_bucket};

use crate::number::{BucketNo, index_place};
use crate::typed::TypedBucket;
use std::alloc::{AllocError, Global};

/// Makes a list that has at n the `BucketNo` of the bucket with the id -1 - n.
///
/// `Err(AllocError)`: an allocation failed; nothing is changed.
pub(crate) fn index_of(
    alloc: Global,
    rows: &[TypedBucket],
) -> Result<Vec<Option<BucketNo>>, AllocError>
    ensures { IfOk result (λ index. IsIndexOf rows.now index.items) }
{
    let mut index = empty_index(alloc, index_size(rows))?;
    for place in (0..rows.len()).rev() {
        let row = &rows[place];
        if let Some(n) = index_place(row.bucket.id()) {
            put(&mut index, n, place);
        }
    }
    Ok(index)
}

/// Sets what the index has at n to the bucket at a place.
fn put(index: &mut Vec<Option<BucketNo>>, n: usize, place: usize)
    requires { n < length index.old.items }
    ensures { index.new.items ≡ slice_set index.old.items n (Some place) }
{
    index[n] = Some(BucketNo::new(place));
}

/// Makes an index of the length `size` with no bucket.
fn empty_index(alloc: Global, size: usize) -> Result<Vec<Option<BucketNo>>, AllocError>
    ensures len { IfOk result (λ index. length index.items ≡ size) }
    ensures none { IfOk result (λ index. (n : ℕ) → slice_index_or index.items n None ≡ None) }
{
    Ok(vec![in alloc; None; size]?)
}

/// Returns how long the index has to be: longer than the n of each bucket with an id -1 - n.
fn index_size(rows: &[TypedBucket]) -> usize
    ensures { (place n : ℕ) → place < length rows.now → (slice_index_or rows.now place no_bucket).bucket.id.0 ≡ negsuc n → n < result }
{
    let mut size = 0;
    for row in rows {
        if let Some(n) = index_place(row.bucket.id()) {
            size = size.max(n + 1);
        }
    }
    size
}
