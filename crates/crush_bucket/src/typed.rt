//! A bucket of a map, and its type.

ghost use Rattle.std.specs.Prelude.{◌≡◌, IfOk};
ghost use Rattle.crush_bucket.specs.Tables.{typed_bucket};
ghost use Rattle.crush_bucket.specs.Private.Laid.{IsFit};

use crate::AnyBucket;
use crush_map::Bucket;
use std::alloc::{AllocError, Global};

/// A bucket and the number of its type.
#[derive(Drop)]
pub struct TypedBucket {
    pub of_type: u32,
    pub bucket: AnyBucket,
}

impl TypedBucket {
    /// Makes the bucket that a map declares.
    ///
    /// `Err(AllocError)`: an allocation failed; nothing is changed.
    pub(crate) fn build(alloc: Global, bucket: &Bucket) -> Result<Self, AllocError>
        requires { IsFit bucket.now }
        ensures { IfOk result (λ typed. typed ≡ typed_bucket bucket.now) }
    {
        let items = bucket.items.as_slice();
        Ok(TypedBucket {
            of_type: bucket.kind_of,
            bucket: AnyBucket::build(alloc, bucket.alg, bucket.id, items)?,
        })
    }
}
