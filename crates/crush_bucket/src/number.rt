//! Numbers of buckets.

ghost use Rattle.std.specs.Prelude.{◌≡◌, ℕ, pos, negsuc, MatchOption};

use crush_map::ItemId;
use std::marker::Model;

/// The number of a bucket: its place in the order of declaration. Contracts see the number.
#[derive(Clone, Copy, Debug, PartialEq, Eq)]
pub struct BucketNo {
    place: usize,
}

impl Model for BucketNo {
    ghost use Rattle.std.specs.Prelude.{ℕ};

    ghost Value = { ℕ };

    ghost view = { λ a. a.place };

    ghost inverse = { λ n. record { place = n } };
}

impl BucketNo {
    /// Makes the number of the bucket at a place.
    pub fn new(place: usize) -> Self
        ensures { result ≡ place }
    {
        BucketNo { place }
    }

    /// Returns the place.
    pub fn place(self) -> usize
        ensures { result ≡ self }
    {
        self.place
    }
}

/// Returns the place of a bucket's id in an index: n for the id -1 - n, and `None` for the id of a
/// device.
pub(crate) fn index_place(id: ItemId) -> Option<usize>
    ensures { MatchOption result ((d : ℕ) × (id.0 ≡ pos d)) (λ n. id.0 ≡ negsuc n) }
{
    if id.0 < 0 {
        Some((id.0.unsigned_abs() - 1) as usize)
    } else {
        None
    }
}
