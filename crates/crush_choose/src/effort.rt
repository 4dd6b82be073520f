//! When a call asks whether any try can still succeed.
//!
//! The question looks at the items of many buckets, so it is asked where tries have failed for as
//! long as it takes. No answer depends on when it is asked, and no contract speaks of it.

use crush_bucket::{BucketNo, Tables};

/// What a pick counts, in items that the question looks at: a pick takes at least about as long as
/// looking at that number of them.
const PICK: u64 = 16;

/// What the question takes beside its price, whatever the map is: 16 picks.
const LEAST: u64 = 256;

/// What the picks of a call have cost so far, and the price of the question.
#[derive(Drop)]
pub(crate) struct Effort {
    spent: u64,
    price: Option<u64>,
}

impl Effort {
    /// Returns the effort of a call that has spent nothing so far.
    pub(crate) fn new() -> Self {
        Effort {
            spent: 0,
            price: None,
        }
    }

    /// Counts a pick.
    #[inline]
    pub(crate) fn add_pick(&mut self) {
        self.spent = self.spent.wrapping_add(PICK);
    }

    /// Returns what was spent so far.
    pub(crate) fn spent(&self) -> u64 {
        self.spent
    }

    /// Returns whether tries below a bucket have cost as much as the question, since the call had
    /// spent `since`.
    pub(crate) fn is_due(&mut self, tables: &Tables, bucket: BucketNo, since: u64) -> bool {
        let spent = self.spent.saturating_sub(since);
        if spent < LEAST {
            return false;
        }
        let price = match self.price {
            Some(price) => price,
            None => price_of(tables, bucket),
        };
        self.price = Some(price);
        spent >= price.saturating_add(LEAST)
    }
}

/// Counts the items of the buckets up to a bucket, by number.
fn price_of(tables: &Tables, bucket: BucketNo) -> u64 {
    let mut items: u64 = 0;
    for place in 0..bucket.place().saturating_add(1).min(tables.len()) {
        items = items.saturating_add(tables.size(BucketNo::new(place)) as u64);
    }
    items
}
