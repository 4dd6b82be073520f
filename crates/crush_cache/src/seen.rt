//! Which groups were asked for lately.

use crate::entries::Key;
use std::alloc::{AllocError, Global};
use std::num::NonZeroUsize;

/// How many placements of a cache share 64 marks.
const PLACEMENTS_TO_A_WORD: usize = 4;

/// How many of each word's 64 marks are set on average when all are cleared.
const SET_IN_A_WORD: usize = 8;

/// 2^64 over the golden ratio: the multiples of it are spread evenly.
const MULTIPLIER: u64 = 0x9e37_79b9_7f4a_7c15;

/// The groups that were asked for lately, by a mark for each, of which another group may have the
/// same: one that wasn't asked for may count as one that was. No answer depends on it, so contracts
/// don't see it.
#[derive(Drop)]
pub(crate) struct SeenGroups {
    words: Vec<u64>,
    /// How many marks are set.
    set: usize,
}

impl SeenGroups {
    /// Makes the marks of a cache for `capacity` placements: nothing was asked for yet.
    /// `Err(AllocError)`: an allocation failed; nothing is changed.
    pub(crate) fn new(alloc: Global, capacity: NonZeroUsize) -> Result<Self, AllocError> {
        let count = capacity.get() / PLACEMENTS_TO_A_WORD + 1;
        Ok(SeenGroups {
            words: vec![in alloc; 0; count]?,
            set: 0,
        })
    }

    /// Returns whether the group of a key was asked for lately; from now on it was. Allocates
    /// nothing.
    pub(crate) fn is_asked_again(&mut self, key: Key) -> bool {
        // the upper half of this product depends on the group and on the number
        let mixed = (key.number << 32 ^ key.group as u64).wrapping_mul(MULTIPLIER);
        let Some(place) = ((mixed >> 32) as usize).checked_rem(self.words.len()) else {
            return true;
        };
        let mark = 1 << (mixed >> 26) % 64;
        let word = self.words[place];
        if word & mark != 0 {
            return true;
        }
        if self.set / SET_IN_A_WORD >= self.words.len() {
            self.words.fill(0);
            self.set = 0;
        }
        self.words[place] |= mark;
        self.set = self.set.wrapping_add(1);
        false
    }
}
