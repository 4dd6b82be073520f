//! How far a permutation is made.

ghost use Rattle.std.specs.Prelude.{◌≡◌, ◌<◌, ◌≤◌, ◌+◌, ◌-◌, ◌%◌, ◌^◌, true, false, min, max, List, length, slice_index};
ghost use Rattle.crush_hash.specs.Permutation.{permutation, after_swaps, differing, partner, asked};
ghost use Rattle.crush_hash.specs.Private.Pairs.{Pair};
ghost use Rattle.crush_hash.specs.Private.Reached.{IsReached, IsEmpty, IsKnown, remembered_by, swaps_of, len_by, room_of};

use crate::early::early_member;
use crate::hash3;
use crate::pairs::{Pair, begin, exchange, member_at};
use crate::place_hashes::PlaceHashes;
use crush_types::ItemId;

/// How far the permutation of a bucket's places is made for the input that was asked last. The
/// pairs of the places at which it differs from the identity stand at the front of a row; those of
/// an input's first exchange are written there when another place is asked for.
#[derive(Drop)]
pub(crate) struct Progress {
    pub(crate) size: usize,
    x: u32,
    /// The place with which the first exchange is made, where only that is made and its pairs
    /// aren't written yet.
    first: u32,
    /// How many exchanges are made, and how many pairs stand at the front of the row, where they
    /// are written.
    swaps: usize,
    len: usize,
    written: bool,
    hashes: PlaceHashes,
}

impl Progress {
    /// Returns the start, at which no exchange is made.
    pub(crate) fn new(id: ItemId, size: usize) -> Self
        ensures remembered { remembered_by result ≡ record { of = record { id = id; size = size }; x = 0; swaps = 0 } }
        ensures empty { IsEmpty result }
    {
        Progress {
            size,
            x: 0,
            first: 0,
            swaps: 0,
            len: 0,
            written: true,
            hashes: PlaceHashes::new(id),
        }
    }

    /// Makes it the permutation of a bucket with the id `id` and `size` items. Where it is another
    /// bucket's, no exchange is made then.
    #[inline]
    pub(crate) fn turn_to(&mut self, id: ItemId, size: usize)
        requires { size < 2 ^ 32 }
        ensures of { (remembered_by self.new).of ≡ record { id = id; size = size } }
        ensures reached { (row : List Pair) → room_of size ≤ length row → IsReached self.old row → IsReached self.new row }
    {
        if self.size != size || self.hashes.id() != id {
            *self = Progress::new(id, size);
        }
    }

    /// Returns at how many places the permutation, as far as it is made, differs from the identity.
    pub(crate) fn len(&self) -> usize
        ensures { result ≡ len_by self.now }
    {
        if self.written {
            self.len
        } else if self.first == 0 {
            0
        } else {
            2
        }
    }

    /// Returns whether a row is needed for the member at a place. For place 0 none is needed,
    /// unless more than the first exchange was made for x.
    #[inline]
    pub(crate) fn needs_row(&self, x: u32, place: usize) -> bool
        ensures place { result ≡ false → place ≡ 0 }
        ensures unwritten { result ≡ false → x ≡ self.now.x → self.now.written ≡ false }
    {
        place > 0 || x == self.x && self.written
    }

    /// Returns the member at place 0 where no row is needed for it.
    #[inline]
    pub(crate) fn first(&mut self, x: u32) -> u32
        requires some { 0 < self.old.size }
        requires small { self.old.size < 2 ^ 32 }
        requires unwritten { x ≡ self.old.x → self.old.written ≡ false }
        requires known { IsKnown self.old }
        ensures member { result ≡ slice_index (permutation self.old.hashes self.old.size x) 0 }
        ensures within { result < self.old.size }
        ensures asked { remembered_by self.new ≡ asked (remembered_by self.old) x 0 }
        ensures reached { (row : List Pair) → IsReached self.old row → IsReached self.new row }
    {
        if x != self.x {
            return self.begin(x, self.written && self.swaps > 0);
        }
        self.first
    }

    /// Finds the member of the permutation for x at one of the first four places. It makes no
    /// exchange and remembers none.
    #[inline]
    pub(crate) fn early(&mut self, x: u32, place: usize) -> u32
        requires early { place < 4 }
        requires within { place < self.old.size }
        requires small { self.old.size < 2 ^ 32 }
        ensures member { result ≡ slice_index (permutation self.old.hashes self.old.size x) place }
        ensures within { result < self.old.size }
        ensures remembered { remembered_by self.new ≡ remembered_by self.old }
        ensures reached { (row : List Pair) → IsReached self.old row → IsReached self.new row }
    {
        let hashes = self.hashes.first_four(x);
        early_member(&hashes, self.size as u32, place as u32)
    }

    /// Finds the member of the permutation for x at a place. It isn't inlined, so that a question
    /// for place 0 alone, which needs no row, doesn't spill the registers that it uses.
    #[inline(never)]
    pub(crate) fn member(&mut self, row: &mut [Pair], x: u32, place: usize) -> u32
        requires within { place < self.old.size }
        requires reached { IsReached self.old row.old }
        ensures member { result ≡ slice_index (permutation self.old.hashes self.old.size x) place }
        ensures within { result < self.old.size }
        ensures asked { remembered_by self.new ≡ asked (remembered_by self.old) x place }
        ensures reached { IsReached self.new row.new }
        ensures room { length row.new ≡ length row.old }
    {
        if x != self.x {
            self.begin(x, true);
        }
        self.write(row);
        self.reach(row, place)
    }

    /// Makes the first exchange for a new input. Returns the member at place 0. Four hashes are
    /// made at once where others will be asked for.
    #[inline]
    fn begin(&mut self, x: u32, others: bool) -> u32
        requires some { 0 < self.old.size }
        requires small { self.old.size < 2 ^ 32 }
        ensures value { result ≡ partner self.old.hashes self.old.size x 0 }
        ensures within { result < self.old.size }
        ensures remembered { remembered_by self.new ≡ record { of = (remembered_by self.old).of; x = x; swaps = min 1 (self.old.size - 1) } }
        ensures reached { (row : List Pair) → IsReached self.old row → IsReached self.new row }
    {
        let hash = if others {
            self.hashes.hash(x, 0)
        } else {
            hash3(x, self.hashes.id().word(), 0)
        };
        let first = partner(hash, self.size, 0) as u32;
        self.x = x;
        self.first = first;
        self.written = false;
        first
    }

    /// Writes the pairs of the first exchange to a row, where only that was made.
    #[inline]
    fn write(&mut self, row: &mut [Pair])
        requires reached { IsReached self.old row.old }
        ensures written { self.new.written ≡ true }
        ensures remembered { remembered_by self.new ≡ remembered_by self.old }
        ensures reached { IsReached self.new row.new }
        ensures room { length row.new ≡ length row.old }
    {
        if !self.written {
            self.len = begin(row, self.first);
            self.swaps = 1.min(self.size - 1);
            self.written = true;
        }
    }

    /// Makes the exchanges that the member at a place needs beyond those that are made. Returns
    /// that member.
    #[inline]
    fn reach(&mut self, row: &mut [Pair], place: usize) -> u32
        requires within { place < self.old.size }
        requires written { self.old.written ≡ true }
        requires reached { IsReached self.old row.old }
        ensures member { result ≡ slice_index (permutation self.old.hashes self.old.size self.old.x) place }
        ensures remembered { remembered_by self.new ≡ record { of = (remembered_by self.old).of; x = self.old.x; swaps = max (swaps_of self.old) (min (place + 1) (self.old.size - 1)) } }
        ensures reached { IsReached self.new row.new }
        ensures room { length row.new ≡ length row.old }
    {
        let made = self.swaps;
        let wanted = (place + 1).min(self.size - 1);
        let mut last = 0;
        for n in made..wanted {
            last = self.exchange(row, n);
        }
        if made < wanted && place < wanted {
            return last;
        }
        member_at(&row[..self.len], place as u32)
    }

    /// Makes one exchange more, the n-th from 0. Returns the member that comes to the lower place.
    #[inline]
    fn exchange(&mut self, row: &mut [Pair], n: usize) -> u32
        requires next { n ≡ swaps_of self.old }
        requires within { n < self.old.size }
        requires written { self.old.written ≡ true }
        requires reached { IsReached self.old row.old }
        ensures member { result ≡ slice_index (after_swaps self.old.hashes self.old.size self.old.x (n + 1)) n }
        ensures remembered { remembered_by self.new ≡ record { of = (remembered_by self.old).of; x = self.old.x; swaps = n + 1 } }
        ensures written { self.new.written ≡ true }
        ensures reached { IsReached self.new row.new }
        ensures room { length row.new ≡ length row.old }
    {
        let hash = self.hashes.hash(self.x, n as u32);
        let other = partner(hash, self.size, n);
        self.swaps = n + 1;
        if other == n {
            return member_at(&row[..self.len], n as u32);
        }
        let (member, len) = exchange(row, self.len, n as u32, other as u32);
        self.len = len;
        member
    }
}

/// Returns how long the row of a permutation is: the first exchange is written to two places in any
/// case.
pub(crate) fn room_of(size: usize) -> usize
    ensures { result ≡ room_of size }
{
    size.max(2)
}

/// Returns the place with which a place changes contents, by its hash.
#[inline]
pub(crate) fn partner(hash: u32, size: usize, place: usize) -> usize
    requires within { place < size }
    requires small { size < 2 ^ 32 }
    ensures value { result ≡ place + hash % (size - place) }
    ensures within { result < size }
    ensures above { place ≤ result }
{
    let places = (size - place) as u32;
    place + (hash % places) as usize
}
