//! A permutation of 0, 1, .. as pairs of a place and its member, in order of place, for the places
//! whose member is another number than the place.

ghost use Rattle.std.specs.Prelude.{◌≡◌, ◌≢◌, ◌≤◌, ◌<◌, ◌+◌, ◌-◌, ◌∷◌, [], length, slice_index_or, take};
ghost use Rattle.crush_hash.specs.Private.Pairs.{no_pair, index, member_at, is_there, exchanged, IsRising, IsMovedRight};

/// A place and its member.
pub(crate) type Pair = (u32, u32);

/// Writes the pairs of a permutation in which place 0 changed contents with the place `first`, and
/// no others, to the front of a row. Returns how many they are. Two pairs are written in any case,
/// so that no branch depends on the place.
#[inline]
pub(crate) fn begin(row: &mut [Pair], first: u32) -> usize
    requires { 2 ≤ length row.old }
    ensures none { first ≡ 0 → take result row.new ≡ [] }
    ensures two { first ≢ 0 → take result row.new ≡ (0, first) ∷ (first, 0) ∷ [] }
    ensures few { result ≤ length row.new }
    ensures room { length row.new ≡ length row.old }
{
    row[0] = (0, first);
    row[1] = (first, 0);
    if first == 0 { 0 } else { 2 }
}

/// Finds the member at a place.
#[inline]
pub(crate) fn member_at(pairs: &[Pair], place: u32) -> u32
    requires { IsRising pairs.now }
    ensures { result ≡ member_at pairs.now place }
{
    member_by(pairs, index_of(pairs, place), place)
}

/// Counts the pairs of lower places than `place`. The search goes down from the place itself, since
/// there are at most as many.
#[inline]
fn index_of(pairs: &[Pair], place: u32) -> usize
    requires { IsRising pairs.now }
    ensures value { result ≡ index pairs.now place }
    ensures within { result ≤ length pairs.now }
{
    let mut at = pairs.len().min(place as usize);
    while at > 0 && pairs[at - 1].0 >= place {
        at -= 1;
    }
    at
}

/// Returns how many pairs are of lower places than `place`, where the first `from` of them are; the
/// member at that place; and whether it has a pair. It compares all pairs from there on: a
/// processor predicts a loop of a known length better than a search that may end anywhere.
#[inline]
fn search(pairs: &[Pair], from: usize, place: u32) -> (usize, u32, bool)
    requires rising { IsRising pairs.now }
    requires lower { 0 < from → (slice_index_or pairs.now (from - 1) no_pair).0 < place }
    requires within { from ≤ length pairs.now }
    ensures value { result.0 ≡ index pairs.now place }
    ensures within { result.0 ≤ length pairs.now }
    ensures above { from ≤ result.0 }
    ensures member { result.1 ≡ member_at pairs.now place }
    ensures there { result.2 ≡ is_there pairs.now result.0 place }
{
    let (mut to, mut member, mut found) = (from, place, false);
    for i in from..pairs.len() {
        let pair = pairs[i];
        if pair.0 < place {
            to = i + 1;
        }
        if pair.0 == place {
            member = pair.1;
            found = true;
        }
    }
    (to, member, found)
}

/// Returns whether the pair at an index is of a place.
#[inline]
fn is_there(pairs: &[Pair], at: usize, place: u32) -> bool
    ensures { result ≡ is_there pairs.now at place }
{
    at < pairs.len() && pairs[at].0 == place
}

/// Returns the member at a place, by the place's index.
#[inline]
fn member_by(pairs: &[Pair], at: usize, place: u32) -> u32
    requires { at ≡ index pairs.now place }
    ensures { result ≡ member_at pairs.now place }
{
    if at < pairs.len() && pairs[at].0 == place {
        pairs[at].1
    } else {
        place
    }
}

/// Exchanges the contents of two places, of which neither has the other's number, in the pairs at
/// the front of a row. Returns the member that comes to the lower one, and how many pairs there are
/// then. No branch depends on where the higher place's pair is or belongs.
#[inline]
pub(crate) fn exchange(row: &mut [Pair], len: usize, low: u32, high: u32) -> (u32, usize)
    requires few { len ≤ length row.old }
    requires rising { IsRising (take len row.old) }
    requires above { low < high }
    requires lower { member_at (take len row.old) low ≢ high }
    requires higher { member_at (take len row.old) high ≢ low }
    requires room { length (exchanged (take len row.old) low high) ≤ length row.old }
    ensures member { result.0 ≡ member_at (take len row.old) high }
    ensures size { length row.new ≡ length row.old }
    ensures few { result.1 ≤ length row.new }
    ensures pairs { take result.1 row.new ≡ exchanged (take len row.old) low high }
{
    let pairs = &row[..len];
    let at = index_of(pairs, low);
    let own = member_by(pairs, at, low);
    let up = usize::from(!is_there(pairs, at, low));
    let (to, member, found) = search(pairs, at, high);
    let more = usize::from(!found);
    move_right(row, at, to, len, up, more);
    row[to + up] = (high, own);
    row[at] = (low, member);
    (member, len + up + more)
}

/// Moves the pairs from `at` on to the right: those below `to` by `up`, the others by `more` too.
#[inline]
fn move_right(row: &mut [Pair], at: usize, to: usize, len: usize, up: usize, more: usize)
    requires { len + up + more ≤ length row.old }
    ensures { IsMovedRight row.old row.new at to len up more }
{
    for i in (at..len).rev() {
        let by = if i < to { up } else { up + more };
        row[i + by] = row[i];
    }
}
