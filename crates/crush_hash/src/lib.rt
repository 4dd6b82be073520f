//! rjenkins1, the hash of CRUSH, over words of 32 bits, the hash of a name, and permutations of a
//! bucket's places by hashes.
//!
//! Sources: Ceph's `src/crush/hash.c`, `src/common/ceph_hash.cc` and `bucket_perm_choose` of
//! `src/crush/mapper.c`. A hash allocates nothing and can't fail.
#![tactic(auto)]

ghost use Rattle.std.specs.Prelude.{◌≡◌, ◌<◌, ◌+◌, ◌^◌, length, slice_index};
ghost use Rattle.crush_hash.specs.Hash.{down, up, mix, hash1, hash2, hash3, hash4, hash5, word_at, absorb, group, last_group, name_hash};

/// What a hash is before a word is mixed into it.
const SEED: u32 = 1_315_423_911;

/// The two fixed words, which are mixed beside those that are hashed.
const X: u32 = 231_232;

const Y: u32 = 1_232;

/// The golden ratio's word, at which two of the words of a name's hash begin.
const GOLDEN: u32 = 2_654_435_769;

/// Three words that are mixed.
type Words = (u32, u32, u32);

/// Returns `x - y - z`, xor `z` shifted right by `bits` bits. Differences wrap.
#[tactic(auto, unfolding(crate::specs::Hash::down))]
fn down(bits: u32, x: u32, y: u32, z: u32) -> u32
    requires { bits < 32 }
    ensures { result ≡ down bits x y z }
{
    x.wrapping_sub(y).wrapping_sub(z) ^ (z >> bits)
}

/// Returns `x - y - z`, xor `z` shifted left by `bits` bits. Differences wrap.
#[tactic(auto, unfolding(crate::specs::Hash::up))]
fn up(bits: u32, x: u32, y: u32, z: u32) -> u32
    requires { bits < 32 }
    ensures { result ≡ up bits x y z }
{
    x.wrapping_sub(y).wrapping_sub(z) ^ (z << bits)
}

/// The nine lines of `crush_hashmix`, over words or over vectors of them.
macro_rules! mixed {
    ($words:expr) => {{
        let (a0, b0, c0) = $words;
        let a1 = down(13, a0, b0, c0);
        let b1 = up(8, b0, c0, a1);
        let c1 = down(13, c0, a1, b1);
        let a2 = down(12, a1, b1, c1);
        let b2 = up(16, b1, c1, a2);
        let c2 = down(5, c1, a2, b2);
        let a3 = down(3, a2, b2, c2);
        let b3 = up(10, b2, c2, a3);
        let c3 = down(15, c2, a3, b3);
        (a3, b3, c3)
    }};
}

/// Mixes three words.
#[tactic(auto, unfolding(crate::specs::Hash::mix))]
fn mix(a: u32, b: u32, c: u32) -> Words
    ensures { result ≡ mix (a, b, c) }
{
    mixed!((a, b, c))
}

/// Mixes `p` and `q` with the hash. Returns what the two become.
fn stir(hash: &mut u32, p: u32, q: u32) -> (u32, u32)
    ensures { mix (p, q, hash.old) ≡ (result.0, result.1, hash.new) }
{
    let (p, q, mixed) = mix(p, q, *hash);
    *hash = mixed;
    (p, q)
}

/// Returns the hash of one word (`crush_hash32`).
#[tactic(auto, unfolding(crate::specs::Hash::hash1))]
pub fn hash1(a: u32) -> u32
    ensures { result ≡ hash1 a }
{
    let mut hash = SEED ^ a;
    stir(&mut hash, a, X);
    stir(&mut hash, Y, a);
    hash
}

/// Returns the hash of two words (`crush_hash32_2`).
#[tactic(auto, unfolding(crate::specs::Hash::hash2))]
pub fn hash2(a: u32, b: u32) -> u32
    ensures { result ≡ hash2 a b }
{
    let mut hash = SEED ^ a ^ b;
    let (a, b) = stir(&mut hash, a, b);
    stir(&mut hash, X, a);
    stir(&mut hash, b, Y);
    hash
}

/// Returns the hash of three words (`crush_hash32_3`).
#[tactic(auto, unfolding(crate::specs::Hash::hash3))]
pub fn hash3(a: u32, b: u32, c: u32) -> u32
    ensures { result ≡ hash3 a b c }
{
    let mut hash = SEED ^ a ^ b ^ c;
    let (a, b) = stir(&mut hash, a, b);
    let (c, x) = stir(&mut hash, c, X);
    let (y, _) = stir(&mut hash, Y, a);
    stir(&mut hash, b, x);
    stir(&mut hash, y, c);
    hash
}

/// Returns the hash of four words (`crush_hash32_4`).
#[tactic(auto, unfolding(crate::specs::Hash::hash4))]
pub fn hash4(a: u32, b: u32, c: u32, d: u32) -> u32
    ensures { result ≡ hash4 a b c d }
{
    let mut hash = SEED ^ a ^ b ^ c ^ d;
    let (a, b) = stir(&mut hash, a, b);
    let (c, d) = stir(&mut hash, c, d);
    let (_, x) = stir(&mut hash, a, X);
    let (y, _) = stir(&mut hash, Y, b);
    stir(&mut hash, c, x);
    stir(&mut hash, y, d);
    hash
}

/// Returns the hash of five words (`crush_hash32_5`).
#[tactic(auto, unfolding(crate::specs::Hash::hash5))]
pub fn hash5(a: u32, b: u32, c: u32, d: u32, e: u32) -> u32
    ensures { result ≡ hash5 a b c d e }
{
    let mut hash = SEED ^ a ^ b ^ c ^ d ^ e;
    let (a, b) = stir(&mut hash, a, b);
    let (c, d) = stir(&mut hash, c, d);
    let (e, x) = stir(&mut hash, e, X);
    let (y, _) = stir(&mut hash, Y, a);
    let (_, x) = stir(&mut hash, b, x);
    let (y, _) = stir(&mut hash, y, c);
    stir(&mut hash, d, x);
    stir(&mut hash, y, e);
    hash
}

/// Returns the byte at `place`, or 0 past the end.
fn byte_at(name: &[u8], place: usize) -> u32
    ensures value { result ≡ slice_index name.now place }
    ensures small { result < 256 }
{
    u32::from(name.get(place).copied().unwrap_or(0))
}

/// Returns the four bytes from `place` on as a word, the lowest byte first.
#[tactic(auto, unfolding(crate::specs::Hash::word_at))]
fn word_at(name: &[u8], place: usize) -> u32
    requires { place + 4 < 2 ^ 63 }
    ensures { result ≡ word_at name.now place }
{
    let low = byte_at(name, place) + 256 * byte_at(name, place + 1);
    let high = byte_at(name, place + 2) + 256 * byte_at(name, place + 3);
    low + 65_536 * high
}

/// Adds a word to each of three words, and mixes them.
#[tactic(auto, unfolding(crate::specs::Hash::absorb))]
fn absorb(words: Words, group: Words) -> Words
    ensures { result ≡ absorb words group }
{
    let ((a, b, c), (p, q, r)) = (words, group);
    mix(a.wrapping_add(p), b.wrapping_add(q), c.wrapping_add(r))
}

/// Returns the three words of the 12 bytes from `place` on.
fn group(name: &[u8], place: usize) -> Words
    requires { place + 16 < 2 ^ 63 }
    ensures { result ≡ group name.now place }
{
    (
        word_at(name, place),
        word_at(name, place + 4),
        word_at(name, place + 8),
    )
}

/// Returns the three words of the bytes from `place` on, the last 11 at most, and of the length.
#[tactic(auto, unfolding(crate::specs::Hash::last_group))]
fn last_group(name: &[u8], place: usize) -> Words
    requires near { place + 16 < 2 ^ 63 }
    requires short { length name.now < 2 ^ 32 }
    ensures { result ≡ last_group name.now place }
{
    let (a, b, c) = group(name, place);
    (a, b, (name.len() as u32).wrapping_add(c << 8))
}

/// Returns the hash of a name (`ceph_str_hash_rjenkins`).
pub fn name_hash(name: &[u8]) -> u32
    requires { length name.now < 2 ^ 32 }
    ensures { result ≡ name_hash name.now }
{
    let groups = name.len() / 12;
    let mut words = (GOLDEN, GOLDEN, 0);
    for n in 0..groups {
        words = absorb(words, group(name, 12 * n));
    }
    absorb(words, last_group(name, 12 * groups)).2
}

mod early;
mod eight;
mod four_lanes;
mod lanes;
pub mod laws;
mod pairs;
mod perm;
mod perms;
mod place_hashes;
mod reached;

pub use eight::eight_members;
pub use four_lanes::{hash3_four, hash3_lanes, hash4_four};
pub use lanes::{hash3_each, hash3_items, hash4_each, hash4_lanes};
pub use perm::Perm;
pub use perms::Perms;

#[cfg(test)]
mod tests;
