//! Four hashes at once, each in a lane of its own of every vector.

ghost use Rattle.std.specs.Prelude.{◌≡◌, ℕ, ◌<◌, slice_index, bit_xor};
ghost use Rattle.crush_hash.specs.Hash.{down, up, mix, hash3, hash4, lane};

use crate::{SEED, X, Y};
use std::simd::u32x4;

/// Three words in each lane.
type Lanes = (u32x4, u32x4, u32x4);

/// Returns a vector with `word` in each lane.
#[inline(always)]
fn splat(word: u32) -> u32x4
    ensures { (n : ℕ) → n < 4 → slice_index result n ≡ word }
{
    u32x4::splat(word)
}

#[inline(always)]
fn xor(x: u32x4, y: u32x4) -> u32x4
    ensures { (n : ℕ) → n < 4 → slice_index result n ≡ bit_xor (slice_index x n) (slice_index y n) }
{
    x ^ y
}

/// Returns `x - y - z`, xor `z` shifted right by `bits` bits, in each lane.
#[inline(always)]
fn down(bits: u32, x: u32x4, y: u32x4, z: u32x4) -> u32x4
    requires { bits < 32 }
    ensures { (n : ℕ) → n < 4 → slice_index result n ≡ down bits (slice_index x n) (slice_index y n) (slice_index z n) }
{
    (x - y - z) ^ (z >> u32x4::splat(bits))
}

/// Returns `x - y - z`, xor `z` shifted left by `bits` bits, in each lane.
#[inline(always)]
fn up(bits: u32, x: u32x4, y: u32x4, z: u32x4) -> u32x4
    requires { bits < 32 }
    ensures { (n : ℕ) → n < 4 → slice_index result n ≡ up bits (slice_index x n) (slice_index y n) (slice_index z n) }
{
    (x - y - z) ^ (z << u32x4::splat(bits))
}

/// Mixes the three words of each lane.
#[inline(always)]
fn mix(words: Lanes) -> Lanes
    ensures { (n : ℕ) → n < 4 → lane n result ≡ mix (lane n words) }
{
    mixed!(words)
}

/// Returns the hashes of the three words of each lane (`crush_hash32_3`).
#[inline(always)]
fn hash3_of(a: u32x4, b: u32x4, c: u32x4) -> [u32; 4]
    ensures { (n : ℕ) → n < 4 → slice_index result n ≡ hash3 (slice_index a n) (slice_index b n) (slice_index c n) }
{
    let h1 = xor(splat(SEED), a);
    let h2 = xor(h1, b);
    let h3 = xor(h2, c);
    let p = mix((a, b, h3));
    let q = mix((c, splat(X), p.2));
    let s = mix((splat(Y), p.0, q.2));
    let t = mix((p.1, q.1, s.2));
    let u = mix((s.0, q.0, t.2));
    u.2.to_array()
}

/// Returns the hashes of three words, of which the third differs from lane to lane
/// (`crush_hash32_3`).
#[inline(always)]
pub fn hash3_lanes(x: u32, id: u32, places: &[u32; 4]) -> [u32; 4]
    ensures { (n : ℕ) → n < 4 → slice_index result n ≡ hash3 x id (slice_index places.now n) }
{
    hash3_of(splat(x), splat(id), u32x4::from_array(*places))
}

/// Returns the hashes of three words, of which the second differs from lane to lane
/// (`crush_hash32_3`).
#[inline(always)]
pub fn hash3_four(x: u32, items: &[u32; 4], r: u32) -> [u32; 4]
    ensures { (n : ℕ) → n < 4 → slice_index result n ≡ hash3 x (slice_index items.now n) r }
{
    hash3_of(splat(x), u32x4::from_array(*items), splat(r))
}

/// Returns the hashes of four words, of which the second differs from lane to lane
/// (`crush_hash32_4`).
#[inline(always)]
pub fn hash4_four(x: u32, items: &[u32; 4], r: u32, id: u32) -> [u32; 4]
    ensures { (n : ℕ) → n < 4 → slice_index result n ≡ hash4 x (slice_index items.now n) r id }
{
    let b = u32x4::from_array(*items);
    let (a, c, d) = (splat(x), splat(r), splat(id));
    let h1 = xor(splat(SEED), a);
    let h2 = xor(h1, b);
    let h3 = xor(h2, c);
    let h4 = xor(h3, d);
    let p = mix((a, b, h4));
    let q = mix((c, d, p.2));
    let s = mix((p.0, splat(X), q.2));
    let t = mix((splat(Y), p.1, s.2));
    let u = mix((q.0, s.1, t.2));
    let v = mix((t.0, q.1, u.2));
    v.2.to_array()
}
