//! Eight hashes at once, each in a lane of its own of every vector.

ghost use Rattle.std.specs.Prelude.{◌≡◌, ℕ, ◌<◌, slice_index, bit_xor};
ghost use Rattle.crush_hash.specs.Hash.{down, up, mix, hash3, hash4, lane};

use crate::{SEED, X, Y};
use std::simd::u32x8;

/// Three words in each lane.
type Lanes = (u32x8, u32x8, u32x8);

/// Returns a vector with `word` in each lane.
#[inline(always)]
fn splat(word: u32) -> u32x8
    ensures { (n : ℕ) → n < 8 → slice_index result n ≡ word }
{
    u32x8::splat(word)
}

#[inline(always)]
fn xor(x: u32x8, y: u32x8) -> u32x8
    ensures { (n : ℕ) → n < 8 → slice_index result n ≡ bit_xor (slice_index x n) (slice_index y n) }
{
    x ^ y
}

/// Returns `x - y - z`, xor `z` shifted right by `bits` bits, in each lane.
#[inline(always)]
fn down(bits: u32, x: u32x8, y: u32x8, z: u32x8) -> u32x8
    requires { bits < 32 }
    ensures { (n : ℕ) → n < 8 → slice_index result n ≡ down bits (slice_index x n) (slice_index y n) (slice_index z n) }
{
    (x - y - z) ^ (z >> u32x8::splat(bits))
}

/// Returns `x - y - z`, xor `z` shifted left by `bits` bits, in each lane.
#[inline(always)]
fn up(bits: u32, x: u32x8, y: u32x8, z: u32x8) -> u32x8
    requires { bits < 32 }
    ensures { (n : ℕ) → n < 8 → slice_index result n ≡ up bits (slice_index x n) (slice_index y n) (slice_index z n) }
{
    (x - y - z) ^ (z << u32x8::splat(bits))
}

/// Mixes the three words of each lane.
#[inline(always)]
fn mix(words: Lanes) -> Lanes
    ensures { (n : ℕ) → n < 8 → lane n result ≡ mix (lane n words) }
{
    mixed!(words)
}

/// Returns the hashes of three words, each of which differs from lane to lane
/// (`crush_hash32_3`).
#[inline(always)]
pub fn hash3_each(xs: &[u32; 8], ids: &[u32; 8], places: &[u32; 8]) -> [u32; 8]
    ensures { (n : ℕ) → n < 8 → slice_index result n ≡ hash3 (slice_index xs.now n) (slice_index ids.now n) (slice_index places.now n) }
{
    let (a, b) = (u32x8::from_array(*xs), u32x8::from_array(*ids));
    let c = u32x8::from_array(*places);
    let h1 = xor(splat(SEED), a);
    let h2 = xor(h1, b);
    let h3 = xor(h2, c);
    let p = mix((a, b, h3));
    let q = mix((c, splat(X), p.2));
    let s = mix((splat(Y), p.0, q.2));
    let t = mix((p.1, q.1, s.2));
    let u = mix((s.0, q.0, t.2));
    u.2.to_array()
}

/// Returns the hashes of four words, each of which differs from lane to lane
/// (`crush_hash32_4`).
#[inline(always)]
pub fn hash4_each(xs: &[u32; 8], items: &[u32; 8], rs: &[u32; 8], ids: &[u32; 8]) -> [u32; 8]
    ensures { (n : ℕ) → n < 8 → slice_index result n ≡ hash4 (slice_index xs.now n) (slice_index items.now n) (slice_index rs.now n) (slice_index ids.now n) }
{
    let a = u32x8::from_array(*xs);
    let b = u32x8::from_array(*items);
    let c = u32x8::from_array(*rs);
    let d = u32x8::from_array(*ids);
    let h1 = xor(splat(SEED), a);
    let h2 = xor(h1, b);
    let h3 = xor(h2, c);
    let h4 = xor(h3, d);
    let p = mix((a, b, h4));
    let q = mix((c, d, p.2));
    let s = mix((p.0, splat(X), q.2));
    let t = mix((splat(Y), p.1, s.2));
    let u = mix((q.0, s.1, t.2));
    let v = mix((t.0, q.1, u.2));
    v.2.to_array()
}

/// Returns the hashes of four words, of which the second differs from lane to lane
/// (`crush_hash32_4`).
#[inline(always)]
pub fn hash4_lanes(x: u32, items: &[u32; 8], r: u32, id: u32) -> [u32; 8]
    ensures { (n : ℕ) → n < 8 → slice_index result n ≡ hash4 x (slice_index items.now n) r id }
{
    hash4_each(&[x; 8], items, &[r; 8], &[id; 8])
}

/// Returns the hashes of three words, of which the second differs from lane to lane
/// (`crush_hash32_3`).
#[inline(always)]
pub fn hash3_items(x: u32, items: &[u32; 8], r: u32) -> [u32; 8]
    ensures { (n : ℕ) → n < 8 → slice_index result n ≡ hash3 x (slice_index items.now n) r }
{
    hash3_each(&[x; 8], items, &[r; 8])
}
