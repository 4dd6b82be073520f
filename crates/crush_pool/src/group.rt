//! The group that a number falls into.

ghost use Rattle.std.specs.Prelude.{◌≡◌};
ghost use Rattle.crush_pool.specs.Groups as spec;

use crush_bucket::laws::height_is_least;

/// Returns the mask for `b` groups: 2^k - 1 for the least k such that 2^k is at least `b` (Ceph's
/// `pg_num_mask`).
pub fn mask_of(b: u32) -> u32
    ensures { result ≡ spec.mask_of b }
{
    height_is_least();
    let mut height: u32 = 0;
    let mut width: u64 = 1;
    while width < b as u64 {
        width *= 2;
        height += 1;
    }
    (width - 1) as u32
}

/// Returns the one of `b` groups that `x` falls into, with the mask for `b` (Ceph's
/// `ceph_stable_mod`): where `b` grows, few numbers move.
pub fn stable_mod(x: u32, b: u32, mask: u32) -> u32
    ensures { result ≡ spec.stable_mod x b mask }
{
    let kept = x & mask;
    if kept < b { kept } else { x & (mask >> 1) }
}
