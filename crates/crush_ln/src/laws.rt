//! Laws of the tables and of the delay: each contract holds of the definitions alone.

ghost use Rattle.std.specs.Prelude.{◌≡◌, ◌<◌, ◌≤◌, ◌+◌, ◌*◌, ◌/◌, ◌^◌, ◌-◌, ℕ, slice_index};
ghost use Rattle.crush_ln.specs.Log.{delay};
ghost use Rattle.crush_ln.specs.declared.tables.TheConstants.{RECIPROCALS};

/// Each reciprocal of a 128th part is rounded up.
pub fn reciprocals_are_rounded_up()
    ensures { (k : ℕ) → k < 129 → slice_index RECIPROCALS k ≡ (2 ^ 48 * 128 + (127 + k)) / (128 + k) }
{}

/// A greater draw has no longer delay, but for the greatest of all: its delay is longer than that
/// of the draw before it, and no longer than the others.
pub fn a_greater_draw_is_no_later()
    ensures falls { (u v : ℕ) → u ≤ v → v < 2 ^ 16 - 1 → delay v ≤ delay u }
    ensures greatest { (u : ℕ) → u ≤ 65533 → delay 65535 ≤ delay u }
    ensures but { delay 65534 < delay 65535 }
{}

/// A delay is never 0, so Ceph's logarithm is always below 2^48.
pub fn a_delay_is_never_0()
    ensures least { (u : ℕ) → u < 2 ^ 16 → delay 65534 ≤ delay u }
    ensures is { delay 65534 ≡ 43930352 }
    ensures most { (u : ℕ) → delay u ≤ delay 0 }
    ensures at_0 { delay 0 ≡ 2 ^ 48 }
{}
