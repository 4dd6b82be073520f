//! Laws of the definitions: each contract holds of the definitions alone.

ghost use Rattle.std.specs.Prelude.{◌≡◌, ◌≢◌, ◌⊎◌, ◌<◌, ◌≤◌, ◌+◌, ◌*◌, ℕ, slice_index};
ghost use Rattle.std.specs.List.{range_with_len};
ghost use Rattle.std.specs.List.Sorted.{IsPermutation};
ghost use Rattle.crush_types.specs.declared.ItemId.{ItemId};
ghost use Rattle.crush_hash.specs.Permutation.{PermView, Remembered, permutation, asked, kept};

/// The permutation of a uniform bucket's places has each place once, so each of its members is a
/// place.
pub fn permutation_has_each_place()
    ensures once { (id : ItemId) (size x : ℕ) → IsPermutation (range_with_len 0 size) (permutation id size x) }
    ensures places { (id : ItemId) (size x place : ℕ) → place < size → slice_index (permutation id size x) place < size }
{}

/// A new `Perm` stores no place. The first question for an input makes it store at most twice as
/// many places as exchanges. A new `Perm` is asked for each input for the first time, for 0 too,
/// which it remembers without an exchange.
pub fn a_perm_keeps_few_places()
    ensures none { (of : PermView) (x : ℕ) → kept (record { of = of; x = x; swaps = 0 }) ≡ 0 }
    ensures few { (m : Remembered) (x place : ℕ) → m.x ≢ x ⊎ m.swaps ≡ 0 → place < m.of.size → kept (asked m x place) ≤ 2 * (place + 1) }
{}
