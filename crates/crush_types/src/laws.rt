//! Laws of the names of kinds: each contract holds of the definitions alone.

ghost use Rattle.std.specs.Prelude.{◌≡◌, ◌≢◌, ℕ, List, Some};
ghost use Rattle.crush_types.specs.Kinds.{kind_name, kind_named};
ghost use Rattle.crush_types.specs.declared.word.Kind.{Kind as AnyKind};

use crate::word::Kind;

/// The name of each kind but straw2 names that kind, and no other word does; `straw2` names none.
pub fn names_are_of_one_kind()
    ensures named { (k : AnyKind) → k ≢ Kind.Straw2 → kind_named (kind_name k) ≡ Some k }
    ensures only { (name : List ℕ) (k : AnyKind) → kind_named name ≡ Some k → (name ≡ kind_name k) × (k ≢ Kind.Straw2) }
{}
