//! Laws of the bytes that are written of replies: each contract is about the definitions alone.

ghost use Rattle.std.specs.Prelude.{◌≡◌, ◌≢◌, ◌<◌, ◌++◌, ◌+◌, ℕ, List, [], length, Some};
ghost use Rattle.crush_server.specs.tenant_service.specs.Writing.{AppendsPart, shown_body};

/// Bytes that were written in part are a front of them, behind the bytes of before, and not all.
pub fn a_part_is_not_all()
    ensures front { (old new bytes : List ℕ) → AppendsPart (Some old) (Some new) bytes → (front rest : List ℕ) × (front ++ rest ≡ bytes) × (new ≡ old ++ front) }
    ensures less { (old new bytes : List ℕ) → AppendsPart (Some old) (Some new) bytes → length new < length old + length bytes }
{}

/// Each body is shown by a text, and one that isn't empty is shown by itself.
pub fn each_body_is_shown()
    ensures some { (body : List ℕ) → shown_body body ≢ [] }
    ensures same { (body : List ℕ) → body ≢ [] → shown_body body ≡ body }
{}
