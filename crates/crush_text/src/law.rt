//! Laws: statements that hold for every text or every map. A call does nothing; its contract is the
//! law.

ghost use Rattle.std.specs.Prelude.{◌≡◌, ◌↔◌, ◌⊎◌, ℕ, List, Result, Ok, Err, IfOk, IfErr};
ghost use Rattle.std.specs.Str.{IsAscii, IsUtf8};
ghost use Rattle.crush_grammar.specs.declared.code.TextFault.{TextFault};
ghost use Rattle.crush_map.specs.Map.{Map, IsMap};
ghost use Rattle.crush_writing.specs.Canonical.{canonical};
ghost use Rattle.crush_text.specs.MapText.{HasFirstFault, IsRefusedFor, IsShort, IsTextOf};
ghost use Rattle.crush_text.specs.Reading.{map_of_stored_text, map_of_text};

use crush_grammar::{words_are_read_as_they_say, words_are_whole_or_break, words_declare_once};
use crush_map::{
    buckets_are_sound, drafts_declare_maps, first_fault_is_first, numbers_and_names_are_once,
    numbers_are_sound, rules_are_sound, weight_comes_back,
};

/// A text is the text of at most one map.
pub fn texts_say_one_map()
    ensures { (text : List ℕ) (m n : Map) → IsTextOf text m → IsTextOf text n → m ≡ n }
{
    words_declare_once();
}

/// The canonical text of a map is a text of that map, and of no other.
pub fn canonical_texts_are_read()
    ensures own { (m : Map) → IsMap m → IsTextOf (canonical m) m }
    ensures alone { (m n : Map) → IsMap m → IsTextOf (canonical m) n → n ≡ m }
{
    buckets_are_sound();
    first_fault_is_first();
    numbers_and_names_are_once();
    numbers_are_sound();
    rules_are_sound();
    weight_comes_back();
    texts_say_one_map();
}

/// The text of a map has no first fault.
pub fn texts_of_maps_have_no_fault()
    ensures { (text : List ℕ) (m : Map) (f : TextFault) → IsTextOf text m → ¬ (HasFirstFault text f) }
{
    words_declare_once();
    words_are_whole_or_break();
}

/// The canonical text of a map is ASCII.
pub fn canonical_texts_are_ascii()
    ensures ascii { (m : Map) → IsMap m → IsAscii (canonical m) }
    ensures utf8 { (m : Map) → IsMap m → IsUtf8 (canonical m) }
{
    buckets_are_sound();
    first_fault_is_first();
    numbers_and_names_are_once();
    numbers_are_sound();
    rules_are_sound();
    weight_comes_back();
}

/// The functions that read texts answer what the texts say: a map, or the first fault.
pub fn texts_are_read_as_they_say()
    ensures map { (text : List ℕ) (m : Map) → (map_of_text text ≡ Ok m) ↔ (IsShort text × IsTextOf text m) }
    ensures refused { (text : List ℕ) (f : TextFault) → (map_of_text text ≡ Err f) ↔ IsRefusedFor text f }
    ensures stored_map { (text : List ℕ) (m : Map) → (map_of_stored_text text ≡ Ok m) ↔ IsTextOf text m }
    ensures stored_refused { (text : List ℕ) (f : TextFault) → (map_of_stored_text text ≡ Err f) ↔ HasFirstFault text f }
{
    drafts_declare_maps();
    words_are_read_as_they_say();
}

/// Each text is the text of a map or has a first fault, and it has at most one first fault.
pub fn texts_have_a_map_or_one_fault()
    ensures either { (text : List ℕ) → ((m : Map) × IsTextOf text m) ⊎ ((f : TextFault) × HasFirstFault text f) }
    ensures one_fault { (text : List ℕ) (f g : TextFault) → HasFirstFault text f → HasFirstFault text g → f ≡ g }
{
    texts_are_read_as_they_say();
}

/// The text that is written of a map is read back as that map: by `read_stored`, and by `read_map`
/// if it has at most `TEXT_LIMIT` bytes.
///
/// `imported` and `stored` say so of the functions of a text. `by_read_map` and `by_read_stored`
/// say so of the calls: on what `write_map` writes of a map, each answer that their contracts allow
/// is that map.
pub fn written_maps_are_read_back()
    ensures imported { (m : Map) → IsMap m → IsShort (canonical m) → map_of_text (canonical m) ≡ Ok m }
    ensures stored { (m : Map) → IsMap m → map_of_stored_text (canonical m) ≡ Ok m }
    ensures by_read_map { (m : Map) (answer : Result Map TextFault) → IsMap m → IsShort (canonical m) → IfOk answer (λ n. IsShort (canonical m) × IsTextOf (canonical m) n) → IfErr answer (λ f. IsRefusedFor (canonical m) f) → answer ≡ Ok m }
    ensures by_read_stored { (m : Map) (answer : Result Map TextFault) → IsMap m → IfOk answer (λ n. IsTextOf (canonical m) n) → IfErr answer (λ f. HasFirstFault (canonical m) f) → answer ≡ Ok m }
{
    canonical_texts_are_read();
    texts_of_maps_have_no_fault();
    texts_are_read_as_they_say();
}
