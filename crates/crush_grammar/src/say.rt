//! The values of single words.

ghost use Rattle.std.specs.Prelude.{◌≡◌, ◌∷◌, [], ◌<◌, Ok, Err, length, MatchResult, Some, None, true, false, bytes_eq};
ghost use Rattle.std.specs.List.{list_all};
ghost use Rattle.crush_map.specs.Faults.{is_name_byte};
ghost use Rattle.crush_map.specs.WeightText.{weight_of};
ghost use Rattle.crush_grammar.specs.Numbers as numbers;
ghost use Rattle.crush_grammar.specs.Fronts as fronts;
ghost use Rattle.crush_grammar.specs.Private.Leads.{said, out_of_grammar};
ghost use Rattle.crush_grammar.specs.Sayings as spec;

use crate::code::{TextCode, TextFault};
use crate::declaration::{Setting, TunableName};
use crate::error::ReadError;
use crate::{Cursor, Name, Word, integer_from_text, number_from_text};
use crush_map::{Kind, all_are_name_bytes, is_reserved};

/// Returns the error of a word that is not of the grammar, or of the end of a text, on line `line`.
pub(crate) fn out_of_grammar(line: usize) -> ReadError
    ensures { result ≡ out_of_grammar line }
{
    ReadError::Fault(TextFault {
        line,
        code: TextCode::X1,
    })
}

/// Reads the next word. Returns it, and the words after it. `Err`: no word remains.
pub(crate) fn next<'a>(cursor: &Cursor<'a>) -> Result<(Word<'a>, Cursor<'a>), ReadError>
    ensures value { MatchResult result (λ r. (cursor.now.words ≡ r.0 ∷ r.1.words) × (r.1.line ≡ r.0.line)) (λ e. (cursor.now.words ≡ []) × (e ≡ out_of_grammar cursor.now.line)) }
{
    match cursor.next() {
        Some(found) => Ok(found),
        None => Err(out_of_grammar(cursor.line())),
    }
}

/// Returns whether a word has the text `text`.
pub(crate) fn is(text: &[u8], word: &Word<'_>) -> bool
    ensures { result ≡ fronts.is text.now word.now }
{
    word.text() == text
}

/// Checks that a word has the text `text`. `Err`: it has another, which is not of the grammar.
pub(crate) fn keyword(text: &[u8], word: &Word<'_>) -> Result<(), ReadError>
    ensures { MatchResult result (λ _. fronts.is text.now word.now ≡ true) (λ e. (fronts.is text.now word.now ≡ false) × (e ≡ out_of_grammar word.now.line)) }
{
    if is(text, word) {
        Ok(())
    } else {
        Err(out_of_grammar(word.line()))
    }
}

/// Reads the number that a word writes. `Err`: it writes none.
pub(crate) fn number(word: &Word<'_>) -> Result<u64, ReadError>
    ensures { result ≡ said word.now (numbers.number_of word.now.text) }
{
    match number_from_text(word.text()) {
        Some(number) => Ok(number),
        None => Err(out_of_grammar(word.line())),
    }
}

/// Reads the integer that a word writes. `Err`: it writes none.
pub(crate) fn integer(word: &Word<'_>) -> Result<i64, ReadError>
    ensures { result ≡ said word.now (numbers.integer_of word.now.text) }
{
    match integer_from_text(word.text()) {
        Some(integer) => Ok(integer),
        None => Err(out_of_grammar(word.line())),
    }
}

/// Returns the text of bytes that names may have, all of which are ASCII.
#[tactic(auto, using(crate::proofs::Names::are_utf8))]
fn as_text(bytes: &[u8]) -> &str
    requires { list_all is_name_byte bytes.now ≡ true }
    ensures { result.now ≡ bytes.now }
{
    match str::from_utf8(bytes) {
        Ok(text) => text,
        Err(_) => unreachable!(),
    }
}

/// Reads the name that a word is. `None`: it is no name.
#[tactic(auto, unfolding(crate::specs::Sayings::name_of))]
pub(crate) fn name_of<'a>(word: &Word<'a>) -> Option<Name<'a>>
    ensures { result ≡ spec.name_of word.now.text }
{
    let text = word.text();
    if !text.is_empty() && all_are_name_bytes(text) {
        Some(Name::new(as_text(text)))
    } else {
        None
    }
}

/// Reads the name that a word is. `Err`: it is no name.
pub(crate) fn name<'a>(word: &Word<'a>) -> Result<Name<'a>, ReadError>
    ensures { result ≡ said word.now (spec.name_of word.now.text) }
{
    match name_of(word) {
        Some(name) => Ok(name),
        None => Err(out_of_grammar(word.line())),
    }
}

/// Reads the type of a bucket that a word names. `None`: it names none.
#[tactic(auto, unfolding(crate::specs::Sayings::type_of))]
pub(crate) fn type_of<'a>(word: &Word<'a>) -> Option<Name<'a>>
    ensures { result ≡ spec.type_of word.now.text }
{
    if is_reserved(word.text()) {
        None
    } else {
        name_of(word)
    }
}

/// Reads the tunable that a word names. `None`: it names none.
#[tactic(auto, unfolding(crate::specs::Sayings::tunable_of))]
fn tunable_of(word: &Word<'_>) -> Option<TunableName>
    ensures { result ≡ spec.tunable_of word.now.text }
{
    if is(b"choose_local_tries", word) {
        Some(TunableName::LocalTries)
    } else if is(b"choose_local_fallback_tries", word) {
        Some(TunableName::LocalFallbackTries)
    } else if is(b"choose_total_tries", word) {
        Some(TunableName::TotalTries)
    } else if is(b"chooseleaf_descend_once", word) {
        Some(TunableName::DescendOnce)
    } else if is(b"chooseleaf_vary_r", word) {
        Some(TunableName::VaryR)
    } else if is(b"chooseleaf_stable", word) {
        Some(TunableName::Stable)
    } else if is(b"straw_calc_version", word) {
        Some(TunableName::StrawCalcVersion)
    } else if is(b"allowed_bucket_algs", word) {
        Some(TunableName::AllowedBucketAlgs)
    } else {
        None
    }
}

/// Reads the tunable that a word names. `Err`: it names none.
pub(crate) fn tunable(word: &Word<'_>) -> Result<TunableName, ReadError>
    ensures { result ≡ said word.now (spec.tunable_of word.now.text) }
{
    match tunable_of(word) {
        Some(name) => Ok(name),
        None => Err(out_of_grammar(word.line())),
    }
}

/// Reads the algorithm that a word names, which is straw2 in a text that asks for it alone.
/// `None`: it names none.
#[tactic(auto, unfolding(crate::specs::Sayings::alg_of))]
pub(crate) fn alg_of(word: &Word<'_>) -> Option<Kind>
    ensures { result ≡ spec.alg_of word.now }
{
    if word.asks_for_straw2() && is(Kind::Straw2.name().as_bytes(), word) {
        return Some(Kind::Straw2);
    }
    Kind::named(word.text())
}

/// Reads the type of a rule: whether it is for erasure coded pools. `Err`: the word names no type.
#[tactic(auto, unfolding(crate::specs::Sayings::erasure_of))]
pub(crate) fn erasure(word: &Word<'_>) -> Result<bool, ReadError>
    ensures { result ≡ said word.now (spec.erasure_of word.now.text) }
{
    if is(b"replicated", word) {
        Ok(false)
    } else if is(b"erasure", word) {
        Ok(true)
    } else {
        Err(out_of_grammar(word.line()))
    }
}

/// Reads how a step chooses: whether by firstn, else by indep. `Err`: the word is neither.
#[tactic(auto, unfolding(crate::specs::Sayings::firstn_of))]
pub(crate) fn firstn(word: &Word<'_>) -> Result<bool, ReadError>
    ensures { result ≡ said word.now (spec.firstn_of word.now.text) }
{
    if is(b"firstn", word) {
        Ok(true)
    } else if is(b"indep", word) {
        Ok(false)
    } else {
        Err(out_of_grammar(word.line()))
    }
}

/// Reads what a set step sets. `Err`: the word names no setting.
#[tactic(auto, unfolding(crate::specs::Sayings::setting_of))]
pub(crate) fn setting(word: &Word<'_>) -> Result<Setting, ReadError>
    ensures { result ≡ said word.now (spec.setting_of word.now.text) }
{
    if is(b"set_choose_tries", word) {
        Ok(Setting::ChooseTries)
    } else if is(b"set_chooseleaf_tries", word) {
        Ok(Setting::LeafTries)
    } else if is(b"set_chooseleaf_vary_r", word) {
        Ok(Setting::VaryR)
    } else if is(b"set_chooseleaf_stable", word) {
        Ok(Setting::Stable)
    } else if is(b"set_choose_local_tries", word) {
        Ok(Setting::LocalTries)
    } else if is(b"set_choose_local_fallback_tries", word) {
        Ok(Setting::LocalFallbackTries)
    } else {
        Err(out_of_grammar(word.line()))
    }
}

/// Checks that a word names the one hash that there is. `Err`: it doesn't, so it is not of the
/// grammar.
#[tactic(auto, unfolding(crate::specs::Sayings::hash_of))]
pub(crate) fn hash(word: &Word<'_>) -> Result<(), ReadError>
    ensures { MatchResult result (λ _. spec.hash_of word.now.text ≡ Some 0) (λ e. (spec.hash_of word.now.text ≡ None) × (e ≡ out_of_grammar word.now.line)) }
{
    if is(b"0", word) || is(b"rjenkins1", word) {
        Ok(())
    } else {
        Err(out_of_grammar(word.line()))
    }
}

/// Checks that a word may be before the id of a rule. `Err`: it may not, so it is not of the
/// grammar.
#[tactic(auto, unfolding(crate::specs::Sayings::rule_id_of))]
pub(crate) fn rule_id(word: &Word<'_>) -> Result<(), ReadError>
    ensures { MatchResult result (λ _. spec.rule_id_of word.now.text ≡ Some 0) (λ e. (spec.rule_id_of word.now.text ≡ None) × (e ≡ out_of_grammar word.now.line)) }
{
    if is(b"id", word) || is(b"ruleset", word) {
        Ok(())
    } else {
        Err(out_of_grammar(word.line()))
    }
}

/// Returns whether a word is of the bytes of names, or is a brace.
pub(crate) fn is_token(word: &Word<'_>) -> bool
    ensures { result ≡ fronts.is_token word.now }
{
    name_of(word).is_some() || is(b"{", word) || is(b"}", word)
}
