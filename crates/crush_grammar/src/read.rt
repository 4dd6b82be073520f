//! Reading the declarations of a text.

ghost use Rattle.std.specs.Prelude.{◌≡◌, ◌≤◌, Some, Err, true, false, codes, length, IfOk, MatchOption};
ghost use Rattle.crush_grammar.specs.Words.{words};
ghost use Rattle.crush_grammar.specs.Fronts as fronts;
ghost use Rattle.crush_grammar.specs.Fronts.{Breaks};
ghost use Rattle.crush_grammar.specs.Syntax.{Declares};
ghost use Rattle.crush_grammar.specs.Automaton.{State, Reading, begun, begun_late, give, text as read_text};
ghost use Rattle.crush_grammar.specs.Private.Leads.{ahead, Leads, behind, is_early, no_more};

use crate::bucket::declared_bucket;
use crate::code::{TextCode, TextFault};
use crate::declaration::Declaration;
use crate::early::{declared_device, declared_tunable, declared_type};
use crate::error::ReadError;
use crate::rule::declared_rule;
use crate::say::{is, out_of_grammar, type_of};
use crate::{Cursor, Word};
use crush_map::Sequence;
use std::alloc::{AllocError, Global};

/// What a text declares up to its first fault of form, and that fault.
#[derive(Drop)]
pub struct Declarations<'a> {
    pub declarations: Sequence<Declaration<'a>>,
    pub fault: Option<TextFault>,
}

/// Reads a tunable, a device or a type, whose first word is `word`.
#[tactic(auto, using(crate::proofs::States::dead), unfolding(crate::specs::Automaton::step))]
fn early_declaration<'a>(
    word: &Word<'a>,
    cursor: &Cursor<'a>,
) -> Result<(Declaration<'a>, Cursor<'a>), ReadError>
    requires { fronts.is (codes "tunable") word.now ≡ false → fronts.is (codes "device") word.now ≡ false → fronts.is (codes "type") word.now ≡ true }
    ensures value { Leads (ahead (begun true word.now) cursor.now) result (λ x. give (Some x.0) (ahead (State.Between (is_early x.0)) x.1)) }
    ensures less { IfOk result (λ x. length x.1.words ≤ length cursor.now.words) }
{
    if is(b"tunable", word) {
        let (tunable, rest) = declared_tunable(word.line(), cursor)?;
        return Ok((Declaration::Tunable(tunable), rest));
    }
    if is(b"device", word) {
        let (device, rest) = declared_device(word.line(), cursor)?;
        return Ok((Declaration::Device(device), rest));
    }
    let (declared, rest) = declared_type(word.line(), cursor)?;
    Ok((Declaration::TypeName(declared), rest))
}

/// Reads a bucket or a rule, whose first word is `word`.
#[tactic(auto, using(crate::proofs::States::dead), unfolding(crate::specs::Automaton::step))]
fn late_declaration<'a>(
    alloc: Global,
    word: &Word<'a>,
    cursor: &Cursor<'a>,
) -> Result<(Declaration<'a>, Cursor<'a>), ReadError>
    ensures value { Leads (ahead (begun_late word.now) cursor.now) result (λ x. give (Some x.0) (ahead (State.Between (is_early x.0)) x.1)) }
    ensures less { IfOk result (λ x. length x.1.words ≤ length cursor.now.words) }
{
    if is(b"rule", word) {
        let (rule, rest) = declared_rule(alloc, word.line(), cursor)?;
        return Ok((Declaration::Rule(rule), rest));
    }
    let Some(type_name) = type_of(word) else {
        if is(b"choose_args", word) {
            return Err(ReadError::Fault(TextFault {
                line: word.line(),
                code: TextCode::X4,
            }));
        }
        return Err(out_of_grammar(word.line()));
    };
    let (bucket, rest) = declared_bucket(alloc, word.line(), type_name, cursor)?;
    Ok((Declaration::Bucket(bucket), rest))
}

/// Reads a declaration, whose first word is `word`.
#[tactic(auto, using(crate::proofs::States::dead), unfolding(crate::specs::Automaton::step))]
fn declaration<'a>(
    alloc: Global,
    early: bool,
    word: &Word<'a>,
    cursor: &Cursor<'a>,
) -> Result<(Declaration<'a>, Cursor<'a>), ReadError>
    ensures value { Leads (ahead (begun early word.now) cursor.now) result (λ x. give (Some x.0) (ahead (State.Between (is_early x.0)) x.1)) }
    ensures less { IfOk result (λ x. length x.1.words ≤ length cursor.now.words) }
{
    if is(b"tunable", word) || is(b"device", word) || is(b"type", word) {
        if early {
            early_declaration(word, cursor)
        } else {
            Err(out_of_grammar(word.line()))
        }
    } else {
        late_declaration(alloc, word, cursor)
    }
}

/// Returns whether a declaration is one of those that come before all buckets and rules.
fn is_early(declaration: &Declaration<'_>) -> bool
    ensures { result ≡ is_early declaration.now }
{
    !matches!(declaration, Declaration::Bucket(_) | Declaration::Rule(_))
}

/// Returns what was declared before an error, with its fault.
///
/// `Err(AllocError)`: the error is that an allocation failed.
#[tactic(auto, using(crate::proofs::States::read_failed))]
fn stopped<'a>(
    found: Vec<Declaration<'a>>,
    error: ReadError,
) -> Result<Declarations<'a>, AllocError>
    ensures { IfOk result (λ r. (t q : Reading) → Leads q (Err error) no_more → behind found.entry.items q ≡ t → record { decls = r.declarations; fault = r.fault } ≡ t) }
{
    match error {
        ReadError::Memory => Err(AllocError),
        ReadError::Fault(fault) => Ok(Declarations {
            declarations: Sequence::new(found),
            fault: Some(fault),
        }),
    }
}

/// Reads what a text declares, and finds its first fault of form, as the automaton does.
///
/// `Err(AllocError)`: an allocation failed; nothing is changed.
fn read_words<'a>(alloc: Global, text: &'a [u8]) -> Result<Declarations<'a>, AllocError>
    ensures { IfOk result (λ r. record { decls = r.declarations; fault = r.fault } ≡ read_text (words text.now)) }
{
    let mut found = Vec::new(alloc);
    let mut early = true;
    let mut cursor = Cursor::new(text);
    while let Some((word, rest)) = cursor.next() {
        match declaration(alloc, early, &word, &rest) {
            Ok((declared, after)) => {
                early = is_early(&declared);
                found.push(declared)?;
                cursor = after;
            }
            Err(error) => return stopped(found, error),
        }
    }
    Ok(Declarations {
        declarations: Sequence::new(found),
        fault: None,
    })
}

/// Reads what a text declares, up to its first fault of form, whatever its length.
///
/// If there is no fault, its words are of the grammar. What is declared isn't checked.
///
/// `Err(AllocError)`: an allocation failed; nothing is changed.
pub fn read_declarations<'a>(alloc: Global, text: &'a [u8]) -> Result<Declarations<'a>, AllocError>
    ensures { IfOk result (λ r. MatchOption r.fault (Declares (words text.now) r.declarations) (λ f. Breaks (words text.now) r.declarations f)) }
{
    read_words(alloc, text)
}
