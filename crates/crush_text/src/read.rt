//! Reading a text as a map.

ghost use Rattle.std.specs.Prelude.{IfOk, IfErr, MatchOption};
ghost use Rattle.crush_grammar.specs.Words.{words};
ghost use Rattle.crush_grammar.specs.Fronts.{Breaks};
ghost use Rattle.crush_grammar.specs.Syntax.{Declares};
ghost use Rattle.crush_text.specs.MapText.{IsTextOf, HasFirstFault, IsShort, IsRefusedFor};
ghost use Rattle.crush_text.specs.Private.Clean.{IsClean};

use crate::judge::{Judge, at_line, judge_all};
use crate::limits::TEXT_LIMIT;
use crush_grammar::{Declarations, TextCode, TextFault, last_line, read_declarations};
use crush_map::CrushMap;
use std::alloc::{AllocError, Global};

/// Returns the map of a text whose declarations have no fault, or else the fault at its end.
fn map_of(text: &[u8], judge: Judge) -> Result<CrushMap, TextFault>
    requires { IsClean (words text.now) judge }
    ensures map { IfOk result (λ m. IsTextOf text.now m) }
    ensures refused { IfErr result (λ f. HasFirstFault text.now f) }
{
    let (known, draft) = judge.into_parts();
    match known.end_fault(
        draft.tunables,
        draft.local_tries,
        draft.local_fallback_tries,
    ) {
        Some(code) => Err(at_line(last_line(text), code)),
        None => Ok(CrushMap::of(draft)),
    }
}

/// Makes the map of a text with the declarations `read`, or else finds its first fault.
fn map_of_declarations(
    alloc: Global,
    text: &[u8],
    read: &Declarations<'_>,
) -> Result<Result<CrushMap, TextFault>, AllocError>
    requires { MatchOption read.now.fault (Declares (words text.now) read.now.declarations) (λ f. Breaks (words text.now) read.now.declarations f) }
    ensures map { IfOk result (λ answer. IfOk answer (λ m. IsTextOf text.now m)) }
    ensures refused { IfOk result (λ answer. IfErr answer (λ f. HasFirstFault text.now f)) }
{
    let judged = judge_all(alloc, read.declarations.as_slice())?;
    match judged {
        Err(fault) => Ok(Err(fault)),
        Ok(judge) => match read.fault {
            Some(fault) => Ok(Err(fault)),
            None => Ok(map_of(text, judge)),
        },
    }
}

/// Reads the map of a stored text, whatever its length, or else finds its first fault, by line and
/// code.
///
/// Declarations are checked in the order of the text, each against those before it; a word that is
/// not of the grammar is a fault after those of the declarations before it.
///
/// `Err(AllocError)`: an allocation failed; nothing is changed.
pub fn read_stored(alloc: Global, text: &[u8]) -> Result<Result<CrushMap, TextFault>, AllocError>
    ensures map { IfOk result (λ answer. IfOk answer (λ m. IsTextOf text.now m)) }
    ensures refused { IfOk result (λ answer. IfErr answer (λ f. HasFirstFault text.now f)) }
{
    let read = read_declarations(alloc, text)?;
    map_of_declarations(alloc, text, &read)
}

/// Reads the map of a text that may be imported, or else finds its first fault, by line and code.
///
/// A text of more than `TEXT_LIMIT` bytes is refused (X7 on line 1) before it is read.
///
/// `Err(AllocError)`: an allocation failed; nothing is changed.
pub fn read_map(alloc: Global, text: &[u8]) -> Result<Result<CrushMap, TextFault>, AllocError>
    ensures map { IfOk result (λ answer. IfOk answer (λ m. IsShort text.now × IsTextOf text.now m)) }
    ensures refused { IfOk result (λ answer. IfErr answer (λ f. IsRefusedFor text.now f)) }
{
    if text.len() > TEXT_LIMIT {
        return Ok(Err(TextFault {
            line: 1,
            code: TextCode::X7,
        }));
    }
    read_stored(alloc, text)
}
