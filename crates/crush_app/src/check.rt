//! Checks of map texts.

ghost use Rattle.std.specs.Prelude.{◌≡◌, ◌≤◌, ◌<◌, ◌+◌, ◌↔◌, ℕ, List, IfOk, IfSome, string_bytes, length};
ghost use Rattle.std.specs.Io.KnownBytes.{Keeps as KeepsBytes, Appends};
ghost use Rattle.crush_map.specs.Map.{Map};
ghost use Rattle.crush_text.specs.MapText.{IsShort, IsTextOf, IsRefusedFor};
ghost use Rattle.crush_text.specs.crush_grammar.specs.declared.code.TextCode.TheVariants.{X7};
ghost use Rattle.crush_text.specs.crush_grammar.specs.declared.code.TextFault as spec_fault;
ghost use Rattle.crush_text.specs.declared.limits.TheConstants.{TEXT_LIMIT};
ghost use Rattle.tenant_service.specs.Input.{OfInput, DropsFirst};
ghost use Rattle.tenant_service.specs.Writing.{AppendsPart};
ghost use Rattle.crush_app.specs.Check.{accepted_line as line_of_map, refused_line as line_of_fault, IsLineFor, WritesLine, WritesNothing, HasVerdict};
ghost use Rattle.crush_app.specs.Private.Verdict.{IsVerdict};

use crate::input::{InputFault, read_input};
use crush_map::CrushMap;
use crush_text::limits::TEXT_LIMIT;
use crush_text::{
    TextCode, TextFault, code_text, read_map, texts_have_a_map_or_one_fault,
    texts_of_maps_have_no_fault, texts_say_one_map,
};
use std::alloc::{AllocError, Global};
use std::io::{Read, Write};
use tenant_service::write_whole;

/// How a check ended.
#[derive(Clone, Copy, Debug, PartialEq, Eq)]
pub enum CheckEnd {
    /// The text is a map's, and its line was written.
    Accepted,
    /// The text is refused, and the line of its first fault was written.
    Refused,
    /// The text couldn't be read. Nothing was written.
    ReadFault,
    /// The line couldn't be written whole.
    WriteFault,
}

/// What a check says of a text: the line to write, and whether the text is a map's.
#[derive(Drop)]
struct Verdict {
    line: String,
    accepted: bool,
}

/// Makes the line of `map`: its numbers of devices, buckets and rules. `Err(AllocError)`: an
/// allocation failed; nothing is changed.
fn accepted_line(alloc: Global, map: &CrushMap) -> Result<String, AllocError>
    ensures { IfOk result (λ line. string_bytes line ≡ line_of_map map.now) }
{
    let devices = map.devices().len();
    let buckets = map.buckets().len();
    let rules = map.rules().len();
    format!(in alloc; "ok devices {devices} buckets {buckets} rules {rules}\n")
}

/// Makes the line of `fault`: the number of its line in the text, and its code. `Err(AllocError)`:
/// an allocation failed; nothing is changed.
fn refused_line(alloc: Global, fault: TextFault) -> Result<String, AllocError>
    ensures { IfOk result (λ line. string_bytes line ≡ line_of_fault fault) }
{
    let code = code_text(fault.code);
    let line = fault.line;
    format!(in alloc; "refused line {line} code {code}\n")
}

/// Checks `text`, and returns the verdict on it. `Err(AllocError)`: an allocation failed; nothing
/// is changed.
fn verdict_on(alloc: Global, text: &[u8]) -> Result<Verdict, AllocError>
    ensures { IfOk result (λ v. IsVerdict v.accepted text.now (string_bytes v.line)) }
{
    match read_map(alloc, text)? {
        Ok(map) => Ok(Verdict {
            line: accepted_line(alloc, &map)?,
            accepted: true,
        }),
        Err(fault) => Ok(Verdict {
            line: refused_line(alloc, fault)?,
            accepted: false,
        }),
    }
}

/// Returns the verdict on a text that is longer than the limit. `Err(AllocError)`: an allocation
/// failed; nothing is changed.
#[tactic(auto, using(crate::proofs::Checking::long_line))]
fn too_long(alloc: Global) -> Result<Verdict, AllocError>
    ensures { IfOk result (λ v. (text : List ℕ) → TEXT_LIMIT < length text → IsVerdict v.accepted text (string_bytes v.line)) }
{
    let fault = TextFault {
        line: 1,
        code: TextCode::X7,
    };
    let line = refused_line(alloc, fault)?;
    Ok(Verdict {
        line,
        accepted: false,
    })
}

/// Reads a text and returns the verdict on it, or `None` if it can't be read. `Err(AllocError)`: an
/// allocation failed; the text may have been read in part.
fn read_verdict<R: Read>(alloc: Global, reader: &mut R) -> Result<Option<Verdict>, AllocError>
    ensures verdict { IfOk result (λ found. IfSome found (λ v. OfInput (R.remaining reader.old) (λ input. IsVerdict v.accepted input (string_bytes v.line)))) }
    ensures rest { IfOk result (λ found. IfSome found (λ _. DropsFirst (TEXT_LIMIT + 1) (R.remaining reader.old) (R.remaining reader.new))) }
{
    match read_input(alloc, reader, TEXT_LIMIT as u32) {
        Ok(text) => Ok(Some(verdict_on(alloc, text.as_slice())?)),
        Err(InputFault::TooLong) => Ok(Some(too_long(alloc)?)),
        Err(InputFault::NoMemory) => Err(AllocError),
        Err(InputFault::Read) => Ok(None),
    }
}

/// Reads a whole text, writes one line and returns how that ended. The line is
/// `ok devices D buckets B rules R` if the text is a map's, else `refused line L code C` with its
/// first fault. Of a text over `TEXT_LIMIT` bytes (X7) it reads `TEXT_LIMIT` bytes and one more.
///
/// The clauses speak of an input, which is what the reader had where contracts know its bytes.
/// `Err(AllocError)`: an allocation failed; nothing was written, and the text may have been read in
/// part.
#[tactic(auto, using(crate::proofs::Checking::accepted_end, crate::proofs::Checking::refused_end, crate::proofs::Checking::cut_end))]
pub fn check_run<R: Read, W: Write>(
    alloc: Global,
    reader: &mut R,
    writer: &mut W,
) -> Result<CheckEnd, AllocError>
    // `Accepted`: the input is a text of a map that may be imported, and the line of that map was
    // written.
    ensures accepted { result ≡ Ok CheckEnd.Accepted → OfInput (R.remaining reader.old)
        (λ input. (m : Map) × IsShort input × IsTextOf input m × Appends (W.contents writer.old) (W.contents writer.new) (line_of_map m)) }

    // `Refused`: the input is refused for a fault, which is X7 exactly if the input is over
    // `TEXT_LIMIT` bytes, and the line of that fault was written.
    ensures refused { result ≡ Ok CheckEnd.Refused → OfInput (R.remaining reader.old)
        (λ input. (f : spec_fault.TextFault) × IsRefusedFor input f × ((f.code ≡ X7) ↔ (TEXT_LIMIT < length input)) × Appends (W.contents writer.old) (W.contents writer.new) (line_of_fault f)) }

    // Conversely, where a line was written: if the input is a text of a map it is the line of that
    // map, and if it is refused for a fault, of that fault.
    ensures of_map { WritesLine result → OfInput (R.remaining reader.old)
        (λ input. (m : Map) → IsShort input → IsTextOf input m → (result ≡ Ok CheckEnd.Accepted) × Appends (W.contents writer.old) (W.contents writer.new) (line_of_map m)) }
    ensures of_fault { WritesLine result → OfInput (R.remaining reader.old)
        (λ input. (f : spec_fault.TextFault) → IsRefusedFor input f → (result ≡ Ok CheckEnd.Refused) × Appends (W.contents writer.old) (W.contents writer.new) (line_of_fault f)) }

    // `WriteFault`: the line for the input was written in part.
    ensures cut { result ≡ Ok CheckEnd.WriteFault → OfInput (R.remaining reader.old)
        (λ input. (line : List ℕ) × IsLineFor input line × AppendsPart (W.contents writer.old) (W.contents writer.new) line) }

    // In each of these cases, of what the reader had, a text of the greatest length and one byte
    // more were read, and the rest stays unread.
    ensures rest { HasVerdict result → DropsFirst (TEXT_LIMIT + 1) (R.remaining reader.old) (R.remaining reader.new) }

    // Otherwise nothing was written.
    ensures unwritten { WritesNothing result → KeepsBytes (W.contents writer.old) (W.contents writer.new) }
{
    texts_say_one_map();
    texts_of_maps_have_no_fault();
    texts_have_a_map_or_one_fault();
    let Some(verdict) = read_verdict(alloc, reader)? else {
        return Ok(CheckEnd::ReadFault);
    };
    if !write_whole(writer, verdict.line.as_bytes()) {
        return Ok(CheckEnd::WriteFault);
    }
    if verdict.accepted {
        Ok(CheckEnd::Accepted)
    } else {
        Ok(CheckEnd::Refused)
    }
}
