//! Scripts: the service serves each line of an input, and its reply is written.

ghost use Rattle.std.specs.Prelude.{◌≡◌, ◌<◌, ◌∷◌, [], Ok, true, false, length, IsTrue, option_map};
ghost use Rattle.std.specs.Bool.{IsFalse};
ghost use Rattle.tenant_core.specs.tenant_messages.specs.CallParts.{call_of};
ghost use Rattle.crush_app.specs.End.{EndsScript, LatchesAs};
ghost use Rattle.crush_app.specs.Play.{Plays, PlaysScript, PlaysUpTo, WritesSession};
ghost use Rattle.crush_app.specs.Private.Ending.{IsServed};
ghost use Rattle.crush_app.specs.Private.Latching.{PlaysLatching};
ghost use Rattle.crush_app.specs.Script.{bad_line, messages, messages_in};

use crate::input::{InputFault, read_input};
use crate::limits::SCRIPT_LIMIT;
use crate::script::{call_of_line, first_line};
use crate::wire::write_line;
use std::alloc::{AllocError, Global};
use std::io::{Read, Write};
use tenant_core::{CallParts, Problem, Reply, TenantStore, refused};
use tenant_service::Service;

/// How a script ended.
#[derive(Clone, Copy, Debug, PartialEq, Eq)]
pub enum ScriptEnd {
    /// Every line was served, and its reply written.
    Done,
    /// The input is over `SCRIPT_LIMIT` bytes. No line was served.
    TooLong,
    /// The input couldn't be read. No line was served.
    ReadFault,
    /// A reply couldn't be written. No later line was served.
    WriteFault,
    /// The store failed for good. The reply 503 of the call that met the failure was written, and
    /// no later line was served.
    Latched,
}

/// Serves the call of a line and writes its reply, or, for a line that is no call, the reply `bad`.
/// Returns whether the line was written whole.
fn play_message<T: TenantStore, W: Write>(
    service: &mut Service<T>,
    bad: &Reply,
    message: Option<CallParts<'_>>,
    writer: &mut W,
) -> bool
    requires bad { bad.now ≡ bad_line }
    requires works { T.latched service.old ≡ false }
    ensures whole { T.is_honest service.new → IsTrue result → Plays (T.latched service.new) (T.has_state service.old) (T.has_state service.new) (option_map call_of message.entry ∷ []) (W.contents writer.old) (W.contents writer.new) }
    ensures cut { T.is_honest service.new → IsFalse result → PlaysUpTo (T.latched service.new) (T.has_state service.old) (T.has_state service.new) (option_map call_of message.entry ∷ []) (W.contents writer.old) (W.contents writer.new) }
    ensures latch { T.is_honest service.new → T.latched service.new ≡ true → IsTrue result → PlaysLatching (T.has_state service.old) (T.may_leave service.new) (option_map call_of message.entry ∷ []) (W.contents writer.old) (W.contents writer.new) }
    ensures stop { T.is_honest service.new → WritesSession (T.has_state service.old) (T.may_leave service.new) (option_map call_of message.entry ∷ []) (W.contents writer.old) (W.contents writer.new) }
    ensures honest { T.is_honest service.new → T.is_honest service.old }
{
    match message {
        Some(call) => {
            let reply = service.request(call);
            write_line(writer, &reply)
        }
        None => write_line(writer, bad),
    }
}

/// Serves a line, as `play_message` does; an empty line has no reply. Returns whether its reply was
/// written whole.
fn play_line<T: TenantStore, W: Write>(
    service: &mut Service<T>,
    bad: &Reply,
    line: &[u8],
    writer: &mut W,
) -> bool
    requires bad { bad.now ≡ bad_line }
    requires works { T.latched service.old ≡ false }
    ensures whole { T.is_honest service.new → IsTrue result → Plays (T.latched service.new) (T.has_state service.old) (T.has_state service.new) (messages_in (line.now ∷ [])) (W.contents writer.old) (W.contents writer.new) }
    ensures cut { T.is_honest service.new → IsFalse result → PlaysUpTo (T.latched service.new) (T.has_state service.old) (T.has_state service.new) (messages_in (line.now ∷ [])) (W.contents writer.old) (W.contents writer.new) }
    ensures latch { T.is_honest service.new → T.latched service.new ≡ true → IsTrue result → PlaysLatching (T.has_state service.old) (T.may_leave service.new) (messages_in (line.now ∷ [])) (W.contents writer.old) (W.contents writer.new) }
    ensures stop { T.is_honest service.new → WritesSession (T.has_state service.old) (T.may_leave service.new) (messages_in (line.now ∷ [])) (W.contents writer.old) (W.contents writer.new) }
    ensures honest { T.is_honest service.new → T.is_honest service.old }
{
    if line.is_empty() {
        true
    } else {
        play_message(service, bad, call_of_line(line), writer)
    }
}

/// Serves the lines of an input in order, and ends at the first reply that can't be written whole,
/// or that latched the store. Returns how that ended: `Done`, `WriteFault` or `Latched`.
fn play<T: TenantStore, W: Write>(
    service: &mut Service<T>,
    bad: &Reply,
    input: &[u8],
    writer: &mut W,
) -> ScriptEnd
    requires bad { bad.now ≡ bad_line }
    requires works { T.latched service.old ≡ false }
    ensures plays { T.is_honest service.new → PlaysScript result (T.latched service.new) (T.has_state service.old) (T.has_state service.new) (T.may_leave service.new) (messages input.now) (W.contents writer.old) (W.contents writer.new) }
    ensures served { IsServed result }
    ensures latch { LatchesAs (Ok result) (T.latched service.new) }
    ensures honest { T.is_honest service.new → T.is_honest service.old }
{
    let mut rest = input;
    while !rest.is_empty() {
        let (line, after) = first_line(rest);
        if !play_line(service, bad, line, writer) {
            return ScriptEnd::WriteFault;
        }
        if service.is_latched() {
            return ScriptEnd::Latched;
        }
        rest = after;
    }
    ScriptEnd::Done
}

/// Reads a whole script of at most `SCRIPT_LIMIT` bytes, serves its lines in order, writes a line
/// for each reply, and returns how that ended. An empty line has no reply.
///
/// The clauses speak of an input, which is what the reader had where contracts know its bytes.
/// `Err(AllocError)`: an allocation for the script itself failed; no line was served, nothing was
/// written, and the script may have been read in part.
pub fn script_run<T: TenantStore, R: Read, W: Write>(
    alloc: Global,
    service: &mut Service<T>,
    reader: &mut R,
    writer: &mut W,
) -> Result<ScriptEnd, AllocError>
    requires { T.latched service.old ≡ false }

    // Lines were served as the definition says, from the states before to those after, and what was
    // written has the headline and is, with what a crash may leave, one sound session. Or the store
    // wasn't asked, and nothing was written.
    ensures ends { EndsScript (service.new ≡ service.old)
        (λ end ms. T.is_honest service.new → PlaysScript end (T.latched service.new) (T.has_state service.old) (T.has_state service.new) (T.may_leave service.new) ms (W.contents writer.old) (W.contents writer.new))
        result (R.remaining reader.old) (R.remaining reader.new) (W.contents writer.old) (W.contents writer.new) }
    ensures latch { LatchesAs result (T.latched service.new) }
    ensures honest { T.is_honest service.new → T.is_honest service.old }
{
    let input = match read_input(alloc, reader, SCRIPT_LIMIT) {
        Ok(input) => input,
        Err(InputFault::NoMemory) => return Err(AllocError),
        Err(InputFault::Read) => return Ok(ScriptEnd::ReadFault),
        Err(InputFault::TooLong) => return Ok(ScriptEnd::TooLong),
    };
    let bad = refused(alloc, Problem::BadRequest)?;
    Ok(play(service, &bad, input.as_slice(), writer))
}
