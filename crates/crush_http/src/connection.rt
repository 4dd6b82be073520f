//! A connection.

ghost use Rattle.std.specs.Prelude.{◌≡◌, ◌==◌, ◌||◌, ◌⊎◌, ◌-◌, ◌<◌, [], true, length, Option, None, IfSome, IfOk, OnErr};
ghost use Rattle.std.specs.Io.KnownBytes.{Keeps as KeepsBytes, Appends};
ghost use Rattle.tenant_service.specs.Served.{ServesSession};
ghost use Rattle.tenant_service.specs.Input.{OfInput};
ghost use Rattle.tenant_service.specs.Writing.{AppendsPart, AppendsUpTo};
ghost use Rattle.crush_http.specs.Serving.{ServesInput};
ghost use Rattle.crush_http.specs.Private.Reading.{Finds, ReadsOn};
ghost use Rattle.crush_http.specs.Private.Served.{EndsCut, EndsHeld, EndsOn, OnCut, OnEnded, OnNext, Replies, ServesAtMostOne, ServesOne};

use crate::buffers::Buffers;
use crate::held::HeldBytes;
use crate::limits::MESSAGE_LIMIT;
use crate::message::{Incoming, read_message};
use crate::request::call_of;
use crate::wire::{put_rejection, put_reply};
use std::alloc::{AllocError, Global};
use std::io::{self, Read, Write};
use tenant_core::TenantStore;
use tenant_service::Service;

/// How a connection ended.
#[derive(Clone, Copy, Debug, PartialEq, Eq)]
pub enum ConnectionEnd {
    /// The input ended, or the last message was served, and all replies were written.
    Closed,
    /// What came was no message. All replies were written, and then the one that says so.
    Bad,
    /// A read failed. All replies were written.
    ReadFault,
    /// A write failed, so that not all replies were written.
    WriteFault,
}

/// Whether a connection goes on.
enum Turn {
    Next,
    /// The connection ends so once what is held is written.
    Ended(ConnectionEnd),
    /// A write failed, and no more is written.
    Cut,
}

/// Returns whether the connection ends after a message that `closes` it or not, where at most
/// `most` messages may come, that message among them.
fn is_last(closes: bool, most: u32) -> bool
    ensures { result ≡ (closes || most == 1) }
{
    closes || most == 1
}

/// Finds the next message. A message that isn't whole in the buffer is read, and before that what
/// is held is written, since the client may wait for it. Returns `None` if that can't be written.
fn next_message<R: Read, W: Write>(
    buffers: &mut Buffers,
    reader: &mut R,
    writer: &mut W,
) -> Option<Incoming>
    ensures found { IfSome result (λ incoming. Finds incoming buffers.old.read buffers.new.read buffers.new.body.items (R.remaining reader.old) (R.remaining reader.new)) }
    ensures written { IfSome result (λ incoming. AppendsUpTo buffers.new.held (W.contents writer.old) (W.contents writer.new) buffers.old.held) }
    ensures unread { result ≡ None → reader.new ≡ reader.old }
    ensures cut { result ≡ None → AppendsPart (W.contents writer.old) (W.contents writer.new) buffers.old.held }
{
    match read_message(&mut io::empty(), &mut buffers.read, &mut buffers.body) {
        Incoming::Message(request) => return Some(Incoming::Message(request)),
        Incoming::Rejected(reason) => return Some(Incoming::Rejected(reason)),
        Incoming::Ended | Incoming::Fault => {}
    }
    if !buffers.held.flush(writer) {
        return None;
    }
    Some(read_message(reader, &mut buffers.read, &mut buffers.body))
}

/// Serves one message and holds its reply, where at most `most` messages may come.
fn serve_one<T: TenantStore, R: Read, W: Write>(
    buffers: &mut Buffers,
    service: &mut Service<T>,
    reader: &mut R,
    writer: &mut W,
    most: u32,
) -> Turn
    requires some { 0 < most }
    ensures next { OnNext result ((1 < most) × ReadsOn buffers.old.read (R.remaining reader.old) (R.remaining reader.new)
        (ServesOne (Replies (T.is_honest service.new) (T.latched service.old) (T.latched service.new) (T.has_state service.old) (T.has_state service.new) (T.may_leave service.old) (T.may_leave service.new)) most buffers.new.read
        buffers.old.held buffers.new.held (W.contents writer.old) (W.contents writer.new))) }
    ensures ended { OnEnded result (λ ended. EndsOn
        (ServesAtMostOne (service.new ≡ service.old) (Replies (T.is_honest service.new) (T.latched service.old) (T.latched service.new) (T.has_state service.old) (T.has_state service.new) (T.may_leave service.old) (T.may_leave service.new)))
        most buffers.old.read (R.remaining reader.old) (R.remaining reader.new) (EndsHeld ended buffers.old.held buffers.new.held (W.contents writer.old) (W.contents writer.new))) }
    ensures cut { OnCut result (EndsOn
        (ServesAtMostOne (service.new ≡ service.old) (Replies (T.is_honest service.new) (T.latched service.old) (T.latched service.new) (T.has_state service.old) (T.has_state service.new) (T.may_leave service.old) (T.may_leave service.new)))
        most buffers.old.read (R.remaining reader.old) (R.remaining reader.new) (EndsCut buffers.old.held (W.contents writer.old) (W.contents writer.new))) }
    ensures rests { T.latched service.old ≡ true → service.new ≡ service.old }
    ensures honest { T.is_honest service.new → T.is_honest service.old }
{
    let Some(incoming) = next_message(buffers, reader, writer) else {
        return Turn::Cut;
    };
    let request = match incoming {
        Incoming::Message(request) => request,
        Incoming::Rejected(reason) => {
            if !put_rejection(&mut buffers.held, writer, reason) {
                return Turn::Cut;
            }
            return Turn::Ended(ConnectionEnd::Bad);
        }
        Incoming::Ended => return Turn::Ended(ConnectionEnd::Closed),
        Incoming::Fault => return Turn::Ended(ConnectionEnd::ReadFault),
    };
    let bytes = buffers.read.bytes();
    let used = request.used(bytes.len());
    let last = is_last(request.closes, most);
    let reply = service.request(call_of(bytes, &request, &buffers.body[..request.size]));
    buffers.read.drop_front(used);
    if !put_reply(&mut buffers.held, writer, last, &reply) {
        return Turn::Cut;
    }
    if last {
        Turn::Ended(ConnectionEnd::Closed)
    } else {
        Turn::Next
    }
}

/// Writes what is held, and returns `ended`, or `ConnectionEnd::WriteFault` if not all of it was
/// written.
fn finish<W: Write>(held: &mut HeldBytes, writer: &mut W, ended: ConnectionEnd) -> ConnectionEnd
    ensures { ((result ≡ ended) × Appends (W.contents writer.old) (W.contents writer.new) held.old) ⊎ ((result ≡ ConnectionEnd.WriteFault) × AppendsPart (W.contents writer.old) (W.contents writer.new) held.old) }
{
    if held.flush(writer) {
        ended
    } else {
        ConnectionEnd::WriteFault
    }
}

/// Serves the messages that come, and returns how the connection ended.
fn serve_all<T: TenantStore, R: Read, W: Write>(
    buffers: &mut Buffers,
    service: &mut Service<T>,
    reader: &mut R,
    writer: &mut W,
) -> ConnectionEnd
    requires unused { buffers.old.read ≡ [] }
    requires empty { buffers.old.held ≡ [] }
    ensures served { OfInput (R.remaining reader.old)
        (λ input. ServesInput (λ calls replies. T.is_honest service.new → ServesSession (T.latched service.old) (T.latched service.new) (T.has_state service.old) (T.has_state service.new) (T.may_leave service.new) calls replies) input (R.remaining reader.new) (W.contents writer.old) (W.contents writer.new) result) }
    ensures rests { T.latched service.old ≡ true → service.new ≡ service.old }
    ensures honest { T.is_honest service.new → T.is_honest service.old }
{
    let mut most = MESSAGE_LIMIT;
    loop {
        match serve_one(buffers, service, reader, writer, most) {
            Turn::Next => most -= 1,
            Turn::Ended(ended) => return finish(&mut buffers.held, writer, ended),
            Turn::Cut => return ConnectionEnd::WriteFault,
        }
    }
}

/// Serves a connection as `serve` does, in `buffers`, whatever the last connection left in them.
/// Allocates nothing but what the calls do.
pub fn serve_with<T: TenantStore, R: Read, W: Write>(
    buffers: &mut Buffers,
    service: &mut Service<T>,
    reader: &mut R,
    writer: &mut W,
) -> ConnectionEnd
    ensures served { OfInput (R.remaining reader.old)
        (λ input. ServesInput (λ calls replies. T.is_honest service.new → ServesSession (T.latched service.old) (T.latched service.new) (T.has_state service.old) (T.has_state service.new) (T.may_leave service.new) calls replies) input (R.remaining reader.new) (W.contents writer.old) (W.contents writer.new) result) }
    ensures rests { T.latched service.old ≡ true → service.new ≡ service.old }
    ensures honest { T.is_honest service.new → T.is_honest service.old }
{
    buffers.clear();
    serve_all(buffers, service, reader, writer)
}

/// Reads the messages of a connection, serves their calls in order, writes their replies, and
/// returns how that ended. A service that is latched, or latches, goes on: it answers 503.
///
/// Replies wait to be written together: up to the next read, to the end, or to `HELD_LIMIT` bytes.
/// The clauses speak of an input, which is what the reader had where contracts know its bytes. The
/// messages of the input don't depend on how it was cut into reads (`one_reading`).
/// `Err(AllocError)`: an allocation failed; all allocations are made at the start, so nothing was
/// read, served or written.
pub fn serve<T: TenantStore, R: Read, W: Write>(
    alloc: Global,
    service: &mut Service<T>,
    reader: &mut R,
    writer: &mut W,
) -> Result<ConnectionEnd, AllocError>
    // The messages of the input were served up to a stop: the headline holds of their calls and the
    // replies, and these are a sound session, which leaves what it may leave. What was written is
    // the wire form of these replies, in order, and of the one to what is no message, and nothing
    // else; with `WriteFault` a front of it, but not all.
    ensures served { IfOk result (λ ended. OfInput (R.remaining reader.old)
        (λ input. ServesInput (λ calls replies. T.is_honest service.new → ServesSession (T.latched service.old) (T.latched service.new) (T.has_state service.old) (T.has_state service.new) (T.may_leave service.new) calls replies) input (R.remaining reader.new) (W.contents writer.old) (W.contents writer.new) ended)) }

    // A store that is latched isn't asked.
    ensures rests { T.latched service.old ≡ true → service.new ≡ service.old }

    // An allocation failed: nothing was read, served or written.
    ensures none { OnErr result (service.new ≡ service.old) }
    ensures unread { OnErr result (KeepsBytes (R.remaining reader.old) (R.remaining reader.new)) }
    ensures unwritten { OnErr result (KeepsBytes (W.contents writer.old) (W.contents writer.new)) }
    ensures honest { T.is_honest service.new → T.is_honest service.old }
{
    let mut buffers = Buffers::new(alloc)?;
    Ok(serve_with(&mut buffers, service, reader, writer))
}
