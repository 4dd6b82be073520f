//! Reading a body.

ghost use Rattle.std.specs.Prelude.{◌≡◌, ℕ, ◌+◌, ◌-◌, ◌<◌, ◌≤◌, ◌++◌, List, length, take, drop};
ghost use Rattle.std.specs.Io.KnownBytes.{IsAtEnd, Consumes};
ghost use Rattle.crush_http.specs.Private.Reading.{ReadsOn, IsBodyOf};

use std::io::Read;

/// How the reading of a body ended.
#[derive(Clone, Copy, PartialEq, Eq)]
pub(crate) enum BodyRead {
    Whole,
    /// The input ends before the body is whole.
    Ended,
    /// A read failed before the body was whole.
    Fault,
}

/// Reads the bytes of `body` from `start` on. Those before it are there.
fn read_rest<R: Read>(reader: &mut R, body: &mut [u8], start: usize) -> BodyRead
    requires { start ≤ length body.old }
    ensures whole { result ≡ BodyRead.Whole → Consumes (R.remaining reader.old) (R.remaining reader.new) (drop start body.new) }
    ensures front { take start body.new ≡ take start body.old }
    ensures ended { result ≡ BodyRead.Ended → IsAtEnd (R.remaining reader.new) }
    ensures few { result ≡ BodyRead.Ended → (more : List ℕ) × Consumes (R.remaining reader.old) (R.remaining reader.new) more × (start + length more < length body.old) }
    ensures fault { result ≡ BodyRead.Fault → (more : List ℕ) × Consumes (R.remaining reader.old) (R.remaining reader.new) more × (start + length more < length body.old) }
{
    let mut filled = start;
    while filled < body.len() {
        match reader.read(&mut body[filled..]) {
            Ok(0) => return BodyRead::Ended,
            Ok(count) => filled += count,
            Err(_) => return BodyRead::Fault,
        }
    }
    BodyRead::Whole
}

/// Fills `body` with `first`, bytes that were read already, and then by reads.
pub(crate) fn read_body<R: Read>(reader: &mut R, first: &[u8], body: &mut [u8]) -> BodyRead
    ensures whole { result ≡ BodyRead.Whole → ReadsOn first.now (R.remaining reader.old) (R.remaining reader.new) (IsBodyOf body.new first.now) }
    ensures ended { result ≡ BodyRead.Ended → IsAtEnd (R.remaining reader.new) }
    ensures few { result ≡ BodyRead.Ended → ReadsOn first.now (R.remaining reader.old) (R.remaining reader.new) (λ all. length all < length body.old) }
    ensures fault { result ≡ BodyRead.Fault → ReadsOn first.now (R.remaining reader.old) (R.remaining reader.new) (λ all. length all < length body.old) }
{
    let size = body.len();
    if size <= first.len() {
        body.copy_from_slice(&first[..size]);
        return BodyRead::Whole;
    }
    body[..first.len()].copy_from_slice(first);
    read_rest(reader, body, first.len())
}
