//! Reading a whole input.

ghost use Rattle.std.specs.Prelude.{◌≡◌, ◌≢◌, ◌≤◌, ◌<◌, ◌+◌, length, IfOk};
ghost use Rattle.std.specs.Io.{ReadsAtMost};
ghost use Rattle.std.specs.Io.KnownBytes.{ReadConsumes};
ghost use Rattle.tenant_service.specs.Input.{OfInput, DropsFirst};
ghost use Rattle.crush_app.specs.Private.Reading.{IsReadUpTo};

use std::alloc::Global;
use std::io::{self, ErrorKind, Read};

/// The greatest number of bytes that one read asks for.
const CHUNK: usize = 8_192;

/// Why an input wasn't read whole.
#[derive(Clone, Copy, Debug, PartialEq, Eq)]
pub(crate) enum InputFault {
    /// An allocation failed.
    NoMemory,
    /// A read failed.
    Read,
    /// The input is longer than its limit.
    TooLong,
}

/// Reads once and returns the number of bytes read, 0 at the end of the input. A read that a signal
/// interrupts is made again. Allocates nothing.
fn read_once<R: Read>(reader: &mut R, buffer: &mut [u8]) -> io::Result<usize>
    ensures bound { ReadsAtMost result buffer.new }
    ensures bytes { ReadConsumes (R.remaining reader.old) (R.remaining reader.new) result buffer.new }
{
    for _ in 0..u64::MAX {
        match reader.read(buffer) {
            Err(error) if error.kind() == ErrorKind::Interrupted => {}
            result => return result,
        }
    }
    Err(ErrorKind::Interrupted.into())
}

/// Reads an input to its end, or its first `most` bytes, and returns what was read. `Err`: a read
/// or an allocation failed; the input was read in part.
fn read_up_to<R: Read>(alloc: Global, reader: &mut R, most: usize) -> io::Result<Vec<u8>>
    ensures { IfOk result (λ v. IsReadUpTo most v.items (R.remaining reader.old) (R.remaining reader.new)) }
{
    let mut input = Vec::new(alloc);
    let mut chunk = [0; CHUNK];
    while input.len() < most {
        let room = CHUNK.min(most - input.len());
        let count = read_once(reader, &mut chunk[..room])?;
        if count == 0 {
            return Ok(input);
        }
        input.extend_from_slice(&chunk[..count])?;
    }
    Ok(input)
}

/// Reads and returns a whole input of at most `limit` bytes. Of a longer input (`Err(TooLong)`) it
/// reads `limit` bytes and one more. After the other two errors the input was read in part.
#[tactic(auto, using(crate::proofs::Inputs::whole_input, crate::proofs::Inputs::long_input))]
pub(crate) fn read_input<R: Read>(
    alloc: Global,
    reader: &mut R,
    limit: u32,
) -> Result<Vec<u8>, InputFault>
    ensures ok { IfOk result (λ v. OfInput (R.remaining reader.old) (λ input. (v.items ≡ input) × (length input ≤ limit))) }
    ensures long { result ≡ Err InputFault.TooLong → OfInput (R.remaining reader.old) (λ input. limit < length input) }
    ensures rest { result ≢ Err InputFault.NoMemory → result ≢ Err InputFault.Read → DropsFirst (limit + 1) (R.remaining reader.old) (R.remaining reader.new) }
{
    let input = match read_up_to(alloc, reader, limit as usize + 1) {
        Ok(input) => input,
        Err(error) if error.kind() == ErrorKind::OutOfMemory => return Err(InputFault::NoMemory),
        Err(_) => return Err(InputFault::Read),
    };
    if input.len() > limit as usize {
        return Err(InputFault::TooLong);
    }
    Ok(input)
}
