//! The lines of a script, and their calls.

ghost use Rattle.std.specs.Prelude.{◌≡◌, ◌==◌, ◌<◌, ◌∷◌, position, length, option_map};
ghost use Rattle.std.specs.List.{before_first, after_first, list_any};
ghost use Rattle.std.specs.Str.Lines.{lines, strip_carriage_return};
ghost use Rattle.tenant_core.specs.tenant_messages.specs.CallParts.{call_of};
ghost use Rattle.crush_app.specs.Script as spec;

use tenant_core::CallParts;

/// Returns the index of the first byte in `bytes` that is `byte`, or `None`. Allocates nothing.
fn index_of(bytes: &[u8], byte: u8) -> Option<usize>
    ensures { result ≡ position (λ b. b == byte) bytes.now }
{
    bytes.iter().position(|found| *found == byte)
}

/// Returns the bytes before the first space and those after it; where there is no space, all bytes
/// and an empty rest. Allocates nothing.
fn at_space(bytes: &[u8]) -> (&[u8], &[u8])
    ensures before { result.0.now ≡ before_first spec.is_space bytes.now }
    ensures after { result.1.now ≡ after_first spec.is_space bytes.now }
{
    match index_of(bytes, b' ') {
        Some(index) => (&bytes[..index], &bytes[index + 1..]),
        None => (bytes, &[]),
    }
}

/// Returns whether one of `bytes` is a space.
fn has_space(bytes: &[u8]) -> bool
    ensures { result ≡ list_any spec.is_space bytes.now }
{
    bytes.iter().any(|byte| *byte == b' ')
}

/// Returns `bytes` as a text if they are UTF-8, and else `None`. Allocates nothing.
fn as_text(bytes: &[u8]) -> Option<&str>
    ensures { option_map (λ text. text.now) result ≡ spec.text_of bytes.now }
{
    str::from_utf8(bytes).ok()
}

/// Returns the call of `line` if it has the form of one, and else `None`: METHOD, a space, PATH,
/// and after one more space BODY, which is empty without that space. PATH is UTF-8. Allocates
/// nothing.
pub(crate) fn call_of_line(line: &[u8]) -> Option<CallParts<'_>>
    ensures { option_map call_of result ≡ spec.call_of_line line.now }
{
    if !has_space(line) {
        return None;
    }
    let (method, rest) = at_space(line);
    let (path, body) = at_space(rest);
    let path = as_text(path)?;
    Some(CallParts { method, path, body })
}

/// Returns the line without one CR at its end. Allocates nothing.
fn without_return(line: &[u8]) -> &[u8]
    ensures { result.now ≡ strip_carriage_return line.now }
{
    match line {
        [front @ .., b'\r'] => front,
        _ => line,
    }
}

/// Returns the first line of `input`, without its LF and one CR before the LF, and the rest that
/// follows it. Allocates nothing.
pub(crate) fn first_line(input: &[u8]) -> (&[u8], &[u8])
    requires { 0 < length input.now }
    ensures lines { lines input.now ≡ result.0.now ∷ lines result.1.now }
    ensures shorter { length result.1.now < length input.now }
{
    match index_of(input, b'\n') {
        Some(index) => (without_return(&input[..index]), &input[index + 1..]),
        None => (input, &[]),
    }
}
