//! What the headers of a head say.

ghost use Rattle.std.specs.Prelude.{◌≡◌, ◌≤◌, ◌∷◌, [], ◌&&◌, true, length, map, codes, All};
ghost use Rattle.std.specs.List.{list_all};
ghost use Rattle.std.specs.Char.{is_ascii_digit};
ghost use Rattle.std.specs.Str.Parse.{digits_value};
ghost use Rattle.httparse.specs.Spans.{IsHeaderWithin, header_bytes, span_bytes};
ghost use Rattle.crush_http.specs.Headers as spec;
ghost use Rattle.crush_http.specs.Private.Reading.{AreValues, IsSize};

use crate::rejection::Rejection;
use httparse::spans::HeaderSpan;
use tenant_core::limits::BODY_LIMIT;

/// The values of the headers of a name.
#[derive(Clone, Copy)]
pub(crate) enum Values<'a> {
    None,
    One(&'a [u8]),
    Many,
}

/// Returns whether `header` has the name `name`, in any case of letters.
fn is_named(bytes: &[u8], header: &HeaderSpan, name: &[u8]) -> bool
    requires { IsHeaderWithin (length bytes.now) header.now }
    ensures { result ≡ spec.same_word (span_bytes bytes.now header.now.name) name.now }
{
    header.name.of(bytes).eq_ignore_ascii_case(name)
}

/// Returns the values of the headers with the name `name`.
fn values_of<'a>(bytes: &'a [u8], headers: &[HeaderSpan], name: &[u8]) -> Values<'a>
    requires { All (IsHeaderWithin (length bytes.now)) headers.now }
    ensures { AreValues result (spec.values name.now (map (header_bytes bytes.now) headers.now)) }
{
    let mut values = Values::None;
    for header in headers {
        if is_named(bytes, header, name) {
            values = match values {
                Values::None => Values::One(header.value.of(bytes)),
                Values::One(_) | Values::Many => Values::Many,
            };
        }
    }
    values
}

/// Returns the number that the decimal digits of `text` write.
fn number_of(text: &[u8]) -> u64
    requires small { digits_value 10 text.now ≤ 9999999999 }
    requires digits { list_all is_ascii_digit text.now ≡ true }
    ensures { result ≡ digits_value 10 text.now }
{
    let mut number = 0;
    for byte in text {
        number = number * 10 + u64::from(*byte - b'0');
    }
    number
}

/// Returns whether each byte is a decimal digit.
fn are_digits(text: &[u8]) -> bool
    ensures { result ≡ list_all is_ascii_digit text.now }
{
    text.iter().all(|byte| byte.is_ascii_digit())
}

/// Returns whether `text` has the form of a length: 1 to 10 decimal digits.
fn is_length(text: &[u8]) -> bool
    ensures { result ≡ spec.is_length text.now }
{
    !text.is_empty() && text.len() <= 10 && are_digits(text)
}

/// Returns the length of the body, in bytes, that `text` says, the one Content-Length. `Err`: why
/// the message isn't served.
fn size_by_length(text: &[u8]) -> Result<usize, Rejection>
    ensures { IsSize result (spec.size_by_length (text.now ∷ [])) }
{
    if !is_length(text) {
        return Err(Rejection::BadRequest);
    }
    let number = number_of(text);
    if number > BODY_LIMIT as u64 {
        return Err(Rejection::TooLarge);
    }
    Ok(number as usize)
}

/// Returns the length of the body, in bytes. `Err`: why the message isn't served.
pub(crate) fn size_of(bytes: &[u8], headers: &[HeaderSpan]) -> Result<usize, Rejection>
    requires { All (IsHeaderWithin (length bytes.now)) headers.now }
    ensures { IsSize result (spec.size_of (map (header_bytes bytes.now) headers.now)) }
{
    match values_of(bytes, headers, b"transfer-encoding") {
        Values::None => {}
        Values::One(_) | Values::Many => return Err(Rejection::Length),
    }
    match values_of(bytes, headers, b"content-length") {
        Values::None => Ok(0),
        Values::One(text) => size_by_length(text),
        Values::Many => Err(Rejection::BadRequest),
    }
}

/// Returns whether `header` is `Connection: close`.
fn is_close(bytes: &[u8], header: &HeaderSpan) -> bool
    requires { IsHeaderWithin (length bytes.now) header.now }
    ensures { result ≡ (spec.same_word (span_bytes bytes.now header.now.name) (codes "connection") && spec.same_word (span_bytes bytes.now header.now.value) (codes "close")) }
{
    is_named(bytes, header, b"connection") && header.value.of(bytes).eq_ignore_ascii_case(b"close")
}

/// Returns whether one of the headers is `Connection: close`.
pub(crate) fn asks_close(bytes: &[u8], headers: &[HeaderSpan]) -> bool
    requires { All (IsHeaderWithin (length bytes.now)) headers.now }
    ensures { result ≡ spec.asks_close (map (header_bytes bytes.now) headers.now) }
{
    let mut closes = false;
    for header in headers {
        if is_close(bytes, header) {
            closes = true;
        }
    }
    closes
}
