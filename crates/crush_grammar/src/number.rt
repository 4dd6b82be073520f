//! Numbers in decimal.

ghost use Rattle.std.specs.Prelude.{◌≡◌, ◌<◌, ◌≤◌, ◌^◌, ◌-◌, length, true, IfSome};
ghost use Rattle.std.specs.List.{list_all};
ghost use Rattle.crush_grammar.specs.Numbers as spec;

use crush_map::are_digits;
use crush_map::limits::DIGIT_LIMIT;

/// Returns the value of a digit, 0 to 9.
fn digit(byte: u8) -> u64
    requires { spec.is_digit byte ≡ true }
    ensures value { result ≡ byte - 48 }
    ensures bound { result ≤ 9 }
{
    u64::from(byte - b'0')
}

/// Reads the number that at most `DIGIT_LIMIT` digits write.
#[tactic(auto, using(crate::proofs::Digits::more_below, crate::proofs::Digits::first_is, crate::proofs::Digits::others_are))]
fn number(text: &[u8]) -> u64
    requires digits { list_all spec.is_digit text.now ≡ true }
    requires few { length text.now ≤ DIGIT_LIMIT }
    ensures value { result ≡ spec.number_from 0 text.now }
    ensures bound { result < 10 ^ length text.now }
{
    let mut number = 0;
    for byte in text {
        number = number * 10 + digit(*byte);
    }
    number
}

/// Reads the number that 1 to `DIGIT_LIMIT` digits write. `None`: the text has another form.
#[tactic(auto, using(crate::proofs::Digits::below_ten), unfolding(crate::specs::Numbers::number_of))]
pub fn number_from_text(text: &[u8]) -> Option<u64>
    ensures value { result ≡ spec.number_of text.now }
    ensures bound { IfSome result (λ n. n < 10 ^ DIGIT_LIMIT) }
{
    if are_digits(1, DIGIT_LIMIT, text) {
        Some(number(text))
    } else {
        None
    }
}

/// Reads the integer that 1 to `DIGIT_LIMIT` digits write, with or without a minus before them.
/// `None`: the text has another form.
#[tactic(auto, unfolding(crate::specs::Numbers::integer_of))]
pub fn integer_from_text(text: &[u8]) -> Option<i64>
    ensures { result ≡ spec.integer_of text.now }
{
    let [first, digits @ ..] = text else {
        return None;
    };
    if *first == b'-' {
        number_from_text(digits).map(|n| -(n as i64))
    } else {
        number_from_text(text).map(|n| n as i64)
    }
}
