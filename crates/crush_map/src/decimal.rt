//! Weights as decimal text.

ghost use Rattle.std.specs.Prelude.{◌≡◌, true, ◌<◌, ◌≤◌, ◌^◌, ◌*◌, ◌↔◌, ℕ, List, length, position, IfOk, Some, string_bytes};
ghost use Rattle.std.specs.List.{list_all};
ghost use Rattle.crush_map.specs.Faults.{is_name};
ghost use Rattle.crush_map.specs.WeightText as spec;
ghost use Rattle.crush_types.specs.declared.Weight.{Weight};

use crate::limits::{DIGIT_LIMIT, FRACTION_DIGIT_LIMIT};
use crush_types::Weight;
use std::alloc::{AllocError, Global};

/// Returns whether each byte is a digit.
fn all_are_digits(text: &[u8]) -> bool
    ensures { result ≡ list_all spec.is_digit text.now }
{
    text.iter().all(|byte| byte.is_ascii_digit())
}

/// Returns whether a text is `low` to `high` digits and nothing else.
pub fn are_digits(low: usize, high: usize, text: &[u8]) -> bool
    ensures { result ≡ spec.are_digits low high text.now }
{
    low <= text.len() && text.len() <= high && all_are_digits(text)
}

/// Reads the number that at most `FRACTION_DIGIT_LIMIT` digits write.
fn number(digits: &[u8]) -> u128
    requires digits { list_all spec.is_digit digits.now ≡ true }
    requires few { length digits.now ≤ FRACTION_DIGIT_LIMIT }
    ensures value { result ≡ spec.number digits.now }
    ensures bound { result < 10 ^ length digits.now }
{
    let mut number = 0;
    for digit in digits {
        number = number * 10 + u128::from(*digit - b'0');
    }
    number
}

/// Returns the weight of the digits before and after a point, rounded down.
fn weight_of_parts(whole: &[u8], fraction: &[u8]) -> Option<Weight>
    requires whole { list_all spec.is_digit whole.now ≡ true }
    requires fraction { list_all spec.is_digit fraction.now ≡ true }
    requires few_whole { length whole.now ≤ DIGIT_LIMIT }
    requires few_fraction { length fraction.now ≤ FRACTION_DIGIT_LIMIT }
    ensures { result ≡ spec.weight_below_2_to_32 (spec.in_65536ths whole.now fraction.now) }
{
    let parts = 10_u128.pow(fraction.len() as u32);
    let without_point = number(whole) * parts + number(fraction);
    let weight = without_point * 65_536 / parts;
    u32::try_from(weight).ok().map(Weight)
}

/// Finds the place of the first point.
fn first_point(text: &[u8]) -> Option<usize>
    ensures { result ≡ position spec.is_point text.now }
{
    text.iter().position(|byte| *byte == b'.')
}

/// Reads the weight that a text writes, rounded down to 16.16 fixed point: 1 to `DIGIT_LIMIT`
/// digits, alone or followed by a point and 1 to `FRACTION_DIGIT_LIMIT` digits.
///
/// `None`: the text has another form, or its value is 65536 or more.
#[tactic(auto, unfolding(crate::specs::WeightText::weight_of))]
pub fn weight_from_text(text: &[u8]) -> Option<Weight>
    ensures { result ≡ spec.weight_of text.now }
{
    match first_point(text) {
        None if are_digits(1, DIGIT_LIMIT, text) => weight_of_parts(text, &[]),
        None => None,
        Some(place) => {
            let (whole, fraction) = (&text[..place], &text[place + 1..]);
            if are_digits(1, DIGIT_LIMIT, whole) && are_digits(1, FRACTION_DIGIT_LIMIT, fraction) {
                weight_of_parts(whole, fraction)
            } else {
                None
            }
        }
    }
}

/// Returns a weight in hundred-thousandths of 1.0, rounded up.
fn hundred_thousandths(weight: Weight) -> u64
    ensures value { result ≡ spec.hundred_thousandths weight }
    ensures bound { result < 10 ^ 10 }
{
    (u64::from(weight.0) * 100_000).div_ceil(65_536)
}

/// Writes the decimal text of a weight, with five decimals, rounded up: `weight_from_text` reads
/// the same weight from it.
pub fn weight_text(alloc: Global, weight: Weight) -> Result<String, AllocError>
    ensures { IfOk result (λ text. string_bytes text ≡ spec.text_of weight) }
{
    let n = hundred_thousandths(weight);
    format!(in alloc;
        "{}.{}{}{}{}{}",
        n / 100_000,
        n / 10_000 % 10,
        n / 1_000 % 10,
        n / 100 % 10,
        n / 10 % 10,
        n % 10
    )
}

/// A weight is read from a text exactly if the text writes that weight.
pub fn weight_texts_are_read()
    ensures { (text : List ℕ) (weight : Weight) → spec.weight_of text ≡ Some weight ↔ spec.Writes text weight }
{}

/// The text of a weight has the least number of hundred-thousandths that is at least the weight; it
/// has the form of a name, and the same weight is read from it.
pub fn weight_comes_back()
    ensures least { (weight : Weight) (n : ℕ) → spec.hundred_thousandths weight ≤ n ↔ weight.0 * 100000 ≤ n * 65536 }
    ensures word { (weight : Weight) → weight.0 < 2 ^ 32 → is_name (spec.text_of weight) ≡ true }
    ensures back { (weight : Weight) → weight.0 < 2 ^ 32 → spec.weight_of (spec.text_of weight) ≡ Some weight }
{}
