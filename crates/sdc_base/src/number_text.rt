//! The parts of a number's text, each found by one small scan over its bytes.

ghost use Rattle.std.specs.Prelude.{◌≡◌, ◌++◌, ◌+◌, ◌-◌, ◌^◌, ◌<◌, ◌≤◌, length, take, drop, IsTrue};
ghost use Rattle.std.specs.Char.{is_ascii_digit};
ghost use Rattle.std.specs.List.{prefix_len, take_while};
ghost use Rattle.std.specs.Str.{all_ascii_digits};
ghost use Rattle.std.specs.Str.Parse.{digits_value, digits_value_after};
ghost use Rattle.sdc_base.specs.Number.{is_minus, sign_of, after_sign, after_digits, after_of, after_after, decimals_in, is_count, exponent_of};
ghost use Rattle.sdc_base.specs.NumberText.{small_value, power_of, power_with};

/// The greatest magnitude of an exponent.
const MOST_EXPONENT: u32 = 30;

/// How many digits a number may have before its exponent.
const MOST_DIGITS: usize = 30;

/// The powers of ten by which an exponent multiplies and divides; one of them is 0.
#[derive(Clone, Copy)]
pub(crate) struct Power {
    pub(crate) raised: u32,
    pub(crate) lowered: u32,
}

/// Whether the text begins with a minus, and what stands after its sign.
pub(crate) fn split_sign(text: &[u8]) -> (bool, &[u8])
    ensures sign { result.0 ≡ is_minus (sign_of text.now) }
    ensures rest { result.1.now ≡ after_sign text.now }
{
    match text {
        [b'+', rest @ ..] => (false, rest),
        [b'-', rest @ ..] => (true, rest),
        _ => (false, text),
    }
}

/// How many digits stand at the front of the text.
fn count_digits(text: &[u8]) -> usize
    ensures count { result ≡ prefix_len is_ascii_digit text.now }
    ensures within { result ≤ length text.now }
{
    let mut count = 0;
    for byte in text {
        if !byte.is_ascii_digit() {
            break;
        }
        count += 1;
    }
    count
}

/// The digits at the front of the text, and what stands after them.
pub(crate) fn split_digits(text: &[u8]) -> (&[u8], &[u8])
    ensures digits { result.0.now ≡ take_while is_ascii_digit text.now }
    ensures all { IsTrue (all_ascii_digits result.0.now) }
    ensures rest { result.1.now ≡ after_digits text.now }
{
    text.split_at(count_digits(text))
}

/// The digits after a point at the front of the text, and what stands after them.
pub(crate) fn split_decimals(text: &[u8]) -> (&[u8], &[u8])
    ensures digits { result.0.now ≡ decimals_in (after_of text.now) }
    ensures all { IsTrue (all_ascii_digits result.0.now) }
    ensures rest { result.1.now ≡ after_after text.now }
{
    match text {
        [b'.', rest @ ..] => split_digits(rest),
        _ => (&[], text),
    }
}

/// Whether a number may have these digits before and after its point: at least one and at most 30.
pub(crate) fn is_count(before: &[u8], fraction: &[u8]) -> bool
    ensures { result ≡ is_count (length before.now + length fraction.now) }
{
    let count = before.len().saturating_add(fraction.len());
    0 < count && count <= MOST_DIGITS
}

/// What the exponent that is the whole text does; an empty text is no exponent, which does nothing.
/// None where the text is something else, or the exponent too great.
pub(crate) fn exponent_in(text: &[u8]) -> Option<Power>
    ensures { result ≡ power_of (exponent_of text.now) }
{
    match text {
        [] => Some(with_magnitude(false, 0)),
        [b'e' | b'E', rest @ ..] => {
            let (negative, digits) = split_sign(rest);
            let magnitude = small_value(digits)?;
            Some(with_magnitude(negative, magnitude))
        }
        _ => None,
    }
}

fn with_magnitude(negative: bool, magnitude: u32) -> Power
    ensures { result ≡ power_with negative magnitude }
{
    if negative {
        Power {
            raised: 0,
            lowered: magnitude,
        }
    } else {
        Power {
            raised: magnitude,
            lowered: 0,
        }
    }
}

/// The value of one or more digits, where they are nothing else and it is at most 30.
fn small_value(digits: &[u8]) -> Option<u32>
    ensures { result ≡ small_value digits.now }
{
    if digits.is_empty() {
        return None;
    }
    let mut value = 0;
    for byte in digits {
        if !byte.is_ascii_digit() {
            return None;
        }
        value = (value * 10 + u32::from(*byte - b'0')).min(MOST_EXPONENT + 1);
    }
    if value <= MOST_EXPONENT {
        Some(value)
    } else {
        None
    }
}

/// The value of the digits before and after the point, read as one whole number.
pub(crate) fn digits_value(before: &[u8], fraction: &[u8]) -> u128
    requires few { length before.now + length fraction.now ≤ 30 }
    requires before { IsTrue (all_ascii_digits before.now) }
    requires fraction { IsTrue (all_ascii_digits fraction.now) }
    ensures value { result ≡ digits_value 10 (before.now ++ fraction.now) }
    ensures below { result < 10 ^ 30 }
{
    append_digits(append_digits(0, before), fraction)
}

/// The value of the digits that `value` stands for and those that follow.
fn append_digits(value: u128, digits: &[u8]) -> u128
    requires few { length digits.now ≤ 30 }
    requires room { value < 10 ^ (30 - length digits.now) }
    requires digits { IsTrue (all_ascii_digits digits.now) }
    ensures { result ≡ digits_value_after 10 value digits.now }
{
    let mut total = value;
    for byte in digits {
        total = total * 10 + u128::from(*byte - b'0');
    }
    total
}
