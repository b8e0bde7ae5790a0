//! Numbers, and the form of a constant's digits (IEEE 1364-2005, integer constants).

ghost use Rattle.std.specs.Prelude.{◌≡◌, ◌≤◌, ◌&&◌, nat_le, Some, None, IfSome, if◌then◌else◌};
ghost use Rattle.source_types.specs.declared.verilog_tokens.VerilogToken.TheVariants as kind;
ghost use Rattle.netlist_model.specs.VerilogConstants as grammar;

use crate::lexing::bytes::{is_binary, is_decimal, is_hexadecimal, is_open_digit};
use source_types::VerilogToken;

/// The number after one more digit; `_` only parts digits.
fn next_number(number: u64, byte: u8) -> u64
    requires { number ≤ 4294967295 }
    ensures { result ≡ grammar.next_number number byte }
{
    if byte == b'_' {
        return number;
    }
    number * 10 + u64::from(byte.saturating_sub(b'0'))
}

/// The number of some digits, up to the last one of 64 bits that has 32.
#[tactic(auto, using(crate::proofs::NumberFacts::too_large_step, crate::proofs::NumberFacts::small))]
fn small_number(digits: &[u8]) -> Option<u64>
    ensures is { result ≡ (if nat_le (grammar.number_of digits.now) 4294967295 then Some (grammar.number_of digits.now) else None) }
    ensures small { IfSome result (λ number. number ≤ 4294967295) }
{
    let mut number = 0;
    for digit in digits.iter() {
        number = next_number(number, *digit);
        if number > 4_294_967_295 {
            return None;
        }
    }
    Some(number)
}

/// The number of some digits, or `None` where it passes 32 bits.
pub fn number_of(digits: &[u8]) -> Option<u32>
    ensures { result ≡ (if nat_le (grammar.number_of digits.now) 4294967295 then Some (grammar.number_of digits.now) else None) }
{
    match small_number(digits) {
        Some(number) => Some(number as u32),
        None => None,
    }
}

/// Whether digits begin with no zero.
fn leads_nonzero(digits: &[u8]) -> bool
    ensures { result ≡ grammar.leads_nonzero digits.now }
{
    match digits {
        [] => false,
        [digit, ..] => *digit != b'0',
    }
}

/// What a number may be: the size of a constant, a bound of a range, or an index alone.
#[tactic(auto, using(crate::proofs::NumberFacts::large_kind, crate::proofs::NumberFacts::some_kind))]
pub fn number_kind(digits: &[u8]) -> VerilogToken
    ensures { result ≡ grammar.number_kind digits.now }
{
    match number_of(digits) {
        Some(number) => kind_of(digits, number),
        None => VerilogToken::LargeNumber,
    }
}

/// The kind of a number of some digits.
fn kind_of(digits: &[u8], number: u32) -> VerilogToken
    ensures { result ≡ (if grammar.leads_nonzero digits.now && nat_le 1 number && nat_le number 64 then kind.Size else (if nat_le number 999999 then kind.Number else kind.LargeNumber)) }
{
    if is_size(digits, number) {
        return VerilogToken::Size;
    }
    if number <= 999_999 {
        return VerilogToken::Number;
    }
    VerilogToken::LargeNumber
}

/// Whether digits of a number can be the size of a constant.
fn is_size(digits: &[u8], number: u32) -> bool
    ensures { result ≡ (grammar.leads_nonzero digits.now && nat_le 1 number && nat_le number 64) }
{
    leads_nonzero(digits) && 1 <= number && number <= 64
}

/// Whether all digits are binary ones or `_`.
fn go_on_binary(digits: &[u8]) -> bool
    ensures { result ≡ grammar.go_on grammar.is_binary digits.now }
{
    digits
        .iter()
        .all(|digit| is_binary(*digit) || *digit == b'_')
}

/// Whether all digits are hexadecimal ones or `_`.
fn go_on_hexadecimal(digits: &[u8]) -> bool
    ensures { result ≡ grammar.go_on grammar.is_hexadecimal digits.now }
{
    digits
        .iter()
        .all(|digit| is_hexadecimal(*digit) || *digit == b'_')
}

/// Whether all digits are decimal ones or `_`.
fn go_on_decimal(digits: &[u8]) -> bool
    ensures { result ≡ grammar.go_on grammar.is_decimal digits.now }
{
    digits
        .iter()
        .all(|digit| is_decimal(*digit) || *digit == b'_')
}

/// Whether all digits are `_`.
fn go_on_nothing(digits: &[u8]) -> bool
    ensures { result ≡ grammar.go_on grammar.is_nothing digits.now }
{
    digits.iter().all(|digit| *digit == b'_')
}

/// Whether a digit and those after it are decimal, or one digit that means no source.
fn are_decimal(first: u8, rest: &[u8]) -> bool
    ensures { result ≡ grammar.are_decimal first rest.now }
{
    if is_open_digit(first) {
        return go_on_nothing(rest);
    }
    is_decimal(first) && go_on_decimal(rest)
}

/// Whether bytes are digits after the letter of a base.
pub fn are_digits(letter: u8, digits: &[u8]) -> bool
    ensures { result ≡ grammar.are_digits letter digits.now }
{
    let [first, rest @ ..] = digits else {
        return false;
    };
    if letter == b'b' {
        return is_binary(*first) && go_on_binary(rest);
    }
    if letter == b'h' {
        return is_hexadecimal(*first) && go_on_hexadecimal(rest);
    }
    are_decimal(*first, rest)
}
