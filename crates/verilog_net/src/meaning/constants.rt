//! The bits of sized constants (IEEE 1364-2005, integer constants).
//!
//! Each function here that may fail has want of memory as its one error.

ghost use Rattle.std.specs.Prelude.{◌≡◌, ◌≤◌, ◌<◌, ◌==◌, ◌++◌, ◌/◌, ◌%◌, ◌^◌, ◌-◌, ◌∷◌, [], drop, length, IfOk, OnOk};
ghost use Rattle.std.specs.List.{flat_map, repeat};
ghost use Rattle.netlist_model.specs.VerilogConstants as grammar;
ghost use Rattle.netlist_model.specs.VerilogSyntax as syntax;

use crate::lexing::bytes::{is_decimal, is_open_digit, lower};
use sdc_base::NoMemory;
use std::alloc::Global;

/// The bit of a number at a place, counted from the lowest.
fn bit_at(number: u64, place: u32) -> bool
    requires { place < 64 }
    ensures { result ≡ ((number / 2 ^ place) % 2 == 1) }
{
    (number >> place) % 2 == 1
}

/// Adds the lowest bits of a number, as many as said, the leftmost first.
fn add_low_bits(count: u32, number: u64, bits: &mut Vec<Option<bool>>) -> Result<(), NoMemory>
    requires { count ≤ 64 }
    ensures { OnOk result (bits.new.items ≡ bits.old.items ++ grammar.low_bits count number) }
{
    let mut left = count;
    while left > 0 {
        left -= 1;
        bits.push(Some(bit_at(number, left)))?;
    }
    Ok(())
}

/// Adds a bit as often as said.
fn add_repeated(
    bit: Option<bool>,
    count: usize,
    bits: &mut Vec<Option<bool>>,
) -> Result<(), NoMemory>
    ensures { OnOk result (bits.new.items ≡ bits.old.items ++ repeat count (bit ∷ [])) }
{
    let mut left = count;
    while left > 0 {
        bits.push(bit)?;
        left -= 1;
    }
    Ok(())
}

/// The value of a digit of base two or sixteen.
fn digit_value(byte: u8) -> u64
    ensures { result ≡ grammar.digit_value byte }
{
    if is_decimal(byte) {
        u64::from(byte.saturating_sub(48))
    } else {
        u64::from(lower(byte).saturating_sub(87))
    }
}

/// Adds the bits of a digit that stands for as many as said.
fn add_digit_bits(count: u32, byte: u8, bits: &mut Vec<Option<bool>>) -> Result<(), NoMemory>
    requires { count ≤ 64 }
    ensures { OnOk result (bits.new.items ≡ bits.old.items ++ grammar.digit_bits count byte) }
{
    if byte == b'_' {
        return Ok(());
    }
    if is_open_digit(byte) {
        return add_repeated(None, count as usize, bits);
    }
    add_low_bits(count, digit_value(byte), bits)
}

/// The bits of digits, each of which stands for as many as said.
fn all_bits(alloc: Global, count: u32, digits: &[u8]) -> Result<Vec<Option<bool>>, NoMemory>
    requires { count ≤ 64 }
    ensures { IfOk result (λ bits. bits.items ≡ flat_map (grammar.digit_bits count) digits.now) }
{
    let mut bits = Vec::new(alloc);
    for digit in digits {
        add_digit_bits(count, *digit, &mut bits)?;
    }
    Ok(bits)
}

/// What bits that are too few are filled with.
fn filling(bits: &[Option<bool>]) -> Option<bool>
    ensures { result ≡ grammar.filling bits.now }
{
    let [first, ..] = bits else {
        return Some(false);
    };
    match first {
        Some(_) => Some(false),
        None => None,
    }
}

/// The bits from a place on.
#[tactic(auto, using(crate::proofs::ConstantFacts::rest_is))]
fn rest(bits: &[Option<bool>], at: usize) -> &[Option<bool>]
    requires { at ≤ length bits.now }
    ensures { result.now ≡ drop at bits.now }
{
    &bits[at..]
}

/// Bits cut or filled at the left.
fn fitted(alloc: Global, size: u32, found: &[Option<bool>]) -> Result<Vec<Option<bool>>, NoMemory>
    ensures { IfOk result (λ bits. bits.items ≡ grammar.fitted size found.now) }
{
    let size = size as usize;
    let mut bits = Vec::new(alloc);
    add_repeated(filling(found), size.saturating_sub(found.len()), &mut bits)?;
    bits.extend_from_slice(rest(found, found.len().saturating_sub(size)))?;
    Ok(bits)
}

/// The number after one more digit, its lowest 64 bits.
#[tactic(auto, using(crate::proofs::ConstantFacts::wrapped_digit))]
fn next_wrapped(number: u64, byte: u8) -> u64
    ensures { result ≡ grammar.next_number number byte % 2 ^ 64 }
{
    if byte == b'_' {
        return number;
    }
    number
        .wrapping_mul(10)
        .wrapping_add(u64::from(byte.saturating_sub(48)))
}

/// The lowest 64 bits of the number of some digits.
fn wrapped_number(digits: &[u8]) -> u64
    ensures { result ≡ grammar.number_of digits.now % 2 ^ 64 }
{
    let mut number = 0;
    for digit in digits {
        number = next_wrapped(number, *digit);
    }
    number
}

/// The bits of digits of base ten: of a number, or of one digit that is no source.
#[tactic(auto, using(crate::proofs::ConstantFacts::low_wrapped))]
fn decimal_bits(alloc: Global, size: u32, digits: &[u8]) -> Result<Vec<Option<bool>>, NoMemory>
    requires { size ≤ 64 }
    ensures { IfOk result (λ bits. bits.items ≡ grammar.decimal_bits size digits.now) }
{
    let mut bits = Vec::new(alloc);
    let [first, ..] = digits else {
        add_low_bits(size, 0, &mut bits)?;
        return Ok(bits);
    };
    if is_open_digit(*first) {
        add_repeated(None, size as usize, &mut bits)?;
        return Ok(bits);
    }
    add_low_bits(size, wrapped_number(digits), &mut bits)?;
    Ok(bits)
}

/// The bits of digits of base two or sixteen, each of which stands for as many as said.
fn binary_bits(
    alloc: Global,
    size: u32,
    count: u32,
    digits: &[u8],
) -> Result<Vec<Option<bool>>, NoMemory>
    requires { count ≤ 64 }
    ensures { IfOk result (λ bits. bits.items ≡ grammar.fitted size (flat_map (grammar.digit_bits count) digits.now)) }
{
    let found = all_bits(alloc, count, digits)?;
    fitted(alloc, size, found.as_slice())
}

/// The bits of a constant of at most 64, from its size, the letter of its base and its digits.
#[tactic(auto, unfolding(netlist_model::specs::VerilogConstants::constant_bits))]
pub fn constant_bits(
    alloc: Global,
    size: u32,
    letter: u8,
    digits: &[u8],
) -> Result<Vec<Option<bool>>, NoMemory>
    requires { size ≤ 64 }
    ensures { IfOk result (λ bits. bits.items ≡ grammar.constant_bits size letter digits.now) }
{
    if letter == b'b' {
        return binary_bits(alloc, size, 1, digits);
    }
    if letter == b'h' {
        return binary_bits(alloc, size, 4, digits);
    }
    decimal_bits(alloc, size, digits)
}

/// The small letter of a base.
pub fn letter_of(text: &[u8]) -> u8
    ensures { result ≡ syntax.letter_of text.now }
{
    match text {
        [letter, ..] => lower(*letter),
        [] => 0,
    }
}
