//! Numbers of an expression (Tcl): digits with at most one point, and an exponent, without a sign.

ghost use Rattle.std.specs.Prelude.{◌≡◌, ◌<◌, ◌≤◌, ◌==◌, ◌||◌, true, length, drop, slice_index};
ghost use Rattle.std.specs.Str.{IsCharBoundary};
ghost use Rattle.text_model.specs.Bytes.{after, is_digit};
ghost use Rattle.tcl_model.specs.ExpressionTokens.{begins_digits, after_decimals, after_exponent, after_number, after_sign, number_token};
ghost use Rattle.tcl_words.specs.Operands.{IsFront};
ghost use Rattle.tcl_words.specs.Spans.{LeadsTo};
ghost use Rattle.tcl_eval.specs.Lexing.{LexedAt};

use crate::expressions::lexed::Lexed;
use sdc_base::{Fixed, NumberError};
use source_types::{ExpressionToken, TclKind};
use tcl_words::stands_at;

/// The place after the digits that stand at a place.
#[tactic(auto, using(crate::proofs::NumberFacts::digits_lead))]
fn digits_end(bytes: &[u8], from: usize) -> usize
    requires { from ≤ length bytes.now }
    ensures { LeadsTo bytes.now from result (after is_digit (drop from bytes.now)) }
{
    let mut at = from;
    while at < bytes.len() && bytes[at].is_ascii_digit() {
        at += 1;
    }
    at
}

/// Whether a digit stands at a place.
fn digit_at(bytes: &[u8], at: usize) -> bool
    ensures { result ≡ begins_digits (drop at bytes.now) }
{
    at < bytes.len() && bytes[at].is_ascii_digit()
}

/// The place after a point and its decimals, where a point stands at a place.
#[tactic(auto, using(crate::proofs::NumberFacts::decimals_none, crate::proofs::NumberFacts::decimals_some))]
fn decimals_end(bytes: &[u8], at: usize) -> usize
    requires { at ≤ length bytes.now }
    ensures { LeadsTo bytes.now at result (after_decimals (drop at bytes.now)) }
{
    if !stands_at(bytes, at, b'.') {
        return at;
    }
    digits_end(bytes, at + 1)
}

/// The place after a sign, where one stands at a place.
#[tactic(auto, using(crate::proofs::NumberFacts::sign_none, crate::proofs::NumberFacts::sign_some))]
fn sign_end(bytes: &[u8], at: usize) -> usize
    requires { at ≤ length bytes.now }
    ensures { LeadsTo bytes.now at result (after_sign (drop at bytes.now)) }
{
    if stands_at(bytes, at, b'+') || stands_at(bytes, at, b'-') {
        return at + 1;
    }
    at
}

/// The place after an exponent, where one stands at a place: an `e` or `E` is one only where digits follow.
#[tactic(auto, using(crate::proofs::NumberFacts::exponent_none, crate::proofs::NumberFacts::exponent_no_digits, crate::proofs::NumberFacts::exponent_some))]
fn exponent_end(bytes: &[u8], at: usize) -> usize
    requires { at ≤ length bytes.now }
    ensures { LeadsTo bytes.now at result (after_exponent (drop at bytes.now)) }
{
    if !(stands_at(bytes, at, b'e') || stands_at(bytes, at, b'E')) {
        return at;
    }
    let digits = sign_end(bytes, at + 1);
    if !digit_at(bytes, digits) {
        return at;
    }
    digits_end(bytes, digits)
}

/// The place after the longest number that stands at a place.
#[tactic(auto, using(crate::proofs::NumberFacts::number_leads))]
fn number_end(bytes: &[u8], at: usize) -> usize
    requires { at ≤ length bytes.now }
    ensures { LeadsTo bytes.now at result (after_number (drop at bytes.now)) }
{
    let point = digits_end(bytes, at);
    let mark = decimals_end(bytes, point);
    exponent_end(bytes, mark)
}

/// The number that stands at a place, where a digit or a point does. Refused as `BadExpr` where it has not the form
/// of a number: no digit, or too many of them, or too great an exponent.
#[tactic(auto, using(crate::proofs::NumberFacts::number_found, crate::proofs::NumberFacts::number_out, crate::proofs::NumberFacts::number_malformed, crate::proofs::NumberFacts::number_divided))]
pub fn number_at(text: &str, at: usize) -> Result<Lexed, TclKind>
    requires within { at < length text.now }
    requires boundary { IsCharBoundary text.now at }
    ensures { LexedAt (IsFront (number_token (drop at text.now) (after_number (drop at text.now)))) text.now at result }
{
    let end = number_end(text.as_bytes(), at);
    match Fixed::read(&text[at..end]) {
        Ok(number) => Ok(Lexed {
            token: ExpressionToken::Number(Ok(number)),
            end,
        }),
        Err(NumberError::NumberRange) => Ok(Lexed {
            token: ExpressionToken::Number(Err(NumberError::NumberRange)),
            end,
        }),
        Err(NumberError::NumberForm | NumberError::DivideByZero) => Err(TclKind::BadExpr),
    }
}
