//! Values of an expression: numbers, texts and truth (Tcl).

ghost use Rattle.std.specs.Prelude.{◌≡◌, IfOk};
ghost use Rattle.sdc_base.specs.Number.{read_number};
ghost use Rattle.tcl_model.specs.ExpressionValue as spec;
ghost use Rattle.tcl_eval.specs.Values.{both_numbers};

use sdc_base::{Duplicate, Fixed, NoMemory, NumberError, Text};
use source_types::{Scalar, TclKind};
use std::alloc::Global;

/// The number 1 in units of 10^-9.
const ONE: i128 = 1_000_000_000;

/// The text of a value. The one error is want of memory.
pub fn text_of(alloc: Global, value: &Scalar) -> Result<Text, NoMemory>
    ensures { IfOk result (λ text. text ≡ spec.text_of value.now) }
{
    match value {
        Scalar::Number(number) => number.text(alloc),
        Scalar::Text(text) => text.copy(alloc),
    }
}

/// A number that was read: a text that has not the form of one is `BadExpr`.
pub fn expected(read: Result<Fixed, NumberError>) -> Result<Fixed, TclKind>
    ensures { result ≡ spec.expected read }
{
    match read {
        Ok(number) => Ok(number),
        Err(NumberError::NumberForm) => Err(TclKind::BadExpr),
        Err(NumberError::NumberRange) => Err(TclKind::Number(NumberError::NumberRange)),
        Err(NumberError::DivideByZero) => Err(TclKind::Number(NumberError::DivideByZero)),
    }
}

/// The number that a value is. Refused as `BadExpr` where it is a text that has not the form of a number, as `Number`
/// where it is out of range.
pub fn number_of(value: &Scalar) -> Result<Fixed, TclKind>
    ensures { result ≡ spec.number_of value.now }
{
    match value {
        Scalar::Number(number) => Ok(*number),
        Scalar::Text(text) => expected(Fixed::read(text.as_str())),
    }
}

/// The numbers of both sides of an operator, the left one first. Refused as `number_of` refuses.
pub fn numbers_of(left: &Scalar, right: &Scalar) -> Result<(Fixed, Fixed), TclKind>
    ensures { result ≡ both_numbers (spec.number_of left.now) (spec.number_of right.now) }
{
    let left = number_of(left)?;
    let right = number_of(right)?;
    Ok((left, right))
}

/// Whether a text has the form of a number, in range or not.
fn has_form(text: &str) -> bool
    ensures { result ≡ spec.has_form (read_number text.now) }
{
    match Fixed::read(text) {
        Ok(_) => true,
        Err(NumberError::NumberForm) => false,
        Err(NumberError::NumberRange) | Err(NumberError::DivideByZero) => true,
    }
}

/// Whether a value is a number or has the form of one.
pub fn is_numeric(value: &Scalar) -> bool
    ensures { result ≡ spec.is_numeric value.now }
{
    match value {
        Scalar::Number(_) => true,
        Scalar::Text(text) => has_form(text.as_str()),
    }
}

/// A truth as a value: 1 or 0.
pub fn truth_value(truth: bool) -> Scalar
    ensures { result ≡ spec.truth_value truth }
{
    if truth {
        return Scalar::Number(Fixed {
            scaled: ONE,
            whole: true,
        });
    }
    Scalar::Number(Fixed {
        scaled: 0,
        whole: true,
    })
}

/// Whether a number is true: not 0.
pub fn is_true(number: Fixed) -> bool
    ensures { result ≡ spec.is_true number }
{
    number.scaled.unsigned_abs() != 0
}

/// The truth of a value. Refused as `number_of` refuses.
pub fn truth_of(value: &Scalar) -> Result<bool, TclKind>
    ensures { result ≡ spec.truth_of value.now }
{
    let number = number_of(value)?;
    Ok(is_true(number))
}

/// A number that was computed, as a value. Refused as `Number`, with the cause.
pub fn computed(number: Result<Fixed, NumberError>) -> Result<Scalar, TclKind>
    ensures { result ≡ spec.computed number }
{
    match number {
        Ok(number) => Ok(Scalar::Number(number)),
        Err(error) => Err(TclKind::Number(error)),
    }
}
