//! What the operators of an expression make of values (Tcl).

ghost use Rattle.std.specs.Prelude.{◌≡◌, ◌||◌, ◌&&◌, not, Ok, if◌then◌else◌};
ghost use Rattle.sdc_base.specs.Gives.{Gives};
ghost use Rattle.source_types.specs.declared.expressions.BinaryOperator.TheVariants as op;
ghost use Rattle.tcl_model.specs.ExpressionValue as spec;

use crate::expressions::values::{
    computed, is_numeric, is_true, number_of, numbers_of, text_of, truth_of, truth_value,
};
use sdc_base::{Fixed, Stop};
use source_types::{BinaryOperator, Scalar, TclKind, UnaryOperator};
use std::alloc::Global;

/// Whether a number is below another.
fn is_less(left: Fixed, right: Fixed) -> bool
    ensures { result ≡ spec.is_less left right }
{
    left.scaled < right.scaled
}

/// Whether two numbers are the same.
fn is_same(left: Fixed, right: Fixed) -> bool
    ensures { result ≡ spec.is_same left right }
{
    !(is_less(left, right) || is_less(right, left))
}

/// `||`
fn either(left: &Scalar, right: &Scalar) -> Result<Scalar, TclKind>
    ensures { result ≡ spec.joined op.Or left.now right.now }
{
    let (left, right) = numbers_of(left, right)?;
    Ok(truth_value(is_true(left) || is_true(right)))
}

/// `&&`
fn both(left: &Scalar, right: &Scalar) -> Result<Scalar, TclKind>
    ensures { result ≡ spec.joined op.And left.now right.now }
{
    let (left, right) = numbers_of(left, right)?;
    Ok(truth_value(is_true(left) && is_true(right)))
}

/// `<`
fn less(left: &Scalar, right: &Scalar) -> Result<Scalar, TclKind>
    ensures { result ≡ spec.joined op.Less left.now right.now }
{
    let (left, right) = numbers_of(left, right)?;
    Ok(truth_value(is_less(left, right)))
}

/// `<=`
fn less_equal(left: &Scalar, right: &Scalar) -> Result<Scalar, TclKind>
    ensures { result ≡ spec.joined op.LessEqual left.now right.now }
{
    let (left, right) = numbers_of(left, right)?;
    Ok(truth_value(!is_less(right, left)))
}

/// `>`
fn greater(left: &Scalar, right: &Scalar) -> Result<Scalar, TclKind>
    ensures { result ≡ spec.joined op.Greater left.now right.now }
{
    let (left, right) = numbers_of(left, right)?;
    Ok(truth_value(is_less(right, left)))
}

/// `>=`
fn greater_equal(left: &Scalar, right: &Scalar) -> Result<Scalar, TclKind>
    ensures { result ≡ spec.joined op.GreaterEqual left.now right.now }
{
    let (left, right) = numbers_of(left, right)?;
    Ok(truth_value(!is_less(left, right)))
}

/// `+`
fn sum(left: &Scalar, right: &Scalar) -> Result<Scalar, TclKind>
    ensures { result ≡ spec.joined op.Add left.now right.now }
{
    let (left, right) = numbers_of(left, right)?;
    computed(left.add(right))
}

/// `-`
fn difference(left: &Scalar, right: &Scalar) -> Result<Scalar, TclKind>
    ensures { result ≡ spec.joined op.Subtract left.now right.now }
{
    let (left, right) = numbers_of(left, right)?;
    computed(left.sub(right))
}

/// `*`
fn product(left: &Scalar, right: &Scalar) -> Result<Scalar, TclKind>
    ensures { result ≡ spec.joined op.Multiply left.now right.now }
{
    let (left, right) = numbers_of(left, right)?;
    computed(left.mul(right))
}

/// `/`
fn quotient(left: &Scalar, right: &Scalar) -> Result<Scalar, TclKind>
    ensures { result ≡ spec.joined op.Divide left.now right.now }
{
    let (left, right) = numbers_of(left, right)?;
    computed(left.div(right))
}

/// `%`
fn remainder(left: &Scalar, right: &Scalar) -> Result<Scalar, TclKind>
    ensures { result ≡ spec.joined op.Remainder left.now right.now }
{
    let (left, right) = numbers_of(left, right)?;
    if !(left.whole && right.whole) {
        return Err(TclKind::BadExpr);
    }
    computed(left.rem(right))
}

/// Whether two things are the same, where this is wanted, or whether they differ.
fn as_wanted(wanted: bool, same: bool) -> bool
    ensures { result ≡ (if wanted then same else not same) }
{
    if wanted {
        return same;
    }
    !same
}

/// Two texts compared: whether they are equal, or whether they differ where this is not wanted. The one error is want
/// of memory.
fn compared_texts(
    alloc: Global,
    wanted: bool,
    left: &Scalar,
    right: &Scalar,
) -> Result<Scalar, Stop<TclKind>>
    ensures { Gives result (spec.compared_texts wanted left.now right.now) }
{
    let left = text_of(alloc, left)?;
    let right = text_of(alloc, right)?;
    Ok(truth_value(as_wanted(wanted, left.as_str() == right.as_str())))
}

/// Two numbers compared in the same way.
fn compared_numbers(wanted: bool, left: &Scalar, right: &Scalar) -> Result<Scalar, TclKind>
    ensures { result ≡ spec.on_numbers (λ a b. Ok (spec.truth_value (if wanted then spec.is_same a b else not (spec.is_same a b)))) left.now right.now }
{
    let (left, right) = numbers_of(left, right)?;
    Ok(truth_value(as_wanted(wanted, is_same(left, right))))
}

/// Two values compared in the same way, as numbers where both are numbers, and else as texts.
fn compared(
    alloc: Global,
    wanted: bool,
    left: &Scalar,
    right: &Scalar,
) -> Result<Scalar, Stop<TclKind>>
    ensures { Gives result (spec.compared wanted left.now right.now) }
{
    if is_numeric(left) && is_numeric(right) {
        return compared_numbers(wanted, left, right).map_err(Stop::Refused);
    }
    compared_texts(alloc, wanted, left, right)
}

/// What an operator makes of the values of its two sides (Tcl). Numbers are compared as numbers by `==` and `!=`,
/// anything else as texts; every operator but these, `eq` and `ne` wants numbers.
///
/// Refused as `BadExpr` where a text has not the form of a number that is wanted, or a side of `%` is not whole; as
/// `Number` where a number is out of range or a divisor is 0. The left side's fault is the first.
pub fn joined(
    alloc: Global,
    operator: BinaryOperator,
    left: &Scalar,
    right: &Scalar,
) -> Result<Scalar, Stop<TclKind>>
    ensures { Gives result (spec.joined operator left.now right.now) }
{
    match operator {
        BinaryOperator::Or => either(left, right).map_err(Stop::Refused),
        BinaryOperator::And => both(left, right).map_err(Stop::Refused),
        BinaryOperator::Equal => compared(alloc, true, left, right),
        BinaryOperator::NotEqual => compared(alloc, false, left, right),
        BinaryOperator::TextEqual => compared_texts(alloc, true, left, right),
        BinaryOperator::TextNotEqual => compared_texts(alloc, false, left, right),
        BinaryOperator::Less => less(left, right).map_err(Stop::Refused),
        BinaryOperator::LessEqual => less_equal(left, right).map_err(Stop::Refused),
        BinaryOperator::Greater => greater(left, right).map_err(Stop::Refused),
        BinaryOperator::GreaterEqual => greater_equal(left, right).map_err(Stop::Refused),
        BinaryOperator::Add => sum(left, right).map_err(Stop::Refused),
        BinaryOperator::Subtract => difference(left, right).map_err(Stop::Refused),
        BinaryOperator::Multiply => product(left, right).map_err(Stop::Refused),
        BinaryOperator::Divide => quotient(left, right).map_err(Stop::Refused),
        BinaryOperator::Remainder => remainder(left, right).map_err(Stop::Refused),
    }
}

/// What the left side of an operator gives by itself: the truth of `||` where it is true, of `&&` where it is not, or
/// its fault; `None` where the right side is needed.
pub fn decided(operator: BinaryOperator, left: &Scalar) -> Option<Result<Scalar, TclKind>>
    ensures { result ≡ spec.decided operator left.now }
{
    match operator {
        BinaryOperator::Or => decided_where(true, truth_of(left)),
        BinaryOperator::And => decided_where(false, truth_of(left)),
        BinaryOperator::Equal
        | BinaryOperator::NotEqual
        | BinaryOperator::TextEqual
        | BinaryOperator::TextNotEqual
        | BinaryOperator::Less
        | BinaryOperator::LessEqual
        | BinaryOperator::Greater
        | BinaryOperator::GreaterEqual
        | BinaryOperator::Add
        | BinaryOperator::Subtract
        | BinaryOperator::Multiply
        | BinaryOperator::Divide
        | BinaryOperator::Remainder => None,
    }
}

/// The same, by the truth of the left side and the one that decides.
fn decided_where(deciding: bool, truth: Result<bool, TclKind>) -> Option<Result<Scalar, TclKind>>
    ensures { result ≡ spec.decided_where deciding truth }
{
    match truth {
        Ok(true) => {
            if deciding {
                return Some(Ok(truth_value(true)));
            }
            None
        }
        Ok(false) => {
            if deciding {
                return None;
            }
            Some(Ok(truth_value(false)))
        }
        Err(kind) => Some(Err(kind)),
    }
}

/// What an operator makes of the value after it (Tcl). Refused as `BadExpr` where it is a text that has not the form
/// of a number, as `Number` where it is out of range.
pub fn changed(operator: UnaryOperator, value: &Scalar) -> Result<Scalar, TclKind>
    ensures { result ≡ spec.changed operator value.now }
{
    let number = number_of(value)?;
    Ok(changed_number(operator, number))
}

/// What an operator makes of a number.
fn changed_number(operator: UnaryOperator, number: Fixed) -> Scalar
    ensures { result ≡ spec.changed_number operator number }
{
    match operator {
        UnaryOperator::Plus => Scalar::Number(number),
        UnaryOperator::Minus => Scalar::Number(Fixed {
            scaled: -number.scaled,
            whole: number.whole,
        }),
        UnaryOperator::Not => truth_value(!is_true(number)),
    }
}
