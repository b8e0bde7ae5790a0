//! Steps of a parsed expression that run nothing, over the values so far.

ghost use Rattle.std.specs.Prelude.{◌≡◌, ◌<◌, reverse};
ghost use Rattle.sdc_base.specs.Gives.{Meets};
ghost use Rattle.source_types.specs.declared.expressions.ExpressionStep.TheVariants as step;
ghost use Rattle.tcl_eval.specs.StepsRun.{Takes, TakesValue, ended, passing as passing_of};

use crate::expressions::operations::{changed, decided, joined};
use crate::expressions::values::computed;
use sdc_base::{Fixed, NumberError, Stop};
use source_types::{BinaryOperator, ExpressionStep, Scalar, TclKind, UnaryOperator};
use std::alloc::Global;

/// Of how many operators the steps are still passed over after a step that is.
pub fn passing(step: &ExpressionStep, passed: usize) -> usize
    requires { passed < 18446744073709551615 }
    ensures { result ≡ passing_of step.now passed }
{
    match step {
        ExpressionStep::Number(_) | ExpressionStep::Word(..) | ExpressionStep::Unary(_) => passed,
        ExpressionStep::Decide(_) => passed + 1,
        ExpressionStep::Binary(operator) => after_operator(*operator, passed),
    }
}

/// The same after an operator between two operands.
fn after_operator(operator: BinaryOperator, passed: usize) -> usize
    ensures { result ≡ passing_of (step.Binary operator) passed }
{
    match operator {
        BinaryOperator::Or | BinaryOperator::And => passed.saturating_sub(1),
        BinaryOperator::Equal
        | BinaryOperator::NotEqual
        | BinaryOperator::TextEqual
        | BinaryOperator::TextNotEqual
        | BinaryOperator::Less
        | BinaryOperator::LessEqual
        | BinaryOperator::Greater
        | BinaryOperator::GreaterEqual
        | BinaryOperator::Add
        | BinaryOperator::Subtract
        | BinaryOperator::Multiply
        | BinaryOperator::Divide
        | BinaryOperator::Remainder => passed,
    }
}

/// Adds a value that was made to those so far, or refuses with its fault; says of how many operators the steps are then
/// passed over.
fn take_value(
    values: &mut Vec<Scalar>,
    made: Result<Scalar, TclKind>,
    passed: usize,
) -> Result<usize, Stop<TclKind>>
    ensures { Meets result (λ given. TakesValue made (reverse values.old.items) passed given (reverse values.new.items)) }
{
    match made {
        Ok(value) => {
            values.push(value)?;
            Ok(passed)
        }
        Err(kind) => Err(Stop::Refused(kind)),
    }
}

/// A number, which is a value.
pub fn take_number(
    values: &mut Vec<Scalar>,
    number: Result<Fixed, NumberError>,
) -> Result<usize, Stop<TclKind>>
    ensures { Meets result (λ given. Takes (step.Number number) (reverse values.old.items) given (reverse values.new.items)) }
{
    take_value(values, computed(number), 0)
}

/// An operator on the last value.
pub fn take_unary(values: &mut Vec<Scalar>, operator: UnaryOperator) -> Result<usize, Stop<TclKind>>
    ensures { Meets result (λ given. Takes (step.Unary operator) (reverse values.old.items) given (reverse values.new.items)) }
{
    let Some(value) = values.pop() else {
        return Err(Stop::Refused(TclKind::BadExpr));
    };
    take_value(values, changed(operator, &value), 0)
}

/// What stands after the left side of `&&` or `||`: where it decides, the right side's steps are passed over.
pub fn take_decision(
    values: &mut Vec<Scalar>,
    operator: BinaryOperator,
) -> Result<usize, Stop<TclKind>>
    ensures { Meets result (λ given. Takes (step.Decide operator) (reverse values.old.items) given (reverse values.new.items)) }
{
    let Some(left) = values.pop() else {
        return Err(Stop::Refused(TclKind::BadExpr));
    };
    match decided(operator, &left) {
        Some(outcome) => take_value(values, outcome, 1),
        None => take_value(values, Ok(left), 0),
    }
}

/// An operator on the last two values.
pub fn take_binary(
    alloc: Global,
    values: &mut Vec<Scalar>,
    operator: BinaryOperator,
) -> Result<usize, Stop<TclKind>>
    ensures { Meets result (λ given. Takes (step.Binary operator) (reverse values.old.items) given (reverse values.new.items)) }
{
    let Some(right) = values.pop() else {
        return Err(Stop::Refused(TclKind::BadExpr));
    };
    let Some(left) = values.pop() else {
        return Err(Stop::Refused(TclKind::BadExpr));
    };
    match joined(alloc, operator, &left, &right) {
        Ok(value) => take_value(values, Ok(value), 0),
        Err(stop) => Err(stop),
    }
}

/// The value that the steps of an expression leave. Refused as `BadExpr` where they leave none or several.
pub fn last_value(values: Vec<Scalar>) -> Result<Scalar, TclKind>
    ensures { result ≡ ended (reverse values.items) }
{
    let mut values = values;
    let Some(value) = values.pop() else {
        return Err(TclKind::BadExpr);
    };
    if !values.is_empty() {
        return Err(TclKind::BadExpr);
    }
    Ok(value)
}
